//! Catches up with steps of lower depths, which a decision was taken before: there each clause is
//! watched so that it stays well at each depth.
ghost use Rattle.std.specs.Prelude.{◌≡◌, ℕ, true, false, ◌+◌, ◌*◌, ◌<◌, ◌≤◌, ◌⊎◌, List, All, Contains, length, slice_set, vec_capacity};
ghost use Rattle.clause_store.specs.declared.waits.Wait.{Wait};
ghost use Rattle.literals.specs.Signed.{Signed, opposite, packed};
ghost use Rattle.clause_store.specs.Stored.{IsFalseOn};
ghost use Rattle.clause_store.specs.Entries.{entry_at, bare, rooms, IsKnown, IsOther};
ghost use Rattle.clause_store.specs.Watching.{IsWatching, IsPair, Grows, kept_from};
ghost use Rattle.clause_store.specs.Looks.{LooksAt, LooksBy};
ghost use Rattle.clause_store.specs.Room.{HasPlace, LeavesRoom, HasRoomToWait, HasRoomToMove};
ghost use Rattle.clause_store.specs.Visits.{Parts};
ghost use Rattle.clause_store.specs.Late.{ExaminedGives, PinGives, LateGives, IsReady, LateSweptGives};

use crate::choose::{another, false_from};
use crate::lists::{Watch, WatchList};
use crate::rows::Rows;
use crate::sweep::{Swept, Visit, find, is_false, is_same, transfer};
use crate::trail::Trail;
use crate::waits::{Wait, force, wait_anew};
use literals::Literal;

// What a look at a clause finds: a literal that isn't false; none; or the other one alone, and the one that became false last, with its depth.
#[derive(Clone, Copy)]
pub enum Examined {
    Found(Literal),
    False,
    Pinned(Literal, u32),
}

fn other_of(f: Literal, row: u32, rows: &Rows) -> Literal
    requires place { row < length rows.now.entries }
    requires own { ((entry_at rows.now.entries row).first ≡ f) ⊎ ((entry_at rows.now.entries row).second ≡ f) }
    ensures { IsOther (entry_at rows.now.entries row) f result }
{
    let first = rows.first(row);
    if is_same(first, f) {
        return rows.second(row);
    }
    first
}

fn examine_literals(literals: &[Literal], other: Literal, trail: &Trail) -> Examined
    requires known { All (λ (l : Signed). l.atom < trail.now.atoms) literals.now }
    requires contained { Contains literals.now other }
    requires one_false { (l : Signed) × Contains literals.now l × IsFalseOn trail.now.steps l }
    ensures { ExaminedGives trail.now.steps literals.now other result }
{
    match find(literals, other, trail) {
        Some(found) => Examined::Found(found),
        None => {
            if is_false(trail, other) {
                return Examined::False;
            }
            let second = another(literals, other, trail);
            let from = false_from(other, second, trail);
            Examined::Pinned(second, from)
        }
    }
}

fn examine(other: Literal, row: u32, rows: &mut Rows, trail: &Trail) -> Examined
    requires place { row < length rows.old.entries }
    requires known { All (λ (l : Signed). l.atom < trail.now.atoms) (entry_at rows.old.entries row).literals }
    requires contained { Contains (entry_at rows.old.entries row).literals other }
    requires one_false { (l : Signed) × Contains (entry_at rows.old.entries row).literals l × IsFalseOn trail.now.steps l }
    ensures rises { rows.old.looks ≤ rows.new.looks }
    ensures once { rows.new.looks ≤ rows.old.looks + 1 }
    ensures same { rows.new.entries ≡ rows.old.entries }
    ensures gives { ExaminedGives trail.now.steps (entry_at rows.old.entries row).literals other result }
{
    let looked = rows.look(row);
    examine_literals(rows.literals(looked), other, trail)
}

// A clause waits for its one literal that isn't false, which is forced, and is watched by the one that became false last beside it.
fn pin(
    f: Literal,
    second: Literal,
    other: Literal,
    from: u32,
    row: u32,
    rows: &mut Rows,
    lists: &mut [WatchList],
    trail: &mut Trail,
    waiting: &mut Vec<Wait>,
) -> Visit
    requires place { row < length rows.old.entries }
    requires list { packed second < length lists.old }
    requires known { other.atom < trail.old.atoms }
    requires not_false { IsFalseOn trail.old.steps other → ⊥ }
    requires within { All (λ (w : Wait). w.row < length rows.old.entries) waiting.old.items }
    requires room { HasRoomToWait rows.old.entries waiting.old.items (vec_capacity waiting.old) }
    requires move_room { (second ≡ f → ⊥) → HasPlace (bare lists.old) (rooms lists.old) second }
    ensures rooms { rooms lists.new ≡ rooms lists.old }
    ensures looks { rows.new.looks ≡ rows.old.looks }
    ensures gives { let w : Wait = record { row = row; literal = other; depth = from } in PinGives f second w trail.old.depth (record { entries = rows.old.entries; lists = bare lists.old; steps = trail.old.steps }) (record { entries = rows.new.entries; lists = bare lists.new; steps = trail.new.steps }) waiting.old.items waiting.new.items result }
    ensures room { HasRoomToWait rows.new.entries waiting.new.items (vec_capacity waiting.new) }
    ensures same { (trail.new.atoms ≡ trail.old.atoms) × (trail.new.depth ≡ trail.old.depth) }
{
    wait_anew(
        waiting,
        Wait {
            row,
            literal: other,
            depth: from,
        },
    );
    if is_same(second, f) {
        let _forced = force(
            Wait {
                row,
                literal: other,
                depth: from,
            },
            trail,
        );
        return Visit::Keep(other);
    }
    transfer(second, other, row, rows, lists);
    let _forced = force(
        Wait {
            row,
            literal: other,
            depth: from,
        },
        trail,
    );
    Visit::Gone
}

// Looks at one clause that a false literal watches.
fn visit(
    f: Literal,
    row: u32,
    rows: &mut Rows,
    lists: &mut [WatchList],
    trail: &mut Trail,
    waiting: &mut Vec<Wait>,
) -> Visit
    requires place { row < length rows.old.entries }
    requires own { ((entry_at rows.old.entries row).first ≡ f) ⊎ ((entry_at rows.old.entries row).second ≡ f) }
    requires pair { (entry_at rows.old.entries row).live ≡ true → IsPair (entry_at rows.old.entries row) }
    requires known { (entry_at rows.old.entries row).live ≡ true → IsKnown trail.old.atoms (entry_at rows.old.entries row) }
    requires is_false { IsFalseOn trail.old.steps f }
    requires lists { 2 * trail.old.atoms ≤ length lists.old }
    requires within { All (λ (w : Wait). w.row < length rows.old.entries) waiting.old.items }
    requires room { HasRoomToWait rows.old.entries waiting.old.items (vec_capacity waiting.old) }
    requires move_room { (entry_at rows.old.entries row).live ≡ true → LeavesRoom (bare lists.old) (rooms lists.old) (entry_at rows.old.entries row) }
    ensures rooms { rooms lists.new ≡ rooms lists.old }
    ensures rises { rows.old.looks ≤ rows.new.looks }
    ensures once { rows.new.looks ≤ rows.old.looks + 1 }
    ensures dead { (entry_at rows.old.entries row).live ≡ false → rows.new.looks ≡ rows.old.looks }
    ensures gives { LateGives f row trail.old.depth (record { entries = rows.old.entries; lists = bare lists.old; steps = trail.old.steps }) (record { entries = rows.new.entries; lists = bare lists.new; steps = trail.new.steps }) waiting.old.items waiting.new.items result }
    ensures room { HasRoomToWait rows.new.entries waiting.new.items (vec_capacity waiting.new) }
    ensures same { (trail.new.atoms ≡ trail.old.atoms) × (trail.new.depth ≡ trail.old.depth) }
{
    if !rows.is_live(row) {
        return Visit::Gone;
    }
    let other = other_of(f, row, rows);
    match examine(other, row, rows, trail) {
        Examined::Found(found) => {
            transfer(found, other, row, rows, lists);
            Visit::Gone
        }
        Examined::False => Visit::False,
        Examined::Pinned(second, from) => pin(
            f, second, other, from, row, rows, lists, trail, waiting,
        ),
    }
}

// Goes through the watches of a literal that became false at a lower depth.
pub fn sweep_late(
    f: Literal,
    list: &mut WatchList,
    rows: &mut Rows,
    lists: &mut [WatchList],
    trail: &mut Trail,
    waiting: &mut Vec<Wait>,
) -> Swept
    requires watching { IsWatching trail.old.atoms rows.old.entries (slice_set (bare lists.old) (packed f) list.old.watches) }
    requires move_room { HasRoomToMove rows.old.entries (slice_set (rooms lists.old) (packed f) list.old.room) }
    requires is_false { IsFalseOn trail.old.steps f }
    requires place { packed f < length lists.old }
    requires ready { IsReady rows.old.entries trail.old.steps trail.old.depth waiting.old.items }
    requires room { HasRoomToWait rows.old.entries waiting.old.items (vec_capacity waiting.old) }
    ensures rises { rows.old.looks ≤ rows.new.looks }
    ensures looks { LooksAt f rows.old.entries rows.old.looks rows.new.looks }
    ensures rooms { (rooms lists.new ≡ rooms lists.old) × (list.new.room ≡ list.old.room) }
    ensures gives { LateSweptGives trail.old.atoms trail.old.depth f (record { entries = rows.old.entries; lists = bare lists.old; steps = trail.old.steps; list = list.old.watches }) (record { entries = rows.new.entries; lists = bare lists.new; steps = trail.new.steps; list = list.new.watches }) waiting.old.items waiting.new.items result }
    ensures grows { Grows (kept_from 0 rows.old.entries) trail.old.depth trail.old.steps trail.new.steps }
    ensures clauses { kept_from 0 rows.new.entries ≡ kept_from 0 rows.old.entries }
    ensures count { length rows.new.entries ≡ length rows.old.entries }
    ensures room { HasRoomToWait rows.new.entries waiting.new.items (vec_capacity waiting.new) }
    ensures same { (trail.new.atoms ≡ trail.old.atoms) × (trail.new.depth ≡ trail.old.depth) }
{
    let mut k = 0;
    'watches: while k < list.len() {
        let watch = list.get(k);
        let row = watch.row;
        match visit(f, row, rows, lists, trail, waiting) {
            Visit::Keep(blocker) => {
                list.set(k, Watch { blocker, row });
                k += 1;
            }
            Visit::Gone => {
                list.take_out(k);
            }
            Visit::False => return Swept::False(row),
        }
    }
    Swept::Whole
}
