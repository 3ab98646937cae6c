//! One pass over the watches of a literal that became false.
ghost use Rattle.std.specs.Prelude.{◌≡◌, ℕ, true, false, ◌+◌, ◌*◌, ◌<◌, ◌≤◌, ◌⊎◌, List, [], ◌∷◌, ◌++◌, All, Contains, length, slice_set, IfSome, IfNone};
ghost use Rattle.literals.specs.Signed.{Signed, packed};
ghost use Rattle.clause_store.specs.Trail.{Assigns};
ghost use Rattle.clause_store.specs.Stored.{IsFalseOn};
ghost use Rattle.clause_store.specs.Entries.{entry_at, watches_of, bare, rooms, IsKnown};
ghost use Rattle.clause_store.specs.Room.{HasPlace, LeavesRoom, HasRoomToMove};
ghost use Rattle.clause_store.specs.Watching.{IsWatching, IsPair, Grows, kept_from};
ghost use Rattle.clause_store.specs.Rested.{OthersFalse};
ghost use Rattle.clause_store.specs.Sweeps.{SweptGives};
ghost use Rattle.clause_store.specs.Looks.{LooksAt};
ghost use Rattle.clause_store.specs.Visits.{VisitGives, StepGives, IsFoundAt, NoneBetween, Parts};

use crate::lists::{Watch, WatchList, enlist};
use crate::rows::Rows;
use crate::trail::{Status, Trail};
use literals::Literal;

#[derive(Clone, Copy)]
pub enum Visit {
    Keep(Literal),
    Gone,
    False,
}

pub fn is_same(a: Literal, b: Literal) -> bool
    ensures yes { result ≡ true → a ≡ b }
    ensures no { result ≡ false → a ≡ b → ⊥ }
{
    a == b
}

pub fn is_false(trail: &Trail, literal: Literal) -> bool
    requires { literal.atom < trail.now.atoms }
    ensures says_true { result ≡ true → IsFalseOn trail.now.steps literal }
    ensures says_false { result ≡ false → IsFalseOn trail.now.steps literal → ⊥ }
{
    trail.is_true(literal.negated())
}

fn is_true(trail: &Trail, literal: Literal) -> bool
    requires { literal.atom < trail.now.atoms }
    ensures says { result ≡ true → Assigns trail.now.steps literal }
{
    trail.is_true(literal)
}

// Whether a clause may be watched by this literal beside the other.
fn passes(literal: Literal, other: Literal, trail: &Trail) -> bool
    requires { literal.atom < trail.now.atoms }
    ensures yes { result ≡ true → (literal ≡ other → ⊥) × (IsFalseOn trail.now.steps literal → ⊥) }
    ensures no { result ≡ false → (literal ≡ other) ⊎ IsFalseOn trail.now.steps literal }
{
    if literal == other {
        return false;
    }
    !is_false(trail, literal)
}

// A literal that isn't false, and isn't this other one.
pub fn find(literals: &[Literal], other: Literal, trail: &Trail) -> Option<Literal>
    requires { All (λ (l : Signed). l.atom < trail.now.atoms) literals.now }
    ensures some { IfSome result (λ l. Contains literals.now l × (l ≡ other → ⊥) × (IsFalseOn trail.now.steps l → ⊥)) }
    ensures none { IfNone result (All (λ m. (m ≡ other) ⊎ IsFalseOn trail.now.steps m) literals.now) }
{
    for literal in literals {
        if passes(*literal, other, trail) {
            return Some(*literal);
        }
    }
    None
}

// The place of such a literal between two places.
fn seek(
    literals: &[Literal],
    start: usize,
    end: usize,
    other: Literal,
    trail: &Trail,
) -> Option<usize>
    requires known { All (λ (l : Signed). l.atom < trail.now.atoms) literals.now }
    requires within { end ≤ length literals.now }
    ensures some { IfSome result (IsFoundAt trail.now.steps literals.now other) }
    ensures none { IfNone result (NoneBetween trail.now.steps literals.now other start end) }
{
    for k in start..end {
        if passes(literals[k], other, trail) {
            return Some(k);
        }
    }
    None
}

// The same from a place on and then up to it.
fn seek_from(literals: &[Literal], place: usize, other: Literal, trail: &Trail) -> Option<usize>
    requires known { All (λ (l : Signed). l.atom < trail.now.atoms) literals.now }
    ensures some { IfSome result (IsFoundAt trail.now.steps literals.now other) }
    ensures none { IfNone result (All (λ m. (m ≡ other) ⊎ IsFalseOn trail.now.steps m) literals.now) }
{
    let len = literals.len();
    let from = if place < len { place } else { 0 };
    if let Some(k) = seek(literals, from, len, other, trail) {
        return Some(k);
    }
    match seek(literals, 0, from, other, trail) {
        Some(k) => Some(k),
        None => None,
    }
}

// Looks at a clause for a literal that isn't false, and isn't this other one. One of two literals needs no look.
fn look_for(row: u32, other: Literal, rows: &mut Rows, trail: &Trail) -> Option<Literal>
    requires place { row < length rows.old.entries }
    requires known { All (λ (l : Signed). l.atom < trail.now.atoms) (entry_at rows.old.entries row).literals }
    requires two { length (entry_at rows.old.entries row).literals ≤ 2 → OthersFalse trail.now.steps (entry_at rows.old.entries row).literals other }
    ensures rises { rows.old.looks ≤ rows.new.looks }
    ensures once { rows.new.looks ≤ rows.old.looks + 1 }
    ensures same { rows.new.entries ≡ rows.old.entries }
    ensures some { IfSome result (λ l. Contains (entry_at rows.old.entries row).literals l × (l ≡ other → ⊥) × (IsFalseOn trail.now.steps l → ⊥)) }
    ensures none { IfNone result (All (λ m. (m ≡ other) ⊎ IsFalseOn trail.now.steps m) (entry_at rows.old.entries row).literals) }
{
    if rows.size(row) <= 2 {
        return None;
    }
    let looked = rows.look(row);
    let place = rows.place(row);
    match seek_from(rows.literals(looked), place, other, trail) {
        None => None,
        Some(k) => {
            let found = rows.literals(looked)[k];
            rows.go_on(row, k);
            Some(found)
        }
    }
}

// Looks at one watch of a literal that is false.
fn look_at(
    f: Literal,
    watch: Watch,
    rows: &mut Rows,
    lists: &mut [WatchList],
    trail: &mut Trail,
) -> Visit
    requires place { watch.row < length rows.old.entries }
    requires blocker { watch.blocker.atom < trail.old.atoms }
    requires known { (entry_at rows.old.entries watch.row).live ≡ true → IsKnown trail.old.atoms (entry_at rows.old.entries watch.row) }
    requires pair { (entry_at rows.old.entries watch.row).live ≡ true → IsPair (entry_at rows.old.entries watch.row) }
    requires is_false { IsFalseOn trail.old.steps f }
    requires lists { 2 * trail.old.atoms ≤ length lists.old }
    requires room { (entry_at rows.old.entries watch.row).live ≡ true → LeavesRoom (bare lists.old) (rooms lists.old) (entry_at rows.old.entries watch.row) }
    ensures rises { rows.old.looks ≤ rows.new.looks }
    ensures once { rows.new.looks ≤ rows.old.looks + 1 }
    ensures dead { (entry_at rows.old.entries watch.row).live ≡ false → rows.new.looks ≡ rows.old.looks }
    ensures rooms { rooms lists.new ≡ rooms lists.old }
    ensures gives { VisitGives f watch trail.old.depth (record { entries = rows.old.entries; lists = bare lists.old; steps = trail.old.steps }) (record { entries = rows.new.entries; lists = bare lists.new; steps = trail.new.steps }) result }
    ensures same { (trail.new.atoms ≡ trail.old.atoms) × (trail.new.depth ≡ trail.old.depth) }
{
    if is_true(trail, watch.blocker) {
        return Visit::Keep(watch.blocker);
    }
    if !rows.is_live(watch.row) {
        return Visit::Gone;
    }
    let first = rows.first(watch.row);
    let second = rows.second(watch.row);
    if is_same(first, f) {
        return step(second, watch.row, rows, lists, trail);
    }
    if is_same(second, f) {
        return step(first, watch.row, rows, lists, trail);
    }
    Visit::Gone
}

// Looks at a clause whose one watched literal is false, and the other is this.
fn step(
    other: Literal,
    row: u32,
    rows: &mut Rows,
    lists: &mut [WatchList],
    trail: &mut Trail,
) -> Visit
    requires place { row < length rows.old.entries }
    requires other { other.atom < trail.old.atoms }
    requires known { IsKnown trail.old.atoms (entry_at rows.old.entries row) }
    requires two { length (entry_at rows.old.entries row).literals ≤ 2 → OthersFalse trail.old.steps (entry_at rows.old.entries row).literals other }
    requires lists { 2 * trail.old.atoms ≤ length lists.old }
    requires room { (l : Signed) → Contains (entry_at rows.old.entries row).literals l → (l ≡ other → ⊥) → (IsFalseOn trail.old.steps l → ⊥) → HasPlace (bare lists.old) (rooms lists.old) l }
    ensures rises { rows.old.looks ≤ rows.new.looks }
    ensures once { rows.new.looks ≤ rows.old.looks + 1 }
    ensures rooms { rooms lists.new ≡ rooms lists.old }
    ensures gives { StepGives other row trail.old.depth (record { entries = rows.old.entries; lists = bare lists.old; steps = trail.old.steps }) (record { entries = rows.new.entries; lists = bare lists.new; steps = trail.new.steps }) result }
    ensures same { (trail.new.atoms ≡ trail.old.atoms) × (trail.new.depth ≡ trail.old.depth) }
{
    match trail.status(other) {
        Status::True => Visit::Keep(other),
        Status::Open => match look_for(row, other, rows, trail) {
            Some(found) => {
                transfer(found, other, row, rows, lists);
                Visit::Gone
            }
            None => {
                trail.assign(other, row as u64);
                Visit::Keep(other)
            }
        },
        Status::False => match look_for(row, other, rows, trail) {
            Some(found) => {
                transfer(found, other, row, rows, lists);
                Visit::Gone
            }
            None => Visit::False,
        },
    }
}

// Watches the clause by two other literals.
pub fn transfer(found: Literal, other: Literal, row: u32, rows: &mut Rows, lists: &mut [WatchList])
    requires place { row < length rows.old.entries }
    requires list { packed found < length lists.old }
    requires room { HasPlace (bare lists.old) (rooms lists.old) found }
    ensures looks { rows.new.looks ≡ rows.old.looks }
    ensures entries { rows.new.entries ≡ slice_set rows.old.entries row (record (entry_at rows.old.entries row) { first = other; second = found }) }
    ensures lists { let more : Watch = record { blocker = other; row = row } in bare lists.new ≡ slice_set (bare lists.old) (packed found) (watches_of (bare lists.old) found ++ more ∷ []) }
    ensures rooms { rooms lists.new ≡ rooms lists.old }
{
    enlist(
        lists,
        found,
        Watch {
            blocker: other,
            row,
        },
    );
    rows.watch(row, other, found);
}

#[derive(Clone, Copy)]
pub enum Swept {
    Whole,
    False(u32),
}

// Goes through the watches of a literal that became false.
pub fn sweep(
    f: Literal,
    list: &mut WatchList,
    rows: &mut Rows,
    lists: &mut [WatchList],
    trail: &mut Trail,
) -> Swept
    requires watching { IsWatching trail.old.atoms rows.old.entries (slice_set (bare lists.old) (packed f) list.old.watches) }
    requires room { HasRoomToMove rows.old.entries (slice_set (rooms lists.old) (packed f) list.old.room) }
    requires is_false { IsFalseOn trail.old.steps f }
    requires place { packed f < length lists.old }
    ensures rises { rows.old.looks ≤ rows.new.looks }
    ensures looks { LooksAt f rows.old.entries rows.old.looks rows.new.looks }
    ensures rooms { (rooms lists.new ≡ rooms lists.old) × (list.new.room ≡ list.old.room) }
    ensures gives { SweptGives trail.old.atoms trail.old.depth f (record { entries = rows.old.entries; lists = bare lists.old; steps = trail.old.steps; list = list.old.watches }) (record { entries = rows.new.entries; lists = bare lists.new; steps = trail.new.steps; list = list.new.watches }) result }
    ensures grows { Grows (kept_from 0 rows.old.entries) trail.old.depth trail.old.steps trail.new.steps }
    ensures clauses { kept_from 0 rows.new.entries ≡ kept_from 0 rows.old.entries }
    ensures count { length rows.new.entries ≡ length rows.old.entries }
    ensures same { (trail.new.atoms ≡ trail.old.atoms) × (trail.new.depth ≡ trail.old.depth) }
{
    let mut k = 0;
    'watches: while k < list.len() {
        let watch = list.get(k);
        let row = watch.row;
        match look_at(f, watch, rows, lists, trail) {
            Visit::Keep(blocker) => {
                list.set(k, Watch { blocker, row });
                k += 1;
            }
            Visit::Gone => {
                list.take_out(k);
            }
            Visit::False => return Swept::False(row),
        }
    }
    Swept::Whole
}
