//! Which two literals of a new clause are watched.
ghost use Rattle.std.specs.Prelude.{◌≡◌, ℕ, ◌+◌, ◌*◌, ◌^◌, ◌<◌, ◌≤◌, ◌⊎◌, true, false, List, All, Contains, length, OnOk, OnErr, vec_capacity};
ghost use Rattle.clause_store.specs.Gaining.{GainsEntry, KeepsUp};
ghost use Rattle.clause_store.specs.Empties.{all_filled};
ghost use Rattle.literals.specs.Signed.{Signed, opposite, packed};
ghost use Rattle.clause_store.specs.Stored.{IsFalseOn};
ghost use Rattle.clause_store.specs.Choosing.{IsChoice, Outlasts, EnlistsBoth};
ghost use Rattle.clause_store.specs.Entries.{bare, rooms, room_of};
ghost use Rattle.clause_store.specs.From.{IsFrom};
ghost use Rattle.clause_store.specs.Room.{HasPlace, HasRoomToWait};

use crate::lists::{Watch, WatchList, enlist};
use crate::rows::Rows;
use crate::sweep::{find, is_false, is_same};
use crate::trail::Trail;
use crate::waits::{Wait, push_wait};
use literals::Literal;
use std::alloc::AllocError;

// How a clause stands on the trail: neither watched literal is false, or from a depth on all but the first are.
#[derive(Clone, Copy)]
pub enum Standing {
    Awake,
    Waits(u32),
}

#[derive(Clone, Copy)]
pub struct Choice {
    pub first: Literal,
    pub second: Literal,
    pub standing: Standing,
}

// Whether a literal isn't false, or became so no earlier than the other.
fn outlasts(a: Literal, b: Literal, trail: &Trail) -> bool
    requires first { a.atom < trail.now.atoms }
    requires second { b.atom < trail.now.atoms }
    ensures yes { result ≡ true → Outlasts trail.now.steps a b }
    ensures no { result ≡ false → Outlasts trail.now.steps b a }
{
    if !is_false(trail, a) {
        return true;
    }
    if !is_false(trail, b) {
        return false;
    }
    trail.depth_of(a.negated()) >= trail.depth_of(b.negated())
}

fn later(best: Literal, literal: Literal, trail: &Trail) -> Literal
    requires best { best.atom < trail.now.atoms }
    requires literal { literal.atom < trail.now.atoms }
    ensures of { (result ≡ best) ⊎ (result ≡ literal) }
    ensures best { Outlasts trail.now.steps result best }
    ensures literal { Outlasts trail.now.steps result literal }
{
    if outlasts(best, literal, trail) {
        return best;
    }
    literal
}

// A literal that isn't false, or the one that became so last.
fn last(literals: &[Literal], trail: &Trail) -> Literal
    requires some { 0 < length literals.now }
    requires known { All (λ (l : Signed). l.atom < trail.now.atoms) literals.now }
    ensures contained { Contains literals.now result }
    ensures last { All (Outlasts trail.now.steps result) literals.now }
{
    let mut best = literals[0];
    for literal in literals {
        best = later(best, *literal, trail);
    }
    best
}

// The later of two literals, where the first of all isn't to be taken again.
fn later_other(best: Literal, literal: Literal, first: Literal, trail: &Trail) -> Literal
    requires best { best.atom < trail.now.atoms }
    requires literal { literal.atom < trail.now.atoms }
    ensures of { (result ≡ best) ⊎ (result ≡ literal) }
    ensures single { first ≡ result → (first ≡ best) × (literal ≡ first) }
    ensures best { (first ≡ best) ⊎ Outlasts trail.now.steps result best }
    ensures literal { (literal ≡ first) ⊎ Outlasts trail.now.steps result literal }
{
    if is_same(literal, first) {
        return best;
    }
    if is_same(first, best) {
        return literal;
    }
    later(best, literal, trail)
}

// Of the literals other than this one such a literal, where there is another.
pub fn another(literals: &[Literal], first: Literal, trail: &Trail) -> Literal
    requires contained { Contains literals.now first }
    requires known { All (λ (l : Signed). l.atom < trail.now.atoms) literals.now }
    ensures contained { Contains literals.now result }
    ensures single { first ≡ result → All (λ (m : Signed). m ≡ first) literals.now }
    ensures last { All (λ (m : Signed). (m ≡ first) ⊎ Outlasts trail.now.steps result m) literals.now }
{
    let mut best = first;
    for literal in literals {
        best = later_other(best, *literal, first, trail);
    }
    best
}

// From which depth on all literals but the first are false, where the second became so last of them.
pub fn false_from(first: Literal, second: Literal, trail: &Trail) -> u32
    requires known { second.atom < trail.now.atoms }
    requires is_false { (second ≡ first) ⊎ IsFalseOn trail.now.steps second }
    ensures single { second ≡ first → result ≡ 0 }
    ensures from { (second ≡ first → ⊥) → IsFrom trail.now.steps (opposite second) result }
{
    if is_same(second, first) {
        return 0;
    }
    trail.depth_of(second.negated())
}

// The two literals of a clause that became false last, or aren't false.
pub fn choose(literals: &[Literal], trail: &Trail) -> Choice
    requires some { 0 < length literals.now }
    requires known { All (λ (l : Signed). l.atom < trail.now.atoms) literals.now }
    ensures { IsChoice trail.now.steps literals.now result }
{
    let _steps = trail.steps();
    let first = last(literals, trail);
    match find(literals, first, trail) {
        Some(second) => Choice {
            first,
            second,
            standing: Standing::Awake,
        },
        None => {
            let second = another(literals, first, trail);
            let from = false_from(first, second, trail);
            Choice {
                first,
                second,
                standing: Standing::Waits(from),
            }
        }
    }
}

// Puts the watches of a clause into the lists of its two watched literals, where there is room for them; one where these are the same.
fn enlist_both(lists: &mut [WatchList], first: Literal, second: Literal, row: u32)
    requires first { packed first < length lists.old }
    requires second { packed second < length lists.old }
    requires first_room { HasPlace (bare lists.old) (rooms lists.old) first }
    requires second_room { HasPlace (bare lists.old) (rooms lists.old) second }
    ensures lists { EnlistsBoth (bare lists.old) (bare lists.new) first second row }
    ensures rooms { rooms lists.new ≡ rooms lists.old }
{
    enlist(
        lists,
        first,
        Watch {
            blocker: second,
            row,
        },
    );
    if is_same(first, second) {
        return;
    }
    enlist(
        lists,
        second,
        Watch {
            blocker: first,
            row,
        },
    );
}

// Adds a clause and keeps its watches up.
pub fn keep_up(
    rows: &mut Rows,
    lists: &mut [WatchList],
    trail: &Trail,
    waiting: &mut Vec<Wait>,
    literals: &[Literal],
    level: u16,
) -> Result<(), AllocError>
    requires some { 0 < length literals.now }
    requires known { All (λ (l : Signed). l.atom < trail.now.atoms) literals.now }
    requires small { length rows.old.entries + 1 < 2 ^ 32 }
    requires room { 2 * trail.now.atoms ≤ length lists.old }
    requires within { All (λ (w : Wait). w.row < length rows.old.entries) waiting.old.items }
    requires waiting { HasRoomToWait rows.old.entries waiting.old.items (vec_capacity waiting.old) }
    requires one_more { length rows.old.entries + 1 ≤ vec_capacity waiting.old }
    requires places { All (HasPlace (bare lists.old) (rooms lists.old)) literals.now }
    ensures looks { rows.new.looks ≡ rows.old.looks }
    ensures waiting { HasRoomToWait rows.new.entries waiting.new.items (vec_capacity waiting.new) }
    ensures gains { OnOk result (GainsEntry rows.old.entries rows.new.entries literals.now level) }
    ensures same { OnErr result ((rows.new.entries ≡ rows.old.entries) × (bare lists.new ≡ bare lists.old) × (waiting.new.items ≡ waiting.old.items)) }
    ensures keeps { OnOk result (KeepsUp trail.now.atoms trail.now.steps (all_filled rows.old.entries) (all_filled rows.new.entries) (bare lists.old) (bare lists.new) waiting.old.items waiting.new.items) }
    ensures rooms { rooms lists.new ≡ rooms lists.old }
{
    let row = rows.len() as u32;
    let choice = choose(literals, trail);
    let first = choice.first;
    let second = choice.second;
    rows.push(literals, first, second, level)?;
    enlist_both(lists, first, second, row);
    match choice.standing {
        Standing::Awake => Ok(()),
        Standing::Waits(depth) => {
            push_wait(
                waiting,
                Wait {
                    row,
                    literal: first,
                    depth,
                },
            );
            Ok(())
        }
    }
}

// Makes room for a watch more in a literal's list.
fn make_room_at(lists: &mut [WatchList], literal: Literal) -> bool
    requires { packed literal < length lists.old }
    ensures watches { bare lists.new ≡ bare lists.old }
    ensures grows { (l : Signed) → room_of (rooms lists.old) l ≤ room_of (rooms lists.new) l }
    ensures more { result ≡ true → room_of (rooms lists.old) literal + 1 ≤ room_of (rooms lists.new) literal }
{
    let list = &mut lists[literal.code()];
    list.make_room()
}

// Makes room in the lists of a clause's literals, so that its watches move without memory.
pub fn make_room(lists: &mut [WatchList], literals: &[Literal]) -> bool
    requires { All (λ (l : Signed). packed l < length lists.old) literals.now }
    ensures watches { bare lists.new ≡ bare lists.old }
    ensures grows { (l : Signed) → room_of (rooms lists.old) l ≤ room_of (rooms lists.new) l }
    ensures more { result ≡ true → All (λ (l : Signed). room_of (rooms lists.old) l + 1 ≤ room_of (rooms lists.new) l) literals.now }
{
    for literal in literals {
        if !make_room_at(lists, *literal) {
            return false;
        }
    }
    true
}
