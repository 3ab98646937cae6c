//! Propagation: what kept clauses force is put on the trail, until they force nothing more or one
//! of them is false.
//!
//! The idea is Chaff's (Moskewicz, Madigan, Zhao, Zhang and Malik, DAC 2001), in the form that
//! MiniSat gave it (Eén and Sörensson, SAT 2003). A clause forces a literal, or is false, only once
//! all of its literals but one are false, so only once one of any two of them is. So each clause of
//! two literals or more is watched by two of them (a clause of one waits to be forced), and when a
//! literal becomes false only the clauses in its own list are looked at: `turn` takes the list out,
//! `sweep` goes through it, and it is put back.
//!
//! Each watch of a literal that became false comes to one of these:
//!
//! - a literal of the clause that stands beside the watch (its blocker) is true: the watch stays,
//!   without a look at the clause;
//! - the clause was forgotten, or isn't watched by this literal any more: the watch goes;
//! - the clause has another literal that isn't false: it is watched by that one, in its list;
//! - it has none, and its other watched literal is open: that one is forced, with the clause as its
//!   reason;
//! - it has none, and the other is false too: the clause is false, and the run ends with it.
//!
//! In a clause of two literals the other one is all that there is to find, so it isn't looked at.
//!
//! Undoing decisions changes no watch. That rests on the order in which steps are gone through.
//! Where a clause keeps a watch that is false, some literal of it is true, and as long as the false
//! one is of the present depth, whatever takes the true one back takes the false one back too. A
//! literal that became false at a lower depth (a decision was taken before a fixpoint) doesn't have
//! this: the true literal may go while it stays. So `catch_up` goes through such steps first, and
//! `sweep_late` watches the clause by literals that are well at each depth: by two that aren't
//! false, or, where all but one are false, by the one and the one that became false last; then the
//! clause waits, from the depth on at which that came about, for its one literal to be forced.
//! `drive` begins by forcing what waits.
//!
//! What holds between two calls (`Rested`): with the decisions above any depth undone, each kept
//! clause is settled by the steps gone through, or waits from that depth or a lower one. Settled is
//! a clause with a true literal, or neither of whose watched literals is false by those steps.
//!
//! Why that is right. A literal comes on the trail only in `step` and `force`, where every other
//! literal of a kept clause is false: so each is forced by its reason. At the end every step was
//! gone through, so each kept clause has a true literal, or two literals that aren't false: none is
//! false, none forces anything. A run ends, since each turn goes through one step more, and no atom
//! is put on the trail twice.
//!
//! What a caller may rely on is said by `Store::propagate`, and how often clauses are looked at by
//! `CountedStore`. Nothing here takes memory: `add` made room in the list of each literal for each
//! clause that has it, and for each clause to wait once.
ghost use Rattle.std.specs.Prelude.{◌≡◌, ℕ, true, false, ◌<◌, ◌≤◌, List, [], All, drop, length, vec_capacity};
ghost use Rattle.clause_store.specs.Watching.{IsWatching, kept_from};
ghost use Rattle.clause_store.specs.Entries.{watches_of, bare, rooms};
ghost use Rattle.clause_store.specs.Rested.{Rested};
ghost use Rattle.clause_store.specs.Driving.{DriveGives};
ghost use Rattle.clause_store.specs.From.{AreLast};
ghost use Rattle.clause_store.specs.Late.{CatchGives, CatchLooks, IsReady, LateCovers, LateTurnGives, MayCatchUp};
ghost use Rattle.clause_store.specs.Looks.{LooksAt, LooksBy};
ghost use Rattle.clause_store.specs.Room.{HasRoomToWait, HasRoomToMove};
ghost use Rattle.clause_store.specs.Runs.{KeepsStore, RunGives, TurnGives};
ghost use Rattle.clause_store.specs.Stored.{IsFalseOn};

use crate::late::sweep_late;
use crate::lists::WatchList;
use crate::rows::Rows;
use crate::sweep::{Swept, sweep};
use crate::trail::Trail;
use crate::waits::{Wait, force_all};
use literals::Literal;
use std::mem;

#[derive(Clone, Copy)]
pub enum Reached {
    Fixpoint,
    False(u32),
}

// Goes through the watches of a literal that became false.
fn turn(
    f: Literal,
    rows: &mut Rows,
    lists: &mut [WatchList],
    spare: &mut WatchList,
    trail: &mut Trail,
) -> Swept
    requires watching { IsWatching trail.old.atoms rows.old.entries (bare lists.old) }
    requires move_room { HasRoomToMove rows.old.entries (rooms lists.old) }
    requires is_false { IsFalseOn trail.old.steps f }
    requires known { f.atom < trail.old.atoms }
    ensures keeps { KeepsStore rows.old rows.new lists.old lists.new trail.old trail.new }
    ensures looks { LooksAt f rows.old.entries rows.old.looks rows.new.looks }
    ensures gives { TurnGives trail.old.atoms f (record { entries = rows.old.entries; lists = bare lists.old; steps = trail.old.steps }) (record { entries = rows.new.entries; lists = bare lists.new; steps = trail.new.steps }) result }
{
    let code = f.code();
    mem::swap(&mut lists[code], spare);
    let swept = sweep(f, spare, rows, lists, trail);
    mem::swap(&mut lists[code], spare);
    swept
}

// Goes through the watches of each literal that became false from this step on; the number is that of the steps gone through.
pub fn run(
    rows: &mut Rows,
    lists: &mut [WatchList],
    spare: &mut WatchList,
    trail: &mut Trail,
    start: usize,
) -> (Reached, usize)
    requires watching { IsWatching trail.old.atoms rows.old.entries (bare lists.old) }
    requires move_room { HasRoomToMove rows.old.entries (rooms lists.old) }
    requires start { start ≤ length trail.old.steps }
    ensures keeps { KeepsStore rows.old rows.new lists.old lists.new trail.old trail.new }
    ensures looks { LooksBy (drop start trail.new.steps) (kept_from 0 rows.old.entries) rows.old.looks rows.new.looks }
    ensures gives { RunGives trail.old.atoms (record { entries = rows.old.entries; lists = bare lists.old; steps = trail.old.steps }) (record { entries = rows.new.entries; lists = bare lists.new; steps = trail.new.steps }) start result.1 result.0 }
{
    let mut head = start;
    'steps: while head < trail.steps().len() {
        let step = trail.steps()[head];
        match turn(step.literal.negated(), rows, lists, spare, trail) {
            Swept::Whole => head += 1,
            Swept::False(row) => return (Reached::False(row), head),
        }
    }
    (Reached::Fixpoint, head)
}

// Goes through the watches of a literal that became false at a lower depth.
fn turn_late(
    f: Literal,
    rows: &mut Rows,
    lists: &mut [WatchList],
    spare: &mut WatchList,
    trail: &mut Trail,
    waiting: &mut Vec<Wait>,
) -> Swept
    requires watching { IsWatching trail.old.atoms rows.old.entries (bare lists.old) }
    requires move_room { HasRoomToMove rows.old.entries (rooms lists.old) }
    requires is_false { IsFalseOn trail.old.steps f }
    requires known { f.atom < trail.old.atoms }
    requires ready { IsReady rows.old.entries trail.old.steps trail.old.depth waiting.old.items }
    requires room { HasRoomToWait rows.old.entries waiting.old.items (vec_capacity waiting.old) }
    ensures keeps { KeepsStore rows.old rows.new lists.old lists.new trail.old trail.new }
    ensures looks { LooksAt f rows.old.entries rows.old.looks rows.new.looks }
    ensures gives { (head : ℕ) → LateCovers head f rows.old.entries trail.old.steps (watches_of (bare lists.old) f) 0 waiting.old.items → LateTurnGives trail.old.atoms trail.old.depth head (record { entries = rows.old.entries; lists = bare lists.old; steps = trail.old.steps }) (record { entries = rows.new.entries; lists = bare lists.new; steps = trail.new.steps }) waiting.new.items result }
    ensures room { HasRoomToWait rows.new.entries waiting.new.items (vec_capacity waiting.new) }
{
    let code = f.code();
    mem::swap(&mut lists[code], spare);
    let swept = sweep_late(f, spare, rows, lists, trail, waiting);
    mem::swap(&mut lists[code], spare);
    swept
}

// Whether the step at this place is of a lower depth than the present one.
fn is_late(trail: &Trail, head: usize) -> bool
    requires { head ≤ length trail.now.steps }
    ensures yes { result ≡ true → head < length trail.now.steps }
    ensures no { result ≡ false → AreLast trail.now.steps trail.now.depth head }
{
    let steps = trail.steps();
    if head >= steps.len() {
        return false;
    }
    steps[head].depth != trail.depth()
}

// Goes through the steps of lower depths from this one on; the number is that of the steps gone through.
fn catch_up(
    rows: &mut Rows,
    lists: &mut [WatchList],
    spare: &mut WatchList,
    trail: &mut Trail,
    waiting: &mut Vec<Wait>,
    start: usize,
) -> (Reached, usize)
    requires { MayCatchUp rows.old lists.old trail.old waiting.old.items (vec_capacity waiting.old) start }
    ensures keeps { KeepsStore rows.old rows.new lists.old lists.new trail.old trail.new }
    ensures looks { CatchLooks start result.1 trail.new.steps (kept_from 0 rows.old.entries) rows.old.looks rows.new.looks result.0 }
    ensures gives { CatchGives trail.old.atoms trail.old.depth result.1 (record { entries = rows.new.entries; lists = bare lists.new; steps = trail.new.steps }) waiting.new.items result.0 }
    ensures room { HasRoomToWait rows.new.entries waiting.new.items (vec_capacity waiting.new) }
{
    let mut head = start;
    'steps: while is_late(trail, head) {
        let step = trail.steps()[head];
        match turn_late(step.literal.negated(), rows, lists, spare, trail, waiting) {
            Swept::Whole => head += 1,
            Swept::False(row) => return (Reached::False(row), head),
        }
    }
    (Reached::Fixpoint, head)
}

// Propagates from this step on, once what waits is forced.
fn go_through(
    rows: &mut Rows,
    lists: &mut [WatchList],
    spare: &mut WatchList,
    trail: &mut Trail,
    waiting: &mut Vec<Wait>,
    start: usize,
) -> (Reached, usize)
    requires { MayCatchUp rows.old lists.old trail.old waiting.old.items (vec_capacity waiting.old) start }
    ensures keeps { KeepsStore rows.old rows.new lists.old lists.new trail.old trail.new }
    ensures looks { LooksBy (drop start trail.new.steps) (kept_from 0 rows.old.entries) rows.old.looks rows.new.looks }
    ensures gives { DriveGives trail.old.atoms trail.old.depth (record { entries = rows.new.entries; lists = bare lists.new; steps = trail.new.steps }) result.1 waiting.new.items result.0 }
    ensures room { HasRoomToWait rows.new.entries waiting.new.items (vec_capacity waiting.new) }
{
    let (caught, head) = catch_up(rows, lists, spare, trail, waiting, start);
    match caught {
        Reached::Fixpoint => {
            let reached = run(rows, lists, spare, trail, head);
            let _steps = trail.steps();
            reached
        }
        Reached::False(row) => (Reached::False(row), head),
    }
}

// Propagates from what waits and from this step on.
pub fn drive(
    rows: &mut Rows,
    lists: &mut [WatchList],
    spare: &mut WatchList,
    trail: &mut Trail,
    waiting: &mut Vec<Wait>,
    start: usize,
) -> (Reached, usize)
    requires watching { IsWatching trail.old.atoms rows.old.entries (bare lists.old) }
    requires move_room { HasRoomToMove rows.old.entries (rooms lists.old) }
    requires rested { Rested rows.old.entries trail.old.steps trail.old.depth start start waiting.old.items }
    requires room { HasRoomToWait rows.old.entries waiting.old.items (vec_capacity waiting.old) }
    ensures keeps { KeepsStore rows.old rows.new lists.old lists.new trail.old trail.new }
    ensures looks { LooksBy (drop start trail.new.steps) (kept_from 0 rows.old.entries) rows.old.looks rows.new.looks }
    ensures gives { DriveGives trail.old.atoms trail.old.depth (record { entries = rows.new.entries; lists = bare lists.new; steps = trail.new.steps }) result.1 waiting.new.items result.0 }
    ensures room { HasRoomToWait rows.new.entries waiting.new.items (vec_capacity waiting.new) }
{
    match force_all(waiting, trail) {
        Some(wait) => (Reached::False(wait.row), start),
        None => go_through(rows, lists, spare, trail, waiting, start),
    }
}
