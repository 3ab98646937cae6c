//! The simplex method: values are moved until all are within their bounds, or bounds are found that
//! no values meet.
//!
//! This is the general simplex method of Dutertre and de Moura (CAV 2006, section 3), with Bland's
//! rule (1977). The state is a grid: rows, and for each variable bounds and a value, where the
//! values solve the rows. Where the bounds of a variable cross, that is a conflict before anything
//! moves. Else variables that aren't basic are moved to the bound that they miss, the least first
//! (`settle`). Then as long as some basic variable is outside its bounds, the least such one is
//! taken; in its row the least variable is sought that isn't basic and can bring it nearer, one
//! that isn't at the bound in the way. The two change places in a pivot, and the one that leaves is
//! set to the bound that it missed. Where the row has no such variable, each of its variables
//! stands at the bound in the way: these bounds, with the missed one, are a conflict.
//!
//! All of these are sought among suspects (`suspects.rt`): what isn't one is within its bounds.
//!
//! Why a conflict is one. The basic variable is the sum of the row's entries, and each of them is
//! already as far in the useful direction as its bound lets it. So no values that solve the row and
//! meet these bounds bring the basic variable to the one that it misses.
//!
//! Why it ends. A pivot alone may gain nothing, and another rule than Bland's may go round for
//! ever. With the least variable on both sides it doesn't: of n variables a run has fewer than 3^n
//! pivots, whatever the numbers (`runs_are_short`). That is proved over the definition of a grid's
//! next step, so it holds for this code, which is proved to make exactly those steps, and for runs
//! that go on where others ended.
//!
//! A caller lends room for so many pivots, and gets back how many were made. Where the room is
//! spent, the next step is looked for and tried but not made (`last_look`), so that the answer
//! tells an end from want of room. A step that leaves the range, or for which memory is wanting,
//! changes nothing, and ends the run. Where lines are kept, the row of each pivot is copied with
//! its columns before the pivot is made, and taken back if it isn't: these show the work that was
//! done.
//!
//! What a caller may rely on is said by `check`, whatever the outcome: the bounds and the rows'
//! solutions stay, and what isn't basic at the end stands at a bound, or has the value that it had.
ghost use Rattle.std.specs.Prelude.{◌≡◌, ℕ, ◌+◌, ◌<◌, ◌≤◌, true, false, length, OnOk, IfOk, IfSome, Some, None};
ghost use Rattle.fraction128.specs.Grid.{is_crossed};
ghost use Rattle.simplex_steps.specs.Law.{KeepsResting};
ghost use Rattle.tableau.specs.Table.{Table};
ghost use Rattle.simplex_steps.specs.State.{column_in, grid_of, IsSolution, AreRanged, IsSound, IsSettled, KeepsBounds};
ghost use Rattle.simplex_steps.specs.Suspects.{Covers};
ghost use Rattle.simplex_steps.specs.Run.{Ends, SpendsRoom, Advances, IsFailed, IsUnspent, IsRun, Records, IsChecked};

use crate::conflict::explain_crossed;
use crate::find::{Found, find, first_crossed, least_outside};
use crate::line::PivotLines;
use crate::moves::Moved;
use crate::suspects::{Suspects, sift};
use crate::turn::{record_turn, settle, try_turn};
use fraction128::{Bound, Column, Range};
use std::alloc::Global;
use tableau::{Failure, Tableau};

/// How a search ends.
#[derive(Drop)]
pub enum Outcome {
    /// All variables are within their bounds.
    Fits,
    /// No solution of the rows meets these bounds.
    Conflict(Vec<Bound>),
    /// This number of the next step leaves the range.
    Range(Range),
    /// There is no room for the pivot that is the next step.
    UnitsSpent,
    /// Memory is wanting.
    Memory,
}

/// How a search ends, and how many pivots it made.
#[derive(Drop)]
pub struct Checked {
    pub outcome: Outcome,
    pub pivots: u64,
}

/// What the last look or a step leads to.
#[derive(Drop)]
enum Progress {
    Pivoted,
    Ended(Outcome),
}

/// Why a step wasn't made, as an end.
fn failed(failure: Failure) -> Outcome
    ensures { IsFailed failure result }
{
    match failure {
        Failure::Range(range) => Outcome::Range(range),
        Failure::Memory => Outcome::Memory,
    }
}

/// Makes the next step, where all that isn't basic is within its bounds, or tells how the search ends.
fn advance(
    alloc: Global,
    tableau: &mut Tableau,
    columns: &mut [Column],
    moved: &mut Vec<Moved>,
    suspects: &mut Suspects,
    kept: &mut PivotLines,
) -> Progress
    requires sound { IsSound tableau.old columns.old }
    requires settled { IsSettled tableau.old columns.old }
    requires covers { Covers suspects.old columns.old }
    ensures advances { Advances kept.old.keep tableau.old columns.old kept.old.lines.items tableau.new columns.new kept.new.lines.items result }
    ensures keep { kept.new.keep ≡ kept.old.keep }
    ensures covers { Covers suspects.new columns.new }
{
    sift(suspects, columns);
    match find(alloc, tableau, columns, suspects) {
        Err(_) => Progress::Ended(Outcome::Memory),
        Ok(Found::Fits) => Progress::Ended(Outcome::Fits),
        Ok(Found::Conflict(bounds)) => Progress::Ended(Outcome::Conflict(bounds)),
        Ok(Found::Pivot(turn)) => match record_turn(
            alloc, tableau, columns, moved, suspects, kept, turn,
        ) {
            Ok(()) => Progress::Pivoted,
            Err(failure) => Progress::Ended(failed(failure)),
        },
    }
}

/// How the search ends where there is no room for a pivot, and all that isn't basic is within its bounds.
fn last_look(
    alloc: Global,
    tableau: &mut Tableau,
    columns: &[Column],
    moved: &mut Vec<Moved>,
    suspects: &Suspects,
) -> Outcome
    requires covers { Covers suspects.now columns.now }
    requires sound { IsSound tableau.old columns.now }
    requires settled { IsSettled tableau.old columns.now }
    ensures same { tableau.new ≡ tableau.old }
    ensures ends { Ends tableau.old columns.now result }
{
    match find(alloc, tableau, columns, suspects) {
        Err(_) => Outcome::Memory,
        Ok(Found::Fits) => Outcome::Fits,
        Ok(Found::Conflict(bounds)) => Outcome::Conflict(bounds),
        Ok(Found::Pivot(turn)) => match try_turn(tableau, columns, moved, turn) {
            Ok(()) => Outcome::UnitsSpent,
            Err(failure) => failed(failure),
        },
    }
}

/// Pivots by Bland's rule, where all that isn't basic is within its bounds, until the search ends.
fn search(
    alloc: Global,
    tableau: &mut Tableau,
    columns: &mut [Column],
    moved: &mut Vec<Moved>,
    suspects: &mut Suspects,
    kept: &mut PivotLines,
    room: u64,
) -> Checked
    requires sound { IsSound tableau.old columns.old }
    requires settled { IsSettled tableau.old columns.old }
    requires covers { Covers suspects.old columns.old }
    ensures run { IsRun tableau.old columns.old tableau.new columns.new result.pivots }
    ensures ends { Ends tableau.new columns.new result.outcome }
    ensures lines { Records kept.old.keep result.pivots (grid_of tableau.old columns.old) (grid_of tableau.new columns.new) kept.old.lines.items kept.new.lines.items }
    ensures keep { kept.new.keep ≡ kept.old.keep }
    ensures covers { Covers suspects.new columns.new }
    ensures room { SpendsRoom room result.pivots result.outcome }
    ensures most { result.pivots ≤ room }
{
    for pivots in 0..room {
        match advance(alloc, tableau, columns, moved, suspects, kept) {
            Progress::Pivoted => (),
            Progress::Ended(outcome) => return Checked { outcome, pivots },
        }
    }
    let outcome = last_look(alloc, tableau, columns, moved, suspects);
    Checked {
        outcome,
        pivots: room,
    }
}

/// Brings what isn't basic within its bounds, and then pivots by Bland's rule, where no bounds cross.
fn check_uncrossed(
    alloc: Global,
    tableau: &mut Tableau,
    columns: &mut [Column],
    moved: &mut Vec<Moved>,
    suspects: &mut Suspects,
    kept: &mut PivotLines,
    room: u64,
) -> Checked
    requires sound { IsSound tableau.old columns.old }
    requires covers { Covers suspects.old columns.old }
    ensures checked { IsChecked room tableau.old columns.old kept.old tableau.new columns.new kept.new result }
    ensures covers { Covers suspects.new columns.new }
{
    tableau.facts();
    match settle(tableau, columns, moved, suspects) {
        Ok(()) => search(alloc, tableau, columns, moved, suspects, kept, room),
        Err(failure) => Checked {
            outcome: failed(failure),
            pivots: 0,
        },
    }
}

/// The end by the bounds of the least variable whose bounds cross.
fn crossing(alloc: Global, columns: &[Column], variable: u32) -> Outcome
    requires known { variable < length columns.now }
    requires crossed { is_crossed (column_in columns.now variable) ≡ true }
    requires least { (j : ℕ) → j < variable → is_crossed (column_in columns.now j) ≡ false }
    ensures ends { (t : Table) → Ends t columns.now result }
    ensures unspent { IsUnspent result }
{
    match explain_crossed(alloc, columns, variable) {
        Ok(bounds) => Outcome::Conflict(bounds),
        Err(_) => Outcome::Memory,
    }
}

/// Moves values by the general simplex method until all are within their bounds, or bounds are found that no solution of the rows meets, or the next step doesn't fit, or is a pivot past the room. The steps are the next ones of the grid; bounds and the solutions of the rows stay. Where lines are kept, that of each pivot is added.
pub fn check(
    alloc: Global,
    tableau: &mut Tableau,
    columns: &mut [Column],
    moved: &mut Vec<Moved>,
    suspects: &mut Suspects,
    kept: &mut PivotLines,
    room: u64,
) -> Checked
    requires solution { IsSolution tableau.old columns.old }
    requires ranged { AreRanged columns.old }
    requires covers { Covers suspects.old columns.old }
    ensures checked { IsChecked room tableau.old columns.old kept.old tableau.new columns.new kept.new result }
    ensures covers { Covers suspects.new columns.new }
{
    match first_crossed(columns, suspects) {
        Some(variable) => Checked {
            outcome: crossing(alloc, columns, variable),
            pivots: 0,
        },
        None => check_uncrossed(alloc, tableau, columns, moved, suspects, kept, room),
    }
}

/// How the search ends where it takes no step and no bounds cross. `None` where the next step is a move.
fn look_uncrossed(
    alloc: Global,
    tableau: &mut Tableau,
    columns: &[Column],
    moved: &mut Vec<Moved>,
    suspects: &Suspects,
) -> Option<Outcome>
    requires sound { IsSound tableau.old columns.now }
    requires covers { Covers suspects.now columns.now }
    ensures same { tableau.new ≡ tableau.old }
    ensures ends { IfSome result (Ends tableau.old columns.now) }
{
    match least_outside(tableau, columns, suspects) {
        Some(_) => None,
        None => Some(last_look(alloc, tableau, columns, moved, suspects)),
    }
}

/// How the search ends where it takes no step, so that nothing changes. `None` where the next step is a move.
pub fn look(
    alloc: Global,
    tableau: &mut Tableau,
    columns: &[Column],
    moved: &mut Vec<Moved>,
    suspects: &Suspects,
) -> Option<Outcome>
    requires solution { IsSolution tableau.old columns.now }
    requires ranged { AreRanged columns.now }
    requires covers { Covers suspects.now columns.now }
    ensures same { tableau.new ≡ tableau.old }
    ensures ends { IfSome result (Ends tableau.old columns.now) }
{
    match first_crossed(columns, suspects) {
        Some(variable) => Some(crossing(alloc, columns, variable)),
        None => look_uncrossed(alloc, tableau, columns, moved, suspects),
    }
}
