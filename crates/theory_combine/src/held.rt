//! What was told, to the closure and to the bounds.
ghost use Rattle.std.specs.Prelude.{◌≡◌, ◌<◌, List, length, take, All, IfOk, IfErr, MatchOption, OnErr};
ghost use Rattle.smt_meaning.specs.declared.clauses.Atom.{Atom};
ghost use Rattle.search_port.specs.State.{IsOpenIn};
ghost use Rattle.search_port.specs.Calls.{AssertedBy, InferredBy, IsConflict};
ghost use Rattle.search_port.specs.Spending.{Spending};
ghost use Rattle.bound_log.specs.Atoms.{Knows};
ghost use Rattle.bound_log.specs.Told.{column_sums};
ghost use Rattle.bound_log.specs.Reporting.{Judges};
ghost use Rattle.bound_log.specs.declared.report.Report.TheVariants.{UnitsSpent};
ghost use Rattle.closure_log.specs.Seen.{state_of};
ghost use Rattle.theory_combine.specs.Chained.{HasBoundsOf, KeepsGrid};
ghost use Rattle.theory_combine.specs.Errors.{IsErrorOver};
ghost use Rattle.theory_combine.specs.Held.{IsHeld, IsMet, IsMetBy};
ghost use Rattle.theory_combine.specs.Kept.{IsHeldOf, KeepsHeld};
ghost use Rattle.theory_combine.specs.Last.{HoldsWhereEmpty};
ghost use Rattle.theory_combine.specs.Pivots.{ArePivotsOf};
ghost use Rattle.theory_combine.specs.declared.held.Met.TheVariants.{Spent};

use crate::differences::Differences;
use crate::errors::{BoundError, untold};
use crate::untrue::untrue_constant;
use atom_form::AtomNumbers;
use bound_log::{BoundLog, Report, Reported, bounds_are_of_log, log_is_taken_in, values_stay};
use closure_log::{ClosureLog, Guide, Scan, Watches, infer};
use fraction128::{Grid, Line};
use literals::Literal;
use scope_stack::Stack;
use search_port::{Asserted, Inferred, Lemma};
use simplex::PivotLines;
use smt_laws::flat_says_the_same;
use std::alloc::{AllocError, Global};

/// The literals told, and what they say of terms and of sums.
#[derive(Drop)]
pub(crate) struct Held {
    pub closure: ClosureLog,
    pub bounds: BoundLog,
    pub scan: Scan,
    pub looked: Looked,
}

/// What guides the search, of which no contract speaks.
#[derive(Drop)]
pub(crate) struct Looked {
    /// The atom after the one whose bound was looked at last.
    pub next: usize,
    pub differences: Differences,
    pub watches: Watches,
}

/// What a check of the bounds finds.
#[derive(Drop)]
pub(crate) enum Met {
    /// The terms' values meet all bounds.
    Fits,
    /// A clause that is false.
    Conflict(Lemma),
    /// The next step of this grid leaves the range.
    Past(Grid),
    /// There is no room for the pivot that is the next step.
    Spent,
    /// It didn't come to its end.
    Ended,
}

/// What a check of the bounds finds, and the lines of its pivots, where they are kept.
#[derive(Drop)]
pub(crate) struct Meeting {
    pub met: Met,
    pub lines: Vec<Line>,
}

/// Tells one literal more. After an `Err`, where its bound leaves the range or memory is wanting, it isn't taken.
pub(crate) fn tell_both(
    alloc: Global,
    held: &mut Held,
    stack: &Stack,
    atoms: &AtomNumbers,
    guide: &Guide,
    literal: Literal,
) -> Result<Asserted, BoundError>
    requires held { IsHeldOf stack.now atoms.now.atoms held.old }
    requires numbered { literal.atom < length atoms.now.atoms }
    requires open { IsOpenIn held.old.closure.log.items literal }
    ensures held { IsHeld stack.now atoms.now.atoms held.new }
    ensures answer { IfOk result (AssertedBy (state_of stack.now atoms.now.atoms held.old.closure.log.items) (state_of stack.now atoms.now.atoms held.new.closure.log.items) literal) }
    ensures stays { OnErr result (held.new.closure.log.items ≡ held.old.closure.log.items) }
    ensures variables { KeepsGrid held.old.bounds held.new.bounds }
    ensures err { IfErr result (IsErrorOver (column_sums held.new.bounds) atoms.now.atoms) }
{
    values_stay();
    let place = held.closure.log.len();
    match held.bounds.tell(literal) {
        Err(failure) => Err(untold(alloc, &held.bounds, atoms, literal, failure)),
        Ok(()) => {
            held.scan.note(literal, place);
            let answer = held.closure.tell(alloc, stack, atoms, guide, literal);
            match answer {
                Asserted::Taken => Ok(Asserted::Taken),
                Asserted::Conflict(clause) => Ok(Asserted::Conflict(clause)),
                Asserted::Ended(cause) => {
                    held.bounds.undo_to(place);
                    Ok(Asserted::Ended(cause))
                }
            }
        }
    }
}

/// Keeps so many of the literals.
pub(crate) fn undo_both(held: &mut Held, stack: &Stack, atoms: &AtomNumbers, count: usize)
    requires { IsHeld stack.now atoms.now.atoms held.old }
    ensures held { IsHeld stack.now atoms.now.atoms held.new }
    ensures log { held.new.closure.log.items ≡ take count held.old.closure.log.items }
    ensures variables { KeepsGrid held.old.bounds held.new.bounds }
{
    values_stay();
    held.closure.undo_to(stack, atoms, count);
    held.bounds.undo_to(count);
    held.scan.restart();
    held.looked.differences.undo_to(count);
}

/// Whether the numbers of the graph of differences meet all bounds told, and are to be tried as those of a model.
pub(crate) fn leads(held: &Held) -> bool {
    held.looked.differences.leads(held.closure.log.len())
}

/// What a report says, with the grid where a number left the range.
fn met_by(alloc: Global, bounds: &BoundLog, report: Report) -> Met
    requires { Judges bounds.now report }
    ensures met { (table : List Atom) → Knows table bounds.now → IsMetBy bounds.now table result }
    ensures spent { result ≡ Spent → report ≡ UnitsSpent }
{
    match report {
        Report::Fits => Met::Fits,
        Report::Conflict(clause) => Met::Conflict(clause),
        Report::Range(_) => match bounds.grid(alloc) {
            Ok(grid) => Met::Past(grid),
            Err(_) => Met::Ended,
        },
        Report::UnitsSpent => Met::Spent,
        Report::Memory => Met::Ended,
    }
}

/// Moves values until all bounds are met, or finds a clause that the bounds break, by no more pivots than there is room for.
pub(crate) fn meet_bounds(
    alloc: Global,
    held: &mut Held,
    stack: &Stack,
    atoms: &AtomNumbers,
    keep: bool,
    room: u64,
) -> Meeting
    requires { IsHeldOf stack.now atoms.now.atoms held.old }
    ensures held { IsHeld stack.now atoms.now.atoms held.new }
    ensures log { held.new.closure.log.items ≡ held.old.closure.log.items }
    ensures sums { column_sums held.new.bounds ≡ column_sums held.old.bounds }
    ensures met { IsMet held.new.bounds (state_of stack.now atoms.now.atoms held.new.closure.log.items) result.met }
    ensures lines { ArePivotsOf held.old.bounds held.new.bounds atoms.now.atoms keep room result }
    ensures before { HasBoundsOf atoms.now.atoms held.old.closure.log.items held.old.bounds }
    ensures after { HasBoundsOf atoms.now.atoms held.new.closure.log.items held.new.bounds }
{
    flat_says_the_same();
    bounds_are_of_log();
    log_is_taken_in();
    held.bounds.facts();
    let mut kept = PivotLines {
        keep,
        lines: Vec::new(alloc),
    };
    let Reported { report, pivots: _ } = held.bounds.check(alloc, &mut kept, room);
    held.bounds.facts();
    let met = met_by(alloc, &held.bounds, report);
    let PivotLines { lines, .. } = kept;
    Meeting { met, lines }
}

/// A clause that a bound of the empty sum breaks, or that the bounds of variables break over whole numbers, where a row or a split shows one. `None` promises no
/// more than that those of the empty sum are true; an `Err` is for want of memory.
pub(crate) fn meet_wholes(
    alloc: Global,
    held: &Held,
    stack: &Stack,
    atoms: &AtomNumbers,
) -> Result<Option<Lemma>, AllocError>
    requires { IsHeldOf stack.now atoms.now.atoms held.now }
    ensures { IfOk result (λ o. MatchOption o (All (HoldsWhereEmpty atoms.now.atoms) held.now.closure.log.items) (IsConflict (state_of stack.now atoms.now.atoms held.now.closure.log.items))) }
{
    flat_says_the_same();
    match untrue_constant(alloc, held, stack, atoms)? {
        Some(clause) => Ok(Some(clause)),
        None => held.bounds.whole_conflict(alloc),
    }
}

/// What follows from the literals told by equality.
pub(crate) fn follow(
    alloc: Global,
    held: &mut Held,
    stack: &Stack,
    atoms: &AtomNumbers,
    guide: &Guide,
) -> Inferred
    requires { IsHeldOf stack.now atoms.now.atoms held.old }
    ensures keeps { KeepsHeld stack.now atoms.now.atoms held.old held.new }
    ensures found { (b c : Spending) → InferredBy (state_of stack.now atoms.now.atoms held.new.closure.log.items) b c result }
{
    infer(alloc, &held.closure, &mut held.scan, stack, atoms, guide)
}
