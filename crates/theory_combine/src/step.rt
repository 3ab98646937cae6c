//! Steps that go on with an atom more.
ghost use Rattle.std.specs.Prelude.{◌<◌, length, Contains, All, IfSome};
ghost use Rattle.fraction128.specs.Whole.{InRange};
ghost use Rattle.smt_meaning.specs.declared.clauses.Atom.TheVariants.{AtMost};
ghost use Rattle.bound_log.specs.Growth.{IsProper};
ghost use Rattle.bound_log.specs.Told.{column_sums};
ghost use Rattle.theory_combine.specs.Errors.{IsPastOver};
ghost use Rattle.theory_combine.specs.Progress.{IsUnderWay, Went};
ghost use Rattle.theory_combine.specs.Shown.{IsOfCheck, IsLeft, IsMarkedLeaf};
ghost use Rattle.theory_combine.specs.Ready.{IsReady, Steps};
ghost use Rattle.theory_combine.specs.Steps.{StepChecks};

use crate::constant::said_of;
use crate::numbering::{NewAtom, NewBound, number_new};
use crate::parts::{Parts, Progress};
use fraction128::Grid;
use search_port::{Budget, Cause, Checked, Lemma};
use smt_laws::{flat_says_the_same, symbols_are_declared};
use smt_meaning::{RangeSeen, Seq};

/// How the search goes on.
#[derive(Drop)]
pub(crate) enum Step {
    /// With an atom more, and these clauses.
    Lemmas(Seq<Lemma>),
    /// It doesn't: this clause is false.
    Conflict(Lemma),
    /// It doesn't.
    Ended(Cause),
}

/// Goes on with a bound more.
pub(crate) fn go_on_with_bound(
    parts: &Parts<'_>,
    progress: &mut Progress,
    budget: &mut Budget,
    bound: NewBound,
) -> Step
    requires ready { IsReady parts.now progress.old }
    requires new { Contains progress.old.atoms.atoms (AtMost bound.sum.items bound.threshold) → ⊥ }
    requires proper { All IsProper bound.sum.items }
    requires in_range { InRange bound.threshold }
    requires of_check { IsOfCheck parts.now.stack.now progress.old.branches (AtMost bound.sum.items bound.threshold) }
    requires leaves { All (λ (p : _). IsMarkedLeaf parts.now.stack.now parts.now.marks.items p.term) bound.sum.items }
    ensures { Steps parts.now progress.old progress.new budget.old budget.new result }
{
    symbols_are_declared();
    flat_says_the_same();
    let number = progress.atoms.len() as u32;
    let atom = NewAtom::Bound(bound);
    match number_new(parts, progress, budget, &atom) {
        Err(cause) => Step::Ended(cause),
        Ok(()) => {
            let _few = progress.atoms.len();
            match said_of(parts.alloc, number, &atom) {
                Ok(lemmas) => Step::Lemmas(lemmas),
                Err(_) => Step::Ended(Cause::Memory),
            }
        }
    }
}

/// Where nothing is done, nothing changes.
pub(crate) fn stays(parts: &Parts<'_>, progress: &Progress, budget: &Budget)
    requires { IsUnderWay parts.now progress.now }
    ensures { Went parts.now progress.now progress.now budget.now budget.now }
{
    let _spent = budget.room();
}

/// Doesn't go on, and shows where a number left the range, if one did.
pub(crate) fn stop_seeing(
    parts: &Parts<'_>,
    progress: &mut Progress,
    budget: &Budget,
    seen: Option<RangeSeen>,
) -> Step
    requires under_way { IsUnderWay parts.now progress.old }
    requires seen { IfSome seen (IsLeft parts.now.stack.now (column_sums progress.old.held.bounds) progress.old.branches) }
    ensures { Steps parts.now progress.old progress.new budget.now budget.now result }
{
    progress.seen = seen;
    stays(parts, progress, budget);
    Step::Ended(Cause::Memory)
}

/// Doesn't go on where the next step of a grid leaves the range.
pub(crate) fn stop_past(
    parts: &Parts<'_>,
    progress: &mut Progress,
    budget: &Budget,
    grid: Grid,
) -> Step
    requires under_way { IsUnderWay parts.now progress.old }
    requires past { IsPastOver (column_sums progress.old.held.bounds) progress.old.atoms.atoms grid }
    ensures { Steps parts.now progress.old progress.new budget.now budget.now result }
{
    stop_seeing(parts, progress, budget, Some(RangeSeen::Step(grid)))
}

/// Doesn't go on.
pub(crate) fn stop(parts: &Parts<'_>, progress: &Progress, budget: &Budget) -> Step
    requires { IsUnderWay parts.now progress.now }
    ensures { Steps parts.now progress.now progress.now budget.now budget.now result }
{
    stays(parts, progress, budget);
    Step::Ended(Cause::Memory)
}

/// What a step comes to in a last check.
pub(crate) fn checked(step: Step) -> Checked
    ensures { StepChecks step result }
{
    match step {
        Step::Lemmas(lemmas) => Checked::Lemmas(lemmas),
        Step::Conflict(clause) => Checked::Conflict(clause),
        Step::Ended(cause) => Checked::Ended(cause),
    }
}
