//! The calls of a search. Once it has stopped nothing more is told.
ghost use Rattle.std.specs.Prelude.{◌≡◌, ◌<◌, ◌≤◌, length, take};
ghost use Rattle.search_port.specs.State.{IsFull, IsOpenIn};
ghost use Rattle.search_port.specs.Calls.{AssertedBy, CheckedBy, InferredBy};
ghost use Rattle.first_clauses.specs.Holding.{IsAgreed};
ghost use Rattle.theory_combine.specs.Progress.{full_state, state, AreParts, IsProgress};
ghost use Rattle.theory_combine.specs.Ready.{WentOn};

use crate::errors::seen_of;
use crate::held::{tell_both, undo_both};
use crate::judge::{infer_more, judge};
use crate::parts::{Parts, Progress};
use literals::Literal;
use search_port::{Asserted, Budget, Cause, Checked, Inferred};

/// Tells one literal more. A conflict is a clause of the theory that is false under what is told; where memory is wanting, or a bound leaves the range, the literal
/// isn't taken, and the bound is kept to be shown.
pub(crate) fn tell(parts: &Parts<'_>, progress: &mut Progress, literal: Literal) -> Asserted
    requires progress { IsProgress parts.now progress.old }
    requires numbered { literal.atom < length (state parts.now progress.old).reading.table }
    requires open { IsOpenIn (state parts.now progress.old).log literal }
    ensures progress { IsProgress parts.now progress.new }
    ensures answer { AssertedBy (full_state parts.now progress.old) (full_state parts.now progress.new) literal result }
{
    match progress.stopped_at {
        Some(_) => Asserted::Ended(Cause::Memory),
        None => {
            let told = tell_both(
                parts.alloc,
                &mut progress.held,
                parts.stack,
                &progress.atoms,
                &parts.guide,
                literal,
            );
            match told {
                Ok(answer) => answer,
                Err(error) => {
                    progress.seen = seen_of(error);
                    Asserted::Ended(Cause::Memory)
                }
            }
        }
    }
}

/// What follows between decisions: clauses, a conflict, or an atom more, for which a unit is spent.
pub(crate) fn look(parts: &Parts<'_>, progress: &mut Progress, budget: &mut Budget) -> Inferred
    requires parts { AreParts parts.now }
    requires progress { IsProgress parts.now progress.old }
    ensures went { WentOn parts.now progress.old progress.new budget.old budget.new }
    ensures found { InferredBy (full_state parts.now progress.new) budget.old budget.new result }
{
    let _spent = budget.room();
    match progress.stopped_at {
        Some(_) => Inferred::Ended(Cause::Memory),
        None => infer_more(parts, progress, budget),
    }
}

/// A model of what was told, where each atom has a truth value; a conflict; or an atom more, for which a unit is spent. Where a number leaves the range it ends as
/// for want of memory, and the number is kept to be shown.
pub(crate) fn check(parts: &Parts<'_>, progress: &mut Progress, budget: &mut Budget) -> Checked
    requires parts { AreParts parts.now }
    requires progress { IsProgress parts.now progress.old }
    requires full { IsFull (state parts.now progress.old).reading (state parts.now progress.old).log }
    requires agreed { IsAgreed (state parts.now progress.old).reading (state parts.now progress.old).log }
    ensures went { WentOn parts.now progress.old progress.new budget.old budget.new }
    ensures found { CheckedBy (full_state parts.now progress.new) budget.old budget.new result }
{
    let _spent = budget.room();
    match progress.stopped_at {
        Some(_) => Checked::Ended(Cause::Memory),
        None => judge(parts, progress, budget),
    }
}

/// Keeps so many of the literals told.
pub(crate) fn undo_to(parts: &Parts<'_>, progress: &mut Progress, count: usize)
    requires progress { IsProgress parts.now progress.old }
    requires told { count ≤ length (state parts.now progress.old).log }
    ensures progress { IsProgress parts.now progress.new }
    ensures undone { full_state parts.now progress.new ≡ record (full_state parts.now progress.old) { log = take count (state parts.now progress.old).log } }
{
    match progress.stopped_at {
        Some(_) => progress.held.closure.log.truncate(count),
        None => undo_both(&mut progress.held, parts.stack, &progress.atoms, count),
    }
}
