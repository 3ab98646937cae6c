//! Branches on the value of a term that isn't whole.
ghost use Rattle.std.specs.Prelude.{◌≡◌, ◌≢◌, ◌∷◌, [], pos, All, OnOk, IfOk};
ghost use Rattle.fraction128.specs.Whole.{InRange};
ghost use Rattle.fraction128.specs.Lines.{IsFloor};
ghost use Rattle.smt_meaning.specs.declared.clauses.Atom.TheVariants.{AtMost};
ghost use Rattle.smt_meaning.specs.Linear.{summand};
ghost use Rattle.smt_meaning.specs.Boxes.{term_at_most};
ghost use Rattle.smt_meaning.specs.CheckAtoms.{IsReached};
ghost use Rattle.smt_laws.specs.Flat.{flat};
ghost use Rattle.sum_bounds.specs.Bounds.{IsFirstIn};
ghost use Rattle.bound_log.specs.Growth.{IsProper};
ghost use Rattle.simplex_steps.specs.Run.{AreWithin};
ghost use Rattle.theory_combine.specs.Held.{AllFit};
ghost use Rattle.theory_combine.specs.Last.{HoldsWhereEmpty};
ghost use Rattle.theory_combine.specs.Progress.{full_state};
ghost use Rattle.theory_combine.specs.Shown.{IsOfCheck, IsMarkedLeaf};
ghost use Rattle.theory_combine.specs.Ready.{IsAtLast, IsReady, Steps};

use crate::numbering::NewBound;
use crate::parts::{Parts, Progress};
use crate::step::{Step, go_on_with_bound, stop};
use bound_log::{fractions_hold, sides_are_open};
use search_port::Budget;
use smt_laws::flat_says_the_same;
use smt_meaning::{Summand, TermId};
use std::alloc::{AllocError, Global};
use sum_bounds::FractionalLeaf;

/// The sum of one term alone.
fn alone(alloc: Global, term: TermId) -> Result<Vec<Summand>, AllocError>
    ensures proper { IfOk result (λ sum. All IsProper sum.items) }
    ensures alone { IfOk result (λ sum. sum.items ≡ summand term (pos 1) ∷ []) }
{
    let mut sum = Vec::new(alloc);
    sum.push(Summand {
        coefficient: 1,
        term,
    })?;
    Ok(sum)
}

/// The bound that a term is at most the whole number below its value. An `Err` is for want of memory.
fn side_of(alloc: Global, leaf: &FractionalLeaf) -> Result<NewBound, AllocError>
    requires broken { leaf.now.value.denominator ≢ 1 }
    requires floor { IsFloor leaf.now.floor leaf.now.value }
    ensures proper { IfOk result (λ b. All IsProper b.sum.items) }
    ensures in_range { IfOk result (λ b. InRange b.threshold) }
    ensures side { IfOk result (λ b. AtMost b.sum.items b.threshold ≡ term_at_most leaf.now.term leaf.now.floor) }
{
    let _denominator = leaf.value.denominator();
    Ok(NewBound {
        sum: alone(alloc, leaf.term)?,
        threshold: leaf.floor,
    })
}

/// Keeps the row of a branch. An `Err` is for want of memory.
fn keep_row(
    parts: &Parts<'_>,
    progress: &mut Progress,
    leaf: FractionalLeaf,
) -> Result<(), AllocError>
    requires ready { IsReady parts.now progress.old }
    requires leaf { IsMarkedLeaf parts.now.stack.now parts.now.marks.items leaf.term }
    requires first { IsFirstIn progress.old.held.bounds.bounds.columns leaf }
    requires within { AreWithin progress.old.held.bounds.bounds.columns }
    requires reached { IsReached parts.now.stack.now.trees (flat parts.now.stack.now.frames) leaf.term leaf.value }
    ensures ready { IsReady parts.now progress.new }
    ensures atoms { progress.new.atoms ≡ progress.old.atoms }
    ensures same { full_state parts.now progress.new ≡ full_state parts.now progress.old }
    ensures of_check { OnOk result (IsOfCheck parts.now.stack.now progress.new.branches (term_at_most leaf.term leaf.floor)) }
{
    flat_says_the_same();
    let line = progress.held.bounds.branch_line(parts.alloc, leaf)?;
    progress.branches.push(line)?;
    progress.seen = None;
    Ok(())
}

/// Goes on with the bound that a term is at most the whole number below its value. The other side is its negation. The bound has no number, since every numbered
/// one is told, and the value would be on a side of it.
pub(crate) fn branch(
    parts: &Parts<'_>,
    progress: &mut Progress,
    budget: &mut Budget,
    leaf: FractionalLeaf,
) -> Step
    requires at_last { IsAtLast parts.now progress.old }
    requires first { IsFirstIn progress.old.held.bounds.bounds.columns leaf }
    requires fits { AllFit progress.old.held.bounds }
    requires constants { All (HoldsWhereEmpty progress.old.atoms.atoms) progress.old.held.closure.log.items }
    ensures { Steps parts.now progress.old progress.new budget.old budget.new result }
{
    flat_says_the_same();
    fractions_hold();
    sides_are_open(&leaf);
    progress.held.bounds.facts();
    let Ok(bound) = side_of(parts.alloc, &leaf) else {
        return stop(parts, progress, budget);
    };
    match keep_row(parts, progress, leaf) {
        Ok(()) => go_on_with_bound(parts, progress, budget, bound),
        Err(_) => stop(parts, progress, budget),
    }
}
