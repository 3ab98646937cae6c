//! Pivots as units: where the budget keeps lines, bounds are met by no more pivots than may be spent, and each is spent.
ghost use Rattle.std.specs.Prelude.{◌≡◌, ◌+◌, ◌≤◌, ◌++◌, true, false, length, OnOk, IfOk};
ghost use Rattle.theory_combine.specs.Pivots.{pivot_units, SpendsPivots};
ghost use Rattle.theory_combine.specs.Progress.{Went};
ghost use Rattle.theory_combine.specs.Ready.{HasMet, IsReady};

use crate::held::{Meeting, Met, meet_bounds};
use crate::parts::{Parts, Progress};
use fraction128::Line;
use search_port::{Budget, Spent};
use std::alloc::AllocError;

/// Spends the pivots of these lines, in order. After an `Err`, for want of memory, the first ones are spent.
fn spend_pivots(budget: &mut Budget, lines: Vec<Line>) -> Result<(), AllocError>
    requires { length budget.old.units + length lines.items ≤ budget.old.bound }
    ensures spent { SpendsPivots lines.items budget.old budget.new }
    ensures all { OnOk result (length budget.new.units ≡ length budget.old.units + length lines.items) }
    ensures every { OnOk result (budget.new.units ≡ budget.old.units ++ pivot_units lines.items) }
{
    for line in lines {
        budget.spend(Spent::Pivot(line))?;
    }
    Ok(())
}

/// Meets the bounds by as many pivots as it takes, none of which is a unit.
fn meet_freely(parts: &Parts<'_>, progress: &mut Progress, budget: &Budget) -> Met
    requires ready { IsReady parts.now progress.old }
    requires keeps { budget.now.keeps_lines ≡ false }
    ensures went { Went parts.now progress.old progress.new budget.now budget.now }
    ensures met { HasMet parts.now progress.old progress.new budget.now result }
{
    let _spent = budget.room();
    let Meeting { met, lines: _ } = meet_bounds(
        parts.alloc,
        &mut progress.held,
        parts.stack,
        &progress.atoms,
        false,
        u64::MAX,
    );
    match met {
        Met::Spent => Met::Ended,
        other => other,
    }
}

/// Meets the bounds by at most as many pivots as there is room for, and spends each. After an `Err`, for want of memory, nothing is told or numbered from then on.
fn meet_by_units(
    parts: &Parts<'_>,
    progress: &mut Progress,
    budget: &mut Budget,
) -> Result<Met, AllocError>
    requires ready { IsReady parts.now progress.old }
    requires keeps { budget.old.keeps_lines ≡ true }
    ensures went { Went parts.now progress.old progress.new budget.old budget.new }
    ensures met { IfOk result (HasMet parts.now progress.old progress.new budget.new) }
{
    let room = budget.room();
    let Meeting { met, lines } = meet_bounds(
        parts.alloc,
        &mut progress.held,
        parts.stack,
        &progress.atoms,
        true,
        room,
    );
    match spend_pivots(budget, lines) {
        Ok(()) => Ok(met),
        Err(error) => {
            progress.stopped_at = Some(progress.atoms.len() as u32);
            Err(error)
        }
    }
}

/// Moves values until all bounds are met, or finds a clause that they break. Where the budget keeps lines each pivot is a unit. After an `Err`, for want of memory,
/// nothing is told or numbered from then on.
pub(crate) fn meet_within(
    parts: &Parts<'_>,
    progress: &mut Progress,
    budget: &mut Budget,
) -> Result<Met, AllocError>
    requires { IsReady parts.now progress.old }
    ensures went { Went parts.now progress.old progress.new budget.old budget.new }
    ensures met { IfOk result (HasMet parts.now progress.old progress.new budget.new) }
{
    if budget.keeps_lines() {
        meet_by_units(parts, progress, budget)
    } else {
        Ok(meet_freely(parts, progress, budget))
    }
}
