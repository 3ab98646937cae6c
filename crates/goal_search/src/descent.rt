//! The way down to the least value of a term.
ghost use Rattle.std.specs.Prelude.{◌≡◌, ◌<◌, ◌≤◌, IfOk, Some};
ghost use Rattle.smt_meaning.specs.Term.{tree_at};
ghost use Rattle.goal_search.specs.Goals.{IsGoal, IsLeast};
ghost use Rattle.goal_search.specs.Points.{IsFloor, IsPoint, most_above, number_at};
ghost use Rattle.goal_search.specs.declared.minimum.LeastValue.TheVariants.{Minimum, Unknown};

use crate::minimum::{Found, LeastValue};
use crate::point::{Point, Step, lower, number_at, seek};
use crate::text::Ask;
use scope_stack::ScopeStack;
use smt_meaning::{Best, Inner, Report, Seq, Settings, TermId};
use std::alloc::{AllocError, Global};
use theory_port::Decider;

/// A least value that is reached.
fn minimum(point: Point) -> LeastValue
    requires { point.above ≤ most_above }
    ensures { result ≡ Minimum (number_at point.above) point.model }
{
    LeastValue::Minimum(number_at(point.above), point.model)
}

/// The best value that was found, where a lower bound isn't decided.
fn best(point: Point, bound: u128, reports: Seq<Report>) -> LeastValue
    requires { bound ≤ most_above }
    ensures { result ≡ Unknown (record { model = Some point.model; bound = Some (number_at bound); reports = reports }) }
{
    LeastValue::Unknown(Best {
        model: Some(point.model),
        bound: Some(number_at(bound)),
        reports,
    })
}

/// What is found once the term has the least number of the range for its value: it is asked whether there is one below. The stack stays as it is. An `Err` is for want of memory.
fn at_least_number<D: Decider>(
    alloc: Global,
    stack: &mut ScopeStack,
    text: &Inner,
    term: TermId,
    settings: &Settings,
    decider: &mut D,
    point: Point,
) -> Result<LeastValue, AllocError>
    requires may { D.may decider.old }
    requires workers { 0 < settings.now.workers }
    requires goal { IsGoal stack.old text.now term }
    requires point { IsPoint stack.old.frames text.now (tree_at stack.old.trees term) point }
    requires least { point.above ≡ 0 }
    ensures still { D.may decider.new }
    ensures stays { stack.new ≡ stack.old }
    ensures least { IfOk result (IsLeast settings.now.workers stack.old.trees stack.old.frames settings.now.units text.now (tree_at stack.old.trees term)) }
{
    let step = seek(alloc, stack, text, term, Ask::BelowLeast, settings, decider)?;
    match step {
        Step::Lower(_) => unreachable!(),
        Step::Nothing => Ok(minimum(point)),
        Step::Unknown(reports) => Ok(LeastValue::Unknown(Best {
            model: Some(point.model),
            bound: None,
            reports,
        })),
    }
}

/// What is found between a floor, above which each value is, and a value that is reached: what is left is halved. The stack stays as it is. An `Err` is for want of memory.
fn narrow<D: Decider>(
    alloc: Global,
    stack: &mut ScopeStack,
    text: &Inner,
    term: TermId,
    settings: &Settings,
    decider: &mut D,
    mut point: Point,
    mut floor: u128,
) -> Result<Found, AllocError>
    requires may { D.may decider.old }
    requires workers { 0 < settings.now.workers }
    requires goal { IsGoal stack.old text.now term }
    requires point { IsPoint stack.old.frames text.now (tree_at stack.old.trees term) point }
    requires floor { IsFloor stack.old.frames (tree_at stack.old.trees term) (number_at floor) }
    ensures still { D.may decider.new }
    ensures stays { stack.new ≡ stack.old }
    ensures least { IfOk result (λ f. IsLeast settings.now.workers stack.old.trees stack.old.frames settings.now.units text.now (tree_at stack.old.trees term) f.value) }
    ensures checks { IfOk result (λ f. f.checks ≤ 128) }
{
    for turn in 0..128u16 {
        let gap = point.above.saturating_sub(floor);
        if gap <= 1 {
            return Ok(Found {
                value: minimum(point),
                checks: turn,
            });
        }
        let middle = floor + gap / 2;
        let step = lower(alloc, stack, text, term, middle, settings, decider)?;
        match step {
            Step::Lower(next) => point = next,
            Step::Nothing => floor = middle,
            Step::Unknown(reports) => {
                return Ok(Found {
                    value: best(point, middle, reports),
                    checks: turn + 1,
                });
            }
        }
    }
    Ok(Found {
        value: minimum(point),
        checks: 128,
    })
}

/// What is found below a value that is reached: each bound is twice as far below the last value as the one before, until there is a floor. The stack stays as it is. An `Err` is for want of memory.
pub(crate) fn descend<D: Decider>(
    alloc: Global,
    stack: &mut ScopeStack,
    text: &Inner,
    term: TermId,
    settings: &Settings,
    decider: &mut D,
    mut point: Point,
) -> Result<Found, AllocError>
    requires may { D.may decider.old }
    requires workers { 0 < settings.now.workers }
    requires goal { IsGoal stack.old text.now term }
    requires point { IsPoint stack.old.frames text.now (tree_at stack.old.trees term) point }
    ensures still { D.may decider.new }
    ensures stays { stack.new ≡ stack.old }
    ensures least { IfOk result (λ f. IsLeast settings.now.workers stack.old.trees stack.old.frames settings.now.units text.now (tree_at stack.old.trees term) f.value) }
    ensures checks { IfOk result (λ f. f.checks ≤ 299) }
{
    for turn in 0..128u16 {
        if point.above == 0 {
            let value = at_least_number(alloc, stack, text, term, settings, decider, point)?;
            return Ok(Found {
                value,
                checks: turn + 1,
            });
        }
        let bound = point.above.saturating_sub(1u128 << turn);
        let step = lower(alloc, stack, text, term, bound, settings, decider)?;
        match step {
            Step::Lower(next) => point = next,
            Step::Nothing => {
                let found = narrow(alloc, stack, text, term, settings, decider, point, bound)?;
                return Ok(Found {
                    value: found.value,
                    checks: found.checks + turn + 1,
                });
            }
            Step::Unknown(reports) => {
                return Ok(Found {
                    value: best(point, bound, reports),
                    checks: turn + 1,
                });
            }
        }
    }
    let value = at_least_number(alloc, stack, text, term, settings, decider, point)?;
    Ok(Found { value, checks: 129 })
}
