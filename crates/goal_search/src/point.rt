//! The values that a term has in models, as one check after another finds them.
ghost use Rattle.std.specs.Prelude.{◌≡◌, ◌<◌, ◌≤◌, length, IfOk, IsTrue};
ghost use Rattle.smt_meaning.specs.Interpretation.{meaning};
ghost use Rattle.smt_meaning.specs.Least.{value_in};
ghost use Rattle.smt_meaning.specs.Term.{fits, tree_at, number_of};
ghost use Rattle.goal_search.specs.Asks.{IsInRange};
ghost use Rattle.goal_search.specs.Goals.{IsGoal};
ghost use Rattle.goal_search.specs.Points.{IsLowered, IsStep, most_above, number_at};

use crate::question::ask;
use crate::text::Ask;
use model_eval::{EvalError, value};
use scope_stack::ScopeStack;
use smt_meaning::{Inner, Interp, Report, Seq, Settings, TermId, Value};
use std::alloc::{AllocError, Global};
use theory_port::{Decider, Verdict};

/// The least number of the range.
const LEAST: i128 = -i128::MAX;

/// A model, and how far the value of the term in it is above the least number of the range.
#[derive(Drop)]
pub(crate) struct Point {
    pub model: Interp,
    pub above: u128,
}

/// What comes of asking for a value.
#[derive(Drop)]
pub(crate) enum Step {
    /// The term has such a value in this model.
    Lower(Point),
    /// It has none in any model.
    Nothing,
    /// It isn't found: each worker ended by what it shows.
    Unknown(Seq<Report>),
}

/// The number that is so far above the least one.
pub(crate) fn number_at(above: u128) -> i128
    requires { above ≤ most_above }
    ensures { result ≡ number_at above }
{
    LEAST.saturating_add_unsigned(above)
}

/// The number that a value is, 0 where it is none.
fn number_of(value: Value) -> i128
    ensures { result ≡ number_of value }
{
    match value {
        Value::Whole(number) => number,
        Value::Truth(_) | Value::Element(_) => 0,
    }
}

/// Where a term's value in a model is. An `Err` is for want of memory.
fn above(
    alloc: Global,
    stack: &ScopeStack,
    term: TermId,
    model: &Interp,
) -> Result<u128, AllocError>
    requires within { term < length stack.now.trees }
    requires fits { IsTrue (fits (meaning model.now) (tree_at stack.now.trees term)) }
    ensures value { IfOk result (λ n. value_in model.now (tree_at stack.now.trees term) ≡ number_at n) }
    ensures within { IfOk result (λ n. n ≤ most_above) }
{
    match value(alloc, model, stack.terms(), term) {
        Ok(value) => Ok(number_of(value).abs_diff(LEAST)),
        Err(EvalError::Range(_)) => unreachable!(),
        Err(EvalError::Memory) => Err(AllocError),
    }
}

/// What comes of asking for a value. The stack stays as it is. An `Err` is for want of memory.
pub(crate) fn seek<D: Decider>(
    alloc: Global,
    stack: &mut ScopeStack,
    text: &Inner,
    term: TermId,
    asked: Ask,
    settings: &Settings,
    decider: &mut D,
) -> Result<Step, AllocError>
    requires may { D.may decider.old }
    requires workers { 0 < settings.now.workers }
    requires goal { IsGoal stack.old text.now term }
    requires range { IsInRange asked }
    ensures still { D.may decider.new }
    ensures stays { stack.new ≡ stack.old }
    ensures step { IfOk result (IsStep settings.now.workers stack.old.trees stack.old.frames settings.now.units text.now (tree_at stack.old.trees term) asked) }
{
    let verdict = ask(alloc, stack, text, term, asked, settings, decider)?;
    match verdict {
        Verdict::Sat(model) => {
            let above = above(alloc, stack, term, &model)?;
            Ok(Step::Lower(Point { model, above }))
        }
        Verdict::Unsat => Ok(Step::Nothing),
        Verdict::Unknown(reports) => Ok(Step::Unknown(reports)),
    }
}

/// What comes of asking for a value that is at most so far above the least number. The stack stays as it is. An `Err` is for want of memory.
pub(crate) fn lower<D: Decider>(
    alloc: Global,
    stack: &mut ScopeStack,
    text: &Inner,
    term: TermId,
    bound: u128,
    settings: &Settings,
    decider: &mut D,
) -> Result<Step, AllocError>
    requires may { D.may decider.old }
    requires workers { 0 < settings.now.workers }
    requires goal { IsGoal stack.old text.now term }
    requires bound { bound ≤ most_above }
    ensures still { D.may decider.new }
    ensures stays { stack.new ≡ stack.old }
    ensures lowered { IfOk result (IsLowered settings.now.workers stack.old.trees stack.old.frames settings.now.units text.now (tree_at stack.old.trees term) bound) }
{
    let bound = number_at(bound);
    seek(
        alloc,
        stack,
        text,
        term,
        Ask::AtMost(bound),
        settings,
        decider,
    )
}
