//! The question for the least value of a term: under the assumption that the term has a value.
ghost use Rattle.std.specs.Prelude.{◌≡◌, ◌<◌, ◌≤◌, IfOk, OnErr, length};
ghost use Rattle.smt_meaning.specs.Stack.{assertions_of, depth};
ghost use Rattle.smt_meaning.specs.Term.{tree_at};
ghost use Rattle.goal_search.specs.Checked.{WhereUnsat};
ghost use Rattle.goal_search.specs.Goals.{IsGoal};
ghost use Rattle.goal_search.specs.declared.minimum.LeastValue.TheVariants.{Unsat};
ghost use Rattle.session.specs.Minimized.{AreAfter, AsksGoal, IsAnswerByLeast, IsItselfAbove, IsMinimized, MinimizesUnder, goal_refusal};

use crate::negated::refusal_asked;
use goal_search::{
    Answer, Assumed, LeastValue, asks_are_assumed, copied, itself, least, reason_of,
};
use scope_stack::{Assertion, ScopeStack, StackError};
use smt_laws::judged_again;
use smt_meaning::language::{Mode, Reply};
use smt_meaning::{Inner, Kept, Refusal, Seq, Settings, Sort, TermId};
use std::alloc::{AllocError, Global};
use theory_port::Decider;

/// How many terms there may be before what is asked of a goal joins them.
const MOST_BEFORE: u32 = 4294967287;

/// How many levels there may be above level 0.
const MOST_LEVELS: u16 = 65535;

/// Why the least value of a term of this sort isn't sought, whose terms stand on the stack, if it isn't.
fn refusal_of(alloc: Global, sort: Sort, stack: &ScopeStack) -> Result<Option<Refusal>, AllocError>
    ensures { IfOk result (λ r. r ≡ goal_refusal sort (length stack.now.trees) (depth stack.now.frames)) }
{
    if !matches!(sort, Sort::Int) {
        let command = Seq::copy(alloc, b"minimize")?;
        return Ok(Some(Refusal::SortsDiffer(command)));
    }
    if stack.terms().len() > MOST_BEFORE {
        return Ok(Some(Refusal::TooManyTerms));
    }
    if stack.depth() == MOST_LEVELS {
        return Ok(Some(Refusal::TooManyLevels));
    }
    Ok(None)
}

/// The term whose least value is sought. Its terms join the stack's; an `Err` changes nothing.
fn ask_goal(alloc: Global, stack: &mut ScopeStack, text: &Inner) -> Result<TermId, StackError>
    ensures { AsksGoal text.now stack.old result stack.new }
{
    judged_again();
    asks_are_assumed();
    let count = stack.terms().len();
    let mut texts = Seq::new(alloc);
    texts.push(text.sexpr().copy(alloc)?)?;
    let asked = match stack.ask(alloc, texts.as_slice()) {
        Ok(asked) => asked,
        Err(StackError::Refused(why)) => {
            let why = refusal_asked(alloc, stack, text, why)?;
            return Err(StackError::Refused(why));
        }
        Err(StackError::Memory) => return Err(StackError::Memory),
    };
    let _ = stack.terms().len();
    let _ = text.sexpr().len();
    let Some(goal) = asked.as_slice().first() else {
        unreachable!()
    };
    match refusal_of(alloc, goal.sort, stack) {
        Ok(None) => Ok(goal.term),
        Ok(Some(why)) => {
            stack.forget(count);
            Err(StackError::Refused(why))
        }
        Err(AllocError) => {
            stack.forget(count);
            Err(StackError::Memory)
        }
    }
}

/// Copies of the assertions of a stack after so many.
fn copied_after(
    alloc: Global,
    stack: &ScopeStack,
    below: usize,
) -> Result<Seq<Assertion>, AllocError>
    requires { below ≤ length (assertions_of stack.now.frames) }
    ensures { IfOk result (AreAfter below stack.now) }
{
    copied(alloc, &stack.assertions()[below..])
}

/// The assumption `(= t t)` of a goal, whose terms join the stack's. An `Err` changes nothing.
fn itself_above(
    alloc: Global,
    stack: &mut ScopeStack,
    text: &Inner,
    term: TermId,
) -> Result<Seq<Assertion>, AllocError>
    requires { IsGoal stack.old text.now term }
    ensures ok { IfOk result (λ xs. IsItselfAbove text.now (tree_at stack.old.trees term) stack.old xs stack.new) }
    ensures err { OnErr result (stack.new ≡ stack.old) }
{
    asks_are_assumed();
    let count = stack.terms().len();
    let below = stack.assertions().len();
    let mut texts = Seq::new(alloc);
    texts.push(itself(alloc, text)?)?;
    match stack.assume(alloc, texts.as_slice()) {
        Ok(()) => {}
        Err(StackError::Refused(_)) => unreachable!(),
        Err(StackError::Memory) => return Err(AllocError),
    }
    stack.laws();
    let _ = stack.depth();
    match copied_after(alloc, stack, below) {
        Ok(assumptions) => {
            stack.withdraw();
            Ok(assumptions)
        }
        Err(AllocError) => {
            stack.take_back(count);
            Err(AllocError)
        }
    }
}

/// What the question comes to, of which this is found. An `Err` is for want of memory.
fn answer_of_least(alloc: Global, value: LeastValue) -> Result<Answer, AllocError>
    ensures answer { IfOk result (IsAnswerByLeast value) }
    ensures refuted { IfOk result (λ a. WhereUnsat a.mode (value ≡ Unsat)) }
{
    match value {
        LeastValue::Minimum(number, model) => {
            let kept = model.copy_tables(alloc)?;
            Ok(Answer {
                reply: Reply::Minimum(number),
                kept: Kept::Model(kept),
                mode: Mode::Sat(model),
            })
        }
        LeastValue::Unsat => Ok(Answer {
            reply: Reply::Unsat,
            kept: Kept::Nothing,
            mode: Mode::Unsat,
        }),
        LeastValue::Unknown(best) => {
            let reason = reason_of(best.reports.as_slice());
            Ok(Answer {
                reply: Reply::Unknown,
                kept: Kept::Best(best),
                mode: Mode::Unknown(reason),
            })
        }
    }
}

/// What is found of the least value of a goal, and the assumption `(= t t)`, whose terms join the stack's. An `Err`, for want of memory, changes nothing.
fn minimized<D: Decider>(
    alloc: Global,
    decider: &mut D,
    settings: &Settings,
    stack: &mut ScopeStack,
    text: &Inner,
    term: TermId,
) -> Result<Assumed, AllocError>
    requires may { D.may decider.old }
    requires workers { 0 < settings.now.workers }
    requires goal { IsGoal stack.old text.now term }
    ensures still { D.may decider.new }
    ensures ok { IfOk result (λ a. IsMinimized settings.now.workers settings.now.units text.now (tree_at stack.old.trees term) stack.old a stack.new) }
    ensures err { OnErr result (stack.new ≡ stack.old) }
{
    let found = least(alloc, stack, text, term, settings, decider)?;
    let answer = answer_of_least(alloc, found.value)?;
    let assumptions = itself_above(alloc, stack, text, term)?;
    Ok(Assumed {
        answer,
        assumptions,
    })
}

/// Seeks the least value of a term. The terms join the stack's; an `Err` changes nothing.
pub(crate) fn minimize_under<D: Decider>(
    alloc: Global,
    decider: &mut D,
    settings: &Settings,
    stack: &mut ScopeStack,
    text: &Inner,
) -> Result<Assumed, StackError>
    requires may { D.may decider.old }
    requires workers { 0 < settings.now.workers }
    ensures still { D.may decider.new }
    ensures sought { MinimizesUnder settings.now.workers settings.now.units text.now stack.old result stack.new }
{
    let count = stack.terms().len();
    let term = ask_goal(alloc, stack, text)?;
    match minimized(alloc, decider, settings, stack, text, term) {
        Ok(assumed) => Ok(assumed),
        Err(AllocError) => {
            stack.forget(count);
            Err(StackError::Memory)
        }
    }
}
