//! Checks under assumptions (SMT-LIB 2.6, section 4.2.5).
ghost use Rattle.std.specs.Prelude.{◌≡◌, ◌<◌, ◌≤◌, length, IfOk};
ghost use Rattle.smt_meaning.specs.Stack.{assertions_of};
ghost use Rattle.goal_search.specs.Assumed.{ChecksUnder};
ghost use Rattle.goal_search.specs.Under.{IsAnsweredUnder};

use crate::answer::{Answer, checked};
use scope_stack::{Assertion, ScopeStack, StackError};
use smt_meaning::{SExpr, Seq, Settings};
use std::alloc::{AllocError, Global};
use theory_port::Decider;

/// What a check under assumptions comes to, and the assumptions.
#[derive(Drop)]
pub struct Assumed {
    pub answer: Answer,
    pub assumptions: Seq<Assertion>,
}

/// Copies of assertions.
pub fn copied(alloc: Global, assertions: &[Assertion]) -> Result<Seq<Assertion>, AllocError>
    ensures { IfOk result (λ v. v ≡ assertions.now) }
{
    let mut out = Seq::new(alloc);
    for assertion in assertions {
        let text = assertion.text.copy(alloc)?;
        out.push(Assertion {
            text,
            term: assertion.term,
        })?;
    }
    Ok(out)
}

/// What a check comes to of a stack whose assumptions stand above so many assertions. The stack stays as it is. An `Err` is for want of memory.
fn answered<D: Decider>(
    alloc: Global,
    decider: &mut D,
    settings: &Settings,
    stack: &mut ScopeStack,
    below: usize,
) -> Result<Assumed, AllocError>
    requires may { D.may decider.old }
    requires workers { 0 < settings.now.workers }
    requires below { below ≤ length (assertions_of stack.old.frames) }
    ensures still { D.may decider.new }
    ensures stays { stack.new ≡ stack.old }
    ensures answered { IfOk result (IsAnsweredUnder settings.now.workers settings.now.units below stack.old) }
{
    let _ = stack.depth();
    stack.laws();
    let answer = checked(alloc, decider, settings, stack)?;
    let assumptions = copied(alloc, &stack.assertions()[below..])?;
    Ok(Assumed {
        answer,
        assumptions,
    })
}

/// Checks a stack under the assumption of terms, whose level is gone afterwards. The terms join the stack's; an `Err` changes nothing.
pub fn check_under<D: Decider>(
    alloc: Global,
    decider: &mut D,
    settings: &Settings,
    stack: &mut ScopeStack,
    terms: &[SExpr],
) -> Result<Assumed, StackError>
    requires may { D.may decider.old }
    requires workers { 0 < settings.now.workers }
    ensures still { D.may decider.new }
    ensures checked { ChecksUnder settings.now.workers settings.now.units terms.now stack.old result stack.new }
{
    let count = stack.terms().len();
    let below = stack.assertions().len();
    stack.assume(alloc, terms)?;
    match answered(alloc, decider, settings, stack, below) {
        Ok(assumed) => {
            stack.withdraw();
            Ok(assumed)
        }
        Err(AllocError) => {
            stack.take_back(count);
            Err(StackError::Memory)
        }
    }
}
