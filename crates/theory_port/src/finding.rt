//! What a decider finds of a stack. It is shown the terms of the assertions alone, where these are few, and the whole stack where that doesn't settle the check: a report speaks of all terms.
ghost use Rattle.std.specs.Prelude.{◌≡◌, ◌<◌, ℕ, List, ℤ, IfOk};
ghost use Rattle.smt_meaning.specs.Term.{Tree};
ghost use Rattle.smt_meaning.specs.Stack.{Frame};
ghost use Rattle.theory_port.specs.Found.{IsSettled};
ghost use Rattle.theory_port.specs.Verdicts.{IsVerdict};

use crate::decider::{Decider, Verdict};
use scope_stack::ScopeStack;
use smt_meaning::Settings;
use std::alloc::{AllocError, Global};
use std::mem;

/// A model, or that there is none, if it was found.
fn settled(found: Verdict) -> Option<Verdict>
    ensures { (workers : ℕ) (ts : List Tree) (frames : List Frame) (limit : ℤ) → IsVerdict workers ts frames limit found → IsSettled frames result }
{
    match found {
        Verdict::Sat(model) => Some(Verdict::Sat(model)),
        Verdict::Unsat => Some(Verdict::Unsat),
        Verdict::Unknown(_) => None,
    }
}

/// What is found of the terms of the assertions alone, if it settles the check. An `Err` is for want of memory.
fn find_by_part<D: Decider>(
    alloc: Global,
    decider: &mut D,
    settings: &Settings,
    stack: &mut ScopeStack,
) -> Result<Option<Verdict>, AllocError>
    requires may { D.may decider.old }
    requires workers { 0 < settings.now.workers }
    ensures still { D.may decider.new }
    ensures stays { stack.new ≡ stack.old }
    ensures found { IfOk result (IsSettled stack.old.frames) }
{
    let whole = mem::replace(stack, ScopeStack::new(alloc));
    match whole.part(alloc) {
        Err(whole) => {
            *stack = whole;
            Ok(None)
        }
        Ok(part) => {
            let found = decider.decide(alloc, part.stack(), settings);
            *stack = part.whole();
            Ok(settled(found?))
        }
    }
}

/// What is found of a stack, which stays as it is. An `Err` is for want of memory.
pub fn found<D: Decider>(
    alloc: Global,
    decider: &mut D,
    settings: &Settings,
    stack: &mut ScopeStack,
) -> Result<Verdict, AllocError>
    requires may { D.may decider.old }
    requires workers { 0 < settings.now.workers }
    ensures still { D.may decider.new }
    ensures stays { stack.new ≡ stack.old }
    ensures found { IfOk result (IsVerdict settings.now.workers stack.old.trees stack.old.frames settings.now.units) }
{
    if let Some(verdict) = find_by_part(alloc, decider, settings, stack)? {
        return Ok(verdict);
    }
    let seen = mem::replace(stack, ScopeStack::new(alloc)).into_stack();
    let found = decider.decide(alloc, &seen, settings);
    *stack = ScopeStack::of(seen);
    found
}
