//! One check of what is asked of a term.
ghost use Rattle.std.specs.Prelude.{◌≡◌, ◌<◌, IfOk};
ghost use Rattle.smt_meaning.specs.Least.{asking, terms_asked};
ghost use Rattle.smt_meaning.specs.Sorts.{with_all};
ghost use Rattle.smt_meaning.specs.Term.{tree_at};
ghost use Rattle.theory_port.specs.Verdicts.{IsVerdict};
ghost use Rattle.goal_search.specs.Asks.{IsInRange, asked};
ghost use Rattle.goal_search.specs.Goals.{IsGoal};

use crate::text::{Ask, asks_are_assumed, texts};
use scope_stack::{ScopeStack, StackError};
use smt_meaning::{Inner, Settings, TermId};
use std::alloc::{AllocError, Global};
use theory_port::{Decider, Verdict, found};

/// What a check comes to of a stack with a level above it that asserts what is asked of a term. The stack stays as it is. An `Err` is for want of memory.
pub(crate) fn ask<D: Decider>(
    alloc: Global,
    stack: &mut ScopeStack,
    text: &Inner,
    term: TermId,
    ask: Ask,
    settings: &Settings,
    decider: &mut D,
) -> Result<Verdict, AllocError>
    requires may { D.may decider.old }
    requires workers { 0 < settings.now.workers }
    requires goal { IsGoal stack.old text.now term }
    requires range { IsInRange ask }
    ensures still { D.may decider.new }
    ensures stays { stack.new ≡ stack.old }
    ensures verdict { IfOk result (IsVerdict settings.now.workers (with_all stack.old.trees (terms_asked (asked text.now (tree_at stack.old.trees term) ask)))
        (asking stack.old.frames (asked text.now (tree_at stack.old.trees term) ask)) settings.now.units) }
{
    asks_are_assumed();
    let texts = texts(alloc, text, ask)?;
    let count = stack.terms().len();
    match stack.assume(alloc, texts.as_slice()) {
        Ok(()) => {}
        Err(StackError::Refused(_)) => unreachable!(),
        Err(StackError::Memory) => return Err(AllocError),
    }
    let verdict = found(alloc, decider, settings, stack);
    stack.take_back(count);
    verdict
}
