//! Cores: one candidate after another is left out, and goes where the others have no model without it.
ghost use Rattle.std.specs.Prelude.{◌≡◌, ◌++◌, ◌<◌, true, length, replicate, ℕ, List, ℤ, IfOk, OnOk};
ghost use Rattle.smt_meaning.specs.Term.{Tree};
ghost use Rattle.smt_meaning.specs.Core.{IsReduced};
ghost use Rattle.smt_meaning.specs.Keeping.{keeping};
ghost use Rattle.smt_meaning.specs.Stack.{Frame, HasNoModel, assertions_of};
ghost use Rattle.scope_stack.specs.Trials.{marks};
ghost use Rattle.theory_port.specs.Verdicts.{IsVerdict};
ghost use Rattle.goal_search.specs.Tries.{AreCandidates, IsAnswered, IsTried, held_by};

use scope_stack::{ScopeStack, Stack, Trial};
use smt_meaning::{Held, Reason, Seq, Settings};
use std::alloc::{AllocError, Global};
use std::mem;
use theory_port::{Decider, Verdict};

/// What a check comes to of what is left of a stack, which stays as it is. An `Err` is for want of memory.
fn check<D: Decider>(
    alloc: Global,
    trial: &mut Trial,
    settings: &Settings,
    decider: &mut D,
) -> Result<Verdict, AllocError>
    requires may { D.may decider.old }
    requires workers { 0 < settings.now.workers }
    ensures still { D.may decider.new }
    ensures stays { trial.new ≡ trial.old }
    ensures verdict { IfOk result (IsVerdict settings.now.workers trial.old.stack.trees (keeping (marks trial.old.kept) trial.old.stack.frames) settings.now.units) }
{
    let whole = mem::replace(trial, Trial::new(alloc));
    match whole.thinned(alloc) {
        Err(whole) => {
            *trial = whole;
            Err(AllocError)
        }
        Ok(thinned) => {
            let verdict = decider.decide(alloc, thinned.stack(), settings);
            *trial = thinned.trial();
            verdict
        }
    }
}

/// Why what was left out of a check has to stay, unless the others have no model.
fn reason(verdict: Verdict) -> Option<Reason>
    ensures { (workers : ℕ) (ts : List Tree) (frames : List Frame) (limit : ℤ) → IsVerdict workers ts frames limit verdict → IsAnswered workers ts frames limit result }
{
    match verdict {
        Verdict::Unsat => None,
        Verdict::Sat(model) => Some(Reason::Model(model)),
        Verdict::Unknown(reports) => Some(Reason::Reports(reports)),
    }
}

/// Leaves a candidate out, and puts it back if there is a reason, which it gives. An `Err` is for want of memory.
fn try_without<D: Decider>(
    alloc: Global,
    trial: &mut Trial,
    place: u64,
    settings: &Settings,
    decider: &mut D,
) -> Result<Option<Reason>, AllocError>
    requires may { D.may decider.old }
    requires workers { 0 < settings.now.workers }
    requires kept { marks trial.old.kept place ≡ true }
    ensures still { D.may decider.new }
    ensures stack { trial.new.stack ≡ trial.old.stack }
    ensures tried { IfOk result (λ why. IsTried settings.now.workers trial.old.stack settings.now.units place trial.old.kept why trial.new.kept) }
{
    trial.leave_out(place);
    let verdict = check(alloc, trial, settings, decider)?;
    match reason(verdict) {
        None => Ok(None),
        Some(why) => {
            trial.put_back(place);
            Ok(Some(why))
        }
    }
}

/// Lists a candidate that has a reason to stay.
fn hold(held: &mut Seq<Held>, place: u64, why: Option<Reason>) -> Result<(), AllocError>
    ensures { OnOk result (held.new ≡ held.old ++ held_by place why) }
{
    if let Some(why) = why {
        held.push(Held { place, why })?;
    }
    Ok(())
}

/// Tries the candidates in their order. An `Err` is for want of memory.
fn try_all<D: Decider>(
    alloc: Global,
    trial: &mut Trial,
    candidates: &[u64],
    settings: &Settings,
    decider: &mut D,
) -> Result<Seq<Held>, AllocError>
    requires may { D.may decider.old }
    requires workers { 0 < settings.now.workers }
    requires candidates { AreCandidates 0 (length (assertions_of trial.old.stack.frames)) candidates.now }
    requires whole { trial.old.kept ≡ replicate (length (assertions_of trial.old.stack.frames)) true }
    requires none { HasNoModel trial.old.stack.frames }
    ensures still { D.may decider.new }
    ensures stack { trial.new.stack ≡ trial.old.stack }
    ensures core { IfOk result (IsReduced settings.now.workers trial.old.stack.trees trial.old.stack.frames settings.now.units candidates.now) }
{
    let mut held = Seq::new(alloc);
    for place in candidates {
        let why = try_without(alloc, trial, *place, settings, decider)?;
        hold(&mut held, *place, why)?;
    }
    Ok(held)
}

/// Which of the candidates, by their places among the assertions, have to stay for the assertions to have no model, and why. The stack stays as it is. An `Err` is for want of memory.
pub fn core<D: Decider>(
    alloc: Global,
    stack: &mut Stack,
    candidates: &[u64],
    settings: &Settings,
    decider: &mut D,
) -> Result<Seq<Held>, AllocError>
    requires may { D.may decider.old }
    requires workers { 0 < settings.now.workers }
    requires candidates { AreCandidates 0 (length (assertions_of stack.old.frames)) candidates.now }
    requires none { HasNoModel stack.old.frames }
    ensures still { D.may decider.new }
    ensures stays { stack.new ≡ stack.old }
    ensures core { IfOk result (IsReduced settings.now.workers stack.old.trees stack.old.frames settings.now.units candidates.now) }
{
    let whole = mem::replace(stack, ScopeStack::new(alloc).into_stack());
    match Trial::of(alloc, whole) {
        Err(whole) => {
            *stack = whole;
            Err(AllocError)
        }
        Ok(mut trial) => {
            let held = try_all(alloc, &mut trial, candidates, settings, decider);
            *stack = trial.whole();
            held
        }
    }
}
