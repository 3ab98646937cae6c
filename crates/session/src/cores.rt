//! Cores of the last check (SMT-LIB 2.6, section 4.2.7).
ghost use Rattle.std.specs.Prelude.{◌≡◌, ◌+◌, ◌-◌, ◌^◌, ◌++◌, ◌<◌, List, length, map, flat_map, All, IfOk};
ghost use Rattle.std.specs.List.{range_with_len};
ghost use Rattle.smt_meaning.specs.Core.{name_of, name_or_none, named_places as places_of_names, text_at};
ghost use Rattle.smt_meaning.specs.Sexp.{sexp};
ghost use Rattle.smt_meaning.specs.Stack.{assertions_of};
ghost use Rattle.smt_meaning.specs.State.{texts_of as texts_of_level};
ghost use Rattle.smt_meaning.specs.Term.{Tree};
ghost use Rattle.goal_search.specs.Tries.{AreCandidates};
ghost use Rattle.session.specs.Above.{above_by};
ghost use Rattle.session.specs.Refuted.{IsRefuted};
ghost use Rattle.session.specs.Reduced.{IsHeldAmong, IsReducedUnder};

use crate::above::Above;
use crate::printed::texts_of;
use goal_search::{copied, core};
use scope_stack::{Assertion, ScopeStack};
use smt_command::name_of_whole;
use smt_meaning::{Bytes, Held, SExpr, Seq, Settings};
use std::alloc::{AllocError, Global};
use std::mem;
use theory_port::Decider;

/// The places of the assertions that have a name as a whole.
pub(crate) fn named_places(alloc: Global, assertions: &[Assertion]) -> Result<Vec<u64>, AllocError>
    ensures { IfOk result (λ v. v.items ≡ places_of_names 0 (map (λ a. a.text) assertions.now)) }
{
    let mut places = Vec::new(alloc);
    for (place, assertion) in assertions.iter().enumerate() {
        if name_of_whole(&assertion.text).is_some() {
            places.push(place as u64)?;
        }
    }
    Ok(places)
}

/// So many places from this one on.
pub(crate) fn places_from(alloc: Global, first: usize, count: usize) -> Result<Vec<u64>, AllocError>
    requires { first + count < 2 ^ 64 }
    ensures { IfOk result (λ v. v.items ≡ range_with_len first count) }
{
    let mut places = Vec::new(alloc);
    for place in first..first + count {
        places.push(place as u64)?;
    }
    Ok(places)
}

/// The names of the assertions that are held.
pub(crate) fn names_of(
    alloc: Global,
    assertions: &[Assertion],
    held: &[Held],
) -> Result<Seq<Bytes>, AllocError>
    requires { All (λ h. h.place < length assertions.now) held.now }
    ensures { IfOk result (λ ns. ns ≡ map (λ h. name_or_none (name_of (sexp (text_at (map (λ a. a.text) assertions.now) h.place)))) held.now) }
{
    let mut names = Seq::new(alloc);
    for one in held {
        let name = name_of_whole(&assertions[one.place as usize].text).unwrap_or(b"");
        names.push(Bytes::copy(alloc, name)?)?;
    }
    Ok(names)
}

/// The texts of what stands above the stack.
pub(crate) fn texts_above(alloc: Global, above: &Above) -> Result<Seq<SExpr>, AllocError>
    ensures { IfOk result (λ texts. (ts : List Tree) → texts ≡ flat_map texts_of_level (above_by ts above.now)) }
{
    match above {
        Above::Nothing => Ok(Seq::new(alloc)),
        Above::Assumed(assumptions) => texts_of(alloc, assumptions.as_slice()),
    }
}

/// The texts that are held, whose places are so many past those in the list.
pub(crate) fn texts_held(
    alloc: Global,
    texts: &[SExpr],
    below: usize,
    held: &[Held],
) -> Result<Seq<SExpr>, AllocError>
    requires { All (IsHeldAmong below (length texts.now)) held.now }
    ensures { IfOk result (λ ts. ts ≡ map (λ h. text_at texts.now (h.place - below)) held.now) }
{
    let mut found = Seq::new(alloc);
    for one in held {
        let text = &texts[one.place as usize - below];
        found.push(text.copy(alloc)?)?;
    }
    Ok(found)
}

/// A core of a stack with a level of assumptions above it. The stack stays as it is. An `Err` is for want of memory.
fn core_under<D: Decider>(
    alloc: Global,
    decider: &mut D,
    settings: &Settings,
    stack: &mut ScopeStack,
    assumptions: &Seq<Assertion>,
    candidates: &[u64],
) -> Result<Seq<Held>, AllocError>
    requires may { D.may decider.old }
    requires workers { 0 < settings.now.workers }
    requires refuted { IsRefuted stack.old (Above.Assumed assumptions.now) }
    requires candidates { AreCandidates 0 (length (assertions_of (stack.old.frames ++ above_by stack.old.trees (Above.Assumed assumptions.now)))) candidates.now }
    ensures still { D.may decider.new }
    ensures stays { stack.new ≡ stack.old }
    ensures core { IfOk result (IsReducedUnder stack.old (Above.Assumed assumptions.now) settings.now.workers settings.now.units candidates.now) }
{
    let again = copied(alloc, assumptions.as_slice())?;
    let mut seen = mem::replace(stack, ScopeStack::new(alloc)).into_stack();
    if seen.raise(again).is_err() {
        *stack = ScopeStack::of(seen);
        return Err(AllocError);
    }
    let held = core(alloc, &mut seen, candidates, settings, decider);
    seen.lower();
    *stack = ScopeStack::of(seen);
    held
}

/// A core of a stack with what stood above it at the last check. The stack stays as it is. An `Err` is for want of memory.
pub(crate) fn core_of<D: Decider>(
    alloc: Global,
    decider: &mut D,
    settings: &Settings,
    stack: &mut ScopeStack,
    above: &Above,
    candidates: &[u64],
) -> Result<Seq<Held>, AllocError>
    requires may { D.may decider.old }
    requires workers { 0 < settings.now.workers }
    requires refuted { IsRefuted stack.old above.now }
    requires candidates { AreCandidates 0 (length (assertions_of (stack.old.frames ++ above_by stack.old.trees above.now))) candidates.now }
    ensures still { D.may decider.new }
    ensures stays { stack.new ≡ stack.old }
    ensures core { IfOk result (IsReducedUnder stack.old above.now settings.now.workers settings.now.units candidates.now) }
{
    match above {
        Above::Nothing => {
            let mut seen = mem::replace(stack, ScopeStack::new(alloc)).into_stack();
            let held = core(alloc, &mut seen, candidates, settings, decider);
            *stack = ScopeStack::of(seen);
            held
        }
        Above::Assumed(assumptions) => {
            core_under(alloc, decider, settings, stack, assumptions, candidates)
        }
    }
}
