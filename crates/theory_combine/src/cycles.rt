//! What differences told show: a cycle that no numbers meet, or bounds that follow by a path.
ghost use Rattle.std.specs.Prelude.{All, OnOk, IfOk, IfSome};
ghost use Rattle.search_port.specs.Calls.{IsConflict, InferredBy};
ghost use Rattle.search_port.specs.Spending.{Spending};
ghost use Rattle.congruence.specs.Implied.{IsPressingLemma};
ghost use Rattle.closure_log.specs.Seen.{state_of};
ghost use Rattle.theory_combine.specs.Kept.{IsHeldOf, KeepsHeld};

use crate::differences::literal_of;
use crate::held::Held;
use atom_form::AtomNumbers;
use closure_log::{inferred, is_open, keep};
use difference_logic::{ImpliedEdge, broken, implied, told_literals};
use scope_stack::Stack;
use search_port::{Cause, Inferred, Lemma};
use smt_laws::flat_says_the_same;
use std::alloc::{AllocError, Global};

/// How many clauses are given in a call, but for those of one edge.
const GIVEN: usize = 8;

/// The most reasons of a clause that is given.
const REASONS: usize = 7;

/// The clause of a cycle of tags.
fn clause_of(
    alloc: Global,
    held: &Held,
    stack: &Stack,
    atoms: &AtomNumbers,
    tags: &[u32],
) -> Result<Option<Lemma>, AllocError>
    requires { IsHeldOf stack.now atoms.now.atoms held.now }
    ensures { IfOk result (λ o. IfSome o (IsConflict (state_of stack.now atoms.now.atoms held.now.closure.log.items))) }
{
    flat_says_the_same();
    match told_literals(alloc, &held.closure.log, &held.scan.places, tags)? {
        Some(literals) => broken(alloc, atoms, &literals),
        None => Ok(None),
    }
}

/// Takes what was told into the graph of differences. The clause of a cycle, where there is one that no numbers meet.
pub(crate) fn meet_differences(
    alloc: Global,
    held: &mut Held,
    stack: &Stack,
    atoms: &AtomNumbers,
) -> Result<Option<Lemma>, AllocError>
    requires { IsHeldOf stack.now atoms.now.atoms held.old }
    ensures keeps { KeepsHeld stack.now atoms.now.atoms held.old held.new }
    ensures clause { IfOk result (λ o. IfSome o (IsConflict (state_of stack.now atoms.now.atoms held.new.closure.log.items))) }
{
    match held
        .looked
        .differences
        .take(alloc, atoms, &held.closure.log)?
    {
        None => Ok(None),
        Some(tags) => clause_of(alloc, held, stack, atoms, &tags),
    }
}

/// The clause by which a literal follows by a path.
fn shown(
    alloc: Global,
    held: &Held,
    stack: &Stack,
    atoms: &AtomNumbers,
    found: &ImpliedEdge,
) -> Result<Option<Lemma>, AllocError>
    requires { IsHeldOf stack.now atoms.now.atoms held.now }
    ensures { IfOk result (λ o. IfSome o (IsPressingLemma (state_of stack.now atoms.now.atoms held.now.closure.log.items))) }
{
    flat_says_the_same();
    if found.reasons.len() > REASONS {
        return Ok(None);
    }
    let Some(literal) = literal_of(atoms, found.tag) else {
        return Ok(None);
    };
    if !is_open(&held.scan.places, &held.closure.log, literal.atom()) {
        return Ok(None);
    }
    match told_literals(alloc, &held.closure.log, &held.scan.places, &found.reasons)? {
        Some(reasons) => implied(alloc, atoms, literal, &reasons),
        None => Ok(None),
    }
}

/// Adds the clauses of what follows by paths.
fn add_shown(
    alloc: Global,
    clauses: &mut Vec<Lemma>,
    held: &Held,
    stack: &Stack,
    atoms: &AtomNumbers,
    all: &[ImpliedEdge],
) -> Result<(), AllocError>
    requires { IsHeldOf stack.now atoms.now.atoms held.now }
    ensures { OnOk result (All (IsPressingLemma (state_of stack.now atoms.now.atoms held.now.closure.log.items)) clauses.old.items → All (IsPressingLemma (state_of stack.now atoms.now.atoms held.now.closure.log.items)) clauses.new.items) }
{
    for found in all {
        let clause = shown(alloc, held, stack, atoms, found)?;
        keep(clauses, clause)?;
    }
    Ok(())
}

/// Clauses by which open bounds follow from differences, by paths through edges that are new.
fn follow_paths(
    alloc: Global,
    held: &mut Held,
    stack: &Stack,
    atoms: &AtomNumbers,
) -> Result<Vec<Lemma>, AllocError>
    requires { IsHeldOf stack.now atoms.now.atoms held.old }
    ensures keeps { KeepsHeld stack.now atoms.now.atoms held.old held.new }
    ensures found { IfOk result (λ cs. All (IsPressingLemma (state_of stack.now atoms.now.atoms held.new.closure.log.items)) cs.items) }
{
    let mut clauses = Vec::new(alloc);
    for turn in 0..u64::MAX {
        if clauses.len() >= GIVEN {
            return Ok(clauses);
        }
        let Some(all) = held.looked.differences.next_implied(alloc)? else {
            return Ok(clauses);
        };
        add_shown(alloc, &mut clauses, held, stack, atoms, &all)?;
    }
    Ok(clauses)
}

/// What differences show between decisions: a conflict, clauses, or that numbers meet all bounds told. None where it is not known whether they do.
fn follow_known(
    alloc: Global,
    held: &mut Held,
    stack: &Stack,
    atoms: &AtomNumbers,
) -> Result<Option<Inferred>, AllocError>
    requires { IsHeldOf stack.now atoms.now.atoms held.old }
    ensures keeps { KeepsHeld stack.now atoms.now.atoms held.old held.new }
    ensures found { IfOk result (λ o. (b c : Spending) → IfSome o (InferredBy (state_of stack.now atoms.now.atoms held.new.closure.log.items) b c)) }
{
    if let Some(clause) = meet_differences(alloc, held, stack, atoms)? {
        return Ok(Some(Inferred::Conflict(clause)));
    }
    let clauses = follow_paths(alloc, held, stack, atoms)?;
    if clauses.len() > 0 || held.looked.differences.are_all(held.closure.log.len()) {
        return Ok(Some(inferred(clauses)));
    }
    Ok(None)
}

/// What differences show between decisions: a conflict, clauses, or that numbers meet all bounds told. None where it is not known whether they do.
pub(crate) fn follow_differences(
    alloc: Global,
    held: &mut Held,
    stack: &Stack,
    atoms: &AtomNumbers,
) -> Option<Inferred>
    requires { IsHeldOf stack.now atoms.now.atoms held.old }
    ensures keeps { KeepsHeld stack.now atoms.now.atoms held.old held.new }
    ensures found { (b c : Spending) → IfSome result (InferredBy (state_of stack.now atoms.now.atoms held.new.closure.log.items) b c) }
{
    match follow_known(alloc, held, stack, atoms) {
        Ok(found) => found,
        Err(_) => Some(Inferred::Ended(Cause::Memory)),
    }
}
