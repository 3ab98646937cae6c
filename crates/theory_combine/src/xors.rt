//! Wide `xor`s, between decisions and in a last check.
ghost use Rattle.std.specs.Prelude.{IfOk, MatchOption};
ghost use Rattle.search_port.specs.Calls.{IsConflict, InferredBy};
ghost use Rattle.search_port.specs.Spending.{Spending};
ghost use Rattle.closure_log.specs.Seen.{state_of};
ghost use Rattle.closure_log.specs.Parts.{KeepsXors};
ghost use Rattle.theory_combine.specs.Kept.{IsHeldOf, KeepsHeld};

use crate::held::Held;
use atom_form::AtomNumbers;
use closure_log::{broken, inferred};
use scope_stack::Stack;
use search_port::{Cause, Inferred, Lemma};
use smt_meaning::TermId;
use std::alloc::{AllocError, Global};

/// Clauses of wide `xor`s by which their terms follow, or that are false.
pub(crate) fn follow_xors(
    alloc: Global,
    held: &mut Held,
    stack: &Stack,
    atoms: &AtomNumbers,
    wide_xors: &[TermId],
) -> Inferred
    requires { IsHeldOf stack.now atoms.now.atoms held.old }
    ensures keeps { KeepsHeld stack.now atoms.now.atoms held.old held.new }
    ensures found { (b c : Spending) → InferredBy (state_of stack.now atoms.now.atoms held.new.closure.log.items) b c result }
{
    let found = held.looked.watches.follow(
        alloc,
        stack,
        atoms,
        &held.scan.places,
        &held.closure.log,
        wide_xors,
    );
    match found {
        Ok(clauses) => inferred(clauses),
        Err(_) => Inferred::Ended(Cause::Memory),
    }
}

/// The clause of a wide `xor` that is broken. None where each has the truth that its operator makes. An `Err` is for want of memory.
pub(crate) fn broken_xor(
    alloc: Global,
    held: &Held,
    stack: &Stack,
    atoms: &AtomNumbers,
    wide_xors: &[TermId],
) -> Result<Option<Lemma>, AllocError>
    requires { IsHeldOf stack.now atoms.now.atoms held.now }
    ensures { IfOk result (λ o. MatchOption o (KeepsXors stack.now.trees atoms.now.atoms held.now.closure.log.items wide_xors.now) (IsConflict (state_of stack.now atoms.now.atoms held.now.closure.log.items))) }
{
    broken(
        alloc,
        stack,
        atoms,
        &held.scan.places,
        &held.closure.log,
        wide_xors,
    )
}
