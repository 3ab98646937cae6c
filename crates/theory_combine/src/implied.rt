//! Bounds that follow by rows, from the bounds of the other variables.
ghost use Rattle.std.specs.Prelude.{◌≡◌, ◌<◌, length, IfSome};
ghost use Rattle.search_port.specs.Calls.{InferredBy};
ghost use Rattle.search_port.specs.Spending.{Spending};
ghost use Rattle.search_port.specs.State.{TheoryState};
ghost use Rattle.congruence.specs.Implied.{IsPressingLemma};
ghost use Rattle.closure_log.specs.Seen.{state_of};
ghost use Rattle.theory_combine.specs.Chained.{KeepsGrid};
ghost use Rattle.theory_combine.specs.Held.{IsHeld};
ghost use Rattle.theory_combine.specs.Kept.{IsHeldOf};

use crate::held::Held;
use atom_form::AtomNumbers;
use bound_log::values_stay;
use closure_log::{inferred, is_open, keep};
use scope_stack::Stack;
use search_port::{Cause, Inferred, Lemma};
use smt_laws::flat_says_the_same;
use std::alloc::Global;

/// How many atoms are looked at in a call.
const LOOKS: usize = 64;

/// How many clauses are given in a call.
const GIVEN: usize = 4;

/// The most literals of a clause that is given.
const LITERALS: usize = 8;

/// A clause of few literals.
fn short(found: Option<Lemma>) -> Option<Lemma>
    ensures { (t : TheoryState) → IfSome found (IsPressingLemma t) → IfSome result (IsPressingLemma t) }
{
    match found {
        None => None,
        Some(clause) => {
            if clause.literals.len() <= LITERALS {
                Some(clause)
            } else {
                None
            }
        }
    }
}

/// The clause by which an atom follows. None of an atom that isn't open.
fn look_at(
    alloc: Global,
    held: &mut Held,
    stack: &Stack,
    atoms: &AtomNumbers,
    atom: u32,
) -> Option<Lemma>
    requires held { IsHeldOf stack.now atoms.now.atoms held.old }
    requires numbered { atom < length atoms.now.atoms }
    ensures held { IsHeld stack.now atoms.now.atoms held.new }
    ensures log { held.new.closure.log.items ≡ held.old.closure.log.items }
    ensures variables { KeepsGrid held.old.bounds held.new.bounds }
    ensures found { IfSome result (IsPressingLemma (state_of stack.now atoms.now.atoms held.new.closure.log.items)) }
{
    flat_says_the_same();
    values_stay();
    if !is_open(&held.scan.places, &held.closure.log, atom) {
        return None;
    }
    held.bounds.implied(alloc, atom)
}

/// The next of so many atoms, round and round.
fn next_look(looked: &mut usize, count: usize) -> Option<u32>
    ensures { IfSome result (λ atom. atom < count) }
{
    if count == 0 || count > 1 << 31 {
        return None;
    }
    let atom = *looked % count;
    *looked = atom + 1;
    Some(atom as u32)
}

/// Clauses by which open bounds follow. The next atoms are looked at, and those after them in the next call.
pub(crate) fn follow_rows(
    alloc: Global,
    held: &mut Held,
    stack: &Stack,
    atoms: &AtomNumbers,
) -> Inferred
    requires { IsHeldOf stack.now atoms.now.atoms held.old }
    ensures held { IsHeld stack.now atoms.now.atoms held.new }
    ensures log { held.new.closure.log.items ≡ held.old.closure.log.items }
    ensures variables { KeepsGrid held.old.bounds held.new.bounds }
    ensures found { (b c : Spending) → InferredBy (state_of stack.now atoms.now.atoms held.new.closure.log.items) b c result }
{
    let mut clauses = Vec::new(alloc);
    for turn in 0..LOOKS {
        if clauses.len() == GIVEN {
            return inferred(clauses);
        }
        let Some(atom) = next_look(&mut held.looked.next, atoms.len()) else {
            return inferred(clauses);
        };
        let found = look_at(alloc, held, stack, atoms, atom);
        let Ok(()) = keep(&mut clauses, short(found)) else {
            return Inferred::Ended(Cause::Memory);
        };
    }
    inferred(clauses)
}
