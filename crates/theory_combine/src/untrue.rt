//! Bounds of the empty sum that are told to be true and aren't: no bound of a variable says it.
ghost use Rattle.std.specs.Prelude.{◌≡◌, ◌<◌, true, length, All, IfOk, IfSome, IfNone, MatchOption};
ghost use Rattle.literals.specs.Signed.{Signed};
ghost use Rattle.search_port.specs.Calls.{IsConflict};
ghost use Rattle.closure_log.specs.Seen.{state_of};
ghost use Rattle.theory_combine.specs.Kept.{IsHeldOf};
ghost use Rattle.theory_combine.specs.Last.{HoldsWhereEmpty, IsUntrueAt, IsUntrueIn};

use crate::constant::constant_lemma;
use crate::held::Held;
use atom_form::{AtomNumbers, NumberedAtom};
use bound_clauses::constant_has_value;
use literals::Literal;
use scope_stack::Stack;
use search_port::Lemma;
use std::alloc::{AllocError, Global};

/// The threshold of the bound of the empty sum that has this number, where it isn't true.
fn untrue_threshold(atoms: &AtomNumbers, number: u32) -> Option<i128>
    requires { number < length atoms.now.atoms }
    ensures some { IfSome result (IsUntrueAt atoms.now.atoms number) }
    ensures none { IfNone result (HoldsWhereEmpty atoms.now.atoms (record { atom = number; positive = true })) }
{
    match atoms.atom(number) {
        NumberedAtom::Truth(_) => None,
        NumberedAtom::Same(_, _) => None,
        NumberedAtom::Bound(bound) => {
            if bound.threshold >= 0 {
                return None;
            }
            match atoms.sum(bound.sum) {
                [] => Some(bound.threshold),
                _ => None,
            }
        }
    }
}

/// The threshold of a bound of the empty sum that a literal tells to be true, where it isn't.
fn untrue_told(atoms: &AtomNumbers, literal: Literal) -> Option<i128>
    requires { literal.atom < length atoms.now.atoms }
    ensures positive { IfSome result (λ k. literal.positive ≡ true) }
    ensures some { IfSome result (IsUntrueAt atoms.now.atoms literal.atom) }
    ensures none { IfNone result (HoldsWhereEmpty atoms.now.atoms literal) }
{
    if literal.is_positive() {
        untrue_threshold(atoms, literal.atom())
    } else {
        None
    }
}

/// The number of a bound of the empty sum, and its threshold.
#[derive(Clone, Copy, Drop)]
struct Constant {
    number: u32,
    threshold: i128,
}

/// The first bound of the empty sum that a log tells to be true and that isn't.
fn first_untrue(atoms: &AtomNumbers, log: &[Literal]) -> Option<Constant>
    requires { All (λ (l : Signed). l.atom < length atoms.now.atoms) log.now }
    ensures some { IfSome result (λ c. IsUntrueIn atoms.now.atoms log.now c.number c.threshold) }
    ensures none { IfNone result (All (HoldsWhereEmpty atoms.now.atoms) log.now) }
{
    for k in 0..log.len() {
        let literal = log[k];
        if let Some(threshold) = untrue_told(atoms, literal) {
            return Some(Constant {
                number: literal.atom(),
                threshold,
            });
        }
    }
    None
}

/// The clause of a bound of the empty sum that is told to be true and isn't, if there is one. An `Err` is for want of memory.
pub(crate) fn untrue_constant(
    alloc: Global,
    held: &Held,
    stack: &Stack,
    atoms: &AtomNumbers,
) -> Result<Option<Lemma>, AllocError>
    requires { IsHeldOf stack.now atoms.now.atoms held.now }
    ensures { IfOk result (λ o. MatchOption o (All (HoldsWhereEmpty atoms.now.atoms) held.now.closure.log.items) (IsConflict (state_of stack.now atoms.now.atoms held.now.closure.log.items))) }
{
    constant_has_value();
    atoms.are_few();
    match first_untrue(atoms, &held.closure.log) {
        None => Ok(None),
        Some(constant) => {
            let clause = constant_lemma(alloc, constant.number, constant.threshold)?;
            Ok(Some(clause))
        }
    }
}
