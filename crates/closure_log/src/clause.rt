//! The clause of a wide `xor`, where all of its terms are told but at most one.
ghost use Rattle.std.specs.Prelude.{◌≡◌, true, List, ℕ, IfSome, IfNone, IfOk, MatchOption};
ghost use Rattle.search_port.specs.Calls.{IsConflict};
ghost use Rattle.congruence.specs.Implied.{IsPressingLemma};
ghost use Rattle.closure_log.specs.Seen.{state_of, IsSetting};
ghost use Rattle.closure_log.specs.Parts.{IsWideXor, IsPlacedLog, KeepsXorAt, KeepsXors};
ghost use Rattle.closure_log.specs.Read.{PressesWhereRead, IsFalseWhereRead};

use crate::odd_laws::odd_clause_is_true;
use crate::read::{Read, read_part};
use atom_form::AtomNumbers;
use congruence::lemma_of;
use literals::Literal;
use scope_stack::Stack;
use search_port::Lemma;
use smt_laws::flat_says_the_same;
use smt_meaning::{Head, Operator, TermId};
use std::alloc::{AllocError, Global};

/// A `xor` of fewer has first clauses.
const FEWEST: usize = 4;

/// The arguments of a term that is a wide `xor`.
pub(crate) fn wide_arguments<'s>(stack: &'s Stack, place: TermId) -> Option<&'s [TermId]>
    ensures some { IfSome result (λ is. IsWideXor stack.now.trees place is.now) }
    ensures one { IfSome result (λ is. (js : List ℕ) → IsWideXor stack.now.trees place js → js ≡ is.now) }
    ensures none { IfNone result ((js : List ℕ) → IsWideXor stack.now.trees place js → ⊥) }
{
    let terms = stack.terms();
    if place >= terms.len() {
        return None;
    }
    let node = terms.node(place);
    if node.head == Head::Theory(Operator::Xor) && node.arguments.len() >= FEWEST {
        return Some(node.arguments);
    }
    None
}

/// The literal that an open term hasn't the truth with which an even count is true.
fn against_even(literal: Literal, is_odd: bool) -> Literal
    ensures { literal.positive ≡ true → result ≡ record { atom = literal.atom; positive = is_odd } }
{
    if is_odd { literal } else { literal.negated() }
}

/// The clause of what was read of a part: the open term's truth follows, or the clause is false. None where an even count of the truths told is true, and none is open.
fn pressed(read: Read) -> Result<Option<Lemma>, AllocError>
    ensures { IfOk result (λ o. IfSome o (PressesWhereRead read.clause.items read.open_truth read.is_odd)) }
{
    odd_clause_is_true();
    flat_says_the_same();
    let Read {
        mut clause,
        open_truth,
        is_odd,
    } = read;
    match open_truth {
        Some(literal) => {
            clause.push(against_even(literal, is_odd))?;
            Ok(Some(lemma_of(clause)))
        }
        None => {
            if !is_odd {
                return Ok(None);
            }
            Ok(Some(lemma_of(clause)))
        }
    }
}

/// The clause of a part that is a wide `xor`, where all of its terms are told but at most one: that one's truth follows, or the clause is false. An `Err` is for want
/// of memory.
pub fn pressing(
    alloc: Global,
    stack: &Stack,
    atoms: &AtomNumbers,
    places: &[usize],
    log: &[Literal],
    place: TermId,
) -> Result<Option<Lemma>, AllocError>
    requires setting { IsSetting stack.now atoms.now.atoms }
    requires log { IsPlacedLog atoms.now.atoms log.now places.now }
    ensures { IfOk result (λ o. IfSome o (IsPressingLemma (state_of stack.now atoms.now.atoms log.now))) }
{
    let Some(arguments) = wide_arguments(stack, place) else {
        return Ok(None);
    };
    match read_part(alloc, atoms, places, log, place, arguments)? {
        None => Ok(None),
        Some(read) => pressed(read),
    }
}

/// The clause of terms that all are told.
fn false_clause(clause: Vec<Literal>) -> Lemma
    ensures { IsFalseWhereRead clause.items result }
{
    odd_clause_is_true();
    flat_says_the_same();
    lemma_of(clause)
}

/// The clause of a wide `xor` whose terms all are told, where they break it.
fn broken_at(
    alloc: Global,
    stack: &Stack,
    atoms: &AtomNumbers,
    places: &[usize],
    log: &[Literal],
    place: TermId,
) -> Result<Option<Lemma>, AllocError>
    requires setting { IsSetting stack.now atoms.now.atoms }
    requires log { IsPlacedLog atoms.now.atoms log.now places.now }
    ensures { IfOk result (λ o. MatchOption o (KeepsXorAt stack.now.trees atoms.now.atoms log.now place) (IsConflict (state_of stack.now atoms.now.atoms log.now))) }
{
    atoms.are_apart();
    let Some(arguments) = wide_arguments(stack, place) else {
        return Ok(None);
    };
    let Some(read) = read_part(alloc, atoms, places, log, place, arguments)? else {
        return Ok(None);
    };
    if read.open_truth.is_some() || !read.is_odd {
        return Ok(None);
    }
    Ok(Some(false_clause(read.clause)))
}

/// The clause of the first of these parts that a log breaks. None where each that is a wide `xor` has the truth that its operator makes of those told of its
/// arguments. An `Err` is for want of memory.
pub fn broken(
    alloc: Global,
    stack: &Stack,
    atoms: &AtomNumbers,
    places: &[usize],
    log: &[Literal],
    parts: &[TermId],
) -> Result<Option<Lemma>, AllocError>
    requires setting { IsSetting stack.now atoms.now.atoms }
    requires log { IsPlacedLog atoms.now.atoms log.now places.now }
    ensures { IfOk result (λ o. MatchOption o (KeepsXors stack.now.trees atoms.now.atoms log.now parts.now) (IsConflict (state_of stack.now atoms.now.atoms log.now))) }
{
    for place in parts {
        if let Some(clause) = broken_at(alloc, stack, atoms, places, log, *place)? {
            return Ok(Some(clause));
        }
    }
    Ok(None)
}
