//! Equalities of Ints that have numbers, in a last check whose values are whole and meet all bounds: each is told as the values have it, or a clause is false.
ghost use Rattle.std.specs.Prelude.{◌≡◌, ◌<◌, ℤ, [], true, false, length, All, Contains, IfOk, IfSome, IfNone, MatchOption};
ghost use Rattle.literals.specs.Signed.{Signed};
ghost use Rattle.smt_meaning.specs.declared.clauses.Atom.TheVariants.{AtMost};
ghost use Rattle.atom_form.specs.AtomTableNumbers.{IsAt};
ghost use Rattle.search_port.specs.State.{AllFalseIn, IsMadeTrue, atom_at};
ghost use Rattle.search_port.specs.Calls.{IsConflict};
ghost use Rattle.search_port.specs.declared.budget.Lemma.{Lemma as LemmaValue};
ghost use Rattle.equality_clauses.specs.Ties.{literal};
ghost use Rattle.sum_bounds.specs.Bounds.{AreWhole};
ghost use Rattle.closure_log.specs.Seen.{state_of};
ghost use Rattle.theory_combine.specs.Held.{AllFit};
ghost use Rattle.theory_combine.specs.Pairs.{IsFit};
ghost use Rattle.theory_combine.specs.Ready.{IsAtLast, IsMetAtLast, IsAtMostAt, Steps};
ghost use Rattle.theory_combine.specs.Settled.{AreAllTold, IsSettled, IsSettledWhereFit, IsTiedIn, IsToldWhereEmpty};

use crate::constant::constant_lemma;
use crate::held::Held;
use crate::pairs::{bound_number, is_fit};
use crate::parts::{Pair, Parts, Progress};
use crate::step::{Step, stays};
use atom_form::{AtomNumbers, CompactAtom, NumberedAtom};
use bound_clauses::{constant_has_value, equality_is_decided};
use bound_log::{tie_lemmas, wholes_hold};
use closure_log::told_of;
use literals::Literal;
use search_port::{Budget, Cause, Lemma};
use smt_laws::{flat_says_the_same, value_has_its_sort};
use smt_meaning::Seq;
use std::alloc::{AllocError, Global};

/// The truth value that an atom is told to have.
pub(crate) fn truth_told(held: &Held, atom: u32) -> bool
    requires told { AreAllTold held.now }
    requires within { atom < length held.now.scan.places.items }
    ensures { Contains held.now.closure.log.items (literal result atom) }
{
    match told_of(&held.scan.places, &held.closure.log, atom) {
        Some(literal) => literal.is_positive(),
        None => false,
    }
}

/// Whether each of these literals is told to be false.
fn are_false(held: &Held, literals: &[Literal]) -> bool
    requires told { AreAllTold held.now }
    requires within { All (λ (l : Signed). l.atom < length held.now.scan.places.items) literals.now }
    ensures yes { result ≡ true → AllFalseIn held.now.closure.log.items literals.now }
    ensures no { result ≡ false → IsMadeTrue held.now.closure.log.items literals.now }
{
    for literal in literals {
        if truth_told(held, literal.atom()) == literal.is_positive() {
            return false;
        }
    }
    true
}

/// The first of these clauses whose literals all are told to be false. An `Err` is for want of memory.
fn first_false(alloc: Global, held: &Held, clauses: &[Lemma]) -> Result<Option<Lemma>, AllocError>
    requires told { AreAllTold held.now }
    requires within { All (λ (c : LemmaValue). All (λ (l : Signed). l.atom < length held.now.scan.places.items) c.literals) clauses.now }
    ensures some { IfOk result (λ o. IfSome o (λ c. Contains clauses.now c × AllFalseIn held.now.closure.log.items c.literals)) }
    ensures none { IfOk result (λ o. IfNone o (All (λ (c : LemmaValue). IsMadeTrue held.now.closure.log.items c.literals) clauses.now)) }
{
    for clause in clauses {
        if are_false(held, clause.literals.as_slice()) {
            return Ok(Some(clause.copy(alloc)?));
        }
    }
    Ok(None)
}

/// The threshold of the bound that has this number, where its sum is empty.
fn empty_threshold(atoms: &AtomNumbers, number: u32) -> Option<i128>
    requires { number < length atoms.now.atoms }
    ensures some { IfSome result (λ k. IsAt atoms.now.atoms number (AtMost [] k)) }
    ensures none { IfNone result ((k : ℤ) → atom_at atoms.now.atoms number ≡ AtMost [] k → ⊥) }
{
    match atoms.atom(number) {
        NumberedAtom::Truth(_) => None,
        NumberedAtom::Same(_, _) => None,
        NumberedAtom::Bound(bound) => match atoms.sum(bound.sum) {
            [] => Some(bound.threshold),
            _ => None,
        },
    }
}

/// The clause of a bound of the empty sum, by its number, where it is told other than it is. An `Err` is for want of memory.
pub(crate) fn untrue_bound(
    parts: &Parts<'_>,
    progress: &Progress,
    number: u32,
) -> Result<Option<Lemma>, AllocError>
    requires at_last { IsAtLast parts.now progress.now }
    requires within { number < length progress.now.atoms.atoms }
    ensures { IfOk result (λ o. MatchOption o (IsToldWhereEmpty progress.now.atoms.atoms progress.now.held.closure.log.items number) (IsConflict (state_of parts.now.stack.now progress.now.atoms.atoms progress.now.held.closure.log.items))) }
{
    constant_has_value();
    progress.atoms.are_few();
    match empty_threshold(&progress.atoms, number) {
        None => Ok(None),
        Some(threshold) => {
            if truth_told(&progress.held, number) == (threshold >= 0) {
                return Ok(None);
            }
            let clause = constant_lemma(parts.alloc, number, threshold)?;
            Ok(Some(clause))
        }
    }
}

/// A clause of an equality that has a number, and the bounds of its two terms, which is false. An `Err` is for want of memory.
fn untrue_tie(
    parts: &Parts<'_>,
    progress: &Progress,
    pair: Pair,
    low: u32,
    high: u32,
) -> Result<Option<Lemma>, AllocError>
    requires at_last { IsAtLast parts.now progress.now }
    requires left { IsFit parts.now.stack.now parts.now.marks.items pair.left }
    requires right { IsFit parts.now.stack.now parts.now.marks.items pair.right }
    requires low { IsAtMostAt parts.now.stack.now.trees progress.now.atoms.atoms pair.left pair.right low }
    requires high { IsAtMostAt parts.now.stack.now.trees progress.now.atoms.atoms pair.right pair.left high }
    ensures { IfOk result (λ o. MatchOption o (IsTiedIn progress.now.atoms.atoms progress.now.held.closure.log.items pair.left pair.right low high) (IsConflict (state_of parts.now.stack.now progress.now.atoms.atoms progress.now.held.closure.log.items))) }
{
    flat_says_the_same();
    value_has_its_sort();
    progress.atoms.are_few();
    progress.atoms.are_apart();
    match progress
        .atoms
        .find(CompactAtom::Same(pair.left, pair.right))
    {
        None => Ok(None),
        Some(same) => {
            let clauses = tie_lemmas(parts.alloc, same, low, high)?;
            first_false(parts.alloc, &progress.held, clauses.as_slice())
        }
    }
}

/// The pair with its terms exchanged.
fn other_way(pair: Pair) -> Pair
    ensures left { result.left ≡ pair.right }
    ensures right { result.right ≡ pair.left }
{
    Pair {
        left: pair.right,
        right: pair.left,
    }
}

/// A clause that is false: of a bound of the empty sum, of the two terms' bounds, or of an equality that has a number and these bounds. None where such an equality is
/// told as the values have it. An `Err` is for want of memory.
fn untrue_clause(
    parts: &Parts<'_>,
    progress: &Progress,
    pair: Pair,
    low: u32,
    high: u32,
) -> Result<Option<Lemma>, AllocError>
    requires met { IsMetAtLast parts.now progress.now }
    requires left { IsFit parts.now.stack.now parts.now.marks.items pair.left }
    requires right { IsFit parts.now.stack.now parts.now.marks.items pair.right }
    requires low { IsAtMostAt parts.now.stack.now.trees progress.now.atoms.atoms pair.left pair.right low }
    requires high { IsAtMostAt parts.now.stack.now.trees progress.now.atoms.atoms pair.right pair.left high }
    ensures { IfOk result (λ o. MatchOption o (IsSettled parts.now.stack.now progress.now.atoms.atoms progress.now.held pair) (IsConflict (state_of parts.now.stack.now progress.now.atoms.atoms progress.now.held.closure.log.items))) }
{
    wholes_hold();
    equality_is_decided();
    progress.held.bounds.facts();
    if let Some(clause) = untrue_bound(parts, progress, low)? {
        return Ok(Some(clause));
    }
    if let Some(clause) = untrue_bound(parts, progress, high)? {
        return Ok(Some(clause));
    }
    if let Some(clause) = untrue_tie(parts, progress, pair, low, high)? {
        return Ok(Some(clause));
    }
    if let Some(clause) = untrue_tie(parts, progress, other_way(pair), high, low)? {
        return Ok(Some(clause));
    }
    Ok(None)
}

/// Goes on from a pair that has both bounds of its difference, where a clause of them is false.
fn settle_tied(
    parts: &Parts<'_>,
    progress: &Progress,
    budget: &Budget,
    pair: Pair,
    low: u32,
    high: u32,
) -> Option<Step>
    requires met { IsMetAtLast parts.now progress.now }
    requires left { IsFit parts.now.stack.now parts.now.marks.items pair.left }
    requires right { IsFit parts.now.stack.now parts.now.marks.items pair.right }
    requires low { IsAtMostAt parts.now.stack.now.trees progress.now.atoms.atoms pair.left pair.right low }
    requires high { IsAtMostAt parts.now.stack.now.trees progress.now.atoms.atoms pair.right pair.left high }
    ensures { MatchOption result (IsSettled parts.now.stack.now progress.now.atoms.atoms progress.now.held pair) (Steps parts.now progress.now progress.now budget.now budget.now) }
{
    stays(parts, progress, budget);
    match untrue_clause(parts, progress, pair, low, high) {
        Err(_) => Some(Step::Ended(Cause::Memory)),
        Ok(Some(clause)) => Some(Step::Conflict(clause)),
        Ok(None) => None,
    }
}

/// Goes on from two Ints whose equality has a number, in one order or the other, where the values are whole and meet all bounds: with a bound of their difference that
/// has no number, or with a clause of the equality and both bounds that is false. None where the equality is told as the values have it.
pub(crate) fn settle_pair(
    parts: &Parts<'_>,
    progress: &mut Progress,
    budget: &mut Budget,
    pair: Pair,
) -> Option<Step>
    requires met { IsMetAtLast parts.now progress.old }
    requires left { IsFit parts.now.stack.now parts.now.marks.items pair.left }
    requires right { IsFit parts.now.stack.now parts.now.marks.items pair.right }
    ensures some { IfSome result (Steps parts.now progress.old progress.new budget.old budget.new) }
    ensures none { IfNone result (IsSettled parts.now.stack.now progress.old.atoms.atoms progress.old.held pair) }
    ensures same { IfNone result (progress.new ≡ progress.old) }
    ensures unspent { IfNone result (budget.new ≡ budget.old) }
{
    match bound_number(parts, progress, budget, pair.left, pair.right) {
        Err(step) => Some(step),
        Ok(low) => match bound_number(parts, progress, budget, pair.right, pair.left) {
            Err(step) => Some(step),
            Ok(high) => settle_tied(parts, progress, budget, pair, low, high),
        },
    }
}

/// The same of a pair that may not be of marked Ints.
pub(crate) fn settle_if_fit(
    parts: &Parts<'_>,
    progress: &mut Progress,
    budget: &mut Budget,
    pair: Pair,
) -> Option<Step>
    requires met { IsMetAtLast parts.now progress.old }
    ensures some { IfSome result (Steps parts.now progress.old progress.new budget.old budget.new) }
    ensures none { IfNone result (IsSettledWhereFit parts.now.stack.now parts.now.marks.items progress.old.atoms.atoms progress.old.held pair) }
    ensures same { IfNone result (progress.new ≡ progress.old) }
    ensures unspent { IfNone result (budget.new ≡ budget.old) }
{
    if !is_fit(parts, pair.left) {
        return None;
    }
    if !is_fit(parts, pair.right) {
        return None;
    }
    settle_pair(parts, progress, budget, pair)
}
