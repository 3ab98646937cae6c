//! Wide `distinct`s that are assertions: no two of their arguments have an atom.
ghost use Rattle.std.specs.Prelude.{◌≡◌, ◌+◌, ◌<◌, ℕ, List, true, false, length, slice_index_or, All, IfOk, IfSome, IfNone, MatchOption};
ghost use Rattle.smt_meaning.specs.declared.clauses.Atom.TheVariants.{Truth};
ghost use Rattle.smt_meaning.specs.Atoms.{most_compared};
ghost use Rattle.search_port.specs.Calls.{IsConflict};
ghost use Rattle.congruence.specs.Recorded.{IsRecorded, AreEqualTerms};
ghost use Rattle.closure_log.specs.Seen.{state_of, IsSetting};
ghost use Rattle.closure_log.specs.Told.{IsTold};
ghost use Rattle.closure_log.specs.Parts.{IsPlacedLog};
ghost use Rattle.closure_log.specs.Whole.{Gives, IsGrounded};
ghost use Rattle.closure_log.specs.Distinct.{IsDistinct, IsToldTrue, AreEqualAmong, AreAllApart, KeepsDistinct, AreAssertedDistincts};

use crate::ClosureLog;
use crate::read::truth_told;
use atom_form::AtomNumbers;
use check_atoms::MOST_COMPARED;
use congruence::{Congruence, Explanation, add_reasons, lemma_of};
use literals::Literal;
use point_closure::classes_are_the_closure;
use scope_stack::Stack;
use search_port::Lemma;
use smt_laws::flat_says_the_same;
use smt_meaning::{Head, Operator, TermId};
use std::alloc::{AllocError, Global};

/// The arguments of a term that is a `distinct`.
pub fn distinct_arguments<'s>(stack: &'s Stack, place: TermId) -> Option<&'s [TermId]>
    ensures some { IfSome result (λ is. IsDistinct stack.now.trees place is.now) }
    ensures one { IfSome result (λ is. (js : List ℕ) → IsDistinct stack.now.trees place js → js ≡ is.now) }
    ensures none { IfNone result ((js : List ℕ) → IsDistinct stack.now.trees place js → ⊥) }
{
    let terms = stack.terms();
    if place >= terms.len() {
        return None;
    }
    let node = terms.node(place);
    if node.head == Head::Theory(Operator::Distinct) {
        return Some(node.arguments);
    }
    None
}

/// Whether a term is a `distinct` whose arguments have no atoms for each two where it is an assertion.
fn is_wide(stack: &Stack, place: TermId) -> bool
    ensures { result ≡ false → (js : List ℕ) → IsDistinct stack.now.trees place js → most_compared < length js → ⊥ }
{
    match distinct_arguments(stack, place) {
        Some(arguments) => arguments.len() > MOST_COMPARED,
        None => false,
    }
}

/// The assertions that are a wide `distinct`, by their places. An `Err` is for want of memory.
pub fn asserted_distincts(alloc: Global, stack: &Stack) -> Result<Vec<TermId>, AllocError>
    ensures { IfOk result (λ v. AreAssertedDistincts stack.now v.items) }
{
    let _different = stack.terms().len();
    let mut parts = Vec::new(alloc);
    let assertions = stack.assertions();
    for assertion in assertions {
        if is_wide(stack, assertion.term) {
            parts.push(assertion.term)?;
        }
    }
    Ok(parts)
}

/// Two of a term's arguments, by their places among them, of which the closure says that they are equal.
#[derive(Clone, Copy, Drop)]
pub(crate) struct EqualArguments {
    earlier: usize,
    later: usize,
}

/// Whether one of these terms stands before another, and the closure says that they are equal.
fn are_equal(congruence: &Congruence, terms: &[TermId], earlier: usize, later: usize) -> bool
    requires recorded { IsRecorded congruence.now }
    requires within { All (λ i. i + 2 < length congruence.now.closure.graph) terms.now }
    requires later { later < length terms.now }
    ensures equal { result ≡ true → AreEqualAmong congruence.now terms.now (record { earlier = earlier; later = later }) }
    ensures apart { result ≡ false → earlier < later → AreEqualTerms congruence.now (slice_index_or terms.now earlier 0) (slice_index_or terms.now later 0) → ⊥ }
{
    earlier < later && congruence.same(terms[earlier], terms[later])
}

/// Two equal ones of these terms, if there are any. By class, `newest` has the place of one of them, or whatever it had.
fn equal_arguments(
    congruence: &Congruence,
    newest: &mut [usize],
    terms: &[TermId],
) -> Option<EqualArguments>
    requires recorded { IsRecorded congruence.now }
    requires within { All (λ i. i + 2 < length congruence.now.closure.graph) terms.now }
    requires size { length newest.old ≡ length congruence.now.closure.graph }
    ensures size { length newest.new ≡ length newest.old }
    ensures equal { IfSome result (AreEqualAmong congruence.now terms.now) }
    ensures apart { IfNone result (AreAllApart congruence.now terms.now) }
{
    classes_are_the_closure();
    let _unions = congruence.closure.classes.unions();
    for later in 0..terms.len() {
        let class = congruence.closure.class_of(terms[later] + 2) as usize;
        let earlier = newest[class];
        if are_equal(congruence, terms, earlier, later) {
            return Some(EqualArguments { earlier, later });
        }
        newest[class] = later;
    }
    None
}

/// The literal by which a log tells that a term is true.
fn told_true(
    atoms: &AtomNumbers,
    places: &[usize],
    log: &[Literal],
    term: TermId,
) -> Option<Literal>
    requires { IsPlacedLog atoms.now.atoms log.now places.now }
    ensures some { IfSome result (IsToldTrue atoms.now.atoms log.now term) }
    ensures none { IfNone result (Gives atoms.now.atoms log.now (Truth term) true → ⊥) }
{
    let literal = truth_told(atoms, places, log, term)?;
    if literal.is_positive() {
        Some(literal)
    } else {
        None
    }
}

/// The clause that a `distinct` isn't true, or not all that makes two of its arguments equal.
fn clause_of(
    alloc: Global,
    congruence: &Congruence,
    stack: &Stack,
    atoms: &AtomNumbers,
    places: &[usize],
    log: &[Literal],
    place: TermId,
    literal: Literal,
    arguments: &[TermId],
    equal: EqualArguments,
) -> Result<Lemma, AllocError>
    requires setting { IsSetting stack.now atoms.now.atoms }
    requires log { IsPlacedLog atoms.now.atoms log.now places.now }
    requires grounded { IsGrounded stack.now atoms.now.atoms log.now congruence.now }
    requires distinct { IsDistinct stack.now.trees place arguments.now }
    requires literal { IsToldTrue atoms.now.atoms log.now place literal }
    requires equal { AreEqualAmong congruence.now arguments.now equal }
    ensures { IfOk result (IsConflict (state_of stack.now atoms.now.atoms log.now)) }
{
    flat_says_the_same();
    let mut explanation = Explanation::new(alloc);
    let mut clause = Vec::new(alloc);
    clause.push(literal.negated())?;
    add_reasons(
        &mut explanation,
        &mut clause,
        congruence,
        arguments[equal.earlier],
        arguments[equal.later],
    )?;
    Ok(lemma_of(clause))
}

/// The clause of a part that is a `distinct` and told to be true, if the closure says that two of its arguments are equal.
fn broken_at(
    alloc: Global,
    congruence: &Congruence,
    newest: &mut [usize],
    stack: &Stack,
    atoms: &AtomNumbers,
    places: &[usize],
    log: &[Literal],
    place: TermId,
) -> Result<Option<Lemma>, AllocError>
    requires setting { IsSetting stack.now atoms.now.atoms }
    requires log { IsPlacedLog atoms.now.atoms log.now places.now }
    requires grounded { IsGrounded stack.now atoms.now.atoms log.now congruence.now }
    requires size { length newest.old ≡ length congruence.now.closure.graph }
    ensures size { length newest.new ≡ length newest.old }
    ensures found { IfOk result (λ o. MatchOption o (KeepsDistinct stack.now.trees atoms.now.atoms log.now congruence.now place) (IsConflict (state_of stack.now atoms.now.atoms log.now))) }
{
    let Some(arguments) = distinct_arguments(stack, place) else {
        return Ok(None);
    };
    let Some(literal) = told_true(atoms, places, log, place) else {
        return Ok(None);
    };
    let Some(equal) = equal_arguments(congruence, newest, arguments) else {
        return Ok(None);
    };
    let clause = clause_of(
        alloc, congruence, stack, atoms, places, log, place, literal, arguments, equal,
    )?;
    Ok(Some(clause))
}

/// The clause of the first of these parts that is a `distinct`, told to be true, of which a closure says that two arguments are equal. None where each that is told to
/// be true has arguments that the closure keeps apart. An `Err` is for want of memory.
pub fn equal_distinct(
    alloc: Global,
    congruence: &Congruence,
    stack: &Stack,
    atoms: &AtomNumbers,
    places: &[usize],
    log: &[Literal],
    parts: &[TermId],
) -> Result<Option<Lemma>, AllocError>
    requires setting { IsSetting stack.now atoms.now.atoms }
    requires log { IsPlacedLog atoms.now.atoms log.now places.now }
    requires grounded { IsGrounded stack.now atoms.now.atoms log.now congruence.now }
    ensures { IfOk result (λ o. MatchOption o (All (KeepsDistinct stack.now.trees atoms.now.atoms log.now congruence.now) parts.now) (IsConflict (state_of stack.now atoms.now.atoms log.now))) }
{
    if parts.is_empty() {
        return Ok(None);
    }
    let mut newest = vec![in alloc; usize::MAX; congruence.closure.len()]?;
    for place in parts {
        let found = broken_at(
            alloc,
            congruence,
            &mut newest,
            stack,
            atoms,
            places,
            log,
            *place,
        )?;
        if let Some(clause) = found {
            return Ok(Some(clause));
        }
    }
    Ok(None)
}

/// The clause of the first of these parts that is a `distinct`, told to be true, of which the closure says that two arguments are equal. An `Err` is for want of
/// memory.
pub fn broken_distinct(
    alloc: Global,
    told: &ClosureLog,
    stack: &Stack,
    atoms: &AtomNumbers,
    places: &[usize],
    parts: &[TermId],
) -> Result<Option<Lemma>, AllocError>
    requires setting { IsSetting stack.now atoms.now.atoms }
    requires told { IsTold stack.now atoms.now.atoms told.now.congruence told.now.log.items told.now.starts.items }
    requires log { IsPlacedLog atoms.now.atoms told.now.log.items places.now }
    ensures { IfOk result (λ o. IfSome o (IsConflict (state_of stack.now atoms.now.atoms told.now.log.items))) }
{
    equal_distinct(
        alloc,
        &told.congruence,
        stack,
        atoms,
        places,
        &told.log,
        parts,
    )
}
