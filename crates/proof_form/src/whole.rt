//! A proof, from its first term to its last step.
ghost use Rattle.std.specs.Prelude.{◌≡◌, ◌<◌, ◌≤◌, ◌++◌, ◌∷◌, [], ℕ, List, length, map, All, IfOk, MatchOption, Ok, Some, true};
ghost use Rattle.smt_meaning.specs.Sexp.{Sexp, Sexps, ◌▸◌, sexp};
ghost use Rattle.smt_meaning.specs.Stack.{Frame, signature_of, assertions_of};
ghost use Rattle.look_ahead.specs.Ahead.{ahead, AreEnds};
ghost use Rattle.proof_form.specs.Asserted.{asserted_at};
ghost use Rattle.smt_meaning.specs.Declaration.{Declaration};
ghost use Rattle.proof_meaning.specs.Reading.{node_read};
ghost use Rattle.proof_read.specs.Reads.{IsNoNode};
ghost use Rattle.proof_form.specs.Found.{IsFound};
ghost use Rattle.proof_form.specs.Whole.{AreLists, NodesCome, StepComes, StepsCome, HasAdded, EndsSo};
ghost use Rattle.proof_terms.specs.Kept.{KeepsAll};
ghost use Rattle.smt_meaning.specs.declared.clauses.Literal.{Literal as LiteralValue};
ghost use Rattle.proof_meaning.specs.Reading.{listed};

use crate::found::Found;
use crate::steps::judge_step;
use look_ahead::ends;
use proof_read::{ListPlaces, ReadStep, Symbols, next_place, read_node, read_step, two_lists};
use proof_terms::{Clauses, Terms, Verdict};
use scope_stack::Stack;
use smt_meaning::{Node, SExpr, TermId};
use std::alloc::{AllocError, Global};

/// Adds a term that was read, if it is by its rule.
fn add_read(terms: &mut Terms<'_>, read: &Option<Node>) -> Result<bool, AllocError>
    ensures { (ds : List Declaration) (x : Sexp) → ds ≡ terms.old.declared → MatchOption read.now (IsNoNode ds x) (λ n. node_read ds x ≡ Some n)
        → IfOk result (HasAdded x terms.old terms.new) }
{
    match read {
        Some(node) => terms.add(node),
        None => {
            let _few = terms.len();
            Ok(false)
        }
    }
}

/// Adds the term that stands at a place, if it is by its rule.
fn add_term(
    alloc: Global,
    symbols: &Symbols<'_>,
    proof: &SExpr,
    ends: &[usize],
    place: usize,
    terms: &mut Terms<'_>,
) -> Result<bool, AllocError>
    requires ends { AreEnds proof.now ends.now }
    requires within { place ≤ length proof.now }
    requires declared { symbols.now ≡ terms.old.declared }
    ensures { (x : Sexp) (rest : Sexps) → ahead proof.now place ≡ x ▸ rest → IfOk result (HasAdded x terms.old terms.new) }
{
    let read = read_node(alloc, symbols, proof, ends, place)?;
    add_read(terms, &read)
}

/// Adds the terms of a list that begins at a place: `None` where all are by their rule, else the number of the first that isn't.
fn add_terms(
    alloc: Global,
    symbols: &Symbols<'_>,
    proof: &SExpr,
    ends: &[usize],
    place: usize,
    terms: &mut Terms<'_>,
) -> Result<Option<u64>, AllocError>
    requires ends { AreEnds proof.now ends.now }
    requires within { place ≤ length proof.now }
    requires declared { symbols.now ≡ terms.old.declared }
    requires none { (terms.old.nodes ≡ []) × (terms.old.trees ≡ []) }
    ensures { IfOk result (NodesCome terms.old.declared terms.old.held (listed (ahead proof.now place)) terms.new) }
{
    let mut place = place;
    let mut number: u64 = 0;
    while let Some(next) = next_place(proof, ends, place) {
        if !add_term(alloc, symbols, proof, ends, place, terms)? {
            return Ok(Some(number));
        }
        number += 1;
        place = next;
    }
    Ok(None)
}

/// How many assertions there are.
fn count_of(asserted: &[TermId]) -> usize
    ensures { result ≡ length asserted.now }
{
    asserted.len()
}

/// Judges the step that stands at a place.
fn judge_at(
    alloc: Global,
    proof: &SExpr,
    ends: &[usize],
    place: usize,
    terms: &mut Terms<'_>,
    asserted: &[TermId],
    clauses: &mut Clauses,
) -> Result<Verdict, AllocError>
    requires ends { AreEnds proof.now ends.now }
    requires within { place ≤ length proof.now }
    requires asserted { All (λ i. i < length terms.old.held) asserted.now }
    requires stands { (x : Sexp) × (rest : Sexps) × (ahead proof.now place ≡ x ▸ rest) }
    ensures comes { (x : Sexp) (rest : Sexps) → ahead proof.now place ≡ x ▸ rest
        → IfOk result (StepComes terms.old (asserted_at terms.old.held asserted.now) clauses.old clauses.new x) }
    ensures same { terms.new ≡ terms.old }
{
    match read_step(alloc, proof, ends, place)? {
        ReadStep::Step(step) => judge_step(alloc, terms, asserted, clauses, &step),
        ReadStep::Wrong => {
            let _few = terms.len();
            let _asserted = count_of(asserted);
            let _apart = clauses.len();
            Ok(Verdict::Wrong)
        }
        ReadStep::Large => Ok(Verdict::Range),
    }
}

/// Judges the steps of a list that begins at a place, where no clause is kept yet.
fn judge_each(
    alloc: Global,
    proof: &SExpr,
    ends: &[usize],
    place: usize,
    terms: &mut Terms<'_>,
    asserted: &[TermId],
    clauses: &mut Clauses,
) -> Result<Found, AllocError>
    requires ends { AreEnds proof.now ends.now }
    requires within { place ≤ length proof.now }
    requires asserted { All (λ i. i < length terms.old.held) asserted.now }
    requires none { clauses.old.clauses ≡ [] }
    ensures { IfOk result (StepsCome terms.old (asserted_at terms.old.held asserted.now) (listed (ahead proof.now place))) }
{
    let mut place = place;
    let mut number: u64 = 0;
    while let Some(next) = next_place(proof, ends, place) {
        match judge_at(alloc, proof, ends, place, terms, asserted, clauses)? {
            Verdict::Good => {}
            Verdict::Wrong => return Ok(Found::No(number)),
            Verdict::Range => return Ok(Found::Range(number)),
        }
        number += 1;
        place = next;
    }
    Ok(end_of(clauses, number))
}

/// Judges the steps of a list that begins at a place.
fn judge_steps(
    alloc: Global,
    proof: &SExpr,
    ends: &[usize],
    place: usize,
    terms: &mut Terms<'_>,
    asserted: &[TermId],
) -> Result<Found, AllocError>
    requires ends { AreEnds proof.now ends.now }
    requires within { place ≤ length proof.now }
    requires asserted { All (λ i. i < length terms.old.held) asserted.now }
    ensures { IfOk result (StepsCome terms.old (asserted_at terms.old.held asserted.now) (listed (ahead proof.now place))) }
{
    let mut clauses = Clauses::new(alloc);
    judge_each(alloc, proof, ends, place, terms, asserted, &mut clauses)
}

/// What is found where all steps are by their rules.
fn end_of(clauses: &Clauses, number: u64) -> Found
    ensures { (all : List (List LiteralValue)) → KeepsAll clauses.now all → EndsSo number all result }
{
    let count = clauses.len();
    if count > 0 && clauses.clause(count - 1).is_empty() {
        Found::Yes
    } else {
        Found::No(number)
    }
}

/// The places of a stack's assertions, and of those above it, among its terms.
fn places_of(alloc: Global, stack: &Stack, above: &[TermId]) -> Result<Vec<TermId>, AllocError>
    requires { All (λ i. i < length stack.now.trees) above.now }
    ensures places { IfOk result (λ v. asserted_at stack.now.trees v.items ≡ assertions_of stack.now.frames ++ asserted_at stack.now.trees above.now) }
    ensures within { IfOk result (λ v. All (λ i. i < length stack.now.trees) v.items) }
{
    let assertions = stack.assertions();
    let mut places = Vec::with_capacity(alloc, assertions.len() + above.len())?;
    for assertion in assertions {
        places.push(assertion.term)?;
    }
    places.extend_from_slice(above)?;
    Ok(places)
}

/// Judges a proof whose lists begin at these places, where there are no terms yet.
fn judge_lists(
    alloc: Global,
    proof: &SExpr,
    ends: &[usize],
    lists: ListPlaces,
    symbols: &Symbols<'_>,
    terms: &mut Terms<'_>,
    asserted: &[TermId],
) -> Result<Found, AllocError>
    requires ends { AreEnds proof.now ends.now }
    requires lists { AreLists proof.now lists }
    requires declared { symbols.now ≡ terms.old.declared }
    requires none { terms.old ≡ record { declared = terms.old.declared; held = terms.old.held; nodes = []; trees = [] } }
    requires asserted { All (λ i. i < length terms.old.held) asserted.now }
    ensures { (frames : List Frame) → signature_of frames ≡ terms.old.declared → assertions_of frames ≡ asserted_at terms.old.held asserted.now
        → IfOk result (IsFound frames (sexp proof.now)) }
{
    if let Some(number) = add_terms(alloc, symbols, proof, ends, lists.terms, terms)? {
        return Ok(Found::Node(number));
    }
    judge_steps(alloc, proof, ends, lists.steps, terms, asserted)
}

/// Judges a proof whose lists begin at these places, beside the terms of a stack.
fn judge_beside(
    alloc: Global,
    stack: &Stack,
    proof: &SExpr,
    ends: &[usize],
    lists: ListPlaces,
    symbols: &Symbols<'_>,
    asserted: &[TermId],
) -> Result<Found, AllocError>
    requires ends { AreEnds proof.now ends.now }
    requires lists { AreLists proof.now lists }
    requires declared { symbols.now ≡ signature_of stack.now.frames }
    requires asserted { All (λ i. i < length stack.now.trees) asserted.now }
    ensures { (frames : List Frame) → signature_of frames ≡ signature_of stack.now.frames → assertions_of frames ≡ asserted_at stack.now.trees asserted.now
        → IfOk result (IsFound frames (sexp proof.now)) }
{
    let mut terms = Terms::new(alloc, stack)?;
    judge_lists(alloc, proof, ends, lists, symbols, &mut terms, asserted)
}

/// Judges a proof whose lists begin at these places.
fn judge_parts(
    alloc: Global,
    stack: &Stack,
    above: &[TermId],
    proof: &SExpr,
    ends: &[usize],
    lists: ListPlaces,
) -> Result<Found, AllocError>
    requires ends { AreEnds proof.now ends.now }
    requires lists { AreLists proof.now lists }
    requires above { All (λ i. i < length stack.now.trees) above.now }
    ensures { (frames : List Frame) → signature_of frames ≡ signature_of stack.now.frames
        → assertions_of frames ≡ assertions_of stack.now.frames ++ asserted_at stack.now.trees above.now
        → IfOk result (IsFound frames (sexp proof.now)) }
{
    let symbols = Symbols::new(alloc, stack.declarations())?;
    let asserted = places_of(alloc, stack, above)?;
    judge_beside(alloc, stack, proof, ends, lists, &symbols, &asserted)
}

/// Judges an s-expression as a proof that the assertions of a stack and these terms of it, asserted above it, have no model.
pub fn judge(
    alloc: Global,
    stack: &Stack,
    above: &[TermId],
    proof: &SExpr,
) -> Result<Found, AllocError>
    requires { All (λ i. i < length stack.now.trees) above.now }
    ensures { (frames : List Frame) → signature_of frames ≡ signature_of stack.now.frames
        → assertions_of frames ≡ assertions_of stack.now.frames ++ asserted_at stack.now.trees above.now
        → IfOk result (IsFound frames (sexp proof.now)) }
{
    let ends = ends(alloc, proof)?;
    match two_lists(proof, &ends) {
        Some(lists) => judge_parts(alloc, stack, above, proof, &ends, lists),
        None => Ok(Found::NoProof),
    }
}
