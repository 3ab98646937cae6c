//! A `distinct` of terms that are no Bools: its parts are the equalities of each two, which are looked up by places and never listed.
ghost use Rattle.std.specs.Prelude.{◌≡◌, ◌≢◌, ◌<◌, ◌+◌, ◌*◌, ℕ, true, false, length, nat_eq, All, AllPairs, Contains, Ok, Some, OnOk, IfOk};
ghost use Rattle.std.specs.HashMap.{get};
ghost use Rattle.std.specs.Map.{update};
ghost use Rattle.std.specs.List.Sorted.{IsNonDecreasing};
ghost use Rattle.smt_meaning.specs.declared.clauses.Atom.TheVariants.{Truth, Same};
ghost use Rattle.smt_meaning.specs.declared.clauses.Literal.{Literal as LiteralValue};
ghost use Rattle.proof_terms.specs.FormParts.{IsNumberOf, Extends};
ghost use Rattle.proof_terms.specs.FormPairs.{AreFirstPlaces, IsPairBy, IsPositive, IsNotPositive, HasPairs, LacksPair, LacksSome, HasNegative, IsOnPair, IsBackward, AreTruePairs, AreFalsePairs, IsConcludedPairs};

use crate::clauses::Clauses;
use crate::form_values::{has, has_clash};
use crate::verdict::Verdict;
use smt_meaning::{Atom, Literal, TermId};
use std::alloc::{AllocError, Global};
use std::collections::HashMap;

/// Where each term of a list comes first, and these places in order.
#[derive(Drop)]
struct FirstPlaces {
    place_of: HashMap<TermId, usize>,
    places: Vec<usize>,
}

/// Where a term comes first.
fn place_in(place_of: &HashMap<TermId, usize>, term: TermId) -> Option<usize>
    ensures { result ≡ get nat_eq place_of.now term }
{
    match place_of.get(&term) {
        Some(place) => Some(*place),
        None => None,
    }
}

/// Notes where a term comes first.
fn note(place_of: &mut HashMap<TermId, usize>, term: TermId, place: usize) -> Result<(), AllocError>
    ensures { OnOk result ((q : ℕ) → get nat_eq place_of.new q ≡ update nat_eq (get nat_eq place_of.old) term (Some place) q) }
{
    match place_of.insert(term, place) {
        Ok(_) => Ok(()),
        Err(error) => Err(AllocError::from(error)),
    }
}

/// Takes in the term at the next place.
fn take_in(found: &mut FirstPlaces, terms: &[TermId], place: usize) -> Result<(), AllocError>
    requires within { place < length terms.now }
    requires so_far { AreFirstPlaces terms.now place (get nat_eq found.old.place_of) found.old.places.items }
    ensures { OnOk result (AreFirstPlaces terms.now (place + 1) (get nat_eq found.new.place_of) found.new.places.items) }
{
    let term = terms[place];
    match place_in(&found.place_of, term) {
        Some(_) => Ok(()),
        None => {
            note(&mut found.place_of, term, place)?;
            found.places.push(place)?;
            Ok(())
        }
    }
}

/// Where each term comes first.
fn first_places(alloc: Global, terms: &[TermId]) -> Result<FirstPlaces, AllocError>
    ensures { IfOk result (λ f. AreFirstPlaces terms.now (length terms.now) (get nat_eq f.place_of) f.places.items) }
{
    let mut found = FirstPlaces {
        place_of: HashMap::new(alloc),
        places: Vec::new(alloc),
    };
    for place in 0..terms.len() {
        take_in(&mut found, terms, place)?;
    }
    Ok(found)
}

/// Whether the first term comes before the second somewhere in a list of so many; places of the second are counted from the end.
fn is_pair(
    fronts: &FirstPlaces,
    rears: &FirstPlaces,
    count: usize,
    left: TermId,
    right: TermId,
) -> bool
    ensures yes { result ≡ true → IsPairBy (get nat_eq fronts.now.place_of) (get nat_eq rears.now.place_of) count left right }
    ensures no { result ≡ false → IsPairBy (get nat_eq fronts.now.place_of) (get nat_eq rears.now.place_of) count left right → ⊥ }
{
    let Some(front) = place_in(&fronts.place_of, left) else {
        return false;
    };
    let Some(rear) = place_in(&rears.place_of, right) else {
        return false;
    };
    if front >= count {
        return false;
    }
    rear < count - front - 1
}

/// Whether an atom is a term's own truth or the equality of a pair.
fn is_on_pair(
    fronts: &FirstPlaces,
    rears: &FirstPlaces,
    count: usize,
    place: TermId,
    atom: &Atom,
) -> bool
    ensures yes { result ≡ true → IsOnPair (get nat_eq fronts.now.place_of) (get nat_eq rears.now.place_of) count place atom.now }
    ensures no { result ≡ false → IsOnPair (get nat_eq fronts.now.place_of) (get nat_eq rears.now.place_of) count place atom.now → ⊥ }
{
    match atom {
        Atom::Truth(other) => *other == place,
        Atom::Same(left, right) => is_pair(fronts, rears, count, *left, *right),
        Atom::AtMost(_, _) => false,
    }
}

/// Whether each literal is on one of these.
fn are_on_pairs(
    fronts: &FirstPlaces,
    rears: &FirstPlaces,
    count: usize,
    place: TermId,
    literals: &[Literal],
) -> bool
    ensures yes { result ≡ true → All (λ (l : LiteralValue). IsOnPair (get nat_eq fronts.now.place_of) (get nat_eq rears.now.place_of) count place l.atom) literals.now }
    ensures no { result ≡ false → All (λ (l : LiteralValue). IsOnPair (get nat_eq fronts.now.place_of) (get nat_eq rears.now.place_of) count place l.atom) literals.now → ⊥ }
{
    for literal in literals {
        if !is_on_pair(fronts, rears, count, place, &literal.atom) {
            return false;
        }
    }
    true
}

/// Whether the equality of two terms has a positive literal.
fn has_pair(
    clauses: &mut Clauses,
    codes: &[u32],
    left: TermId,
    right: TermId,
) -> Result<bool, AllocError>
    requires { IsNonDecreasing codes.now }
    ensures yes { result ≡ Ok true → IsPositive clauses.new.atoms codes.now (Same left right) }
    ensures no { result ≡ Ok false → IsNotPositive clauses.new.atoms codes.now (Same left right) }
    ensures more { Extends clauses.old clauses.new }
{
    let code = clauses.same(true, left, right)?;
    Ok(has(codes, code))
}

/// Whether the equalities of the term at a place and those after it have positive literals.
fn has_pairs(
    clauses: &mut Clauses,
    codes: &[u32],
    terms: &[TermId],
    backward: &[TermId],
    front: usize,
    rears: &[usize],
) -> Result<bool, AllocError>
    requires codes { IsNonDecreasing codes.now }
    requires front { front < length terms.now }
    requires count { length backward.now ≡ length terms.now }
    requires within { All (λ p. p < length terms.now) rears.now }
    requires ascending { AllPairs (λ (a b : ℕ). a < b) rears.now }
    ensures yes { result ≡ Ok true → HasPairs clauses.new.atoms codes.now terms.now backward.now front rears.now }
    ensures no { result ≡ Ok false → LacksPair clauses.new.atoms codes.now terms.now backward.now front rears.now }
    ensures more { Extends clauses.old clauses.new }
{
    for rear in rears {
        if *rear >= terms.len() - front - 1 {
            return Ok(true);
        }
        if !has_pair(clauses, codes, terms[front], backward[*rear])? {
            return Ok(false);
        }
    }
    Ok(true)
}

/// Whether the equalities of all pairs have positive literals.
fn has_all_pairs(
    clauses: &mut Clauses,
    codes: &[u32],
    terms: &[TermId],
    backward: &[TermId],
    fronts: &[usize],
    rears: &[usize],
) -> Result<bool, AllocError>
    requires codes { IsNonDecreasing codes.now }
    requires fronts { All (λ p. p < length terms.now) fronts.now }
    requires count { length backward.now ≡ length terms.now }
    requires within { All (λ p. p < length terms.now) rears.now }
    requires ascending { AllPairs (λ (a b : ℕ). a < b) rears.now }
    ensures yes { result ≡ Ok true → (front : ℕ) → Contains fronts.now front → HasPairs clauses.new.atoms codes.now terms.now backward.now front rears.now }
    ensures no { result ≡ Ok false → LacksSome clauses.new.atoms codes.now terms.now backward.now fronts.now rears.now }
    ensures more { Extends clauses.old clauses.new }
{
    for front in fronts {
        if !has_pairs(clauses, codes, terms, backward, *front, rears)? {
            return Ok(false);
        }
    }
    Ok(true)
}

/// Whether a literal is negative and on another atom.
fn is_other_negative(code: u32, own: u32) -> bool
    ensures yes { result ≡ true → (n : ℕ) × (n ≢ own) × (code ≡ n * 2) }
    ensures no { result ≡ false → (n : ℕ) → n ≢ own → code ≡ n * 2 → ⊥ }
{
    if code % 2 == 1 {
        return false;
    }
    code / 2 != own
}

/// Whether another atom has a negative literal.
fn has_negative(codes: &[u32], own: u32) -> bool
    ensures yes { result ≡ true → HasNegative codes.now own }
    ensures no { result ≡ false → (n : ℕ) → n ≢ own → Contains codes.now (n * 2) → ⊥ }
{
    for code in codes {
        if is_other_negative(*code, own) {
            return true;
        }
    }
    false
}

/// Whether some literal is true wherever the own atom is true exactly where no pair is equal.
fn are_true_pairs(
    clauses: &mut Clauses,
    codes: &[u32],
    own: u32,
    terms: &[TermId],
    backward: &[TermId],
    fronts: &[usize],
    rears: &[usize],
) -> Result<bool, AllocError>
    requires codes { IsNonDecreasing codes.now }
    requires own { own < 2147483648 }
    requires fronts { All (λ p. p < length terms.now) fronts.now }
    requires count { length backward.now ≡ length terms.now }
    requires within { All (λ p. p < length terms.now) rears.now }
    requires ascending { AllPairs (λ (a b : ℕ). a < b) rears.now }
    ensures yes { result ≡ Ok true → AreTruePairs clauses.new.atoms codes.now own terms.now backward.now fronts.now rears.now }
    ensures no { result ≡ Ok false → AreFalsePairs clauses.new.atoms codes.now own terms.now backward.now fronts.now rears.now }
    ensures more { Extends clauses.old clauses.new }
{
    if has_clash(codes) {
        return Ok(true);
    }
    if has(codes, own * 2 + 1) {
        return has_all_pairs(clauses, codes, terms, backward, fronts, rears);
    }
    if has(codes, own * 2) {
        return Ok(has_negative(codes, own));
    }
    Ok(false)
}

/// The list from its end.
fn backward_of(alloc: Global, terms: &[TermId]) -> Result<Vec<TermId>, AllocError>
    ensures { IfOk result (λ v. IsBackward terms.now v.items) }
{
    let mut backward = Vec::from_slice(alloc, terms)?;
    backward.reverse();
    Ok(backward)
}

/// Judges the literals of these codes over a `distinct` of terms that are no Bools; where they are right, their clause is kept.
pub(crate) fn judge_pairs(
    alloc: Global,
    clauses: &mut Clauses,
    place: TermId,
    own: u32,
    arguments: &[TermId],
    literals: &[Literal],
    codes: &mut Vec<u32>,
) -> Result<Verdict, AllocError>
    requires { IsNumberOf clauses.old.atoms own (Truth place) }
    ensures { IfOk result (IsConcludedPairs clauses.old clauses.new codes.old.items place arguments.now literals.now) }
{
    codes.sort_unstable();
    let backward = backward_of(alloc, arguments)?;
    let fronts = first_places(alloc, arguments)?;
    let rears = first_places(alloc, &backward)?;
    if !are_on_pairs(&fronts, &rears, arguments.len(), place, literals) {
        return Ok(Verdict::Wrong);
    }
    let is_true = are_true_pairs(
        clauses,
        codes,
        own,
        arguments,
        &backward,
        &fronts.places,
        &rears.places,
    )?;
    let _count = clauses.len();
    if !is_true {
        return Ok(Verdict::Wrong);
    }
    clauses.keep(codes)?;
    Ok(Verdict::Good)
}
