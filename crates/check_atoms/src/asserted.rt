//! Which wide `distinct`s are assertions.
ghost use Rattle.std.specs.Prelude.{◌≡◌, ◌≢◌, ◌<◌, length, true, false, All, Contains};
ghost use Rattle.smt_meaning.specs.declared.values.Sort.TheVariants.{Bool as Truths};
ghost use Rattle.smt_meaning.specs.Term.{tree_at};
ghost use Rattle.smt_meaning.specs.Stack.{signature_of, assertions_of};
ghost use Rattle.scope_stack.specs.declared.answers.Assertion.{Assertion as AssertionOf};
ghost use Rattle.check_atoms.specs.PartAtoms.{sort_of, sort_in};
ghost use Rattle.check_atoms.specs.AssertedDistinct.{IsListedNoBool, IsAssertedDistinct};

use scope_stack::{Assertion, Stack};
use smt_meaning::{Head, Operator, Sort, TermId};

/// Of so many arguments of a `distinct` each two are compared by atoms, wherever it stands.
pub const MOST_COMPARED: usize = 200;

/// Whether a sort is Bool.
fn is_bool(sort: Sort) -> bool
    ensures yes { result ≡ true → sort ≡ Truths }
    ensures no { result ≡ false → sort ≢ Truths }
{
    match sort {
        Sort::Bool => true,
        Sort::Int | Sort::Free(_) => false,
    }
}

/// Whether none of the terms at these places is a Bool.
fn are_no_bools(sorts: &[Sort], places: &[TermId]) -> bool
    requires { All (λ i. i < length sorts.now) places.now }
    ensures yes { result ≡ true → All (IsListedNoBool sorts.now) places.now }
    ensures no { result ≡ false → All (IsListedNoBool sorts.now) places.now → ⊥ }
{
    for place in places {
        if is_bool(sorts[*place as usize]) {
            return false;
        }
    }
    true
}

/// Whether an assertion's term stands at this place.
fn has_term(assertions: &[Assertion], place: TermId) -> bool
    ensures yes { result ≡ true → (a : AssertionOf) × Contains assertions.now a × (a.term ≡ place) }
    ensures no { result ≡ false → All (λ (a : AssertionOf). a.term ≢ place) assertions.now }
{
    for assertion in assertions {
        if assertion.term == place {
            return true;
        }
    }
    false
}

/// Whether the term at a place is an assertion.
fn is_asserted(stack: &Stack, place: TermId) -> bool
    requires { place < length stack.now.trees }
    ensures yes { result ≡ true → Contains (assertions_of stack.now.frames) (tree_at stack.now.trees place) }
    ensures no { result ≡ false → Contains (assertions_of stack.now.frames) (tree_at stack.now.trees place) → ⊥ }
{
    stack.laws();
    has_term(stack.assertions(), place)
}

/// Whether the term at a place, with this head and the arguments at these places, is a wide `distinct` of terms that are no Bools, and an assertion. The arguments have the listed sorts.
/// It looks at all assertions where the `distinct` is wide.
pub fn is_asserted_distinct(
    stack: &Stack,
    sorts: &[Sort],
    place: TermId,
    head: Head,
    arguments: &[TermId],
) -> bool
    requires place { place < length stack.now.trees }
    requires within { All (λ i. i < length sorts.now) arguments.now }
    requires sorted { All (λ i. sort_in sorts.now i ≡ sort_of (signature_of stack.now.frames) stack.now.trees i) arguments.now }
    ensures yes { result ≡ true → IsAssertedDistinct stack.now place head arguments.now }
    ensures no { result ≡ false → IsAssertedDistinct stack.now place head arguments.now → ⊥ }
{
    if head != Head::Theory(Operator::Distinct) {
        return false;
    }
    if arguments.len() <= MOST_COMPARED {
        return false;
    }
    if !are_no_bools(sorts, arguments) {
        return false;
    }
    is_asserted(stack, place)
}
