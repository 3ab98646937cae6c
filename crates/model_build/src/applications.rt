//! The marked applications of declared symbols, and whether their arguments are alike.
ghost use Rattle.std.specs.Prelude.{◌≡◌, ◌<◌, ◌↔◌, ℕ, length, map, All, IsTrue, IfSome, IfNone};
ghost use Rattle.model_build.specs.Given.{given_at, is_marked, is_past, has_past, IsApplication, AreAlike};
ghost use Rattle.model_build.specs.Keys.{IsApplicationOf};

use crate::Given;
use smt_meaning::{Head, SymId, TermId};
use term_store::TermStore;

/// An application of a declared symbol.
#[derive(Drop)]
pub(crate) struct Application<'a> {
    pub(crate) symbol: SymId,
    pub(crate) arguments: &'a [TermId],
}

fn is_marked(given: Given) -> bool
    ensures { result ≡ is_marked given }
{
    match given {
        Given::Unmarked => false,
        Given::InRange(_) | Given::PastRange => true,
    }
}

fn is_past(given: Given) -> bool
    ensures { result ≡ is_past given }
{
    match given {
        Given::PastRange => true,
        Given::Unmarked | Given::InRange(_) => false,
    }
}

/// The application at a place, where it is marked.
pub(crate) fn application_at<'a>(
    store: &'a TermStore,
    given: &[Given],
    place: TermId,
) -> Option<Application<'a>>
    requires place { place < length store.now.trees }
    requires size { length given.now ≡ length store.now.trees }
    ensures some { IfSome result (λ a. IsApplicationOf store.now.trees given.now place a.symbol a.arguments.now) }
    ensures none { IfNone result ((f : ℕ) → IsApplication store.now.trees given.now f place → ⊥) }
{
    let _known = store.len();
    if !is_marked(given[place as usize]) {
        return None;
    }
    let node = store.node(place);
    match node.head {
        Head::Symbol(symbol) => Some(Application {
            symbol,
            arguments: node.arguments,
        }),
        _ => None,
    }
}

/// Whether one of these places is given a number past the range.
pub(crate) fn has_past(given: &[Given], places: &[TermId]) -> bool
    requires { All (λ i. i < length given.now) places.now }
    ensures { result ≡ has_past (map (given_at given.now) places.now) }
{
    for place in places {
        if is_past(given[*place as usize]) {
            return true;
        }
    }
    false
}

fn is_same(a: Given, b: Given) -> bool
    ensures { IsTrue result ↔ (a ≡ b) }
{
    a == b
}

/// Whether the places of the two lists are given the same, one by one.
fn are_same(given: &[Given], a: &[TermId], b: &[TermId]) -> bool
    requires first { All (λ i. i < length given.now) a.now }
    requires second { All (λ i. i < length given.now) b.now }
    ensures { IsTrue result ↔ (map (given_at given.now) a.now ≡ map (given_at given.now) b.now) }
{
    if a.len() != b.len() {
        return false;
    }
    for i in 0..a.len() {
        if !is_same(given[a[i] as usize], given[b[i] as usize]) {
            return false;
        }
    }
    true
}

/// Whether a table gives applications with these arguments one value.
pub(crate) fn are_alike(given: &[Given], a: &[TermId], b: &[TermId]) -> bool
    requires first { All (λ i. i < length given.now) a.now }
    requires second { All (λ i. i < length given.now) b.now }
    ensures { IsTrue result ↔ AreAlike (map (given_at given.now) a.now) (map (given_at given.now) b.now) }
{
    if has_past(given, a) {
        has_past(given, b)
    } else {
        are_same(given, a, b)
    }
}
