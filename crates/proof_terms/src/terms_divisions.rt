//! Whether only numerals other than 0, and their negations, divide.
ghost use Rattle.std.specs.Prelude.{◌≡◌, ◌<◌, ◌↔◌, length, pos, All, IsTrue};
ghost use Rattle.smt_meaning.specs.declared.terms.Head.TheVariants.{Theory};
ghost use Rattle.smt_meaning.specs.declared.terms.Operator.TheVariants.{Subtract};
ghost use Rattle.smt_meaning.specs.Term.{tree_at, int_eq};
ghost use Rattle.smt_meaning.specs.Nodes.{pick};
ghost use Rattle.smt_meaning.specs.TreeShape.{is_divisor, are_divisors};
ghost use Rattle.proof_terms.specs.TermFacts.{is_nonzero, is_negation, is_division, others_divide, divides_at};

use smt_meaning::{Head, Operator, TermId};
use term_store::TermStore;

fn is_zero(number: i128) -> bool
    ensures { result ≡ int_eq number (pos 0) }
{
    number.unsigned_abs() == 0
}

/// Whether a tree is a numeral other than 0.
fn is_nonzero(store: &TermStore, place: TermId) -> bool
    requires { place < length store.now.trees }
    ensures { result ≡ is_nonzero (tree_at store.now.trees place) }
{
    let node = store.node(place);
    if node.arguments.len() > 0 {
        return false;
    }
    match node.head {
        Head::Numeral(number) => !is_zero(number),
        Head::Theory(_) => false,
        Head::Symbol(_) => false,
        Head::Place(_) => false,
    }
}

fn is_subtraction(head: Head) -> bool
    ensures { IsTrue result ↔ (head ≡ Theory Subtract) }
{
    head == Head::Theory(Operator::Subtract)
}

/// Whether a tree is the negation of a numeral other than 0.
fn is_negation(store: &TermStore, place: TermId) -> bool
    requires { place < length store.now.trees }
    ensures { result ≡ is_negation (tree_at store.now.trees place) }
{
    let node = store.node(place);
    if node.arguments.len() != 1 {
        return false;
    }
    if is_subtraction(node.head) {
        is_nonzero(store, node.arguments[0])
    } else {
        false
    }
}

fn is_divisor(store: &TermStore, place: TermId) -> bool
    requires { place < length store.now.trees }
    ensures { result ≡ is_divisor (tree_at store.now.trees place) }
{
    is_nonzero(store, place) || is_negation(store, place)
}

fn are_divisors(store: &TermStore, places: &[TermId]) -> bool
    requires { All (λ p. p < length store.now.trees) places.now }
    ensures { result ≡ are_divisors (pick store.now.trees places.now) }
{
    for place in places {
        if !is_divisor(store, *place) {
            return false;
        }
    }
    true
}

/// Whether all but the first are divisors.
fn others_divide(store: &TermStore, arguments: &[TermId]) -> bool
    requires { All (λ p. p < length store.now.trees) arguments.now }
    ensures { result ≡ others_divide (pick store.now.trees arguments.now) }
{
    match arguments.split_first() {
        Some((_, divisors)) => are_divisors(store, divisors),
        None => true,
    }
}

pub(crate) fn is_division(operator: Operator) -> bool
    ensures { result ≡ is_division operator }
{
    match operator {
        Operator::Divide | Operator::Modulo | Operator::Divisible => true,
        Operator::True
        | Operator::False
        | Operator::Not
        | Operator::And
        | Operator::Or
        | Operator::Xor
        | Operator::Implies
        | Operator::Equal
        | Operator::Distinct
        | Operator::Ite
        | Operator::Add
        | Operator::Subtract
        | Operator::Multiply
        | Operator::AtMost
        | Operator::Less
        | Operator::AtLeast
        | Operator::Greater
        | Operator::Absolute => false,
    }
}

/// Whether a term with this head and arguments at these places divides by numerals other than 0 and their negations; true of a term that is no division.
pub(crate) fn divides(store: &TermStore, head: Head, arguments: &[TermId]) -> bool
    requires { All (λ p. p < length store.now.trees) arguments.now }
    ensures { result ≡ divides_at head (pick store.now.trees arguments.now) }
{
    match head {
        Head::Numeral(number) => arguments.is_empty() || !is_zero(number),
        Head::Theory(operator) => !is_division(operator) || others_divide(store, arguments),
        Head::Symbol(_) => true,
        Head::Place(_) => true,
    }
}
