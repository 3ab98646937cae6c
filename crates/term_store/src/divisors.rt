//! Numerals that divide, and quotients by them, among the stored terms.
ghost use Rattle.std.specs.Prelude.{◌≡◌, ◌<◌, ◌&&◌, nat_eq, length, All};
ghost use Rattle.smt_meaning.specs.declared.terms.Head.TheVariants.{Theory as theory};
ghost use Rattle.smt_meaning.specs.Nodes.{pick};
ghost use Rattle.smt_meaning.specs.Term.{node, tree_at};
ghost use Rattle.smt_meaning.specs.TreeShape.{is_divisor, quotient_tree, head_eq, tree_eq};
ghost use Rattle.term_store.specs.Divisors.{is_nonzero, are_two};

use crate::store::TermStore;
use smt_meaning::{Head, Operator, TermId};

fn is_zero(count: usize) -> bool
    ensures { result ≡ nat_eq count 0 }
{
    count == 0
}

/// A numeral other than 0.
fn is_nonzero(term: TermId, store: &TermStore) -> bool
    requires { term < length store.now.trees }
    ensures { result ≡ is_nonzero (tree_at store.now.trees term) }
{
    let node = store.node(term);
    match node.head {
        Head::Numeral(number) => number != 0 && is_zero(node.arguments.len()),
        _ => false,
    }
}

/// Whether the term at a place is a numeral other than 0, or the negation of one.
pub fn is_divisor(term: TermId, store: &TermStore) -> bool
    requires { term < length store.now.trees }
    ensures { result ≡ is_divisor (tree_at store.now.trees term) }
{
    let node = store.node(term);
    match node.head {
        Head::Numeral(_) => is_nonzero(term, store),
        Head::Theory(Operator::Subtract) => is_one_nonzero(node.arguments, store),
        _ => false,
    }
}

/// There is one term, a numeral other than 0.
fn is_one_nonzero(terms: &[TermId], store: &TermStore) -> bool
    requires { All (λ i. i < length store.now.trees) terms.now }
    ensures { result ≡ is_divisor (node (theory Operator.Subtract) (pick store.now.trees terms.now)) }
{
    if terms.len() != 1 {
        return false;
    }
    is_nonzero(terms[0], store)
}

/// Whether the term at a place is the quotient of another by a third.
pub fn is_quotient_of(term: TermId, number: TermId, divisor: TermId, store: &TermStore) -> bool
    requires term { term < length store.now.trees }
    requires number { number < length store.now.trees }
    requires divisor { divisor < length store.now.trees }
    ensures { result ≡ tree_eq (tree_at store.now.trees term) (quotient_tree (tree_at store.now.trees number) (tree_at store.now.trees divisor)) }
{
    let _ = store.len();
    let node = store.node(term);
    is_quotient_node(node.head, node.arguments, number, divisor)
}

/// A node is the quotient of one term by another.
fn is_quotient_node(head: Head, arguments: &[TermId], number: TermId, divisor: TermId) -> bool
    ensures { result ≡ (head_eq head (theory Operator.Divide) && are_two arguments.now number divisor) }
{
    is_division(head) && are_two(arguments, number, divisor)
}

fn is_division(head: Head) -> bool
    ensures { result ≡ head_eq head (theory Operator.Divide) }
{
    match head {
        Head::Theory(Operator::Divide) => true,
        _ => false,
    }
}

/// There are two terms, these.
fn are_two(terms: &[TermId], first: TermId, second: TermId) -> bool
    ensures { result ≡ are_two terms.now first second }
{
    if terms.len() != 2 {
        return false;
    }
    terms[0] == first && terms[1] == second
}
