//! The clauses that tie bounds on one sum and on its negation to one another: in order, each implies the next.
ghost use Rattle.std.specs.Prelude.{◌≡◌, ◌<◌, ◌^◌, ◌++◌, All, OnOk, int_lt};
ghost use Rattle.bound_clauses.specs.declared.axioms.Bound.{Bound};
ghost use Rattle.bound_clauses.specs.Chain.{of_sum, of_negation, of_sums, of_negations, chain_of, between, between_neighbours, chain_clauses, axioms};

use crate::ties::put;
use clause_form::Clauses;
use literals::Literal;
use std::alloc::{AllocError, Global};

/// A bound of a sum: the number of its atom, and what the sum is at most.
#[derive(Clone, Copy, PartialEq, Eq)]
pub struct Bound {
    pub number: u32,
    pub threshold: i128,
}

/// A literal that says that the sum is at most the threshold.
#[derive(Clone, Copy)]
struct Link {
    threshold: i128,
    literal: Literal,
}

/// A list that is used again for each sum.
#[derive(Drop)]
pub struct Chain {
    links: Vec<Link>,
}

impl Chain {
    /// An empty list. It takes no memory.
    pub fn new(alloc: Global) -> Self {
        Chain {
            links: Vec::new(alloc),
        }
    }
}

fn link_of_sum(bound: Bound) -> Link
    requires { bound.number < 2 ^ 31 }
    ensures { result ≡ of_sum bound }
{
    Link {
        threshold: bound.threshold,
        literal: Literal::new(bound.number, true),
    }
}

fn link_of_negation(bound: Bound) -> Link
    requires { bound.number < 2 ^ 31 }
    ensures { result ≡ of_negation bound }
{
    Link {
        threshold: -1 - bound.threshold,
        literal: Literal::new(bound.number, false),
    }
}

fn is_below(first: i128, second: i128) -> bool
    ensures { result ≡ int_lt first second }
{
    first < second
}

fn add_sums(links: &mut Vec<Link>, bounds: &[Bound]) -> Result<(), AllocError>
    requires { All (λ (b : Bound). b.number < 2 ^ 31) bounds.now }
    ensures { OnOk result (links.new.items ≡ links.old.items ++ of_sums bounds.now) }
{
    for bound in bounds {
        links.push(link_of_sum(*bound))?;
    }
    Ok(())
}

fn add_negations(links: &mut Vec<Link>, bounds: &[Bound]) -> Result<(), AllocError>
    requires { All (λ (b : Bound). b.number < 2 ^ 31) bounds.now }
    ensures { OnOk result (links.new.items ≡ links.old.items ++ of_negations bounds.now) }
{
    let mut i = bounds.len();
    while i > 0 {
        i -= 1;
        links.push(link_of_negation(bounds[i]))?;
    }
    Ok(())
}

/// Puts the links of both lists in order.
fn merge(links: &mut Vec<Link>, bounds: &[Bound], negated: &[Bound]) -> Result<(), AllocError>
    requires bounds { All (λ (b : Bound). b.number < 2 ^ 31) bounds.now }
    requires negated { All (λ (b : Bound). b.number < 2 ^ 31) negated.now }
    ensures { OnOk result (links.new.items ≡ chain_of bounds.now negated.now) }
{
    links.clear();
    let mut i = 0;
    let mut j = negated.len();
    while i < bounds.len() && j > 0 {
        let upper = link_of_sum(bounds[i]);
        let lower = link_of_negation(negated[j - 1]);
        if is_below(lower.threshold, upper.threshold) {
            links.push(lower)?;
            j -= 1;
        } else {
            links.push(upper)?;
            i += 1;
        }
    }
    add_sums(links, &bounds[i..])?;
    add_negations(links, &negated[..j])
}

/// Adds that the first implies the second and, where their thresholds are one, is implied by it.
fn put_between(clauses: &mut Clauses, first: Link, second: Link) -> Result<(), AllocError>
    ensures { OnOk result (clauses.new ≡ clauses.old ++ between first second) }
{
    put(clauses, &[first.literal.negated(), second.literal])?;
    if second.threshold <= first.threshold {
        return put(clauses, &[second.literal.negated(), first.literal]);
    }
    Ok(())
}

fn put_neighbours(clauses: &mut Clauses, first: Link, others: &[Link]) -> Result<(), AllocError>
    ensures { OnOk result (clauses.new ≡ clauses.old ++ between_neighbours first others.now) }
{
    let mut before = first;
    for link in others {
        put_between(clauses, before, *link)?;
        before = *link;
    }
    Ok(())
}

fn put_chain(clauses: &mut Clauses, links: &[Link]) -> Result<(), AllocError>
    ensures { OnOk result (clauses.new ≡ clauses.old ++ chain_clauses links.now) }
{
    match links {
        [] => Ok(()),
        [first, others @ ..] => put_neighbours(clauses, *first, others),
    }
}

/// Adds the axioms of the bounds of one sum and of its negation, each list in ascending order of thresholds: of `s <= k` and `s <= m` with k at most m the first
/// implies the second; of `s <= k` and `-s <= j` not both hold where k + j is below 0, and one does where it is -1 or more. Only neighbours in order have a clause,
/// so there are at most two for each bound. An `Err`, for want of memory, says nothing of the clauses.
pub fn put_axioms(
    clauses: &mut Clauses,
    chain: &mut Chain,
    bounds: &[Bound],
    negated: &[Bound],
) -> Result<(), AllocError>
    requires bounds { All (λ (b : Bound). b.number < 2 ^ 31) bounds.now }
    requires negated { All (λ (b : Bound). b.number < 2 ^ 31) negated.now }
    ensures { OnOk result (clauses.new ≡ clauses.old ++ axioms bounds.now negated.now) }
{
    merge(&mut chain.links, bounds, negated)?;
    put_chain(clauses, &chain.links)
}
