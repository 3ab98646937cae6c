//! Links, and the clauses between neighbours.
ghost use Rattle.std.specs.Prelude.{◌≡◌, ◌<◌, ◌^◌, ◌&&◌, nat_eq, ◌++◌, ℤ, int_le, All, OnOk};
ghost use Rattle.std.specs.List.Sorted.{IsSorted, IsPermutation};
ghost use Rattle.literals.specs.Signed.{sign};
ghost use Rattle.pair_bounds.specs.Turning.{is_within};
ghost use Rattle.order_clauses.specs.declared.links.Link.{Link as LinkValue};
ghost use Rattle.order_clauses.specs.Links.{literal_of, link_cmp, implied, between, between_neighbours, between_links};
ghost use Rattle.order_clauses.specs.Gathered.{LimitFits};

use clause_form::Clauses;
use literals::Literal;
use pair_bounds::Limit;
use std::alloc::AllocError;

/// A literal that says that the sum of a group is at most a threshold.
#[derive(Clone, Copy, PartialEq, Eq, PartialOrd, Ord, Drop)]
pub(crate) struct Link {
    pub(crate) group: u32,
    pub(crate) threshold: i128,
    pub(crate) number: u32,
    pub(crate) positive: bool,
}

/// The link of an atom that says that the sum of the group is within the limit.
pub(crate) fn link_of(group: u32, limit: Limit, number: u32) -> Link
    requires { LimitFits limit }
    ensures group { result.group ≡ group }
    ensures number { result.number ≡ number }
    ensures says { (s : ℤ) → sign result.positive (is_within limit s) ≡ int_le s result.threshold }
{
    match limit {
        Limit::AtMost(threshold) => Link {
            group,
            threshold,
            number,
            positive: true,
        },
        Limit::AtLeast(least) => Link {
            group,
            threshold: least - 1,
            number,
            positive: false,
        },
    }
}

/// Puts links in order.
pub(crate) fn sort(links: &mut Vec<Link>)
    ensures permutation { IsPermutation links.old.items links.new.items }
    ensures sorted { IsSorted link_cmp links.new.items }
{
    links.sort_unstable();
}

fn literal(link: Link) -> Literal
    requires { link.number < 2 ^ 31 }
    ensures { result ≡ literal_of link }
{
    Literal::new(link.number, link.positive)
}

fn leads(first: Link, second: Link) -> bool
    ensures { result ≡ (nat_eq first.group second.group && int_le first.threshold second.threshold) }
{
    first.group == second.group && first.threshold <= second.threshold
}

fn put_implied(clauses: &mut Clauses, first: Link, second: Link) -> Result<(), AllocError>
    requires first { first.number < 2 ^ 31 }
    requires second { second.number < 2 ^ 31 }
    ensures { OnOk result (clauses.new ≡ clauses.old ++ implied first second) }
{
    if leads(first, second) {
        return clauses.push(&[literal(first).negated(), literal(second)]);
    }
    Ok(())
}

fn put_between(clauses: &mut Clauses, first: Link, second: Link) -> Result<(), AllocError>
    requires first { first.number < 2 ^ 31 }
    requires second { second.number < 2 ^ 31 }
    ensures { OnOk result (clauses.new ≡ clauses.old ++ between first second) }
{
    put_implied(clauses, first, second)?;
    put_implied(clauses, second, first)
}

fn put_neighbours(clauses: &mut Clauses, first: Link, others: &[Link]) -> Result<(), AllocError>
    requires first { first.number < 2 ^ 31 }
    requires others { All (λ (l : LinkValue). l.number < 2 ^ 31) others.now }
    ensures { OnOk result (clauses.new ≡ clauses.old ++ between_neighbours first others.now) }
{
    let mut before = first;
    for link in others {
        put_between(clauses, before, *link)?;
        before = *link;
    }
    Ok(())
}

/// Adds the clauses between each two neighbours.
pub(crate) fn put_links(clauses: &mut Clauses, links: &[Link]) -> Result<(), AllocError>
    requires { All (λ (l : LinkValue). l.number < 2 ^ 31) links.now }
    ensures { OnOk result (clauses.new ≡ clauses.old ++ between_links links.now) }
{
    match links {
        [] => Ok(()),
        [first, others @ ..] => put_neighbours(clauses, *first, others),
    }
}
