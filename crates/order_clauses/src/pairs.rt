//! Which terms the equalities of a part compare.
ghost use Rattle.std.specs.Prelude.{◌≡◌, ◌+◌, ◌≤◌, ◌++◌, length, OnOk};
ghost use Rattle.order_clauses.specs.Pairs.{neighbours, with_each, each_two, pairs_of};
ghost use Rattle.order_clauses.specs.Counted.{pairs_among, distinct_pairs};

use smt_meaning::{Operator, TermId};
use std::alloc::AllocError;
use std::sync::ledger::Ledger;
use term_store::Steps;

/// Two terms that are compared.
#[derive(Clone, Copy, PartialEq, Eq, Drop)]
pub(crate) struct Pair {
    pub(crate) left: TermId,
    pub(crate) right: TermId,
}

/// Adds the pair of each place and the next.
fn add_neighbours(pairs: &mut Vec<Pair>, first: TermId, others: &[TermId]) -> Result<(), AllocError>
    ensures { OnOk result (pairs.new.items ≡ pairs.old.items ++ neighbours first others.now) }
{
    let mut before = first;
    for place in others {
        pairs.push(Pair {
            left: before,
            right: *place,
        })?;
        before = *place;
    }
    Ok(())
}

/// Adds the pairs of a place and each of the others, each in one step.
fn add_with_each<L: Ledger>(
    pairs: &mut Vec<Pair>,
    first: TermId,
    others: &[TermId],
    steps: &mut Steps<L>,
) -> Result<(), AllocError>
    ensures pairs { OnOk result (pairs.new.items ≡ pairs.old.items ++ with_each first others.now) }
    ensures rise { steps.old ≤ steps.new }
    ensures few { steps.new ≤ steps.old + length others.now }
    ensures counted { OnOk result (steps.new ≡ steps.old + length others.now) }
{
    for place in others {
        pairs.push(Pair {
            left: first,
            right: *place,
        })?;
        steps.tick();
    }
    Ok(())
}

/// Adds the pair of each two places, each in one step.
fn add_each_two<L: Ledger>(
    pairs: &mut Vec<Pair>,
    places: &[TermId],
    steps: &mut Steps<L>,
) -> Result<(), AllocError>
    ensures pairs { OnOk result (pairs.new.items ≡ pairs.old.items ++ each_two places.now) }
    ensures rise { steps.old ≤ steps.new }
    ensures few { steps.new ≤ steps.old + pairs_among (length places.now) }
    ensures counted { OnOk result (steps.new ≡ steps.old + pairs_among (length places.now)) }
{
    let mut rest = places;
    while let Some((first, others)) = rest.split_first() {
        add_with_each(pairs, *first, others, steps)?;
        rest = others;
    }
    Ok(())
}

/// Adds the pairs that `=` or `distinct` of the terms at these places compares; of another operator none. A step is a pair of a `distinct`.
pub(crate) fn add_pairs<L: Ledger>(
    pairs: &mut Vec<Pair>,
    operator: Operator,
    places: &[TermId],
    steps: &mut Steps<L>,
) -> Result<(), AllocError>
    ensures pairs { OnOk result (pairs.new.items ≡ pairs.old.items ++ pairs_of operator places.now) }
    ensures rise { steps.old ≤ steps.new }
    ensures few { steps.new ≤ steps.old + distinct_pairs operator (length places.now) }
    ensures counted { OnOk result (steps.new ≡ steps.old + distinct_pairs operator (length places.now)) }
{
    match places {
        [] => Ok(()),
        [first, others @ ..] => match operator {
            Operator::Equal => add_neighbours(pairs, *first, others),
            Operator::Distinct => add_each_two(pairs, places, steps),
            _ => Ok(()),
        },
    }
}
