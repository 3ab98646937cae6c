//! Sums over places, as sums over terms.
ghost use Rattle.std.specs.Prelude.{◌≡◌, map, IfOk};
ghost use Rattle.sum_bounds.specs.Clauses.{plain};

use fraction128::Summand;
use smt_meaning::Summand as Placed;
use std::alloc::{AllocError, Global};

/// A summand with its place as the term.
fn plain_summand(summand: Placed) -> Summand
    ensures { result ≡ record { coefficient = summand.coefficient; term = summand.term } }
{
    Summand {
        coefficient: summand.coefficient,
        term: summand.term,
    }
}

/// A sum over places, with each place as a term.
pub(crate) fn plain_sum(alloc: Global, sum: &[Placed]) -> Result<Vec<Summand>, AllocError>
    ensures { IfOk result (λ s. s.items ≡ plain sum.now) }
{
    let mut copy = Vec::new(alloc);
    for summand in sum {
        copy.push(plain_summand(*summand))?;
    }
    Ok(copy)
}
