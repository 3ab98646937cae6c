//! Clauses at level 0.
ghost use Rattle.std.specs.Prelude.{◌≡◌, IfOk};
ghost use Rattle.bound_log.specs.Clauses.{at_bottom};

use literals::Literal;
use search_port::Lemma;
use smt_meaning::Seq;
use std::alloc::{AllocError, Global};

/// The clause at level 0 with these literals.
pub(crate) fn clause_of(alloc: Global, literals: &[Literal]) -> Result<Lemma, AllocError>
    ensures { IfOk result (λ c. c ≡ at_bottom literals.now) }
{
    let literals = literals.to_vec(alloc)?;
    Ok(Lemma {
        literals: Seq::from_vec(literals),
        level: 0,
    })
}
