//! A stack of two empty levels, and a clause that is always true.
ghost use Rattle.std.specs.Prelude.{◌≡◌, IfOk};
ghost use Rattle.unit_tests.specs.Stack.{true_at, two_levels};

use lemma_pool::Pool;
use race_model::{Framed, Shelf};
use smt_meaning::{Atom, Clause, Literal, Seq};
use std::alloc::{AllocError, Global};

/// A stack of two empty levels.
#[derive(Drop)]
pub struct Empty;

impl Framed for Empty {
    ghost use Rattle.unit_tests.specs.Stack.{two_levels};

    ghost base = { λ _. two_levels };
}

/// The clause `0 <= 0`, at a level.
pub fn true_clause(alloc: Global, level: u16) -> Result<Clause, AllocError>
    ensures { IfOk result (λ c. c ≡ true_at level) }
{
    let mut literals = Vec::new(alloc);
    literals.push(Literal {
        atom: Atom::AtMost(Seq::new(alloc), 0),
        positive: true,
    })?;
    Ok(Clause {
        literals: Seq::from_vec(literals),
        level,
    })
}

/// An empty pool over those levels.
pub fn pool_of_two(alloc: Global) -> Pool<Empty>
    ensures { (⟦<Pool<Empty> as Shelf>⟧.state result).base ≡ two_levels }
{
    let mut pool = Pool::new(alloc, &Empty);
    pool.follow(&Empty, 2);
    pool
}
