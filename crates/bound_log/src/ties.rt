//! The clauses of an equality.
ghost use Rattle.std.specs.Prelude.{◌≡◌, ◌≢◌, ℕ, ◌<◌, ◌^◌, List, All, IfOk};
ghost use Rattle.smt_meaning.specs.Declaration.{Declaration};
ghost use Rattle.search_port.specs.State.{TheoryState};
ghost use Rattle.search_port.specs.Calls.{IsLemma};
ghost use Rattle.congruence.specs.Clauses.{IsToldAtOneLevel};
ghost use Rattle.bound_log.specs.Clauses.{tie_clauses, AreTied};

use crate::clause::clause_of;
use bound_clauses::{equality_clauses_are_true, equality_is_over};
use literals::Literal;
use search_port::Lemma;
use smt_meaning::Seq;
use std::alloc::{AllocError, Global};

/// The clauses of an equality and one bound, which says the same.
fn one_bound(alloc: Global, same: u32, bound: u32) -> Result<Seq<Lemma>, AllocError>
    requires same { same < 2 ^ 31 }
    requires bound { bound < 2 ^ 31 }
    ensures { IfOk result (λ cs. cs ≡ tie_clauses same bound bound) }
{
    let equal = Literal::new(same, true);
    let holds = Literal::new(bound, true);
    let mut lemmas = Seq::new(alloc);
    lemmas.push(clause_of(alloc, &[equal, holds.negated()])?)?;
    lemmas.push(clause_of(alloc, &[equal.negated(), holds])?)?;
    Ok(lemmas)
}

/// The clauses of an equality and two bounds, which both hold exactly where it does.
fn two_bounds(alloc: Global, same: u32, below: u32, above: u32) -> Result<Seq<Lemma>, AllocError>
    requires same { same < 2 ^ 31 }
    requires below { below < 2 ^ 31 }
    requires above { above < 2 ^ 31 }
    requires two { below ≢ above }
    ensures { IfOk result (λ cs. cs ≡ tie_clauses same below above) }
{
    let equal = Literal::new(same, true);
    let low = Literal::new(below, true);
    let high = Literal::new(above, true);
    let mut lemmas = Seq::new(alloc);
    lemmas.push(clause_of(alloc, &[equal, low.negated(), high.negated()])?)?;
    lemmas.push(clause_of(alloc, &[equal.negated(), low])?)?;
    lemmas.push(clause_of(alloc, &[equal.negated(), high])?)?;
    Ok(lemmas)
}

/// The clauses that an equality of two Ints is true exactly where the first is at most the second and the second at most the first, over the number of the
/// equality and those of both bounds, which may be one: lemmas wherever these are their atoms. An `Err` is for want of memory.
pub fn tie_lemmas(
    alloc: Global,
    same: u32,
    below: u32,
    above: u32,
) -> Result<Seq<Lemma>, AllocError>
    requires same { same < 2 ^ 31 }
    requires below { below < 2 ^ 31 }
    requires above { above < 2 ^ 31 }
    ensures clauses { IfOk result (λ cs. cs ≡ tie_clauses same below above) }
    ensures lemmas { IfOk result (λ cs. (ds : List Declaration) (t : TheoryState) (i j : ℕ) → IsToldAtOneLevel ds t → AreTied ds t same below above i j → All (IsLemma t.reading) cs) }
{
    equality_clauses_are_true();
    equality_is_over();
    if below == above {
        return one_bound(alloc, same, below);
    }
    two_bounds(alloc, same, below, above)
}
