//! The clauses of a branch.
ghost use Rattle.std.specs.Prelude.{◌≡◌, ℕ, ℤ, ◌<◌, ◌^◌, List, All, IfOk};
ghost use Rattle.smt_meaning.specs.Declaration.{Declaration};
ghost use Rattle.search_port.specs.State.{TheoryState};
ghost use Rattle.search_port.specs.Calls.{IsLemma};
ghost use Rattle.congruence.specs.Clauses.{IsToldAtOneLevel};
ghost use Rattle.bound_log.specs.Clauses.{branch_clauses, IsBranchOf};

use crate::clause::clause_of;
use int_branch::branches_hold;
use literals::Literal;
use search_port::Lemma;
use smt_meaning::Seq;
use std::alloc::{AllocError, Global};

/// The clause that one side of a branch holds, and the clause that one doesn't, over the numbers of both sides' atoms: lemmas wherever these are the atoms of a
/// branch. An `Err` is for want of memory.
pub fn branch_lemmas(alloc: Global, below: u32, above: u32) -> Result<Seq<Lemma>, AllocError>
    requires below { below < 2 ^ 31 }
    requires above { above < 2 ^ 31 }
    ensures clauses { IfOk result (λ cs. cs ≡ branch_clauses below above) }
    ensures lemmas { IfOk result (λ cs. (ds : List Declaration) (t : TheoryState) (term : ℕ) (floor : ℤ) → IsToldAtOneLevel ds t → IsBranchOf t.reading.table below above term floor → All (IsLemma t.reading) cs) }
{
    branches_hold();
    let low = Literal::new(below, true);
    let high = Literal::new(above, true);
    let mut lemmas = Seq::new(alloc);
    lemmas.push(clause_of(alloc, &[low, high])?)?;
    lemmas.push(clause_of(alloc, &[low.negated(), high.negated()])?)?;
    Ok(lemmas)
}
