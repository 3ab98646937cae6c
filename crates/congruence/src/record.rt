//! Steps with one reason.
ghost use Rattle.std.specs.Prelude.{List, length, All, Contains};
ghost use Rattle.literals.specs.Signed.{Signed};
ghost use Rattle.smt_meaning.specs.declared.clauses.Atom.{Atom};
ghost use Rattle.smt_meaning.specs.Declaration.{Declaration};
ghost use Rattle.smt_meaning.specs.Term.{Tree};
ghost use Rattle.point_closure.specs.Whole.{IsWithin};
ghost use Rattle.congruence.specs.Recorded.{IsRecorded};
ghost use Rattle.congruence.specs.Justified.{IsJustified};
ghost use Rattle.congruence.specs.Reasoned.{IsReasoned, AddsSteps};

use crate::Congruence;
use literals::Literal;
use point_closure::Step;
use std::alloc::AllocError;

/// Records these steps, each for this reason. An `Err` records the first of them alone.
fn record_each(
    congruence: &mut Congruence,
    steps: &[Step],
    reason: Literal,
) -> Result<(), AllocError>
    requires recorded { IsRecorded congruence.old }
    requires within { All (IsWithin (length congruence.old.closure.graph)) steps.now }
    ensures { AddsSteps congruence.old congruence.new steps.now reason result }
{
    for i in 0..steps.len() {
        congruence.record(steps[i], reason)?;
    }
    Ok(())
}

/// Records these steps, each for this reason. An `Err` records the first of them alone.
pub fn record_all(
    congruence: &mut Congruence,
    steps: &[Step],
    reason: Literal,
) -> Result<(), AllocError>
    requires recorded { IsRecorded congruence.old }
    requires within { All (IsWithin (length congruence.old.closure.graph)) steps.now }
    ensures records { AddsSteps congruence.old congruence.new steps.now reason result }

    // What is justified and told stays so, on an `Err` too.
    ensures reasoned { (ds : List Declaration) (ts : List Tree) (table : List Atom) (log : List Signed) → IsReasoned ds ts table log congruence.old → Contains log reason → All (IsJustified ds ts table reason) steps.now → IsReasoned ds ts table log congruence.new }
{
    record_each(congruence, steps, reason)
}
