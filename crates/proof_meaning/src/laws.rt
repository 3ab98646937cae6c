//! Laws of proofs that assertions have no model, each as the contract of a function that does nothing.
ghost use Rattle.proof_meaning.specs.Laws.{GoodProofLeavesNoModel, NamedAssertionsHaveNoModel, ProofClausesAreTrue};

/// Under an interpretation that makes the assertions true that a proof's `assert` steps name, each of its clauses is true.
pub fn proof_clauses_are_true()
    ensures { ProofClausesAreTrue }
{}

/// No interpretation makes all the assertions true that a good proof's `assert` steps name.
pub fn named_assertions_have_no_model()
    ensures { NamedAssertionsHaveNoModel }
{
    proof_clauses_are_true();
}

/// Where there is a good proof, the assertions have no model.
pub fn good_proof_leaves_no_model()
    ensures { GoodProofLeavesNoModel }
{
    named_assertions_have_no_model();
}
