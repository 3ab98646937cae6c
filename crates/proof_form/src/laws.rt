//! A law of what is found of an s-expression in the place of a proof, as the contract of a function that does nothing.
ghost use Rattle.proof_form.specs.Alone.{FoundIsOne};

/// What is found of an s-expression in the place of a proof is one thing.
pub fn found_is_one()
    ensures { FoundIsOne }
{}
