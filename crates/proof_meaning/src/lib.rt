//! Proofs that assertions have no model: what they are, and what a good one shows.
//!
//! `Proof`, `Step`: terms, and steps that each give a clause. In `specs/` stand which terms there may be, which clause each
//! step gives after those before it, how an s-expression reads as a proof, and what is to be found of one; `IsGood` is
//! what makes a proof good: each term and each step is by its rule, and the last clause is the empty one.
//!
//! An interpretation that makes the assertions true that a proof names makes each of its clauses true; so where a good
//! proof stands, the assertions that it names have no model.
#![tactic(auto)]

mod laws;
mod proof;

pub use laws::{
    good_proof_leaves_no_model, named_assertions_have_no_model, proof_clauses_are_true,
};
pub use proof::{Proof, Step, StepId, Weighted};
