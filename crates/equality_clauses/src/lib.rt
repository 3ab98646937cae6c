//! The clauses that tie a term to equality atoms: `=` and `distinct` to those of their arguments,
//! an `ite` to those with its branches, and the equality of two Bools to their truth.
//!
//! `put_comparison`, `put_choice`, `put_sameness`: exactly these clauses are appended, over the
//! numbers of equality atoms.
//!
//! `comparison_is_tied`, `choice_is_tied`, `sameness_is_tied`: where the signs of the pairs agree
//! with values of the arguments, these clauses are true exactly where the term has its operator's
//! value.
//!
//! `comparison_is_over`, `choice_is_over`, `sameness_is_over`, `interpretation_agrees`: each clause
//! is over these atoms alone and has none twice; the truth of equality atoms under an
//! interpretation agrees with the values that it gives the terms.
#![tactic(auto)]

mod clauses;
mod laws;
mod once;

pub use clauses::{Lists, put_choice, put_comparison, put_sameness};
pub use laws::{
    choice_is_over, choice_is_tied, comparison_is_over, comparison_is_tied, interpretation_agrees,
    sameness_is_over, sameness_is_tied,
};
