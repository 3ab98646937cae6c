//! The terms of a proof and the clauses of its steps, as they are kept, and the rules by which
//! terms alone give a clause.
//!
//! `Terms`: a term is added exactly if an assertion may have it; then its node, and whether it
//! stands for a term of the stack. `Clauses`: the clause of each step as an ascending list of codes,
//! one for each literal; `resolve` leaves of two clauses all codes but the two given.
//!
//! `is_bool`, `are_comparable`, `is_literal`, `codes_of`: exactly the literals over terms that are
//! there, of the right sorts, and their codes.
//!
//! `judge_form`, `judge_euclid`, `judge_link`, `judge_round`: a step by the truth values of a term's
//! parts, by a row of a division, by an equality of Ints as bounds, or by a bound divided, is `Good`
//! exactly if it is by its rule, and then its clause is kept; it is `Range` exactly where a number on
//! the way leaves the range.
#![tactic(auto)]

mod bound_codes;
mod bound_quotients;
mod bounds;
mod clauses;
mod clauses_laid;
mod clauses_merge;
mod euclid;
mod euclid_codes;
mod form;
mod form_pairs;
mod form_parts;
mod form_values;
mod literals;
mod terms;
mod terms_bounds;
mod terms_divisions;
mod terms_facts;
mod terms_held;
mod terms_nodes;
mod terms_rows;
mod terms_table;
mod verdict;

pub use bounds::{judge_link, judge_round};
pub use clauses::Clauses;
pub use euclid::judge_euclid;
pub use form::judge_form;
pub use literals::{are_comparable, codes_of, is_bool, is_literal};
pub use terms::Terms;
pub use verdict::Verdict;
