//! Models whose numbers may be past the range: exact values of terms, the truth of a log's literals
//! under tables, and models in which a number leaves the range. Memory alone makes any of this fail.
//!
//! `listed_values`: of Bools and elements given values, of Int leaves those of the variables of
//! bounds.
//!
//! `given_exactly`: what places are given by exact values: a numeral, sum, difference or product
//! that of its linear form at the leaves' numbers, which may be past the range, each other term one
//! that is listed; where each operator makes its term's value of its arguments' exact values.
//!
//! `end_exactly`: whether all numbers are in the range under tables that give exact values, which
//! are a model then; or a model in which a number leaves the range: tables that make each assertion
//! true, with the leaves' numbers from the variables of the bounds, and the part whose evaluation
//! they refuse.
//!
//! `tables_make_true`: whether tables make each literal of a log true, by one evaluation of the
//! marked terms and exact sums; the first literal that they make false; the first term that leaves
//! the range.
#![tactic(auto)]

mod atoms;
mod ends;
mod exact_values_sums;
mod given;
mod laws;
mod leaves;
mod log;
mod log_value_sums;
mod values;

pub use atoms::makes_true;
pub use ends::{Exactly, InModel, end_exactly};
pub use given::given_exactly;
pub use laws::{
    first_fit, listed_bounds_are_met, listed_numbers_are_of_forms, listed_truths_fit,
    listed_values_have_sorts, operators_are_decided, tables_give_exact_values,
    tables_within_are_models, truth_is_by_values,
};
pub use leaves::listed_values;
pub use log::{Verdict, tables_make_true};
pub use values::{Values, evaluated};
