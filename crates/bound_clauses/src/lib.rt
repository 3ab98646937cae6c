//! The clauses that tie comparisons and equalities of Ints to bounds of sums, and those that tie
//! the bounds of one sum and of its negation to one another.
//!
//! `add_orders`: exactly the orders that `<=`, `<`, `>=` or `>` says of each two neighbours are
//! appended: the places of the lesser and the greater, and whether they may be equal.
//!
//! `orders_are_comparisons`, `pairs_are_compared`: the bounds of these orders are the atoms that a
//! stack has for the comparison; those of a pair of Ints are their equality and both bounds of
//! their difference.
//!
//! `put_order`, `put_equality`, `put_constant`: exactly the clauses of a comparison, of an equality
//! of two Ints and of a bound of the empty sum are appended, over the numbers of bounds, which may
//! stand twice.
//!
//! `order_is_tied`, `equality_is_tied`, `constant_is_tied`, and the same `_is_over`: where the
//! signs of the bounds agree with values of the arguments, without bound, these clauses are true
//! exactly where the term has its operator's value; each is over these atoms alone and has none
//! twice.
//!
//! `put_axioms` and its laws: exactly the axioms of the bounds of a sum and of its negation are
//! appended, those of neighbours in order, at most two for each bound, true whatever whole number
//! the sum is. From one literal propagation over them reaches each that follows from it for whole
//! numbers.
//!
//! `bound_has_value`, `interpretation_agrees`, `order_clauses_are_true`,
//! `equality_clauses_are_true`, `constant_has_value`, `axioms_have_value`: under an interpretation
//! the bound of two linear terms has the truth value of the comparison of their values; each of
//! these clauses is true under every interpretation (of an equality: that gives its sides numbers).
//!
//! `order_is_decided`, `equality_is_decided`: a consistent log that makes the clauses true gives a
//! comparison its operator's value of the arguments' values, and an equality the sameness of the
//! values, where the bounds have the signs that fit the values.
#![tactic(auto)]

mod axioms;
mod laws;
mod orders;
mod ties;

pub use axioms::{Bound, Chain, put_axioms};
pub use laws::{
    axioms_are_few, axioms_are_over, axioms_are_true, axioms_force_all, axioms_have_value,
    bound_has_value, constant_has_value, constant_is_over, constant_is_tied,
    equality_clauses_are_true, equality_is_decided, equality_is_over, equality_is_tied,
    interpretation_agrees, order_clauses_are_true, order_is_decided, order_is_over, order_is_tied,
    orders_are_comparisons, pairs_are_compared,
};
pub use orders::{Order, Sense, add_orders};
pub use ties::{put_constant, put_equality, put_order};
