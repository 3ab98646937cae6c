//! The free choices of a search: which atom is decided next and with which sign, when the decisions
//! are taken back, and which learnt clauses are forgotten.
//!
//! `Order`: nothing beyond safety, and no contract speaks of what is chosen. The workers of a race
//! choose each in its own way.
#![tactic(auto)]

mod choices;
mod heap;
mod order;
mod phases;
mod reduce;
mod restart;
mod scores;

pub use order::Order;
