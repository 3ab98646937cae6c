//! Learning from a false clause: a clause that follows from kept clauses, and how far decisions are
//! to be taken back for it (Marques-Silva and Sakallah, 1999).
//!
//! `Learner::learn`: the store stays as it was. From a kept clause that is false comes a clause
//! with its premises: kept clauses wherever which are true it is true. Each of its literals stands
//! in one of them, its level is the greatest of theirs, and no atom stands twice in it.
//!
//! Its first literal alone has the greatest depth of the false clause's literals; `back_to` is the
//! greatest depth of the others, which the second literal has, or 0. The first is open at each
//! lesser depth, and no clauses that were quiet before the decision of its depth force the clause.
//!
//! Or, exactly where the greatest depth is 0, premises come that can't all be true, with the
//! greatest of their levels.
#![tactic(auto)]

mod analysis;
mod begin;
mod kept;
mod learn;
mod minimize;
mod reasons;
mod uip;

pub use learn::{Learner, Learnt};
