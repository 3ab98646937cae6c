//! The clauses of parts of a stack that compare Ints or choose one, and of `=` and `distinct` of
//! more than two terms of a declared sort, over atoms that have numbers. What two such terms alone
//! say, and an `ite` of one, a closure of congruence reads from truths.
//!
//! `put_part`: exactly the clauses of comparisons, equalities, `distinct`, choices and divisions over
//! the numbers of a table, true under every interpretation. A log that makes them true, with bounds
//! that fit the values, gives the operator's value. A step is counted for each pair that a
//! `distinct` among them compares: never more than a `distinct` of so many terms compares, and where
//! the clauses come exactly those that they are over.
//!
//! The clauses between the bounds of a table that are on one sum or on its negation: each implies
//! the next, in the order of their thresholds.
//!
//! `put_all_axioms`: the clauses between neighbours, true everywhere; propagation over them gives
//! all that follows from one bound.
#![tactic(auto)]

mod axioms;
mod bound_axioms_laws;
mod bounds;
mod division;
mod error;
mod find;
mod gather;
mod laws;
mod links;
mod pairs;
mod parts;
mod ties;

pub use axioms::put_all_axioms;
pub use bound_axioms_laws::axioms_reach_all;
pub use error::PartError;
pub use laws::{
    choice_part_is_decided, division_part_is_decided, equality_part_is_decided, numbers_are_found,
    order_part_is_decided, pairs_are_counted, part_atoms_are_of_stack,
};
pub use parts::{Space, put_part};
