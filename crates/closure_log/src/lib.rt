//! Literals of a log told to a closure of congruence, with what they say of the terms of a stack,
//! and what is broken or follows.
//!
//! `ClosureLog`, `Scan`, `infer`: literals told in order, over atoms of all kinds, with what they
//! say of terms; conflicts, clauses by which open literals follow, undoing. All stays so while more
//! atoms get numbers.
//!
//! Parts that have no first clauses: a `xor` of more than three Bools, whose clauses would be 2^n, and
//! a wide `distinct` that is an assertion, whose pairs would be n^2.
//!
//! `pressing`, `Watches`: of a part of whose terms all are told but at most one the clause that is
//! found is true under every interpretation: the open term's truth follows, or the clause is false.
//!
//! `wide_xors`, `broken`: all such parts of a stack; a conflict where the truths told of one and of
//! its arguments aren't what `xor` makes of them. Where there is none, each has its operator's value.
//!
//! `asserted_distincts`, `distinct_arguments`, `broken_distinct`, `equal_distinct`: all assertions that
//! are a wide `distinct`, and what they tell apart; a conflict where one is told to be true of which a
//! closure says that two arguments are equal. Where there is none, the closure keeps them apart.
//!
//! `whole_closure`: for a last check, a closure in which all is recorded that a log says of terms,
//! with all equalities that follow and none that the log denies, or a clause that is false.
//!
//! `sameness_is_by_class`, `pairs_fit_classes`, `comparisons_are_by_class`, `distincts_are_by_class`,
//! `choices_are_by_class`, `applications_are_by_class`, `bools_are_by_class`: where the value of each element is its class in
//! such a closure, the log's equalities hold of the values, each `=`, `distinct` and `ite` of elements
//! has its operator's value, and equal applications have one value.
#![tactic(auto)]

ghost use Rattle.closure_log.specs.Laws.{StaysTold};

mod by_class;
mod choices;
mod clause;
mod distinct;
mod implied;
mod laws;
mod list;
mod odd_laws;
mod read;
mod said;
mod scan;
mod told;
mod whole;

pub use by_class::{
    applications_are_by_class, bools_are_by_class, choices_are_by_class, comparisons_are_by_class,
    distincts_are_by_class, pairs_fit_classes, sameness_is_by_class,
};
pub use clause::{broken, pressing};
pub use distinct::{asserted_distincts, broken_distinct, distinct_arguments, equal_distinct};
pub use implied::{infer, inferred, keep};
pub use laws::what_was_told_stays;
pub use list::{Watches, wide_xors};
pub use odd_laws::odd_clause_is_true;
pub use said::Guide;
pub use scan::{Scan, is_open, told_of};
pub use told::ClosureLog;
pub use whole::{Closed, whole_closure};
