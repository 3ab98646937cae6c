//! Differences between numbers as edges of a graph, with numbers that meet them, or a cycle that no
//! numbers meet (Cotton and Maler, SAT 2006). It guides a search.
//!
//! `DifferenceGraph`: the edges taken are exactly those that `assert` took, in order, less those
//! that `undo_to` took back; an edge that isn't taken changes nothing, and the tags of the cycle
//! that it closes are its own and those of edges taken.
//!
//! That the numbers meet the edges, and that the cycle's weights sum to less than 0, is not proved.
//!
//! Literals that bound differences, round a cycle whose weights sum to less than 0: not all of them
//! hold, which gives a clause.
//!
//! `told_literals`, `broken`, `implied`: each literal says that one term is at most so much above
//! another, or above 0. A clause is given only where they come round to less than 0, by sums that
//! are checked to stay in the range.
//!
//! It is true under every interpretation, and a conflict of each state that was told all of them,
//! or, with one literal open, a clause by which that literal follows.
#![tactic(auto)]

mod candidates;
mod clause;
mod cycle;
mod difference;
mod edge;
mod graph;
mod nodes;
mod queue;
mod reach;
mod reading;
mod repair;
mod way;

pub use clause::{broken, implied, told_literals};
pub use difference::Difference;
pub use edge::Edge;
pub use graph::{Asserted, DifferenceGraph, ImpliedEdge};
pub use reading::difference_of;
