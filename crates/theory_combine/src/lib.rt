//! The theory of equality and of whole numbers together, as a search asks it.
//!
//! `Combined`: the calls of `Theory` over what they keep. At the end it shows its branches, with which
//! each of its atoms is one of the check, and where a number left the range, if that ended the search.
//!
//! What is done at each call: literals are told to a closure of congruence and to bounds of sums,
//! atoms get numbers on the way, and a model of both is evaluated before it is given.
//!
//! `new`, `assert`, `undo_to`: each literal is told to the closure and to the bounds, and taken
//! back exactly. What either breaks is a clause that is true under every interpretation and false
//! in what was told, as is what a row shows of whole numbers before a branch.
//!
//! `propagate`, `final_check`: a new atom costs a unit: a bound below a value that isn't whole; the equality
//! of two Ints that two applications differ by, or that have one value where a wide `distinct` tells
//! them apart, after both bounds of the difference, to which clauses tie it. A bound of the empty sum comes with its truth value.
//!
//! Where the budget keeps lines, a pivot of the simplex method costs a unit too, which shows its
//! line. No more pivots are made than units may be spent, and a call that needs another ends with
//! all of them spent.
//!
//! These pivots hang together over the calls: each begins from the grid that the one right before it
//! left, with what the log says taken in and values moved, and the last one led on to the grid that
//! there is, whose bounds the log says. After a new atom the chain begins anew. Telling and taking
//! back change nothing of the grid but its bounds.
//!
//! Where two applications clash, the values are moved apart within all bounds, and tried once more.
//! A model is given only where, evaluated, it makes every literal told true.
//!
//! Where values that are whole and meet all bounds give none, exact values decide, in which each
//! operator holds: they are a model, or a clause is false, a pair of Ints gets its number, or a
//! number leaves the range. That memory is wanting only where an allocation fails is how it is
//! written; no clause says it.
//!
//! Of each branch, at a value that meets all that stands, the row is kept, so that each atom is one
//! of the check with the branches so far.
//!
//! `show`: where a number left the range, that is shown: in folding the difference of
//! two Int parts, in a step of the values or a bound that was to be taken in, told or numbered, in
//! an argument of an application at the leaves' values, or in a model whose evaluation leaves it.
#![tactic(auto)]

mod apart;
mod branch;
mod calls;
mod clashes;
mod constant;
mod cycles;
mod differences;
mod distincts;
mod errors;
mod held;
mod implied;
mod judge;
mod leaves;
mod listing;
mod model;
mod numbering;
mod pairs;
mod parts;
mod pivots;
mod settle;
mod settled;
mod showing;
mod start;
mod step;
mod theory;
mod unfit;
mod untrue;
mod values;
mod wanted;
mod xors;

pub use errors::BoundError;
pub use theory::Combined;
