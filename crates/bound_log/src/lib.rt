//! Literals of a log, told to bounds on sums and taken back, and conflicts of these bounds as
//! clauses of the theory.
//!
//! `BoundLog`: the bounds told are exactly those that the literals say. A conflict is a clause that
//! is false in the log and true everywhere, as is what `whole_conflict` gives; where values meet all
//! bounds, they meet each bound that is told to hold, and where they are whole too, each literal on
//! a bound is true of them.
//!
//! `branch_line`, `grid`: the row of the least variable of a term whose value isn't whole, or the
//! whole grid: an identity of the sums that the values meet, where each bound is one that a known
//! atom or its complement says, and what isn't basic is 0 or such a number.
//!
//! `add_leaf`, `pending_grid`: a term alone gets a variable without bounds. Where making an atom
//! known, or telling a literal, was refused for the range, taking that bound in is the next step of
//! the grid and doesn't fit.
//!
//! `check`: values move by next steps of the grid until they meet all bounds told, or a clause that
//! the log breaks is found, or a step that leaves the range or is a pivot past the room. Where
//! lines are kept, one is added for each pivot: by Bland's rule, in a row over known atoms as
//! above; these pivots, with moves between them, lead from the grid before to the grid after.
//!
//! `bounds_are_of_log`, `log_is_taken_in`, `values_stay`: each bound of the grid is one that a
//! literal told says; what these say stands, or a tighter bound does; telling and taking back change
//! nothing of the grid but its bounds.
//!
//! `look`: what such a check finds that takes no step, so that nothing changes.
//!
//! `implied`: of an open atom, where it gives one, a clause that is true under every
//! interpretation, whose literals are false in the log but at most one, which is open; what is told,
//! the values and the rows stay.
//!
//! `spread`: numbers by term, moved as `sum_bounds` says. It promises nothing.
//!
//! Lemmas on whole numbers: the two clauses of a branch, and those that tie the equality of two
//! Ints to both bounds of their difference.
//!
//! `branch_lemmas`, `tie_lemmas`, `sides_are_open`: these are clauses of the theory; a branch of a
//! value that isn't whole is on no literal told.
#![tactic(auto)]

mod branches;
mod clause;
mod implied;
mod laws;
mod log;
mod plain;
mod report;
mod room;
mod said;
mod sides;
mod ties;
mod variables;

pub use branches::branch_lemmas;
pub use laws::{
    bounds_are_of_log, bounds_are_told, fractions_hold, log_is_taken_in, met_are_true,
    sums_are_apart, values_stay, wholes_hold,
};
pub use log::BoundLog;
pub use report::{Report, Reported};
pub use said::Said;
pub use sides::sides_are_open;
pub use ties::tie_lemmas;
