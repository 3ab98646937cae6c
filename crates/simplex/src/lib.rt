//! The general simplex method: variables with bounds that are set and taken back, and values that
//! are moved until they meet them (Dutertre and de Moura, CAV 2006).
//!
//! `Simplex`: variables for terms and for their sums, bounds that are set and taken back exactly,
//! and `check` as in `simplex_steps`, whose conflict is told by tags. Values stay where bounds come
//! and go; of lines, and of what isn't basic, it says as much as that.
//!
//! `look`: how such a check ends that takes no step; none where the next step is a move.
//!
//! `BoundTrail`: bounds in the order in which they were set, with tags; the tightest of a variable
//! on a side; the newest is taken back.
//!
//! `sums_stay`: the solutions of the rows are exactly the valuations that give each variable the
//! value of its sum; new leaves, new rows and next steps keep that.
#![tactic(auto)]

ghost use Rattle.simplex.specs.Sums.{NoneMean, LeavesKeep, RowsKeep, RunsKeep, MeantAreFree};

mod grid;
mod state;
mod trail;

pub use simplex_steps::{Outcome, PivotLines};
pub use state::{Answer, Simplex, Verdict};
pub use trail::{BoundTrail, Held, Set};

/// The solutions of rows are exactly the valuations that give each column its sum's value: of no column, after a column for a term, after a row for a sum, and after any run of steps.
pub fn sums_stay()
    ensures none { NoneMean }
    ensures leaves { LeavesKeep }
    ensures rows { RowsKeep }
    ensures runs { RunsKeep }
{}

/// Where a tableau's columns stand for sums of terms, those that aren't basic are independent.
pub fn meant_are_free()
    ensures { MeantAreFree }
{}
