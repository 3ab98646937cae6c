//! Decides checks by a race of workers, each in a thread of its own.
//!
//! `check`: as many workers as the settings say, over one pool of the clauses that they share. Each
//! takes its first turn, numbers the atoms of the stack, forms its first clauses and searches by the
//! theory of equality and whole numbers.
//!
//! An answer is `sat` with tables that make every assertion true, with each number in the range, or
//! `unsat` where the empty clause follows.
//!
//! Else comes a report of each worker, in their order: where folding left the range while the atoms
//! were numbered, or the row of a first atom did, what the search shows where it ended, or that
//! memory is wanting.
//!
//! Without a limit of units and without an Int it is want of memory alone. Without a limit, where
//! each Int leaf has a box and the atoms are fewer than 2^40, no worker shows spent units.
//!
//! What it does, beside its clauses: the first that has an answer wins, no worker is stopped by
//! another one where there is no answer, and nothing races where nothing is declared or asserted.
//!
//! `By`: the decider whose checks a closure makes, since only that can know of threads and the gate.
#![tactic(auto)]

mod decider;
mod drive;
mod job;
mod race;
mod tally;

pub use decider::By;
pub use race::check;
