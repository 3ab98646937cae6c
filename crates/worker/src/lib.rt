//! The search of one worker over the first clauses of a stack, and what the worker shows where it
//! ends without an answer.
//!
//! A search goes from first clauses that force the clauses of the parts, with any theory that was
//! told nothing and shows how its atoms came, and any hook that is called between units. It ends
//! with tables that make every assertion true, that there is no model, a report, or the number of
//! the worker with which the hook stopped it.
//!
//! A worker has a number. Under a limit each keeps all clauses, and what it learns are units.
//! Without one nothing that is learnt is a unit. There workers but the first may forget long
//! clauses; they have room for 2^40 units and learnt clauses, and past it show a number that left
//! the range, or want of memory.
//!
//! `first_turn`, `run`: a worker's part in a race over the stack. Between any two units, and any two
//! clauses to be shared, it takes a turn: it looks once whether another has won, shares the next of
//! its short clauses at the depth of the stack, or none, and takes a batch, or none.
//!
//! So what it has shared are the first of its short clauses, in order. Of the clauses of others it
//! takes each whose atoms it has numbered, unless an atom stands there with both signs. It has an
//! answer exactly where it won; else it shows why it has none, or has read who won.
//!
//! A report shows as many units as the limit in force says, with the rows at which the theory
//! branched; or where a number left the range; or want of memory. To write units out takes memory,
//! and where it is wanting the report shows that. A report of want of memory takes none.
//!
//! A unit is an atom of the check that is none of the stack's and wasn't numbered before. Under a
//! limit a learnt clause is one too: it follows at the depth of the stack, and nothing before it
//! forces it, also no clause that was learnt.
//!
//! Under a limit so is a pivot, by Bland's rule in a row over atoms of the check, from the basis
//! that those before it left; and where no other unit is between, from the grid that the one before
//! it left, with bounds and variables that were taken in since.
//!
//! `out_of_memory`, `out_of_range`, `refused`: the reports of a worker that didn't come to search.
//! Where its atoms are refused the report shows the part or the pair of parts whose folding left
//! the range, and want of memory only where memory was wanting.
#![tactic(auto)]

mod decide;
mod ending;
mod export;
mod import;
mod limits;
mod outcome;
mod plain;
mod racer;
mod racing;
mod report;
mod shown;

pub use outcome::{Answer, Outcome};
pub use plain::nothing_leaves_range;
pub use racing::{first_turn, run};
pub use report::{out_of_memory, out_of_range, refused};
