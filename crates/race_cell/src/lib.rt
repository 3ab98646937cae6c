//! A race of passes over one shared shelf, none of which waits.
//!
//! `Race`: passes share, take batches and win. Each call tells what it adds to the pass's
//! knowledge: `Shared(p)` stands at p; a batch is exactly what stands from the pass's mark on and
//! follows from the levels on which the race began; `Busy` only by its one exchange; `Lost(w)`
//! exactly where its one exchange found w.
//!
//! `end` gives back the shelf: there is one history with each pass's shares, batches and win, each
//! once and in its own order, after all that the pass had seen, with one win at most and one end a
//! pass.
//!
//! As events (a clause is learnt from all assertions of its levels before it is shared) that
//! history is a race from the shelf at the start to the entries at the end.
#![tactic(auto)]

mod action;
mod answer;
mod calls;
mod finish;
mod laws;
mod race;
mod rule;
mod start;
mod steps;
mod view;

pub use action::Action;
pub use answer::{Batch, Raced, Sharing};
pub use laws::{fresh_are_in_order, winner_has_won};
pub use race::{Pass, Place, Race};
pub use view::{Claim, View};
