//! The pool of clauses that the workers of a race share, with who shared them.
//!
//! `Pool`: a share stands at the end, or comes back: `Full` exactly at 65,536 entries, `Memory`
//! only where no room was made before. Cuts keep exactly the entries below, in order; `batch` gives
//! the entries from a mark on.
//!
//! Every entry follows at its level from the levels that the pool stands on, as these grow and are
//! cut.
#![tactic(auto)]

mod laws;
mod pool;

pub use laws::follows_from_nothing;
pub use pool::Pool;
