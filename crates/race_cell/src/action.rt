//! What stands in the history of a race.
use smt_meaning::Clause;

/// What a worker does in a race. The number is the worker's.
#[derive(Drop)]
pub enum Action {
    /// It shares a clause.
    Share(u8, Clause),
    /// It takes the entries from its mark on.
    TakeBatch(u8),
    /// It has the answer, as the first.
    Win(u8),
    /// It stops.
    End(u8),
}
