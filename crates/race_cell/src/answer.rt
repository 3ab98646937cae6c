//! What a pass's calls answer.
use race_model::Entry;
use smt_meaning::Clause;

/// What became of a clause that a pass shared. It comes back where it doesn't stand among the entries.
#[derive(Drop)]
pub enum Sharing {
    /// It stands at this place.
    Shared(u64),
    /// Another pass had the shelf at that moment.
    Busy(Clause),
    /// There are as many entries as there may be.
    Full(Clause),
    /// There was no memory.
    Memory(Clause),
}

/// What a pass took.
#[derive(Drop)]
pub enum Batch {
    /// The entries from its mark on.
    Batch(Vec<Entry>),
    /// Another pass had the shelf at that moment.
    Busy,
    /// There was no memory; the mark stays.
    Memory,
}

/// Whether a pass has won.
#[derive(Drop, Clone, Copy)]
pub enum Raced {
    Won,
    /// This worker has.
    Lost(u8),
}
