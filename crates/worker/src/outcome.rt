//! What a worker's part in a race comes to.
use smt_meaning::{Interp, Report};

/// What is found of the assertions of a stack.
#[derive(Drop)]
pub enum Answer {
    /// They have this model.
    Sat(Interp),
    /// They have none.
    Unsat,
}

/// How a worker's part in a race ends.
#[derive(Drop)]
pub enum Outcome {
    /// It has won, with this answer.
    Answer(Answer),
    /// It has none, and shows why.
    Report(Report),
    /// The worker with this number has won.
    Cancelled(u8),
}
