//! What a place is given, and two applications that clash.
use smt_meaning::{TermId, Value};

/// What a place of a store is given.
#[derive(Clone, Copy, PartialEq, Eq, Drop)]
pub enum Given {
    /// The place isn't marked.
    Unmarked,
    /// The term has this value. A number is in the range.
    InRange(Value),
    /// The term is an Int, and its value is past the range.
    PastRange,
}

/// Two applications that no table gives what they are given.
#[derive(Clone, Copy, PartialEq, Eq, Drop)]
pub struct Clash {
    pub first: TermId,
    pub second: TermId,
}
