//! Pairs that wait to be joined, and the marks to which a closure is cut back.
use crate::Reason;

/// Two points that are to be in one class.
#[derive(Clone, Copy, Drop)]
pub(crate) struct Pending {
    pub(crate) left: u32,
    pub(crate) right: u32,
    pub(crate) reason: Reason,
}

/// How much stood before a step.
#[derive(Clone, Copy, Drop)]
pub(crate) struct Mark {
    pub(crate) unions: usize,
    pub(crate) filed: usize,
    pub(crate) uses: usize,
    pub(crate) watches: usize,
    pub(crate) pairs: usize,
    pub(crate) met: usize,
}
