//! What a step comes to.

/// What a step comes to.
#[derive(Clone, Copy, PartialEq, Eq, Debug, Drop)]
pub enum Verdict {
    /// It is by its rule, and its clause is kept.
    Good,
    /// It isn't by its rule.
    Wrong,
    /// A number leaves the range.
    Range,
}
