//! What is found of an s-expression in the place of a proof.

/// What is found of an s-expression that stands in the place of a proof.
#[derive(Clone, Copy, PartialEq, Eq, Debug, Drop)]
pub enum Found {
    /// Each term and each step is by its rule, no number left the range, and the last clause is empty.
    Yes,
    /// The term of this number is the first that isn't by its rule.
    Node(u64),
    /// The step of this number is the first that isn't by its rule, or there are so many steps, and the last clause isn't empty or there is none.
    No(u64),
    /// In the step of this number, before any fault, a number leaves the range.
    Range(u64),
    /// It isn't two lists.
    NoProof,
}
