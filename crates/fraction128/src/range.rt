//! Operations on whole numbers whose results may leave the range.
#![tactic(auto)]

/// An operation on whole numbers.
#[derive(Clone, Copy, PartialEq, Eq, Debug)]
pub enum Op {
    /// The sum.
    Add,
    /// The difference.
    Sub,
    /// The product.
    Mul,
}

/// The operation whose result leaves the range, with its operands.
#[derive(Clone, Copy, PartialEq, Eq, Debug)]
pub struct Range {
    /// The operation.
    pub op: Op,
    /// Its left operand.
    pub a: i128,
    /// Its right operand.
    pub b: i128,
}
