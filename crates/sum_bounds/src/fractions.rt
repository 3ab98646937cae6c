//! Terms whose values aren't whole.
ghost use Rattle.std.specs.Prelude.{◌≡◌, ◌≢◌, ℕ, ◌<◌, length, IfSome, IfNone};
ghost use Rattle.fraction128.specs.Grid.{leaf};
ghost use Rattle.fraction128.specs.Lines.{IsFloor};
ghost use Rattle.simplex_steps.specs.State.{column_in};
ghost use Rattle.sum_bounds.specs.Bounds.{IsFractional, IsFirstIn, AreWholeIn};

use fraction128::{Column, Fraction, Summand};
use simplex::Simplex;

/// A variable of a term whose value isn't whole, and the greatest whole number that is at most the value.
#[derive(Clone, Copy, Drop)]
pub struct FractionalLeaf {
    pub variable: u32,
    pub term: u32,
    pub value: Fraction,
    pub floor: i128,
}

/// The term that a sum is, where it is one alone.
pub(crate) fn term_of(sum: &[Summand]) -> Option<u32>
    ensures some { IfSome result (λ t. sum.now ≡ leaf t) }
    ensures none { IfNone result ((t : ℕ) → sum.now ≢ leaf t) }
{
    if sum.len() != 1 {
        return None;
    }
    let summand = sum[0];
    if summand.coefficient == 1 {
        Some(summand.term)
    } else {
        None
    }
}

/// A variable with its term and its value, where it stands for a term and the value isn't whole.
fn fractional(variable: u32, column: &Column) -> Option<FractionalLeaf>
    ensures some { IfSome result (λ f. (f.variable ≡ variable) × IsFractional column.now f) }
    ensures none { IfNone result ((t : ℕ) → column.now.sum ≡ leaf t → column.now.value.denominator ≡ 1) }
{
    let term = term_of(column.sum.as_slice())?;
    let value = column.value;
    if value.is_whole() {
        return None;
    }
    Some(FractionalLeaf {
        variable,
        term,
        value,
        floor: value.floor(),
    })
}

/// The least variable of a term whose value isn't whole.
pub(crate) fn first_fraction(simplex: &Simplex, count: u32) -> Option<FractionalLeaf>
    requires { count ≡ length simplex.now.columns }
    ensures some { IfSome result (IsFirstIn simplex.now.columns) }
    ensures none { IfNone result (AreWholeIn simplex.now.columns) }
{
    for variable in 0..count {
        if let Some(found) = fractional(variable, simplex.column(variable)) {
            return Some(found);
        }
    }
    None
}
