//! Why clauses can't be put.
use bound_clauses::Order;
use linear_forms::DifferenceError;
use smt_meaning::TermId;
use std::alloc::{AllocError, AllocFailed};

/// Why the clauses of a part can't be put.
#[derive(Clone, Copy, PartialEq, Eq, Drop)]
pub enum PartError {
    /// An atom of the clauses has no number.
    Missing,
    /// Folding one of two terms that are compared, or of the terms of a division, leaves the range, and it does so at the part at this place.
    Term(TermId),
    /// Folding the bound that says this order leaves the range, and folding each of its two terms doesn't.
    Pair(Order),
    /// Folding a limit of the rows of a division leaves the range, and folding its terms doesn't; or its divisor isn't in the range.
    Limit,
    /// Memory is wanting.
    Memory,
}

impl From<AllocError> for PartError {
    ghost use Rattle.std.specs.Prelude.{◌≡◌};
    ghost use Rattle.order_clauses.specs.declared.error.PartError.TheVariants.{Memory};

    ghost from_gives = { λ _ e. e ≡ Memory };

    fn from(_: AllocError) -> PartError {
        PartError::Memory
    }
}

impl<T: Drop> From<AllocFailed<T>> for PartError {
    ghost use Rattle.std.specs.Prelude.{◌≡◌};
    ghost use Rattle.order_clauses.specs.declared.error.PartError.TheVariants.{Memory};

    ghost from_gives = { λ _ e. e ≡ Memory };

    fn from(_: AllocFailed<T>) -> PartError {
        PartError::Memory
    }
}

impl From<DifferenceError> for PartError {
    ghost use Rattle.std.specs.Prelude.{◌≡◌};
    ghost use Rattle.order_clauses.specs.Errors.{passed_on};

    ghost from_gives = { λ e f. f ≡ passed_on e };

    fn from(error: DifferenceError) -> PartError {
        match error {
            DifferenceError::Term(part) => PartError::Term(part),
            DifferenceError::Pair => PartError::Limit,
            DifferenceError::Memory => PartError::Memory,
        }
    }
}
