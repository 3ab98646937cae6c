//! What comes of a command that works on the stack.
use smt_meaning::{Refusal, SExpr, Sort, TermId};
use std::alloc::{AllocError, AllocFailed};

/// A command that isn't refused.
#[derive(Clone, Copy, PartialEq, Eq, Drop)]
pub enum Carried {
    /// It is carried out.
    Done,
    /// It is left out, and nothing changes.
    Unsupported,
}

/// Why a command isn't carried out.
#[derive(Drop)]
pub enum StackError {
    /// It is judged to be refused.
    Refused(Refusal),
    /// Memory is wanting.
    Memory,
}

impl From<AllocError> for StackError {
    ghost use Rattle.std.specs.Prelude.{◌≡◌};
    ghost use Rattle.scope_stack.specs.declared.answers.StackError.TheVariants.{Memory};

    ghost from_gives = { λ _ e. e ≡ Memory };

    fn from(_: AllocError) -> StackError {
        StackError::Memory
    }
}

impl<T: Drop> From<AllocFailed<T>> for StackError {
    ghost use Rattle.std.specs.Prelude.{◌≡◌};
    ghost use Rattle.scope_stack.specs.declared.answers.StackError.TheVariants.{Memory};

    ghost from_gives = { λ _ e. e ≡ Memory };

    fn from(_: AllocFailed<T>) -> StackError {
        StackError::Memory
    }
}

/// A term that is asserted: as it is written, and the place of its tree.
#[derive(Drop)]
pub struct Assertion {
    pub text: SExpr,
    pub term: TermId,
}

/// A term whose value is asked for: the place of its tree, and its sort.
#[derive(Clone, Copy, PartialEq, Eq, Drop)]
pub struct Asked {
    pub term: TermId,
    pub sort: Sort,
}
