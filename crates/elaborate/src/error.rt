//! Why a term isn't judged to the end: it is refused, or memory is wanting.
use smt_meaning::Refusal;
use std::alloc::{AllocError, AllocFailed};
use term_store::InternError;

/// Why no term comes out.
#[derive(Drop)]
pub enum JudgeError {
    /// The term is refused.
    Refused(Refusal),
    /// Memory is wanting, or as many terms are stored as there may be.
    Memory,
}

impl From<AllocError> for JudgeError {
    ghost use Rattle.std.specs.Prelude.{◌≡◌};
    ghost use Rattle.elaborate.specs.declared.error.JudgeError.TheVariants.{Memory};

    ghost from_gives = { λ _ e. e ≡ Memory };

    fn from(_: AllocError) -> JudgeError {
        JudgeError::Memory
    }
}

impl<T: Drop> From<AllocFailed<T>> for JudgeError {
    ghost use Rattle.std.specs.Prelude.{◌≡◌};
    ghost use Rattle.elaborate.specs.declared.error.JudgeError.TheVariants.{Memory};

    ghost from_gives = { λ _ e. e ≡ Memory };

    fn from(_: AllocFailed<T>) -> JudgeError {
        JudgeError::Memory
    }
}

impl From<InternError> for JudgeError {
    ghost use Rattle.std.specs.Prelude.{◌≡◌};
    ghost use Rattle.elaborate.specs.declared.error.JudgeError.TheVariants.{Memory};

    ghost from_gives = { λ _ e. e ≡ Memory };

    fn from(_: InternError) -> JudgeError {
        JudgeError::Memory
    }
}
