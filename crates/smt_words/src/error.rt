//! Why words give no settings.
ghost use Rattle.std.specs.Prelude.{◌≡◌};

use clap::error::ErrorKind;
use std::alloc::AllocError;

/// Why words give no settings.
#[derive(Clone, Copy, PartialEq, Eq, Debug, Drop)]
pub enum WordsError {
    /// They aren't words of the program.
    Refused,
    /// Memory is wanting.
    Memory,
}

impl From<AllocError> for WordsError {
    ghost use Rattle.std.specs.Prelude.{◌≡◌};
    ghost use Rattle.smt_words.specs.declared.error.WordsError.TheVariants.{Memory};

    ghost from_gives = { λ _ e. e ≡ Memory };

    fn from(_: AllocError) -> WordsError {
        WordsError::Memory
    }
}

impl From<clap::Error> for WordsError {
    ghost use Rattle.std.specs.Prelude.{◌≡◌};
    ghost use Rattle.clap.specs.Words.{kind_of};
    ghost use Rattle.smt_words.specs.Causes.{cause_of};

    ghost from_gives = { λ error e. e ≡ cause_of (kind_of error) };

    fn from(error: clap::Error) -> WordsError {
        match error.kind() {
            ErrorKind::OutOfMemory => WordsError::Memory,
            _ => WordsError::Refused,
        }
    }
}
