//! Why a name isn't found or a declaration isn't added.
use std::alloc::AllocError;

/// Why a name may not be declared.
#[derive(Clone, Copy, PartialEq, Eq, Debug, Drop)]
pub enum NameError {
    /// It belongs to a theory.
    Reserved,
    /// A function, or a sort, has this name.
    AlreadyDeclared,
}

/// Why a declaration isn't added.
#[derive(Clone, Copy, PartialEq, Eq, Debug, Drop)]
pub enum AddError {
    /// There is no id left.
    TooManySymbols,
    /// Memory is wanting.
    Memory,
}

impl From<AllocError> for AddError {
    ghost use Rattle.std.specs.Prelude.{◌≡◌};
    ghost use Rattle.smt_sorts.specs.declared.errors.AddError.TheVariants.{Memory};

    ghost from_gives = { λ _ e. e ≡ Memory };

    fn from(_: AllocError) -> AddError {
        AddError::Memory
    }
}
