//! Why the atoms of a stack can't be numbered.
use bound_clauses::Order;
use smt_meaning::TermId;
use std::alloc::AllocError;

/// Why the atoms of a stack aren't numbered.
#[derive(Clone, Copy, PartialEq, Eq)]
pub enum Refusal {
    /// Folding the term at this place leaves the range.
    Term(TermId),
    /// The part at this place compares two terms, whose foldings stay in the range; folding the bound that says this order of them doesn't.
    Pair(TermId, Order),
    /// The part at this place is a division of terms whose foldings stay in the range; folding a limit of its rows doesn't, or its divisor isn't in the range.
    Limit(TermId),
    /// Memory is wanting, as where there are more than 2^31 atoms.
    Memory,
}

impl From<AllocError> for Refusal {
    ghost use Rattle.std.specs.Prelude.{◌≡◌};
    ghost use Rattle.check_atoms.specs.declared.refusal.Refusal.TheVariants.{Memory};

    ghost from_gives = { λ _ e. e ≡ Memory };

    fn from(_: AllocError) -> Refusal {
        Refusal::Memory
    }
}
