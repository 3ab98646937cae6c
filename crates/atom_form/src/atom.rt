//! An atom of any kind, by the number that its own table gives it.
ghost use Rattle.std.specs.Prelude.{◌≡◌};
ghost use Rattle.atom_form.specs.AtomNumbers.{numbered_of};

use crate::{CompactAtom, SumBound};
use smt_meaning::TermId;

/// An atom that has a number. The sum of a bound is given by its number.
#[derive(Clone, Copy, PartialEq, Eq, Drop)]
pub enum NumberedAtom {
    /// The value of a Bool term.
    Truth(TermId),
    /// The two terms have the same value. With the two exchanged it is another atom.
    Same(TermId, TermId),
    /// A sum is at most a threshold.
    Bound(SumBound),
}

pub(crate) fn numbered(atom: CompactAtom) -> NumberedAtom
    ensures { result ≡ numbered_of atom }
{
    match atom {
        CompactAtom::Truth(place) => NumberedAtom::Truth(place),
        CompactAtom::Same(first, second) => NumberedAtom::Same(first, second),
    }
}
