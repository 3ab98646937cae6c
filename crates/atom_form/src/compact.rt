//! Atoms of two kinds, with their hash: the truth of a term, and the equality of two.
//!
//! `Same(s, t)` and `Same(t, s)` are two atoms, as in the definition of a stack's atoms; so is
//! `Same(t, t)` one. Numbers of atoms are below 2^31, as literals pack them.
ghost use Rattle.std.specs.Prelude.{◌≡◌, ◌↔◌, IsTrue};
ghost use Rattle.atom_form.specs.Compact.{atom_hash};

use smt_meaning::TermId;
use term_store::mix;

/// An atom over the places of a list of terms, without a list of its own.
#[derive(Clone, Copy, PartialEq, Eq, Drop)]
pub enum CompactAtom {
    /// The value of a Bool term.
    Truth(TermId),
    /// The two terms have the same value. With the two exchanged it is another atom.
    Same(TermId, TermId),
}

pub(crate) fn is_same(a: CompactAtom, b: CompactAtom) -> bool
    ensures { IsTrue result ↔ (a ≡ b) }
{
    a == b
}

/// The hash of an atom.
#[tactic(auto, unfolding(crate::specs::Compact::atom_hash))]
pub(crate) fn hash_of(atom: CompactAtom) -> u32
    ensures { result ≡ atom_hash atom }
{
    let state = match atom {
        CompactAtom::Truth(place) => mix(1, place as u64),
        CompactAtom::Same(first, second) => mix(mix(2, first as u64), second as u64),
    };
    (state >> 32) as u32
}
