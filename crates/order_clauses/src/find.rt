//! The numbers of atoms.
ghost use Rattle.std.specs.Prelude.{◌≡◌, Contains, IfOk, IfErr};
ghost use Rattle.smt_meaning.specs.declared.clauses.Atom.TheVariants.{Truth, AtMost};
ghost use Rattle.atom_form.specs.Compact.{atom_of};
ghost use Rattle.order_clauses.specs.Pairs.{same_atom};
ghost use Rattle.order_clauses.specs.Numbers.{IsNumberOf};

use crate::error::PartError;
use crate::pairs::Pair;
use atom_form::{AtomNumbers, CompactAtom};
use smt_meaning::{Summand, TermId};

/// The number of an atom that is no bound, or `Missing`.
fn find(atoms: &AtomNumbers, atom: CompactAtom) -> Result<u32, PartError>
    ensures found { IfOk result (IsNumberOf atoms.now.atoms (atom_of atom)) }
    ensures err { IfErr result (λ e. (e ≡ PartError.Missing) × (Contains atoms.now.atoms (atom_of atom) → ⊥)) }
{
    atoms.are_few();
    atoms.are_apart();
    match atoms.find(atom) {
        Some(number) => Ok(number),
        None => Err(PartError::Missing),
    }
}

/// The number of the truth of a term, or `Missing`.
pub(crate) fn find_truth(atoms: &AtomNumbers, place: TermId) -> Result<u32, PartError>
    ensures found { IfOk result (IsNumberOf atoms.now.atoms (Truth place)) }
    ensures err { IfErr result (λ e. (e ≡ PartError.Missing) × (Contains atoms.now.atoms (Truth place) → ⊥)) }
{
    find(atoms, CompactAtom::Truth(place))
}

/// The number of the equality of two terms, or `Missing`.
pub(crate) fn find_same(atoms: &AtomNumbers, pair: Pair) -> Result<u32, PartError>
    ensures found { IfOk result (IsNumberOf atoms.now.atoms (same_atom pair)) }
    ensures err { IfErr result (λ e. (e ≡ PartError.Missing) × (Contains atoms.now.atoms (same_atom pair) → ⊥)) }
{
    find(atoms, CompactAtom::Same(pair.left, pair.right))
}

/// The number of the bound that a sum is at most a threshold, or `Missing`.
pub(crate) fn find_bound(
    atoms: &AtomNumbers,
    sum: &[Summand],
    threshold: i128,
) -> Result<u32, PartError>
    ensures found { IfOk result (IsNumberOf atoms.now.atoms (AtMost sum.now threshold)) }
    ensures err { IfErr result (λ e. (e ≡ PartError.Missing) × (Contains atoms.now.atoms (AtMost sum.now threshold) → ⊥)) }
{
    atoms.are_few();
    atoms.are_apart();
    match atoms.find_bound(sum, threshold) {
        Some(number) => Ok(number),
        None => Err(PartError::Missing),
    }
}
