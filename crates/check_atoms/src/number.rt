//! The numbers of atoms of parts.
ghost use Rattle.std.specs.Prelude.{◌≡◌, ℕ, ◌<◌, [], ◌∷◌, length, map, List, All, OnOk, IfOk, IfErr, ◌⊎◌};
ghost use Rattle.smt_meaning.specs.Term.{Tree};
ghost use Rattle.smt_meaning.specs.declared.clauses.Atom.{Atom};
ghost use Rattle.atom_form.specs.Compact.{atom_of as core_atom};
ghost use Rattle.linear_forms.specs.Table.{AreForms};
ghost use Rattle.linear_forms.specs.Differences.{KnowsForms, Refuses};
ghost use Rattle.pair_bounds.specs.Pairs.{IsBound};
ghost use Rattle.pair_bounds.specs.Rows.{IsRowLimit, RefusesLimit};
ghost use Rattle.bound_clauses.specs.Orders.{bound_atom};
ghost use Rattle.check_atoms.specs.declared.refusal.Refusal.TheVariants.{Memory};
ghost use Rattle.check_atoms.specs.PartAtoms.{atom_of};
ghost use Rattle.check_atoms.specs.Numbering.{Adds, fits_by, RefusesOrder, RefusesRow, RefusesOne, IsWithin};

use crate::part::PartAtom;
use crate::refusal::Refusal;
use atom_form::{AtomNumbers, CompactAtom};
use bound_clauses::{Order, Sense};
use linear_forms::{DifferenceError, LinearForms};
use pair_bounds::{RowLimit, at_most, below, row_bound};
use smt_meaning::{Summand, TermId};

/// Numbers a truth or an equality.
fn number_core(atoms: &mut AtomNumbers, atom: CompactAtom) -> Result<(), Refusal>
    ensures ok { (count : ℕ) → OnOk result (Adds count atoms.old.atoms (core_atom atom ∷ []) atoms.new.atoms) }
    ensures err { IfErr result (λ e. e ≡ Memory) }
{
    let _number = atoms.number(atom)?;
    Ok(())
}

/// The bound that says an order: its threshold, and in the list its sum.
fn bound_of(
    forms: &mut LinearForms,
    order: Order,
    sum: &mut Vec<Summand>,
) -> Result<i128, DifferenceError>
    requires lesser { order.lesser < length forms.old }
    requires greater { order.greater < length forms.old }
    requires known { KnowsForms forms.old }
    ensures ok { (trees : List Tree) → AreForms trees forms.old → IfOk result (λ k. IsBound trees (bound_atom trees order) sum.new.items k) }
    ensures err { (trees : List Tree) → AreForms trees forms.old → IfErr result (λ e. Refuses trees (fits_by order.sense trees) order.lesser order.greater e) }
    ensures same { forms.new ≡ forms.old }
{
    match order.sense {
        Sense::NotAbove => at_most(forms, order.lesser, order.greater, sum),
        Sense::Below => below(forms, order.lesser, order.greater, sum),
    }
}

fn refusal_of(error: DifferenceError, part: TermId, order: Order) -> Refusal
    ensures { (trees : List Tree) → Refuses trees (fits_by order.sense trees) order.lesser order.greater error → (result ≡ Memory) ⊎ RefusesOrder trees part order result }
{
    match error {
        DifferenceError::Term(place) => Refusal::Term(place),
        DifferenceError::Pair => Refusal::Pair(part, order),
        DifferenceError::Memory => Refusal::Memory,
    }
}

fn refusal_of_limit(error: DifferenceError, part: TermId, limit: RowLimit) -> Refusal
    ensures { (trees : List Tree) → RefusesLimit trees limit error → (result ≡ Memory) ⊎ RefusesRow trees part limit result }
{
    match error {
        DifferenceError::Term(place) => Refusal::Term(place),
        DifferenceError::Pair => Refusal::Limit(part),
        DifferenceError::Memory => Refusal::Memory,
    }
}

/// Numbers a bound with this sum and threshold.
fn number_bound(atoms: &mut AtomNumbers, sum: &[Summand], threshold: i128) -> Result<(), Refusal>
    ensures ok { (trees : List Tree) (atom : Atom) → IsBound trees atom sum.now threshold → OnOk result (Adds (length trees) atoms.old.atoms (atom ∷ []) atoms.new.atoms) }
    ensures err { IfErr result (λ e. e ≡ Memory) }
{
    let _number = atoms.number_bound(sum, threshold)?;
    Ok(())
}

/// Numbers an atom of a part.
fn number_atom(
    forms: &mut LinearForms,
    atoms: &mut AtomNumbers,
    sum: &mut Vec<Summand>,
    part: TermId,
    atom: PartAtom,
) -> Result<(), Refusal>
    requires within { IsWithin (length forms.old) atom }
    requires known { KnowsForms forms.old }
    ensures ok { (trees : List Tree) → AreForms trees forms.old → OnOk result (Adds (length trees) atoms.old.atoms (atom_of trees atom ∷ []) atoms.new.atoms) }
    ensures err { (trees : List Tree) → AreForms trees forms.old → IfErr result (λ e. RefusesOne trees part (atom ∷ []) e) }
    ensures same { forms.new ≡ forms.old }
{
    match atom {
        PartAtom::Truth(place) => number_core(atoms, CompactAtom::Truth(place)),
        PartAtom::Same(left, right) => number_core(atoms, CompactAtom::Same(left, right)),
        PartAtom::Bound(order) => match bound_of(forms, order, sum) {
            Ok(threshold) => number_bound(atoms, sum, threshold),
            Err(error) => Err(refusal_of(error, part, order)),
        },
        PartAtom::Limit(limit) => match row_bound(forms, limit, sum) {
            Ok(threshold) => number_bound(atoms, sum, threshold),
            Err(error) => Err(refusal_of_limit(error, part, limit)),
        },
    }
}

/// Numbers atoms of a part.
pub(crate) fn number_all(
    forms: &mut LinearForms,
    atoms: &mut AtomNumbers,
    sum: &mut Vec<Summand>,
    part: TermId,
    wanted: &[PartAtom],
) -> Result<(), Refusal>
    requires within { All (IsWithin (length forms.old)) wanted.now }
    requires known { KnowsForms forms.old }
    ensures ok { (trees : List Tree) → AreForms trees forms.old → OnOk result (Adds (length trees) atoms.old.atoms (map (atom_of trees) wanted.now) atoms.new.atoms) }
    ensures err { (trees : List Tree) → AreForms trees forms.old → IfErr result (λ e. RefusesOne trees part wanted.now e) }
    ensures same { forms.new ≡ forms.old }
{
    for atom in wanted {
        number_atom(forms, atoms, sum, part, *atom)?;
    }
    Ok(())
}
