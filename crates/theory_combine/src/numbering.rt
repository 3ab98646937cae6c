//! Atoms that get numbers during the search, each a unit of work.
ghost use Rattle.std.specs.Prelude.{◌≡◌, ◌+◌, ◌<◌, ◌≤◌, ◌∷◌, ◌++◌, [], length, take, Contains, IfErr, OnOk, OnErr, None};
ghost use Rattle.search_port.specs.Calls.{EndsBy};
ghost use Rattle.bound_log.specs.Atoms.{KnowsOneMore};
ghost use Rattle.bound_log.specs.Told.{column_sums};
ghost use Rattle.bound_log.specs.Columns.{AddsColumns};
ghost use Rattle.bound_log.specs.Growth.{GrowsVariables};
ghost use Rattle.theory_combine.specs.Columns.{HasKnownColumns};
ghost use Rattle.theory_combine.specs.Errors.{IsErrorAt, IsErrorOver};
ghost use Rattle.theory_combine.specs.Numbering.{atom_of, IsNew, IsProperAtom, IsWhole};
ghost use Rattle.theory_combine.specs.Progress.{state, IsUnderWay, Went};
ghost use Rattle.theory_combine.specs.Shown.{IsToShow};

use crate::errors::{BoundError, know_bound, know_other, seen_of};
use crate::held::Held;
use crate::parts::{Pair, Parts, Progress};
use atom_form::{AtomNumbers, CompactAtom};
use bound_log::{BoundLog, bounds_are_of_log, sums_are_apart};
use closure_log::what_was_told_stays;
use search_port::{Budget, Cause, Spent};
use smt_meaning::Summand;
use std::alloc::{AllocError, Global};

/// That a sum is at most a threshold.
#[derive(Drop)]
pub(crate) struct NewBound {
    pub(crate) sum: Vec<Summand>,
    pub(crate) threshold: i128,
}

/// An atom that is to get a number.
#[derive(Drop)]
pub(crate) enum NewAtom {
    Equality(Pair),
    Bound(NewBound),
}

/// Numbers an atom.
fn number(atoms: &mut AtomNumbers, atom: &NewAtom) -> Result<(), AllocError>
    requires new { Contains atoms.old.atoms (atom_of atom.now) → ⊥ }
    ensures ok { OnOk result (atoms.new.atoms ≡ atoms.old.atoms ++ atom_of atom.now ∷ []) }
    ensures err { OnErr result (atoms.new.atoms ≡ atoms.old.atoms) }
{
    match atom {
        NewAtom::Equality(pair) => {
            let _number = atoms.number(CompactAtom::Same(pair.left, pair.right))?;
            Ok(())
        }
        NewAtom::Bound(bound) => {
            let _number = atoms.number_bound(&bound.sum, bound.threshold)?;
            Ok(())
        }
    }
}

/// Makes what an atom says of sums known.
fn know(alloc: Global, bounds: &mut BoundLog, atom: &NewAtom) -> Result<(), BoundError>
    requires { IsProperAtom atom.now }
    ensures knows { OnOk result (KnowsOneMore bounds.old (atom_of atom.now) bounds.new) }
    ensures columns { AddsColumns bounds.old (atom_of atom.now) bounds.new }
    ensures variables { GrowsVariables bounds.old bounds.new }
    ensures log { bounds.new.log ≡ bounds.old.log }
    ensures err { IfErr result (IsErrorAt bounds.old bounds.new (atom_of atom.now)) }
{
    match atom {
        NewAtom::Equality(_) => know_other(bounds),
        NewAtom::Bound(bound) => know_bound(alloc, bounds, &bound.sum, bound.threshold),
    }
}

/// Numbers an atom, and makes it known to what is held. After an `Err` the atom may have a number without being known.
fn add(
    parts: &Parts<'_>,
    atoms: &mut AtomNumbers,
    held: &mut Held,
    atom: &NewAtom,
) -> Result<(), BoundError>
    requires whole { IsWhole parts.now.stack.now parts.now.marks.items atoms.old held.old }
    requires new { Contains atoms.old.atoms (atom_of atom.now) → ⊥ }
    requires of_stack { IsNew parts.now.stack.now parts.now.marks.items atom.now }
    ensures ok { OnOk result (atoms.new.atoms ≡ atoms.old.atoms ++ atom_of atom.now ∷ []) }
    ensures whole { OnOk result (IsWhole parts.now.stack.now parts.now.marks.items atoms.new held.new) }
    ensures front { take (length atoms.old.atoms) atoms.new.atoms ≡ atoms.old.atoms }
    ensures within { length atoms.old.atoms ≤ length atoms.new.atoms }
    ensures log { held.new.closure.log.items ≡ held.old.closure.log.items }
    ensures columns { HasKnownColumns parts.now.stack.now (atoms.old.atoms ++ atom_of atom.now ∷ []) held.new.bounds }
    ensures variables { GrowsVariables held.old.bounds held.new.bounds }
    ensures err { IfErr result (IsErrorOver (column_sums held.new.bounds) (atoms.old.atoms ++ atom_of atom.now ∷ [])) }
{
    what_was_told_stays();
    number(atoms, atom)?;
    know(parts.alloc, &mut held.bounds, atom)?;
    held.scan.grow(atoms.len())?;
    Ok(())
}

/// Numbers an atom, a unit of work. Where it can't be kept, for want of memory or where its bound leaves the range, nothing is told or numbered from then on.
pub(crate) fn number_new(
    parts: &Parts<'_>,
    progress: &mut Progress,
    budget: &mut Budget,
    atom: &NewAtom,
) -> Result<(), Cause>
    requires under_way { IsUnderWay parts.now progress.old }
    requires new { Contains progress.old.atoms.atoms (atom_of atom.now) → ⊥ }
    requires of_stack { IsNew parts.now.stack.now parts.now.marks.items atom.now }
    requires to_show { IsToShow parts.now.stack.now progress.old.branches (atom_of atom.now) }
    ensures went { Went parts.now progress.old progress.new budget.old budget.new }
    ensures kept { OnOk result (progress.new.stopped_at ≡ None) }
    ensures added { OnOk result (progress.new.atoms.atoms ≡ progress.old.atoms.atoms ++ atom_of atom.now ∷ []) }
    ensures spent { OnOk result (length budget.new.units ≡ length budget.old.units + 1) }
    ensures ended { IfErr result (λ e. EndsBy (state parts.now progress.new) budget.new e) }
{
    if budget.room() == 0 {
        return Err(Cause::Units);
    }
    let count = progress.atoms.len() as u32;
    let added = add(parts, &mut progress.atoms, &mut progress.held, atom);
    progress.held.bounds.facts();
    sums_are_apart();
    bounds_are_of_log();
    match added {
        Err(error) => {
            progress.seen = seen_of(error);
            progress.stopped_at = Some(count);
            Err(Cause::Memory)
        }
        Ok(()) => match budget.spend(Spent::Numbered(count)) {
            Ok(()) => Ok(()),
            Err(_) => {
                progress.stopped_at = Some(count);
                Err(Cause::Memory)
            }
        },
    }
}
