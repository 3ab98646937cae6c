//! Truths and classes of a last check, by the places of terms.
ghost use Rattle.std.specs.Prelude.{◌≡◌, ◌+◌, ◌<◌, ◌^◌, ◌≤◌, ℕ, length, slice_index_or, IfOk};
ghost use Rattle.point_closure.specs.Unions.{root_of};
ghost use Rattle.congruence.specs.Recorded.{IsRecorded};
ghost use Rattle.theory_combine.specs.Ready.{IsAtLast};
ghost use Rattle.theory_combine.specs.Settling.{AreToldTruths, HasToldTruth};

use crate::parts::{Parts, Progress};
use crate::settled::truth_told;
use atom_form::CompactAtom;
use congruence::Congruence;
use smt_meaning::TermId;
use std::alloc::{AllocError, Global};

/// The truth value that a term is told to have; of one that is told none it is false.
fn truth_of(parts: &Parts<'_>, progress: &Progress, place: TermId) -> bool
    requires { IsAtLast parts.now progress.now }
    ensures { HasToldTruth progress.now.atoms.atoms progress.now.held.closure.log.items place result }
{
    progress.atoms.are_apart();
    match progress.atoms.find(CompactAtom::Truth(place)) {
        None => false,
        Some(number) => truth_told(&progress.held, number),
    }
}

/// The truth value that each term is told to have.
pub(crate) fn told_truths(parts: &Parts<'_>, progress: &Progress) -> Result<Vec<bool>, AllocError>
    requires { IsAtLast parts.now progress.now }
    ensures size { IfOk result (λ v. length v.items ≡ length parts.now.stack.now.trees) }
    ensures each { IfOk result (λ v. AreToldTruths progress.now.atoms.atoms progress.now.held.closure.log.items (length parts.now.stack.now.trees) v.items) }
{
    let mut truths = Vec::new(parts.alloc);
    for place in 0..parts.stack.terms().len() {
        truths.push(truth_of(parts, progress, place))?;
    }
    Ok(truths)
}

/// The number of the class of each term.
pub(crate) fn class_numbers(
    alloc: Global,
    congruence: &Congruence,
    count: u32,
) -> Result<Vec<u32>, AllocError>
    requires recorded { IsRecorded congruence.now }
    requires every { count + 2 ≤ length congruence.now.closure.graph }
    requires few { count + 2 < 2 ^ 32 }
    ensures size { IfOk result (λ v. length v.items ≡ count) }
    ensures each { IfOk result (λ v. (p : ℕ) → p < count → slice_index_or v.items p 0 ≡ root_of congruence.now.closure.classes.unions (p + 2)) }
{
    let mut classes = Vec::new(alloc);
    for place in 0..count {
        classes.push(congruence.closure.class_of(place + 2))?;
    }
    Ok(classes)
}
