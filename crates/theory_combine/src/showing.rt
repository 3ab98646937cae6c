//! What a search shows at its end, and its atoms written out.
ghost use Rattle.std.specs.Prelude.{◌≡◌, ◌<◌, length, IfOk};
ghost use Rattle.search_port.specs.State.{atom_at};
ghost use Rattle.search_port.specs.Showing.{IsShowing};
ghost use Rattle.theory_combine.specs.Progress.{full_state, state, IsProgress};

use crate::parts::{Parts, Progress};
use atom_form::{AtomNumbers, NumberedAtom};
use search_port::Showing;
use smt_meaning::{Atom, Seq, Summand};
use std::alloc::{AllocError, Global};

fn copied(alloc: Global, sum: &[Summand]) -> Result<Seq<Summand>, AllocError>
    ensures { IfOk result (λ s. s ≡ sum.now) }
{
    let summands = Vec::from_slice(alloc, sum)?;
    Ok(Seq::from_vec(summands))
}

/// The atom of a number, written out. An `Err` is for want of memory.
fn write_atom(alloc: Global, atoms: &AtomNumbers, number: u32) -> Result<Atom, AllocError>
    requires { number < length atoms.now.atoms }
    ensures { IfOk result (λ a. a ≡ atom_at atoms.now.atoms number) }
{
    match atoms.atom(number) {
        NumberedAtom::Truth(place) => Ok(Atom::Truth(place)),
        NumberedAtom::Same(first, second) => Ok(Atom::Same(first, second)),
        NumberedAtom::Bound(bound) => {
            let sum = copied(alloc, atoms.sum(bound.sum))?;
            Ok(Atom::AtMost(sum, bound.threshold))
        }
    }
}

/// The atom of a number that is told of, written out. An `Err` is for want of memory.
pub(crate) fn written(
    alloc: Global,
    parts: &Parts<'_>,
    progress: &Progress,
    number: u32,
) -> Result<Atom, AllocError>
    requires progress { IsProgress parts.now progress.now }
    requires numbered { number < length (state parts.now progress.now).reading.table }
    ensures { IfOk result (λ a. a ≡ atom_at (state parts.now progress.now).reading.table number) }
{
    write_atom(alloc, &progress.atoms, number)
}

/// The branches, with which the atoms are those of a check, and where a number left the range.
pub(crate) fn show(parts: &Parts<'_>, progress: Progress) -> Showing
    requires { IsProgress parts.now progress }
    ensures { IsShowing (full_state parts.now progress) result }
{
    progress.atoms.are_apart();
    Showing {
        branches: progress.branches,
        seen: progress.seen,
    }
}
