//! The axioms of all bounds.
ghost use Rattle.std.specs.Prelude.{OnOk};
ghost use Rattle.order_clauses.specs.Axioms.{BoundsFit, AddsAxioms};

use crate::gather::gather;
use crate::links::{put_links, sort};
use atom_form::{AtomNumbers, SumTable};
use clause_form::Clauses;
use std::alloc::{AllocError, Global};

/// Adds the clauses between the bounds of a table that are on one sum or on its negation, where the sum isn't empty: in the order of what they say that the sum is
/// at most, each implies the next, and of two that say the same each implies the other. They are true under every interpretation. An `Err`, for want of memory, says
/// nothing of the clauses.
pub fn put_all_axioms(
    alloc: Global,
    clauses: &mut Clauses,
    atoms: &AtomNumbers,
) -> Result<(), AllocError>
    requires { BoundsFit atoms.now.atoms }
    ensures { OnOk result (AddsAxioms atoms.now.atoms clauses.old clauses.new) }
{
    let mut sums = SumTable::new(alloc);
    let mut links = Vec::new(alloc);
    gather(alloc, &mut sums, &mut links, atoms)?;
    sort(&mut links);
    sums.are_apart();
    atoms.are_few();
    put_links(clauses, &links)
}
