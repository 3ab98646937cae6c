//! Keeping axioms.
ghost use Rattle.std.specs.Prelude.{Contains, OnOk};
ghost use Rattle.clause_store.specs.Stored.{Kept};
ghost use Rattle.check_atoms.specs.OfStack.{AreCheckAtoms};
ghost use Rattle.first_clauses.specs.CheckClausesFirst.{IsFirst};
ghost use Rattle.first_clauses.specs.Kept.{HasAxioms};

use crate::{keep_all, more_force_parts};
use check_atoms::CheckAtoms;
use clause_form::Clauses;
use clause_store::store::Store;
use order_clauses::put_all_axioms;
use scope_stack::Stack;
use smt_laws::flat_says_the_same;
use std::alloc::{AllocError, Global};

/// Keeps the axioms of the bounds of the parts' atoms, at level 0: then propagation knows the order of the bounds on one sum and on its negation, without the theory.
/// They are true under every interpretation, so what is kept still follows, and it forces what it forced before.
pub fn keep_axioms(
    alloc: Global,
    stack: &Stack,
    parts: &CheckAtoms,
    store: &mut Store,
) -> Result<(), AllocError>
    requires atoms { AreCheckAtoms stack.now parts.now.marks.items parts.now.atoms.atoms }
    requires first { IsFirst stack.now parts.now.atoms.atoms store.old }
    ensures first { OnOk result (IsFirst stack.now parts.now.atoms.atoms store.new) }
    ensures stay { (c : Kept) → Contains store.old.clauses c → Contains store.new.clauses c }
    ensures has { OnOk result (HasAxioms parts.now.atoms.atoms store.new.clauses) }
{
    flat_says_the_same();
    more_force_parts();
    let mut axioms = Clauses::new(alloc);
    put_all_axioms(alloc, &mut axioms, &parts.atoms)?;
    keep_all(store, &axioms)
}
