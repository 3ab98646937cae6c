//! The clauses, in a store.
ghost use Rattle.std.specs.Prelude.{◌≡◌, ℕ, ◌+◌, ◌<◌, ◌≤◌, length, All, Contains, IfOk, IfErr, OnOk};
ghost use Rattle.clause_store.specs.Stored.{Kept};
ghost use Rattle.smt_meaning.specs.declared.clauses.Atom.TheVariants.{Truth};
ghost use Rattle.smt_meaning.specs.Term.{tree_at};
ghost use Rattle.smt_meaning.specs.Stack.{assertions_of};
ghost use Rattle.search_port.specs.Valid.{IsOf};
ghost use Rattle.first_clauses.specs.PartClausesFirst.{IsAsserted, IsBegun};
ghost use Rattle.first_clauses.specs.CheckClausesFirst.{reading_of, AreReady, GivesFirst};
ghost use Rattle.first_clauses.specs.Counted.{parts_below, pairs_below, AreBelow, TakesStepsBelow};

use crate::keep;
use crate::laws::kept_parts_are_forced;
use crate::nodes::keep_parts;
use crate::triangles::keep_triangles;
use atom_form::{AtomNumbers, CompactAtom};
use check_atoms::{CheckAtoms, Refusal};
use clause_store::store::Store;
use literals::Literal;
use scope_stack::{Assertion, Stack};
use smt_laws::flat_says_the_same;
use smt_meaning::{Sort, TermId};
use std::alloc::{AllocError, Global};
use std::marker::Brand;
use std::sync::ledger::{Blank, Ledger};
use term_store::Steps;

/// Keeps the clause that a term is true that is asserted.
fn keep_assertion(
    stack: &Stack,
    atoms: &AtomNumbers,
    store: &mut Store,
    term: TermId,
) -> Result<(), AllocError>
    requires declared { All (IsOf stack.now.trees stack.now.frames) atoms.now.atoms }
    requires numbered { Contains atoms.now.atoms (Truth term) }
    requires asserted { Contains (assertions_of stack.now.frames) (tree_at stack.now.trees term) }
    requires begun { IsBegun (reading_of stack.now atoms.now.atoms) store.old }
    ensures begun { OnOk result (IsBegun (reading_of stack.now atoms.now.atoms) store.new) }
    ensures stay { (c : Kept) → Contains store.old.clauses c → Contains store.new.clauses c }
    ensures has { OnOk result (IsAsserted stack.now.trees atoms.now.atoms store.new.clauses (tree_at stack.now.trees term)) }
{
    flat_says_the_same();
    atoms.are_few();
    let Some(number) = atoms.find(CompactAtom::Truth(term)) else {
        unreachable!()
    };
    keep(store, &[Literal::new(number, true)])
}

/// Keeps the clauses that the assertions are true.
fn keep_assertions(
    stack: &Stack,
    assertions: &[Assertion],
    atoms: &AtomNumbers,
    store: &mut Store,
) -> Result<(), AllocError>
    requires declared { All (IsOf stack.now.trees stack.now.frames) atoms.now.atoms }
    requires numbered { All (λ (a : _). Contains atoms.now.atoms (Truth a.term)) assertions.now }
    requires asserted { All (λ (a : _). Contains (assertions_of stack.now.frames) (tree_at stack.now.trees a.term)) assertions.now }
    requires begun { IsBegun (reading_of stack.now atoms.now.atoms) store.old }
    ensures begun { OnOk result (IsBegun (reading_of stack.now atoms.now.atoms) store.new) }
    ensures stay { (c : Kept) → Contains store.old.clauses c → Contains store.new.clauses c }
    ensures has { OnOk result (All (λ (a : _). IsAsserted stack.now.trees atoms.now.atoms store.new.clauses (tree_at stack.now.trees a.term)) assertions.now) }
{
    for assertion in assertions {
        keep_assertion(stack, atoms, store, assertion.term)?;
    }
    Ok(())
}

/// `check_clauses`, with a step for each part of the assertions and one for each pair that a `distinct` among them compares: never more than these, and where the parts
/// have numbers up to `id`, never more than `id + 1` and the pairs. Where the clauses come, there is exactly one for each part and for each pair that they are over.
pub fn check_clauses_counted<L: Ledger>(
    alloc: Global,
    stack: &Stack,
    sorts: &[Sort],
    parts: &mut CheckAtoms,
    steps: &mut Steps<L>,
) -> Result<Store, Refusal>
    requires { AreReady stack.now parts.old.marks.items sorts.now parts.old.atoms.atoms parts.old.forms }
    ensures gives { GivesFirst stack.now sorts.now parts.old parts.new result }
    ensures rise { steps.old ≤ steps.new }
    ensures few { steps.new ≤ steps.old + parts_below parts.old.marks.items (length stack.now.trees) + pairs_below stack.now.trees parts.old.marks.items (length stack.now.trees) }
    ensures below { (n : ℕ) → AreBelow parts.old.marks.items n → steps.new ≤ steps.old + n + pairs_below stack.now.trees parts.old.marks.items (length stack.now.trees) }
    ensures counted { OnOk result (TakesStepsBelow stack.now parts.old.marks.items sorts.now (length stack.now.trees) steps.old steps.new) }
{
    stack.laws();
    kept_parts_are_forced();
    let mut store = Store::new(alloc);
    store.reserve(parts.atoms.len() as u32)?;
    keep_triangles(stack, &parts.atoms, &parts.triangles, &mut store)?;
    keep_parts(
        alloc,
        stack,
        &parts.marks,
        sorts,
        &mut parts.forms,
        &parts.atoms,
        &mut store,
        steps,
    )?;
    keep_assertions(stack, stack.assertions(), &parts.atoms, &mut store)?;
    Ok(store)
}

/// The clauses that a search begins with, their steps counted from 0.
fn check_clauses_from<L: Ledger>(
    alloc: Global,
    stack: &Stack,
    sorts: &[Sort],
    parts: &mut CheckAtoms,
    blank: Blank,
) -> Result<Store, Refusal>
    requires name { blank.name ≡ L.name }
    requires blank_parts { blank.parts ≡ L.parts }
    requires some { 0 < blank.parts }
    requires ready { AreReady stack.now parts.old.marks.items sorts.now parts.old.atoms.atoms parts.old.forms }
    ensures { GivesFirst stack.now sorts.now parts.old parts.new result }
{
    check_clauses_counted(alloc, stack, sorts, parts, &mut Steps::<L>::new(blank))
}

/// The clauses that a search begins with, at level 0: of each part that is a node of Bools those of its operator over their truths, of each other part those that tie
/// it to what it compares or chooses, but of a wide `distinct` that is an assertion, of terms that are no Bools, none, and for each assertion the clause that it is true. They force the clauses of each part. Of each triangle that is one, two
/// equalities give the third, and where there is one, of each diamond what it says. An `Err` says that memory is wanting, or of which part folding a bound or the divisor leaves the range. The atoms and the forms stay as they are.
pub fn check_clauses(
    alloc: Global,
    stack: &Stack,
    sorts: &[Sort],
    parts: &mut CheckAtoms,
) -> Result<Store, Refusal>
    requires { AreReady stack.now parts.old.marks.items sorts.now parts.old.atoms.atoms parts.old.forms }
    ensures { GivesFirst stack.now sorts.now parts.old parts.new result }
{
    check_clauses_from::<Brand>(alloc, stack, sorts, parts, Blank::new(1))
}
