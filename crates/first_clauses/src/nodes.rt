//! The clauses of the parts.
ghost use Rattle.std.specs.Prelude.{◌≡◌, ◌+◌, ◌<◌, ◌≤◌, ◌∷◌, true, List, length, All, Contains, OnOk, IfErr};
ghost use Rattle.clause_store.specs.Stored.{Kept};
ghost use Rattle.order_clauses.specs.Clauses.{part_clauses_of};
ghost use Rattle.order_clauses.specs.Counted.{distinct_pairs, pairs_of_part};
ghost use Rattle.smt_meaning.specs.declared.terms.Head.TheVariants.{Theory};
ghost use Rattle.smt_meaning.specs.Term.{Tree, tree_at};
ghost use Rattle.smt_meaning.specs.Stack.{signature_of};
ghost use Rattle.search_port.specs.Valid.{IsOf};
ghost use Rattle.linear_forms.specs.Table.{AreForms};
ghost use Rattle.bound_clauses.specs.Laws.{IsReadable};
ghost use Rattle.check_atoms.specs.Parts.{IsMarked};
ghost use Rattle.check_atoms.specs.OfStack.{IsNode, IsRefused};
ghost use Rattle.order_clauses.specs.Sound.{HasSort};
ghost use Rattle.order_clauses.specs.Errors.{IsPartCause};
ghost use Rattle.first_clauses.specs.PartClausesFirst.{IsBegun, HasClause};
ghost use Rattle.first_clauses.specs.CheckClausesFirst.{reading_of, AreReady, HasPart, HasPartAt, HasParts};
ghost use Rattle.first_clauses.specs.Counted.{pairs_of_tree, if_marked, parts_below, pairs_below, ComparesPairs, TakesSteps, TakesStepsBelow};

use crate::bools::{Space as BoolSpace, are_bools, keep_bools};
use crate::error::refusal_of;
use crate::keep_all;
use atom_form::AtomNumbers;
use check_atoms::{Refusal, is_asserted_distinct, lawful_parts_are_readable};
use clause_form::Clauses;
use clause_store::store::Store;
use linear_forms::LinearForms;
use order_clauses::{PartError, Space as PartSpace, put_part};
use scope_stack::Stack;
use smt_laws::flat_says_the_same;
use smt_meaning::{Head, Operator, Sort, TermId};
use std::alloc::Global;
use std::sync::ledger::Ledger;
use term_store::Steps;

/// Lists that are used again for each part.
#[derive(Drop)]
struct Space {
    bools: BoolSpace,
    parts: PartSpace,
    clauses: Clauses,
}

/// Keeps the clauses of a part that compares Ints or terms of a declared sort, chooses between such terms, or divides. A step is a pair that a `distinct` compares.
fn keep_compared<L: Ledger>(
    stack: &Stack,
    sorts: &[Sort],
    forms: &mut LinearForms,
    atoms: &AtomNumbers,
    space: &mut Space,
    store: &mut Store,
    place: TermId,
    operator: Operator,
    arguments: &[TermId],
    steps: &mut Steps<L>,
) -> Result<(), PartError>
    ghost trees: { List Tree }
    requires same_trees { trees ≡ stack.now.trees }
    requires declared { All (IsOf stack.now.trees stack.now.frames) atoms.now.atoms }
    requires forms { AreForms trees forms.old }
    requires node { IsNode trees place (Theory operator) arguments.now }
    requires size { length sorts.now ≡ length trees }
    requires sorted { All (HasSort (signature_of stack.now.frames) trees sorts.now) (place ∷ arguments.now) }
    requires readable { All (IsReadable trees) (place ∷ arguments.now) }
    requires begun { IsBegun (reading_of stack.now atoms.now.atoms) store.old }
    ensures begun { OnOk result (IsBegun (reading_of stack.now atoms.now.atoms) store.new) }
    ensures stay { (c : Kept) → Contains store.old.clauses c → Contains store.new.clauses c }
    ensures has { OnOk result (All (HasClause store.new.clauses) (part_clauses_of sorts.now trees atoms.now.atoms operator place arguments.now)) }
    ensures cause { IfErr result (λ e. IsPartCause sorts.now trees atoms.now.atoms operator place arguments.now e) }
    ensures same { forms.new ≡ forms.old }
    ensures rise { steps.old ≤ steps.new }
    ensures few { steps.new ≤ steps.old + distinct_pairs operator (length arguments.now) }
    ensures counted { OnOk result (steps.new ≡ steps.old + pairs_of_part sorts.now operator arguments.now) }
{
    flat_says_the_same();
    space.clauses.clear();
    put_part(
        &mut space.clauses,
        &mut space.parts,
        forms,
        atoms,
        sorts,
        place,
        operator,
        arguments,
        steps,
    )?;
    keep_all(store, &space.clauses)?;
    Ok(())
}

/// Keeps the clauses of a marked part with this operator, but none of a wide `distinct` that is an assertion.
fn keep_node<L: Ledger>(
    stack: &Stack,
    marks: &[bool],
    sorts: &[Sort],
    forms: &mut LinearForms,
    atoms: &AtomNumbers,
    space: &mut Space,
    store: &mut Store,
    place: TermId,
    operator: Operator,
    arguments: &[TermId],
    steps: &mut Steps<L>,
) -> Result<(), Refusal>
    requires ready { AreReady stack.now marks.now sorts.now atoms.now.atoms forms.old }
    requires marked { IsMarked marks.now place }
    requires node { IsNode stack.now.trees place (Theory operator) arguments.now }
    requires earlier { All (λ i. i < place) arguments.now }
    requires begun { IsBegun (reading_of stack.now atoms.now.atoms) store.old }
    ensures begun { OnOk result (IsBegun (reading_of stack.now atoms.now.atoms) store.new) }
    ensures stay { (c : Kept) → Contains store.old.clauses c → Contains store.new.clauses c }
    ensures has { OnOk result (HasPart stack.now sorts.now atoms.now.atoms store.new.clauses place operator arguments.now) }
    ensures err { IfErr result (IsRefused stack.now) }
    ensures same { forms.new ≡ forms.old }
    ensures rise { steps.old ≤ steps.new }
    ensures few { steps.new ≤ steps.old + distinct_pairs operator (length arguments.now) }
    ensures counted { OnOk result (ComparesPairs stack.now sorts.now place (Theory operator) arguments.now steps.old steps.new) }
{
    stack.laws();
    lawful_parts_are_readable();
    if are_bools(sorts, place, arguments) {
        keep_bools(
            stack,
            atoms,
            &mut space.bools,
            store,
            place,
            operator,
            arguments,
        )?;
        return Ok(());
    }
    if is_asserted_distinct(stack, sorts, place, Head::Theory(operator), arguments) {
        return Ok(());
    }
    match keep_compared(
        stack, sorts, forms, atoms, space, store, place, operator, arguments, steps,
    ) {
        Ok(()) => Ok(()),
        Err(error) => Err(refusal_of(place, error)),
    }
}

/// Keeps the clauses of the term at a place, if it is a part: one step, and one for each pair that a `distinct` compares.
fn keep_place<L: Ledger>(
    stack: &Stack,
    marks: &[bool],
    sorts: &[Sort],
    forms: &mut LinearForms,
    atoms: &AtomNumbers,
    space: &mut Space,
    store: &mut Store,
    place: TermId,
    steps: &mut Steps<L>,
) -> Result<(), Refusal>
    requires ready { AreReady stack.now marks.now sorts.now atoms.now.atoms forms.old }
    requires within { place < length stack.now.trees }
    requires begun { IsBegun (reading_of stack.now atoms.now.atoms) store.old }
    ensures begun { OnOk result (IsBegun (reading_of stack.now atoms.now.atoms) store.new) }
    ensures stay { (c : Kept) → Contains store.old.clauses c → Contains store.new.clauses c }
    ensures has { OnOk result (HasPartAt stack.now marks.now sorts.now atoms.now.atoms store.new.clauses place) }
    ensures err { IfErr result (IsRefused stack.now) }
    ensures same { forms.new ≡ forms.old }
    ensures rise { steps.old ≤ steps.new }
    ensures few { steps.new ≤ steps.old + if_marked marks.now place 1 + if_marked marks.now place (pairs_of_tree (tree_at stack.now.trees place)) }
    ensures counted { OnOk result (TakesSteps stack.now marks.now sorts.now place steps.old steps.new) }
{
    stack.laws();
    if !marks[place as usize] {
        return Ok(());
    }
    steps.tick();
    let node = stack.terms().node(place);
    match node.head {
        Head::Theory(operator) => keep_node(
            stack,
            marks,
            sorts,
            forms,
            atoms,
            space,
            store,
            place,
            operator,
            node.arguments,
            steps,
        ),
        Head::Numeral(_) => Ok(()),
        Head::Symbol(_) => Ok(()),
        Head::Place(_) => Ok(()),
    }
}

/// Keeps the clauses of all parts.
pub(crate) fn keep_parts<L: Ledger>(
    alloc: Global,
    stack: &Stack,
    marks: &[bool],
    sorts: &[Sort],
    forms: &mut LinearForms,
    atoms: &AtomNumbers,
    store: &mut Store,
    steps: &mut Steps<L>,
) -> Result<(), Refusal>
    requires ready { AreReady stack.now marks.now sorts.now atoms.now.atoms forms.old }
    requires begun { IsBegun (reading_of stack.now atoms.now.atoms) store.old }
    ensures begun { OnOk result (IsBegun (reading_of stack.now atoms.now.atoms) store.new) }
    ensures has { OnOk result (HasParts stack.now marks.now sorts.now atoms.now.atoms store.new.clauses) }
    ensures err { IfErr result (IsRefused stack.now) }
    ensures same { forms.new ≡ forms.old }
    ensures rise { steps.old ≤ steps.new }
    ensures few { steps.new ≤ steps.old + parts_below marks.now (length stack.now.trees) + pairs_below stack.now.trees marks.now (length stack.now.trees) }
    ensures counted { OnOk result (TakesStepsBelow stack.now marks.now sorts.now (length stack.now.trees) steps.old steps.new) }
{
    let mut space = Space {
        bools: BoolSpace::new(alloc),
        parts: PartSpace::new(alloc),
        clauses: Clauses::new(alloc),
    };
    for place in 0..stack.terms().len() {
        keep_place(
            stack, marks, sorts, forms, atoms, &mut space, store, place, steps,
        )?;
    }
    Ok(())
}
