//! Nodes of Bools.
ghost use Rattle.std.specs.Prelude.{◌≡◌, ◌<◌, length, true, false, All, Contains, OnOk, ◌∷◌, Some};
ghost use Rattle.clause_store.specs.Stored.{Kept};
ghost use Rattle.smt_meaning.specs.declared.values.Sort.TheVariants.{Bool as Truths};
ghost use Rattle.smt_meaning.specs.declared.clauses.Atom.TheVariants.{Truth};
ghost use Rattle.smt_meaning.specs.declared.terms.Head.TheVariants.{Theory};
ghost use Rattle.smt_meaning.specs.Signature.{tree_sort};
ghost use Rattle.smt_meaning.specs.Stack.{signature_of};
ghost use Rattle.smt_meaning.specs.Term.{tree_at};
ghost use Rattle.term_store.specs.Terms.{tree_with};
ghost use Rattle.search_port.specs.State.{truth_atoms};
ghost use Rattle.search_port.specs.Valid.{IsOf};
ghost use Rattle.order_clauses.specs.Clauses.{sort_at};
ghost use Rattle.first_clauses.specs.PartClausesFirst.{IsBegun};
ghost use Rattle.first_clauses.specs.Numbers.{AreNumbers};
ghost use Rattle.first_clauses.specs.CheckClausesFirst.{reading_of, AreBools, HasTruths};

use crate::turn::keep_all_turned;
use atom_form::{AtomNumbers, CompactAtom};
use clause_form::{Clauses, Room, node_clauses_hold, put_node};
use clause_store::store::Store;
use literals::Literal;
use scope_stack::Stack;
use smt_laws::{flat_says_the_same, value_has_its_sort};
use smt_meaning::{Operator, Sort, TermId};
use std::alloc::{AllocError, Global};

/// Lists that are used again for each node.
#[derive(Drop)]
pub(crate) struct Space {
    numbers: Vec<u32>,
    clauses: Clauses,
    turned: Vec<Literal>,
    room: Room,
}

impl Space {
    pub(crate) fn new(alloc: Global) -> Self {
        Space {
            numbers: Vec::new(alloc),
            clauses: Clauses::new(alloc),
            turned: Vec::new(alloc),
            room: Room::new(alloc),
        }
    }
}

/// Whether the term at this place is a Bool.
fn is_bool(sorts: &[Sort], place: TermId) -> bool
    requires { place < length sorts.now }
    ensures yes { result ≡ true → sort_at sorts.now place ≡ Truths }
    ensures no { result ≡ false → sort_at sorts.now place ≡ Truths → ⊥ }
{
    match sorts[place as usize] {
        Sort::Bool => true,
        Sort::Int => false,
        Sort::Free(_) => false,
    }
}

/// Whether the terms at these places are Bools.
fn all_are_bools(sorts: &[Sort], places: &[TermId]) -> bool
    requires { All (λ i. i < length sorts.now) places.now }
    ensures yes { result ≡ true → AreBools sorts.now places.now }
    ensures no { result ≡ false → AreBools sorts.now places.now → ⊥ }
{
    for place in places {
        if !is_bool(sorts, *place) {
            return false;
        }
    }
    true
}

/// Whether a term and its arguments are Bools.
pub(crate) fn are_bools(sorts: &[Sort], place: TermId, arguments: &[TermId]) -> bool
    requires place { place < length sorts.now }
    requires arguments { All (λ i. i < length sorts.now) arguments.now }
    ensures yes { result ≡ true → AreBools sorts.now (place ∷ arguments.now) }
    ensures no { result ≡ false → AreBools sorts.now (place ∷ arguments.now) → ⊥ }
{
    if !is_bool(sorts, place) {
        return false;
    }
    all_are_bools(sorts, arguments)
}

/// The numbers of the truths of these terms.
fn truth_numbers(
    atoms: &AtomNumbers,
    places: &[TermId],
    numbers: &mut Vec<u32>,
) -> Result<(), AllocError>
    requires { All (λ p. Contains atoms.now.atoms (Truth p)) places.now }
    ensures { OnOk result (AreNumbers atoms.now.atoms (truth_atoms places.now) numbers.new.items) }
{
    numbers.clear();
    for place in places {
        let Some(number) = atoms.find(CompactAtom::Truth(*place)) else {
            unreachable!()
        };
        numbers.push(number)?;
    }
    Ok(())
}

/// Keeps the clauses of a node of Bools, over the numbers of their truths.
pub(crate) fn keep_bools(
    stack: &Stack,
    atoms: &AtomNumbers,
    space: &mut Space,
    store: &mut Store,
    place: TermId,
    operator: Operator,
    arguments: &[TermId],
) -> Result<(), AllocError>
    requires declared { All (IsOf stack.now.trees stack.now.frames) atoms.now.atoms }
    requires numbered { All (λ p. Contains atoms.now.atoms (Truth p)) (place ∷ arguments.now) }
    requires sorted { All (λ p. tree_sort (signature_of stack.now.frames) (tree_at stack.now.trees p) ≡ Some Truths) arguments.now }
    requires node { tree_at stack.now.trees place ≡ tree_with stack.now.trees (Theory operator) arguments.now }
    requires earlier { All (λ i. i < place) arguments.now }
    requires begun { IsBegun (reading_of stack.now atoms.now.atoms) store.old }
    ensures begun { OnOk result (IsBegun (reading_of stack.now atoms.now.atoms) store.new) }
    ensures stay { (c : Kept) → Contains store.old.clauses c → Contains store.new.clauses c }
    ensures has { OnOk result (HasTruths stack.now.trees atoms.now.atoms store.new.clauses place operator arguments.now) }
{
    node_clauses_hold();
    value_has_its_sort();
    flat_says_the_same();
    atoms.are_few();
    let Some(number) = atoms.find(CompactAtom::Truth(place)) else {
        unreachable!()
    };
    truth_numbers(atoms, arguments, &mut space.numbers)?;
    space.clauses.clear();
    put_node(
        &mut space.clauses,
        &mut space.room,
        operator,
        number,
        &space.numbers,
    )?;
    keep_all_turned(stack, atoms, store, &space.clauses, &mut space.turned)
}
