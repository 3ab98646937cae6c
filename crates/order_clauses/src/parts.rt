//! The clauses of parts.
ghost use Rattle.std.specs.Prelude.{◌≡◌, ◌+◌, ◌<◌, ◌≤◌, [], ◌∷◌, ◌++◌, List, length, true, flat_map, All, Contains, OnOk, IfErr};
ghost use Rattle.smt_meaning.specs.declared.terms.Head.TheVariants.{Theory};
ghost use Rattle.smt_meaning.specs.Declaration.{Declaration};
ghost use Rattle.smt_meaning.specs.Term.{Tree, node, tree_at};
ghost use Rattle.smt_meaning.specs.Nodes.{pick};
ghost use Rattle.linear_forms.specs.Table.{AreForms};
ghost use Rattle.bound_clauses.specs.Orders.{order_atoms};
ghost use Rattle.bound_clauses.specs.Laws.{IsReadable};
ghost use Rattle.order_clauses.specs.Pairs.{pair, pairs_of, orders_of_pair};
ghost use Rattle.order_clauses.specs.Clauses.{order_part, equality_part, choice_part, equality_clauses_of, choice_clauses_of, part_clauses_of};
ghost use Rattle.order_clauses.specs.Counted.{distinct_pairs, pairs_of_part};
ghost use Rattle.order_clauses.specs.Needed.{orders_tied, orders_of_equality, orders_of_choice, atoms_of_order, atoms_of_equality, atoms_of_choice, equality_atoms_of, choice_atoms_of, atoms_of_part};
ghost use Rattle.order_clauses.specs.Sound.{HasSort, AreSound};
ghost use Rattle.order_clauses.specs.Errors.{IsCause, IsPartCause};

use crate::bounds::put_bounds;
use crate::division::put_division;
use crate::error::PartError;
use crate::find::find_truth;
use crate::pairs::{Pair, add_pairs};
use crate::ties::{put_tie, put_ties};
use atom_form::AtomNumbers;
use bound_clauses::{
    Order, add_orders, constant_has_value, constant_is_over, equality_clauses_are_true,
    equality_is_over, order_clauses_are_true, order_is_over, put_order,
};
use clause_form::Clauses;
use equality_clauses::{
    Lists, choice_is_over, choice_is_tied, comparison_is_over, comparison_is_tied,
    interpretation_agrees, put_choice, put_comparison,
};
use linear_forms::LinearForms;
use pair_bounds::{Row, rows_are_atoms};
use smt_laws::{
    divisions_stand_by_places, limits_have_values, linear_form_has_value, rows_are_of_the_term,
    value_has_its_sort,
};
use smt_meaning::{Operator, Sort, Summand, TermId};
use std::alloc::Global;
use std::sync::ledger::Ledger;
use term_store::Steps;

/// Lists that are used again for each part.
#[derive(Drop)]
pub struct Space {
    orders: Vec<Order>,
    pairs: Vec<Pair>,
    numbers: Vec<u32>,
    rows: Vec<Row>,
    sum: Vec<Summand>,
    lists: Lists,
}

impl Space {
    /// Empty lists. It takes no memory.
    pub fn new(alloc: Global) -> Self {
        Space {
            orders: Vec::new(alloc),
            pairs: Vec::new(alloc),
            numbers: Vec::new(alloc),
            rows: Vec::new(alloc),
            sum: Vec::new(alloc),
            lists: Lists::new(alloc),
        }
    }
}

/// Adds the clauses of `<=`, `<`, `>=` or `>`.
fn put_order_part(
    clauses: &mut Clauses,
    space: &mut Space,
    forms: &mut LinearForms,
    atoms: &AtomNumbers,
    place: TermId,
    operator: Operator,
    arguments: &[TermId],
) -> Result<(), PartError>
    ghost trees: { List Tree }
    requires forms { AreForms trees forms.old }
    requires places { All (λ i. i < length trees) arguments.now }
    ensures put { OnOk result (clauses.new ≡ clauses.old ++ order_part trees atoms.now.atoms operator place arguments.now) }
    ensures has { OnOk result (All (Contains atoms.now.atoms) (atoms_of_order trees operator place arguments.now)) }
    ensures cause { IfErr result (λ e. IsCause trees atoms.now.atoms (order_atoms operator arguments.now) (atoms_of_order trees operator place arguments.now) e) }
    ensures same { forms.new ≡ forms.old }
{
    atoms.are_few();
    let number = find_truth(atoms, place)?;
    space.orders.clear();
    space.numbers.clear();
    add_orders(&mut space.orders, operator, arguments)?;
    put_bounds(
        clauses,
        forms,
        atoms,
        &mut space.sum,
        &mut space.numbers,
        &space.orders,
    )?;
    put_order(clauses, &mut space.lists, number, &space.numbers)?;
    Ok(())
}

/// Adds the clauses of `=` or `distinct` of terms that are no Bools.
fn put_equality_part<L: Ledger>(
    clauses: &mut Clauses,
    space: &mut Space,
    forms: &mut LinearForms,
    atoms: &AtomNumbers,
    are_ints: bool,
    place: TermId,
    operator: Operator,
    arguments: &[TermId],
    steps: &mut Steps<L>,
) -> Result<(), PartError>
    ghost trees: { List Tree }
    requires forms { AreForms trees forms.old }
    requires places { All (λ i. i < length trees) arguments.now }
    ensures put { OnOk result (clauses.new ≡ clauses.old ++ equality_part trees atoms.now.atoms are_ints operator place arguments.now) }
    ensures has { OnOk result (All (Contains atoms.now.atoms) (atoms_of_equality trees are_ints operator place arguments.now)) }
    ensures cause { IfErr result (λ e. IsCause trees atoms.now.atoms (flat_map (orders_tied are_ints) (pairs_of operator arguments.now)) (atoms_of_equality trees are_ints operator place arguments.now) e) }
    ensures same { forms.new ≡ forms.old }
    ensures rise { steps.old ≤ steps.new }
    ensures few { steps.new ≤ steps.old + distinct_pairs operator (length arguments.now) }
    ensures counted { OnOk result (steps.new ≡ steps.old + distinct_pairs operator (length arguments.now)) }
{
    atoms.are_few();
    let number = find_truth(atoms, place)?;
    space.pairs.clear();
    space.numbers.clear();
    add_pairs(&mut space.pairs, operator, arguments, steps)?;
    put_ties(
        clauses,
        forms,
        atoms,
        &mut space.sum,
        &mut space.numbers,
        are_ints,
        &space.pairs,
    )?;
    put_comparison(clauses, &mut space.lists, operator, number, &space.numbers)?;
    Ok(())
}

/// Adds the clauses of an `ite` that is an Int, with this condition and these branches.
fn put_choice_part(
    clauses: &mut Clauses,
    space: &mut Space,
    forms: &mut LinearForms,
    atoms: &AtomNumbers,
    place: TermId,
    condition: TermId,
    first: TermId,
    second: TermId,
) -> Result<(), PartError>
    ghost trees: { List Tree }
    requires forms { AreForms trees forms.old }
    requires place { place < length trees }
    requires first { first < length trees }
    requires second { second < length trees }
    ensures put { OnOk result (clauses.new ≡ clauses.old ++ choice_part trees atoms.now.atoms place condition first second) }
    ensures has { OnOk result (All (Contains atoms.now.atoms) (atoms_of_choice trees place condition first second)) }
    ensures cause { IfErr result (λ e. IsCause trees atoms.now.atoms (flat_map orders_of_pair (pair place first ∷ pair place second ∷ [])) (atoms_of_choice trees place condition first second) e) }
    ensures same { forms.new ≡ forms.old }
{
    let number = find_truth(atoms, condition)?;
    let with_first = Pair {
        left: place,
        right: first,
    };
    let with_second = Pair {
        left: place,
        right: second,
    };
    let first = put_tie(clauses, forms, atoms, &mut space.sum, true, with_first)?;
    let second = put_tie(clauses, forms, atoms, &mut space.sum, true, with_second)?;
    put_choice(clauses, number, first, second)?;
    Ok(())
}

/// Adds the clauses of `=` or `distinct`, unless it is of Bools, or of two terms of a declared sort.
fn put_equality_of<L: Ledger>(
    clauses: &mut Clauses,
    space: &mut Space,
    forms: &mut LinearForms,
    atoms: &AtomNumbers,
    sorts: &[Sort],
    place: TermId,
    operator: Operator,
    arguments: &[TermId],
    steps: &mut Steps<L>,
) -> Result<(), PartError>
    ghost trees: { List Tree }
    requires forms { AreForms trees forms.old }
    requires places { All (λ i. i < length trees) arguments.now }
    requires sorts { length sorts.now ≡ length trees }
    ensures put { OnOk result (clauses.new ≡ clauses.old ++ equality_clauses_of sorts.now trees atoms.now.atoms operator place arguments.now) }
    ensures has { OnOk result (All (Contains atoms.now.atoms) (equality_atoms_of sorts.now trees operator place arguments.now)) }
    ensures cause { IfErr result (λ e. IsCause trees atoms.now.atoms (orders_of_equality sorts.now operator arguments.now) (equality_atoms_of sorts.now trees operator place arguments.now) e) }
    ensures same { forms.new ≡ forms.old }
    ensures rise { steps.old ≤ steps.new }
    ensures few { steps.new ≤ steps.old + distinct_pairs operator (length arguments.now) }
    ensures counted { OnOk result (steps.new ≡ steps.old + pairs_of_part sorts.now operator arguments.now) }
{
    match arguments {
        [] => Ok(()),
        [first, ..] => match sorts[*first as usize] {
            Sort::Bool => Ok(()),
            Sort::Int => put_equality_part(
                clauses, space, forms, atoms, true, place, operator, arguments, steps,
            ),
            Sort::Free(_) if arguments.len() == 2 => Ok(()),
            Sort::Free(_) => put_equality_part(
                clauses, space, forms, atoms, false, place, operator, arguments, steps,
            ),
        },
    }
}

/// Adds the clauses of an `ite`, if it is an Int.
fn put_choice_of(
    clauses: &mut Clauses,
    space: &mut Space,
    forms: &mut LinearForms,
    atoms: &AtomNumbers,
    sorts: &[Sort],
    place: TermId,
    arguments: &[TermId],
) -> Result<(), PartError>
    ghost trees: { List Tree }
    requires forms { AreForms trees forms.old }
    requires place { place < length trees }
    requires places { All (λ i. i < length trees) arguments.now }
    requires sorts { length sorts.now ≡ length trees }
    ensures put { OnOk result (clauses.new ≡ clauses.old ++ choice_clauses_of sorts.now trees atoms.now.atoms place arguments.now) }
    ensures has { OnOk result (All (Contains atoms.now.atoms) (choice_atoms_of sorts.now trees place arguments.now)) }
    ensures cause { IfErr result (λ e. IsCause trees atoms.now.atoms (orders_of_choice sorts.now place arguments.now) (choice_atoms_of sorts.now trees place arguments.now) e) }
    ensures same { forms.new ≡ forms.old }
{
    match arguments {
        [condition, first, second] => match sorts[place as usize] {
            Sort::Int => put_choice_part(
                clauses, space, forms, atoms, place, *condition, *first, *second,
            ),
            Sort::Bool | Sort::Free(_) => Ok(()),
        },
        _ => Ok(()),
    }
}

/// Adds the clauses of a part.
fn put<L: Ledger>(
    clauses: &mut Clauses,
    space: &mut Space,
    forms: &mut LinearForms,
    atoms: &AtomNumbers,
    sorts: &[Sort],
    place: TermId,
    operator: Operator,
    arguments: &[TermId],
    steps: &mut Steps<L>,
) -> Result<(), PartError>
    ghost trees: { List Tree }
    requires forms { AreForms trees forms.old }
    requires place { place < length trees }
    requires places { All (λ i. i < length trees) arguments.now }
    requires sorts { length sorts.now ≡ length trees }
    ensures put { OnOk result (clauses.new ≡ clauses.old ++ part_clauses_of sorts.now trees atoms.now.atoms operator place arguments.now) }
    ensures has { OnOk result (All (Contains atoms.now.atoms) (atoms_of_part sorts.now trees operator place arguments.now)) }
    ensures cause { IfErr result (λ e. IsPartCause sorts.now trees atoms.now.atoms operator place arguments.now e) }
    ensures same { forms.new ≡ forms.old }
    ensures rise { steps.old ≤ steps.new }
    ensures few { steps.new ≤ steps.old + distinct_pairs operator (length arguments.now) }
    ensures counted { OnOk result (steps.new ≡ steps.old + pairs_of_part sorts.now operator arguments.now) }
{
    match operator {
        Operator::AtMost | Operator::Less | Operator::AtLeast | Operator::Greater => {
            put_order_part(clauses, space, forms, atoms, place, operator, arguments)
        }
        Operator::Equal | Operator::Distinct => put_equality_of(
            clauses, space, forms, atoms, sorts, place, operator, arguments, steps,
        ),
        Operator::Ite => put_choice_of(clauses, space, forms, atoms, sorts, place, arguments),
        Operator::Divide | Operator::Modulo | Operator::Absolute | Operator::Divisible => {
            put_division(
                clauses,
                &mut space.rows,
                &mut space.sum,
                forms,
                atoms,
                place,
                operator,
                arguments,
            )
        }
        _ => Ok(()),
    }
}

/// Adds the clauses of the term at a place, which has this operator and the terms at these places as its arguments: of a comparison of Ints, of `=` and
/// `distinct` of Ints, and of more than two terms of a declared sort, of `ite` of Ints, and of `div`, `mod`, `abs` and divisibility; of other terms none. They
/// are over the table's numbers. The forms of the terms are known, and so are their sorts, by place. `Missing` says that an atom that the clauses are over has
/// no number, `Term`, `Pair` and `Limit` that folding a bound of the part, or its divisor, leaves the range, and `Memory` that memory is wanting. An `Err` says nothing
/// of the clauses. A step is a pair that a `distinct` compares.
pub fn put_part<L: Ledger>(
    clauses: &mut Clauses,
    space: &mut Space,
    forms: &mut LinearForms,
    atoms: &AtomNumbers,
    sorts: &[Sort],
    place: TermId,
    operator: Operator,
    arguments: &[TermId],
    steps: &mut Steps<L>,
) -> Result<(), PartError>
    ghost trees: { List Tree }
    requires forms { AreForms trees forms.old }
    requires node { tree_at trees place ≡ node (Theory operator) (pick trees arguments.now) }
    requires place { place < length trees }
    requires places { All (λ i. i < length trees) arguments.now }
    requires sorts { length sorts.now ≡ length trees }
    ensures put { OnOk result (clauses.new ≡ clauses.old ++ part_clauses_of sorts.now trees atoms.now.atoms operator place arguments.now) }
    ensures numbered { OnOk result (All (Contains atoms.now.atoms) (atoms_of_part sorts.now trees operator place arguments.now)) }
    // Where the sorts are those of the terms, and the terms are linear, the clauses are true under every interpretation.
    ensures sound { (ds : List Declaration) → All (HasSort ds trees sorts.now) (place ∷ arguments.now) → All (IsReadable trees) (place ∷ arguments.now)
        → OnOk result (AreSound ds trees atoms.now.atoms (part_clauses_of sorts.now trees atoms.now.atoms operator place arguments.now)) }
    ensures cause { IfErr result (λ e. IsPartCause sorts.now trees atoms.now.atoms operator place arguments.now e) }
    ensures same { forms.new ≡ forms.old }
    ensures rise { steps.old ≤ steps.new }
    ensures few { steps.new ≤ steps.old + distinct_pairs operator (length arguments.now) }
    ensures counted { OnOk result (steps.new ≡ steps.old + pairs_of_part sorts.now operator arguments.now) }
{
    value_has_its_sort();
    constant_is_over();
    constant_has_value();
    order_is_over();
    order_clauses_are_true();
    equality_is_over();
    equality_clauses_are_true();
    comparison_is_over();
    comparison_is_tied();
    interpretation_agrees();
    choice_is_over();
    choice_is_tied();
    rows_are_atoms();
    rows_are_of_the_term();
    linear_form_has_value();
    limits_have_values();
    divisions_stand_by_places();
    put(
        clauses, space, forms, atoms, sorts, place, operator, arguments, steps,
    )
}
