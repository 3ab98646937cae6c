//! Which atoms a part has.
ghost use Rattle.std.specs.Prelude.{◌≡◌, ◌<◌, ◌++◌, length, map, flat_map, All, Some, OnOk};
ghost use Rattle.fraction128.specs.Whole.{InRange};
ghost use Rattle.smt_meaning.specs.declared.values.Sort.TheVariants.{Int as Ints};
ghost use Rattle.bound_clauses.specs.declared.orders.Sense.TheVariants.{NotAbove};
ghost use Rattle.bound_clauses.specs.Orders.{order_atoms};
ghost use Rattle.pair_bounds.specs.Rows.{limits};
ghost use Rattle.check_atoms.specs.declared.part.PartAtom.TheVariants.{Bound as BoundAtom, Limit as LimitAtom};
ghost use Rattle.check_atoms.specs.PartAtoms.{sort_in, truth_by_sort, by_sort, pair, alone, neighbours_from, first_with, each_two, of_equal, of_distinct, with_branches, of_rows, compared, of_part, wanted_of};

use bound_clauses::{Order, Sense, add_orders};
use pair_bounds::{Row, RowLimit, add_rows};
use smt_meaning::{Head, Operator, Sort, TermId};
use std::alloc::{AllocError, Global};

/// An atom of a part.
#[derive(Clone, Copy, PartialEq, Eq)]
pub enum PartAtom {
    /// The value of a Bool term.
    Truth(TermId),
    /// The two terms have the same value.
    Same(TermId, TermId),
    /// The bound that says an order of two Int terms.
    Bound(Order),
    /// The bound of a limit of a division.
    Limit(RowLimit),
}

/// Lists that are used again for each part.
#[derive(Drop)]
pub(crate) struct Compared {
    orders: Vec<Order>,
    rows: Vec<Row>,
}

impl Compared {
    pub(crate) fn new(alloc: Global) -> Self {
        Compared {
            orders: Vec::new(alloc),
            rows: Vec::new(alloc),
        }
    }
}

fn not_above(lesser: TermId, greater: TermId) -> PartAtom
    ensures { result ≡ BoundAtom (record { sense = NotAbove; lesser = lesser; greater = greater }) }
{
    PartAtom::Bound(Order {
        sense: Sense::NotAbove,
        lesser,
        greater,
    })
}

/// Adds the truth of a term, if it is a Bool.
fn add_truth(atoms: &mut Vec<PartAtom>, sorts: &[Sort], place: TermId) -> Result<(), AllocError>
    requires { place < length sorts.now }
    ensures { OnOk result (atoms.new.items ≡ atoms.old.items ++ truth_by_sort (sort_in sorts.now place) place) }
{
    match sorts[place as usize] {
        Sort::Bool => {
            atoms.push(PartAtom::Truth(place))?;
            Ok(())
        }
        Sort::Int => Ok(()),
        Sort::Free(_) => Ok(()),
    }
}

/// Adds the equality of two terms and both bounds of their difference.
fn add_integers(atoms: &mut Vec<PartAtom>, left: TermId, right: TermId) -> Result<(), AllocError>
    ensures { OnOk result (atoms.new.items ≡ atoms.old.items ++ by_sort (Some Ints) left right) }
{
    atoms.push(PartAtom::Same(left, right))?;
    atoms.push(not_above(left, right))?;
    atoms.push(not_above(right, left))?;
    Ok(())
}

/// Adds the atoms that compare two terms, by the sort of the first.
fn add_pair(
    atoms: &mut Vec<PartAtom>,
    sorts: &[Sort],
    left: TermId,
    right: TermId,
) -> Result<(), AllocError>
    requires { left < length sorts.now }
    ensures { OnOk result (atoms.new.items ≡ atoms.old.items ++ pair (sort_in sorts.now) left right) }
{
    match sorts[left as usize] {
        Sort::Bool => Ok(()),
        Sort::Int => add_integers(atoms, left, right),
        Sort::Free(_) => {
            atoms.push(PartAtom::Same(left, right))?;
            Ok(())
        }
    }
}

/// Adds the atoms of two terms that are compared alone, or of an `ite` and a branch, by the sort of the first: of Ints alone.
fn add_alone(
    atoms: &mut Vec<PartAtom>,
    sorts: &[Sort],
    left: TermId,
    right: TermId,
) -> Result<(), AllocError>
    requires { left < length sorts.now }
    ensures { OnOk result (atoms.new.items ≡ atoms.old.items ++ alone (sort_in sorts.now) left right) }
{
    match sorts[left as usize] {
        Sort::Int => add_integers(atoms, left, right),
        Sort::Bool | Sort::Free(_) => Ok(()),
    }
}

/// Adds the atoms of each place and the next.
fn add_neighbours(
    atoms: &mut Vec<PartAtom>,
    sorts: &[Sort],
    first: TermId,
    others: &[TermId],
) -> Result<(), AllocError>
    requires first { first < length sorts.now }
    requires others { All (λ i. i < length sorts.now) others.now }
    ensures { OnOk result (atoms.new.items ≡ atoms.old.items ++ neighbours_from (sort_in sorts.now) first others.now) }
{
    let mut before = first;
    for place in others {
        add_pair(atoms, sorts, before, *place)?;
        before = *place;
    }
    Ok(())
}

/// Adds the atoms of a place with each of the others.
fn add_first(
    atoms: &mut Vec<PartAtom>,
    sorts: &[Sort],
    first: TermId,
    others: &[TermId],
) -> Result<(), AllocError>
    requires { first < length sorts.now }
    ensures { OnOk result (atoms.new.items ≡ atoms.old.items ++ first_with (sort_in sorts.now) first others.now) }
{
    for place in others {
        add_pair(atoms, sorts, first, *place)?;
    }
    Ok(())
}

/// Adds the atoms of each two.
fn add_each_two(
    atoms: &mut Vec<PartAtom>,
    sorts: &[Sort],
    places: &[TermId],
) -> Result<(), AllocError>
    requires { All (λ i. i < length sorts.now) places.now }
    ensures { OnOk result (atoms.new.items ≡ atoms.old.items ++ each_two (sort_in sorts.now) places.now) }
{
    for at in 0..places.len() {
        add_first(atoms, sorts, places[at], &places[at + 1..])?;
    }
    Ok(())
}

/// Adds the atoms of an `ite` with each branch.
fn add_branches(
    atoms: &mut Vec<PartAtom>,
    sorts: &[Sort],
    place: TermId,
    arguments: &[TermId],
) -> Result<(), AllocError>
    requires { place < length sorts.now }
    ensures { OnOk result (atoms.new.items ≡ atoms.old.items ++ with_branches (sort_in sorts.now) place arguments.now) }
{
    if arguments.len() != 3 {
        return Ok(());
    }
    add_alone(atoms, sorts, place, arguments[1])?;
    add_alone(atoms, sorts, place, arguments[2])
}

/// Adds bounds.
fn add_bounds(atoms: &mut Vec<PartAtom>, orders: &[Order]) -> Result<(), AllocError>
    ensures { OnOk result (atoms.new.items ≡ atoms.old.items ++ map BoundAtom orders.now) }
{
    for order in orders {
        atoms.push(PartAtom::Bound(*order))?;
    }
    Ok(())
}

/// Adds the bounds that a comparison says of its neighbours.
fn add_comparison(
    atoms: &mut Vec<PartAtom>,
    orders: &mut Vec<Order>,
    operator: Operator,
    arguments: &[TermId],
) -> Result<(), AllocError>
    ensures { OnOk result (atoms.new.items ≡ atoms.old.items ++ map BoundAtom (order_atoms operator arguments.now)) }
{
    orders.clear();
    add_orders(orders, operator, arguments)?;
    add_bounds(atoms, orders)
}

/// Adds the bounds of a row.
fn add_row(atoms: &mut Vec<PartAtom>, row: Row) -> Result<(), AllocError>
    ensures { OnOk result (atoms.new.items ≡ atoms.old.items ++ map LimitAtom (limits row)) }
{
    atoms.push(PartAtom::Limit(row.limit))?;
    match row.other {
        Some(other) => {
            atoms.push(PartAtom::Limit(other))?;
            Ok(())
        }
        None => Ok(()),
    }
}

/// Adds the bounds of rows.
fn add_limits(atoms: &mut Vec<PartAtom>, rows: &[Row]) -> Result<(), AllocError>
    ensures { OnOk result (atoms.new.items ≡ atoms.old.items ++ map LimitAtom (flat_map limits rows.now)) }
{
    for row in rows {
        add_row(atoms, *row)?;
    }
    Ok(())
}

/// Adds the bounds of the rows of a division by a number.
fn add_division(
    atoms: &mut Vec<PartAtom>,
    rows: &mut Vec<Row>,
    operator: Operator,
    divisor: i128,
    place: TermId,
    arguments: &[TermId],
) -> Result<(), AllocError>
    requires { InRange divisor }
    ensures { OnOk result (atoms.new.items ≡ atoms.old.items ++ of_rows divisor operator place arguments.now) }
{
    rows.clear();
    add_rows(rows, operator, divisor, place, arguments)?;
    add_limits(atoms, rows)
}

/// Adds the atoms that compare the arguments of `=`.
fn add_equal(
    atoms: &mut Vec<PartAtom>,
    sorts: &[Sort],
    arguments: &[TermId],
) -> Result<(), AllocError>
    requires { All (λ i. i < length sorts.now) arguments.now }
    ensures { OnOk result (atoms.new.items ≡ atoms.old.items ++ of_equal (sort_in sorts.now) arguments.now) }
{
    match arguments {
        [] => Ok(()),
        [left, right] => add_alone(atoms, sorts, *left, *right),
        [first, others @ ..] => add_neighbours(atoms, sorts, *first, others),
    }
}

/// Adds the atoms that compare the arguments of `distinct`.
fn add_distinct(
    atoms: &mut Vec<PartAtom>,
    sorts: &[Sort],
    arguments: &[TermId],
) -> Result<(), AllocError>
    requires { All (λ i. i < length sorts.now) arguments.now }
    ensures { OnOk result (atoms.new.items ≡ atoms.old.items ++ of_distinct (sort_in sorts.now) arguments.now) }
{
    match arguments {
        [left, right] => add_alone(atoms, sorts, *left, *right),
        _ => add_each_two(atoms, sorts, arguments),
    }
}

/// Adds the atoms that compare the arguments of a term; of a division by a number the bounds of its rows.
fn add_compared(
    atoms: &mut Vec<PartAtom>,
    space: &mut Compared,
    sorts: &[Sort],
    divisor: i128,
    place: TermId,
    operator: Operator,
    arguments: &[TermId],
) -> Result<(), AllocError>
    requires divisor { InRange divisor }
    requires place { place < length sorts.now }
    requires arguments { All (λ i. i < length sorts.now) arguments.now }
    ensures { OnOk result (atoms.new.items ≡ atoms.old.items ++ compared (sort_in sorts.now) divisor operator place arguments.now) }
{
    match operator {
        Operator::Equal => add_equal(atoms, sorts, arguments),
        Operator::Distinct => add_distinct(atoms, sorts, arguments),
        Operator::Ite => add_branches(atoms, sorts, place, arguments),
        Operator::Divide | Operator::Modulo | Operator::Absolute | Operator::Divisible => {
            add_division(atoms, &mut space.rows, operator, divisor, place, arguments)
        }
        _ => add_comparison(atoms, &mut space.orders, operator, arguments),
    }
}

/// Adds the truth of a part, if it is a Bool, and unless that is wanted alone, the atoms that compare its arguments, or the bounds of its rows by this divisor.
pub(crate) fn add_wanted(
    atoms: &mut Vec<PartAtom>,
    space: &mut Compared,
    sorts: &[Sort],
    truth_alone: bool,
    divisor: i128,
    place: TermId,
    head: Head,
    arguments: &[TermId],
) -> Result<(), AllocError>
    requires divisor { InRange divisor }
    requires place { place < length sorts.now }
    requires arguments { All (λ i. i < length sorts.now) arguments.now }
    ensures { OnOk result (atoms.new.items ≡ atoms.old.items ++ wanted_of (sort_in sorts.now) truth_alone divisor place head arguments.now) }
{
    add_truth(atoms, sorts, place)?;
    match head {
        Head::Theory(operator) if !truth_alone => {
            add_compared(atoms, space, sorts, divisor, place, operator, arguments)
        }
        _ => Ok(()),
    }
}
