//! The numbers of the bounds of orders, and the clauses of those that are constant.
ghost use Rattle.std.specs.Prelude.{◌≡◌, ◌<◌, ◌^◌, [], ◌∷◌, ◌++◌, List, length, map, flat_map, All, Contains, OnOk, IfOk, IfErr};
ghost use Rattle.smt_meaning.specs.declared.clauses.Atom.TheVariants.{AtMost as BoundAtom};
ghost use Rattle.smt_meaning.specs.Term.{Tree};
ghost use Rattle.linear_forms.specs.Table.{AreForms};
ghost use Rattle.bound_clauses.specs.Orders.{bound_atom};
ghost use Rattle.bound_clauses.specs.declared.orders.Order.{Order as OrderValue};
ghost use Rattle.order_clauses.specs.Numbers.{IsNumberOf};
ghost use Rattle.order_clauses.specs.Clauses.{bound_number, constant_of, of_bound};
ghost use Rattle.smt_meaning.specs.declared.clauses.Atom.{Atom};
ghost use Rattle.order_clauses.specs.Errors.{RefusesFolding, IsCause};

use crate::error::PartError;
use crate::find::find_bound;
use atom_form::AtomNumbers;
use bound_clauses::{Order, Sense, put_constant};
use clause_form::Clauses;
use linear_forms::{DifferenceError, LinearForms};
use pair_bounds::{at_most, below};
use smt_meaning::Summand;
use std::alloc::AllocError;

/// The threshold of the bound of an order, with its sum left in the list.
fn threshold_of(
    forms: &mut LinearForms,
    sum: &mut Vec<Summand>,
    order: Order,
) -> Result<i128, DifferenceError>
    ghost trees: { List Tree }
    requires forms { AreForms trees forms.old }
    requires lesser { order.lesser < length trees }
    requires greater { order.greater < length trees }
    ensures bound { IfOk result (λ k. BoundAtom sum.new.items k ≡ bound_atom trees order) }
    ensures refused { IfErr result (λ e. RefusesFolding trees order e) }
    ensures same { forms.new ≡ forms.old }
{
    match order.sense {
        Sense::NotAbove => at_most(forms, order.lesser, order.greater, sum),
        Sense::Below => below(forms, order.lesser, order.greater, sum),
    }
}

/// Why the bound of an order has no number, where folding it is refused.
fn cause_of(error: DifferenceError, order: Order) -> PartError
    ensures { (trees : List Tree) → (table : List Atom) → (atoms : List Atom) → RefusesFolding trees order error → IsCause trees table (order ∷ []) atoms result }
{
    match error {
        DifferenceError::Term(part) => PartError::Term(part),
        DifferenceError::Pair => PartError::Pair(order),
        DifferenceError::Memory => PartError::Memory,
    }
}

/// Adds the clause of a bound of the empty sum; of another bound none.
pub(crate) fn put_if_constant(
    clauses: &mut Clauses,
    number: u32,
    sum: &[Summand],
    threshold: i128,
) -> Result<(), AllocError>
    requires { number < 2 ^ 31 }
    ensures { OnOk result (clauses.new ≡ clauses.old ++ constant_of number (BoundAtom sum.now threshold)) }
{
    match sum {
        [] => put_constant(clauses, number, threshold >= 0),
        _ => Ok(()),
    }
}

/// The number of the bound of an order. Adds its clause, if it is constant.
pub(crate) fn put_bound(
    clauses: &mut Clauses,
    forms: &mut LinearForms,
    atoms: &AtomNumbers,
    sum: &mut Vec<Summand>,
    order: Order,
) -> Result<u32, PartError>
    ghost trees: { List Tree }
    requires forms { AreForms trees forms.old }
    requires lesser { order.lesser < length trees }
    requires greater { order.greater < length trees }
    ensures found { IfOk result (IsNumberOf atoms.now.atoms (bound_atom trees order)) }
    ensures put { OnOk result (clauses.new ≡ clauses.old ++ of_bound trees atoms.now.atoms order) }
    ensures cause { IfErr result (λ e. IsCause trees atoms.now.atoms (order ∷ []) (bound_atom trees order ∷ []) e) }
    ensures same { forms.new ≡ forms.old }
{
    let threshold = match threshold_of(forms, sum, order) {
        Ok(threshold) => threshold,
        Err(error) => return Err(cause_of(error, order)),
    };
    let number = find_bound(atoms, sum, threshold)?;
    put_if_constant(clauses, number, sum, threshold)?;
    Ok(number)
}

/// Adds the numbers of the bounds of these orders, and the clauses of those that are constant.
pub(crate) fn put_bounds(
    clauses: &mut Clauses,
    forms: &mut LinearForms,
    atoms: &AtomNumbers,
    sum: &mut Vec<Summand>,
    numbers: &mut Vec<u32>,
    orders: &[Order],
) -> Result<(), PartError>
    ghost trees: { List Tree }
    requires forms { AreForms trees forms.old }
    requires places { All (λ (o : OrderValue). (o.lesser < length trees) × (o.greater < length trees)) orders.now }
    requires empty { numbers.old.items ≡ [] }
    ensures numbers { OnOk result (numbers.new.items ≡ map (bound_number trees atoms.now.atoms) orders.now) }
    ensures has { OnOk result (All (λ o. Contains atoms.now.atoms (bound_atom trees o)) orders.now) }
    ensures put { OnOk result (clauses.new ≡ clauses.old ++ flat_map (of_bound trees atoms.now.atoms) orders.now) }
    ensures cause { IfErr result (λ e. IsCause trees atoms.now.atoms orders.now (map (bound_atom trees) orders.now) e) }
    ensures same { forms.new ≡ forms.old }
{
    for order in orders {
        let number = put_bound(clauses, forms, atoms, sum, *order)?;
        numbers.push(number)?;
    }
    Ok(())
}
