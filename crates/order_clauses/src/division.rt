//! The clauses of `div`, `mod`, `abs` and divisibility: one for each row of the table.
ghost use Rattle.std.specs.Prelude.{◌≡◌, ◌<◌, ◌^◌, [], ◌∷◌, ◌++◌, List, length, map, flat_map, All, Contains, OnOk, IfOk, IfErr};
ghost use Rattle.smt_meaning.specs.declared.clauses.Atom.TheVariants.{AtMost as BoundAtom};
ghost use Rattle.smt_meaning.specs.Term.{Tree};
ghost use Rattle.linear_forms.specs.Table.{AreForms};
ghost use Rattle.pair_bounds.specs.Rows.{listed, limits, IsRowLimit, IsRow, RefusesLimit};
ghost use Rattle.equality_clauses.specs.Ties.{yes};
ghost use Rattle.order_clauses.specs.Numbers.{IsNumberOf};
ghost use Rattle.order_clauses.specs.Clauses.{limit_bound, of_limit, of_other, unless_same, other_numbers, row_truth, row_part, division_part};
ghost use Rattle.order_clauses.specs.Needed.{row_truth_atoms, atoms_of_row, atoms_of_division};
ghost use Rattle.order_clauses.specs.Errors.{IsLimitCause, IsDivisionCause};

use crate::bounds::put_if_constant;
use crate::error::PartError;
use crate::find::{find_bound, find_truth};
use atom_form::AtomNumbers;
use clause_form::Clauses;
use linear_forms::{DifferenceError, LinearForms};
use literals::Literal;
use pair_bounds::{Row, RowLimit, add_rows, divisor, row_bound};
use smt_meaning::{Operator, Summand, TermId};
use std::alloc::AllocError;

/// The threshold of the bound of a limit, with its sum left in the list.
fn threshold_of(
    forms: &mut LinearForms,
    sum: &mut Vec<Summand>,
    limit: RowLimit,
) -> Result<i128, DifferenceError>
    ghost trees: { List Tree }
    requires forms { AreForms trees forms.old }
    requires limit { IsRowLimit (length forms.old) limit }
    ensures bound { IfOk result (λ k. BoundAtom sum.new.items k ≡ limit_bound trees limit) }
    ensures refused { IfErr result (λ e. RefusesLimit trees limit e) }
    ensures same { forms.new ≡ forms.old }
{
    row_bound(forms, limit, sum)
}

/// The number of the bound of a limit. Adds its clause, if it is constant.
fn put_limit(
    clauses: &mut Clauses,
    forms: &mut LinearForms,
    atoms: &AtomNumbers,
    sum: &mut Vec<Summand>,
    limit: RowLimit,
) -> Result<u32, PartError>
    ghost trees: { List Tree }
    requires forms { AreForms trees forms.old }
    requires limit { IsRowLimit (length forms.old) limit }
    ensures found { IfOk result (IsNumberOf atoms.now.atoms (limit_bound trees limit)) }
    ensures put { OnOk result (clauses.new ≡ clauses.old ++ of_limit trees atoms.now.atoms limit) }
    ensures cause { IfErr result (λ e. IsLimitCause trees atoms.now.atoms (limit ∷ []) (limit_bound trees limit ∷ []) e) }
    ensures same { forms.new ≡ forms.old }
{
    let threshold = threshold_of(forms, sum, limit)?;
    let number = find_bound(atoms, sum, threshold)?;
    put_if_constant(clauses, number, sum, threshold)?;
    Ok(number)
}

/// The second number, unless it is the first.
fn apart(first: u32, second: u32) -> Option<u32>
    ensures { listed result ≡ unless_same first second }
{
    if first == second {
        return None;
    }
    Some(second)
}

/// The number of the bound of the other limit of a row, unless it is that of the first. Adds its clause, if it is constant.
fn put_other(
    clauses: &mut Clauses,
    forms: &mut LinearForms,
    atoms: &AtomNumbers,
    sum: &mut Vec<Summand>,
    first: u32,
    other: Option<RowLimit>,
) -> Result<Option<u32>, PartError>
    ghost trees: { List Tree }
    requires forms { AreForms trees forms.old }
    requires limits { All (IsRowLimit (length forms.old)) (listed other) }
    ensures number { IfOk result (λ m. listed m ≡ other_numbers trees atoms.now.atoms first other) }
    ensures has { OnOk result (All (Contains atoms.now.atoms) (map (limit_bound trees) (listed other))) }
    ensures put { OnOk result (clauses.new ≡ clauses.old ++ of_other trees atoms.now.atoms other) }
    ensures cause { IfErr result (λ e. IsLimitCause trees atoms.now.atoms (listed other) (map (limit_bound trees) (listed other)) e) }
    ensures same { forms.new ≡ forms.old }
{
    match other {
        None => Ok(None),
        Some(limit) => {
            let second = put_limit(clauses, forms, atoms, sum, limit)?;
            Ok(apart(first, second))
        }
    }
}

/// The literal that a row has of the truth of its term.
fn find_row_truth(
    atoms: &AtomNumbers,
    place: TermId,
    truth: Option<bool>,
) -> Result<Option<Literal>, PartError>
    ensures literal { IfOk result (λ l. listed l ≡ row_truth atoms.now.atoms place truth) }
    ensures has { OnOk result (All (Contains atoms.now.atoms) (row_truth_atoms place truth)) }
    ensures err { IfErr result (λ e. (e ≡ PartError.Missing) × (All (Contains atoms.now.atoms) (row_truth_atoms place truth) → ⊥)) }
{
    match truth {
        None => Ok(None),
        Some(truth) => match find_truth(atoms, place) {
            Ok(number) => Ok(Some(Literal::new(number, truth))),
            Err(error) => Err(error),
        },
    }
}

/// Adds the clause of a literal, where there is one, and one or two numbers.
fn put_clause(
    clauses: &mut Clauses,
    truth: Option<Literal>,
    first: u32,
    second: Option<u32>,
) -> Result<(), AllocError>
    requires first { first < 2 ^ 31 }
    requires second { All (λ n. n < 2 ^ 31) (listed second) }
    ensures { OnOk result (clauses.new ≡ clauses.old ++ (listed truth ++ map yes (first ∷ listed second)) ∷ []) }
{
    let first = Literal::new(first, true);
    match (truth, second) {
        (None, None) => clauses.push(&[first]),
        (None, Some(second)) => clauses.push(&[first, Literal::new(second, true)]),
        (Some(truth), None) => clauses.push(&[truth, first]),
        (Some(truth), Some(second)) => clauses.push(&[truth, first, Literal::new(second, true)]),
    }
}

/// Adds the clauses of a row of the term at a place.
fn put_row(
    clauses: &mut Clauses,
    forms: &mut LinearForms,
    atoms: &AtomNumbers,
    sum: &mut Vec<Summand>,
    place: TermId,
    row: Row,
) -> Result<(), PartError>
    ghost trees: { List Tree }
    requires forms { AreForms trees forms.old }
    requires row { IsRow (length forms.old) row }
    ensures put { OnOk result (clauses.new ≡ clauses.old ++ row_part trees atoms.now.atoms place row) }
    ensures has { OnOk result (All (Contains atoms.now.atoms) (atoms_of_row trees place row)) }
    ensures cause { IfErr result (λ e. IsLimitCause trees atoms.now.atoms (limits row) (atoms_of_row trees place row) e) }
    ensures same { forms.new ≡ forms.old }
{
    atoms.are_few();
    let truth = find_row_truth(atoms, place, row.truth)?;
    let first = put_limit(clauses, forms, atoms, sum, row.limit)?;
    let second = put_other(clauses, forms, atoms, sum, first, row.other)?;
    put_clause(clauses, truth, first, second)?;
    Ok(())
}

/// Adds the clauses of these rows.
fn put_rows(
    clauses: &mut Clauses,
    forms: &mut LinearForms,
    atoms: &AtomNumbers,
    sum: &mut Vec<Summand>,
    place: TermId,
    rows: &[Row],
) -> Result<(), PartError>
    ghost trees: { List Tree }
    requires forms { AreForms trees forms.old }
    requires rows { All (IsRow (length forms.old)) rows.now }
    ensures put { OnOk result (clauses.new ≡ clauses.old ++ flat_map (row_part trees atoms.now.atoms place) rows.now) }
    ensures has { OnOk result (All (Contains atoms.now.atoms) (flat_map (atoms_of_row trees place) rows.now)) }
    ensures cause { IfErr result (λ e. IsLimitCause trees atoms.now.atoms (flat_map limits rows.now) (flat_map (atoms_of_row trees place) rows.now) e) }
    ensures same { forms.new ≡ forms.old }
{
    for row in rows {
        put_row(clauses, forms, atoms, sum, place, *row)?;
    }
    Ok(())
}

/// Adds the clauses of `div`, `mod`, `abs` or a divisibility.
pub(crate) fn put_division(
    clauses: &mut Clauses,
    rows: &mut Vec<Row>,
    sum: &mut Vec<Summand>,
    forms: &mut LinearForms,
    atoms: &AtomNumbers,
    place: TermId,
    operator: Operator,
    arguments: &[TermId],
) -> Result<(), PartError>
    ghost trees: { List Tree }
    requires forms { AreForms trees forms.old }
    requires place { place < length trees }
    requires places { All (λ i. i < length trees) arguments.now }
    ensures put { OnOk result (clauses.new ≡ clauses.old ++ division_part trees atoms.now.atoms operator place arguments.now) }
    ensures has { OnOk result (All (Contains atoms.now.atoms) (atoms_of_division trees operator place arguments.now)) }
    ensures cause { IfErr result (λ e. IsDivisionCause trees atoms.now.atoms operator place arguments.now e) }
    ensures same { forms.new ≡ forms.old }
{
    let number = divisor(forms, arguments)?;
    rows.clear();
    add_rows(rows, operator, number, place, arguments)?;
    put_rows(clauses, forms, atoms, sum, place, rows)
}
