//! The rows of divisions over places, and their bounds in normal form.
//!
//! Why one table: the clauses of a division are a table of rows over multiples of terms, one table
//! for trees and for places. A limit's form is folded from the right; each multiple, each sum so
//! far, and the number that bounds the sum stay in the range, or the term's clause leaves it (a
//! report of range at the term). The rows of a `mod` and of a divisibility begin with those of
//! their quotient, so a check has these twice.
ghost use Rattle.std.specs.Prelude.{◌≡◌, ◌<◌, ◌++◌, List, pos, length, map, All, OnOk, IfOk, IfErr, IfSome, IfNone, ◌-ℤ◌, Some, None};
ghost use Rattle.fraction128.specs.Whole.{InRange};
ghost use Rattle.smt_meaning.specs.Term.{Tree};
ghost use Rattle.smt_meaning.specs.Division.{limit as limit_of, beyond as multiples_beyond, left_by as multiples_left, quotient_rows, remainder_rows, divisible_rows, absolute_rows};
ghost use Rattle.linear_forms.specs.Folding.{form_of};
ghost use Rattle.linear_forms.specs.Table.{AreForms};
ghost use Rattle.linear_forms.specs.Differences.{KnowsForms};
ghost use Rattle.linear_forms.specs.Multiples.{IsCombination, RefusesMultiples};
ghost use Rattle.pair_bounds.specs.Rows.{multiples as multiples_of_limit, placed, placed_row, placed_rows, IsDivisorAt, RefusesDivisor, IsRow, IsRowLimit, IsRowBound, RefusesLimit, RowsAreAtoms, LargeDivisorLeavesRange};

use crate::normal::normalize;
use linear_forms::{DifferenceError, LinearForms, Multiple, minus};
use smt_laws::divisions_stand_by_places;
use smt_meaning::{Operator, Summand, TermId};
use std::alloc::AllocError;

/// That a sum of two or three multiples is at most a number.
#[derive(Clone, Copy, PartialEq, Eq, Debug)]
pub struct RowLimit {
    pub first: Multiple,
    pub second: Multiple,
    pub third: Option<Multiple>,
    pub most: i128,
}

/// A clause of a division: one of the limits holds, or the term, where it is a Bool, has this truth value.
#[derive(Clone, Copy, PartialEq, Eq, Debug)]
pub struct Row {
    pub truth: Option<bool>,
    pub limit: RowLimit,
    pub other: Option<RowLimit>,
}

/// The number of the second argument's form, by which a division divides, and 0 where there is none. An `Err` says at which part folding it leaves the range
/// (`Term`), or that the number isn't in the range (`Pair`).
pub fn divisor(forms: &LinearForms, arguments: &[TermId]) -> Result<i128, DifferenceError>
    requires places { All (λ i. i < length forms.now) arguments.now }
    requires known { KnowsForms forms.now }
    ensures ok { (trees : List Tree) → AreForms trees forms.now → IfOk result (λ n. IsDivisorAt trees arguments.now n) }
    ensures err { (trees : List Tree) → AreForms trees forms.now → IfErr result (λ e. RefusesDivisor trees arguments.now e) }
{
    match arguments {
        [_, divisor, ..] => match forms.form(*divisor) {
            Ok(form) if form.constant == i128::MIN => Err(DifferenceError::Pair),
            Ok(form) => Ok(form.constant),
            Err(part) => Err(DifferenceError::Term(part)),
        },
        _ => Ok(0),
    }
}

/// That n * q - a is at most a number.
fn beyond(argument: TermId, divisor: i128, quotient: TermId, most: i128) -> RowLimit
    requires { InRange divisor }
    ensures { result ≡ placed (limit_of (multiples_beyond argument divisor quotient) most) }
{
    RowLimit {
        first: Multiple {
            factor: divisor,
            term: quotient,
        },
        second: Multiple {
            factor: -1,
            term: argument,
        },
        third: None,
        most,
    }
}

/// That a - n * q is at most a number.
fn left_by(argument: TermId, divisor: i128, quotient: TermId, most: i128) -> RowLimit
    requires { InRange divisor }
    ensures { result ≡ placed (limit_of (multiples_left argument divisor quotient) most) }
{
    RowLimit {
        first: Multiple {
            factor: 1,
            term: argument,
        },
        second: Multiple {
            factor: -divisor,
            term: quotient,
        },
        third: None,
        most,
    }
}

/// The limit of two multiples with another before them.
fn with_first(factor: i128, term: TermId, limit: RowLimit) -> RowLimit
    ensures { result ≡ record { first = record { factor = factor; term = term }; second = limit.first; third = Some limit.second; most = limit.most } }
{
    RowLimit {
        first: Multiple { factor, term },
        second: limit.first,
        third: Some(limit.second),
        most: limit.most,
    }
}

/// That the limit holds.
fn always(limit: RowLimit) -> Row
    ensures { result ≡ record { truth = None; limit = limit; other = None } }
{
    Row {
        truth: None,
        limit,
        other: None,
    }
}

/// That the limit holds, or the term has a truth value.
fn unless(truth: bool, limit: RowLimit) -> Row
    ensures { result ≡ record { truth = Some truth; limit = limit; other = None } }
{
    Row {
        truth: Some(truth),
        limit,
        other: None,
    }
}

/// Adds the rows of a quotient.
fn add_quotient(
    rows: &mut Vec<Row>,
    argument: TermId,
    divisor: i128,
    quotient: TermId,
) -> Result<(), AllocError>
    requires { InRange divisor }
    ensures { OnOk result (rows.new.items ≡ rows.old.items ++ map placed_row (quotient_rows argument divisor quotient)) }
{
    rows.push(always(beyond(argument, divisor, quotient, 0)))?;
    let most = divisor.abs() - 1;
    rows.push(always(left_by(argument, divisor, quotient, most)))?;
    Ok(())
}

/// Adds the rows of a remainder.
fn add_remainder(
    rows: &mut Vec<Row>,
    argument: TermId,
    divisor: i128,
    quotient: TermId,
    remainder: TermId,
) -> Result<(), AllocError>
    requires { InRange divisor }
    ensures { OnOk result (rows.new.items ≡ rows.old.items ++ map placed_row (remainder_rows argument divisor quotient remainder)) }
{
    add_quotient(rows, argument, divisor, quotient)?;
    let above = with_first(1, remainder, beyond(argument, divisor, quotient, 0));
    rows.push(always(above))?;
    let below = with_first(-1, remainder, left_by(argument, divisor, quotient, 0));
    rows.push(always(below))?;
    Ok(())
}

/// Adds the rows of a divisibility.
fn add_divisible(
    rows: &mut Vec<Row>,
    argument: TermId,
    divisor: i128,
    quotient: TermId,
) -> Result<(), AllocError>
    requires { InRange divisor }
    ensures { OnOk result (rows.new.items ≡ rows.old.items ++ map placed_row (divisible_rows argument divisor quotient)) }
{
    add_quotient(rows, argument, divisor, quotient)?;
    rows.push(unless(true, beyond(argument, divisor, quotient, -1)))?;
    rows.push(unless(false, left_by(argument, divisor, quotient, 0)))?;
    Ok(())
}

/// That a sum of two terms, each times a number, is at most 0.
fn below_zero(first_factor: i128, first: TermId, second_factor: i128, second: TermId) -> RowLimit
    ensures { result ≡ record { first = record { factor = first_factor; term = first }; second = record { factor = second_factor; term = second }; third = None; most = pos 0 } }
{
    RowLimit {
        first: Multiple {
            factor: first_factor,
            term: first,
        },
        second: Multiple {
            factor: second_factor,
            term: second,
        },
        third: None,
        most: 0,
    }
}

/// Adds the rows of an absolute value.
fn add_absolute(rows: &mut Vec<Row>, argument: TermId, magnitude: TermId) -> Result<(), AllocError>
    ensures { OnOk result (rows.new.items ≡ rows.old.items ++ map placed_row (absolute_rows argument magnitude)) }
{
    rows.push(always(below_zero(1, argument, -1, magnitude)))?;
    rows.push(always(below_zero(-1, argument, -1, magnitude)))?;
    rows.push(Row {
        truth: None,
        limit: below_zero(1, magnitude, -1, argument),
        other: Some(below_zero(1, magnitude, 1, argument)),
    })?;
    Ok(())
}

/// Adds the rows of the term at a place.
fn add_of_term(
    rows: &mut Vec<Row>,
    operator: Operator,
    divisor: i128,
    place: TermId,
    arguments: &[TermId],
) -> Result<(), AllocError>
    requires { InRange divisor }
    ensures { OnOk result (rows.new.items ≡ rows.old.items ++ placed_rows operator divisor place arguments.now) }
{
    match (operator, arguments) {
        (Operator::Divide, [argument, _]) => add_quotient(rows, *argument, divisor, place),
        (Operator::Modulo, [argument, _, quotient]) => {
            add_remainder(rows, *argument, divisor, *quotient, place)
        }
        (Operator::Divisible, [argument, _, quotient]) => {
            add_divisible(rows, *argument, divisor, *quotient)
        }
        (Operator::Absolute, [argument]) => add_absolute(rows, *argument, place),
        _ => Ok(()),
    }
}

/// Adds the rows of the term at a place, which has this operator and the terms at these places as its arguments: of `div`, `mod` and a divisibility by a
/// divisor, and of `abs`; of other terms none.
pub fn add_rows(
    rows: &mut Vec<Row>,
    operator: Operator,
    divisor: i128,
    place: TermId,
    arguments: &[TermId],
) -> Result<(), AllocError>
    requires { InRange divisor }
    ensures rows { OnOk result (rows.new.items ≡ rows.old.items ++ placed_rows operator divisor place arguments.now) }
    ensures within { (count : _) → place < count → All (λ i. i < count) arguments.now → All (IsRow count) rows.old.items → OnOk result (All (IsRow count) rows.new.items) }
{
    add_of_term(rows, operator, divisor, place, arguments)
}

/// The sum of the multiples of a limit: its constant, with its sum left in the list.
fn combine(
    forms: &mut LinearForms,
    limit: RowLimit,
    sum: &mut Vec<Summand>,
) -> Result<i128, DifferenceError>
    requires limit { IsRowLimit (length forms.old) limit }
    requires known { KnowsForms forms.old }
    ensures ok { (trees : List Tree) → AreForms trees forms.old → IfOk result (λ n. IsCombination trees (multiples_of_limit limit) (form_of sum.new.items n)) }
    ensures err { (trees : List Tree) → AreForms trees forms.old → IfErr result (λ e. RefusesMultiples trees (multiples_of_limit limit) e) }
    ensures same { forms.new ≡ forms.old }
{
    match limit.third {
        Some(third) => forms.combine(&[limit.first, limit.second, third], sum),
        None => forms.combine(&[limit.first, limit.second], sum),
    }
}

/// A limit as a bound in normal form: gives the threshold, and leaves in the list, whatever it was before, the sum that is at most the threshold. An `Err` says
/// where folding one of the terms, or the sum of the multiples, or the number that bounds it leaves the range (`Term`, `Pair`), or that memory is wanting; then
/// nothing is said of the list.
pub fn row_bound(
    forms: &mut LinearForms,
    limit: RowLimit,
    sum: &mut Vec<Summand>,
) -> Result<i128, DifferenceError>
    requires limit { IsRowLimit (length forms.old) limit }
    requires known { KnowsForms forms.old }
    ensures ok { (trees : List Tree) → AreForms trees forms.old → IfOk result (λ k. IsRowBound trees limit sum.new.items k) }
    ensures err { (trees : List Tree) → AreForms trees forms.old → IfErr result (λ e. RefusesLimit trees limit e) }
    ensures same { forms.new ≡ forms.old }
{
    let constant = combine(forms, limit, sum)?;
    match minus(limit.most, constant) {
        Some(threshold) => Ok(normalize(sum, threshold)),
        None => Err(DifferenceError::Pair),
    }
}

/// The bounds of the rows of the term at a place are the atoms that a stack has for it, and they stay in the range where its comparison does.
pub fn rows_are_atoms()
    ensures { RowsAreAtoms }
{
    divisions_stand_by_places();
}

/// Where the divisor of a linear term isn't in the range, folding its rows leaves it.
pub fn large_divisor_leaves_range()
    ensures { LargeDivisorLeavesRange }
{}
