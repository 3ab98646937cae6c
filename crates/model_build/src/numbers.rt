//! What numerals, sums, differences and products are given, by what their arguments are given.
ghost use Rattle.std.specs.Prelude.{◌≡◌, ◌<◌, length, map, true, All, Some, None, MatchOption};
ghost use Rattle.smt_meaning.specs.declared.values.Sort.TheVariants.{Int as Ints};
ghost use Rattle.model_build.specs.Given.{given_at};
ghost use Rattle.model_build.specs.Building.{is_given_of};
ghost use Rattle.model_build.specs.WorkedOut.{kept, value_number, given_number, number_given, combined_with, stepped, folded, alone, operated};

use crate::Given;
use smt_meaning::{Operator, TermId, Value};

/// The number, where it is in the range.
fn kept(number: i128) -> Option<i128>
    ensures { result ≡ kept number }
{
    if number == i128::MIN {
        None
    } else {
        Some(number)
    }
}

fn kept_if_any(number: Option<i128>) -> Option<i128>
    ensures { MatchOption number (result ≡ None) (λ n. result ≡ kept n) }
{
    match number {
        Some(number) => kept(number),
        None => None,
    }
}

/// The number, or past the range.
pub(crate) fn number_given(number: Option<i128>) -> Given
    ensures is { result ≡ number_given number }
    ensures sorted { is_given_of result Ints ≡ true }
{
    match number {
        Some(number) if number != i128::MIN => Given::InRange(Value::Whole(number)),
        _ => Given::PastRange,
    }
}

fn value_number(value: Value) -> Option<i128>
    ensures { result ≡ value_number value }
{
    match value {
        Value::Whole(number) => Some(number),
        Value::Truth(_) | Value::Element(_) => None,
    }
}

/// The number that a place is given, if it is in the range.
fn given_number(given: Given) -> Option<i128>
    ensures { result ≡ given_number given }
{
    match given {
        Given::InRange(value) => value_number(value),
        Given::Unmarked | Given::PastRange => None,
    }
}

/// What an operator makes of two numbers, where it is in the range.
fn combined(operator: Operator, left: i128, right: i128) -> Option<i128>
    ensures { result ≡ combined_with operator left (Some right) }
{
    match operator {
        Operator::Add => kept_if_any(left.checked_add(right)),
        Operator::Subtract => kept_if_any(left.checked_sub(right)),
        _ => kept_if_any(left.checked_mul(right)),
    }
}

/// One step of an operator that folds from the left.
fn stepped(operator: Operator, left: i128, right: Given) -> Option<i128>
    ensures { result ≡ stepped operator (Some left) right }
{
    match given_number(right) {
        Some(right) => combined(operator, left, right),
        None => None,
    }
}

/// What an operator makes of a number and of what the others are given, from the left.
fn folded(
    operator: Operator,
    first: Option<i128>,
    others: &[TermId],
    given: &[Given],
) -> Option<i128>
    requires { All (λ i. i < length given.now) others.now }
    ensures { result ≡ folded operator first (map (given_at given.now) others.now) }
{
    let mut value = first;
    for place in others {
        value = match value {
            Some(left) => stepped(operator, left, given[*place as usize]),
            None => return None,
        };
    }
    value
}

/// What an operator makes of what one argument is given.
fn alone(operator: Operator, argument: Given) -> Option<i128>
    ensures { result ≡ alone operator argument }
{
    match operator {
        Operator::Subtract => stepped(Operator::Subtract, 0, argument),
        _ => given_number(argument),
    }
}

/// What an operator makes of what its arguments are given, past the range where an argument or a partial result from the left is.
pub(crate) fn operated(operator: Operator, arguments: &[TermId], given: &[Given]) -> Given
    requires { All (λ i. i < length given.now) arguments.now }
    ensures is { result ≡ number_given (operated operator (map (given_at given.now) arguments.now)) }
    ensures sorted { is_given_of result Ints ≡ true }
{
    let number = match arguments.split_first() {
        Some((first, others)) => {
            if others.is_empty() {
                alone(operator, given[*first as usize])
            } else {
                folded(
                    operator,
                    given_number(given[*first as usize]),
                    others,
                    given,
                )
            }
        }
        None => None,
    };
    number_given(number)
}
