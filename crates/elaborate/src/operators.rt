//! The theories' functions: their names, and their ranks.
ghost use Rattle.std.specs.Prelude.{◌≡◌, map};
ghost use Rattle.smt_meaning.specs.Signature.{look_up, operators, takes, stands_with, sort_eq, all_of, all_the_same, ite_sort, if_so, operator_sort};
ghost use Rattle.elaborate.specs.Values.{sort_of};
ghost use Rattle.elaborate.specs.Operators.{later_operators, number_operators};

use crate::value::Value;
use smt_meaning::{Operator, Sort};

/// The operator of a name.
pub(crate) fn operator_named(name: &[u8]) -> Option<Operator>
    ensures { result ≡ look_up name.now operators }
{
    if name == b"true".as_slice() {
        return Some(Operator::True);
    }
    if name == b"false".as_slice() {
        return Some(Operator::False);
    }
    if name == b"not".as_slice() {
        return Some(Operator::Not);
    }
    if name == b"and".as_slice() {
        return Some(Operator::And);
    }
    if name == b"or".as_slice() {
        return Some(Operator::Or);
    }
    later_operator(name)
}

fn later_operator(name: &[u8]) -> Option<Operator>
    ensures { result ≡ look_up name.now later_operators }
{
    if name == b"xor".as_slice() {
        return Some(Operator::Xor);
    }
    if name == b"=>".as_slice() {
        return Some(Operator::Implies);
    }
    if name == b"=".as_slice() {
        return Some(Operator::Equal);
    }
    if name == b"distinct".as_slice() {
        return Some(Operator::Distinct);
    }
    if name == b"ite".as_slice() {
        return Some(Operator::Ite);
    }
    number_operator(name)
}

fn number_operator(name: &[u8]) -> Option<Operator>
    ensures { result ≡ look_up name.now number_operators }
{
    if name == b"+".as_slice() {
        return Some(Operator::Add);
    }
    if name == b"-".as_slice() {
        return Some(Operator::Subtract);
    }
    if name == b"*".as_slice() {
        return Some(Operator::Multiply);
    }
    if name == b"<=".as_slice() {
        return Some(Operator::AtMost);
    }
    if name == b"<".as_slice() {
        return Some(Operator::Less);
    }
    if name == b">=".as_slice() {
        return Some(Operator::AtLeast);
    }
    if name == b">".as_slice() {
        return Some(Operator::Greater);
    }
    if name == b"div".as_slice() {
        return Some(Operator::Divide);
    }
    if name == b"mod".as_slice() {
        return Some(Operator::Modulo);
    }
    if name == b"abs".as_slice() {
        return Some(Operator::Absolute);
    }
    None
}

/// Whether an operator takes so many arguments.
pub(crate) fn takes(operator: Operator, count: usize) -> bool
    ensures { result ≡ takes operator count }
{
    match operator {
        Operator::True | Operator::False => false,
        Operator::Not | Operator::Absolute => count == 1,
        Operator::Modulo | Operator::Divisible => count == 2,
        Operator::And | Operator::Or | Operator::Add | Operator::Subtract | Operator::Multiply => {
            count >= 1
        }
        Operator::Ite => count == 3,
        Operator::Xor
        | Operator::Implies
        | Operator::Equal
        | Operator::Distinct
        | Operator::AtMost
        | Operator::Less
        | Operator::AtLeast
        | Operator::Greater
        | Operator::Divide => count >= 2,
    }
}

/// Whether an operator stands without arguments.
pub(crate) fn stands_bare(operator: Operator) -> bool
    ensures { result ≡ stands_with operator 0 }
{
    match operator {
        Operator::True | Operator::False => true,
        Operator::Not
        | Operator::And
        | Operator::Or
        | Operator::Xor
        | Operator::Implies
        | Operator::Equal
        | Operator::Distinct
        | Operator::Ite
        | Operator::Add
        | Operator::Subtract
        | Operator::Multiply
        | Operator::AtMost
        | Operator::Less
        | Operator::AtLeast
        | Operator::Greater
        | Operator::Divide
        | Operator::Modulo
        | Operator::Absolute
        | Operator::Divisible => false,
    }
}

pub(crate) fn same_sort(left: Sort, right: Sort) -> bool
    ensures { result ≡ sort_eq left right }
{
    match left {
        Sort::Bool => match right {
            Sort::Bool => true,
            Sort::Int => false,
            Sort::Free(_) => false,
        },
        Sort::Int => match right {
            Sort::Bool => false,
            Sort::Int => true,
            Sort::Free(_) => false,
        },
        Sort::Free(first) => match right {
            Sort::Bool => false,
            Sort::Int => false,
            Sort::Free(second) => first == second,
        },
    }
}

fn all_have(sort: Sort, arguments: &[Value]) -> bool
    ensures { result ≡ all_of sort (map sort_of arguments.now) }
{
    for argument in arguments {
        if !same_sort(sort, argument.sort) {
            return false;
        }
    }
    true
}

fn are_alike(arguments: &[Value]) -> bool
    ensures { result ≡ all_the_same (map sort_of arguments.now) }
{
    match arguments.split_first() {
        Some((first, rest)) => all_have(first.sort, rest),
        None => true,
    }
}

fn choice_sort(arguments: &[Value]) -> Option<Sort>
    ensures { result ≡ ite_sort (map sort_of arguments.now) }
{
    if arguments.len() != 3 {
        return None;
    }
    let fits = same_sort(arguments[0].sort, Sort::Bool)
        && same_sort(arguments[1].sort, arguments[2].sort);
    sort_where(fits, arguments[1].sort)
}

fn sort_where(holds: bool, sort: Sort) -> Option<Sort>
    ensures { result ≡ if_so holds sort }
{
    if holds { Some(sort) } else { None }
}

/// The sort of an operator at these arguments, if there is one.
pub(crate) fn operator_sort(operator: Operator, arguments: &[Value]) -> Option<Sort>
    ensures { result ≡ operator_sort operator (map sort_of arguments.now) }
{
    match operator {
        Operator::True | Operator::False => Some(Sort::Bool),
        Operator::Equal | Operator::Distinct => sort_where(are_alike(arguments), Sort::Bool),
        Operator::Ite => choice_sort(arguments),
        Operator::Add
        | Operator::Subtract
        | Operator::Multiply
        | Operator::Divide
        | Operator::Modulo
        | Operator::Absolute => sort_where(all_have(Sort::Int, arguments), Sort::Int),
        Operator::AtMost
        | Operator::Less
        | Operator::AtLeast
        | Operator::Greater
        | Operator::Divisible => sort_where(all_have(Sort::Int, arguments), Sort::Bool),
        Operator::Not | Operator::And | Operator::Or | Operator::Xor | Operator::Implies => {
            sort_where(all_have(Sort::Bool, arguments), Sort::Bool)
        }
    }
}
