//! The operators of the theories Core and Ints on values, with the range of numbers kept.
ghost use Rattle.std.specs.Prelude.{◌≡◌, IsTrue, MatchOption};
ghost use Rattle.smt_meaning.specs.Term.{truth_of, number_of, same_value, in_range, all_in_range, chainable, pairwise, with_each, differ, right_assoc, on_truths, implies, negation, choice, quotient, remainder, left_over};
ghost use Rattle.smt_meaning.specs.Interpretation.{meaning};
ghost use Rattle.model_eval.specs.Fitted.{some_if, fitted_head, fitted_op, fitted_fold, binary, folds, relation, chains};

use crate::tables::{Tables, look_up};
use smt_meaning::{Head, Operator, Value};

pub(crate) fn same(a: Value, b: Value) -> bool
    ensures { result ≡ same_value a b }
{
    match (a, b) {
        (Value::Truth(p), Value::Truth(q)) => p == q,
        (Value::Whole(m), Value::Whole(n)) => m == n,
        (Value::Element(i), Value::Element(j)) => i == j,
        _ => false,
    }
}

fn truth(a: Value) -> bool
    ensures { result ≡ truth_of a }
{
    match a {
        Value::Truth(p) => p,
        _ => false,
    }
}

fn number(a: Value) -> i128
    ensures { result ≡ number_of a }
{
    match a {
        Value::Whole(n) => n,
        _ => 0,
    }
}

fn checked(a: Value) -> Option<Value>
    ensures { result ≡ some_if (in_range a) a }
{
    match a {
        Value::Whole(n) if n == i128::MIN => None,
        _ => Some(a),
    }
}

fn checked_number(n: Option<i128>) -> Option<Value>
    ensures { MatchOption n (result ≡ None) (λ m. result ≡ some_if (in_range (Value.Whole m)) (Value.Whole m)) }
{
    match n {
        Some(m) => checked(Value::Whole(m)),
        None => None,
    }
}

/// The quotient that leaves no negative remainder. By 0 it is -1 of a negative number, and else 0.
fn quotient(a: i128, divisor: i128) -> i128
    requires { IsTrue (in_range (Value.Whole a)) }
    ensures { result ≡ quotient a divisor }
{
    if divisor != 0 {
        a.div_euclid(divisor)
    } else if a < 0 {
        -1
    } else {
        0
    }
}

/// The remainder that isn't negative. By 0 it is 0 of a negative number, and else the number itself.
fn remainder(a: i128, divisor: i128) -> i128
    requires { IsTrue (in_range (Value.Whole a)) }
    ensures { result ≡ remainder a divisor }
{
    if divisor != 0 {
        a.rem_euclid(divisor)
    } else if a < 0 {
        0
    } else {
        a
    }
}

/// One step of an operator that folds from the left.
fn step(operator: Operator, a: Value, b: Value) -> Option<Value>
    requires folds { IsTrue (folds operator) }
    requires range { IsTrue (in_range a) }
    ensures { result ≡ some_if (in_range (binary operator a b)) (binary operator a b) }
{
    match operator {
        Operator::And => Some(Value::Truth(truth(a) && truth(b))),
        Operator::Or => Some(Value::Truth(truth(a) || truth(b))),
        Operator::Xor => Some(Value::Truth(truth(a) != truth(b))),
        Operator::Add => checked_number(number(a).checked_add(number(b))),
        Operator::Subtract => checked_number(number(a).checked_sub(number(b))),
        Operator::Divide => checked(Value::Whole(quotient(number(a), number(b)))),
        _ => checked_number(number(a).checked_mul(number(b))),
    }
}

fn fold(operator: Operator, arguments: &[Value]) -> Option<Value>
    requires folds { IsTrue (folds operator) }
    requires ranges { IsTrue (all_in_range arguments.now) }
    ensures { result ≡ fitted_fold operator arguments.now }
{
    if arguments.is_empty() {
        return Some(Value::Truth(false));
    }
    let mut sum = arguments[0];
    for i in 1..arguments.len() {
        match step(operator, sum, arguments[i]) {
            Some(next) => sum = next,
            None => return None,
        }
    }
    Some(sum)
}

fn related(operator: Operator, a: Value, b: Value) -> bool
    requires { IsTrue (chains operator) }
    ensures { result ≡ relation operator a b }
{
    match operator {
        Operator::Equal => same(a, b),
        Operator::AtMost => number(a) <= number(b),
        Operator::Less => number(a) < number(b),
        Operator::AtLeast => number(b) <= number(a),
        _ => number(b) < number(a),
    }
}

fn chain(operator: Operator, arguments: &[Value]) -> bool
    requires { IsTrue (chains operator) }
    ensures { result ≡ chainable (relation operator) arguments.now }
{
    if arguments.is_empty() {
        return true;
    }
    let mut last = arguments[0];
    for k in 1..arguments.len() {
        if !related(operator, last, arguments[k]) {
            return false;
        }
        last = arguments[k];
    }
    true
}

fn differs_from_each(a: Value, rest: &[Value]) -> bool
    ensures { result ≡ with_each differ a rest.now }
{
    for b in rest {
        if same(a, *b) {
            return false;
        }
    }
    true
}

fn distinct(arguments: &[Value]) -> bool
    ensures { result ≡ pairwise differ arguments.now }
{
    for i in 0..arguments.len() {
        if !differs_from_each(arguments[i], &arguments[i + 1..]) {
            return false;
        }
    }
    true
}

fn imply(arguments: &[Value]) -> Value
    ensures { result ≡ right_assoc (on_truths implies) arguments.now }
{
    if arguments.is_empty() {
        return Value::Truth(false);
    }
    let mut k = arguments.len() - 1;
    let mut from = arguments[k];
    while k > 0 {
        k -= 1;
        from = Value::Truth(!truth(arguments[k]) || truth(from));
    }
    from
}

fn negate(arguments: &[Value]) -> Value
    ensures { result ≡ negation arguments.now }
{
    if arguments.len() == 1 {
        Value::Truth(!truth(arguments[0]))
    } else {
        Value::Truth(false)
    }
}

fn choose(arguments: &[Value]) -> Value
    ensures { result ≡ choice arguments.now }
{
    if arguments.len() != 3 {
        return Value::Truth(false);
    }
    if truth(arguments[0]) {
        arguments[1]
    } else {
        arguments[2]
    }
}

fn subtract(arguments: &[Value]) -> Option<Value>
    requires { IsTrue (all_in_range arguments.now) }
    ensures { result ≡ fitted_op Operator.Subtract arguments.now }
{
    if arguments.len() == 1 {
        checked_number(number(arguments[0]).checked_neg())
    } else {
        fold(Operator::Subtract, arguments)
    }
}

/// What a division of the first argument by the second leaves over.
fn left_over(arguments: &[Value]) -> i128
    requires { IsTrue (all_in_range arguments.now) }
    ensures { result ≡ left_over arguments.now }
{
    if arguments.len() < 2 {
        return 0;
    }
    remainder(number(arguments[0]), number(arguments[1]))
}

fn magnitude(arguments: &[Value]) -> Option<Value>
    ensures { result ≡ fitted_op Operator.Absolute arguments.now }
{
    if arguments.len() == 1 {
        checked_number(number(arguments[0]).checked_abs())
    } else {
        Some(Value::Whole(0))
    }
}

fn operate(operator: Operator, arguments: &[Value]) -> Option<Value>
    requires { IsTrue (all_in_range arguments.now) }
    ensures { result ≡ fitted_op operator arguments.now }
{
    match operator {
        Operator::True => Some(Value::Truth(true)),
        Operator::False => Some(Value::Truth(false)),
        Operator::Not => Some(negate(arguments)),
        Operator::Implies => Some(imply(arguments)),
        Operator::Distinct => Some(Value::Truth(distinct(arguments))),
        Operator::Ite => Some(choose(arguments)),
        Operator::Subtract => subtract(arguments),
        Operator::And
        | Operator::Or
        | Operator::Xor
        | Operator::Add
        | Operator::Multiply
        | Operator::Divide => fold(operator, arguments),
        Operator::Modulo => Some(Value::Whole(left_over(arguments))),
        Operator::Divisible => Some(Value::Truth(left_over(arguments) == 0)),
        Operator::Absolute => magnitude(arguments),
        _ => Some(Value::Truth(chain(operator, arguments))),
    }
}

pub(crate) fn apply_head(interp: &Tables<'_>, head: Head, arguments: &[Value]) -> Option<Value>
    requires { IsTrue (all_in_range arguments.now) }
    ensures { result ≡ fitted_head (meaning interp.now) head arguments.now }
{
    match head {
        Head::Numeral(n) => checked(Value::Whole(n)),
        Head::Theory(operator) => operate(operator, arguments),
        Head::Symbol(symbol) => checked(look_up(interp, symbol, arguments)),
        Head::Place(_) => Some(Value::Truth(false)),
    }
}
