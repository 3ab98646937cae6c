//! Terms that are read, with what the judgement of the terms around them asks for.
ghost use Rattle.std.specs.Prelude.{◌≡◌, ◌&&◌, map, IfOk, OnErr};
ghost use Rattle.smt_meaning.specs.TreeShape.{is_constant_head, is_linear_operation, is_linear_at};
ghost use Rattle.smt_meaning.specs.Sorts.{trees_of};
ghost use Rattle.elaborate.specs.Values.{AreValues, IsNode, HasGrown, id_of, typed, all_constant, all_linear, one_varies};

use crate::divisors::{all_but_first_divide, has_quotient, is_quotient};
use crate::error::JudgeError;
use smt_meaning::{Head, Operator, Sort, TermId};
use std::alloc::{AllocError, Global};
use term_store::TermStore;

/// A term that is read: its place, its sort, whether it is built from numerals, `+`, `-` and `*` alone, and whether it is linear: each product in
/// it has at most one factor that is not, and only numerals other than 0 and their negations divide.
#[derive(Clone, Copy, Drop)]
pub(crate) struct Value {
    pub id: TermId,
    pub sort: Sort,
    pub constant: bool,
    pub linear: bool,
}

fn ids(alloc: Global, values: &[Value]) -> Result<Vec<TermId>, AllocError>
    ensures { IfOk result (λ v. v.items ≡ map id_of values.now) }
{
    values.iter().map(|value| value.id).collect(alloc)
}

fn are_constant(values: &[Value]) -> bool
    ensures { result ≡ all_constant values.now }
{
    for value in values {
        if !value.constant {
            return false;
        }
    }
    true
}

pub(crate) fn are_linear(values: &[Value]) -> bool
    ensures { result ≡ all_linear values.now }
{
    for value in values {
        if !value.linear {
            return false;
        }
    }
    true
}

/// Whether at most one of them isn't constant.
fn at_most_one_varies(values: &[Value]) -> bool
    ensures { result ≡ one_varies values.now }
{
    for (place, value) in values.iter().enumerate() {
        if !value.constant {
            return are_constant(&values[place + 1..]);
        }
    }
    true
}

fn is_constant_head(head: Head) -> bool
    ensures { result ≡ is_constant_head head }
{
    match head {
        Head::Numeral(_) => true,
        Head::Theory(operator) => is_arithmetic(operator),
        Head::Symbol(_) => false,
        Head::Place(_) => false,
    }
}

fn is_arithmetic(operator: Operator) -> bool
    ensures { result ≡ is_constant_head (Head.Theory operator) }
{
    match operator {
        Operator::Add | Operator::Subtract | Operator::Multiply => true,
        Operator::True
        | Operator::False
        | Operator::Not
        | Operator::And
        | Operator::Or
        | Operator::Xor
        | Operator::Implies
        | Operator::Equal
        | Operator::Distinct
        | Operator::Ite
        | Operator::AtMost
        | Operator::Less
        | Operator::AtLeast
        | Operator::Greater
        | Operator::Divide
        | Operator::Modulo
        | Operator::Absolute
        | Operator::Divisible => false,
    }
}

/// Whether an operator may be applied to these arguments: at most one factor isn't constant, and each divisor is a numeral other than 0, or the
/// negation of one.
pub(crate) fn is_linear_operation(
    operator: Operator,
    arguments: &[Value],
    store: &TermStore,
) -> bool
    requires { AreValues store.now.trees arguments.now }
    ensures { result ≡ is_linear_operation operator (trees_of (map (typed store.now.trees) arguments.now)) }
{
    match operator {
        Operator::Multiply => at_most_one_varies(arguments),
        Operator::Divide | Operator::Modulo | Operator::Divisible => all_but_first_divide(
            arguments, store,
        ),
        _ => true,
    }
}

/// Whether a term with this head and these arguments is linear, where they are.
fn is_linear_here(head: Head, arguments: &[Value], store: &TermStore) -> bool
    requires { AreValues store.now.trees arguments.now }
    ensures { result ≡ is_linear_at head (trees_of (map (typed store.now.trees) arguments.now)) }
{
    match head {
        Head::Theory(Operator::Multiply) => at_most_one_varies(arguments),
        Head::Theory(Operator::Divide) => is_quotient(arguments, store),
        Head::Theory(Operator::Modulo | Operator::Divisible) => has_quotient(arguments, store),
        _ => true,
    }
}

fn is_constant(head: Head, arguments: &[Value]) -> bool
    ensures { result ≡ (is_constant_head head && all_constant arguments.now) }
{
    is_constant_head(head) && are_constant(arguments)
}

fn is_linear(head: Head, arguments: &[Value], store: &TermStore) -> bool
    requires { AreValues store.now.trees arguments.now }
    ensures { result ≡ (is_linear_at head (trees_of (map (typed store.now.trees) arguments.now)) && all_linear arguments.now) }
{
    is_linear_here(head, arguments, store) && are_linear(arguments)
}

/// Stores a term, unless it was before.
pub(crate) fn stored(
    alloc: Global,
    head: Head,
    sort: Sort,
    arguments: &[Value],
    store: &mut TermStore,
) -> Result<Value, JudgeError>
    requires { AreValues store.old.trees arguments.now }
    ensures ok { IfOk result (λ v. IsNode head sort arguments.now store.old.trees store.new.trees v) }
    ensures memory { OnErr result (result ≡ Err JudgeError.Memory) }
    ensures longer { HasGrown store.old store.new }
{
    let ids = ids(alloc, arguments)?;
    let linear = is_linear(head, arguments, store);
    let id = store.intern(head, &ids)?;
    Ok(Value {
        id,
        sort,
        constant: is_constant(head, arguments),
        linear,
    })
}
