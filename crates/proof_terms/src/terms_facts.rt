//! What is kept of each different tree of a proof's terms, and what follows of a term from its arguments.
ghost use Rattle.std.specs.Prelude.{◌≡◌, ◌⊎◌, ◌&&◌, true, false, map, length, Some, None, IfSome, IfNone};
ghost use Rattle.smt_meaning.specs.Stack.{signature_of};
ghost use Rattle.smt_meaning.specs.Signature.{sort_eq, sorts_eq, all_of, all_the_same, ite_sort, if_so, operator_sort, symbol_sort};
ghost use Rattle.proof_meaning.specs.Proof.{is_written, written_sort};
ghost use Rattle.smt_meaning.specs.TreeShape.{is_arithmetic, is_constant_head};
ghost use Rattle.proof_terms.specs.TermFacts.{sorts_of, numeral_sort, all_constant, one_varies, is_linear_here};

use scope_stack::Stack;
use smt_meaning::{Declaration, Head, Operator, Sort, TermId};

/// What is kept of a tree.
#[derive(Clone, Copy, Drop)]
pub(crate) struct Fact {
    pub(crate) sort: Sort,
    /// Whether it is built from numerals, `+`, `-` and `*` alone.
    pub(crate) constant: bool,
    /// The first term with this tree.
    pub(crate) first: TermId,
    /// Its place among the terms of the stack, if it is one of them.
    pub(crate) held: Option<TermId>,
}

fn same_sort(left: Sort, right: Sort) -> bool
    ensures { result ≡ sort_eq left right }
{
    match left {
        Sort::Bool => match right {
            Sort::Bool => true,
            Sort::Int => false,
            Sort::Free(_) => false,
        },
        Sort::Int => match right {
            Sort::Bool => false,
            Sort::Int => true,
            Sort::Free(_) => false,
        },
        Sort::Free(first) => match right {
            Sort::Bool => false,
            Sort::Int => false,
            Sort::Free(second) => first == second,
        },
    }
}

fn all_have(sort: Sort, arguments: &[Fact]) -> bool
    ensures { result ≡ all_of sort (sorts_of arguments.now) }
{
    for argument in arguments {
        if !same_sort(sort, argument.sort) {
            return false;
        }
    }
    true
}

fn are_alike(arguments: &[Fact]) -> bool
    ensures { result ≡ all_the_same (sorts_of arguments.now) }
{
    match arguments.split_first() {
        Some((first, rest)) => all_have(first.sort, rest),
        None => true,
    }
}

fn sort_where(holds: bool, sort: Sort) -> Option<Sort>
    ensures { result ≡ if_so holds sort }
{
    if holds { Some(sort) } else { None }
}

fn choice_sort(arguments: &[Fact]) -> Option<Sort>
    ensures { result ≡ ite_sort (sorts_of arguments.now) }
{
    if arguments.len() != 3 {
        return None;
    }
    let fits = same_sort(arguments[0].sort, Sort::Bool)
        && same_sort(arguments[1].sort, arguments[2].sort);
    sort_where(fits, arguments[1].sort)
}

/// Whether an operator is written with so many arguments.
fn is_written(operator: Operator, count: usize) -> bool
    ensures { result ≡ is_written operator count }
{
    match operator {
        Operator::True | Operator::False => count == 0,
        Operator::Not | Operator::Absolute => count == 1,
        Operator::And | Operator::Or | Operator::Add | Operator::Subtract | Operator::Multiply => {
            count >= 1
        }
        Operator::Modulo => count == 2,
        Operator::Ite => count == 3,
        Operator::Divisible => false,
        Operator::Divide
        | Operator::Xor
        | Operator::Implies
        | Operator::Equal
        | Operator::Distinct
        | Operator::AtMost
        | Operator::Less
        | Operator::AtLeast
        | Operator::Greater => count >= 2,
    }
}

fn operator_sort(operator: Operator, arguments: &[Fact]) -> Option<Sort>
    ensures { result ≡ operator_sort operator (sorts_of arguments.now) }
{
    match operator {
        Operator::True | Operator::False => Some(Sort::Bool),
        Operator::Equal | Operator::Distinct => sort_where(are_alike(arguments), Sort::Bool),
        Operator::Ite => choice_sort(arguments),
        Operator::Add
        | Operator::Subtract
        | Operator::Multiply
        | Operator::Divide
        | Operator::Modulo
        | Operator::Absolute => sort_where(all_have(Sort::Int, arguments), Sort::Int),
        Operator::AtMost
        | Operator::Less
        | Operator::AtLeast
        | Operator::Greater
        | Operator::Divisible => sort_where(all_have(Sort::Int, arguments), Sort::Bool),
        Operator::Not | Operator::And | Operator::Or | Operator::Xor | Operator::Implies => {
            sort_where(all_have(Sort::Bool, arguments), Sort::Bool)
        }
    }
}

/// Whether the arguments have these sorts, each its own.
fn have_sorts(arguments: &[Fact], sorts: &[Sort]) -> bool
    requires { length arguments.now ≡ length sorts.now }
    ensures { result ≡ sorts_eq (sorts_of arguments.now) sorts.now }
{
    for place in 0..arguments.len() {
        if !same_sort(arguments[place].sort, sorts[place]) {
            return false;
        }
    }
    true
}

/// Whether the arguments are as many as these sorts, and have them.
fn match_sorts(arguments: &[Fact], sorts: &[Sort]) -> bool
    ensures { result ≡ sorts_eq (sorts_of arguments.now) sorts.now }
{
    arguments.len() == sorts.len() && have_sorts(arguments, sorts)
}

fn declared_sort(declaration: &Declaration, arguments: &[Fact]) -> Option<Sort>
    ensures { result ≡ symbol_sort (Some declaration.now) (sorts_of arguments.now) }
{
    let rank = declaration.rank();
    if declaration.is_symbol() && match_sorts(arguments, rank.arguments.as_slice()) {
        Some(rank.result)
    } else {
        None
    }
}

/// The sort of a numeral, or, with an argument, of a divisibility by it.
fn numeral_sort(arguments: &[Fact]) -> Option<Sort>
    ensures { result ≡ numeral_sort (sorts_of arguments.now) }
{
    if arguments.is_empty() {
        return Some(Sort::Int);
    }
    if arguments.len() != 1 {
        return None;
    }
    sort_where(same_sort(arguments[0].sort, Sort::Int), Sort::Bool)
}

/// The sort of a term with this head and these arguments, if it has one.
fn written_sort(stack: &Stack, head: Head, arguments: &[Fact]) -> Option<Sort>
    ensures { result ≡ written_sort (signature_of stack.now.frames) head (sorts_of arguments.now) }
{
    match head {
        Head::Numeral(_) => numeral_sort(arguments),
        Head::Theory(operator) => {
            if is_written(operator, arguments.len()) {
                operator_sort(operator, arguments)
            } else {
                None
            }
        }
        Head::Symbol(id) => match stack.function_with_id(id) {
            Some(declaration) => declared_sort(declaration, arguments),
            None => None,
        },
        Head::Place(_) => None,
    }
}

fn are_constant(arguments: &[Fact]) -> bool
    ensures { result ≡ all_constant arguments.now }
{
    for argument in arguments {
        if !argument.constant {
            return false;
        }
    }
    true
}

/// Whether at most one of them isn't constant.
fn at_most_one_varies(arguments: &[Fact]) -> bool
    ensures { result ≡ one_varies arguments.now }
{
    for (place, argument) in arguments.iter().enumerate() {
        if !argument.constant {
            return are_constant(&arguments[place + 1..]);
        }
    }
    true
}

fn is_arithmetic(operator: Operator) -> bool
    ensures { result ≡ is_arithmetic operator }
{
    match operator {
        Operator::Add | Operator::Subtract | Operator::Multiply => true,
        Operator::True
        | Operator::False
        | Operator::Not
        | Operator::And
        | Operator::Or
        | Operator::Xor
        | Operator::Implies
        | Operator::Equal
        | Operator::Distinct
        | Operator::Ite
        | Operator::AtMost
        | Operator::Less
        | Operator::AtLeast
        | Operator::Greater
        | Operator::Divide
        | Operator::Modulo
        | Operator::Absolute
        | Operator::Divisible => false,
    }
}

fn is_constant_head(head: Head) -> bool
    ensures { result ≡ is_constant_head head }
{
    match head {
        Head::Numeral(_) => true,
        Head::Theory(operator) => is_arithmetic(operator),
        Head::Symbol(_) => false,
        Head::Place(_) => false,
    }
}

/// Whether a term with this head and these arguments is built from numerals, `+`, `-` and `*` alone.
pub(crate) fn is_constant(head: Head, arguments: &[Fact]) -> bool
    ensures { result ≡ (is_constant_head head && all_constant arguments.now) }
{
    is_constant_head(head) && are_constant(arguments)
}

/// Whether a product of these factors has at most one that isn't constant; true of other terms.
fn is_linear_here(head: Head, arguments: &[Fact]) -> bool
    ensures { result ≡ is_linear_here head arguments.now }
{
    if head == Head::Theory(Operator::Multiply) {
        at_most_one_varies(arguments)
    } else {
        true
    }
}

/// The sort of a term that an assertion may have: it has one, and as a product it is linear.
pub(crate) fn judge(stack: &Stack, head: Head, arguments: &[Fact]) -> Option<Sort>
    ensures some { IfSome result (λ s. (written_sort (signature_of stack.now.frames) head (sorts_of arguments.now) ≡ Some s) × (is_linear_here head arguments.now ≡ true)) }
    ensures none { IfNone result ((written_sort (signature_of stack.now.frames) head (sorts_of arguments.now) ≡ None) ⊎ (is_linear_here head arguments.now ≡ false)) }
{
    if is_linear_here(head, arguments) {
        written_sort(stack, head, arguments)
    } else {
        None
    }
}
