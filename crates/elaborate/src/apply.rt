//! Applications of operators and of declared functions.
ghost use Rattle.std.specs.Prelude.{◌≡◌, ◌||◌, ◌&&◌, map, not, length, nat_eq, nat_le, None};
ghost use Rattle.smt_meaning.specs.Seen.{seen};
ghost use Rattle.smt_meaning.specs.Signature.{sorts_eq, find_function};
ghost use Rattle.smt_sorts.specs.Names.{signature};
ghost use Rattle.smt_meaning.specs.Sorts.{judge_application, judge_bare, judge_symbol, judge_divisible, known_symbol, trees_of, operator as theory, function};
ghost use Rattle.elaborate.specs.Judged.{scope_of, rules_of};
ghost use Rattle.elaborate.specs.Values.{AreValues, Comes, IsErrorOf, HasGrown, sort_of, typed};
ghost use Rattle.elaborate.specs.Frames.{IsDivisor};

use crate::definitions::apply_definition;
use crate::error::JudgeError;
use crate::operation::{divisible_by, operated};
use crate::operators::{operator_sort, same_sort, stands_bare, takes};
use crate::value::{Value, are_linear, is_linear_operation, stored};
use smt_meaning::{Bytes, Declaration, Head, Operator, Refusal, Seq, Sort, TokenView};
use smt_sorts::Table;
use std::alloc::Global;
use term_store::TermStore;

/// What is allowed where a term stands: names for terms, and terms that aren't linear where there are parameters.
#[derive(Clone, Copy, Drop)]
pub(crate) struct Rules {
    pub naming: bool,
    pub closed: bool,
}

/// The head has another number of arguments.
pub(crate) fn wrong_count(alloc: Global, name: &[u8]) -> JudgeError
    ensures { IsErrorOf (Refusal.ArgumentCount name.now) result }
{
    match Bytes::copy(alloc, name) {
        Ok(name) => JudgeError::Refused(Refusal::ArgumentCount(name)),
        Err(_) => JudgeError::Memory,
    }
}

/// The arguments' sorts aren't the head's.
pub(crate) fn wrong_sorts(alloc: Global, name: &[u8]) -> JudgeError
    ensures { IsErrorOf (Refusal.SortsDiffer name.now) result }
{
    match Bytes::copy(alloc, name) {
        Ok(name) => JudgeError::Refused(Refusal::SortsDiffer(name)),
        Err(_) => JudgeError::Memory,
    }
}

/// A token that stands for nothing known.
pub(crate) fn unknown(alloc: Global, token: TokenView<'_>) -> JudgeError
    ensures { IsErrorOf (Refusal.UnknownSymbol (seen token.entry)) result }
{
    match token.to_token(alloc) {
        Ok(token) => JudgeError::Refused(Refusal::UnknownSymbol(token)),
        Err(_) => JudgeError::Memory,
    }
}

/// An operator with its arguments.
pub(crate) fn apply_operator(
    alloc: Global,
    rules: Rules,
    name: &[u8],
    operator: Operator,
    arguments: &[Value],
    table: &Table,
    store: &mut TermStore,
) -> Result<Value, JudgeError>
    requires { AreValues store.old.trees arguments.now }
    ensures comes { Comes (judge_application (rules_of rules) name.now (theory operator) (map (typed store.old.trees) arguments.now)) (scope_of table.now store.old.trees) store.new.trees result }
    ensures longer { HasGrown store.old store.new }
{
    let _ = table.ids();
    if !takes(operator, arguments.len()) {
        return Err(wrong_count(alloc, name));
    }
    let sort = match operator_sort(operator, arguments) {
        Some(sort) => sort,
        None => return Err(wrong_sorts(alloc, name)),
    };
    if !may_stand(rules, is_linear_operation(operator, arguments, store)) {
        return Err(JudgeError::Refused(Refusal::NotLinear));
    }
    operated(alloc, operator, sort, arguments, store)
}

/// A head that divides by a number, with its arguments.
pub(crate) fn apply_divisible(
    alloc: Global,
    rules: Rules,
    number: u128,
    arguments: &[Value],
    table: &Table,
    store: &mut TermStore,
) -> Result<Value, JudgeError>
    requires values { AreValues store.old.trees arguments.now }
    requires divisor { IsDivisor number }
    ensures comes { Comes (judge_divisible (rules_of rules) number (map (typed store.old.trees) arguments.now)) (scope_of table.now store.old.trees) store.new.trees result }
    ensures longer { HasGrown store.old store.new }
{
    let _ = (rules.closed, table.ids());
    if arguments.len() != 1 {
        return Err(wrong_count(alloc, b"divisible".as_slice()));
    }
    if !same_sort(arguments[0].sort, Sort::Int) {
        return Err(wrong_sorts(alloc, b"divisible".as_slice()));
    }
    divisible_by(alloc, arguments[0], number, store)
}

/// Products and divisors are judged only where there are no parameters.
pub(crate) fn may_stand(rules: Rules, linear: bool) -> bool
    ensures { result ≡ (not rules.closed || linear) }
{
    !rules.closed || linear
}

/// An operator without arguments.
pub(crate) fn bare_operator(
    alloc: Global,
    rules: Rules,
    name: &[u8],
    operator: Operator,
    table: &Table,
    store: &mut TermStore,
) -> Result<Value, JudgeError>
    ensures comes { Comes (judge_bare (rules_of rules) name.now (theory operator)) (scope_of table.now store.old.trees) store.new.trees result }
    ensures longer { HasGrown store.old store.new }
{
    let _ = (table.ids(), rules.closed);
    if !stands_bare(operator) {
        return Err(wrong_count(alloc, name));
    }
    stored(alloc, Head::Theory(operator), Sort::Bool, &[], store)
}

/// Whether the arguments have these sorts, each its own.
pub(crate) fn have_sorts(arguments: &[Value], sorts: &[Sort]) -> bool
    requires { length arguments.now ≡ length sorts.now }
    ensures { result ≡ sorts_eq (map sort_of arguments.now) sorts.now }
{
    for place in 0..arguments.len() {
        if !same_sort(arguments[place].sort, sorts[place]) {
            return false;
        }
    }
    true
}

/// A declared function, or a definition, with its arguments put in.
pub(crate) fn apply_symbol(
    alloc: Global,
    rules: Rules,
    declaration: &Declaration,
    arguments: &[Value],
    table: &Table,
    store: &mut TermStore,
) -> Result<Value, JudgeError>
    requires { AreValues store.old.trees arguments.now }
    ensures comes { Comes (judge_symbol (rules_of rules) declaration.now (trees_of (map (typed store.old.trees) arguments.now))) (scope_of table.now store.old.trees) store.new.trees result }
    ensures longer { HasGrown store.old store.new }
{
    match declaration.body() {
        Some(body) => { apply_definition(alloc, rules, declaration, body, arguments, table, store) }
        None => apply_declared(alloc, rules, declaration, arguments, table, store),
    }
}

/// A declared function with its arguments.
fn apply_declared(
    alloc: Global,
    rules: Rules,
    declaration: &Declaration,
    arguments: &[Value],
    table: &Table,
    store: &mut TermStore,
) -> Result<Value, JudgeError>
    requires values { AreValues store.old.trees arguments.now }
    requires declared { declaration.now.body ≡ None }
    ensures comes { Comes (judge_symbol (rules_of rules) declaration.now (trees_of (map (typed store.old.trees) arguments.now))) (scope_of table.now store.old.trees) store.new.trees result }
    ensures longer { HasGrown store.old store.new }
{
    let _ = table.ids();
    if !may_stand(rules, are_linear(arguments)) {
        return Err(JudgeError::Refused(Refusal::NotLinear));
    }
    let id = declaration.id();
    let rank = declaration.rank();
    stored(alloc, Head::Symbol(id), rank.result, arguments, store)
}

/// The head of a list has at least one argument.
pub(crate) fn is_count(count: usize, wanted: usize) -> bool
    ensures { result ≡ (nat_eq count wanted && nat_le 1 count) }
{
    count == wanted && count >= 1
}

pub(crate) fn is_zero(count: usize) -> bool
    ensures { result ≡ nat_eq count 0 }
{
    count == 0
}

/// A function as the head of a list.
pub(crate) fn apply_function(
    alloc: Global,
    rules: Rules,
    name: &[u8],
    declaration: &Declaration,
    arguments: &[Value],
    table: &Table,
    store: &mut TermStore,
) -> Result<Value, JudgeError>
    requires { AreValues store.old.trees arguments.now }
    ensures comes { Comes (judge_application (rules_of rules) name.now (function declaration.now) (map (typed store.old.trees) arguments.now)) (scope_of table.now store.old.trees) store.new.trees result }
    ensures longer { HasGrown store.old store.new }
{
    let rank = declaration.rank();
    let sorts = rank.arguments.as_slice();
    if !is_count(arguments.len(), sorts.len()) {
        return Err(wrong_count(alloc, name));
    }
    if !have_sorts(arguments, sorts) {
        return Err(wrong_sorts(alloc, name));
    }
    apply_symbol(alloc, rules, declaration, arguments, table, store)
}

/// A function that stands bare.
pub(crate) fn bare_function(
    alloc: Global,
    rules: Rules,
    name: &[u8],
    declaration: &Declaration,
    table: &Table,
    store: &mut TermStore,
) -> Result<Value, JudgeError>
    ensures comes { Comes (judge_bare (rules_of rules) name.now (function declaration.now)) (scope_of table.now store.old.trees) store.new.trees result }
    ensures longer { HasGrown store.old store.new }
{
    let rank = declaration.rank();
    let count = rank.arguments.len();
    if !is_zero(count) {
        return Err(wrong_count(alloc, name));
    }
    apply_symbol(alloc, rules, declaration, &[], table, store)
}

/// A name with its arguments: an operator, or a declared function.
pub(crate) fn apply_name(
    alloc: Global,
    rules: Rules,
    name: &Bytes,
    operator: Option<Operator>,
    arguments: &Seq<Value>,
    table: &Table,
    store: &mut TermStore,
) -> Result<Value, JudgeError>
    requires { AreValues store.old.trees arguments.now }
    ensures comes { Comes (judge_application (rules_of rules) name.now (known_symbol operator (find_function name.now (signature table.now))) (map (typed store.old.trees) arguments.now)) (scope_of table.now store.old.trees) store.new.trees result }
    ensures longer { HasGrown store.old store.new }
{
    let name = name.as_slice();
    let given = arguments.as_slice();
    match operator {
        Some(known) => apply_operator(alloc, rules, name, known, given, table, store),
        None => match table.lookup(name) {
            Some(declaration) => {
                apply_function(alloc, rules, name, declaration, given, table, store)
            }
            None => Err(unknown(alloc, TokenView::Symbol(name))),
        },
    }
}
