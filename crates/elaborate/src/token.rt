//! Terms of one token.
//!
//! A string token as a term is `E13` with the literal as written, its quotes doubled. A keyword or
//! a reserved word alone is `E8`.
ghost use Rattle.std.specs.Prelude.{◌≡◌, map};
ghost use Rattle.smt_meaning.specs.declared.tokens.Token.{Token};
ghost use Rattle.smt_meaning.specs.Seen.{seen};
ghost use Rattle.smt_meaning.specs.Sorts.{judge_token, judge_bare, judge_numeral, decimal, known_symbol};
ghost use Rattle.smt_meaning.specs.Signature.{look_up, operators, find_function};
ghost use Rattle.smt_sorts.specs.Names.{signature};
ghost use Rattle.elaborate.specs.Judged.{scope_of, rules_of};
ghost use Rattle.elaborate.specs.Values.{Comes, HasGrown};
ghost use Rattle.elaborate.specs.Frames.{AreBound, variable_at};

use crate::apply::{Rules, bare_function, bare_operator, unknown};
use crate::bindings::Bindings;
use crate::error::JudgeError;
use crate::numeral::{number, numeral};
use crate::operators::operator_named;
use crate::value::{Value, stored};
use smt_meaning::{Refusal, Sort, TokenView};
use smt_sorts::Table;
use std::alloc::Global;
use term_store::TermStore;

/// The term that a numeral's digits stand for.
fn judge_numeral(
    alloc: Global,
    digits: &[u8],
    table: &Table,
    store: &mut TermStore,
) -> Result<Value, JudgeError>
    ensures comes { Comes (judge_numeral (decimal digits.now)) (scope_of table.now store.old.trees) store.new.trees result }
    ensures longer { HasGrown store.old store.new }
{
    let _ = table.ids();
    match number(digits) {
        Some(number) => stored(alloc, numeral(number), Sort::Int, &[], store),
        None => Err(JudgeError::Refused(Refusal::NumeralTooLarge)),
    }
}

/// The term that a name stands for.
pub(crate) fn judge_name(
    alloc: Global,
    rules: Rules,
    name: &[u8],
    bindings: &Bindings,
    table: &Table,
    store: &mut TermStore,
) -> Result<Value, JudgeError>
    requires { AreBound store.old.trees bindings.now }
    ensures comes { Comes (judge_token (rules_of rules) (map (variable_at store.old.trees) bindings.now) (Token.Symbol name.now)) (scope_of table.now store.old.trees) store.new.trees result }
    ensures longer { HasGrown store.old store.new }
{
    match bindings.find(name) {
        Some(value) => Ok(value),
        None => judge_free(alloc, rules, name, table, store),
    }
}

/// The term that a name stands for where no variable has it.
fn judge_free(
    alloc: Global,
    rules: Rules,
    name: &[u8],
    table: &Table,
    store: &mut TermStore,
) -> Result<Value, JudgeError>
    ensures comes { Comes (judge_bare (rules_of rules) name.now (known_symbol (look_up name.now operators) (find_function name.now (signature table.now)))) (scope_of table.now store.old.trees) store.new.trees result }
    ensures longer { HasGrown store.old store.new }
{
    match operator_named(name) {
        Some(operator) => bare_operator(alloc, rules, name, operator, table, store),
        None => match table.lookup(name) {
            Some(declaration) => bare_function(alloc, rules, name, declaration, table, store),
            None => Err(unknown(alloc, TokenView::Symbol(name))),
        },
    }
}

/// The term that a token stands for.
pub(crate) fn judge_token(
    alloc: Global,
    rules: Rules,
    token: TokenView<'_>,
    bindings: &Bindings,
    table: &Table,
    store: &mut TermStore,
) -> Result<Value, JudgeError>
    requires { AreBound store.old.trees bindings.now }
    ensures comes { Comes (judge_token (rules_of rules) (map (variable_at store.old.trees) bindings.now) (seen token.entry)) (scope_of table.now store.old.trees) store.new.trees result }
    ensures longer { HasGrown store.old store.new }
{
    match token {
        TokenView::Symbol(name) => judge_name(alloc, rules, name, bindings, table, store),
        TokenView::Numeral(digits) => judge_numeral(alloc, digits, table, store),
        TokenView::Decimal(_) | TokenView::Hex(_) | TokenView::Binary(_) | TokenView::Text(_) =>
            Err(unknown(alloc, token)),
        _ => Err(JudgeError::Refused(Refusal::WrongArguments)),
    }
}
