//! The head of a list.
//!
//! Why `(_ divisible n)` is looked at whole before anything of the application is judged: a list of
//! any other form, or with 0, is wrong arguments, and then a number past the range is told. Nothing
//! of it is a term: its symbol hides nothing and is hidden by nothing, and nothing of it is free.
//! Its numeral joins the terms all the same, as the second argument of the tree.
ghost use Rattle.std.specs.Prelude.{◌≡◌, ◌+◌, ◌≤◌, List, [], map, length, Some, IfOk, OnErr};
ghost use Rattle.smt_meaning.specs.declared.tokens.Token.{Token as TokenValue};
ghost use Rattle.smt_meaning.specs.Seen.{seen};
ghost use Rattle.smt_meaning.specs.Sexp.{Sexps};
ghost use Rattle.smt_meaning.specs.Term.{Tree};
ghost use Rattle.smt_meaning.specs.Sorts.{decimal, head_number};
ghost use Rattle.smt_laws.specs.Walk.{on_head};
ghost use Rattle.look_ahead.specs.Ahead.{ahead, AreEnds};
ghost use Rattle.elaborate.specs.Judged.{scope_of, rules_of};
ghost use Rattle.elaborate.specs.Frames.{variable_at};
ghost use Rattle.elaborate.specs.Steps.{FrameComes, IsLetHead, IsAnnotationHead, IsDivisorHead};

use crate::apply::{Rules, unknown, wrong_count};
use crate::bindings::Bindings;
use crate::error::JudgeError;
use crate::frame::Frame;
use crate::numeral::number;
use crate::operators::operator_named;
use look_ahead::{LookError, check_annotation, check_let, divisor};
use smt_meaning::{Bytes, Operator, Refusal, SExpr, Seq, TokenView, Word};
use smt_sorts::Table;
use std::alloc::Global;

/// An application of a name before its arguments. An `Err` is want of memory.
fn application(alloc: Global, name: &[u8], operator: Option<Operator>) -> Result<Frame, JudgeError>
    ensures ok { IfOk result (λ g. g ≡ Frame.Application name.now operator []) }
    ensures memory { OnErr result (result ≡ Err JudgeError.Memory) }
{
    match Bytes::copy(alloc, name) {
        Ok(name) => Ok(Frame::Application(name, operator, Seq::new(alloc))),
        Err(_) => Err(JudgeError::Memory),
    }
}

/// A name as the head of a list.
fn name_head(
    alloc: Global,
    rules: Rules,
    name: &[u8],
    bindings: &Bindings,
    table: &Table,
) -> Result<Frame, JudgeError>
    ensures { (tokens : List TokenValue) (ahead : Sexps) (ts : List Tree) → FrameComes (on_head (rules_of rules) (map (variable_at ts) bindings.now) (TokenValue.Symbol name.now) ahead) (scope_of table.now ts) tokens bindings.now result }
{
    let _ = rules.closed;
    match bindings.find(name) {
        Some(_) => Err(wrong_count(alloc, name)),
        None => match operator_named(name) {
            Some(operator) => application(alloc, name, Some(operator)),
            None => match table.lookup(name) {
                Some(_) => application(alloc, name, None),
                None => Err(unknown(alloc, TokenView::Symbol(name))),
            },
        },
    }
}

/// `let`, whose form is looked at first.
fn let_head(alloc: Global, term: &SExpr, ends: &[usize], place: usize) -> Result<Frame, JudgeError>
    requires ends { AreEnds term.now ends.now }
    requires within { place ≤ length term.now }
    ensures { IsLetHead (ahead term.now place) result }
{
    match check_let(alloc, term, ends, place) {
        Ok(()) => Ok(Frame::LetOpen),
        Err(LookError::Refused(why)) => Err(JudgeError::Refused(why)),
        Err(LookError::Memory) => Err(JudgeError::Memory),
    }
}

/// `!`, whose form is looked at first.
fn annotation_head(term: &SExpr, ends: &[usize], place: usize) -> Result<Frame, JudgeError>
    requires ends { AreEnds term.now ends.now }
    requires within { place ≤ length term.now }
    ensures { IsAnnotationHead (ahead term.now place) place result }
{
    if check_annotation(term, ends, place) {
        Ok(Frame::Annotation(place))
    } else {
        Err(JudgeError::Refused(Refusal::WrongArguments))
    }
}

/// A reserved word as the head of a list, before a place.
fn word_head(
    alloc: Global,
    rules: Rules,
    term: &SExpr,
    ends: &[usize],
    place: usize,
    word: Word,
    bindings: &Bindings,
    table: &Table,
) -> Result<Frame, JudgeError>
    requires ends { AreEnds term.now ends.now }
    requires within { place ≤ length term.now }
    ensures { (ts : List Tree) → FrameComes (on_head (rules_of rules) (map (variable_at ts) bindings.now) (TokenValue.Reserved word) (ahead term.now place)) (scope_of table.now ts) term.now bindings.now result }
{
    let _ = (rules.closed, bindings.len(), table.ids());
    match word {
        Word::Let => let_head(alloc, term, ends, place),
        Word::Exclamation => annotation_head(term, ends, place),
        _ => Err(unknown(alloc, TokenView::Reserved(word))),
    }
}

/// A token as the head of a list, before a place.
pub(crate) fn list_head(
    alloc: Global,
    rules: Rules,
    term: &SExpr,
    ends: &[usize],
    place: usize,
    token: TokenView<'_>,
    bindings: &Bindings,
    table: &Table,
) -> Result<Frame, JudgeError>
    requires ends { AreEnds term.now ends.now }
    requires within { place ≤ length term.now }
    ensures { (ts : List Tree) → FrameComes (on_head (rules_of rules) (map (variable_at ts) bindings.now) (seen token.entry) (ahead term.now place)) (scope_of table.now ts) term.now bindings.now result }
{
    match token {
        TokenView::Symbol(name) => name_head(alloc, rules, name, bindings, table),
        TokenView::Reserved(word) => {
            word_head(alloc, rules, term, ends, place, word, bindings, table)
        }
        _ => Err(JudgeError::Refused(Refusal::WrongArguments)),
    }
}

/// The number that these digits write, where a head may divide by it: at least 1.
fn divisor_written(digits: &[u8]) -> Result<u128, Refusal>
    ensures { IsDivisorHead (Some (decimal digits.now)) result }
{
    match number(digits) {
        Some(number) => {
            if number == 0 {
                Err(Refusal::WrongArguments)
            } else {
                Ok(number)
            }
        }
        None => Err(Refusal::NumeralTooLarge),
    }
}

/// The number by which a head divides, whose list's inside begins at a place.
pub(crate) fn divisor_head(term: &SExpr, ends: &[usize], place: usize) -> Result<u128, Refusal>
    requires ends { AreEnds term.now ends.now }
    requires within { place ≤ length term.now }
    ensures { IsDivisorHead (head_number (ahead term.now place)) result }
{
    match divisor(term, ends, place) {
        Some(digits) => divisor_written(digits),
        None => Err(Refusal::WrongArguments),
    }
}
