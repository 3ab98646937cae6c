//! One token of a term.
ghost use Rattle.std.specs.Prelude.{◌≡◌, ◌+◌, ◌<◌, ◌≤◌, ◌∷◌, List, None, true, false, drop, length};
ghost use Rattle.smt_meaning.specs.declared.tokens.Token.{Token as TokenValue};
ghost use Rattle.smt_meaning.specs.Seen.{seen};
ghost use Rattle.smt_meaning.specs.Sexp.{Sexps, open_lists_of};
ghost use Rattle.smt_meaning.specs.Term.{Tree};
ghost use Rattle.look_ahead.specs.Ahead.{ahead, AreEnds};
ghost use Rattle.smt_meaning.specs.Sorts.{Scope};
ghost use Rattle.smt_laws.specs.Walk.{step, on_words, on_enter, on_leave};
ghost use Rattle.elaborate.specs.Judged.{scope_of, rules_of};
ghost use Rattle.elaborate.specs.Values.{HasGrown};
ghost use Rattle.elaborate.specs.Frames.{walk_of, Stands};
ghost use Rattle.elaborate.specs.Steps.{class_of, kind_of, awaits_term, is_argument, is_divided, is_head, is_name, takes_list, StepComes};

use crate::apply::{Rules, apply_divisible, apply_name};
use crate::error::JudgeError;
use crate::forms::{leave_form, word_form};
use crate::frame::{Frame, Walk};
use crate::head::{divisor_head, list_head};
use crate::token::judge_token;
use crate::walk::{
    awaits_term, give, is_answered, is_argument, is_divided, is_head, is_past, may_end, push,
    takes_list, takes_word, what_comes,
};
use smt_meaning::{Refusal, SExpr, Seq, TokenView};
use smt_sorts::Table;
use std::alloc::Global;
use term_store::TermStore;

/// What kind of token one is.
#[derive(Clone, Copy, Drop)]
pub(crate) enum Class {
    /// `(`
    Opening,
    /// `)`
    Closing,
    /// Any other token.
    Word,
}

pub(crate) fn class_of(token: TokenView<'_>) -> Class
    ensures { result ≡ class_of (seen token.entry) }
{
    match token {
        TokenView::Enter => Class::Opening,
        TokenView::Leave => Class::Closing,
        TokenView::Numeral(_) => Class::Word,
        TokenView::Decimal(_) => Class::Word,
        TokenView::Hex(_) => Class::Word,
        TokenView::Binary(_) => Class::Word,
        TokenView::Text(_) => Class::Word,
        TokenView::Symbol(_) => Class::Word,
        TokenView::Reserved(_) => Class::Word,
        TokenView::Keyword(_) => Class::Word,
    }
}

/// A token where a term may stand.
fn word_term(
    alloc: Global,
    rules: Rules,
    token: TokenView<'_>,
    walk: &mut Walk,
    table: &Table,
    store: &mut TermStore,
) -> Result<(), JudgeError>
    requires stands { Stands (scope_of table.now store.old.trees) walk.old }
    requires kind { awaits_term (kind_of walk.old.answer walk.old.frames) ≡ true }
    ensures comes { (tokens : List TokenValue) (ahead : Sexps) → StepComes (on_words (rules_of rules) (walk_of tokens (scope_of table.now store.old.trees) walk.old) (seen token.entry) ahead) (scope_of table.now store.old.trees) tokens (scope_of table.now store.new.trees) walk.new result }
    ensures longer { HasGrown store.old store.new }
{
    match judge_token(alloc, rules, token, &walk.bindings, table, store) {
        Ok(value) => match give(walk, value) {
            Ok(()) => Ok(()),
            Err(_) => Err(JudgeError::Memory),
        },
        Err(error) => Err(error),
    }
}

/// `(` that begins neither a term nor a head.
fn enter_form(alloc: Global, walk: &mut Walk) -> Result<(), JudgeError>
    requires none { walk.old.answer ≡ None }
    requires kind { takes_list (kind_of walk.old.answer walk.old.frames) ≡ true }
    ensures { (tokens : List TokenValue) (s : Scope) (ahead : Sexps) → Stands s walk.old → StepComes (on_enter (walk_of tokens s walk.old) ahead) s tokens s walk.new result }
{
    match walk.frames.pop() {
        Some(Frame::LetOpen) => push(walk, Frame::Bindings(Seq::new(alloc))),
        Some(Frame::Bindings(bound)) => push(walk, Frame::BindingOpen(bound)),
        Some(Frame::Attributes(value, place, depth)) => match depth.checked_add(1) {
            Some(deeper) => push(walk, Frame::Attributes(value, place, deeper)),
            None => Err(JudgeError::Memory),
        },
        Some(Frame::Dividing(number, depth)) => match depth.checked_add(1) {
            Some(deeper) => push(walk, Frame::Dividing(number, deeper)),
            None => Err(JudgeError::Memory),
        },
        _ => unreachable!(),
    }
}

/// `(` that begins the head of a list, before a place.
fn enter_head(term: &SExpr, ends: &[usize], place: usize, walk: &mut Walk) -> Result<(), JudgeError>
    requires ends { AreEnds term.now ends.now }
    requires within { place ≤ length term.now }
    requires kind { is_head (kind_of walk.old.answer walk.old.frames) ≡ true }
    ensures { (s : Scope) → Stands s walk.old → StepComes (on_enter (walk_of term.now s walk.old) (ahead term.now place)) s term.now s walk.new result }
{
    match divisor_head(term, ends, place) {
        Ok(number) => {
            let frame = Frame::Dividing(number, 0);
            match walk.frames.pop() {
                Some(_) => push(walk, frame),
                None => unreachable!(),
            }
        }
        Err(why) => Err(JudgeError::Refused(why)),
    }
}

/// `(`, before a place.
pub(crate) fn enter(
    alloc: Global,
    term: &SExpr,
    ends: &[usize],
    place: usize,
    walk: &mut Walk,
) -> Result<(), JudgeError>
    requires ends { AreEnds term.now ends.now }
    requires within { place ≤ length term.now }
    ensures { (s : Scope) → Stands s walk.old → StepComes (on_enter (walk_of term.now s walk.old) (ahead term.now place)) s term.now s walk.new result }
{
    let kind = what_comes(walk);
    if is_answered(kind) {
        return Ok(());
    }
    if awaits_term(kind) {
        return push(walk, Frame::Opened);
    }
    if takes_list(kind) {
        return enter_form(alloc, walk);
    }
    if is_head(kind) {
        return enter_head(term, ends, place, walk);
    }
    Err(JudgeError::Refused(Refusal::WrongArguments))
}

/// The end of an application.
fn leave_application(
    alloc: Global,
    rules: Rules,
    walk: &mut Walk,
    table: &Table,
    store: &mut TermStore,
) -> Result<(), JudgeError>
    requires stands { Stands (scope_of table.now store.old.trees) walk.old }
    requires kind { is_argument (kind_of walk.old.answer walk.old.frames) ≡ true }
    ensures comes { (tokens : List TokenValue) → StepComes (on_leave (rules_of rules) (walk_of tokens (scope_of table.now store.old.trees) walk.old)) (scope_of table.now store.old.trees) tokens (scope_of table.now store.new.trees) walk.new result }
    ensures longer { HasGrown store.old store.new }
{
    match walk.frames.pop() {
        Some(Frame::Application(name, operator, arguments)) => {
            match apply_name(alloc, rules, &name, operator, &arguments, table, store) {
                Ok(value) => match give(walk, value) {
                    Ok(()) => Ok(()),
                    Err(_) => Err(JudgeError::Memory),
                },
                Err(error) => Err(error),
            }
        }
        _ => unreachable!(),
    }
}

/// The end of a list whose head divides by a number.
fn leave_division(
    alloc: Global,
    rules: Rules,
    walk: &mut Walk,
    table: &Table,
    store: &mut TermStore,
) -> Result<(), JudgeError>
    requires stands { Stands (scope_of table.now store.old.trees) walk.old }
    requires kind { is_divided (kind_of walk.old.answer walk.old.frames) ≡ true }
    ensures comes { (tokens : List TokenValue) → StepComes (on_leave (rules_of rules) (walk_of tokens (scope_of table.now store.old.trees) walk.old)) (scope_of table.now store.old.trees) tokens (scope_of table.now store.new.trees) walk.new result }
    ensures longer { HasGrown store.old store.new }
{
    match walk.frames.pop() {
        Some(Frame::Division(number, arguments)) => {
            match apply_divisible(alloc, rules, number, arguments.as_slice(), table, store) {
                Ok(value) => match give(walk, value) {
                    Ok(()) => Ok(()),
                    Err(_) => Err(JudgeError::Memory),
                },
                Err(error) => Err(error),
            }
        }
        _ => unreachable!(),
    }
}

/// `)`
pub(crate) fn leave(
    alloc: Global,
    rules: Rules,
    walk: &mut Walk,
    table: &Table,
    store: &mut TermStore,
) -> Result<(), JudgeError>
    requires stands { Stands (scope_of table.now store.old.trees) walk.old }
    ensures comes { (tokens : List TokenValue) → StepComes (on_leave (rules_of rules) (walk_of tokens (scope_of table.now store.old.trees) walk.old)) (scope_of table.now store.old.trees) tokens (scope_of table.now store.new.trees) walk.new result }
    ensures longer { HasGrown store.old store.new }
{
    let kind = what_comes(walk);
    if is_answered(kind) {
        return Ok(());
    }
    if is_argument(kind) {
        return leave_application(alloc, rules, walk, table, store);
    }
    if is_divided(kind) {
        return leave_division(alloc, rules, walk, table, store);
    }
    if may_end(kind) {
        return leave_form(alloc, walk);
    }
    Err(JudgeError::Refused(Refusal::WrongArguments))
}

/// The head of a list, before a place.
fn head(
    alloc: Global,
    rules: Rules,
    term: &SExpr,
    ends: &[usize],
    place: usize,
    token: TokenView<'_>,
    walk: &mut Walk,
    table: &Table,
) -> Result<(), JudgeError>
    requires ends { AreEnds term.now ends.now }
    requires within { place ≤ length term.now }
    requires kind { is_head (kind_of walk.old.answer walk.old.frames) ≡ true }
    ensures { (ts : List Tree) → Stands (scope_of table.now ts) walk.old → StepComes (on_words (rules_of rules) (walk_of term.now (scope_of table.now ts) walk.old) (seen token.entry) (ahead term.now place)) (scope_of table.now ts) term.now (scope_of table.now ts) walk.new result }
{
    match list_head(
        alloc,
        rules,
        term,
        ends,
        place,
        token,
        &walk.bindings,
        table,
    ) {
        Ok(frame) => match walk.frames.pop() {
            Some(_) => push(walk, frame),
            None => unreachable!(),
        },
        Err(error) => Err(error),
    }
}

/// A token that is no parenthesis, before a place.
pub(crate) fn word(
    alloc: Global,
    rules: Rules,
    term: &SExpr,
    ends: &[usize],
    place: usize,
    token: TokenView<'_>,
    walk: &mut Walk,
    table: &Table,
    store: &mut TermStore,
) -> Result<(), JudgeError>
    requires ends { AreEnds term.now ends.now }
    requires within { place ≤ length term.now }
    requires stands { Stands (scope_of table.now store.old.trees) walk.old }
    requires unnamed { is_name (kind_of walk.old.answer walk.old.frames) ≡ true → rules.naming ≡ false }
    ensures comes { StepComes (on_words (rules_of rules) (walk_of term.now (scope_of table.now store.old.trees) walk.old) (seen token.entry) (ahead term.now place)) (scope_of table.now store.old.trees) term.now (scope_of table.now store.new.trees) walk.new result }
    ensures longer { HasGrown store.old store.new }
{
    let kind = what_comes(walk);
    if is_past(kind) {
        return Ok(());
    }
    if awaits_term(kind) {
        return word_term(alloc, rules, token, walk, table, store);
    }
    if is_head(kind) {
        return head(alloc, rules, term, ends, place, token, walk, table);
    }
    if takes_word(kind) {
        return word_form(alloc, rules, token, walk);
    }
    Err(JudgeError::Refused(Refusal::WrongArguments))
}

/// The token at a place, where no names are given to terms.
pub(crate) fn step(
    alloc: Global,
    rules: Rules,
    term: &SExpr,
    ends: &[usize],
    place: usize,
    walk: &mut Walk,
    table: &Table,
    store: &mut TermStore,
) -> Result<(), JudgeError>
    requires ends { AreEnds term.now ends.now }
    requires within { place < length term.now }
    requires stands { Stands (scope_of table.now store.old.trees) walk.old }
    requires unnamed { rules.naming ≡ false }
    ensures comes { (t : TokenValue) → drop place term.now ≡ t ∷ drop (place + 1) term.now → StepComes (step (rules_of rules) (walk_of term.now (scope_of table.now store.old.trees) walk.old) t (open_lists_of (drop (place + 1) term.now))) (scope_of table.now store.old.trees) term.now (scope_of table.now store.new.trees) walk.new result }
    ensures longer { HasGrown store.old store.new }
{
    let token = term.token(place);
    let next = place + 1;
    match class_of(token) {
        Class::Opening => enter(alloc, term, ends, next, walk),
        Class::Closing => leave(alloc, rules, walk, table, store),
        Class::Word => word(alloc, rules, term, ends, next, token, walk, table, store),
    }
}
