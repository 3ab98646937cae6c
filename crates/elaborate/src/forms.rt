//! The tokens of `let` and of annotations that begin and end no term.
ghost use Rattle.std.specs.Prelude.{◌≡◌, ◌++◌, ◌∷◌, [], List, None, true, false, length, IfOk, IfErr};
ghost use Rattle.smt_meaning.specs.declared.tokens.Token.{Token as TokenValue};
ghost use Rattle.smt_meaning.specs.Seen.{seen};
ghost use Rattle.smt_meaning.specs.Sexp.{Sexps};
ghost use Rattle.smt_meaning.specs.Sorts.{Scope, Rules as RulesValue};
ghost use Rattle.smt_laws.specs.Walk.{on_leave, on_words};
ghost use Rattle.elaborate.specs.Judged.{rules_of};
ghost use Rattle.elaborate.specs.Frames.{walk_of, OthersWait, Stands};
ghost use Rattle.elaborate.specs.Steps.{kind_of, takes_word, may_end, is_name, is_named, out_of_head, IsNoName, StepComes};

use crate::apply::Rules;
use crate::bindings::Bindings;
use crate::error::JudgeError;
use crate::frame::{Binding, Frame, Walk};
use crate::value::Value;
use crate::walk::{give, push};
use smt_meaning::{Bytes, Refusal, Seq, TokenView};
use std::alloc::{AllocError, Global};

/// Puts bindings on top, the first of them topmost, and says how many.
fn bind(bindings: &mut Bindings, bound: Seq<Binding>) -> Result<usize, AllocError>
    ensures count { IfOk result (λ k. k ≡ length bound) }
    ensures bound { IfOk result (λ k. bindings.new ≡ bound ++ bindings.old) }
{
    let count = bound.len();
    let mut list = bound.into_vec();
    while let Some(binding) = list.pop() {
        bindings.push(binding)?;
    }
    Ok(count)
}

/// Bindings with one more at the end.
fn with_binding(
    mut bound: Seq<Binding>,
    name: Bytes,
    value: Value,
) -> Result<Seq<Binding>, AllocError>
    ensures { IfOk result (λ b. b ≡ bound ++ record { name = name; value = value } ∷ []) }
{
    bound.push(Binding { name, value })?;
    Ok(bound)
}

/// The frame after a `)` in a head that divides, in so many lists of it.
fn out_of_head(alloc: Global, number: u128, depth: usize) -> Frame
    ensures { result ≡ out_of_head number depth }
{
    match depth.checked_sub(1) {
        Some(less) => Frame::Dividing(number, less),
        None => Frame::Division(number, Seq::new(alloc)),
    }
}

/// `)` that ends no application.
pub(crate) fn leave_form(alloc: Global, walk: &mut Walk) -> Result<(), JudgeError>
    requires none { walk.old.answer ≡ None }
    requires kind { may_end (kind_of walk.old.answer walk.old.frames) ≡ true }
    requires waits { OthersWait walk.old.frames }
    ensures { (tokens : List TokenValue) (s : Scope) (r : RulesValue) → Stands s walk.old → StepComes (on_leave r (walk_of tokens s walk.old)) s tokens s walk.new result }
{
    match walk.frames.pop() {
        Some(Frame::Bindings(bound)) => match bind(&mut walk.bindings, bound) {
            Ok(count) => push(walk, Frame::Body(count)),
            Err(_) => Err(JudgeError::Memory),
        },
        Some(Frame::BoundTo(bound, name, value)) => match with_binding(bound, name, value) {
            Ok(longer) => push(walk, Frame::Bindings(longer)),
            Err(_) => Err(JudgeError::Memory),
        },
        Some(Frame::Done(value)) => match give(walk, value) {
            Ok(()) => Ok(()),
            Err(_) => Err(JudgeError::Memory),
        },
        Some(Frame::Dividing(number, depth)) => push(walk, out_of_head(alloc, number, depth)),
        Some(Frame::Attributes(value, place, depth)) => match depth.checked_sub(1) {
            Some(less) => push(walk, Frame::Attributes(value, place, less)),
            None => match give(walk, value) {
                Ok(()) => Ok(()),
                Err(_) => Err(JudgeError::Memory),
            },
        },
        _ => unreachable!(),
    }
}

/// The name that a token is.
pub(crate) fn bound_name(alloc: Global, token: TokenView<'_>) -> Result<Bytes, JudgeError>
    ensures ok { IfOk result (λ n. seen token.entry ≡ TokenValue.Symbol n) }
    ensures err { IfErr result (λ e. IsNoName (seen token.entry) e) }
{
    match token {
        TokenView::Symbol(name) => match Bytes::copy(alloc, name) {
            Ok(name) => Ok(name),
            Err(_) => Err(JudgeError::Memory),
        },
        TokenView::Enter => Err(JudgeError::Refused(Refusal::WrongArguments)),
        TokenView::Leave => Err(JudgeError::Refused(Refusal::WrongArguments)),
        TokenView::Numeral(_) => Err(JudgeError::Refused(Refusal::WrongArguments)),
        TokenView::Decimal(_) => Err(JudgeError::Refused(Refusal::WrongArguments)),
        TokenView::Hex(_) => Err(JudgeError::Refused(Refusal::WrongArguments)),
        TokenView::Binary(_) => Err(JudgeError::Refused(Refusal::WrongArguments)),
        TokenView::Text(_) => Err(JudgeError::Refused(Refusal::WrongArguments)),
        TokenView::Reserved(_) => Err(JudgeError::Refused(Refusal::WrongArguments)),
        TokenView::Keyword(_) => Err(JudgeError::Refused(Refusal::WrongArguments)),
    }
}

/// Whether a token is `:named`.
fn is_named(token: TokenView<'_>) -> bool
    ensures { result ≡ is_named (seen token.entry) }
{
    match token {
        TokenView::Keyword(name) => name == b"named".as_slice(),
        TokenView::Symbol(_) => false,
        TokenView::Enter => false,
        TokenView::Leave => false,
        TokenView::Numeral(_) => false,
        TokenView::Decimal(_) => false,
        TokenView::Hex(_) => false,
        TokenView::Binary(_) => false,
        TokenView::Text(_) => false,
        TokenView::Reserved(_) => false,
    }
}

/// The name of a binding, an attribute, or a name of a term where none is given.
pub(crate) fn word_form(
    alloc: Global,
    rules: Rules,
    token: TokenView<'_>,
    walk: &mut Walk,
) -> Result<(), JudgeError>
    requires kind { takes_word (kind_of walk.old.answer walk.old.frames) ≡ true }
    requires none { walk.old.answer ≡ None }
    requires unnamed { is_name (kind_of walk.old.answer walk.old.frames) ≡ true → rules.naming ≡ false }
    ensures { (tokens : List TokenValue) (s : Scope) (ahead : Sexps) → Stands s walk.old → StepComes (on_words (rules_of rules) (walk_of tokens s walk.old) (seen token.entry) ahead) s tokens s walk.new result }
{
    let _ = rules.naming;
    match walk.frames.pop() {
        Some(Frame::BindingOpen(bound)) => match bound_name(alloc, token) {
            Ok(name) => push(walk, Frame::Bound(bound, name)),
            Err(error) => Err(error),
        },
        Some(Frame::Attributes(value, place, _)) => {
            if is_named(token) {
                push(walk, Frame::Naming(value, place))
            } else {
                push(walk, Frame::Attributes(value, place, 0))
            }
        }
        Some(Frame::Naming(_, _)) => Err(JudgeError::Refused(Refusal::WrongArguments)),
        _ => unreachable!(),
    }
}
