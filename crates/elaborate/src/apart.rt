//! One token of the body of a definition.
ghost use Rattle.std.specs.Prelude.{◌≡◌, ◌+◌, ◌<◌, ◌∷◌, List, true, false, drop, length};
ghost use Rattle.smt_meaning.specs.declared.tokens.Token.{Token as TokenValue};
ghost use Rattle.smt_meaning.specs.Seen.{seen};
ghost use Rattle.smt_meaning.specs.Sexp.{Sexps, open_lists_of};
ghost use Rattle.look_ahead.specs.Ahead.{AreEnds};
ghost use Rattle.smt_sorts.specs.Names.{signature};
ghost use Rattle.smt_laws.specs.Walk.{step, on_words, on_leave};
ghost use Rattle.elaborate.specs.Judged.{scope_of, rules_of};
ghost use Rattle.elaborate.specs.Values.{HasGrown};
ghost use Rattle.elaborate.specs.Frames.{walk_of, Stands};
ghost use Rattle.elaborate.specs.Steps.{kind_of, awaits_term, is_argument, StepComes};
ghost use Rattle.elaborate.specs.Own.{IsApart};

use crate::apply::Rules;
use crate::error::JudgeError;
use crate::frame::{Frame, Walk};
use crate::own::{Apart, apply_apart, token_apart};
use crate::steps::{Class, class_of, step};
use crate::walk::{awaits_term, give, is_argument, what_comes};
use smt_meaning::{SExpr, TokenView};
use smt_sorts::Table;
use std::alloc::Global;
use term_store::TermStore;

/// A token where a term may stand in a body.
fn word_apart(
    alloc: Global,
    rules: Rules,
    token: TokenView<'_>,
    walk: &mut Walk,
    table: &Table,
    store: &mut TermStore,
    apart: &mut Apart,
) -> Result<(), JudgeError>
    requires stands { Stands (scope_of table.now store.old.trees) walk.old }
    requires kind { awaits_term (kind_of walk.old.answer walk.old.frames) ≡ true }
    requires apart { IsApart (signature table.now) store.old.trees apart.old }
    ensures comes { (tokens : List TokenValue) (ahead : Sexps) → StepComes (on_words (rules_of rules) (walk_of tokens (scope_of table.now store.old.trees) walk.old) (seen token.entry) ahead) (scope_of table.now store.old.trees) tokens (scope_of table.now store.new.trees) walk.new result }
    ensures longer { HasGrown store.old store.new }
    ensures apart { IsApart (signature table.now) store.new.trees apart.new }
{
    match token_apart(alloc, rules, token, &walk.bindings, table, store, apart) {
        Ok(value) => match give(walk, value) {
            Ok(()) => Ok(()),
            Err(_) => Err(JudgeError::Memory),
        },
        Err(error) => Err(error),
    }
}

/// The end of an application in a body.
fn leave_apart(
    alloc: Global,
    rules: Rules,
    walk: &mut Walk,
    table: &Table,
    store: &mut TermStore,
    apart: &mut Apart,
) -> Result<(), JudgeError>
    requires stands { Stands (scope_of table.now store.old.trees) walk.old }
    requires kind { is_argument (kind_of walk.old.answer walk.old.frames) ≡ true }
    requires apart { IsApart (signature table.now) store.old.trees apart.old }
    ensures comes { (tokens : List TokenValue) → StepComes (on_leave (rules_of rules) (walk_of tokens (scope_of table.now store.old.trees) walk.old)) (scope_of table.now store.old.trees) tokens (scope_of table.now store.new.trees) walk.new result }
    ensures longer { HasGrown store.old store.new }
    ensures apart { IsApart (signature table.now) store.new.trees apart.new }
{
    match walk.frames.pop() {
        Some(Frame::Application(name, operator, arguments)) => {
            match apply_apart(
                alloc, rules, &name, operator, &arguments, table, store, apart,
            ) {
                Ok(value) => match give(walk, value) {
                    Ok(()) => Ok(()),
                    Err(_) => Err(JudgeError::Memory),
                },
                Err(error) => Err(error),
            }
        }
        _ => unreachable!(),
    }
}

/// The token at a place of a body.
pub(crate) fn step_apart(
    alloc: Global,
    rules: Rules,
    term: &SExpr,
    ends: &[usize],
    place: usize,
    walk: &mut Walk,
    table: &Table,
    store: &mut TermStore,
    apart: &mut Apart,
) -> Result<(), JudgeError>
    requires ends { AreEnds term.now ends.now }
    requires within { place < length term.now }
    requires stands { Stands (scope_of table.now store.old.trees) walk.old }
    requires apart { IsApart (signature table.now) store.old.trees apart.old }
    requires unnamed { rules.naming ≡ false }
    ensures comes { (t : TokenValue) → drop place term.now ≡ t ∷ drop (place + 1) term.now → StepComes (step (rules_of rules) (walk_of term.now (scope_of table.now store.old.trees) walk.old) t (open_lists_of (drop (place + 1) term.now))) (scope_of table.now store.old.trees) term.now (scope_of table.now store.new.trees) walk.new result }
    ensures longer { HasGrown store.old store.new }
    ensures apart { IsApart (signature table.now) store.new.trees apart.new }
{
    let kind = what_comes(walk);
    let token = term.token(place);
    match class_of(token) {
        Class::Closing => {
            if is_argument(kind) {
                return leave_apart(alloc, rules, walk, table, store, apart);
            }
        }
        Class::Word => {
            if awaits_term(kind) {
                return word_apart(alloc, rules, token, walk, table, store, apart);
            }
        }
        Class::Opening => {}
    }
    step(alloc, rules, term, ends, place, walk, table, store)
}
