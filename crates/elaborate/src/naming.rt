//! Terms in which `:named` gives names.
//!
//! Why a variable may not be bound outside: a variable "bound outside" a named term is one that
//! occurs free in its text. Whether a term is open is asked only where a name comes.
ghost use Rattle.std.specs.Prelude.{◌≡◌, ◌+◌, ◌<◌, ◌≤◌, ◌∷◌, [], List, None, true, drop, length, map, IfOk, IfErr, OnOk};
ghost use Rattle.smt_meaning.specs.declared.tokens.Token.{Token as TokenValue};
ghost use Rattle.smt_meaning.specs.Seen.{seen};
ghost use Rattle.smt_meaning.specs.Sexp.{Sexps, open_lists_of, sexp};
ghost use Rattle.smt_meaning.specs.Term.{Tree};
ghost use Rattle.smt_meaning.specs.Signature.{is_one_of, find_function, reserved_functions};
ghost use Rattle.smt_meaning.specs.Sorts.{judge, declare, name_declaration, name_term};
ghost use Rattle.smt_sorts.specs.Names.{Names, signature, HasGained, IsNewFunction};
ghost use Rattle.smt_laws.specs.Walk.{step, run, on_words};
ghost use Rattle.look_ahead.specs.Ahead.{ahead, AreEnds};
ghost use Rattle.elaborate.specs.Judged.{scope_of, rules_of};
ghost use Rattle.elaborate.specs.Values.{HasGrown, IsValue, typed};
ghost use Rattle.elaborate.specs.Frames.{walk_of, is_open_at, Stands};
ghost use Rattle.elaborate.specs.Steps.{kind_of, is_name, StepComes};
ghost use Rattle.elaborate.specs.Naming.{why_not_new, IsWhyNotNew, NameComes, TermComes};

use crate::apply::Rules;
use crate::bindings::Bindings;
use crate::error::JudgeError;
use crate::forms::bound_name;
use crate::frame::{Frame, Walk};
use crate::parts::named_body;
use crate::stack::Stack;
use crate::steps::{Class, class_of, enter, leave, word};
use crate::value::Value;
use crate::walk::{is_name, push, what_comes};
use look_ahead::has_free_first;
use smt_laws::{nothing_is_free, walk_gives_the_judgement};
use smt_meaning::{Bytes, Rank, Refusal, SExpr, Seq, TokenView};
use smt_sorts::{AddError, NameError, Table};
use std::alloc::{AllocError, Global};
use term_store::TermStore;

/// The names that bindings bind.
#[derive(Clone, Copy, Drop)]
struct Bound<'a> {
    bindings: &'a Bindings,
}

impl<'a> look_ahead::Names for Bound<'a> {
    ghost use Rattle.elaborate.specs.Naming.{names_bound};

    ghost names = { λ b. names_bound b.bindings.now };

    fn binds(&self, name: &[u8]) -> bool {
        match self.bindings.find(name) {
            Some(_) => true,
            None => false,
        }
    }
}

/// Whether the term at a place has a variable that is bound outside. Where nothing is bound, the term isn't looked through.
fn is_open(
    alloc: Global,
    term: &SExpr,
    ends: &[usize],
    place: usize,
    bindings: &Bindings,
) -> Result<bool, AllocError>
    requires { AreEnds term.now ends.now }
    ensures { IfOk result (λ b. (ts : List Tree) → is_open_at term.now ts bindings.now place ≡ b) }
{
    if bindings.len() == 0 {
        nothing_is_free();
        return Ok(false);
    }
    if place > term.len() {
        return Ok(false);
    }
    let names = Bound { bindings };
    has_free_first(alloc, &names, term, ends, place)
}

/// Whether a function of this name may be declared.
fn check_new(alloc: Global, name: &[u8], table: &Table) -> Result<(), JudgeError>
    ensures ok { OnOk result (IsNewFunction name.now (signature table.now)) }
    ensures err { IfErr result (λ e. IsWhyNotNew (why_not_new name.now (is_one_of name.now reserved_functions) (find_function name.now (signature table.now))) e) }
{
    match table.check_new_function(name) {
        Ok(()) => Ok(()),
        Err(NameError::Reserved) => match Bytes::copy(alloc, name) {
            Ok(copy) => Err(JudgeError::Refused(Refusal::ReservedName(copy))),
            Err(_) => Err(JudgeError::Memory),
        },
        Err(NameError::AlreadyDeclared) => match Bytes::copy(alloc, name) {
            Ok(copy) => Err(JudgeError::Refused(Refusal::AlreadyDeclared(copy))),
            Err(_) => Err(JudgeError::Memory),
        },
    }
}

/// Defines a name that is new as a term.
fn define(
    alloc: Global,
    name: &[u8],
    value: Value,
    table: &mut Table,
    store: &TermStore,
) -> Result<(), JudgeError>
    requires new { find_function name.now (signature table.old) ≡ None }
    requires within { value.id < length store.now.trees }
    ensures comes { NameComes (declare (λ id. name_declaration id name.now (typed store.now.trees value))) (scope_of table.old store.now.trees) (scope_of table.new store.now.trees) result }
    ensures gained { (t : Names) → HasGained t table.old → HasGained t table.new }
{
    let _ = table.ids();
    let Ok(body) = named_body(alloc, store, value.id) else {
        return Err(JudgeError::Memory);
    };
    let rank = Rank {
        arguments: Seq::new(alloc),
        result: value.sort,
    };
    match table.add_name(alloc, name, rank, body) {
        Ok(_) => Ok(()),
        Err(AddError::TooManySymbols) => Err(JudgeError::Refused(Refusal::TooManySymbols)),
        Err(AddError::Memory) => Err(JudgeError::Memory),
    }
}

/// Gives a name to a term that begins at a place.
fn give_name(
    alloc: Global,
    rules: Rules,
    term: &SExpr,
    ends: &[usize],
    place: usize,
    bindings: &Bindings,
    name: &[u8],
    value: Value,
    table: &mut Table,
    store: &TermStore,
) -> Result<(), JudgeError>
    requires ends { AreEnds term.now ends.now }
    requires value { IsValue store.now.trees value }
    ensures comes { NameComes (name_term (rules_of rules) (is_open_at term.now store.now.trees bindings.now place) (typed store.now.trees value) name.now) (scope_of table.old store.now.trees) (scope_of table.new store.now.trees) result }
    ensures gained { (t : Names) → HasGained t table.old → HasGained t table.new }
{
    if rules.naming {
        return match is_open(alloc, term, ends, place, bindings) {
            Ok(true) => Err(JudgeError::Refused(Refusal::WrongArguments)),
            Ok(false) => match check_new(alloc, name, table) {
                Ok(()) => define(alloc, name, value, table, store),
                Err(error) => Err(error),
            },
            Err(_) => Err(JudgeError::Memory),
        };
    }
    Err(JudgeError::Refused(Refusal::WrongArguments))
}

/// The name of a term.
fn name_step(
    alloc: Global,
    rules: Rules,
    term: &SExpr,
    ends: &[usize],
    token: TokenView<'_>,
    walk: &mut Walk,
    table: &mut Table,
    store: &TermStore,
) -> Result<(), JudgeError>
    requires ends { AreEnds term.now ends.now }
    requires none { walk.old.answer ≡ None }
    requires kind { is_name (kind_of walk.old.answer walk.old.frames) ≡ true }
    requires stands { Stands (scope_of table.old store.now.trees) walk.old }
    ensures comes { (ahead : Sexps) → StepComes (on_words (rules_of rules) (walk_of term.now (scope_of table.old store.now.trees) walk.old) (seen token.entry) ahead) (scope_of table.old store.now.trees) term.now (scope_of table.new store.now.trees) walk.new result }
    ensures gained { (t : Names) → HasGained t table.old → HasGained t table.new }
{
    match walk.frames.pop() {
        Some(Frame::Naming(value, place)) => match bound_name(alloc, token) {
            Ok(name) => match give_name(
                alloc,
                rules,
                term,
                ends,
                place,
                &walk.bindings,
                name.as_slice(),
                value,
                table,
                store,
            ) {
                Ok(()) => push(walk, Frame::Attributes(value, place, 0)),
                Err(error) => Err(error),
            },
            Err(error) => Err(error),
        },
        _ => unreachable!(),
    }
}

/// A token that is no parenthesis, before a place.
fn word_or_name(
    alloc: Global,
    rules: Rules,
    term: &SExpr,
    ends: &[usize],
    place: usize,
    token: TokenView<'_>,
    walk: &mut Walk,
    table: &mut Table,
    store: &mut TermStore,
) -> Result<(), JudgeError>
    requires ends { AreEnds term.now ends.now }
    requires within { place ≤ length term.now }
    requires stands { Stands (scope_of table.old store.old.trees) walk.old }
    ensures comes { StepComes (on_words (rules_of rules) (walk_of term.now (scope_of table.old store.old.trees) walk.old) (seen token.entry) (ahead term.now place)) (scope_of table.old store.old.trees) term.now (scope_of table.new store.new.trees) walk.new result }
    ensures longer { HasGrown store.old store.new }
    ensures gained { (t : Names) → HasGained t table.old → HasGained t table.new }
{
    if is_name(what_comes(walk)) {
        return name_step(alloc, rules, term, ends, token, walk, table, store);
    }
    word(alloc, rules, term, ends, place, token, walk, table, store)
}

/// The token at a place.
fn turn(
    alloc: Global,
    rules: Rules,
    term: &SExpr,
    ends: &[usize],
    place: usize,
    walk: &mut Walk,
    table: &mut Table,
    store: &mut TermStore,
) -> Result<(), JudgeError>
    requires ends { AreEnds term.now ends.now }
    requires within { place < length term.now }
    requires stands { Stands (scope_of table.old store.old.trees) walk.old }
    ensures comes { (t : TokenValue) → drop place term.now ≡ t ∷ drop (place + 1) term.now → StepComes (step (rules_of rules) (walk_of term.now (scope_of table.old store.old.trees) walk.old) t (open_lists_of (drop (place + 1) term.now))) (scope_of table.old store.old.trees) term.now (scope_of table.new store.new.trees) walk.new result }
    ensures longer { HasGrown store.old store.new }
    ensures gained { (t : Names) → HasGained t table.old → HasGained t table.new }
{
    let token = term.token(place);
    let next = place + 1;
    match class_of(token) {
        Class::Opening => enter(alloc, term, ends, next, walk),
        Class::Closing => leave(alloc, rules, walk, table, store),
        Class::Word => { word_or_name(alloc, rules, term, ends, next, token, walk, table, store) }
    }
}

/// Reads each token in turn.
fn read_named(
    alloc: Global,
    rules: Rules,
    term: &SExpr,
    ends: &[usize],
    walk: &mut Walk,
    table: &mut Table,
    store: &mut TermStore,
) -> Result<(), JudgeError>
    requires ends { AreEnds term.now ends.now }
    requires stands { Stands (scope_of table.old store.old.trees) walk.old }
    ensures comes { StepComes (run (rules_of rules) term.now (walk_of term.now (scope_of table.old store.old.trees) walk.old)) (scope_of table.old store.old.trees) term.now (scope_of table.new store.new.trees) walk.new result }
    ensures longer { HasGrown store.old store.new }
    ensures gained { (t : Names) → HasGained t table.old → HasGained t table.new }
{
    for place in 0..term.len() {
        match turn(alloc, rules, term, ends, place, walk, table, store) {
            Ok(()) => {}
            Err(error) => return Err(error),
        }
    }
    Ok(())
}

/// Judges a term without variables. An `Err` may leave names and parts of the term.
pub(crate) fn judge_named(
    alloc: Global,
    rules: Rules,
    term: &SExpr,
    ends: &[usize],
    table: &mut Table,
    store: &mut TermStore,
) -> Result<Value, JudgeError>
    requires ends { AreEnds term.now ends.now }
    ensures comes { TermComes (judge (rules_of rules) [] (sexp term.now)) (scope_of table.old store.old.trees) (scope_of table.new store.new.trees) result }
    ensures longer { HasGrown store.old store.new }
    ensures gained { (t : Names) → HasGained t table.old → HasGained t table.new }
{
    walk_gives_the_judgement();
    let _ = term.len();
    let mut walk = Walk {
        answer: None,
        frames: Stack::new(alloc),
        bindings: Bindings::new(alloc),
    };
    match read_named(alloc, rules, term, ends, &mut walk, table, store) {
        Ok(()) => match walk.answer {
            Some(value) => Ok(value),
            None => Err(JudgeError::Refused(Refusal::WrongArguments)),
        },
        Err(error) => Err(error),
    }
}
