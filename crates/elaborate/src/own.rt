//! A definition that is used in the body of the next one, with its parameters put in for themselves: where the terms that are stored so far are its
//! first ones, all of them are there as they stand, and are not put in again where the definition is used once more.
//!
//! Why: the store in which the newest definition was judged is kept beside the table of names
//! (`smt_sorts`, `workshop`), and a body that uses that definition with its own parameters in order
//! goes on in it. So a chain of such definitions costs little more than its length. Where a
//! definition is used after other terms, with other arguments, or isn't the newest one, all its
//! terms are put in, and a chain of these costs the square of its length. No contract of the
//! language shows the difference.
ghost use Rattle.std.specs.Option.{is_some};
ghost use Rattle.std.specs.Prelude.{◌≡◌, ◌<◌, ◌||◌, map, length, true, None, Some, IsTrue, IfSome};
ghost use Rattle.smt_meaning.specs.declared.tokens.Token.{Token};
ghost use Rattle.smt_meaning.specs.Seen.{seen};
ghost use Rattle.smt_meaning.specs.Signature.{find_function};
ghost use Rattle.smt_meaning.specs.Term.{tree_at};
ghost use Rattle.smt_meaning.specs.Sorts.{judge_token, judge_application, judge_symbol, known_symbol, trees_of};
ghost use Rattle.smt_sorts.specs.Names.{signature};
ghost use Rattle.elaborate.specs.Judged.{scope_of, rules_of};
ghost use Rattle.elaborate.specs.Values.{AreValues, Comes, HasGrown, IsLonger, typed};
ghost use Rattle.elaborate.specs.Frames.{AreBound, variable_at};
ghost use Rattle.elaborate.specs.Own.{AreAlike, IsApart, IsFit, IsFitAgain, CanTake, WasTaken, IsThere, IsDeclared, IsBareOwn, IsAppliedOwn, are_own};

use crate::apply::{Rules, apply_name, have_sorts, is_count, is_zero};
use crate::bindings::Bindings;
use crate::error::JudgeError;
use crate::operators::operator_named;
use crate::token::{judge_name, judge_token};
use crate::value::Value;
use smt_meaning::{Bytes, Declaration, Operator, Seq, SymId, TermId, Terms, TokenView};
use smt_sorts::{Kept, Table, Workshop};
use std::alloc::Global;
use term_store::{Node, TermStore};

/// A definition whose terms were taken: its id, and whether its term is built from numerals, `+`, `-` and `*` alone, and has no product of two
/// factors that are not.
#[derive(Clone, Copy, Drop)]
pub(crate) struct Taken {
    pub id: SymId,
    pub constant: bool,
    pub linear: bool,
}

/// Where a body is judged: how many parameters it has, what is kept of an earlier definition until its terms are taken, which definition that was,
/// and the terms that were taken, with their number.
#[derive(Drop)]
pub(crate) struct Apart {
    pub parameters: u32,
    pub kept: Option<Kept>,
    pub taken: Option<Taken>,
    pub terms: Terms,
    pub count: u32,
}

/// Whether each argument is the parameter at its own place.
fn are_own(arguments: &[Value]) -> bool
    ensures { result ≡ are_own 0 arguments.now }
{
    for (place, value) in arguments.iter().enumerate() {
        if value.id as usize != place {
            return false;
        }
    }
    true
}

/// Whether two nodes are the same.
fn is_same(one: Node<'_>, other: Node<'_>) -> bool
    ensures head { IsTrue result → one.entry.head ≡ other.entry.head }
    ensures arguments { IsTrue result → one.entry.arguments.now ≡ other.entry.arguments.now }
{
    one.head == other.head && one.arguments == other.arguments
}

/// Whether the same term stands at a place of two lists that are alike before it.
fn is_alike(first: &TermStore, second: &TermStore, id: TermId) -> bool
    requires first { id < length first.now.trees }
    requires second { id < length second.now.trees }
    ensures { IsTrue result → AreAlike id first.now.trees second.now.trees → tree_at first.now.trees id ≡ tree_at second.now.trees id }
{
    is_same(first.node(id), second.node(id))
}

/// Whether one list of terms begins with all terms of another.
fn begins(short: &TermStore, long: &TermStore) -> bool
    ensures { IsTrue result → IsLonger short.now.trees long.now.trees }
{
    if short.len() > long.len() {
        return false;
    }
    for id in 0..short.len() {
        if !is_alike(short, long, id) {
            return false;
        }
    }
    true
}

/// Whether the terms that are kept are those of a declaration, in which all parameters and nothing else are put in, and begin with what is stored.
fn fits(
    kept: &Kept,
    declaration: &Declaration,
    arguments: &[Value],
    store: &TermStore,
    parameters: u32,
) -> bool
    ensures { IsTrue result → IsFit kept.now declaration.now arguments.now store.now parameters }
{
    kept.id == declaration.id()
        && kept.workshop.parameters == parameters
        && kept.workshop.store.limit() == store.limit()
        && arguments.len() == parameters as usize
        && are_own(arguments)
        && begins(store, &kept.workshop.store)
}

/// Whether the terms that were taken are those of a declaration, in which all parameters and nothing else are put in.
fn fits_again(
    taken: &Taken,
    declaration: &Declaration,
    arguments: &[Value],
    parameters: u32,
) -> bool
    ensures { IsTrue result → IsFitAgain taken.now declaration.now arguments.now parameters }
{
    taken.id == declaration.id() && arguments.len() == parameters as usize && are_own(arguments)
}

/// Whether the terms of a declaration were taken, or can be.
fn are_there(
    rules: Rules,
    declaration: &Declaration,
    arguments: &[Value],
    store: &TermStore,
    apart: &Apart,
) -> bool
    ensures { IsTrue result → IsThere (rules_of rules) declaration.now arguments.now store.now apart.now apart.now.taken }
{
    if rules.closed {
        return false;
    }
    match (&apart.taken, &apart.kept) {
        (Some(taken), _) => fits_again(taken, declaration, arguments, apart.parameters),
        (None, Some(kept)) => fits(kept, declaration, arguments, store, apart.parameters),
        (None, None) => false,
    }
}

/// Whether an earlier definition is known whose terms were taken, or may be.
fn has_any(apart: &Apart) -> bool
    ensures { result ≡ (is_some apart.now.taken || is_some apart.now.kept) }
{
    apart.taken.is_some() || apart.kept.is_some()
}

/// The definition that a name without arguments stands for, where its terms were taken, or can be.
fn bare_own<'a>(
    rules: Rules,
    name: &[u8],
    bindings: &Bindings,
    table: &'a Table,
    store: &TermStore,
    apart: &Apart,
) -> Option<&'a Declaration>
    ensures { IfSome result (λ d. IsBareOwn (rules_of rules) name.now bindings.now (signature table.now) store.now apart.now d.now) }
{
    if !has_any(apart) || bindings.find(name).is_some() || operator_named(name).is_some() {
        return None;
    }
    let declaration = table.lookup(name)?;
    if is_zero(declaration.rank().arguments.len())
        && are_there(rules, declaration, &[], store, apart)
    {
        Some(declaration)
    } else {
        None
    }
}

/// The definition that a name with these arguments stands for, where its terms were taken, or can be.
fn applied_own<'a>(
    rules: Rules,
    name: &[u8],
    operator: Option<Operator>,
    arguments: &[Value],
    table: &'a Table,
    store: &TermStore,
    apart: &Apart,
) -> Option<&'a Declaration>
    ensures { IfSome result (λ d. IsAppliedOwn (rules_of rules) name.now operator arguments.now (signature table.now) store.now apart.now d.now) }
{
    if !has_any(apart) || operator.is_some() {
        return None;
    }
    let declaration = table.lookup(name)?;
    let sorts = declaration.rank().arguments.as_slice();
    if is_count(arguments.len(), sorts.len())
        && have_sorts(arguments, sorts)
        && are_there(rules, declaration, arguments, store, apart)
    {
        Some(declaration)
    } else {
        None
    }
}

/// Takes the terms of a definition as they stand.
fn take(
    rules: Rules,
    declaration: &Declaration,
    arguments: &[Value],
    table: &Table,
    store: &mut TermStore,
    apart: &mut Apart,
) -> Result<Value, JudgeError>
    requires apart { IsApart (signature table.now) store.old.trees apart.old }
    requires declared { IsDeclared (signature table.now) declaration.now }
    requires can { CanTake (rules_of rules) declaration.now arguments.now store.old apart.old }
    ensures comes { Comes (judge_symbol (rules_of rules) declaration.now (trees_of (map (typed store.old.trees) arguments.now))) (scope_of table.now store.old.trees) store.new.trees result }
    ensures longer { HasGrown store.old store.new }
    ensures apart { IsApart (signature table.now) store.new.trees apart.new }
{
    let _ = (table.ids(), rules.closed, arguments.len());
    let Some(kept) = apart.kept.take() else {
        unreachable!()
    };
    let Some(body) = declaration.body() else {
        unreachable!()
    };
    let workshop = kept.workshop;
    let (constant, linear) = (workshop.constant, workshop.linear);
    let _ = workshop.terms.layers();
    apart.count = workshop.store.len();
    apart.terms = workshop.terms;
    apart.taken = Some(Taken {
        id: kept.id,
        constant,
        linear,
    });
    *store = workshop.store;
    Ok(Value {
        id: body.place(),
        sort: declaration.rank().result,
        constant,
        linear,
    })
}

/// The value of a definition whose terms were taken before.
fn taken_before(
    rules: Rules,
    declaration: &Declaration,
    arguments: &[Value],
    table: &Table,
    store: &TermStore,
    apart: &Apart,
) -> Value
    requires apart { IsApart (signature table.now) store.now.trees apart.now }
    requires declared { IsDeclared (signature table.now) declaration.now }
    requires was { WasTaken (rules_of rules) declaration.now arguments.now apart.now }
    ensures { Comes (judge_symbol (rules_of rules) declaration.now (trees_of (map (typed store.now.trees) arguments.now))) (scope_of table.now store.now.trees) store.now.trees (Ok result) }
{
    let _ = (table.ids(), rules.closed, arguments.len(), store.len());
    let Some(taken) = apart.taken else {
        unreachable!()
    };
    let Some(body) = declaration.body() else {
        unreachable!()
    };
    Value {
        id: body.place(),
        sort: declaration.rank().result,
        constant: taken.constant,
        linear: taken.linear,
    }
}

/// The value of a definition whose terms were taken, or can be.
fn own_value(
    rules: Rules,
    declaration: &Declaration,
    arguments: &[Value],
    table: &Table,
    store: &mut TermStore,
    apart: &mut Apart,
) -> Result<Value, JudgeError>
    requires apart { IsApart (signature table.now) store.old.trees apart.old }
    requires declared { IsDeclared (signature table.now) declaration.now }
    requires there { IsThere (rules_of rules) declaration.now arguments.now store.old apart.old apart.old.taken }
    ensures comes { Comes (judge_symbol (rules_of rules) declaration.now (trees_of (map (typed store.old.trees) arguments.now))) (scope_of table.now store.old.trees) store.new.trees result }
    ensures longer { HasGrown store.old store.new }
    ensures apart { IsApart (signature table.now) store.new.trees apart.new }
{
    if apart.taken.is_some() {
        Ok(taken_before(rules, declaration, arguments, table, store, apart))
    } else {
        take(rules, declaration, arguments, table, store, apart)
    }
}

/// The term that a token stands for in a body.
pub(crate) fn token_apart(
    alloc: Global,
    rules: Rules,
    token: TokenView<'_>,
    bindings: &Bindings,
    table: &Table,
    store: &mut TermStore,
    apart: &mut Apart,
) -> Result<Value, JudgeError>
    requires bound { AreBound store.old.trees bindings.now }
    requires apart { IsApart (signature table.now) store.old.trees apart.old }
    ensures comes { Comes (judge_token (rules_of rules) (map (variable_at store.old.trees) bindings.now) (seen token.entry)) (scope_of table.now store.old.trees) store.new.trees result }
    ensures longer { HasGrown store.old store.new }
    ensures apart { IsApart (signature table.now) store.new.trees apart.new }
{
    match token {
        TokenView::Symbol(name) => name_apart(alloc, rules, name, bindings, table, store, apart),
        _ => judge_token(alloc, rules, token, bindings, table, store),
    }
}

/// The term that a name stands for in a body.
fn name_apart(
    alloc: Global,
    rules: Rules,
    name: &[u8],
    bindings: &Bindings,
    table: &Table,
    store: &mut TermStore,
    apart: &mut Apart,
) -> Result<Value, JudgeError>
    requires bound { AreBound store.old.trees bindings.now }
    requires apart { IsApart (signature table.now) store.old.trees apart.old }
    ensures comes { Comes (judge_token (rules_of rules) (map (variable_at store.old.trees) bindings.now) (Token.Symbol name.now)) (scope_of table.now store.old.trees) store.new.trees result }
    ensures longer { HasGrown store.old store.new }
    ensures apart { IsApart (signature table.now) store.new.trees apart.new }
{
    match bare_own(rules, name, bindings, table, store, apart) {
        Some(declaration) => own_value(rules, declaration, &[], table, store, apart),
        None => judge_name(alloc, rules, name, bindings, table, store),
    }
}

/// A name with its arguments in a body.
pub(crate) fn apply_apart(
    alloc: Global,
    rules: Rules,
    name: &Bytes,
    operator: Option<Operator>,
    arguments: &Seq<Value>,
    table: &Table,
    store: &mut TermStore,
    apart: &mut Apart,
) -> Result<Value, JudgeError>
    requires values { AreValues store.old.trees arguments.now }
    requires apart { IsApart (signature table.now) store.old.trees apart.old }
    ensures comes { Comes (judge_application (rules_of rules) name.now (known_symbol operator (find_function name.now (signature table.now))) (map (typed store.old.trees) arguments.now)) (scope_of table.now store.old.trees) store.new.trees result }
    ensures longer { HasGrown store.old store.new }
    ensures apart { IsApart (signature table.now) store.new.trees apart.new }
{
    let given = arguments.as_slice();
    match applied_own(rules, name.as_slice(), operator, given, table, store, apart) {
        Some(declaration) => own_value(rules, declaration, given, table, store, apart),
        None => apply_name(alloc, rules, name, operator, arguments, table, store),
    }
}
