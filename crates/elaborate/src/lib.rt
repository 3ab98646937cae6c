//! The sort and the tree of a term, or its one refusal, in one pass over its tokens (SMT-LIB 2.6,
//! sections 3.6 and 5.2).
//!
//! `term`, `body`: exactly what judging the term gives, with the names that it gives and the terms
//! that it adds. A refusal or want of memory leaves names and terms as they were.
#![tactic(auto)]

ghost use Rattle.std.specs.Prelude.{◌≡◌, ◌<◌, [], length, IfOk, IfErr, OnErr};
ghost use Rattle.smt_meaning.specs.Sexp.{sexp};
ghost use Rattle.smt_meaning.specs.Sorts.{judge, done};
ghost use Rattle.smt_sorts.specs.Names.{Names, HasGained};
ghost use Rattle.elaborate.specs.Judged.{scope_of, rules_of, term_rules, typed_term, IsCauseOf};
ghost use Rattle.elaborate.specs.Values.{IsLonger, HasGrown};
ghost use Rattle.elaborate.specs.Naming.{TermComes};

mod apart;
mod apply;
mod bindings;
mod bodies;
mod definitions;
mod divisors;
mod error;
mod forms;
mod frame;
mod head;
mod naming;
mod numeral;
mod operation;
mod operators;
mod own;
mod parts;
mod read;
mod stack;
mod steps;
mod token;
mod value;
mod walk;

use apply::Rules;
pub use bodies::body;
pub use error::JudgeError;
use look_ahead::ends;
use naming::judge_named;
use smt_meaning::{Body, Bytes, SExpr, Sort, TermId};
use smt_sorts::{Table, Workshop};
use std::alloc::Global;
use term_store::{Named, TermStore};
use value::Value;

/// A term that was judged: its place in the list of terms, and its sort.
#[derive(Clone, Copy, Drop)]
pub struct TypedTerm {
    pub id: TermId,
    pub sort: Sort,
}

/// A parameter of a definition.
#[derive(Drop)]
pub struct Parameter {
    pub name: Bytes,
    pub sort: Sort,
}

impl Named for Parameter {
    ghost name = { λ p. p.name };

    fn name(&self) -> &[u8] {
        self.name.as_slice()
    }
}

/// The body of a definition, its sort, and what may be kept of its judgement for the next one.
#[derive(Drop)]
pub struct TypedBody {
    pub body: Body,
    pub sort: Sort,
    pub workshop: Option<Workshop>,
}

/// Judges a term without parameters, where `:named` is allowed or not: its place among the terms and its sort, or the one refusal. The terms
/// gain what was judged on the way, and the newest level of the table the names that the term gives. An `Err` changes nothing.
pub fn term(
    alloc: Global,
    term: &SExpr,
    table: &mut Table,
    store: &mut TermStore,
    naming: bool,
) -> Result<TypedTerm, JudgeError>
    ensures ok { IfOk result (λ a. judge (term_rules naming) [] (sexp term.now) (scope_of table.old store.old.trees) ≡ done (typed_term store.new.trees a) (scope_of table.new store.new.trees)) }
    ensures place { IfOk result (λ a. a.id < length store.new.trees) }
    ensures refused { IfErr result (λ e. IsCauseOf e (judge (term_rules naming) [] (sexp term.now) (scope_of table.old store.old.trees))) }
    ensures gained { (t : Names) → HasGained t table.old → HasGained t table.new }
    ensures longer { IsLonger store.old.trees store.new.trees }
    ensures limit { store.new.limit ≡ store.old.limit }
    ensures err { OnErr result ((table.new ≡ table.old) × (store.new ≡ store.old)) }
{
    let ids = table.ids();
    let count = store.len();
    let rules = Rules {
        naming,
        closed: true,
    };
    match judged(alloc, rules, term, table, store) {
        Ok(value) => Ok(TypedTerm {
            id: value.id,
            sort: value.sort,
        }),
        Err(error) => {
            table.cut_ids(ids);
            store.cut(count);
            Err(error)
        }
    }
}

/// Judges a term without variables. An `Err` may leave names and parts of the term.
fn judged(
    alloc: Global,
    rules: Rules,
    term: &SExpr,
    table: &mut Table,
    store: &mut TermStore,
) -> Result<Value, JudgeError>
    ensures comes { TermComes (judge (rules_of rules) [] (sexp term.now)) (scope_of table.old store.old.trees) (scope_of table.new store.new.trees) result }
    ensures longer { HasGrown store.old store.new }
    ensures gained { (t : Names) → HasGained t table.old → HasGained t table.new }
{
    match ends(alloc, term) {
        Ok(ends) => judge_named(alloc, rules, term, &ends, table, store),
        Err(_) => Err(JudgeError::Memory),
    }
}
