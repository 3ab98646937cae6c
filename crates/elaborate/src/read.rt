//! All tokens of a term.
ghost use Rattle.std.specs.Prelude.{◌≡◌, false, map};
ghost use Rattle.smt_meaning.specs.Sexp.{sexp};
ghost use Rattle.smt_meaning.specs.Sorts.{judge};
ghost use Rattle.smt_laws.specs.Walk.{run};
ghost use Rattle.look_ahead.specs.Ahead.{AreEnds};
ghost use Rattle.elaborate.specs.Judged.{scope_of, rules_of};
ghost use Rattle.elaborate.specs.Values.{Comes, HasGrown};
ghost use Rattle.elaborate.specs.Frames.{AreBound, variable_at, walk_of, Stands};
ghost use Rattle.elaborate.specs.Steps.{StepComes};
ghost use Rattle.smt_sorts.specs.Names.{signature};
ghost use Rattle.elaborate.specs.Own.{IsApart};

use crate::apart::step_apart;
use crate::apply::Rules;
use crate::bindings::Bindings;
use crate::error::JudgeError;
use crate::frame::Walk;
use crate::own::Apart;
use crate::stack::Stack;
use crate::value::Value;
use smt_laws::walk_gives_the_judgement;
use smt_meaning::{Refusal, SExpr};
use smt_sorts::Table;
use std::alloc::Global;
use term_store::TermStore;

/// Reads each token in turn.
fn read(
    alloc: Global,
    rules: Rules,
    term: &SExpr,
    ends: &[usize],
    walk: &mut Walk,
    table: &Table,
    store: &mut TermStore,
    apart: &mut Apart,
) -> Result<(), JudgeError>
    requires ends { AreEnds term.now ends.now }
    requires stands { Stands (scope_of table.now store.old.trees) walk.old }
    requires apart { IsApart (signature table.now) store.old.trees apart.old }
    requires unnamed { rules.naming ≡ false }
    ensures comes { StepComes (run (rules_of rules) term.now (walk_of term.now (scope_of table.now store.old.trees) walk.old)) (scope_of table.now store.old.trees) term.now (scope_of table.now store.new.trees) walk.new result }
    ensures longer { HasGrown store.old store.new }
    ensures apart { IsApart (signature table.now) store.new.trees apart.new }
{
    for place in 0..term.len() {
        match step_apart(alloc, rules, term, ends, place, walk, table, store, apart) {
            Ok(()) => {}
            Err(error) => return Err(error),
        }
    }
    Ok(())
}

/// Judges the body of a definition under variables, in which no names are given to terms.
pub(crate) fn judge_term(
    alloc: Global,
    rules: Rules,
    term: &SExpr,
    ends: &[usize],
    bindings: Bindings,
    table: &Table,
    store: &mut TermStore,
    apart: &mut Apart,
) -> Result<Value, JudgeError>
    requires ends { AreEnds term.now ends.now }
    requires bound { AreBound store.old.trees bindings }
    requires apart { IsApart (signature table.now) store.old.trees apart.old }
    requires unnamed { rules.naming ≡ false }
    ensures comes { Comes (judge (rules_of rules) (map (variable_at store.old.trees) bindings) (sexp term.now)) (scope_of table.now store.old.trees) store.new.trees result }
    ensures longer { HasGrown store.old store.new }
    ensures apart { IsApart (signature table.now) store.new.trees apart.new }
{
    walk_gives_the_judgement();
    let _ = term.len();
    let mut walk = Walk {
        answer: None,
        frames: Stack::new(alloc),
        bindings,
    };
    match read(alloc, rules, term, ends, &mut walk, table, store, apart) {
        Ok(()) => match walk.answer {
            Some(value) => Ok(value),
            None => Err(JudgeError::Refused(Refusal::WrongArguments)),
        },
        Err(error) => Err(error),
    }
}
