//! Terms that weren't judged for want of room or memory.
//!
//! Why a term may be judged twice: where the terms would be more than 4,294,967,295, a command is
//! refused with `E25`, after its other refusals. A term for which there is no room among the terms
//! of the stack is judged once more in a list of its own, which tells its refusals and its sort:
//! judging doesn't depend on the terms before. Whether there are too many is then counted exactly.
//! The price is paid only where room or memory is wanting. A term that alone has more different
//! parts than that is want of memory.
ghost use Rattle.std.specs.Prelude.{◌≡◌, [], length};
ghost use Rattle.elaborate.specs.Judged.{IsCauseOf};
ghost use Rattle.smt_meaning.specs.Sexp.{sexp};
ghost use Rattle.smt_meaning.specs.Sorts.{judge, with_all};
ghost use Rattle.smt_meaning.specs.StackCommand.{ask_terms, assert_term, assume_terms, in_assert};
ghost use Rattle.scope_stack.specs.Judged.{IsCause, IsRoomError, scope_by};

use crate::answers::StackError;
use crate::term::{are_bool, is_bool, judge_error, judge_terms};
use elaborate::JudgeError;
use smt_meaning::{Refusal, SExpr};
use smt_sorts::Table;
use std::alloc::Global;
use term_store::{TermStore, lacks_room, questions_join_alike, terms_join_alike};

/// How many terms there may be where terms are judged apart.
const MOST_APART: u32 = 4294967295;

/// The error where other terms join those of a stack: there are too many then, or memory was wanting before.
fn room_error(alloc: Global, others: &TermStore, terms: &mut TermStore) -> StackError
    requires { terms.old.limit ≡ 4294967295 }
    ensures error { IsRoomError (length (with_all terms.old.trees others.now.trees)) result }
    ensures same { terms.new ≡ terms.old }
{
    match lacks_room(alloc, others, terms) {
        Ok(true) => StackError::Refused(Refusal::TooManyTerms),
        Ok(false) => StackError::Memory,
        Err(_) => StackError::Memory,
    }
}

/// The error of `(assert term)` whose term wasn't judged among the terms for want of room or memory: it is judged apart from them.
fn crowded_assertion(
    alloc: Global,
    term: &SExpr,
    table: &mut Table,
    terms: &mut TermStore,
) -> StackError
    requires { terms.old.limit ≡ 4294967295 }
    ensures causes { IsCause result (assert_term term.now (scope_by table.old terms.old.trees)) }
    ensures table { table.new ≡ table.old }
    ensures terms { terms.new ≡ terms.old }
{
    terms_join_alike();
    let ids = table.ids();
    let mut apart = TermStore::new(alloc, MOST_APART);
    match elaborate::term(alloc, term, table, &mut apart, true) {
        Ok(judged) => {
            table.cut_ids(ids);
            if is_bool(judged.sort) {
                room_error(alloc, &apart, terms)
            } else {
                StackError::Refused(Refusal::NotBool)
            }
        }
        Err(error) => judge_error(error),
    }
}

/// The error of `(assert term)` whose term comes to this error.
pub(crate) fn assertion_error(
    alloc: Global,
    error: JudgeError,
    term: &SExpr,
    table: &mut Table,
    terms: &mut TermStore,
) -> StackError
    requires limit { terms.old.limit ≡ 4294967295 }
    requires cause { IsCauseOf error (judge in_assert [] (sexp term.now) (scope_by table.old terms.old.trees)) }
    ensures causes { IsCause result (assert_term term.now (scope_by table.old terms.old.trees)) }
    ensures table { table.new ≡ table.old }
    ensures terms { terms.new ≡ terms.old }
{
    match error {
        JudgeError::Refused(refusal) => StackError::Refused(refusal),
        JudgeError::Memory => crowded_assertion(alloc, term, table, terms),
    }
}

/// The error of a question whose terms weren't judged among the terms for want of room or memory: they are judged apart from them.
fn crowded_questions(
    alloc: Global,
    texts: &[SExpr],
    table: &mut Table,
    terms: &mut TermStore,
) -> StackError
    requires { terms.old.limit ≡ 4294967295 }
    ensures causes { IsCause result (ask_terms texts.now (scope_by table.old terms.old.trees)) }
    ensures table { table.new ≡ table.old }
    ensures terms { terms.new ≡ terms.old }
{
    questions_join_alike();
    let ids = table.ids();
    let mut apart = TermStore::new(alloc, MOST_APART);
    match judge_terms(alloc, texts, table, &mut apart) {
        Ok(_) => {
            table.cut_ids(ids);
            room_error(alloc, &apart, terms)
        }
        Err(error) => {
            table.cut_ids(ids);
            error
        }
    }
}

/// The error of assumptions whose terms weren't judged among the terms for want of room or memory: they are judged apart from them.
fn crowded_assumptions(
    alloc: Global,
    texts: &[SExpr],
    depth: u16,
    table: &mut Table,
    terms: &mut TermStore,
) -> StackError
    requires { terms.old.limit ≡ 4294967295 }
    ensures causes { IsCause result (assume_terms depth texts.now (scope_by table.old terms.old.trees)) }
    ensures table { table.new ≡ table.old }
    ensures terms { terms.new ≡ terms.old }
{
    questions_join_alike();
    let ids = table.ids();
    let mut apart = TermStore::new(alloc, MOST_APART);
    match judge_terms(alloc, texts, table, &mut apart) {
        Ok(asked) => {
            table.cut_ids(ids);
            if are_bool(asked.as_slice()) {
                room_error(alloc, &apart, terms)
            } else {
                StackError::Refused(Refusal::NotBool)
            }
        }
        Err(error) => {
            table.cut_ids(ids);
            error
        }
    }
}

/// The error of assumptions whose terms come to this error.
pub(crate) fn assumption_error(
    alloc: Global,
    error: StackError,
    texts: &[SExpr],
    depth: u16,
    table: &mut Table,
    terms: &mut TermStore,
) -> StackError
    requires limit { terms.old.limit ≡ 4294967295 }
    requires cause { IsCause error (assume_terms depth texts.now (scope_by table.old terms.old.trees)) }
    ensures causes { IsCause result (assume_terms depth texts.now (scope_by table.old terms.old.trees)) }
    ensures table { table.new ≡ table.old }
    ensures terms { terms.new ≡ terms.old }
{
    match error {
        StackError::Refused(refusal) => StackError::Refused(refusal),
        StackError::Memory => crowded_assumptions(alloc, texts, depth, table, terms),
    }
}

/// The error of a question whose terms come to this error.
pub(crate) fn question_error(
    alloc: Global,
    error: StackError,
    texts: &[SExpr],
    table: &mut Table,
    terms: &mut TermStore,
) -> StackError
    requires limit { terms.old.limit ≡ 4294967295 }
    requires cause { IsCause error (ask_terms texts.now (scope_by table.old terms.old.trees)) }
    ensures causes { IsCause result (ask_terms texts.now (scope_by table.old terms.old.trees)) }
    ensures table { table.new ≡ table.old }
    ensures terms { terms.new ≡ terms.old }
{
    match error {
        StackError::Refused(refusal) => StackError::Refused(refusal),
        StackError::Memory => crowded_questions(alloc, texts, table, terms),
    }
}
