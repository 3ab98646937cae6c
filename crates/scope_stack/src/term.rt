//! Judging the terms of commands.
ghost use Rattle.std.specs.Prelude.{◌≡◌, ◌<◌, [], All, length, map, IfErr, IfOk, OnErr, OnOk};
ghost use Rattle.elaborate.specs.Values.{IsLonger};
ghost use Rattle.smt_meaning.specs.Sexp.{sexp};
ghost use Rattle.smt_meaning.specs.Signature.{all_of, sort_eq};
ghost use Rattle.smt_meaning.specs.Sorts.{done, judge};
ghost use Rattle.smt_meaning.specs.StackCommand.{asserts, ask_terms, assert_term, assume_terms, in_question, judge_terms};
ghost use Rattle.smt_meaning.specs.Term.{tree_at};
ghost use Rattle.smt_sorts.specs.Names.{HasGained, Names};
ghost use Rattle.scope_stack.specs.Judged.{AreAssumed, AreJudged, IsCause, IsSameError, assertions_by, scope_by, sort_asked};
ghost use Rattle.scope_stack.specs.Carries.{typed_by};
ghost use Rattle.scope_stack.specs.declared.answers.Asked.{Asked};

use crate::answers::{Asked, Assertion, StackError};
use crate::room::{assertion_error, assumption_error, question_error};
use elaborate::JudgeError;
use smt_meaning::{Refusal, SExpr, Seq, Sort, TermId};
use smt_sorts::Table;
use std::alloc::{AllocError, Global};
use term_store::TermStore;

/// The error of a command whose term comes to this error.
pub(crate) fn judge_error(error: JudgeError) -> StackError
    ensures { IsSameError error result }
{
    match error {
        JudgeError::Refused(refusal) => StackError::Refused(refusal),
        JudgeError::Memory => StackError::Memory,
    }
}

pub(crate) fn is_bool(sort: Sort) -> bool
    ensures { result ≡ sort_eq sort Sort.Bool }
{
    match sort {
        Sort::Bool => true,
        Sort::Int | Sort::Free(_) => false,
    }
}

/// Judges the term of `(assert term)`: its place among the terms. The newest level of the table gains the names that the term gives. An `Err`
/// changes nothing.
pub(crate) fn judge_assertion(
    alloc: Global,
    term: &SExpr,
    table: &mut Table,
    terms: &mut TermStore,
) -> Result<TermId, StackError>
    requires { terms.old.limit ≡ 4294967295 }
    ensures gives { IfOk result (λ id. assert_term term.now (scope_by table.old terms.old.trees) ≡ done (asserts (record { text = term.now; term = tree_at terms.new.trees id })) (scope_by table.new terms.new.trees)) }
    ensures place { IfOk result (λ id. id < length terms.new.trees) }
    ensures gained { OnOk result (HasGained table.old table.new) }
    ensures longer { OnOk result (IsLonger terms.old.trees terms.new.trees) }
    ensures limit { terms.new.limit ≡ terms.old.limit }
    ensures causes { IfErr result (λ e. IsCause e (assert_term term.now (scope_by table.old terms.old.trees))) }
    ensures err { OnErr result ((table.new ≡ table.old) × (terms.new ≡ terms.old)) }
{
    let ids = table.ids();
    let count = terms.len();
    match elaborate::term(alloc, term, table, terms, true) {
        Ok(judged) => {
            let _ = terms.len();
            if is_bool(judged.sort) {
                return Ok(judged.id);
            }
            table.cut_ids(ids);
            terms.cut(count);
            Err(StackError::Refused(Refusal::NotBool))
        }
        Err(error) => Err(assertion_error(alloc, error, term, table, terms)),
    }
}

/// Judges a term whose value is asked for. An `Err` changes nothing.
fn judge_question(
    alloc: Global,
    text: &SExpr,
    table: &mut Table,
    terms: &mut TermStore,
) -> Result<Asked, StackError>
    ensures gives { IfOk result (λ a. judge in_question [] (sexp text.now) (scope_by table.old terms.old.trees) ≡ done (record { tree = tree_at terms.new.trees a.term; sort = a.sort }) (scope_by table.new terms.new.trees)) }
    ensures place { IfOk result (λ a. a.term < length terms.new.trees) }
    ensures gained { (t : Names) → HasGained t table.old → HasGained t table.new }
    ensures longer { IsLonger terms.old.trees terms.new.trees }
    ensures limit { terms.new.limit ≡ terms.old.limit }
    ensures causes { IfErr result (λ e. IsCause e (judge in_question [] (sexp text.now) (scope_by table.old terms.old.trees))) }
{
    match elaborate::term(alloc, text, table, terms, false) {
        Ok(judged) => Ok(Asked {
            term: judged.id,
            sort: judged.sort,
        }),
        Err(error) => Err(judge_error(error)),
    }
}

/// Judges terms whose values are asked for, from the left. An `Err` may leave names and terms.
pub(crate) fn judge_terms(
    alloc: Global,
    texts: &[SExpr],
    table: &mut Table,
    terms: &mut TermStore,
) -> Result<Seq<Asked>, StackError>
    ensures gives { IfOk result (λ a. judge_terms texts.now (scope_by table.old terms.old.trees) ≡ done (typed_by terms.new.trees a) (scope_by table.new terms.new.trees)) }
    ensures within { IfOk result (All (λ (a : Asked). a.term < length terms.new.trees)) }
    ensures gained { (t : Names) → HasGained t table.old → HasGained t table.new }
    ensures longer { IsLonger terms.old.trees terms.new.trees }
    ensures limit { terms.new.limit ≡ terms.old.limit }
    ensures causes { IfErr result (λ e. IsCause e (judge_terms texts.now (scope_by table.old terms.old.trees))) }
{
    let mut asked = Seq::new(alloc);
    let mut rest = texts;
    while let Some((first, tail)) = rest.split_first() {
        let question = judge_question(alloc, first, table, terms)?;
        asked.push(question)?;
        rest = tail;
    }
    Ok(asked)
}

/// Whether all of these terms are Bool.
pub(crate) fn are_bool(asked: &[Asked]) -> bool
    ensures { result ≡ all_of Sort.Bool (map sort_asked asked.now) }
{
    let mut rest = asked;
    while let Some((first, tail)) = rest.split_first() {
        if !is_bool(first.sort) {
            return false;
        }
        rest = tail;
    }
    true
}

/// The assertions of these texts, whose terms were judged.
fn assertions_by(
    alloc: Global,
    texts: &[SExpr],
    asked: &[Asked],
) -> Result<Vec<Assertion>, AllocError>
    ensures { IfOk result (λ v. v.items ≡ assertions_by texts.now asked.now) }
{
    let mut made = Vec::new(alloc);
    let mut rest = texts;
    let mut terms = asked;
    while let Some((text, texts_left)) = rest.split_first() {
        let Some((term, terms_left)) = terms.split_first() else {
            break;
        };
        let text = text.copy(alloc)?;
        made.push(Assertion {
            text,
            term: term.term,
        })?;
        rest = texts_left;
        terms = terms_left;
    }
    Ok(made)
}

/// Judges the terms that a check assumes at a depth: the assertions that they make. An `Err` may leave names and terms.
fn judge_assumed(
    alloc: Global,
    texts: &[SExpr],
    depth: u16,
    table: &mut Table,
    terms: &mut TermStore,
) -> Result<Vec<Assertion>, StackError>
    requires { terms.old.limit ≡ 4294967295 }
    ensures gives { IfOk result (λ v. AreAssumed depth texts.now (scope_by table.old terms.old.trees) v.items table.new terms.new.trees) }
    ensures gained { (t : Names) → HasGained t table.old → HasGained t table.new }
    ensures longer { IsLonger terms.old.trees terms.new.trees }
    ensures limit { terms.new.limit ≡ terms.old.limit }
    ensures causes { IfErr result (λ e. IsCause e (assume_terms depth texts.now (scope_by table.old terms.old.trees))) }
{
    let asked = judge_terms(alloc, texts, table, terms)?;
    let _ = terms.len();
    if !are_bool(asked.as_slice()) {
        return Err(StackError::Refused(Refusal::NotBool));
    }
    if depth == u16::MAX {
        return Err(StackError::Refused(Refusal::TooManyLevels));
    }
    let made = assertions_by(alloc, texts, asked.as_slice())?;
    Ok(made)
}

/// Judges the terms that a check assumes at a depth: the assertions that they make. Their trees stay among the terms. An `Err` changes nothing.
pub(crate) fn judge_assumptions(
    alloc: Global,
    texts: &[SExpr],
    depth: u16,
    table: &mut Table,
    terms: &mut TermStore,
) -> Result<Vec<Assertion>, StackError>
    requires { terms.old.limit ≡ 4294967295 }
    ensures gives { IfOk result (λ v. (names : Names) × AreAssumed depth texts.now (scope_by table.old terms.old.trees) v.items names terms.new.trees) }
    ensures table { table.new ≡ table.old }
    ensures longer { OnOk result (IsLonger terms.old.trees terms.new.trees) }
    ensures limit { terms.new.limit ≡ terms.old.limit }
    ensures causes { IfErr result (λ e. IsCause e (assume_terms depth texts.now (scope_by table.old terms.old.trees))) }
    ensures err { OnErr result (terms.new ≡ terms.old) }
{
    let ids = table.ids();
    let count = terms.len();
    match judge_assumed(alloc, texts, depth, table, terms) {
        Ok(assumed) => {
            table.cut_ids(ids);
            Ok(assumed)
        }
        Err(error) => {
            table.cut_ids(ids);
            terms.cut(count);
            Err(assumption_error(alloc, error, texts, depth, table, terms))
        }
    }
}

/// Judges the terms whose values are asked for. Their trees stay among the terms. An `Err` changes nothing.
pub(crate) fn judge_questions(
    alloc: Global,
    texts: &[SExpr],
    table: &mut Table,
    terms: &mut TermStore,
) -> Result<Seq<Asked>, StackError>
    requires { terms.old.limit ≡ 4294967295 }
    ensures gives { IfOk result (λ a. AreJudged texts.now (scope_by table.old terms.old.trees) a terms.new.trees) }
    ensures table { table.new ≡ table.old }
    ensures longer { OnOk result (IsLonger terms.old.trees terms.new.trees) }
    ensures limit { terms.new.limit ≡ terms.old.limit }
    ensures causes { IfErr result (λ e. IsCause e (ask_terms texts.now (scope_by table.old terms.old.trees))) }
    ensures err { OnErr result (terms.new ≡ terms.old) }
{
    let ids = table.ids();
    let count = terms.len();
    match judge_terms(alloc, texts, table, terms) {
        Ok(asked) => {
            let _ = terms.len();
            table.cut_ids(ids);
            Ok(asked)
        }
        Err(error) => {
            table.cut_ids(ids);
            terms.cut(count);
            Err(question_error(alloc, error, texts, table, terms))
        }
    }
}
