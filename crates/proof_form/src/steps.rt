//! A step by its rule.
ghost use Rattle.std.specs.Prelude.{◌≡◌, ◌<◌, true, length, All, IfOk};
ghost use Rattle.proof_form.specs.Asserted.{asserted_at};
ghost use Rattle.proof_terms.specs.Comes.{Comes};
ghost use Rattle.proof_read.specs.Written.{numbers_fit};

use crate::equalities::{
    judge_assert, judge_both, judge_cong, judge_neither, judge_pick, judge_refl, judge_sym,
    judge_trans, judge_truth,
};
use crate::farkas::judge_farkas;
use crate::resolution::judge_resolution;
use proof_meaning::Step;
use proof_terms::{Clauses, Terms, Verdict, judge_euclid, judge_form, judge_link, judge_round};
use smt_meaning::TermId;
use std::alloc::{AllocError, Global};

/// Judges a step whose numbers are in the range; the assertions are terms of the stack, in order. Where it is by its rule, its clause is kept.
pub(crate) fn judge_step(
    alloc: Global,
    terms: &mut Terms<'_>,
    asserted: &[TermId],
    clauses: &mut Clauses,
    step: &Step,
) -> Result<Verdict, AllocError>
    requires asserted { All (λ i. i < length terms.old.held) asserted.now }
    requires numbers { numbers_fit step.now ≡ true }
    ensures comes { IfOk result (Comes terms.old (asserted_at terms.old.held asserted.now) clauses.old clauses.new step.now) }
    ensures same { terms.new ≡ terms.old }
{
    match step {
        Step::Assert(assertion, place) => {
            judge_assert(alloc, terms, asserted, clauses, *assertion, *place)
        }
        Step::Form(place, literals) => {
            judge_form(alloc, terms, clauses, *place, literals.as_slice())
        }
        Step::Pick(place, which) => judge_pick(alloc, terms, clauses, *place, *which),
        Step::Euclid(place, which) => judge_euclid(alloc, terms, clauses, *place, *which),
        Step::Refl(place) => judge_refl(alloc, terms, clauses, *place),
        Step::Sym(left, right) => judge_sym(alloc, terms, clauses, *left, *right),
        Step::Trans(first, second, third) => {
            judge_trans(alloc, terms, clauses, *first, *second, *third)
        }
        Step::Cong(left, right) => judge_cong(alloc, terms, clauses, *left, *right),
        Step::Truth(left, right) => judge_truth(alloc, terms, clauses, *left, *right),
        Step::Both(left, right) => judge_both(alloc, terms, clauses, *left, *right),
        Step::Neither(left, right) => judge_neither(alloc, terms, clauses, *left, *right),
        Step::Link(left, right, which) => judge_link(alloc, terms, clauses, *left, *right, *which),
        Step::Round(literal, divisor) => judge_round(alloc, terms, clauses, literal, *divisor),
        Step::Farkas(weighted) => judge_farkas(alloc, terms, clauses, weighted.as_slice()),
        Step::Res(left, right, literal) => {
            judge_resolution(alloc, terms, clauses, *left, *right, literal)
        }
    }
}
