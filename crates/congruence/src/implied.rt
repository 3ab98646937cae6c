//! Literals that follow from what was told.
ghost use Rattle.std.specs.Prelude.{◌≡◌, ◌<◌, length, All, IfOk, IfSome};
ghost use Rattle.point_closure.specs.Whole.{IsWithin};
ghost use Rattle.point_closure.specs.Closure.{Equal};
ghost use Rattle.point_closure.specs.Explained.{merged};
ghost use Rattle.congruence.specs.Reasons.{NoneTwice};
ghost use Rattle.congruence.specs.Recorded.{IsRecorded};
ghost use Rattle.congruence.specs.Implied.{IsRefuted, IsOneRefuted, Presses};

use crate::clause::{add_negations, lemma_of};
use crate::{Congruence, Explanation, reasons_make_equal};
use literals::Literal;
use point_closure::Step;
use search_port::Lemma;
use std::alloc::{AllocError, Global};

/// Two equal points that a step says are different.
#[derive(Clone, Copy, Drop)]
pub(crate) struct Refuted {
    pub(crate) left: u32,
    pub(crate) right: u32,
}

/// These points, where they are equal.
fn equal(congruence: &Congruence, left: u32, right: u32) -> Option<Refuted>
    requires recorded { IsRecorded congruence.now }
    requires left { left < length congruence.now.closure.graph }
    requires right { right < length congruence.now.closure.graph }
    ensures { IfSome result (λ r. (r ≡ record { left = left; right = right }) × Equal congruence.now.closure.graph (merged congruence.now.closure.steps.items) left right) }
{
    if congruence.closure.same(left, right) {
        Some(Refuted { left, right })
    } else {
        None
    }
}

/// The equal points by which a step can't hold.
fn refuted_by(congruence: &Congruence, step: Step) -> Option<Refuted>
    requires recorded { IsRecorded congruence.now }
    requires within { IsWithin (length congruence.now.closure.graph) step }
    ensures { IfSome result (λ r. IsRefuted congruence.now.closure.graph (merged congruence.now.closure.steps.items) step r) }
{
    match step {
        Step::Differ(left, right) => equal(congruence, left, right),
        Step::Merge(left, right) => {
            if right > 1 {
                return None;
            }
            equal(congruence, left, 1 - right)
        }
    }
}

/// The equal points by which the first of these steps can't hold that can't.
fn first_refuted(congruence: &Congruence, steps: &[Step]) -> Option<Refuted>
    requires recorded { IsRecorded congruence.now }
    requires within { All (IsWithin (length congruence.now.closure.graph)) steps.now }
    ensures { IfSome result (λ r. IsOneRefuted congruence.now.closure.graph (merged congruence.now.closure.steps.items) steps.now r) }
{
    for i in 0..steps.len() {
        if let Some(found) = refuted_by(congruence, steps[i]) {
            return Some(found);
        }
    }
    None
}

/// The clause at level 0 that a literal follows from what was told, where one of these steps can't hold, which its negation says. None where each can,
/// or where there are more reasons than so many. An `Err` is for want of memory.
pub fn implied_clause(
    alloc: Global,
    explanation: &mut Explanation,
    congruence: &Congruence,
    literal: Literal,
    steps: &[Step],
    most: usize,
) -> Result<Option<Lemma>, AllocError>
    requires recorded { IsRecorded congruence.now }
    requires within { All (IsWithin (length congruence.now.closure.graph)) steps.now }
    ensures presses { IfOk result (λ found. IfSome found (λ clause. Presses congruence.now literal steps.now clause)) }
    ensures once { IfOk result (λ found. IfSome found (λ clause. NoneTwice clause.literals)) }
{
    reasons_make_equal();
    let Some(found) = first_refuted(congruence, steps) else {
        return Ok(None);
    };
    congruence.explain_points(explanation, found.left, found.right)?;
    if explanation.reasons.len() > most {
        return Ok(None);
    }
    let mut clause = Vec::new(alloc);
    clause.push(literal)?;
    add_negations(&mut clause, &explanation.reasons)?;
    Ok(Some(lemma_of(clause)))
}
