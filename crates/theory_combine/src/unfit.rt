//! Folding of linear forms that leaves the range.
ghost use Rattle.std.specs.Prelude.{◌≡◌, true, IfSome, IfNone};
ghost use Rattle.smt_meaning.specs.Linear.{folding_fits};
ghost use Rattle.smt_meaning.specs.Term.{tree_at};
ghost use Rattle.bound_log.specs.Told.{column_sums};
ghost use Rattle.model_eval.specs.Walk.{is_marked};
ghost use Rattle.exact_model.specs.Exact.{AllFold};
ghost use Rattle.theory_combine.specs.Shown.{IsLeft};
ghost use Rattle.theory_combine.specs.Ready.{IsReady};

use crate::leaves::is_marked_place;
use crate::parts::{Parts, Progress};
use smt_laws::flat_says_the_same;
use smt_meaning::{RangeSeen, TermId};

/// What the folding of a marked term shows, where it leaves the range. None where it stays in it.
fn unfolded_at(parts: &Parts<'_>, progress: &Progress, place: TermId) -> Option<RangeSeen>
    requires { IsReady parts.now progress.now }
    ensures some { IfSome result (IsLeft parts.now.stack.now (column_sums progress.now.held.bounds) progress.now.branches) }
    ensures none { IfNone result (is_marked parts.now.marks.items place ≡ true → folding_fits parts.now.stack.now.trees (tree_at parts.now.stack.now.trees place) ≡ true) }
{
    flat_says_the_same();
    if !is_marked_place(&parts.marks, place) {
        return None;
    }
    match progress.forms.form(place) {
        Ok(_) => None,
        Err(part) => Some(RangeSeen::Coefficient(part)),
    }
}

/// A part whose folding leaves the range, if one's does. None where the folding of each part stays in it.
pub(crate) fn unfolded_seen(parts: &Parts<'_>, progress: &Progress) -> Option<RangeSeen>
    requires { IsReady parts.now progress.now }
    ensures some { IfSome result (IsLeft parts.now.stack.now (column_sums progress.now.held.bounds) progress.now.branches) }
    ensures none { IfNone result (AllFold parts.now.stack.now.trees parts.now.marks.items) }
{
    for place in 0..parts.stack.terms().len() {
        match unfolded_at(parts, progress, place) {
            Some(seen) => return Some(seen),
            None => {}
        }
    }
    None
}
