//! Two applications that clash where values are settled: an argument of theirs is past the range, or they differ by two Ints whose equality has no number.
ghost use Rattle.std.specs.Prelude.{◌≡◌, ℕ, ◌+◌, ◌<◌, length, true, false, All, Contains, IfSome, IfNone};
ghost use Rattle.std.specs.List.{AllZip};
ghost use Rattle.congruence.specs.Recorded.{IsRecorded};
ghost use Rattle.smt_meaning.specs.declared.terms.Head.TheVariants.{Symbol};
ghost use Rattle.smt_meaning.specs.Term.{tree_at};
ghost use Rattle.check_atoms.specs.OfStack.{IsNode};
ghost use Rattle.model_build.specs.Given.{given_at, head_of, is_past, IsClash};
ghost use Rattle.closure_log.specs.Whole.{AreInOneClass};
ghost use Rattle.theory_combine.specs.Argument.{IsPastArgument};
ghost use Rattle.theory_combine.specs.Clashing.{AreApartAt, IsClashInRange, HasSettledGiven};
ghost use Rattle.theory_combine.specs.Held.{AllFit};
ghost use Rattle.theory_combine.specs.Pairs.{IsWanted};
ghost use Rattle.theory_combine.specs.Progress.{IsUnderWay};
ghost use Rattle.theory_combine.specs.Ready.{Steps};

use crate::pairs::go_on_with_pair;
use crate::parts::{Pair, Parts, Progress};
use crate::step::{Step, stop, stop_seeing};
use congruence::Congruence;
use model_build::{Clash, Given};
use search_port::Budget;
use smt_laws::flat_says_the_same;
use smt_meaning::{RangeSeen, TermId};

/// Whether a place is given a number past the range.
fn is_past(given: &[Given], place: TermId) -> bool
    requires { place < length given.now }
    ensures { result ≡ is_past (given_at given.now place) }
{
    matches!(given[place as usize], Given::PastRange)
}

/// The first of these places that is given a number past the range.
fn first_past(given: &[Given], places: &[TermId]) -> Option<TermId>
    requires { All (λ i. i < length given.now) places.now }
    ensures some { IfSome result (λ p. Contains places.now p × (is_past (given_at given.now p) ≡ true)) }
    ensures none { IfNone result (All (λ i. is_past (given_at given.now i) ≡ false) places.now) }
{
    for place in places {
        if is_past(given, *place) {
            return Some(*place);
        }
    }
    None
}

/// Whether two terms are in one class.
fn are_in_one_class(closure: &Congruence, left: TermId, right: TermId) -> bool
    requires recorded { IsRecorded closure.now }
    requires left { left + 2 < length closure.now.closure.graph }
    requires right { right + 2 < length closure.now.closure.graph }
    ensures yes { result ≡ true → AreInOneClass closure.now left right }
    ensures no { result ≡ false → AreInOneClass closure.now left right → ⊥ }
{
    closure.closure.class_of(left + 2) == closure.closure.class_of(right + 2)
}

/// The first two terms that stand at one place of both lists and are in two classes.
fn first_apart(closure: &Congruence, left: &[TermId], right: &[TermId]) -> Option<Pair>
    requires recorded { IsRecorded closure.now }
    requires left { All (λ i. i + 2 < length closure.now.closure.graph) left.now }
    requires right { All (λ i. i + 2 < length closure.now.closure.graph) right.now }
    requires size { length right.now ≡ length left.now }
    ensures some { IfSome result (AreApartAt closure.now left.now right.now) }
    ensures none { IfNone result (AllZip (AreInOneClass closure.now) left.now right.now) }
{
    for k in 0..left.len() {
        if !are_in_one_class(closure, left[k], right[k]) {
            return Some(Pair {
                left: left[k],
                right: right[k],
            });
        }
    }
    None
}

/// The arguments of a term.
fn arguments_at<'s>(parts: &Parts<'s>, place: TermId) -> &'s [TermId]
    requires { place < length parts.now.stack.now.trees }
    ensures below { All (λ i. i < length parts.now.stack.now.trees) result.now }
    ensures node { (f : ℕ) → head_of (tree_at parts.now.stack.now.trees place) ≡ Symbol f → IsNode parts.now.stack.now.trees place (Symbol f) result.now }
{
    parts.stack.terms().node(place).arguments
}

/// The first argument of the first application that is past the range.
fn past_argument(
    parts: &Parts<'_>,
    progress: &Progress,
    closure: &Congruence,
    given: &[Given],
    clash: Clash,
) -> Option<TermId>
    requires settled { HasSettledGiven parts.now progress.now closure.now given.now }
    requires clash { IsClash parts.now.stack.now.trees given.now clash.first clash.second }
    ensures some { IfSome result (IsPastArgument parts.now.stack.now progress.now.held.bounds.bounds) }
    ensures none { IfNone result (IsClashInRange parts.now given.now clash) }
{
    flat_says_the_same();
    parts.stack.laws();
    progress.held.bounds.facts();
    let arguments = arguments_at(parts, clash.first);
    first_past(given, arguments)
}

/// Shows an argument that is past the range.
fn stop_at_argument(
    parts: &Parts<'_>,
    progress: &mut Progress,
    budget: &Budget,
    place: TermId,
) -> Step
    requires under_way { IsUnderWay parts.now progress.old }
    requires fits { AllFit progress.old.held.bounds }
    requires argument { IsPastArgument parts.now.stack.now progress.old.held.bounds.bounds place }
    ensures { Steps parts.now progress.old progress.new budget.now budget.now result }
{
    progress.held.bounds.facts();
    match progress.held.bounds.grid(parts.alloc) {
        Ok(grid) => stop_seeing(
            parts,
            progress,
            budget,
            Some(RangeSeen::Argument(place, grid)),
        ),
        Err(_) => stop(parts, progress, budget),
    }
}

/// Two Ints whose equality has no number, and by which the applications differ.
fn differing_pair(
    parts: &Parts<'_>,
    progress: &Progress,
    closure: &Congruence,
    given: &[Given],
    clash: Clash,
) -> Pair
    requires settled { HasSettledGiven parts.now progress.now closure.now given.now }
    requires clash { IsClashInRange parts.now given.now clash }
    ensures { IsWanted parts.now.stack.now parts.now.marks.items progress.now.atoms.atoms result }
{
    parts.stack.laws();
    let left = arguments_at(parts, clash.first);
    let right = arguments_at(parts, clash.second);
    match first_apart(closure, left, right) {
        Some(pair) => pair,
        None => Pair {
            left: clash.first,
            right: clash.second,
        },
    }
}

/// Goes on where two applications clash: shows an argument that is past the range, or goes on with the next atom of a pair of Ints by which they differ. Memory is wanting only where an allocation fails.
pub(crate) fn meet_clash(
    parts: &Parts<'_>,
    progress: &mut Progress,
    budget: &mut Budget,
    closure: &Congruence,
    given: &[Given],
    clash: Clash,
) -> Step
    requires settled { HasSettledGiven parts.now progress.old closure.now given.now }
    requires clash { IsClash parts.now.stack.now.trees given.now clash.first clash.second }
    ensures { Steps parts.now progress.old progress.new budget.old budget.new result }
{
    match past_argument(parts, progress, closure, given, clash) {
        Some(place) => stop_at_argument(parts, progress, budget, place),
        None => {
            let pair = differing_pair(parts, progress, closure, given, clash);
            go_on_with_pair(parts, progress, budget, pair)
        }
    }
}
