//! The bounds that compare two terms.
//!
//! `s < t` folds to the constant minus one: it is the bound that the difference is at most minus
//! one, and where that number leaves the range, comparing the two does. A pair of Int terms folds
//! exactly where the term that subtracts them does; `s < t` also needs its threshold in the range,
//! else it is the pair's failure.
ghost use Rattle.std.specs.Prelude.{◌≡◌, ◌<◌, length, true, IfOk, IfErr, IfSome, IfNone, List, pos, ◌-ℤ◌, neg_ℤ};
ghost use Rattle.fraction128.specs.Whole.{InRange};
ghost use Rattle.smt_meaning.specs.Term.{Tree};
ghost use Rattle.linear_forms.specs.Table.{AreForms};
ghost use Rattle.linear_forms.specs.Differences.{KnowsForms, Refuses};
ghost use Rattle.pair_bounds.specs.Pairs.{at_most_fits, below_fits, IsAtMost, IsBelow};

use crate::normal::normalize;
use linear_forms::{DifferenceError, LinearForms};
use smt_meaning::{Summand, TermId};

/// The negation of a number less one, where it is in the range.
fn negation_less_one(number: i128) -> Option<i128>
    requires { InRange number }
    ensures some { IfSome result (λ n. (n ≡ neg_ℤ number -ℤ pos 1) × InRange n) }
    ensures none { IfNone result (InRange (neg_ℤ number -ℤ pos 1) → ⊥) }
{
    if number == i128::MAX {
        return None;
    }
    Some(-number - 1)
}

/// That the term at one place is at most the one at another, as a bound in normal form: gives the threshold, and leaves in the list, whatever it was before, the
/// sum that is at most the threshold. An `Err` says where folding the bound leaves the range, or that memory is wanting; then nothing is said of the list.
pub fn at_most(
    forms: &mut LinearForms,
    left: TermId,
    right: TermId,
    sum: &mut Vec<Summand>,
) -> Result<i128, DifferenceError>
    requires left { left < length forms.old }
    requires right { right < length forms.old }
    requires known { KnowsForms forms.old }
    ensures ok { (trees : List Tree) → AreForms trees forms.old → IfOk result (λ k. IsAtMost trees left right sum.new.items k) }
    ensures err { (trees : List Tree) → AreForms trees forms.old → IfErr result (λ e. Refuses trees (at_most_fits trees) left right e) }
    ensures same { forms.new ≡ forms.old }
{
    let constant = forms.difference(left, right, sum)?;
    Ok(normalize(sum, -constant))
}

/// That the term at one place is below the one at another, in the same way.
pub fn below(
    forms: &mut LinearForms,
    left: TermId,
    right: TermId,
    sum: &mut Vec<Summand>,
) -> Result<i128, DifferenceError>
    requires left { left < length forms.old }
    requires right { right < length forms.old }
    requires known { KnowsForms forms.old }
    ensures ok { (trees : List Tree) → AreForms trees forms.old → IfOk result (λ k. IsBelow trees left right sum.new.items k) }
    ensures err { (trees : List Tree) → AreForms trees forms.old → IfErr result (λ e. Refuses trees (below_fits trees) left right e) }
    ensures same { forms.new ≡ forms.old }
{
    let constant = forms.difference(left, right, sum)?;
    match negation_less_one(constant) {
        Some(threshold) => Ok(normalize(sum, threshold)),
        None => Err(DifferenceError::Pair),
    }
}
