//! Fractions added up leaf by leaf.
ghost use Rattle.std.specs.Prelude.{◌≡◌, ◌&&◌, ◌||◌, nat_eq, pos, true, false, IfSome, IfNone};
ghost use Rattle.fraction128.specs.Number.{whole, is_zero};
ghost use Rattle.proof_form.specs.FarkasSums.{so_far, leaves_inside, leaves_vanish};

use crate::farkas_entries::{Entry, sum_with};
use fraction128::Fraction;
use smt_meaning::TermId;

/// The sum so far of a leaf, which is 0 where another leaf came last.
fn carried(last: TermId, sum: Fraction, leaf: TermId) -> Fraction
    ensures { result ≡ so_far last sum leaf }
{
    if last == leaf {
        sum
    } else {
        Fraction::from_whole(0)
    }
}

/// Whether a sum is 0.
fn is_none(sum: Fraction) -> bool
    ensures { result ≡ is_zero sum }
{
    sum.is_zero()
}

/// Whether the sums that are complete when a leaf comes are 0, as they were before.
fn vanish_until(vanish: bool, last: TermId, sum: Fraction, leaf: TermId) -> bool
    ensures { result ≡ (vanish && (nat_eq last leaf || is_zero sum)) }
{
    vanish && (last == leaf || is_none(sum))
}

/// Whether the multiples of each leaf add up to 0, where those of one leaf stand side by side. `None`: a number leaves the range.
pub(crate) fn are_zero(entries: &[Entry]) -> Option<bool>
    ensures some { IfSome result (λ b. (leaves_inside 0 (whole (pos 0)) entries.now ≡ true) × (b ≡ leaves_vanish 0 (whole (pos 0)) entries.now)) }
    ensures none { IfNone result (leaves_inside 0 (whole (pos 0)) entries.now ≡ false) }
{
    let mut last = 0;
    let mut sum = Fraction::from_whole(0);
    let mut vanish = true;
    for entry in entries {
        vanish = vanish_until(vanish, last, sum, entry.leaf);
        sum = sum_with(carried(last, sum, entry.leaf), entry.multiple)?;
        last = entry.leaf;
    }
    Some(vanish && is_none(sum))
}
