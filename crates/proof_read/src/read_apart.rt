//! Whether numbers that are written differ, however large they are.
ghost use Rattle.std.specs.Prelude.{◌≡◌, ◌+◌, ◌-◌, ◌*◌, ◌<◌, ◌≤◌, List, length, slice_index, nat_lt, Some, IfOk};
ghost use Rattle.std.specs.Ordering.{nat_cmp};
ghost use Rattle.smt_meaning.specs.declared.clauses.Summand.{Summand as SummandValue};
ghost use Rattle.smt_meaning.specs.Command.{each};
ghost use Rattle.smt_meaning.specs.Sorts.{decimal};
ghost use Rattle.look_ahead.specs.Ahead.{ahead, AreEnds};
ghost use Rattle.proof_read.specs.ReadSums.{summand_in, are_apart, are_rising, terms_of};
ghost use Rattle.proof_read.specs.ReadApart.{numbers_of, HasLeaf, padded, Leads};

use crate::read_parts::{Progress, Source};
use std::alloc::{AllocError, Global};
use std::cmp::Ordering;

/// Whether no leaf stands twice among the summands that are written at a place.
pub(crate) fn are_different(
    alloc: Global,
    source: &Source<'_>,
    place: usize,
) -> Result<bool, AllocError>
    requires { AreEnds source.now.proof.now source.now.ends.now }
    ensures { (ps : List SummandValue) → each summand_in (ahead source.now.proof.now place) ≡ Some ps → IfOk result (λ b. b ≡ are_apart (terms_of ps)) }
{
    let mut leaves = leaf_digits(alloc, source, place)?;
    leaves.sort_unstable_by(|left, right| compare(left, right));
    Ok(is_rising(&leaves))
}

/// The digits of the leaves of the summands that are written at a place.
fn leaf_digits<'a>(
    alloc: Global,
    source: &Source<'a>,
    place: usize,
) -> Result<Vec<&'a [u8]>, AllocError>
    requires { AreEnds source.now.proof.now source.now.ends.now }
    ensures { (ps : List SummandValue) → each summand_in (ahead source.now.proof.now place) ≡ Some ps → IfOk result (λ v. numbers_of v.items ≡ terms_of ps) }
{
    let mut at = Progress::new(place);
    let mut leaves = Vec::new(alloc);
    while let Some(leaf) = source.leaf(&mut at) {
        leaves.push(leaf)?;
    }
    Ok(leaves)
}

impl<'a> Source<'a> {
    /// The digits of the leaf of a summand, which is read where it is next.
    fn leaf(&self, at: &mut Progress) -> Option<&'a [u8]>
        requires { AreEnds self.now.proof.now self.now.ends.now }
        ensures { HasLeaf self.now.proof.now at.old at.new result }
    {
        let close = self.enter(at)?;
        at.place = self.skip(at.place)?;
        let digits = self.digits(at)?;
        at.place = close + 1;
        Some(digits)
    }
}

/// Whether each number is above the one before it.
fn is_rising(numbers: &[&[u8]]) -> bool
    ensures { result ≡ are_rising (numbers_of numbers.now) }
{
    let Some((first, rest)) = numbers.split_first() else {
        return true;
    };
    let mut last = *first;
    for number in rest {
        if !is_below(last, number) {
            return false;
        }
        last = *number;
    }
    true
}

fn is_below(left: &[u8], right: &[u8]) -> bool
    ensures { result ≡ nat_lt (decimal left.now) (decimal right.now) }
{
    compare(left, right) == Ordering::Less
}

/// The digit at a place of a number that is written with so many digits, those before its own being 0.
fn digit_at(digits: &[u8], count: usize, place: usize) -> u32
    requires count { length digits.now ≤ count }
    requires place { place < count }
    ensures value { result ≡ slice_index (padded count digits.now) place }
    ensures bound { result ≤ 207 }
{
    let before = count - digits.len();
    if place < before {
        0
    } else {
        u32::from(digits[place - before].saturating_sub(48))
    }
}

/// Which of two numbers is larger. Only what one is ahead of the other counts: where that is 24, no digits that follow can make up for it.
fn compare(left: &[u8], right: &[u8]) -> Ordering
    ensures { result ≡ nat_cmp (decimal left.now) (decimal right.now) }
{
    let count = left.len().max(right.len());
    let mut lead = Lead { left: 0, right: 0 };
    for place in 0..count {
        lead = lead.after(digit_at(left, count, place), digit_at(right, count, place));
        if lead.left >= 24 {
            return Ordering::Greater;
        }
        if lead.right >= 24 {
            return Ordering::Less;
        }
    }
    lead.left.cmp(&lead.right)
}

/// What one of two numbers is ahead of the other.
#[derive(Clone, Copy, Drop)]
struct Lead {
    left: u32,
    right: u32,
}

impl Lead {
    /// After one more digit of each.
    fn after(self, left: u32, right: u32) -> Lead
        requires few { (self.left < 24) × (self.right < 24) }
        requires digits { (left ≤ 207) × (right ≤ 207) }
        ensures { Leads (10 * self.left + left) (10 * self.right + right) result }
    {
        let left = 10 * self.left + left;
        let right = 10 * self.right + right;
        Lead {
            left: left.saturating_sub(right),
            right: right.saturating_sub(left),
        }
    }
}
