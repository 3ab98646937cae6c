//! The multiples of bounds, leaf by leaf.
ghost use Rattle.std.specs.Prelude.{◌≡◌, ◌<◌, ◌^◌, ◌++◌, ℕ, nat_eq, true, false, Ok, IfOk, IfSome, IfNone, OnOk};
ghost use Rattle.std.specs.List.{filter};
ghost use Rattle.std.specs.List.Sorted.{IsNonDecreasingBy};
ghost use Rattle.fraction128.specs.Whole.{InRange, is_in_range};
ghost use Rattle.fraction128.specs.Listed.{sum_of};
ghost use Rattle.smt_meaning.specs.Linear.{sum_fits};
ghost use Rattle.linear_forms.specs.Sums.{signed};
ghost use Rattle.proof_terms.specs.Range.{lowest};
ghost use Rattle.proof_form.specs.FarkasSums.{IsMultiple, AreMultiples, signed_sum, signed_limit, sum_inside, multiple, multiple_inside, limit_inside, entries_of, multiples_inside, AfterPart, AfterParts};

use fraction128::Fraction;
use proof_meaning::Weighted;
use smt_meaning::{Atom, Summand, TermId};
use std::alloc::AllocError;

/// A multiple of a leaf.
#[derive(Drop)]
pub(crate) struct Entry {
    pub(crate) leaf: TermId,
    pub(crate) multiple: Fraction,
}

/// A multiplier in lowest terms.
pub(crate) fn multiplier_of(numerator: u128, denominator: u128) -> Fraction
    requires numerator_in { numerator < 2 ^ 127 }
    requires above { 0 < denominator }
    requires denominator_in { denominator < 2 ^ 127 }
    ensures { result ≡ lowest numerator denominator }
{
    Fraction::new(numerator as i128, denominator as i128)
}

/// The coefficient of a leaf in what is at most 0 where a literal on a bound is false.
fn turned(positive: bool, coefficient: i128) -> i128
    requires { InRange coefficient }
    ensures value { result ≡ signed positive coefficient }
    ensures in_range { InRange result }
{
    if positive { -coefficient } else { coefficient }
}

/// The constant of what is at most 0 where a literal on a bound is false. `None`: it leaves the range.
pub(crate) fn constant_of(positive: bool, limit: i128) -> Option<i128>
    requires { InRange limit }
    ensures some { IfSome result (λ k. (k ≡ signed_limit positive limit) × InRange k) }
    ensures none { IfNone result (is_in_range (signed_limit positive limit) ≡ false) }
{
    if !positive {
        return Some(-limit);
    }
    match fraction128::add(limit, 1) {
        Ok(constant) => Some(constant),
        Err(_) => None,
    }
}

/// A number times a multiplier. `None`: a number leaves the range.
pub(crate) fn multiple_of(multiplier: Fraction, number: i128) -> Option<Fraction>
    requires { InRange number }
    ensures some { IfSome result (λ r. (multiple_inside multiplier number ≡ true) × (r ≡ multiple multiplier number)) }
    ensures none { IfNone result (multiple_inside multiplier number ≡ false) }
{
    match multiplier.mul(Fraction::from_whole(number)) {
        Ok(multiple) => Some(multiple),
        Err(_) => None,
    }
}

/// A sum. `None`: a number leaves the range.
pub(crate) fn sum_with(sum: Fraction, more: Fraction) -> Option<Fraction>
    ensures some { IfSome result (λ r. (sum_inside sum more ≡ true) × (r ≡ sum_of sum more)) }
    ensures none { IfNone result (sum_inside sum more ≡ false) }
{
    match sum.add(more) {
        Ok(sum) => Some(sum),
        Err(_) => None,
    }
}

/// Adds an entry for each leaf of a bound. `false`: a number leaves the range.
pub(crate) fn add_entries(
    multiplier: Fraction,
    positive: bool,
    sum: &[Summand],
    entries: &mut Vec<Entry>,
) -> Result<bool, AllocError>
    requires { sum_fits sum.now ≡ true }
    ensures inside { IfOk result (λ b. b ≡ multiples_inside multiplier (signed_sum positive sum.now)) }
    ensures entries { result ≡ Ok true → entries.new.items ≡ entries.old.items ++ entries_of multiplier (signed_sum positive sum.now) }
{
    for summand in sum {
        match multiple_of(multiplier, turned(positive, summand.coefficient)) {
            Some(multiple) => entries.push(Entry {
                leaf: summand.term,
                multiple,
            })?,
            None => return Ok(false),
        }
    }
    Ok(true)
}

/// Adds the multiple of a constant to the sum so far. `None`: a number leaves the range.
fn add_constant(
    multiplier: Fraction,
    positive: bool,
    limit: i128,
    constant: Fraction,
) -> Option<Fraction>
    requires { InRange limit }
    ensures some { IfSome result (λ r. (limit_inside constant multiplier (signed_limit positive limit) ≡ true) × (r ≡ sum_of constant (multiple multiplier (signed_limit positive limit)))) }
    ensures none { IfNone result (limit_inside constant multiplier (signed_limit positive limit) ≡ false) }
{
    let number = constant_of(positive, limit)?;
    let multiple = multiple_of(multiplier, number)?;
    sum_with(constant, multiple)
}

/// Adds the multiple of a bound: an entry for each leaf, and to the sum of the constants so far. `None`: a number leaves the range.
fn add_part(
    weighted: &Weighted,
    constant: Fraction,
    entries: &mut Vec<Entry>,
) -> Result<Option<Fraction>, AllocError>
    requires { (high : ℕ) × IsMultiple high weighted.now }
    ensures { IfOk result (AfterPart weighted.now constant entries.old.items entries.new.items) }
{
    let Atom::AtMost(sum, limit) = &weighted.literal.atom else {
        unreachable!()
    };
    let positive = weighted.literal.positive;
    let multiplier = multiplier_of(weighted.numerator, weighted.denominator);
    let Some(added) = add_constant(multiplier, positive, *limit, constant) else {
        return Ok(None);
    };
    if add_entries(multiplier, positive, sum.as_slice(), entries)? {
        Ok(Some(added))
    } else {
        Ok(None)
    }
}

/// Adds the multiples of bounds: an entry for each leaf of each, and the sum of the constants. `None`: a number leaves the range.
pub(crate) fn add_parts(
    weighted: &[Weighted],
    entries: &mut Vec<Entry>,
) -> Result<Option<Fraction>, AllocError>
    requires { AreMultiples weighted.now }
    ensures { IfOk result (AfterParts weighted.now entries.old.items entries.new.items) }
{
    let mut constant = Fraction::from_whole(0);
    for part in weighted {
        match add_part(part, constant, entries)? {
            Some(sum) => constant = sum,
            None => return Ok(None),
        }
    }
    Ok(Some(constant))
}

/// Sorts entries by their leaves, and leaves those of one leaf in their order.
pub(crate) fn sort_by_leaf(entries: &mut Vec<Entry>) -> Result<(), AllocError>
    ensures sorted { OnOk result (IsNonDecreasingBy (λ e. e.leaf) entries.new.items) }
    ensures stable { OnOk result ((x : ℕ) → filter (λ e. nat_eq x e.leaf) entries.new.items ≡ filter (λ e. nat_eq x e.leaf) entries.old.items) }
{
    entries.sort_by_key(|entry| entry.leaf)?;
    Ok(())
}
