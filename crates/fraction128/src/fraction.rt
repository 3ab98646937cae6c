//! Fractions in lowest terms.
//!
//! A difference of fractions is the sum with the negation, and names that sum's steps. `gcd` of 0
//! and 0 is 0.
//!
//! Why there is no `Ord` on fractions: a fraction is seen as its numerator and its denominator, a
//! whole number and a natural one; the public struct `Ratio` is that pair. `cmp` is a method of
//! their own.
#![tactic(auto)]

ghost use Rattle.std.specs.Prelude.{◌≡◌, ℕ, ◌*◌, ◌<◌, ◌^◌, pos, ◌+ℤ◌, ◌-ℤ◌, ◌*ℤ◌, ◌<ℤ◌, ◌≤ℤ◌, unsigned_abs, IfOk, OnOk, IfErr, IsTrue, ◌↔◌, ◌≢◌, Some, None};
ghost use Rattle.std.specs.Ordering.{int_cmp};
ghost use Rattle.fraction128.specs.Whole.{InRange, first_outside};
ghost use Rattle.fraction128.specs.Ratio.{IsFraction, Equals, IsSum, IsDifference, IsProduct, IsReciprocal};
ghost use Rattle.fraction128.specs.Listed.{negation_of, reciprocal_of, sum_of, sum_steps, product_of, product_steps};

use crate::order::order;
use crate::sums::{difference, product, reciprocal, reduced, sum};
use crate::whole::floor_div;
use crate::{Range, Ratio};
use std::cmp::Ordering;
use std::marker::Model;

/// A fraction in lowest terms with a positive denominator, both in the range.
#[derive(Clone, Copy, PartialEq, Eq)]
pub struct Fraction {
    ratio: Ratio,
}

impl Model for Fraction {
    ghost use Rattle.fraction128.specs.declared.ratio.Ratio.{Ratio};

    ghost Value = { Ratio };

    ghost use Rattle.fraction128.specs.Ratio.{IsFraction};

    ghost view = { λ a. a.ratio };

    ghost invariant = { λ a. IsFraction a.ratio };

    ghost inverse = { λ r. record { ratio = r } };
}

impl Fraction {
    /// The fraction of a whole number of the range.
    pub fn from_whole(n: i128) -> Fraction
        requires { InRange n }
        ensures { result ≡ record { numerator = n; denominator = 1 } }
    {
        Fraction {
            ratio: Ratio {
                numerator: n,
                denominator: 1,
            },
        }
    }

    /// A numerator of the range over a positive denominator of the range, reduced to lowest terms.
    pub fn new(numerator: i128, denominator: i128) -> Fraction
        requires numerator_in { InRange numerator }
        requires positive { pos 0 <ℤ denominator }
        ensures value { Equals result numerator (unsigned_abs denominator) }
        ensures lowest { IsFraction result }
    {
        let ratio = reduced(numerator, denominator.unsigned_abs());
        Fraction { ratio }
    }

    /// The numerator and the positive denominator, in lowest terms.
    pub fn ratio(self) -> Ratio
        ensures value { result ≡ self }
        ensures lowest { IsFraction self }
    {
        self.ratio
    }

    /// The numerator, in lowest terms.
    pub fn numerator(self) -> i128
        ensures value { result ≡ self.numerator }
        ensures lowest { IsFraction self }
    {
        self.ratio.numerator
    }

    /// The denominator in lowest terms, which is positive.
    pub fn denominator(self) -> i128
        ensures value { result ≡ pos self.denominator }
        ensures lowest { IsFraction self }
    {
        self.ratio.denominator as i128
    }

    /// Whether the fraction is 0.
    pub fn is_zero(self) -> bool
        ensures { IsTrue result ↔ (self.numerator ≡ pos 0) }
    {
        self.ratio.numerator == 0
    }

    /// Whether the fraction is a whole number.
    pub fn is_whole(self) -> bool
        ensures { IsTrue result ↔ (self.denominator ≡ 1) }
    {
        self.ratio.denominator == 1
    }

    /// The negation, which always lies in the range.
    pub fn neg(self) -> Fraction
        ensures value { result ≡ negation_of self }
        ensures lowest { IsFraction result }
    {
        Fraction {
            ratio: Ratio {
                numerator: -self.ratio.numerator,
                denominator: self.ratio.denominator,
            },
        }
    }

    /// The sum, or the first of the listed steps that leaves the range.
    #[inline(always)]
    pub fn add(self, other: Fraction) -> Result<Fraction, Range>
        ensures value { IfOk result (IsSum self other) }
        ensures exact { IfOk result (λ r. r ≡ sum_of self other) }
        ensures operands { IsFraction self × IsFraction other }
        ensures lowest { IfOk result IsFraction }
        ensures fits { OnOk result (first_outside (sum_steps self other) ≡ None) }
        ensures range { IfErr result (λ e. first_outside (sum_steps self other) ≡ Some e) }
    {
        let ratio = sum(self.ratio, other.ratio)?;
        Ok(Fraction { ratio })
    }

    /// The difference, which is the sum with the negation, or the first of that sum's listed steps
    /// that leaves the range.
    pub fn sub(self, other: Fraction) -> Result<Fraction, Range>
        ensures value { IfOk result (IsDifference self other) }
        ensures lowest { IfOk result IsFraction }
        ensures fits { OnOk result (first_outside (sum_steps self (negation_of other)) ≡ None) }
        ensures range { IfErr result (λ e. first_outside (sum_steps self (negation_of other)) ≡ Some e) }
    {
        let ratio = difference(self.ratio, other.ratio)?;
        Ok(Fraction { ratio })
    }

    /// The product, or the first of the listed steps that leaves the range.
    #[inline(always)]
    pub fn mul(self, other: Fraction) -> Result<Fraction, Range>
        ensures value { IfOk result (IsProduct self other) }
        ensures exact { IfOk result (λ r. r ≡ product_of self other) }
        ensures operands { IsFraction self × IsFraction other }
        ensures lowest { IfOk result IsFraction }
        ensures fits { OnOk result (first_outside (product_steps self other) ≡ None) }
        ensures range { IfErr result (λ e. first_outside (product_steps self other) ≡ Some e) }
    {
        let ratio = product(self.ratio, other.ratio)?;
        Ok(Fraction { ratio })
    }

    /// The reciprocal of a fraction other than 0, which always lies in the range.
    pub fn recip(self) -> Fraction
        requires { self.numerator ≢ pos 0 }
        ensures value { IsReciprocal self result }
        ensures exact { result ≡ reciprocal_of self }
        ensures lowest { IsFraction result }
    {
        let ratio = reciprocal(self.ratio);
        Fraction { ratio }
    }

    /// The greatest whole number that is at most the fraction.
    pub fn floor(self) -> i128
        ensures lower { (result *ℤ pos self.denominator) ≤ℤ self.numerator }
        ensures upper { self.numerator <ℤ ((result +ℤ pos 1) *ℤ pos self.denominator) }
        ensures in_range { InRange result }
    {
        if self.ratio.denominator == 1 {
            return self.ratio.numerator;
        }
        floor_div(self.ratio.numerator, self.ratio.denominator as i128)
    }

    /// The order of the rational numbers, found by repeated floor division.
    pub fn cmp(self, other: Fraction) -> Ordering
        ensures { result ≡ int_cmp (self.numerator *ℤ pos other.denominator) (other.numerator *ℤ pos self.denominator) }
    {
        order(self.ratio, other.ratio)
    }
}
