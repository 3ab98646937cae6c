//! Progressions, and what is added to all of their numbers.
ghost use Rattle.std.specs.Prelude.{◌≡◌, ◌<◌, true, false, ℤ, pos, ◌+ℤ◌, ◌*ℤ◌, ◌<ℤ◌, unsigned_abs, IfSome};
ghost use Rattle.std.specs.Int.{◌∣◌};
ghost use Rattle.fraction128.specs.declared.ratio.Ratio.{Ratio};
ghost use Rattle.fraction128.specs.Whole.{InRange};
ghost use Rattle.fraction128.specs.Number.{whole, SameNumber, unreduced_sum, unreduced_product};
ghost use Rattle.sum_bounds.specs.Progressions.{Has, MayBe, IsScaled, Adds};

use fraction128::{Fraction, gcd};
use std::marker::Model;

/// The product, where it lies in the range.
fn product(a: i128, b: i128) -> Option<i128>
    ensures { IfSome result (λ r. (r ≡ a *ℤ b) × InRange r) }
{
    match a.checked_mul(b) {
        Some(product) if product != i128::MIN => Some(product),
        _ => None,
    }
}

/// The sum, where it lies in the range.
fn sum(a: i128, b: i128) -> Option<i128>
    ensures { IfSome result (λ r. (r ≡ a +ℤ b) × InRange r) }
{
    match a.checked_add(b) {
        Some(sum) if sum != i128::MIN => Some(sum),
        _ => None,
    }
}

/// Whether a number is a multiple of another one; also where that is 0.
fn is_multiple(number: i128, of: i128) -> bool
    requires number { InRange number }
    ensures { result ≡ false → (m : ℤ) → of *ℤ m +ℤ number ≡ pos 0 → ⊥ }
{
    of == 0 || number % of == 0
}

/// The quotient of a positive number by a positive divisor of it.
fn quotient(number: i128, divisor: i128) -> i128
    requires number { (pos 0 <ℤ number) × InRange number }
    requires divisor { pos 0 <ℤ divisor }
    requires divides { unsigned_abs divisor ∣ unsigned_abs number }
    ensures positive { pos 0 <ℤ result }
    ensures in_range { InRange result }
    ensures value { result *ℤ divisor ≡ number }
{
    number / divisor
}

/// Two factors.
#[derive(Drop)]
struct Factors {
    left: i128,
    right: i128,
}

/// The least factors with which two positive numbers become the same.
fn factors_of(left: i128, right: i128) -> Factors
    requires left { (pos 0 <ℤ left) × InRange left }
    requires right { (pos 0 <ℤ right) × InRange right }
    ensures positive { pos 0 <ℤ result.left }
    ensures in_range { InRange result.left × InRange result.right }
    ensures same { left *ℤ result.left ≡ right *ℤ result.right }
{
    let divisor = gcd(left, right);
    Factors {
        left: quotient(right, divisor),
        right: quotient(left, divisor),
    }
}

/// The numbers whose product with the scale is the start plus a multiple of the step.
#[derive(Clone, Copy)]
pub struct Progression {
    scale: i128,
    step: i128,
    start: i128,
}

impl Model for Progression {
    ghost use Rattle.sum_bounds.specs.Progressions.{State};

    ghost Value = { State };

    ghost use Rattle.std.specs.Prelude.{pos, ◌<ℤ◌};
    ghost use Rattle.fraction128.specs.Whole.{InRange};

    ghost view = { λ p. record { scale = p.scale; step = p.step; start = p.start } };

    ghost invariant = { λ p. (pos 0 <ℤ p.scale) × InRange p.scale × InRange p.step × InRange p.start };

    ghost inverse = { λ s. record { scale = s.scale; step = s.step; start = s.start } };
}

impl Progression {
    ghost use Rattle.sum_bounds.specs.Progressions.{State};

    /// 0 alone.
    pub fn zero() -> Progression
        ensures { Has result (whole (pos 0)) }
    {
        Progression {
            scale: 1,
            step: 0,
            start: 0,
        }
    }

    /// The same numbers, with the scale times the factor.
    fn scaled(self, factor: i128) -> Option<Progression>
        requires { pos 0 <ℤ factor }
        ensures { IfSome result (IsScaled self factor) }
    {
        Some(Progression {
            scale: product(self.scale, factor)?,
            step: product(self.step, factor)?,
            start: product(self.start, factor)?,
        })
    }

    /// The start with so much more.
    fn moved(self, by: i128) -> Option<Progression>
        ensures { IfSome result (λ p. p ≡ record self { start = self.start +ℤ by }) }
    {
        Some(Progression {
            scale: self.scale,
            step: self.step,
            start: sum(self.start, by)?,
        })
    }

    /// The step lessened so that the multiples of the weight are multiples of it too.
    fn widened(self, weight: i128) -> Progression
        requires { InRange weight }
        ensures same { (result.scale ≡ self.scale) × (result.start ≡ self.start) }
        ensures has { (m z : ℤ) → (n : ℤ) × (result.step *ℤ n ≡ self.step *ℤ m +ℤ weight *ℤ z) }
    {
        Progression {
            scale: self.scale,
            step: gcd(self.step, weight),
            start: self.start,
        }
    }

    /// The weight added to the start as often as the number says, or else as often as one likes.
    fn with_weight(self, weight: i128, fixed: Option<i128>) -> Option<Progression>
        requires weight { InRange weight }
        requires fixed { IfSome fixed InRange }
        ensures { IfSome result (Adds self weight fixed) }
    {
        match fixed {
            Some(number) => self.moved(product(weight, number)?),
            None => Some(self.widened(weight)),
        }
    }

    /// The numbers with a multiple of the coefficient more: by the number that the variable is fixed at, or else by any whole number. `None` where a number leaves the range.
    pub fn with_part(self, coefficient: Fraction, fixed: Option<i128>) -> Option<Progression>
        requires { IfSome fixed InRange }
        ensures { IfSome result (λ p. (z : ℤ) (x : Ratio) → MayBe fixed z → Has self x → Has p (unreduced_sum (unreduced_product coefficient (whole z)) x)) }
    {
        let factors = factors_of(self.scale, coefficient.denominator());
        let scaled = self.scaled(factors.left)?;
        let weight = product(coefficient.numerator(), factors.right)?;
        scaled.with_weight(weight, fixed)
    }

    /// Whether no number of the progression is 0. Where the step is 0 it may be overlooked.
    pub fn lacks_zero(self) -> bool
        ensures { result ≡ true → (x : Ratio) → 0 < x.denominator → SameNumber x (whole (pos 0)) → Has self x → ⊥ }
    {
        !is_multiple(self.start, self.step)
    }
}
