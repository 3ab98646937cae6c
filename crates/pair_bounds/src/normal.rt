//! Bounds divided by the greatest common divisor of their coefficients.
ghost use Rattle.std.specs.Prelude.{◌≡◌, ℕ, true, pos, ◌<ℤ◌};
ghost use Rattle.fraction128.specs.Whole.{InRange};
ghost use Rattle.smt_meaning.specs.declared.clauses.Atom.TheVariants.{AtMost};
ghost use Rattle.smt_meaning.specs.Linear.{summand as summand_of, sum_fits};
ghost use Rattle.smt_meaning.specs.Atoms.{sum_gcd, divided, each_divided, normal_bound};
ghost use Rattle.linear_forms.specs.Sums.{IsSumWithin};
ghost use Rattle.pair_bounds.specs.Sums.{HaveNoZero};

use fraction128::gcd;
use smt_meaning::Summand;

/// The quotient, rounded down.
fn quotient(number: i128, divisor: i128) -> i128
    requires { pos 0 <ℤ divisor }
    ensures { result ≡ divided number divisor }
{
    number.div_euclid(divisor)
}

/// The greatest common divisor of the coefficients, 0 where there are none.
fn divisor_of(sum: &[Summand]) -> i128
    requires { sum_fits sum.now ≡ true }
    ensures value { result ≡ pos (sum_gcd sum.now) }
    ensures in_range { InRange result }
{
    let mut divisor = 0;
    let mut i = sum.len();
    while i > 0 {
        i -= 1;
        divisor = gcd(sum[i].coefficient, divisor);
    }
    divisor
}

/// A summand with its coefficient divided.
fn divided_summand(summand: Summand, divisor: i128) -> Summand
    requires { pos 0 <ℤ divisor }
    ensures { result ≡ summand_of summand.term (divided summand.coefficient divisor) }
{
    Summand {
        coefficient: quotient(summand.coefficient, divisor),
        term: summand.term,
    }
}

/// Divides each coefficient, rounding down.
fn divide(sum: &mut [Summand], divisor: i128)
    requires { pos 0 <ℤ divisor }
    ensures { sum.new ≡ each_divided divisor sum.old }
{
    for summand in sum.iter_mut() {
        *summand = divided_summand(*summand, divisor);
    }
}

/// Brings a bound into normal form: gives the threshold, and leaves the sum in the place of the old one.
pub(crate) fn normalize(sum: &mut [Summand], threshold: i128) -> i128
    requires fits { sum_fits sum.old ≡ true }
    requires no_zero { HaveNoZero sum.old }
    requires in_range { InRange threshold }
    ensures bound { AtMost sum.new result ≡ normal_bound sum.old threshold }
    ensures fits { sum_fits sum.new ≡ true }
    ensures in_range { InRange result }
    ensures order { (low high : ℕ) → IsSumWithin low high sum.old → IsSumWithin low high sum.new }
{
    let divisor = divisor_of(sum);
    if divisor <= 1 {
        return threshold;
    }
    divide(sum, divisor);
    quotient(threshold, divisor)
}
