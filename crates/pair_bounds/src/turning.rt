//! Bounds of sums that are turned so that the first coefficient is positive.
//!
//! Why: a sum is turned so that its first coefficient is positive; a bound on the negated sum is a
//! bound of the other side of the same variable. A bound that doesn't hold bounds the sum from the
//! other side by the next number, and that number may leave the range.
ghost use Rattle.std.specs.Prelude.{◌≡◌, ℕ, true, List, negsuc, ◌*ℤ◌};
ghost use Rattle.fraction128.specs.Whole.{InRange};
ghost use Rattle.smt_meaning.specs.declared.clauses.Atom.TheVariants.{AtMost as BoundAtom};
ghost use Rattle.smt_meaning.specs.Term.{Tree, Interpretation};
ghost use Rattle.smt_meaning.specs.Clause.{atom_true, sum_value};
ghost use Rattle.smt_meaning.specs.Linear.{summand as summand_of, sum_fits};
ghost use Rattle.linear_forms.specs.Sums.{IsSumWithin};
ghost use Rattle.pair_bounds.specs.Turning.{is_turned, negation_of, turned, limit_of, is_within};

use smt_meaning::Summand;

/// What a sum is at most, or at least.
#[derive(Clone, Copy, PartialEq, Eq, Drop)]
pub enum Limit {
    AtMost(i128),
    AtLeast(i128),
}

/// Whether the first coefficient is negative.
fn first_is_negative(sum: &[Summand]) -> bool
    ensures { result ≡ is_turned sum.now }
{
    match sum.first() {
        Some(summand) => summand.coefficient < 0,
        None => false,
    }
}

/// A summand with its coefficient negated.
fn negated(summand: Summand) -> Summand
    requires { InRange summand.coefficient }
    ensures { result ≡ summand_of summand.term (negsuc 0 *ℤ summand.coefficient) }
{
    Summand {
        coefficient: -summand.coefficient,
        term: summand.term,
    }
}

/// Negates each coefficient.
fn negate(sum: &mut [Summand])
    requires { sum_fits sum.old ≡ true }
    ensures { sum.new ≡ negation_of sum.old }
{
    for summand in sum.iter_mut() {
        *summand = negated(*summand);
    }
}

/// Turns a sum so that its first coefficient is positive, and gives what the bound that the sum is at most a threshold says of the turned sum: a sum whose first
/// coefficient is negative is at most the threshold where its negation is at least the threshold's negation.
pub fn turn(sum: &mut [Summand], threshold: i128) -> Limit
    requires fits { sum_fits sum.old ≡ true }
    requires in_range { InRange threshold }
    ensures sum { sum.new ≡ turned sum.old }
    ensures limit { result ≡ limit_of sum.old threshold }
    ensures fits { sum_fits sum.new ≡ true }
    ensures order { (low high : ℕ) → IsSumWithin low high sum.old → IsSumWithin low high sum.new }
    ensures says { (ts : List Tree) (I : Interpretation) → is_within result (sum_value ts I sum.new) ≡ atom_true ts I (BoundAtom sum.old threshold) }
{
    if first_is_negative(sum) {
        negate(sum);
        return Limit::AtLeast(-threshold);
    }
    Limit::AtMost(threshold)
}
