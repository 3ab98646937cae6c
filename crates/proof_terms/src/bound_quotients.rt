//! Sums divided by a number that divides each coefficient.
ghost use Rattle.std.specs.Prelude.{◌≡◌, ◌<◌, ◌↔◌, true, pos, ◌<ℤ◌, unsigned_abs, IfOk, IsTrue};
ghost use Rattle.std.specs.Int.{◌∣◌};
ghost use Rattle.smt_meaning.specs.Linear.{summand as summand_of, sum_fits};
ghost use Rattle.smt_meaning.specs.Atoms.{divided, each_divided};
ghost use Rattle.smt_meaning.specs.Atoms.{DividesEach};

use smt_meaning::Summand;
use std::alloc::{AllocError, Global};

/// Whether a number divides another.
fn divides(divisor: u128, number: i128) -> bool
    requires { 0 < divisor }
    ensures { IsTrue result ↔ (divisor ∣ unsigned_abs number) }
{
    number.unsigned_abs() % divisor == 0
}

/// Whether a number divides each coefficient.
pub(crate) fn divides_each(divisor: u128, sum: &[Summand]) -> bool
    requires above { 0 < divisor }
    requires fits { sum_fits sum.now ≡ true }
    ensures { IsTrue result ↔ DividesEach divisor sum.now }
{
    for summand in sum {
        if !divides(divisor, summand.coefficient) {
            return false;
        }
    }
    true
}

/// A summand with its coefficient divided.
fn divided_summand(summand: Summand, divisor: i128) -> Summand
    requires { pos 0 <ℤ divisor }
    ensures { result ≡ summand_of summand.term (divided summand.coefficient divisor) }
{
    Summand {
        coefficient: fraction128::floor_div(summand.coefficient, divisor),
        term: summand.term,
    }
}

/// The sum with each coefficient divided.
pub(crate) fn each_divided(
    alloc: Global,
    sum: &[Summand],
    divisor: i128,
) -> Result<Vec<Summand>, AllocError>
    requires { pos 0 <ℤ divisor }
    ensures { IfOk result (λ v. v.items ≡ each_divided divisor sum.now) }
{
    let mut quotients = Vec::new(alloc);
    for summand in sum {
        quotients.push(divided_summand(*summand, divisor))?;
    }
    Ok(quotients)
}
