//! Sums that are worth a split: what fixed sums leave of other ones, by a common divisor.
//!
//! A fixed sum in which a term has the coefficient 1 or -1 says what the term is, in whole numbers. Where the terms so known are taken out of another sum, and the coefficients left have a common divisor, this sum has few numbers to choose from. Nothing is promised of what is found here.
ghost use Rattle.std.specs.Prelude.{◌≡◌, length};
ghost use Rattle.sum_bounds.specs.Bounds.{sum_hashes};

use crate::lookup::find;
use fraction128::{Column, Fraction, Summand, gcd};
use simplex::Simplex;
use std::alloc::Global;
use term_store::HashIndex;

/// So many sums with bounds at most are looked at.
const MOST_SUMS: usize = 512;

/// So many terms at most a sum has that is looked at.
const MOST_TERMS: usize = 64;

/// Sums with bounds, by whether they are fixed.
#[derive(Drop)]
struct Bounded {
    fixed: Vec<Vec<Summand>>,
    others: Vec<Vec<Summand>>,
}

/// The coefficient of a term in a sum.
fn coefficient_in(sum: &[Summand], term: u32) -> i128 {
    for summand in sum {
        if summand.term == term {
            return summand.coefficient;
        }
    }
    0
}

/// The first summand whose coefficient is 1 or -1.
fn unit_in(sum: &[Summand]) -> Option<Summand> {
    for summand in sum {
        if summand.coefficient == 1 || summand.coefficient == -1 {
            return Some(*summand);
        }
    }
    None
}

/// A number and a multiple of another one.
fn plus(number: i128, factor: i128, other: i128) -> Option<i128> {
    number.checked_add(factor.checked_mul(other)?)
}

/// Adds a summand, unless it is 0.
fn push(sum: &mut Vec<Summand>, coefficient: i128, term: u32) -> Option<()> {
    if coefficient == 0 {
        return Some(());
    }
    match sum.push(Summand { coefficient, term }) {
        Ok(()) => Some(()),
        Err(_) => None,
    }
}

/// A sum and a multiple of another one.
fn combination(
    alloc: Global,
    sum: &[Summand],
    factor: i128,
    other: &[Summand],
) -> Option<Vec<Summand>> {
    if sum.len() > MOST_TERMS {
        return None;
    }
    let mut combined = Vec::new(alloc);
    for summand in sum {
        let more = coefficient_in(other, summand.term);
        push(
            &mut combined,
            plus(summand.coefficient, factor, more)?,
            summand.term,
        )?;
    }
    for summand in other {
        if coefficient_in(sum, summand.term) == 0 {
            push(
                &mut combined,
                plus(0, factor, summand.coefficient)?,
                summand.term,
            )?;
        }
    }
    Some(combined)
}

/// Takes the term of a unit out of a sum by a fixed one that has the unit.
fn reduce(alloc: Global, sum: &mut Vec<Summand>, by: &[Summand], unit: Summand) -> Option<()> {
    let coefficient = coefficient_in(sum, unit.term);
    if coefficient != 0 {
        let factor = coefficient.checked_mul(unit.coefficient)?.checked_neg()?;
        *sum = combination(alloc, sum, factor, by)?;
    }
    Some(())
}

/// Takes the term of a unit out of each sum.
fn reduce_all(
    alloc: Global,
    sums: &mut [Vec<Summand>],
    by: &[Summand],
    unit: Summand,
) -> Option<()> {
    for sum in sums.iter_mut() {
        reduce(alloc, sum, by, unit)?;
    }
    Some(())
}

/// Takes out of the others the terms that fixed sums tell.
fn eliminate(alloc: Global, bounded: Bounded) -> Option<Vec<Vec<Summand>>> {
    let Bounded {
        mut fixed,
        mut others,
    } = bounded;
    while let Some(by) = fixed.pop() {
        if let Some(unit) = unit_in(&by) {
            reduce_all(alloc, &mut fixed, &by, unit)?;
            reduce_all(alloc, &mut others, &by, unit)?;
        }
    }
    Some(others)
}

/// Adds a copy of the sum of a variable that has a bound.
fn add_bounded(alloc: Global, bounded: &mut Bounded, column: &Column) -> Option<()> {
    if column.lower.is_none() && column.upper.is_none() {
        return Some(());
    }
    let mut sum = Vec::new(alloc);
    if sum.extend_from_slice(column.sum.as_slice()).is_err() {
        return None;
    }
    let added = if column.lower == column.upper {
        bounded.fixed.push(sum)
    } else {
        bounded.others.push(sum)
    };
    match added {
        Ok(()) => Some(()),
        Err(_) => None,
    }
}

/// Copies of the sums with bounds.
fn bounded_sums(alloc: Global, simplex: &Simplex, count: u32) -> Option<Bounded>
    requires { count ≡ length simplex.now.columns }
{
    let mut bounded = Bounded {
        fixed: Vec::new(alloc),
        others: Vec::new(alloc),
    };
    for variable in 0..count {
        add_bounded(alloc, &mut bounded, simplex.column(variable))?;
    }
    Some(bounded)
}

/// The greatest common divisor of two numbers of the range.
fn common_divisor(left: i128, right: i128) -> Option<i128> {
    if left == i128::MIN || right == i128::MIN {
        None
    } else {
        Some(gcd(left, right))
    }
}

/// The greatest common divisor of the coefficients, where it is more than 1.
fn divisor_of(sum: &[Summand]) -> Option<i128> {
    let mut divisor = 0;
    for summand in sum {
        divisor = common_divisor(divisor, summand.coefficient)?;
    }
    if divisor > 1 { Some(divisor) } else { None }
}

/// A sum by a divisor of its coefficients, its first coefficient positive.
fn quotient(alloc: Global, sum: &[Summand], divisor: i128) -> Option<Vec<Summand>> {
    let mut quotient = Vec::new(alloc);
    let turned = match sum.first() {
        Some(summand) => summand.coefficient < 0,
        None => false,
    };
    for summand in sum {
        let coefficient = summand.coefficient.checked_div(divisor)?;
        let coefficient = if turned {
            coefficient.checked_neg()?
        } else {
            coefficient
        };
        push(&mut quotient, coefficient, summand.term)?;
    }
    Some(quotient)
}

/// A multiple of the value of a term.
fn part(simplex: &Simplex, keys: &HashIndex, summand: Summand) -> Option<Fraction>
    requires { keys.now ≡ sum_hashes simplex.now.columns }
{
    if summand.coefficient == i128::MIN {
        return None;
    }
    let alone = [Summand {
        coefficient: 1,
        term: summand.term,
    }];
    let variable = find(simplex, keys, &alone)?;
    match Fraction::from_whole(summand.coefficient).mul(simplex.column(variable).value) {
        Ok(part) => Some(part),
        Err(_) => None,
    }
}

/// The value of a sum.
fn value_of(simplex: &Simplex, keys: &HashIndex, sum: &[Summand]) -> Option<Fraction>
    requires { keys.now ≡ sum_hashes simplex.now.columns }
{
    let mut value = Fraction::from_whole(0);
    for summand in sum {
        let Ok(sum) = value.add(part(simplex, keys, *summand)?) else {
            return None;
        };
        value = sum;
    }
    Some(value)
}

/// Whether the value of a sum is known, and isn't whole.
fn is_broken(simplex: &Simplex, keys: &HashIndex, sum: &[Summand]) -> bool
    requires { keys.now ≡ sum_hashes simplex.now.columns }
{
    match value_of(simplex, keys, sum) {
        Some(value) => !value.is_whole(),
        None => false,
    }
}

/// What fixed sums leave of the others, by a common divisor of the coefficients, where its value isn't whole. `None` where numbers are too large, or memory is wanting.
pub(crate) fn broken_quotients(
    alloc: Global,
    simplex: &Simplex,
    keys: &HashIndex,
    count: u32,
) -> Option<Vec<Vec<Summand>>>
    requires keys { keys.now ≡ sum_hashes simplex.now.columns }
    requires count { count ≡ length simplex.now.columns }
{
    let bounded = bounded_sums(alloc, simplex, count)?;
    if bounded.fixed.is_empty() || bounded.fixed.len() + bounded.others.len() > MOST_SUMS {
        return None;
    }
    let mut quotients = Vec::new(alloc);
    let others = eliminate(alloc, bounded)?;
    for sum in &others {
        if let Some(divisor) = divisor_of(sum) {
            let quotient = quotient(alloc, sum, divisor)?;
            if is_broken(simplex, keys, &quotient) && quotients.push(quotient).is_err() {
                return None;
            }
        }
    }
    Some(quotients)
}
