//! Sums of coefficients times values, compared with a threshold.
ghost use Rattle.std.specs.Prelude.{◌≡◌, ◌<◌, ◌∷◌, ◌++◌, [], length, map, All, IfOk, OnOk, int_le};
ghost use Rattle.smt_meaning.specs.Term.{number_of};
ghost use Rattle.smt_meaning.specs.declared.clauses.Summand.{Summand as SummandOf};
ghost use Rattle.exact_model.specs.Places.{value_at};
ghost use Rattle.exact_model.specs.Atoms.{sum_by, pair_by};

use fraction128::{dot, is_sum_negative};
use smt_meaning::{Summand, Value};
use std::alloc::AllocError;

fn number_of(value: Value) -> i128
    ensures { result ≡ number_of value }
{
    match value {
        Value::Whole(number) => number,
        _ => 0,
    }
}

/// The coefficients of a sum, each beside its term's value.
fn pair_up(
    values: &[Value],
    sum: &[Summand],
    pairs: &mut Vec<(i128, i128)>,
) -> Result<(), AllocError>
    requires { All (λ (s : SummandOf). s.term < length values.now) sum.now }
    ensures { OnOk result (pairs.new.items ≡ map (pair_by values.now) sum.now) }
{
    pairs.clear();
    for summand in sum {
        pairs.push((
            summand.coefficient,
            number_of(values[summand.term as usize]),
        ))?;
    }
    Ok(())
}

fn at_most(number: i128, threshold: i128) -> bool
    ensures { result ≡ int_le number threshold }
{
    number <= threshold
}

/// Whether a sum is at most a threshold, also where its value is outside the range.
pub(crate) fn is_at_most(
    values: &[Value],
    sum: &[Summand],
    threshold: i128,
    pairs: &mut Vec<(i128, i128)>,
) -> Result<bool, AllocError>
    requires { All (λ (s : SummandOf). s.term < length values.now) sum.now }
    ensures { IfOk result (λ b. b ≡ int_le (sum_by values.now sum.now) threshold) }
{
    pair_up(values, sum, pairs)?;
    match dot(0, pairs) {
        Some(total) => Ok(at_most(total, threshold)),
        None => Ok(is_sum_negative(pairs)),
    }
}
