//! Products of forms, folded from the left.
ghost use Rattle.std.specs.Prelude.{◌≡◌, ◌<◌, ◌++◌, [], ◌∷◌, length, true, false, All, OnOk, IfOk, ◌*ℤ◌};
ghost use Rattle.fraction128.specs.Whole.{InRange};
ghost use Rattle.smt_meaning.specs.Linear.{summand as summand_of, sum_fits, form_fits, sum_times, form_times, form_product, folded, folded_fits};
ghost use Rattle.linear_forms.specs.Folding.{form_of};
ghost use Rattle.linear_forms.specs.Entries.{knowns, forms_at, AreLaid};

use crate::coefficients::{Stop, times};
use crate::entries::{Entry, LinearForm, form_at};
use smt_meaning::{Summand, TermId};
use std::mem;

/// Adds a summand times a number to a sum.
fn push_scaled(out: &mut Vec<Summand>, summand: Summand, factor: i128) -> Result<(), Stop>
    ensures ok { OnOk result (out.new.items ≡ out.old.items ++ summand_of summand.term (factor *ℤ summand.coefficient) ∷ []) }
    ensures fits { OnOk result (InRange (factor *ℤ summand.coefficient)) }
    ensures range { result ≡ Err Stop.Range → InRange (factor *ℤ summand.coefficient) → ⊥ }
{
    match times(factor, summand.coefficient) {
        Some(coefficient) => {
            out.push(Summand {
                coefficient,
                term: summand.term,
            })?;
            Ok(())
        }
        None => Err(Stop::Range),
    }
}

/// Writes a sum times a number.
fn scaled(out: &mut Vec<Summand>, sum: &[Summand], factor: i128) -> Result<(), Stop>
    requires { out.old.items ≡ [] }
    ensures ok { OnOk result (out.new.items ≡ sum_times factor sum.now) }
    ensures fits { OnOk result (sum_fits (sum_times factor sum.now) ≡ true) }
    ensures range { result ≡ Err Stop.Range → sum_fits (sum_times factor sum.now) ≡ false }
{
    if factor == 0 {
        return Ok(());
    }
    for summand in sum {
        push_scaled(out, *summand, factor)?;
    }
    Ok(())
}

/// Writes the sum of a form times a number, and gives its constant.
pub(crate) fn scaled_form(
    out: &mut Vec<Summand>,
    sum: &[Summand],
    factor: i128,
    constant: i128,
) -> Result<i128, Stop>
    requires { out.old.items ≡ [] }
    ensures ok { IfOk result (λ n. form_of out.new.items n ≡ form_times factor (form_of sum.now constant)) }
    ensures fits { IfOk result (λ n. form_fits (form_times factor (form_of sum.now constant)) ≡ true) }
    ensures range { result ≡ Err Stop.Range → form_fits (form_times factor (form_of sum.now constant)) ≡ false }
{
    match times(factor, constant) {
        Some(product) => {
            scaled(out, sum, factor)?;
            Ok(product)
        }
        None => Err(Stop::Range),
    }
}

/// Multiplies a product by a form, of which one is a constant.
fn times_form(
    product: &mut Vec<Summand>,
    spare: &mut Vec<Summand>,
    constant: i128,
    form: LinearForm<'_>,
) -> Result<i128, Stop>
    ensures ok { IfOk result (λ n. form_of product.new.items n ≡ form_product (form_of product.old.items constant) (form_of form.entry.sum.now form.entry.constant)) }
    ensures fits { IfOk result (λ n. form_fits (form_product (form_of product.old.items constant) (form_of form.entry.sum.now form.entry.constant)) ≡ true) }
    ensures range { result ≡ Err Stop.Range → form_fits (form_product (form_of product.old.items constant) (form_of form.entry.sum.now form.entry.constant)) ≡ false }
{
    if product.is_empty() {
        return scaled_form(product, form.sum, constant, form.constant);
    }
    mem::swap(product, spare);
    product.clear();
    scaled_form(product, spare, form.constant, constant)
}

/// Multiplies the forms of some terms.
pub(crate) fn fold_product(
    entries: &[Entry],
    all: &[Summand],
    product: &mut Vec<Summand>,
    spare: &mut Vec<Summand>,
    arguments: &[TermId],
) -> Result<i128, Stop>
    requires laid { AreLaid (length all.now) entries.now }
    requires places { All (λ i. i < length entries.now) arguments.now }
    requires empty { product.old.items ≡ [] }
    ensures ok { IfOk result (λ n. form_of product.new.items n ≡ folded form_product (forms_at (knowns all.now entries.now) arguments.now)) }
    ensures fits { IfOk result (λ n. folded_fits form_product (forms_at (knowns all.now entries.now) arguments.now) ≡ true) }
    ensures ranges { IfOk result (λ n. sum_fits product.new.items ≡ true) }
    ensures range { result ≡ Err Stop.Range → folded_fits form_product (forms_at (knowns all.now entries.now) arguments.now) ≡ false }
{
    if arguments.is_empty() {
        return Ok(0);
    }
    let mut constant = 1;
    for place in arguments {
        let form = form_at(entries, all, *place as usize);
        constant = times_form(product, spare, constant, form)?;
    }
    Ok(constant)
}
