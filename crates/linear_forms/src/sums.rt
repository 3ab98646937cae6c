//! Sums and differences of forms, folded from the left.
ghost use Rattle.std.specs.Prelude.{◌≡◌, ◌<◌, ◌≤◌, ◌⊎◌, length, true, false, All, IfOk, pos, ◌+ℤ◌};
ghost use Rattle.fraction128.specs.Whole.{InRange};
ghost use Rattle.linear_forms.specs.Sums.{IsSum, signed};
ghost use Rattle.linear_forms.specs.Scratch.{AreRanged, AreZero, AreTouched, IsAdded, LeavesRange};
ghost use Rattle.linear_forms.specs.Folding.{combined_fits, IsCombined};
ghost use Rattle.linear_forms.specs.Entries.{knowns, forms_at, AreLaid, AreSums};

use crate::coefficients::{Coefficient, Stop, add_sum, combined};
use crate::entries::{Entry, LinearForm, form_at};
use smt_meaning::{Summand, TermId};

/// Adds a form, or its negation, to the coefficients and the constant so far.
pub(crate) fn add_form(
    values: &mut [Coefficient],
    touched: &mut Vec<TermId>,
    form: LinearForm<'_>,
    negated: bool,
    constant: i128,
) -> Result<i128, Stop>
    requires sum { IsSum (length values.old) form.sum.now }
    requires ranged { AreRanged values.old }
    requires touched { AreTouched values.old touched.old.items }
    ensures constant { IfOk result (λ n. n ≡ constant +ℤ signed negated form.entry.constant) }
    ensures in_range { IfOk result (λ n. InRange n) }
    ensures ok { IfOk result (λ n. IsAdded negated values.old values.new form.entry.sum.now) }
    ensures ranged { AreRanged values.new }
    ensures touched { AreTouched values.new touched.new.items }
    ensures range { result ≡ Err Stop.Range → (InRange (constant +ℤ signed negated form.entry.constant) → ⊥) ⊎ LeavesRange negated values.old form.entry.sum.now }
{
    match combined(constant, form.constant, negated) {
        Some(sum) => {
            add_sum(values, touched, form.sum, negated)?;
            Ok(sum)
        }
        None => Err(Stop::Range),
    }
}

/// Adds up the forms of some terms, or takes those of the others from the first one; a form alone is negated then.
pub(crate) fn fold_sum(
    entries: &[Entry],
    all: &[Summand],
    values: &mut [Coefficient],
    touched: &mut Vec<TermId>,
    arguments: &[TermId],
    subtract: bool,
) -> Result<i128, Stop>
    requires laid { AreLaid (length all.now) entries.now }
    requires places { All (λ i. i < length entries.now) arguments.now }
    requires sums { AreSums (length values.old) (knowns all.now entries.now) arguments.now }
    requires zero { AreZero values.old }
    requires touched { AreTouched values.old touched.old.items }
    ensures ok { IfOk result (λ n. IsCombined (length values.old) subtract (forms_at (knowns all.now entries.now) arguments.now) values.new n) }
    ensures range { result ≡ Err Stop.Range → combined_fits subtract (forms_at (knowns all.now entries.now) arguments.now) ≡ false }
    ensures touched { AreTouched values.new touched.new.items }
{
    if arguments.is_empty() {
        return Ok(0);
    }
    let first = form_at(entries, all, arguments[0] as usize);
    if subtract && arguments.len() == 1 {
        return add_form(values, touched, first, true, 0);
    }
    let mut constant = add_form(values, touched, first, false, 0)?;
    for i in 1..arguments.len() {
        let form = form_at(entries, all, arguments[i] as usize);
        constant = add_form(values, touched, form, subtract, constant)?;
    }
    Ok(constant)
}
