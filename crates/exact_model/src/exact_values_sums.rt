//! Exact values of linear forms.
ghost use Rattle.std.specs.Prelude.{◌≡◌, ◌<◌, ◌++◌, true, length, All, OnOk, IfOk, IfSome, IfNone};
ghost use Rattle.smt_meaning.specs.declared.values.Value.TheVariants.{Whole};
ghost use Rattle.smt_meaning.specs.declared.clauses.Summand.{Summand as SummandOf};
ghost use Rattle.smt_meaning.specs.Term.{tree_at, number_of};
ghost use Rattle.smt_meaning.specs.Linear.{folding_fits};
ghost use Rattle.fraction128.specs.Dot.{dot_of};
ghost use Rattle.linear_forms.specs.Folding.{form_of};
ghost use Rattle.linear_forms.specs.Table.{HasForm};
ghost use Rattle.fraction128.specs.Whole.{InRange};
ghost use Rattle.model_build.specs.declared.given.Given.TheVariants.{InRange as IsGiven};
ghost use Rattle.exact_model.specs.Exact.{AreListed, given_of};
ghost use Rattle.exact_model.specs.Sums.{pair_of, pairs_of, number_of_place};

use fraction128::dot;
use linear_forms::{LinearForm, LinearForms};
use model_build::Given;
use smt_meaning::{Summand, TermId, Value};
use std::alloc::AllocError;
use term_store::TermStore;

/// Terms with their linear forms, and the values that are listed for their places.
#[derive(Clone, Copy, Drop)]
pub(crate) struct Listed<'a> {
    pub(crate) store: &'a TermStore,
    pub(crate) forms: &'a LinearForms,
    pub(crate) values: &'a [Value],
}

fn number(value: Value) -> i128
    ensures { result ≡ number_of value }
{
    match value {
        Value::Whole(number) => number,
        _ => 0,
    }
}

/// A coefficient beside its term's number.
fn paired(values: &[Value], summand: &Summand) -> (i128, i128)
    requires { summand.now.term < length values.now }
    ensures { result ≡ pair_of values.now summand.now }
{
    (summand.coefficient, number(values[summand.term as usize]))
}

/// A number that stands in memory.
fn number_in(place: &i128) -> i128
    ensures { result ≡ place.now }
{
    *place
}

/// A constant and the products of pairs, where the exact sum is in the range.
fn dot_from(constant: &i128, pairs: &[(i128, i128)]) -> Option<i128>
    ensures some { IfSome result (λ n. (n ≡ dot_of constant.now pairs.now) × InRange n) }
    ensures none { IfNone result (InRange (dot_of constant.now pairs.now) → ⊥) }
{
    dot(number_in(constant), pairs)
}

/// Adds the summands of a form, each coefficient beside its term's number.
fn add_summands(
    values: &[Value],
    sum: &[Summand],
    pairs: &mut Vec<(i128, i128)>,
) -> Result<(), AllocError>
    requires { All (λ (s : SummandOf). s.term < length values.now) sum.now }
    ensures { OnOk result (pairs.new.items ≡ pairs.old.items ++ pairs_of values.now sum.now) }
{
    for summand in sum {
        pairs.push(paired(values, summand))?;
    }
    Ok(())
}

/// The linear form of the term at a place, whose folding stays in the range.
fn form<'a>(listed: &Listed<'a>, place: TermId) -> LinearForm<'a>
    requires listed { AreListed listed.now.store.now.trees listed.now.forms.now listed.now.values.now }
    requires within { place < length listed.now.store.now.trees }
    requires folds { folding_fits listed.now.store.now.trees (tree_at listed.now.store.now.trees place) ≡ true }
    ensures { HasForm listed.now.store.now.trees place (form_of result.sum.now result.constant) }
{
    match listed.forms.form(place) {
        Ok(form) => form,
        Err(_) => unreachable!(),
    }
}

fn whole_given(number: i128) -> Given
    ensures { result ≡ IsGiven (Whole number) }
{
    Given::InRange(Value::Whole(number))
}

/// The value of a term's form, within the range or past it.
pub(crate) fn form_given(
    listed: &Listed<'_>,
    place: TermId,
    pairs: &mut Vec<(i128, i128)>,
) -> Result<Given, AllocError>
    requires listed { AreListed listed.now.store.now.trees listed.now.forms.now listed.now.values.now }
    requires within { place < length listed.now.store.now.trees }
    requires folds { folding_fits listed.now.store.now.trees (tree_at listed.now.store.now.trees place) ≡ true }
    ensures { IfOk result (λ g. g ≡ given_of (Whole (number_of_place listed.now.store.now.trees listed.now.values.now place))) }
{
    let form = form(listed, place);
    pairs.clear();
    add_summands(listed.values, form.sum, pairs)?;
    match dot_from(&form.constant, pairs) {
        Some(number) => Ok(whole_given(number)),
        None => Ok(Given::PastRange),
    }
}
