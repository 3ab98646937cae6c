//! What places are given by exact values.
ghost use Rattle.std.specs.Prelude.{◌≡◌, ℕ, ◌<◌, length, List, IfOk, true};
ghost use Rattle.smt_meaning.specs.declared.values.Sort.{Sort as SortOf};
ghost use Rattle.smt_meaning.specs.Term.{tree_at, in_range};
ghost use Rattle.smt_meaning.specs.Linear.{folding_fits};
ghost use Rattle.smt_meaning.specs.Stack.{signature_of};
ghost use Rattle.scope_stack.specs.Facts.{AreSorts};
ghost use Rattle.model_build.specs.Parts.{AreSortedParts};
ghost use Rattle.model_build.specs.Building.{AreGiven, AreValues};
ghost use Rattle.model_eval.specs.Walk.{is_marked};
ghost use Rattle.exact_model.specs.Exact.{AreListed, AllFold, MayBeGiven, HaveOperatorsValues, AreGivenExactly, ArePlacesGiven, exact, exact_at, listed as value_at, given_of, given_there};

use crate::exact_values_sums::{Listed, form_given};
use crate::leaves::{is_leaf, is_marked_place};
use linear_forms::LinearForms;
use model_build::Given;
use scope_stack::Stack;
use smt_meaning::{TermId, Value};
use std::alloc::{AllocError, Global};

/// What a marked place is given.
fn value_given(
    listed: &Listed<'_>,
    place: TermId,
    pairs: &mut Vec<(i128, i128)>,
) -> Result<Given, AllocError>
    requires listed { AreListed listed.now.store.now.trees listed.now.forms.now listed.now.values.now }
    requires within { place < length listed.now.store.now.trees }
    requires folds { folding_fits listed.now.store.now.trees (tree_at listed.now.store.now.trees place) ≡ true }
    requires in_range { in_range (value_at listed.now.values.now place) ≡ true }
    ensures { IfOk result (λ g. g ≡ given_of (exact_at listed.now.store.now.trees listed.now.values.now place)) }
{
    if is_leaf(listed.store.node(place).head) {
        Ok(Given::InRange(listed.values[place as usize]))
    } else {
        form_given(listed, place, pairs)
    }
}

/// What the next place is given.
fn place_given(
    listed: &Listed<'_>,
    marks: &[bool],
    place: TermId,
    pairs: &mut Vec<(i128, i128)>,
) -> Result<Given, AllocError>
    requires listed { AreListed listed.now.store.now.trees listed.now.forms.now listed.now.values.now }
    requires within { place < length listed.now.store.now.trees }
    requires folds { AllFold listed.now.store.now.trees marks.now }
    requires in_range { is_marked marks.now place ≡ true → in_range (value_at listed.now.values.now place) ≡ true }
    ensures { IfOk result (λ g. g ≡ given_there listed.now.store.now.trees marks.now listed.now.values.now place) }
{
    if is_marked_place(marks, place) {
        value_given(listed, place, pairs)
    } else {
        Ok(Given::Unmarked)
    }
}

/// What the places are given.
fn give(alloc: Global, listed: &Listed<'_>, marks: &[bool]) -> Result<Vec<Given>, AllocError>
    requires listed { AreListed listed.now.store.now.trees listed.now.forms.now listed.now.values.now }
    requires folds { AllFold listed.now.store.now.trees marks.now }
    requires in_range { (p : ℕ) → p < length listed.now.store.now.trees → is_marked marks.now p ≡ true → in_range (value_at listed.now.values.now p) ≡ true }
    ensures { IfOk result (λ gs. ArePlacesGiven listed.now.store.now.trees marks.now listed.now.values.now gs.items) }
{
    let mut pairs = Vec::new(alloc);
    let mut given = Vec::new(alloc);
    for place in 0..listed.store.len() {
        let next = place_given(listed, marks, place, &mut pairs)?;
        given.push(next)?;
    }
    Ok(given)
}

/// What the places are given: each marked term its exact value, or that this is past the range, which only those of sums, differences and products may be; where each
/// marked term has the value that its operator makes of its arguments' values. An `Err` is for want of memory.
pub fn given_exactly(
    alloc: Global,
    stack: &Stack,
    marks: &[bool],
    forms: &LinearForms,
    values: &[Value],
) -> Result<Vec<Given>, AllocError>
    requires parts { AreSortedParts (signature_of stack.now.frames) stack.now.trees marks.now }
    requires listed { AreListed stack.now.trees forms.now values.now }
    requires may_be { MayBeGiven (signature_of stack.now.frames) stack.now.trees marks.now values.now }
    requires folds { AllFold stack.now.trees marks.now }
    ensures exact { IfOk result (λ gs. (sorts : List SortOf) → AreSorts (signature_of stack.now.frames) stack.now.trees (length stack.now.trees) sorts → AreGivenExactly stack.now.trees marks.now sorts values.now gs.items) }
    ensures given { IfOk result (λ gs. AreGiven (signature_of stack.now.frames) stack.now.trees gs.items) }
    ensures values { IfOk result (λ gs. HaveOperatorsValues stack.now.trees marks.now values.now → AreValues stack.now.trees gs.items (exact stack.now.trees values.now)) }
{
    stack.laws();
    let _sorts = stack.sorts();
    let store = stack.terms();
    let listed = Listed {
        store,
        forms,
        values,
    };
    give(alloc, &listed, marks)
}
