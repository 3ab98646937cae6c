//! Values of leaves, from the variables of bounds.
ghost use Rattle.std.specs.Prelude.{◌≡◌, ℕ, ◌<◌, true, false, length, IfOk, slice_index_or};
ghost use Rattle.smt_meaning.specs.declared.values.Value.TheVariants.{Whole as WholeOf};
ghost use Rattle.smt_meaning.specs.declared.values.Sort.TheVariants.{Bool as Truths, Int as Ints};
ghost use Rattle.smt_meaning.specs.Term.{tree_at, in_range};
ghost use Rattle.smt_meaning.specs.CheckAtoms.{is_leaf, is_leaf_head};
ghost use Rattle.smt_meaning.specs.Stack.{signature_of};
ghost use Rattle.model_eval.specs.Walk.{is_marked};
ghost use Rattle.model_build.specs.Parts.{AreSortedParts};
ghost use Rattle.sum_bounds.specs.Bounds.{AreWhole};
ghost use Rattle.sum_bounds.specs.Written.{HasLeaf};
ghost use Rattle.bound_log.specs.Pending.{plain_grid};
ghost use Rattle.exact_model.specs.Exact.{MayBeGiven};
ghost use Rattle.exact_model.specs.Leaves.{IsIntLeaf, IsListedNumber, IsListedBy, AreListedBy, HaveLeafValues};

use bound_log::BoundLog;
use fraction128::Fraction;
use scope_stack::Stack;
use smt_meaning::{Head, Operator, Sort, TermId, Value};
use std::alloc::{AllocError, Global};
use term_store::TermStore;

/// Whether a term with this head is no numeral, sum, difference or product.
pub(crate) fn is_leaf(head: Head) -> bool
    ensures { result ≡ is_leaf_head head }
{
    match head {
        Head::Numeral(_) => false,
        Head::Theory(operator) => !matches!(
            operator,
            Operator::Add | Operator::Subtract | Operator::Multiply
        ),
        Head::Symbol(_) => true,
        Head::Place(_) => true,
    }
}

/// Whether a place is marked.
pub(crate) fn is_marked_place(marks: &[bool], place: TermId) -> bool
    ensures { result ≡ is_marked marks.now place }
{
    (place as usize) < marks.len() && marks[place as usize]
}

/// The numerator as a value.
fn whole_of(value: &Fraction) -> Value
    ensures whole { result ≡ WholeOf value.now.numerator }
    ensures in_range { in_range result ≡ true }
{
    Value::Whole(value.numerator())
}

/// The value of a term's variable, where the terms' values are whole.
fn leaf_value(bounds: &BoundLog, place: TermId) -> Value
    requires variable { HasLeaf bounds.now.bounds.columns place }
    requires wholes { AreWhole bounds.now.bounds }
    ensures { IsListedNumber bounds.now place true result }
{
    bounds.facts();
    let value = bounds.value(place).unwrap();
    whole_of(&value)
}

/// The value of an Int: of a leaf that of its variable, and else any.
fn int_value(bounds: &BoundLog, head: Head, place: TermId) -> Value
    requires variable { is_leaf_head head ≡ true → HasLeaf bounds.now.bounds.columns place }
    requires wholes { AreWhole bounds.now.bounds }
    ensures { IsListedNumber bounds.now place (is_leaf_head head) result }
{
    if is_leaf(head) {
        leaf_value(bounds, place)
    } else {
        Value::Whole(0)
    }
}

/// The value of a marked term of this sort.
fn listed_value(
    bounds: &BoundLog,
    head: Head,
    sort: Sort,
    truth: bool,
    element: u32,
    place: TermId,
) -> Value
    requires variable { sort ≡ Ints → is_leaf_head head ≡ true → HasLeaf bounds.now.bounds.columns place }
    requires wholes { AreWhole bounds.now.bounds }
    ensures { IsListedBy bounds.now place (is_leaf_head head) truth element sort result }
{
    match sort {
        Sort::Bool => Value::Truth(truth),
        Sort::Int => int_value(bounds, head, place),
        Sort::Free(_) => Value::Element(element as u64),
    }
}

/// The value that is listed for a place.
fn value_of(
    store: &TermStore,
    marks: &[bool],
    sorts: &[Sort],
    bounds: &BoundLog,
    truths: &[bool],
    elements: &[u32],
    place: TermId,
) -> Value
    requires within { place < length store.now.trees }
    requires sorts { length sorts.now ≡ length store.now.trees }
    requires truths { length truths.now ≡ length store.now.trees }
    requires elements { length elements.now ≡ length store.now.trees }
    requires variable { is_marked marks.now place ≡ true → slice_index_or sorts.now place Truths ≡ Ints → is_leaf (tree_at store.now.trees place) ≡ true → HasLeaf bounds.now.bounds.columns place }
    requires wholes { AreWhole bounds.now.bounds }
    ensures { is_marked marks.now place ≡ true → IsListedBy bounds.now place (is_leaf (tree_at store.now.trees place)) (slice_index_or truths.now place false) (slice_index_or elements.now place 0) (slice_index_or sorts.now place Truths) result }
{
    if !is_marked_place(marks, place) {
        return Value::Truth(false);
    }
    let at = place as usize;
    let head = store.node(place).head;
    listed_value(bounds, head, sorts[at], truths[at], elements[at], place)
}

/// The values that are listed for the places: of Int leaves those of their variables, and of Bools and of elements of declared sorts the given ones. An `Err` is for want of
/// memory.
pub fn listed_values(
    alloc: Global,
    stack: &Stack,
    marks: &[bool],
    bounds: &BoundLog,
    truths: &[bool],
    elements: &[u32],
) -> Result<Vec<Value>, AllocError>
    requires parts { AreSortedParts (signature_of stack.now.frames) stack.now.trees marks.now }
    requires truths { length truths.now ≡ length stack.now.trees }
    requires elements { length elements.now ≡ length stack.now.trees }
    requires variables { (p : ℕ) → IsIntLeaf stack.now marks.now p → HasLeaf bounds.now.bounds.columns p }
    requires wholes { AreWhole bounds.now.bounds }
    ensures size { IfOk result (λ vs. length vs.items ≡ length stack.now.trees) }
    ensures values { IfOk result (λ vs. AreListedBy stack.now marks.now bounds.now truths.now elements.now (length stack.now.trees) vs.items) }
    ensures may_be { IfOk result (λ vs. MayBeGiven (signature_of stack.now.frames) stack.now.trees marks.now vs.items) }
    ensures have { IfOk result (λ vs. HaveLeafValues stack.now marks.now (plain_grid bounds.now) (length stack.now.trees) vs.items) }
{
    let store = stack.terms();
    let sorts = stack.sorts();
    let _different = store.len();
    let mut listed = Vec::new(alloc);
    for place in 0..store.len() {
        listed.push(value_of(store, marks, sorts, bounds, truths, elements, place))?;
    }
    Ok(listed)
}
