//! What the places of a stack's terms are given.
ghost use Rattle.std.specs.Prelude.{◌≡◌, ◌<◌, length, map, true, false, All, IfOk, IfSome, IfNone, slice_index_or};
ghost use Rattle.smt_meaning.specs.declared.values.Sort.TheVariants.{Bool as Truths, Int as Ints};
ghost use Rattle.smt_meaning.specs.Stack.{signature_of};
ghost use Rattle.scope_stack.specs.Facts.{AreSorts};
ghost use Rattle.model_build.specs.declared.given.Given.TheVariants.{InRange};
ghost use Rattle.model_build.specs.Given.{given_at};
ghost use Rattle.model_build.specs.Building.{is_given_of, AreGiven};
ghost use Rattle.check_atoms.specs.Parts.{IsMarked};
ghost use Rattle.model_build.specs.Parts.{AreSortedParts};
ghost use Rattle.model_build.specs.Values.{HaveValues, in_the_range, chosen, IsPlaceGiven, IsNextWorkedOut, GiveChosen, GiveNoOthers};
ghost use Rattle.model_build.specs.WorkedOut.{is_worked_out, worked_out, AreWorkedOut};

use crate::Given;
use crate::numbers::{number_given, operated};
use scope_stack::Stack;
use smt_meaning::{Head, Operator, Sort, TermId, Value};
use std::alloc::{AllocError, Global};
use term_store::TermStore;

/// Values by place. The value of a term stands in the list of its sort; what the other lists have at its place is of no meaning.
#[derive(Clone, Copy, Drop)]
pub struct PlaceValues<'a> {
    /// Of Bools.
    pub truths: &'a [bool],
    /// Of Ints.
    pub numbers: &'a [i128],
    /// Of terms of declared sorts.
    pub elements: &'a [u32],
}

/// The number, or the least in the range.
fn in_the_range(number: i128) -> i128
    ensures { result ≡ in_the_range number }
{
    if number == i128::MIN {
        -i128::MAX
    } else {
        number
    }
}

/// The value that is chosen for a place by its term's sort.
fn chosen(values: &PlaceValues<'_>, sort: Sort, place: TermId) -> Value
    requires truths { place < length values.now.truths.now }
    requires numbers { place < length values.now.numbers.now }
    requires elements { place < length values.now.elements.now }
    ensures { result ≡ chosen values.now.truths.now values.now.numbers.now values.now.elements.now sort place }
{
    match sort {
        Sort::Bool => Value::Truth(values.truths[place as usize]),
        Sort::Int => Value::Whole(in_the_range(values.numbers[place as usize])),
        Sort::Free(_) => Value::Element(values.elements[place as usize] as u64),
    }
}

/// What an Int is given by its head, where its value isn't chosen.
fn worked_out(head: Head, arguments: &[TermId], given: &[Given]) -> Option<Given>
    requires { All (λ i. i < length given.now) arguments.now }
    ensures sorted { IfSome result (λ g. is_given_of g Ints ≡ true) }
    ensures some { IfSome result (λ g. (g ≡ worked_out head (map (given_at given.now) arguments.now)) × (is_worked_out head ≡ true)) }
    ensures none { IfNone result (is_worked_out head ≡ false) }
{
    match head {
        Head::Numeral(number) => Some(number_given(Some(number))),
        Head::Theory(Operator::Add) => Some(operated(Operator::Add, arguments, given)),
        Head::Theory(Operator::Subtract) => Some(operated(Operator::Subtract, arguments, given)),
        Head::Theory(Operator::Multiply) => Some(operated(Operator::Multiply, arguments, given)),
        _ => None,
    }
}

/// What a part is given.
fn part_given(
    values: &PlaceValues<'_>,
    sort: Sort,
    place: TermId,
    head: Head,
    arguments: &[TermId],
    given: &[Given],
) -> Given
    requires truths { place < length values.now.truths.now }
    requires numbers { place < length values.now.numbers.now }
    requires elements { place < length values.now.elements.now }
    requires arguments { All (λ i. i < length given.now) arguments.now }
    ensures sorted { is_given_of result sort ≡ true }
    ensures made { sort ≡ Ints → is_worked_out head ≡ true → result ≡ worked_out head (map (given_at given.now) arguments.now) }
    ensures is_chosen { is_worked_out head ≡ false → result ≡ InRange (chosen values.now.truths.now values.now.numbers.now values.now.elements.now sort place) }
{
    if sort == Sort::Int {
        if let Some(made) = worked_out(head, arguments, given) {
            return made;
        }
    }
    Given::InRange(chosen(values, sort, place))
}

/// What the next place is given.
fn place_given(
    store: &TermStore,
    marks: &[bool],
    sorts: &[Sort],
    values: &PlaceValues<'_>,
    place: TermId,
    given: &[Given],
) -> Given
    requires within { place < length store.now.trees }
    requires marks { length marks.now ≡ length store.now.trees }
    requires sorts { length sorts.now ≡ length store.now.trees }
    requires values { HaveValues (length store.now.trees) values.now.truths.now values.now.numbers.now values.now.elements.now }
    requires next { length given.now ≡ place }
    ensures place { IsPlaceGiven store.now.trees marks.now sorts.now values.now.truths.now values.now.numbers.now values.now.elements.now place result }
    ensures made { IsMarked marks.now place → slice_index_or sorts.now place Truths ≡ Ints → IsNextWorkedOut store.now.trees given.now place result }
{
    if !marks[place as usize] {
        return Given::Unmarked;
    }
    let node = store.node(place);
    part_given(
        values,
        sorts[place as usize],
        place,
        node.head,
        node.arguments,
        given,
    )
}

/// What the places are given: each marked term the value that is chosen for it, but a numeral its number, and a sum, a difference and a product what its
/// operator makes of what its arguments are given, which is past the range where a partial result from the left is. A number outside the range counts as the
/// least in it. An `Err` is for want of memory.
pub fn given_values(
    alloc: Global,
    stack: &Stack,
    marks: &[bool],
    sorts: &[Sort],
    values: &PlaceValues<'_>,
) -> Result<Vec<Given>, AllocError>
    requires parts { AreSortedParts (signature_of stack.now.frames) stack.now.trees marks.now }
    requires sorts { AreSorts (signature_of stack.now.frames) stack.now.trees (length stack.now.trees) sorts.now }
    requires values { HaveValues (length stack.now.trees) values.now.truths.now values.now.numbers.now values.now.elements.now }
    ensures given { IfOk result (λ given. AreGiven (signature_of stack.now.frames) stack.now.trees given.items) }
    ensures chosen { IfOk result (λ given. GiveChosen (signature_of stack.now.frames) stack.now.trees marks.now values.now.truths.now values.now.numbers.now values.now.elements.now given.items) }
    ensures no_others { IfOk result (λ given. GiveNoOthers marks.now given.items) }
    ensures worked_out { IfOk result (λ given. AreWorkedOut (signature_of stack.now.frames) stack.now.trees marks.now given.items) }
{
    stack.laws();
    let store = stack.terms();
    let _different = store.len();
    let mut given = Vec::new(alloc);
    for place in 0..store.len() {
        let next = place_given(store, marks, sorts, values, place, &given);
        given.push(next)?;
    }
    Ok(given)
}
