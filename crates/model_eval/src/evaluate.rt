//! The values of a term's parts, in the order of their numbers.
//!
//! Evaluating terms passes once over the numbers up to the greatest of theirs, down to mark their
//! parts and up to evaluate them. `Range` names the least sub-term, in numbering, that fails by
//! itself. Terms that are no sub-terms don't count.
ghost use Rattle.std.specs.Prelude.{◌≡◌, ◌+◌, ◌<◌, [], length, map, slice_index, All, IsTrue, IfOk, IfErr, OnOk, if◌then◌else◌};
ghost use Rattle.smt_meaning.specs.Term.{tree_at, all_in_range};
ghost use Rattle.smt_meaning.specs.Interpretation.{meaning};
ghost use Rattle.term_store.specs.Terms.{AreDifferent};
ghost use Rattle.model_eval.specs.Fitted.{fitted_head};
ghost use Rattle.model_eval.specs.Walk.{value_at, AreKept, HasMarkedArguments, is_marked, IsUnfitAt};

use crate::EvalError;
use crate::operators::apply_head;
use crate::tables::Tables;
use smt_meaning::{Head, TermId, Value};
use std::alloc::{AllocError, Global};
use std::sync::ledger::Ledger;
use term_store::{Steps, TermStore};

/// The values of the parts so far: each term has a slot, and the values of those that are parts are kept by slot.
#[derive(Drop)]
pub(crate) struct Found {
    pub(crate) slots: Vec<u32>,
    pub(crate) values: Vec<Value>,
    arguments: Vec<Value>,
}

/// Nothing yet. It takes no memory.
pub(crate) fn nothing(alloc: Global) -> Found
    ensures slots { result.slots.items ≡ [] }
    ensures values { result.values.items ≡ [] }
{
    Found {
        slots: Vec::new(alloc),
        values: Vec::new(alloc),
        arguments: Vec::new(alloc),
    }
}

/// Copies the values that are kept for these places.
pub(crate) fn gather(
    arguments: &mut Vec<Value>,
    places: &[TermId],
    slots: &[u32],
    values: &[Value],
) -> Result<(), AllocError>
    requires slots { All (λ i. i < length slots.now) places.now }
    requires values { All (λ i. slice_index slots.now i < length values.now) places.now }
    ensures { OnOk result (arguments.new.items ≡ map (value_at slots.now values.now) places.now) }
{
    arguments.clear();
    for place in places {
        arguments.push(values[slots[*place as usize] as usize])?;
    }
    Ok(())
}

/// The value of a node whose arguments have theirs: one step.
fn node_value<L: Ledger>(
    interp: &Tables<'_>,
    head: Head,
    places: &[TermId],
    found: &mut Found,
    steps: &mut Steps<L>,
) -> Result<Option<Value>, AllocError>
    requires slots { All (λ i. i < length found.old.slots.items) places.now }
    requires values { All (λ i. slice_index found.old.slots.items i < length found.old.values.items) places.now }
    requires ranges { IsTrue (all_in_range (map (value_at found.old.slots.items found.old.values.items) places.now)) }
    ensures value { IfOk result (λ r. r ≡ fitted_head (meaning interp.now) head (map (value_at found.old.slots.items found.old.values.items) places.now)) }
    ensures slots { found.new.slots.items ≡ found.old.slots.items }
    ensures values { found.new.values.items ≡ found.old.values.items }
    ensures step { steps.new ≡ steps.old + 1 }
{
    steps.tick();
    gather(&mut found.arguments, places, &found.slots, &found.values)?;
    Ok(apply_head(interp, head, &found.arguments))
}

/// Evaluates the next term of the store, where it is a part.
pub(crate) fn add<L: Ledger>(
    found: &mut Found,
    interp: &Tables<'_>,
    store: &TermStore,
    marks: &[bool],
    id: TermId,
    steps: &mut Steps<L>,
) -> Result<(), EvalError>
    requires term { id < length store.now.trees }
    requires next { length found.old.slots.items ≡ id }
    requires different { AreDifferent store.now.trees }
    requires closed { IsTrue (is_marked marks.now id) → HasMarkedArguments store.now.trees marks.now id }
    requires kept { AreKept (meaning interp.now) store.now.trees marks.now found.old.slots.items found.old.values.items }
    requires size { id < length marks.now }
    ensures next { OnOk result (length found.new.slots.items ≡ id + 1) }
    ensures kept { OnOk result (AreKept (meaning interp.now) store.now.trees marks.now found.new.slots.items found.new.values.items) }
    ensures err { IfErr result (IsUnfitAt (meaning interp.now) store.now.trees marks.now id) }
    ensures step { steps.new ≡ steps.old + (if is_marked marks.now id then 1 else 0) }
{
    let slot = found.values.len() as u32;
    if marks[id as usize] {
        let node = store.node(id);
        match node_value(interp, node.head, node.arguments, found, steps)? {
            Some(value) => found.values.push(value)?,
            None => return Err(EvalError::Range(id)),
        }
    }
    found.slots.push(slot)?;
    Ok(())
}
