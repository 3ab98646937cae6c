//! Numbers for Ints in which those have numbers of their own that tell applications, or the arguments of a wide `distinct`, apart. They guide the search for a model, and no contract speaks of them.
ghost use Rattle.std.specs.Prelude.{◌≡◌, length};

use crate::held::{Held, leads};
use crate::leaves::is_leaf_head;
use crate::parts::Parts;
use closure_log::distinct_arguments;
use scope_stack::Stack;
use smt_meaning::{Head, TermId};
use std::alloc::{AllocError, Global};
use term_store::TermStore;

/// Marks these places.
fn mark_all(wanted: &mut [bool], places: &[TermId])
    ensures { length wanted.new ≡ length wanted.old }
{
    for place in places {
        if (*place as usize) < wanted.len() {
            wanted[*place as usize] = true;
        }
    }
}

/// Marks the arguments of a term that is an application.
fn mark_arguments(wanted: &mut [bool], store: &TermStore, marks: &[bool], place: TermId)
    ensures { length wanted.new ≡ length wanted.old }
{
    if place >= store.len() || place as usize >= marks.len() || !marks[place as usize] {
        return;
    }
    let node = store.node(place);
    if let Head::Symbol(_) = node.head {
        mark_all(wanted, node.arguments);
    }
}

/// Marks the arguments of a marked sum, difference or product.
fn mark_summands(wanted: &mut [bool], store: &TermStore, place: TermId)
    ensures { length wanted.new ≡ length wanted.old }
{
    if place >= store.len() || place as usize >= wanted.len() || !wanted[place as usize] {
        return;
    }
    let node = store.node(place);
    if !is_leaf_head(node.head) {
        mark_all(wanted, node.arguments);
    }
}

/// Marks the arguments of wide `distinct`s.
fn mark_distincts(wanted: &mut [bool], stack: &Stack, wide_distincts: &[TermId])
    ensures { length wanted.new ≡ length wanted.old }
{
    for place in wide_distincts {
        if let Some(arguments) = distinct_arguments(stack, *place) {
            mark_all(wanted, arguments);
        }
    }
}

/// Marks the arguments of applications.
fn mark_applications(wanted: &mut [bool], store: &TermStore, marks: &[bool])
    ensures { length wanted.new ≡ length wanted.old }
{
    for place in 0..store.len() {
        mark_arguments(wanted, store, marks, place);
    }
}

/// Marks the leaves of marked terms.
fn mark_leaves(wanted: &mut [bool], store: &TermStore)
    ensures { length wanted.new ≡ length wanted.old }
{
    for place in (0..store.len()).rev() {
        mark_summands(wanted, store, place);
    }
}

/// The number of a term that is a numeral.
fn numeral(store: &TermStore, wanted: &[bool], place: TermId) -> Option<i128> {
    if place >= store.len() || place as usize >= wanted.len() || !wanted[place as usize] {
        return None;
    }
    match store.node(place).head {
        Head::Numeral(number) => Some(number),
        _ => None,
    }
}

/// The numbers of the marked numerals.
fn numerals(alloc: Global, store: &TermStore, wanted: &[bool]) -> Result<Vec<i128>, AllocError> {
    let mut numbers = Vec::new(alloc);
    for place in 0..store.len() {
        if let Some(number) = numeral(store, wanted, place) {
            numbers.push(number)?;
        }
    }
    Ok(numbers)
}

/// Numbers by term, where the values of the bounds are whole: moved within all bounds, so that terms have numbers of their own that tell applications or arguments of wide `distinct`s apart, as far as that is found. An `Err` is for want of memory.
pub(crate) fn moved_numbers(
    parts: &Parts<'_>,
    held: &Held,
) -> Result<Option<Vec<i128>>, AllocError> {
    if leads(held) {
        return Ok(None);
    }
    let store = parts.stack.terms();
    let mut wanted = vec![in parts.alloc; false; store.len() as usize]?;
    mark_applications(&mut wanted, store, &parts.marks);
    mark_distincts(&mut wanted, parts.stack, &parts.wide_distincts);
    mark_leaves(&mut wanted, store);
    let taken = numerals(parts.alloc, store, &wanted)?;
    held.bounds.spread(parts.alloc, &wanted, &taken)
}
