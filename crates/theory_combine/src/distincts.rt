//! Wide `distinct`s that are assertions, in a last check: two of their arguments are equal, or Ints of one value.
ghost use Rattle.std.specs.Prelude.{◌≡◌, ◌≢◌, ◌+◌, ◌<◌, ℕ, true, false, length, slice_index_or, All, IfOk, IfSome, IfNone, OnOk};
ghost use Rattle.std.specs.List.Sorted.{IsSorted, IsPermutation};
ghost use Rattle.smt_meaning.specs.Term.{number_of};
ghost use Rattle.search_port.specs.Calls.{IsConflict};
ghost use Rattle.model_build.specs.Given.{given_at};
ghost use Rattle.closure_log.specs.Seen.{state_of};
ghost use Rattle.theory_combine.specs.declared.distincts.IntArgument.{IntArgument as ArgumentValue};
ghost use Rattle.theory_combine.specs.Kept.{IsHeldOf};
ghost use Rattle.theory_combine.specs.Pairs.{IsWanted};
ghost use Rattle.theory_combine.specs.Progress.{AreParts};
ghost use Rattle.theory_combine.specs.Settling.{AreTellable, HasTellableInts};
ghost use Rattle.theory_combine.specs.ByValue.{number_given, argument_cmp, argument_at, AreIntsAmong, AreTellableBefore};

use crate::held::Held;
use crate::pairs::is_fit;
use crate::parts::{Pair, Parts, Progress};
use atom_form::{AtomNumbers, CompactAtom};
use closure_log::{broken_distinct, distinct_arguments};
use model_build::Given;
use scope_stack::Stack;
use search_port::Lemma;
use smt_meaning::{TermId, Value};
use std::alloc::{AllocError, Global};

/// The clause of a wide `distinct` of which two arguments are equal. An `Err` is for want of memory.
pub(crate) fn equal_arguments(
    alloc: Global,
    held: &Held,
    stack: &Stack,
    atoms: &AtomNumbers,
    wide_distincts: &[TermId],
) -> Result<Option<Lemma>, AllocError>
    requires { IsHeldOf stack.now atoms.now.atoms held.now }
    ensures { IfOk result (λ o. IfSome o (IsConflict (state_of stack.now atoms.now.atoms held.now.closure.log.items))) }
{
    broken_distinct(
        alloc,
        &held.closure,
        stack,
        atoms,
        &held.scan.places,
        wide_distincts,
    )
}

/// An Int, and the value that it is given.
#[derive(Clone, Copy, PartialEq, Eq, PartialOrd, Ord, Drop)]
struct Valued {
    value: i128,
    place: TermId,
}

/// The number that a term is given.
fn number_of(given: &[Given], place: TermId) -> Option<i128> {
    let place = place as usize;
    if place >= given.len() {
        return None;
    }
    match given[place] {
        Given::InRange(Value::Whole(number)) => Some(number),
        _ => None,
    }
}

/// The Ints of these terms with their values, in the order of the values. An `Err` is for want of memory.
fn by_value(alloc: Global, given: &[Given], places: &[TermId]) -> Result<Vec<Valued>, AllocError> {
    let mut valued = Vec::new(alloc);
    for place in places {
        if let Some(value) = number_of(given, *place) {
            valued.push(Valued {
                value,
                place: *place,
            })?;
        }
    }
    valued.sort_unstable();
    Ok(valued)
}

/// Adds each two neighbours of one value.
fn add_equal(pairs: &mut Vec<Pair>, valued: &[Valued]) -> Result<(), AllocError> {
    for k in 1..valued.len() {
        let earlier = valued[k - 1];
        let later = valued[k];
        if earlier.value == later.value && earlier.place != later.place {
            pairs.push(Pair {
                left: earlier.place,
                right: later.place,
            })?;
        }
    }
    Ok(())
}

/// Pairs of Ints that wide `distinct`s tell apart, and that are given one value: if there are such two, some pair of them is among these. An `Err` is for want of memory.
pub(crate) fn equal_pairs(parts: &Parts<'_>, given: &[Given]) -> Result<Vec<Pair>, AllocError> {
    let mut pairs = Vec::new(parts.alloc);
    for place in &parts.wide_distincts {
        if let Some(arguments) = distinct_arguments(parts.stack, *place) {
            let valued = by_value(parts.alloc, given, arguments)?;
            add_equal(&mut pairs, &valued)?;
        }
    }
    Ok(pairs)
}

/// Whether two places are given the same.
fn are_given_alike(given: &[Given], first: TermId, second: TermId) -> bool
    requires first { first < length given.now }
    requires second { second < length given.now }
    ensures yes { result ≡ true → given_at given.now first ≡ given_at given.now second }
    ensures no { result ≡ false → given_at given.now first ≢ given_at given.now second }
{
    given[first as usize] == given[second as usize]
}

/// Whether two terms are Ints of one exact value whose equality has no number.
fn are_unnumbered(parts: &Parts<'_>, progress: &Progress, given: &[Given], pair: Pair) -> bool
    requires parts { AreParts parts.now }
    requires size { length given.now ≡ length parts.now.stack.now.trees }
    ensures yes { result ≡ true → IsWanted parts.now.stack.now parts.now.marks.items progress.now.atoms.atoms pair }
    ensures no { result ≡ false → AreTellable parts.now progress.now given.now pair.left pair.right }
{
    if !is_fit(parts, pair.left) {
        return false;
    }
    if !is_fit(parts, pair.right) {
        return false;
    }
    if !are_given_alike(given, pair.left, pair.right) {
        return false;
    }
    match progress
        .atoms
        .find(CompactAtom::Same(pair.left, pair.right))
    {
        None => true,
        Some(_) => false,
    }
}

/// A marked Int among arguments, by its own number there, and the number that it is given.
#[derive(Clone, Copy, PartialEq, Eq, PartialOrd, Ord, Drop)]
struct IntArgument {
    value: i128,
    number: usize,
}

/// The number that is a value.
fn number_in(value: Value) -> i128
    ensures { result ≡ number_of value }
{
    match value {
        Value::Whole(number) => number,
        _ => 0,
    }
}

/// The number that a term is given; of one that is given none in the range it is 0.
fn number_given(given: &[Given], place: TermId) -> i128
    requires { place < length given.now }
    ensures { result ≡ number_given (given_at given.now place) }
{
    match given[place as usize] {
        Given::Unmarked => 0,
        Given::InRange(value) => number_in(value),
        Given::PastRange => 0,
    }
}

/// Adds the argument of this number, if it is a marked Int. An `Err` is for want of memory.
fn add_if_int(
    parts: &Parts<'_>,
    given: &[Given],
    arguments: &[TermId],
    ints: &mut Vec<IntArgument>,
    number: usize,
) -> Result<(), AllocError>
    requires parts { AreParts parts.now }
    requires size { length given.now ≡ length parts.now.stack.now.trees }
    requires within { number < length arguments.now }
    requires before { AreIntsAmong parts.now given.now arguments.now number ints.old.items }
    ensures { OnOk result (AreIntsAmong parts.now given.now arguments.now (number + 1) ints.new.items) }
{
    let place = arguments[number];
    if !is_fit(parts, place) {
        return Ok(());
    }
    let value = number_given(given, place);
    ints.push(IntArgument { value, number })?;
    Ok(())
}

/// Puts Ints in the order of their values.
fn sort(ints: &mut Vec<IntArgument>)
    ensures permutation { IsPermutation ints.old.items ints.new.items }
    ensures sorted { IsSorted argument_cmp ints.new.items }
{
    ints.sort_unstable();
}

/// The marked Ints among these arguments, in the order of the numbers that they are given. An `Err` is for want of memory.
fn sorted_ints(
    parts: &Parts<'_>,
    given: &[Given],
    arguments: &[TermId],
) -> Result<Vec<IntArgument>, AllocError>
    requires parts { AreParts parts.now }
    requires size { length given.now ≡ length parts.now.stack.now.trees }
    ensures ints { IfOk result (λ v. AreIntsAmong parts.now given.now arguments.now (length arguments.now) v.items) }
    ensures sorted { IfOk result (λ v. IsSorted argument_cmp v.items) }
{
    let mut ints = Vec::new(parts.alloc);
    for number in 0..arguments.len() {
        add_if_int(parts, given, arguments, &mut ints, number)?;
    }
    sort(&mut ints);
    Ok(ints)
}

fn int_at(ints: &[IntArgument], k: usize) -> IntArgument
    requires { k < length ints.now }
    ensures { result ≡ argument_at ints.now k }
{
    ints[k]
}

fn have_one_value(first: IntArgument, second: IntArgument) -> bool
    ensures yes { result ≡ true → first.value ≡ second.value }
    ensures no { result ≡ false → first.value ≡ second.value → ⊥ }
{
    first.value == second.value
}

/// Two of these arguments, if they have the same exact value, and their equality no number.
fn unnumbered_pair(
    parts: &Parts<'_>,
    progress: &Progress,
    given: &[Given],
    arguments: &[TermId],
    first: IntArgument,
    second: IntArgument,
) -> Option<Pair>
    requires parts { AreParts parts.now }
    requires size { length given.now ≡ length parts.now.stack.now.trees }
    requires first { first.number < length arguments.now }
    requires second { second.number < length arguments.now }
    ensures some { IfSome result (IsWanted parts.now.stack.now parts.now.marks.items progress.now.atoms.atoms) }
    ensures none { IfNone result (AreTellable parts.now progress.now given.now (slice_index_or arguments.now first.number 0) (slice_index_or arguments.now second.number 0)) }
{
    let pair = Pair {
        left: arguments[first.number],
        right: arguments[second.number],
    };
    if are_unnumbered(parts, progress, given, pair) {
        return Some(pair);
    }
    None
}

/// The last Int before this one that has the same exact value, where their equality has no number. Those of one value stand together.
fn unnumbered_before(
    parts: &Parts<'_>,
    progress: &Progress,
    given: &[Given],
    arguments: &[TermId],
    ints: &[IntArgument],
    later: usize,
) -> Option<Pair>
    requires parts { AreParts parts.now }
    requires size { length given.now ≡ length parts.now.stack.now.trees }
    requires within { All (λ (x : ArgumentValue). x.number < length arguments.now) ints.now }
    requires sorted { IsSorted argument_cmp ints.now }
    requires later { later < length ints.now }
    ensures some { IfSome result (IsWanted parts.now.stack.now parts.now.marks.items progress.now.atoms.atoms) }
    ensures none { IfNone result (AreTellableBefore parts.now progress.now given.now arguments.now ints.now later) }
{
    let last = int_at(ints, later);
    for back in 0..later {
        let earlier = int_at(ints, later - 1 - back);
        if !have_one_value(earlier, last) {
            return None;
        }
        match unnumbered_pair(parts, progress, given, arguments, earlier, last) {
            Some(pair) => return Some(pair),
            None => {}
        }
    }
    None
}

/// Two of these Ints that have the same exact value, and whose equality has no number.
fn unnumbered_in(
    parts: &Parts<'_>,
    progress: &Progress,
    given: &[Given],
    arguments: &[TermId],
    ints: &[IntArgument],
) -> Option<Pair>
    requires parts { AreParts parts.now }
    requires size { length given.now ≡ length parts.now.stack.now.trees }
    requires within { All (λ (x : ArgumentValue). x.number < length arguments.now) ints.now }
    requires sorted { IsSorted argument_cmp ints.now }
    ensures some { IfSome result (IsWanted parts.now.stack.now parts.now.marks.items progress.now.atoms.atoms) }
    ensures none { IfNone result ((b : ℕ) → b < length ints.now → AreTellableBefore parts.now progress.now given.now arguments.now ints.now b) }
{
    for later in 0..ints.len() {
        match unnumbered_before(parts, progress, given, arguments, ints, later) {
            Some(pair) => return Some(pair),
            None => {}
        }
    }
    None
}

/// Two arguments of a `distinct` that are Ints of one exact value, whose equality has no number. An `Err` is for want of memory.
fn unnumbered_among(
    parts: &Parts<'_>,
    progress: &Progress,
    given: &[Given],
    place: TermId,
) -> Result<Option<Pair>, AllocError>
    requires parts { AreParts parts.now }
    requires size { length given.now ≡ length parts.now.stack.now.trees }
    ensures some { IfOk result (λ o. IfSome o (IsWanted parts.now.stack.now parts.now.marks.items progress.now.atoms.atoms)) }
    ensures none { IfOk result (λ o. IfNone o (HasTellableInts parts.now progress.now given.now place)) }
{
    match distinct_arguments(parts.stack, place) {
        None => Ok(None),
        Some(arguments) => {
            let ints = sorted_ints(parts, given, arguments)?;
            Ok(unnumbered_in(parts, progress, given, arguments, &ints))
        }
    }
}

/// Two arguments of a wide `distinct` that are Ints of one exact value, whose equality has no number. An `Err` is for want of memory.
pub(crate) fn unnumbered_ints(
    parts: &Parts<'_>,
    progress: &Progress,
    given: &[Given],
) -> Result<Option<Pair>, AllocError>
    requires parts { AreParts parts.now }
    requires size { length given.now ≡ length parts.now.stack.now.trees }
    ensures some { IfOk result (λ o. IfSome o (IsWanted parts.now.stack.now parts.now.marks.items progress.now.atoms.atoms)) }
    ensures none { IfOk result (λ o. IfNone o (All (HasTellableInts parts.now progress.now given.now) parts.now.wide_distincts.items)) }
{
    for place in &parts.wide_distincts {
        match unnumbered_among(parts, progress, given, *place)? {
            Some(pair) => return Ok(Some(pair)),
            None => {}
        }
    }
    Ok(None)
}
