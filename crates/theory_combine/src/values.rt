//! Values of the parts, as the closure and the bounds have them.
ghost use Rattle.std.specs.Prelude.{◌≡◌, ◌<◌, ◌^◌, length, IfOk};
ghost use Rattle.theory_combine.specs.Ready.{IsAtLast};

use crate::held::{Held, leads};
use crate::listing::{class_numbers, told_truths};
use crate::parts::{Parts, Progress};
use atom_form::{AtomNumbers, NumberedAtom};
use smt_meaning::Summand;
use std::alloc::{AllocError, Global};

/// What an Int is given that no bound ties.
#[derive(Clone, Copy, PartialEq, Eq, Drop)]
pub(crate) enum Untied {
    /// The number of its class, so that Ints of two classes differ.
    Spread,
    /// 0, as its variable has it.
    Zero,
}

/// A value for each place, by sort.
#[derive(Drop)]
pub(crate) struct Chosen {
    pub(crate) truths: Vec<bool>,
    pub(crate) numbers: Vec<i128>,
    pub(crate) elements: Vec<u32>,
}

/// Marks the terms of a sum.
fn mark_terms(stands: &mut [bool], sum: &[Summand])
    ensures { length stands.new ≡ length stands.old }
{
    for k in 0..sum.len() {
        let place = sum[k].term as usize;
        if place < stands.len() {
            stands[place] = true;
        }
    }
}

/// Marks the terms of the sum that an atom bounds.
fn mark_bounded(stands: &mut [bool], atoms: &AtomNumbers, number: u32)
    requires { number < length atoms.now.atoms }
    ensures { length stands.new ≡ length stands.old }
{
    if let NumberedAtom::Bound(bound) = atoms.atom(number) {
        mark_terms(stands, atoms.sum(bound.sum));
    }
}

/// Which terms stand in the sum of a bound. An `Err` is for want of memory.
fn bounded(alloc: Global, atoms: &AtomNumbers, count: u32) -> Result<Vec<bool>, AllocError>
    ensures { IfOk result (λ stands. length stands.items ≡ count) }
{
    let mut stands = vec![in alloc; false; count as usize]?;
    for number in 0..atoms.len() {
        mark_bounded(&mut stands, atoms, number as u32);
    }
    Ok(stands)
}

/// The number of an Int that no bound ties.
fn untied_number(untied: Untied, class: u32) -> i128 {
    match untied {
        Untied::Spread => class as i128,
        Untied::Zero => 0,
    }
}

/// The value of a term's variable where it stands in a bound and the value is whole, or the number to which it was moved. Where differences lead, it is the number that their graph has.
fn tied_number(held: &Held, moved: &[i128], stands: bool, place: u32) -> Option<i128> {
    if !stands {
        return None;
    }
    if (place as usize) < moved.len() {
        return Some(moved[place as usize]);
    }
    if leads(held) {
        return held.looked.differences.number(place);
    }
    match held.bounds.value(place) {
        Some(value) if value.is_whole() => Some(value.numerator()),
        _ => None,
    }
}

/// A number for each term. An `Err` is for want of memory.
fn numbers(
    alloc: Global,
    held: &Held,
    stands: &[bool],
    elements: &[u32],
    untied: Untied,
    moved: &[i128],
) -> Result<Vec<i128>, AllocError>
    requires few { length elements.now < 2 ^ 32 }
    requires each { length stands.now ≡ length elements.now }
    ensures { IfOk result (λ numbers. length numbers.items ≡ length elements.now) }
{
    let mut numbers = Vec::new(alloc);
    for place in 0..elements.len() {
        let number = match tied_number(held, moved, stands[place], place as u32) {
            Some(number) => number,
            None => untied_number(untied, elements[place]),
        };
        numbers.push(number)?;
    }
    Ok(numbers)
}

/// A value for each term; that of an Int whose place is among those moved is the number there. An `Err` is for want of memory.
pub(crate) fn values_of(
    parts: &Parts<'_>,
    progress: &Progress,
    untied: Untied,
    moved: &[i128],
) -> Result<Chosen, AllocError>
    requires { IsAtLast parts.now progress.now }
    ensures truths { IfOk result (λ c. length c.truths.items ≡ length parts.now.stack.now.trees) }
    ensures numbers { IfOk result (λ c. length c.numbers.items ≡ length parts.now.stack.now.trees) }
    ensures elements { IfOk result (λ c. length c.elements.items ≡ length parts.now.stack.now.trees) }
{
    let held = &progress.held;
    let count = parts.stack.terms().len();
    let elements = class_numbers(parts.alloc, &held.closure.congruence, count)?;
    let stands = bounded(parts.alloc, &progress.atoms, count)?;
    let numbers = numbers(parts.alloc, held, &stands, &elements, untied, moved)?;
    let truths = told_truths(parts, progress)?;
    Ok(Chosen {
        truths,
        numbers,
        elements,
    })
}
