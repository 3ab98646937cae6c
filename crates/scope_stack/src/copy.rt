//! Copies of the terms that assertions need.
ghost use Rattle.std.specs.Prelude.{◌≡◌, ◌<◌, [], true, length, map, All, IfOk, IfSome, slice_index};
ghost use Rattle.scope_stack.specs.Inside.{IsWithin};
ghost use Rattle.scope_stack.specs.Seen.{AreAllAmong, AreCopies};

use crate::answers::Assertion;
use crate::term_set::TermSet;
use smt_meaning::TermId;
use std::alloc::{AllocError, Global};
use term_store::{InternError, TermStore};

/// Adds terms to a set.
fn insert_all(set: &mut TermSet, terms: &[TermId]) -> Result<(), AllocError>
    requires within { All (λ i. i < length set.old.places.items) terms.now }
    requires members { All (λ i. i < length set.old.places.items) set.old.members.items }
    ensures terms { length set.new.places.items ≡ length set.old.places.items }
    ensures members { All (λ i. i < length set.old.places.items) set.new.members.items }
{
    for term in terms {
        set.insert(*term)?;
    }
    Ok(())
}

/// Adds the terms of assertions to a set.
fn insert_assertions(set: &mut TermSet, assertions: &[Assertion]) -> Result<(), AllocError>
    requires within { All (λ a. a.term < length set.old.places.items) assertions.now }
    requires members { All (λ i. i < length set.old.places.items) set.old.members.items }
    ensures terms { length set.new.places.items ≡ length set.old.places.items }
    ensures members { All (λ i. i < length set.old.places.items) set.new.members.items }
{
    for assertion in assertions {
        set.insert(assertion.term)?;
    }
    Ok(())
}

/// Adds the arguments of the members, also of those that are added, until there are more than so many members.
fn insert_arguments(set: &mut TermSet, terms: &TermStore, most: usize) -> Result<(), AllocError>
    requires terms { length set.old.places.items ≡ length terms.now.trees }
    requires members { All (λ i. i < length terms.now.trees) set.old.members.items }
    ensures terms { length set.new.places.items ≡ length terms.now.trees }
    ensures members { All (λ i. i < length terms.now.trees) set.new.members.items }
{
    for next in 0..terms.len() as usize {
        let count = set.members.len();
        if next >= count || count > most {
            break;
        }
        let id = set.members[next];
        insert_all(set, terms.node(id).arguments)?;
    }
    Ok(())
}

/// Makes a set the terms that assertions are made of, in order. False where there are more than so many. No clause says which they are, since the copies are tested.
pub(crate) fn find_needed(
    needed: &mut TermSet,
    terms: &TermStore,
    assertions: &[Assertion],
    most: usize,
) -> Result<bool, AllocError>
    requires { All (IsWithin terms.now.trees) assertions.now }
    ensures terms { IfOk result (λ few. few ≡ true → length needed.new.places.items ≡ length terms.now.trees) }
    ensures members { IfOk result (λ few. few ≡ true → All (λ i. i < length terms.now.trees) needed.new.members.items) }
{
    needed.clear(terms.len() as usize)?;
    insert_assertions(needed, assertions)?;
    insert_arguments(needed, terms, most)?;
    if needed.members.len() > most {
        return Ok(false);
    }
    needed.sort();
    Ok(true)
}

/// Lists the places of copies of the terms at these places, where so many of those that are needed were copied. False where one has no copy.
fn list_copies(
    needed: &TermSet,
    count: u32,
    arguments: &[TermId],
    copies: &mut Vec<TermId>,
) -> Result<bool, AllocError>
    requires within { All (λ i. i < length needed.now.places.items) arguments.now }
    requires empty { copies.old.items ≡ [] }
    ensures listed { IfOk result (λ done. done ≡ true → map (slice_index needed.now.members.items) copies.new.items ≡ arguments.now) }
    ensures among { IfOk result (λ done. done ≡ true → All (λ i. i < count) copies.new.items) }
{
    for argument in arguments {
        let Some(place) = needed.place(*argument) else {
            return Ok(false);
        };
        if place >= count {
            return Ok(false);
        }
        copies.push(place)?;
    }
    Ok(true)
}

/// Copies the next of the terms that are needed. False where there is none, or an argument of it has no copy, or it has one.
fn copy_next(
    terms: &TermStore,
    copies: &mut TermStore,
    needed: &TermSet,
    buffer: &mut Vec<TermId>,
) -> Result<bool, AllocError>
    requires terms { length needed.now.places.items ≡ length terms.now.trees }
    requires members { All (λ i. i < length terms.now.trees) needed.now.members.items }
    requires limit { copies.old.limit ≡ 4294967295 }
    requires copies { AreCopies terms.now.trees copies.old.trees needed.now.members.items }
    ensures limit { copies.new.limit ≡ copies.old.limit }
    ensures copies { IfOk result (λ done. done ≡ true → AreCopies terms.now.trees copies.new.trees needed.now.members.items) }
{
    let next = copies.len();
    if next as usize >= needed.members.len() {
        return Ok(false);
    }
    let node = terms.node(needed.members[next as usize]);
    buffer.clear();
    let all = list_copies(needed, next, node.arguments, buffer)?;
    if !all {
        return Ok(false);
    }
    let place = match copies.intern(node.head, buffer) {
        Ok(place) => place,
        Err(InternError::Full) => return Ok(false),
        Err(InternError::Memory) => return Err(AllocError),
    };
    let _count = copies.len();
    Ok(place == next)
}

/// Copies the terms that are needed, in order. `None` where one can't be copied.
pub(crate) fn copy_terms(
    alloc: Global,
    terms: &TermStore,
    needed: &TermSet,
) -> Result<Option<TermStore>, AllocError>
    requires terms { length needed.now.places.items ≡ length terms.now.trees }
    requires members { All (λ i. i < length terms.now.trees) needed.now.members.items }
    ensures limit { IfOk result (λ found. IfSome found (λ c. c.limit ≡ 4294967295)) }
    ensures copies { IfOk result (λ found. IfSome found (λ c. AreCopies terms.now.trees c.trees needed.now.members.items)) }
    ensures among { IfOk result (λ found. IfSome found (λ c. AreAllAmong c.trees terms.now.trees)) }
{
    let mut copies = TermStore::new(alloc, u32::MAX);
    let mut buffer = Vec::new(alloc);
    for _ in 0..needed.members.len() {
        let done = copy_next(terms, &mut copies, needed, &mut buffer)?;
        if !done {
            return Ok(None);
        }
    }
    Ok(Some(copies))
}
