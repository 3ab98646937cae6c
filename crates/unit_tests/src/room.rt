//! Terms put behind others, where a list may be full.
use smt_meaning::{Head, Operator, TermId};
use std::alloc::Global;
use std::process::Abort;
use std::test::Fail;
use term_store::{InternError, TermStore, lacks_room};

/// The place of a term whose arguments are known.
fn intern(
    rt: &impl Abort,
    store: &mut TermStore,
    head: Head,
    arguments: &[TermId],
) -> Result<TermId, InternError> {
    let count = store.len();
    assert!(rt; arguments.iter().all(|i| *i < count));
    store.intern(head, arguments)
}

/// A list of at most so many terms, of which these stand in it, each after its arguments.
fn store_of(
    rt: &impl Abort,
    alloc: Global,
    limit: u32,
    terms: &[(Head, &[TermId])],
) -> Result<TermStore, InternError> {
    let mut store = TermStore::new(alloc, limit);
    for (head, arguments) in terms {
        let _ = intern(rt, &mut store, *head, arguments)?;
    }
    Ok(store)
}

/// Two constants.
static CONSTANTS: [(Head, &'static [TermId]); 2] = [(Head::Symbol(0), &[]), (Head::Symbol(1), &[])];

/// The second one, its negation, and the negation of that.
static OTHERS: [(Head, &'static [TermId]); 3] = [
    (Head::Symbol(1), &[]),
    (Head::Theory(Operator::Not), &[0]),
    (Head::Theory(Operator::Not), &[1]),
];

/// Whether two constants, with room for a term more, lack room for these terms, and how many terms stand there then.
fn lacks(rt: &impl Abort, alloc: Global, others: &TermStore) -> Result<(bool, u32), InternError> {
    let mut store = store_of(rt, alloc, 3, &CONSTANTS)?;
    let lacks = lacks_room(alloc, others, &mut store)?;
    Ok((lacks, store.len()))
}

/// The same, of the first so many of the others.
fn lacks_first(rt: &impl Abort, alloc: Global, count: usize) -> Result<(bool, u32), InternError> {
    let others = store_of(rt, alloc, 9, &OTHERS[..count.min(3)])?;
    lacks(rt, alloc, &others)
}

#[test]
fn terms_that_are_there_take_no_room(rt: HostRuntime) -> Result<(), Fail> {
    for (count, is_lacking) in [(2, false), (3, true)] {
        assert_eq!(rt; lacks_first(&rt, rt.alloc(), count)?, (is_lacking, 2));
    }
    Ok(())
}
