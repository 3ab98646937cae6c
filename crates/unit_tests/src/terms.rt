use smt_meaning::{Head, Operator, TermId};
use std::process::Abort;
use std::test::Fail;
use term_store::{InternError, TermStore};

/// The place of a term whose arguments are known.
fn intern(
    rt: &impl Abort,
    store: &mut TermStore,
    head: Head,
    arguments: &[TermId],
) -> Result<TermId, InternError> {
    let count = store.len();
    assert!(rt; arguments.iter().all(|i| *i < count));
    store.intern(head, arguments)
}

fn is_node(
    rt: &impl Abort,
    store: &TermStore,
    place: TermId,
    head: Head,
    arguments: &[TermId],
) -> bool {
    assert!(rt; place < store.len());
    let node = store.node(place);
    node.head == head && node.arguments == arguments
}

fn cut(store: &mut TermStore, count: u32) {
    store.cut(count);
}

const NOT: Head = Head::Theory(Operator::Not);

/// Terms in turn, with their places, where two have room.
static TERMS: [(Head, &'static [TermId], Result<TermId, InternError>); 4] = [
    (Head::Symbol(7), &[], Ok(0)),
    (NOT, &[0], Ok(1)),
    (Head::Symbol(8), &[], Err(InternError::Full)),
    (Head::Symbol(7), &[], Ok(0)),
];

#[test]
fn keeps_two_of_two(rt: HostRuntime) -> Result<(), Fail> {
    let mut store = TermStore::new(rt.alloc(), 2);
    for (head, arguments, place) in TERMS.iter() {
        assert_eq!(rt; intern(&rt, &mut store, *head, arguments), *place);
    }
    assert!(rt; is_node(&rt, &store, 1, NOT, &[0]));
    cut(&mut store, 1);
    assert_eq!(rt; store.len(), 1);
    Ok(())
}
