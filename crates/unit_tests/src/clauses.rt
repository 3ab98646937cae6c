//! Clauses that are added, cut and forgotten, with what follows from them. Each call stands in a function of its own without clauses, so that a test is
//! short to prove.
use clause_store::store::{Outcome, Store};
use clause_store::trail::Status;
use literals::Literal;
use std::alloc::{AllocError, Global};
use std::test::Fail;

/// A store that knows so many atoms.
fn store_of(alloc: Global, atoms: u32) -> Result<Store, AllocError> {
    let mut store = Store::new(alloc);
    store.reserve(atoms)?;
    Ok(store)
}

/// Adds a clause of known atoms.
fn add(store: &mut Store, clause: &[Literal], level: u16) -> Result<u64, AllocError> {
    let atoms = store.atoms();
    if !clause.iter().all(|literal| literal.atom() < atoms) {
        return Err(AllocError);
    }
    store.add(clause, level)
}

/// Decides a literal, if it is open.
fn decide(store: &mut Store, literal: Literal) -> bool {
    if literal.atom() >= store.atoms() || store.depth() == u32::MAX {
        return false;
    }
    match store.status(literal) {
        Status::Open => {
            store.decide(literal);
            true
        }
        _ => false,
    }
}

fn undo(store: &mut Store, depth: u32) {
    if depth <= store.depth() {
        store.undo_to(depth);
    }
}

fn cut(store: &mut Store, level: i32) {
    store.cut_to(level);
}

/// Cuts to a level, and forgets a clause more.
fn cut_and_forget(store: &mut Store, level: i32, id: u64) {
    store.cut_to(level);
    if store.is_kept(id) {
        store.forget(id);
    }
}

/// 0 for an open literal, 1 for a true one, 2 for a false one, 3 for one that isn't known.
fn truth(store: &Store, literal: Literal) -> u8 {
    if literal.atom() >= store.atoms() {
        return 3;
    }
    match store.status(literal) {
        Status::Open => 0,
        Status::True => 1,
        Status::False => 2,
    }
}

/// Whether propagation ends with no false clause.
fn is_fixpoint(store: &mut Store) -> bool {
    match store.propagate() {
        Outcome::Fixpoint => true,
        Outcome::False(_) => false,
    }
}

fn positive(atom: u32) -> Literal {
    Literal::new(atom % 2048, true)
}

fn negative(atom: u32) -> Literal {
    Literal::new(atom % 2048, false)
}

/// A store of `not 0 or 1` at level 0 and `not 0 or not 1` at level 3, with their ids.
fn two_clauses(alloc: Global) -> Result<(Store, u64, u64), AllocError> {
    let mut store = store_of(alloc, 2)?;
    let first = add(&mut store, &[negative(0), positive(1)], 0)?;
    let second = add(&mut store, &[negative(0), negative(1)], 3)?;
    Ok((store, first, second))
}

/// Whether atom 0 can be decided and leads to no false clause; then what atom 1 is.
fn decided(store: &mut Store) -> Option<u8> {
    if decide(store, positive(0)) && is_fixpoint(store) {
        Some(truth(store, positive(1)))
    } else {
        None
    }
}

#[test]
fn false_after_a_decision(rt: HostRuntime) -> Result<(), Fail> {
    let (mut store, first, second) = two_clauses(rt.alloc())?;
    assert_eq!(rt; store.atoms(), 2);
    assert_eq!(rt; (first, second), (0, 1));
    assert!(rt; is_fixpoint(&mut store));
    assert!(rt; decide(&mut store, positive(0)));
    assert!(rt; !is_fixpoint(&mut store));
    assert_eq!(rt; store.depth(), 1);
    undo(&mut store, 0);
    assert!(rt; is_fixpoint(&mut store));
    assert_eq!(rt; truth(&store, positive(0)), 0);
    Ok(())
}

#[test]
fn clauses_go_with_their_level(rt: HostRuntime) -> Result<(), Fail> {
    let (mut store, _, _) = two_clauses(rt.alloc())?;
    assert_eq!(rt; decided(&mut store), None);
    // without the second clause nothing is false
    cut(&mut store, 2);
    assert!(rt; store.is_kept(0) && !store.is_kept(1));
    assert_eq!(rt; decided(&mut store), Some(1));
    cut_and_forget(&mut store, 2, 0);
    assert_eq!(rt; decided(&mut store), Some(0));
    Ok(())
}

/// A store of a thousand clauses over two atoms each, and an atom more.
fn a_thousand(alloc: Global) -> Result<Store, AllocError> {
    let mut store = store_of(alloc, 2001)?;
    for i in 0u32..1000 {
        add(&mut store, &[positive(2 * i), positive(2 * i + 1)], 0)?;
    }
    Ok(store)
}

/// Decides a literal and propagates: how many clauses are looked at; none where the literal can't be decided, or a clause is false.
fn looks(store: &mut Store, literal: Literal) -> Option<u64> {
    let before = store.looks();
    if decide(store, literal) && is_fixpoint(store) {
        store.looks().checked_sub(before)
    } else {
        None
    }
}

#[test]
fn looks_at_one_clause_of_a_thousand(rt: HostRuntime) -> Result<(), Fail> {
    let mut store = a_thousand(rt.alloc())?;
    assert_eq!(rt; looks(&mut store, positive(2000)), Some(0));
    assert!(rt; matches!(looks(&mut store, negative(0)), Some(count) if count <= 1));
    assert_eq!(rt; truth(&store, positive(1)), 1);
    Ok(())
}
