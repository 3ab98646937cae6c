//! Races as events of the pure machine.
use crate::stack::true_clause;
use crate::tests::pair::is_that_clause;
use crate::tests::steps::{empty_level, race_of_two};
use race_model::{Event, Levels, RaceState};
use smt_meaning::{Seq, Terms};
use std::alloc::{AllocError, Global};
use std::process::Abort;
use std::test::Fail;

/// An event, by its worker or with its number of levels. The clause that is learnt and shared is the true one of level 0.
#[derive(Clone, Copy)]
enum Attempt {
    Learn(u8),
    Share(u8),
    TakeBatch(u8),
    Win(u8),
    End(u8),
    Push(u16),
    Pop(u16),
}

// Learns the clause from nothing.
fn learn(alloc: Global, state: &mut RaceState, worker: u8) -> Result<bool, AllocError> {
    let clause = true_clause(alloc, 0)?;
    state.step(alloc, Event::Learn(worker, Seq::new(alloc), clause))
}

fn share(alloc: Global, state: &mut RaceState, worker: u8) -> Result<bool, AllocError> {
    let clause = true_clause(alloc, 0)?;
    state.step(alloc, Event::Share(worker, clause))
}

// Whether the attempt is a step.
fn is_step(alloc: Global, state: &mut RaceState, attempt: Attempt) -> Result<bool, AllocError> {
    match attempt {
        Attempt::Learn(worker) => learn(alloc, state, worker),
        Attempt::Share(worker) => share(alloc, state, worker),
        Attempt::TakeBatch(worker) => state.step(alloc, Event::TakeBatch(worker)),
        Attempt::Win(worker) => state.step(alloc, Event::Win(worker)),
        Attempt::End(worker) => state.step(alloc, Event::End(worker)),
        Attempt::Push(count) => state.step(alloc, Event::Push(count)),
        Attempt::Pop(count) => state.step(alloc, Event::Pop(count)),
    }
}

// Two workers at work over so many empty levels.
fn empty_race(alloc: Global, count: u32) -> Result<RaceState, AllocError> {
    let mut levels = Vec::new(alloc);
    for _ in 0..count {
        levels.push(empty_level(alloc))?;
    }
    let terms = Terms::from_nodes(alloc, Vec::new(alloc))?;
    race_of_two(alloc, Levels { terms, levels })
}

// Compares which attempts are steps.
fn try_all(
    rt: &impl Abort,
    alloc: Global,
    state: &mut RaceState,
    attempts: &[(Attempt, bool)],
) -> Result<(), AllocError> {
    for (attempt, wanted) in attempts {
        assert_eq!(rt; is_step(alloc, state, *attempt)?, *wanted);
    }
    Ok(())
}

static OF_LEVELS: [(Attempt, bool); 3] = [
    (Attempt::Push(2), true),
    (Attempt::Pop(3), false),
    (Attempt::Pop(1), true),
];

static OF_WORKERS: [(Attempt, bool); 8] = [
    (Attempt::Share(0), false),
    (Attempt::TakeBatch(1), true),
    (Attempt::TakeBatch(2), false),
    (Attempt::Win(1), true),
    (Attempt::Win(0), false),
    (Attempt::End(0), true),
    (Attempt::End(0), false),
    (Attempt::TakeBatch(0), false),
];

#[test]
fn steps_are_taken_or_refused(rt: HostRuntime) -> Result<(), Fail> {
    let mut state = empty_race(rt.alloc(), 1)?;
    try_all(&rt, rt.alloc(), &mut state, &OF_LEVELS)?;
    assert_eq!(rt; state.levels.depth(), 1);
    try_all(&rt, rt.alloc(), &mut state, &OF_WORKERS)?;
    Ok(())
}

/// The race of two passes, as events over the same levels.
static OF_TWO_PASSES: [(Attempt, bool); 7] = [
    (Attempt::Learn(0), true),
    (Attempt::Share(0), true),
    (Attempt::TakeBatch(1), true),
    (Attempt::TakeBatch(1), true),
    (Attempt::Win(1), true),
    (Attempt::End(0), true),
    (Attempt::End(1), true),
];

#[test]
fn the_events_of_two_passes_are_steps(rt: HostRuntime) -> Result<(), Fail> {
    let mut state = empty_race(rt.alloc(), 2)?;
    try_all(&rt, rt.alloc(), &mut state, &OF_TWO_PASSES)?;
    assert_eq!(rt; state.winner, Some(1));
    assert!(rt; is_that_clause(rt.alloc(), state.entries.as_slice())?);
    Ok(())
}
