//! Two passes that share, take and win.
ghost use Rattle.std.specs.Prelude.{◌≡◌, [], IfOk, IfSome};
ghost use Rattle.unit_tests.specs.Jobs.{IsReady};
ghost use Rattle.unit_tests.specs.Stack.{true_at};

use crate::stack::{Empty, pool_of_two, true_clause};
use lemma_pool::Pool;
use race_cell::{Batch, Pass, Race, Raced, Sharing};
use race_model::{Entry, Shelf, is_same_clause};
use smt_meaning::Clause;
use std::alloc::{AllocError, Global};
use std::process::Abort;
use std::test::Fail;

// The true clause of level 0, made again where memory was wanting.
fn made_again(alloc: Global) -> Result<Clause, AllocError>
    ensures { IfOk result (λ c. c ≡ true_at 0) }
{
    match true_clause(alloc, 0) {
        Ok(clause) => Ok(clause),
        Err(_) => true_clause(alloc, 0),
    }
}

/// Whether the first worker shared the true clause of level 0, and nothing else was shared.
pub fn is_that_clause(alloc: Global, entries: &[Entry]) -> Result<bool, AllocError> {
    if entries.len() != 1 {
        return Ok(false);
    }
    let clause = made_again(alloc)?;
    Ok(entries[0].worker == 0 && is_same_clause(&entries[0].clause, &clause))
}

// A race of two passes, and the passes. A race that found no memory is started again, over the pool that came back.
fn start_two(alloc: Global) -> Option<(Race<Pool<Empty>>, Pass<Pool<Empty>>, Pass<Pool<Empty>>)>
    ensures two { IfSome result (λ r. r.0.table.shared.key.workers ≡ 2) }
    ensures first { IfSome result (λ r. IsReady r.0.table.shared.table_id r.1) }
    ensures second { IfSome result (λ r. IsReady r.0.table.shared.table_id r.2) }
{
    let started = match Race::start(alloc, pool_of_two(alloc), 2) {
        Ok(started) => Ok(started),
        Err(pool) => Race::start(alloc, pool, 2),
    };
    let Ok((race, mut passes)) = started else {
        return None;
    };
    let second = passes.pop()?;
    let first = passes.pop()?;
    Some((race, first, second))
}

// Shares the true clause of level 0.
fn share_once(
    alloc: Global,
    race: &Race<Pool<Empty>>,
    pass: &mut Pass<Pool<Empty>>,
) -> Result<Sharing, AllocError>
    requires { IsReady race.now.table.shared.table_id pass.old }
    ensures { IsReady race.now.table.shared.table_id pass.new }
{
    let clause = made_again(alloc)?;
    Ok(race.share(pass, clause))
}

// Shares it, again where memory was wanting.
fn share_one(
    alloc: Global,
    race: &Race<Pool<Empty>>,
    pass: &mut Pass<Pool<Empty>>,
) -> Result<Sharing, AllocError>
    requires { IsReady race.now.table.shared.table_id pass.old }
    ensures { IsReady race.now.table.shared.table_id pass.new }
{
    match share_once(alloc, race, pass)? {
        Sharing::Memory(_) => share_once(alloc, race, pass),
        shared => Ok(shared),
    }
}

/// What a pass tries, and what comes of it.
enum Turn {
    /// It shares the clause, as the entry at a place.
    Share(u64),
    /// It takes a batch: the clause, or no entry.
    Take(bool),
    Win,
    /// It tries to win after a worker that has won.
    Lose(u8),
    /// It sees which worker has won.
    See(u8),
}

// Whether the pass shares the clause as the entry at this place.
fn shares(
    alloc: Global,
    race: &Race<Pool<Empty>>,
    pass: &mut Pass<Pool<Empty>>,
    place: u64,
) -> Result<bool, AllocError>
    requires { IsReady race.now.table.shared.table_id pass.old }
    ensures { IsReady race.now.table.shared.table_id pass.new }
{
    let shared = share_one(alloc, race, pass)?;
    Ok(match shared {
        Sharing::Shared(found) => found == place,
        _ => false,
    })
}

// Takes a batch, again where memory was wanting.
fn take_one(race: &Race<Pool<Empty>>, pass: &mut Pass<Pool<Empty>>) -> Batch
    requires { IsReady race.now.table.shared.table_id pass.old }
    ensures { IsReady race.now.table.shared.table_id pass.new }
{
    match race.take_batch(pass) {
        Batch::Memory => race.take_batch(pass),
        batch => batch,
    }
}

// Whether the pass takes the clause, or a batch of nothing.
fn takes(
    alloc: Global,
    race: &Race<Pool<Empty>>,
    pass: &mut Pass<Pool<Empty>>,
    one: bool,
) -> Result<bool, AllocError>
    requires { IsReady race.now.table.shared.table_id pass.old }
    ensures { IsReady race.now.table.shared.table_id pass.new }
{
    let Batch::Batch(batch) = take_one(race, pass) else {
        return Ok(false);
    };
    if one {
        return is_that_clause(alloc, batch.as_slice());
    }
    Ok(batch.is_empty())
}

// Whether a turn comes out so.
fn comes_out(
    alloc: Global,
    race: &Race<Pool<Empty>>,
    pass: &mut Pass<Pool<Empty>>,
    turn: &Turn,
) -> Result<bool, AllocError>
    requires { IsReady race.now.table.shared.table_id pass.old }
    ensures { IsReady race.now.table.shared.table_id pass.new }
{
    match turn {
        Turn::Share(place) => shares(alloc, race, pass, *place),
        Turn::Take(one) => takes(alloc, race, pass, *one),
        Turn::Win => Ok(matches!(race.win(pass), Raced::Won)),
        Turn::Lose(faster) => Ok(matches!(race.win(pass), Raced::Lost(found) if found == *faster)),
        Turn::See(winner) => Ok(race.winner_seen(pass) == Some(*winner)),
    }
}

// Room for two passes, made again where memory was wanting.
fn room_for_two(alloc: Global) -> Result<Vec<Pass<Pool<Empty>>>, AllocError>
    ensures { IfOk result (λ v. v.items ≡ []) }
{
    match Vec::with_capacity(alloc, 2) {
        Ok(room) => Ok(room),
        Err(_) => Vec::with_capacity(alloc, 2),
    }
}

// The pool, after both passes.
fn end_two(
    alloc: Global,
    race: Race<Pool<Empty>>,
    first: Pass<Pool<Empty>>,
    second: Pass<Pool<Empty>>,
) -> Result<Pool<Empty>, AllocError>
    requires two { race.table.shared.key.workers ≡ 2 }
    requires first { first.seat.table_id ≡ race.table.shared.table_id }
    requires second { second.seat.table_id ≡ race.table.shared.table_id }
{
    let mut passes = room_for_two(alloc)?;
    passes.push(first)?;
    passes.push(second)?;
    Ok(race.end(passes))
}

// What the pool gives a worker that took nothing, taken again where memory was wanting.
fn all_of(pool: &Pool<Empty>) -> Result<Vec<Entry>, AllocError> {
    match pool.batch(0) {
        Ok(entries) => Ok(entries),
        Err(_) => pool.batch(0),
    }
}

/// The second takes the clause of the first once, and wins.
static TURNS: [(bool, Turn); 6] = [
    (false, Turn::Share(0)),
    (true, Turn::Take(true)),
    (true, Turn::Take(false)),
    (true, Turn::Win),
    (false, Turn::Lose(1)),
    (false, Turn::See(1)),
];

// Whether a turn of one of the passes comes out so.
fn one_does(
    alloc: Global,
    race: &Race<Pool<Empty>>,
    first: &mut Pass<Pool<Empty>>,
    second: &mut Pass<Pool<Empty>>,
    is_second: bool,
    turn: &Turn,
) -> Result<bool, AllocError>
    requires first { IsReady race.now.table.shared.table_id first.old }
    requires second { IsReady race.now.table.shared.table_id second.old }
    ensures first { IsReady race.now.table.shared.table_id first.new }
    ensures second { IsReady race.now.table.shared.table_id second.new }
{
    if is_second {
        return comes_out(alloc, race, second, turn);
    }
    comes_out(alloc, race, first, turn)
}

// How many turns come out so, until one doesn't.
fn count_turns(
    alloc: Global,
    race: &Race<Pool<Empty>>,
    first: &mut Pass<Pool<Empty>>,
    second: &mut Pass<Pool<Empty>>,
) -> Result<u32, AllocError>
    requires first { IsReady race.now.table.shared.table_id first.old }
    requires second { IsReady race.now.table.shared.table_id second.old }
    ensures first { IsReady race.now.table.shared.table_id first.new }
    ensures second { IsReady race.now.table.shared.table_id second.new }
{
    let mut count = 0u32;
    for (is_second, turn) in TURNS.iter() {
        if !one_does(alloc, race, first, second, *is_second, turn)? {
            return Ok(count);
        }
        count = count.saturating_add(1);
    }
    Ok(count)
}

/// One of two passes shares a clause; the other takes it once, and wins. The pool that comes back has it. Each call that finds no memory is made
/// again, so this comes out also where any one growth is refused.
#[test]
fn two_passes_share_take_and_win(rt: HostRuntime) -> Result<(), Fail> {
    let alloc = rt.alloc();
    let Some((race, mut first, mut second)) = start_two(alloc) else {
        panic!(rt; "no memory")
    };
    assert_eq!(rt; count_turns(alloc, &race, &mut first, &mut second)?, 6);
    let pool = end_two(alloc, race, first, second)?;
    assert!(rt; is_that_clause(alloc, all_of(&pool)?.as_slice())?);
    Ok(())
}
