//! All passes at once, each in a thread of its own.
ghost use Rattle.std.specs.Prelude.{◌≡◌, ◌<◌, ◌≤◌, ℕ, length, slice_index_or};
ghost use Rattle.unit_tests.specs.Jobs.{IsReady};

use crate::stack::{Empty, pool_of_two, true_clause};
use lemma_pool::Pool;
use race_cell::{Batch, Pass, Race, Raced, Sharing};
use std::alloc::Global;
use std::sync::atomic::AtomicU64;
use std::sync::atomic::Ordering::SeqCst;
use std::thread;
use std::thread::{Threads, yield_now};

/// How often a worker tries at most.
const TRIES: u64 = 10_000_000;

/// What the workers count together: the entries that they took, and the wins.
#[derive(Drop)]
pub struct Counts {
    pub got: AtomicU64,
    pub wins: AtomicU64,
}

/// Shares a true clause of level 0. 1 where it stands in the pool now, and 0 where it doesn't.
pub fn share_one(alloc: Global, race: &Race<Pool<Empty>>, pass: &mut Pass<Pool<Empty>>) -> u64
    requires { IsReady race.now.table.shared.table_id pass.old }
    ensures ready { IsReady race.now.table.shared.table_id pass.new }
    ensures few { result ≤ 1 }
{
    let Ok(clause) = true_clause(alloc, 0) else {
        return 0;
    };
    match race.share(pass, clause) {
        Sharing::Shared(_) => 1,
        _ => 0,
    }
}

/// Takes a batch. The number of its entries.
pub fn take_some(race: &Race<Pool<Empty>>, pass: &mut Pass<Pool<Empty>>) -> u64
    requires { IsReady race.now.table.shared.table_id pass.old }
    ensures { IsReady race.now.table.shared.table_id pass.new }
{
    match race.take_batch(pass) {
        Batch::Batch(batch) => batch.len() as u64,
        _ => 0,
    }
}

/// Shares so many clauses and takes batches in between, takes what is left, and tries to win.
pub fn work(
    alloc: Global,
    race: &Race<Pool<Empty>>,
    counts: &Counts,
    pass: &mut Pass<Pool<Empty>>,
    shares: u64,
)
    requires { IsReady race.now.table.shared.table_id pass.old }
    ensures { IsReady race.now.table.shared.table_id pass.new }
{
    let mut tries = 0u64;
    let mut shared = 0u64;
    while tries < TRIES && shared < shares {
        shared += share_one(alloc, race, pass);
        counts.got.fetch_add(take_some(race, pass), SeqCst);
        yield_now();
        tries += 1;
    }
    counts.got.fetch_add(take_some(race, pass), SeqCst);
    if let Raced::Won = race.win(pass) {
        counts.wins.fetch_add(1, SeqCst);
    }
}

/// Works all passes, in so many threads.
pub fn drive<R: Threads + Sync>(
    rt: &R,
    alloc: Global,
    race: &Race<Pool<Empty>>,
    counts: &Counts,
    passes: &mut [Pass<Pool<Empty>>],
    shares: u64,
    threads: usize,
)
    requires threads { 0 < threads }
    requires ready { (i : ℕ) (d : _) → i < length passes.old → IsReady race.now.table.shared.table_id (slice_index_or passes.old i d) }
    ensures { (i : ℕ) (d : _) → i < length passes.old → IsReady race.now.table.shared.table_id (slice_index_or passes.new i d) }
{
    let each = move |_at: usize, pass: &mut Pass<Pool<Empty>>| -> ()
        requires { IsReady race.now.table.shared.table_id pass.old }
        ensures { IsReady race.entry.now.table.shared.table_id pass.new }
    { work(alloc, race, counts, pass, shares) };
    thread::for_each_mut(rt, passes, threads, &each);
}

/// Four passes share 50 clauses each in four threads; then each takes what is left. The entries that all took, and the wins.
pub fn race_of_four<R: Threads + Sync>(rt: &R, alloc: Global) -> Option<(u64, u64)> {
    let Ok((race, mut passes)) = Race::start(alloc, pool_of_two(alloc), 4) else {
        return None;
    };
    let counts = Counts {
        got: AtomicU64::new(0),
        wins: AtomicU64::new(0),
    };
    drive(rt, alloc, &race, &counts, passes.as_mut_slice(), 50, 4);
    drive(rt, alloc, &race, &counts, passes.as_mut_slice(), 0, 1);
    Some((counts.got.load(SeqCst), counts.wins.load(SeqCst)))
}
