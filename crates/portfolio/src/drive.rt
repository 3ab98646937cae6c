//! All workers of a race at once, each in a thread of its own.
ghost use Rattle.std.specs.Prelude.{◌≡◌, ℕ, ◌<◌, length, slice_index_or, All};
ghost use Rattle.portfolio.specs.Jobs.{IsReady, IsWorked};

use crate::job::{Job, work};
use lemma_pool::Pool;
use ports::Gate;
use race_cell::Race;
use scope_stack::Stack;
use smt_meaning::Settings;
use std::alloc::Global;
use std::thread;
use std::thread::Threads;

/// Works all jobs.
pub fn drive<R: Threads + Sync, G: Gate>(
    rt: &R,
    alloc: Global,
    stack: &Stack,
    settings: &Settings,
    race: &Race<Pool<Stack>>,
    gate: &G,
    jobs: &mut [Job<Pool<Stack>>],
)
    requires ready { All (IsReady race.now.table.shared.table_id stack.now) jobs.old }
    ensures { (i : ℕ) (d : _) → i < length jobs.old → IsWorked race.now.table.shared.table_id stack.now settings.now.units (slice_index_or jobs.old i d) (slice_index_or jobs.new i d) }
{
    let threads = jobs.len().max(1);
    let each = move |_at: usize, job: &mut Job<Pool<Stack>>| -> ()
        requires { IsReady race.now.table.shared.table_id stack.now job.old }
        ensures { IsWorked race.entry.now.table.shared.table_id stack.entry.now settings.entry.now.units job.old job.new }
    { work(alloc, stack, settings, race, gate, job) };
    thread::for_each_mut(rt, jobs, threads, &each);
}
