//! The race of a check.
ghost use Rattle.std.specs.Prelude.{◌≡◌, ◌+◌, ◌<◌, ◌≤◌, true, false, [], map, reverse, length, All, IfOk, vec_len, vec_capacity};
ghost use Rattle.std.specs.List.{range_with_len};
ghost use Rattle.atomic_table.specs.Seated.{TableId};
ghost use Rattle.smt_meaning.specs.Stack.{signature_of, assertions_of};
ghost use Rattle.smt_meaning.specs.StackCommand.{Stack as StackValue};
ghost use Rattle.smt_meaning.specs.Model.{IsModel};
ghost use Rattle.race_cell.specs.Passes.{claim_of, IsPassOf};
ghost use Rattle.theory_port.specs.Verdicts.{IsVerdict};
ghost use Rattle.portfolio.specs.Ends.{MemoryAloneEnds, MemoryAloneEndsBoolean, BoxedIsNotSpent};
ghost use Rattle.portfolio.specs.Jobs.{IsFreshPass, IsReady, IsDone, worker_of, job_worker};
ghost use Rattle.portfolio.specs.Tallies.{Tallied};

use crate::drive::drive;
use crate::job::Job;
use crate::tally::Tally;
use lemma_pool::{Pool, follows_from_nothing};
use ports::Gate;
use race_cell::{Pass, Race, winner_has_won};
use race_model::Shelf;
use report_laws::boxed_stacks_are_not_spent;
use scope_stack::Stack;
use smt_laws::propositional_has_no_integers;
use smt_meaning::{Interp, Seq, Settings};
use std::alloc::{AllocError, Global};
use std::thread::Threads;
use theory_port::Verdict;
use worker::Answer;

// Whether nothing is declared and nothing asserted. Else there is a level.
fn is_bare(stack: &Stack) -> bool
    ensures bare { result ≡ true → (signature_of stack.now.frames ≡ []) × (assertions_of stack.now.frames ≡ []) }
    ensures some { result ≡ false → 0 < length stack.now.frames }
{
    stack.assertions().is_empty() && stack.declarations().is_empty()
}

// The model of no assertions over no declarations.
fn no_tables(alloc: Global, stack: &Stack) -> Interp
    requires signature { signature_of stack.now.frames ≡ [] }
    requires assertions { assertions_of stack.now.frames ≡ [] }
    ensures { IsModel stack.now.frames result }
{
    let _ = stack;
    Seq::new(alloc)
}

// A job for each pass. The last pass has the first job.
fn jobs_of<S: Shelf>(alloc: Global, passes: &mut Vec<Pass<S>>) -> Result<Vec<Job<S>>, AllocError>
    ensures ready { (z : TableId) (s : StackValue) → All (IsFreshPass z s) passes.old.items → IfOk result (λ jobs. All (IsReady z s) jobs.items) }
    ensures workers { IfOk result (λ jobs. reverse (map job_worker jobs.items) ≡ map worker_of passes.old.items) }
    ensures len { IfOk result (λ jobs. vec_len jobs ≡ vec_len passes.old) }
    ensures none { IfOk result (λ _. passes.new.items ≡ []) }
    ensures capacity { vec_capacity passes.new ≡ vec_capacity passes.old }
{
    let mut jobs = Vec::with_capacity(alloc, passes.len())?;
    while let Some(pass) = passes.pop() {
        jobs.push_reserved(Job {
            pass: Some(pass),
            outcome: None,
        });
    }
    Ok(jobs)
}

// The passes of all jobs, and what their outcomes come to.
fn gather<S: Shelf>(
    stack: &Stack,
    settings: &Settings,
    race: &Race<S>,
    mut jobs: Vec<Job<S>>,
    passes: &mut Vec<Pass<S>>,
    tally: &mut Tally,
)
    requires done { All (IsDone race.now.table.shared.table_id stack.now settings.now.units) jobs.items }
    requires none { passes.old.items ≡ [] }
    requires room { vec_len jobs ≤ vec_capacity passes.old }
    requires tallied { Tallied stack.now settings.now.units [] tally.old }
    requires reports { vec_len tally.old.reports + vec_len jobs ≤ vec_capacity tally.old.reports }
    ensures all { All (IsPassOf race.now.table.shared.table_id) passes.new.items }
    ensures workers { map worker_of passes.new.items ≡ reverse (map job_worker jobs.items) }
    ensures tallied { Tallied stack.now settings.now.units (map claim_of passes.new.items) tally.new }
{
    let _ = stack;
    let _ = settings;
    let _ = race;
    while let Some(job) = jobs.pop() {
        let Job { pass, outcome } = job;
        let Some(pass) = pass else { unreachable!() };
        let Some(outcome) = outcome else {
            unreachable!()
        };
        tally.add(outcome);
        passes.push_reserved(pass);
    }
}

// Ends the race, and says what its workers have found. Without an answer none of them has found a winner.
fn conclude<S: Shelf + Drop>(
    stack: &Stack,
    settings: &Settings,
    race: Race<S>,
    passes: Vec<Pass<S>>,
    tally: Tally,
) -> Verdict
    requires workers { 0 < settings.now.workers }
    requires key { race.table.shared.key.workers ≡ settings.now.workers }
    requires passes { All (IsPassOf race.table.shared.table_id) passes.items }
    requires order { map worker_of passes.items ≡ range_with_len 0 settings.now.workers }
    requires tallied { Tallied stack.now settings.now.units (map claim_of passes.items) tally }
    ensures verdict { IsVerdict settings.now.workers stack.now.trees stack.now.frames settings.now.units result }
    ensures memory { MemoryAloneEnds stack.now.frames settings.now.units result }
{
    let _ = stack;
    let _ = settings;
    winner_has_won::<S>();
    let _shelf = race.end(passes);
    let Tally {
        answer,
        winner,
        reports,
    } = tally;
    match answer {
        Some(Answer::Sat(model)) => Verdict::Sat(model),
        Some(Answer::Unsat) => Verdict::Unsat,
        None => match winner {
            Some(_) => unreachable!(),
            None => Verdict::Unknown(Seq::from_vec(reports)),
        },
    }
}

// The race over a stack that has levels.
fn race<R: Threads + Sync, G: Gate>(
    rt: &R,
    alloc: Global,
    gate: &G,
    stack: &Stack,
    settings: &Settings,
) -> Result<Verdict, AllocError>
    requires workers { 0 < settings.now.workers }
    requires some { 0 < length stack.now.frames }
    ensures verdict { IfOk result (IsVerdict settings.now.workers stack.now.trees stack.now.frames settings.now.units) }
    ensures memory { IfOk result (MemoryAloneEnds stack.now.frames settings.now.units) }
{
    follows_from_nothing();
    let mut tally = Tally::new(alloc, settings.workers)?;
    let mut pool = Pool::new(alloc, stack);
    pool.follow(stack, stack.depth() as u64 + 1);
    let Ok((race, mut passes)) = Race::start(alloc, pool, settings.workers) else {
        return Err(AllocError);
    };
    let mut jobs = jobs_of(alloc, &mut passes)?;
    drive(rt, alloc, stack, settings, &race, gate, jobs.as_mut_slice());
    gather(stack, settings, &race, jobs, &mut passes, &mut tally);
    Ok(conclude(stack, settings, race, passes, tally))
}

/// Races the workers of the settings over a stack, in threads: the answer of the one that wins, or a report of each. An `Err` is for want of memory before they begin.
pub fn check<R: Threads + Sync, G: Gate>(
    rt: &R,
    alloc: Global,
    gate: &G,
    stack: &Stack,
    settings: &Settings,
) -> Result<Verdict, AllocError>
    requires workers { 0 < settings.now.workers }
    ensures verdict { IfOk result (IsVerdict settings.now.workers stack.now.trees stack.now.frames settings.now.units) }
    ensures memory { IfOk result (MemoryAloneEnds stack.now.frames settings.now.units) }
    ensures boolean { IfOk result (MemoryAloneEndsBoolean stack.now.frames settings.now.units) }
    ensures boxed { IfOk result (BoxedIsNotSpent stack.now.trees stack.now.frames settings.now.units) }
{
    propositional_has_no_integers();
    boxed_stacks_are_not_spent();
    if is_bare(stack) {
        return Ok(Verdict::Sat(no_tables(alloc, stack)));
    }
    race(rt, alloc, gate, stack, settings)
}
