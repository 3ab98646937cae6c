//! A worker's part in a race, as a job.
ghost use Rattle.std.specs.Prelude.{◌≡◌, []};
ghost use Rattle.race_cell.specs.Passes.{claim_of};
ghost use Rattle.worker.specs.Outcome.{IsReportOf, ReportsMemory};
ghost use Rattle.portfolio.specs.Jobs.{IsFreshPass, IsReady, IsDone, HasTaken, job_worker};

use check_atoms::{atoms_are_first, numbered, takes};
use first_clauses::{check_clauses, first_clauses_agree, keep_axioms};
use ports::Gate;
use race_cell::{Pass, Race};
use race_model::Shelf;
use scope_stack::Stack;
use smt_meaning::{RangeSeen, Report, Settings};
use std::alloc::Global;
use theory_combine::{BoundError, Combined};
use worker::{Outcome, first_turn, out_of_memory, out_of_range, refused, run};

/// A worker's pass, and what its part in the race comes to.
#[derive(Drop)]
pub struct Job<S: Shelf> {
    pub pass: Option<Pass<S>>,
    pub outcome: Option<Outcome>,
}

// A part that ends before the search begins.
fn reported<S: Shelf>(
    stack: &Stack,
    settings: &Settings,
    pass: Pass<S>,
    report: Report,
) -> (Pass<S>, Outcome)
    requires unstarted { (claim_of pass).own ≡ [] }
    requires report { IsReportOf stack.now settings.now.units (claim_of pass).worker report }
    requires memory { ReportsMemory stack.now.frames settings.now.units report }
    ensures { HasTaken stack.now settings.now.units pass result.0 result.1 }
{
    let _ = stack;
    let _ = settings;
    (pass, Outcome::Report(report))
}

/// Numbers the atoms of the stack, and searches from its first clauses on.
fn form<S: Shelf, G: Gate>(
    alloc: Global,
    stack: &Stack,
    settings: &Settings,
    race: &Race<S>,
    gate: &G,
    pass: Pass<S>,
) -> (Pass<S>, Outcome)
    requires { IsFreshPass race.now.table.shared.table_id stack.now pass }
    ensures { HasTaken stack.now settings.now.units pass result.0 result.1 }
{
    stack.laws();
    atoms_are_first();
    first_clauses_agree();
    let worker = pass.worker;
    let Ok(is_integer_free) = takes(alloc, stack) else {
        let report = out_of_memory(alloc, stack, settings, worker);
        return reported(stack, settings, pass, report);
    };
    let mut parts = match numbered(alloc, stack) {
        Ok(parts) => parts,
        Err(refusal) => {
            let report = refused(alloc, stack, settings, worker, refusal);
            return reported(stack, settings, pass, report);
        }
    };
    let mut store = match check_clauses(alloc, stack, stack.sorts(), &mut parts) {
        Ok(store) => store,
        Err(cause) => {
            let report = refused(alloc, stack, settings, worker, cause);
            return reported(stack, settings, pass, report);
        }
    };
    let Ok(()) = keep_axioms(alloc, stack, &parts, &mut store) else {
        let report = out_of_memory(alloc, stack, settings, worker);
        return reported(stack, settings, pass, report);
    };
    match Combined::new(alloc, stack, parts) {
        Ok(theory) => run(
            alloc,
            stack,
            settings,
            is_integer_free,
            race,
            gate,
            pass,
            theory,
            store,
        ),
        Err(BoundError::Memory) => {
            let report = out_of_memory(alloc, stack, settings, worker);
            reported(stack, settings, pass, report)
        }
        Err(BoundError::Range(grid)) => {
            let seen = RangeSeen::Step(grid);
            let report = out_of_range(alloc, stack, settings, worker, seen);
            reported(stack, settings, pass, report)
        }
    }
}

/// A worker's part in the race: one turn, and if nobody has won by then, its own search.
fn take_part<S: Shelf, G: Gate>(
    alloc: Global,
    stack: &Stack,
    settings: &Settings,
    race: &Race<S>,
    gate: &G,
    mut pass: Pass<S>,
) -> (Pass<S>, Outcome)
    requires { IsFreshPass race.now.table.shared.table_id stack.now pass }
    ensures { HasTaken stack.now settings.now.units pass result.0 result.1 }
{
    match first_turn(race, gate, &mut pass) {
        Some(winner) => (pass, Outcome::Cancelled(winner)),
        None => form(alloc, stack, settings, race, gate, pass),
    }
}

/// Works one job.
pub fn work<S: Shelf, G: Gate>(
    alloc: Global,
    stack: &Stack,
    settings: &Settings,
    race: &Race<S>,
    gate: &G,
    job: &mut Job<S>,
)
    requires ready { IsReady race.now.table.shared.table_id stack.now job.old }
    ensures done { IsDone race.now.table.shared.table_id stack.now settings.now.units job.new }
    ensures worker { job_worker job.new ≡ job_worker job.old }
{
    if let Some(pass) = job.pass.take() {
        let (pass, outcome) = take_part(alloc, stack, settings, race, gate, pass);
        job.pass = Some(pass);
        job.outcome = Some(outcome);
    }
}
