//! A worker's run.
ghost use Rattle.std.specs.Prelude.{◌≡◌, ◌+◌, [], All, IfSome, IfNone};
ghost use Rattle.smt_meaning.specs.Stack.{depth};
ghost use Rattle.smt_meaning.specs.Kinds.{has_no_integers};
ghost use Rattle.search_port.specs.State.{IsGrown};
ghost use Rattle.cdcl_core.specs.Search.{IsAddable};
ghost use Rattle.cdcl_core.specs.Turns.{GivenBy, IsGiven};
ghost use Rattle.race_cell.specs.Passes.{base_of, claim_of, IsSamePass};
ghost use Rattle.worker.specs.Outcome.{IsOutcome, IsRight, MemoryAloneIsReported};
ghost use Rattle.worker.specs.Endings.{IsFound, MemoryAloneIsFound};
ghost use Rattle.worker.specs.Racing.{first_reading, HasRaced, HasRead, IsWork, MayWin, Turned};
ghost use Rattle.worker.specs.Start.{IsStart};

use crate::decide::{Found, search};
use crate::outcome::{Answer, Outcome};
use crate::racer::{Racer, look};
use cdcl_core::hook::{Between, Called};
use clause_store::store::Store;
use ports::Gate;
use race_cell::{Pass, Race, Raced};
use race_model::Shelf;
use scope_stack::Stack;
use search_port::{Budget, Shown};
use smt_meaning::{Seq, Settings};
use std::alloc::Global;
use std::snapshot::Snapshot;

/// The turn of a worker that comes before it forms anything: the gate, and one look at the winner.
pub fn first_turn<S: Shelf, G: Gate>(race: &Race<S>, gate: &G, pass: &mut Pass<S>) -> Option<u8>
    requires { pass.old.seat.table_id ≡ race.now.table.shared.table_id }
    ensures same { IsSamePass pass.old pass.new }
    ensures claim { ((claim_of pass.new).worker ≡ (claim_of pass.old).worker) × ((claim_of pass.new).own ≡ (claim_of pass.old).own) }
    ensures looks { (claim_of pass.new).looks ≡ (claim_of pass.old).looks + 1 }
    ensures found { IfSome result (λ w. (claim_of pass.new).found ≡ w + 1) }
    ensures none { IfNone result ((claim_of pass.new).found ≡ 0) }
{
    gate.turn(pass.worker, 0);
    look(race, pass)
}

/// The worker's answer, if it is the first.
fn answer<S: Shelf>(
    stack: &Stack,
    settings: &Settings,
    race: &Race<S>,
    mut pass: Pass<S>,
    answer: Answer,
) -> (Pass<S>, Outcome)
    requires race { pass.seat.table_id ≡ race.now.table.shared.table_id }
    requires work { All IsWork (claim_of pass).own }
    requires right { IsRight stack.now answer }
    ensures same { IsSamePass pass result.0 }
    ensures worker { (claim_of result.0).worker ≡ (claim_of pass).worker }
    ensures ends { MayWin (claim_of pass) (claim_of result.0) }
    ensures outcome { IsOutcome stack.now settings.now.units (claim_of result.0) result.1 }
    ensures memory { MemoryAloneIsReported stack.now.frames settings.now.units result.1 }
{
    let _ = stack;
    let _ = settings;
    match race.win(&mut pass) {
        Raced::Won => (pass, Outcome::Answer(answer)),
        Raced::Lost(winner) => (pass, Outcome::Cancelled(winner)),
    }
}

/// What the worker's part comes to by what its search has found.
fn end<S: Shelf>(
    stack: &Stack,
    settings: &Settings,
    race: &Race<S>,
    pass: Pass<S>,
    found: Found,
) -> (Pass<S>, Outcome)
    requires race { pass.seat.table_id ≡ race.now.table.shared.table_id }
    requires work { All IsWork (claim_of pass).own }
    requires found { IsFound stack.now settings.now.units (claim_of pass).worker (HasRead (claim_of pass)) found }
    requires memory { MemoryAloneIsFound stack.now.frames settings.now.units found }
    ensures same { IsSamePass pass result.0 }
    ensures worker { (claim_of result.0).worker ≡ (claim_of pass).worker }
    ensures ends { MayWin (claim_of pass) (claim_of result.0) }
    ensures outcome { IsOutcome stack.now settings.now.units (claim_of result.0) result.1 }
    ensures memory { MemoryAloneIsReported stack.now.frames settings.now.units result.1 }
{
    match found {
        Found::Model(model) => answer(stack, settings, race, pass, Answer::Sat(model)),
        Found::NoModel => answer(stack, settings, race, pass, Answer::Unsat),
        Found::Report(report) => (pass, Outcome::Report(report)),
        Found::Cancelled(winner) => (pass, Outcome::Cancelled(winner)),
    }
}

/// A worker's part in a race over the stack, from its first clauses on.
pub fn run<S: Shelf, T: Shown, G: Gate>(
    alloc: Global,
    stack: &Stack,
    settings: &Settings,
    is_integer_free: bool,
    race: &Race<S>,
    gate: &G,
    pass: Pass<S>,
    theory: T,
    store: Store,
) -> (Pass<S>, Outcome)
    requires race { pass.seat.table_id ≡ race.now.table.shared.table_id }
    requires base { (base_of S.state pass).base ≡ record { trees = stack.now.trees; frames = stack.now.frames } }
    requires unstarted { (claim_of pass).own ≡ [] }
    requires integers { is_integer_free ≡ has_no_integers stack.now.frames }
    requires start { IsStart T.agrees stack.now (T.state theory) store }
    ensures same { IsSamePass pass result.0 }
    ensures worker { (claim_of result.0).worker ≡ (claim_of pass).worker }
    ensures raced { HasRaced (depth stack.now.frames) settings.now.share pass result.0 }
    ensures outcome { IsOutcome stack.now settings.now.units (claim_of result.0) result.1 }
    ensures memory { MemoryAloneIsReported stack.now.frames settings.now.units result.1 }
{
    let worker = pass.worker;
    let between = |racer: &mut Racer<'_, S, G>, budget: &Budget, theory: &T| -> Between
        requires heard { IsGrown (first_reading racer.old.stack.now) (T.state theory.now).reading }
        requires shorts { All (IsAddable (T.state theory.now).reading) budget.now.short }
        ensures stack { racer.new.stack ≡ racer.old.stack }
        ensures turned { Turned (depth racer.old.stack.now.frames) racer.old.pass racer.old.sent budget.now racer.new.pass racer.new.sent }
        ensures by { GivenBy (T.state theory.now).reading (HasRead (claim_of racer.new.pass)) result }
        ensures given { IsGiven racer.new.given.value result }
    { racer.turn(budget, theory) };
    let mut hook = Called {
        state: Racer {
            alloc,
            stack,
            race,
            gate,
            pass,
            sent: 0,
            unit: 1,
            is_full: false,
            given: Snapshot::of(&Seq::new(alloc)),
        },
        f: between,
    };
    let found = search(
        alloc,
        stack,
        settings,
        is_integer_free,
        worker,
        theory,
        store,
        &mut hook,
    );
    let Called { state, f: _ } = hook;
    let Racer { pass, .. } = state;
    end(stack, settings, race, pass, found)
}
