//! A worker in a race, as what its search calls between two units.
ghost use Rattle.std.specs.Prelude.{◌≡◌, ◌+◌, [], ◌∷◌, All, IfSome, IfNone};
ghost use Rattle.smt_meaning.specs.Stack.{depth};
ghost use Rattle.search_port.specs.State.{IsGrown};
ghost use Rattle.cdcl_core.specs.Search.{AreAddable, IsAddable};
ghost use Rattle.cdcl_core.specs.Turns.{GivenBy, IsGiven};
ghost use Rattle.race_cell.specs.Passes.{base_of, claim_of, IsSamePass};
ghost use Rattle.std.specs.Coded.{Coded-set};
ghost use Rattle.worker.specs.Racing.{base_of_stack, coded_base, first_reading, Adds, HasRead, SharesNext, TakesOne, Turned};

use crate::export::{Sent, share_clause};
use crate::import::take_clauses;
use cdcl_core::hook::{Between, Meaning};
use ports::Gate;
use race_cell::{Pass, Race};
use race_model::Shelf;
use scope_stack::Stack;
use search_port::{Budget, Cause, Lemma, Named};
use smt_meaning::Seq;
use std::alloc::Global;
use std::snapshot::Snapshot;

/// A worker in a race over a stack.
#[derive(Drop)]
pub(crate) struct Racer<'r, S: Shelf, G: Gate> {
    pub alloc: Global,
    pub stack: &'r Stack,
    pub race: &'r Race<S>,
    pub gate: &'r G,
    pub pass: Pass<S>,
    /// How many of the clauses to share were shared.
    pub sent: usize,
    /// The number of its next turn.
    pub unit: u64,
    /// Whether the race has as many entries as it may have.
    pub is_full: bool,
    /// The clauses that the last turn gave.
    pub given: Snapshot<Seq<Lemma>>,
    ghost of_race: { pass.seat.table_id ≡ race.now.table.shared.table_id },
    ghost of_stack: { (base_of S.state pass).base ≡ base_of_stack stack.now } by { Coded-set coded_base _ _ },
}

/// One look at the winner.
pub(crate) fn look<S: Shelf>(race: &Race<S>, pass: &mut Pass<S>) -> Option<u8>
    requires { pass.old.seat.table_id ≡ race.now.table.shared.table_id }
    ensures same { IsSamePass pass.old pass.new }
    ensures adds { Adds [] 1 (claim_of pass.old) (claim_of pass.new) }
    ensures found { IfSome result (λ w. (claim_of pass.new).found ≡ w + 1) }
    ensures none { IfNone result ((claim_of pass.new).found ≡ 0) }
{
    race.winner_seen(pass)
}

impl<S: Shelf, G: Gate> Racer<'_, S, G> {
    /// Shares the next clause, in one try, unless the race is full.
    fn share_next<T: Named>(&mut self, budget: &Budget, theory: &T)
        requires heard { IsGrown (first_reading self.old.stack.now) (T.state theory.now).reading }
        requires shorts { All (IsAddable (T.state theory.now).reading) budget.now.short }
        ensures same { IsSamePass self.old.pass self.new.pass }
        ensures stack { self.new.stack ≡ self.old.stack }
        ensures shares { (es : _) × Adds es 0 (claim_of self.old.pass) (claim_of self.new.pass) × SharesNext (claim_of self.old.pass).worker (depth self.old.stack.now.frames) budget.now.short self.old.sent es self.new.sent }
    {
        let short = budget.short();
        if self.is_full || self.sent >= short.len() {
            return;
        }
        match share_clause(
            self.alloc,
            self.stack,
            self.race,
            &mut self.pass,
            theory,
            &short[self.sent],
        ) {
            Sent::Stands => self.sent += 1,
            Sent::Full => self.is_full = true,
            Sent::Waits => {}
        }
    }

    /// One turn: the gate, a look at the winner, the next clause to share and a batch.
    pub fn turn<T: Named>(&mut self, budget: &Budget, theory: &T) -> Between
        requires heard { IsGrown (first_reading self.old.stack.now) (T.state theory.now).reading }
        requires shorts { All (IsAddable (T.state theory.now).reading) budget.now.short }
        ensures stack { self.new.stack ≡ self.old.stack }
        ensures turned { Turned (depth self.old.stack.now.frames) self.old.pass self.old.sent budget.now self.new.pass self.new.sent }
        ensures by { GivenBy (T.state theory.now).reading (HasRead (claim_of self.new.pass)) result }
        ensures given { IsGiven self.new.given.value result }
    {
        self.gate.turn(self.pass.worker, self.unit);
        self.unit = self.unit.saturating_add(1);
        if let Some(winner) = look(self.race, &mut self.pass) {
            self.given = Snapshot::of(&Seq::new(self.alloc));
            return Between::Stop(Cause::Cancelled(winner));
        }
        self.share_next(budget, theory);
        let mut lemmas = Seq::new(self.alloc);
        // Where memory is wanting, those that were numbered before stay.
        let _ = take_clauses(
            self.alloc,
            self.stack,
            self.race,
            &mut self.pass,
            theory,
            &mut lemmas,
        );
        self.given = Snapshot::of(&lemmas);
        Between::GoOn(lemmas)
    }
}

impl<S: Shelf, G: Gate> Meaning for Racer<'_, S, G> {
    ghost use Rattle.std.specs.Prelude.{◌≡◌};
    ghost use Rattle.smt_meaning.specs.Stack.{depth};
    ghost use Rattle.race_cell.specs.Passes.{claim_of};
    ghost use Rattle.std.proofs.Common.{refl};
    ghost use Rattle.worker.specs.Racing.{first_reading, HasRead, Leads, leads_both, Turned};

    ghost reading = { λ h. first_reading h.stack.now };

    ghost later = { λ h calls i. Leads (λ x b y. (y.stack ≡ x.stack) × Turned (depth x.stack.now.frames) x.pass x.sent b y.pass y.sent) h calls i };

    ghost stopped = { λ h. HasRead (claim_of h.pass) };

    ghost given = { λ h. h.given.value };

    ghost later_same = { λ h. refl };

    ghost later_both = { λ h i j ms ns p q. leads_both (λ x b y. (y.stack ≡ x.stack) × Turned (depth x.stack.now.frames) x.pass x.sent b y.pass y.sent) h i j ms ns p q };
}
