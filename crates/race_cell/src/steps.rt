//! What a pass's calls do, on its seat.
ghost use Rattle.std.specs.Prelude.{◌≡◌, MatchBool, [], length};
ghost use Rattle.race_model.specs.Laws.{IsSound};
ghost use Rattle.race_cell.specs.declared.action.Action.TheVariants.{TakeBatch};
ghost use Rattle.race_cell.specs.Actions.{worker_of};
ghost use Rattle.race_cell.specs.Rules.{claim, base_in, alone, holding, adds, busier, returns, share_out};
ghost use Rattle.race_cell.specs.Calls.{mark_of, IsAlone, Held, Ready, Takes, Puts, Draws, ShareTells, BatchTells, RaceTells, AskTells};

use crate::answer::{Batch, Raced, Sharing};
use crate::race::{Place, Race};
use crate::rule::{Ask, EnterBatch, EnterShare, Give, GiveBack, Take, Win};
use race_model::{Entry, Shelf, Told};
use smt_meaning::Clause;
use std::alloc::AllocError;

const LENGTH: usize = 0;

const TURN: usize = 1;

const WINNER: usize = 2;

impl<S: Shelf> Race<S> {
    // True where the seat has taken the shelf.
    fn take(&self, seat: &mut Place<S>) -> bool
        requires { (seat.old.table_id ≡ self.now.table.shared.table_id) × IsAlone seat.old.me }
        ensures table { seat.new.table_id ≡ seat.old.table_id }
        ensures takes { MatchBool result (Takes S.state seat.old.me.0 seat.new.me) (seat.new.me ≡ (alone seat.old.me.0.base (busier (claim seat.old.me.0)), [])) }
    {
        self.table.shared.compare_exchange::<Take>(seat, TURN, 0, 1) == 0
    }

    fn give(&self, seat: &mut Place<S>)
        requires { (seat.old.table_id ≡ self.now.table.shared.table_id) × Held S.state seat.old.me }
        ensures table { seat.new.table_id ≡ seat.old.table_id }
        ensures view { seat.new.me ≡ (alone seat.old.me.0.base (claim seat.old.me.0), []) }
    {
        self.table.shared.store::<Give>(seat, TURN, 0);
    }

    fn give_back(&self, seat: &mut Place<S>)
        requires { (seat.old.table_id ≡ self.now.table.shared.table_id) × Held S.state seat.old.me }
        ensures table { seat.new.table_id ≡ seat.old.table_id }
        ensures view { seat.new.me ≡ (alone seat.old.me.0.base (returns (claim seat.old.me.0)), []) }
    {
        self.table.shared.store::<GiveBack>(seat, TURN, 0);
    }

    // The last share of the shelf is the seat's own.
    fn enter_share(&self, seat: &mut Place<S>)
        requires { (seat.old.table_id ≡ self.now.table.shared.table_id) × (worker_of (share_out S.state seat.old.me.1) ≡ (claim seat.old.me.0).worker) × Ready S.state (share_out S.state seat.old.me.1) seat.old.me }
        ensures table { seat.new.table_id ≡ seat.old.table_id }
        ensures view { seat.new.me.0 ≡ holding seat.old.me.0.base (adds (claim seat.old.me.0) (share_out S.state seat.old.me.1)) }
        ensures held { Held S.state seat.new.me }
    {
        self.table.shared.fetch_add::<EnterShare>(seat, LENGTH, 1);
    }

    // The batch is the seat's own.
    fn enter_batch(&self, seat: &mut Place<S>)
        requires { (seat.old.table_id ≡ self.now.table.shared.table_id) × Ready S.state (TakeBatch (claim seat.old.me.0).worker) seat.old.me }
        ensures table { seat.new.table_id ≡ seat.old.table_id }
        ensures view { seat.new.me.0 ≡ holding seat.old.me.0.base (adds (claim seat.old.me.0) (TakeBatch (claim seat.old.me.0).worker)) }
        ensures held { Held S.state seat.new.me }
    {
        self.table.shared.fetch_add::<EnterBatch>(seat, LENGTH, 1);
    }

    fn put(&self, seat: &mut Place<S>, worker: u8, clause: Clause) -> Told
        requires { (seat.old.table_id ≡ self.now.table.shared.table_id) × Held S.state seat.old.me × IsSound (base_in S.state seat.old.me.0.base).base clause }
        ensures table { seat.new.table_id ≡ seat.old.table_id }
        ensures puts { Puts S.state worker clause seat.old.me result seat.new.me }
    {
        seat.slot_mut(&self.table.shared, 0).share(worker, clause)
    }

    // The entries from the mark on, and the number of all.
    fn draw(&self, seat: &mut Place<S>, mark: u64) -> Result<(Vec<Entry>, u64), AllocError>
        requires { (seat.old.table_id ≡ self.now.table.shared.table_id) × Held S.state seat.old.me }
        ensures table { seat.new.table_id ≡ seat.old.table_id }
        ensures draws { Draws S.state mark seat.old.me result seat.new.me }
    {
        let shelf = seat.slot_mut(&self.table.shared, 0);
        let count = shelf.count();
        match shelf.batch(mark) {
            Ok(batch) => Ok((batch, count)),
            Err(failed) => Err(failed),
        }
    }

    pub(crate) fn share_at(&self, seat: &mut Place<S>, worker: u8, clause: Clause) -> Sharing
        requires { (seat.old.table_id ≡ self.now.table.shared.table_id) × IsAlone seat.old.me × (worker ≡ (claim seat.old.me.0).worker) × IsSound (base_in S.state seat.old.me.0.base).base clause }
        ensures table { seat.new.table_id ≡ seat.old.table_id }
        ensures alone { IsAlone seat.new.me × (seat.new.me.0.base ≡ seat.old.me.0.base) }
        ensures tells { ShareTells (base_in S.state seat.old.me.0.base) (claim seat.old.me.0) clause result (claim seat.new.me.0) }
    {
        if !self.take(seat) {
            return Sharing::Busy(clause);
        }
        match self.put(seat, worker, clause) {
            Told::Shared(place) => {
                self.enter_share(seat);
                self.give(seat);
                Sharing::Shared(place)
            }
            Told::Full(back) => {
                self.give_back(seat);
                Sharing::Full(back)
            }
            Told::Memory(back) => {
                self.give_back(seat);
                Sharing::Memory(back)
            }
        }
    }

    pub(crate) fn batch_at(&self, seat: &mut Place<S>, mark: &mut u64) -> Batch
        requires { (seat.old.table_id ≡ self.now.table.shared.table_id) × IsAlone seat.old.me × (mark.old ≡ mark_of S.state seat.old.me.0) }
        ensures table { seat.new.table_id ≡ seat.old.table_id }
        ensures alone { IsAlone seat.new.me × (seat.new.me.0.base ≡ seat.old.me.0.base) }
        ensures tells { BatchTells (base_in S.state seat.old.me.0.base) (claim seat.old.me.0) result (claim seat.new.me.0) }
        ensures mark { mark.new ≡ mark_of S.state seat.new.me.0 }
    {
        if !self.take(seat) {
            return Batch::Busy;
        }
        match self.draw(seat, *mark) {
            Ok((batch, count)) => {
                self.enter_batch(seat);
                self.give(seat);
                *mark = count;
                Batch::Batch(batch)
            }
            Err(_) => {
                self.give_back(seat);
                Batch::Memory
            }
        }
    }

    pub(crate) fn race_at(&self, seat: &mut Place<S>, worker: u8) -> Raced
        requires { (seat.old.table_id ≡ self.now.table.shared.table_id) × IsAlone seat.old.me × (worker ≡ (claim seat.old.me.0).worker) }
        ensures table { seat.new.table_id ≡ seat.old.table_id }
        ensures alone { IsAlone seat.new.me × (seat.new.me.0.base ≡ seat.old.me.0.base) }
        ensures tells { RaceTells (claim seat.old.me.0) result (claim seat.new.me.0) }
    {
        let found = self
            .table
            .shared
            .compare_exchange::<Win>(seat, WINNER, 0, worker as u64 + 1);
        if found == 0 {
            Raced::Won
        } else {
            Raced::Lost((found - 1) as u8)
        }
    }

    pub(crate) fn ask_at(&self, seat: &mut Place<S>) -> Option<u8>
        requires { (seat.old.table_id ≡ self.now.table.shared.table_id) × IsAlone seat.old.me }
        ensures table { seat.new.table_id ≡ seat.old.table_id }
        ensures alone { IsAlone seat.new.me × (seat.new.me.0.base ≡ seat.old.me.0.base) }
        ensures tells { AskTells (claim seat.old.me.0) result (claim seat.new.me.0) }
    {
        let found = self.table.shared.load::<Ask>(seat, WINNER);
        if found == 0 {
            None
        } else {
            Some((found - 1) as u8)
        }
    }
}
