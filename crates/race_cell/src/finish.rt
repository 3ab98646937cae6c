//! How a race ends.
ghost use Rattle.std.specs.Prelude.{◌≡◌, ◌<◌, [], length, map, All};
ghost use Rattle.race_cell.specs.Rules.{with_claims, AtEnd, Ended};
ghost use Rattle.race_cell.specs.Passes as of;

use crate::race::{Pass, Place, Race};
use crate::rule::Both;
use race_model::Shelf;

impl<S: Shelf + Drop> Race<S> {
    // One seat with the claims of all passes.
    fn gather(&self, mut passes: Vec<Pass<S>>) -> Place<S>
        requires some { 0 < length passes.items }
        requires all { All (of.IsPassOf self.now.table.shared.table_id) passes.items }
        ensures table { result.table_id ≡ self.now.table.shared.table_id }
        ensures claims { result.me ≡ (with_claims result.me.0.base (map of.claim_of passes.items), []) }
    {
        let Some(last) = passes.pop() else {
            unreachable!()
        };
        let mut seat = last.seat;
        while let Some(pass) = passes.pop() {
            let mut next = pass.seat;
            self.table.shared.join_seat::<Both>(&mut next, seat);
            seat = next;
        }
        seat
    }

    fn close(self, seat: Place<S>) -> S
        requires table { seat.table_id ≡ self.table.shared.table_id }
        requires claims { seat.me ≡ (with_claims seat.me.0.base seat.me.0.claims, []) }
        requires all { (length seat.me.0.claims ≡ self.table.shared.key.workers) × (0 < length seat.me.0.claims) }
        ensures { AtEnd S.state (of.race_base S.state self) self.table.shared.key.workers seat.me.0.claims result }
    {
        let Race { table, workers: _ } = self;
        let mut closed = table.close_with(seat);
        let shelf = closed.take(0);
        closed.free();
        shelf
    }

    /// Ends the race, with all its passes, and gives back the shelf.
    pub fn end(self, passes: Vec<Pass<S>>) -> S
        requires all { (length passes.items ≡ self.table.shared.key.workers) × (0 < length passes.items) }
        requires passes { All (of.IsPassOf self.table.shared.table_id) passes.items }
        ensures { Ended S.state (of.race_base S.state self) self.table.shared.key.workers (map of.claim_of passes.items) result }
    {
        let workers = self.workers;
        let seat = self.gather(passes);
        let mut shelf = self.close(seat);
        for worker in 0..workers {
            shelf.end(worker);
        }
        shelf
    }
}
