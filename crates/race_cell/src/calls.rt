//! What a pass can do. Nothing waits.
ghost use Rattle.std.specs.Prelude.{◌≡◌};
ghost use Rattle.race_model.specs.Laws.{IsSound};
ghost use Rattle.race_cell.specs.Calls.{ShareTells, BatchTells, RaceTells, AskTells};
ghost use Rattle.race_cell.specs.Passes.{HoldsNoSlot, IsSamePass, base_of, claim_of};

use crate::answer::{Batch, Raced, Sharing};
use crate::race::{Pass, Race};
use race_model::Shelf;
use smt_meaning::Clause;

impl<S: Shelf> Race<S> {
    /// Shares a clause that follows from the levels on which the race began, in one try. After it the pass has no shelf out, whatever it answers.
    pub fn share(&self, pass: &mut Pass<S>, clause: Clause) -> Sharing
        requires race { pass.old.seat.table_id ≡ self.now.table.shared.table_id }
        requires follows { IsSound (base_of S.state pass.old).base clause }
        ensures same { IsSamePass pass.old pass.new }
        ensures slot { HoldsNoSlot pass.new }
        ensures tells { ShareTells (base_of S.state pass.old) (claim_of pass.old) clause result (claim_of pass.new) }
    {
        self.share_at(&mut pass.seat, pass.worker, clause)
    }

    /// Takes the entries from the pass's mark on, in one try. After it the pass has no shelf out, whatever it answers. What it gives follows from the levels on which the race began.
    pub fn take_batch(&self, pass: &mut Pass<S>) -> Batch
        requires { pass.old.seat.table_id ≡ self.now.table.shared.table_id }
        ensures same { IsSamePass pass.old pass.new }
        ensures slot { HoldsNoSlot pass.new }
        ensures tells { BatchTells (base_of S.state pass.old) (claim_of pass.old) result (claim_of pass.new) }
    {
        self.batch_at(&mut pass.seat, &mut pass.mark)
    }

    /// Wins where nobody has won.
    pub fn win(&self, pass: &mut Pass<S>) -> Raced
        requires { pass.old.seat.table_id ≡ self.now.table.shared.table_id }
        ensures same { IsSamePass pass.old pass.new }
        ensures tells { RaceTells (claim_of pass.old) result (claim_of pass.new) }
    {
        self.race_at(&mut pass.seat, pass.worker)
    }

    /// The worker that has won.
    pub fn winner_seen(&self, pass: &mut Pass<S>) -> Option<u8>
        requires { pass.old.seat.table_id ≡ self.now.table.shared.table_id }
        ensures same { IsSamePass pass.old pass.new }
        ensures tells { AskTells (claim_of pass.old) result (claim_of pass.new) }
    {
        self.ask_at(&mut pass.seat)
    }
}
