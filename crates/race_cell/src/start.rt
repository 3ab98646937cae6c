//! How a race begins.
ghost use Rattle.std.specs.Prelude.{◌≡◌, ◌<◌, ◌≤◌, [], map, All, IfOk, IfErr, vec_len, vec_capacity};
ghost use Rattle.race_cell.specs.Rules.{alone, fresh, fresh_from, with_claims, opening_view};
ghost use Rattle.race_model.specs.Shelves.{Begins, KeepsClauses};
ghost use Rattle.race_cell.specs.Passes as of;

use crate::race::{Pass, Place, Race};
use crate::rule::{Head, Opening};
use atomic_table::{Refused, Table};
use race_model::Shelf;
use std::alloc::Global;
use std::snapshot::Snapshot;

fn pass_of<S: Shelf>(seat: Place<S>, worker: u8) -> Pass<S>
    requires { seat.me ≡ (alone seat.me.0.base (fresh worker), []) }
    ensures { (result.seat ≡ seat) × (result.worker ≡ worker) }
{
    Pass {
        seat,
        worker,
        mark: 0,
    }
}

impl<S: Shelf + Drop> Race<S> {
    // The table, with one seat for all workers.
    fn lay(alloc: Global, mut shelf: S, workers: u8) -> Result<(Race<S>, Place<S>), S>
        ensures ok { IfOk result (λ r. (r.1.table_id ≡ r.0.table.shared.table_id) × (r.1.me ≡ (opening_view r.0.table.shared.key.shelf.value workers, [])) × Begins workers (S.state shelf) (of.race_base S.state r.0) × (r.0.table.shared.key.workers ≡ workers)) }
        ensures err { IfErr result (λ s. KeepsClauses (S.state shelf) (S.state s)) }
    {
        let Ok(()) = shelf.begin(workers) else {
            return Err(shelf);
        };
        let Ok(mut slots) = Vec::with_capacity(alloc, 1) else {
            return Err(shelf);
        };
        let about = Opening {
            shelf: Snapshot::of(&shelf),
            workers,
        };
        slots.push_reserved(shelf);
        match Table::new(alloc, &[0, 0, 0], slots, &about) {
            Ok((table, seat)) => Ok((Race { table, workers }, seat)),
            Err(Refused { mut slots }) => match slots.pop() {
                Some(shelf) => Err(shelf),
                None => unreachable!(),
            },
        }
    }

    // A pass for each worker. The last one takes over the seat.
    fn deal(&self, mut seat: Place<S>, passes: &mut Vec<Pass<S>>, workers: u8)
        requires seat { (seat.table_id ≡ self.now.table.shared.table_id) × (seat.me ≡ (with_claims seat.me.0.base (fresh_from 0 workers), [])) }
        requires workers { 0 < workers }
        requires room { (vec_len passes.old ≡ 0) × (workers ≤ vec_capacity passes.old) }
        ensures claims { map of.claim_of passes.new.items ≡ fresh_from 0 workers }
        ensures all { All (of.IsIn seat.table_id seat.me.0.base) passes.new.items }
    {
        for worker in 0..workers - 1 {
            let right = self.table.shared.split_seat::<Head>(&mut seat);
            passes.push_reserved(pass_of(right, worker));
        }
        passes.push_reserved(pass_of(seat, workers - 1));
    }

    /// A race of so many workers over the shelf, with a pass for each. Where there is no memory, the shelf comes back.
    pub fn start(alloc: Global, shelf: S, workers: u8) -> Result<(Race<S>, Vec<Pass<S>>), S>
        requires { 0 < workers }
        ensures claims { IfOk result (λ r. map of.claim_of r.1.items ≡ fresh_from 0 workers) }
        ensures race { IfOk result (λ r. All (of.IsOf S.state r.0.table.shared.table_id (of.race_base S.state r.0)) r.1.items × Begins workers (S.state shelf) (of.race_base S.state r.0) × (r.0.table.shared.key.workers ≡ workers)) }
        ensures err { IfErr result (λ s. KeepsClauses (S.state shelf) (S.state s)) }
    {
        let Ok(mut passes) = Vec::with_capacity(alloc, workers as usize) else {
            return Err(shelf);
        };
        match Race::lay(alloc, shelf, workers) {
            Ok((race, seat)) => {
                race.deal(seat, &mut passes, workers);
                Ok((race, passes))
            }
            Err(shelf) => Err(shelf),
        }
    }
}
