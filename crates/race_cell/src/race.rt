//! The race and its passes.
//!
//! Why: the count of shares and batches goes round at 2^64; the contracts speak of the history, not
//! of the word.
ghost use Rattle.std.specs.Prelude.{◌≡◌};
ghost use Rattle.race_cell.specs.Rules.{claim};
ghost use Rattle.race_cell.specs.Calls.{mark_of, IsAlone};

use crate::rule::{Law, Opening};
use crate::view::View;
use atomic_table::{Seat, Table};
use race_model::Shelf;
use std::alloc::Global;

/// A race of some workers over one shelf.
#[derive(Drop)]
pub struct Race<S: Shelf> {
    pub table: Table<S, View<S>, Opening<S>, Law, Global>,
    pub(crate) workers: u8,
    ghost counts: { (table.shared.table_id.words ≡ 3) × (table.shared.table_id.slots ≡ 1) },
    ghost crew: { workers ≡ table.shared.key.workers },
}

pub type Place<S> = Seat<S, View<S>>;

/// A worker's right to take part in a race, and how many entries it has read.
#[derive(Drop)]
pub struct Pass<S: Shelf> {
    pub seat: Place<S>,
    pub worker: u8,
    pub(crate) mark: u64,
    ghost alone: { IsAlone seat.me },
    ghost number: { worker ≡ (claim seat.me.0).worker },
    ghost marked: { mark ≡ mark_of S.state seat.me.0 },
}
