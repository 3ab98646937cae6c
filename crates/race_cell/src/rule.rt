//! The rule of the table, and what each step tells.
use crate::view::View;
use atomic_table::{Join, Play, Split, TableRule};
use race_model::Shelf;
use std::snapshot::Snapshot;

/// The shelf as the race begins, and the number of workers.
#[derive(Drop)]
pub struct Opening<S> {
    pub shelf: Snapshot<S>,
    pub workers: u8,
}

pub struct Law;

impl<S: Shelf> TableRule<S, View<S>, Opening<S>> for Law {
    ghost use Rattle.race_cell.specs.Rules.{Kept, opening_view};

    ghost holds = { λ k. Kept S.state (S.state k.shelf.value) k.workers };

    ghost first = { λ k. opening_view k.shelf.value k.workers };
}

pub struct Head;

impl<S> Split<View<S>> for Head {
    ghost use Rattle.race_cell.specs.Rules.{without_head, with_head};

    ghost left = { without_head };

    ghost right = { with_head };
}

pub struct Both;

impl<S> Join<View<S>> for Both {
    ghost use Rattle.race_cell.specs.Rules.{joined, spent_view};

    ghost both = { joined };

    ghost spent = { spent_view };
}

/// TURN from 0 to 1, in one try.
pub struct Take;

impl<S: Shelf> Play<S, View<S>> for Take {
    ghost use Rattle.race_cell.specs.Rules.{taken};

    ghost then = { taken S.state };
}

/// TURN to 0.
pub struct Give;

impl<S: Shelf> Play<S, View<S>> for Give {
    ghost use Rattle.race_cell.specs.Rules.{given};

    ghost then = { given };
}

/// TURN to 0, with the shelf as it was.
pub struct GiveBack;

impl<S: Shelf> Play<S, View<S>> for GiveBack {
    ghost use Rattle.race_cell.specs.Rules.{given_back};

    ghost then = { given_back };
}

/// LENGTH up by one, for a share.
pub struct EnterShare;

impl<S: Shelf> Play<S, View<S>> for EnterShare {
    ghost use Rattle.race_cell.specs.Rules.{entered_share};

    ghost then = { entered_share S.state };
}

/// LENGTH up by one, for a batch.
pub struct EnterBatch;

impl<S: Shelf> Play<S, View<S>> for EnterBatch {
    ghost use Rattle.race_cell.specs.Rules.{entered_batch};

    ghost then = { entered_batch };
}

/// WINNER from 0, in one try.
pub struct Win;

impl<S: Shelf> Play<S, View<S>> for Win {
    ghost use Rattle.race_cell.specs.Rules.{raced};

    ghost then = { raced };
}

/// A load of WINNER.
pub struct Ask;

impl<S: Shelf> Play<S, View<S>> for Ask {
    ghost use Rattle.race_cell.specs.Rules.{asked};

    ghost then = { asked };
}
