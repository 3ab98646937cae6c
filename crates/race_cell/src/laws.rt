//! Laws of races, each as the contract of a function that does nothing.
ghost use Rattle.race_cell.specs.Laws.{FreshAreInOrder, WinnerHasWon};

use race_model::Shelf;

/// The winner that a worker found has won, by its own claim.
pub fn winner_has_won<S: Shelf>()
    ensures { WinnerHasWon S.state }
{}

/// The claims at the start are in the order of their workers.
pub fn fresh_are_in_order()
    ensures { FreshAreInOrder }
{}
