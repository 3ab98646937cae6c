//! The race of workers over one stack as a pure machine: its state, its events and their steps, and
//! the law over every order of them. The program runs no `RaceState`: the contract of `race_cell`
//! says that its history is one of these races.
//!
//! `RaceState::step`: does exactly what the event says, or answers false and changes nothing,
//! exactly where a condition of the event that can be tested doesn't hold.
//!
//! What can't be tested (that a learnt clause is true wherever its premises are, with symbols of
//! its levels; that an assertion is a Bool term with this tree and these names) the caller owes.
//!
//! Laws: the first state is sound; each step, each race in any order of its events, and the
//! beginning of a next race keep it sound.
//!
//! Where declarations are global, level 0 gains those of an assertion's event, and the newest level
//! the names and the assertion.
//!
//! So over every run an entry or own clause follows from levels that still stand, at or below its
//! own, each mark is at most the number of entries, and no popped assertion supports a later
//! answer. An empty own clause shows that the levels up to its own have no model.
#![tactic(auto)]

mod clause;
mod event;
mod laws;
mod levels;
mod shelf;
mod state;

pub use clause::{copy_clause, has_clause, is_same_clause};
pub use event::{Addition, Entry, Event, Formula, Premise};
pub use laws::{
    empty_own_clause_refutes, every_run_is_sound, first_state_is_sound, next_race_begins_sound,
    race_keeps_sound, sound_after_assert, sound_after_cut, sound_after_declared, sound_after_push,
    sound_with_trees, step_keeps_sound,
};
pub use levels::{Level, Levels};
pub use shelf::{Framed, Shelf, Told};
pub use state::{RaceState, Worker};
