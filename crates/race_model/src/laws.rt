//! Laws of races, each as the contract of a function that does nothing.
ghost use Rattle.race_model.specs.Laws.{EmptyOwnClauseRefutes, EveryRunIsSound, FirstStateIsSound, NextRaceBeginsSound, RaceKeepsSound, SoundAfterAssert, SoundAfterCut, SoundAfterDeclared, SoundAfterPush, SoundWithTrees, StepKeepsSound};

use smt_laws::{
    empty_clause_shows_no_model, still_follows_above, still_follows_after_declared,
    still_follows_after_more, still_follows_after_pop, still_follows_after_push,
    still_follows_with_trees,
};

/// A clause that follows at its level still does after a push.
pub fn sound_after_push()
    ensures { SoundAfterPush }
{
    still_follows_after_push();
}

/// A clause that follows at its level still does after declarations and assertions.
pub fn sound_after_assert()
    ensures { SoundAfterAssert }
{
    still_follows_after_more();
}

/// A clause that follows at its level still does after declarations, also where they are global and level 0 gains them.
pub fn sound_after_declared()
    ensures { SoundAfterDeclared }
{
    still_follows_after_declared();
}

/// A clause that follows at its level still does where that level stays.
pub fn sound_after_cut()
    ensures { SoundAfterCut }
{
    still_follows_after_pop();
}

/// A clause that follows at its level still does where the list of trees goes on.
pub fn sound_with_trees()
    ensures { SoundWithTrees }
{
    still_follows_with_trees();
}

/// The first state of a run is sound.
pub fn first_state_is_sound()
    ensures { FirstStateIsSound }
{}

/// Each event of a race keeps the state sound.
pub fn step_keeps_sound()
    ensures { StepKeepsSound }
{
    still_follows_after_push();
    still_follows_after_declared();
    still_follows_after_more();
    still_follows_after_pop();
    still_follows_above();
}

/// Each race, in whatever order its events come, keeps the state sound.
pub fn race_keeps_sound()
    ensures { RaceKeepsSound }
{
    step_keeps_sound();
}

/// A next race begins in a sound state.
pub fn next_race_begins_sound()
    ensures { NextRaceBeginsSound }
{
    still_follows_with_trees();
}

/// Over every run an entry or an own clause follows from levels that still stand, at or below its own: no assertion that was popped supports a later answer.
pub fn every_run_is_sound()
    ensures { EveryRunIsSound }
{
    first_state_is_sound();
    race_keeps_sound();
    next_race_begins_sound();
}

/// An empty own clause shows that the levels up to its own have no model.
pub fn empty_own_clause_refutes()
    ensures { EmptyOwnClauseRefutes }
{
    empty_clause_shows_no_model();
}
