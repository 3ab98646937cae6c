//! Marks that are all taken off at once.
ghost use Rattle.std.specs.Prelude.{◌≡◌, ◌<◌, ◌≤◌, ℕ, [], false, true, length, slice_index_or, slice_set, OnOk};
ghost use Rattle.point_closure.specs.Marks.{AreOff, AreUpTo, AreEarlier, marks_of};

use std::alloc::{AllocError, Global};
use std::marker::Model;

/// Marks in a list that is kept from round to round: those of this round carry its number.
#[derive(Drop)]
pub struct Marks {
    round: u32,
    rounds: Vec<u32>,
}

impl Model for Marks {
    ghost use Rattle.std.specs.Prelude.{Bool, List};
    ghost use Rattle.point_closure.specs.Marks.{AreUpTo, marks_of};

    ghost Value = { List Bool };

    ghost view = { λ m. marks_of m.round m.rounds.items };

    ghost invariant = { λ m. AreUpTo m.round m.rounds.items };
}

/// The number of the next round, which no mark carries.
fn next_round(round: u32, rounds: &mut Vec<u32>) -> u32
    requires { AreUpTo round rounds.old.items }
    ensures some { 0 < result }
    ensures earlier { AreEarlier result rounds.new.items }
{
    if round < u32::MAX {
        return round + 1;
    }
    rounds.clear();
    1
}

/// Makes a list so long at least, by marks of no round.
fn lengthen(rounds: &mut Vec<u32>, count: usize) -> Result<(), AllocError>
    ensures count { OnOk result (count ≤ length rounds.new.items) }
    ensures earlier { (round : ℕ) → 0 < round → AreEarlier round rounds.old.items → AreEarlier round rounds.new.items }
{
    if count <= rounds.len() {
        return Ok(());
    }
    rounds.resize(count, 0)
}

impl Marks {
    /// No mark. It takes no memory.
    pub fn new(alloc: Global) -> Self
        ensures { result ≡ [] }
    {
        Marks {
            round: 0,
            rounds: Vec::new(alloc),
        }
    }

    /// Takes all marks off; there is room for so many at least. An `Err` is for want of memory.
    pub fn clear(&mut self, count: usize) -> Result<(), AllocError>
        ensures off { AreOff self.new }
        ensures count { OnOk result (count ≤ length self.new) }
    {
        self.round = next_round(self.round, &mut self.rounds);
        lengthen(&mut self.rounds, count)
    }

    pub fn is_set(&self, index: usize) -> bool
        requires { index < length self.now }
        ensures { result ≡ slice_index_or self.now index false }
    {
        self.rounds[index] == self.round
    }

    pub fn set(&mut self, index: usize)
        requires { index < length self.old }
        ensures { self.new ≡ slice_set self.old index true }
    {
        self.rounds[index] = self.round;
    }
}
