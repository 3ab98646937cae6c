//! The variables that may be outside their bounds.
//!
//! A check comes after a bound or two, so most values are as an earlier check left them: within
//! their bounds. Looking at each variable and each row would make every check as dear as the grid is
//! wide. So a list is kept of the suspects: a variable comes on it where its bound is set or its
//! value changes, and goes where it is found within its bounds. What isn't listed is within bounds
//! that don't cross (`Covers`); taking a bound back only loosens, and keeps that.
//!
//! Variables are listed before their values change, and while they change none leaves. So a step for
//! which memory is wanting leaves a list that covers the columns as they were.
ghost use Rattle.std.specs.Prelude.{◌≡◌, ℕ, ◌+◌, ◌-◌, ◌<◌, ◌≤◌, false, [], length, slice_index_or, OnOk, OnErr};
ghost use Rattle.fraction128.specs.Grid.{any_crossed};
ghost use Rattle.simplex_steps.specs.Suspects.{Adds, Removes, Covers, AreListed};

use crate::bounds::is_outside;
use crate::moves::Moved;
use fraction128::Column;
use std::alloc::{AllocError, Global};
use std::marker::Model;

/// Variables that may be outside their bounds, in any order, each once.
#[derive(Drop)]
pub struct Suspects {
    flags: Vec<bool>,
    list: Vec<u32>,
}

impl Model for Suspects {
    ghost use Rattle.simplex_steps.specs.Suspects.{Listing};

    ghost Value = { Listing };

    ghost use Rattle.std.specs.Prelude.{length};
    ghost use Rattle.simplex_steps.specs.Suspects.{AreFlagged};

    ghost view = { λ s. record { count = length s.flags.items; variables = s.list.items } };

    ghost invariant = { λ s. AreFlagged s.flags.items s.list.items };
}

impl Suspects {
    ghost use Rattle.simplex_steps.specs.Suspects.{Listing};

    /// No variable. It takes no memory.
    pub fn new(alloc: Global) -> Self
        ensures { result ≡ record { count = 0; variables = [] } }
    {
        Suspects {
            flags: Vec::new(alloc),
            list: Vec::new(alloc),
        }
    }

    /// One more variable, past the others, which isn't listed. An `Err`, for want of memory, changes nothing.
    pub fn add_variable(&mut self) -> Result<(), AllocError>
        ensures ok { OnOk result (self.new ≡ record { count = self.old.count + 1; variables = self.old.variables }) }
        ensures err { OnErr result (self.new ≡ self.old) }
    {
        self.flags.push(false)?;
        Ok(())
    }

    /// Lists a variable, if it isn't. An `Err`, for want of memory, changes nothing.
    pub fn add(&mut self, variable: u32) -> Result<(), AllocError>
        requires { variable < self.old.count }
        ensures ok { OnOk result (Adds variable self.old self.new) }
        ensures err { OnErr result (self.new ≡ self.old) }
    {
        if !self.flags[variable as usize] {
            self.list.push(variable)?;
            self.flags[variable as usize] = true;
        }
        Ok(())
    }

    /// The variables listed.
    pub(crate) fn variables(&self) -> &[u32]
        ensures { result.now ≡ self.now.variables }
    {
        &self.list
    }

    /// Lets go of the variable at a place.
    fn remove(&mut self, place: usize)
        requires place { place < length self.old.variables }
        requires known { slice_index_or self.old.variables place 0 < self.old.count }
        ensures { Removes (slice_index_or self.old.variables place 0) self.old self.new }
    {
        let variable = self.list.swap_remove(place);
        self.flags[variable as usize] = false;
    }
}

/// Lets go of the suspect at a place, if it is within its bounds, where none cross. The place of the next one that wasn't looked at.
fn sift_at(suspects: &mut Suspects, columns: &[Column], place: usize) -> usize
    requires uncrossed { any_crossed columns.now ≡ false }
    requires covers { Covers suspects.old columns.now }
    requires place { place < length suspects.old.variables }
    ensures covers { Covers suspects.new columns.now }
    ensures fewer { length suspects.new.variables - result < length suspects.old.variables - place }
{
    let variable = suspects.variables()[place];
    if is_outside(&columns[variable as usize]) {
        return place + 1;
    }
    suspects.remove(place);
    place
}

/// Lets go of the suspects that are within their bounds, where none cross.
pub(crate) fn sift(suspects: &mut Suspects, columns: &[Column])
    requires uncrossed { any_crossed columns.now ≡ false }
    requires covers { Covers suspects.old columns.now }
    ensures { Covers suspects.new columns.now }
{
    let mut place = 0;
    while place < suspects.variables().len() {
        place = sift_at(suspects, columns, place);
    }
}

/// Lists two variables, and those whose values change.
pub(crate) fn suspect(
    suspects: &mut Suspects,
    columns: &[Column],
    moved: &[Moved],
    one: u32,
    other: u32,
) -> Result<(), AllocError>
    requires covers { Covers suspects.old columns.now }
    requires one { one < length columns.now }
    requires other { other < length columns.now }
    requires moved { (k : ℕ) (d : Moved) → k < length moved.now → (slice_index_or moved.now k d).variable < length columns.now }
    ensures covers { Covers suspects.new columns.now }
    ensures listed { OnOk result (AreListed suspects.new.variables moved.now one other) }
{
    suspects.add(one)?;
    suspects.add(other)?;
    for change in moved {
        suspects.add(change.variable)?;
    }
    Ok(())
}
