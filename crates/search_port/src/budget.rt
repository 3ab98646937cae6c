//! Units of work, and how many of them a check may spend.
ghost use Rattle.std.specs.Prelude.{◌≡◌, ℕ, ◌+◌, ◌<◌, ◌≤◌, min, true, false, List, [], ◌∷◌, ◌++◌, length, IfOk, OnOk, OnErr};
ghost use Rattle.search_port.specs.Spending.{Spending};
ghost use Rattle.search_port.specs.Pivots.{EndsOtherwise};

use fraction128::Line;
use literals::Literal;
use smt_meaning::Seq;
use std::alloc::{AllocError, Global};
use std::marker::Model;

/// A clause over numbered atoms, with the level at which it stands.
#[derive(Drop)]
pub struct Lemma {
    pub literals: Seq<Literal>,
    pub level: u16,
}

impl Lemma {
    /// A clause of its own with the same literals and level. An `Err` is for want of memory.
    pub fn copy(&self, alloc: Global) -> Result<Lemma, AllocError>
        ensures { IfOk result (λ c. c ≡ self.now) }
    {
        let literals = self.literals.as_slice().to_vec(alloc)?;
        Ok(Lemma {
            literals: Seq::from_vec(literals),
            level: self.level,
        })
    }
}

/// A unit of work that was spent.
#[derive(Drop)]
pub enum Spent {
    /// A clause that was learnt and wasn't kept before.
    Learnt(Lemma),
    /// An atom that wasn't numbered before, by its number.
    Numbered(u32),
    /// A pivot, by its line.
    Pivot(Line),
}

/// Why a search ended without an answer.
#[derive(Drop)]
pub enum Cause {
    /// The units that it may spend are spent.
    Units,
    /// Memory is wanting.
    Memory,
    /// The worker with this number has answered.
    Cancelled(u8),
}

/// The units that a check has spent, how many it may spend in all, and how many may be spent when the call that it is lent to returns.
#[derive(Drop)]
pub struct Budget {
    units: Vec<Spent>,
    limit: u64,
    bound: u64,
    counts_learnt: bool,
    keeps_lines: bool,
    share: u8,
    short: Vec<Lemma>,
}

impl Model for Budget {
    ghost use Rattle.std.specs.Prelude.{length};
    ghost use Rattle.search_port.specs.Spending.{Spending, IsWithin};

    ghost Value = { Spending };

    ghost view = { λ b. record {
      units = b.units.items;
      limit = b.limit;
      bound = b.bound;
      counts_learnt = b.counts_learnt;
      keeps_lines = b.keeps_lines;
      share = b.share;
      short = b.short.items;
    } };

    ghost invariant = { λ b. IsWithin (length b.units.items) b.bound b.limit };
}

impl Budget {
    /// No unit is spent of so many, and all may be spent. It takes no memory.
    pub fn new(alloc: Global, limit: u64, counts_learnt: bool, keeps_lines: bool, share: u8) -> Self
        ensures { result ≡ record { units = []; limit = limit; bound = limit; counts_learnt = counts_learnt; keeps_lines = keeps_lines; share = share; short = [] } }
    {
        Budget {
            units: Vec::new(alloc),
            limit,
            bound: limit,
            counts_learnt,
            keeps_lines,
            share,
            short: Vec::new(alloc),
        }
    }

    /// The units that were spent, oldest first.
    pub fn units(&self) -> &[Spent]
        ensures { result.now ≡ self.now.units }
    {
        &self.units
    }

    /// The units that were spent, oldest first, taken out.
    pub fn into_units(self) -> Vec<Spent>
        ensures { result.items ≡ self.units }
    {
        let Budget { units, .. } = self;
        units
    }

    /// The learnt clauses to share, oldest first.
    pub fn short(&self) -> &[Lemma]
        ensures { result.now ≡ self.now.short }
    {
        &self.short
    }

    /// How many units may be spent in the check.
    pub fn limit(&self) -> u64
        ensures { result ≡ self.now.limit }
    {
        self.limit
    }

    /// Whether the line of each pivot is kept.
    pub fn keeps_lines(&self) -> bool
        ensures { result ≡ self.now.keeps_lines }
    {
        self.keeps_lines
    }

    /// How many units may still be spent in the check.
    pub fn left(&self) -> u64
        ensures { length self.now.units + result ≡ self.now.limit }
    {
        self.limit - self.units.len() as u64
    }

    /// How many units the call that it is lent to may still spend.
    pub fn room(&self) -> u64
        ensures { length self.now.units + result ≡ self.now.bound }
    {
        self.bound - self.units.len() as u64
    }

    /// Whether learnt clauses count as units.
    pub fn counts_learnt(&self) -> bool
        ensures { result ≡ self.now.counts_learnt }
    {
        self.counts_learnt
    }

    /// Whether the unit spent last is a pivot.
    pub fn ends_with_pivot(&self) -> bool
        ensures yes { result ≡ true → EndsOtherwise self.now.units → ⊥ }
        ensures no { result ≡ false → EndsOtherwise self.now.units }
    {
        let count = self.units.len();
        if count == 0 {
            return false;
        }
        match &self.units[count - 1] {
            Spent::Pivot(_) => true,
            _ => false,
        }
    }

    /// The most literals of a learnt clause that is shared.
    pub fn share(&self) -> u8
        ensures { result ≡ self.now.share }
    {
        self.share
    }

    /// Leaves room for one unit, or for none at the limit.
    pub fn lend_one(&mut self)
        ensures lent { self.new ≡ record self.old { bound = min self.old.limit (length self.old.units + 1) } }
        ensures within { length self.old.units ≤ self.old.limit }
    {
        let spent = self.units.len() as u64;
        self.bound = if spent < self.limit {
            spent + 1
        } else {
            self.limit
        };
    }

    /// Leaves room for all that is left.
    pub fn lend_all(&mut self)
        ensures lent { self.new ≡ record self.old { bound = self.old.limit } }
        ensures within { length self.old.units ≤ self.old.limit }
    {
        self.bound = self.limit;
    }

    /// Spends a unit. An `Err`, for want of memory, changes nothing.
    pub fn spend(&mut self, unit: Spent) -> Result<(), AllocError>
        requires { length self.old.units < self.old.bound }
        ensures spent { OnOk result (self.new ≡ record self.old { units = self.old.units ++ unit ∷ [] }) }
        ensures same { OnErr result (self.new ≡ self.old) }
    {
        self.units.push(unit)?;
        Ok(())
    }

    /// Spends a unit, and keeps a learnt clause for sharing. An `Err`, for want of memory, changes nothing.
    pub fn spend_and_keep(&mut self, unit: Spent, clause: Lemma) -> Result<(), AllocError>
        requires { length self.old.units < self.old.bound }
        ensures spent { OnOk result (self.new ≡ record self.old { units = self.old.units ++ unit ∷ []; short = self.old.short ++ clause ∷ [] }) }
        ensures same { OnErr result (self.new ≡ self.old) }
    {
        self.units.reserve(1)?;
        self.short.push(clause)?;
        self.units.push(unit)?;
        Ok(())
    }

    /// Keeps a learnt clause for sharing. An `Err`, for want of memory, changes nothing.
    pub fn keep_short(&mut self, clause: Lemma) -> Result<(), AllocError>
        ensures kept { OnOk result (self.new ≡ record self.old { short = self.old.short ++ clause ∷ [] }) }
        ensures same { OnErr result (self.new ≡ self.old) }
    {
        self.short.push(clause)?;
        Ok(())
    }
}
