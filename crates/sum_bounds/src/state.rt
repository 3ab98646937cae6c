//! The state, and the calls on it.
ghost use Rattle.std.specs.Prelude.{◌≡◌, ℕ, ◌+◌, ◌-◌, ◌^◌, ◌<◌, ◌≤◌, ◌⊎◌, ◌↔◌, IsTrue, true, false, [], ◌∷◌, ◌++◌, map, take, length, All, OnOk, OnErr, IfOk, IfErr, IfSome, IfNone, None};
ghost use Rattle.fraction128.specs.Whole.{InRange};
ghost use Rattle.fraction128.specs.Grid.{column_of, is_basic, leaf, turned};
ghost use Rattle.fraction128.specs.Lines.{line_of};
ghost use Rattle.tableau.specs.Failing.{IsRange};
ghost use Rattle.simplex_steps.specs.State.{column_in, grid_of, values};
ghost use Rattle.simplex_steps.specs.Run.{IsSearch};
ghost use Rattle.simplex.specs.State.{IsState as IsSimplex, KeepsValues};
ghost use Rattle.simplex.specs.Sums.{HaveOwnSums};
ghost use Rattle.sum_bounds.specs.Bounds.{sums, leaf_values, sum_hashes, told_of, told_bound, MeetsSide, IsPastEnd, IsSum, StandsFor, with_leaf, with_sum, sum_fits, Judges, SpendsRoom, IsFirstIn, AreWhole, IsState};
ghost use Rattle.sum_bounds.specs.Written.{HasLeaf};
ghost use Rattle.sum_bounds.specs.Wholes.{IsWholeConflict};
ghost use Rattle.sum_bounds.specs.Kept.{IsGrownByLeaf, IsGrownBySum};
ghost use Rattle.sum_bounds.specs.Bases.{AddsBases};
ghost use Rattle.sum_bounds.specs.Origins.{IsOfTold};

use crate::finding::{Checked, Finding, finding_of};
use crate::fractions::{FractionalLeaf, first_fraction};
use crate::lookup::{find, hash_of};
use crate::reach::reach;
use crate::splits::split_conflict;
use crate::spread::spread;
use crate::told::{is_met, number_of, side_of, tag_of};
use crate::wholes::whole_conflict;
use crate::writing::{SumVariable, first_is_negative, parts_of, turned_sum};
use fraction128::{Fraction, Grid, Line, Sum, Summand};
use literals::Literal;
use simplex::{PivotLines, Set, Simplex};
use std::alloc::{AllocError, Global};
use std::marker::Model;
use tableau::Failure;
use term_store::HashIndex;

/// Adds a variable for a term. An `Err` changes nothing.
fn add_leaf(
    simplex: &mut Simplex,
    keys: &mut HashIndex,
    alloc: Global,
    term: u32,
    count: u32,
) -> Result<(), AllocError>
    requires keys { keys.old ≡ sum_hashes simplex.old.columns }
    requires count { count ≡ length simplex.old.columns }
    requires room { count < 2 ^ 32 - 1 }
    ensures ok { OnOk result (IsGrownByLeaf simplex.old simplex.new keys.new term) }
    ensures err { OnErr result ((simplex.new ≡ simplex.old) × (keys.new ≡ keys.old)) }
{
    simplex.facts();
    let alone = [Summand {
        coefficient: 1,
        term,
    }];
    keys.push(hash_of(&alone))?;
    match simplex.add_leaf(alloc, term) {
        Ok(_) => Ok(()),
        Err(error) => {
            keys.truncate(count as usize);
            Err(error)
        }
    }
}

/// Adds a variable for a sum. An `Err` changes nothing.
fn add_sum(
    simplex: &mut Simplex,
    keys: &mut HashIndex,
    alloc: Global,
    sum: Sum,
    count: u32,
) -> Result<(), Failure>
    requires keys { keys.old ≡ sum_hashes simplex.old.columns }
    requires count { count ≡ length simplex.old.columns }
    requires room { count < 2 ^ 32 - 1 }
    requires apart { HaveOwnSums simplex.old.columns }
    requires sum { IsSum simplex.old.columns sum }
    ensures ok { OnOk result (IsGrownBySum simplex.old simplex.new keys.new sum) }
    ensures range { IfErr result (λ e. IsRange e → sum_fits simplex.old.table simplex.old.columns sum ≡ false) }
    ensures err { OnErr result ((simplex.new ≡ simplex.old) × (keys.new ≡ keys.old)) }
{
    simplex.facts();
    let parts = parts_of(alloc, simplex, keys, sum.as_slice())?;
    keys.push(hash_of(sum.as_slice()))?;
    match simplex.add_row(alloc, sum, &parts) {
        Ok(_) => Ok(()),
        Err(failure) => {
            keys.truncate(count as usize);
            Err(failure)
        }
    }
}

/// Whether the values still meet all bounds after one more.
fn stays_clean(simplex: &Simplex, is_clean: bool, set: Set) -> bool
    requires { set.variable < length simplex.now.columns }
    ensures clean { result ≡ true → is_clean ≡ true }
    ensures met { result ≡ true → MeetsSide set.side set.number (values simplex.now.columns set.variable) }
{
    if !is_clean {
        return false;
    }
    is_met(simplex.column(set.variable).value, set.side, set.number)
}

/// Variables for sums of terms, and bounds on them that are told and taken back.
#[derive(Drop)]
pub struct SumBounds {
    simplex: Simplex,
    keys: HashIndex,
    count: u32,
    is_clean: bool,
}

impl Model for SumBounds {
    ghost use Rattle.sum_bounds.specs.Bounds.{State};

    ghost Value = { State };

    ghost use Rattle.std.specs.Prelude.{map};
    ghost use Rattle.sum_bounds.specs.Bounds.{told_of, IsCore};

    ghost view = { λ s. record { table = s.simplex.table; columns = s.simplex.columns; told = map told_of s.simplex.bounds } };

    ghost invariant = { λ s. IsCore s.simplex s.keys s.count s.is_clean };
}

impl SumBounds {
    ghost use Rattle.sum_bounds.specs.Bounds.{State};

    /// No variable, and no bound. It takes no memory.
    pub fn new(alloc: Global) -> Self
        ensures { result ≡ record { table = record { count = 0; rows = [] }; columns = []; told = [] } }
    {
        SumBounds {
            simplex: Simplex::new(alloc),
            keys: HashIndex::new(alloc),
            count: 0,
            is_clean: true,
        }
    }

    /// Tells what holds of each state.
    pub fn facts(&self)
        ensures { IsState self.now }
    {
        self.simplex.facts();
    }

    /// Tells where the bounds of variables come from.
    pub fn origins(&self)
        ensures { IsOfTold self.now }
    {
        self.simplex.facts();
    }

    /// How many variables there are.
    pub fn count(&self) -> u32
        ensures { result ≡ length self.now.columns }
    {
        self.count
    }

    /// Whether a term has a variable.
    pub fn has_leaf(&self, term: u32) -> bool
        ensures { IsTrue result ↔ HasLeaf self.now.columns term }
    {
        let alone = [Summand {
            coefficient: 1,
            term,
        }];
        match find(&self.simplex, &self.keys, &alone) {
            Some(_) => true,
            None => false,
        }
    }

    /// The value of a term's variable, if it has one.
    pub fn value(&self, term: u32) -> Option<Fraction>
        ensures some { IfSome result (λ v. v ≡ leaf_values self.now term) }
        ensures none { IfNone result (HasLeaf self.now.columns term → ⊥) }
    {
        let alone = [Summand {
            coefficient: 1,
            term,
        }];
        let variable = find(&self.simplex, &self.keys, &alone)?;
        Some(self.simplex.column(variable).value)
    }

    /// The value of a variable.
    pub(crate) fn value_at(&self, variable: u32) -> Fraction
        requires { variable < length self.now.columns }
    {
        self.simplex.column(variable).value
    }

    /// How many bounds are told.
    pub fn len(&self) -> usize
        ensures { result ≡ length self.now.told }
    {
        self.simplex.len()
    }

    /// The variable of a term: a new one, with the value 0, where it has none. An `Err`, for want of memory, changes nothing.
    pub fn leaf(&mut self, alloc: Global, term: u32) -> Result<u32, AllocError>
        requires { length self.old.columns < 2 ^ 32 - 1 }
        ensures known { IfOk result (λ i. i < length self.new.columns) }
        ensures sum { IfOk result (λ i. sums self.new i ≡ leaf term) }
        ensures same { OnOk result ((self.new ≡ self.old) ⊎ (self.new ≡ with_leaf self.old term)) }
        ensures bases { AddsBases self.old self.new }
        ensures err { OnErr result (self.new ≡ self.old) }
    {
        let alone = [Summand {
            coefficient: 1,
            term,
        }];
        if let Some(variable) = find(&self.simplex, &self.keys, &alone) {
            return Ok(variable);
        }
        self.simplex.facts();
        let variable = self.count;
        add_leaf(&mut self.simplex, &mut self.keys, alloc, term, variable)?;
        self.count += 1;
        Ok(variable)
    }

    /// The variable of a sum, or of its negation where its first coefficient is negative: a new one, with a row, where it has none. An `Err` changes nothing.
    pub fn sum(&mut self, alloc: Global, sum: &[Summand]) -> Result<SumVariable, Failure>
        requires sum { IsSum self.old.columns sum.now }
        requires room { length self.old.columns < 2 ^ 32 - 1 }
        ensures ok { IfOk result (StandsFor self.new sum.now) }
        ensures same { OnOk result ((self.new ≡ self.old) ⊎ (self.new ≡ with_sum self.old (turned sum.now))) }
        ensures bases { AddsBases self.old self.new }
        ensures range { IfErr result (λ e. IsRange e → sum_fits self.old.table self.old.columns (turned sum.now) ≡ false) }
        ensures lacks { IfErr result (λ e. IsRange e → column_of self.old.columns (turned sum.now) ≡ None) }
        ensures err { OnErr result (self.new ≡ self.old) }
    {
        let turned = first_is_negative(sum);
        let kept = turned_sum(alloc, sum)?;
        if let Some(variable) = find(&self.simplex, &self.keys, kept.as_slice()) {
            return Ok(SumVariable { variable, turned });
        }
        self.simplex.facts();
        let variable = self.count;
        add_sum(&mut self.simplex, &mut self.keys, alloc, kept, variable)?;
        self.count += 1;
        Ok(SumVariable { variable, turned })
    }

    /// Tells a bound: that a sum is at most the number where the literal is positive, else that it is at least the next number. Values stay; an `Err` changes nothing.
    pub fn assert(&mut self, literal: Literal, of: SumVariable, number: i128) -> Result<(), Failure>
        requires atom { literal.atom < 2 ^ 31 }
        requires known { of.variable < length self.old.columns }
        requires number { InRange number }
        ensures table { self.new.table ≡ self.old.table }
        ensures values { KeepsValues self.old.columns self.new.columns }
        ensures told { OnOk result (self.new.told ≡ self.old.told ++ told_bound literal of.variable of.turned number ∷ []) }
        ensures range { IfErr result (λ e. IsRange e → IsPastEnd literal number e) }
        ensures err { OnErr result (self.new ≡ self.old) }
    {
        let positive = literal.is_positive();
        let set = Set {
            variable: of.variable,
            side: side_of(positive, of.turned),
            number: number_of(positive, of.turned, number)?,
            tag: tag_of(literal),
        };
        let is_clean = stays_clean(&self.simplex, self.is_clean, set);
        self.simplex.set_bound(set)?;
        self.is_clean = is_clean;
        Ok(())
    }

    /// Tells a bound, its tag the literal that says it as one word. Values stay; an `Err`, for want of memory, changes nothing.
    pub(crate) fn set_bound(&mut self, set: Set) -> Result<(), AllocError>
        requires known { set.variable < length self.old.columns }
        requires number { InRange set.number }
        ensures table { self.new.table ≡ self.old.table }
        ensures values { KeepsValues self.old.columns self.new.columns }
        ensures told { OnOk result (self.new.told ≡ self.old.told ++ told_of set ∷ []) }
        ensures err { OnErr result (self.new ≡ self.old) }
    {
        let is_clean = stays_clean(&self.simplex, self.is_clean, set);
        self.simplex.set_bound(set)?;
        self.is_clean = is_clean;
        Ok(())
    }

    /// Takes back all bounds but the first ones, so many as the count says. Values stay, and no memory is taken.
    pub fn undo_to(&mut self, count: usize)
        ensures table { self.new.table ≡ self.old.table }
        ensures values { KeepsValues self.old.columns self.new.columns }
        ensures told { self.new.told ≡ take count self.old.told }
    {
        self.simplex.undo_to(count);
    }

    /// Moves values until the terms' values meet all bounds told, or finds bounds that no values meet, or a step that doesn't fit or is a pivot past the room. It does nothing where the last check found that all bounds are met, and those told since are met by the values too.
    pub fn check(&mut self, alloc: Global, kept: &mut PivotLines, room: u64) -> Checked
        ensures search { IsSearch room self.old.table self.old.columns kept.old self.new.table self.new.columns kept.new result.pivots }
        ensures told { self.new.told ≡ self.old.told }
        ensures judges { Judges self.new result.finding }
        ensures room { SpendsRoom room result.pivots result.finding }
    {
        self.simplex.facts();
        if self.is_clean {
            return Checked {
                finding: Finding::Fits,
                pivots: 0,
            };
        }
        let answer = self.simplex.check(alloc, kept, room);
        self.simplex.facts();
        let finding = finding_of(alloc, answer.verdict);
        self.is_clean = matches!(finding, Finding::Fits);
        Checked {
            finding,
            pivots: answer.pivots,
        }
    }

    /// What a check finds that takes no step, so that nothing changes. `None` where the next step is to move the value of a variable that isn't basic.
    pub fn look(&mut self, alloc: Global) -> Option<Finding>
        ensures same { self.new ≡ self.old }
        ensures judges { IfSome result (Judges self.old) }
    {
        self.simplex.facts();
        let verdict = self.simplex.look(alloc)?;
        Some(finding_of(alloc, verdict))
    }

    /// The rows and the variables, with their bounds and values, as a grid with nothing pending.
    pub fn grid(&self, alloc: Global) -> Result<Grid, AllocError>
        ensures { IfOk result (λ g. g ≡ grid_of self.now.table self.now.columns) }
    {
        self.simplex.grid(alloc)
    }

    /// The row of a basic variable as a line, in which no variable moves.
    pub fn line(&self, alloc: Global, variable: u32) -> Result<Line, AllocError>
        requires { is_basic self.now.table.rows variable ≡ true }
        ensures { IfOk result (λ l. l ≡ line_of (grid_of self.now.table self.now.columns) variable None) }
    {
        let place = self.simplex.tableau().place_of(variable).unwrap();
        self.simplex.line(alloc, place)
    }

    /// The least variable of a term whose value isn't whole.
    pub fn first_fraction(&self) -> Option<FractionalLeaf>
        ensures some { IfSome result (IsFirstIn self.now.columns) }
        ensures none { IfNone result (AreWhole self.now) }
    {
        first_fraction(&self.simplex, self.count)
    }

    /// Numbers by term, where the values are whole: those of the terms' variables, but moved within all bounds so that wanted terms have numbers of their own, which aren't taken, as far as that is found. This only guides a search: it promises nothing. An `Err` is for want of memory.
    pub fn spread(
        &self,
        alloc: Global,
        wanted: &[bool],
        taken: &[i128],
    ) -> Result<Option<Vec<i128>>, AllocError> {
        spread(alloc, &self.simplex, self.count, wanted, taken)
    }

    /// The most, or the least, that the bounds of the others in its row leave the sum of a variable. This only guides a search: it promises nothing.
    pub fn reach(&self, of: SumVariable, rises: bool) -> Option<Fraction> {
        if of.turned {
            let turned = reach(&self.simplex, of.variable, !rises)?;
            Some(turned.neg())
        } else {
            reach(&self.simplex, of.variable, rises)
        }
    }

    /// A clause of bounds told that no whole numbers meet, where a row of the tableau shows it by its fixed variables: their part isn't a multiple of the greatest common divisor of the other coefficients; or else where a split of a sum shows it that fixed ones leave. `None` promises nothing; an `Err` is for want of memory.
    pub fn whole_conflict(&self, alloc: Global) -> Result<Option<Vec<Literal>>, AllocError>
        ensures { IfOk result (λ o. IfSome o (λ ls. IsWholeConflict (sums self.now) self.now.told ls.items)) }
    {
        let found = whole_conflict(alloc, &self.simplex)?;
        match found {
            Some(clause) => Ok(Some(clause)),
            None => Ok(split_conflict(alloc, &self.simplex, &self.keys, self.count)),
        }
    }
}
