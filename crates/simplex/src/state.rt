//! The state, and the calls on it.
ghost use Rattle.std.specs.Prelude.{◌≡◌, ℕ, ◌+◌, ◌-◌, ◌^◌, ◌<◌, ◌≤◌, pos, true, false, [], ◌∷◌, ◌++◌, map, take, length, slice_index_or, slice_set, ℤ, OnOk, OnErr, IfOk, IfErr, IfSome, IfNone, Some, None};
ghost use Rattle.fraction128.specs.Number.{whole};
ghost use Rattle.fraction128.specs.Ratio.{IsFraction};
ghost use Rattle.fraction128.specs.Whole.{InRange};
ghost use Rattle.simplex.specs.Trail.{tightest, number_of, set_at};
ghost use Rattle.fraction128.specs.Grid.{entries_value, entries_value_fits, leaf};
ghost use Rattle.fraction128.specs.Lines.{line_of};
ghost use Rattle.tableau.specs.declared.failure.Failure.TheVariants.{Memory as NoMemory};
ghost use Rattle.tableau.specs.Failing.{IsRange};
ghost use Rattle.tableau.specs.Table.{IsOpenRow, row_at};
ghost use Rattle.tableau.specs.Written.{AreParts, parts_row};
ghost use Rattle.simplex.specs.Sums.{AreMatched};
ghost use Rattle.simplex_steps.specs.State.{column_in, values, grid_of};
ghost use Rattle.simplex_steps.specs.Conflict.{KnownEntries};
ghost use Rattle.simplex_steps.specs.Run.{IsSearch};
ghost use Rattle.simplex.specs.State.{IsState, KeepsValues, HasBounds, FixedAt, Judges, SpendsRoom, tag_in, tag_or, refreshed, KnownBounds, IsVerdict, new_column, with_row, row_value_of, row_fits};

use crate::grid::copy_grid;
use crate::{BoundTrail, Held, Set};
use fraction128::{Bound, Column, Entry, Fraction, Grid, Line, Range, Seq, Side, Sum, Summand};
use simplex_steps::{
    Checked, Moved, Outcome, PivotLines, Suspects, check, line_of_pivot, look, moved_by,
};
use std::alloc::{AllocError, Global};
use std::marker::Model;
use tableau::{Failure, Part, Tableau, write_parts};

/// What a check finds.
#[derive(Drop)]
pub enum Verdict {
    /// All variables are within their bounds.
    Fits,
    /// No solution of the rows meets the bounds with these tags.
    Conflict(Vec<u32>),
    /// This number of the next step leaves the range.
    Range(Range),
    /// There is no room for the pivot that is the next step.
    UnitsSpent,
    /// Memory is wanting.
    Memory,
}

/// What a check finds, and how many pivots it made.
#[derive(Drop)]
pub struct Answer {
    pub verdict: Verdict,
    pub pivots: u64,
}

/// The number of a bound, where there is one.
fn number_of(held: Option<Held>) -> Option<i128>
    ensures { result ≡ number_of held }
{
    match held {
        Some(held) => Some(held.number),
        None => None,
    }
}

/// Gives a variable bounds.
fn bound(column: &mut Column, lower: Option<i128>, upper: Option<i128>)
    ensures { column.new ≡ record { sum = column.old.sum; lower = lower; upper = upper; value = column.old.value } }
{
    column.lower = lower;
    column.upper = upper;
}

/// Gives a variable the bounds that are the tightest of those set.
fn refresh(columns: &mut Vec<Column>, trail: &BoundTrail, variable: u32)
    requires known { variable < length columns.old.items }
    requires count { length columns.old.items ≤ trail.now.count }
    ensures { columns.new.items ≡ refreshed trail.now.bounds columns.old.items variable }
{
    let lower = number_of(trail.tightest(variable, Side::Lower));
    let upper = number_of(trail.tightest(variable, Side::Upper));
    bound(&mut columns[variable as usize], lower, upper);
}

/// The number that both bounds are.
fn common(column: &Column) -> Option<i128>
    ensures some { IfSome result (FixedAt column.now) }
    ensures none { IfNone result ((k : ℤ) → FixedAt column.now k → ⊥) }
{
    match (column.lower, column.upper) {
        (Some(lower), Some(upper)) if lower == upper => Some(lower),
        _ => None,
    }
}

/// The tags of bounds that stand.
fn tags_of(alloc: Global, trail: &BoundTrail, bounds: &[Bound]) -> Result<Vec<u32>, AllocError>
    requires { (k : ℕ) (d : Bound) → k < length bounds.now → (slice_index_or bounds.now k d).variable < trail.now.count }
    ensures { IfOk result (λ ts. ts.items ≡ map (tag_in trail.now.bounds) bounds.now) }
{
    let mut tags = Vec::new(alloc);
    for bound in bounds {
        tags.push(tag_of(trail.tightest(bound.variable, bound.side)))?;
    }
    Ok(tags)
}

/// The tag of a bound, where there is one.
fn tag_of(held: Option<Held>) -> u32
    ensures { result ≡ tag_or held }
{
    match held {
        Some(held) => held.tag,
        None => 0,
    }
}

/// A verdict in terms of tags.
fn verdict_of(alloc: Global, trail: &BoundTrail, outcome: Outcome) -> Verdict
    requires { KnownBounds trail.now.count outcome }
    ensures { IsVerdict trail.now.bounds outcome result }
{
    match outcome {
        Outcome::Fits => Verdict::Fits,
        Outcome::Range(range) => Verdict::Range(range),
        Outcome::UnitsSpent => Verdict::UnitsSpent,
        Outcome::Memory => Verdict::Memory,
        Outcome::Conflict(bounds) => match tags_of(alloc, trail, &bounds) {
            Ok(tags) => Verdict::Conflict(tags),
            Err(_) => Verdict::Memory,
        },
    }
}

/// The sum that is a term alone.
fn sum_of_leaf(alloc: Global, term: u32) -> Result<Sum, AllocError>
    ensures { IfOk result (λ s. s ≡ leaf term) }
{
    let mut sum = Seq::new(alloc);
    sum.push(Summand {
        coefficient: 1,
        term,
    })?;
    Ok(sum)
}

/// The value of a sum of entries, added up in order.
fn value_of(columns: &Vec<Column>, entries: &Vec<Entry>) -> Result<Fraction, Range>
    requires { KnownEntries (length columns.now.items) entries.now.items }
    ensures value { IfOk result (λ x. x ≡ entries_value (values columns.now.items) (whole (pos 0)) entries.now.items) }
    ensures fraction { IfOk result IsFraction }
    ensures fits { OnOk result (entries_value_fits (values columns.now.items) (whole (pos 0)) entries.now.items ≡ true) }
    ensures range { OnErr result (entries_value_fits (values columns.now.items) (whole (pos 0)) entries.now.items ≡ false) }
{
    let mut value = Fraction::from_whole(0);
    for entry in entries {
        value = moved_by(
            value,
            entry.coefficient,
            columns[entry.variable as usize].value,
        )?;
    }
    let _value = value.ratio();
    Ok(value)
}

/// Adds a column, and a row for it. An `Err`, for want of memory, changes nothing.
fn append(
    tableau: &mut Tableau,
    columns: &mut Vec<Column>,
    alloc: Global,
    entries: Vec<Entry>,
    column: Column,
) -> Result<u32, Failure>
    requires open { IsOpenRow tableau.old entries.items }
    requires room { tableau.old.count < 2 ^ 32 - 1 }
    ensures number { IfOk result (λ i. i ≡ tableau.old.count) }
    ensures table { OnOk result (tableau.new ≡ with_row tableau.old (record { basic = tableau.old.count; entries = entries.items })) }
    ensures columns { OnOk result (columns.new.items ≡ columns.old.items ++ column ∷ []) }
    ensures memory { IfErr result (λ e. e ≡ NoMemory) }
    ensures err { OnErr result ((tableau.new ≡ tableau.old) × (columns.new.items ≡ columns.old.items)) }
{
    columns.push(column)?;
    match tableau.append_row(alloc, entries) {
        Ok(number) => Ok(number),
        Err(failure) => {
            let _column = columns.pop();
            Err(failure)
        }
    }
}

/// Variables with rows, values, and bounds that are set and taken back.
#[derive(Drop)]
pub struct Simplex {
    tableau: Tableau,
    columns: Vec<Column>,
    moved: Vec<Moved>,
    suspects: Suspects,
    trail: BoundTrail,
}

impl Model for Simplex {
    ghost use Rattle.simplex.specs.State.{State};

    ghost Value = { State };

    ghost use Rattle.std.specs.Prelude.{◌≡◌, length};
    ghost use Rattle.simplex.specs.State.{IsWatched};

    ghost view = { λ s. record { table = s.tableau; columns = s.columns.items; bounds = s.trail.bounds } };

    ghost invariant = { λ s. IsWatched s.tableau s.columns.items s.trail s.suspects };
}

impl Simplex {
    ghost use Rattle.simplex.specs.State.{State};

    /// No variable. It takes no memory.
    pub fn new(alloc: Global) -> Self
        ensures { result ≡ record { table = record { count = 0; rows = [] }; columns = []; bounds = [] } }
    {
        Simplex {
            tableau: Tableau::new(alloc),
            columns: Vec::new(alloc),
            moved: Vec::new(alloc),
            suspects: Suspects::new(alloc),
            trail: BoundTrail::new(alloc),
        }
    }

    /// A new variable for a term, which isn't basic: without bounds, its value 0. An `Err`, for want of memory, changes nothing.
    pub fn add_leaf(&mut self, alloc: Global, term: u32) -> Result<u32, AllocError>
        requires { self.old.table.count < 2 ^ 32 - 1 }
        ensures number { IfOk result (λ i. i ≡ self.old.table.count) }
        ensures table { OnOk result (self.new.table ≡ record { count = self.old.table.count + 1; rows = self.old.table.rows }) }
        ensures columns { OnOk result (self.new.columns ≡ self.old.columns ++ new_column (leaf term) (whole (pos 0)) ∷ []) }
        ensures bounds { self.new.bounds ≡ self.old.bounds }
        ensures err { OnErr result (self.new ≡ self.old) }
    {
        self.tableau.facts();
        let sum = sum_of_leaf(alloc, term)?;
        self.suspects.add_variable()?;
        self.trail.add_variable()?;
        self.columns.push(Column {
            sum,
            lower: None,
            upper: None,
            value: Fraction::from_whole(0),
        })?;
        Ok(self.tableau.add_variable())
    }

    /// A new basic variable for a sum, whose parts are its summands in order with the variables of their terms; the row is the sum written by variables that aren't basic. Without bounds, its value the row's. An `Err` changes nothing.
    pub fn add_row(&mut self, alloc: Global, sum: Sum, parts: &[Part]) -> Result<u32, Failure>
        requires parts { AreParts self.old.table.count parts.now }
        requires matched { AreMatched self.old.columns sum parts.now }
        requires room { self.old.table.count < 2 ^ 32 - 1 }
        ensures number { IfOk result (λ i. i ≡ self.old.table.count) }
        ensures table { OnOk result (self.new.table ≡ with_row self.old.table (parts_row self.old.table.count self.old.table.rows parts.now)) }
        ensures columns { OnOk result (self.new.columns ≡ self.old.columns ++ new_column sum (row_value_of self.old.columns (parts_row self.old.table.count self.old.table.rows parts.now)) ∷ []) }
        ensures bounds { self.new.bounds ≡ self.old.bounds }
        ensures fits { OnOk result (row_fits self.old parts.now ≡ true) }
        ensures range { IfErr result (λ e. IsRange e → row_fits self.old parts.now ≡ false) }
        ensures err { OnErr result (self.new ≡ self.old) }
    {
        self.tableau.facts();
        let entries = write_parts(&self.tableau, alloc, parts)?;
        let value = value_of(&self.columns, &entries)?;
        self.suspects.add_variable()?;
        self.trail.add_variable()?;
        let column = Column {
            sum,
            lower: None,
            upper: None,
            value,
        };
        append(&mut self.tableau, &mut self.columns, alloc, entries, column)
    }

    /// Tells what holds of each state.
    pub fn facts(&self)
        ensures { IsState self.now }
    {
        let _columns = &self.columns;
        self.tableau.facts();
    }

    /// How many bounds are set.
    pub fn len(&self) -> usize
        ensures { result ≡ length self.now.bounds }
    {
        self.trail.len()
    }

    /// A variable's sum, bounds and value.
    pub fn column(&self, variable: u32) -> &Column
        requires { variable < length self.now.columns }
        ensures { result.now ≡ column_in self.now.columns variable }
    {
        &self.columns[variable as usize]
    }

    /// The rows.
    pub fn tableau(&self) -> &Tableau
        ensures { result.now ≡ self.now.table }
    {
        &self.tableau
    }

    /// A row as a line, in which no variable moves.
    pub fn line(&self, alloc: Global, place: usize) -> Result<Line, AllocError>
        requires { place < length self.now.table.rows }
        ensures { IfOk result (λ l. l ≡ line_of (grid_of self.now.table self.now.columns) (row_at self.now.table.rows place).basic None) }
    {
        self.tableau.facts();
        let Line { basic, entries, .. } = line_of_pivot(
            alloc,
            &self.tableau,
            &self.columns,
            place,
            0,
        )?;
        Ok(Line {
            basic,
            entries,
            moves: None,
        })
    }

    /// A copy of the rows and the columns as a grid with nothing pending.
    pub fn grid(&self, alloc: Global) -> Result<Grid, AllocError>
        ensures { IfOk result (λ g. g ≡ grid_of self.now.table self.now.columns) }
    {
        copy_grid(alloc, &self.tableau, &self.columns)
    }

    /// The number that a variable's bounds leave alone, where they are equal.
    pub fn fixed(&self, variable: u32) -> Option<i128>
        requires { variable < length self.now.columns }
        ensures some { IfSome result (FixedAt (column_in self.now.columns variable)) }
        ensures none { IfNone result ((k : ℤ) → FixedAt (column_in self.now.columns variable) k → ⊥) }
        ensures in_range { IfSome result InRange }
    {
        common(&self.columns[variable as usize])
    }

    /// The tags of the tightest bounds on the variables and sides of bounds, in order.
    pub fn tags(&self, alloc: Global, bounds: &[Bound]) -> Result<Vec<u32>, AllocError>
        requires { (k : ℕ) (d : Bound) → k < length bounds.now → (slice_index_or bounds.now k d).variable < length self.now.columns }
        ensures { IfOk result (λ ts. ts.items ≡ map (tag_in self.now.bounds) bounds.now) }
    {
        tags_of(alloc, &self.trail, bounds)
    }

    /// Sets a bound. Values stay; an `Err`, for want of memory, changes nothing.
    pub fn set_bound(&mut self, set: Set) -> Result<(), AllocError>
        requires known { set.variable < length self.old.columns }
        requires number { InRange set.number }
        ensures table { self.new.table ≡ self.old.table }
        ensures values { KeepsValues self.old.columns self.new.columns }
        ensures bounds { OnOk result (self.new.bounds ≡ self.old.bounds ++ set ∷ []) }
        ensures err { OnErr result (self.new ≡ self.old) }
    {
        self.suspects.add(set.variable)?;
        self.trail.set(set)?;
        refresh(&mut self.columns, &self.trail, set.variable);
        Ok(())
    }

    /// Takes back the newest bound, if there is one. Values stay.
    fn undo(&mut self)
        ensures table { self.new.table ≡ self.old.table }
        ensures values { KeepsValues self.old.columns self.new.columns }
        ensures bounds { self.new.bounds ≡ take (length self.old.bounds - 1) self.old.bounds }
    {
        if let Some(set) = self.trail.undo() {
            refresh(&mut self.columns, &self.trail, set.variable);
        }
    }

    /// Takes back all bounds but the first ones, so many as the count says. Values stay.
    pub fn undo_to(&mut self, count: usize)
        ensures table { self.new.table ≡ self.old.table }
        ensures values { KeepsValues self.old.columns self.new.columns }
        ensures bounds { self.new.bounds ≡ take count self.old.bounds }
    {
        while self.len() > count {
            self.undo();
        }
    }

    /// Moves values until all variables are within their bounds, or bounds are found that no solution of the rows meets, or the next step doesn't fit, or is a pivot past the room. The steps are the next ones of the grid; the bounds and the solutions of the rows stay. Where lines are kept, that of each pivot is added.
    pub fn check(&mut self, alloc: Global, kept: &mut PivotLines, room: u64) -> Answer
        ensures search { IsSearch room self.old.table self.old.columns kept.old self.new.table self.new.columns kept.new result.pivots }
        ensures bounds { self.new.bounds ≡ self.old.bounds }
        ensures judges { Judges self.new result.verdict }
        ensures room { SpendsRoom room result.pivots result.verdict }
    {
        let Checked { outcome, pivots } = check(
            alloc,
            &mut self.tableau,
            &mut self.columns,
            &mut self.moved,
            &mut self.suspects,
            kept,
            room,
        );
        let verdict = verdict_of(alloc, &self.trail, outcome);
        Answer { verdict, pivots }
    }

    /// How a check ends where it takes no step, so that nothing changes. `None` where the next step is to move the value of a variable that isn't basic.
    pub fn look(&mut self, alloc: Global) -> Option<Verdict>
        ensures same { self.new ≡ self.old }
        ensures judges { IfSome result (Judges self.old) }
    {
        let outcome = look(
            alloc,
            &mut self.tableau,
            &self.columns,
            &mut self.moved,
            &self.suspects,
        )?;
        Some(verdict_of(alloc, &self.trail, outcome))
    }
}
