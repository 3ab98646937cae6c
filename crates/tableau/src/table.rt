//! The tableau, and its pivots.
//!
//! A tableau has variables by number, some of them basic: a basic variable has a row, which says
//! that it is the sum of the row's entries, coefficients times variables that aren't basic
//! (Dutertre and de Moura, A Fast Linear-Arithmetic Solver for DPLL(T), CAV 2006, section 3). Any
//! values of the variables that aren't basic give one solution. To make another variable basic is
//! to pivot.
//!
//! A pivot of a row b = .. + c * e + .. with the entering variable e solves the row for e: less b,
//! times -1/c, it is a form that is 0 on every solution and in which e has the coefficient -1. That
//! form without e is e's new row. Each other row that has e, with the coefficient d, has d times
//! the form added, which takes e out and brings b in. Only rows that have e are touched: a list for
//! each variable tells which they are (`holders`).
//!
//! Coefficients are fractions of 128 bits in lowest terms, and any step may leave the range. So a
//! pivot is tried first, and then made: `try_pivot_rows` writes what each row becomes into a buffer
//! of the row's own, `commit_rows` swaps the buffers in. So an error, for the range or for memory,
//! changes no row, and nothing is undone; once the buffers are large enough a pivot takes no memory
//! for rows. `try_pivot` stops before the second half.
//!
//! Why the solutions stay. The form is 0 on every solution of the row, so adding a multiple of it
//! to another row changes that row on no solution; and the old row comes back from the new one in
//! the same way. The rows are exactly `pivoted_rows` of the definition, and the range is left
//! exactly where one of the numbers that it lists does: so what a grid's next step makes, and
//! whether it fits, is said without speaking of this code.
//!
//! What a caller may rely on is said by `pivot` and `try_pivot`. `facts` tells what holds of every
//! tableau: entries ascend by variable and aren't 0, no variable is basic twice, and no basic
//! variable stands in a row. The lists of rows may hold places too many, where memory was wanting;
//! whoever reads them passes over what isn't there.
ghost use Rattle.std.specs.Prelude.{◌≡◌, ◌≢◌, ◌↔◌, ℕ, ◌+◌, ◌-◌, ◌^◌, ◌<◌, ◌≤◌, pos, true, false, [], ◌∷◌, ◌++◌, length, Contains, OnOk, OnErr, IfOk, IfErr, IfSome, IfNone, Some, None};
ghost use Rattle.fraction128.specs.declared.ratio.Ratio.{Ratio};
ghost use Rattle.fraction128.specs.Number.{is_zero};
ghost use Rattle.fraction128.specs.Grid.{MeetsRows, coefficient, row_of, pivoted_rows, pivot_fits};
ghost use Rattle.tableau.specs.Failing.{IsRange};
ghost use Rattle.tableau.specs.declared.failure.Failure.TheVariants.{Memory};
ghost use Rattle.tableau.specs.Rows.{IsAscending, variable_at, coefficient_at};
ghost use Rattle.tableau.specs.Staged.{Lacks, HasEntry, HasVariable};

use crate::failure::Failure;
use crate::holders::{Change, index_row};
use crate::row_places::{add_row, exchange, place_in};
use crate::rows::{Row, check_fractions, pivot_rows, try_pivot_rows};
use crate::search::coefficient_in;
use fraction128::{Entry, Fraction};
use std::alloc::Global;
use std::marker::Model;

/// Variables by number, some of which are basic: each of these is the sum of the entries of its row, which are of variables that aren't.
#[derive(Drop)]
pub struct Tableau {
    rows: Vec<Row>,
    /// For each variable the place of its row, where it is basic. It may end before the variables do: those past it aren't basic.
    places: Vec<Option<usize>>,
    /// For each variable the places of the rows that have it. It may end before the variables do: those past it have none. Where memory was wanting, others are listed too.
    holders: Vec<Vec<usize>>,
    changes: Vec<Change>,
    form: Vec<Entry>,
    count: u32,
}

impl Model for Tableau {
    ghost use Rattle.tableau.specs.Table.{Table};

    ghost Value = { Table };

    ghost use Rattle.std.specs.Prelude.{map};
    ghost use Rattle.tableau.specs.Table.{plain, IsTableau};
    ghost use Rattle.tableau.specs.Places.{IsPlaced};
    ghost use Rattle.tableau.specs.Holders.{IsIndexed};

    ghost view = { λ t. record { count = t.count; rows = map plain t.rows.items } };

    ghost invariant = { λ t. IsTableau t.count t.rows.items × IsPlaced t.count t.rows.items t.places.items × IsIndexed t.rows.items t.holders.items };
}

impl Tableau {
    ghost use Rattle.tableau.specs.Table.{Table, IsTable, row_at, AreNonzero};

    /// No variable. It takes no memory.
    pub fn new(alloc: Global) -> Self
        ensures { result ≡ record { count = 0; rows = [] } }
    {
        Tableau {
            rows: Vec::new(alloc),
            places: Vec::new(alloc),
            holders: Vec::new(alloc),
            changes: Vec::new(alloc),
            form: Vec::new(alloc),
            count: 0,
        }
    }

    /// How many variables there are.
    pub fn count(&self) -> u32
        ensures { result ≡ self.now.count }
    {
        self.count
    }

    /// How many rows there are.
    pub fn len(&self) -> usize
        ensures { result ≡ length self.now.rows }
    {
        self.rows.len()
    }

    /// A new variable, which isn't basic.
    pub fn add_variable(&mut self) -> u32
        requires { self.old.count < 2 ^ 32 - 1 }
        ensures number { result ≡ self.old.count }
        ensures new { self.new ≡ record { count = self.old.count + 1; rows = self.old.rows } }
    {
        let number = self.count;
        self.count += 1;
        number
    }

    /// Adds a row, whose basic variable is new. An `Err`, for want of memory, changes nothing.
    pub fn append_row(&mut self, alloc: Global, entries: Vec<Entry>) -> Result<u32, Failure>
        requires ascending { IsAscending entries.items }
        requires nonzero { AreNonzero entries.items }
        requires known { (j : ℕ) → self.old.count ≤ j → Lacks j entries.items }
        requires open { (k : ℕ) → k < length self.old.rows → Lacks (row_at self.old.rows k).basic entries.items }
        requires room { self.old.count < 2 ^ 32 - 1 }
        ensures number { IfOk result (λ i. i ≡ self.old.count) }
        ensures ok { OnOk result (self.new ≡ record { count = self.old.count + 1; rows = self.old.rows ++ record { basic = self.old.count; entries = entries.items } ∷ [] }) }
        ensures memory { IfErr result (λ e. e ≡ Memory) }
        ensures err { OnErr result (self.new ≡ self.old) }
    {
        let basic = self.count;
        check_fractions(&entries);
        index_row(&mut self.holders, self.rows.len(), &entries, basic + 1)?;
        add_row(
            &mut self.rows,
            &mut self.places,
            Row {
                basic,
                entries,
                next_basic: basic,
                next: Vec::new(alloc),
                changes: false,
            },
        )?;
        self.count += 1;
        Ok(basic)
    }

    /// Tells what holds of each tableau.
    pub fn facts(&self)
        ensures { IsTable self.now }
    {
        let _rows = &self.rows;
    }

    /// The basic variable of a row.
    pub fn basic(&self, place: usize) -> u32
        requires { place < length self.now.rows }
        ensures value { result ≡ (row_at self.now.rows place).basic }
        ensures known { result < self.now.count }
    {
        self.rows[place].basic
    }

    /// The entries of a row.
    pub fn entries(&self, place: usize) -> &[Entry]
        requires { place < length self.now.rows }
        ensures value { result.now ≡ (row_at self.now.rows place).entries }
        ensures ascending { IsAscending result.now }
        ensures nonzero { AreNonzero result.now }
        ensures known { (j : ℕ) → self.now.count ≤ j → Lacks j result.now }
        ensures separate { (k : ℕ) → k < length self.now.rows → Lacks (row_at self.now.rows k).basic result.now }
    {
        &self.rows[place].entries
    }

    /// The coefficient of a variable in a row, where it isn't 0.
    pub fn coefficient(&self, place: usize, variable: u32) -> Option<Fraction>
        requires { place < length self.now.rows }
        ensures some { IfSome result (λ x. x ≡ coefficient (row_at self.now.rows place).entries variable) }
        ensures nonzero { IfSome result (λ x. is_zero x ≡ false) }
        ensures zero { IfNone result (is_zero (coefficient (row_at self.now.rows place).entries variable) ≡ true) }
        ensures none { IfNone result (Lacks variable (row_at self.now.rows place).entries) }
    {
        coefficient_in(self.entries(place), variable)
    }

    /// The place of the row of a basic variable.
    pub fn place_of(&self, variable: u32) -> Option<usize>
        ensures some { IfSome result (λ k. k < length self.now.rows) }
        ensures basic { IfSome result (λ k. (row_at self.now.rows k).basic ≡ variable) }
        ensures row { IfSome result (λ k. row_of self.now.rows variable ≡ Some (row_at self.now.rows k)) }
        ensures none { IfNone result ((k : ℕ) → k < length self.now.rows → (row_at self.now.rows k).basic ≢ variable) }
        ensures lacks { IfNone result (row_of self.now.rows variable ≡ None) }
    {
        place_in(&self.places, variable)
    }

    /// The places of the rows that have a variable, in any order. Where memory was wanting, other places are listed too.
    pub fn holders(&self, variable: u32) -> &[usize]
        ensures { (k : ℕ) → k < length self.now.rows → HasVariable variable (row_at self.now.rows k).entries → Contains result.now k }
    {
        if (variable as usize) < self.holders.len() {
            &self.holders[variable as usize]
        } else {
            &[]
        }
    }

    /// Whether a variable is basic.
    pub fn is_basic(&self, variable: u32) -> bool
        ensures yes { result ≡ true → (k : ℕ) × (k < length self.now.rows) × ((row_at self.now.rows k).basic ≡ variable) }
        ensures no { result ≡ false → (k : ℕ) → k < length self.now.rows → (row_at self.now.rows k).basic ≢ variable }
    {
        self.place_of(variable).is_some()
    }

    /// Makes the entering variable basic in place of that of the row. The solutions of the rows stay; an `Err` changes nothing.
    pub fn pivot(&mut self, place: usize, entering: u32) -> Result<(), Failure>
        requires place { place < length self.old.rows }
        requires entry { HasEntry entering (row_at self.old.rows place).entries }
        ensures keeps { OnOk result ((v : ℕ → Ratio) → ((i : ℕ) → 0 < (v i).denominator) → (MeetsRows self.new.rows v ↔ MeetsRows self.old.rows v)) }
        ensures exact { OnOk result (self.new.rows ≡ pivoted_rows self.old.count self.old.rows (row_at self.old.rows place).basic entering) }
        ensures count { self.new.count ≡ self.old.count }
        ensures len { length self.new.rows ≡ length self.old.rows }
        ensures entered { OnOk result ((row_at self.new.rows place).basic ≡ entering) }
        ensures others { OnOk result ((k : ℕ) → k < length self.old.rows → k ≢ place → (row_at self.new.rows k).basic ≡ (row_at self.old.rows k).basic) }
        ensures fits { OnOk result (pivot_fits self.old.count self.old.rows (row_at self.old.rows place).basic entering ≡ true) }
        ensures range { IfErr result (λ e. IsRange e → pivot_fits self.old.count self.old.rows (row_at self.old.rows place).basic entering ≡ false) }
        ensures err { OnErr result (self.new ≡ self.old) }
    {
        let basic = self.rows[place].basic;
        let made = pivot_rows(
            &mut self.rows,
            &mut self.holders,
            &mut self.changes,
            &mut self.form,
            place,
            entering,
        );
        exchange(&mut self.places, &made, basic, entering, place);
        made
    }

    /// Tries a pivot, and leaves the rows as they are.
    pub fn try_pivot(&mut self, place: usize, entering: u32) -> Result<(), Failure>
        requires place { place < length self.old.rows }
        requires entry { HasEntry entering (row_at self.old.rows place).entries }
        ensures same { self.new ≡ self.old }
        ensures fits { OnOk result (pivot_fits self.old.count self.old.rows (row_at self.old.rows place).basic entering ≡ true) }
        ensures range { IfErr result (λ e. IsRange e → pivot_fits self.old.count self.old.rows (row_at self.old.rows place).basic entering ≡ false) }
    {
        let list = &self.holders[entering as usize];
        try_pivot_rows(&mut self.rows, list, &mut self.form, place, entering)
    }
}
