//! Rows that no whole numbers meet, and the bounds to blame (A. Griggio, A Practical Approach to Satisfiability Modulo Linear Integer Arithmetic, 2012).
ghost use Rattle.std.specs.Prelude.{◌≡◌, ℕ, ◌<◌, true, length, map, All, OnOk, IfOk, IfSome};
ghost use Rattle.tableau.specs.Table.{row_at};
ghost use Rattle.simplex_steps.specs.State.{column_in};
ghost use Rattle.simplex_steps.specs.Conflict.{KnownEntries};
ghost use Rattle.sum_bounds.specs.Bounds.{told_of};
ghost use Rattle.sum_bounds.specs.Wholes.{HasSums, HasDifferences, LacksWholes, AddsBoth, AreBounds, IsWholeConflict};

use crate::Progression;
use crate::told::clause_of;
use fraction128::{Bound, Entry, Fraction, Side};
use literals::Literal;
use simplex::Simplex;
use std::alloc::{AllocError, Global};

/// Where the values of entries lie, if all variables are whole and those that are fixed have their numbers. `None` where a number leaves the range.
fn sums_of(simplex: &Simplex, entries: &[Entry]) -> Option<Progression>
    requires { KnownEntries (length simplex.now.columns) entries.now }
    ensures { IfSome result (HasSums simplex.now.columns entries.now) }
{
    let mut sums = Progression::zero();
    let mut left = entries.len();
    while left > 0 {
        left -= 1;
        let entry = entries[left];
        sums = sums.with_part(entry.coefficient, simplex.fixed(entry.variable))?;
    }
    Some(sums)
}

/// Where the values of a row's entries less its basic variable lie.
fn differences_of(simplex: &Simplex, place: usize) -> Option<Progression>
    requires { place < length simplex.now.table.rows }
    ensures { IfSome result (HasDifferences simplex.now.columns (row_at simplex.now.table.rows place)) }
{
    simplex.facts();
    let tableau = simplex.tableau();
    let sums = sums_of(simplex, tableau.entries(place))?;
    sums.with_part(
        Fraction::from_whole(-1),
        simplex.fixed(tableau.basic(place)),
    )
}

/// Whether a row is seen to be met by no whole numbers, where its fixed variables have theirs.
fn lacks_wholes(simplex: &Simplex, place: usize) -> bool
    requires { place < length simplex.now.table.rows }
    ensures { result ≡ true → LacksWholes simplex.now.columns (row_at simplex.now.table.rows place) }
{
    simplex.facts();
    match differences_of(simplex, place) {
        Some(differences) => differences.lacks_zero(),
        None => false,
    }
}

/// The first row that is seen to be met by no whole numbers.
fn first_row(simplex: &Simplex) -> Option<usize>
    ensures known { IfSome result (λ k. k < length simplex.now.table.rows) }
    ensures lacks { IfSome result (λ k. LacksWholes simplex.now.columns (row_at simplex.now.table.rows k)) }
{
    for place in 0..simplex.tableau().len() {
        if lacks_wholes(simplex, place) {
            return Some(place);
        }
    }
    None
}

/// Adds both bounds of a variable, where it is fixed.
fn add_bounds(bounds: &mut Vec<Bound>, simplex: &Simplex, variable: u32) -> Result<(), AllocError>
    requires { variable < length simplex.now.columns }
    ensures { OnOk result (AddsBoth simplex.now.columns variable bounds.old.items bounds.new.items) }
{
    if let Some(number) = simplex.fixed(variable) {
        bounds.push(Bound {
            variable,
            side: Side::Lower,
            number,
        })?;
        bounds.push(Bound {
            variable,
            side: Side::Upper,
            number,
        })?;
    }
    Ok(())
}

/// Both bounds of each fixed variable of a row.
fn bounds_of(alloc: Global, simplex: &Simplex, place: usize) -> Result<Vec<Bound>, AllocError>
    requires { place < length simplex.now.table.rows }
    ensures { IfOk result (λ bs. AreBounds simplex.now.columns (row_at simplex.now.table.rows place) bs.items) }
{
    simplex.facts();
    let tableau = simplex.tableau();
    let mut bounds = Vec::new(alloc);
    add_bounds(&mut bounds, simplex, tableau.basic(place))?;
    for entry in tableau.entries(place) {
        add_bounds(&mut bounds, simplex, entry.variable)?;
    }
    Ok(bounds)
}

/// The clause of the bounds of a row's fixed variables, where no whole numbers meet the row.
fn clause_at(alloc: Global, simplex: &Simplex, place: usize) -> Result<Vec<Literal>, AllocError>
    requires place { place < length simplex.now.table.rows }
    requires lacks { LacksWholes simplex.now.columns (row_at simplex.now.table.rows place) }
    ensures { IfOk result (λ ls. IsWholeConflict (λ i. (column_in simplex.now.columns i).sum) (map told_of simplex.now.bounds) ls.items) }
{
    simplex.facts();
    let bounds = bounds_of(alloc, simplex, place)?;
    let tags = simplex.tags(alloc, &bounds)?;
    clause_of(alloc, &tags)
}

/// The clause of the first row that is seen to be met by no whole numbers.
pub(crate) fn whole_conflict(
    alloc: Global,
    simplex: &Simplex,
) -> Result<Option<Vec<Literal>>, AllocError>
    ensures { IfOk result (λ o. IfSome o (λ ls. IsWholeConflict (λ i. (column_in simplex.now.columns i).sum) (map told_of simplex.now.bounds) ls.items)) }
{
    match first_row(simplex) {
        Some(place) => Ok(Some(clause_at(alloc, simplex, place)?)),
        None => Ok(None),
    }
}
