//! Rows with room for what a pivot makes of them.
//!
//! Why: a pivot is first tried on all rows that have the entering variable, each into its own spare
//! buffer, and only then committed by swapping: so an error changes no row without undoing
//! anything, and once the buffers are large enough nothing is allocated.
ghost use Rattle.std.specs.Prelude.{◌≡◌, ℕ, ◌<◌, ◌≤◌, ◌≢◌, ◌⊎◌, pos, true, [], ◌∷◌, length, slice_index_or, Contains, IfSome, IfNone, OnOk, IfOk, IfErr, OnErr, false};
ghost use Rattle.tableau.specs.Failing.{IsRange};
ghost use Rattle.tableau.specs.Fitting.{scaled_fits};
ghost use Rattle.tableau.specs.Rows.{IsAscending, variable_at, coefficient_at, scaled, merged, zero_form, without};
ghost use Rattle.tableau.specs.Staged.{IsStaged, IsTried, IsCommitted, IsSameRow, HasEntry, IsForm, IsPivoted, IsFormRefused, IsRowRefused, IsOtherRefused, IsRefused, IsFitting, IsTriedPivot, HasVariable};
ghost use Rattle.tableau.specs.Holders.{items_at, IsIndexed};
ghost use Rattle.fraction128.specs.Number.{whole};
ghost use Rattle.fraction128.specs.Ratio.{IsFraction};
ghost use Rattle.fraction128.specs.Grid.{coefficient};
ghost use Rattle.tableau.specs.declared.rows.Row.{Row};
ghost use Rattle.tableau.specs.declared.failure.Failure.TheVariants.{Memory};

use crate::failure::Failure;
use crate::holders::{Change, file, forget_lost, note_rows};
use crate::merge::{append_merged, append_scaled};
use crate::search::{place_among, place_of};
use fraction128::{Entry, Fraction};
use std::mem;

/// A row, and what the pivot that is being tried makes of it.
#[derive(Drop)]
pub struct Row {
    pub basic: u32,
    pub entries: Vec<Entry>,
    pub next_basic: u32,
    pub next: Vec<Entry>,
    pub changes: bool,
}

/// Tells that each coefficient is a fraction in lowest terms, as each `Fraction` is.
pub fn check_fractions(entries: &[Entry])
    ensures { (k : ℕ) → k < length entries.now → IsFraction (coefficient_at entries.now k) }
{
    for entry in entries {
        let _ratio = entry.coefficient.ratio();
    }
}

/// Fills the buffer with the form that is 0 on the solutions of a row: the row's entries less its basic variable, which comes at a place, times the factor.
fn fill_form(
    out: &mut Vec<Entry>,
    basic: u32,
    entries: &[Entry],
    place: usize,
    factor: Fraction,
) -> Result<(), Failure>
    requires { place ≤ length entries.now }
    ensures ok { OnOk result (out.new.items ≡ scaled factor (zero_form place basic entries.now)) }
    ensures fits { OnOk result (scaled_fits factor (zero_form place basic entries.now) ≡ true) }
    ensures range { IfErr result (λ e. IsRange e → scaled_fits factor (zero_form place basic entries.now) ≡ false) }
{
    out.clear();
    append_scaled(out, &entries[..place], factor)?;
    let coefficient = Fraction::from_whole(-1).mul(factor)?;
    out.push(Entry {
        variable: basic,
        coefficient,
    })?;
    append_scaled(out, &entries[place..], factor)
}

/// Fills the buffer with the form of a row in which the entering variable has the coefficient -1, and tells the place of that variable in it.
fn prepare(
    out: &mut Vec<Entry>,
    basic: u32,
    entries: &[Entry],
    entering: u32,
) -> Result<usize, Failure>
    requires ascending { IsAscending entries.now }
    requires entry { HasEntry entering entries.now }
    ensures ok { IfOk result (IsForm basic entering entries.now out.new.items) }
    ensures range { IfErr result (λ e. IsRange e → IsFormRefused basic entering entries.now) }
{
    let place = place_of(entries, entering).unwrap();
    let factor = entries[place].coefficient.recip().neg();
    let before = place_among(entries, basic);
    fill_form(out, basic, entries, before, factor)?;
    Ok(if place < before { place } else { place + 1 })
}

/// Tries on the row the replacement of a variable by the form in which it has the coefficient -1. The row itself stays.
pub fn stage(row: &mut Row, entering: u32, form: &[Entry]) -> Result<(), Failure>
    requires { IsAscending row.old.entries.items }
    ensures same { IsSameRow row.old row.new }
    ensures ok { OnOk result (IsStaged entering form.now row.new) }
    ensures range { IfErr result (λ e. IsRange e → IsRowRefused entering form.now row.old.entries.items) }
{
    row.changes = false;
    if let Some(place) = place_of(&row.entries, entering) {
        let factor = row.entries[place].coefficient;
        row.next.clear();
        append_merged(&mut row.next, &row.entries, factor, form)?;
        row.next_basic = row.basic;
        row.changes = true;
    }
    Ok(())
}

/// Tries on the row the form without the entry at a place, as the row of the variable there.
pub fn stage_solved(
    row: &mut Row,
    entering: u32,
    form: &[Entry],
    place: usize,
) -> Result<(), Failure>
    requires { place < length form.now }
    ensures same { IsSameRow row.old row.new }
    ensures ok { OnOk result ((row.new.next.items ≡ without place form.now) × (row.new.next_basic ≡ entering) × (row.new.changes ≡ true)) }
    ensures memory { IfErr result (λ e. e ≡ Memory) }
{
    row.next.clear();
    row.next.extend_from_slice(&form[..place])?;
    row.next.extend_from_slice(&form[place + 1..])?;
    row.next_basic = entering;
    row.changes = true;
    Ok(())
}

/// Makes the row what the pivot made of it, once.
pub fn commit(row: &mut Row)
    ensures made { IsCommitted row.old row.new }
    ensures once { row.new.changes ≡ false }
{
    if row.changes {
        mem::swap(&mut row.entries, &mut row.next);
        row.basic = row.next_basic;
        row.changes = false;
    }
}

/// Tries a pivot on one row: the form without the entry at the place for the row that the basic variable leaves, the replacement of the entering variable for another. The row itself stays.
fn try_row(
    row: &mut Row,
    basic: u32,
    entering: u32,
    form: &[Entry],
    place: usize,
) -> Result<(), Failure>
    requires ascending { IsAscending row.old.entries.items }
    requires place { place < length form.now }
    ensures same { IsSameRow row.old row.new }
    ensures ok { OnOk result (IsTried basic entering form.now place row.new) }
    ensures range { IfErr result (λ e. IsRange e → (row.old.basic ≢ basic) × IsRowRefused entering form.now row.old.entries.items) }
{
    if row.basic == basic {
        stage_solved(row, entering, form, place)
    } else {
        stage(row, entering, form)
    }
}

/// Tries a pivot on the rows at these places; a place past the rows is passed over. The rows themselves stay.
pub fn try_rows(
    rows: &mut [Row],
    list: &[usize],
    basic: u32,
    entering: u32,
    form: &[Entry],
    place: usize,
) -> Result<(), Failure>
    requires ascending { (k : ℕ) (d : Row) → k < length rows.old → IsAscending (slice_index_or rows.old k d).entries.items }
    requires place { place < length form.now }
    ensures same { (k : ℕ) (d : Row) → k < length rows.old → IsSameRow (slice_index_or rows.old k d) (slice_index_or rows.new k d) }
    ensures ok { OnOk result ((k : ℕ) (d : Row) → k < length rows.old → Contains list.now k → IsTried basic entering form.now place (slice_index_or rows.new k d)) }
    ensures range { IfErr result (λ e. IsRange e → (d : Row) → IsOtherRefused basic entering form.now rows.old d) }
{
    for here in list {
        if *here >= rows.len() {
            continue;
        }
        try_row(&mut rows[*here], basic, entering, form, place)?;
    }
    Ok(())
}

/// Makes each row at these places what the pivot made of it.
pub fn commit_rows(rows: &mut [Row], list: &[usize])
    ensures made { (k : ℕ) (d : Row) → k < length rows.old → Contains list.now k → IsCommitted (slice_index_or rows.old k d) (slice_index_or rows.new k d) }
    ensures others { (k : ℕ) (d : Row) → (Contains list.now k → ⊥) → slice_index_or rows.new k d ≡ slice_index_or rows.old k d }
{
    for here in list {
        if *here >= rows.len() {
            continue;
        }
        commit(&mut rows[*here]);
    }
}

/// Tries the pivot of the row at a place with the entering variable on all rows that have it, whose places are listed. The rows themselves stay.
pub fn try_pivot_rows(
    rows: &mut [Row],
    list: &[usize],
    form: &mut Vec<Entry>,
    place: usize,
    entering: u32,
) -> Result<(), Failure>
    requires place { place < length rows.old }
    requires ascending { (k : ℕ) (d : Row) → k < length rows.old → IsAscending (slice_index_or rows.old k d).entries.items }
    requires entry { (d : Row) → HasEntry entering (slice_index_or rows.old place d).entries.items }
    requires listed { (k : ℕ) (d : Row) → k < length rows.old → HasVariable entering (slice_index_or rows.old k d).entries.items → Contains list.now k }
    ensures same { (k : ℕ) (d : Row) → k < length rows.old → IsSameRow (slice_index_or rows.old k d) (slice_index_or rows.new k d) }
    ensures ok { OnOk result ((d : Row) → IsTriedPivot entering place list.now rows.old rows.new d) }
    ensures range { IfErr result (λ e. IsRange e → (d : Row) → IsRefused entering place rows.old d) }
{
    let basic = rows[place].basic;
    let solved = prepare(form, basic, &rows[place].entries, entering)?;
    try_rows(rows, list, basic, entering, form, solved)
}

/// Pivots the row at a place with the entering variable: in all rows that have it the form of that row takes its place. An `Err` changes no row.
pub fn pivot_rows(
    rows: &mut [Row],
    holders: &mut Vec<Vec<usize>>,
    changes: &mut Vec<Change>,
    form: &mut Vec<Entry>,
    place: usize,
    entering: u32,
) -> Result<(), Failure>
    requires place { place < length rows.old }
    requires indexed { IsIndexed rows.old holders.old.items }
    requires entry { (d : Row) → HasEntry entering (slice_index_or rows.old place d).entries.items }
    ensures ok { OnOk result ((d : Row) → IsPivoted entering place rows.old rows.new d) }
    ensures indexed { IsIndexed rows.new holders.new.items }
    ensures range { IfErr result (λ e. IsRange e → (d : Row) → IsRefused entering place rows.old d) }
    ensures err { OnErr result ((k : ℕ) (d : Row) → k < length rows.old → IsSameRow (slice_index_or rows.old k d) (slice_index_or rows.new k d)) }
{
    try_pivot_rows(rows, &holders[entering as usize], form, place, entering)?;
    note_rows(changes, rows, &holders[entering as usize])?;
    file(holders, changes, entering)?;
    commit_rows(rows, &holders[entering as usize]);
    forget_lost(holders, rows, changes);
    holders[entering as usize].clear();
    Ok(())
}
