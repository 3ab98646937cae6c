//! For each variable the places of the rows that have it.
//!
//! Why: the lists of the rows that have a variable may end before the variables do, so that a new
//! variable for a term takes no memory here. They hold each such row, and where memory was wanting
//! others too: what a pivot adds to them isn't taken back then, so every reader of them passes over
//! what isn't there.
ghost use Rattle.std.specs.Prelude.{◌≡◌, ◌≢◌, ℕ, ◌+◌, ◌<◌, ◌≤◌, ◌⊎◌, true, false, [], ◌∷◌, ◌++◌, length, slice_index_or, Contains, IfSome, OnOk, IfErr};
ghost use Rattle.tableau.specs.declared.failure.Failure.TheVariants.{Memory};
ghost use Rattle.tableau.specs.declared.rows.Row.{Row};
ghost use Rattle.tableau.specs.declared.holders.Change.{Change};
ghost use Rattle.tableau.specs.Rows.{IsAscending, variable_at};
ghost use Rattle.tableau.specs.Staged.{HasVariable};
ghost use Rattle.tableau.specs.Holders.{items_at, IsNoted, KeepsListed};

use crate::failure::Failure;
use crate::rows::Row;
use crate::search::place_of;
use fraction128::Entry;

/// That a pivot gives a row a variable, or takes it from the row.
#[derive(Clone, Copy, Drop)]
pub struct Change {
    pub variable: u32,
    pub place: usize,
    pub gained: bool,
}

/// Adds lists without a place until there are so many. An `Err`, for want of memory, leaves fewer.
fn fill_lists(holders: &mut Vec<Vec<usize>>, count: u32) -> Result<(), Failure>
    ensures same { (j : ℕ) → items_at holders.new.items j ≡ items_at holders.old.items j }
    ensures least { length holders.old.items ≤ length holders.new.items }
    ensures ok { OnOk result (count ≤ length holders.new.items) }
    ensures memory { IfErr result (λ e. e ≡ Memory) }
{
    let alloc = *holders.allocator();
    while holders.len() < count as usize {
        holders.push(Vec::new(alloc))?;
    }
    Ok(())
}

/// Adds a place to the list of a variable, where it has a list. An `Err`, for want of memory, adds none.
fn add_place(holders: &mut Vec<Vec<usize>>, variable: u32, place: usize) -> Result<(), Failure>
    ensures count { length holders.new.items ≡ length holders.old.items }
    ensures keeps { (j k : ℕ) → Contains (items_at holders.old.items j) k → Contains (items_at holders.new.items j) k }
    ensures others { (j : ℕ) → j ≢ variable → items_at holders.new.items j ≡ items_at holders.old.items j }
    ensures ok { OnOk result (variable < length holders.old.items → Contains (items_at holders.new.items variable) place) }
    ensures memory { IfErr result (λ e. e ≡ Memory) }
{
    if (variable as usize) < holders.len() {
        holders[variable as usize].push(place)?;
    }
    Ok(())
}

/// Lists a new row with each of its variables that has a list.
fn list_row(holders: &mut Vec<Vec<usize>>, place: usize, entries: &[Entry]) -> Result<(), Failure>
    ensures count { length holders.new.items ≡ length holders.old.items }
    ensures keeps { (j k : ℕ) → Contains (items_at holders.old.items j) k → Contains (items_at holders.new.items j) k }
    ensures ok { OnOk result ((i : ℕ) → i < length entries.now → variable_at entries.now i < length holders.old.items → Contains (items_at holders.new.items (variable_at entries.now i)) place) }
    ensures memory { IfErr result (λ e. e ≡ Memory) }
{
    for entry in entries {
        add_place(holders, entry.variable, place)?;
    }
    Ok(())
}

/// Lists a new row, whose variables are below the count, with each of them. An `Err`, for want of memory, lists it with some: then a place is listed at which no row stands.
pub fn index_row(
    holders: &mut Vec<Vec<usize>>,
    place: usize,
    entries: &[Entry],
    count: u32,
) -> Result<(), Failure>
    ensures least { length holders.old.items ≤ length holders.new.items }
    ensures keeps { (j k : ℕ) → Contains (items_at holders.old.items j) k → Contains (items_at holders.new.items j) k }
    ensures count { OnOk result (count ≤ length holders.new.items) }
    ensures listed { OnOk result ((i : ℕ) → i < length entries.now → variable_at entries.now i < length holders.new.items → Contains (items_at holders.new.items (variable_at entries.now i)) place) }
    ensures memory { IfErr result (λ e. e ≡ Memory) }
{
    fill_lists(holders, count)?;
    list_row(holders, place, entries)
}

/// Notes each variable that has an entry among the first and none among the others. An `Err`, for want of memory, notes fewer.
fn note(
    changes: &mut Vec<Change>,
    place: usize,
    entries: &[Entry],
    others: &[Entry],
    gained: bool,
) -> Result<(), Failure>
    ensures keeps { (x : Change) → Contains changes.old.items x → Contains changes.new.items x }
    ensures ok { OnOk result ((i : ℕ) → i < length entries.now → HasVariable (variable_at entries.now i) others.now ⊎ Contains changes.new.items (record { variable = variable_at entries.now i; place = place; gained = gained })) }
    ensures memory { IfErr result (λ e. e ≡ Memory) }
{
    let mut here = 0;
    for entry in entries {
        here = skip(others, here, entry.variable);
        let change = Change {
            variable: entry.variable,
            place,
            gained,
        };
        note_unless(changes, change, is_at(others, here, entry.variable))?;
    }
    Ok(())
}

/// Whether the entry at a place, if one is there, is of this variable.
fn is_at(entries: &[Entry], here: usize, variable: u32) -> bool
    ensures { result ≡ true → HasVariable variable entries.now }
{
    here < entries.len() && entries[here].variable == variable
}

/// Notes a change, unless it is none.
fn note_unless(changes: &mut Vec<Change>, change: Change, none: bool) -> Result<(), Failure>
    ensures keeps { (x : Change) → Contains changes.old.items x → Contains changes.new.items x }
    ensures ok { OnOk result ((none ≡ true) ⊎ Contains changes.new.items change) }
    ensures memory { IfErr result (λ e. e ≡ Memory) }
{
    if !none {
        changes.push(change)?;
    }
    Ok(())
}

/// Goes past the entries from a place on that are of variables below this one.
fn skip(entries: &[Entry], from: usize, variable: u32) -> usize {
    let mut here = from;
    while here < entries.len() && entries[here].variable < variable {
        here += 1;
    }
    here
}

/// Notes the variables that a row gains and loses by what the pivot that is being tried makes of it.
fn note_row(changes: &mut Vec<Change>, place: usize, row: &Row) -> Result<(), Failure>
    ensures keeps { (x : Change) → Contains changes.old.items x → Contains changes.new.items x }
    ensures ok { OnOk result (IsNoted changes.new.items place row.now) }
    ensures memory { IfErr result (λ e. e ≡ Memory) }
{
    if row.changes {
        note(changes, place, &row.next, &row.entries, true)?;
        note(changes, place, &row.entries, &row.next, false)?;
    }
    Ok(())
}

/// Notes what the rows at these places gain and lose.
pub fn note_rows(changes: &mut Vec<Change>, rows: &[Row], list: &[usize]) -> Result<(), Failure>
    ensures ok { OnOk result ((k : ℕ) (d : Row) → k < length rows.now → Contains list.now k → IsNoted changes.new.items k (slice_index_or rows.now k d)) }
    ensures memory { IfErr result (λ e. e ≡ Memory) }
{
    changes.clear();
    for here in list {
        if *here >= rows.len() {
            continue;
        }
        note_row(changes, *here, &rows[*here])?;
    }
    Ok(())
}

/// Lists what a row gains, but for the entering variable. An `Err`, for want of memory, lists nothing.
fn file_one(holders: &mut Vec<Vec<usize>>, change: Change, entering: u32) -> Result<(), Failure>
    ensures count { length holders.new.items ≡ length holders.old.items }
    ensures same { items_at holders.new.items entering ≡ items_at holders.old.items entering }
    ensures keeps { (j k : ℕ) → Contains (items_at holders.old.items j) k → Contains (items_at holders.new.items j) k }
    ensures ok { OnOk result (change.gained ≡ true → change.variable ≢ entering → change.variable < length holders.old.items → Contains (items_at holders.new.items change.variable) change.place) }
    ensures memory { IfErr result (λ e. e ≡ Memory) }
{
    if change.gained && change.variable != entering {
        add_place(holders, change.variable, change.place)?;
    }
    Ok(())
}

/// Lists what rows gain, but for the entering variable, which none does. An `Err`, for want of memory, lists some: then more are listed than have the variable.
pub fn file(holders: &mut Vec<Vec<usize>>, changes: &[Change], entering: u32) -> Result<(), Failure>
    ensures count { length holders.new.items ≡ length holders.old.items }
    ensures same { items_at holders.new.items entering ≡ items_at holders.old.items entering }
    ensures keeps { (j k : ℕ) → Contains (items_at holders.old.items j) k → Contains (items_at holders.new.items j) k }
    ensures ok { OnOk result ((j k : ℕ) → Contains changes.now (record { variable = j; place = k; gained = true }) → j ≢ entering → j < length holders.old.items → Contains (items_at holders.new.items j) k) }
    ensures memory { IfErr result (λ e. e ≡ Memory) }
{
    for change in changes {
        file_one(holders, *change, entering)?;
    }
    Ok(())
}

/// Where a place stands in a list.
fn find(list: &[usize], place: usize) -> Option<usize>
    ensures within { IfSome result (λ i. i < length list.now) }
    ensures is { IfSome result (λ i. (d : ℕ) → slice_index_or list.now i d ≡ place) }
{
    for (i, other) in list.iter().enumerate() {
        if *other == place {
            return Some(i);
        }
    }
    None
}

/// Takes a place from the list of a variable.
fn remove_place(holders: &mut Vec<Vec<usize>>, variable: u32, place: usize)
    ensures count { length holders.new.items ≡ length holders.old.items }
    ensures others { (j k : ℕ) → (j ≢ variable) ⊎ (k ≢ place) → Contains (items_at holders.old.items j) k → Contains (items_at holders.new.items j) k }
{
    if (variable as usize) < holders.len() {
        if let Some(i) = find(&holders[variable as usize], place) {
            holders[variable as usize].swap_remove(i);
        }
    }
}

/// Takes a row from the list of a variable that it lost, and doesn't have.
fn forget(holders: &mut Vec<Vec<usize>>, rows: &[Row], change: Change)
    requires { (k : ℕ) (d : Row) → k < length rows.now → IsAscending (slice_index_or rows.now k d).entries.items }
    ensures count { length holders.new.items ≡ length holders.old.items }
    ensures keeps { KeepsListed rows.now holders.old.items holders.new.items }
{
    if change.gained || change.place >= rows.len() {
        return;
    }
    if place_of(&rows[change.place].entries, change.variable).is_none() {
        remove_place(holders, change.variable, change.place);
    }
}

/// Takes the rows from the lists of the variables that they lost.
pub fn forget_lost(holders: &mut Vec<Vec<usize>>, rows: &[Row], changes: &[Change])
    requires { (k : ℕ) (d : Row) → k < length rows.now → IsAscending (slice_index_or rows.now k d).entries.items }
    ensures count { length holders.new.items ≡ length holders.old.items }
    ensures keeps { KeepsListed rows.now holders.old.items holders.new.items }
{
    for change in changes {
        forget(holders, rows, *change);
    }
}
