//! The next step of the search, by Bland's rule: the least basic variable outside its bounds, and
//! of its row the least variable that can bring it nearer.
ghost use Rattle.std.specs.Prelude.{◌≡◌, ◌≢◌, ℕ, ◌<◌, ◌≤◌, ◌&&◌, not, true, false, [], ◌∷◌, length, slice_index_or, IfOk, IfSome, IfNone, Some, None};
ghost use Rattle.fraction128.specs.Whole.{InRange};
ghost use Rattle.fraction128.specs.Number.{whole, is_less};
ghost use Rattle.fraction128.specs.declared.Entry.{Entry};
ghost use Rattle.fraction128.specs.Grid.{is_some, is_basic, missed, is_crossed, any_crossed, helps, entering};
ghost use Rattle.tableau.specs.Table.{row_at};
ghost use Rattle.tableau.specs.Staged.{HasEntry};
ghost use Rattle.simplex_steps.specs.State.{column_in, grid_of, IsSolution, AreRanged, IsRanged, IsSound, SettledBelow, IsSettled, IsLeastBroken};
ghost use Rattle.simplex_steps.specs.Conflict.{NoneHelps, KnownEntries, IsTarget};
ghost use Rattle.simplex_steps.specs.Run.{IsFound};
ghost use Rattle.simplex_steps.specs.Suspects.{Covers, lesser};

use crate::bounds::{helps, is_crossed, is_less_than, is_outside};
use crate::conflict::explain_row;
use crate::suspects::Suspects;
use fraction128::{Bound, Column, Entry};
use std::alloc::{AllocError, Global};
use tableau::Tableau;

/// A pivot: the row whose basic variable leaves, the bound that this variable misses, and the variable that enters.
#[derive(Clone, Copy, Drop)]
pub struct Turn {
    pub place: usize,
    pub number: i128,
    pub entering: u32,
}

/// What the next step is.
#[derive(Drop)]
pub enum Found {
    /// There is none: all variables are within their bounds.
    Fits,
    /// There is none: no solution meets these bounds.
    Conflict(Vec<Bound>),
    /// A pivot.
    Pivot(Turn),
}

/// Of two variables the lesser, where the new one is chosen.
fn lesser(found: Option<u32>, variable: u32, is_chosen: bool) -> Option<u32>
    ensures { result ≡ lesser found variable is_chosen }
{
    match found {
        _ if !is_chosen => found,
        Some(best) if best <= variable => found,
        _ => Some(variable),
    }
}

/// The least variable whose bounds cross.
pub fn first_crossed(columns: &[Column], suspects: &Suspects) -> Option<u32>
    requires { Covers suspects.now columns.now }
    ensures some { IfSome result (λ i. (i < length columns.now) × (is_crossed (column_in columns.now i) ≡ true)) }
    ensures first { IfSome result (λ i. (j : ℕ) → j < i → is_crossed (column_in columns.now j) ≡ false) }
    ensures none { IfNone result (any_crossed columns.now ≡ false) }
{
    let listed = suspects.variables();
    let mut found = None;
    for variable in listed {
        found = lesser(found, *variable, is_crossed(&columns[*variable as usize]));
    }
    found
}

/// Whether a variable is outside its bounds, and isn't basic.
fn is_free_outside(tableau: &Tableau, columns: &[Column], variable: u32) -> bool
    requires { variable < length columns.now }
    ensures { result ≡ (is_some (missed (column_in columns.now variable)) && not (is_basic tableau.now.rows variable)) }
{
    tableau.facts();
    is_outside(&columns[variable as usize]) && !tableau.is_basic(variable)
}

/// The least variable that isn't basic and is outside its bounds.
pub fn least_outside(tableau: &Tableau, columns: &[Column], suspects: &Suspects) -> Option<u32>
    requires { Covers suspects.now columns.now }
    ensures known { IfSome result (λ i. i < length columns.now) }
    ensures outside { IfSome result (λ i. missed (column_in columns.now i) ≢ None) }
    ensures free { IfSome result (λ i. is_basic tableau.now.rows i ≡ false) }
    ensures settled { IfSome result (SettledBelow tableau.now columns.now) }
    ensures none { IfNone result (IsSettled tableau.now columns.now) }
{
    let listed = suspects.variables();
    let mut found = None;
    for variable in listed {
        found = lesser(
            found,
            *variable,
            is_free_outside(tableau, columns, *variable),
        );
    }
    found
}

/// Whether a variable is outside its bounds, and basic.
fn is_broken(tableau: &Tableau, columns: &[Column], variable: u32) -> bool
    requires { variable < length columns.now }
    ensures { result ≡ (is_some (missed (column_in columns.now variable)) && is_basic tableau.now.rows variable) }
{
    tableau.facts();
    is_outside(&columns[variable as usize]) && tableau.is_basic(variable)
}

/// The least basic variable that is outside its bounds.
fn least_broken(tableau: &Tableau, columns: &[Column], suspects: &Suspects) -> Option<u32>
    requires { Covers suspects.now columns.now }
    ensures some { IfSome result (λ i. (is_some (missed (column_in columns.now i)) && is_basic tableau.now.rows i) ≡ true) }
    ensures first { IfSome result (λ i. (j : ℕ) → j < length columns.now → (is_some (missed (column_in columns.now j)) && is_basic tableau.now.rows j) ≡ true → i ≤ j) }
    ensures none { IfNone result ((j : ℕ) → j < length columns.now → (is_some (missed (column_in columns.now j)) && is_basic tableau.now.rows j) ≡ false) }
{
    let listed = suspects.variables();
    let mut found = None;
    for variable in listed {
        found = lesser(found, *variable, is_broken(tableau, columns, *variable));
    }
    found
}

/// The row of the least basic variable that is outside its bounds.
fn first_broken(tableau: &Tableau, columns: &[Column], suspects: &Suspects) -> Option<usize>
    requires count { length columns.now ≡ tableau.now.count }
    requires covers { Covers suspects.now columns.now }
    ensures { IsLeastBroken tableau.now.rows columns.now (length tableau.now.rows) result }
{
    tableau.facts();
    match least_broken(tableau, columns, suspects) {
        Some(variable) => tableau.place_of(variable),
        None => None,
    }
}

/// The first entry of the row whose variable can move so that the basic variable rises, or falls.
fn first_helping(columns: &[Column], entries: &[Entry], rises: bool) -> Option<usize>
    requires { KnownEntries (length columns.now) entries.now }
    ensures some { IfSome result (λ i. i < length entries.now) }
    ensures helps { IfSome result (λ i. (d : Entry) → helps rises (slice_index_or entries.now i d).coefficient (column_in columns.now (slice_index_or entries.now i d).variable) ≡ true) }
    ensures first { IfSome result (λ i. (k : ℕ) (d : Entry) → k < i → helps rises (slice_index_or entries.now k d).coefficient (column_in columns.now (slice_index_or entries.now k d).variable) ≡ false) }
    ensures none { IfNone result (NoneHelps columns.now rises entries.now) }
{
    for (i, entry) in entries.iter().enumerate() {
        if helps(&columns[entry.variable as usize], rises, entry.coefficient) {
            return Some(i);
        }
    }
    None
}

/// The least variable of the row that can move so that the basic variable rises, or falls.
fn entering_variable(
    tableau: &Tableau,
    columns: &[Column],
    place: usize,
    rises: bool,
) -> Option<u32>
    requires count { length columns.now ≡ tableau.now.count }
    requires place { place < length tableau.now.rows }
    ensures known { IfSome result (λ c. c < tableau.now.count) }
    ensures entry { IfSome result (λ c. HasEntry c (row_at tableau.now.rows place).entries) }
    ensures some { IfSome result (λ c. entering (grid_of tableau.now columns.now) (row_at tableau.now.rows place).basic rises ≡ Some c) }
    ensures none { IfNone result (entering (grid_of tableau.now columns.now) (row_at tableau.now.rows place).basic rises ≡ None) }
    ensures stopped { IfNone result (NoneHelps columns.now rises (row_at tableau.now.rows place).entries) }
{
    tableau.facts();
    let entries = tableau.entries(place);
    match first_helping(columns, entries, rises) {
        Some(i) => Some(entries[i].variable),
        None => None,
    }
}

/// The bound that a value is outside of, and whether it is the lower one.
fn target(column: &Column) -> (i128, bool)
    requires outside { missed column.now ≢ None }
    requires lower { IsRanged column.now.lower }
    requires upper { IsRanged column.now.upper }
    ensures { IsTarget column.now result.0 result.1 }
{
    match column.lower {
        Some(number) if is_less_than(column.value, number) => (number, true),
        _ => (column.upper.unwrap(), false),
    }
}

/// The pivot of the row at a place, whose basic variable is the least outside its bounds, or the bounds that show that there is none.
fn find_turn(
    alloc: Global,
    tableau: &Tableau,
    columns: &[Column],
    place: usize,
) -> Result<Found, AllocError>
    requires sound { IsSound tableau.now columns.now }
    requires settled { IsSettled tableau.now columns.now }
    requires least { IsLeastBroken tableau.now.rows columns.now (length tableau.now.rows) (Some place) }
    ensures { IfOk result (IsFound tableau.now columns.now) }
{
    tableau.facts();
    let basic = tableau.basic(place);
    let (number, rises) = target(&columns[basic as usize]);
    match entering_variable(tableau, columns, place, rises) {
        Some(entering) => Ok(Found::Pivot(Turn {
            place,
            number,
            entering,
        })),
        None => Ok(Found::Conflict(explain_row(alloc, tableau, columns, place, number, rises)?)),
    }
}

/// The next step, where all that isn't basic is within its bounds.
pub fn find(
    alloc: Global,
    tableau: &Tableau,
    columns: &[Column],
    suspects: &Suspects,
) -> Result<Found, AllocError>
    requires sound { IsSound tableau.now columns.now }
    requires settled { IsSettled tableau.now columns.now }
    requires covers { Covers suspects.now columns.now }
    ensures { IfOk result (IsFound tableau.now columns.now) }
{
    tableau.facts();
    match first_broken(tableau, columns, suspects) {
        None => Ok(Found::Fits),
        Some(place) => find_turn(alloc, tableau, columns, place),
    }
}
