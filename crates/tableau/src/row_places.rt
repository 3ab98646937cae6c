//! Where the rows of basic variables stand.
//!
//! Why: the list of places of rows may end before the variables do, so that a new variable for a
//! term takes no memory in the tableau.
ghost use Rattle.std.specs.Prelude.{◌≡◌, ℕ, ◌+◌, ◌-◌, ◌^◌, ◌<◌, ◌≤◌, [], ◌∷◌, ◌++◌, length, slice_set, OnOk, OnErr, IfErr, Some, None};
ghost use Rattle.tableau.specs.declared.failure.Failure.TheVariants.{Memory};
ghost use Rattle.tableau.specs.Places.{placed};

use crate::failure::Failure;
use crate::rows::Row;

/// The place of a variable, where it has one.
pub fn place_in(places: &[Option<usize>], variable: u32) -> Option<usize>
    ensures { result ≡ placed places.now variable }
{
    let variable = variable as usize;
    if variable < places.len() {
        places[variable]
    } else {
        None
    }
}

/// Adds variables without a place until there are so many. An `Err`, for want of memory, leaves fewer.
fn fill(places: &mut Vec<Option<usize>>, count: u32) -> Result<(), Failure>
    requires { length places.old.items ≤ count }
    ensures within { length places.new.items ≤ count }
    ensures same { (i : ℕ) → placed places.new.items i ≡ placed places.old.items i }
    ensures least { length places.old.items ≤ length places.new.items }
    ensures ok { OnOk result (length places.new.items ≡ count) }
    ensures memory { IfErr result (λ e. e ≡ Memory) }
{
    while places.len() < count as usize {
        places.push(None)?;
    }
    Ok(())
}

/// Adds a row, whose basic variable has no place yet. An `Err`, for want of memory, adds none.
pub fn add_row(
    rows: &mut Vec<Row>,
    places: &mut Vec<Option<usize>>,
    row: Row,
) -> Result<(), Failure>
    requires within { length places.old.items ≤ row.basic + 1 }
    requires room { row.basic < 2 ^ 32 - 1 }
    ensures within { length places.new.items ≤ row.basic + 1 }
    ensures least { length places.old.items ≤ length places.new.items }
    ensures rows { OnOk result (rows.new.items ≡ rows.old.items ++ row ∷ []) }
    ensures count { OnOk result (length places.new.items ≡ row.basic + 1) }
    ensures placed { OnOk result (placed places.new.items row.basic ≡ Some (length rows.old.items)) }
    ensures others { OnOk result ((i : ℕ) → i < row.basic → placed places.new.items i ≡ placed places.old.items i) }
    ensures same { OnErr result (rows.new.items ≡ rows.old.items) }
    ensures unplaced { OnErr result ((i : ℕ) → placed places.new.items i ≡ placed places.old.items i) }
    ensures memory { IfErr result (λ e. e ≡ Memory) }
{
    let basic = row.basic;
    let place = rows.len();
    fill(places, basic + 1)?;
    rows.push(row)?;
    places[basic as usize] = Some(place);
    Ok(())
}

/// Where the pivot was made, the entering variable takes the place of the basic one.
pub fn exchange(
    places: &mut Vec<Option<usize>>,
    made: &Result<(), Failure>,
    basic: u32,
    entering: u32,
    place: usize,
)
    requires basic { basic < length places.old.items }
    requires entering { entering < length places.old.items }
    ensures ok { OnOk made.now (places.new.items ≡ slice_set (slice_set places.old.items basic None) entering (Some place)) }
    ensures err { OnErr made.now (places.new.items ≡ places.old.items) }
{
    if made.is_ok() {
        places[basic as usize] = None;
        places[entering as usize] = Some(place);
    }
}
