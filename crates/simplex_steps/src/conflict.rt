//! Bounds that no solution of the rows meets.
ghost use Rattle.std.specs.Prelude.{◌≡◌, ℕ, ◌+◌, ◌<◌, ◌≤◌, true, false, [], ◌∷◌, length, slice_index_or, All, IfOk, Some, None};
ghost use Rattle.fraction128.specs.Grid.{is_crossed};
ghost use Rattle.tableau.specs.Table.{row_at};
ghost use Rattle.simplex_steps.specs.State.{column_in, IsSolution};
ghost use Rattle.simplex_steps.specs.Conflict.{NoneHelps, KnownEntries, stops, side_bound, stop_side, IsTarget, IsRowConflict, IsCrossing};

use fraction128::{Bound, Column, Entry, Fraction, Side};
use std::alloc::{AllocError, Global};
use tableau::Tableau;

/// The bound of a variable on a side, which has one.
fn bound(columns: &[Column], variable: u32, side: Side) -> Bound
    requires { variable < length columns.now }
    ensures { result ≡ side_bound columns.now variable side }
{
    let column = &columns[variable as usize];
    let number = match side {
        Side::Lower => column.lower,
        Side::Upper => column.upper,
    };
    Bound {
        variable,
        side,
        number: number.unwrap_or(0),
    }
}

/// The side on which a variable with this coefficient is stopped.
fn stopped_at(rises: bool, coefficient: Fraction) -> Side
    ensures { result ≡ stop_side rises coefficient }
{
    if (coefficient.numerator() > 0) == rises {
        Side::Upper
    } else {
        Side::Lower
    }
}

/// The bound that the row's basic variable misses, and those that stop its entries.
fn explain(
    alloc: Global,
    columns: &[Column],
    basic: u32,
    entries: &[Entry],
    rises: bool,
) -> Result<Vec<Bound>, AllocError>
    requires entries { KnownEntries (length columns.now) entries.now }
    requires basic { basic < length columns.now }
    ensures { IfOk result (λ bs. bs.items ≡ stops columns.now rises basic entries.now) }
{
    let mut bounds = Vec::new(alloc);
    bounds.push(bound(
        columns,
        basic,
        if rises { Side::Lower } else { Side::Upper },
    ))?;
    for entry in entries {
        bounds.push(bound(
            columns,
            entry.variable,
            stopped_at(rises, entry.coefficient),
        ))?;
    }
    Ok(bounds)
}

/// The bounds that no solution meets, where the basic variable of a row misses a bound and no entry can help.
pub fn explain_row(
    alloc: Global,
    tableau: &Tableau,
    columns: &[Column],
    place: usize,
    number: i128,
    rises: bool,
) -> Result<Vec<Bound>, AllocError>
    requires solution { IsSolution tableau.now columns.now }
    requires place { place < length tableau.now.rows }
    requires target { IsTarget (column_in columns.now (row_at tableau.now.rows place).basic) number rises }
    requires stopped { NoneHelps columns.now rises (row_at tableau.now.rows place).entries }
    ensures { IfOk result (λ bs. IsRowConflict tableau.now.rows columns.now bs.items) }
{
    tableau.facts();
    explain(
        alloc,
        columns,
        tableau.basic(place),
        tableau.entries(place),
        rises,
    )
}

/// The two bounds of the least variable whose bounds cross.
pub fn explain_crossed(
    alloc: Global,
    columns: &[Column],
    variable: u32,
) -> Result<Vec<Bound>, AllocError>
    requires known { variable < length columns.now }
    requires crossed { is_crossed (column_in columns.now variable) ≡ true }
    requires least { (j : ℕ) → j < variable → is_crossed (column_in columns.now j) ≡ false }
    ensures { IfOk result (λ bs. IsCrossing columns.now bs.items) }
{
    let mut bounds = Vec::new(alloc);
    bounds.push(bound(columns, variable, Side::Lower))?;
    bounds.push(bound(columns, variable, Side::Upper))?;
    Ok(bounds)
}
