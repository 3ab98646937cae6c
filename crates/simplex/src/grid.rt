//! Rows and columns as a grid with nothing pending.
ghost use Rattle.std.specs.Prelude.{◌≡◌, ◌<◌, length, IfOk};
ghost use Rattle.tableau.specs.Table.{row_at};
ghost use Rattle.simplex_steps.specs.State.{grid_of};

use fraction128::{Column, Grid, Seq, TableRow};
use simplex_steps::copy_column;
use std::alloc::{AllocError, Global};
use tableau::Tableau;

/// A copy of a row.
fn copy_row(alloc: Global, tableau: &Tableau, place: usize) -> Result<TableRow, AllocError>
    requires { place < length tableau.now.rows }
    ensures { IfOk result (λ r. r ≡ row_at tableau.now.rows place) }
{
    let mut entries = Vec::new(alloc);
    entries.extend_from_slice(tableau.entries(place))?;
    Ok(TableRow {
        basic: tableau.basic(place),
        entries: Seq::from_vec(entries),
    })
}

/// Copies of all rows.
fn copy_rows(alloc: Global, tableau: &Tableau) -> Result<Vec<TableRow>, AllocError>
    ensures { IfOk result (λ rs. rs.items ≡ tableau.now.rows) }
{
    let mut rows = Vec::new(alloc);
    for place in 0..tableau.len() {
        let row = copy_row(alloc, tableau, place)?;
        rows.push(row)?;
    }
    Ok(rows)
}

/// Copies of columns.
fn copy_columns(alloc: Global, columns: &[Column]) -> Result<Vec<Column>, AllocError>
    ensures { IfOk result (λ cs. cs.items ≡ columns.now) }
{
    let mut copies = Vec::new(alloc);
    for column in columns {
        let copy = copy_column(alloc, column)?;
        copies.push(copy)?;
    }
    Ok(copies)
}

/// A copy of rows and columns as a grid.
pub(crate) fn copy_grid(
    alloc: Global,
    tableau: &Tableau,
    columns: &[Column],
) -> Result<Grid, AllocError>
    ensures { IfOk result (λ g. g ≡ grid_of tableau.now columns.now) }
{
    let columns = copy_columns(alloc, columns)?;
    let rows = copy_rows(alloc, tableau)?;
    Ok(Grid {
        columns: Seq::from_vec(columns),
        rows: Seq::from_vec(rows),
        pending: None,
    })
}
