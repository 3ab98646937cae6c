//! Lines: rows with the columns of their variables.
ghost use Rattle.std.specs.Prelude.{◌≡◌, ◌<◌, [], ◌∷◌, ◌++◌, map, length, OnOk, OnErr, IfOk, Some};
ghost use Rattle.fraction128.specs.Number.{whole};
ghost use Rattle.fraction128.specs.Lines.{pivot_line};
ghost use Rattle.tableau.specs.Table.{row_at};
ghost use Rattle.simplex_steps.specs.State.{column_in, grid_of, member_in};
ghost use Rattle.simplex_steps.specs.Conflict.{KnownEntries};

use fraction128::{Column, Entry, Fraction, Line, Member, Seq, Sum};
use std::alloc::{AllocError, Global};
use tableau::Tableau;

/// The lines of pivots, in order, where they are to be kept.
#[derive(Drop)]
pub struct PivotLines {
    pub keep: bool,
    pub lines: Vec<Line>,
}

/// A copy of a sum.
fn copy_sum(alloc: Global, sum: &Sum) -> Result<Sum, AllocError>
    ensures { IfOk result (λ s. s ≡ sum.now) }
{
    let mut summands = Vec::new(alloc);
    summands.extend_from_slice(sum.as_slice())?;
    Ok(Seq::from_vec(summands))
}

/// A copy of a column.
pub fn copy_column(alloc: Global, column: &Column) -> Result<Column, AllocError>
    ensures { IfOk result (λ c. c ≡ column.now) }
{
    let sum = copy_sum(alloc, &column.sum)?;
    Ok(Column {
        sum,
        lower: column.lower,
        upper: column.upper,
        value: column.value,
    })
}

/// An entry with the column of its variable.
fn member(alloc: Global, columns: &[Column], entry: Entry) -> Result<Member, AllocError>
    requires { entry.variable < length columns.now }
    ensures { IfOk result (λ m. m ≡ member_in columns.now entry) }
{
    let column = copy_column(alloc, &columns[entry.variable as usize])?;
    Ok(Member {
        variable: entry.variable,
        coefficient: entry.coefficient,
        column,
    })
}

/// The entries with the columns of their variables.
fn members(alloc: Global, columns: &[Column], entries: &[Entry]) -> Result<Vec<Member>, AllocError>
    requires { KnownEntries (length columns.now) entries.now }
    ensures { IfOk result (λ ms. ms.items ≡ map (member_in columns.now) entries.now) }
{
    let mut members = Vec::new(alloc);
    for entry in entries {
        let entry = member(alloc, columns, *entry)?;
        members.push(entry)?;
    }
    Ok(members)
}

/// The line of the pivot of the row at a place with the entering variable.
pub fn line_of_pivot(
    alloc: Global,
    tableau: &Tableau,
    columns: &[Column],
    place: usize,
    entering: u32,
) -> Result<Line, AllocError>
    requires count { length columns.now ≡ tableau.now.count }
    requires place { place < length tableau.now.rows }
    ensures { IfOk result (λ l. l ≡ pivot_line (grid_of tableau.now columns.now) (row_at tableau.now.rows place).basic entering) }
{
    tableau.facts();
    let itself = Entry {
        variable: tableau.basic(place),
        coefficient: Fraction::from_whole(1),
    };
    let basic = member(alloc, columns, itself)?;
    let entries = members(alloc, columns, tableau.entries(place))?;
    Ok(Line {
        basic: Some(basic),
        entries: Seq::from_vec(entries),
        moves: Some(entering),
    })
}
