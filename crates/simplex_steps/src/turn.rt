//! One step: a move, or a pivot, whose line is kept where lines are kept.
ghost use Rattle.std.specs.Prelude.{◌≡◌, ◌≢◌, ℕ, ◌+◌, ◌<◌, ◌≤◌, ◌↔◌, ◌++◌, true, false, take, length, OnOk, OnErr, IfOk, IfErr, Some, None};
ghost use Rattle.fraction128.specs.declared.ratio.Ratio.{Ratio};
ghost use Rattle.fraction128.specs.Grid.{missed, is_basic, step_fits, after, MeetsRows};
ghost use Rattle.tableau.specs.Failing.{IsRange};
ghost use Rattle.tableau.specs.Table.{row_at};
ghost use Rattle.simplex_steps.specs.State.{column_in, grid_of, IsSound, SettledBelow};
ghost use Rattle.fraction128.specs.Lines.{NextFails};
ghost use Rattle.simplex_steps.specs.Suspects.{Covers};
ghost use Rattle.simplex_steps.specs.Run.{NextPivotFits, IsTurn, IsAdvanced, IsMoved, Settles, turn_lines};

use crate::bounds::missed;
use crate::find::{Turn, least_outside};
use crate::line::{PivotLines, line_of_pivot};
use crate::moves::{Moved, move_columns, pivot_columns, try_columns};
use crate::suspects::Suspects;
use fraction128::{Column, Line};
use std::alloc::{AllocError, Global};
use tableau::{Failure, Tableau};

/// Makes the pivot that is the next step. An `Err` changes nothing.
fn make_turn(
    tableau: &mut Tableau,
    columns: &mut [Column],
    moved: &mut Vec<Moved>,
    suspects: &mut Suspects,
    turn: Turn,
) -> Result<(), Failure>
    requires sound { IsSound tableau.old columns.old }
    requires turn { IsTurn tableau.old columns.old turn }
    requires covers { Covers suspects.old columns.old }
    ensures covers { Covers suspects.new columns.new }
    ensures advanced { OnOk result (IsAdvanced tableau.old columns.old tableau.new columns.new) }
    ensures range { IfErr result (λ e. IsRange e → NextFails (grid_of tableau.old columns.old)) }
    ensures err { OnErr result ((tableau.new ≡ tableau.old) × (columns.new ≡ columns.old)) }
{
    tableau.facts();
    pivot_columns(
        tableau,
        columns,
        moved,
        suspects,
        turn.place,
        turn.number,
        turn.entering,
    )
}

/// Adds the line of a turn to those that are kept.
fn add_line(
    alloc: Global,
    tableau: &Tableau,
    columns: &[Column],
    kept: &mut PivotLines,
    turn: Turn,
) -> Result<(), AllocError>
    requires count { length columns.now ≡ tableau.now.count }
    requires place { turn.place < length tableau.now.rows }
    ensures ok { OnOk result (kept.new.lines.items ≡ kept.old.lines.items ++ turn_lines kept.old.keep tableau.now columns.now turn) }
    ensures err { OnErr result (kept.new.lines.items ≡ kept.old.lines.items) }
    ensures keep { kept.new.keep ≡ kept.old.keep }
{
    if kept.keep {
        let line = line_of_pivot(alloc, tableau, columns, turn.place, turn.entering)?;
        kept.lines.push(line)?;
    }
    Ok(())
}

/// Takes back all lines but the first ones, so many as the count says, where the pivot wasn't made.
fn drop_unmade(lines: &mut Vec<Line>, made: &Result<(), Failure>, count: usize)
    ensures ok { OnOk made.now (lines.new.items ≡ lines.old.items) }
    ensures err { OnErr made.now (lines.new.items ≡ take count lines.old.items) }
{
    if made.is_err() {
        lines.truncate(count);
    }
}

/// Makes the pivot that is the next step, and adds its line to those that are kept. An `Err` changes nothing.
pub fn record_turn(
    alloc: Global,
    tableau: &mut Tableau,
    columns: &mut [Column],
    moved: &mut Vec<Moved>,
    suspects: &mut Suspects,
    kept: &mut PivotLines,
    turn: Turn,
) -> Result<(), Failure>
    requires sound { IsSound tableau.old columns.old }
    requires turn { IsTurn tableau.old columns.old turn }
    requires covers { Covers suspects.old columns.old }
    ensures covers { Covers suspects.new columns.new }
    ensures advanced { OnOk result (IsAdvanced tableau.old columns.old tableau.new columns.new) }
    ensures lines { OnOk result (kept.new.lines.items ≡ kept.old.lines.items ++ turn_lines kept.old.keep tableau.old columns.old turn) }
    ensures keep { kept.new.keep ≡ kept.old.keep }
    ensures range { IfErr result (λ e. IsRange e → NextFails (grid_of tableau.old columns.old)) }
    ensures err { OnErr result ((tableau.new ≡ tableau.old) × (columns.new ≡ columns.old) × (kept.new.lines.items ≡ kept.old.lines.items)) }
{
    let count = kept.lines.len();
    add_line(alloc, tableau, columns, kept, turn)?;
    let made = make_turn(tableau, columns, moved, suspects, turn);
    drop_unmade(&mut kept.lines, &made, count);
    made
}

/// Tries the pivot that is the next step, and leaves all as it is.
pub fn try_turn(
    tableau: &mut Tableau,
    columns: &[Column],
    moved: &mut Vec<Moved>,
    turn: Turn,
) -> Result<(), Failure>
    requires sound { IsSound tableau.old columns.now }
    requires turn { IsTurn tableau.old columns.now turn }
    ensures same { tableau.new ≡ tableau.old }
    ensures fits { OnOk result (NextPivotFits (grid_of tableau.old columns.now)) }
    ensures range { IfErr result (λ e. IsRange e → NextFails (grid_of tableau.old columns.now)) }
{
    tableau.facts();
    try_columns(
        tableau,
        columns,
        moved,
        turn.place,
        turn.number,
        turn.entering,
    )
}

/// Moves a variable that isn't basic to the bound that it misses, where those below it are within their bounds. An `Err` changes nothing.
fn make_move(
    tableau: &Tableau,
    columns: &mut [Column],
    moved: &mut Vec<Moved>,
    suspects: &mut Suspects,
    variable: u32,
    number: i128,
) -> Result<(), Failure>
    requires covers { Covers suspects.old columns.old }
    requires sound { IsSound tableau.now columns.old }
    requires known { variable < tableau.now.count }
    requires free { is_basic tableau.now.rows variable ≡ false }
    requires outside { missed (column_in columns.old variable) ≡ Some number }
    requires settled { SettledBelow tableau.now columns.old variable }
    ensures moved { OnOk result (IsMoved tableau.now columns.old columns.new (variable + 1)) }
    ensures range { IfErr result (λ e. IsRange e → NextFails (grid_of tableau.now columns.old)) }
    ensures err { OnErr result (columns.new ≡ columns.old) }
    ensures covers { Covers suspects.new columns.new }
{
    tableau.facts();
    move_columns(tableau, columns, moved, suspects, variable, number)
}

/// Brings a variable that isn't basic within its bounds, where those below it are. An `Err` changes nothing.
fn settle_one(
    tableau: &Tableau,
    columns: &mut [Column],
    moved: &mut Vec<Moved>,
    suspects: &mut Suspects,
    variable: u32,
) -> Result<(), Failure>
    requires covers { Covers suspects.old columns.old }
    requires sound { IsSound tableau.now columns.old }
    requires known { variable < tableau.now.count }
    requires settled { SettledBelow tableau.now columns.old variable }
    ensures settles { Settles tableau.now columns.old columns.new (variable + 1) result }
    ensures covers { Covers suspects.new columns.new }
{
    match missed(&columns[variable as usize]) {
        Some(number) => match tableau.place_of(variable) {
            None => make_move(tableau, columns, moved, suspects, variable, number),
            Some(_) => Ok(()),
        },
        None => Ok(()),
    }
}

/// Brings each variable that isn't basic within its bounds, the least first, by looking at all.
fn settle_all(
    tableau: &Tableau,
    columns: &mut [Column],
    moved: &mut Vec<Moved>,
    suspects: &mut Suspects,
) -> Result<(), Failure>
    requires sound { IsSound tableau.now columns.old }
    requires covers { Covers suspects.old columns.old }
    ensures settles { Settles tableau.now columns.old columns.new (length columns.new) result }
    ensures covers { Covers suspects.new columns.new }
{
    for variable in 0..tableau.count() {
        settle_one(tableau, columns, moved, suspects, variable)?;
    }
    Ok(())
}

/// Brings each variable that isn't basic within its bounds, the least first, each found among the suspects.
fn settle_suspects(
    tableau: &Tableau,
    columns: &mut [Column],
    moved: &mut Vec<Moved>,
    suspects: &mut Suspects,
) -> Result<(), Failure>
    requires sound { IsSound tableau.now columns.old }
    requires covers { Covers suspects.old columns.old }
    ensures settles { Settles tableau.now columns.old columns.new (length columns.new) result }
    ensures covers { Covers suspects.new columns.new }
{
    let count = tableau.count();
    let mut next = 0;
    while let Some(variable) = least_outside(tableau, columns, suspects) {
        settle_one(tableau, columns, moved, suspects, variable)?;
        next = variable + 1;
    }
    Ok(())
}

/// Whether so many suspects are better met by looking at all variables once, in order.
fn are_many(suspects: usize, variables: u32) -> bool {
    suspects.saturating_mul(suspects) > variables as usize
}

/// Brings each variable that isn't basic within its bounds, the least first.
pub fn settle(
    tableau: &Tableau,
    columns: &mut [Column],
    moved: &mut Vec<Moved>,
    suspects: &mut Suspects,
) -> Result<(), Failure>
    requires sound { IsSound tableau.now columns.old }
    requires covers { Covers suspects.old columns.old }
    ensures settles { Settles tableau.now columns.old columns.new (length columns.new) result }
    ensures covers { Covers suspects.new columns.new }
{
    if are_many(suspects.variables().len(), tableau.count()) {
        settle_all(tableau, columns, moved, suspects)
    } else {
        settle_suspects(tableau, columns, moved, suspects)
    }
}
