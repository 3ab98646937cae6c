//! The values that variables get in a step.
ghost use Rattle.std.specs.Prelude.{◌≡◌, ◌≢◌, ℕ, ◌+◌, ◌<◌, ◌≤◌, ◌⊎◌, ◌↔◌, ◌&&◌, pos, true, false, [], ◌∷◌, ◌++◌, length, slice_index_or, slice_set, take, OnOk, OnErr, IfOk, IfErr, Some, None};
ghost use Rattle.fraction128.specs.declared.ratio.Ratio.{Ratio};
ghost use Rattle.fraction128.specs.Whole.{InRange};
ghost use Rattle.fraction128.specs.Ratio.{IsFraction};
ghost use Rattle.fraction128.specs.Number.{whole, is_zero};
ghost use Rattle.fraction128.specs.Listed.{sum_of, product_of, reciprocal_of, fused};
ghost use Rattle.fraction128.specs.Grid.{coefficient, distance, distance_fits, fused_fits, every_row, MeetsRows, pivoted_rows, pivot_fits};
ghost use Rattle.tableau.specs.Failing.{IsRange};
ghost use Rattle.tableau.specs.Table.{row_at};
ghost use Rattle.simplex_steps.specs.State.{column_in, values};
ghost use Rattle.simplex_steps.specs.Suspects.{Covers};
ghost use Rattle.simplex_steps.specs.Moved.{CanPivot, shift, shifts, AreShifts, shift_fits, applied, landed, moved_to, moved_fits, row_distance, pivoted_to, pivoted_fits, entering_fits};

use crate::suspects::{Suspects, suspect};
use fraction128::{Column, Fraction, Range};
use tableau::{Failure, Tableau};

/// The value that a variable gets.
#[derive(Clone, Copy, Drop)]
pub struct Moved {
    pub variable: u32,
    pub value: Fraction,
}

/// The value that a coefficient times a distance leads to.
pub fn moved_by(
    value: Fraction,
    coefficient: Fraction,
    distance: Fraction,
) -> Result<Fraction, Range>
    ensures value { IfOk result (λ x. x ≡ fused value coefficient distance) }
    ensures fits { OnOk result (fused_fits value coefficient distance ≡ true) }
    ensures range { OnErr result (fused_fits value coefficient distance ≡ false) }
{
    let product = coefficient.mul(distance)?;
    value.add(product)
}

/// Lists what the basic variable of a row becomes when a variable moves by a distance, if the row has that variable.
fn list_shift(
    moved: &mut Vec<Moved>,
    tableau: &Tableau,
    columns: &[Column],
    place: usize,
    variable: u32,
    distance: Fraction,
) -> Result<(), Failure>
    requires count { length columns.now ≡ tableau.now.count }
    requires place { place < length tableau.now.rows }
    ensures ok { OnOk result (moved.new.items ≡ moved.old.items ++ shift columns.now variable distance (row_at tableau.now.rows place)) }
    ensures fits { OnOk result (shift_fits columns.now variable distance (row_at tableau.now.rows place) ≡ true) }
    ensures range { IfErr result (λ e. IsRange e → shift_fits columns.now variable distance (row_at tableau.now.rows place) ≡ false) }
{
    let basic = tableau.basic(place);
    let value = columns[basic as usize].value;
    let _value = value.ratio();
    let _distance = distance.ratio();
    match tableau.coefficient(place, variable) {
        Some(coefficient) => {
            let value = moved_by(value, coefficient, distance)?;
            moved.push(Moved {
                variable: basic,
                value,
            })?;
            Ok(())
        }
        None => Ok(()),
    }
}

/// Lists what the basic variables become when a variable moves by a distance, each of them at least once.
fn list_shifts(
    moved: &mut Vec<Moved>,
    tableau: &Tableau,
    columns: &[Column],
    variable: u32,
    distance: Fraction,
) -> Result<(), Failure>
    requires count { length columns.now ≡ tableau.now.count }
    requires fractions { (i : ℕ) → IsFraction (values columns.now i) }
    ensures ok { OnOk result (AreShifts columns.now variable distance tableau.now.rows moved.new.items) }
    ensures fits { OnOk result (every_row tableau.now.rows (shift_fits columns.now variable distance) ≡ true) }
    ensures range { IfErr result (λ e. IsRange e → every_row tableau.now.rows (shift_fits columns.now variable distance) ≡ false) }
{
    tableau.facts();
    let _distance = distance.ratio();
    moved.clear();
    let places = tableau.holders(variable);
    for place in places {
        if *place >= tableau.len() {
            continue;
        }
        list_shift(moved, tableau, columns, *place, variable, distance)?;
    }
    Ok(())
}

/// Gives the variables listed their values.
fn apply(columns: &mut [Column], moved: &[Moved])
    requires { (k : ℕ) (d : Moved) → k < length moved.now → (slice_index_or moved.now k d).variable < length columns.old }
    ensures { columns.new ≡ applied moved.now columns.old }
{
    for change in moved {
        columns[change.variable as usize].value = change.value;
    }
}

/// Gives the variables listed their values, and then one more.
fn land(columns: &mut [Column], moved: &[Moved], variable: u32, value: Fraction)
    requires moved { (k : ℕ) (d : Moved) → k < length moved.now → (slice_index_or moved.now k d).variable < length columns.old }
    requires variable { variable < length columns.old }
    ensures { columns.new ≡ landed moved.now columns.old variable value }
{
    apply(columns, moved);
    columns[variable as usize].value = value;
}

/// How far a value is from a whole number.
fn distance_to(number: i128, value: Fraction) -> Result<Fraction, Range>
    requires { InRange number }
    ensures value { IfOk result (λ x. x ≡ distance number value) }
    ensures fits { OnOk result (distance_fits number value ≡ true) }
    ensures range { OnErr result (distance_fits number value ≡ false) }
{
    Fraction::from_whole(number).add(value.neg())
}

/// Lists the values of a move.
fn list_move(
    tableau: &Tableau,
    columns: &[Column],
    moved: &mut Vec<Moved>,
    variable: u32,
    number: i128,
) -> Result<(), Failure>
    requires count { length columns.now ≡ tableau.now.count }
    requires fractions { (i : ℕ) → IsFraction (values columns.now i) }
    requires number { InRange number }
    requires known { variable < tableau.now.count }
    ensures ok { OnOk result (AreShifts columns.now variable (distance number (values columns.now variable)) tableau.now.rows moved.new.items) }
    ensures fits { OnOk result (moved_fits tableau.now.rows columns.now variable number ≡ true) }
    ensures range { IfErr result (λ e. IsRange e → moved_fits tableau.now.rows columns.now variable number ≡ false) }
{
    let distance = distance_to(number, columns[variable as usize].value)?;
    list_shifts(moved, tableau, columns, variable, distance)
}

/// Moves a variable that isn't basic to a whole number, and the basic ones with it. An `Err` changes nothing.
pub fn move_columns(
    tableau: &Tableau,
    columns: &mut [Column],
    moved: &mut Vec<Moved>,
    suspects: &mut Suspects,
    variable: u32,
    number: i128,
) -> Result<(), Failure>
    requires covers { Covers suspects.old columns.old }
    requires count { length columns.old ≡ tableau.now.count }
    requires fractions { (i : ℕ) → IsFraction (values columns.old i) }
    requires number { InRange number }
    requires known { variable < tableau.now.count }
    ensures ok { OnOk result (columns.new ≡ moved_to tableau.now.rows columns.old variable number) }
    ensures fits { OnOk result (moved_fits tableau.now.rows columns.old variable number ≡ true) }
    ensures range { IfErr result (λ e. IsRange e → moved_fits tableau.now.rows columns.old variable number ≡ false) }
    ensures err { OnErr result (columns.new ≡ columns.old) }
    ensures covers { Covers suspects.new columns.new }
{
    tableau.facts();
    list_move(tableau, columns, moved, variable, number)?;
    suspect(suspects, columns, moved, variable, variable)?;
    land(columns, moved, variable, Fraction::from_whole(number));
    Ok(())
}

/// How far the entering variable moves in a pivot, and the value that it gets.
fn entering_value(
    value: Fraction,
    number: i128,
    coefficient: Fraction,
    entering: Fraction,
) -> Result<(Fraction, Fraction), Range>
    requires number { InRange number }
    requires nonzero { coefficient.numerator ≢ pos 0 }
    ensures distance { IfOk result (λ p. p.0 ≡ product_of (distance number value) (reciprocal_of coefficient)) }
    ensures value { IfOk result (λ p. p.1 ≡ sum_of entering (product_of (distance number value) (reciprocal_of coefficient))) }
    ensures fits { OnOk result (entering_fits number value coefficient entering ≡ true) }
    ensures range { OnErr result (entering_fits number value coefficient entering ≡ false) }
{
    let missing = distance_to(number, value)?;
    let distance = missing.mul(coefficient.recip())?;
    let value = entering.add(distance)?;
    Ok((distance, value))
}

/// Lists the values of a pivot, and tells that of the entering variable.
fn list_pivot(
    tableau: &Tableau,
    columns: &[Column],
    moved: &mut Vec<Moved>,
    place: usize,
    number: i128,
    entering: u32,
) -> Result<Fraction, Failure>
    requires count { length columns.now ≡ tableau.now.count }
    requires fractions { (i : ℕ) → IsFraction (values columns.now i) }
    requires number { InRange number }
    requires place { place < length tableau.now.rows }
    requires known { entering < tableau.now.count }
    requires nonzero { is_zero (coefficient (row_at tableau.now.rows place).entries entering) ≡ false }
    ensures value { IfOk result (λ x. x ≡ sum_of (values columns.now entering) (row_distance tableau.now.rows columns.now place number entering)) }
    ensures moved { OnOk result (AreShifts columns.now entering (row_distance tableau.now.rows columns.now place number entering) tableau.now.rows moved.new.items) }
    ensures fits { OnOk result (pivoted_fits tableau.now.rows columns.now place number entering ≡ true) }
    ensures range { IfErr result (λ e. IsRange e → pivoted_fits tableau.now.rows columns.now place number entering ≡ false) }
{
    let basic = tableau.basic(place);
    let coefficient = tableau.coefficient(place, entering).unwrap();
    let (distance, value) = entering_value(
        columns[basic as usize].value,
        number,
        coefficient,
        columns[entering as usize].value,
    )?;
    list_shifts(moved, tableau, columns, entering, distance)?;
    Ok(value)
}

/// Gives the basic variable of a row its bound as value by moving the entering variable, which takes its place. An `Err` changes nothing.
pub fn pivot_columns(
    tableau: &mut Tableau,
    columns: &mut [Column],
    moved: &mut Vec<Moved>,
    suspects: &mut Suspects,
    place: usize,
    number: i128,
    entering: u32,
) -> Result<(), Failure>
    requires covers { Covers suspects.old columns.old }
    requires pivot { CanPivot tableau.old columns.old place number entering }
    ensures columns { OnOk result (columns.new ≡ pivoted_to tableau.old.rows columns.old place number entering) }
    ensures rows { OnOk result (tableau.new.rows ≡ pivoted_rows tableau.old.count tableau.old.rows (row_at tableau.old.rows place).basic entering) }
    ensures count { tableau.new.count ≡ tableau.old.count }
    ensures keeps { OnOk result ((v : ℕ → Ratio) → ((i : ℕ) → 0 < (v i).denominator) → (MeetsRows tableau.new.rows v ↔ MeetsRows tableau.old.rows v)) }
    ensures fits { OnOk result ((pivot_fits tableau.old.count tableau.old.rows (row_at tableau.old.rows place).basic entering && pivoted_fits tableau.old.rows columns.old place number entering) ≡ true) }
    ensures range { IfErr result (λ e. IsRange e → (pivot_fits tableau.old.count tableau.old.rows (row_at tableau.old.rows place).basic entering && pivoted_fits tableau.old.rows columns.old place number entering) ≡ false) }
    ensures err { OnErr result ((tableau.new ≡ tableau.old) × (columns.new ≡ columns.old)) }
    ensures covers { Covers suspects.new columns.new }
{
    tableau.facts();
    let basic = tableau.basic(place);
    let value = list_pivot(tableau, columns, moved, place, number, entering)?;
    suspect(suspects, columns, moved, entering, basic)?;
    tableau.pivot(place, entering)?;
    land(columns, moved, entering, value);
    columns[basic as usize].value = Fraction::from_whole(number);
    Ok(())
}

/// Tries a pivot, and leaves rows and values as they are.
pub fn try_columns(
    tableau: &mut Tableau,
    columns: &[Column],
    moved: &mut Vec<Moved>,
    place: usize,
    number: i128,
    entering: u32,
) -> Result<(), Failure>
    requires pivot { CanPivot tableau.old columns.now place number entering }
    ensures same { tableau.new ≡ tableau.old }
    ensures fits { OnOk result ((pivot_fits tableau.old.count tableau.old.rows (row_at tableau.old.rows place).basic entering && pivoted_fits tableau.old.rows columns.now place number entering) ≡ true) }
    ensures range { IfErr result (λ e. IsRange e → (pivot_fits tableau.old.count tableau.old.rows (row_at tableau.old.rows place).basic entering && pivoted_fits tableau.old.rows columns.now place number entering) ≡ false) }
{
    tableau.facts();
    list_pivot(tableau, columns, moved, place, number, entering)?;
    tableau.try_pivot(place, entering)
}
