//! A variable's value and its bounds.
ghost use Rattle.std.specs.Prelude.{◌≡◌, ◌<◌, ◌^◌, true, false, unsigned_abs};
ghost use Rattle.fraction128.specs.Whole.{InRange};
ghost use Rattle.fraction128.specs.Number.{whole, is_less};
ghost use Rattle.fraction128.specs.Grid.{is_some, missed, can_rise, can_fall, is_crossed, helps};

use fraction128::{Column, Fraction, laws};

/// Whether a value is less than a whole number.
#[inline(always)]
pub fn is_less_than(value: Fraction, number: i128) -> bool
    ensures { result ≡ is_less value (whole number) }
{
    laws::floors();
    value.floor() < number
}

/// Whether a value is greater than a whole number.
#[inline(always)]
pub fn is_more_than(value: Fraction, number: i128) -> bool
    ensures { result ≡ is_less (whole number) value }
{
    laws::floors();
    number < -value.neg().floor()
}

/// The bound that the value is outside of.
pub fn missed(column: &Column) -> Option<i128>
    ensures { result ≡ missed column.now }
{
    match column.lower {
        Some(number) if is_less_than(column.value, number) => return column.lower,
        _ => (),
    }
    match column.upper {
        Some(number) if is_more_than(column.value, number) => column.upper,
        _ => None,
    }
}

/// Whether the value is outside a bound.
pub fn is_outside(column: &Column) -> bool
    ensures { result ≡ is_some (missed column.now) }
{
    match missed(column) {
        Some(_) => true,
        None => false,
    }
}

/// Whether the value may still rise.
pub fn can_rise(column: &Column) -> bool
    ensures { result ≡ can_rise column.now }
{
    match column.upper {
        Some(number) => is_less_than(column.value, number),
        None => true,
    }
}

/// Whether the value may still fall.
pub fn can_fall(column: &Column) -> bool
    ensures { result ≡ can_fall column.now }
{
    match column.lower {
        Some(number) => is_more_than(column.value, number),
        None => true,
    }
}

/// Whether the bounds cross.
pub fn is_crossed(column: &Column) -> bool
    ensures { result ≡ is_crossed column.now }
{
    match (column.lower, column.upper) {
        (Some(lower), Some(upper)) => upper < lower,
        _ => false,
    }
}

/// Whether the variable, with this coefficient, can move so that the row's basic variable rises, or falls.
pub fn helps(column: &Column, rises: bool, coefficient: Fraction) -> bool
    ensures { result ≡ helps rises coefficient column.now }
{
    let numerator = coefficient.numerator();
    if numerator > 0 {
        if rises {
            can_rise(column)
        } else {
            can_fall(column)
        }
    } else if numerator < 0 {
        if rises {
            can_fall(column)
        } else {
            can_rise(column)
        }
    } else {
        false
    }
}
