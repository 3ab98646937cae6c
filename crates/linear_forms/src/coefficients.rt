//! Coefficients by place, while a form is folded.
ghost use Rattle.std.specs.Prelude.{◌≡◌, ◌<◌, ◌++◌, [], List, IfSome, IfNone, length, take, slice_set, true, All, Contains, OnOk, IfOk, OnErr, pos, ◌+ℤ◌, ◌-ℤ◌, ◌*ℤ◌};
ghost use Rattle.fraction128.specs.Whole.{InRange};
ghost use Rattle.smt_meaning.specs.Linear.{unless_zero, sum_fits};
ghost use Rattle.smt_meaning.specs.declared.clauses.Summand.{Summand as SummandValue};
ghost use Rattle.linear_forms.specs.Sums.{IsSum, signed};
ghost use Rattle.linear_forms.specs.Scratch.{cell, at, AreRanged, AreZero, AreListed, AreTouched, HasCoefficients, IsAdded, LeavesRange};

use smt_meaning::{Summand, TermId};
use std::alloc::{AllocError, AllocFailed};

/// The coefficient of a place so far.
#[derive(Clone, Copy, Drop)]
pub(crate) struct Coefficient {
    pub(crate) value: i128,
}

/// Why a folding stops.
#[derive(Clone, Copy, PartialEq, Eq, Drop)]
pub(crate) enum Stop {
    /// A number leaves the range.
    Range,
    /// Memory is wanting.
    Memory,
}

impl From<AllocError> for Stop {
    ghost use Rattle.std.specs.Prelude.{◌≡◌};
    ghost use Rattle.linear_forms.specs.declared.coefficients.Stop.TheVariants.{Memory};

    ghost from_gives = { λ _ e. e ≡ Memory };

    fn from(_: AllocError) -> Stop {
        Stop::Memory
    }
}

impl<T: Drop> From<AllocFailed<T>> for Stop {
    ghost use Rattle.std.specs.Prelude.{◌≡◌};
    ghost use Rattle.linear_forms.specs.declared.coefficients.Stop.TheVariants.{Memory};

    ghost from_gives = { λ _ e. e ≡ Memory };

    fn from(_: AllocFailed<T>) -> Stop {
        Stop::Memory
    }
}

fn plus(a: i128, b: i128) -> Option<i128>
    ensures some { IfSome result (λ n. (n ≡ a +ℤ b) × InRange n) }
    ensures none { IfNone result (InRange (a +ℤ b) → ⊥) }
{
    match a.checked_add(b) {
        Some(sum) if sum != i128::MIN => Some(sum),
        _ => None,
    }
}

/// The difference of two numbers, where it is in the range.
pub fn minus(a: i128, b: i128) -> Option<i128>
    ensures some { IfSome result (λ n. (n ≡ a -ℤ b) × InRange n) }
    ensures none { IfNone result (InRange (a -ℤ b) → ⊥) }
{
    match a.checked_sub(b) {
        Some(difference) if difference != i128::MIN => Some(difference),
        _ => None,
    }
}

/// The product of two numbers, where it is in the range.
pub(crate) fn times(a: i128, b: i128) -> Option<i128>
    ensures some { IfSome result (λ n. (n ≡ a *ℤ b) × InRange n) }
    ensures none { IfNone result (InRange (a *ℤ b) → ⊥) }
{
    match a.checked_mul(b) {
        Some(product) if product != i128::MIN => Some(product),
        _ => None,
    }
}

/// The sum or the difference of two numbers, where it is in the range.
pub(crate) fn combined(a: i128, b: i128, negated: bool) -> Option<i128>
    ensures some { IfSome result (λ n. (n ≡ a +ℤ signed negated b) × InRange n) }
    ensures none { IfNone result (InRange (a +ℤ signed negated b) → ⊥) }
{
    if negated {
        return minus(a, b);
    }
    plus(a, b)
}

/// Lists a place whose coefficient is 0 so far.
fn list_place(
    values: &[Coefficient],
    touched: &mut Vec<TermId>,
    place: TermId,
) -> Result<(), AllocError>
    requires place { place < length values.now }
    requires touched { AreTouched values.now touched.old.items }
    ensures touched { AreTouched values.now touched.new.items }
    ensures listed { OnOk result (Contains touched.new.items place) }
{
    if values[place as usize].value == 0 {
        touched.push(place)?;
    }
    Ok(())
}

/// Writes the coefficient of a listed place.
fn write(values: &mut [Coefficient], touched: &[TermId], place: TermId, value: i128)
    requires place { place < length values.old }
    requires ranged { AreRanged values.old }
    requires value { InRange value }
    requires touched { AreTouched values.old touched.now }
    requires listed { Contains touched.now place }
    ensures values { values.new ≡ slice_set values.old place (cell value) }
    ensures ranged { AreRanged values.new }
    ensures touched { AreTouched values.new touched.now }
{
    values[place as usize] = Coefficient { value };
}

/// Adds a number, or its negation, to the coefficient of a place.
fn add_at(
    values: &mut [Coefficient],
    touched: &mut Vec<TermId>,
    summand: Summand,
    negated: bool,
) -> Result<(), Stop>
    requires place { summand.term < length values.old }
    requires ranged { AreRanged values.old }
    requires touched { AreTouched values.old touched.old.items }
    ensures ok { OnOk result (values.new ≡ slice_set values.old summand.term (cell (at values.old summand.term +ℤ signed negated summand.coefficient))) }
    ensures ranged { AreRanged values.new }
    ensures touched { AreTouched values.new touched.new.items }
    ensures range { result ≡ Err Stop.Range → InRange (at values.old summand.term +ℤ signed negated summand.coefficient) → ⊥ }
{
    let old = values[summand.term as usize].value;
    match combined(old, summand.coefficient, negated) {
        Some(value) => {
            list_place(values, touched, summand.term)?;
            write(values, touched, summand.term, value);
            Ok(())
        }
        None => Err(Stop::Range),
    }
}

/// Adds a sum, or its negation, to the coefficients.
pub(crate) fn add_sum(
    values: &mut [Coefficient],
    touched: &mut Vec<TermId>,
    sum: &[Summand],
    negated: bool,
) -> Result<(), Stop>
    requires sum { IsSum (length values.old) sum.now }
    requires ranged { AreRanged values.old }
    requires touched { AreTouched values.old touched.old.items }
    ensures ok { OnOk result (IsAdded negated values.old values.new sum.now) }
    ensures ranged { AreRanged values.new }
    ensures touched { AreTouched values.new touched.new.items }
    ensures range { result ≡ Err Stop.Range → LeavesRange negated values.old sum.now }
{
    for summand in sum {
        add_at(values, touched, *summand, negated)?;
    }
    Ok(())
}

/// Sets the coefficient of a place to 0, and adds what it was to a sum.
fn take_out(
    values: &mut [Coefficient],
    place: TermId,
    sum: &mut Vec<Summand>,
) -> Result<(), AllocError>
    requires { place < length values.old }
    ensures values { values.new ≡ slice_set values.old place (cell (pos 0)) }
    ensures ok { OnOk result (sum.new.items ≡ sum.old.items ++ unless_zero place (at values.old place) []) }
{
    let coefficient = values[place as usize].value;
    values[place as usize] = Coefficient { value: 0 };
    if coefficient != 0 {
        sum.push(Summand {
            coefficient,
            term: place,
        })?;
    }
    Ok(())
}

/// Takes the coefficients out as a sum.
pub(crate) fn take_sum(
    values: &mut [Coefficient],
    touched: &mut Vec<TermId>,
    sum: &mut Vec<Summand>,
) -> Result<(), AllocError>
    requires touched { AreTouched values.old touched.old.items }
    requires empty { sum.old.items ≡ [] }
    ensures ok { OnOk result ((ps : List SummandValue) → IsSum (length values.old) ps → HasCoefficients values.old ps → sum.new.items ≡ ps) }
    ensures touched { AreTouched values.new touched.new.items }
{
    touched.sort_unstable();
    for place in &*touched {
        take_out(values, *place, sum)?;
    }
    Ok(())
}

/// Sets the listed coefficients to 0.
pub(crate) fn wipe(values: &mut [Coefficient], touched: &mut Vec<TermId>)
    requires { AreTouched values.old touched.old.items }
    ensures values { AreZero values.new }
    ensures touched { touched.new.items ≡ [] }
{
    for place in &*touched {
        values[*place as usize] = Coefficient { value: 0 };
    }
    touched.clear();
}
