//! A literal's bound, and the clause of the bounds in a conflict.
ghost use Rattle.std.specs.Prelude.{◌≡◌, ◌<◌, ◌^◌, true, false, pos, ◌+ℤ◌, IsTrue, ◌↔◌, Contains, OnOk, IfOk, IfErr};
ghost use Rattle.fraction128.specs.Whole.{InRange};
ghost use Rattle.fraction128.specs.Number.{whole, is_less};
ghost use Rattle.literals.specs.Signed.{packed, unpacked, opposite};
ghost use Rattle.tableau.specs.Failing.{IsRange};
ghost use Rattle.sum_bounds.specs.Bounds.{told_side, told_number, MeetsSide};
ghost use Rattle.sum_bounds.specs.Complements.{IsPut, IsClauseOf};

use fraction128::{Fraction, Op, Range, Side, add, laws};
use literals::Literal;
use std::alloc::{AllocError, Global};
use tableau::Failure;

/// The side on which a literal bounds the variable of a sum.
pub(crate) fn side_of(positive: bool, turned: bool) -> Side
    ensures { result ≡ told_side positive turned }
{
    if positive == turned {
        Side::Lower
    } else {
        Side::Upper
    }
}

/// The number that a literal is about: the bound's, or the next one where the literal is negative.
fn least_or_most(positive: bool, number: i128) -> Result<i128, Range>
    requires { InRange number }
    ensures value { IfOk result (λ n. n ≡ told_number positive false number) }
    ensures in_range { IfOk result InRange }
    ensures range { IfErr result (λ e. (positive ≡ false) × (e ≡ record { op = Op.Add; a = number; b = pos 1 }) × (InRange (number +ℤ pos 1) → ⊥)) }
{
    if positive { Ok(number) } else { add(number, 1) }
}

/// The number of a literal's bound on the variable of a sum.
pub(crate) fn number_of(positive: bool, turned: bool, number: i128) -> Result<i128, Range>
    requires { InRange number }
    ensures value { IfOk result (λ n. n ≡ told_number positive turned number) }
    ensures in_range { IfOk result InRange }
    ensures range { IfErr result (λ e. (positive ≡ false) × (e ≡ record { op = Op.Add; a = number; b = pos 1 }) × (InRange (number +ℤ pos 1) → ⊥)) }
{
    let number = least_or_most(positive, number)?;
    if turned { Ok(-number) } else { Ok(number) }
}

/// Whether a value is less than a whole number.
fn is_less_than(value: Fraction, number: i128) -> bool
    ensures { result ≡ is_less value (whole number) }
{
    laws::floors();
    value.floor() < number
}

/// Whether a value is more than a whole number.
fn is_more_than(value: Fraction, number: i128) -> bool
    ensures { result ≡ is_less (whole number) value }
{
    laws::floors();
    number < -value.neg().floor()
}

/// Whether a value meets a bound.
pub(crate) fn is_met(value: Fraction, side: Side, number: i128) -> bool
    ensures { result ≡ true → MeetsSide side number value }
{
    match side {
        Side::Lower => !is_less_than(value, number),
        Side::Upper => !is_more_than(value, number),
    }
}

/// A literal as one word.
pub(crate) fn tag_of(literal: Literal) -> u32
    requires { literal.atom < 2 ^ 31 }
    ensures { unpacked result ≡ literal }
{
    literal.code() as u32
}

/// The complement of a literal that is given as one word.
fn complement_of(tag: u32) -> Literal
    ensures { result ≡ opposite (unpacked tag) }
{
    Literal::new(tag / 2, tag % 2 == 0).negated()
}

fn is_same(left: Literal, right: Literal) -> bool
    ensures { IsTrue result ↔ (left ≡ right) }
{
    left == right
}

/// Whether a literal is among others.
fn is_among(literals: &[Literal], literal: Literal) -> bool
    ensures { IsTrue result ↔ Contains literals.now literal }
{
    for other in literals {
        if is_same(*other, literal) {
            return true;
        }
    }
    false
}

/// Adds a literal where it isn't there.
pub(crate) fn put(clause: &mut Vec<Literal>, literal: Literal) -> Result<(), AllocError>
    ensures { OnOk result (IsPut clause.old.items literal clause.new.items) }
{
    if !is_among(clause, literal) {
        clause.push(literal)?;
    }
    Ok(())
}

/// The complements of the literals that are given as words, none twice.
pub(crate) fn clause_of(alloc: Global, tags: &[u32]) -> Result<Vec<Literal>, AllocError>
    ensures { IfOk result (λ ls. IsClauseOf tags.now ls.items) }
{
    let mut clause = Vec::new(alloc);
    for tag in tags {
        put(&mut clause, complement_of(*tag))?;
    }
    Ok(clause)
}
