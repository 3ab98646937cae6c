//! Branches on the value of a term.
ghost use Rattle.std.specs.Prelude.{◌≡◌, ◌≢◌, pos, ◌+ℤ◌, ◌*ℤ◌, ◌<ℤ◌, ◌≤ℤ◌, IfOk};
ghost use Rattle.fraction128.specs.Whole.{InRange};
ghost use Rattle.int_branch.specs.Branch.{multiple, other_number, IsBranch, AreNormal, OneHolds, BranchesAreValid};

use fraction128::Fraction;
use smt_meaning::{Atom, Seq, Sum, Summand, TermId};
use std::alloc::{AllocError, Global};

/// A whole number, and two bounds of which exactly one holds of a whole term.
#[derive(Drop)]
pub struct Sides {
    /// The greatest whole number that is at most the value.
    pub floor: i128,
    /// The term is at most the floor.
    pub below: Atom,
    /// The term is more, which a bound on its negation says.
    pub above: Atom,
}

/// The sum of one multiple of a term.
fn multiple_of(alloc: Global, coefficient: i128, term: TermId) -> Result<Sum, AllocError>
    ensures { IfOk result (λ s. s ≡ multiple coefficient term) }
{
    let mut sum = Seq::new(alloc);
    sum.push(Summand { coefficient, term })?;
    Ok(sum)
}

/// The number that bounds the negation of what is at least the next number.
fn other_number_of(floor: i128) -> i128
    requires in_range { InRange floor }
    requires next { InRange (floor +ℤ pos 1) }
    ensures { result ≡ other_number floor }
{
    -floor - 1
}

/// The greatest whole number that is at most a value that isn't whole.
fn floor_of(value: Fraction) -> i128
    requires { value.denominator ≢ 1 }
    ensures lower { (result *ℤ pos value.denominator) ≤ℤ value.numerator }
    ensures upper { value.numerator <ℤ ((result +ℤ pos 1) *ℤ pos value.denominator) }
    ensures in_range { InRange result }
    ensures next_in_range { InRange (result +ℤ pos 1) }
{
    let _denominator = value.denominator();
    value.floor()
}

/// The branch of a term at a value that isn't whole. Its numbers lie in the range, as the value's denominator is at least 2. An `Err` is for want of memory.
pub fn branch(alloc: Global, term: TermId, value: Fraction) -> Result<Sides, AllocError>
    requires { value.denominator ≢ 1 }
    ensures { IfOk result (IsBranch term value) }
{
    let floor = floor_of(value);
    let below = Atom::AtMost(multiple_of(alloc, 1, term)?, floor);
    let above = Atom::AtMost(multiple_of(alloc, -1, term)?, other_number_of(floor));
    Ok(Sides {
        floor,
        below,
        above,
    })
}

/// Of each branch exactly one side holds of a whole number, so the clause of both sides, and that of both negated, are true under every interpretation; and both are in normal form.
pub fn branches_hold()
    ensures normal { AreNormal }
    ensures one { OneHolds }
    ensures valid { BranchesAreValid }
{}
