//! Bounds on sums, with outcomes computed by hand.
ghost use Rattle.std.specs.Prelude.{◌≡◌, true};
ghost use Rattle.sum_bounds.specs.Bounds.{IsSum};
ghost use Rattle.sum_bounds.specs.Written.{IsKnown};

use fraction128::{Fraction, Summand};
use int_branch::branch;
use literals::Literal;
use simplex::PivotLines;
use smt_meaning::Atom;
use std::alloc::{AllocError, Global};
use std::process::Abort;
use std::test::Fail;
use sum_bounds::{Finding, SumBounds};
use tableau::Failure;

const X: Summand = Summand {
    coefficient: 1,
    term: 0,
};

const MINUS_X: Summand = Summand {
    coefficient: -1,
    term: 0,
};

const Y: Summand = Summand {
    coefficient: 1,
    term: 1,
};

const MINUS_Y: Summand = Summand {
    coefficient: -1,
    term: 1,
};

const MINUS_TWICE_Z: Summand = Summand {
    coefficient: -2,
    term: 2,
};

const TWICE_Y: Summand = Summand {
    coefficient: 2,
    term: 1,
};

const MINUS_TWICE_Y: Summand = Summand {
    coefficient: -2,
    term: 1,
};

/// Whether a summand may stand in a sum of terms with variables.
fn is_known(bounds: &SumBounds, summand: Summand) -> bool
    ensures { result ≡ true → IsKnown bounds.now.columns summand }
{
    bounds.has_leaf(summand.term) && summand.coefficient != i128::MIN && summand.coefficient != 0
}

/// Whether the summands may be a sum of terms with variables.
fn is_sum(bounds: &SumBounds, sum: &[Summand]) -> bool
    ensures { result ≡ true → IsSum bounds.now.columns sum.now }
{
    for i in 0..sum.len() {
        if !is_known(bounds, sum[i]) {
            return false;
        }
    }
    true
}

/// Gives so many terms variables.
fn add_leaves(bounds: &mut SumBounds, alloc: Global, count: u32) -> Result<(), AllocError> {
    for term in 0..count {
        if bounds.count() < u32::MAX {
            let _variable = bounds.leaf(alloc, term)?;
        }
    }
    Ok(())
}

/// That a sum is at most a number, or that it is more, by the sign of an atom.
struct Row {
    atom: u32,
    positive: bool,
    sum: &'static [Summand],
    number: i128,
}

/// Tells a row; false where it may not be told.
fn tell(bounds: &mut SumBounds, alloc: Global, row: &Row) -> Result<bool, Failure> {
    if row.atom >= 1 << 31
        || row.number == i128::MIN
        || bounds.count() == u32::MAX
        || !is_sum(bounds, row.sum)
    {
        return Ok(false);
    }
    let of = bounds.sum(alloc, row.sum)?;
    bounds.assert(Literal::new(row.atom, row.positive), of, row.number)?;
    Ok(true)
}

fn check(bounds: &mut SumBounds, alloc: Global) -> Finding {
    let mut lines = PivotLines {
        keep: false,
        lines: Vec::new(alloc),
    };
    bounds.check(alloc, &mut lines, 10).finding
}

/// Whether a clause has just these literals, in any order.
fn is_clause(clause: &[Literal], literals: &[(u32, bool)]) -> bool {
    clause.len() == literals.len()
        && clause.iter().all(|literal| literals.contains(&(literal.atom(), literal.is_positive())))
}

/// Whether the finding is a conflict of just these literals, in any order.
fn is_conflict(finding: &Finding, literals: &[(u32, bool)]) -> bool {
    match finding {
        Finding::Conflict(clause) => is_clause(clause, literals),
        _ => false,
    }
}

/// Whether no whole numbers are found to meet the bounds of just these literals, or nothing is found where there are none.
fn breaks_wholes(
    bounds: &SumBounds,
    alloc: Global,
    literals: &[(u32, bool)],
) -> Result<bool, AllocError> {
    match bounds.whole_conflict(alloc)? {
        Some(clause) => Ok(is_clause(&clause, literals)),
        None => Ok(literals.is_empty()),
    }
}

/// Whether these are the values of the variables in order, as numerators and denominators.
fn has_values(
    bounds: &SumBounds,
    alloc: Global,
    values: &[(i128, i128)],
) -> Result<bool, AllocError> {
    let grid = bounds.grid(alloc)?;
    let columns = grid.columns.as_slice();
    if columns.len() != values.len() {
        return Ok(false);
    }
    for (place, column) in columns.iter().enumerate() {
        if (column.value.numerator(), column.value.denominator()) != values[place] {
            return Ok(false);
        }
    }
    Ok(true)
}

/// The least term with a value that isn't whole, and the floor of that value.
fn fraction(bounds: &SumBounds) -> Option<(u32, i128)> {
    match bounds.first_fraction() {
        Some(found) => Some((found.term, found.floor)),
        None => None,
    }
}

/// The numbers of the two sides of a branch at a fraction.
fn sides(alloc: Global, value: Fraction) -> Result<Option<(i128, i128)>, AllocError> {
    if value.is_whole() {
        return Ok(None);
    }
    let sides = branch(alloc, 7, value)?;
    match (sides.below, sides.above) {
        (Atom::AtMost(_, below), Atom::AtMost(_, above)) => Ok(Some((below, above))),
        _ => Ok(None),
    }
}

/// What is told or taken back, or what must be found then.
enum Turn {
    Tell(Row),
    /// So many bounds stay.
    Undo(usize),
    Fits,
    /// A conflict of just these literals.
    Conflict(&'static [(u32, bool)]),
    /// A conflict over whole numbers of just these literals, or none where there are none.
    Wholes(&'static [(u32, bool)]),
    /// The least term with a value that isn't whole, and the floor of that value.
    Fraction(u32, i128),
    /// The count of variables, and that of bounds.
    Counts(u32, usize),
    /// The values of the variables in order, as numerators and denominators.
    Values(&'static [(i128, i128)]),
}

/// Takes a turn; false where it can't be taken, or something else is found.
fn take(bounds: &mut SumBounds, alloc: Global, turn: &Turn) -> Result<bool, Failure> {
    match turn {
        Turn::Tell(row) => tell(bounds, alloc, row),
        Turn::Undo(count) => {
            bounds.undo_to(*count);
            Ok(true)
        }
        Turn::Fits => Ok(matches!(check(bounds, alloc), Finding::Fits)),
        Turn::Conflict(literals) => Ok(is_conflict(&check(bounds, alloc), literals)),
        Turn::Wholes(literals) => Ok(breaks_wholes(bounds, alloc, literals)?),
        Turn::Fraction(term, floor) => Ok(fraction(bounds) == Some((*term, *floor))),
        Turn::Counts(variables, told) => Ok(bounds.count() == *variables && bounds.len() == *told),
        Turn::Values(values) => Ok(has_values(bounds, alloc, values)?),
    }
}

/// Takes turns on so many terms with variables.
fn take_all(rt: &impl Abort, alloc: Global, leaves: u32, turns: &[Turn]) -> Result<(), Failure> {
    let mut bounds = SumBounds::new(alloc);
    add_leaves(&mut bounds, alloc, leaves)?;
    for (at, turn) in turns.iter().enumerate() {
        assert!(rt; take(&mut bounds, alloc, turn)?, "at {at}");
    }
    Ok(())
}

/// x + y <= 1, and x >= 1; then x + y <= 1 again, by its negation, and y >= 1.
static THREE_BOUNDS: [Turn; 9] = [
    Turn::Tell(Row {
        atom: 0,
        positive: true,
        sum: &[X, Y],
        number: 1,
    }),
    Turn::Tell(Row {
        atom: 1,
        positive: false,
        sum: &[X],
        number: 0,
    }),
    Turn::Fits,
    Turn::Tell(Row {
        atom: 2,
        positive: false,
        sum: &[MINUS_X, MINUS_Y],
        number: -2,
    }),
    Turn::Tell(Row {
        atom: 3,
        positive: false,
        sum: &[Y],
        number: 0,
    }),
    Turn::Conflict(&[(0, false), (1, true), (3, true)]),
    Turn::Undo(3),
    Turn::Fits,
    Turn::Counts(3, 3),
];

/// 2 y <= -5, and -2 y <= 5.
static HALVES: [Turn; 5] = [
    Turn::Tell(Row {
        atom: 0,
        positive: true,
        sum: &[TWICE_Y],
        number: -5,
    }),
    Turn::Tell(Row {
        atom: 1,
        positive: true,
        sum: &[MINUS_TWICE_Y],
        number: 5,
    }),
    Turn::Fits,
    Turn::Fraction(1, -3),
    Turn::Values(&[(0, 1), (-5, 2), (-5, 1)]),
];

#[test]
fn bounds_are_told_and_taken_back(rt: HostRuntime) -> Result<(), Fail> {
    take_all(&rt, rt.alloc(), 2, &THREE_BOUNDS)?;
    take_all(&rt, rt.alloc(), 2, &HALVES)?;
    take_all(&rt, rt.alloc(), 3, &ODD_AND_EVEN)?;
    Ok(())
}

/// x - 2 y <= 1, x - 2 y >= 1, x - 2 z <= 0, and x - 2 z >= 0.
static ODD_AND_EVEN: [Turn; 8] = [
    Turn::Tell(Row {
        atom: 0,
        positive: true,
        sum: &[X, MINUS_TWICE_Y],
        number: 1,
    }),
    Turn::Tell(Row {
        atom: 1,
        positive: false,
        sum: &[X, MINUS_TWICE_Y],
        number: 0,
    }),
    Turn::Tell(Row {
        atom: 2,
        positive: true,
        sum: &[X, MINUS_TWICE_Z],
        number: 0,
    }),
    Turn::Tell(Row {
        atom: 3,
        positive: false,
        sum: &[X, MINUS_TWICE_Z],
        number: -1,
    }),
    Turn::Fits,
    Turn::Wholes(&[(0, false), (1, true), (2, false), (3, true)]),
    Turn::Undo(3),
    Turn::Wholes(&[]),
];

#[test]
fn branches_have_two_sides(rt: HostRuntime) -> Result<(), Fail> {
    assert_eq!(rt; sides(rt.alloc(), Fraction::new(5, 2))?, Some((2, -3)));
    assert_eq!(rt; sides(rt.alloc(), Fraction::new(-5, 2))?, Some((-3, 2)));
    Ok(())
}
