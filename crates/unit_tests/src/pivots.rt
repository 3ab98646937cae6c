//! Pivots computed elsewhere with exact fractions.
ghost use Rattle.std.specs.Prelude.{◌≡◌, ◌<◌, true, length};
ghost use Rattle.tableau.specs.Staged.{HasEntry};
ghost use Rattle.tableau.specs.Table.{row_at};
ghost use Rattle.tableau.specs.Written.{AreParts};

use fraction128::{Op, Range};
use std::alloc::Global;
use std::test::Fail;
use tableau::{Failure, Part, Tableau, add_sum};

const MAX: i128 = i128::MAX;

/// Whether the parts may be a sum over the tableau.
fn is_sum(tableau: &Tableau, parts: &[Part]) -> bool
    ensures { result ≡ true → AreParts tableau.now.count parts.now }
{
    let count = tableau.count();
    parts.iter().all(|part| part.variable < count
        && part.coefficient != i128::MIN
        && part.coefficient != 0)
}

/// Adds a row with these variables and coefficients, if there may be one.
fn add(tableau: &mut Tableau, alloc: Global, pairs: &[(u32, i128)]) -> Result<bool, Failure> {
    let mut parts = Vec::new(alloc);
    for pair in pairs {
        let (variable, coefficient) = *pair;
        parts.push(Part {
            coefficient,
            variable,
        })?;
    }
    if tableau.count() == u32::MAX || !is_sum(tableau, &parts) {
        return Ok(false);
    }
    add_sum(tableau, alloc, &parts)?;
    Ok(true)
}

fn add_variables(tableau: &mut Tableau, count: u32) {
    for _ in 0..count {
        if tableau.count() < u32::MAX {
            tableau.add_variable();
        }
    }
}

/// Whether the variable has an entry in the row at the place.
fn has_entry(tableau: &Tableau, place: usize, variable: u32) -> bool
    ensures place { result ≡ true → place < length tableau.now.rows }
    ensures entry { result ≡ true → HasEntry variable (row_at tableau.now.rows place).entries }
{
    if place >= tableau.len() {
        return false;
    }
    match tableau.coefficient(place, variable) {
        Some(_) => true,
        None => false,
    }
}

fn made(tableau: &mut Tableau, place: usize, entering: u32) -> Option<Result<(), Failure>> {
    if has_entry(tableau, place, entering) {
        Some(tableau.pivot(place, entering))
    } else {
        None
    }
}

/// Whether the row has this basic variable and these entries: variables, numerators and denominators.
fn row_is(tableau: &Tableau, place: usize, basic: u32, parts: &[(u32, i128, i128)]) -> bool {
    if place >= tableau.len() || tableau.basic(place) != basic || !tableau.is_basic(basic) {
        return false;
    }
    let entries = tableau.entries(place);
    if entries.len() != parts.len() {
        return false;
    }
    for i in 0..parts.len() {
        let entry = entries[i];
        let (variable, numerator, denominator) = parts[i];
        if entry.variable != variable
            || entry.coefficient.numerator() != numerator
            || entry.coefficient.denominator() != denominator
        {
            return false;
        }
    }
    true
}

/// Whether a pivot is made, or is refused since the product of these numbers leaves the range.
fn comes_out(answer: Option<Result<(), Failure>>, product: Option<(i128, i128)>) -> bool {
    match answer {
        Some(Ok(())) => product.is_none(),
        Some(Err(Failure::Range(Range { op: Op::Mul, a, b }))) => product == Some((a, b)),
        _ => false,
    }
}

/// The place of a row, its basic variable, and its entries: variables, numerators and denominators.
type Line = (usize, u32, &'static [(u32, i128, i128)]);

/// The place and the entering variable of a pivot, the product that leaves the range, if one does, and rows after it.
type Pivot = (usize, u32, Option<(i128, i128)>, &'static [Line]);

/// The count of variables, sums of them, and pivots.
type Case = (u32, &'static [&'static [(u32, i128)]], &'static [Pivot]);

static CASES: [Case; 3] = [
    // s = x + y, and then x = s - y
    (
        2,
        &[&[(0, 1), (1, 1)]],
        &[(0, 0, None, &[(0, 0, &[(1, -1, 1), (2, 1, 1)])])],
    ),
    (
        2,
        &[&[(0, 3), (1, 1)], &[(0, MAX), (1, MAX)]],
        &[
            (
                0,
                0,
                Some((MAX, 3)),
                &[
                    (0, 2, &[(0, 3, 1), (1, 1, 1)]),
                    (1, 3, &[(0, MAX, 1), (1, MAX, 1)]),
                ],
            ),
            (
                1,
                0,
                None,
                &[
                    (0, 2, &[(1, -2, 1), (3, 3, MAX)]),
                    (1, 0, &[(1, -1, 1), (3, 1, MAX)]),
                ],
            ),
        ],
    ),
    (
        4,
        &[
            &[(0, 2), (1, -3), (3, 1)],
            &[(1, 5), (2, 7)],
            &[(0, -7), (2, 4), (3, 6)],
        ],
        &[
            (
                0,
                0,
                None,
                &[
                    (0, 0, &[(1, 3, 2), (3, -1, 2), (4, 1, 2)]),
                    (1, 5, &[(1, 5, 1), (2, 7, 1)]),
                    (2, 6, &[(1, -21, 2), (2, 4, 1), (3, 19, 2), (4, -7, 2)]),
                ],
            ),
            (
                2,
                1,
                None,
                &[
                    (0, 0, &[(2, 4, 7), (3, 6, 7), (6, -1, 7)]),
                    (1, 5, &[(2, 187, 21), (3, 95, 21), (4, -5, 3), (6, -10, 21)]),
                    (2, 1, &[(2, 8, 21), (3, 19, 21), (4, -1, 3), (6, -2, 21)]),
                ],
            ),
            (
                1,
                2,
                None,
                &[(
                    0,
                    0,
                    &[(3, 106, 187), (4, 20, 187), (5, 12, 187), (6, -21, 187)],
                )],
            ),
            (
                0,
                3,
                None,
                &[
                    (
                        0,
                        3,
                        &[(0, 187, 106), (4, -10, 53), (5, -6, 53), (6, 21, 106)],
                    ),
                    (
                        1,
                        2,
                        &[(0, -95, 106), (4, 15, 53), (5, 9, 53), (6, -5, 106)],
                    ),
                    (
                        2,
                        1,
                        &[(0, 133, 106), (4, -21, 53), (5, -2, 53), (6, 7, 106)],
                    ),
                ],
            ),
        ],
    ),
];

/// A tableau of so many variables and these sums, if it may have them.
fn tableau_of(
    alloc: Global,
    variables: u32,
    sums: &[&[(u32, i128)]],
) -> Result<Option<Tableau>, Failure> {
    let mut tableau = Tableau::new(alloc);
    add_variables(&mut tableau, variables);
    for sum in sums {
        if !add(&mut tableau, alloc, sum)? {
            return Ok(None);
        }
    }
    Ok(Some(tableau))
}

/// Whether a pivot comes out as it should.
fn holds(tableau: &mut Tableau, pivot: &Pivot) -> bool {
    let (place, entering, product, lines) = *pivot;
    comes_out(made(tableau, place, entering), product)
        && lines
            .iter()
            .all(|line| row_is(tableau, line.0, line.1, line.2))
}

#[test]
fn pivots_come_out_as_computed(rt: HostRuntime) -> Result<(), Fail> {
    for (variables, sums, pivots) in CASES.iter() {
        match tableau_of(rt.alloc(), *variables, sums)? {
            Some(mut tableau) => {
                for pivot in pivots.iter() {
                    assert!(rt; holds(&mut tableau, pivot), "where {} enters", pivot.1);
                }
            }
            None => assert!(rt; false),
        }
    }
    Ok(())
}
