//! Bounds that compare two terms, with outcomes computed by hand.
ghost use Rattle.std.specs.Prelude.{IfOk};
ghost use Rattle.linear_forms.specs.Differences.{KnowsForms};

use linear_forms::{DifferenceError, LinearForms};
use pair_bounds::{at_most, below};
use smt_meaning::{Head, Operator, Summand, TermId};
use std::alloc::{AllocError, Global};
use std::process::Abort;
use std::test::Fail;
use term_store::{InternError, TermStore};

/// A number times x, a number times y, and a number.
type Affine = (i128, i128, i128);

/// The left side, whether it is below the right one or at most it, the right side, and the bound: the coefficients of x and y, and the threshold; or none, where
/// the pair leaves the range.
type Row = (Affine, bool, Affine, Option<Affine>);

/// The place of a term whose arguments are known.
fn intern(
    rt: &impl Abort,
    store: &mut TermStore,
    head: Head,
    arguments: &[TermId],
) -> Result<TermId, InternError> {
    let count = store.len();
    assert!(rt; arguments.iter().all(|i| *i < count));
    store.intern(head, arguments)
}

/// A store with the terms x and y at the places 0 and 1.
fn two_terms(rt: &impl Abort, alloc: Global) -> Result<TermStore, InternError> {
    let mut store = TermStore::new(alloc, 99);
    let _x = intern(rt, &mut store, Head::Symbol(0), &[])?;
    let _y = intern(rt, &mut store, Head::Symbol(1), &[])?;
    Ok(store)
}

/// A number times a term.
fn scaled(
    rt: &impl Abort,
    store: &mut TermStore,
    factor: i128,
    term: TermId,
) -> Result<TermId, InternError> {
    let number = intern(rt, store, Head::Numeral(factor), &[])?;
    intern(rt, store, Head::Theory(Operator::Multiply), &[number, term])
}

fn affine(rt: &impl Abort, store: &mut TermStore, side: Affine) -> Result<TermId, InternError> {
    let (x, y, constant) = side;
    let first = scaled(rt, store, x, 0)?;
    let second = scaled(rt, store, y, 1)?;
    let number = intern(rt, store, Head::Numeral(constant), &[])?;
    intern(
        rt,
        store,
        Head::Theory(Operator::Add),
        &[first, second, number],
    )
}

/// The forms of the terms of a store.
fn forms_of(alloc: Global, store: &TermStore) -> Result<LinearForms, AllocError>
    ensures { IfOk result (λ f. KnowsForms f) }
{
    let mut forms = LinearForms::new(alloc);
    forms.cover(store)?;
    Ok(forms)
}

/// The bound of a comparison.
fn bound(
    rt: &impl Abort,
    alloc: Global,
    store: &TermStore,
    sides: (TermId, TermId),
    is_strict: bool,
    sum: &mut Vec<Summand>,
) -> Result<i128, DifferenceError> {
    let Ok(mut forms) = forms_of(alloc, store) else {
        return Err(DifferenceError::Memory);
    };
    let (left, right) = sides;
    let count = forms.len();
    assert!(rt; (left as usize) < count && (right as usize) < count);
    if is_strict {
        return below(&mut forms, left, right, sum);
    }
    at_most(&mut forms, left, right, sum)
}

/// The coefficient of a term.
fn coefficient(sum: &[Summand], term: TermId) -> i128 {
    for summand in sum {
        if summand.term == term {
            return summand.coefficient;
        }
    }
    0
}

/// Whether a bound comes out as expected.
fn comes_out(
    expected: Option<Affine>,
    found: Result<i128, DifferenceError>,
    sum: &[Summand],
) -> bool {
    match expected {
        Some((x, y, threshold)) => {
            found == Ok(threshold)
                && coefficient(sum, 0) == x
                && coefficient(sum, 1) == y
                && sum.iter().all(|summand| summand.coefficient != 0)
        }
        None => found == Err(DifferenceError::Pair),
    }
}

fn holds(rt: &impl Abort, alloc: Global, row: Row) -> Result<bool, InternError> {
    let (left, is_strict, right, expected) = row;
    let mut store = two_terms(rt, alloc)?;
    let left = affine(rt, &mut store, left)?;
    let right = affine(rt, &mut store, right)?;
    let mut sum = Vec::new(alloc);
    let found = bound(rt, alloc, &store, (left, right), is_strict, &mut sum);
    Ok(comes_out(expected, found, &sum))
}

const GREATEST: Affine = (0, 0, i128::MAX);

const LARGE: Affine = (1 << 126, 0, 0);

/// Bounds are divided and rounded down; then pairs at the ends of the range.
static ROWS: [Row; 16] = [
    ((2, 0, 0), false, (0, 0, 5), Some((1, 0, 2))),
    ((-2, 0, 0), false, (0, 0, -5), Some((-1, 0, -3))),
    ((2, 0, 0), false, (0, 2, 1), Some((1, -1, 0))),
    ((2, 0, 7), false, (0, 4, 0), Some((1, -2, -4))),
    ((0, 4, 0), false, (2, 0, 7), Some((-1, 2, 3))),
    ((2, 0, 7), true, (0, 4, 0), Some((1, -2, -4))),
    ((3, 0, 1), false, (0, 6, 0), Some((1, -2, -1))),
    ((0, 6, 0), true, (3, 0, 1), Some((-1, 2, 0))),
    ((4, 0, 1), false, (0, 3, 0), Some((4, -3, -1))),
    ((0, 0, 2), false, (0, 0, 7), Some((0, 0, 5))),
    ((4, 0, 1), false, (4, 0, 1), Some((0, 0, 0))),
    ((4, 0, 1), true, (4, 0, 1), Some((0, 0, -1))),
    (GREATEST, false, (0, 0, 0), Some((0, 0, -i128::MAX))),
    (GREATEST, true, (0, 0, 0), None),
    (LARGE, false, (0, 0, 0), Some((1, 0, 0))),
    (LARGE, false, (-(1 << 126), 0, 0), None),
];

#[test]
fn pairs_have_bounds(rt: HostRuntime) -> Result<(), Fail> {
    for row in ROWS.iter() {
        assert!(rt; holds(&rt, rt.alloc(), *row)?);
    }
    Ok(())
}

/// x, and then 127 times the double of the term before.
fn doubles(rt: &impl Abort, alloc: Global) -> Result<TermStore, InternError> {
    let mut store = TermStore::new(alloc, 128);
    let _x = intern(rt, &mut store, Head::Symbol(0), &[])?;
    for place in 0..127 {
        let _double = intern(rt, &mut store, Head::Theory(Operator::Add), &[place, place])?;
    }
    Ok(store)
}

#[test]
fn a_double_leaves_the_range(rt: HostRuntime) -> Result<(), Fail> {
    let store = doubles(&rt, rt.alloc())?;
    let forms = forms_of(rt.alloc(), &store)?;
    assert_eq!(rt; forms.len(), 128);
    match forms.form(126) {
        Ok(form) => {
            assert_eq!(rt; form.constant, 0);
            assert_eq!(rt; form.sum.len(), 1);
            assert_eq!(rt; coefficient(form.sum, 0), 1 << 126);
        }
        Err(_) => assert!(rt; false),
    }
    match forms.form(127) {
        Ok(_) => assert!(rt; false),
        Err(part) => assert_eq!(rt; part, 127),
    }
    Ok(())
}
