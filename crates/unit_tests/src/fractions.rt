//! Outcomes computed elsewhere with unbounded numbers.
use crate::rows::{Outcome, ROWS, Row};
use fraction128::{Fraction, Op, Range, Ratio, add, dot, floor_div, gcd, mul, sub};
use std::cmp::Ordering;

const MAX: i128 = i128::MAX;

fn fraction(parts: (i128, i128)) -> Fraction {
    if parts.0 == i128::MIN || parts.1 <= 0 {
        return Fraction::from_whole(0);
    }
    Fraction::new(parts.0, parts.1)
}

fn outcome(answer: Result<Fraction, Range>) -> Outcome {
    match answer {
        Ok(x) => (0, x.numerator(), x.denominator()),
        Err(Range { op: Op::Add, a, b }) => (1, a, b),
        Err(Range { op: Op::Mul, a, b }) => (2, a, b),
        Err(Range { op: Op::Sub, a, b }) => (3, a, b),
    }
}

fn order_of(x: Fraction, y: Fraction) -> i8 {
    match x.cmp(y) {
        Ordering::Less => -1,
        Ordering::Equal => 0,
        Ordering::Greater => 1,
    }
}

fn holds(row: &Row) -> bool {
    let x = fraction(row.left);
    let y = fraction(row.right);
    outcome(x.add(y)) == row.sum
        && outcome(x.sub(y)) == row.difference
        && outcome(x.mul(y)) == row.product
        && order_of(x, y) == row.order
        && x.floor() == row.floor
}

#[test]
fn table(rt: HostRuntime) {
    for row in ROWS.iter() {
        assert!(rt; holds(row));
    }
}

/// Operations on whole numbers, with what they give; none where that leaves the range.
static WHOLE: [(Op, i128, i128, Option<i128>); 7] = [
    (Op::Add, MAX - 1, 1, Some(MAX)),
    (Op::Add, MAX, 1, None),
    (Op::Sub, -MAX, 1, None),
    (Op::Sub, 5, 7, Some(-2)),
    (Op::Mul, 1 << 63, 1 << 63, Some(1 << 126)),
    (Op::Mul, 1 << 64, 1 << 63, None),
    (Op::Mul, -(1 << 64), 1 << 63, None),
];

fn operate(op: Op, a: i128, b: i128) -> Option<Result<i128, Range>> {
    if a == i128::MIN || b == i128::MIN {
        return None;
    }
    Some(match op {
        Op::Add => add(a, b),
        Op::Sub => sub(a, b),
        Op::Mul => mul(a, b),
    })
}

/// Whether an operation gives this number, or names itself with its operands.
fn gives(op: Op, a: i128, b: i128, number: Option<i128>) -> bool {
    let wanted = match number {
        Some(number) => Ok(number),
        None => Err(Range { op, a, b }),
    };
    operate(op, a, b) == Some(wanted)
}

fn floor_is(a: i128, b: i128, floor: i128) -> bool {
    b > 0 && floor_div(a, b) == floor
}

#[test]
fn whole_numbers(rt: HostRuntime) {
    for (op, a, b, number) in WHOLE.iter() {
        assert!(rt; gives(*op, *a, *b, *number), "of {a} and {b}");
    }
    assert!(rt; floor_is(-7, 2, -4) && floor_is(7, 2, 3));
    assert!(rt; gcd(-12, 18) == 6 && gcd(0, 0) == 0);
}

#[test]
fn fractions(rt: HostRuntime) {
    let x = Fraction::new(-6, 4);
    let lowest = Ratio {
        numerator: -3,
        denominator: 2,
    };
    assert!(rt; x.ratio() == lowest && x.floor() == -2);
    assert!(rt; x.recip() == Fraction::new(-2, 3) && x.neg() == Fraction::new(3, 2));
    assert!(rt; !x.is_zero() && !x.is_whole());
    assert!(rt; Fraction::from_whole(0).is_zero() && Fraction::new(4, 2).is_whole());
}

/// A number and pairs, with the exact sum of it and their products, where that is in the range.
static SUMS: [(i128, &'static [(i128, i128)], Option<i128>); 8] = [
    (1, &[(1 << 126, 2), (-(1 << 126), 2)], Some(1)),
    (12, &[(MAX, MAX), (-MAX, MAX), (3, -4)], Some(0)),
    (0, &[(MAX, 1)], Some(MAX)),
    (1, &[(MAX, 1)], None),
    (0, &[(-MAX, 1)], Some(-MAX)),
    (-1, &[(-MAX, 1)], None),
    (-7, &[], Some(-7)),
    (
        5,
        &[
            (123_456_789_012_345_678_901, -98_765_432_109_876_543),
            (-4_294_967_297, 4_294_967_295),
        ],
        Some(-12_193_263_113_702_179_514_994_221_824_339_470_853),
    ),
];

#[test]
fn sums_of_products(rt: HostRuntime) {
    for (constant, pairs, sum) in SUMS.iter() {
        assert_eq!(rt; dot(*constant, *pairs), *sum);
    }
}
