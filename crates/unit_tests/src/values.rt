use model_eval::{EvalError, value};
use smt_meaning::Operator::*;
use smt_meaning::Value::{Truth, Whole};
use smt_meaning::{Head, Interp, Operator, Seq, TermId, Value};
use std::alloc::Global;
use std::process::Abort;
use std::test::Fail;
use term_store::TermStore;

const MAX: i128 = i128::MAX;

fn intern(
    rt: &impl Abort,
    store: &mut TermStore,
    head: Head,
    arguments: &[TermId],
) -> Result<TermId, Fail> {
    let count = store.len();
    assert!(rt; arguments.iter().all(|i| *i < count));
    Ok(store.intern(head, arguments)?)
}

fn evaluate(
    rt: &impl Abort,
    alloc: Global,
    interp: &Interp,
    store: &TermStore,
    term: TermId,
) -> Result<Value, EvalError> {
    assert!(rt; term < store.len());
    value(alloc, interp, store, term)
}

/// The value of an operator applied to constants.
fn applied(
    rt: &impl Abort,
    alloc: Global,
    operator: Operator,
    arguments: &[Value],
) -> Result<Value, Fail> {
    let mut store = TermStore::new(alloc, u32::MAX);
    let mut ids = Vec::new(alloc);
    for argument in arguments {
        let head = match *argument {
            Truth(true) => Head::Theory(True),
            Truth(false) => Head::Theory(False),
            Whole(n) => Head::Numeral(n),
            Value::Element(_) => Head::Place(0),
        };
        ids.push(intern(rt, &mut store, head, &[])?)?;
    }
    let term = intern(rt, &mut store, Head::Theory(operator), &ids)?;
    Ok(evaluate(rt, alloc, &Seq::new(alloc), &store, term)?)
}

const T: Value = Truth(true);

const F: Value = Truth(false);

const ONE: Value = Whole(1);

const TWO: Value = Whole(2);

const FIVE: Value = Whole(5);

/// Operators with arguments, and the values.
static APPLIED: [(Operator, &'static [Value], Value); 43] = [
    (True, &[], T),
    (False, &[], F),
    (Not, &[T], F),
    (And, &[T, T, F], F),
    (Or, &[F, F, T], T),
    (Xor, &[T, T, T], T),
    (Implies, &[F, F, F], T),
    (Implies, &[T, F], F),
    (Equal, &[ONE, ONE, TWO], F),
    (Equal, &[TWO, TWO, TWO], T),
    (Distinct, &[ONE, TWO, ONE], F),
    (Distinct, &[ONE, TWO, FIVE], T),
    (Ite, &[F, ONE, TWO], TWO),
    (Ite, &[T, ONE, TWO], ONE),
    (Add, &[ONE, TWO, FIVE], Whole(8)),
    (Subtract, &[FIVE, TWO, ONE], TWO),
    (Subtract, &[FIVE], Whole(-5)),
    (Multiply, &[TWO, FIVE, Whole(-3)], Whole(-30)),
    (AtMost, &[ONE, ONE, TWO], T),
    (Less, &[ONE, ONE, TWO], F),
    (AtLeast, &[FIVE, TWO, TWO], T),
    (Greater, &[FIVE, TWO, TWO], F),
    (Divide, &[FIVE, TWO], TWO),
    (Divide, &[Whole(-5), TWO], Whole(-3)),
    (Divide, &[FIVE, Whole(-2)], Whole(-2)),
    (Divide, &[Whole(-5), Whole(-2)], Whole(3)),
    (Divide, &[Whole(MAX), Whole(-1)], Whole(-MAX)),
    (Divide, &[Whole(-MAX), Whole(-1)], Whole(MAX)),
    (Divide, &[Whole(-MAX), Whole(MAX)], Whole(-1)),
    (Divide, &[Whole(-1), Whole(MAX)], Whole(-1)),
    (Modulo, &[FIVE, TWO, TWO], ONE),
    (Modulo, &[Whole(-5), TWO, Whole(-3)], ONE),
    (Modulo, &[FIVE, Whole(-2), Whole(-2)], ONE),
    (Modulo, &[Whole(-5), Whole(-2), Whole(3)], ONE),
    (Modulo, &[Whole(-MAX), Whole(-1), Whole(MAX)], Whole(0)),
    (Modulo, &[Whole(-1), Whole(MAX), Whole(-1)], Whole(MAX - 1)),
    (Modulo, &[Whole(MAX), Whole(-MAX), Whole(-1)], Whole(0)),
    (Divisible, &[Whole(-6), TWO, Whole(-3)], T),
    (Divisible, &[Whole(-5), TWO, Whole(-3)], F),
    (Divisible, &[Whole(-MAX), Whole(MAX), Whole(-1)], T),
    (Absolute, &[FIVE], FIVE),
    (Absolute, &[Whole(-5)], FIVE),
    (Absolute, &[Whole(-MAX)], Whole(MAX)),
];

#[test]
fn operators_have_their_values(rt: HostRuntime) -> Result<(), Fail> {
    for row in APPLIED.iter() {
        let (operator, arguments, want) = *row;
        assert_eq!(rt;
            applied(&rt, rt.alloc(), operator, arguments)?,
            want,
            "{operator:?}"
        );
    }
    Ok(())
}

/// Terms, each after its arguments, with their values, or the first part past the range.
static RANGES: [(Head, &'static [TermId], Result<Value, TermId>); 14] = [
    (Head::Numeral(MAX), &[], Ok(Whole(MAX))),
    (Head::Numeral(1), &[], Ok(Whole(1))),
    (Head::Theory(Add), &[0, 1], Err(2)),
    (Head::Theory(Multiply), &[0, 0], Err(3)),
    (Head::Theory(Equal), &[3, 2], Err(2)),
    (Head::Theory(AtMost), &[1, 0], Ok(Truth(true))),
    (Head::Theory(Ite), &[5, 1, 3], Err(3)),
    (Head::Theory(Subtract), &[2, 1], Err(2)),
    (Head::Theory(Subtract), &[1], Ok(Whole(-1))),
    (Head::Theory(Add), &[0, 1, 8], Err(9)),
    (Head::Theory(Add), &[0, 8, 1], Ok(Whole(MAX))),
    (Head::Theory(Subtract), &[8, 0], Err(11)),
    (Head::Numeral(MAX - 1), &[], Ok(Whole(MAX - 1))),
    (Head::Theory(Subtract), &[8, 12], Ok(Whole(-MAX))),
];

fn wanted(value: Result<Value, TermId>) -> Result<Value, EvalError> {
    match value {
        Ok(value) => Ok(value),
        Err(term) => Err(EvalError::Range(term)),
    }
}

#[test]
fn the_first_part_past_the_range_is_named(rt: HostRuntime) -> Result<(), Fail> {
    let mut store = TermStore::new(rt.alloc(), u32::MAX);
    let interp = Seq::new(rt.alloc());
    for row in RANGES.iter() {
        let (head, arguments, want) = *row;
        let term = intern(&rt, &mut store, head, arguments)?;
        assert_eq!(rt;
            evaluate(&rt, rt.alloc(), &interp, &store, term),
            wanted(want),
            "at {term}"
        );
    }
    Ok(())
}
