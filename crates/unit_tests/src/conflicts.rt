//! Clauses that break where terms are equal, differ or have a truth value, and the reasons of equalities. Each test is a list of turns, so that what a call
//! is proved to do is carried through one turn alone.
ghost use Rattle.std.specs.Prelude.{IfOk};
ghost use Rattle.congruence.specs.Recorded.{IsRecorded};

use congruence::{Congruence, Explanation};
use literals::Literal;
use point_closure::Step;
use smt_meaning::{Head, TermId};
use std::alloc::{AllocError, Global};
use std::process::Abort;
use std::test::Fail;
use term_store::{InternError, TermStore};

/// The number of an atom, and the sign.
type Sign = (u32, bool);

/// What is recorded or taken back, or what must be found then.
enum Turn {
    /// A step is recorded for a literal.
    Step(Step, Sign),
    /// So many steps stay.
    Undo(usize),
    /// The clause that is broken; no literal where none is.
    Broken(&'static [Sign]),
    /// The reasons for which two points are equal; none where they aren't.
    Equal(u32, u32, &'static [Sign]),
}

/// a, b, f(a) and f(b). The truth values are the points 0 and 1, and these are the points 2 to 5.
static APPLIED: [(Head, &'static [TermId]); 4] = [
    (Head::Symbol(0), &[]),
    (Head::Symbol(1), &[]),
    (Head::Symbol(2), &[0]),
    (Head::Symbol(2), &[1]),
];

/// At first nothing is recorded; then a = b, and f(a) and f(b) differ.
static EQUAL_ARGUMENTS: [Turn; 8] = [
    Turn::Broken(&[]),
    Turn::Undo(0),
    Turn::Step(Step::Differ(4, 5), (1, false)),
    Turn::Broken(&[]),
    Turn::Step(Step::Merge(2, 3), (0, true)),
    Turn::Broken(&[(0, false), (1, true)]),
    Turn::Undo(1),
    Turn::Broken(&[]),
];

/// a is true, b is false, and a = b.
static EQUAL_TRUTHS: [Turn; 5] = [
    Turn::Step(Step::Merge(2, 0), (0, true)),
    Turn::Step(Step::Merge(3, 1), (1, false)),
    Turn::Broken(&[]),
    Turn::Step(Step::Merge(2, 3), (2, true)),
    Turn::Broken(&[(0, false), (1, true), (2, false)]),
];

/// Two steps of one literal: it stands once in the clause.
static ONE_REASON_FOR_TWO_STEPS: [Turn; 4] = [
    Turn::Step(Step::Merge(2, 3), (7, true)),
    Turn::Step(Step::Merge(3, 4), (7, true)),
    Turn::Step(Step::Differ(2, 4), (5, false)),
    Turn::Broken(&[(5, true), (7, false)]),
];

/// a = b and b = f(a): why a = f(a), and then in the same lists why f(a) = f(b).
static ONE_EXPLANATION_AFTER_ANOTHER: [Turn; 4] = [
    Turn::Step(Step::Merge(2, 3), (0, true)),
    Turn::Step(Step::Merge(3, 4), (2, true)),
    Turn::Equal(2, 4, &[(0, true), (2, true)]),
    Turn::Equal(4, 5, &[(0, true)]),
];

/// A list of these terms, each after its arguments.
fn store_of(
    rt: &impl Abort,
    alloc: Global,
    terms: &[(Head, &[TermId])],
) -> Result<TermStore, InternError> {
    let mut store = TermStore::new(alloc, 100);
    for (head, arguments) in terms {
        let count = store.len();
        assert!(rt; arguments.iter().all(|i| *i < count));
        let _ = store.intern(*head, arguments)?;
    }
    Ok(store)
}

/// A closure that has read the terms.
fn closure_of(rt: &impl Abort, alloc: Global, store: &TermStore) -> Result<Congruence, AllocError>
    ensures { IfOk result IsRecorded }
{
    let few = store.len() < 1000;
    assert!(rt; few);
    let mut congruence = Congruence::new(alloc)?;
    congruence.read(store)?;
    Ok(congruence)
}

fn are(literals: &[Literal], wanted: &[Sign]) -> bool {
    literals.len() == wanted.len()
        && literals.iter().zip(wanted).all(|(literal, sign)| literal.atom() == sign.0
            && literal.is_positive() == sign.1)
}

/// Records a step; false where its points aren't known.
fn record(congruence: &mut Congruence, step: Step, sign: Sign) -> Result<bool, AllocError>
    requires { IsRecorded congruence.old }
    ensures { IsRecorded congruence.new }
{
    let count = congruence.closure.len();
    let (left, right) = match step {
        Step::Merge(left, right) => (left, right),
        Step::Differ(left, right) => (left, right),
    };
    if left as usize >= count || right as usize >= count {
        return Ok(false);
    }
    congruence.record(step, Literal::new(sign.0 % 2048, sign.1))?;
    Ok(true)
}

/// Whether this clause is broken.
fn breaks(
    alloc: Global,
    congruence: &Congruence,
    explanation: &mut Explanation,
    wanted: &[Sign],
) -> Result<bool, AllocError>
    requires { IsRecorded congruence.now }
{
    let found = congruence.conflict(alloc, explanation)?;
    Ok(match found {
        Some(clause) => are(&clause, wanted),
        None => wanted.is_empty(),
    })
}

/// Whether two points are equal for these reasons.
fn equal(
    congruence: &Congruence,
    explanation: &mut Explanation,
    left: u32,
    right: u32,
    wanted: &[Sign],
) -> Result<bool, AllocError>
    requires { IsRecorded congruence.now }
{
    let count = congruence.closure.len();
    if left as usize >= count || right as usize >= count {
        return Ok(false);
    }
    if !congruence.closure.same(left, right) {
        return Ok(wanted.is_empty());
    }
    congruence.explain_points(explanation, left, right)?;
    Ok(are(&explanation.reasons, wanted))
}

/// Takes a turn; false where it can't be taken, or something else is found.
fn take(
    alloc: Global,
    congruence: &mut Congruence,
    explanation: &mut Explanation,
    turn: &Turn,
) -> Result<bool, AllocError>
    requires { IsRecorded congruence.old }
    ensures { IsRecorded congruence.new }
{
    match turn {
        Turn::Step(step, sign) => record(congruence, *step, *sign),
        Turn::Undo(depth) => {
            congruence.undo_to(*depth);
            Ok(true)
        }
        Turn::Broken(wanted) => breaks(alloc, congruence, explanation, wanted),
        Turn::Equal(left, right, wanted) => equal(congruence, explanation, *left, *right, wanted),
    }
}

/// Takes turns on a closure of the terms.
fn take_all(
    rt: &impl Abort,
    alloc: Global,
    store: &TermStore,
    turns: &[Turn],
) -> Result<(), AllocError> {
    let mut congruence = closure_of(rt, alloc, store)?;
    let mut explanation = Explanation::new(alloc);
    for (at, turn) in turns.iter().enumerate() {
        assert!(rt;
            take(alloc, &mut congruence, &mut explanation, turn)?,
            "at {at}"
        );
    }
    Ok(())
}

#[test]
fn conflicts_and_reasons(rt: HostRuntime) -> Result<(), Fail> {
    let store = store_of(&rt, rt.alloc(), &APPLIED)?;
    take_all(&rt, rt.alloc(), &store, &EQUAL_ARGUMENTS)?;
    take_all(&rt, rt.alloc(), &store, &EQUAL_TRUTHS)?;
    take_all(&rt, rt.alloc(), &store, &ONE_REASON_FOR_TWO_STEPS)?;
    take_all(&rt, rt.alloc(), &store, &ONE_EXPLANATION_AFTER_ANOTHER)?;
    Ok(())
}
