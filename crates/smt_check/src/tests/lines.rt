//! What is found in scripts: each line with its status.
use super::{calm, outcome};
use proof_form::Found;
use std::test::Fail;

/// Scripts, what is found, the line, and the status.
static LINES: [(&'static [u8], Found, &'static [u8], u8); 45] = [
    (
        b"(declare-const p Bool)(assert p)(assert (not p))(check-sat)(get-proof)(((p) (not 0)) ((assert 0 0) (assert 1 1) (form 1 (not (t 1)) (not (t 0))) (res 1 2 (t 1)) (res 0 3 (t 0))))",
        Found::Yes,
        b"yes\n",
        0,
    ),
    (
        b"(declare-const p Bool)(assert p)(assert (not p))(check-sat)(get-proof)(((p) (not 0)) ((assert 0 0) (assert 1 1) (form 1 (not (t 1)) (not (t 0))) (res 1 2 (t 1))))",
        Found::No(4),
        b"no 4\n",
        1,
    ),
    (
        b"(declare-const p Bool)(assert p)(assert (not p))(check-sat)(get-proof)(((p) (not 0)) ((assert 0 0) (assert 1 0) (form 1 (not (t 1)) (not (t 0))) (res 1 2 (t 1)) (res 0 3 (t 0))))",
        Found::No(1),
        b"no 1\n",
        1,
    ),
    // The assumption is the assertion behind those of the stack. What stands behind the proof isn't read.
    (
        b"(declare-const p Bool)(push 1)(assert (not p))(check-sat-assuming (p))(get-proof)(((p) (not 0)) ((assert 1 0) (assert 0 1) (form 1 (not (t 1)) (not (t 0))) (res 1 2 (t 1)) (res 0 3 (t 0)))))\xff",
        Found::Yes,
        b"yes\n",
        0,
    ),
    // A question between the check and the proof keeps the mode, and so does a command that is refused.
    (
        b"(assert false)(check-sat)(get-info :name)(assert p)(get-model)(get-proof)(((false)) ((assert 0 0) (form 0 (not (t 0))) (res 0 1 (t 0))))",
        Found::Yes,
        b"yes\n",
        0,
    ),
    (
        b"(assert false)(check-sat)(get-proof)(((true) (p)) ())",
        Found::Node(1),
        b"node 1\n",
        1,
    ),
    (b"(check-sat)(get-proof)(() ())", Found::No(0), b"no 0\n", 1),
    (
        b"(declare-const x Int)(check-sat)(get-proof)(((x)) ((refl 0) (round (le ((170141183460469231731687303715884105728 0)) 0) 1)))",
        Found::Range(1),
        b"range 1\n",
        8,
    ),
    // Rows of the table of divisions: of a remainder, an absolute value and a divisibility.
    (
        b"(declare-const x Int)(assert (< (mod x 2) 0))(check-sat)(get-proof)(((x) (2) (div 0 1) (mod 0 1) (0) (< 3 4)) ((assert 0 5) (form 5 (not (t 5)) (le ((1 3)) (- 1))) (euclid 3 0) (euclid 3 3) (farkas (1 (not (le ((1 3)) (- 1)))) (1 (not (le (((- 1) 0) (2 2)) 0))) (1 (not (le ((1 0) ((- 2) 2) ((- 1) 3)) 0)))) (res 0 1 (t 5)) (res 5 4 (le ((1 3)) (- 1))) (res 2 6 (le (((- 1) 0) (2 2)) 0)) (res 3 7 (le ((1 0) ((- 2) 2) ((- 1) 3)) 0))))",
        Found::Yes,
        b"yes\n",
        0,
    ),
    (
        b"(declare-const x Int)(assert (< (abs x) x))(check-sat)(get-proof)(((x) (abs 0) (< 1 0)) ((assert 0 2) (form 2 (not (t 2)) (le (((- 1) 0) (1 1)) (- 1))) (euclid 1 0) (farkas (1 (not (le (((- 1) 0) (1 1)) (- 1)))) (1 (not (le ((1 0) ((- 1) 1)) 0)))) (res 0 1 (t 2)) (res 4 3 (le (((- 1) 0) (1 1)) (- 1))) (res 2 5 (le ((1 0) ((- 1) 1)) 0))))",
        Found::Yes,
        b"yes\n",
        0,
    ),
    (
        b"(declare-const x Int)(assert ((_ divisible 2) x))(assert (= x 1))(check-sat)(get-proof)(((x) (2) (div 0 1) ((_ divisible 2) 0) (1) (= 0 4)) ((assert 0 3) (assert 1 5) (form 5 (not (t 5)) (s 0 4)) (link 0 4 0) (link 0 4 1) (euclid 3 0) (euclid 3 3) (farkas (1 (not (le (((- 1) 0) (2 2)) 0))) (1 (not (le ((1 0)) 1))) (2 (le ((1 2)) 0))) (farkas (1 (not (le ((1 0) ((- 2) 2)) 0))) (1 (not (le (((- 1) 0)) (- 1)))) (2 (not (le ((1 2)) 0)))) (res 1 2 (t 5)) (res 9 3 (s 0 4)) (res 9 4 (s 0 4)) (res 0 6 (t 3)) (res 5 7 (le (((- 1) 0) (2 2)) 0)) (res 10 13 (le ((1 0)) 1)) (res 12 8 (le ((1 0) ((- 2) 2)) 0)) (res 11 15 (le (((- 1) 0)) (- 1))) (res 14 16 (le ((1 2)) 0))))",
        Found::Yes,
        b"yes\n",
        0,
    ),
    // The literal of another row, and a row that isn't there.
    (
        b"(declare-const x Int)(assert (< (mod x 2) 0))(check-sat)(get-proof)(((x) (2) (div 0 1) (mod 0 1) (0) (< 3 4)) ((assert 0 5) (form 5 (not (t 5)) (le ((1 3)) (- 1))) (euclid 3 1) (euclid 3 3) (farkas (1 (not (le ((1 3)) (- 1)))) (1 (not (le (((- 1) 0) (2 2)) 0))) (1 (not (le ((1 0) ((- 2) 2) ((- 1) 3)) 0)))) (res 0 1 (t 5)) (res 5 4 (le ((1 3)) (- 1))) (res 2 6 (le (((- 1) 0) (2 2)) 0)) (res 3 7 (le ((1 0) ((- 2) 2) ((- 1) 3)) 0))))",
        Found::No(7),
        b"no 7\n",
        1,
    ),
    (
        b"(declare-const x Int)(check-sat)(get-proof)(((x) (2) (div 0 1) (mod 0 1)) ((euclid 3 3) (euclid 3 4)))",
        Found::No(1),
        b"no 1\n",
        1,
    ),
    (
        b"(declare-const x Int)(check-sat)(get-proof)(((x) (2) (div 0 1)) ((euclid 2 1) (euclid 2 2)))",
        Found::No(1),
        b"no 1\n",
        1,
    ),
    (
        b"(declare-const x Int)(check-sat)(get-proof)(((x) (abs 0)) ((euclid 1 2) (euclid 1 3)))",
        Found::No(1),
        b"no 1\n",
        1,
    ),
    // A quotient that goes with a term, and none.
    (
        b"(declare-const x Int)(check-sat)(get-proof)(((x) (2) (mod 0 1)) ((euclid 2 0)))",
        Found::No(0),
        b"no 0\n",
        1,
    ),
    (
        b"(declare-const x Int)(check-sat)(get-proof)(((x) (2) (div 0 1) (div 0 1 1)) ((euclid 3 0)))",
        Found::No(1),
        b"no 1\n",
        1,
    ),
    (
        b"(declare-const x Int)(check-sat)(get-proof)(((x) (2) (div 0 1 1)) ((euclid 2 0)))",
        Found::No(0),
        b"no 0\n",
        1,
    ),
    (
        b"(declare-const x Int)(check-sat)(get-proof)(((x) (2) (div 0 1) ((_ divisible 2) 0)) ((euclid 3 2) (euclid 3 4)))",
        Found::No(1),
        b"no 1\n",
        1,
    ),
    (
        b"(declare-const x Int)(check-sat)(get-proof)(((x) ((_ divisible 2) 0)) ((euclid 1 0)))",
        Found::No(0),
        b"no 0\n",
        1,
    ),
    // No division.
    (
        b"(declare-const x Int)(check-sat)(get-proof)(((x) (- 0)) ((euclid 1 0)))",
        Found::No(0),
        b"no 0\n",
        1,
    ),
    // No terms.
    (
        b"(declare-const x Int)(check-sat)(get-proof)(((x) (2) (mod 0 1 1)) ())",
        Found::Node(2),
        b"node 2\n",
        1,
    ),
    (
        b"(declare-const x Int)(check-sat)(get-proof)(((x) (div 0)) ())",
        Found::Node(1),
        b"node 1\n",
        1,
    ),
    (
        b"(declare-const x Int)(check-sat)(get-proof)(((x) (0) (div 0 1)) ())",
        Found::Node(2),
        b"node 2\n",
        1,
    ),
    (
        b"(declare-const x Int)(check-sat)(get-proof)(((x) (div 0 0)) ())",
        Found::Node(1),
        b"node 1\n",
        1,
    ),
    (
        b"(declare-const x Int)(check-sat)(get-proof)(((x) ((_ divisible 0) 0)) ())",
        Found::Node(1),
        b"node 1\n",
        1,
    ),
    (
        b"(declare-const x Int)(check-sat)(get-proof)(((x) ((_ divisible 2) 0 0)) ())",
        Found::Node(1),
        b"node 1\n",
        1,
    ),
    (
        b"(declare-const x Int)(check-sat)(get-proof)(((x) (3 0)) ())",
        Found::Node(1),
        b"node 1\n",
        1,
    ),
    // A row whose number leaves the range, and the other one of the quotient.
    (
        b"(declare-const x Int)(check-sat)(get-proof)(((170141183460469231731687303715884105727) (- 0) (div 1 0)) ((euclid 2 0) (euclid 2 1)))",
        Found::Range(1),
        b"range 1\n",
        8,
    ),
    // No proof: the end.
    (b"", Found::NoProof, b"no proof\n", 7),
    (b" ; (get-proof)", Found::NoProof, b"no proof\n", 7),
    (b"(check-sat)", Found::NoProof, b"no proof\n", 7),
    (b"(check-sat)(get-proof)", Found::NoProof, b"no proof\n", 7),
    (
        b"(check-sat)(get-proof)(() ()",
        Found::NoProof,
        b"no proof\n",
        7,
    ),
    // A lexical fault.
    (
        b"(check-sat))(get-proof)(() ())",
        Found::NoProof,
        b"no proof\n",
        7,
    ),
    (
        b"(check-sat)(get-proof)(() (01))",
        Found::NoProof,
        b"no proof\n",
        7,
    ),
    // An exit.
    (
        b"(check-sat)(exit)(get-proof)(() ())",
        Found::NoProof,
        b"no proof\n",
        7,
    ),
    // No check before it, or a command in between that gives the mode of the start or of assertions.
    (b"(get-proof)(() ())", Found::NoProof, b"no proof\n", 7),
    (
        b"(assert true)(get-proof)(() ())",
        Found::NoProof,
        b"no proof\n",
        7,
    ),
    (
        b"(check-sat)(assert true)(get-proof)(() ())",
        Found::NoProof,
        b"no proof\n",
        7,
    ),
    (
        b"(check-sat)(push 1)(get-proof)(() ())",
        Found::NoProof,
        b"no proof\n",
        7,
    ),
    (
        b"(check-sat)(reset)(get-proof)(() ())",
        Found::NoProof,
        b"no proof\n",
        7,
    ),
    // The first `(get-proof)` counts.
    (
        b"(get-proof)(check-sat)(get-proof)(() ())",
        Found::NoProof,
        b"no proof\n",
        7,
    ),
    // Not two lists.
    (
        b"(check-sat)(get-proof)(get-proof)",
        Found::NoProof,
        b"no proof\n",
        7,
    ),
    (
        b"(check-sat)(get-proof)(() () ())",
        Found::NoProof,
        b"no proof\n",
        7,
    ),
];

#[test]
fn finds_what_stands_in_scripts(rt: HostRuntime) -> Result<(), Fail> {
    for row in LINES.iter() {
        let (script, found, line, status) = *row;
        for piece in [1, 4096] {
            let (ended, written) = outcome(rt.alloc(), "smt_check", script, 1 << 20, calm(piece))?;
            assert_eq!(rt; ended.found, Some(found));
            assert_eq!(rt; ended.status, status);
            assert_eq!(rt; written.as_slice(), line);
        }
    }
    Ok(())
}
