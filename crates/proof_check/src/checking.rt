//! A run of the checker, from its words to its status.
ghost use Rattle.std.specs.Prelude.{◌≡◌, ◌≤◌, ◌<◌, ◌^◌, None, List, length, map, All, IfOk};
ghost use Rattle.smt_meaning.specs.Sexp.{Sexp, sexp};
ghost use Rattle.smt_meaning.specs.Stack.{Frame};
ghost use Rattle.smt_meaning.specs.State.{State, checked_frames};
ghost use Rattle.scope_stack.specs.declared.answers.Assertion.{Assertion as AssertionValue};
ghost use Rattle.scope_stack.specs.Inside.{IsWithin};
ghost use Rattle.proof_form.specs.Found.{IsFound, IsGoodInRange};
ghost use Rattle.session.specs.LastCheck.{IsOfLastCheck};
ghost use Rattle.proof_check.specs.Checked.{IsChecked, Refutes};
ghost use Rattle.proof_check.specs.Progress.{Comes};
ghost use Rattle.proof_check.specs.Told.{IsTold, statuses};

use crate::folding::fold_commands;
use crate::intake::{Halt, Intake};
use crate::line::{line, status};
use ports::{Put, Sink, Source};
use proof_form::{Found, judge};
use proof_meaning::{good_proof_leaves_no_model, named_assertions_have_no_model};
use scope_stack::Assertion;
use session::{LastCheck, Session};
use smt_meaning::{SExpr, Settings, TermId};
use std::alloc::{AllocError, Global};

/// The settings of the fold: those of no words, but for one worker.
const SETTINGS: Settings = Settings {
    workers: 1,
    units: 0,
    share: 8,
    seed: 0,
};

/// How a run of the checker ended.
#[derive(Clone, Copy, Drop)]
pub struct CheckEnded {
    /// What the program exits with: 0 for `yes`, 1 for `node n` and `no n`, 8 for `range n`, 7 for `no proof`; 2 where there is a word past the name, 3 and 4 where the source or the sink failed, 5 where memory was wanting, 6 where the input was too long.
    pub status: u8,
    /// What was found, which the line says. Nothing at the statuses 2, 3, 5 and 6.
    pub found: Option<Found>,
}

/// The places of the terms of assertions.
fn places(alloc: Global, assertions: &[Assertion]) -> Result<Vec<TermId>, AllocError>
    ensures { IfOk result (λ v. v.items ≡ map (λ (a : AssertionValue). a.term) assertions.now) }
{
    let mut places = Vec::new(alloc);
    for assertion in assertions {
        places.push(assertion.term)?;
    }
    Ok(places)
}

/// Judges an s-expression as a proof that the assertions of the last check have no model. An `Err` is for want of memory.
fn judged(alloc: Global, check: &LastCheck, proof: &SExpr) -> Result<Found, AllocError>
    requires { All (IsWithin check.now.stack.trees) check.now.assumptions }
    ensures { (s : State) → IsOfLastCheck s check.now.stack check.now.assumptions → IfOk result (IsFound (checked_frames s) (sexp proof.now)) }
{
    let above = places(alloc, check.assumptions.as_slice())?;
    judge(alloc, &check.stack, &above, proof)
}

/// What is found in the input that a source gives.
fn found<S: Source>(alloc: Global, budget: u64, source: &mut S) -> Result<Found, Halt>
    requires { budget ≤ 2 ^ 40 }
    ensures { Comes budget (S.told source.old) (S.told source.new) result }
{
    let mut buf = vec![in alloc; 0u8; 65536]?;
    let mut intake = Intake::new(alloc, budget);
    let mut session = Session::new(alloc, &SETTINGS);
    if !fold_commands(alloc, &mut intake, source, buf.as_mut_slice(), &mut session)? {
        return Ok(Found::NoProof);
    }
    let Some(check) = session.into_last_check(alloc) else {
        return Ok(Found::NoProof);
    };
    let Some(proof) = intake.next(alloc, source, buf.as_mut_slice())? else {
        return Ok(Found::NoProof);
    };
    Ok(judged(alloc, &check, &proof)?)
}

/// A good proof refutes the assertions that its steps name, and so all of them.
fn good_proof_refutes()
    ensures { (frames : List Frame) (x : Sexp) → IsGoodInRange frames x → Refutes frames x }
{
    named_assertions_have_no_model();
    good_proof_leaves_no_model();
}

/// Writes the line that says what was found.
fn tell<K: Sink>(alloc: Global, sink: &mut K, found: Found) -> CheckEnded
    ensures told { IsTold found (K.told sink.old) (K.told sink.new) result }
    ensures silent { result.found ≡ None → sink.new ≡ sink.old }
{
    let Ok(line) = line(alloc, found) else {
        return CheckEnded {
            status: 5,
            found: None,
        };
    };
    let status = match sink.put(line.as_slice()) {
        Put::Ok => status(found),
        Put::Failed => 4,
    };
    CheckEnded {
        status,
        found: Some(found),
    }
}

/// The status of a run that was cut off.
fn halted(halt: Halt) -> u8
    ensures { result ≡ statuses halt }
{
    match halt {
        Halt::ReadFault => 3,
        Halt::Memory => 5,
        Halt::TooLong => 6,
    }
}

/// Checks the proof in the script that the source gives: commands are folded up to the first `(get-proof)`, the s-expression behind it is judged as a proof that the assertions of the last check have no model, and what is found is written to the sink as a line. The rest isn't read. The words are those of the command line, of which the first is the program's name; where there are more, nothing is read or written.
pub fn check_run<S: Source, K: Sink>(
    alloc: Global,
    source: &mut S,
    sink: &mut K,
    words: &Vec<String>,
) -> CheckEnded
    ensures checked { IsChecked (2 ^ 40) (length words.now.items) (S.told source.old) (S.told source.new) (K.told sink.old) (K.told sink.new) result }
    ensures untouched { 1 < length words.now.items → (source.new ≡ source.old) × (sink.new ≡ sink.old) }
    ensures silent { result.found ≡ None → sink.new ≡ sink.old }
{
    check_within(alloc, 1 << 40, source, sink, words)
}

/// `check_run` with another budget of calls that ask for more input, where `check_run` has 2^40.
pub fn check_within<S: Source, K: Sink>(
    alloc: Global,
    budget: u64,
    source: &mut S,
    sink: &mut K,
    words: &Vec<String>,
) -> CheckEnded
    requires { budget ≤ 2 ^ 40 }
    ensures checked { IsChecked budget (length words.now.items) (S.told source.old) (S.told source.new) (K.told sink.old) (K.told sink.new) result }
    ensures untouched { 1 < length words.now.items → (source.new ≡ source.old) × (sink.new ≡ sink.old) }
    ensures silent { result.found ≡ None → sink.new ≡ sink.old }
{
    good_proof_refutes();
    if words.len() > 1 {
        return CheckEnded {
            status: 2,
            found: None,
        };
    }
    match found(alloc, budget, source) {
        Ok(found) => tell(alloc, sink, found),
        Err(halt) => CheckEnded {
            status: halted(halt),
            found: None,
        },
    }
}
