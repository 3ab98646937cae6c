//! Literals that follow from what was told, by few reasons.
ghost use Rattle.std.specs.Prelude.{◌≡◌, ◌<◌, length, All, OnOk, IfOk, IfSome};
ghost use Rattle.literals.specs.Signed.{Signed};
ghost use Rattle.search_port.specs.Calls.{InferredBy};
ghost use Rattle.search_port.specs.Spending.{Spending};
ghost use Rattle.search_port.specs.State.{IsOpenIn, TheoryState};
ghost use Rattle.congruence.specs.Implied.{IsPressingLemma};
ghost use Rattle.closure_log.specs.Seen.{state_of, IsSetting};
ghost use Rattle.closure_log.specs.Told.{IsTold, CanTell};
ghost use Rattle.closure_log.specs.Places.{ArePlaces};

use crate::said::{Extent, Guide, say};
use crate::scan::{Scan, is_open};
use crate::told::ClosureLog;
use atom_form::AtomNumbers;
use congruence::{Explanation, implied_clause};
use literals::Literal;
use point_closure::Step;
use scope_stack::Stack;
use search_port::{Cause, Inferred, Lemma};
use smt_laws::flat_says_the_same;
use smt_meaning::Seq;
use std::alloc::{AllocError, Global};

/// How many atoms are scanned at most in one call.
const SCANNED: usize = 8;

/// How many clauses are given at most in one call.
const GIVEN: usize = 4;

/// How many reasons a literal has at most.
const REASONS: usize = 7;

/// The clause by which a literal follows.
fn implied(
    alloc: Global,
    told: &ClosureLog,
    steps: &mut Vec<Step>,
    explanation: &mut Explanation,
    stack: &Stack,
    atoms: &AtomNumbers,
    guide: &Guide,
    literal: Literal,
) -> Result<Option<Lemma>, AllocError>
    requires { CanTell stack.now atoms.now.atoms told.now.congruence told.now.log.items told.now.starts.items literal }
    ensures { IfOk result (λ found. IfSome found (IsPressingLemma (state_of stack.now atoms.now.atoms told.now.log.items))) }
{
    flat_says_the_same();
    let negation = literal.negated();
    say(steps, stack, atoms, guide, negation, Extent::Alone)?;
    match implied_clause(
        alloc,
        explanation,
        &told.congruence,
        literal,
        steps,
        REASONS,
    )? {
        None => Ok(None),
        Some(clause) => Ok(Some(clause)),
    }
}

/// The clause by which an open literal follows, or its negation.
fn implied_sign(
    alloc: Global,
    told: &ClosureLog,
    steps: &mut Vec<Step>,
    explanation: &mut Explanation,
    stack: &Stack,
    atoms: &AtomNumbers,
    guide: &Guide,
    literal: Literal,
) -> Result<Option<Lemma>, AllocError>
    requires setting { IsSetting stack.now atoms.now.atoms }
    requires told { IsTold stack.now atoms.now.atoms told.now.congruence told.now.log.items told.now.starts.items }
    requires numbered { literal.atom < length atoms.now.atoms }
    requires open { (l : Signed) → l.atom ≡ literal.atom → IsOpenIn told.now.log.items l }
    ensures { IfOk result (λ found. IfSome found (IsPressingLemma (state_of stack.now atoms.now.atoms told.now.log.items))) }
{
    match implied(
        alloc,
        told,
        steps,
        explanation,
        stack,
        atoms,
        guide,
        literal,
    )? {
        Some(clause) => Ok(Some(clause)),
        None => implied(
            alloc,
            told,
            steps,
            explanation,
            stack,
            atoms,
            guide,
            literal.negated(),
        ),
    }
}

/// The clause by which a literal of an atom follows. None of an atom that isn't open.
fn scan_atom(
    alloc: Global,
    told: &ClosureLog,
    scan: &mut Scan,
    stack: &Stack,
    atoms: &AtomNumbers,
    guide: &Guide,
    atom: usize,
) -> Result<Option<Lemma>, AllocError>
    requires setting { IsSetting stack.now atoms.now.atoms }
    requires told { IsTold stack.now atoms.now.atoms told.now.congruence told.now.log.items told.now.starts.items }
    requires size { length scan.old.places.items ≡ length atoms.now.atoms }
    requires places { ArePlaces told.now.log.items scan.old.places.items }
    requires numbered { atom < length atoms.now.atoms }
    ensures places { scan.new.places.items ≡ scan.old.places.items }
    ensures found { IfOk result (λ found. IfSome found (IsPressingLemma (state_of stack.now atoms.now.atoms told.now.log.items))) }
{
    let _few = atoms.len();
    if !is_open(&scan.places, &told.log, atom as u32) {
        return Ok(None);
    }
    let literal = Literal::new(atom as u32, true);
    implied_sign(
        alloc,
        told,
        &mut scan.steps,
        &mut scan.explanation,
        stack,
        atoms,
        guide,
        literal,
    )
}

/// Adds a clause, where there is one. An `Err` is for want of memory.
pub fn keep(clauses: &mut Vec<Lemma>, found: Option<Lemma>) -> Result<(), AllocError>
    ensures { OnOk result ((t : TheoryState) → IfSome found (IsPressingLemma t) → All (IsPressingLemma t) clauses.old.items → All (IsPressingLemma t) clauses.new.items) }
{
    match found {
        None => Ok(()),
        Some(clause) => {
            clauses.push(clause)?;
            Ok(())
        }
    }
}

/// Clauses by which literals of some atoms follow. An `Err` is for want of memory.
fn find_implied(
    alloc: Global,
    told: &ClosureLog,
    scan: &mut Scan,
    stack: &Stack,
    atoms: &AtomNumbers,
    guide: &Guide,
) -> Result<Vec<Lemma>, AllocError>
    requires setting { IsSetting stack.now atoms.now.atoms }
    requires told { IsTold stack.now atoms.now.atoms told.now.congruence told.now.log.items told.now.starts.items }
    requires size { length scan.old.places.items ≡ length atoms.now.atoms }
    requires places { ArePlaces told.now.log.items scan.old.places.items }
    ensures places { scan.new.places.items ≡ scan.old.places.items }
    ensures found { IfOk result (λ found. All (IsPressingLemma (state_of stack.now atoms.now.atoms told.now.log.items)) found.items) }
{
    let mut clauses = Vec::new(alloc);
    for turn in 0..SCANNED {
        if clauses.len() == GIVEN {
            return Ok(clauses);
        }
        let Some(atom) = scan.next(atoms.len()) else {
            return Ok(clauses);
        };
        let found = scan_atom(alloc, told, scan, stack, atoms, guide, atom)?;
        keep(&mut clauses, found)?;
    }
    Ok(clauses)
}

/// Quiet where there is no clause, and else the clauses.
pub fn inferred(clauses: Vec<Lemma>) -> Inferred
    ensures { (t : TheoryState) (b c : Spending) → All (IsPressingLemma t) clauses.items → InferredBy t b c result }
{
    if clauses.len() == 0 {
        return Inferred::Quiet;
    }
    Inferred::Lemmas(Seq::from_vec(clauses))
}

/// What follows, by few reasons, from what was told.
pub fn infer(
    alloc: Global,
    told: &ClosureLog,
    scan: &mut Scan,
    stack: &Stack,
    atoms: &AtomNumbers,
    guide: &Guide,
) -> Inferred
    requires setting { IsSetting stack.now atoms.now.atoms }
    requires told { IsTold stack.now atoms.now.atoms told.now.congruence told.now.log.items told.now.starts.items }
    requires size { length scan.old.places.items ≡ length atoms.now.atoms }
    requires places { ArePlaces told.now.log.items scan.old.places.items }
    ensures places { scan.new.places.items ≡ scan.old.places.items }
    ensures found { (b c : Spending) → InferredBy (state_of stack.now atoms.now.atoms told.now.log.items) b c result }
{
    match find_implied(alloc, told, scan, stack, atoms, guide) {
        Ok(clauses) => inferred(clauses),
        Err(_) => Inferred::Ended(Cause::Memory),
    }
}
