//! The literals that were told, and what the closure was told of them.
ghost use Rattle.std.specs.Prelude.{◌≡◌, ◌+◌, ◌^◌, ◌<◌, ◌≤◌, ◌++◌, ◌∷◌, [], List, length, take, slice_index_or, Contains, OnOk, OnErr, IfOk, IfSome};
ghost use Rattle.literals.specs.Signed.{Signed};
ghost use Rattle.search_port.specs.Calls.{IsConflict, AssertedBy};
ghost use Rattle.closure_log.specs.Seen.{state_of, IsSetting};
ghost use Rattle.congruence.specs.Reasons.{NoneTwice};
ghost use Rattle.closure_log.specs.Told.{IsTold, CanTell, IsReady, HasNoneTwice};

use crate::said::{Extent, Guide, say};
use atom_form::AtomNumbers;
use congruence::{Congruence, Explanation, clash_is_false_clause, lemma_with, record_all};
use literals::Literal;
use point_closure::Step;
use scope_stack::Stack;
use search_port::{Asserted, Cause, Lemma, push_told, start_of};
use smt_laws::flat_says_the_same;
use std::alloc::{AllocError, Global};
use term_store::TermStore;

/// The literals, oldest first, and how many steps were recorded before each; the lists of the last explanation, for the next.
#[derive(Drop)]
pub struct ClosureLog {
    pub congruence: Congruence,
    pub log: Vec<Literal>,
    pub starts: Vec<usize>,
    explanation: Explanation,
    steps: Vec<Step>,
}

/// A closure that has read the terms of a store. An `Err` is for want of memory.
pub(crate) fn closure_of(alloc: Global, store: &TermStore) -> Result<Congruence, AllocError>
    requires { length store.now.trees + 2 < 2 ^ 32 }
    ensures { IfOk result (IsReady store.now.trees) }
{
    let mut congruence = Congruence::new(alloc)?;
    congruence.read(store)?;
    Ok(congruence)
}

/// Records the steps of a literal of the log. An `Err` records a part of them.
fn record(
    told: &mut ClosureLog,
    stack: &Stack,
    atoms: &AtomNumbers,
    guide: &Guide,
    literal: Literal,
) -> Result<(), AllocError>
    requires setting { IsSetting stack.now atoms.now.atoms }
    requires told { IsTold stack.now atoms.now.atoms told.old.congruence told.old.log.items told.old.starts.items }
    requires among { Contains told.old.log.items literal }
    requires numbered { literal.atom < length atoms.now.atoms }
    ensures told { IsTold stack.now atoms.now.atoms told.new.congruence told.new.log.items told.new.starts.items }
    ensures log { told.new.log.items ≡ told.old.log.items }
{
    say(&mut told.steps, stack, atoms, guide, literal, Extent::Whole)?;
    record_all(&mut told.congruence, &told.steps, literal)
}

/// Adds a literal, and records its steps. After an `Err` the literal may stand, with a part of its steps.
fn add(
    told: &mut ClosureLog,
    stack: &Stack,
    atoms: &AtomNumbers,
    guide: &Guide,
    literal: Literal,
) -> Result<(), AllocError>
    requires { CanTell stack.now atoms.now.atoms told.old.congruence told.old.log.items told.old.starts.items literal }
    ensures told { IsTold stack.now atoms.now.atoms told.new.congruence told.new.log.items told.new.starts.items }
    ensures ok { OnOk result (told.new.log.items ≡ told.old.log.items ++ literal ∷ []) }
    ensures before { take (length told.old.log.items) told.new.log.items ≡ told.old.log.items }
{
    let start = told.congruence.reasons.len();
    push_told(&mut told.log, &mut told.starts, literal, start)?;
    record(told, stack, atoms, guide, literal)?;
    Ok(())
}

/// A clause that what was told breaks.
fn conflict(
    alloc: Global,
    told: &mut ClosureLog,
    stack: &Stack,
    atoms: &AtomNumbers,
) -> Result<Option<Lemma>, AllocError>
    requires setting { IsSetting stack.now atoms.now.atoms }
    requires told { IsTold stack.now atoms.now.atoms told.old.congruence told.old.log.items told.old.starts.items }
    ensures told { IsTold stack.now atoms.now.atoms told.new.congruence told.new.log.items told.new.starts.items }
    ensures log { told.new.log.items ≡ told.old.log.items }
    ensures found { IfOk result (λ found. IfSome found (IsConflict (state_of stack.now atoms.now.atoms told.new.log.items))) }
    ensures once { IfOk result (λ found. IfSome found (λ clause. NoneTwice clause.literals)) }
{
    clash_is_false_clause();
    flat_says_the_same();
    match told.congruence.conflict(alloc, &mut told.explanation)? {
        None => Ok(None),
        Some(clause) => Ok(Some(lemma_with(clause))),
    }
}

/// Keeps so many of the literals, and the steps that were recorded before the others.
fn cut_to(told: &mut ClosureLog, stack: &Stack, atoms: &AtomNumbers, count: usize)
    requires told { IsTold stack.now atoms.now.atoms told.old.congruence told.old.log.items told.old.starts.items }
    ensures told { IsTold stack.now atoms.now.atoms told.new.congruence told.new.log.items told.new.starts.items }
    ensures log { told.new.log.items ≡ take count told.old.log.items }
{
    if count < told.starts.len() {
        let start = start_of(&told.starts, count);
        told.congruence.undo_to(start);
        told.log.truncate(count);
        told.starts.truncate(count);
    }
}

/// Tells one literal more, and what it breaks. After an `Err` the literal may stand.
fn tell_and_ask(
    alloc: Global,
    told: &mut ClosureLog,
    stack: &Stack,
    atoms: &AtomNumbers,
    guide: &Guide,
    literal: Literal,
) -> Result<Option<Lemma>, AllocError>
    requires { CanTell stack.now atoms.now.atoms told.old.congruence told.old.log.items told.old.starts.items literal }
    ensures told { IsTold stack.now atoms.now.atoms told.new.congruence told.new.log.items told.new.starts.items }
    ensures ok { OnOk result (told.new.log.items ≡ told.old.log.items ++ literal ∷ []) }
    ensures before { take (length told.old.log.items) told.new.log.items ≡ told.old.log.items }
    ensures found { IfOk result (λ found. IfSome found (IsConflict (state_of stack.now atoms.now.atoms told.new.log.items))) }
    ensures once { IfOk result (λ found. IfSome found (λ clause. NoneTwice clause.literals)) }
{
    add(told, stack, atoms, guide, literal)?;
    conflict(alloc, told, stack, atoms)
}

/// Tells one literal more. Where memory is wanting it isn't taken.
fn tell(
    alloc: Global,
    told: &mut ClosureLog,
    stack: &Stack,
    atoms: &AtomNumbers,
    guide: &Guide,
    literal: Literal,
) -> Asserted
    requires { CanTell stack.now atoms.now.atoms told.old.congruence told.old.log.items told.old.starts.items literal }
    ensures told { IsTold stack.now atoms.now.atoms told.new.congruence told.new.log.items told.new.starts.items }
    ensures answer { AssertedBy (state_of stack.now atoms.now.atoms told.old.log.items) (state_of stack.now atoms.now.atoms told.new.log.items) literal result }
    ensures once { HasNoneTwice result }
{
    let count = told.log.len();
    match tell_and_ask(alloc, told, stack, atoms, guide, literal) {
        Ok(None) => Asserted::Taken,
        Ok(Some(clause)) => Asserted::Conflict(clause),
        Err(_) => {
            cut_to(told, stack, atoms, count);
            Asserted::Ended(Cause::Memory)
        }
    }
}

impl ClosureLog {
    ghost use Rattle.std.specs.Prelude.{◌≡◌, ◌+◌, ◌<◌, ◌^◌, [], List, length, take, IfOk};
    ghost use Rattle.smt_meaning.specs.declared.clauses.Atom.{Atom};
    ghost use Rattle.search_port.specs.State.{IsOpenIn};
    ghost use Rattle.search_port.specs.Calls.{AssertedBy};
    ghost use Rattle.closure_log.specs.Seen.{state_of, IsSetting};
    ghost use Rattle.closure_log.specs.Told.{IsTold, HasNoneTwice};

    /// Nothing is told of the terms of a stack, whatever atoms have numbers. An `Err` is for want of memory.
    pub fn new(alloc: Global, stack: &Stack) -> Result<Self, AllocError>
        requires { length stack.now.trees + 2 < 2 ^ 32 }
        ensures told { IfOk result (λ c. (table : List Atom) → IsTold stack.now table c.congruence c.log.items c.starts.items) }
        ensures log { IfOk result (λ c. c.log.items ≡ []) }
    {
        let congruence = closure_of(alloc, stack.terms())?;
        Ok(ClosureLog {
            congruence,
            log: Vec::new(alloc),
            starts: Vec::new(alloc),
            explanation: Explanation::new(alloc),
            steps: Vec::new(alloc),
        })
    }

    /// Tells one literal more, and what it breaks. Where memory is wanting it isn't taken.
    pub fn tell(
        &mut self,
        alloc: Global,
        stack: &Stack,
        atoms: &AtomNumbers,
        guide: &Guide,
        literal: Literal,
    ) -> Asserted
        requires setting { IsSetting stack.now atoms.now.atoms }
        requires told { IsTold stack.now atoms.now.atoms self.old.congruence self.old.log.items self.old.starts.items }
        requires numbered { literal.atom < length atoms.now.atoms }
        requires open { IsOpenIn self.old.log.items literal }
        ensures told { IsTold stack.now atoms.now.atoms self.new.congruence self.new.log.items self.new.starts.items }
        ensures answer { AssertedBy (state_of stack.now atoms.now.atoms self.old.log.items) (state_of stack.now atoms.now.atoms self.new.log.items) literal result }
        ensures once { HasNoneTwice result }
    {
        tell(alloc, self, stack, atoms, guide, literal)
    }

    /// Keeps so many of the literals. It takes no memory.
    pub fn undo_to(&mut self, stack: &Stack, atoms: &AtomNumbers, count: usize)
        requires told { IsTold stack.now atoms.now.atoms self.old.congruence self.old.log.items self.old.starts.items }
        ensures told { IsTold stack.now atoms.now.atoms self.new.congruence self.new.log.items self.new.starts.items }
        ensures log { self.new.log.items ≡ take count self.old.log.items }
    {
        cut_to(self, stack, atoms, count);
    }
}
