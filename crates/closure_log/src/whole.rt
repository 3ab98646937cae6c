//! A closure in which all is recorded that a log says of terms. It is for a last check, and takes no heed of what guides a search.
ghost use Rattle.std.specs.Prelude.{◌≡◌, ◌+◌, ◌<◌, ◌^◌, ◌∷◌, [], ℕ, length, slice_index_or, All, IfOk, IfSome, IfNone, OnOk, MatchOption};
ghost use Rattle.literals.specs.Signed.{Signed};
ghost use Rattle.smt_meaning.specs.declared.clauses.Atom.TheVariants.{Truth};
ghost use Rattle.smt_meaning.specs.declared.terms.Operator.TheVariants.{Ite};
ghost use Rattle.smt_meaning.specs.declared.terms.Head.TheVariants.{Theory};
ghost use Rattle.smt_meaning.specs.Stack.{signature_of};
ghost use Rattle.search_port.specs.Calls.{IsConflict};
ghost use Rattle.congruence.specs.Reasons.{NoneTwice};
ghost use Rattle.closure_log.specs.Seen.{state_of, IsSetting};
ghost use Rattle.closure_log.specs.Said.{AreSaidBy, AreSaid};
ghost use Rattle.closure_log.specs.Parts.{IsPlacedLog};
ghost use Rattle.closure_log.specs.Whole.{KeepsApart, HasClasses, IsGrounded, IsClosed, SaysAtom, SaysLiteral, SaysChoice, KeepsSteps, SaysAll};

use crate::read::truth_told;
use crate::told::closure_of;
use atom_form::{AtomNumbers, NumberedAtom};
use congruence::{
    Congruence, Explanation, add_choice_steps, add_node_steps, add_pair_step, add_truth_step,
    choice_steps_are_justified, clash_is_false_clause, lemma_with, node_steps_are_justified,
    record_all, sameness_is_justified, truth_is_justified,
};
use literals::Literal;
use point_closure::{Step, classes_are_the_closure};
use scope_stack::Stack;
use search_port::Lemma;
use smt_laws::flat_says_the_same;
use smt_meaning::{Head, Operator, TermId};
use std::alloc::{AllocError, Global};
use term_store::TermStore;

/// What a log is to the closure of all that it says of terms.
#[derive(Drop)]
pub enum Closed {
    /// Nothing is in conflict in this closure.
    Apart(Congruence),
    /// A clause that is false.
    Broken(Lemma),
}

/// Adds what the truth of a term says of it and of its arguments.
fn add_truth(
    steps: &mut Vec<Step>,
    store: &TermStore,
    term: TermId,
    value: bool,
) -> Result<(), AllocError>
    requires within { term < length store.now.trees }
    requires few { length store.now.trees + 2 < 2 ^ 32 }
    ensures said { OnOk result (AreSaidBy store.now.trees term value steps.old.items → AreSaidBy store.now.trees term value steps.new.items) }
    ensures whole { OnOk result (SaysAtom store.now.trees steps.new.items value (Truth term)) }
{
    truth_is_justified();
    node_steps_are_justified();
    let _different = store.len();
    let node = store.node(term);
    add_truth_step(steps, term, value)?;
    add_node_steps(steps, node.head, node.arguments, value)?;
    Ok(())
}

/// The steps of a literal, but for choices. An `Err` is for want of memory.
fn say_literal(
    steps: &mut Vec<Step>,
    stack: &Stack,
    atoms: &AtomNumbers,
    literal: Literal,
) -> Result<(), AllocError>
    requires setting { IsSetting stack.now atoms.now.atoms }
    requires numbered { literal.atom < length atoms.now.atoms }
    ensures said { OnOk result (AreSaid (signature_of stack.now.frames) stack.now.trees atoms.now.atoms literal steps.new.items) }
    ensures whole { OnOk result (SaysLiteral stack.now.trees atoms.now.atoms steps.new.items literal) }
{
    sameness_is_justified();
    steps.clear();
    match atoms.atom(literal.atom()) {
        NumberedAtom::Truth(term) => {
            add_truth(steps, stack.terms(), term, literal.is_positive())?;
            Ok(())
        }
        NumberedAtom::Same(left, right) => {
            add_pair_step(steps, left, right, literal.is_positive())?;
            Ok(())
        }
        NumberedAtom::Bound(_) => Ok(()),
    }
}

/// Records the steps of a literal of the log, but for choices.
fn record_literal(
    congruence: &mut Congruence,
    steps: &mut Vec<Step>,
    stack: &Stack,
    atoms: &AtomNumbers,
    log: &[Literal],
    index: usize,
) -> Result<(), AllocError>
    requires setting { IsSetting stack.now atoms.now.atoms }
    requires numbered { All (λ (l : Signed). l.atom < length atoms.now.atoms) log.now }
    requires within { index < length log.now }
    requires grounded { IsGrounded stack.now atoms.now.atoms log.now congruence.old }
    ensures grounded { OnOk result (IsGrounded stack.now atoms.now.atoms log.now congruence.new) }
    ensures keeps { OnOk result (KeepsSteps congruence.old congruence.new) }
    ensures says { OnOk result ((d : Signed) → SaysLiteral stack.now.trees atoms.now.atoms congruence.new.closure.steps.items (slice_index_or log.now index d)) }
{
    let literal = log[index];
    say_literal(steps, stack, atoms, literal)?;
    record_all(congruence, steps, literal)?;
    Ok(())
}

/// Records the steps of each literal, but for choices.
fn record_literals(
    congruence: &mut Congruence,
    steps: &mut Vec<Step>,
    stack: &Stack,
    atoms: &AtomNumbers,
    log: &[Literal],
) -> Result<(), AllocError>
    requires setting { IsSetting stack.now atoms.now.atoms }
    requires numbered { All (λ (l : Signed). l.atom < length atoms.now.atoms) log.now }
    requires grounded { IsGrounded stack.now atoms.now.atoms log.now congruence.old }
    ensures grounded { OnOk result (IsGrounded stack.now atoms.now.atoms log.now congruence.new) }
    ensures says { OnOk result (All (SaysLiteral stack.now.trees atoms.now.atoms congruence.new.closure.steps.items) log.now) }
{
    for index in 0..log.len() {
        record_literal(congruence, steps, stack, atoms, log, index)?;
    }
    Ok(())
}

/// The condition of a choice.
fn condition_of(head: Head, arguments: &[TermId]) -> Option<TermId>
    ensures some { IfSome result (λ t. (c i j : ℕ) → arguments.now ≡ c ∷ i ∷ j ∷ [] → t ≡ c) }
    ensures none { IfNone result (head ≡ Theory Ite → (c i j : ℕ) → arguments.now ≡ c ∷ i ∷ j ∷ [] → ⊥) }
{
    if head == Head::Theory(Operator::Ite) && arguments.len() == 3 {
        Some(arguments[0])
    } else {
        None
    }
}

/// Records that the choice at a place is equal to the branch that is taken, where the log tells the truth of its condition.
fn record_choice(
    congruence: &mut Congruence,
    steps: &mut Vec<Step>,
    stack: &Stack,
    atoms: &AtomNumbers,
    places: &[usize],
    log: &[Literal],
    place: TermId,
) -> Result<(), AllocError>
    requires setting { IsSetting stack.now atoms.now.atoms }
    requires log { IsPlacedLog atoms.now.atoms log.now places.now }
    requires within { place < length stack.now.trees }
    requires grounded { IsGrounded stack.now atoms.now.atoms log.now congruence.old }
    ensures grounded { OnOk result (IsGrounded stack.now atoms.now.atoms log.now congruence.new) }
    ensures keeps { OnOk result (KeepsSteps congruence.old congruence.new) }
    ensures says { OnOk result (SaysChoice stack.now.trees atoms.now.atoms log.now congruence.new.closure.steps.items place) }
{
    choice_steps_are_justified();
    let store = stack.terms();
    let _different = store.len();
    let node = store.node(place);
    let Some(condition) = condition_of(node.head, node.arguments) else {
        return Ok(());
    };
    let Some(literal) = truth_told(atoms, places, log, condition) else {
        return Ok(());
    };
    steps.clear();
    add_choice_steps(
        steps,
        place,
        node.head,
        node.arguments,
        condition,
        literal.is_positive(),
    )?;
    record_all(congruence, steps, literal)?;
    Ok(())
}

/// Records what the log says of each choice.
fn record_choices(
    congruence: &mut Congruence,
    steps: &mut Vec<Step>,
    stack: &Stack,
    atoms: &AtomNumbers,
    places: &[usize],
    log: &[Literal],
) -> Result<(), AllocError>
    requires setting { IsSetting stack.now atoms.now.atoms }
    requires log { IsPlacedLog atoms.now.atoms log.now places.now }
    requires grounded { IsGrounded stack.now atoms.now.atoms log.now congruence.old }
    requires says { All (SaysLiteral stack.now.trees atoms.now.atoms congruence.old.closure.steps.items) log.now }
    ensures grounded { OnOk result (IsGrounded stack.now atoms.now.atoms log.now congruence.new) }
    ensures all { OnOk result (SaysAll stack.now.trees atoms.now.atoms log.now congruence.new) }
{
    for place in 0..stack.terms().len() {
        record_choice(congruence, steps, stack, atoms, places, log, place)?;
    }
    Ok(())
}

/// The closure of all that the log says of terms.
fn recorded(
    alloc: Global,
    stack: &Stack,
    atoms: &AtomNumbers,
    places: &[usize],
    log: &[Literal],
) -> Result<Congruence, AllocError>
    requires setting { IsSetting stack.now atoms.now.atoms }
    requires log { IsPlacedLog atoms.now.atoms log.now places.now }
    ensures grounded { IfOk result (IsGrounded stack.now atoms.now.atoms log.now) }
    ensures all { IfOk result (SaysAll stack.now.trees atoms.now.atoms log.now) }
{
    let mut congruence = closure_of(alloc, stack.terms())?;
    let mut steps = Vec::new(alloc);
    record_literals(&mut congruence, &mut steps, stack, atoms, log)?;
    record_choices(&mut congruence, &mut steps, stack, atoms, places, log)?;
    Ok(congruence)
}

/// What is said of the classes of a closure.
fn classes_are_said(congruence: &Congruence, stack: &Stack, atoms: &AtomNumbers, log: &[Literal])
    requires { IsGrounded stack.now atoms.now.atoms log.now congruence.now }
    ensures { HasClasses stack.now.trees congruence.now }
{
    classes_are_the_closure();
    let _unions = congruence.closure.classes.unions();
    let _different = stack.terms().len();
}

/// A clause that the closure breaks.
fn broken_by(
    alloc: Global,
    congruence: &Congruence,
    stack: &Stack,
    atoms: &AtomNumbers,
    places: &[usize],
    log: &[Literal],
) -> Result<Option<Lemma>, AllocError>
    requires setting { IsSetting stack.now atoms.now.atoms }
    requires log { IsPlacedLog atoms.now.atoms log.now places.now }
    requires grounded { IsGrounded stack.now atoms.now.atoms log.now congruence.now }
    requires all { SaysAll stack.now.trees atoms.now.atoms log.now congruence.now }
    ensures found { IfOk result (λ o. MatchOption o (KeepsApart stack.now.trees atoms.now.atoms log.now congruence.now) (IsConflict (state_of stack.now atoms.now.atoms log.now))) }
    ensures once { IfOk result (λ o. IfSome o (λ clause. NoneTwice clause.literals)) }
{
    clash_is_false_clause();
    flat_says_the_same();
    let mut explanation = Explanation::new(alloc);
    match congruence.conflict(alloc, &mut explanation)? {
        None => Ok(None),
        Some(clause) => Ok(Some(lemma_with(clause))),
    }
}

/// The closure of all that a log says of terms, where nothing in it is in conflict, or a clause that is false. An `Err` is for want of memory.
pub fn whole_closure(
    alloc: Global,
    stack: &Stack,
    atoms: &AtomNumbers,
    places: &[usize],
    log: &[Literal],
) -> Result<Closed, AllocError>
    requires setting { IsSetting stack.now atoms.now.atoms }
    requires log { IsPlacedLog atoms.now.atoms log.now places.now }
    ensures { IfOk result (IsClosed stack.now atoms.now.atoms log.now) }
{
    let congruence = recorded(alloc, stack, atoms, places, log)?;
    classes_are_said(&congruence, stack, atoms, log);
    match broken_by(alloc, &congruence, stack, atoms, places, log)? {
        Some(clause) => Ok(Closed::Broken(clause)),
        None => Ok(Closed::Apart(congruence)),
    }
}
