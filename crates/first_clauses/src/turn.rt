//! Clauses with what negations negate: a literal of a negation would stand between a clause and the literal that it negates.
ghost use Rattle.std.specs.Prelude.{◌≡◌, ◌≢◌, ◌<◌, ◌≤◌, ◌^◌, length, All, Contains, OnOk, IfSome, true, false};
ghost use Rattle.literals.specs.Signed.{Signed};
ghost use Rattle.clause_store.specs.Stored.{Kept};
ghost use Rattle.smt_meaning.specs.declared.clauses.Atom.TheVariants.{Truth};
ghost use Rattle.clause_form.specs.Node.{HasNoAtomTwice};
ghost use Rattle.atom_form.specs.AtomTableNumbers.{IsAt};
ghost use Rattle.search_port.specs.Valid.{IsOf};
ghost use Rattle.first_clauses.specs.PartClausesFirst.{IsBegun, IsClause};
ghost use Rattle.first_clauses.specs.CheckClausesFirst.{reading_of};
ghost use Rattle.first_clauses.specs.Turned.{Negates, IsTurned, AreTurned, IsKeptTurned};

use crate::keep;
use atom_form::{AtomNumbers, CompactAtom, NumberedAtom};
use clause_form::Clauses;
use clause_store::store::Store;
use literals::Literal;
use scope_stack::Stack;
use smt_laws::flat_says_the_same;
use smt_meaning::{Head, Operator, TermId};
use std::alloc::AllocError;
use term_store::TermStore;

/// A clause of more literals is kept as it is.
const MOST_LITERALS: usize = 12;

/// The number of what the term at a place negates.
fn negated_by(terms: &TermStore, atoms: &AtomNumbers, number: u32, place: TermId) -> Option<u32>
    requires atom { IsAt atoms.now.atoms number (Truth place) }
    requires within { place < length terms.now.trees }
    ensures { IfSome result (λ m. Negates terms.now.trees atoms.now.atoms number m) }
{
    let node = terms.node(place);
    match node.head {
        Head::Theory(Operator::Not) => {
            if node.arguments.len() != 1 {
                return None;
            }
            atoms.find(CompactAtom::Truth(node.arguments[0]))
        }
        _ => None,
    }
}

/// The number of what the term of a number's atom negates.
fn negated(terms: &TermStore, atoms: &AtomNumbers, number: u32) -> Option<u32>
    requires { number < length atoms.now.atoms }
    ensures { IfSome result (λ m. Negates terms.now.trees atoms.now.atoms number m) }
{
    match atoms.atom(number) {
        NumberedAtom::Truth(place) => {
            if place >= terms.len() {
                return None;
            }
            negated_by(terms, atoms, number, place)
        }
        NumberedAtom::Same(_, _) | NumberedAtom::Bound(_) => None,
    }
}

/// The literal that says the same of what a negation negates, where its atom is the truth of one.
fn turned(terms: &TermStore, atoms: &AtomNumbers, literal: Literal) -> Literal
    requires within { literal.atom < length atoms.now.atoms }
    requires few { length atoms.now.atoms ≤ 2 ^ 31 }
    ensures within { result.atom < length atoms.now.atoms }
    ensures turned { IsTurned terms.now.trees atoms.now.atoms literal result }
{
    match negated(terms, atoms, literal.atom()) {
        Some(number) => Literal::new(number, !literal.is_positive()),
        None => literal,
    }
}

/// Puts a clause with each literal turned.
fn put_turned(
    terms: &TermStore,
    atoms: &AtomNumbers,
    clause: &[Literal],
    put: &mut Vec<Literal>,
) -> Result<(), AllocError>
    requires within { All (λ (l : Signed). l.atom < length atoms.now.atoms) clause.now }
    requires few { length atoms.now.atoms ≤ 2 ^ 31 }
    ensures within { OnOk result (All (λ (l : Signed). l.atom < length atoms.now.atoms) put.new.items) }
    ensures turned { OnOk result (AreTurned terms.now.trees atoms.now.atoms clause.now put.new.items) }
{
    put.clear();
    for literal in clause {
        put.push(turned(terms, atoms, *literal))?;
    }
    Ok(())
}

/// Whether one of these literals has this atom.
fn has_atom(literals: &[Literal], atom: u32) -> bool
    ensures { result ≡ false → All (λ (l : Signed). l.atom ≢ atom) literals.now }
{
    literals.iter().any(|literal| literal.atom() == atom)
}

/// Whether no atom stands twice.
fn has_each_once(literals: &[Literal]) -> bool
    ensures { result ≡ true → HasNoAtomTwice literals.now }
{
    let mut from = literals.len();
    while from > 0 {
        if has_atom(&literals[from..], literals[from - 1].atom()) {
            return false;
        }
        from -= 1;
    }
    true
}

/// Keeps a clause, of more than two literals with what negations negate, where no atom stands twice then.
fn keep_turned(
    stack: &Stack,
    atoms: &AtomNumbers,
    store: &mut Store,
    clause: &[Literal],
    put: &mut Vec<Literal>,
) -> Result<(), AllocError>
    requires declared { All (IsOf stack.now.trees stack.now.frames) atoms.now.atoms }
    requires begun { IsBegun (reading_of stack.now atoms.now.atoms) store.old }
    requires follows { IsClause (reading_of stack.now atoms.now.atoms) 0 clause.now }
    ensures begun { OnOk result (IsBegun (reading_of stack.now atoms.now.atoms) store.new) }
    ensures stay { (c : Kept) → Contains store.old.clauses c → Contains store.new.clauses c }
    ensures has { OnOk result (IsKeptTurned stack.now.trees atoms.now.atoms store.new.clauses clause.now) }
{
    atoms.are_few();
    flat_says_the_same();
    if clause.len() <= 2 || clause.len() > MOST_LITERALS {
        return keep(store, clause);
    }
    put_turned(stack.terms(), atoms, clause, put)?;
    if !has_each_once(put) {
        return keep(store, clause);
    }
    keep(store, put)
}

/// Keeps the clauses of a list so.
pub(crate) fn keep_all_turned(
    stack: &Stack,
    atoms: &AtomNumbers,
    store: &mut Store,
    clauses: &Clauses,
    put: &mut Vec<Literal>,
) -> Result<(), AllocError>
    requires declared { All (IsOf stack.now.trees stack.now.frames) atoms.now.atoms }
    requires begun { IsBegun (reading_of stack.now atoms.now.atoms) store.old }
    requires follow { All (IsClause (reading_of stack.now atoms.now.atoms) 0) clauses.now }
    ensures begun { OnOk result (IsBegun (reading_of stack.now atoms.now.atoms) store.new) }
    ensures stay { (c : Kept) → Contains store.old.clauses c → Contains store.new.clauses c }
    ensures has { OnOk result (All (IsKeptTurned stack.now.trees atoms.now.atoms store.new.clauses) clauses.now) }
{
    for i in 0..clauses.len() {
        keep_turned(stack, atoms, store, clauses.clause(i), put)?;
    }
    Ok(())
}
