//! Comparing and copying clauses.
//!
//! A clause is compared with its literals in their order.
ghost use Rattle.std.specs.Prelude.{◌≡◌, ◌≢◌, MatchBool, IfOk, Contains};
ghost use Rattle.race_model.specs.Race.{clauses_of};

use crate::event::Entry;
use smt_meaning::{Atom, Clause, Literal, Seq, Summand};
use std::alloc::{AllocError, Global};

/// What is compared part by part.
trait Same {
    fn is_same(&self, other: &Self) -> bool
        ensures { MatchBool result (self.now ≡ other.now) (self.now ≢ other.now) };
}

fn are_same<T: Same>(one: &[T], other: &[T]) -> bool
    ensures { MatchBool result (one.now ≡ other.now) (one.now ≢ other.now) }
{
    if one.len() != other.len() {
        return false;
    }
    let mut i = 0;
    while i < one.len() {
        if !one[i].is_same(&other[i]) {
            return false;
        }
        i += 1;
    }
    true
}

impl Same for Summand {
    fn is_same(&self, other: &Summand) -> bool {
        self.coefficient == other.coefficient && self.term == other.term
    }
}

impl Same for Atom {
    fn is_same(&self, other: &Atom) -> bool {
        match self {
            Atom::Truth(s) => match other {
                Atom::Truth(t) => *s == *t,
                _ => false,
            },
            Atom::AtMost(sum, bound) => match other {
                Atom::AtMost(sum_2, bound_2) => {
                    *bound == *bound_2 && are_same(sum.as_slice(), sum_2.as_slice())
                }
                _ => false,
            },
            Atom::Same(s, t) => match other {
                Atom::Same(s_2, t_2) => *s == *s_2 && *t == *t_2,
                _ => false,
            },
        }
    }
}

impl Same for Literal {
    fn is_same(&self, other: &Literal) -> bool {
        self.positive == other.positive && self.atom.is_same(&other.atom)
    }
}

/// Whether two clauses have the same literals in the same order and the same level.
pub fn is_same_clause(one: &Clause, other: &Clause) -> bool
    ensures { MatchBool result (one.now ≡ other.now) (one.now ≢ other.now) }
{
    one.level == other.level && are_same(one.literals.as_slice(), other.literals.as_slice())
}

/// Whether the clause is one of these.
pub fn has_clause(clauses: &[Clause], clause: &Clause) -> bool
    ensures { MatchBool result (Contains clauses.now clause.now) (Contains clauses.now clause.now → ⊥) }
{
    let mut i = 0;
    while i < clauses.len() {
        if is_same_clause(&clauses[i], clause) {
            return true;
        }
        i += 1;
    }
    false
}

fn copy_atom(alloc: Global, atom: &Atom) -> Result<Atom, AllocError>
    ensures { IfOk result (λ a. a ≡ atom.now) }
{
    match atom {
        Atom::Truth(term) => Ok(Atom::Truth(*term)),
        Atom::AtMost(sum, bound) => {
            let sum = Vec::from_slice(alloc, sum.as_slice())?;
            Ok(Atom::AtMost(Seq::from_vec(sum), *bound))
        }
        Atom::Same(one, other) => Ok(Atom::Same(*one, *other)),
    }
}

fn copy_literals(alloc: Global, literals: &[Literal]) -> Result<Vec<Literal>, AllocError>
    ensures { IfOk result (λ v. v.items ≡ literals.now) }
{
    let mut copies = Vec::new(alloc);
    for literal in literals {
        let atom = copy_atom(alloc, &literal.atom)?;
        copies.push(Literal {
            atom,
            positive: literal.positive,
        })?;
    }
    Ok(copies)
}

/// A clause of its own with the same literals and level.
pub fn copy_clause(alloc: Global, clause: &Clause) -> Result<Clause, AllocError>
    ensures { IfOk result (λ c. c ≡ clause.now) }
{
    let literals = copy_literals(alloc, clause.literals.as_slice())?;
    Ok(Clause {
        literals: Seq::from_vec(literals),
        level: clause.level,
    })
}

/// Copies of the clauses of entries, in order.
pub(crate) fn copy_clauses(alloc: Global, entries: &[Entry]) -> Result<Vec<Clause>, AllocError>
    ensures { IfOk result (λ v. v.items ≡ clauses_of entries.now) }
{
    let mut copies = Vec::new(alloc);
    for entry in entries {
        let clause = copy_clause(alloc, &entry.clause)?;
        copies.push(clause)?;
    }
    Ok(copies)
}
