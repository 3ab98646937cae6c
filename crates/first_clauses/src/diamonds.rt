//! Diamonds: of a disjunction of two conjunctions, in each of which two equalities lead from one term
//! to the same other one, that it says that these two are equal. A chain of such disjunctions needs
//! no decision then.
ghost use Rattle.std.specs.Prelude.{◌≡◌, ◌<◌, true, length, All, OnOk, IfSome};
ghost use Rattle.search_port.specs.Valid.{IsOf};
ghost use Rattle.first_clauses.specs.PartClausesFirst.{IsBegun};
ghost use Rattle.first_clauses.specs.CheckClausesFirst.{reading_of};
ghost use Rattle.first_clauses.specs.Triangles.{IsOfTwo, MakesSame, NumberMakesSame};

use crate::keep;
use crate::triangles::{Ends, compared, joins};
use atom_form::{AtomNumbers, CompactAtom, NumberedAtom};
use clause_store::store::Store;
use literals::Literal;
use scope_stack::Stack;
use smt_laws::flat_says_the_same;
use smt_meaning::{Head, Operator, TermId};
use std::alloc::AllocError;
use term_store::TermStore;

/// The two arguments of the term at a place, if it has this operator and two.
fn two_of(terms: &TermStore, operator: Operator, place: TermId) -> Option<Ends>
    ensures { IfSome result (λ e. IsOfTwo terms.now.trees operator place e.left e.right) }
{
    if place >= terms.len() {
        return None;
    }
    let node = terms.node(place);
    if node.head != Head::Theory(operator) || node.arguments.len() != 2 {
        return None;
    }
    Some(Ends {
        left: node.arguments[0],
        right: node.arguments[1],
    })
}

/// Whether the term at a place is a conjunction of two equalities that give this one.
fn conjunction_gives(terms: &TermStore, place: TermId, ends: Ends) -> bool
    ensures { result ≡ true → MakesSame terms.now.trees place ends.left ends.right }
{
    let Some(both) = two_of(terms, Operator::And, place) else {
        return false;
    };
    let Some(one) = two_of(terms, Operator::Equal, both.left) else {
        return false;
    };
    let Some(other) = two_of(terms, Operator::Equal, both.right) else {
        return false;
    };
    joins(one, other, ends)
}

/// Whether the term at a place is a disjunction of two such conjunctions.
fn disjunction_gives(terms: &TermStore, place: TermId, ends: Ends) -> bool
    ensures { result ≡ true → MakesSame terms.now.trees place ends.left ends.right }
{
    let Some(cases) = two_of(terms, Operator::Or, place) else {
        return false;
    };
    conjunction_gives(terms, cases.left, ends) && conjunction_gives(terms, cases.right, ends)
}

/// The ends of two equalities that have a term in common.
fn ends_of(one: Ends, other: Ends) -> Option<Ends> {
    let (left, right) = if one.right == other.left {
        (one.left, other.right)
    } else if one.right == other.right {
        (one.left, other.left)
    } else if one.left == other.left {
        (one.right, other.right)
    } else if one.left == other.right {
        (one.right, other.left)
    } else {
        return None;
    };
    Some(Ends { left, right })
}

/// The ends between which the first case of a disjunction leads.
fn ends_at(terms: &TermStore, place: TermId) -> Option<Ends> {
    let cases = two_of(terms, Operator::Or, place)?;
    let both = two_of(terms, Operator::And, cases.left)?;
    let one = two_of(terms, Operator::Equal, both.left)?;
    let other = two_of(terms, Operator::Equal, both.right)?;
    ends_of(one, other)
}

/// The number of the equality of two terms, if it has one by itself.
fn number_of(atoms: &AtomNumbers, ends: Ends) -> Option<u32> {
    match atoms.find(CompactAtom::Same(ends.left, ends.right)) {
        Some(number) => Some(number),
        None => atoms.find(CompactAtom::Same(ends.right, ends.left)),
    }
}

/// The number of the equality that the truth of a number's atom may say.
fn said_by(stack: &Stack, atoms: &AtomNumbers, number: u32) -> Option<u32>
    requires { number < length atoms.now.atoms }
{
    match atoms.atom(number) {
        NumberedAtom::Truth(place) => number_of(atoms, ends_at(stack.terms(), place)?),
        NumberedAtom::Same(_, _) | NumberedAtom::Bound(_) => None,
    }
}

/// Whether the truth of the atom of a number makes two terms equal.
fn makes_same(stack: &Stack, atoms: &AtomNumbers, number: u32, ends: Ends) -> bool
    requires { number < length atoms.now.atoms }
    ensures { result ≡ true → NumberMakesSame stack.now.trees atoms.now.atoms number ends.left ends.right }
{
    match atoms.atom(number) {
        NumberedAtom::Truth(place) => disjunction_gives(stack.terms(), place, ends),
        NumberedAtom::Same(_, _) | NumberedAtom::Bound(_) => false,
    }
}

/// Keeps that the atom of a number gives an equality, where it is a diamond.
fn keep_diamond(
    stack: &Stack,
    atoms: &AtomNumbers,
    store: &mut Store,
    number: u32,
    equality: u32,
) -> Result<(), AllocError>
    requires declared { All (IsOf stack.now.trees stack.now.frames) atoms.now.atoms }
    requires begun { IsBegun (reading_of stack.now atoms.now.atoms) store.old }
    ensures begun { OnOk result (IsBegun (reading_of stack.now atoms.now.atoms) store.new) }
{
    flat_says_the_same();
    let count = atoms.len();
    if number as usize >= count || equality as usize >= count || number == equality {
        return Ok(());
    }
    let Some(ends) = compared(stack, atoms, equality) else {
        return Ok(());
    };
    if !makes_same(stack, atoms, number, ends) {
        return Ok(());
    }
    keep(
        store,
        &[Literal::new(number, false), Literal::new(equality, true)],
    )
}

/// Keeps so of each atom.
pub(crate) fn keep_diamonds(
    stack: &Stack,
    atoms: &AtomNumbers,
    store: &mut Store,
) -> Result<(), AllocError>
    requires declared { All (IsOf stack.now.trees stack.now.frames) atoms.now.atoms }
    requires begun { IsBegun (reading_of stack.now atoms.now.atoms) store.old }
    ensures begun { OnOk result (IsBegun (reading_of stack.now atoms.now.atoms) store.new) }
{
    for number in 0..atoms.len() {
        if let Some(equality) = said_by(stack, atoms, number as u32) {
            keep_diamond(stack, atoms, store, number as u32, equality)?;
        }
    }
    Ok(())
}
