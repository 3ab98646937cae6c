//! The clauses of triangles of equalities.
ghost use Rattle.std.specs.Prelude.{◌≡◌, ℕ, ◌<◌, true, length, All, Contains, OnOk, IfSome};
ghost use Rattle.clause_store.specs.Stored.{Kept};
ghost use Rattle.smt_meaning.specs.declared.values.Value.{Value};
ghost use Rattle.search_port.specs.Valid.{IsOf};
ghost use Rattle.first_clauses.specs.PartClausesFirst.{IsBegun};
ghost use Rattle.first_clauses.specs.CheckClausesFirst.{reading_of};
ghost use Rattle.first_clauses.specs.Triangles.{IsEquality, Joins};

use crate::diamonds::keep_diamonds;
use crate::keep;
use atom_form::{AtomNumbers, NumberedAtom};
use check_atoms::Triangle;
use clause_store::store::Store;
use literals::Literal;
use scope_stack::Stack;
use smt_laws::flat_says_the_same;
use smt_meaning::{Head, Operator, TermId};
use std::alloc::AllocError;

/// The two terms of an equality.
#[derive(Clone, Copy, Drop)]
pub(crate) struct Ends {
    pub(crate) left: TermId,
    pub(crate) right: TermId,
}

/// The two terms that an atom says are the same, if it is an equality of two.
pub(crate) fn compared(stack: &Stack, atoms: &AtomNumbers, number: u32) -> Option<Ends>
    requires { number < length atoms.now.atoms }
    ensures { IfSome result (λ e. IsEquality stack.now.trees atoms.now.atoms number e.left e.right) }
{
    match atoms.atom(number) {
        NumberedAtom::Bound(_) => None,
        NumberedAtom::Same(left, right) => Some(Ends { left, right }),
        NumberedAtom::Truth(place) => {
            if place >= stack.terms().len() {
                return None;
            }
            let node = stack.terms().node(place);
            if node.head != Head::Theory(Operator::Equal) || node.arguments.len() != 2 {
                return None;
            }
            Some(Ends {
                left: node.arguments[0],
                right: node.arguments[1],
            })
        }
    }
}

/// Whether the ends are these two terms.
fn is_pair(left: TermId, right: TermId, ends: Ends) -> bool
    ensures { result ≡ true → (v : ℕ → Value) → v left ≡ v right → v ends.left ≡ v ends.right }
{
    if left == ends.left && right == ends.right {
        return true;
    }
    left == ends.right && right == ends.left
}

/// Whether from the second term on, an equality leads to one with the first.
fn leads(first: TermId, second: TermId, next: Ends, last: Ends) -> bool
    ensures { result ≡ true → (v : ℕ → Value) → v first ≡ v second → v next.left ≡ v next.right → v last.left ≡ v last.right }
{
    if second == next.left {
        if is_pair(first, next.right, last) {
            return true;
        }
    }
    if second != next.right {
        return false;
    }
    is_pair(first, next.left, last)
}

/// Whether two equalities give a third.
pub(crate) fn joins(first: Ends, second: Ends, third: Ends) -> bool
    ensures { result ≡ true → Joins first.left first.right second.left second.right third.left third.right }
{
    if leads(first.left, first.right, second, third) {
        return true;
    }
    leads(first.right, first.left, second, third)
}

/// Keeps that two equalities give a third, where they do.
fn keep_implied(
    stack: &Stack,
    atoms: &AtomNumbers,
    store: &mut Store,
    first: u32,
    second: u32,
    third: u32,
) -> Result<(), AllocError>
    requires declared { All (IsOf stack.now.trees stack.now.frames) atoms.now.atoms }
    requires begun { IsBegun (reading_of stack.now atoms.now.atoms) store.old }
    ensures begun { OnOk result (IsBegun (reading_of stack.now atoms.now.atoms) store.new) }
{
    flat_says_the_same();
    let count = atoms.len();
    if first as usize >= count || second as usize >= count || third as usize >= count {
        return Ok(());
    }
    if first == third || second == third {
        return Ok(());
    }
    let Some(one) = compared(stack, atoms, first) else {
        return Ok(());
    };
    let Some(other) = compared(stack, atoms, second) else {
        return Ok(());
    };
    let Some(last) = compared(stack, atoms, third) else {
        return Ok(());
    };
    if !joins(one, other, last) {
        return Ok(());
    }
    keep(
        store,
        &[
            Literal::new(first, false),
            Literal::new(second, false),
            Literal::new(third, true),
        ],
    )
}

/// Keeps of each triangle that two of its equalities give the third, and, where there is one, of each diamond what it says.
pub(crate) fn keep_triangles(
    stack: &Stack,
    atoms: &AtomNumbers,
    triangles: &[Triangle],
    store: &mut Store,
) -> Result<(), AllocError>
    requires declared { All (IsOf stack.now.trees stack.now.frames) atoms.now.atoms }
    requires begun { IsBegun (reading_of stack.now atoms.now.atoms) store.old }
    ensures begun { OnOk result (IsBegun (reading_of stack.now atoms.now.atoms) store.new) }
{
    for triangle in triangles {
        let Triangle {
            first,
            second,
            third,
        } = *triangle;
        keep_implied(stack, atoms, store, first, second, third)?;
        keep_implied(stack, atoms, store, second, third, first)?;
        keep_implied(stack, atoms, store, third, first, second)?;
    }
    if triangles.is_empty() {
        return Ok(());
    }
    keep_diamonds(stack, atoms, store)
}
