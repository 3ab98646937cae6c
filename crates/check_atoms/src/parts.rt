//! Which terms of a stack are parts of its assertions.
ghost use Rattle.std.specs.Prelude.{◌≡◌, ℕ, ◌+◌, ◌<◌, length, map, All, IfOk};
ghost use Rattle.scope_stack.specs.Shown.{AreAsserted};
ghost use Rattle.check_atoms.specs.Parts.{IsMarked};
ghost use Rattle.check_atoms.specs.Marks.{MarksAlso, AreMarkedFrom, AreMarked};

use scope_stack::{Assertion, Stack};
use smt_meaning::TermId;
use std::alloc::{AllocError, Global};

/// Marks the terms at these places.
fn mark_all(marks: &mut Vec<bool>, places: &[TermId])
    requires { All (λ p. p < length marks.old.items) places.now }
    ensures { MarksAlso marks.old.items places.now marks.new.items }
{
    for place in places {
        marks[*place as usize] = true;
    }
}

/// Marks the terms of the assertions.
fn mark_assertions(marks: &mut Vec<bool>, assertions: &[Assertion])
    requires { All (λ (a : _). a.term < length marks.old.items) assertions.now }
    ensures { MarksAlso marks.old.items (map (λ (a : _). a.term) assertions.now) marks.new.items }
{
    for assertion in assertions {
        marks[assertion.term as usize] = true;
    }
}

/// Marks the arguments of a term that is marked.
fn mark_arguments(marks: &mut Vec<bool>, stack: &Stack, id: TermId)
    requires within { id < length stack.now.trees }
    requires parts { AreMarkedFrom stack.now (id + 1) marks.old.items }
    ensures parts { AreMarkedFrom stack.now id marks.new.items }
    ensures stay { (p : ℕ) → IsMarked marks.old.items p → IsMarked marks.new.items p }
{
    stack.laws();
    if marks[id as usize] {
        mark_all(marks, stack.terms().node(id).arguments);
    }
}

/// Marks, by their places, the terms that are parts of the assertions.
pub(crate) fn marks(
    alloc: Global,
    stack: &Stack,
    assertions: &[Assertion],
) -> Result<Vec<bool>, AllocError>
    requires { AreAsserted stack.now assertions.now }
    ensures { IfOk result (λ marks. AreMarked stack.now assertions.now 0 marks.items) }
{
    let mut marks = Vec::new(alloc);
    marks.resize(stack.terms().len() as usize, false)?;
    mark_assertions(&mut marks, assertions);
    let mut id = stack.terms().len();
    while id > 0 {
        id -= 1;
        mark_arguments(&mut marks, stack, id);
    }
    Ok(marks)
}
