//! Whether a stack is without integers.
ghost use Rattle.std.specs.Prelude.{◌≡◌, ◌≢◌, ℕ, ◌<◌, length, true, false, IfOk, slice_index_or};
ghost use Rattle.smt_meaning.specs.declared.values.Sort.TheVariants.{Bool as Truths, Int as Ints};
ghost use Rattle.smt_meaning.specs.Kinds.{has_no_integers};
ghost use Rattle.check_atoms.specs.Parts.{IsMarked};

use crate::parts::marks;
use scope_stack::Stack;
use smt_meaning::Sort;
use std::alloc::{AllocError, Global};

/// Whether a term is marked and an Int.
fn is_integer(marks: &[bool], sorts: &[Sort], id: usize) -> bool
    requires size { length marks.now ≡ length sorts.now }
    requires within { id < length marks.now }
    ensures yes { result ≡ true → IsMarked marks.now id × (slice_index_or sorts.now id Truths ≡ Ints) }
    ensures no { result ≡ false → IsMarked marks.now id → slice_index_or sorts.now id Truths ≢ Ints }
{
    if !marks[id] {
        return false;
    }
    sorts[id] == Sort::Int
}

/// Whether no marked term is an Int.
fn are_no_integers(marks: &[bool], sorts: &[Sort]) -> bool
    requires { length marks.now ≡ length sorts.now }
    ensures yes { result ≡ true → (p : ℕ) → IsMarked marks.now p → slice_index_or sorts.now p Truths ≢ Ints }
    ensures no { result ≡ false → (p : ℕ) × IsMarked marks.now p × (slice_index_or sorts.now p Truths ≡ Ints) }
{
    for id in 0..marks.len() {
        if is_integer(marks, sorts, id) {
            return false;
        }
    }
    true
}

/// Whether no part of an assertion is an Int.
pub fn takes(alloc: Global, stack: &Stack) -> Result<bool, AllocError>
    ensures { IfOk result (λ taken. taken ≡ has_no_integers stack.now.frames) }
{
    stack.laws();
    let marks = marks(alloc, stack, stack.assertions())?;
    Ok(are_no_integers(&marks, stack.sorts()))
}
