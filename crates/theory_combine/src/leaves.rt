//! Int leaves of the assertions.
ghost use Rattle.std.specs.Prelude.{◌≡◌, true, false, slice_index_or};
ghost use Rattle.smt_meaning.specs.declared.values.Sort.TheVariants.{Bool as Truths, Int as Ints};
ghost use Rattle.smt_meaning.specs.CheckAtoms.{is_leaf_head};
ghost use Rattle.smt_meaning.specs.Stack.{signature_of};
ghost use Rattle.model_eval.specs.Walk.{is_marked};
ghost use Rattle.model_build.specs.Parts.{AreSortedParts};
ghost use Rattle.theory_combine.specs.Shown.{IsMarkedLeaf};

use scope_stack::Stack;
use smt_meaning::{Head, Operator, Sort, TermId};

pub(crate) fn is_marked_place(marks: &[bool], place: u32) -> bool
    ensures { result ≡ is_marked marks.now place }
{
    (place as usize) < marks.len() && marks[place as usize]
}

/// Whether a listed sort is Int.
pub(crate) fn is_int(sorts: &[Sort], place: TermId) -> bool
    ensures yes { result ≡ true → slice_index_or sorts.now place Truths ≡ Ints }
    ensures no { result ≡ false → slice_index_or sorts.now place Truths ≡ Ints → ⊥ }
{
    if place as usize >= sorts.len() {
        return false;
    }
    sorts[place as usize] == Sort::Int
}

/// Whether a term with this head is no numeral, sum, difference or product.
pub(crate) fn is_leaf_head(head: Head) -> bool
    ensures { result ≡ is_leaf_head head }
{
    match head {
        Head::Numeral(_) => false,
        Head::Theory(operator) => !matches!(
            operator,
            Operator::Add | Operator::Subtract | Operator::Multiply
        ),
        Head::Symbol(_) => true,
        Head::Place(_) => true,
    }
}

/// Whether a term is a leaf of the marked Ints of a stack.
pub(crate) fn is_marked_leaf(stack: &Stack, marks: &[bool], place: TermId) -> bool
    requires { AreSortedParts (signature_of stack.now.frames) stack.now.trees marks.now }
    ensures yes { result ≡ true → IsMarkedLeaf stack.now marks.now place }
    ensures no { result ≡ false → IsMarkedLeaf stack.now marks.now place → ⊥ }
{
    let sorts = stack.sorts();
    if !is_marked_place(marks, place) {
        return false;
    }
    if !is_int(sorts, place) {
        return false;
    }
    is_leaf_head(stack.terms().node(place).head)
}
