//! One chord.
ghost use Rattle.std.specs.Prelude.{◌≡◌, true};
ghost use Rattle.smt_laws.specs.SortLaws.{SymbolsAreDeclared};
ghost use Rattle.check_atoms.specs.Marks.{AreMarkedFrom};
ghost use Rattle.check_atoms.specs.OfStack.{AreCheckAtoms};
ghost use Rattle.check_atoms.specs.Chords.{HaveDeclaredSort, MayCompare};

use atom_form::{AtomNumbers, CompactAtom};
use scope_stack::Stack;
use smt_laws::symbols_are_declared;
use smt_meaning::{Sort, TermId};
use std::alloc::AllocError;

/// Whether a sort is a declared one.
pub(crate) fn is_declared(sort: Sort) -> bool {
    match sort {
        Sort::Free(_) => true,
        Sort::Bool | Sort::Int => false,
    }
}

/// Whether both sorts are one declared sort.
fn are_one(left: Sort, right: Sort) -> bool
    ensures { result ≡ true → HaveDeclaredSort left right }
{
    match left {
        Sort::Free(one) => match right {
            Sort::Free(other) => one == other,
            Sort::Bool | Sort::Int => false,
        },
        Sort::Bool | Sort::Int => false,
    }
}

/// Whether two terms are parts of one declared sort.
fn may_compare(sorts: &[Sort], marks: &[bool], left: TermId, right: TermId) -> bool
    ensures { result ≡ true → MayCompare sorts.now marks.now left right }
{
    let l = left as usize;
    let r = right as usize;
    if l >= marks.len() || r >= marks.len() || l >= sorts.len() || r >= sorts.len() {
        return false;
    }
    if !marks[l] || !marks[r] {
        return false;
    }
    are_one(sorts[l], sorts[r])
}

/// The number of the equality of two parts, if they may be compared. An `Err`, for want of memory, changes nothing.
pub(crate) fn number_chord(
    stack: &Stack,
    marks: &[bool],
    atoms: &mut AtomNumbers,
    left: TermId,
    right: TermId,
) -> Result<Option<u32>, AllocError>
    requires parts { AreMarkedFrom stack.now 0 marks.now }
    requires atoms { AreCheckAtoms stack.now marks.now atoms.old.atoms }
    ensures { AreCheckAtoms stack.now marks.now atoms.new.atoms }
{
    stack.laws();
    symbols_are_declared();
    if !may_compare(stack.sorts(), marks, left, right) {
        return Ok(None);
    }
    let number = atoms.number(CompactAtom::Same(left, right))?;
    atoms.are_apart();
    atoms.are_few();
    Ok(Some(number))
}
