//! The atoms of a stack.
ghost use Rattle.std.specs.Prelude.{◌≡◌, ℕ, ◌+◌, ◌<◌, length, OnOk, IfOk, IfErr};
ghost use Rattle.smt_meaning.specs.Stack.{signature_of};
ghost use Rattle.scope_stack.specs.Facts.{AreSorts};
ghost use Rattle.linear_forms.specs.Table.{AreForms};
ghost use Rattle.check_atoms.specs.Parts.{IsMarked};
ghost use Rattle.check_atoms.specs.Marks.{AreMarkedFrom, AreStackParts};
ghost use Rattle.check_atoms.specs.declared.part.PartAtom.{PartAtom as PartAtomValue};
ghost use Rattle.check_atoms.specs.OfStack.{AreCheckAtoms, AreAtomsBelow, IsRefused};

use crate::asserted::is_asserted_distinct;
use crate::divisor::{divisor_of, refusal_of_divisor};
use crate::graph::{Triangle, chords};
use crate::number::number_all;
use crate::part::{Compared, PartAtom, add_wanted};
use crate::parts::marks;
use crate::refusal::Refusal;
use atom_form::AtomNumbers;
use linear_forms::LinearForms;
use scope_stack::Stack;
use smt_laws::symbols_are_declared;
use smt_meaning::{Sort, Summand, TermId};
use std::alloc::Global;

/// The parts of a stack's assertions and their atoms.
#[derive(Drop)]
pub struct CheckAtoms {
    /// Which terms are parts of the assertions, by their places.
    pub marks: Vec<bool>,
    /// The atoms of the parts: the truth of each that is a Bool, and what compares the arguments of comparisons, of equalities and of choices, but for the pairs of a wide
    /// `distinct` that is an assertion; and the equalities of chords.
    pub atoms: AtomNumbers,
    /// Triangles of equalities, by the numbers of their atoms.
    pub triangles: Vec<Triangle>,
    /// The linear forms of the stack's terms.
    pub forms: LinearForms,
}

/// Lists that are used again for each part.
#[derive(Drop)]
struct Lists {
    wanted: Vec<PartAtom>,
    compared: Compared,
    sum: Vec<Summand>,
}

/// Numbers the atoms of a term, if it is a part.
fn number_part(
    stack: &Stack,
    marks: &[bool],
    forms: &mut LinearForms,
    atoms: &mut AtomNumbers,
    lists: &mut Lists,
    id: TermId,
) -> Result<(), Refusal>
    requires within { id < length stack.now.trees }
    requires parts { AreMarkedFrom stack.now 0 marks.now }
    requires forms { AreForms stack.now.trees forms.old }
    requires atoms { AreAtomsBelow stack.now marks.now id atoms.old.atoms }
    ensures ok { OnOk result (AreAtomsBelow stack.now marks.now (id + 1) atoms.new.atoms) }
    ensures err { IfErr result (IsRefused stack.now) }
    ensures same { forms.new ≡ forms.old }
{
    stack.laws();
    if !marks[id as usize] {
        return Ok(());
    }
    let node = stack.terms().node(id);
    let divisor = match divisor_of(forms, node.head, node.arguments) {
        Ok(divisor) => divisor,
        Err(error) => return Err(refusal_of_divisor(error, id)),
    };
    let sorts = stack.sorts();
    let truth_alone = is_asserted_distinct(stack, sorts, id, node.head, node.arguments);
    lists.wanted.clear();
    add_wanted(
        &mut lists.wanted,
        &mut lists.compared,
        sorts,
        truth_alone,
        divisor,
        id,
        node.head,
        node.arguments,
    )?;
    number_all(forms, atoms, &mut lists.sum, id, &lists.wanted)
}

/// Numbers the atoms of all parts.
fn number_parts(
    stack: &Stack,
    marks: &[bool],
    forms: &mut LinearForms,
    atoms: &mut AtomNumbers,
    lists: &mut Lists,
) -> Result<(), Refusal>
    requires parts { AreMarkedFrom stack.now 0 marks.now }
    requires forms { AreForms stack.now.trees forms.old }
    requires atoms { AreAtomsBelow stack.now marks.now 0 atoms.old.atoms }
    ensures ok { OnOk result (AreAtomsBelow stack.now marks.now (length stack.now.trees) atoms.new.atoms) }
    ensures err { IfErr result (IsRefused stack.now) }
    ensures same { forms.new ≡ forms.old }
{
    for id in 0..stack.terms().len() {
        number_part(stack, marks, forms, atoms, lists, id)?;
    }
    Ok(())
}

/// Marks the parts of the assertions, folds the stack's terms, and numbers the atoms of the parts and the chords of their equalities. An `Err` says which folding leaves
/// the range, or that memory is wanting.
pub fn numbered(alloc: Global, stack: &Stack) -> Result<CheckAtoms, Refusal>
    ensures parts { IfOk result (λ atoms. AreStackParts stack.now atoms.marks.items) }
    ensures atoms { IfOk result (λ atoms. AreCheckAtoms stack.now atoms.marks.items atoms.atoms.atoms) }
    ensures forms { IfOk result (λ atoms. AreForms stack.now.trees atoms.forms) }
    ensures err { IfErr result (IsRefused stack.now) }
{
    stack.laws();
    symbols_are_declared();
    let marks = marks(alloc, stack, stack.assertions())?;
    let mut forms = LinearForms::new(alloc);
    forms.cover(stack.terms())?;
    let mut atoms = AtomNumbers::new(alloc);
    let mut lists = Lists {
        wanted: Vec::new(alloc),
        compared: Compared::new(alloc),
        sum: Vec::new(alloc),
    };
    number_parts(stack, &marks, &mut forms, &mut atoms, &mut lists)?;
    atoms.are_few();
    atoms.are_apart();
    let triangles = chords(alloc, stack, &marks, &mut atoms)?;
    Ok(CheckAtoms {
        marks,
        atoms,
        triangles,
        forms,
    })
}
