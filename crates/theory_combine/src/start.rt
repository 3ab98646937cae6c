//! What a search begins with, before anything is told.
ghost use Rattle.std.specs.Prelude.{◌≡◌, ◌<◌, ◌+◌, ◌^◌, [], length, All, IfOk, IfErr, OnOk};
ghost use Rattle.fraction128.specs.Lines.{HasBasis, first_basis};
ghost use Rattle.search_port.specs.State.{atom_at};
ghost use Rattle.check_atoms.specs.Marks.{AreStackParts};
ghost use Rattle.check_atoms.specs.Numbering.{IsNormal};
ghost use Rattle.check_atoms.specs.OfStack.{AreCheckAtoms};
ghost use Rattle.sum_bounds.specs.Written.{HasLeaf};
ghost use Rattle.bound_log.specs.Told.{column_sums};
ghost use Rattle.bound_log.specs.Atoms.{Knows, KnowsOneMore};
ghost use Rattle.bound_log.specs.Columns.{AddsColumns, HasColumnsOf};
ghost use Rattle.bound_log.specs.Growth.{GrowsVariables};
ghost use Rattle.bound_log.specs.Pending.{plain_grid};
ghost use Rattle.theory_combine.specs.Begin.{AddsLeaves, AreMarkedParts, IsBegun};
ghost use Rattle.theory_combine.specs.Columns.{HasKnownColumns, HaveVariables};
ghost use Rattle.theory_combine.specs.Errors.{IsErrorAt, IsErrorIn, IsErrorSeen};
ghost use Rattle.theory_combine.specs.Held.{IsHeld};
ghost use Rattle.theory_combine.specs.Shown.{IsMarkedLeaf};

use crate::differences::Differences;
use crate::errors::{BoundError, know_bound, know_other};
use crate::held::{Held, Looked};
use crate::leaves::is_marked_leaf;
use atom_form::{AtomNumbers, NumberedAtom};
use bound_log::{BoundLog, sums_are_apart};
use check_atoms::{atoms_are_first, lawful_parts_are_readable, truths_are_of_bools};
use closure_log::{ClosureLog, Guide, Scan, Watches};
use scope_stack::Stack;
use smt_laws::{flat_says_the_same, symbols_are_declared};
use std::alloc::{AllocError, Global};

/// What a search begins with.
#[derive(Drop)]
pub(crate) struct Begun {
    pub guide: Guide,
    pub held: Held,
}

/// Makes the atom of the next number known to bounds.
fn learn(
    alloc: Global,
    stack: &Stack,
    atoms: &AtomNumbers,
    bounds: &mut BoundLog,
    number: u32,
) -> Result<(), BoundError>
    requires numbered { number < length atoms.now.atoms }
    requires normal { All (IsNormal (length stack.now.trees)) atoms.now.atoms }
    ensures knows { OnOk result (KnowsOneMore bounds.old (atom_at atoms.now.atoms number) bounds.new) }
    ensures columns { AddsColumns bounds.old (atom_at atoms.now.atoms number) bounds.new }
    ensures variables { GrowsVariables bounds.old bounds.new }
    ensures log { bounds.new.log ≡ bounds.old.log }
    ensures err { IfErr result (IsErrorAt bounds.old bounds.new (atom_at atoms.now.atoms number)) }
{
    let _known = stack.terms();
    match atoms.atom(number) {
        NumberedAtom::Truth(_) | NumberedAtom::Same(_, _) => know_other(bounds),
        NumberedAtom::Bound(bound) => {
            know_bound(alloc, bounds, atoms.sum(bound.sum), bound.threshold)
        }
    }
}

/// Bounds that know all atoms, and no literal. An `Err` is for want of memory, or where a row leaves the range.
fn bounds_of(alloc: Global, stack: &Stack, atoms: &AtomNumbers) -> Result<BoundLog, BoundError>
    requires normal { All (IsNormal (length stack.now.trees)) atoms.now.atoms }
    ensures knows { IfOk result (λ b. Knows atoms.now.atoms b) }
    ensures columns { IfOk result (λ b. HasColumnsOf atoms.now.atoms b) }
    ensures log { IfOk result (λ b. b.log ≡ []) }
    ensures basis { IfOk result (λ b. HasBasis (first_basis (column_sums b)) (plain_grid b)) }
    ensures err { IfErr result (IsErrorIn atoms.now.atoms) }
{
    sums_are_apart();
    let mut bounds = BoundLog::new(alloc);
    for number in 0..atoms.len() {
        let learnt = learn(alloc, stack, atoms, &mut bounds, number as u32);
        bounds.facts();
        learnt?;
    }
    Ok(bounds)
}

/// Gives a term a variable, if it is an Int leaf of the assertions. An `Err` is for want of memory.
fn add_if_leaf(
    alloc: Global,
    stack: &Stack,
    marks: &[bool],
    bounds: &mut BoundLog,
    place: u32,
) -> Result<(), AllocError>
    requires { AreMarkedParts stack.now marks.now }
    ensures adds { AddsLeaves stack.now bounds.old bounds.new }
    ensures variable { OnOk result (IsMarkedLeaf stack.now marks.now place → HasLeaf bounds.new.bounds.columns place) }
{
    flat_says_the_same();
    if !is_marked_leaf(stack, marks, place) {
        return Ok(());
    }
    bounds.add_leaf(alloc, place)
}

/// Gives each Int leaf of the assertions a variable. An `Err` is for want of memory.
fn add_leaves(
    alloc: Global,
    stack: &Stack,
    marks: &[bool],
    bounds: &mut BoundLog,
) -> Result<(), AllocError>
    requires { AreMarkedParts stack.now marks.now }
    ensures adds { AddsLeaves stack.now bounds.old bounds.new }
    ensures variables { OnOk result (HaveVariables stack.now marks.now bounds.new) }
{
    for place in 0..stack.terms().len() {
        add_if_leaf(alloc, stack, marks, bounds, place)?;
    }
    Ok(())
}

/// What is held where nothing is told, of atoms that the bounds know. An `Err` is for want of memory.
fn hold_nothing(
    alloc: Global,
    stack: &Stack,
    atoms: &AtomNumbers,
    bounds: BoundLog,
) -> Result<Held, AllocError>
    requires few { length stack.now.trees + 2 < 2 ^ 32 }
    requires knows { Knows atoms.now.atoms bounds }
    requires columns { HasKnownColumns stack.now atoms.now.atoms bounds }
    requires log { bounds.log ≡ [] }
    ensures held { IfOk result (IsHeld stack.now atoms.now.atoms) }
    ensures log { IfOk result (λ h. h.closure.log.items ≡ []) }
    ensures bounds { IfOk result (λ h. h.bounds ≡ bounds) }
{
    let closure = ClosureLog::new(alloc, stack)?;
    let mut scan = Scan::new(alloc);
    scan.grow(atoms.len())?;
    Ok(Held {
        closure,
        bounds,
        scan,
        looked: Looked {
            next: 0,
            differences: Differences::new(alloc),
            watches: Watches::new(alloc),
        },
    })
}

/// Nothing is told of the parts of a stack and their atoms, which the bounds know. An `Err` is for want of memory; a stack of 2^32 - 3 terms or more leaves none.
fn begin_with(
    alloc: Global,
    stack: &Stack,
    marks: &[bool],
    atoms: &AtomNumbers,
    mut bounds: BoundLog,
) -> Result<Begun, AllocError>
    requires marks { AreStackParts stack.now marks.now }
    requires atoms { AreCheckAtoms stack.now marks.now atoms.now.atoms }
    requires knows { Knows atoms.now.atoms bounds }
    requires columns { HasKnownColumns stack.now atoms.now.atoms bounds }
    requires log { bounds.log ≡ [] }
    requires basis { HasBasis (first_basis (column_sums bounds)) (plain_grid bounds) }
    ensures { IfOk result (IsBegun stack.now marks.now atoms.now) }
{
    stack.laws();
    symbols_are_declared();
    flat_says_the_same();
    atoms_are_first();
    truths_are_of_bools();
    lawful_parts_are_readable();
    sums_are_apart();
    if stack.terms().len() >= u32::MAX - 2 {
        return Err(AllocError);
    }
    let _ = stack.sorts();
    let guide = Guide::new(alloc, stack)?;
    add_leaves(alloc, stack, marks, &mut bounds)?;
    bounds.facts();
    let held = hold_nothing(alloc, stack, atoms, bounds)?;
    Ok(Begun { guide, held })
}

/// Nothing is told of the parts of a stack and their atoms. An `Err` is for want of memory, of which a stack of 2^32 - 3 terms or more leaves none, or shows that a
/// row of an atom leaves the range.
pub(crate) fn begin(
    alloc: Global,
    stack: &Stack,
    marks: &[bool],
    atoms: &AtomNumbers,
) -> Result<Begun, BoundError>
    requires marks { AreStackParts stack.now marks.now }
    requires atoms { AreCheckAtoms stack.now marks.now atoms.now.atoms }
    ensures begun { IfOk result (IsBegun stack.now marks.now atoms.now) }
    ensures err { IfErr result (IsErrorSeen stack.now) }
{
    stack.laws();
    flat_says_the_same();
    atoms_are_first();
    let bounds = bounds_of(alloc, stack, atoms)?;
    let begun = begin_with(alloc, stack, marks, atoms, bounds)?;
    Ok(begun)
}
