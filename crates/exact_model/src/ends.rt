//! What becomes of tables under which terms have exact values: all numbers are in the range, or one leaves it.
ghost use Rattle.std.specs.Prelude.{◌≡◌, List, length, Contains, IfOk};
ghost use Rattle.smt_meaning.specs.declared.clauses.Atom.{Atom};
ghost use Rattle.smt_meaning.specs.Interpretation.{AreTablesFor};
ghost use Rattle.smt_meaning.specs.Stack.{signature_of};
ghost use Rattle.smt_meaning.specs.Ranges.{LeavesInModel};
ghost use Rattle.smt_laws.specs.Flat.{flat};
ghost use Rattle.bound_log.specs.Told.{column_sums};
ghost use Rattle.bound_log.specs.Atoms.{Knows};
ghost use Rattle.bound_log.specs.Pending.{plain_grid};
ghost use Rattle.exact_model.specs.Fitting.{AreFitting};
ghost use Rattle.exact_model.specs.Leaves.{HaveLeafValues};
ghost use Rattle.exact_model.specs.Ends.{GiveExactValues, IsEnd};

use crate::evaluated;
use bound_log::BoundLog;
use check_atoms::truths_are_of_bools;
use fraction128::Grid;
use model_eval::EvalError;
use scope_stack::Stack;
use smt_laws::flat_says_the_same;
use smt_meaning::{Interp, TermId, Value};
use std::alloc::{AllocError, Global};

/// A part under tables that make each assertion true, a number of whose value leaves the range, and a grid that gives the leaves their values.
#[derive(Drop)]
pub struct InModel {
    pub tables: Interp,
    pub place: TermId,
    pub grid: Grid,
}

/// What becomes of tables.
#[derive(Drop)]
pub enum Exactly {
    /// A number leaves the range.
    Past(InModel),
    /// All numbers are in the range.
    Within(Interp),
}

/// Whether all numbers of the marked terms are in the range under tables that give them exact values; else a part of which one leaves it, with the values of the leaves. An
/// `Err` is for want of memory.
pub fn end_exactly(
    alloc: Global,
    stack: &Stack,
    marks: &[bool],
    bounds: &BoundLog,
    values: &[Value],
    tables: Interp,
) -> Result<Exactly, AllocError>
    requires size { length marks.now ≡ length stack.now.trees }
    requires fitting { AreFitting stack.now marks.now values.now }
    requires have { HaveLeafValues stack.now marks.now (plain_grid bounds.now) (length stack.now.trees) values.now }
    requires tables { AreTablesFor (signature_of stack.now.frames) tables }
    requires exact { GiveExactValues stack.now.trees marks.now values.now tables }
    ensures { IfOk result (IsEnd stack.now marks.now bounds.now values.now) }
{
    flat_says_the_same();
    truths_are_of_bools();
    stack.laws();
    match evaluated(alloc, stack.terms(), marks, &tables) {
        Ok(_) => Ok(Exactly::Within(tables)),
        Err(EvalError::Range(place)) => {
            let grid = bounds.grid(alloc)?;
            Ok(Exactly::Past(InModel {
                tables,
                place,
                grid,
            }))
        }
        Err(EvalError::Memory) => Err(AllocError),
    }
}
