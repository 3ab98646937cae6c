//! Whether tables make the literals of a log true.
ghost use Rattle.std.specs.Prelude.{◌≡◌, ◌<◌, length, All, IfOk};
ghost use Rattle.literals.specs.Signed.{Signed};
ghost use Rattle.exact_model.specs.Atoms.{HasPlacesBelow, HasMarkedPlaces};
ghost use Rattle.exact_model.specs.Verdict.{IsVerdictBy, IsVerdict};

use crate::atoms::makes_true;
use crate::values::evaluated;
use atom_form::AtomNumbers;
use literals::Literal;
use model_eval::EvalError;
use smt_meaning::{Interp, TermId, Value};
use std::alloc::{AllocError, Global};
use term_store::TermStore;

/// What a log is under tables.
#[derive(Clone, Copy, PartialEq, Eq, Drop)]
pub enum Verdict {
    /// Each literal is true.
    AllTrue,
    /// The literal at this place of the log is false, and those before it are true.
    False(usize),
    /// A term takes part whose value, or a partial result, is outside the range: the first one.
    Range(TermId),
}

/// Judges a log by the values of terms.
fn judged(
    alloc: Global,
    values: &[Value],
    atoms: &AtomNumbers,
    log: &[Literal],
) -> Result<Verdict, AllocError>
    requires places { All (HasPlacesBelow (length values.now)) atoms.now.atoms }
    requires log { All (λ (l : Signed). l.atom < length atoms.now.atoms) log.now }
    ensures { IfOk result (IsVerdictBy values.now atoms.now.atoms log.now) }
{
    let mut pairs = Vec::new(alloc);
    for place in 0..log.len() {
        if !makes_true(values, atoms, log[place], &mut pairs)? {
            return Ok(Verdict::False(place));
        }
    }
    Ok(Verdict::AllTrue)
}

/// Whether tables make each literal of a log true, in one pass over the parts of the marked terms and one over the log. An `Err` is for want of memory.
pub fn tables_make_true(
    alloc: Global,
    store: &TermStore,
    marks: &[bool],
    atoms: &AtomNumbers,
    log: &[Literal],
    tables: &Interp,
) -> Result<Verdict, AllocError>
    requires marks { length marks.now ≡ length store.now.trees }
    requires atoms { All (HasMarkedPlaces marks.now) atoms.now.atoms }
    requires log { All (λ (l : Signed). l.atom < length atoms.now.atoms) log.now }
    ensures { IfOk result (IsVerdict store.now.trees marks.now atoms.now.atoms log.now tables.now) }
{
    match evaluated(alloc, store, marks, tables) {
        Ok(values) => judged(alloc, values.as_slice(), atoms, log),
        Err(EvalError::Range(term)) => Ok(Verdict::Range(term)),
        Err(EvalError::Memory) => Err(AllocError),
    }
}
