//! The value of a term under a finite interpretation (SMT-LIB 2.6, section 5.3), where no number on
//! the way leaves the range.
//!
//! `values`, `value`: the values of a list of terms, in one pass over their parts, exactly where
//! all fit; else `Range` with the first part of one of them, in numbering, whose own value or
//! partial result leaves the range; the same of one term.
//!
//! `values_counted`, `value_counted`: the same, with a count of steps, one for each node evaluated:
//! where values come, exactly as many as there are different parts.
#![tactic(auto)]

ghost use Rattle.std.specs.Prelude.{ℕ, ◌≡◌, ◌+◌, ◌<◌, ◌≤◌, length, map, All, OnOk, IfOk, IfErr, IsTrue};
ghost use Rattle.smt_meaning.specs.Term.{tree_at, value, fits};
ghost use Rattle.smt_meaning.specs.Interpretation.{meaning};
ghost use Rattle.model_eval.specs.Unfit.{IsCause, IsCauseOfAny};
ghost use Rattle.model_eval.specs.Parts.{IsAStepAPart, IsAStepAPartOfAny};
ghost use Rattle.model_eval.specs.Walk.{IsKept};

mod evaluate;
mod marks;
mod operators;
mod rows;
mod tables;

use evaluate::{Found, add, gather, nothing};
use marks::parts_of;
use smt_meaning::{Interp, Seq, TermId, Value};
use std::alloc::{AllocError, AllocFailed, Global};
use std::marker::Brand;
use std::sync::ledger::{Blank, Ledger};
use tables::Tables;
use term_store::{Steps, TermStore};

/// Why a term isn't evaluated.
#[derive(Clone, Copy, PartialEq, Eq, Debug, Drop)]
pub enum EvalError {
    /// A value or a partial result is outside `-(2^127 - 1) .. 2^127 - 1`. The term is the first in numbering, of the term's parts, for which it is.
    Range(TermId),
    /// Memory is wanting.
    Memory,
}

impl From<AllocError> for EvalError {
    ghost use Rattle.std.specs.Prelude.{◌≡◌};
    ghost use Rattle.model_eval.specs.declared.EvalError.TheVariants.{Memory};

    ghost from_gives = { λ _ e. e ≡ Memory };

    fn from(_: AllocError) -> EvalError {
        EvalError::Memory
    }
}

impl<T: Drop> From<AllocFailed<T>> for EvalError {
    ghost use Rattle.std.specs.Prelude.{◌≡◌};
    ghost use Rattle.model_eval.specs.declared.EvalError.TheVariants.{Memory};

    ghost from_gives = { λ _ e. e ≡ Memory };

    fn from(_: AllocFailed<T>) -> EvalError {
        EvalError::Memory
    }
}

/// Evaluates the terms and their parts, each once.
fn evaluated<L: Ledger>(
    alloc: Global,
    interp: &Interp,
    store: &TermStore,
    terms: &[TermId],
    steps: &mut Steps<L>,
) -> Result<Found, EvalError>
    requires { All (λ t. t < length store.now.trees) terms.now }
    ensures places { IfOk result (λ found. All (λ t. t < length found.slots.items) terms.now) }
    ensures kept { IfOk result (λ found. All (IsKept (meaning interp.now) store.now.trees found.slots.items found.values.items) terms.now) }
    ensures cause { IfErr result (IsCauseOfAny (meaning interp.now) store.now.trees terms.now) }
    ensures rise { steps.old ≤ steps.new }
    ensures few { (n : ℕ) → All (λ t. t < n) terms.now → steps.new ≤ steps.old + n }
    ensures counted { OnOk result (IsAStepAPartOfAny store.now.trees terms.now steps.old steps.new) }
{
    let known = store.len() as usize;
    let marks = parts_of(alloc, store, terms)?;
    let fits = marks.len() <= known;
    prove!(fits);
    let tables = Tables::new(alloc, interp)?;
    let mut found = nothing(alloc);
    for id in 0..marks.len() {
        add(&mut found, &tables, store, &marks, id as u32, steps)?;
    }
    Ok(found)
}

/// `values`, with a step for each node evaluated: never more than there are terms up to the greatest of them, and where values come one for each different part.
pub fn values_counted<L: Ledger>(
    alloc: Global,
    interp: &Interp,
    store: &TermStore,
    terms: &[TermId],
    steps: &mut Steps<L>,
) -> Result<Seq<Value>, EvalError>
    requires { All (λ t. t < length store.now.trees) terms.now }
    ensures fits { OnOk result (All (λ t. IsTrue (fits (meaning interp.now) (tree_at store.now.trees t))) terms.now) }
    ensures values { IfOk result (λ vs. vs ≡ map (λ t. value (meaning interp.now) (tree_at store.now.trees t)) terms.now) }
    ensures cause { IfErr result (IsCauseOfAny (meaning interp.now) store.now.trees terms.now) }
    ensures rise { steps.old ≤ steps.new }
    ensures few { (n : ℕ) → All (λ t. t < n) terms.now → steps.new ≤ steps.old + n }
    ensures counted { OnOk result (IsAStepAPartOfAny store.now.trees terms.now steps.old steps.new) }
{
    let found = evaluated(alloc, interp, store, terms, steps)?;
    let mut values = Vec::new(alloc);
    gather(&mut values, terms, &found.slots, &found.values)?;
    Ok(Seq::from_vec(values))
}

/// `value`, with a step for each node evaluated: at most one more than the term's number, and where a value comes one for each different part of the term.
pub fn value_counted<L: Ledger>(
    alloc: Global,
    interp: &Interp,
    store: &TermStore,
    term: TermId,
    steps: &mut Steps<L>,
) -> Result<Value, EvalError>
    requires { term < length store.now.trees }
    ensures fits { OnOk result (IsTrue (fits (meaning interp.now) (tree_at store.now.trees term))) }
    ensures value { IfOk result (λ v. v ≡ value (meaning interp.now) (tree_at store.now.trees term)) }
    ensures cause { IfErr result (IsCause (meaning interp.now) store.now.trees (tree_at store.now.trees term)) }
    ensures rise { steps.old ≤ steps.new }
    ensures few { steps.new ≤ steps.old + term + 1 }
    ensures counted { OnOk result (IsAStepAPart (tree_at store.now.trees term) steps.old steps.new) }
{
    let found = evaluated(alloc, interp, store, &[term], steps)?;
    let slot = found.slots[term as usize];
    Ok(found.values[slot as usize])
}

/// The values of terms, their steps counted from 0.
fn values_from<L: Ledger>(
    alloc: Global,
    interp: &Interp,
    store: &TermStore,
    terms: &[TermId],
    blank: Blank,
) -> Result<Seq<Value>, EvalError>
    requires name { blank.name ≡ L.name }
    requires parts { blank.parts ≡ L.parts }
    requires some { 0 < blank.parts }
    requires terms { All (λ t. t < length store.now.trees) terms.now }
    ensures fits { OnOk result (All (λ t. IsTrue (fits (meaning interp.now) (tree_at store.now.trees t))) terms.now) }
    ensures values { IfOk result (λ vs. vs ≡ map (λ t. value (meaning interp.now) (tree_at store.now.trees t)) terms.now) }
    ensures cause { IfErr result (IsCauseOfAny (meaning interp.now) store.now.trees terms.now) }
{
    values_counted(alloc, interp, store, terms, &mut Steps::<L>::new(blank))
}

/// The value of a term, its steps counted from 0.
fn value_from<L: Ledger>(
    alloc: Global,
    interp: &Interp,
    store: &TermStore,
    term: TermId,
    blank: Blank,
) -> Result<Value, EvalError>
    requires name { blank.name ≡ L.name }
    requires parts { blank.parts ≡ L.parts }
    requires some { 0 < blank.parts }
    requires term { term < length store.now.trees }
    ensures fits { OnOk result (IsTrue (fits (meaning interp.now) (tree_at store.now.trees term))) }
    ensures value { IfOk result (λ v. v ≡ value (meaning interp.now) (tree_at store.now.trees term)) }
    ensures cause { IfErr result (IsCause (meaning interp.now) store.now.trees (tree_at store.now.trees term)) }
{
    value_counted(alloc, interp, store, term, &mut Steps::<L>::new(blank))
}

/// The values of terms under an interpretation, in one pass over their parts. `Range` comes exactly where the value of a part of one of them, or a partial sum,
/// difference or product from the left, is outside the range, in branches of `ite` that aren't taken too, and names the first such part in numbering.
pub fn values(
    alloc: Global,
    interp: &Interp,
    store: &TermStore,
    terms: &[TermId],
) -> Result<Seq<Value>, EvalError>
    requires { All (λ t. t < length store.now.trees) terms.now }
    ensures fits { OnOk result (All (λ t. IsTrue (fits (meaning interp.now) (tree_at store.now.trees t))) terms.now) }
    ensures values { IfOk result (λ vs. vs ≡ map (λ t. value (meaning interp.now) (tree_at store.now.trees t)) terms.now) }
    ensures cause { IfErr result (IsCauseOfAny (meaning interp.now) store.now.trees terms.now) }
{
    values_from::<Brand>(alloc, interp, store, terms, Blank::new(1))
}

/// The value of a term, as `values` gives those of many.
pub fn value(
    alloc: Global,
    interp: &Interp,
    store: &TermStore,
    term: TermId,
) -> Result<Value, EvalError>
    requires { term < length store.now.trees }
    ensures fits { OnOk result (IsTrue (fits (meaning interp.now) (tree_at store.now.trees term))) }
    ensures value { IfOk result (λ v. v ≡ value (meaning interp.now) (tree_at store.now.trees term)) }
    ensures cause { IfErr result (IsCause (meaning interp.now) store.now.trees (tree_at store.now.trees term)) }
{
    value_from::<Brand>(alloc, interp, store, term, Blank::new(1))
}
