//! The values of marked terms under tables, by place.
ghost use Rattle.std.specs.Prelude.{◌≡◌, ℕ, ◌<◌, ◌≤◌, length, map, All, OnOk, IfOk, IfErr};
ghost use Rattle.smt_meaning.specs.declared.values.Value.{Value as ValueOf};
ghost use Rattle.smt_meaning.specs.Interpretation.{meaning};
ghost use Rattle.model_eval.specs.Unfit.{IsCauseOfAny};
ghost use Rattle.exact_model.specs.Places.{value_at, marked_places, AreValues, AllMarkedFit};

use model_eval::{EvalError, values};
use smt_meaning::{Interp, Seq, TermId, Value};
use std::alloc::{AllocError, Global};
use term_store::TermStore;

/// Values by the places of terms. At a place that isn't marked it is any.
pub type Values = Seq<Value>;

/// The marked places, in order.
fn marked_places(alloc: Global, marks: &[bool]) -> Result<Vec<TermId>, AllocError>
    requires { length marks.now ≤ 4294967295 }
    ensures { IfOk result (λ places. places.items ≡ marked_places marks.now) }
{
    let mut places = Vec::new(alloc);
    for place in 0..marks.len() {
        if marks[place] {
            places.push(place as TermId)?;
        }
    }
    Ok(places)
}

/// The values by place, of so many places.
fn by_place(
    alloc: Global,
    count: usize,
    places: &[TermId],
    values: &[Value],
) -> Result<Vec<Value>, AllocError>
    requires within { All (λ p. p < count) places.now }
    requires size { length values.now ≡ length places.now }
    ensures size { IfOk result (λ all. length all.items ≡ count) }
    ensures each { IfOk result (λ all. (f : ℕ → ValueOf) → values.now ≡ map f places.now → All (λ p. value_at all.items p ≡ f p) places.now) }
{
    let mut all = Vec::new(alloc);
    all.resize(count, Value::Truth(false))?;
    for k in 0..places.len() {
        all[places[k] as usize] = values[k];
    }
    Ok(all)
}

/// The values of the marked terms under tables, in one pass over their parts. `Range` comes exactly where the value of a part of one of them, or a partial sum,
/// difference or product from the left, is outside the range, and names the first such part.
pub fn evaluated(
    alloc: Global,
    store: &TermStore,
    marks: &[bool],
    tables: &Interp,
) -> Result<Values, EvalError>
    requires { length marks.now ≡ length store.now.trees }
    ensures values { IfOk result (AreValues store.now.trees marks.now (meaning tables.now)) }
    ensures fits { OnOk result (AllMarkedFit store.now.trees marks.now (meaning tables.now)) }
    ensures cause { IfErr result (IsCauseOfAny (meaning tables.now) store.now.trees (marked_places marks.now)) }
{
    let count = store.len() as usize;
    let places = marked_places(alloc, marks)?;
    let found = values(alloc, tables, store, &places)?;
    let all = by_place(alloc, count, &places, found.as_slice())?;
    Ok(Seq::from_vec(all))
}
