//! The steps whose literals stay in the learnt clause.
ghost use Rattle.std.specs.Prelude.{◌≡◌, ℕ, ◌∷◌, ◌<◌, ◌≤◌, List, All, map, length, OnOk};
ghost use Rattle.conflict_learn.specs.Analysing.{step_at, falsified, with_place, IsSound, IsGrounded, IsOnly, Shrinks};

use crate::analysis::Analysis;
use crate::minimize::{Flag, dispensable};
use crate::reasons::step;
use clause_store::store::Store;
use literals::Literal;
use std::alloc::{AllocError, Global};

// One place more, with one of the deepest in front.
fn keep(store: &Store, kept: &mut Vec<usize>, place: usize) -> Result<(), AllocError>
    requires within { place < length store.now.trail.steps }
    requires all_within { All (λ k. k < length store.now.trail.steps) kept.old.items }
    ensures { OnOk result (kept.new.items ≡ with_place store.now.trail.steps place kept.old.items) }
{
    if kept.is_empty() {
        kept.push(place)?;
        return Ok(());
    }
    let first = kept[0];
    if step(store, place).depth <= step(store, first).depth {
        kept.push(place)?;
    } else {
        kept.push(first)?;
        kept[0] = place;
    }
    Ok(())
}

impl Analysis {
    // Resolves each step below the greatest depth whose literal isn't needed, and keeps the others.
    pub fn shrink(
        &mut self,
        store: &mut Store,
        _id: u64,
        _uip: usize,
        flags: &mut [Flag],
        kept: &mut Vec<usize>,
    ) -> Result<(), AllocError>
        requires sound { IsSound store.old.clauses store.old.trail.steps self.old }
        requires grounded { IsGrounded store.old.clauses store.old.trail.steps _id self.old }
        requires only { IsOnly store.old.trail.steps self.old _uip }
        requires flags { length flags.old ≡ length store.old.trail.steps }
        ensures same { store.new ≡ store.old }
        ensures shrinks { OnOk result (Shrinks store.old.clauses store.old.trail.steps _id _uip self.old self.new kept.new.items) }
    {
        let _steps = store.steps();
        kept.clear();
        let mut j = 0;
        while j < self.lower_count() {
            let place = self.lower_at(j);
            match dispensable(self, store, flags, place) {
                Some(reason) => self.resolve(store, place, reason)?,
                None => keep(store, kept, place)?,
            }
            j += 1;
        }
        Ok(())
    }
}

// The literals that are false by these steps, after that of the first.
pub fn write_literals(
    store: &Store,
    first: usize,
    kept: &[usize],
    literals: &mut Vec<Literal>,
) -> Result<(), AllocError>
    requires within { first < length store.now.trail.steps }
    requires all_within { All (λ k. k < length store.now.trail.steps) kept.now }
    ensures { OnOk result (literals.new.items ≡ map (falsified store.now.trail.steps) (first ∷ kept.now)) }
{
    literals.clear();
    literals.push(step(store, first).literal.negated())?;
    for place in kept {
        literals.push(step(store, *place).literal.negated())?;
    }
    Ok(())
}
