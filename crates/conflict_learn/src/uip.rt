//! The first unique implication point (Zhang, Madigan, Moskewicz and Malik, ICCAD 2001): steps of
//! the greatest depth are resolved, newest first, until one waits.
ghost use Rattle.std.specs.Prelude.{◌≡◌, ℕ, ◌+◌, ◌<◌, ◌≤◌, ◌⊎◌, ◌&&◌, ◌==◌, true, Bool, Some, length, IfOk, OnOk};
ghost use Rattle.conflict_learn.specs.Analysing.{State, step_at, mark_at, is_seen, is_waiting, with_less, IsSound, IsGrounded, IsAt, IsOnly, Resolves, Comes};

use crate::analysis::{Analysis, Mark, is_waiting};
use crate::reasons::{look_at_reason, reason_at, reason_literals, step};
use clause_store::store::Store;
use std::alloc::AllocError;

impl Analysis {
    // Whether the step at this place waits, at the greatest depth.
    fn waits_deep(&self, store: &Store, place: usize) -> bool
        requires room { length self.now.marks ≡ length store.now.trail.steps }
        requires within { place < length store.now.trail.steps }
        ensures { result ≡ (is_waiting (mark_at self.now.marks place) && ((step_at store.now.trail.steps place).depth == self.now.deepest)) }
    {
        if is_waiting(self.mark_of(place)) {
            step(store, place).depth == self.deepest()
        } else {
            false
        }
    }

    // Lets the step at this place follow from the other literals of its reason.
    pub fn resolve(
        &mut self,
        store: &mut Store,
        place: usize,
        reason: u64,
    ) -> Result<(), AllocError>
        requires sound { IsSound store.old.clauses store.old.trail.steps self.old }
        requires within { place < length store.old.trail.steps }
        requires was_seen { is_seen (mark_at self.old.marks place) ≡ true }
        requires reason { (step_at store.old.trail.steps place).reason ≡ Some reason }
        ensures same { store.new ≡ store.old }
        ensures resolves { OnOk result (Resolves store.old.clauses store.old.trail.steps place self.old self.new) }
    {
        let looked = look_at_reason(store, place, reason);
        let literal = step(store, place).literal;
        let literals = reason_literals(store, place, reason, looked);
        self.take_in(store, reason, literals, place, Some(literal))?;
        self.mark(place, Mark::Resolved);
        Ok(())
    }

    // Resolves steps of the greatest depth until so many are left, which all stand below the place that it gives.
    pub fn resolve_deepest(
        &mut self,
        store: &mut Store,
        _id: u64,
        left: usize,
    ) -> Result<usize, AllocError>
        requires sound { IsSound store.old.clauses store.old.trail.steps self.old }
        requires grounded { IsGrounded store.old.clauses store.old.trail.steps _id self.old }
        requires at { IsAt store.old.trail.steps self.old (length store.old.trail.steps) }
        requires enough { left ≤ self.old.count }
        requires bottom { (0 < left) ⊎ (self.old.deepest ≡ 0) }
        ensures same { store.new ≡ store.old }
        ensures comes { IfOk result (λ i. Comes store.old.clauses store.old.trail.steps _id left i self.old self.new) }
    {
        let mut i = store.steps().len();
        while self.count() > left {
            i -= 1;
            if self.waits_deep(store, i) {
                let reason = reason_at(store, i);
                self.uncount();
                self.resolve(store, i, reason)?;
            }
        }
        Ok(i)
    }

    // The place of the one step of the greatest depth that waits.
    pub fn find_uip(&self, store: &Store, top: usize) -> usize
        requires room { length self.now.marks ≡ length store.now.trail.steps }
        requires within { top ≤ length store.now.trail.steps }
        requires at { IsAt store.now.trail.steps self.now top }
        requires one { self.now.count ≡ 1 }
        ensures { IsOnly store.now.trail.steps self.now result }
    {
        let mut i = top;
        while i > 0 {
            i -= 1;
            if self.waits_deep(store, i) {
                return i;
            }
        }
        0
    }
}
