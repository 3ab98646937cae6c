//! Learnt clauses that aren't used are forgotten, but for short ones and those by which a step was
//! forced.
ghost use Rattle.std.specs.Prelude.{◌≡◌, ℕ, ◌<◌, ◌≤◌, true, false, All, Some, List, length, slice_index_or, IfOk};
ghost use Rattle.clause_store.specs.Found.{HasKept};
ghost use Rattle.cdcl_core.specs.Turns.{IsTidied};
ghost use Rattle.cdcl_core.specs.Forgetting.{AreMarked};

use clause_store::store::Store;
use clause_store::trail::Step;
use search_order::Order;
use std::alloc::{AllocError, Global};

// A clause of more literals is long.
const SHORT: usize = 8;

/// Which clauses may be forgotten: where it is allowed, those of more than 8 literals with ids from the first one on.
#[derive(Clone, Copy, Drop)]
pub struct Forgetting {
    pub first: u64,
    pub allowed: bool,
}

fn mark_one(marks: &mut Vec<bool>, reason: Option<u64>)
    ensures marked { (id : ℕ) → reason ≡ Some id → id < length marks.old.items → slice_index_or marks.new.items id false ≡ true }
    ensures stay { (id : ℕ) → slice_index_or marks.old.items id false ≡ true → slice_index_or marks.new.items id false ≡ true }
    ensures count { length marks.new.items ≡ length marks.old.items }
{
    let Some(id) = reason else {
        return;
    };
    if id < marks.len() as u64 {
        marks[id as usize] = true;
    }
}

fn mark(steps: &[Step], marks: &mut Vec<bool>)
    ensures marked { AreMarked steps.now marks.new.items }
    ensures count { length marks.new.items ≡ length marks.old.items }
{
    for step in steps {
        mark_one(marks, step.reason);
    }
}

// The clauses by which steps were forced, by their ids below this one.
fn mark_reasons(alloc: Global, store: &Store, count: u64) -> Result<Vec<bool>, AllocError>
    ensures { IfOk result (λ marks. AreMarked store.now.trail.steps marks.items) }
{
    let steps = store.steps();
    let mut marks = vec![in alloc; false; count as usize]?;
    mark(steps, &mut marks);
    Ok(marks)
}

// Whether a clause is to be forgotten: it is long, wasn't used, and forced no step.
fn is_spare(order: &mut Order, store: &Store, marks: &[bool], id: u64) -> bool
    requires { AreMarked store.now.trail.steps marks.now }
    ensures kept { result ≡ true → HasKept store.now.clauses id (λ ls. 8 < length ls) }
    ensures unused { result ≡ true → All (λ (s : Step). s.reason ≡ Some id → ⊥) store.now.trail.steps }
{
    if id >= marks.len() as u64 {
        return false;
    }
    let marked = marks[id as usize];
    if marked || !store.is_kept(id) || store.size(id) <= SHORT {
        return false;
    }
    order.is_idle(id)
}

fn forget_one(order: &mut Order, store: &mut Store, marks: &[bool], forgetting: Forgetting, id: u64)
    requires marked { AreMarked store.old.trail.steps marks.now }
    requires allowed { forgetting.allowed ≡ true }
    requires late { forgetting.first ≤ id }
    ensures { IsTidied forgetting store.old store.new }
{
    let _steps = store.steps();
    if is_spare(order, store, marks, id) {
        store.forget(id);
    }
}

// Forgets clauses that may be, but for those by which a step was forced. For want of memory it forgets none.
fn forget_long(alloc: Global, order: &mut Order, store: &mut Store, forgetting: Forgetting)
    requires { forgetting.allowed ≡ true }
    ensures { IsTidied forgetting store.old store.new }
{
    let next = store.next_id();
    let Ok(marks) = mark_reasons(alloc, store, next) else {
        return;
    };
    for id in forgetting.first..next {
        forget_one(order, store, &marks, forgetting, id);
    }
}

// Forgets clauses that may be, if it is time.
pub fn tidy(alloc: Global, order: &mut Order, store: &mut Store, forgetting: Forgetting, may: bool)
    ensures tidied { IsTidied forgetting store.old store.new }
    ensures same { may ≡ false → store.new ≡ store.old }
{
    if may && forgetting.allowed {
        forget_long(alloc, order, store, forgetting);
    }
}
