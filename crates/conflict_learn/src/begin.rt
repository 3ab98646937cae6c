//! An analysis begins with the false clause.
ghost use Rattle.std.specs.Prelude.{◌≡◌, ℕ, ◌<◌, ◌≤◌, List, [], All, Contains, length, replicate, OnOk};
ghost use Rattle.literals.specs.Signed.{Signed};
ghost use Rattle.clause_store.specs.Stored.{AllFalse};
ghost use Rattle.clause_store.specs.Found.{HasKept};
ghost use Rattle.conflict_learn.specs.Analysing.{State, step_at, IsFalseBelow, IsGreatest, Begins, empty_state};

use crate::analysis::{Analysis, Mark};
use crate::reasons::{false_literals, false_place, step};
use clause_store::store::Store;
use literals::Literal;
use std::alloc::{AllocError, Global};

// The greatest depth of literals that are false.
fn greatest_depth(store: &Store, literals: &[Literal]) -> u32
    requires { AllFalse store.now.trail.steps literals.now }
    ensures { IsGreatest store.now.trail.steps literals.now result }
{
    let mut greatest = 0;
    for literal in literals {
        let depth = step(store, false_place(store, *literal)).depth;
        if depth > greatest {
            greatest = depth;
        }
    }
    greatest
}

impl Analysis {
    // Sees the steps by which the literals of a kept clause are false.
    pub fn begin(&mut self, store: &mut Store, id: u64) -> Result<(), AllocError>
        requires { HasKept store.old.clauses id (AllFalse store.old.trail.steps) }
        ensures same { store.new ≡ store.old }
        ensures begins { OnOk result (Begins store.old.clauses store.old.trail.steps id self.new) }
    {
        let looked = store.look(id);
        let literals = false_literals(store, id, looked);
        let count = store.steps().len();
        let depth = greatest_depth(store, literals);
        self.clear(count, depth)?;
        self.take_in(store, id, literals, count, None)?;
        Ok(())
    }
}
