//! A pool that is full, and takes again after a cut.
ghost use Rattle.std.specs.Prelude.{◌≡◌, ◌<◌, length, IfOk};
ghost use Rattle.race_model.specs.Shelves.{Shares};
ghost use Rattle.unit_tests.specs.Stack.{true_at, two_levels};

use crate::stack::{Empty, pool_of_two, true_clause};
use lemma_pool::Pool;
use race_model::{Framed, Shelf, Told, is_same_clause};
use smt_meaning::Clause;
use std::alloc::Global;
use std::test::Fail;

/// Shares a true clause of one of the levels.
pub fn put<K: Framed>(pool: &mut Pool<K>, worker: u8, clause: Clause) -> Told
    requires clause { clause ≡ true_at clause.level }
    requires level { clause.level < length (⟦<Pool<K> as Shelf>⟧.state pool.old).base.frames }
    ensures shares { Shares worker clause (⟦<Pool<K> as Shelf>⟧.state pool.old) (⟦<Pool<K> as Shelf>⟧.state pool.new) result }
    ensures base { (⟦<Pool<K> as Shelf>⟧.state pool.new).base ≡ (⟦<Pool<K> as Shelf>⟧.state pool.old).base }
{
    pool.share(worker, clause)
}

// Shares so many clauses of level 1. False where one wasn't taken.
fn fill(alloc: Global, pool: &mut Pool<Empty>, count: u32) -> bool
    requires { (⟦<Pool<Empty> as Shelf>⟧.state pool.old).base ≡ two_levels }
    ensures { (⟦<Pool<Empty> as Shelf>⟧.state pool.new).base ≡ two_levels }
{
    for _ in 0..count {
        let Ok(clause) = true_clause(alloc, 1) else {
            return false;
        };
        let Told::Shared(_) = put(pool, 0, clause) else {
            return false;
        };
    }
    true
}

/// With 65,536 entries of level 1 a pool takes no clause of level 0; after a cut to level 0 it takes it as its first.
#[test]
fn a_full_pool_takes_again_after_a_cut(rt: HostRuntime) -> Result<(), Fail> {
    let alloc = rt.alloc();
    let mut pool = pool_of_two(alloc);
    assert!(rt; fill(alloc, &mut pool, 65_536));
    assert_eq!(rt; pool.count(), 65_536);
    let Told::Full(clause) = put(&mut pool, 1, true_clause(alloc, 0)?) else {
        panic!(rt; "not full")
    };
    assert!(rt; is_same_clause(&clause, &true_clause(alloc, 0)?));
    pool.cut_to(0);
    assert_eq!(rt; pool.count(), 0);
    let Told::Shared(place) = put(&mut pool, 1, clause) else {
        panic!(rt; "not taken")
    };
    assert_eq!(rt; place, 0);
    assert_eq!(rt; pool.count(), 1);
    Ok(())
}
