//! A pool whose stack is cut.
ghost use Rattle.std.specs.Prelude.{◌≡◌, ◌<◌, IfOk};
ghost use Rattle.race_model.specs.Base.{base_of};
ghost use Rattle.unit_tests.specs.Proposition.{declared, raised, stated};

use crate::stack::true_clause;
use crate::tests::full::put;
use crate::tests::steps::{assertion, first_levels, word};
use lemma_pool::Pool;
use race_model::{Levels, Shelf, Told};
use std::alloc::{AllocError, Global};
use std::test::Fail;

// A pool on the level where p is declared.
fn pool_on(alloc: Global, levels: &Levels) -> Pool<Levels>
    requires { base_of levels.now ≡ declared }
    ensures { (⟦<Pool<Levels> as Shelf>⟧.state result).base ≡ declared }
{
    let mut pool = Pool::new(alloc, levels);
    pool.follow(levels, 1);
    pool
}

// Asserts p.
fn state_p(alloc: Global, levels: &mut Levels, pool: &mut Pool<Levels>) -> Result<(), AllocError>
    requires levels { base_of levels.old ≡ declared }
    requires pool { (⟦<Pool<Levels> as Shelf>⟧.state pool.old).base ≡ declared }
    ensures levels { IfOk result (λ _. base_of levels.new ≡ stated) }
    ensures pool { IfOk result (λ _. (⟦<Pool<Levels> as Shelf>⟧.state pool.new).base ≡ stated) }
{
    levels.gain(alloc, assertion(alloc, word(alloc, b"p")?, 0), false)?;
    pool.assert(levels);
    Ok(())
}

// Adds a level.
fn raise(alloc: Global, levels: &mut Levels, pool: &mut Pool<Levels>) -> Result<(), AllocError>
    requires levels { base_of levels.old ≡ stated }
    requires pool { (⟦<Pool<Levels> as Shelf>⟧.state pool.old).base ≡ stated }
    ensures pool { IfOk result (λ _. (⟦<Pool<Levels> as Shelf>⟧.state pool.new).base ≡ raised) }
{
    levels.push(alloc, 1)?;
    pool.push(levels, 1);
    Ok(())
}

// A pool whose second level is empty.
fn raised_pool(alloc: Global) -> Result<Pool<Levels>, AllocError>
    ensures { IfOk result (λ p. (⟦<Pool<Levels> as Shelf>⟧.state p).base ≡ raised) }
{
    let mut levels = first_levels(alloc)?;
    let mut pool = pool_on(alloc, &levels);
    state_p(alloc, &mut levels, &mut pool)?;
    raise(alloc, &mut levels, &mut pool)?;
    Ok(pool)
}

// Shares a true clause of a level: its place.
fn share(
    alloc: Global,
    pool: &mut Pool<Levels>,
    worker: u8,
    level: u16,
) -> Result<Option<u64>, AllocError>
    requires base { (⟦<Pool<Levels> as Shelf>⟧.state pool.old).base ≡ raised }
    requires level { level < 2 }
    ensures { (⟦<Pool<Levels> as Shelf>⟧.state pool.new).base ≡ raised }
{
    let clause = true_clause(alloc, level)?;
    Ok(match put(pool, worker, clause) {
        Told::Shared(place) => Some(place),
        _ => None,
    })
}

/// A pool goes with its levels: what was shared of a level goes with it.
#[test]
fn a_pool_goes_with_its_levels(rt: HostRuntime) -> Result<(), Fail> {
    let alloc = rt.alloc();
    let mut pool = raised_pool(alloc)?;
    assert_eq!(rt; share(alloc, &mut pool, 0, 1)?, Some(0));
    assert_eq!(rt; share(alloc, &mut pool, 1, 0)?, Some(1));
    pool.pop(1);
    let left = pool.batch(0)?;
    assert_eq!(rt; left.len(), 1);
    assert_eq!(rt; left[0].worker, 1);
    Ok(())
}
