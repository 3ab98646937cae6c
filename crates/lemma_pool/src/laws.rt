//! Laws of what a pool stands on, each as the contract of a function that does nothing.
ghost use Rattle.lemma_pool.specs.Pools.{GrowsFromNothing};

/// A pool that stands on no level of a stack may follow the whole stack.
pub fn follows_from_nothing()
    ensures { GrowsFromNothing }
{}
