//! The levels of a stack, read as one level.
ghost use Rattle.smt_laws.specs.Flat.{FlatSaysTheSame};

/// The levels of a stack as one level declare and assert the same.
pub fn flat_says_the_same()
    ensures { FlatSaysTheSame }
{}
