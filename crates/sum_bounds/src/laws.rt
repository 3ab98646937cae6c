//! Laws on told bounds, each as the contract of a function that does nothing.
ghost use Rattle.sum_bounds.specs.Clauses.{ConflictsAreValid, WholesMeet};
ghost use Rattle.sum_bounds.specs.Wholes.{WholeConflictsAreValid};

/// A conflict of bounds that are what their literals say is a clause that is true under every interpretation.
pub fn conflicts_are_valid()
    ensures { ConflictsAreValid }
{}

/// So is the clause of bounds that no whole numbers meet.
pub fn whole_conflicts_are_valid()
    ensures { WholeConflictsAreValid }
{}

/// Where the terms' values are whole numbers that meet the bounds told, these whole numbers meet them.
pub fn wholes_meet()
    ensures { WholesMeet }
{}
