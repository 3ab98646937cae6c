//! Laws of what follows from a stack, of linear forms, of normal bounds, of divisions and of places in lists of trees, each as the contract of a function that does nothing.
//!
//! Resolution takes one literal of each clause away, and leaves a second copy of it.
ghost use Rattle.std.specs.Prelude.{ℕ, ℤ};
ghost use Rattle.smt_meaning.specs.Term.{Tree};
ghost use Rattle.smt_laws.specs.ClauseLaws.{DivisionAtomsByPlaces, DivisionClausesAreTrue, DivisionClausesByPlaces, DivisionFitsByPlaces, DivisionHoldsByPlaces, DivisionRowsForce, DivisionRowsHold, DivisorIsItsNumber, EmptyClauseShowsNoModel, LimitsHaveValues, LinearFormHasValue, NameStandsForTerm, NormalBoundHasValue, ResolventFollows, RowsAreOfTheTerm, StillFollowsAbove, StillFollowsAfterDeclared, StillFollowsAfterMore, StillFollowsAfterPop, StillFollowsAfterPush, StillFollowsWithTrees, TreeIsFoundAgain};

/// A clause that follows at a level still follows there after pushes.
pub fn still_follows_after_push()
    ensures { StillFollowsAfterPush }
{}

/// A clause that follows still follows after declarations and assertions.
pub fn still_follows_after_more()
    ensures { StillFollowsAfterMore }
{}

/// A clause that follows still follows after declarations, also where they are global and level 0 gains them.
pub fn still_follows_after_declared()
    ensures { StillFollowsAfterDeclared }
{}

/// A clause that follows at a level still follows there after a pop that leaves the level.
pub fn still_follows_after_pop()
    ensures { StillFollowsAfterPop }
{}

/// A clause that follows at a level follows at each greater one.
pub fn still_follows_above()
    ensures { StillFollowsAbove }
{}

/// A clause that follows still follows where more trees stand behind those that it is read by.
pub fn still_follows_with_trees()
    ensures { StillFollowsWithTrees }
{}

/// A resolvent of two clauses follows at the greater of their levels.
pub fn resolvent_follows()
    ensures { ResolventFollows }
{}

/// An empty clause that follows shows that nothing makes every assertion true.
pub fn empty_clause_shows_no_model()
    ensures { EmptyClauseShowsNoModel }
{}

/// The linear form of a term has the term's value.
pub fn linear_form_has_value()
    ensures { LinearFormHasValue }
{}

/// Over whole numbers a normal bound has the value of the bound.
pub fn normal_bound_has_value()
    ensures { NormalBoundHasValue }
{}

/// A bound of a sum of multiples is true exactly where it holds of their values.
pub fn limits_have_values()
    ensures trees { LimitsHaveValues Tree }
    ensures places { LimitsHaveValues ℕ }
{}

/// The rows of a division are over multiples of the term and of its arguments.
pub fn rows_are_of_the_term()
    ensures trees { RowsAreOfTheTerm Tree }
    ensures places { RowsAreOfTheTerm ℕ }
{}

/// Numbers that meet the rows of a division are its quotient, its remainder, whether there is none, and the absolute value; and these meet them.
pub fn division_rows_force()
    ensures trees { DivisionRowsForce Tree }
    ensures places { DivisionRowsForce ℕ }
    ensures numbers { DivisionRowsForce ℤ }
{}

/// The clauses of a division are true under every interpretation.
pub fn division_clauses_are_true()
    ensures { DivisionClausesAreTrue }
{}

/// A divisor is a number other than 0.
pub fn divisor_is_its_number()
    ensures { DivisorIsItsNumber }
{}

/// The rows of a division hold of the values that an interpretation gives.
pub fn division_rows_hold()
    ensures { DivisionRowsHold }
{}

/// The bounds of a division, whether they fit the range, its clauses and that they hold, by the places of the term and of its arguments.
pub fn divisions_stand_by_places()
    ensures atoms { DivisionAtomsByPlaces }
    ensures fit { DivisionFitsByPlaces }
    ensures clauses { DivisionClausesByPlaces }
    ensures hold { DivisionHoldsByPlaces }
{}

/// A tree of a list stands at its place in it.
pub fn tree_is_found_again()
    ensures { TreeIsFoundAgain }
{}

/// A name that `:named` gives to a term stands for the term.
pub fn name_stands_for_term()
    ensures { NameStandsForTerm }
{}
