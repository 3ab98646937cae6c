//! What the first clauses are for, as contracts of functions that do nothing.
ghost use Rattle.first_clauses.specs.Counted.{StepsAreCounted};
ghost use Rattle.first_clauses.specs.Holding.{NegationsAreDecided};
ghost use Rattle.first_clauses.specs.Laws.{FirstClausesSayAssertions, SignatureStays, EmptyClauseMeansNoModel, KeptPartsAreForced, MoreForceParts, FirstClausesSayStanding, FirstClausesDecideParts, FirstClausesAgree, PartsHoldOfEach};

use bound_clauses::orders_are_comparisons;
use check_atoms::parts_have_numbers;
use clause_form::{node_clauses_are_renamed, node_clauses_decide, node_clauses_force};
use pair_bounds::rows_are_atoms;
use smt_laws::{divisions_stand_by_places, flat_says_the_same};

/// What makes the first clauses true makes the assertions true, also where the search has numbered more atoms.
pub fn first_clauses_say_assertions()
    ensures { FirstClausesSayAssertions }
{}

/// The signature by which the clauses are read is the stack's, also where the search has numbered more atoms.
pub fn signature_stays()
    ensures { SignatureStays }
{
    flat_says_the_same();
}

/// Where the empty clause follows, the stack has no model, also where the search has numbered more atoms.
pub fn empty_clause_means_no_model()
    ensures { EmptyClauseMeansNoModel }
{
    flat_says_the_same();
}

/// The kept clauses of the parts, among whatever others, force each clause that is true of a part's operator.
pub fn kept_parts_are_forced()
    ensures { KeptPartsAreForced }
{
    node_clauses_force();
    node_clauses_are_renamed();
}

/// Where fewer clauses force those of the parts, more do.
pub fn more_force_parts()
    ensures { MoreForceParts }
{}

/// What counts as steps, by examples, and an invention that counts a part as none.
pub fn steps_are_counted()
    ensures { StepsAreCounted }
{}

/// A consistent log that makes the first clauses true has a bound of each list that stands whatever is decided, also where the search has numbered more atoms.
pub fn first_clauses_say_standing()
    ensures { FirstClausesSayStanding }
{
    flat_says_the_same();
    parts_have_numbers();
    orders_are_comparisons();
    rows_are_atoms();
    divisions_stand_by_places();
}

/// A full and consistent log that makes the first clauses true decides each part, also where the search has numbered more atoms.
pub fn first_clauses_decide_parts()
    ensures { FirstClausesDecideParts }
{
    node_clauses_decide();
}

/// Such a log agrees: it says what stands, and decides each part.
pub fn first_clauses_agree()
    ensures { FirstClausesAgree }
{
    first_clauses_say_standing();
    first_clauses_decide_parts();
}

/// What a log decides of the parts of a stack it decides of those of each stack with the same terms and levels, by whatever marks and sorts.
pub fn parts_hold_of_each()
    ensures { PartsHoldOfEach }
{
    flat_says_the_same();
}

/// What a log decides, by an example, and an invention that gives a term and its negation one truth value.
pub fn negations_are_decided()
    ensures { NegationsAreDecided }
{}
