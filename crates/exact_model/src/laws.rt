//! What holds of values by place, as contracts of functions that do nothing.
ghost use Rattle.exact_model.specs.Verdict.{TruthIsByValues};
ghost use Rattle.exact_model.specs.Fitting.{FirstFit, OperatorsAreDecided};
ghost use Rattle.exact_model.specs.Leaves.{ListedValuesHaveSorts, ListedTruthsFit, ListedBoundsAreMet, ListedNumbersAreOfForms};
ghost use Rattle.exact_model.specs.Ends.{TablesGiveExactValues, TablesWithinAreModels};

use bound_log::wholes_hold;
use check_atoms::parts_have_numbers;
use order_clauses::{
    choice_part_is_decided, division_part_is_decided, equality_part_is_decided, numbers_are_found,
    order_part_is_decided,
};
use smt_laws::flat_says_the_same;

/// Where all marked terms have their values, literals on atoms with marked places are true by the values exactly where they are under the interpretation.
pub fn truth_is_by_values()
    ensures { TruthIsByValues }
{}

/// Values that fit what the whole log tells fit what it tells of the atoms with which the check began.
pub fn first_fit()
    ensures { FirstFit }
{}

/// Where a consistent log tells each atom and holds each part, and listed values fit it, each part that truths and bounds don't leave open has the exact value that its operator makes.
pub fn operators_are_decided()
    ensures { OperatorsAreDecided }
{
    numbers_are_found();
    parts_have_numbers();
    order_part_is_decided();
    equality_part_is_decided();
    choice_part_is_decided();
    division_part_is_decided();
}

/// What is listed for marked places is of the sorts that are kept.
pub fn listed_values_have_sorts()
    ensures { ListedValuesHaveSorts }
{}

/// Where the truths are those that a log tells, what is listed for marked places fits it.
pub fn listed_truths_fit()
    ensures { ListedTruthsFit }
{}

/// Where the variables have whole values that meet the bounds told, the listed values meet them.
pub fn listed_bounds_are_met()
    ensures { ListedBoundsAreMet }
{
    wholes_hold();
    flat_says_the_same();
}

/// A marked Int has the number that the variables of leaves give its linear form.
pub fn listed_numbers_are_of_forms()
    ensures { ListedNumbersAreOfForms }
{}

/// Tables that give places what they are given by exact values give exact values.
pub fn tables_give_exact_values()
    ensures { TablesGiveExactValues }
{}

/// Tables that give exact values, all in the range, are a model of a log whose literals are true by these.
pub fn tables_within_are_models()
    ensures { TablesWithinAreModels }
{
    flat_says_the_same();
}
