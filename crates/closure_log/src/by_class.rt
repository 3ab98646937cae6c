//! What a closure of all that a log says gives of values by its classes, as contracts of functions that do nothing.
ghost use Rattle.closure_log.specs.ByClass.{ApplicationsAreByClass, BoolsAreByClass, ChoicesAreByClass, ComparisonsAreByClass, DistinctsAreByClass, PairsFitClasses, SamenessIsByClass};

use check_atoms::{parts_have_numbers, truths_have_numbers};
use order_clauses::{equality_part_is_decided, numbers_are_found};

/// An equality of two elements has the truth value in the log that it has of their classes.
pub fn sameness_is_by_class()
    ensures { SamenessIsByClass }
{}

/// In a full log the numbered equalities of pairs fit the classes.
pub fn pairs_fit_classes()
    ensures { PairsFitClasses }
{
    numbers_are_found();
}

/// A part that is `=` or `distinct` of elements has its operator's value of their classes, unless it is an asserted wide `distinct`.
pub fn comparisons_are_by_class()
    ensures { ComparisonsAreByClass }
{
    numbers_are_found();
    equality_part_is_decided();
    parts_have_numbers();
    truths_have_numbers();
}

/// A `distinct` of elements that the log tells to be true is true of their classes, where the closure keeps its arguments apart.
pub fn distincts_are_by_class()
    ensures { DistinctsAreByClass }
{
    numbers_are_found();
}

/// An `ite` of elements is in the class of the branch that its condition takes.
pub fn choices_are_by_class()
    ensures { ChoicesAreByClass }
{
    numbers_are_found();
}

/// Applications of one symbol to arguments of the same classes are in one class.
pub fn applications_are_by_class()
    ensures { ApplicationsAreByClass }
{}

/// Bools that the log gives one truth value are in one class.
pub fn bools_are_by_class()
    ensures { BoolsAreByClass }
{}
