//! What holds of the clauses, as contracts of functions that do nothing.
ghost use Rattle.bound_clauses.specs.Laws.{OrdersAreComparisons, PairsAreCompared, OrderIsTied, OrderIsOver, EqualityIsTied, EqualityIsOver, ConstantIsTied, ConstantIsOver, AxiomsAreTrue, AxiomsAreOver, AxiomsAreFew, AxiomsForceAll, BoundHasValue, InterpretationAgrees, OrderClausesAreTrue, EqualityClausesAreTrue, ConstantHasValue, AxiomsHaveValue, OrderIsDecided, EqualityIsDecided};

use equality_clauses::comparison_is_over;
use smt_laws::{linear_form_has_value, normal_bound_has_value};

/// The bounds of a comparison are the atoms that a stack has for it.
pub fn orders_are_comparisons()
    ensures { OrdersAreComparisons }
{}

/// The atoms that a stack has for two Ints that it compares are their equality and both bounds of their difference.
pub fn pairs_are_compared()
    ensures { PairsAreCompared }
{}

/// Where the signs of the bounds agree with the values of the arguments, the clauses of `<=`, `<`, `>=` and `>` are true exactly where the term's sign is the value
/// of its operator.
pub fn order_is_tied()
    ensures { OrderIsTied }
{}

/// They are over the term and the bounds, and none has an atom twice where the term's is none of the bounds'.
pub fn order_is_over()
    ensures { OrderIsOver }
{
    comparison_is_over();
}

/// Where the signs of both bounds agree with the values of two Ints, the clauses of their equality are true exactly where its sign is that the values are the same.
pub fn equality_is_tied()
    ensures { EqualityIsTied }
{}

/// They are over the equality and the bounds, and none has an atom twice where the equality's is neither of the bounds'.
pub fn equality_is_over()
    ensures { EqualityIsOver }
{
    order_is_over();
}

/// The clause of a bound of the empty sum is true exactly where its sign is the given one.
pub fn constant_is_tied()
    ensures { ConstantIsTied }
{}

/// It is over this bound.
pub fn constant_is_over()
    ensures { ConstantIsOver }
{}

/// The axioms are true whatever whole number the sum is.
pub fn axioms_are_true()
    ensures { AxiomsAreTrue }
{}

/// They are over the bounds, and none has an atom twice where no two bounds have one number.
pub fn axioms_are_over()
    ensures { AxiomsAreOver }
{}

/// There are at most two for each bound.
pub fn axioms_are_few()
    ensures { AxiomsAreFew }
{}

/// From a literal on one of the bounds propagation over the axioms reaches each literal on these bounds that follows from it for whole numbers.
pub fn axioms_force_all()
    ensures { AxiomsForceAll }
{}

/// Under an interpretation the bound of two terms has the truth value of the comparison of their values.
pub fn bound_has_value()
    ensures { BoundHasValue }
{
    linear_form_has_value();
    normal_bound_has_value();
}

/// The truth of the bounds of a comparison under an interpretation agrees with the values that it gives the arguments.
pub fn interpretation_agrees()
    ensures { InterpretationAgrees }
{
    bound_has_value();
}

/// So its clauses are true under every interpretation.
pub fn order_clauses_are_true()
    ensures { OrderClausesAreTrue }
{
    order_is_tied();
    interpretation_agrees();
}

/// The clauses of an equality are true under every interpretation that gives its sides numbers.
pub fn equality_clauses_are_true()
    ensures { EqualityClausesAreTrue }
{
    equality_is_tied();
    bound_has_value();
}

/// A bound of the empty sum is true under every interpretation or under none, and its clause says so.
pub fn constant_has_value()
    ensures { ConstantHasValue }
{}

/// The axioms of bounds of a sum and of its negation are true under every interpretation.
pub fn axioms_have_value()
    ensures { AxiomsHaveValue }
{
    axioms_are_true();
}

/// A consistent log that makes the clauses of a comparison true gives it its operator's value, where the bounds have the signs that fit the arguments' values.
pub fn order_is_decided()
    ensures { OrderIsDecided }
{}

/// The same of an equality of two Ints.
pub fn equality_is_decided()
    ensures { EqualityIsDecided }
{}
