//! What holds of the clauses, as contracts of functions that do nothing.
ghost use Rattle.order_clauses.specs.Needed.{PartAtomsAreOfStack};
ghost use Rattle.order_clauses.specs.Counted.{PairsAreCounted};
ghost use Rattle.order_clauses.specs.Decided.{NumbersAreFound, OrderPartIsDecided, EqualityPartIsDecided, ChoicePartIsDecided, DivisionPartIsDecided};

use bound_clauses::{equality_is_decided, order_is_decided, orders_are_comparisons};
use pair_bounds::rows_are_atoms;
use smt_laws::division_rows_force;

/// The number that the clauses have for an atom is where it stands in the table.
pub fn numbers_are_found()
    ensures { NumbersAreFound }
{}

/// The atoms that the clauses of a part are over are among those that a stack has for it: so `Missing` doesn't come where the stack's atoms have numbers.
pub fn part_atoms_are_of_stack()
    ensures { PartAtomsAreOfStack }
{
    orders_are_comparisons();
    rows_are_atoms();
}

/// A consistent log that makes the clauses of a comparison true gives it its operator's value, where the bounds fit the values of the arguments.
pub fn order_part_is_decided()
    ensures { OrderPartIsDecided }
{
    order_is_decided();
}

/// The same of `=` and `distinct`, where of Ints the bounds fit, and of other terms the equalities.
pub fn equality_part_is_decided()
    ensures { EqualityPartIsDecided }
{
    equality_is_decided();
}

/// An `ite` that is an Int then has the value of the branch that its condition takes.
pub fn choice_part_is_decided()
    ensures { ChoicePartIsDecided }
{
    equality_is_decided();
}

/// Each `div`, `mod`, `abs` and divisibility then has its operator's value, where the bounds of its rows fit the values.
pub fn division_part_is_decided()
    ensures { DivisionPartIsDecided }
{
    division_rows_force();
}

/// A `distinct` of so many terms compares as many pairs as are counted for it, and of no part more are counted than of its operator and so many arguments.
pub fn pairs_are_counted()
    ensures { PairsAreCounted }
{}
