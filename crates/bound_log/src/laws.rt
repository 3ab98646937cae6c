//! Laws on literals told, as contracts of functions that do nothing.
ghost use Rattle.bound_log.specs.Chained.{BoundsAreOfLog, LogIsTakenIn, ValuesStay};
ghost use Rattle.bound_log.specs.Told.{SumsAreApart};
ghost use Rattle.bound_log.specs.Values.{BoundsAreTold, MetAreTrue, WholesHold};
ghost use Rattle.bound_log.specs.Fractions.{FractionsHold, LeavesHaveValues};

use sum_bounds::wholes_meet;

/// Each literal told whose atom bounds a sum is told as a bound on the variable of the sum.
pub fn bounds_are_told()
    ensures { BoundsAreTold }
{}

/// Where the terms' values are whole numbers that meet all bounds told, each literal told of a bound is true of these numbers.
pub fn wholes_hold()
    ensures { WholesHold }
{
    wholes_meet();
}

/// Where the terms' values meet all bounds told, they meet each bound that is told to hold, and the first of them that isn't whole is the one found.
pub fn fractions_hold()
    ensures hold { FractionsHold }
    ensures values { LeavesHaveValues }
{}

/// Each such literal is true under an interpretation that gives the terms of its sum these numbers.
pub fn met_are_true()
    ensures { MetAreTrue }
{}

/// No sum has two variables.
pub fn sums_are_apart()
    ensures { SumsAreApart }
{}

/// Each bound that stands is said by a literal told.
pub fn bounds_are_of_log()
    ensures { BoundsAreOfLog }
{}

/// What the literals told say of variables stands, or a tighter bound does.
pub fn log_is_taken_in()
    ensures { LogIsTakenIn }
{}

/// Where rows and values stay, all of the grid but its bounds does.
pub fn values_stay()
    ensures { ValuesStay }
{}
