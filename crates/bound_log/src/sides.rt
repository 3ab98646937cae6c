//! Whether a side of a branch can have been told.
ghost use Rattle.bound_log.specs.Sides.{SidesAreOpen};

use crate::bounds_are_told;
use sum_bounds::FractionalLeaf;

/// Where the terms' values meet all bounds told, no literal told is on a side of the branch of a term whose value isn't whole: at least one of its atoms has no
/// number, or has one that the log says nothing of.
pub fn sides_are_open(leaf: &FractionalLeaf)
    ensures { SidesAreOpen leaf.now }
{
    bounds_are_told();
    let _denominator = leaf.value.denominator();
}
