//! Laws of stacks without integers, each as the contract of a function that does nothing.
ghost use Rattle.worker.specs.Endings.{NothingLeavesRange};

use smt_laws::{tables_interpret, value_has_its_sort};

/// Where no part of an assertion is an Int, no number leaves the range.
pub fn nothing_leaves_range()
    ensures { NothingLeavesRange }
{
    tables_interpret();
    value_has_its_sort();
}
