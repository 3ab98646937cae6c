//! What is true of each stack that commands give, as the contract of a function that does nothing.
ghost use Rattle.scope_stack.specs.Shown.{ReachedStacksAreLawful};

use smt_laws::{
    assertions_are_truths, no_id_twice, numerals_are_in_range, parts_are_among_the_trees,
    trees_are_in_order, trees_are_linear,
};

/// Each stack that commands give is lawful.
pub(crate) fn reached_stacks_are_lawful()
    ensures { ReachedStacksAreLawful }
{
    no_id_twice();
    assertions_are_truths();
    trees_are_in_order();
    parts_are_among_the_trees();
    numerals_are_in_range();
    trees_are_linear();
}
