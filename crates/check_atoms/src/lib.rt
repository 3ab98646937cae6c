//! The parts of a stack's assertions, and the atoms that are numbered for its check: of all kinds,
//! with integers and without.
//!
//! `numbered`: the atoms of a stack's parts, each once: truths, equalities, and bounds in normal
//! form; or exactly which folding leaves the range. They are all atoms that the definition gives the
//! stack, but for equalities of a sort that isn't Int: none of Bools, and of a declared sort none of
//! two terms that are compared alone, and of an `ite`, since truths say as much. Beside them stand
//! chords among the equalities (Bryant and Velev, CAV 2000): atoms that say that the two neighbours
//! of a term are equal, each of two parts of one declared sort, so that a search can say so in one
//! literal; which, and which triangles are given, is free.
//!
//! `takes`: whether a stack is without integers, exactly.
//!
//! Laws, each as the contract of a function that does nothing: whatever commands come, the
//! difference of a refused pair leaves the range, or for a strict bound or a limit of a division what
//! the part compares does; the sum of a bound of two Ints among the parts is over leaves among them;
//! each numbered truth is that of a part that is a Bool;
//! the bounds of a stack's parts can be read at the places at which the parts of its assertions
//! stand, and so have the values of what they compare.
//!
//! In `specs/`: what marks of parts are, and the atoms of parts (the truth of each that is a Bool,
//! the equality of two of one sort).
#![tactic(auto)]

ghost use Rattle.check_atoms.specs.PairRangesLaws.{LawfulPairsLeaveRange, RefusedPairsLeaveRange, LawfulLimitsLeaveRange, RefusedLimitsLeaveRange};
ghost use Rattle.check_atoms.specs.ReadablePartsLaws.{LawfulPartsAreReadable, LawfulPlacesAreReadable, PartsAreReadable, PlacesAreReadable};

mod asserted;
mod atoms;
mod chord;
mod divisor;
mod graph;
mod laws;
mod number;
mod part;
mod parts;
mod refusal;
mod stack_atoms;

pub use asserted::{MOST_COMPARED, is_asserted_distinct};
pub use atoms::{CheckAtoms, numbered};
pub use graph::Triangle;
pub use laws::{
    atoms_are_first, bounds_are_over_leaves, parts_have_numbers, refused_pair_leaves_range,
    refused_term_leaves_range, stack_atoms_are_numbered, truths_are_of_bools, truths_have_numbers,
};
use pair_bounds::rows_are_atoms;
pub use part::PartAtom;
pub use refusal::Refusal;
use smt_laws::{
    assertions_are_linear, assertions_are_truths, leaves_are_among_the_trees, leaves_are_parts,
    no_id_twice, numerals_are_in_range, parts_are_among_the_trees, placed_forms_fit,
    trees_are_in_order, trees_are_linear,
};
pub use stack_atoms::takes;

/// On a stack that commands give, the difference of a refused pair leaves the range, or for a strict bound what the part compares does.
pub fn refused_pairs_leave_range()
    ensures { RefusedPairsLeaveRange }
{
    lawful_pairs_leave_range();
    numerals_are_in_range();
    no_id_twice();
    assertions_are_truths();
    trees_are_in_order();
    parts_are_among_the_trees();
    trees_are_linear();
}

/// The same of each lawful stack whose numerals are in the range.
pub fn lawful_pairs_leave_range()
    ensures { LawfulPairsLeaveRange }
{
    placed_forms_fit();
    refused_pair_leaves_range();
}

/// On a stack that commands give, what a part compares leaves the range where a limit of its rows is refused.
pub fn refused_limits_leave_range()
    ensures { RefusedLimitsLeaveRange }
{
    lawful_limits_leave_range();
    numerals_are_in_range();
    no_id_twice();
    assertions_are_truths();
    trees_are_in_order();
    parts_are_among_the_trees();
    trees_are_linear();
}

/// The same of each lawful stack whose numerals are in the range.
pub fn lawful_limits_leave_range()
    ensures { LawfulLimitsLeaveRange }
{
    placed_forms_fit();
    rows_are_atoms();
}

/// Where a part of an assertion stands on a stack that commands give, bounds can be read: the tree is linear, and its leaves are among the stack's trees.
pub fn parts_are_readable()
    ensures { PartsAreReadable }
{
    assertions_are_linear();
    leaves_are_among_the_trees();
}

/// The same of each lawful stack.
pub fn lawful_parts_are_readable()
    ensures { LawfulPartsAreReadable }
{
    leaves_are_parts();
}

/// At each place of a stack that commands give bounds can be read.
pub fn places_are_readable()
    ensures { PlacesAreReadable }
{
    leaves_are_parts();
    trees_are_in_order();
    trees_are_linear();
}

/// The same of each lawful stack.
pub fn lawful_places_are_readable()
    ensures { LawfulPlacesAreReadable }
{
    leaves_are_parts();
}
