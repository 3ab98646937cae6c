//! Laws of what the judgement of terms lets through, each as the contract of a function that does nothing.
ghost use Rattle.smt_laws.specs.LinearLaws.{AssertionsAreLinear, FoldedFormsFit, LeavesAreAmongTheTrees, LeavesAreParts, NumeralsAreInRange, PlacedFormsFit, SymbolsAreGiven, TreesAreLinear};

use crate::parts_are_among_the_trees;

/// Each term that a stack keeps is linear, whatever commands came: the judgement refuses others.
pub fn trees_are_linear()
    ensures { TreesAreLinear }
{}

/// Each part of an assertion on a stack that commands give is linear.
pub fn assertions_are_linear()
    ensures { AssertionsAreLinear }
{
    parts_are_among_the_trees();
}

/// The leaves of a part of a term are parts of it.
pub fn leaves_are_parts()
    ensures { LeavesAreParts }
{}

/// The leaves of each part of an assertion on a stack that commands give are among the stack's trees.
pub fn leaves_are_among_the_trees()
    ensures { LeavesAreAmongTheTrees }
{
    parts_are_among_the_trees();
}

/// The numerals of each term that a stack keeps are in the range, whatever commands came.
pub fn numerals_are_in_range()
    ensures { NumeralsAreInRange }
{}

/// The id of each symbol in the terms that a stack keeps was given, whatever commands came.
pub fn symbols_are_given()
    ensures { SymbolsAreGiven }
{}

/// The form of a term is in the range, where its numerals are and its folding stays there.
pub fn folded_forms_fit()
    ensures { FoldedFormsFit }
{}

/// The form of the term at a place is in the range, where the numerals of all terms are and its folding stays there.
pub fn placed_forms_fit()
    ensures { PlacedFormsFit }
{}
