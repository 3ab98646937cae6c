//! What holds of the numbered atoms and of a refusal, as contracts of functions that do nothing.
ghost use Rattle.check_atoms.specs.Laws.{StackAtomsAreNumbered, AtomsAreFirst, BoundsAreOverLeaves, PartsHaveNumbers, TruthsAreOfBools, TruthsHaveNumbers, RefusedTermLeavesRange, RefusedPairLeavesRange};

use bound_clauses::orders_are_comparisons;
use pair_bounds::rows_are_atoms;
use smt_laws::flat_says_the_same;

/// Each of the stack's atoms is numbered, but for equalities of terms of a sort that isn't Int.
pub fn stack_atoms_are_numbered()
    ensures { StackAtomsAreNumbered }
{
    orders_are_comparisons();
    rows_are_atoms();
}

/// Each numbered atom is one that a check begins with, none of them an equality of Bools, and each of the stack's is numbered, but for equalities of terms of a sort that isn't Int.
pub fn atoms_are_first()
    ensures { AtomsAreFirst }
{
    orders_are_comparisons();
    rows_are_atoms();
    flat_says_the_same();
}

/// The atoms that compare the arguments of a part are numbered.
pub fn parts_have_numbers()
    ensures { PartsHaveNumbers }
{}

/// The truth of each part that is a Bool is numbered.
pub fn truths_have_numbers()
    ensures { TruthsHaveNumbers }
{}

/// Each numbered truth is that of a part that is a Bool.
pub fn truths_are_of_bools()
    ensures { TruthsAreOfBools }
{}

/// The sum of the bound of two Ints among a stack's parts is over leaves among them.
pub fn bounds_are_over_leaves()
    ensures { BoundsAreOverLeaves }
{}

/// A term whose folding is refused is a part whose folding leaves the range.
pub fn refused_term_leaves_range()
    ensures { RefusedTermLeavesRange }
{}

/// Where the form of the first term of a refused pair is in the range, the pair's difference leaves it, or for a strict bound what the part compares does.
pub fn refused_pair_leaves_range()
    ensures { RefusedPairLeavesRange }
{}
