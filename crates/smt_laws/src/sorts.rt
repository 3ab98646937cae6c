//! Laws of the sorts of terms, each as the contract of a function that does nothing.
ghost use Rattle.smt_laws.specs.SortLaws.{AcceptedTermHasItsSort, AssertionsAreTruths, AssertionsAreTruthsAtTheirLevels, PartsAreAmongTheTrees, SortsAreTheSameBelow, SymbolsAreDeclared, TreesAreInOrder};

/// Under any signature that commands give, the tree of an accepted term has the sort that the term was judged to have.
pub fn accepted_term_has_its_sort()
    ensures { AcceptedTermHasItsSort }
{}

/// Each assertion on a stack that commands give has the sort Bool under the stack's signature.
pub fn assertions_are_truths()
    ensures { AssertionsAreTruths }
{}

/// The trees that a stack keeps are different, and each stands after its arguments, whatever commands came.
pub fn trees_are_in_order()
    ensures { TreesAreInOrder }
{}

/// Each part of an assertion on a stack that commands give is among the stack's trees.
pub fn parts_are_among_the_trees()
    ensures { PartsAreAmongTheTrees }
{}

/// A term whose symbols are declared at a level has there the sort that it has above.
pub fn sorts_are_the_same_below()
    ensures { SortsAreTheSameBelow }
{}

/// Each symbol of a term that has a sort is declared.
pub fn symbols_are_declared()
    ensures { SymbolsAreDeclared }
{}

/// Each assertion of the levels up to one has the sort Bool under what these levels declare.
pub fn assertions_are_truths_at_their_levels()
    ensures { AssertionsAreTruthsAtTheirLevels }
{}
