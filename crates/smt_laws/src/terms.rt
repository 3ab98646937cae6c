//! Laws of the definitions of terms, each as the contract of a function that does nothing.
ghost use Rattle.smt_laws.specs.TermLaws.{BodyHasTheTermsValue, JudgedAgain, NoIdTwice, OperationHasSort, OperationHasValue, OperationIsLinear, QuestionsAreAssertions, SExprsReadBack, SexpsAreSExprs, TablesInterpret, TokensReadBack, TreeEqualityDecides, TreeHasTheTermsValue, ValueDependsOnSymbols, ValueHasItsSort};

/// A term that has a sort has a value of that sort, under each interpretation of the signature.
pub fn value_has_its_sort()
    ensures { ValueHasItsSort }
{}

/// The tree of an operator that is applied has the operator's sort.
pub fn operation_has_sort()
    ensures { OperationHasSort }
{}

/// It has the operator's value.
pub fn operation_has_value()
    ensures { OperationHasValue }
{}

/// It is linear where the operator may be applied to linear terms.
pub fn operation_is_linear()
    ensures { OperationIsLinear }
{}

/// The tables of a kept model interpret the signature.
pub fn tables_interpret()
    ensures { TablesInterpret }
{}

/// Interpretations that agree on a term's symbols give it the same value.
pub fn value_depends_on_symbols()
    ensures { ValueDependsOnSymbols }
{}

/// An s-expression has tokens that read back as it.
pub fn tokens_read_back()
    ensures { TokensReadBack }
{}

/// What the lexicon calls an s-expression is the list of the tokens of the tree that it reads as.
pub fn s_expressions_read_back()
    ensures { SExprsReadBack }
{}

/// Each tree that is nested no deeper than allowed, with no parenthesis for a word, has the tokens of an s-expression.
pub fn trees_are_s_expressions()
    ensures { SexpsAreSExprs }
{}

/// The value of an accepted term, by cases on how it is written, is the value of its tree.
pub fn tree_has_the_terms_value()
    ensures { TreeHasTheTermsValue }
{}

/// The value of a definition's body, by cases on how it is written, is the value of its tree, whatever values its parameters have.
pub fn body_has_the_terms_value()
    ensures { BodyHasTheTermsValue }
{}

/// No id stands twice in the signature of a stack, whatever commands made it.
pub fn no_id_twice()
    ensures { NoIdTwice }
{}

/// The test for equal trees is true exactly where they are one tree.
pub fn tree_equality_decides()
    ensures { TreeEqualityDecides }
{}

/// A term that is accepted where a question may stand is accepted in an assertion, with the same tree, and changes the scope alike.
pub fn questions_are_assertions()
    ensures { QuestionsAreAssertions }
{}

/// A term that was judged as a question is judged alike again, whatever trees joined the list meanwhile, and adds none.
pub fn judged_again()
    ensures { JudgedAgain }
{}
