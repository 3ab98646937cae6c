//! What holds of the clauses, as contracts of functions that do nothing.
ghost use Rattle.equality_clauses.specs.Laws.{ComparisonIsTied, ComparisonIsOver, ChoiceIsTied, ChoiceIsOver, SamenessIsTied, SamenessIsOver, InterpretationAgrees};

/// Where the signs of the pairs agree with the values of the arguments, the clauses of `=` and `distinct` are true exactly where the term's sign is the value
/// of its operator.
pub fn comparison_is_tied()
    ensures { ComparisonIsTied }
{}

/// They are over the term and the pairs, and none has an atom twice where the term's is none of the pairs'.
pub fn comparison_is_over()
    ensures { ComparisonIsOver }
{}

/// Where the signs agree with the values, the clauses of an `ite` are true exactly where it has the value of its operator.
pub fn choice_is_tied()
    ensures { ChoiceIsTied }
{}

/// They are over the condition and the two equalities, and none has an atom twice where the condition's is none of these.
pub fn choice_is_over()
    ensures { ChoiceIsOver }
{}

/// The clauses of the equality of two Bools are true exactly where its sign is that the two truths are the same.
pub fn sameness_is_tied()
    ensures { SamenessIsTied }
{}

/// They are over the equality and the two truths, and none has an atom twice where the equality's is neither of these.
pub fn sameness_is_over()
    ensures { SamenessIsOver }
{}

/// The truth of atoms under an interpretation agrees with the values that it gives the terms.
pub fn interpretation_agrees()
    ensures { InterpretationAgrees }
{}
