//! Laws of the kinds of problems, each as the contract of a function that does nothing.
ghost use Rattle.smt_laws.specs.KindLaws.{PropositionalHasNoIntegers};

/// Where each assertion is a propositional term, no part of one is an Int.
pub fn propositional_has_no_integers()
    ensures { PropositionalHasNoIntegers }
{}
