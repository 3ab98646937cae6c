//! Terms that are equal or differ, each for a reason, and what follows from that (Nieuwenhuis and
//! Oliveras, 2007).
//!
//! `Congruence::read`, `record`, `undo_to`: terms of a store as points. A step is recorded with its
//! reason, or after want of memory all is as before; an undo leaves exactly the first steps and
//! reasons.
//!
//! `same`, `explain`, `explain_points`: `same` is true exactly where the merges give the equality,
//! and then whoever makes the merged pairs true gives both terms one value; the reasons of merges
//! that give an equality.
//!
//! `conflict`: a list of negated reasons, of merges that give the equality of the truth values, or
//! of a step that keeps two points apart and merges that give their equality; none exactly where
//! the closure keeps them all apart.
//!
//! `each_once`, `Explanation`: in each of these lists no literal stands twice.
//!
//! What literals say of terms, as steps of a closure, and the clauses that reasons of steps give.
//!
//! `add_truth_step`, `add_pair_step`, `add_node_steps`, `add_choice_steps`, `record_all`: exactly
//! the steps that a literal says of terms; what is recorded for reasons that justify it stays
//! justified, on an error too.
//!
//! `add_reasons`, `lemma_of`, `lemma_with`, and 6 laws: each such step holds under every
//! interpretation that makes its literal true. A clash of justified steps is a clause that is true
//! under every interpretation, and false where the reasons are told; so are clauses with the
//! reasons of an equality. A clause that is made of a list has each literal once.
//!
//! `implied_clause`: where a step that the negation of a literal says can't hold (its points are
//! equal though it says that they differ, or one has the truth value that the other isn't), the
//! clause "the literal, or not the reasons", true under every interpretation.
//!
//! The other literals of that clause are false where the literal is open; none stands twice; there
//! is no clause where there are more reasons than so many.
#![tactic(auto)]

ghost use Rattle.congruence.specs.Laws.{ChoiceStepsAreJustified, ClashIsFalseClause, NodeStepsAreJustified, ReasonsMakeEqual, SamenessIsJustified, TruthIsJustified};

mod clause;
mod congruence;
mod explanation;
mod implied;
mod reading;
mod reasons;
mod record;
mod steps;

pub use clause::{add_reasons, lemma_of, lemma_with};
pub use congruence::Congruence;
pub use explanation::Explanation;
pub use implied::implied_clause;
pub use reasons::each_once;
pub use record::record_all;
pub use steps::{add_choice_steps, add_node_steps, add_pair_step, add_truth_step};

/// The truth of a Bool term justifies that it has this truth value.
pub fn truth_is_justified()
    ensures { TruthIsJustified }
{
    smt_laws::value_has_its_sort();
}

/// The equality of two terms justifies that their points are equal, or differ.
pub fn sameness_is_justified()
    ensures { SamenessIsJustified }
{}

/// The truth of a term justifies what it says of the term's arguments.
pub fn node_steps_are_justified()
    ensures { NodeStepsAreJustified }
{}

/// The truth of a condition justifies what it says of a choice.
pub fn choice_steps_are_justified()
    ensures { ChoiceStepsAreJustified }
{}

/// Where the reasons of an equality are true, its points have one value.
pub fn reasons_make_equal()
    ensures { ReasonsMakeEqual }
{
    point_closure::equal_points_have_one_value();
}

/// The clause that justified steps break is true everywhere, and false where their reasons are told.
pub fn clash_is_false_clause()
    ensures { ClashIsFalseClause }
{
    point_closure::equal_points_have_one_value();
}
