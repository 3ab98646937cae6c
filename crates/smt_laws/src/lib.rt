//! What holds of the definitions whatever a script does: each law is the contract of a function
//! that does nothing.
//!
//! Of the language: where a command is no check, exactly one reply may be given and one state be
//! left. An error, and `unsupported`, leave the state as it was. A reply's bytes end in one line
//! feed, and only a success that isn't printed has none.
//!
//! Of states that a journal comes to: a logic is set exactly outside the start mode, in which no
//! level stands above 0. A model that is kept makes every assertion of the stack true, and every
//! assumption of the last check, with every number on the way in the range. The numbers of a
//! command are at most 2^127 - 1 and not below 0. A check under assumptions sees the stack after a
//! push and the assumptions as assertions; after it the levels are those before it.
//!
//! Of terms: a well-sorted term has a value of its sort, which depends on its symbols alone; the
//! tables for a signature interpret it; the value of an accepted term by cases on its text, also
//! with parameters, is that of its tree. The tree of an operator that is applied has the operator's
//! sort and value. The test for equal trees is true exactly where they are one.
//!
//! Of s-expressions: the tokens of a tree read back to it, and what the lexicon calls one
//! s-expression is the list of tokens of the tree that it reads as; and the other way round for
//! each tree nested no deeper than allowed.
//!
//! Of sorts: whatever commands came, the tree of an accepted term has the sort that it was judged
//! to have, and every assertion is a Bool, also under what its levels declare. The trees that a
//! stack keeps differ, each after its arguments, the parts of assertions among them; no number of a
//! symbol stands twice.
//!
//! Of levels: a term whose symbols are declared at a level has there the sort that it has above;
//! the symbols of a term that has a sort are declared; all levels of a stack as one say the same.
//!
//! Of clauses: one that follows still follows after pushes, later assertions and declarations, a
//! pop to its level, at greater levels and with more terms. A resolvent follows at the greater
//! level; an empty clause that follows shows that there is no model.
//!
//! Of kinds: where each assertion is propositional, no part of one is an Int.
//!
//! Of linear terms: whatever commands came, the terms on a stack are linear, with their leaves
//! among its terms, numerals in the range, and symbols whose ids were given. A linear term has the value of its linear form, which
//! is in the range where its numerals are and its folding stays there; a normal bound has the value
//! of the bound over whole numbers.
//!
//! Of divisions: the clauses of a division are true under every interpretation, and no numbers meet
//! them but the quotient, the remainder, whether there is none, and the absolute value.
//!
//! Of places and names: a tree is found again at its place; a name that is given to a term stands
//! for the term, and its use judges again just the terms that were judged in it.
//!
//! Of judging in one pass: reading the tokens of a term with a stack gives what judging it gives.
//! What a term has free is what it uses; the forms of `let` and of annotations are read token by
//! token; definitions' trees are noted once.
#![tactic(auto)]

mod clauses;
mod flat;
mod kinds;
mod language;
mod linear;
mod sorts;
mod terms;
mod walk;

pub use clauses::{
    division_clauses_are_true, division_rows_force, division_rows_hold, divisions_stand_by_places,
    divisor_is_its_number, empty_clause_shows_no_model, limits_have_values, linear_form_has_value,
    name_stands_for_term, normal_bound_has_value, resolvent_follows, rows_are_of_the_term,
    still_follows_above, still_follows_after_declared, still_follows_after_more,
    still_follows_after_pop, still_follows_after_push, still_follows_with_trees,
    tree_is_found_again,
};
pub use flat::flat_says_the_same;
pub use kinds::propositional_has_no_integers;
pub use language::{
    assumptions_are_a_level, assumptions_are_commands, assumptions_go, mode_holds,
    numbers_are_written, one_reply, refusal_changes_nothing, text_ends_in_one_line,
};
pub use linear::{
    assertions_are_linear, folded_forms_fit, leaves_are_among_the_trees, leaves_are_parts,
    numerals_are_in_range, placed_forms_fit, symbols_are_given, trees_are_linear,
};
pub use sorts::{
    accepted_term_has_its_sort, assertions_are_truths, assertions_are_truths_at_their_levels,
    parts_are_among_the_trees, sorts_are_the_same_below, symbols_are_declared, trees_are_in_order,
};
pub use terms::{
    body_has_the_terms_value, judged_again, no_id_twice, operation_has_sort, operation_has_value,
    operation_is_linear, questions_are_assertions, s_expressions_read_back, tables_interpret,
    tokens_read_back, tree_equality_decides, tree_has_the_terms_value, trees_are_s_expressions,
    value_depends_on_symbols, value_has_its_sort,
};
pub use walk::{
    annotation_form_is_read, annotation_form_stays, closed_trees_stay, definitions_are_noted_once,
    free_is_used, let_form_is_read, let_form_stays, nothing_is_free, others_are_left_out,
    parts_are_visited, roots_note_all, stored_trees_stay, walk_gives_the_judgement,
};
