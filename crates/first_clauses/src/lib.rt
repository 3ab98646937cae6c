//! The first clauses of a search over a stack: those that say of each part what its operator does,
//! that the assertions are true, and how the bounds of its atoms are ordered.
//!
//! A first clause is over the numbered atoms and follows from the stack. That each assertion is
//! true is one of them, and together they force the clauses of every part.
//!
//! `check_clauses`: in the store that a search begins with each clause follows, also that two
//! equalities of a triangle give the third. Each assertion is one, of each part the clauses of its
//! operator are kept, the longer ones with what negations negate, and together they force every
//! node clause of every part. Where there is such a triangle, and both cases of a disjunction lead
//! from one term to the same other, there is a clause that it makes them equal.
//!
//! `first_clauses_say_standing`: what makes them true has a bound of each list that stands whatever is
//! decided, the bounds that conjuncts of assertions say and the clauses of divisions.
//!
//! `first_clauses_decide_parts`: a full log that makes them true gives each node of Bools the truth
//! value that its operator makes of those that it gives the arguments, and makes the clauses of the
//! other parts true. `first_clauses_agree`: this and what stands are what a theory is told at its
//! last check. `parts_hold_of_each`: the parts are decided of each stack with the same terms and
//! levels, whichever the theory has.
//!
//! `check_clauses_counted`: the same, with a count of steps, one for each part and one for each pair
//! that a `distinct` among them compares: where the clauses come, exactly as many as there are parts
//! and pairs that they are over.
//!
//! `keep_axioms`: the axioms of the bounds of a check stand among its first clauses; what is kept
//! still follows, what was kept stays, and what forced the clauses of the parts still does.
//!
//! `keep`, `keep_all`: a clause is kept, and what was kept stays.
#![tactic(auto)]

mod bools;
mod clauses;
mod diamonds;
mod error;
mod kept_axioms_keep;
mod laws;
mod nodes;
mod storing;
mod triangles;
mod turn;

pub use clauses::{check_clauses, check_clauses_counted};
pub use kept_axioms_keep::keep_axioms;
pub use laws::{
    empty_clause_means_no_model, first_clauses_agree, first_clauses_decide_parts,
    first_clauses_say_assertions, first_clauses_say_standing, kept_parts_are_forced,
    more_force_parts, negations_are_decided, parts_hold_of_each, signature_stays,
    steps_are_counted,
};
pub use storing::{keep, keep_all};
