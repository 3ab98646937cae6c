//! The terms of a run, each stored once. A term is seen as a tree, and named by its place in the
//! one list of trees; so the term store also files names by their hashes, and says whether a list
//! has room for more.
//!
//! `TermStore::new`, `intern`, `node`, `len`, `cut`: one id for one tree, arguments before the
//! term. `Full` exactly where the limit is reached and the term isn't there; after want of memory
//! the store is as before.
//!
//! `Rows`: a list of rows, each a head and a list of numbers, with all the numbers in one list.
//!
//! `find`, `hash`, `Named`: of items whose names' hashes are filed in order, the place of the last
//! one of a name, or that none has it; equal names have one hash.
//!
//! `is_divisor`, `is_quotient_of`: whether a stored term is a numeral other than 0 or the negation
//! of one, and whether it is the quotient of one stored term by another.
//!
//! `Steps`: how many steps calls over terms took, as clauses can bound it; it has no bytes.
//!
//! `terms_join_alike`, `questions_join_alike`, `lacks_room`: a term comes to the same sort and
//! tree, or the same refusal, whatever terms were judged before, and those that it goes through
//! join them in order; whether a list of terms lacks the room for others.
#![tactic(auto)]

ghost use Rattle.term_store.specs.Alike.{TermsJoinAlike, QuestionsJoinAlike};

mod divisors;
mod index;
mod lookup;
mod places;
mod room;
mod rows;
mod steps;
mod store;
mod term_store_hash;

pub use divisors::{is_divisor, is_quotient_of};
pub use index::HashIndex;
pub use lookup::{Named, find, hash};
pub use places::chosen;
pub use room::lacks_room;
pub use rows::Rows;
pub use steps::Steps;
pub use store::{InternError, Node, TermStore};
pub use term_store_hash::{mix, mix_value};

/// A term has the same sort and tree, or the same refusal, whatever terms were judged before, and what is judged on the way joins them in order.
pub fn terms_join_alike()
    ensures { TermsJoinAlike }
{}

/// The same of several terms, one after another.
pub fn questions_join_alike()
    ensures { QuestionsJoinAlike }
{}
