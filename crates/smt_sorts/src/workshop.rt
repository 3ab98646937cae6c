//! The terms of a definition, as they were judged.
//!
//! Why the newest definition's store is kept beside the table of names until the next definition or
//! a refusal: a body that uses that definition with the new one's own parameters in order, where
//! the terms that it stored before are the first ones of that definition's (they are compared node
//! by node), goes on in this store, and its terms are those of that definition and then its own. So
//! a chain of such definitions, as `(+ 1 d)`, costs little more than its length (a node is copied
//! at most about as often as its number has bits).
use smt_meaning::{SymId, Terms};
use term_store::TermStore;

/// The store in which the body of a definition was judged, its terms, how many parameters it has, and whether its term is built from numerals,
/// `+`, `-` and `*` alone, and has no product of two factors that are not.
#[derive(Drop)]
pub struct Workshop {
    pub store: TermStore,
    pub terms: Terms,
    pub parameters: u32,
    pub constant: bool,
    pub linear: bool,
}

/// What is kept of the judgement of the definition with this id.
#[derive(Drop)]
pub struct Kept {
    pub id: SymId,
    pub workshop: Workshop,
}
