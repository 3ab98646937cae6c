//! Sums, atoms, literals and clauses.
//!
//! Why the atoms of a check are wider than those of the stack: any two parts of the assertions of
//! one sort may be compared, not those of Int alone, since a search over uninterpreted sorts
//! numbers such equalities too.
use crate::seq::Seq;
use crate::terms::TermId;

/// The number of an atom, in the order in which atoms were numbered, from 0.
pub type AtomId = u64;

/// The number of a clause that is kept.
pub type ClauseId = u64;

/// A coefficient and the Int term that it multiplies.
#[derive(Clone, Copy, PartialEq, Eq, Drop)]
pub struct Summand {
    pub coefficient: i128,
    pub term: TermId,
}

/// A sum of coefficients times terms.
pub type Sum = Seq<Summand>;

/// An atom over the places of a list of terms.
#[derive(Drop)]
pub enum Atom {
    /// The value of a Bool term.
    Truth(TermId),
    /// The sum is at most the number.
    AtMost(Sum, i128),
    /// The two terms have the same value.
    Same(TermId, TermId),
}

/// An atom, or its negation.
#[derive(Drop)]
pub struct Literal {
    pub atom: Atom,
    pub positive: bool,
}

/// A disjunction of literals, with the level of the stack from which it follows.
#[derive(Drop)]
pub struct Clause {
    pub literals: Seq<Literal>,
    pub level: u16,
}
