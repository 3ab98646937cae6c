//! What a search is about, and what it keeps.
use crate::held::Held;
use atom_form::AtomNumbers;
use closure_log::Guide;
use fraction128::Line;
use linear_forms::LinearForms;
use scope_stack::Stack;
use smt_meaning::{RangeSeen, Seq, TermId};
use std::alloc::Global;

/// The parts of a stack.
#[derive(Drop)]
pub(crate) struct Parts<'s> {
    pub alloc: Global,
    pub stack: &'s Stack,
    /// Which terms are parts of the assertions, by their places.
    pub marks: Vec<bool>,
    /// The parts that are wide `xor`s, which have no first clauses.
    pub wide_xors: Vec<TermId>,
    /// The assertions that are a wide `distinct`, whose arguments have no atoms for each two.
    pub wide_distincts: Vec<TermId>,
    pub guide: Guide,
}

/// Two Ints whose equality is to get a number.
#[derive(Clone, Copy, PartialEq, Eq, Drop)]
pub(crate) struct Pair {
    pub left: TermId,
    pub right: TermId,
}

/// How far a search over the parts has come.
#[derive(Drop)]
pub(crate) struct Progress {
    pub forms: LinearForms,
    pub atoms: AtomNumbers,
    /// How many atoms had numbers when the search stopped, since when nothing is told or numbered: memory was wanting for an atom or a unit, or the bound of an atom
    /// left the range.
    pub stopped_at: Option<u32>,
    pub held: Held,
    /// Pairs whose equalities are to get numbers.
    pub pairs: Vec<Pair>,
    /// The rows of the branches, oldest first.
    pub branches: Seq<Line>,
    /// Where a number left the range, if that ended the search.
    pub seen: Option<RangeSeen>,
}
