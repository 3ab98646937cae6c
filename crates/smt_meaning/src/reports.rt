//! What a worker shows that ended without an answer: its units, or where a number left the range.
//!
//! The types of reports have the words about integers (pivots, numbers that left the range,
//! branches), each with its definition; those of the search have them when a theory says them. A
//! cancelled worker's end has no word in a report, since no `unknown` may rest on it.
//!
//! A report of want of memory is free in its branches too. Those of units and of ranges are rows
//! over the atoms before each.
//!
//! Why "isn't forced" is said of every list of clauses of the kinds that are given, and not of one
//! list of all of them: propagation from more clauses reaches at least as much, so both say the
//! same, and this form needs no list of all node clauses of a stack. A unit's place in its list is
//! said by what stands before it and behind it, so that one more unit is one more fact.
//!
//! Why a pivot isn't taken back by the next one: the pivots of a report go on from one basis: the
//! first from the basis in which each variable of a sum that isn't a term alone is basic, each
//! other from the one that the pivots before it in the list of units left, also where other units
//! stand between. So two neighbours never are of one row. Where none stands between, each begins
//! from the grid that the one before it left: variables keep their values and rows but for moves to
//! bounds that were taken in, no bound is loosened, and variables may come after the others.
//!
//! A grid that shows a step out of the range has columns for leaves of the assertions and for sums
//! of atoms of the check, or their negations, and the bound that waits is on an atom of the check.
use crate::clauses::{Atom, Clause};
use crate::seq::Seq;
use crate::terms::TermId;
use crate::values::Interp;
use fraction128::{Grid, Line};

/// A unit of a worker's work, by which the work of a check is limited.
#[derive(Drop)]
pub enum Unit {
    /// It learnt a clause.
    Learnt(Clause),
    /// It numbered an atom.
    Numbered(Atom),
    /// It made a pivot, of which this is the row before it.
    Pivot(Line),
}

/// Where a number left the range.
#[derive(Drop)]
pub enum RangeSeen {
    /// Folding this part, or a pair that it compares, or a clause of a division.
    Coefficient(TermId),
    /// Folding the difference of these two Int parts.
    Pair(TermId, TermId),
    /// The value of this argument of an application, where the leaves have the grid's values.
    Argument(TermId, Grid),
    /// The next step of the grid.
    Step(Grid),
    /// The value of this part under tables that make each assertion true, where the grid gives the leaves their values.
    Model(Interp, TermId, Grid),
}

/// Why a worker ended without an answer.
#[derive(Drop)]
pub enum Cause {
    /// It had spent these units, oldest first, and might spend no more.
    Units(Seq<Unit>),
    /// A number left the range.
    Range(RangeSeen),
    /// Memory was wanting.
    Memory,
}

/// What a worker shows that ended without an answer.
#[derive(Drop)]
pub struct Report {
    /// Counted from 0.
    pub worker: u8,
    pub cause: Cause,
    /// The rows at which it branched, oldest first.
    pub branches: Seq<Line>,
}
