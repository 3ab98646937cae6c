//! The events of a race.
//!
//! Why a premise is told by two numbers: a premise of a learnt clause that is an assertion is named
//! by its level and its place there, so that equal texts of two levels are told apart. In a run the
//! list of terms may go on from one race to the next; a clause reads the same.
use smt_meaning::{Clause, Declaration, SExpr, Seq, TermId};

/// A clause that a worker shared.
#[derive(Drop)]
pub struct Entry {
    pub clause: Clause,
    pub worker: u8,
}

/// What a learnt clause rests on.
#[derive(Drop)]
pub enum Premise {
    /// A clause of the worker's own.
    Known(Clause),
    /// The assertion of a level, by its place there.
    Asserted(u16, u64),
}

/// A term as written, and the place of its tree.
#[derive(Drop)]
pub struct Formula {
    pub text: SExpr,
    pub term: TermId,
}

/// What joins the newest level: declarations and definitions, and perhaps an assertion with the names that it gives. Where declarations are global, level 0 gains the declarations and definitions.
#[derive(Drop)]
pub struct Addition {
    pub declared: Seq<Declaration>,
    pub formula: Option<Formula>,
    pub named: Seq<Declaration>,
}

/// What happens in a race. The first number is the worker's.
#[derive(Drop)]
pub enum Event {
    /// The worker derives a clause from premises.
    Learn(u8, Seq<Premise>, Clause),
    /// It puts a clause of its own among the entries.
    Share(u8, Clause),
    /// It takes the entries from its mark on among its own clauses.
    TakeBatch(u8),
    /// It has the answer, as the first.
    Win(u8),
    /// It stops.
    End(u8),
    /// So many empty levels are added.
    Push(u16),
    /// So many levels go.
    Pop(u16),
    /// The newest level gains, or level 0 and it.
    Assert(Addition),
}
