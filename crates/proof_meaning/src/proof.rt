//! Proofs: terms, and steps that each give a clause.
//!
//! Why terms are told apart as they are: a term may stand twice among a proof's terms, and literals
//! are compared by the numbers of terms. The leaf of a linear form is the first term that is the
//! same tree. The heads of a proof's terms are operators, declared symbols, numerals up to 2^127 -
//! 1 and `(_ divisible n)`; definitions and names are put in before, so none is a head. The numbers
//! of terms and of steps have no range: one that is too large to be any is simply not there, and
//! the step isn't by its rule.
//!
//! Why a clause's form is free: it is a set, so what `res` gives may list its literals in any order
//! and more than once, and the literal that is resolved on is gone from both sides. `(not ..)`
//! stands around an atom alone. A step's clause must be over the proof's terms, of the right sorts:
//! `(refl i)` with no term i, or `(sym i j)` of two sorts, isn't by its rule; `cong` asks for one
//! head and as many arguments.
//!
//! Why bounds have more than one form: the summands of a bound may stand in any order, and the
//! literal is the one with its leaves ascending; no leaf stands twice, no coefficient is 0, and `(-
//! 0)` isn't a number as values print. The bounds of `link` are the difference as it is folded, not
//! divided; those that are parts of a comparison are in normal form, divided and rounded. `round`
//! and `farkas` lead from one to the other. The multipliers of `farkas` are fractions, not
//! necessarily in lowest terms; the definition has them as whole weights over one denominator, so
//! that it speaks of whole numbers alone.
use smt_meaning::{Literal, Node, Seq, TermId};

/// The number of a step of a proof, from 0.
pub type StepId = u64;

/// A literal on a sum, with the multiplier of its bound: a numerator and a denominator, both above 0.
#[derive(Drop)]
pub struct Weighted {
    pub numerator: u128,
    pub denominator: u128,
    pub literal: Literal,
}

/// A step of a proof. Terms are named by their numbers in the proof, clauses by the numbers of the steps that gave them.
#[derive(Drop)]
pub enum Step {
    /// `(assert a i)`: the assertion of this number, from 0 and level 0, is the term.
    Assert(u64, TermId),
    /// `(form i L ..)`: what the truth values of a term's parts say of its own.
    Form(TermId, Seq<Literal>),
    /// `(pick i n)`: an `ite` is its first branch, or its second.
    Pick(TermId, u64),
    /// `(euclid i n)`: a clause of the table of divisions.
    Euclid(TermId, u64),
    /// `(refl i)`
    Refl(TermId),
    /// `(sym i j)`
    Sym(TermId, TermId),
    /// `(trans i j k)`
    Trans(TermId, TermId, TermId),
    /// `(cong i j)`: applications of one head.
    Cong(TermId, TermId),
    /// `(truth i j)`: of equal Bools the second is true where the first is.
    Truth(TermId, TermId),
    /// `(both i j)`: two Bools that are true are equal.
    Both(TermId, TermId),
    /// `(none i j)`: two Bools that are false are equal.
    Neither(TermId, TermId),
    /// `(link i j n)`: an equality of Ints and a bound on their difference.
    Link(TermId, TermId, u64),
    /// `(round L g)`: a bound divided by a number.
    Round(Literal, u128),
    /// `(farkas (m L) ..)`: bounds whose multiples add up to a contradiction.
    Farkas(Seq<Weighted>),
    /// `(res p q L)`: resolution on a literal.
    Res(StepId, StepId, Literal),
}

/// A proof: terms, each after its arguments, and steps, each after those that it names.
#[derive(Drop)]
pub struct Proof {
    pub nodes: Seq<Node>,
    pub steps: Seq<Step>,
}
