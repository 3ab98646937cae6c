//! The trait of theories: what a search tells a theory, asks of it, and may believe.
ghost use Rattle.std.specs.Prelude.{◌≡◌, ℕ, ◌<◌, ◌≤◌, List, All, take, length};
ghost use Rattle.smt_meaning.specs.declared.clauses.Atom.{Atom};
ghost use Rattle.search_port.specs.State.{IsConsistent, IsFull, IsOpenIn, Reading, TheoryState};
ghost use Rattle.search_port.specs.Calls.{AssertedBy, CheckedBy, Goes, InferredBy};
ghost use Rattle.search_port.specs.Pivots.{KeepsPivots};
ghost use Rattle.literals.specs.Signed.{Signed};

use crate::budget::{Budget, Cause, Lemma};
use literals::Literal;
use smt_meaning::{Interp, Seq};

/// What a theory answers to a literal.
#[derive(Drop)]
pub enum Asserted {
    /// The literal is among those asserted.
    Taken,
    /// So it is, and a clause of the theory is false.
    Conflict(Lemma),
    /// The literal isn't taken.
    Ended(Cause),
}

/// What a theory finds between decisions.
#[derive(Drop)]
pub enum Inferred {
    /// Nothing.
    Quiet,
    /// A clause that is false.
    Conflict(Lemma),
    /// Clauses, one of which is false or has one open literal alone that isn't.
    Lemmas(Seq<Lemma>),
    /// It didn't come to its end.
    Ended(Cause),
}

/// What a theory finds where every atom has a truth value.
#[derive(Drop)]
pub enum Checked {
    /// Tables that make each asserted literal true, and under which every number in an assertion is in the range.
    Fine(Interp),
    /// A clause that is false.
    Conflict(Lemma),
    /// Clauses, one of which isn't made true.
    Lemmas(Seq<Lemma>),
    /// It didn't come to its end.
    Ended(Cause),
}

/// A theory beside the clauses: it is told literals in order, and finds conflicts, lemmas and models.
pub trait Theory: Drop {
    /// What it is about, the literals asserted, and the variables of its grid.
    ghost state: { Self → TheoryState };

    /// The atoms that it takes.
    ghost takes: { Self → Atom → Type 0 };

    /// When a full log agrees with the terms.
    ghost agrees: { Reading → List Signed → Type 0 };

    /// How many atoms are numbered. The theory takes each of them.
    fn atoms(&self) -> u32
        ensures atoms { result ≡ length (state self.now).reading.table }
        ensures taken { All (takes self.now) (state self.now).reading.table };

    /// How many literals are asserted.
    fn asserted(&self) -> usize
        ensures { result ≡ length (state self.now).log };

    /// Tells it one literal more.
    fn assert(&mut self, literal: Literal) -> Asserted
        requires numbered { literal.atom < length (state self.old).reading.table }
        requires open { IsOpenIn (state self.old).log literal }
        ensures { AssertedBy (state self.old) (state self.new) literal result };

    /// Asks for what it finds early. Quiet promises nothing.
    fn propagate(&mut self, budget: &mut Budget) -> Inferred
        ensures goes { Goes (state self.old) (state self.new) budget.old budget.new }
        ensures pivots { KeepsPivots (state self.old) (state self.new) budget.old budget.new }
        ensures found { InferredBy (state self.new) budget.old budget.new result };

    /// Asks for a model, or for what forbids one.
    fn final_check(&mut self, budget: &mut Budget) -> Checked
        requires full { IsFull (state self.old).reading (state self.old).log }
        requires consistent { IsConsistent (state self.old).log }
        requires agreed { agrees (state self.old).reading (state self.old).log }
        ensures goes { Goes (state self.old) (state self.new) budget.old budget.new }
        ensures pivots { KeepsPivots (state self.old) (state self.new) budget.old budget.new }
        ensures found { CheckedBy (state self.new) budget.old budget.new result };

    /// Takes back the newest literals, and keeps so many.
    fn undo_to(&mut self, count: usize)
        requires { count ≤ length (state self.old).log }
        ensures { state self.new ≡ record (state self.old) { log = take count (state self.old).log } };
}
