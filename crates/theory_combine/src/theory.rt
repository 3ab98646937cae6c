//! The theory.
ghost use Rattle.std.specs.Prelude.{Contains, IfSome, IfNone};
ghost use Rattle.atom_form.specs.AtomTableNumbers.{IsAt};

use crate::calls::{check, look, tell, undo_to};
use crate::errors::BoundError;
use crate::parts::{Parts, Progress};
use crate::showing::{show, written};
use crate::start::{Begun, begin};
use atom_form::{AtomNumbers, CompactAtom};
use check_atoms::CheckAtoms;
use closure_log::{asserted_distincts, wide_xors};
use literals::Literal;
use scope_stack::Stack;
use search_port::{Asserted, Budget, Checked, Inferred, Named, Showing, Shown, Theory};
use smt_meaning::{Atom, Seq, TermId};
use std::alloc::{AllocError, Global};
use std::marker::Model;

/// The theory of equality and of whole numbers together, for the parts of a stack.
#[derive(Drop)]
pub struct Combined<'s> {
    parts: Parts<'s>,
    progress: Progress,
}

impl<'s> Model for Combined<'s> {
    ghost use Rattle.search_port.specs.State.{TheoryState};
    ghost use Rattle.theory_combine.specs.Progress.{full_state, AreParts, IsProgress};
    ghost use Rattle.theory_combine.specs.StateCode.{state_code};

    ghost Value = { TheoryState };

    ghost coded = { state_code };

    ghost view = { λ c. full_state c.parts c.progress };

    ghost invariant = { λ c. AreParts c.parts × IsProgress c.parts c.progress };
}

impl<'s> Combined<'s> {
    ghost use Rattle.std.specs.Prelude.{◌≡◌, [], None, IfOk, IfErr};
    ghost use Rattle.fraction128.specs.Lines.{first_basis};
    ghost use Rattle.search_port.specs.Pivots.{AreBasic, ArePivots};
    ghost use Rattle.check_atoms.specs.Marks.{AreStackParts};
    ghost use Rattle.check_atoms.specs.OfStack.{AreCheckAtoms};
    ghost use Rattle.linear_forms.specs.Table.{AreForms};
    ghost use Rattle.closure_log.specs.Seen.{state_of};
    ghost use Rattle.closure_log.specs.Distinct.{AreAssertedDistincts};
    ghost use Rattle.closure_log.specs.Parts.{AreWideXors};
    ghost use Rattle.theory_combine.specs.Begin.{IsBegun};
    ghost use Rattle.theory_combine.specs.Columns.{variables_of};
    ghost use Rattle.theory_combine.specs.Errors.{IsErrorSeen};

    /// The theory of what is begun.
    fn start(
        alloc: Global,
        stack: &'s Stack,
        parts: CheckAtoms,
        wide_xors: Vec<TermId>,
        wide_distincts: Vec<TermId>,
        begun: Begun,
    ) -> Self
        requires forms { AreForms stack.now.trees parts.forms }
        requires wide_xors { AreWideXors stack.now.trees parts.marks.items wide_xors.items }
        requires wide_distincts { AreAssertedDistincts stack.now wide_distincts.items }
        requires begun { IsBegun stack.now parts.marks.items parts.atoms begun }
        ensures { result ≡ record (state_of stack.now parts.atoms.atoms []) { variables = variables_of None begun.held.bounds } }
    {
        Combined {
            parts: Parts {
                alloc,
                stack,
                marks: parts.marks,
                wide_xors,
                wide_distincts,
                guide: begun.guide,
            },
            progress: Progress {
                forms: parts.forms,
                atoms: parts.atoms,
                stopped_at: None,
                held: begun.held,
                pairs: Vec::new(alloc),
                branches: Seq::new(alloc),
                seen: None,
            },
        }
    }

    /// Nothing is told of the parts of a stack and their atoms, and no pivot was made. An `Err` is for want of memory, of which a stack of 2^32 - 3 terms or more leaves none, or shows
    /// that a row of an atom leaves the range.
    pub fn new(alloc: Global, stack: &'s Stack, parts: CheckAtoms) -> Result<Self, BoundError>
        requires marks { AreStackParts stack.now parts.marks.items }
        requires atoms { AreCheckAtoms stack.now parts.marks.items parts.atoms.atoms }
        requires forms { AreForms stack.now.trees parts.forms }
        ensures reading { IfOk result (λ theory. theory.reading ≡ (state_of stack.now parts.atoms.atoms []).reading) }
        ensures log { IfOk result (λ theory. theory.log ≡ []) }
        ensures basis { IfOk result (λ theory. AreBasic (first_basis theory.variables.sums) theory.variables) }
        ensures pivots { IfOk result (λ theory. ArePivots theory []) }
        ensures err { IfErr result (IsErrorSeen stack.now) }
    {
        let wide_xors = wide_xors(alloc, stack, &parts.marks)?;
        let wide_distincts = asserted_distincts(alloc, stack)?;
        match begin(alloc, stack, &parts.marks, &parts.atoms) {
            Ok(begun) => Ok(Combined::start(alloc, stack, parts, wide_xors, wide_distincts, begun)),
            Err(error) => Err(error),
        }
    }
}

impl<'s> Theory for Combined<'s> {
    ghost use Rattle.first_clauses.specs.Holding.{IsAgreed};
    ghost use Rattle.theory_combine.specs.Combined.{TakesAll};

    ghost state = { λ s. s };

    ghost takes = { λ s. TakesAll };

    ghost agrees = { λ r log. IsAgreed r log };

    fn atoms(&self) -> u32 {
        match self.progress.stopped_at {
            None => self.progress.atoms.len() as u32,
            Some(count) => count,
        }
    }

    fn asserted(&self) -> usize {
        self.progress.held.closure.log.len()
    }

    fn assert(&mut self, literal: Literal) -> Asserted {
        tell(&self.parts, &mut self.progress, literal)
    }

    fn propagate(&mut self, budget: &mut Budget) -> Inferred {
        look(&self.parts, &mut self.progress, budget)
    }

    fn final_check(&mut self, budget: &mut Budget) -> Checked {
        check(&self.parts, &mut self.progress, budget)
    }

    fn undo_to(&mut self, count: usize) {
        undo_to(&self.parts, &mut self.progress, count)
    }
}

/// The number of an atom, if it has one.
fn find(atoms: &AtomNumbers, atom: &Atom) -> Option<u32>
    ensures some { IfSome result (λ k. IsAt atoms.now.atoms k atom.now) }
    ensures none { IfNone result (Contains atoms.now.atoms atom.now → ⊥) }
{
    match atom {
        Atom::Truth(place) => atoms.find(CompactAtom::Truth(*place)),
        Atom::Same(left, right) => atoms.find(CompactAtom::Same(*left, *right)),
        Atom::AtMost(sum, threshold) => atoms.find_bound(sum.as_slice(), *threshold),
    }
}

impl<'s> Named for Combined<'s> {
    fn atom(&self, alloc: Global, number: u32) -> Result<Atom, AllocError> {
        written(alloc, &self.parts, &self.progress, number)
    }

    fn number(&self, atom: &Atom) -> Option<u32> {
        self.progress.atoms.are_apart();
        let number = find(&self.progress.atoms, atom)?;
        if number < self.atoms() {
            Some(number)
        } else {
            None
        }
    }
}

impl<'s> Shown for Combined<'s> {
    fn show(self) -> Showing {
        let Combined { parts, progress } = self;
        show(&parts, progress)
    }
}
