//! Terms that are equal or differ, each for a reason.
ghost use Rattle.std.specs.Prelude.{◌≡◌, ◌+◌, ◌<◌, ◌≤◌, ◌^◌, [], length, take, List, OnOk, IfOk, IfSome, IfNone, IsTrue, ◌↔◌};

use crate::explanation::Explanation;
use crate::reading::{arguments_of, shape_of};
use crate::reasons::{add_negations, each_once, keep_each_once, put_reasons};
use literals::Literal;
use point_closure::{Closure, Explainer, Shape, Step, Watch, equal_points_have_one_value};
use smt_meaning::TermId;
use std::alloc::{AllocError, Global};
use term_store::TermStore;

/// What was recorded of terms, and what follows from it. The truth values are points 0 and 1, the term at place t is point t + 2.
#[derive(Drop)]
pub struct Congruence {
    pub closure: Closure,
    /// The reason of each step.
    pub reasons: Vec<Literal>,
    scratch: Vec<u32>,
}

impl Congruence {
    ghost use Rattle.smt_meaning.specs.Term.{Tree};
    ghost use Rattle.point_closure.specs.Closure.{AreRead};
    ghost use Rattle.point_closure.specs.Whole.{IsWithin};
    ghost use Rattle.congruence.specs.Reading.{AreSeen};
    ghost use Rattle.congruence.specs.Recorded.{IsRecorded, AddsStep};

    /// Nothing is read, nothing recorded.
    pub fn new(alloc: Global) -> Result<Self, AllocError>
        ensures recorded { IfOk result IsRecorded }
        ensures first { IfOk result (λ c. c.closure.steps.items ≡ []) }
        ensures read { IfOk result (λ c. (ts : List Tree) → AreRead ts c.closure.graph) }
        ensures seen { IfOk result (λ c. (ts : List Tree) → AreSeen ts c.closure.graph) }
        ensures count { IfOk result (λ c. length c.closure.graph ≡ 2) }
    {
        let mut closure = Closure::new(alloc);
        closure.add(Shape::Truth(true), &[])?;
        closure.add(Shape::Truth(false), &[])?;
        Ok(Congruence {
            closure,
            reasons: Vec::new(alloc),
            scratch: Vec::new(alloc),
        })
    }

    /// Reads the next term. An `Err` changes nothing.
    fn read_term(&mut self, store: &TermStore, term: TermId) -> Result<(), AllocError>
        requires recorded { IsRecorded self.old }
        requires first { self.old.closure.steps.items ≡ [] }
        requires read { AreRead store.now.trees self.old.closure.graph }
        requires seen { AreSeen store.now.trees self.old.closure.graph }
        requires next { length self.old.closure.graph ≡ term + 2 }
        requires within { term < length store.now.trees }
        requires few { length store.now.trees + 2 < 2 ^ 32 }
        ensures recorded { IsRecorded self.new }
        ensures first { self.new.closure.steps.items ≡ [] }
        ensures read { AreRead store.now.trees self.new.closure.graph }
        ensures seen { AreSeen store.now.trees self.new.closure.graph }
        ensures ok { OnOk result (length self.new.closure.graph ≡ term + 3) }
    {
        let node = store.node(term);
        let shape = shape_of(node.head, !node.arguments.is_empty());
        arguments_of(&mut self.scratch, shape, node.arguments)?;
        self.closure.add(shape, &self.scratch)?;
        Ok(())
    }

    /// Reads the terms of the store that weren't read yet. It has no step yet. An `Err` keeps what was read.
    pub fn read(&mut self, store: &TermStore) -> Result<(), AllocError>
        requires recorded { IsRecorded self.old }
        requires first { self.old.closure.steps.items ≡ [] }
        requires read { AreRead store.now.trees self.old.closure.graph }
        requires seen { AreSeen store.now.trees self.old.closure.graph }
        requires few { length store.now.trees + 2 < 2 ^ 32 }
        ensures recorded { IsRecorded self.new }
        ensures first { self.new.closure.steps.items ≡ [] }
        ensures read { AreRead store.now.trees self.new.closure.graph }
        ensures seen { AreSeen store.now.trees self.new.closure.graph }
        ensures ok { OnOk result (length store.now.trees + 2 ≤ length self.new.closure.graph) }
    {
        let count = store.len() as usize + 2;
        'terms: while self.closure.len() < count {
            let term = self.closure.len() - 2;
            self.read_term(store, term as u32)?;
        }
        Ok(())
    }

    /// Records a step with its reason. An `Err` changes nothing.
    pub fn record(&mut self, step: Step, reason: Literal) -> Result<(), AllocError>
        requires recorded { IsRecorded self.old }
        requires within { IsWithin (length self.old.closure.graph) step }
        ensures { AddsStep self.old self.new step reason result }
    {
        self.reasons.push(reason)?;
        if self.closure.record(step).is_err() {
            let _ = self.reasons.pop();
            return Err(AllocError);
        }
        Ok(())
    }

    /// Takes back all steps but the first.
    pub fn undo_to(&mut self, depth: usize)
        requires recorded { IsRecorded self.old }
        ensures recorded { IsRecorded self.new }
        ensures graph { self.new.closure.graph ≡ self.old.closure.graph }
        ensures steps { self.new.closure.steps.items ≡ take depth self.old.closure.steps.items }
        ensures reasons { self.new.reasons.items ≡ take depth self.old.reasons.items }
    {
        self.closure.undo_to(depth);
        self.reasons.truncate(depth);
    }
}

impl Congruence {
    ghost use Rattle.smt_meaning.specs.Term.{Tree};
    ghost use Rattle.point_closure.specs.Closure.{AreRead, Equal};
    ghost use Rattle.point_closure.specs.Explained.{merged};
    ghost use Rattle.point_closure.specs.Whole.{AreStepsApart};
    ghost use Rattle.congruence.specs.Reasons.{AreReasonsOf, IsTruthConflict, IsStepConflict, IsDiffering, NoneTwice};
    ghost use Rattle.congruence.specs.Recorded.{IsRecorded, AreEqualTerms, HaveOneValue, IsConsistent, IsConflict};

    /// Whether the merges make two terms equal.
    pub fn same(&self, left: TermId, right: TermId) -> bool
        requires recorded { IsRecorded self.now }
        requires left { left + 2 < length self.now.closure.graph }
        requires right { right + 2 < length self.now.closure.graph }
        ensures equal { IsTrue result ↔ AreEqualTerms self.now left right }
        ensures values { IsTrue result → (ts : List Tree) → AreRead ts self.now.closure.graph → HaveOneValue ts self.now left right }
    {
        equal_points_have_one_value();
        self.closure.same(left + 2, right + 2)
    }

    /// Finds the reasons of merges that give the equality of two points, each once. An `Err` is for want of memory.
    pub fn explain_points(
        &self,
        explanation: &mut Explanation,
        left: u32,
        right: u32,
    ) -> Result<(), AllocError>
        requires recorded { IsRecorded self.now }
        requires left { left < length self.now.closure.graph }
        requires right { right < length self.now.closure.graph }
        requires equal { Equal self.now.closure.graph (merged self.now.closure.steps.items) left right }
        ensures { OnOk result (AreReasonsOf self.now.closure.graph self.now.closure.steps.items self.now.reasons.items left right explanation.new.reasons.items) }
    {
        self.closure
            .explain(&mut explanation.explainer, left, right)?;
        put_reasons(
            &mut explanation.reasons,
            &self.reasons,
            &explanation.explainer.steps,
        )?;
        keep_each_once(&mut explanation.reasons);
        Ok(())
    }

    /// Finds the reasons of merges that give the equality of two terms, each once. An `Err` is for want of memory.
    pub fn explain(
        &self,
        explanation: &mut Explanation,
        left: TermId,
        right: TermId,
    ) -> Result<(), AllocError>
        requires recorded { IsRecorded self.now }
        requires left { left + 2 < length self.now.closure.graph }
        requires right { right + 2 < length self.now.closure.graph }
        requires equal { AreEqualTerms self.now left right }
        ensures { OnOk result (AreReasonsOf self.now.closure.graph self.now.closure.steps.items self.now.reasons.items (left + 2) (right + 2) explanation.new.reasons.items) }
    {
        self.explain_points(explanation, left + 2, right + 2)
    }

    /// Why the truth values can't be equal.
    fn truth_conflict(
        &self,
        alloc: Global,
        explainer: &mut Explainer,
    ) -> Result<Vec<Literal>, AllocError>
        requires recorded { IsRecorded self.now }
        requires equal { Equal self.now.closure.graph (merged self.now.closure.steps.items) 0 1 }
        ensures is { IfOk result (λ v. IsTruthConflict self.now.closure.graph self.now.closure.steps.items self.now.reasons.items v.items) }
        ensures once { IfOk result (λ v. NoneTwice v.items) }
    {
        self.closure.explain(explainer, 0, 1)?;
        let mut clause = Vec::new(alloc);
        add_negations(&mut clause, &self.reasons, &explainer.steps)?;
        Ok(each_once(clause))
    }

    /// The first step that keeps equal points apart.
    fn first_differing(&self) -> Option<Watch>
        requires recorded { IsRecorded self.now }
        ensures some { IfSome result (IsDiffering self.now.closure.graph self.now.closure.steps.items) }
        ensures none { IfNone result (AreStepsApart self.now.closure.graph self.now.closure.steps.items) }
    {
        let pair = self.closure.met().first()?;
        Some(self.closure.pairs[*pair as usize])
    }

    /// Why the points of a step that keeps them apart can't be equal.
    fn step_conflict(
        &self,
        alloc: Global,
        explainer: &mut Explainer,
        found: Watch,
    ) -> Result<Vec<Literal>, AllocError>
        requires recorded { IsRecorded self.now }
        requires differing { IsDiffering self.now.closure.graph self.now.closure.steps.items found }
        ensures is { IfOk result (λ v. IsStepConflict self.now.closure.graph self.now.closure.steps.items self.now.reasons.items v.items) }
        ensures once { IfOk result (λ v. NoneTwice v.items) }
    {
        self.closure.explain(explainer, found.left, found.right)?;
        let mut clause = Vec::new(alloc);
        clause.push(self.reasons[found.step as usize].negated())?;
        add_negations(&mut clause, &self.reasons, &explainer.steps)?;
        Ok(each_once(clause))
    }

    /// A clause that the reasons break, no literal of it twice, where the truth values or the points of a step that keeps them apart are equal.
    pub fn conflict(
        &self,
        alloc: Global,
        explanation: &mut Explanation,
    ) -> Result<Option<Vec<Literal>>, AllocError>
        requires recorded { IsRecorded self.now }
        ensures some { IfOk result (λ r. IfSome r (λ v. IsConflict self.now v.items)) }
        ensures once { IfOk result (λ r. IfSome r (λ v. NoneTwice v.items)) }
        ensures none { IfOk result (λ r. IfNone r (IsConsistent self.now.closure.graph self.now.closure.steps.items)) }
    {
        if self.closure.same(0, 1) {
            let clause = self.truth_conflict(alloc, &mut explanation.explainer)?;
            return Ok(Some(clause));
        }
        match self.first_differing() {
            None => Ok(None),
            Some(found) => {
                let clause = self.step_conflict(alloc, &mut explanation.explainer, found)?;
                Ok(Some(clause))
            }
        }
    }
}
