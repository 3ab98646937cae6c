//! The steps that a proof writes.
ghost use Rattle.std.specs.Prelude.{◌≡◌, IfOk};
ghost use Rattle.smt_meaning.specs.Command.{each};
ghost use Rattle.proof_meaning.specs.Reading.{form_read, round_read, farkas_read, res_read, weighted_read, step_read};
ghost use Rattle.look_ahead.specs.Ahead.{AreEnds};
ghost use Rattle.proof_read.specs.Written.{numbers_fit, weights_fit};
ghost use Rattle.proof_read.specs.Reads.{is_term_number, is_step_number, places_near, weights_near};
ghost use Rattle.proof_read.specs.ReadParts.{Reads, ReadsRest, any, first_by};
ghost use Rattle.proof_read.specs.ReadNames.{step_form};
ghost use Rattle.proof_read.specs.ReadSteps.{TakesTwo, plain_form, pair_form, pair_named, multiplier_in, quotient_in, multiplier_fits, weighted_fits, weighted_near};

use crate::read_names::{StepName, step_name};
use crate::read_parts::{Progress, Source};
use proof_meaning::{Step, StepId, Weighted};
use smt_meaning::{Seq, TermId};
use std::alloc::{AllocError, Global};

/// What a bound is multiplied by.
#[derive(Clone, Copy, Drop)]
pub(crate) struct Multiplier {
    numerator: u128,
    denominator: u128,
}

impl Source<'_> {
    /// A step that writes numbers of terms and clauses alone, from behind its name.
    fn plain_step(&self, name: StepName, at: &mut Progress) -> Option<Step>
        requires { AreEnds self.now.proof.now self.now.ends.now }
        ensures { ReadsRest self.now.proof.now (plain_form name) numbers_fit places_near at.old at.new result }
    {
        match name {
            StepName::Assert => {
                let assertion = self.count(at)?;
                let term = self.term(at)?;
                self.alone(at, Step::Assert(assertion, term))
            }
            StepName::Pick => {
                let term = self.term(at)?;
                let which = self.count(at)?;
                self.alone(at, Step::Pick(term, which))
            }
            StepName::Euclid => {
                let term = self.term(at)?;
                let which = self.count(at)?;
                self.alone(at, Step::Euclid(term, which))
            }
            StepName::Refl => {
                let term = self.term(at)?;
                self.alone(at, Step::Refl(term))
            }
            StepName::Trans => {
                let first = self.term(at)?;
                let second = self.term(at)?;
                let third = self.term(at)?;
                self.alone(at, Step::Trans(first, second, third))
            }
            StepName::Link => {
                let left = self.term(at)?;
                let right = self.term(at)?;
                let which = self.count(at)?;
                self.alone(at, Step::Link(left, right, which))
            }
            _ => self.pair_step(name, at),
        }
    }

    /// A step that writes the numbers of two terms, from behind its name.
    #[tactic(auto, using(crate::proofs::ReadStepForms::no_pair))]
    fn pair_step(&self, name: StepName, at: &mut Progress) -> Option<Step>
        requires { AreEnds self.now.proof.now self.now.ends.now }
        ensures { ReadsRest self.now.proof.now (pair_form name) numbers_fit places_near at.old at.new result }
    {
        let left = self.term(at)?;
        let right = self.term(at)?;
        let pair = pair_of(name, left, right)?;
        self.alone(at, pair)
    }

    /// A step, from behind its name.
    fn step_rest(
        &self,
        alloc: Global,
        name: StepName,
        at: &mut Progress,
    ) -> Result<Option<Step>, AllocError>
        requires { AreEnds self.now.proof.now self.now.ends.now }
        ensures { IfOk result (ReadsRest self.now.proof.now (step_form name) numbers_fit places_near at.old at.new) }
    {
        match name {
            StepName::Form => self.form(alloc, at),
            StepName::Round => self.round(alloc, at),
            StepName::Farkas => self.farkas(alloc, at),
            StepName::Res => self.resolution(alloc, at),
            _ => Ok(self.plain_step(name, at)),
        }
    }

    /// What a term and literals say, from behind the name.
    fn form(&self, alloc: Global, at: &mut Progress) -> Result<Option<Step>, AllocError>
        requires { AreEnds self.now.proof.now self.now.ends.now }
        ensures { IfOk result (ReadsRest self.now.proof.now form_read numbers_fit places_near at.old at.new) }
    {
        let Some(term) = self.term(at) else {
            return Ok(None);
        };
        match self.literals(alloc, at)? {
            Some(literals) => Ok(Some(Step::Form(term, literals))),
            None => Ok(None),
        }
    }

    /// A literal and a divisor, from behind the name.
    fn round(&self, alloc: Global, at: &mut Progress) -> Result<Option<Step>, AllocError>
        requires { AreEnds self.now.proof.now self.now.ends.now }
        ensures { IfOk result (ReadsRest self.now.proof.now round_read numbers_fit places_near at.old at.new) }
    {
        let Some(literal) = self.literal(alloc, at)? else {
            return Ok(None);
        };
        let Some(divisor) = self.number(at) else {
            return Ok(None);
        };
        Ok(self.alone(at, Step::Round(literal, divisor)))
    }

    /// The numbers of two steps.
    fn two_counts(&self, at: &mut Progress) -> Option<(StepId, StepId)>
        requires { AreEnds self.now.proof.now self.now.ends.now }
        ensures { TakesTwo self.now.proof.now at.old at.new result }
    {
        let left = self.count(at)?;
        let right = self.count(at)?;
        Some((left, right))
    }

    /// Two steps and a literal, from behind the name.
    #[tactic(auto, using(crate::proofs::ReadStepForms::none_of_two))]
    fn resolution(&self, alloc: Global, at: &mut Progress) -> Result<Option<Step>, AllocError>
        requires { AreEnds self.now.proof.now self.now.ends.now }
        ensures { IfOk result (ReadsRest self.now.proof.now res_read numbers_fit places_near at.old at.new) }
    {
        let Some((left, right)) = self.two_counts(at) else {
            return Ok(None);
        };
        let Some(literal) = self.literal(alloc, at)? else {
            return Ok(None);
        };
        Ok(self.alone(at, Step::Res(left, right, literal)))
    }

    /// Multiples of bounds, from behind the name.
    fn farkas(&self, alloc: Global, at: &mut Progress) -> Result<Option<Step>, AllocError>
        requires { AreEnds self.now.proof.now self.now.ends.now }
        ensures { IfOk result (ReadsRest self.now.proof.now farkas_read numbers_fit places_near at.old at.new) }
    {
        let Some(weighted) = self.weights(alloc, at)? else {
            return Ok(None);
        };
        Ok(Some(Step::Farkas(weighted)))
    }

    /// The multiples of bounds that are left of a list.
    fn weights(&self, alloc: Global, at: &mut Progress) -> Result<Option<Seq<Weighted>>, AllocError>
        requires { AreEnds self.now.proof.now self.now.ends.now }
        ensures { IfOk result (ReadsRest self.now.proof.now (each weighted_read) weights_fit weights_near at.old at.new) }
    {
        let mut weights = Seq::new(alloc);
        while !self.is_end(at.place) {
            let Some(weighted) = self.weighted(alloc, at)? else {
                return Ok(None);
            };
            weights.push(weighted)?;
        }
        Ok(Some(weights))
    }

    /// `(multiplier literal)`
    fn weighted(&self, alloc: Global, at: &mut Progress) -> Result<Option<Weighted>, AllocError>
        requires { AreEnds self.now.proof.now self.now.ends.now }
        ensures { IfOk result (Reads self.now.proof.now weighted_read weighted_fits weighted_near at.old at.new) }
    {
        let Some(close) = self.enter(at) else {
            return Ok(None);
        };
        let Some(multiplier) = self.multiplier(at) else {
            return Ok(None);
        };
        let Some(literal) = self.literal(alloc, at)? else {
            return Ok(None);
        };
        if !self.is_end(at.place) {
            return Ok(None);
        }
        at.place = close + 1;
        Ok(Some(Weighted {
            numerator: multiplier.numerator,
            denominator: multiplier.denominator,
            literal,
        }))
    }

    /// A number, or a quotient of two.
    fn multiplier(&self, at: &mut Progress) -> Option<Multiplier>
        requires { AreEnds self.now.proof.now self.now.ends.now }
        ensures { Reads self.now.proof.now multiplier_in multiplier_fits any at.old at.new result }
    {
        match self.enter(at) {
            Some(close) => {
                let quotient = self.quotient(at)?;
                at.place = close + 1;
                Some(quotient)
            }
            None => {
                let numerator = self.number(at)?;
                Some(Multiplier {
                    numerator,
                    denominator: 1,
                })
            }
        }
    }

    /// A quotient of two numbers, from behind its parenthesis.
    fn quotient(&self, at: &mut Progress) -> Option<Multiplier>
        requires { AreEnds self.now.proof.now self.now.ends.now }
        ensures { ReadsRest self.now.proof.now quotient_in multiplier_fits any at.old at.new result }
    {
        let name = self.symbol(at)?;
        if name != b"/".as_slice() {
            return None;
        }
        let numerator = self.number(at)?;
        let denominator = self.number(at)?;
        self.alone(
            at,
            Multiplier {
                numerator,
                denominator,
            },
        )
    }

    /// A step.
    pub(crate) fn step(&self, alloc: Global, at: &mut Progress) -> Result<Option<Step>, AllocError>
        requires { AreEnds self.now.proof.now self.now.ends.now }
        ensures { IfOk result (ReadsRest self.now.proof.now (first_by step_read) numbers_fit places_near at.old at.new) }
    {
        let Some((_, name)) = self.enter_named(at) else {
            return Ok(None);
        };
        match step_name(name) {
            Some(rule) => self.step_rest(alloc, rule, at),
            None => Ok(None),
        }
    }
}

/// The step of two terms that has this name.
fn pair_of(name: StepName, left: TermId, right: TermId) -> Option<Step>
    ensures { result ≡ pair_named name left right }
{
    match name {
        StepName::Sym => Some(Step::Sym(left, right)),
        StepName::Cong => Some(Step::Cong(left, right)),
        StepName::Truth => Some(Step::Truth(left, right)),
        StepName::Both => Some(Step::Both(left, right)),
        StepName::Neither => Some(Step::Neither(left, right)),
        _ => None,
    }
}
