//! What the parts of the workers of a race come to together.
ghost use Rattle.std.specs.Prelude.{◌≡◌, ℕ, ℤ, ◌+◌, ◌<◌, ◌≤◌, [], ◌∷◌, ◌++◌, List, IfOk, None, vec_len, vec_capacity};
ghost use Rattle.smt_meaning.specs.StackCommand.{Stack as StackValue};
ghost use Rattle.race_cell.specs.declared.view.Claim.{Claim};
ghost use Rattle.worker.specs.Outcome.{IsOutcome, MemoryAloneIsReported};
ghost use Rattle.portfolio.specs.Tallies.{Tallied};

use smt_meaning::Report;
use std::alloc::{AllocError, Global};
use worker::{Answer, Outcome};

/// The answer, where some worker has one, a winner that some worker has found, and the reports, in their order.
#[derive(Drop)]
pub struct Tally {
    pub answer: Option<Answer>,
    pub winner: Option<u8>,
    pub reports: Vec<Report>,
}

impl Tally {
    /// Of no worker, with room for so many reports.
    pub fn new(alloc: Global, workers: u8) -> Result<Self, AllocError>
        ensures none { IfOk result (λ t. (s : StackValue) (limit : ℤ) → Tallied s limit [] t) }
        ensures len { IfOk result (λ t. vec_len t.reports ≡ 0) }
        ensures room { IfOk result (λ t. workers ≤ vec_capacity t.reports) }
    {
        Ok(Tally {
            answer: None,
            winner: None,
            reports: Vec::with_capacity(alloc, workers as usize)?,
        })
    }

    /// One worker's part more.
    pub fn add(&mut self, outcome: Outcome)
        requires room { vec_len self.old.reports < vec_capacity self.old.reports }
        ensures tallied { (s : StackValue) (limit : ℤ) (cs : List Claim) (c : Claim) → IsOutcome s limit c outcome → MemoryAloneIsReported s.frames limit outcome → Tallied s limit cs self.old → Tallied s limit (cs ++ c ∷ []) self.new }
        ensures len { vec_len self.new.reports ≤ vec_len self.old.reports + 1 }
        ensures capacity { vec_capacity self.new.reports ≡ vec_capacity self.old.reports }
    {
        match outcome {
            Outcome::Answer(answer) => self.answer = Some(answer),
            Outcome::Report(report) => self.reports.push_reserved(report),
            Outcome::Cancelled(winner) => self.winner = Some(winner),
        }
    }
}
