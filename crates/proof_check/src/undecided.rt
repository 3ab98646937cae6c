//! The decider of a fold: the frames of a check are known without its answer.
ghost use Rattle.std.specs.Prelude.{ℕ, ℤ, List, IfOk};
ghost use Rattle.smt_meaning.specs.Report.{AreReports};
ghost use Rattle.smt_meaning.specs.Stack.{Frame};
ghost use Rattle.smt_meaning.specs.Term.{Tree};

use scope_stack::Stack;
use smt_meaning::{Cause, Report, Seq, Settings};
use std::alloc::{AllocError, Global};
use theory_port::{Decider, Verdict};

/// Answers each check by `unknown`, with a report from each worker that memory is wanting.
#[derive(Clone, Copy, Drop)]
pub struct Undecided;

impl Decider for Undecided {
    ghost may = { λ _. Unit {0} };

    fn decide(
        &mut self,
        alloc: Global,
        _stack: &Stack,
        settings: &Settings,
    ) -> Result<Verdict, AllocError> {
        Ok(Verdict::Unknown(reports(alloc, settings.workers)?))
    }
}

/// A report of each worker that memory is wanting.
fn reports(alloc: Global, workers: u8) -> Result<Seq<Report>, AllocError>
    ensures { IfOk result (λ rs. (ts : List Tree) (frames : List Frame) (limit : ℤ) → AreReports workers ts frames limit rs) }
{
    let mut reports = Seq::new(alloc);
    for worker in 0..workers {
        reports.push(Report {
            worker,
            cause: Cause::Memory,
            branches: Seq::new(alloc),
        })?;
    }
    Ok(reports)
}
