//! A check of a stack: its reply, what is kept with it, and the mode that it gives (SMT-LIB 2.6, section 4.2.5).
ghost use Rattle.std.specs.Prelude.{◌≡◌, ◌<◌, IfOk};
ghost use Rattle.smt_meaning.specs.Report.{reason_of as the_reason};
ghost use Rattle.theory_port.specs.declared.decider.Verdict.TheVariants.{Unsat};
ghost use Rattle.goal_search.specs.Checked.{IsAnswerBy, IsChecked, WhereUnsat};

use scope_stack::ScopeStack;
use smt_meaning::language::{Mode, Reply, UnknownReason};
use smt_meaning::{Cause, Kept, Report, Settings};
use std::alloc::{AllocError, Global};
use theory_port::{Decider, Verdict, found};

/// What a check comes to: its reply, what the journal keeps with it, and the mode that it gives.
#[derive(Drop)]
pub struct Answer {
    pub reply: Reply,
    pub kept: Kept,
    pub mode: Mode,
}

/// Why a check is answered by `unknown` (SMT-LIB 2.6, section 4.1.8): for want of memory, where a report shows that.
pub fn reason_of(reports: &[Report]) -> UnknownReason
    ensures { result ≡ the_reason reports.now }
{
    for report in reports {
        if matches!(report.cause, Cause::Memory) {
            return UnknownReason::Memout;
        }
    }
    UnknownReason::Incomplete
}

/// What a check comes to, of which this is found. An `Err` is for want of memory.
#[tactic(auto, using(crate::proofs::Answered::sat_answers, crate::proofs::Answered::unsat_answers, crate::proofs::Answered::unknown_answers))]
fn answer_of(alloc: Global, verdict: Verdict) -> Result<Answer, AllocError>
    ensures answer { IfOk result (IsAnswerBy verdict) }
    ensures refuted { IfOk result (λ a. WhereUnsat a.mode (verdict ≡ Unsat)) }
{
    match verdict {
        Verdict::Sat(model) => {
            let kept = model.copy_tables(alloc)?;
            Ok(Answer {
                reply: Reply::Sat,
                kept: Kept::Model(kept),
                mode: Mode::Sat(model),
            })
        }
        Verdict::Unsat => Ok(Answer {
            reply: Reply::Unsat,
            kept: Kept::Nothing,
            mode: Mode::Unsat,
        }),
        Verdict::Unknown(reports) => {
            let reason = reason_of(reports.as_slice());
            Ok(Answer {
                reply: Reply::Unknown,
                kept: Kept::Reports(reports),
                mode: Mode::Unknown(reason),
            })
        }
    }
}

/// What a check of a stack comes to, which stays as it is. An `Err` is for want of memory.
pub fn checked<D: Decider>(
    alloc: Global,
    decider: &mut D,
    settings: &Settings,
    stack: &mut ScopeStack,
) -> Result<Answer, AllocError>
    requires may { D.may decider.old }
    requires workers { 0 < settings.now.workers }
    ensures still { D.may decider.new }
    ensures stays { stack.new ≡ stack.old }
    ensures checked { IfOk result (IsChecked settings.now.workers settings.now.units stack.old) }
{
    let verdict = found(alloc, decider, settings, stack)?;
    let answer = answer_of(alloc, verdict)?;
    Ok(answer)
}
