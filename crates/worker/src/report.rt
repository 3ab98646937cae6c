//! The reports of workers that don't come to search.
ghost use Rattle.std.specs.Prelude.{◌≡◌, []};
ghost use Rattle.smt_meaning.specs.declared.reports.Cause.TheVariants.{Memory as OfMemory};
ghost use Rattle.smt_meaning.specs.Report.{IsPastRange, Shows};
ghost use Rattle.smt_laws.specs.Flat.{flat};
ghost use Rattle.check_atoms.specs.OfStack.{IsRefused};
ghost use Rattle.worker.specs.Outcome.{IsReportOf, ReportsMemory};
ghost use Rattle.worker.specs.Causes.{pair_seen, cause_of};

use crate::nothing_leaves_range;
use bound_clauses::{Order, Sense};
use check_atoms::{
    Refusal, lawful_limits_leave_range, lawful_pairs_leave_range, refused_term_leaves_range,
};
use scope_stack::Stack;
use smt_laws::flat_says_the_same;
use smt_meaning::{Cause, RangeSeen, Report, Seq, Settings, TermId};
use std::alloc::Global;

/// What a refused pair shows.
fn pair_seen(part: TermId, order: Order) -> RangeSeen
    ensures { result ≡ pair_seen part order.sense order.lesser order.greater }
{
    match order.sense {
        Sense::NotAbove => RangeSeen::Pair(order.lesser, order.greater),
        Sense::Below => RangeSeen::Coefficient(part),
    }
}

fn cause_of(refusal: Refusal) -> Cause
    ensures { result ≡ cause_of refusal }
{
    match refusal {
        Refusal::Term(place) => Cause::Range(RangeSeen::Coefficient(place)),
        Refusal::Pair(part, order) => Cause::Range(pair_seen(part, order)),
        Refusal::Limit(part) => Cause::Range(RangeSeen::Coefficient(part)),
        Refusal::Memory => Cause::Memory,
    }
}

/// The report of a worker that never branched, which shows a cause.
fn plain_report(
    alloc: Global,
    stack: &Stack,
    settings: &Settings,
    worker: u8,
    cause: Cause,
) -> Report
    requires { Shows stack.now.trees stack.now.frames settings.now.units [] cause }
    ensures report { IsReportOf stack.now settings.now.units worker result }
    ensures cause { result.cause ≡ cause }
{
    Report {
        worker,
        cause,
        branches: Seq::new(alloc),
    }
}

/// The report of a worker where memory is wanting. It takes none.
pub fn out_of_memory(alloc: Global, stack: &Stack, settings: &Settings, worker: u8) -> Report
    ensures report { IsReportOf stack.now settings.now.units worker result }
    ensures memory { result.cause ≡ OfMemory }
{
    plain_report(alloc, stack, settings, worker, Cause::Memory)
}

/// The report of a worker that begins no search, since a number leaves the range before: it shows where.
pub fn out_of_range(
    alloc: Global,
    stack: &Stack,
    settings: &Settings,
    worker: u8,
    seen: RangeSeen,
) -> Report
    requires { IsPastRange stack.now.trees (flat stack.now.frames) [] seen }
    ensures report { IsReportOf stack.now settings.now.units worker result }
    ensures memory { ReportsMemory stack.now.frames settings.now.units result }
{
    stack.laws();
    flat_says_the_same();
    nothing_leaves_range();
    plain_report(alloc, stack, settings, worker, Cause::Range(seen))
}

/// The report of a worker whose atoms aren't numbered: it shows where folding left the range, or that memory was wanting. Without a limit and without an Int it shows want of memory alone.
pub fn refused(
    alloc: Global,
    stack: &Stack,
    settings: &Settings,
    worker: u8,
    refusal: Refusal,
) -> Report
    requires { IsRefused stack.now refusal }
    ensures report { IsReportOf stack.now settings.now.units worker result }
    ensures cause { result.cause ≡ cause_of refusal }
    ensures memory { ReportsMemory stack.now.frames settings.now.units result }
{
    stack.laws();
    nothing_leaves_range();
    refused_term_leaves_range();
    lawful_pairs_leave_range();
    lawful_limits_leave_range();
    plain_report(alloc, stack, settings, worker, cause_of(refusal))
}
