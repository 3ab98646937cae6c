//! The reports of searches that ended on their way.
ghost use Rattle.std.specs.Prelude.{◌≡◌, false, length, All};
ghost use Rattle.smt_meaning.specs.Kinds.{has_no_integers};
ghost use Rattle.smt_laws.specs.Flat.{flat};
ghost use Rattle.worker.specs.Outcome.{IsReportOf, ReportsMemory};
ghost use Rattle.worker.specs.Shown.{IsOfNumbers, ShowsUnits, may_forget};

use crate::limits::{has_limit, may_forget};
use crate::plain::nothing_leaves_range;
use crate::report::out_of_memory;
use crate::shown::write_units;
use scope_stack::Stack;
use search_port::{Budget, Showing, Shown};
use smt_laws::flat_says_the_same;
use smt_meaning::{Cause, Report, Settings};
use std::alloc::Global;

/// The report where all units are spent: it shows them, and the branches of the theory. Without a limit the room for more units is wanting for a worker that may have forgotten some, and without an Int, as it is where they can't be written out.
pub(crate) fn all_spent<T: Shown>(
    alloc: Global,
    stack: &Stack,
    settings: &Settings,
    is_integer_free: bool,
    worker: u8,
    theory: T,
    budget: Budget,
) -> Report
    requires integers { is_integer_free ≡ has_no_integers stack.now.frames }
    requires trees { (T.state theory).reading.trees ≡ stack.now.trees }
    requires frames { (T.state theory).reading.frames ≡ flat stack.now.frames }
    requires numbers { All (IsOfNumbers (length (T.state theory).reading.table)) budget.units }
    requires spent { may_forget settings.now.units worker ≡ false → ShowsUnits stack.now settings.now.units (T.state theory) budget.units }
    ensures report { IsReportOf stack.now settings.now.units worker result }
    ensures memory { ReportsMemory stack.now.frames settings.now.units result }
{
    if may_forget(settings, worker) {
        return stopped(alloc, stack, settings, worker, theory);
    }
    let limited = has_limit(settings);
    if is_integer_free && !limited {
        return stopped(alloc, stack, settings, worker, theory);
    }
    let units = match write_units(alloc, &theory, stack.depth(), budget.into_units()) {
        Ok(units) => units,
        Err(_) => return out_of_memory(alloc, stack, settings, worker),
    };
    let shown = theory.show();
    Report {
        worker,
        cause: Cause::Units(units),
        branches: shown.branches,
    }
}

/// The report where the search could not go on: it shows where a number left the range, if the theory saw one do so, and else that memory is wanting.
pub(crate) fn stopped<T: Shown>(
    alloc: Global,
    stack: &Stack,
    settings: &Settings,
    worker: u8,
    theory: T,
) -> Report
    requires trees { (T.state theory).reading.trees ≡ stack.now.trees }
    requires frames { (T.state theory).reading.frames ≡ flat stack.now.frames }
    ensures report { IsReportOf stack.now settings.now.units worker result }
    ensures memory { ReportsMemory stack.now.frames settings.now.units result }
{
    stack.laws();
    flat_says_the_same();
    nothing_leaves_range();
    let Showing { branches, seen } = theory.show();
    match seen {
        Some(seen) => Report {
            worker,
            cause: Cause::Range(seen),
            branches,
        },
        None => out_of_memory(alloc, stack, settings, worker),
    }
}
