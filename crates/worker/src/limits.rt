//! The limit of units in force.
ghost use Rattle.std.specs.Prelude.{◌≡◌, not};
ghost use Rattle.smt_meaning.specs.Report.{is_unlimited, most_units};
ghost use Rattle.worker.specs.Shown.{may_forget};

use smt_meaning::Settings;

/// The most units of work of a check.
const MOST_UNITS: u64 = 1 << 40;

/// Whether there is a limit: under one learnt clauses and pivots are units too, and lines of pivots are kept.
pub(crate) fn has_limit(settings: &Settings) -> bool
    ensures { result ≡ not (is_unlimited settings.now.units) }
{
    settings.units > 0
}

/// Whether the worker of this number may forget what it learns: under a limit none may, and the first one never.
pub(crate) fn may_forget(settings: &Settings, worker: u8) -> bool
    ensures { result ≡ may_forget settings.now.units worker }
{
    !has_limit(settings) & (worker > 0)
}

/// How many units of work a check may spend under the limit in force, of which 0 stands for none.
pub(crate) fn units_within(settings: &Settings) -> u64
    ensures { result ≡ most_units settings.now.units }
{
    if settings.units <= 0 {
        return MOST_UNITS;
    }
    let units = settings.units.unsigned_abs();
    if units < 1 << 40 {
        units as u64
    } else {
        MOST_UNITS
    }
}
