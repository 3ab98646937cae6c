//! What a check reports.
ghost use Rattle.bound_log.specs.Reporting.{HasNoneTwice, IsReport};

use congruence::lemma_with;
use fraction128::Range;
use search_port::Lemma;
use sum_bounds::Finding;

/// What a check reports.
#[derive(Drop)]
pub enum Report {
    /// The terms' values meet all bounds told.
    Fits,
    /// A clause that is true under every interpretation and false in the log.
    Conflict(Lemma),
    /// This number of the next step leaves the range.
    Range(Range),
    /// There is no room for the pivot that is the next step.
    UnitsSpent,
    /// Memory is wanting.
    Memory,
}

/// What a check reports, and how many pivots it made.
#[derive(Drop)]
pub struct Reported {
    pub report: Report,
    pub pivots: u64,
}

/// What was found, with the clause of a conflict as a lemma.
pub(crate) fn report_of(finding: Finding) -> Report
    requires { HasNoneTwice finding }
    ensures { IsReport finding result }
{
    match finding {
        Finding::Fits => Report::Fits,
        Finding::Range(range) => Report::Range(range),
        Finding::UnitsSpent => Report::UnitsSpent,
        Finding::Memory => Report::Memory,
        Finding::Conflict(clause) => Report::Conflict(lemma_with(clause)),
    }
}
