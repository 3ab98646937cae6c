//! What a check finds.
ghost use Rattle.sum_bounds.specs.Finding.{IsFound};

use crate::told::clause_of;
use fraction128::Range;
use literals::Literal;
use simplex::Verdict;
use std::alloc::Global;

/// What a check finds.
#[derive(Drop)]
pub enum Finding {
    /// The terms' values meet all bounds told.
    Fits,
    /// Not all of the bounds with the complements of these literals hold, whatever values the terms have.
    Conflict(Vec<Literal>),
    /// This number of the next step leaves the range.
    Range(Range),
    /// There is no room for the pivot that is the next step.
    UnitsSpent,
    /// Memory is wanting.
    Memory,
}

/// What a check finds, and how many pivots it made.
#[derive(Drop)]
pub struct Checked {
    pub finding: Finding,
    pub pivots: u64,
}

/// A verdict on tagged bounds, with a clause in the place of tags.
pub(crate) fn finding_of(alloc: Global, verdict: Verdict) -> Finding
    ensures { IsFound verdict result }
{
    match verdict {
        Verdict::Fits => Finding::Fits,
        Verdict::Range(range) => Finding::Range(range),
        Verdict::UnitsSpent => Finding::UnitsSpent,
        Verdict::Memory => Finding::Memory,
        Verdict::Conflict(tags) => match clause_of(alloc, &tags) {
            Ok(clause) => Finding::Conflict(clause),
            Err(_) => Finding::Memory,
        },
    }
}
