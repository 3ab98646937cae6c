//! How forms are kept.
ghost use Rattle.std.specs.Prelude.{◌≡◌, ◌<◌, ◌≤◌, length, slice_range};
ghost use Rattle.linear_forms.specs.Folding.{form_of};
ghost use Rattle.linear_forms.specs.Table.{known_at};
ghost use Rattle.linear_forms.specs.Entries.{knowns, AreLaid};

use smt_meaning::{Summand, TermId};

/// What is kept of a term: where its form's sum begins and ends in the list of all summands, and its constant; or, with a sum that means nothing, the
/// place of the part whose folding leaves the range.
#[derive(Clone, Copy, Drop)]
pub(crate) struct Entry {
    pub(crate) start: usize,
    pub(crate) end: usize,
    pub(crate) constant: i128,
    pub(crate) outside: Option<TermId>,
}

/// The linear form of a term: a sum of coefficients times terms, in ascending order of their places and without zero coefficients, and a constant.
#[derive(Clone, Copy)]
pub struct LinearForm<'a> {
    pub sum: &'a [Summand],
    pub constant: i128,
}

/// The summands from one place to another.
fn part(all: &[Summand], start: usize, end: usize) -> &[Summand]
    requires order { start ≤ end }
    requires within { end ≤ length all.now }
    ensures { result.now ≡ slice_range all.now start end }
{
    &all[start..end]
}

/// The form that is kept for a place.
pub(crate) fn form_at<'a>(entries: &[Entry], all: &'a [Summand], place: usize) -> LinearForm<'a>
    requires laid { AreLaid (length all.now) entries.now }
    requires place { place < length entries.now }
    ensures { form_of result.sum.now result.constant ≡ (known_at (knowns all.now entries.now) place).form }
{
    let entry = entries[place];
    LinearForm {
        sum: part(all, entry.start, entry.end),
        constant: entry.constant,
    }
}
