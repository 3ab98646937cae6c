//! Differences of two forms.
ghost use Rattle.std.specs.Prelude.{◌≡◌, ◌<◌, [], ◌∷◌, length, true, false, IfOk, IfErr, List};
ghost use Rattle.smt_meaning.specs.Term.{Tree};
ghost use Rattle.linear_forms.specs.Folding.{form_of, combined_form, combined_fits};
ghost use Rattle.linear_forms.specs.Table.{AreForms};
ghost use Rattle.linear_forms.specs.Differences.{difference_fits, KnowsForms, IsDifference, Refuses};
ghost use Rattle.linear_forms.specs.Entries.{knowns, forms_at, AreLaid, AreSums, IsReady};

use crate::coefficients::Stop;
use crate::entries::Entry;
use crate::nodes::{Work, fold_combined};
use crate::table::outside_argument;
use smt_meaning::{Summand, TermId};
use std::mem;

/// Why two terms have no difference.
#[derive(Clone, Copy, PartialEq, Eq, Debug, Drop)]
pub enum DifferenceError {
    /// Folding one of the two leaves the range, and it does so at the part at this place.
    Term(TermId),
    /// Folding their difference leaves the range, and folding each of the two doesn't.
    Pair,
    /// Memory is wanting.
    Memory,
}

/// Takes the form of a term from that of another.
fn subtract(
    entries: &[Entry],
    all: &[Summand],
    work: &mut Work,
    left: TermId,
    right: TermId,
    sum: &mut Vec<Summand>,
) -> Result<i128, Stop>
    requires laid { AreLaid (length all.now) entries.now }
    requires left { left < length entries.now }
    requires right { right < length entries.now }
    requires sums { AreSums (length entries.now) (knowns all.now entries.now) (left ∷ right ∷ []) }
    requires ready { IsReady work.old }
    ensures ok { IfOk result (λ n. form_of sum.new.items n ≡ combined_form true (forms_at (knowns all.now entries.now) (left ∷ right ∷ []))) }
    ensures fits { IfOk result (λ n. combined_fits true (forms_at (knowns all.now entries.now) (left ∷ right ∷ [])) ≡ true) }
    ensures range { result ≡ Err Stop.Range → combined_fits true (forms_at (knowns all.now entries.now) (left ∷ right ∷ [])) ≡ false }
    ensures ready { IsReady work.new }
{
    let constant = fold_combined(entries, all, work, &[left, right], true, entries.len())?;
    mem::swap(&mut work.sum, sum);
    Ok(constant)
}

/// The difference of the terms at two places: its sum, and its constant.
pub(crate) fn difference(
    entries: &[Entry],
    all: &[Summand],
    work: &mut Work,
    left: TermId,
    right: TermId,
    sum: &mut Vec<Summand>,
) -> Result<i128, DifferenceError>
    requires laid { AreLaid (length all.now) entries.now }
    requires left { left < length entries.now }
    requires right { right < length entries.now }
    requires known { KnowsForms (knowns all.now entries.now) }
    requires ready { IsReady work.old }
    ensures ok { (trees : List Tree) → AreForms trees (knowns all.now entries.now) → IfOk result (λ n. IsDifference trees left right (form_of sum.new.items n)) }
    ensures err { (trees : List Tree) → AreForms trees (knowns all.now entries.now) → IfErr result (λ e. Refuses trees (difference_fits trees) left right e) }
    ensures ready { IsReady work.new }
{
    if let Some(part) = outside_argument(entries, all, &[left, right]) {
        return Err(DifferenceError::Term(part));
    }
    match subtract(entries, all, work, left, right, sum) {
        Ok(constant) => Ok(constant),
        Err(Stop::Range) => Err(DifferenceError::Pair),
        Err(Stop::Memory) => Err(DifferenceError::Memory),
    }
}
