//! Sums of multiples of forms.
ghost use Rattle.std.specs.Prelude.{◌≡◌, ◌⊎◌, ◌<◌, [], length, true, false, None, All, List, IfOk, IfErr, IfSome, IfNone, ◌+ℤ◌};
ghost use Rattle.fraction128.specs.Whole.{InRange};
ghost use Rattle.smt_meaning.specs.Term.{Tree};
ghost use Rattle.smt_meaning.specs.Linear.{form_times, form_fits};
ghost use Rattle.smt_meaning.specs.Division.{combined_fits};
ghost use Rattle.linear_forms.specs.declared.multiples.Multiple.{Multiple as MultipleValue};
ghost use Rattle.linear_forms.specs.Sums.{IsSum};
ghost use Rattle.linear_forms.specs.Scratch.{AreRanged, AreZero, AreTouched, IsAdded, LeavesRange};
ghost use Rattle.linear_forms.specs.Folding.{form_of};
ghost use Rattle.linear_forms.specs.Table.{known_at, AreForms};
ghost use Rattle.linear_forms.specs.Entries.{knowns, AreLaid, IsReady};
ghost use Rattle.linear_forms.specs.Differences.{KnowsForms};
ghost use Rattle.linear_forms.specs.Multiples.{multiples_of, AreMultiples, IsCombination, RefusesMultiples, form_in, AreSumsOf, HasOutsideTerm, AreAddedUp, IsFoldedSum};

use crate::coefficients::{Coefficient, Stop, take_sum, wipe};
use crate::differences::DifferenceError;
use crate::entries::{Entry, LinearForm, form_at};
use crate::nodes::{Work, reach};
use crate::products::scaled_form;
use crate::sums::add_form;
use crate::table::look;
use smt_meaning::{Summand, TermId};
use std::mem;

/// So many times the term at a place.
#[derive(Clone, Copy, PartialEq, Eq, Debug)]
pub struct Multiple {
    pub factor: i128,
    pub term: TermId,
}

/// The part at which the folding of one of these terms leaves the range, if it does.
fn outside_term(entries: &[Entry], all: &[Summand], multiples: &[Multiple]) -> Option<TermId>
    requires laid { AreLaid (length all.now) entries.now }
    requires multiples { AreMultiples (length entries.now) multiples.now }
    ensures some { IfSome result (λ p. HasOutsideTerm (knowns all.now entries.now) multiples.now p) }
    ensures none { IfNone result (All (λ (m : MultipleValue). (known_at (knowns all.now entries.now) m.term).outside ≡ None) multiples.now) }
{
    for multiple in multiples {
        if let Err(part) = look(entries, all, multiple.term as usize) {
            return Some(part);
        }
    }
    None
}

/// Adds a form times a number to the coefficients and the constant so far.
fn add_multiple(
    values: &mut [Coefficient],
    touched: &mut Vec<TermId>,
    spare: &mut Vec<Summand>,
    form: LinearForm<'_>,
    factor: i128,
    constant: i128,
) -> Result<i128, Stop>
    requires sum { IsSum (length values.old) form.sum.now }
    requires ranged { AreRanged values.old }
    requires touched { AreTouched values.old touched.old.items }
    ensures fits { IfOk result (λ n. form_fits (form_times factor (form_of form.entry.sum.now form.entry.constant)) ≡ true) }
    ensures constant { IfOk result (λ n. n ≡ constant +ℤ (form_times factor (form_of form.entry.sum.now form.entry.constant)).constant) }
    ensures in_range { IfOk result (λ n. InRange n) }
    ensures ok { IfOk result (λ n. IsAdded false values.old values.new (form_times factor (form_of form.entry.sum.now form.entry.constant)).sum) }
    ensures ranged { AreRanged values.new }
    ensures touched { AreTouched values.new touched.new.items }
    ensures range { result ≡ Err Stop.Range → (form_fits (form_times factor (form_of form.entry.sum.now form.entry.constant)) ≡ false) ⊎ ((InRange (constant +ℤ (form_times factor (form_of form.entry.sum.now form.entry.constant)).constant) → ⊥) ⊎ LeavesRange false values.old (form_times factor (form_of form.entry.sum.now form.entry.constant)).sum) }
{
    spare.clear();
    let product = scaled_form(spare, form.sum, factor, form.constant)?;
    let multiple = LinearForm {
        sum: spare,
        constant: product,
    };
    add_form(values, touched, multiple, false, constant)
}

/// Adds up multiples of the forms of some terms, the last one first.
fn fold_multiples(
    entries: &[Entry],
    all: &[Summand],
    values: &mut [Coefficient],
    touched: &mut Vec<TermId>,
    spare: &mut Vec<Summand>,
    multiples: &[Multiple],
) -> Result<i128, Stop>
    requires laid { AreLaid (length all.now) entries.now }
    requires multiples { AreMultiples (length entries.now) multiples.now }
    requires sums { AreSumsOf (length values.old) (knowns all.now entries.now) multiples.now }
    requires zero { AreZero values.old }
    requires touched { AreTouched values.old touched.old.items }
    ensures ok { IfOk result (λ n. AreAddedUp (length values.old) (form_in (knowns all.now entries.now)) multiples.now values.new n) }
    ensures range { result ≡ Err Stop.Range → combined_fits (form_in (knowns all.now entries.now)) (multiples_of multiples.now) ≡ false }
    ensures touched { AreTouched values.new touched.new.items }
{
    let mut constant = 0;
    let mut i = multiples.len();
    while i > 0 {
        i -= 1;
        let multiple = multiples[i];
        let form = form_at(entries, all, multiple.term as usize);
        constant = add_multiple(values, touched, spare, form, multiple.factor, constant)?;
    }
    Ok(constant)
}

/// Adds up multiples of the forms of some terms, and takes the sum out.
fn combine_into(
    entries: &[Entry],
    all: &[Summand],
    work: &mut Work,
    multiples: &[Multiple],
) -> Result<i128, Stop>
    requires laid { AreLaid (length all.now) entries.now }
    requires multiples { AreMultiples (length entries.now) multiples.now }
    requires sums { AreSumsOf (length work.old.values.items) (knowns all.now entries.now) multiples.now }
    requires zero { AreZero work.old.values.items }
    requires touched { AreTouched work.old.values.items work.old.touched.items }
    requires empty { work.old.sum.items ≡ [] }
    ensures ok { IfOk result (λ n. IsFoldedSum (form_in (knowns all.now entries.now)) multiples.now (form_of work.new.sum.items n)) }
    ensures range { result ≡ Err Stop.Range → combined_fits (form_in (knowns all.now entries.now)) (multiples_of multiples.now) ≡ false }
    ensures touched { AreTouched work.new.values.items work.new.touched.items }
{
    let constant = fold_multiples(
        entries,
        all,
        &mut work.values,
        &mut work.touched,
        &mut work.spare,
        multiples,
    )?;
    take_sum(&mut work.values, &mut work.touched, &mut work.sum)?;
    Ok(constant)
}

/// The same with the room made for it.
fn combine_known(
    entries: &[Entry],
    all: &[Summand],
    work: &mut Work,
    multiples: &[Multiple],
    sum: &mut Vec<Summand>,
) -> Result<i128, Stop>
    requires laid { AreLaid (length all.now) entries.now }
    requires multiples { AreMultiples (length entries.now) multiples.now }
    requires sums { AreSumsOf (length entries.now) (knowns all.now entries.now) multiples.now }
    requires ready { IsReady work.old }
    ensures ok { IfOk result (λ n. IsFoldedSum (form_in (knowns all.now entries.now)) multiples.now (form_of sum.new.items n)) }
    ensures range { result ≡ Err Stop.Range → combined_fits (form_in (knowns all.now entries.now)) (multiples_of multiples.now) ≡ false }
    ensures ready { IsReady work.new }
{
    work.sum.clear();
    reach(&mut work.values, entries.len())?;
    let folded = combine_into(entries, all, work, multiples);
    wipe(&mut work.values, &mut work.touched);
    mem::swap(&mut work.sum, sum);
    folded
}

/// The sum of multiples of the terms at places: its sum, and its constant.
pub(crate) fn combine(
    entries: &[Entry],
    all: &[Summand],
    work: &mut Work,
    multiples: &[Multiple],
    sum: &mut Vec<Summand>,
) -> Result<i128, DifferenceError>
    requires laid { AreLaid (length all.now) entries.now }
    requires multiples { AreMultiples (length entries.now) multiples.now }
    requires known { KnowsForms (knowns all.now entries.now) }
    requires ready { IsReady work.old }
    ensures ok { (trees : List Tree) → AreForms trees (knowns all.now entries.now) → IfOk result (λ n. IsCombination trees multiples.now (form_of sum.new.items n)) }
    ensures err { (trees : List Tree) → AreForms trees (knowns all.now entries.now) → IfErr result (λ e. RefusesMultiples trees multiples.now e) }
    ensures ready { IsReady work.new }
{
    if let Some(part) = outside_term(entries, all, multiples) {
        return Err(DifferenceError::Term(part));
    }
    match combine_known(entries, all, work, multiples, sum) {
        Ok(constant) => Ok(constant),
        Err(Stop::Range) => Err(DifferenceError::Pair),
        Err(Stop::Memory) => Err(DifferenceError::Memory),
    }
}
