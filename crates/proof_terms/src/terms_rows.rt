//! What the table of divisions needs of a proof's terms: which term is a quotient, the number of a divisor, and the bound of a limit.
ghost use Rattle.std.specs.Prelude.{◌≡◌, ◌<◌, length, take, false, All, Ok, Err, IfOk};
ghost use Rattle.term_store.specs.Terms.{tree_with};
ghost use Rattle.smt_meaning.specs.Atoms.{limit_atom};
ghost use Rattle.linear_forms.specs.Table.{AreForms};
ghost use Rattle.pair_bounds.specs.Rows.{limit_of_row, IsRowLimit};
ghost use Rattle.smt_laws.specs.Rows.{place_form};
ghost use Rattle.proof_terms.specs.Range.{limit_stays};
ghost use Rattle.proof_terms.specs.TermFacts.{places_at};
ghost use Rattle.proof_terms.specs.TermTable.{IsRenamedBound};
ghost use Rattle.proof_terms.specs.TermRows.{multiple_at, third_at, limit_at, IsFirst, IsDivisor, DivisorLeaves};

use crate::terms::Stop;
use crate::terms_bounds::{rename_all, stop_of};
use crate::terms_held::find;
use crate::terms_table::{Arguments, Distinct, gather};
use linear_forms::{LinearForms, Multiple};
use pair_bounds::RowLimit;
use smt_meaning::{Head, Summand, TermId};
use std::alloc::AllocError;

/// The first term with this head and, as its arguments, the trees at these places.
fn first_with(
    distinct: &mut Distinct,
    head: Head,
    places: &[TermId],
) -> Result<Option<TermId>, AllocError>
    requires places { All (λ p. p < length distinct.old.store.trees) places.now }
    requires count { length distinct.old.facts.items ≡ length distinct.old.store.trees }
    ensures ok { IfOk result (λ o. IsFirst distinct.old.store.trees distinct.old.facts.items (tree_with distinct.old.store.trees head places.now) o) }
    ensures store { distinct.new.store ≡ distinct.old.store }
    ensures facts { distinct.new.facts.items ≡ distinct.old.facts.items }
{
    match find(&mut distinct.store, head, places)? {
        Some(place) => Ok(Some(distinct.facts[place as usize].first)),
        None => Ok(None),
    }
}

/// The first term with this head and, as its arguments, the trees of these terms, which have these places.
pub(crate) fn term_with(
    distinct: &mut Distinct,
    arguments: &mut Arguments,
    places: &[TermId],
    head: Head,
    terms: &[TermId],
) -> Result<Option<TermId>, AllocError>
    requires inside { All (λ i. i < length places.now) terms.now }
    requires placed { All (λ p. p < length distinct.old.facts.items) places.now }
    requires count { length distinct.old.facts.items ≡ length distinct.old.store.trees }
    ensures ok { IfOk result (λ o. IsFirst distinct.old.store.trees distinct.old.facts.items (tree_with distinct.old.store.trees head (places_at places.now terms.now)) o) }
    ensures store { distinct.new.store ≡ distinct.old.store }
    ensures facts { distinct.new.facts.items ≡ distinct.old.facts.items }
{
    gather(places, &distinct.facts, terms, arguments)?;
    first_with(distinct, head, &arguments.places)
}

/// The number by which the tree at one place is divided, where the one at another is the divisor.
pub(crate) fn divisor(
    forms: &mut LinearForms,
    distinct: &Distinct,
    argument: TermId,
    divisor: TermId,
) -> Result<i128, Stop>
    requires forms { AreForms (take (length forms.old) distinct.now.store.trees) forms.old }
    requires argument { argument < length distinct.now.store.trees }
    requires divisor { divisor < length distinct.now.store.trees }
    ensures forms { AreForms (take (length forms.new) distinct.now.store.trees) forms.new }
    ensures ok { IfOk result (λ n. IsDivisor distinct.now.store.trees divisor n) }
    ensures range { result ≡ Err Stop.Range → DivisorLeaves distinct.now.store.trees divisor }
{
    if forms.cover(&distinct.store).is_err() {
        return Err(Stop::Memory);
    }
    match pair_bounds::divisor(forms, &[argument, divisor]) {
        Ok(number) => Ok(number),
        Err(error) => Err(stop_of(error)),
    }
}

fn multiple_at(places: &[TermId], multiple: Multiple) -> Multiple
    requires { multiple.term < length places.now }
    ensures { result ≡ multiple_at places.now multiple }
{
    Multiple {
        factor: multiple.factor,
        term: places[multiple.term as usize],
    }
}

fn third_at(places: &[TermId], third: Option<Multiple>) -> Option<Multiple>
    requires { (m : _) → third ≡ Some m → m.term < length places.now }
    ensures { result ≡ third_at places.now third }
{
    match third {
        Some(multiple) => Some(multiple_at(places, multiple)),
        None => None,
    }
}

/// A limit over the places of its terms.
pub(crate) fn limit_at(places: &[TermId], limit: RowLimit) -> RowLimit
    requires { IsRowLimit (length places.now) limit }
    ensures { result ≡ limit_at places.now limit }
{
    RowLimit {
        first: multiple_at(places, limit.first),
        second: multiple_at(places, limit.second),
        third: third_at(places, limit.third),
        most: limit.most,
    }
}

/// A limit over the trees at places as a bound in normal form over the first terms with its leaves.
pub(crate) fn limit_bound(
    forms: &mut LinearForms,
    distinct: &Distinct,
    limit: RowLimit,
    sum: &mut Vec<Summand>,
) -> Result<i128, Stop>
    requires forms { AreForms (take (length forms.old) distinct.now.store.trees) forms.old }
    requires limit { IsRowLimit (length distinct.now.store.trees) limit }
    requires count { length distinct.now.facts.items ≡ length distinct.now.store.trees }
    ensures forms { AreForms (take (length forms.new) distinct.now.store.trees) forms.new }
    ensures ok { IfOk result (λ k. IsRenamedBound distinct.now.facts.items (limit_stays distinct.now.store.trees (limit_of_row limit)) (limit_atom (place_form distinct.now.store.trees) (limit_of_row limit)) sum.new.items k) }
    ensures range { result ≡ Err Stop.Range → limit_stays distinct.now.store.trees (limit_of_row limit) ≡ false }
{
    if forms.cover(&distinct.store).is_err() {
        return Err(Stop::Memory);
    }
    match pair_bounds::row_bound(forms, limit, sum) {
        Ok(most) => {
            rename_all(&distinct.facts, sum);
            Ok(most)
        }
        Err(error) => Err(stop_of(error)),
    }
}
