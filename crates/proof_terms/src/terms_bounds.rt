//! Sums over the places of trees as sums over the first terms that have them.
ghost use Rattle.std.specs.Prelude.{◌≡◌, ◌≢◌, ◌<◌, List, length, take, false, IfOk, IfErr, Err};
ghost use Rattle.smt_meaning.specs.Term.{Tree};
ghost use Rattle.smt_meaning.specs.Linear.{summand as summand_of};
ghost use Rattle.linear_forms.specs.Sums.{IsSum};
ghost use Rattle.linear_forms.specs.Table.{AreForms};
ghost use Rattle.linear_forms.specs.Differences.{KnowsForms, Refuses, difference_fits};
ghost use Rattle.proof_terms.specs.TermFacts.{fact_at};
ghost use Rattle.proof_terms.specs.TermRenaming.{renamed, first_at};
ghost use Rattle.proof_terms.specs.TermTable.{IsRenamedBound};
ghost use Rattle.proof_terms.specs.Comparing.{compared, compared_fits, IsComparison};

use crate::terms::Stop;
use crate::terms_facts::Fact;
use crate::terms_table::Distinct;
use linear_forms::{DifferenceError, LinearForms};
use smt_meaning::{Summand, TermId};

/// The bound by which two terms compare.
#[derive(Clone, Copy, PartialEq, Eq, Drop)]
pub(crate) enum Comparison {
    /// The first is at most the second, folded and not divided.
    Undivided,
    /// The first is at most the second.
    NotAbove,
    /// The first is below the second.
    Below,
}

/// The first term with the tree at a place.
fn first_at(facts: &[Fact], place: TermId) -> TermId
    requires { place < length facts.now }
    ensures { result ≡ first_at facts.now place }
{
    facts[place as usize].first
}

fn renamed(facts: &[Fact], summand: Summand) -> Summand
    requires { summand.term < length facts.now }
    ensures { result ≡ summand_of (first_at facts.now summand.term) summand.coefficient }
{
    Summand {
        coefficient: summand.coefficient,
        term: first_at(facts, summand.term),
    }
}

/// Names each leaf of a sum by the first term with its tree.
fn rename(facts: &[Fact], sum: &mut [Summand])
    requires { IsSum (length facts.now) sum.old }
    ensures { sum.new ≡ renamed (first_at facts.now) sum.old }
{
    for summand in sum.iter_mut() {
        *summand = renamed(facts, *summand);
    }
}

/// The same of the sum in a `Vec`.
pub(crate) fn rename_all(facts: &[Fact], sum: &mut Vec<Summand>)
    requires { IsSum (length facts.now) sum.old.items }
    ensures { sum.new.items ≡ renamed (first_at facts.now) sum.old.items }
{
    rename(facts, sum);
}

/// Why a bound isn't folded: a number leaves the range wherever memory isn't wanting.
pub(crate) fn stop_of(error: DifferenceError) -> Stop
    ensures { result ≡ Stop.Range → error ≢ DifferenceError.Memory }
{
    match error {
        DifferenceError::Term(_) => Stop::Range,
        DifferenceError::Pair => Stop::Range,
        DifferenceError::Memory => Stop::Memory,
    }
}

/// The difference of the trees at two places as a bound, folded and not divided.
fn undivided(
    forms: &mut LinearForms,
    left: TermId,
    right: TermId,
    sum: &mut Vec<Summand>,
) -> Result<i128, DifferenceError>
    requires left { left < length forms.old }
    requires right { right < length forms.old }
    requires known { KnowsForms forms.old }
    ensures ok { (trees : List Tree) → AreForms trees forms.old → IfOk result (λ k. IsComparison trees Comparison.Undivided left right sum.new.items k) }
    ensures err { (trees : List Tree) → AreForms trees forms.old → IfErr result (λ e. Refuses trees (difference_fits trees) left right e) }
    ensures same { forms.new ≡ forms.old }
{
    let constant = forms.difference(left, right, sum)?;
    Ok(-constant)
}

/// The bound by which the trees at two places compare, over the places of its leaves.
fn bound(
    forms: &mut LinearForms,
    comparison: Comparison,
    left: TermId,
    right: TermId,
    sum: &mut Vec<Summand>,
) -> Result<i128, DifferenceError>
    requires left { left < length forms.old }
    requires right { right < length forms.old }
    requires known { KnowsForms forms.old }
    ensures ok { (trees : List Tree) → AreForms trees forms.old → IfOk result (λ k. IsComparison trees comparison left right sum.new.items k) }
    ensures err { (trees : List Tree) → AreForms trees forms.old → IfErr result (λ e. e ≢ DifferenceError.Memory → compared_fits comparison trees left right ≡ false) }
    ensures same { forms.new ≡ forms.old }
{
    match comparison {
        Comparison::Undivided => undivided(forms, left, right, sum),
        Comparison::NotAbove => pair_bounds::at_most(forms, left, right, sum),
        Comparison::Below => pair_bounds::below(forms, left, right, sum),
    }
}

/// A bound by which the trees at two places compare, over the first terms with its leaves.
pub(crate) fn compared(
    forms: &mut LinearForms,
    distinct: &Distinct,
    comparison: Comparison,
    left: TermId,
    right: TermId,
    sum: &mut Vec<Summand>,
) -> Result<i128, Stop>
    requires forms { AreForms (take (length forms.old) distinct.now.store.trees) forms.old }
    requires left { left < length distinct.now.store.trees }
    requires right { right < length distinct.now.store.trees }
    requires count { length distinct.now.facts.items ≡ length distinct.now.store.trees }
    ensures forms { AreForms (take (length forms.new) distinct.now.store.trees) forms.new }
    ensures ok { IfOk result (λ k. IsRenamedBound distinct.now.facts.items (compared_fits comparison distinct.now.store.trees left right) (compared comparison distinct.now.store.trees left right) sum.new.items k) }
    ensures range { result ≡ Err Stop.Range → compared_fits comparison distinct.now.store.trees left right ≡ false }
{
    if forms.cover(&distinct.store).is_err() {
        return Err(Stop::Memory);
    }
    match bound(forms, comparison, left, right, sum) {
        Ok(limit) => {
            rename_all(&distinct.facts, sum);
            Ok(limit)
        }
        Err(error) => Err(stop_of(error)),
    }
}
