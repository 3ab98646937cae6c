//! The slow way of a last check whose values are whole and meet all bounds. Each of its ends is a true one: a model, a clause that is false, an atom more, or where a
//! number left the range. That only an allocation that fails is want of memory is how it is written; no clause says it.
ghost use Rattle.std.specs.Prelude.{◌≡◌, ◌<◌, List, length, All, Contains, IfOk, IfSome, IfNone, MatchOption};
ghost use Rattle.smt_meaning.specs.declared.clauses.Atom.{Atom};
ghost use Rattle.smt_meaning.specs.Interpretation.{AreTablesFor};
ghost use Rattle.smt_meaning.specs.Ranges.{LeavesInModel};
ghost use Rattle.smt_meaning.specs.Stack.{signature_of};
ghost use Rattle.search_port.specs.Calls.{IsConflict};
ghost use Rattle.smt_laws.specs.Flat.{flat};
ghost use Rattle.bound_log.specs.Atoms.{Knows};
ghost use Rattle.bound_log.specs.Told.{column_sums};
ghost use Rattle.sum_bounds.specs.Bounds.{AreWhole};
ghost use Rattle.closure_log.specs.Seen.{state_of};
ghost use Rattle.closure_log.specs.Whole.{IsClosed, IsWholeAndApart};
ghost use Rattle.exact_model.specs.Exact.{AllFold};
ghost use Rattle.exact_model.specs.Ends.{GiveExactValues};
ghost use Rattle.theory_combine.specs.Held.{AllFit};
ghost use Rattle.theory_combine.specs.Ready.{Checks, IsAtLast, IsMetAtLast, IsReady, Steps};
ghost use Rattle.theory_combine.specs.Settled.{IsToldWhereEmpty};
ghost use Rattle.theory_combine.specs.Settling.{IsAtomTold, AreAtomsTold, AreValuesBy, HasTellableInts, IsGivenBy, KeepsParts};

use crate::clashes::meet_clash;
use crate::distincts::unnumbered_ints;
use crate::listing::{class_numbers, told_truths};
use crate::pairs::go_on_with_pair;
use crate::parts::{Pair, Parts, Progress};
use crate::settled::{settle_if_fit, untrue_bound};
use crate::step::{Step, checked, stays, stop_seeing};
use crate::unfit::unfolded_seen;
use crate::xors::broken_xor;
use atom_form::NumberedAtom;
use check_atoms::parts_have_numbers;
use closure_log::{
    Closed, choices_are_by_class, comparisons_are_by_class, distincts_are_by_class, equal_distinct,
    whole_closure,
};
use congruence::Congruence;
use exact_model::{
    Exactly, InModel, end_exactly, first_fit, given_exactly, listed_bounds_are_met,
    listed_numbers_are_of_forms, listed_truths_fit, listed_values, listed_values_have_sorts,
    operators_are_decided, tables_give_exact_values, tables_within_are_models,
};
use first_clauses::parts_hold_of_each;
use model_build::{Given, Modelled, model_from};
use order_clauses::numbers_are_found;
use search_port::{Budget, Cause, Checked, Lemma};
use smt_laws::flat_says_the_same;
use smt_meaning::{Interp, RangeSeen, Value};
use std::alloc::AllocError;

/// Goes on from a bound of the empty sum that is told other than it is.
fn settle_bound(
    parts: &Parts<'_>,
    progress: &Progress,
    budget: &Budget,
    number: u32,
) -> Option<Step>
    requires at_last { IsAtLast parts.now progress.now }
    requires within { number < length progress.now.atoms.atoms }
    ensures { MatchOption result (IsToldWhereEmpty progress.now.atoms.atoms progress.now.held.closure.log.items number) (Steps parts.now progress.now progress.now budget.now budget.now) }
{
    stays(parts, progress, budget);
    match untrue_bound(parts, progress, number) {
        Err(_) => Some(Step::Ended(Cause::Memory)),
        Ok(Some(clause)) => Some(Step::Conflict(clause)),
        Ok(None) => None,
    }
}

/// Goes on from an atom that is told other than the values have it: a bound of the empty sum, or an equality of Ints.
fn settle_atom(
    parts: &Parts<'_>,
    progress: &mut Progress,
    budget: &mut Budget,
    number: u32,
) -> Option<Step>
    requires met { IsMetAtLast parts.now progress.old }
    requires within { number < length progress.old.atoms.atoms }
    ensures some { IfSome result (Steps parts.now progress.old progress.new budget.old budget.new) }
    ensures none { IfNone result (IsAtomTold parts.now progress.old number) }
    ensures same { IfNone result (progress.new ≡ progress.old) }
    ensures unspent { IfNone result (budget.new ≡ budget.old) }
{
    match progress.atoms.atom(number) {
        NumberedAtom::Truth(_) => None,
        NumberedAtom::Same(left, right) => settle_if_fit(
            parts,
            progress,
            budget,
            Pair { left, right },
        ),
        NumberedAtom::Bound(_) => settle_bound(parts, progress, budget, number),
    }
}

/// Goes on from the first atom that is told other than the values have it.
pub(crate) fn settle_atoms(
    parts: &Parts<'_>,
    progress: &mut Progress,
    budget: &mut Budget,
) -> Option<Step>
    requires met { IsMetAtLast parts.now progress.old }
    ensures some { IfSome result (Steps parts.now progress.old progress.new budget.old budget.new) }
    ensures none { IfNone result (AreAtomsTold parts.now progress.old) }
    ensures same { IfNone result (progress.new ≡ progress.old) }
    ensures unspent { IfNone result (budget.new ≡ budget.old) }
{
    for number in 0..progress.atoms.len() {
        match settle_atom(parts, progress, budget, number as u32) {
            Some(step) => return Some(step),
            None => {}
        }
    }
    None
}

/// The closure of all that the log says of terms, or a clause that is false.
fn closed(parts: &Parts<'_>, progress: &Progress) -> Result<Closed, AllocError>
    requires { IsReady parts.now progress.now }
    ensures { IfOk result (IsClosed parts.now.stack.now progress.now.atoms.atoms progress.now.held.closure.log.items) }
{
    whole_closure(
        parts.alloc,
        parts.stack,
        &progress.atoms,
        &progress.held.scan.places,
        &progress.held.closure.log,
    )
}

/// A clause that is false: of a wide `xor`, or of a wide `distinct` of which two arguments are in one class.
fn broken_part(
    parts: &Parts<'_>,
    progress: &Progress,
    closure: &Congruence,
) -> Result<Option<Lemma>, AllocError>
    requires ready { IsReady parts.now progress.now }
    requires closure { IsWholeAndApart parts.now.stack.now progress.now.atoms.atoms progress.now.held.closure.log.items closure.now }
    ensures { IfOk result (λ o. MatchOption o (KeepsParts parts.now progress.now closure.now) (IsConflict (state_of parts.now.stack.now progress.now.atoms.atoms progress.now.held.closure.log.items))) }
{
    let wide = &parts.wide_xors;
    let broken = broken_xor(
        parts.alloc,
        &progress.held,
        parts.stack,
        &progress.atoms,
        wide,
    )?;
    if broken.is_some() {
        return Ok(broken);
    }
    equal_distinct(
        parts.alloc,
        closure,
        parts.stack,
        &progress.atoms,
        &progress.held.scan.places,
        &progress.held.closure.log,
        &parts.wide_distincts,
    )
}

/// What the terms' values are: of Bools the truths told, of Ints those of the variables of leaves, of elements the numbers of their classes.
fn values_by(
    parts: &Parts<'_>,
    progress: &Progress,
    closure: &Congruence,
) -> Result<Vec<Value>, AllocError>
    requires met { IsMetAtLast parts.now progress.now }
    requires told { AreAtomsTold parts.now progress.now }
    requires closure { IsWholeAndApart parts.now.stack.now progress.now.atoms.atoms progress.now.held.closure.log.items closure.now }
    ensures { IfOk result (λ vs. AreValuesBy parts.now progress.now closure.now vs.items) }
{
    parts_hold_of_each();
    listed_values_have_sorts();
    listed_truths_fit();
    listed_bounds_are_met();
    listed_numbers_are_of_forms();
    let _sorts = parts.stack.sorts();
    parts.stack.laws();
    progress.held.bounds.facts();
    let truths = told_truths(parts, progress)?;
    let classes = class_numbers(parts.alloc, closure, parts.stack.terms().len())?;
    listed_values(
        parts.alloc,
        parts.stack,
        &parts.marks,
        &progress.held.bounds,
        &truths,
        &classes,
    )
}

/// Doesn't go on from a model in which a number leaves the range.
fn stop_in_model(
    parts: &Parts<'_>,
    progress: &mut Progress,
    budget: &Budget,
    found: InModel,
) -> Step
    requires ready { IsReady parts.now progress.old }
    requires found { (table : List Atom) → Knows table progress.old.held.bounds → LeavesInModel parts.now.stack.now.trees (flat parts.now.stack.now.frames) (column_sums progress.old.held.bounds) (Contains table) found.tables found.place found.grid }
    ensures { Steps parts.now progress.old progress.new budget.now budget.now result }
{
    let seen = RangeSeen::Model(found.tables, found.place, found.grid);
    stop_seeing(parts, progress, budget, Some(seen))
}

/// Ends with tables under which terms have their exact values: a model, or a number that leaves the range.
fn settle_tables(
    parts: &Parts<'_>,
    progress: &mut Progress,
    budget: &Budget,
    closure: &Congruence,
    values: &[Value],
    tables: Interp,
) -> Checked
    requires at_last { IsAtLast parts.now progress.old }
    requires told { AreAtomsTold parts.now progress.old }
    requires values { AreValuesBy parts.now progress.old closure.now values.now }
    requires tables { AreTablesFor (signature_of parts.now.stack.now.frames) tables }
    requires exact { GiveExactValues parts.now.stack.now.trees parts.now.marks.items values.now tables }
    ensures { Checks parts.now progress.old progress.new budget.now budget.now result }
{
    stays(parts, progress, budget);
    flat_says_the_same();
    first_fit();
    tables_within_are_models();
    parts.stack.laws();
    let ended = end_exactly(
        parts.alloc,
        parts.stack,
        &parts.marks,
        &progress.held.bounds,
        values,
        tables,
    );
    match ended {
        Err(_) => Checked::Ended(Cause::Memory),
        Ok(Exactly::Within(tables)) => Checked::Fine(tables),
        Ok(Exactly::Past(found)) => checked(stop_in_model(parts, progress, budget, found)),
    }
}

/// Goes on from what the terms are given, where wide `distinct`s tell Ints that are given one value apart by equalities that have numbers.
fn settle_apart(
    parts: &Parts<'_>,
    progress: &mut Progress,
    budget: &mut Budget,
    closure: &Congruence,
    values: &[Value],
    given: &[Given],
) -> Checked
    requires met { IsMetAtLast parts.now progress.old }
    requires told { AreAtomsTold parts.now progress.old }
    requires parts { KeepsParts parts.now progress.old closure.now }
    requires values { AreValuesBy parts.now progress.old closure.now values.now }
    requires given { IsGivenBy parts.now values.now given.now }
    requires tellable { All (HasTellableInts parts.now progress.old given.now) parts.now.wide_distincts.items }
    ensures { Checks parts.now progress.old progress.new budget.old budget.new result }
{
    stays(parts, progress, budget);
    numbers_are_found();
    parts_have_numbers();
    operators_are_decided();
    comparisons_are_by_class();
    choices_are_by_class();
    distincts_are_by_class();
    tables_give_exact_values();
    parts.stack.laws();
    match model_from(parts.alloc, parts.stack, given) {
        Err(_) => Checked::Ended(Cause::Memory),
        Ok(Modelled::Clash(clash)) => checked(meet_clash(
            parts, progress, budget, closure, given, clash,
        )),
        Ok(Modelled::Tables(tables)) => {
            settle_tables(parts, progress, budget, closure, values, tables)
        }
    }
}

/// Goes on from what the terms are given.
fn settle_given(
    parts: &Parts<'_>,
    progress: &mut Progress,
    budget: &mut Budget,
    closure: &Congruence,
    values: &[Value],
    given: &[Given],
) -> Checked
    requires met { IsMetAtLast parts.now progress.old }
    requires told { AreAtomsTold parts.now progress.old }
    requires parts { KeepsParts parts.now progress.old closure.now }
    requires values { AreValuesBy parts.now progress.old closure.now values.now }
    requires given { IsGivenBy parts.now values.now given.now }
    ensures { Checks parts.now progress.old progress.new budget.old budget.new result }
{
    stays(parts, progress, budget);
    match unnumbered_ints(parts, progress, given) {
        Err(_) => Checked::Ended(Cause::Memory),
        Ok(Some(pair)) => checked(go_on_with_pair(parts, progress, budget, pair)),
        Ok(None) => settle_apart(parts, progress, budget, closure, values, given),
    }
}

/// Goes on from the terms' values.
fn settle_listed(
    parts: &Parts<'_>,
    progress: &mut Progress,
    budget: &mut Budget,
    closure: &Congruence,
    values: &[Value],
) -> Checked
    requires met { IsMetAtLast parts.now progress.old }
    requires told { AreAtomsTold parts.now progress.old }
    requires parts { KeepsParts parts.now progress.old closure.now }
    requires folds { AllFold parts.now.stack.now.trees parts.now.marks.items }
    requires values { AreValuesBy parts.now progress.old closure.now values.now }
    ensures { Checks parts.now progress.old progress.new budget.old budget.new result }
{
    stays(parts, progress, budget);
    let given = given_exactly(
        parts.alloc,
        parts.stack,
        &parts.marks,
        &progress.forms,
        values,
    );
    match given {
        Err(_) => Checked::Ended(Cause::Memory),
        Ok(given) => settle_given(parts, progress, budget, closure, values, &given),
    }
}

/// Goes on to the terms' values.
fn settle_values(
    parts: &Parts<'_>,
    progress: &mut Progress,
    budget: &mut Budget,
    closure: &Congruence,
) -> Checked
    requires met { IsMetAtLast parts.now progress.old }
    requires told { AreAtomsTold parts.now progress.old }
    requires closure { IsWholeAndApart parts.now.stack.now progress.old.atoms.atoms progress.old.held.closure.log.items closure.now }
    requires parts { KeepsParts parts.now progress.old closure.now }
    requires folds { AllFold parts.now.stack.now.trees parts.now.marks.items }
    ensures { Checks parts.now progress.old progress.new budget.old budget.new result }
{
    stays(parts, progress, budget);
    match values_by(parts, progress, closure) {
        Err(_) => Checked::Ended(Cause::Memory),
        Ok(values) => settle_listed(parts, progress, budget, closure, &values),
    }
}

/// Goes on from a closure of all that the log says of terms.
fn settle_closure(
    parts: &Parts<'_>,
    progress: &mut Progress,
    budget: &mut Budget,
    closure: &Congruence,
) -> Checked
    requires met { IsMetAtLast parts.now progress.old }
    requires told { AreAtomsTold parts.now progress.old }
    requires closure { IsWholeAndApart parts.now.stack.now progress.old.atoms.atoms progress.old.held.closure.log.items closure.now }
    ensures { Checks parts.now progress.old progress.new budget.old budget.new result }
{
    stays(parts, progress, budget);
    match broken_part(parts, progress, closure) {
        Err(_) => Checked::Ended(Cause::Memory),
        Ok(Some(clause)) => Checked::Conflict(clause),
        Ok(None) => match unfolded_seen(parts, progress) {
            Some(seen) => checked(stop_seeing(parts, progress, budget, Some(seen))),
            None => settle_values(parts, progress, budget, closure),
        },
    }
}

/// A last check whose values are whole and meet all bounds: a model, a clause that is false, an atom more, or where a number left the range.
pub(crate) fn settle(parts: &Parts<'_>, progress: &mut Progress, budget: &mut Budget) -> Checked
    requires met { IsMetAtLast parts.now progress.old }
    ensures { Checks parts.now progress.old progress.new budget.old budget.new result }
{
    if let Some(step) = settle_atoms(parts, progress, budget) {
        return checked(step);
    }
    stays(parts, progress, budget);
    match closed(parts, progress) {
        Err(_) => Checked::Ended(Cause::Memory),
        Ok(Closed::Broken(clause)) => Checked::Conflict(clause),
        Ok(Closed::Apart(closure)) => settle_closure(parts, progress, budget, &closure),
    }
}
