//! Equalities of Ints that get numbers, after both bounds of the difference.
ghost use Rattle.std.specs.Prelude.{◌≡◌, ℕ, ◌<◌, List, length, true, false, All, Contains, IfSome, IfOk, IfErr, OnOk};
ghost use Rattle.fraction128.specs.Whole.{InRange};
ghost use Rattle.smt_meaning.specs.declared.clauses.Atom.TheVariants.{AtMost, Same};
ghost use Rattle.smt_meaning.specs.Term.{Tree, tree_at};
ghost use Rattle.smt_meaning.specs.Atoms.{at_most_atom};
ghost use Rattle.linear_forms.specs.Table.{AreForms};
ghost use Rattle.linear_forms.specs.Differences.{Refuses};
ghost use Rattle.pair_bounds.specs.Pairs.{at_most_fits};
ghost use Rattle.bound_log.specs.Told.{column_sums};
ghost use Rattle.bound_log.specs.Growth.{IsProper};
ghost use Rattle.theory_combine.specs.Pairs.{IsFit, IsRefused, IsSought, IsWanted};
ghost use Rattle.theory_combine.specs.Progress.{AreParts};
ghost use Rattle.theory_combine.specs.Shown.{IsLeft};
ghost use Rattle.theory_combine.specs.Ready.{IsAtMostAt, IsReady, Steps};

use crate::leaves::{is_int, is_marked_place};
use crate::numbering::{NewAtom, NewBound, number_new};
use crate::parts::{Pair, Parts, Progress};
use crate::step::{Step, go_on_with_bound, stop_seeing};
use atom_form::{AtomNumbers, CompactAtom};
use bound_log::tie_lemmas;
use check_atoms::bounds_are_over_leaves;
use linear_forms::{DifferenceError, LinearForms};
use pair_bounds::at_most;
use search_port::{Budget, Cause};
use smt_laws::{flat_says_the_same, placed_forms_fit, symbols_are_declared, value_has_its_sort};
use smt_meaning::{RangeSeen, Summand, TermId};

/// The bound that one term is at most another.
#[derive(Drop)]
enum Sought {
    /// It has this number.
    Number(u32),
    /// It has none.
    New(NewBound),
    /// Folding it leaves the range, or memory is wanting.
    Outside(DifferenceError),
}

/// Whether the equality of two terms has a number, in one order or the other.
fn is_numbered(atoms: &AtomNumbers, pair: Pair) -> bool
    ensures { result ≡ false → Contains atoms.now.atoms (Same pair.left pair.right) → ⊥ }
{
    if atoms
        .find(CompactAtom::Same(pair.left, pair.right))
        .is_some()
    {
        return true;
    }
    atoms
        .find(CompactAtom::Same(pair.right, pair.left))
        .is_some()
}

/// Whether a term is a marked Int whose bounds have its value.
pub(crate) fn is_fit(parts: &Parts<'_>, place: TermId) -> bool
    requires { AreParts parts.now }
    ensures yes { result ≡ true → IsFit parts.now.stack.now parts.now.marks.items place }
    ensures no { result ≡ false → IsFit parts.now.stack.now parts.now.marks.items place → ⊥ }
{
    let sorts = parts.stack.sorts();
    if !is_marked_place(&parts.marks, place) {
        return false;
    }
    is_int(sorts, place)
}

/// The number of a bound, or the bound.
fn look_up(atoms: &AtomNumbers, sum: Vec<Summand>, threshold: i128) -> Sought
    requires proper { All IsProper sum.items }
    requires in_range { InRange threshold }
    ensures sought { IsSought atoms.now.atoms (AtMost sum.items threshold) result }
    ensures refused { (ts : List Tree) (left right : ℕ) → IsRefused ts left right result }
{
    match atoms.find_bound(&sum, threshold) {
        Some(number) => Sought::Number(number),
        None => Sought::New(NewBound { sum, threshold }),
    }
}

/// The bound that one term is at most another.
fn seek(
    parts: &Parts<'_>,
    forms: &mut LinearForms,
    atoms: &AtomNumbers,
    left: TermId,
    right: TermId,
) -> Sought
    requires forms { AreForms parts.now.stack.now.trees forms.old }
    requires left { left < length parts.now.stack.now.trees }
    requires right { right < length parts.now.stack.now.trees }
    ensures sought { IsSought atoms.now.atoms (at_most_atom parts.now.stack.now.trees (tree_at parts.now.stack.now.trees left) (tree_at parts.now.stack.now.trees right)) result }
    ensures refused { IsRefused parts.now.stack.now.trees left right result }
    ensures same { forms.new ≡ forms.old }
{
    let _known = parts.stack.terms();
    let mut sum = Vec::new(parts.alloc);
    match at_most(forms, left, right, &mut sum) {
        Err(error) => Sought::Outside(error),
        Ok(threshold) => look_up(atoms, sum, threshold),
    }
}

/// Numbers the equality of two Ints that have both bounds of their difference, and ties it to them.
fn tie(
    parts: &Parts<'_>,
    progress: &mut Progress,
    budget: &mut Budget,
    pair: Pair,
    low: u32,
    high: u32,
) -> Step
    requires ready { IsReady parts.now progress.old }
    requires wanted { IsWanted parts.now.stack.now parts.now.marks.items progress.old.atoms.atoms pair }
    requires low { IsAtMostAt parts.now.stack.now.trees progress.old.atoms.atoms pair.left pair.right low }
    requires high { IsAtMostAt parts.now.stack.now.trees progress.old.atoms.atoms pair.right pair.left high }
    ensures { Steps parts.now progress.old progress.new budget.old budget.new result }
{
    symbols_are_declared();
    flat_says_the_same();
    value_has_its_sort();
    let same = progress.atoms.len() as u32;
    let atom = NewAtom::Equality(pair);
    match number_new(parts, progress, budget, &atom) {
        Err(cause) => Step::Ended(cause),
        Ok(()) => {
            let _few = progress.atoms.len();
            match tie_lemmas(parts.alloc, same, low, high) {
                Ok(lemmas) => Step::Lemmas(lemmas),
                Err(_) => Step::Ended(Cause::Memory),
            }
        }
    }
}

/// Whether a pair's equality may get a number, and has none.
fn is_wanted(parts: &Parts<'_>, atoms: &AtomNumbers, pair: Pair) -> bool
    requires { AreParts parts.now }
    ensures { result ≡ true → IsWanted parts.now.stack.now parts.now.marks.items atoms.now.atoms pair }
{
    if !is_fit(parts, pair.left) {
        return false;
    }
    if !is_fit(parts, pair.right) {
        return false;
    }
    !is_numbered(atoms, pair)
}

/// The newest pair whose equality is to get a number; newer ones are dropped.
pub(crate) fn next_pair(
    parts: &Parts<'_>,
    pairs: &mut Vec<Pair>,
    atoms: &AtomNumbers,
) -> Option<Pair>
    requires { AreParts parts.now }
    ensures { IfSome result (IsWanted parts.now.stack.now parts.now.marks.items atoms.now.atoms) }
{
    for _turn in 0..pairs.len() {
        let Some(pair) = pairs.last() else {
            return None;
        };
        let pair = *pair;
        if is_wanted(parts, atoms, pair) {
            return Some(pair);
        }
        let _ = pairs.pop();
    }
    None
}

/// What folding the bound of two Int parts shows, where it is refused: nothing only for want of memory.
fn seen_of(
    parts: &Parts<'_>,
    progress: &Progress,
    pair: Pair,
    error: DifferenceError,
) -> Option<RangeSeen>
    requires parts { AreParts parts.now }
    requires forms { AreForms parts.now.stack.now.trees progress.now.forms }
    requires left { IsFit parts.now.stack.now parts.now.marks.items pair.left }
    requires right { IsFit parts.now.stack.now parts.now.marks.items pair.right }
    requires refused { Refuses parts.now.stack.now.trees (at_most_fits parts.now.stack.now.trees) pair.left pair.right error }
    ensures { IfSome result (IsLeft parts.now.stack.now (column_sums progress.now.held.bounds) progress.now.branches) }
{
    flat_says_the_same();
    placed_forms_fit();
    parts.stack.laws();
    match error {
        DifferenceError::Term(part) => Some(RangeSeen::Coefficient(part)),
        DifferenceError::Pair => Some(RangeSeen::Pair(pair.left, pair.right)),
        DifferenceError::Memory => None,
    }
}

/// Doesn't go on where folding the bound of two Int parts is refused.
fn stop_at_pair(
    parts: &Parts<'_>,
    progress: &mut Progress,
    budget: &Budget,
    pair: Pair,
    error: DifferenceError,
) -> Step
    requires ready { IsReady parts.now progress.old }
    requires left { IsFit parts.now.stack.now parts.now.marks.items pair.left }
    requires right { IsFit parts.now.stack.now parts.now.marks.items pair.right }
    requires refused { Refuses parts.now.stack.now.trees (at_most_fits parts.now.stack.now.trees) pair.left pair.right error }
    ensures { Steps parts.now progress.old progress.new budget.now budget.now result }
{
    let seen = seen_of(parts, progress, pair, error);
    stop_seeing(parts, progress, budget, seen)
}

/// The number of the bound that one Int is at most another. An `Err` is how the search goes on where it has none: the bound gets one, or folding it is refused.
pub(crate) fn bound_number(
    parts: &Parts<'_>,
    progress: &mut Progress,
    budget: &mut Budget,
    left: TermId,
    right: TermId,
) -> Result<u32, Step>
    requires ready { IsReady parts.now progress.old }
    requires left { IsFit parts.now.stack.now parts.now.marks.items left }
    requires right { IsFit parts.now.stack.now parts.now.marks.items right }
    ensures ok { IfOk result (IsAtMostAt parts.now.stack.now.trees progress.old.atoms.atoms left right) }
    ensures same { OnOk result (progress.new ≡ progress.old) }
    ensures unspent { OnOk result (budget.new ≡ budget.old) }
    ensures err { IfErr result (Steps parts.now progress.old progress.new budget.old budget.new) }
{
    flat_says_the_same();
    bounds_are_over_leaves();
    parts.stack.laws();
    match seek(parts, &mut progress.forms, &progress.atoms, left, right) {
        Sought::Number(number) => Ok(number),
        Sought::New(bound) => Err(go_on_with_bound(parts, progress, budget, bound)),
        Sought::Outside(error) => {
            let pair = Pair { left, right };
            Err(stop_at_pair(parts, progress, budget, pair, error))
        }
    }
}

/// Goes on with the next atom of a pair: the bounds of its difference, and then its equality, which is tied to them.
pub(crate) fn go_on_with_pair(
    parts: &Parts<'_>,
    progress: &mut Progress,
    budget: &mut Budget,
    pair: Pair,
) -> Step
    requires ready { IsReady parts.now progress.old }
    requires wanted { IsWanted parts.now.stack.now parts.now.marks.items progress.old.atoms.atoms pair }
    ensures { Steps parts.now progress.old progress.new budget.old budget.new result }
{
    match bound_number(parts, progress, budget, pair.left, pair.right) {
        Err(step) => step,
        Ok(low) => match bound_number(parts, progress, budget, pair.right, pair.left) {
            Err(step) => step,
            Ok(high) => tie(parts, progress, budget, pair, low, high),
        },
    }
}
