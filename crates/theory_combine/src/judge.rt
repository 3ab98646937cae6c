//! What is found between decisions, and where every atom has a truth value.
ghost use Rattle.std.specs.Prelude.{IfOk, IfSome, IfNone};
ghost use Rattle.search_port.specs.Calls.{IsConflict, InferredBy};
ghost use Rattle.search_port.specs.Spending.{Spending};
ghost use Rattle.sum_bounds.specs.Bounds.{AreWhole, IsFirstIn};
ghost use Rattle.closure_log.specs.Seen.{state_of};
ghost use Rattle.theory_combine.specs.declared.held.Met.TheVariants.{Fits};
ghost use Rattle.theory_combine.specs.Found.{IsClashFound};
ghost use Rattle.theory_combine.specs.Held.{AllFit};
ghost use Rattle.theory_combine.specs.Progress.{state, AreParts, Went};
ghost use Rattle.theory_combine.specs.Steps.{IsStep, StepInfers};
ghost use Rattle.theory_combine.specs.Kept.{IsHeldOf, KeepsHeld};
ghost use Rattle.theory_combine.specs.Pairs.{IsWanted};
ghost use Rattle.theory_combine.specs.Ready.{Checks, HasMet, Infers, IsAtLast, IsMetAtLast, IsReady, Steps};

use crate::branch::branch;
use crate::cycles::{follow_differences, meet_differences};
use crate::distincts::equal_arguments;
use crate::held::{Held, Met, follow, leads, meet_wholes};
use crate::implied::follow_rows;
use crate::model::{Found, find_model};
use crate::pairs::{go_on_with_pair, next_pair};
use crate::parts::{Pair, Parts, Progress};
use crate::pivots::meet_within;
use crate::settle::settle;
use crate::step::{Step, checked, stays, stop_past};
use crate::wanted::want;
use crate::xors::{broken_xor, follow_xors};
use atom_form::AtomNumbers;
use search_port::{Budget, Cause, Checked, Inferred, Lemma};
use std::alloc::AllocError;
use sum_bounds::FractionalLeaf;

/// What a step comes to between decisions.
fn inferred(step: Step) -> Inferred
    ensures { StepInfers step result }
{
    match step {
        Step::Lemmas(lemmas) => Inferred::Lemmas(lemmas),
        Step::Conflict(clause) => Inferred::Conflict(clause),
        Step::Ended(cause) => Inferred::Ended(cause),
    }
}

/// Goes on from a term whose value isn't whole: a row may show that no whole numbers do, else there is a branch.
fn make_whole(
    parts: &Parts<'_>,
    progress: &mut Progress,
    budget: &mut Budget,
    leaf: FractionalLeaf,
) -> Step
    requires at_last { IsAtLast parts.now progress.old }
    requires first { IsFirstIn progress.old.held.bounds.bounds.columns leaf }
    requires fits { AllFit progress.old.held.bounds }
    ensures { Steps parts.now progress.old progress.new budget.old budget.new result }
{
    let found = meet_wholes(parts.alloc, &progress.held, parts.stack, &progress.atoms);
    stays(parts, progress, budget);
    match found {
        Ok(Some(clause)) => Step::Conflict(clause),
        Ok(None) => branch(parts, progress, budget, leaf),
        Err(_) => Step::Ended(Cause::Memory),
    }
}

/// The newest pair of Ints whose equality is to get a number after what was found, if there is one: of two applications that clash, or of Ints that a wide `distinct` tells
/// apart and that have one value. No pairs are left from before, since each gets its number between decisions. An `Err` is for want of memory.
fn wanted_pair(
    parts: &Parts<'_>,
    pairs: &mut Vec<Pair>,
    atoms: &AtomNumbers,
    found: Found,
) -> Result<Option<Pair>, AllocError>
    requires parts { AreParts parts.now }
    requires clash { IsClashFound parts.now.stack.now found }
    ensures { IfOk result (λ o. IfSome o (IsWanted parts.now.stack.now parts.now.marks.items atoms.now.atoms)) }
{
    match found {
        Found::Fine(_) | Found::Unfit => return Ok(None),
        Found::Apart(clash) => want(pairs, parts.stack, clash)?,
        Found::Equal(equal) => *pairs = equal,
    }
    Ok(next_pair(parts, pairs, atoms))
}

/// Goes on from values that meet all bounds and are whole, and make no model: with a pair that is wanted, or by the slow way.
fn go_on_from(
    parts: &Parts<'_>,
    progress: &mut Progress,
    budget: &mut Budget,
    found: Found,
) -> Checked
    requires met { IsMetAtLast parts.now progress.old }
    requires clash { IsClashFound parts.now.stack.now found }
    ensures { Checks parts.now progress.old progress.new budget.old budget.new result }
{
    let wanted = wanted_pair(parts, &mut progress.pairs, &progress.atoms, found);
    stays(parts, progress, budget);
    match wanted {
        Err(_) => Checked::Ended(Cause::Memory),
        Ok(Some(pair)) => checked(go_on_with_pair(parts, progress, budget, pair)),
        Ok(None) => settle(parts, progress, budget),
    }
}

/// A last check where the values meet all bounds.
fn judge_values(parts: &Parts<'_>, progress: &mut Progress, budget: &mut Budget) -> Checked
    requires at_last { IsAtLast parts.now progress.old }
    requires fits { AllFit progress.old.held.bounds }
    ensures { Checks parts.now progress.old progress.new budget.old budget.new result }
{
    stays(parts, progress, budget);
    if let Some(leaf) = progress.held.bounds.first_fraction() {
        return checked(make_whole(parts, progress, budget, leaf));
    }
    match find_model(parts, progress) {
        Err(_) => Checked::Ended(Cause::Memory),
        Ok(Found::Fine(tables)) => Checked::Fine(tables),
        Ok(found) => go_on_from(parts, progress, budget, found),
    }
}

/// Meets the bounds by the rows of sums. `None` where the values do.
fn meet_sums(parts: &Parts<'_>, progress: &mut Progress, budget: &mut Budget) -> Option<Step>
    requires { IsReady parts.now progress.old }
    ensures went { Went parts.now progress.old progress.new budget.old budget.new }
    ensures some { IfSome result (IsStep (state parts.now progress.new) budget.old budget.new) }
    ensures none { IfNone result (HasMet parts.now progress.old progress.new budget.new Fits) }
{
    match meet_within(parts, progress, budget) {
        Ok(Met::Fits) => None,
        Ok(Met::Conflict(clause)) => Some(Step::Conflict(clause)),
        Ok(Met::Past(grid)) => Some(stop_past(parts, progress, budget, grid)),
        Ok(Met::Spent) => Some(Step::Ended(Cause::Units)),
        Ok(Met::Ended) => Some(Step::Ended(Cause::Memory)),
        Err(_) => Some(Step::Ended(Cause::Memory)),
    }
}

/// A last check by the rows of sums: the bounds are to be met first.
fn judge_sums(parts: &Parts<'_>, progress: &mut Progress, budget: &mut Budget) -> Checked
    requires { IsAtLast parts.now progress.old }
    ensures { Checks parts.now progress.old progress.new budget.old budget.new result }
{
    match meet_sums(parts, progress, budget) {
        Some(step) => checked(step),
        None => judge_values(parts, progress, budget),
    }
}

/// A last check where the numbers of a graph meet all bounds, which are differences, and make no model: with a pair that is wanted, or by the rows of sums.
fn judge_further(
    parts: &Parts<'_>,
    progress: &mut Progress,
    budget: &mut Budget,
    found: Found,
) -> Checked
    requires at_last { IsAtLast parts.now progress.old }
    requires clash { IsClashFound parts.now.stack.now found }
    ensures { Checks parts.now progress.old progress.new budget.old budget.new result }
{
    let wanted = wanted_pair(parts, &mut progress.pairs, &progress.atoms, found);
    stays(parts, progress, budget);
    match wanted {
        Err(_) => Checked::Ended(Cause::Memory),
        Ok(Some(pair)) => checked(go_on_with_pair(parts, progress, budget, pair)),
        Ok(None) => {
            progress.held.looked.differences.give_up();
            judge_sums(parts, progress, budget)
        }
    }
}

/// A last check where the numbers of a graph meet all bounds, which are differences: they may be those of a model, or else the rows of sums are looked at.
fn judge_numbers(parts: &Parts<'_>, progress: &mut Progress, budget: &mut Budget) -> Checked
    requires { IsAtLast parts.now progress.old }
    ensures { Checks parts.now progress.old progress.new budget.old budget.new result }
{
    stays(parts, progress, budget);
    match find_model(parts, progress) {
        Err(_) => Checked::Ended(Cause::Memory),
        Ok(Found::Fine(tables)) => Checked::Fine(tables),
        Ok(found) => judge_further(parts, progress, budget, found),
    }
}

/// A clause that is false under what was told: of a wide `xor`, of a wide `distinct`, or of a cycle of differences.
fn broken_clause(
    parts: &Parts<'_>,
    held: &mut Held,
    atoms: &AtomNumbers,
) -> Result<Option<Lemma>, AllocError>
    requires { IsHeldOf parts.now.stack.now atoms.now.atoms held.old }
    ensures keeps { KeepsHeld parts.now.stack.now atoms.now.atoms held.old held.new }
    ensures clause { IfOk result (λ o. IfSome o (IsConflict (state_of parts.now.stack.now atoms.now.atoms held.new.closure.log.items))) }
{
    if let Some(clause) = broken_xor(parts.alloc, held, parts.stack, atoms, &parts.wide_xors)? {
        return Ok(Some(clause));
    }
    let wide = &parts.wide_distincts;
    if let Some(clause) = equal_arguments(parts.alloc, held, parts.stack, atoms, wide)? {
        return Ok(Some(clause));
    }
    meet_differences(parts.alloc, held, parts.stack, atoms)
}

/// A last check: of the wide `xor`s and `distinct`s, and of the bounds, by differences alone, where all of them are that, or else by the rows of sums.
pub(crate) fn judge(parts: &Parts<'_>, progress: &mut Progress, budget: &mut Budget) -> Checked
    requires { IsAtLast parts.now progress.old }
    ensures { Checks parts.now progress.old progress.new budget.old budget.new result }
{
    let broken = broken_clause(parts, &mut progress.held, &progress.atoms);
    stays(parts, progress, budget);
    match broken {
        Err(_) => Checked::Ended(Cause::Memory),
        Ok(Some(clause)) => Checked::Conflict(clause),
        Ok(None) => {
            if leads(&progress.held) {
                judge_numbers(parts, progress, budget)
            } else {
                judge_sums(parts, progress, budget)
            }
        }
    }
}

/// What sums show between decisions: bounds that follow by rows, where the values meet all bounds.
fn look_at_sums(parts: &Parts<'_>, progress: &mut Progress, budget: &mut Budget) -> Inferred
    requires { IsReady parts.now progress.old }
    ensures { Infers parts.now progress.old progress.new budget.old budget.new result }
{
    match meet_sums(parts, progress, budget) {
        Some(step) => inferred(step),
        None => {
            let held = &mut progress.held;
            let found = follow_rows(parts.alloc, held, parts.stack, &progress.atoms);
            stays(parts, progress, budget);
            found
        }
    }
}

/// Clauses that follow between decisions by equality, of wide `xor`s, or by differences. `None` where the rows of sums are to be looked at.
fn follow_told(parts: &Parts<'_>, held: &mut Held, atoms: &AtomNumbers) -> Option<Inferred>
    requires { IsHeldOf parts.now.stack.now atoms.now.atoms held.old }
    ensures keeps { KeepsHeld parts.now.stack.now atoms.now.atoms held.old held.new }
    ensures found { (b c : Spending) → IfSome result (InferredBy (state_of parts.now.stack.now atoms.now.atoms held.new.closure.log.items) b c) }
{
    let found = follow(parts.alloc, held, parts.stack, atoms, &parts.guide);
    if !matches!(found, Inferred::Quiet) {
        return Some(found);
    }
    let found = follow_xors(parts.alloc, held, parts.stack, atoms, &parts.wide_xors);
    if !matches!(found, Inferred::Quiet) {
        return Some(found);
    }
    follow_differences(parts.alloc, held, parts.stack, atoms)
}

/// Clauses that follow between decisions, or an atom more that was wanted.
pub(crate) fn infer_more(
    parts: &Parts<'_>,
    progress: &mut Progress,
    budget: &mut Budget,
) -> Inferred
    requires { IsReady parts.now progress.old }
    ensures { Infers parts.now progress.old progress.new budget.old budget.new result }
{
    if let Some(pair) = next_pair(parts, &mut progress.pairs, &progress.atoms) {
        return inferred(go_on_with_pair(parts, progress, budget, pair));
    }
    let found = follow_told(parts, &mut progress.held, &progress.atoms);
    stays(parts, progress, budget);
    match found {
        Some(found) => found,
        None => look_at_sums(parts, progress, budget),
    }
}
