//! A model of what was told, from values, which is evaluated before it is given.
ghost use Rattle.std.specs.Prelude.{◌<◌, length, IfOk};
ghost use Rattle.smt_meaning.specs.Interpretation.{AreTablesFor};
ghost use Rattle.smt_meaning.specs.Stack.{signature_of};
ghost use Rattle.model_build.specs.Building.{AreGiven};
ghost use Rattle.theory_combine.specs.Found.{IsFound};
ghost use Rattle.theory_combine.specs.Ready.{IsAtLast, IsReady};

use crate::apart::moved_numbers;
use crate::distincts::equal_pairs;
use crate::held::leads;
use crate::parts::{Pair, Parts, Progress};
use crate::values::{Untied, values_of};
use exact_model::{Verdict, tables_make_true};
use model_build::{Clash, Given, Modelled, PlaceValues, given_values, model_from};
use smt_laws::flat_says_the_same;
use smt_meaning::Interp;
use std::alloc::AllocError;

/// What is found where the values meet all bounds.
#[derive(Drop)]
pub(crate) enum Found {
    /// Tables that make each literal told true.
    Fine(Interp),
    /// Two applications that are given different values, while no table can tell their arguments apart.
    Apart(Clash),
    /// Pairs of Ints that have one value, and that a wide `distinct` tells apart.
    Equal(Vec<Pair>),
    /// The values make a literal false, or leave the range.
    Unfit,
}

/// What the terms are given. An `Err` is for want of memory.
fn given_by(
    parts: &Parts<'_>,
    progress: &Progress,
    untied: Untied,
    moved: &[i128],
) -> Result<Vec<Given>, AllocError>
    requires { IsAtLast parts.now progress.now }
    ensures { IfOk result (λ given. AreGiven (signature_of parts.now.stack.now.frames) parts.now.stack.now.trees given.items) }
{
    let chosen = values_of(parts, progress, untied, moved)?;
    let values = PlaceValues {
        truths: &chosen.truths,
        numbers: &chosen.numbers,
        elements: &chosen.elements,
    };
    let sorts = parts.stack.sorts();
    given_values(parts.alloc, parts.stack, &parts.marks, sorts, &values)
}

/// Whether a value is past the range.
fn leaves_range(given: &[Given]) -> bool {
    for one in given {
        if matches!(one, Given::PastRange) {
            return true;
        }
    }
    false
}

/// What the terms are given: Ints that no bound ties differ, unless a value is past the range then. An `Err` is for want of memory.
fn first_given(parts: &Parts<'_>, progress: &Progress) -> Result<Vec<Given>, AllocError>
    requires { IsAtLast parts.now progress.now }
    ensures { IfOk result (λ given. AreGiven (signature_of parts.now.stack.now.frames) parts.now.stack.now.trees given.items) }
{
    let spread = given_by(parts, progress, Untied::Spread, &[])?;
    if leaves_range(&spread) {
        let given = given_by(parts, progress, Untied::Zero, &[])?;
        Ok(given)
    } else {
        Ok(spread)
    }
}

/// Tables that make each literal told true, if these do. An `Err` is for want of memory.
fn evaluate(parts: &Parts<'_>, progress: &Progress, tables: Interp) -> Result<Found, AllocError>
    requires ready { IsReady parts.now progress.now }
    requires tables { AreTablesFor (signature_of parts.now.stack.now.frames) tables }
    ensures { IfOk result (IsFound parts.now.stack.now progress.now.atoms.atoms progress.now.held.closure.log.items) }
{
    flat_says_the_same();
    let verdict = tables_make_true(
        parts.alloc,
        parts.stack.terms(),
        &parts.marks,
        &progress.atoms,
        &progress.held.closure.log,
        &tables,
    )?;
    match verdict {
        Verdict::AllTrue => Ok(Found::Fine(tables)),
        _ => Ok(Found::Unfit),
    }
}

/// Tables of numbers that were moved, where these make each literal told true, or else the clash of those that stand. An `Err` is for want of memory.
fn evaluate_moved(
    parts: &Parts<'_>,
    progress: &Progress,
    tables: Interp,
    clash: Clash,
) -> Result<Found, AllocError>
    requires ready { IsReady parts.now progress.now }
    requires tables { AreTablesFor (signature_of parts.now.stack.now.frames) tables }
    requires first { clash.first < length parts.now.stack.now.trees }
    requires second { clash.second < length parts.now.stack.now.trees }
    ensures { IfOk result (IsFound parts.now.stack.now progress.now.atoms.atoms progress.now.held.closure.log.items) }
{
    match evaluate(parts, progress, tables)? {
        Found::Fine(tables) => Ok(Found::Fine(tables)),
        _ => Ok(Found::Apart(clash)),
    }
}

/// What is found with numbers that are moved apart: tables, or else two applications that clash all the same. The clash of the numbers that stand, where those moved give neither. An `Err` is for want of memory.
fn find_moved(parts: &Parts<'_>, progress: &Progress, clash: Clash) -> Result<Found, AllocError>
    requires at_last { IsAtLast parts.now progress.now }
    requires first { clash.first < length parts.now.stack.now.trees }
    requires second { clash.second < length parts.now.stack.now.trees }
    ensures { IfOk result (IsFound parts.now.stack.now progress.now.atoms.atoms progress.now.held.closure.log.items) }
{
    let Some(moved) = moved_numbers(parts, &progress.held)? else {
        return Ok(Found::Apart(clash));
    };
    let given = given_by(parts, progress, Untied::Spread, &moved)?;
    if leaves_range(&given) || !equal_pairs(parts, &given)?.is_empty() {
        return Ok(Found::Apart(clash));
    }
    match model_from(parts.alloc, parts.stack, &given)? {
        Modelled::Clash(other) => Ok(Found::Apart(other)),
        Modelled::Tables(tables) => evaluate_moved(parts, progress, tables, clash),
    }
}

/// Tables that make each literal told true, if the values give them and tell apart what wide `distinct`s do. Numbers of differences with which a value is past the range give none, so that those of the rows are tried. An `Err` is for want of memory.
pub(crate) fn find_model(parts: &Parts<'_>, progress: &Progress) -> Result<Found, AllocError>
    requires { IsAtLast parts.now progress.now }
    ensures { IfOk result (IsFound parts.now.stack.now progress.now.atoms.atoms progress.now.held.closure.log.items) }
{
    let given = first_given(parts, progress)?;
    if leads(&progress.held) && leaves_range(&given) {
        return Ok(Found::Unfit);
    }
    let equal = equal_pairs(parts, &given)?;
    if !equal.is_empty() {
        return Ok(Found::Equal(equal));
    }
    match model_from(parts.alloc, parts.stack, &given)? {
        Modelled::Clash(clash) => find_moved(parts, progress, clash),
        Modelled::Tables(tables) => evaluate(parts, progress, tables),
    }
}
