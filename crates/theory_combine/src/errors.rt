//! Bounds that can't be known or told: where a number leaves the range, a grid shows it.
ghost use Rattle.std.specs.Prelude.{◌≡◌, ◌<◌, List, length, All, Contains, IfErr, OnOk};
ghost use Rattle.fraction128.specs.Whole.{InRange};
ghost use Rattle.smt_meaning.specs.declared.clauses.Atom.{Atom};
ghost use Rattle.smt_meaning.specs.declared.clauses.Atom.TheVariants.{AtMost};
ghost use Rattle.tableau.specs.Failing.{IsRange};
ghost use Rattle.bound_log.specs.Atoms.{Knows, KnowsOneMore, SaysNothing};
ghost use Rattle.bound_log.specs.Told.{column_sums, said_at, IsPast};
ghost use Rattle.bound_log.specs.Columns.{AddsColumns};
ghost use Rattle.bound_log.specs.Growth.{GrowsVariables, IsProper};
ghost use Rattle.bound_log.specs.Pending.{FailsToTake, FailsToTell};
ghost use Rattle.theory_combine.specs.Errors.{IsErrorOver, IsErrorAt, seen_of};

use atom_form::{AtomNumbers, NumberedAtom};
use bound_log::BoundLog;
use fraction128::Grid;
use literals::Literal;
use smt_meaning::{RangeSeen, Summand};
use std::alloc::{AllocError, Global};
use tableau::Failure;

/// Why a bound isn't known or told.
#[derive(Drop)]
pub enum BoundError {
    /// Memory is wanting.
    Memory,
    /// The next step of this grid, in which the bound is taken in, leaves the range.
    Range(Grid),
}

impl From<AllocError> for BoundError {
    ghost use Rattle.std.specs.Prelude.{◌≡◌};
    ghost use Rattle.theory_combine.specs.declared.errors.BoundError.TheVariants.{Memory};

    ghost from_gives = { λ _ e. e ≡ Memory };

    fn from(_: AllocError) -> BoundError {
        BoundError::Memory
    }
}

/// What an error shows to leave the range.
pub(crate) fn seen_of(error: BoundError) -> Option<RangeSeen>
    ensures { result ≡ seen_of error }
{
    match error {
        BoundError::Memory => None,
        BoundError::Range(grid) => Some(RangeSeen::Step(grid)),
    }
}

/// Why it isn't taken in that a sum is at most a number, or that it isn't.
fn error_of(
    alloc: Global,
    bounds: &BoundLog,
    sum: &[Summand],
    number: i128,
    holds: bool,
    failure: Failure,
) -> BoundError
    requires { IsRange failure → FailsToTake bounds.now sum.now number holds }
    ensures { (known table : List Atom) → Knows known bounds.now → ((a : Atom) → Contains known a → Contains table a) → Contains table (AtMost sum.now number) → IsErrorOver (column_sums bounds.now) table result }
{
    match failure {
        Failure::Memory => BoundError::Memory,
        Failure::Range(_) => match bounds.pending_grid(alloc, sum, number, holds) {
            Ok(grid) => BoundError::Range(grid),
            Err(_) => BoundError::Memory,
        },
    }
}

/// Makes known what the atom of the next number says: that a sum is at most a threshold.
pub(crate) fn know_bound(
    alloc: Global,
    bounds: &mut BoundLog,
    sum: &[Summand],
    threshold: i128,
) -> Result<(), BoundError>
    requires sum { All IsProper sum.now }
    requires threshold { InRange threshold }
    ensures knows { OnOk result (KnowsOneMore bounds.old (AtMost sum.now threshold) bounds.new) }
    ensures columns { AddsColumns bounds.old (AtMost sum.now threshold) bounds.new }
    ensures variables { GrowsVariables bounds.old bounds.new }
    ensures log { bounds.new.log ≡ bounds.old.log }
    ensures err { IfErr result (IsErrorAt bounds.old bounds.new (AtMost sum.now threshold)) }
{
    match bounds.know_bound(alloc, sum, threshold) {
        Ok(()) => Ok(()),
        Err(failure) => Err(error_of(alloc, bounds, sum, threshold, true, failure)),
    }
}

/// Makes known that the atom of the next number says nothing of sums.
pub(crate) fn know_other(bounds: &mut BoundLog) -> Result<(), BoundError>
    ensures knows { OnOk result ((a : Atom) → SaysNothing a → KnowsOneMore bounds.old a bounds.new) }
    ensures columns { (a : Atom) → AddsColumns bounds.old a bounds.new }
    ensures variables { GrowsVariables bounds.old bounds.new }
    ensures log { bounds.new.log ≡ bounds.old.log }
    ensures err { (a : Atom) → IfErr result (IsErrorAt bounds.old bounds.new a) }
{
    bounds.know_other()?;
    Ok(())
}

/// Why a literal isn't told. Only what a bound says can leave the range.
pub(crate) fn untold(
    alloc: Global,
    bounds: &BoundLog,
    atoms: &AtomNumbers,
    literal: Literal,
    failure: Failure,
) -> BoundError
    requires numbered { literal.atom < length atoms.now.atoms }
    requires knows { Knows atoms.now.atoms bounds.now }
    requires past { IsRange failure → IsPast (said_at bounds.now.said literal.atom) literal failure }
    requires fails { IsRange failure → FailsToTell bounds.now literal }
    ensures { IsErrorOver (column_sums bounds.now) atoms.now.atoms result }
{
    let number = literal.atom();
    match atoms.atom(number) {
        NumberedAtom::Truth(_) | NumberedAtom::Same(_, _) => match failure {
            Failure::Memory => BoundError::Memory,
            Failure::Range(_) => unreachable!(),
        },
        NumberedAtom::Bound(bound) => error_of(
            alloc,
            bounds,
            atoms.sum(bound.sum),
            bound.threshold,
            literal.is_positive(),
            failure,
        ),
    }
}
