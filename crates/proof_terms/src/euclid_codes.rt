//! The codes of the clauses of rows.
ghost use Rattle.std.specs.Prelude.{◌≡◌, ◌<◌, ◌∷◌, [], length, map, true, false, All, Ok, OnOk, IfOk};
ghost use Rattle.std.specs.List.{list_all};
ghost use Rattle.smt_meaning.specs.declared.clauses.Atom.TheVariants.{Truth};
ghost use Rattle.smt_meaning.specs.Atoms.{limit_atom, row_atoms, positive, truth_literals};
ghost use Rattle.pair_bounds.specs.Rows.{listed, limit_of_row, row_of, IsRowLimit, IsRow};
ghost use Rattle.proof_meaning.specs.Proof.{literal};
ghost use Rattle.smt_laws.specs.Rows.{place_form};
ghost use Rattle.proof_terms.specs.Range.{limit_stays, row_stays};
ghost use Rattle.proof_terms.specs.BoundCodes.{HaveJoined};
ghost use Rattle.proof_terms.specs.EuclidCodes.{KeepsRow};

use crate::bound_codes::push_bound;
use crate::clauses::Clauses;
use crate::terms::{Stop, Terms};
use crate::verdict::Verdict;
use pair_bounds::{Row, RowLimit};
use smt_meaning::TermId;
use std::alloc::{AllocError, Global};

/// Adds the code of a truth's literal.
fn push_truth(
    clauses: &mut Clauses,
    codes: &mut Vec<u32>,
    positive: bool,
    place: TermId,
) -> Result<(), AllocError>
    ensures { OnOk result (HaveJoined clauses.old clauses.new codes.old.items codes.new.items (literal positive (Truth place) ∷ [])) }
{
    let code = clauses.truth(positive, place)?;
    codes.push(code)?;
    Ok(())
}

/// Adds the code of the literal that a term has a truth value, if there is one.
fn push_value(
    clauses: &mut Clauses,
    codes: &mut Vec<u32>,
    value: Option<bool>,
    place: TermId,
) -> Result<(), AllocError>
    ensures { OnOk result (HaveJoined clauses.old clauses.new codes.old.items codes.new.items (truth_literals place value)) }
{
    match value {
        Some(positive) => push_truth(clauses, codes, positive, place),
        None => Ok(()),
    }
}

/// Adds the code of the bound of a limit. `false`: folding it leaves the range.
fn push_limit(
    alloc: Global,
    terms: &mut Terms<'_>,
    clauses: &mut Clauses,
    codes: &mut Vec<u32>,
    limit: RowLimit,
) -> Result<bool, AllocError>
    requires { IsRowLimit (length terms.old.nodes) limit }
    ensures fits { result ≡ Ok true → limit_stays terms.old.trees (limit_of_row limit) ≡ true }
    ensures joined { result ≡ Ok true → HaveJoined clauses.old clauses.new codes.old.items codes.new.items (literal true (limit_atom (place_form terms.old.trees) (limit_of_row limit)) ∷ []) }
    ensures outside { result ≡ Ok false → limit_stays terms.old.trees (limit_of_row limit) ≡ false }
    ensures same { terms.new ≡ terms.old }
{
    let mut sum = Vec::new(alloc);
    match terms.limit_bound(limit, &mut sum) {
        Ok(most) => {
            push_bound(clauses, codes, true, sum.as_slice(), most)?;
            Ok(true)
        }
        Err(Stop::Range) => Ok(false),
        Err(Stop::Memory) => Err(AllocError),
    }
}

/// Adds the code of the bound of a limit, if there is one. `false`: folding it leaves the range.
fn push_other(
    alloc: Global,
    terms: &mut Terms<'_>,
    clauses: &mut Clauses,
    codes: &mut Vec<u32>,
    other: Option<RowLimit>,
) -> Result<bool, AllocError>
    requires { All (IsRowLimit (length terms.old.nodes)) (listed other) }
    ensures fits { result ≡ Ok true → list_all (limit_stays terms.old.trees) (map limit_of_row (listed other)) ≡ true }
    ensures joined { result ≡ Ok true
        → HaveJoined clauses.old clauses.new codes.old.items codes.new.items (map positive (map (limit_atom (place_form terms.old.trees)) (map limit_of_row (listed other)))) }
    ensures outside { result ≡ Ok false → list_all (limit_stays terms.old.trees) (map limit_of_row (listed other)) ≡ false }
    ensures same { terms.new ≡ terms.old }
{
    match other {
        Some(limit) => push_limit(alloc, terms, clauses, codes, limit),
        None => Ok(true),
    }
}

/// Adds the codes of the bounds of a row. `false`: folding one leaves the range.
fn push_limits(
    alloc: Global,
    terms: &mut Terms<'_>,
    clauses: &mut Clauses,
    codes: &mut Vec<u32>,
    row: Row,
) -> Result<bool, AllocError>
    requires { IsRow (length terms.old.nodes) row }
    ensures fits { result ≡ Ok true → row_stays terms.old.trees (row_of row) ≡ true }
    ensures joined { result ≡ Ok true → HaveJoined clauses.old clauses.new codes.old.items codes.new.items (map positive (row_atoms (place_form terms.old.trees) (row_of row))) }
    ensures outside { result ≡ Ok false → row_stays terms.old.trees (row_of row) ≡ false }
    ensures same { terms.new ≡ terms.old }
{
    if push_limit(alloc, terms, clauses, codes, row.limit)? {
        push_other(alloc, terms, clauses, codes, row.other)
    } else {
        Ok(false)
    }
}

/// Keeps the clause of a row of a term.
pub(crate) fn keep_row(
    alloc: Global,
    terms: &mut Terms<'_>,
    clauses: &mut Clauses,
    place: TermId,
    row: Row,
) -> Result<Verdict, AllocError>
    requires { IsRow (length terms.old.nodes) row }
    ensures keeps { IfOk result (KeepsRow clauses.old clauses.new terms.old.trees place (row_of row)) }
    ensures same { terms.new ≡ terms.old }
{
    let mut codes = Vec::new(alloc);
    push_value(clauses, &mut codes, row.truth, place)?;
    if !push_limits(alloc, terms, clauses, &mut codes, row)? {
        return Ok(Verdict::Range);
    }
    clauses.keep(&mut codes)?;
    Ok(Verdict::Good)
}
