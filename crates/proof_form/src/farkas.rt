//! Multiples of bounds that add up to a contradiction.
ghost use Rattle.std.specs.Prelude.{◌≡◌, ◌++◌, ◌∷◌, ◌&&◌, [], List, All, IfOk, OnOk, IsTrue, ◌↔◌, true};
ghost use Rattle.fraction128.specs.Number.{is_positive};
ghost use Rattle.smt_meaning.specs.declared.clauses.Literal.{Literal as LiteralValue};
ghost use Rattle.proof_meaning.specs.declared.proof.Step.TheVariants.{Farkas};
ghost use Rattle.smt_meaning.specs.Term.{Tree};
ghost use Rattle.proof_terms.specs.Comes.{Comes};
ghost use Rattle.proof_read.specs.Written.{numbers_fit};
ghost use Rattle.proof_terms.specs.Range.{IsWeighted};
ghost use Rattle.proof_terms.specs.Kept.{KeepsAll};
ghost use Rattle.proof_form.specs.FarkasSums.{AreMultiples, ComeTo, is_bound, multiplies_bound, literals_of, verdict_by};

use crate::farkas_entries::{add_parts, sort_by_leaf};
use crate::farkas_sums::are_zero;
use fraction128::Fraction;
use proof_meaning::Weighted;
use proof_terms::{Clauses, Terms, Verdict, is_literal};
use smt_meaning::Atom;
use std::alloc::{AllocError, Global};

/// Whether an atom is a bound.
fn is_bound(atom: &Atom) -> bool
    ensures { result ≡ is_bound atom.now }
{
    matches!(atom, Atom::AtMost(_, _))
}

/// Whether a multiplier is above 0, and its literal is one on a bound.
fn multiplies_bound(weighted: &Weighted) -> bool
    ensures { result ≡ multiplies_bound weighted.now }
{
    weighted.numerator > 0 && weighted.denominator > 0 && is_bound(&weighted.literal.atom)
}

/// Whether a multiplier is above 0, and its literal is one on a bound over the terms.
fn is_weighted(terms: &Terms<'_>, weighted: &Weighted) -> bool
    ensures { IsTrue result ↔ IsWeighted terms.now.declared terms.now.trees weighted.now }
{
    if multiplies_bound(weighted) {
        is_literal(terms, &weighted.literal)
    } else {
        false
    }
}

/// Whether all multipliers are above 0, and their literals ones on bounds over the terms.
fn are_weighted(terms: &Terms<'_>, weighted: &[Weighted]) -> bool
    ensures { IsTrue result ↔ All (IsWeighted terms.now.declared terms.now.trees) weighted.now }
{
    for part in weighted {
        if !is_weighted(terms, part) {
            return false;
        }
    }
    true
}

/// Whether a fraction is above 0.
fn is_above(fraction: Fraction) -> bool
    ensures { result ≡ is_positive fraction }
{
    fraction.numerator() > 0
}

/// The verdict where the leaves' sums are 0 or not, and the constants' sum is this.
fn verdict_of(zero: bool, constant: Fraction) -> Verdict
    ensures { result ≡ verdict_by (zero && is_positive constant) }
{
    if zero && is_above(constant) {
        Verdict::Good
    } else {
        Verdict::Wrong
    }
}

/// The verdict on multiples of bounds: whether all leaves' sums are 0 and the constants' sum is above 0.
fn come_to(alloc: Global, weighted: &[Weighted]) -> Result<Verdict, AllocError>
    requires { AreMultiples weighted.now }
    ensures { IfOk result (ComeTo weighted.now) }
{
    let mut entries = Vec::new(alloc);
    let Some(constant) = add_parts(weighted, &mut entries)? else {
        return Ok(Verdict::Range);
    };
    sort_by_leaf(&mut entries)?;
    let Some(zero) = are_zero(entries.as_slice()) else {
        return Ok(Verdict::Range);
    };
    Ok(verdict_of(zero, constant))
}

/// Keeps the clause of the literals.
fn keep_literals(
    alloc: Global,
    clauses: &mut Clauses,
    weighted: &[Weighted],
) -> Result<(), AllocError>
    ensures { OnOk result ((before : List (List LiteralValue)) → KeepsAll clauses.old before → KeepsAll clauses.new (before ++ literals_of weighted.now ∷ [])) }
{
    let mut codes = Vec::new(alloc);
    for part in weighted {
        let code = clauses.literal(part.literal.positive, &part.literal.atom)?;
        codes.push(code)?;
    }
    clauses.keep(&mut codes)
}

/// `(farkas (multiplier literal) ..)`
pub(crate) fn judge_farkas(
    alloc: Global,
    terms: &Terms<'_>,
    clauses: &mut Clauses,
    weighted: &[Weighted],
) -> Result<Verdict, AllocError>
    requires { numbers_fit (Farkas weighted.now) ≡ true }
    ensures { (asserted : List Tree) → IfOk result (Comes terms.now asserted clauses.old clauses.new (Farkas weighted.now)) }
{
    if !are_weighted(terms, weighted) {
        return Ok(Verdict::Wrong);
    }
    match come_to(alloc, weighted)? {
        Verdict::Good => {
            keep_literals(alloc, clauses, weighted)?;
            Ok(Verdict::Good)
        }
        Verdict::Wrong => Ok(Verdict::Wrong),
        Verdict::Range => Ok(Verdict::Range),
    }
}
