//! Equalities of Ints as bounds, and bounds divided.
ghost use Rattle.std.specs.Prelude.{◌≡◌, ◌<◌, ◌↔◌, ◌++◌, ◌∷◌, [], length, List, Ok, IfOk, OnOk, IsTrue, true, false, pos, ◌<ℤ◌};
ghost use Rattle.smt_meaning.specs.declared.clauses.Literal.{Literal as LiteralValue};
ghost use Rattle.proof_meaning.specs.declared.proof.Step.TheVariants.{Link, Round};
ghost use Rattle.smt_meaning.specs.Term.{Tree};
ghost use Rattle.proof_meaning.specs.Proof.{AreTerms, IsIntAt, literal};
ghost use Rattle.smt_meaning.specs.declared.clauses.Atom.TheVariants.{Same};
ghost use Rattle.proof_meaning.specs.Rules.{link_clause, folded_bound};
ghost use Rattle.proof_terms.specs.Comes.{Comes};
ghost use Rattle.proof_read.specs.Written.{numbers_fit, atom_fits};
ghost use Rattle.proof_terms.specs.Range.{link_fits, not_above_fits};
ghost use Rattle.proof_terms.specs.Kept.{KeepsAll};
ghost use Rattle.proof_terms.specs.BoundCodes.{HaveJoined, LinksInts, IsDivided, round_clause};

use crate::bound_codes::{push_bound, push_difference, push_same};
use crate::bound_quotients::{divides_each, each_divided};
use crate::clauses::Clauses;
use crate::literals::is_literal;
use crate::terms::Terms;
use crate::verdict::Verdict;
use fraction128::floor_div;
use smt_meaning::{Atom, Literal, Sort, Summand, TermId};
use std::alloc::{AllocError, Global};

/// Whether a term is there and Int.
fn is_int(terms: &Terms<'_>, place: TermId) -> bool
    ensures is { IsTrue result ↔ IsIntAt terms.now.declared terms.now.trees place }
    ensures terms { AreTerms terms.now.declared terms.now.nodes terms.now.trees }
    ensures count { length terms.now.trees ≡ length terms.now.nodes }
{
    if (place as usize) < terms.len() {
        terms.sort(place) == Sort::Int
    } else {
        false
    }
}

/// Adds the codes of the clause that terms within both bounds on their difference are equal. `false`: folding one leaves the range.
fn push_both(
    alloc: Global,
    terms: &mut Terms<'_>,
    clauses: &mut Clauses,
    codes: &mut Vec<u32>,
    left: TermId,
    right: TermId,
) -> Result<bool, AllocError>
    requires left { left < length terms.old.nodes }
    requires right { right < length terms.old.nodes }
    ensures fits { result ≡ Ok true → link_fits terms.old.trees left right 2 ≡ true }
    ensures joined { result ≡ Ok true → HaveJoined clauses.old clauses.new codes.old.items codes.new.items (link_clause terms.old.trees left right 2) }
    ensures outside { result ≡ Ok false → link_fits terms.old.trees left right 2 ≡ false }
    ensures same { terms.new ≡ terms.old }
{
    if !push_difference(alloc, terms, clauses, codes, false, left, right)? {
        return Ok(false);
    }
    if !push_difference(alloc, terms, clauses, codes, false, right, left)? {
        return Ok(false);
    }
    push_same(clauses, codes, true, left, right)?;
    Ok(true)
}

/// Adds the codes of the clause that equal terms are within a bound: the difference of two others. `false`: folding it leaves the range.
fn push_one(
    alloc: Global,
    terms: &mut Terms<'_>,
    clauses: &mut Clauses,
    codes: &mut Vec<u32>,
    one: TermId,
    other: TermId,
    left: TermId,
    right: TermId,
) -> Result<bool, AllocError>
    requires left { left < length terms.old.nodes }
    requires right { right < length terms.old.nodes }
    ensures fits { result ≡ Ok true → not_above_fits terms.old.trees left right ≡ true }
    ensures joined { result ≡ Ok true → HaveJoined clauses.old clauses.new codes.old.items codes.new.items
        (literal false (Same one other) ∷ literal true (folded_bound terms.old.trees left right) ∷ []) }
    ensures outside { result ≡ Ok false → not_above_fits terms.old.trees left right ≡ false }
    ensures same { terms.new ≡ terms.old }
{
    push_same(clauses, codes, false, one, other)?;
    push_difference(alloc, terms, clauses, codes, true, left, right)
}

/// Adds the codes of the clause of a link. `false`: folding a difference leaves the range.
fn push_link(
    alloc: Global,
    terms: &mut Terms<'_>,
    clauses: &mut Clauses,
    codes: &mut Vec<u32>,
    left: TermId,
    right: TermId,
    which: u64,
) -> Result<bool, AllocError>
    requires left { left < length terms.old.nodes }
    requires right { right < length terms.old.nodes }
    ensures fits { result ≡ Ok true → link_fits terms.old.trees left right which ≡ true }
    ensures joined { result ≡ Ok true → HaveJoined clauses.old clauses.new codes.old.items codes.new.items (link_clause terms.old.trees left right which) }
    ensures outside { result ≡ Ok false → link_fits terms.old.trees left right which ≡ false }
    ensures same { terms.new ≡ terms.old }
{
    if which > 1 {
        return push_both(alloc, terms, clauses, codes, left, right);
    }
    if which == 0 {
        push_one(alloc, terms, clauses, codes, left, right, left, right)
    } else {
        push_one(alloc, terms, clauses, codes, left, right, right, left)
    }
}

/// Whether a link is one of two Ints.
fn links_ints(terms: &Terms<'_>, left: TermId, right: TermId, which: u64) -> bool
    ensures is { IsTrue result ↔ LinksInts terms.now left right which }
    ensures terms { IsTrue result → AreTerms terms.now.declared terms.now.nodes terms.now.trees }
    ensures count { IsTrue result → length terms.now.trees ≡ length terms.now.nodes }
{
    if which < 3 && is_int(terms, left) {
        is_int(terms, right)
    } else {
        false
    }
}

/// `(link left right which)`
pub fn judge_link(
    alloc: Global,
    terms: &mut Terms<'_>,
    clauses: &mut Clauses,
    left: TermId,
    right: TermId,
    which: u64,
) -> Result<Verdict, AllocError>
    ensures comes { (asserted : List Tree) → IfOk result (Comes terms.old asserted clauses.old clauses.new (Link left right which)) }
    ensures same { terms.new ≡ terms.old }
{
    if !links_ints(terms, left, right, which) {
        return Ok(Verdict::Wrong);
    }
    let mut codes = Vec::new(alloc);
    if !push_link(alloc, terms, clauses, &mut codes, left, right, which)? {
        return Ok(Verdict::Range);
    }
    clauses.keep(&mut codes)?;
    Ok(Verdict::Good)
}

/// Keeps the clause that a bound gives the bound divided by a number.
fn keep_round(
    alloc: Global,
    clauses: &mut Clauses,
    sum: &[Summand],
    limit: i128,
    divisor: i128,
) -> Result<(), AllocError>
    requires { pos 0 <ℤ divisor }
    ensures { OnOk result ((before : List (List LiteralValue)) → KeepsAll clauses.old before → KeepsAll clauses.new (before ++ round_clause sum.now limit divisor ∷ [])) }
{
    let mut codes = Vec::new(alloc);
    push_bound(clauses, &mut codes, false, sum, limit)?;
    let quotients = each_divided(alloc, sum, divisor)?;
    push_bound(
        clauses,
        &mut codes,
        true,
        quotients.as_slice(),
        floor_div(limit, divisor),
    )?;
    clauses.keep(&mut codes)
}

/// Whether a literal is a bound that this number divides.
fn is_divided(literal: &Literal, divisor: u128) -> bool
    requires { atom_fits literal.now.atom ≡ true }
    ensures { IsTrue result ↔ IsDivided literal.now divisor }
{
    match &literal.atom {
        Atom::AtMost(sum, _) if literal.positive && divisor > 0 => {
            divides_each(divisor, sum.as_slice())
        }
        _ => false,
    }
}

/// `(round literal divisor)`
pub fn judge_round(
    alloc: Global,
    terms: &Terms<'_>,
    clauses: &mut Clauses,
    literal: &Literal,
    divisor: u128,
) -> Result<Verdict, AllocError>
    requires { numbers_fit (Round literal.now divisor) ≡ true }
    ensures { (asserted : List Tree) → IfOk result (Comes terms.now asserted clauses.old clauses.new (Round literal.now divisor)) }
{
    if !is_literal(terms, literal) || !is_divided(literal, divisor) {
        return Ok(Verdict::Wrong);
    }
    let Atom::AtMost(sum, limit) = &literal.atom else {
        return Ok(Verdict::Wrong);
    };
    keep_round(alloc, clauses, sum.as_slice(), *limit, divisor as i128)?;
    Ok(Verdict::Good)
}
