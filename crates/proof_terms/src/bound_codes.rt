//! The codes of the clauses of bounds.
ghost use Rattle.std.specs.Prelude.{◌≡◌, ◌<◌, ◌∷◌, [], length, true, false, Ok, OnOk};
ghost use Rattle.smt_meaning.specs.declared.clauses.Atom.TheVariants.{AtMost, Same};
ghost use Rattle.proof_meaning.specs.Proof.{literal};
ghost use Rattle.proof_meaning.specs.Rules.{folded_bound};
ghost use Rattle.proof_terms.specs.Range.{not_above_fits};
ghost use Rattle.proof_terms.specs.BoundCodes.{HaveJoined};

use crate::clauses::Clauses;
use crate::terms::{Stop, Terms};
use crate::terms_bounds::Comparison;
use smt_meaning::{Summand, TermId};
use std::alloc::{AllocError, Global};

/// Adds the code of an equality's literal.
pub(crate) fn push_same(
    clauses: &mut Clauses,
    codes: &mut Vec<u32>,
    positive: bool,
    left: TermId,
    right: TermId,
) -> Result<(), AllocError>
    ensures { OnOk result (HaveJoined clauses.old clauses.new codes.old.items codes.new.items (literal positive (Same left right) ∷ [])) }
{
    let code = clauses.same(positive, left, right)?;
    codes.push(code)?;
    Ok(())
}

/// Adds the code of a bound's literal.
pub(crate) fn push_bound(
    clauses: &mut Clauses,
    codes: &mut Vec<u32>,
    positive: bool,
    sum: &[Summand],
    limit: i128,
) -> Result<(), AllocError>
    ensures { OnOk result (HaveJoined clauses.old clauses.new codes.old.items codes.new.items (literal positive (AtMost sum.now limit) ∷ [])) }
{
    let code = clauses.bound(positive, sum, limit)?;
    codes.push(code)?;
    Ok(())
}

/// Adds the code of the literal on the bound that the first term is at most the second. `false`: folding it leaves the range.
pub(crate) fn push_difference(
    alloc: Global,
    terms: &mut Terms<'_>,
    clauses: &mut Clauses,
    codes: &mut Vec<u32>,
    positive: bool,
    left: TermId,
    right: TermId,
) -> Result<bool, AllocError>
    requires left { left < length terms.old.nodes }
    requires right { right < length terms.old.nodes }
    ensures fits { result ≡ Ok true → not_above_fits terms.old.trees left right ≡ true }
    ensures joined { result ≡ Ok true
        → HaveJoined clauses.old clauses.new codes.old.items codes.new.items (literal positive (folded_bound terms.old.trees left right) ∷ []) }
    ensures outside { result ≡ Ok false → not_above_fits terms.old.trees left right ≡ false }
    ensures same { terms.new ≡ terms.old }
{
    let mut sum = Vec::new(alloc);
    match terms.compared(Comparison::Undivided, left, right, &mut sum) {
        Ok(limit) => {
            push_bound(clauses, codes, positive, sum.as_slice(), limit)?;
            Ok(true)
        }
        Err(Stop::Range) => Ok(false),
        Err(Stop::Memory) => Err(AllocError),
    }
}
