//! Resolution.
ghost use Rattle.std.specs.Prelude.{◌≡◌, ◌<◌, ◌↔◌, List, Contains, IfOk, IsTrue, true};
ghost use Rattle.proof_meaning.specs.declared.proof.Step.TheVariants.{Res};
ghost use Rattle.smt_meaning.specs.Term.{Tree};
ghost use Rattle.proof_terms.specs.Comes.{Comes};
ghost use Rattle.proof_read.specs.Written.{numbers_fit};
ghost use Rattle.proof_form.specs.ResolutionCodes.{IsOpposite};

use proof_terms::{Clauses, Terms, Verdict};
use smt_meaning::Literal;
use std::alloc::{AllocError, Global};

/// The code of a literal's negation.
fn opposite(code: u32) -> u32
    ensures { IsOpposite code result }
{
    if code % 2 == 0 { code + 1 } else { code - 1 }
}

/// Whether a clause has a code.
fn has(clause: &[u32], code: u32) -> bool
    ensures { IsTrue result ↔ Contains clause.now code }
{
    clause.contains(&code)
}

/// `(res left right literal)`
pub(crate) fn judge_resolution(
    alloc: Global,
    terms: &Terms<'_>,
    clauses: &mut Clauses,
    left: u64,
    right: u64,
    literal: &Literal,
) -> Result<Verdict, AllocError>
    requires { numbers_fit (Res left right literal.now) ≡ true }
    ensures { (asserted : List Tree) → IfOk result (Comes terms.now asserted clauses.old clauses.new (Res left right literal.now)) }
{
    let code = clauses.literal(literal.positive, &literal.atom)?;
    let negation = opposite(code);
    let count = clauses.len() as u64;
    if left >= count || right >= count {
        return Ok(Verdict::Wrong);
    }
    let (left, right) = (left as usize, right as usize);
    if !has(clauses.clause(left), code) || !has(clauses.clause(right), negation) {
        return Ok(Verdict::Wrong);
    }
    clauses.resolve(left, right, code, negation)?;
    Ok(Verdict::Good)
}
