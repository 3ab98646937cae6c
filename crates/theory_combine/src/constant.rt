//! What is said of an atom with its number: the truth value of a bound of the empty sum.
ghost use Rattle.std.specs.Prelude.{◌≡◌, ◌<◌, ◌^◌, [], IfOk};
ghost use Rattle.smt_meaning.specs.declared.clauses.Atom.TheVariants.{AtMost};
ghost use Rattle.theory_combine.specs.Numbering.{atom_of};
ghost use Rattle.theory_combine.specs.Steps.{constant_clause, AreLemmasOf};

use crate::numbering::NewAtom;
use bound_clauses::constant_has_value;
use literals::Literal;
use search_port::Lemma;
use smt_meaning::{Seq, Summand};
use std::alloc::{AllocError, Global};

/// The clause that the empty sum is at most the threshold, or isn't. An `Err` is for want of memory.
pub(crate) fn constant_lemma(
    alloc: Global,
    number: u32,
    threshold: i128,
) -> Result<Lemma, AllocError>
    requires { number < 2 ^ 31 }
    ensures { IfOk result (λ c. c ≡ constant_clause number threshold) }
{
    let mut literals = Seq::new(alloc);
    literals.push(Literal::new(number, threshold >= 0))?;
    Ok(Lemma { literals, level: 0 })
}

/// This clause alone.
fn constant_lemmas(alloc: Global, number: u32, threshold: i128) -> Result<Seq<Lemma>, AllocError>
    requires { number < 2 ^ 31 }
    ensures { IfOk result (AreLemmasOf number (AtMost [] threshold)) }
{
    constant_has_value();
    let mut lemmas = Seq::new(alloc);
    lemmas.push(constant_lemma(alloc, number, threshold)?)?;
    Ok(lemmas)
}

/// What is said of a bound.
fn said_of_bound(
    alloc: Global,
    number: u32,
    sum: &[Summand],
    threshold: i128,
) -> Result<Seq<Lemma>, AllocError>
    requires { number < 2 ^ 31 }
    ensures { IfOk result (AreLemmasOf number (AtMost sum.now threshold)) }
{
    match sum {
        [] => constant_lemmas(alloc, number, threshold),
        _ => Ok(Seq::new(alloc)),
    }
}

/// The clauses that tell the search of an atom which gets this number: of a bound of the empty sum its truth value, since bounds of variables don't say it. An
/// `Err` is for want of memory.
pub(crate) fn said_of(alloc: Global, number: u32, atom: &NewAtom) -> Result<Seq<Lemma>, AllocError>
    requires { number < 2 ^ 31 }
    ensures { IfOk result (AreLemmasOf number (atom_of atom.now)) }
{
    match atom {
        NewAtom::Equality(_) => Ok(Seq::new(alloc)),
        NewAtom::Bound(bound) => said_of_bound(alloc, number, &bound.sum, bound.threshold),
    }
}
