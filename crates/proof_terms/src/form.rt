//! What the truth values of a term's parts say of its own.
ghost use Rattle.std.specs.Prelude.{◌≡◌, ◌<◌, List, length, All, Contains, IfOk, true};
ghost use Rattle.proof_meaning.specs.declared.proof.Step.TheVariants.{Form};
ghost use Rattle.smt_meaning.specs.declared.clauses.Atom.TheVariants.{Truth};
ghost use Rattle.smt_meaning.specs.declared.terms.Head.TheVariants.{Theory};
ghost use Rattle.proof_meaning.specs.Proof.{AreTerms, node_at};
ghost use Rattle.smt_meaning.specs.Term.{Tree};
ghost use Rattle.proof_terms.specs.Comes.{Comes};
ghost use Rattle.proof_read.specs.Written.{numbers_fit};
ghost use Rattle.proof_terms.specs.Kept.{AreCodesOf};
ghost use Rattle.proof_terms.specs.FormValues.{AreNumbers};
ghost use Rattle.proof_terms.specs.FormParts.{IsNumberOf, IsConcluded, IsJudgedForm};

use crate::clauses::Clauses;
use crate::form_pairs::judge_pairs;
use crate::form_parts::{Kind, kind_of, number_neighbours, number_truth, number_truths};
use crate::form_values::{Connective, is_valid};
use crate::literals::codes_of;
use crate::terms::Terms;
use crate::verdict::Verdict;
use smt_meaning::{Head, Literal, Operator, TermId};
use std::alloc::{AllocError, Global};

/// Judges the literals of these codes over a term's own truth and parts that have numbers; where they are right, their clause is kept.
fn conclude(
    alloc: Global,
    clauses: &mut Clauses,
    place: TermId,
    own: u32,
    connective: Connective,
    numbers: &[u32],
    codes: &mut Vec<u32>,
) -> Result<Verdict, AllocError>
    requires own { IsNumberOf clauses.old.atoms own (Truth place) }
    requires other { Contains numbers.now own → ⊥ }
    requires numbers { AreNumbers numbers.now }
    ensures { IfOk result (IsConcluded clauses.old clauses.new codes.old.items place connective numbers.now) }
{
    codes.sort_unstable();
    let _count = clauses.len();
    if !is_valid(alloc, codes, own, connective, numbers)? {
        return Ok(Verdict::Wrong);
    }
    clauses.keep(codes)?;
    Ok(Verdict::Good)
}

/// Judges the literals of these codes over a term with this operator.
fn judge_theory(
    alloc: Global,
    terms: &mut Terms<'_>,
    clauses: &mut Clauses,
    place: TermId,
    operator: Operator,
    arguments: &[TermId],
    literals: &[Literal],
    codes: &mut Vec<u32>,
) -> Result<Verdict, AllocError>
    requires within { place < length terms.old.nodes }
    requires terms { AreTerms terms.old.declared terms.old.nodes terms.old.trees }
    requires node { node_at terms.old.nodes place ≡ record { head = Theory operator; arguments = arguments.now } }
    requires earlier { All (λ i. i < place) arguments.now }
    requires codes { AreCodesOf clauses.old.atoms codes.old.items literals.now }
    ensures judged { IfOk result (IsJudgedForm terms.old.declared terms.old.nodes terms.old.trees operator arguments.now place literals.now clauses.old clauses.new) }
    ensures same { terms.new ≡ terms.old }
{
    let own = number_truth(clauses, place)?;
    let mut parts = Vec::new(alloc);
    match kind_of(terms, place, operator, arguments) {
        Kind::Bools(connective) => {
            number_truths(clauses, arguments, &mut parts)?;
            conclude(alloc, clauses, place, own, connective, &parts, codes)
        }
        Kind::Neighbours(relation) => {
            let mut sum = Vec::new(alloc);
            if !number_neighbours(terms, clauses, relation, arguments, &mut sum, &mut parts)? {
                return Ok(Verdict::Range);
            }
            conclude(alloc, clauses, place, own, Connective::And, &parts, codes)
        }
        Kind::Pairs => judge_pairs(alloc, clauses, place, own, arguments, literals, codes),
        Kind::NoParts => Ok(Verdict::Wrong),
    }
}

/// `(form place literal ..)`
pub fn judge_form(
    alloc: Global,
    terms: &mut Terms<'_>,
    clauses: &mut Clauses,
    place: TermId,
    literals: &[Literal],
) -> Result<Verdict, AllocError>
    requires { numbers_fit (Form place literals.now) ≡ true }
    ensures comes { (asserted : List Tree) → IfOk result (Comes terms.old asserted clauses.old clauses.new (Form place literals.now)) }
    ensures same { terms.new ≡ terms.old }
{
    if place as usize >= terms.len() {
        return Ok(Verdict::Wrong);
    }
    let node = terms.node(place);
    let operator = match node.head {
        Head::Theory(operator) => operator,
        Head::Numeral(_) => return Ok(Verdict::Wrong),
        Head::Symbol(_) => return Ok(Verdict::Wrong),
        Head::Place(_) => return Ok(Verdict::Wrong),
    };
    let arguments = Vec::from_slice(alloc, node.arguments)?;
    let mut codes = Vec::new(alloc);
    if !codes_of(terms, clauses, literals, &mut codes)? {
        return Ok(Verdict::Wrong);
    }
    judge_theory(
        alloc, terms, clauses, place, operator, &arguments, literals, &mut codes,
    )
}
