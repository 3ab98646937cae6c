//! The literals that a step writes.
ghost use Rattle.std.specs.Prelude.{◌≡◌, ◌<◌, ◌↔◌, ◌∷◌, ◌++◌, [], ℕ, true, false, List, length, Ok, All, AllPairs, IsTrue};
ghost use Rattle.smt_meaning.specs.declared.terms.Head.TheVariants.{Theory};
ghost use Rattle.smt_meaning.specs.declared.clauses.Summand.{Summand as SummandValue};
ghost use Rattle.smt_meaning.specs.declared.clauses.Atom.TheVariants.{Same};
ghost use Rattle.smt_meaning.specs.declared.clauses.Literal.{Literal as LiteralValue};
ghost use Rattle.smt_meaning.specs.Term.{tree_at};
ghost use Rattle.smt_meaning.specs.TreeShape.{is_arithmetic, is_constant_head};
ghost use Rattle.proof_meaning.specs.Proof.{IsLiteral, IsAtom, IsSummand, IsBoolAt, IsIntAt, is_leaf};
ghost use Rattle.proof_terms.specs.Kept.{AreCodesOf, IsCodeOf, KeepsAll, GoOn};

use crate::clauses::Clauses;
use crate::terms::Terms;
use smt_meaning::{Atom, Head, Literal, Operator, Sort, Summand, TermId};
use std::alloc::AllocError;

/// Whether a term is there and is a Bool.
pub fn is_bool(terms: &Terms<'_>, place: TermId) -> bool
    ensures { IsTrue result ↔ IsBoolAt terms.now.declared terms.now.trees place }
{
    (place as usize) < terms.len() && terms.sort(place) == Sort::Bool
}

/// Whether a term is there and is an Int.
pub(crate) fn is_int(terms: &Terms<'_>, place: TermId) -> bool
    ensures { IsTrue result ↔ IsIntAt terms.now.declared terms.now.trees place }
{
    (place as usize) < terms.len() && terms.sort(place) == Sort::Int
}

/// Whether two terms are there and have one sort.
pub fn are_comparable(terms: &Terms<'_>, left: TermId, right: TermId) -> bool
    ensures { IsTrue result ↔ IsAtom terms.now.declared terms.now.trees (Same left right) }
{
    let count = terms.len();
    (left as usize) < count && (right as usize) < count && terms.sort(left) == terms.sort(right)
}

fn is_arithmetic(operator: Operator) -> bool
    ensures { result ≡ is_arithmetic operator }
{
    match operator {
        Operator::Add | Operator::Subtract | Operator::Multiply => true,
        Operator::True
        | Operator::False
        | Operator::Not
        | Operator::And
        | Operator::Or
        | Operator::Xor
        | Operator::Implies
        | Operator::Equal
        | Operator::Distinct
        | Operator::Ite
        | Operator::AtMost
        | Operator::Less
        | Operator::AtLeast
        | Operator::Greater
        | Operator::Divide
        | Operator::Modulo
        | Operator::Absolute
        | Operator::Divisible => false,
    }
}

fn is_constant_head(head: Head) -> bool
    ensures { result ≡ is_constant_head head }
{
    match head {
        Head::Numeral(_) => true,
        Head::Theory(operator) => is_arithmetic(operator),
        Head::Symbol(_) => false,
        Head::Place(_) => false,
    }
}

/// Whether a term is no numeral, no sum, difference or product.
fn is_leaf(terms: &Terms<'_>, place: TermId) -> bool
    requires { place < length terms.now.nodes }
    ensures { result ≡ is_leaf (tree_at terms.now.trees place) }
{
    let _count = terms.len();
    !is_constant_head(terms.node(place).head)
}

fn is_summand(terms: &Terms<'_>, summand: Summand) -> bool
    ensures { IsTrue result ↔ IsSummand terms.now.declared terms.now.trees summand }
{
    let _count = terms.len();
    summand.coefficient != 0 && is_int(terms, summand.term) && is_leaf(terms, summand.term)
}

fn are_summands(terms: &Terms<'_>, sum: &[Summand]) -> bool
    ensures { IsTrue result ↔ All (IsSummand terms.now.declared terms.now.trees) sum.now }
{
    for summand in sum {
        if !is_summand(terms, *summand) {
            return false;
        }
    }
    true
}

fn is_earlier(first: Summand, second: Summand) -> bool
    ensures { IsTrue result ↔ (first.term < second.term) }
{
    first.term < second.term
}

/// Whether the leaves of a sum ascend.
fn are_ascending(sum: &[Summand]) -> bool
    ensures { IsTrue result ↔ AllPairs (λ (p q : SummandValue). p.term < q.term) sum.now }
{
    for i in 1..sum.len() {
        if !is_earlier(sum[i - 1], sum[i]) {
            return false;
        }
    }
    true
}

fn is_sum(terms: &Terms<'_>, sum: &[Summand]) -> bool
    ensures { IsTrue result
        ↔ (All (IsSummand terms.now.declared terms.now.trees) sum.now × AllPairs (λ (p q : SummandValue). p.term < q.term) sum.now) }
{
    are_summands(terms, sum) && are_ascending(sum)
}

/// Whether a literal is over terms that are there, of the right sorts.
pub fn is_literal(terms: &Terms<'_>, literal: &Literal) -> bool
    ensures { IsTrue result ↔ IsLiteral terms.now.declared terms.now.trees literal.now }
{
    match &literal.atom {
        Atom::Truth(place) => is_bool(terms, *place),
        Atom::AtMost(sum, _) => is_sum(terms, sum.as_slice()),
        Atom::Same(left, right) => are_comparable(terms, *left, *right),
    }
}

/// Whether a literal is over terms that are there, of the right sorts; then its code joins the list.
fn add_code(
    terms: &Terms<'_>,
    clauses: &mut Clauses,
    literal: &Literal,
    codes: &mut Vec<u32>,
) -> Result<bool, AllocError>
    ensures literal { result ≡ Ok true → IsLiteral terms.now.declared terms.now.trees literal.now
        × ((ls : List LiteralValue) → AreCodesOf clauses.old.atoms codes.old.items ls → AreCodesOf clauses.new.atoms codes.new.items (ls ++ literal.now ∷ [])) }
    ensures other { result ≡ Ok false → IsLiteral terms.now.declared terms.now.trees literal.now → ⊥ }
    ensures clauses { clauses.new.clauses ≡ clauses.old.clauses }
    ensures atoms { GoOn clauses.old.atoms clauses.new.atoms }
{
    if !is_literal(terms, literal) {
        return Ok(false);
    }
    let code = clauses.literal(literal.positive, &literal.atom)?;
    codes.push(code)?;
    Ok(true)
}

/// Whether all these are; then the list, whatever it was before, has their codes, in order.
pub fn codes_of(
    terms: &Terms<'_>,
    clauses: &mut Clauses,
    literals: &[Literal],
    codes: &mut Vec<u32>,
) -> Result<bool, AllocError>
    ensures literals { result ≡ Ok true → All (IsLiteral terms.now.declared terms.now.trees) literals.now × AreCodesOf clauses.new.atoms codes.new.items literals.now }
    ensures other { result ≡ Ok false → All (IsLiteral terms.now.declared terms.now.trees) literals.now → ⊥ }
    ensures clauses { clauses.new.clauses ≡ clauses.old.clauses }
    ensures atoms { GoOn clauses.old.atoms clauses.new.atoms }
    ensures codes { (c : ℕ) (l : LiteralValue) → IsCodeOf clauses.old.atoms c l → IsCodeOf clauses.new.atoms c l }
    ensures kept { (before : List (List LiteralValue)) → KeepsAll clauses.old before → KeepsAll clauses.new before }
{
    codes.clear();
    for literal in literals {
        if !add_code(terms, clauses, literal, codes)? {
            return Ok(false);
        }
    }
    Ok(true)
}
