//! The rules of equality and truth, of `ite`, and of assertions.
ghost use Rattle.std.specs.Prelude.{◌≡◌, ◌<◌, ◌↔◌, ◌∷◌, ◌++◌, [], ℕ, List, length, true, false, Ok, All, IfOk, IfSome, IfNone, IsTrue};
ghost use Rattle.proof_meaning.specs.declared.proof.Step.TheVariants.{Assert, Pick, Refl, Sym, Trans, Cong, Truth, Both, Neither};
ghost use Rattle.smt_meaning.specs.declared.terms.Head.TheVariants.{Theory};
ghost use Rattle.smt_meaning.specs.declared.terms.Operator.TheVariants.{Ite as IteOperator};
ghost use Rattle.smt_meaning.specs.declared.clauses.Atom.TheVariants.{Truth as TruthAtom, Same};
ghost use Rattle.smt_meaning.specs.declared.clauses.Literal.{Literal as LiteralValue};
ghost use Rattle.smt_meaning.specs.Term.{Tree};
ghost use Rattle.proof_meaning.specs.Proof.{IsLiteral, literal, node_at};
ghost use Rattle.proof_meaning.specs.Rules.{differing};
ghost use Rattle.proof_form.specs.Asserted.{asserted_at};
ghost use Rattle.proof_terms.specs.Comes.{Comes};
ghost use Rattle.proof_terms.specs.Kept.{AreCodesOf, GoOn};
ghost use Rattle.proof_form.specs.EqualitiesKept.{IsKeptIfOver, cong_clause};

use proof_terms::{Clauses, Terms, Verdict, are_comparable, codes_of, is_bool};
use smt_meaning::{Atom, Head, Literal, Operator, TermId};
use std::alloc::{AllocError, Global};

fn truth(positive: bool, place: TermId) -> Literal
    ensures { result ≡ literal positive (TruthAtom place) }
{
    Literal {
        atom: Atom::Truth(place),
        positive,
    }
}

fn same(positive: bool, left: TermId, right: TermId) -> Literal
    ensures { result ≡ literal positive (Same left right) }
{
    Literal {
        atom: Atom::Same(left, right),
        positive,
    }
}

/// Keeps a clause, if its literals are over terms of the right sorts.
fn keep_clause(
    alloc: Global,
    terms: &Terms<'_>,
    clauses: &mut Clauses,
    literals: &[Literal],
) -> Result<Verdict, AllocError>
    ensures { IfOk result (IsKeptIfOver terms.now clauses.old clauses.new literals.now) }
{
    let mut codes = clauses.take_scratch(alloc);
    if !codes_of(terms, clauses, literals, &mut codes)? {
        clauses.give_scratch(codes);
        return Ok(Verdict::Wrong);
    }
    clauses.keep(&mut codes)?;
    clauses.give_scratch(codes);
    Ok(Verdict::Good)
}

/// `(assert assertion place)`
pub(crate) fn judge_assert(
    alloc: Global,
    terms: &Terms<'_>,
    asserted: &[TermId],
    clauses: &mut Clauses,
    assertion: u64,
    place: TermId,
) -> Result<Verdict, AllocError>
    requires asserted { All (λ i. i < length terms.now.held) asserted.now }
    ensures { IfOk result (Comes terms.now (asserted_at terms.now.held asserted.now) clauses.old clauses.new (Assert assertion place)) }
{
    if assertion >= asserted.len() as u64 || place as usize >= terms.len() {
        return Ok(Verdict::Wrong);
    }
    if !terms.is_held(place, asserted[assertion as usize]) {
        return Ok(Verdict::Wrong);
    }
    keep_clause(alloc, terms, clauses, &[truth(true, place)])
}

/// The places of an `ite`'s arguments.
#[derive(Clone, Copy, Drop)]
struct Branches {
    condition: TermId,
    first: TermId,
    second: TermId,
}

fn is_ite(head: Head) -> bool
    ensures { IsTrue result ↔ (head ≡ Theory IteOperator) }
{
    head == Head::Theory(Operator::Ite)
}

fn ite_branches(terms: &Terms<'_>, place: TermId) -> Option<Branches>
    requires { place < length terms.now.nodes }
    ensures some { IfSome result (λ b. node_at terms.now.nodes place ≡ record { head = Theory IteOperator; arguments = b.condition ∷ b.first ∷ b.second ∷ [] }) }
    ensures none { IfNone result ((b c d : ℕ) → node_at terms.now.nodes place ≡ record { head = Theory IteOperator; arguments = b ∷ c ∷ d ∷ [] } → ⊥) }
{
    let node = terms.node(place);
    if !is_ite(node.head) || node.arguments.len() != 3 {
        return None;
    }
    Some(Branches {
        condition: node.arguments[0],
        first: node.arguments[1],
        second: node.arguments[2],
    })
}

/// `(pick place which)`
pub(crate) fn judge_pick(
    alloc: Global,
    terms: &Terms<'_>,
    clauses: &mut Clauses,
    place: TermId,
    which: u64,
) -> Result<Verdict, AllocError>
    ensures { (asserted : List Tree) → IfOk result (Comes terms.now asserted clauses.old clauses.new (Pick place which)) }
{
    if which >= 2 || place as usize >= terms.len() || is_bool(terms, place) {
        return Ok(Verdict::Wrong);
    }
    match ite_branches(terms, place) {
        None => Ok(Verdict::Wrong),
        Some(ite) if which == 0 => {
            let literals = [truth(false, ite.condition), same(true, place, ite.first)];
            keep_clause(alloc, terms, clauses, &literals)
        }
        Some(ite) => {
            let literals = [truth(true, ite.condition), same(true, place, ite.second)];
            keep_clause(alloc, terms, clauses, &literals)
        }
    }
}

/// `(refl place)`
pub(crate) fn judge_refl(
    alloc: Global,
    terms: &Terms<'_>,
    clauses: &mut Clauses,
    place: TermId,
) -> Result<Verdict, AllocError>
    ensures { (asserted : List Tree) → IfOk result (Comes terms.now asserted clauses.old clauses.new (Refl place)) }
{
    keep_clause(alloc, terms, clauses, &[same(true, place, place)])
}

/// `(sym left right)`
pub(crate) fn judge_sym(
    alloc: Global,
    terms: &Terms<'_>,
    clauses: &mut Clauses,
    left: TermId,
    right: TermId,
) -> Result<Verdict, AllocError>
    ensures { (asserted : List Tree) → IfOk result (Comes terms.now asserted clauses.old clauses.new (Sym left right)) }
{
    let literals = [same(false, left, right), same(true, right, left)];
    keep_clause(alloc, terms, clauses, &literals)
}

/// `(trans first second third)`
pub(crate) fn judge_trans(
    alloc: Global,
    terms: &Terms<'_>,
    clauses: &mut Clauses,
    first: TermId,
    second: TermId,
    third: TermId,
) -> Result<Verdict, AllocError>
    ensures { (asserted : List Tree) → IfOk result (Comes terms.now asserted clauses.old clauses.new (Trans first second third)) }
{
    let literals = [
        same(false, first, second),
        same(false, second, third),
        same(true, first, third),
    ];
    keep_clause(alloc, terms, clauses, &literals)
}

fn is_same_head(left: Head, right: Head) -> bool
    ensures { IsTrue result ↔ (left ≡ right) }
{
    left == right
}

/// Whether two terms have one head, and as many arguments.
fn are_applications_of_one(terms: &Terms<'_>, left: TermId, right: TermId) -> bool
    requires left { left < length terms.now.nodes }
    requires right { right < length terms.now.nodes }
    ensures { IsTrue result ↔ (((node_at terms.now.nodes left).head ≡ (node_at terms.now.nodes right).head)
        × (length (node_at terms.now.nodes left).arguments ≡ length (node_at terms.now.nodes right).arguments)) }
{
    let first = terms.node(left);
    let second = terms.node(right);
    is_same_head(first.head, second.head) && first.arguments.len() == second.arguments.len()
}

/// Whether two terms are there and have one sort; then the code of a literal on their equality joins the list.
fn add_same(
    terms: &Terms<'_>,
    clauses: &mut Clauses,
    positive: bool,
    left: TermId,
    right: TermId,
    codes: &mut Vec<u32>,
) -> Result<bool, AllocError>
    ensures literal { result ≡ Ok true → IsLiteral terms.now.declared terms.now.trees (literal positive (Same left right))
        × ((ls : List LiteralValue) → AreCodesOf clauses.old.atoms codes.old.items ls → AreCodesOf clauses.new.atoms codes.new.items (ls ++ literal positive (Same left right) ∷ [])) }
    ensures other { result ≡ Ok false → IsLiteral terms.now.declared terms.now.trees (literal positive (Same left right)) → ⊥ }
    ensures clauses { clauses.new.clauses ≡ clauses.old.clauses }
    ensures atoms { GoOn clauses.old.atoms clauses.new.atoms }
{
    if !are_comparable(terms, left, right) {
        return Ok(false);
    }
    let code = clauses.same(positive, left, right)?;
    codes.push(code)?;
    Ok(true)
}

/// The codes of the literals that say that two arguments in one place differ, as long as these are of one sort.
fn differing_codes(
    terms: &Terms<'_>,
    clauses: &mut Clauses,
    left: &[TermId],
    right: &[TermId],
    codes: &mut Vec<u32>,
) -> Result<bool, AllocError>
    requires { length left.now ≡ length right.now }
    ensures literals { result ≡ Ok true → All (IsLiteral terms.now.declared terms.now.trees) (differing left.now right.now) × AreCodesOf clauses.new.atoms codes.new.items (differing left.now right.now) }
    ensures other { result ≡ Ok false → All (IsLiteral terms.now.declared terms.now.trees) (differing left.now right.now) → ⊥ }
    ensures clauses { clauses.new.clauses ≡ clauses.old.clauses }
    ensures atoms { GoOn clauses.old.atoms clauses.new.atoms }
{
    codes.clear();
    for i in 0..left.len() {
        if !add_same(terms, clauses, false, left[i], right[i], codes)? {
            return Ok(false);
        }
    }
    Ok(true)
}

/// The codes of the clause that two applications of one head are equal unless some of their arguments differ, as long as its literals are over terms of
/// the right sorts.
fn cong_codes(
    terms: &Terms<'_>,
    clauses: &mut Clauses,
    left: TermId,
    right: TermId,
    codes: &mut Vec<u32>,
) -> Result<bool, AllocError>
    requires left { left < length terms.now.nodes }
    requires right { right < length terms.now.nodes }
    requires count { length (node_at terms.now.nodes left).arguments ≡ length (node_at terms.now.nodes right).arguments }
    ensures literals { result ≡ Ok true → All (IsLiteral terms.now.declared terms.now.trees) (cong_clause terms.now.nodes left right)
        × AreCodesOf clauses.new.atoms codes.new.items (cong_clause terms.now.nodes left right) }
    ensures other { result ≡ Ok false → All (IsLiteral terms.now.declared terms.now.trees) (cong_clause terms.now.nodes left right) → ⊥ }
    ensures clauses { clauses.new.clauses ≡ clauses.old.clauses }
    ensures atoms { GoOn clauses.old.atoms clauses.new.atoms }
{
    let first = terms.node(left).arguments;
    let second = terms.node(right).arguments;
    if !differing_codes(terms, clauses, first, second, codes)? {
        return Ok(false);
    }
    add_same(terms, clauses, true, left, right, codes)
}

/// Keeps that clause.
fn keep_cong(
    alloc: Global,
    terms: &Terms<'_>,
    clauses: &mut Clauses,
    left: TermId,
    right: TermId,
) -> Result<Verdict, AllocError>
    requires left { left < length terms.now.nodes }
    requires right { right < length terms.now.nodes }
    requires count { length (node_at terms.now.nodes left).arguments ≡ length (node_at terms.now.nodes right).arguments }
    ensures { IfOk result (IsKeptIfOver terms.now clauses.old clauses.new (cong_clause terms.now.nodes left right)) }
{
    let mut codes = clauses.take_scratch(alloc);
    if !cong_codes(terms, clauses, left, right, &mut codes)? {
        clauses.give_scratch(codes);
        return Ok(Verdict::Wrong);
    }
    clauses.keep(&mut codes)?;
    clauses.give_scratch(codes);
    Ok(Verdict::Good)
}

/// `(cong left right)`
pub(crate) fn judge_cong(
    alloc: Global,
    terms: &Terms<'_>,
    clauses: &mut Clauses,
    left: TermId,
    right: TermId,
) -> Result<Verdict, AllocError>
    ensures { (asserted : List Tree) → IfOk result (Comes terms.now asserted clauses.old clauses.new (Cong left right)) }
{
    let count = terms.len();
    if left as usize >= count || right as usize >= count {
        return Ok(Verdict::Wrong);
    }
    if !are_applications_of_one(terms, left, right) {
        return Ok(Verdict::Wrong);
    }
    keep_cong(alloc, terms, clauses, left, right)
}

/// `(truth left right)`
pub(crate) fn judge_truth(
    alloc: Global,
    terms: &Terms<'_>,
    clauses: &mut Clauses,
    left: TermId,
    right: TermId,
) -> Result<Verdict, AllocError>
    ensures { (asserted : List Tree) → IfOk result (Comes terms.now asserted clauses.old clauses.new (Truth left right)) }
{
    let literals = [
        same(false, left, right),
        truth(false, left),
        truth(true, right),
    ];
    keep_clause(alloc, terms, clauses, &literals)
}

/// `(both left right)`
pub(crate) fn judge_both(
    alloc: Global,
    terms: &Terms<'_>,
    clauses: &mut Clauses,
    left: TermId,
    right: TermId,
) -> Result<Verdict, AllocError>
    ensures { (asserted : List Tree) → IfOk result (Comes terms.now asserted clauses.old clauses.new (Both left right)) }
{
    let literals = [
        truth(false, left),
        truth(false, right),
        same(true, left, right),
    ];
    keep_clause(alloc, terms, clauses, &literals)
}

/// `(none left right)`
pub(crate) fn judge_neither(
    alloc: Global,
    terms: &Terms<'_>,
    clauses: &mut Clauses,
    left: TermId,
    right: TermId,
) -> Result<Verdict, AllocError>
    ensures { (asserted : List Tree) → IfOk result (Comes terms.now asserted clauses.old clauses.new (Neither left right)) }
{
    let literals = [
        truth(true, left),
        truth(true, right),
        same(true, left, right),
    ];
    keep_clause(alloc, terms, clauses, &literals)
}
