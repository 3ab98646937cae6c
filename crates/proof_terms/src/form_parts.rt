//! The parts of a term, and numbers for their atoms.
ghost use Rattle.std.specs.Prelude.{◌≡◌, ◌≢◌, ◌<◌, true, false, map, length, All, Ok, OnOk, IfOk};
ghost use Rattle.smt_meaning.specs.declared.terms.Operator.TheVariants.{Equal as IsEqual, Distinct as IsDistinct, Ite as IsIte};
ghost use Rattle.smt_meaning.specs.declared.values.Sort.TheVariants.{Bool as Truths};
ghost use Rattle.smt_meaning.specs.declared.clauses.Atom.TheVariants.{Truth, Same, AtMost};
ghost use Rattle.proof_meaning.specs.Rules.{along};
ghost use Rattle.proof_terms.specs.Range.{neighbours_fit};
ghost use Rattle.proof_terms.specs.Comparing.{compared, compared_fits};
ghost use Rattle.proof_terms.specs.FormParts.{relation_atom, relation_fits, IsOperation, IsKind, IsNumberOf, AreNumbersOf, IsNumbered, Extends};

use crate::clauses::Clauses;
use crate::form_values::Connective;
use crate::terms::{Stop, Terms};
use crate::terms_bounds::Comparison;
use smt_meaning::{Operator, Sort, Summand, TermId};
use std::alloc::AllocError;

/// How each two neighbours among the arguments of a term compare.
#[derive(Clone, Copy, PartialEq, Eq, Drop)]
pub(crate) enum Relation {
    Equal,
    AtMost,
    Less,
    AtLeast,
    Greater,
}

/// Which parts a term has.
#[derive(Clone, Copy, Drop)]
pub(crate) enum Kind {
    /// The truths of its arguments.
    Bools(Connective),
    /// An atom of each two neighbours; it is true where all are.
    Neighbours(Relation),
    /// The equality of each two arguments; it is true where none is.
    Pairs,
    /// It is no term that parts give a truth value.
    NoParts,
}

/// Whether a sort is that of truth values.
fn is_bool(sort: Sort) -> bool
    ensures yes { result ≡ true → sort ≡ Truths }
    ensures no { result ≡ false → sort ≢ Truths }
{
    match sort {
        Sort::Bool => true,
        Sort::Int => false,
        Sort::Free(_) => false,
    }
}

/// The kind of an equality.
fn equality_kind(terms: &Terms<'_>, place: TermId, arguments: &[TermId]) -> Kind
    requires { IsOperation terms.now place IsEqual arguments.now }
    ensures { IsKind terms.now.declared terms.now.trees IsEqual arguments.now result }
{
    let _sort = terms.sort(place);
    if is_bool(terms.sort(arguments[0])) {
        Kind::Bools(Connective::Equal)
    } else {
        Kind::Neighbours(Relation::Equal)
    }
}

/// The kind of a term that says that its arguments differ. Three truth values never do.
fn distinct_kind(terms: &Terms<'_>, place: TermId, arguments: &[TermId]) -> Kind
    requires { IsOperation terms.now place IsDistinct arguments.now }
    ensures { IsKind terms.now.declared terms.now.trees IsDistinct arguments.now result }
{
    let _sort = terms.sort(place);
    if !is_bool(terms.sort(arguments[0])) {
        return Kind::Pairs;
    }
    if arguments.len() == 2 {
        Kind::Bools(Connective::Xor)
    } else {
        Kind::Bools(Connective::False)
    }
}

/// The kind of an `ite`.
fn choice_kind(terms: &Terms<'_>, place: TermId, arguments: &[TermId]) -> Kind
    requires { IsOperation terms.now place IsIte arguments.now }
    ensures { IsKind terms.now.declared terms.now.trees IsIte arguments.now result }
{
    if is_bool(terms.sort(place)) {
        Kind::Bools(Connective::Ite)
    } else {
        Kind::NoParts
    }
}

/// Which parts a term with this operator has.
pub(crate) fn kind_of(
    terms: &Terms<'_>,
    place: TermId,
    operator: Operator,
    arguments: &[TermId],
) -> Kind
    requires { IsOperation terms.now place operator arguments.now }
    ensures { IsKind terms.now.declared terms.now.trees operator arguments.now result }
{
    let _sort = terms.sort(place);
    match operator {
        Operator::True => Kind::Bools(Connective::And),
        Operator::False => Kind::Bools(Connective::Or),
        Operator::Not => Kind::Bools(Connective::Nor),
        Operator::And => Kind::Bools(Connective::And),
        Operator::Or => Kind::Bools(Connective::Or),
        Operator::Xor => Kind::Bools(Connective::Xor),
        Operator::Implies => Kind::Bools(Connective::Implies),
        Operator::Equal => equality_kind(terms, place, arguments),
        Operator::Distinct => distinct_kind(terms, place, arguments),
        Operator::Ite => choice_kind(terms, place, arguments),
        Operator::AtMost => Kind::Neighbours(Relation::AtMost),
        Operator::Less => Kind::Neighbours(Relation::Less),
        Operator::AtLeast => Kind::Neighbours(Relation::AtLeast),
        Operator::Greater => Kind::Neighbours(Relation::Greater),
        Operator::Add => Kind::NoParts,
        Operator::Subtract => Kind::NoParts,
        Operator::Multiply => Kind::NoParts,
        Operator::Divide => Kind::NoParts,
        Operator::Modulo => Kind::NoParts,
        Operator::Absolute => Kind::NoParts,
        Operator::Divisible => Kind::NoParts,
    }
}

/// Numbers the truth of a term.
pub(crate) fn number_truth(clauses: &mut Clauses, place: TermId) -> Result<u32, AllocError>
    ensures number { IfOk result (λ n. IsNumberOf clauses.new.atoms n (Truth place)) }
    ensures more { Extends clauses.old clauses.new }
{
    let code = clauses.truth(true, place)?;
    Ok(code / 2)
}

/// Numbers the truths of terms; then the list, whatever it was before, has the numbers.
pub(crate) fn number_truths(
    clauses: &mut Clauses,
    places: &[TermId],
    numbers: &mut Vec<u32>,
) -> Result<(), AllocError>
    ensures numbers { OnOk result (AreNumbersOf clauses.new.atoms numbers.new.items (map Truth places.now)) }
    ensures more { Extends clauses.old clauses.new }
{
    numbers.clear();
    for place in places {
        let number = number_truth(clauses, *place)?;
        numbers.push(number)?;
    }
    Ok(())
}

/// Numbers the equality of two terms.
fn number_same(clauses: &mut Clauses, left: TermId, right: TermId) -> Result<u32, AllocError>
    ensures number { IfOk result (λ n. IsNumberOf clauses.new.atoms n (Same left right)) }
    ensures more { Extends clauses.old clauses.new }
{
    let code = clauses.same(true, left, right)?;
    Ok(code / 2)
}

/// Numbers a bound.
fn number_bound(clauses: &mut Clauses, sum: &[Summand], limit: i128) -> Result<u32, AllocError>
    ensures number { IfOk result (λ n. IsNumberOf clauses.new.atoms n (AtMost sum.now limit)) }
    ensures more { Extends clauses.old clauses.new }
{
    let code = clauses.bound(true, sum, limit)?;
    Ok(code / 2)
}

/// Numbers the bound by which two terms compare, unless folding it leaves the range.
fn number_compared(
    terms: &mut Terms<'_>,
    clauses: &mut Clauses,
    comparison: Comparison,
    left: TermId,
    right: TermId,
    sum: &mut Vec<Summand>,
) -> Result<Option<u32>, AllocError>
    requires left { left < length terms.old.nodes }
    requires right { right < length terms.old.nodes }
    ensures number { IfOk result (IsNumbered clauses.new.atoms (compared comparison terms.old.trees left right) (compared_fits comparison terms.old.trees left right)) }
    ensures more { Extends clauses.old clauses.new }
    ensures same { terms.new ≡ terms.old }
{
    match terms.compared(comparison, left, right, sum) {
        Ok(limit) => {
            let number = number_bound(clauses, sum, limit)?;
            Ok(Some(number))
        }
        Err(Stop::Range) => Ok(None),
        Err(Stop::Memory) => Err(AllocError),
    }
}

/// Numbers the atom by which two neighbours compare, unless folding it leaves the range.
fn number_pair(
    terms: &mut Terms<'_>,
    clauses: &mut Clauses,
    relation: Relation,
    left: TermId,
    right: TermId,
    sum: &mut Vec<Summand>,
) -> Result<Option<u32>, AllocError>
    requires left { left < length terms.old.nodes }
    requires right { right < length terms.old.nodes }
    ensures number { IfOk result (IsNumbered clauses.new.atoms (relation_atom terms.old.trees relation left right) (relation_fits terms.old.trees relation left right)) }
    ensures more { Extends clauses.old clauses.new }
    ensures same { terms.new ≡ terms.old }
{
    match relation {
        Relation::Equal => {
            let number = number_same(clauses, left, right)?;
            Ok(Some(number))
        }
        Relation::AtMost => number_compared(terms, clauses, Comparison::NotAbove, left, right, sum),
        Relation::Less => number_compared(terms, clauses, Comparison::Below, left, right, sum),
        Relation::AtLeast => number_compared(
            terms,
            clauses,
            Comparison::NotAbove,
            right,
            left,
            sum,
        ),
        Relation::Greater => number_compared(terms, clauses, Comparison::Below, right, left, sum),
    }
}

/// Numbers an atom of each two neighbours; then the list, whatever it was before, has the numbers. Or answers that folding one leaves the range.
pub(crate) fn number_neighbours(
    terms: &mut Terms<'_>,
    clauses: &mut Clauses,
    relation: Relation,
    arguments: &[TermId],
    sum: &mut Vec<Summand>,
    numbers: &mut Vec<u32>,
) -> Result<bool, AllocError>
    requires within { All (λ i. i < length terms.old.nodes) arguments.now }
    ensures numbers { result ≡ Ok true → AreNumbersOf clauses.new.atoms numbers.new.items (along (relation_atom terms.old.trees relation) arguments.now) }
    ensures fits { result ≡ Ok true → neighbours_fit (relation_fits terms.old.trees relation) arguments.now ≡ true }
    ensures range { result ≡ Ok false → neighbours_fit (relation_fits terms.old.trees relation) arguments.now ≡ false }
    ensures more { Extends clauses.old clauses.new }
    ensures same { terms.new ≡ terms.old }
{
    numbers.clear();
    for place in 1..arguments.len() {
        let left = arguments[place - 1];
        let right = arguments[place];
        match number_pair(terms, clauses, relation, left, right, sum)? {
            Some(number) => numbers.push(number)?,
            None => return Ok(false),
        }
    }
    Ok(true)
}
