//! Which terms are terms of the stack.
ghost use Rattle.std.specs.Prelude.{◌≡◌, ◌≢◌, ◌<◌, true, false, length, List, ℕ, All, Some, None, IfOk, MatchBool};
ghost use Rattle.smt_meaning.specs.declared.terms.Head.TheVariants.{Numeral};
ghost use Rattle.smt_meaning.specs.declared.terms.Operator.TheVariants.{Divide, Divisible};
ghost use Rattle.smt_meaning.specs.Term.{node, none, tree_at};
ghost use Rattle.smt_meaning.specs.TreeShape.{operation, quotient_tree, divided_from};
ghost use Rattle.smt_meaning.specs.Nodes.{pick};
ghost use Rattle.proof_meaning.specs.Proof.{meant_at};
ghost use Rattle.term_store.specs.Terms.{tree_with, AreComplete};
ghost use Rattle.proof_terms.specs.TermFacts.{held_of, is_division, beside_quotient, IsHeldAt, AreAmong};
ghost use Rattle.proof_terms.specs.TermTable.{IsHeldPlace};

use crate::terms_divisions::is_division;
use crate::terms_facts::Fact;
use smt_meaning::{Head, Operator, TermId};
use std::alloc::{AllocError, Global};
use term_store::{InternError, TermStore};

/// The same terms, at the same places.
pub(crate) fn copy(alloc: Global, terms: &TermStore) -> Result<TermStore, AllocError>
    ensures same { IfOk result (λ t. t.trees ≡ terms.now.trees) }
    ensures complete { AreComplete terms.now.trees }
{
    let mut copy = TermStore::new(alloc, terms.limit());
    for place in 0..terms.len() {
        let node = terms.node(place);
        match copy.intern(node.head, node.arguments) {
            Ok(_) => {}
            Err(InternError::Full) => unreachable!(),
            Err(InternError::Memory) => return Err(AllocError),
        }
    }
    Ok(copy)
}

/// The place of the term with this head and these arguments, if it is there. The terms stay as they are.
pub(crate) fn find(
    terms: &mut TermStore,
    head: Head,
    arguments: &[TermId],
) -> Result<Option<TermId>, AllocError>
    requires { All (λ i. i < length terms.old.trees) arguments.now }
    ensures ok { IfOk result (λ o. IsHeldAt terms.old.trees (tree_with terms.old.trees head arguments.now) o) }
    ensures same { terms.new ≡ terms.old }
{
    let count = terms.len();
    match terms.intern(head, arguments) {
        Ok(place) => {
            if place < count {
                return Ok(Some(place));
            }
            terms.cut(count);
            Ok(None)
        }
        Err(InternError::Full) => Ok(None),
        Err(InternError::Memory) => Err(AllocError),
    }
}

/// The place of the quotient of two terms.
fn find_quotient(
    terms: &mut TermStore,
    dividend: TermId,
    divisor: TermId,
) -> Result<Option<TermId>, AllocError>
    requires dividend { dividend < length terms.old.trees }
    requires divisor { divisor < length terms.old.trees }
    ensures ok { IfOk result (λ o. IsHeldAt terms.old.trees (quotient_tree (tree_at terms.old.trees dividend) (tree_at terms.old.trees divisor)) o) }
    ensures same { terms.new ≡ terms.old }
{
    find(terms, Head::Theory(Operator::Divide), &[dividend, divisor])
}

/// The place of a term divided by one divisor after another.
fn find_divided(
    terms: &mut TermStore,
    dividend: TermId,
    divisors: &[TermId],
) -> Result<Option<TermId>, AllocError>
    requires complete { AreComplete terms.old.trees }
    requires dividend { dividend < length terms.old.trees }
    requires divisors { All (λ i. i < length terms.old.trees) divisors.now }
    ensures ok { IfOk result (λ o. IsHeldAt terms.old.trees (divided_from (tree_at terms.old.trees dividend) (pick terms.old.trees divisors.now)) o) }
    ensures same { terms.new ≡ terms.old }
{
    let mut place = dividend;
    for divisor in divisors {
        match find_quotient(terms, place, *divisor)? {
            Some(quotient) => place = quotient,
            None => return Ok(None),
        }
    }
    Ok(Some(place))
}

/// The place of the term with this operator and two arguments, and their quotient beside them.
fn find_beside(
    terms: &mut TermStore,
    operator: Operator,
    dividend: TermId,
    divisor: TermId,
) -> Result<Option<TermId>, AllocError>
    requires complete { AreComplete terms.old.trees }
    requires dividend { dividend < length terms.old.trees }
    requires divisor { divisor < length terms.old.trees }
    ensures ok { IfOk result (λ o. IsHeldAt terms.old.trees (beside_quotient operator (tree_at terms.old.trees dividend) (tree_at terms.old.trees divisor)) o) }
    ensures same { terms.new ≡ terms.old }
{
    match find_quotient(terms, dividend, divisor)? {
        Some(quotient) => find(
            terms,
            Head::Theory(operator),
            &[dividend, divisor, quotient],
        ),
        None => Ok(None),
    }
}

/// The place of the term that says that a number divides a term.
fn find_divisibility(
    terms: &mut TermStore,
    number: i128,
    dividend: TermId,
) -> Result<Option<TermId>, AllocError>
    requires complete { AreComplete terms.old.trees }
    requires dividend { dividend < length terms.old.trees }
    ensures ok { IfOk result (λ o. IsHeldAt terms.old.trees (beside_quotient Divisible (tree_at terms.old.trees dividend) (node (Numeral number) none)) o) }
    ensures same { terms.new ≡ terms.old }
{
    match find(terms, Head::Numeral(number), &[])? {
        Some(divisor) => find_beside(terms, Operator::Divisible, dividend, divisor),
        None => Ok(None),
    }
}

/// The place of a division: of the first of the terms at these places by the others.
fn find_division(terms: &mut TermStore, arguments: &[TermId]) -> Result<Option<TermId>, AllocError>
    requires { AreAmong terms.old.trees arguments.now }
    ensures ok { IfOk result (λ o. IsHeldAt terms.old.trees (operation Divide (pick terms.old.trees arguments.now)) o) }
    ensures same { terms.new ≡ terms.old }
{
    match arguments.split_first() {
        Some((dividend, divisors)) => find_divided(terms, *dividend, divisors),
        None => find(terms, Head::Theory(Operator::Divide), arguments),
    }
}

/// The place of a remainder or a divisibility of the terms at these places.
fn find_left_over(
    terms: &mut TermStore,
    operator: Operator,
    arguments: &[TermId],
) -> Result<Option<TermId>, AllocError>
    requires held { AreAmong terms.old.trees arguments.now }
    requires operator { is_division operator ≡ true }
    requires other { operator ≢ Divide }
    ensures ok { IfOk result (λ o. IsHeldAt terms.old.trees (operation operator (pick terms.old.trees arguments.now)) o) }
    ensures same { terms.new ≡ terms.old }
{
    if arguments.len() == 2 {
        find_beside(terms, operator, arguments[0], arguments[1])
    } else {
        find(terms, Head::Theory(operator), arguments)
    }
}

/// The place of what an operator makes of the terms at these places.
fn find_operation(
    terms: &mut TermStore,
    operator: Operator,
    arguments: &[TermId],
) -> Result<Option<TermId>, AllocError>
    requires { AreAmong terms.old.trees arguments.now }
    ensures ok { IfOk result (λ o. IsHeldAt terms.old.trees (operation operator (pick terms.old.trees arguments.now)) o) }
    ensures same { terms.new ≡ terms.old }
{
    if operator == Operator::Divide {
        return find_division(terms, arguments);
    }
    if is_division(operator) {
        return find_left_over(terms, operator, arguments);
    }
    find(terms, Head::Theory(operator), arguments)
}

/// The place of what a head makes of the terms at these places.
fn find_meant(
    terms: &mut TermStore,
    head: Head,
    arguments: &[TermId],
) -> Result<Option<TermId>, AllocError>
    requires { AreAmong terms.old.trees arguments.now }
    ensures ok { IfOk result (λ o. IsHeldAt terms.old.trees (meant_at head (pick terms.old.trees arguments.now)) o) }
    ensures same { terms.new ≡ terms.old }
{
    match head {
        Head::Theory(operator) => find_operation(terms, operator, arguments),
        Head::Numeral(number) => {
            if arguments.len() == 1 {
                find_divisibility(terms, number, arguments[0])
            } else {
                find(terms, head, arguments)
            }
        }
        Head::Symbol(_) | Head::Place(_) => find(terms, head, arguments),
    }
}

/// Collects the places of the arguments among the stack's terms, and tells whether all have one.
fn collect(arguments: &[Fact], places: &mut Vec<TermId>) -> Result<bool, AllocError>
    ensures { IfOk result (λ all. MatchBool all (held_of arguments.now ≡ Some places.new.items) (held_of arguments.now ≡ None)) }
{
    places.clear();
    for argument in arguments {
        match argument.held {
            Some(place) => places.push(place)?,
            None => return Ok(false),
        }
    }
    Ok(true)
}

/// The place among the stack's terms of the one for which a term stands, if it is one of them, by the places of those for which its arguments stand.
pub(crate) fn held_place(
    terms: &mut TermStore,
    head: Head,
    arguments: &[Fact],
    places: &mut Vec<TermId>,
) -> Result<Option<TermId>, AllocError>
    requires complete { AreComplete terms.old.trees }
    requires places { (is : List ℕ) → held_of arguments.now ≡ Some is → All (λ i. i < length terms.old.trees) is }
    ensures ok { IfOk result (λ o. IsHeldPlace terms.old.trees head (held_of arguments.now) o) }
    ensures same { terms.new ≡ terms.old }
{
    if collect(arguments, places)? {
        find_meant(terms, head, places)
    } else {
        Ok(None)
    }
}
