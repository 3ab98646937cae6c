//! The clauses of the table of divisions (SMT-LIB 2.6, theory Ints).
ghost use Rattle.std.specs.Prelude.{◌≡◌, ◌<◌, ◌↔◌, length, map, List, ℕ, ℤ, All, Err, IfOk, IsTrue};
ghost use Rattle.fraction128.specs.Whole.{InRange};
ghost use Rattle.smt_meaning.specs.declared.terms.Head.TheVariants.{Numeral, Theory};
ghost use Rattle.smt_meaning.specs.declared.terms.Operator.TheVariants.{Divide, Modulo, Absolute};
ghost use Rattle.smt_meaning.specs.Term.{Tree};
ghost use Rattle.pair_bounds.specs.Rows.{placed_row};
ghost use Rattle.proof_meaning.specs.Proof.{node_at};
ghost use Rattle.proof_meaning.specs.declared.proof.Step.TheVariants.{Euclid};
ghost use Rattle.proof_terms.specs.Comes.{Comes};
ghost use Rattle.proof_terms.specs.EuclidRows.{division_rows, number_of, IsWithin, NumberLeaves, IsByNumeral, IsDivisionOrNone, IsItsRowOrNone, IsRowOrNone, RowLeaves, rows_here};

use crate::clauses::Clauses;
use crate::euclid_codes::keep_row;
use crate::terms::{Stop, Terms};
use crate::verdict::Verdict;
use pair_bounds::{Row, add_rows};
use smt_meaning::{Head, Operator, TermId};
use std::alloc::{AllocError, Global};

/// A division by its terms; a divisibility and a remainder go with their quotient.
#[derive(Clone, Copy, Drop)]
pub(crate) enum Division {
    /// The argument and the divisor.
    Quotient(TermId, TermId),
    /// The argument, the divisor and the quotient.
    Remainder(TermId, TermId, TermId),
    /// The argument, the divisor and the quotient.
    Divisibility(TermId, TermId, TermId),
    /// The argument.
    Magnitude(TermId),
}

/// A `div` by one divisor, or by the last of several.
fn quotient(terms: &mut Terms<'_>, arguments: &[TermId]) -> Result<Option<Division>, AllocError>
    requires arguments { All (λ i. i < length terms.old.nodes) arguments.now }
    requires count { length terms.old.trees ≡ length terms.old.nodes }
    ensures ok { (i : ℕ) → IfOk result (IsDivisionOrNone terms.old.trees i (Theory Divide) arguments.now) }
    ensures same { terms.new ≡ terms.old }
{
    if arguments.len() == 2 {
        return Ok(Some(Division::Quotient(arguments[0], arguments[1])));
    }
    let Some((last, others)) = arguments.split_last() else {
        return Ok(None);
    };
    if others.len() < 2 {
        return Ok(None);
    }
    match terms.term_with(Head::Theory(Operator::Divide), others)? {
        Some(argument) => Ok(Some(Division::Quotient(argument, *last))),
        None => Ok(None),
    }
}

/// A `mod` with its quotient.
fn remainder(terms: &mut Terms<'_>, arguments: &[TermId]) -> Result<Option<Division>, AllocError>
    requires arguments { All (λ i. i < length terms.old.nodes) arguments.now }
    requires count { length terms.old.trees ≡ length terms.old.nodes }
    ensures ok { (i : ℕ) → IfOk result (IsDivisionOrNone terms.old.trees i (Theory Modulo) arguments.now) }
    ensures same { terms.new ≡ terms.old }
{
    if arguments.len() != 2 {
        return Ok(None);
    }
    match terms.term_with(Head::Theory(Operator::Divide), arguments)? {
        Some(quotient) => Ok(Some(Division::Remainder(arguments[0], arguments[1], quotient))),
        None => Ok(None),
    }
}

/// A divisibility of a term by a numeral, with the quotient.
fn by_numeral(
    terms: &mut Terms<'_>,
    argument: TermId,
    numeral: TermId,
) -> Result<Option<Division>, AllocError>
    requires argument { argument < length terms.old.nodes }
    requires numeral { numeral < length terms.old.nodes }
    ensures ok { IfOk result (λ o. IsByNumeral terms.old.trees argument numeral o) }
    ensures same { terms.new ≡ terms.old }
{
    let found = terms.term_with(Head::Theory(Operator::Divide), &[argument, numeral])?;
    match found {
        Some(quotient) => Ok(Some(Division::Divisibility(argument, numeral, quotient))),
        None => Ok(None),
    }
}

/// `((_ divisible n) i)` with its quotient, where the head is a numeral.
fn divisibility(
    terms: &mut Terms<'_>,
    head: Head,
    arguments: &[TermId],
) -> Result<Option<Division>, AllocError>
    requires arguments { All (λ i. i < length terms.old.nodes) arguments.now }
    requires count { length terms.old.trees ≡ length terms.old.nodes }
    ensures ok { (i : ℕ) (n : ℤ) → head ≡ Numeral n → IfOk result (IsDivisionOrNone terms.old.trees i head arguments.now) }
    ensures same { terms.new ≡ terms.old }
{
    let _count = terms.len();
    if arguments.len() != 1 {
        return Ok(None);
    }
    match terms.term_with(head, &[])? {
        Some(numeral) => by_numeral(terms, arguments[0], numeral),
        None => Ok(None),
    }
}

fn magnitude(arguments: &[TermId]) -> Option<Division>
    ensures { (ts : List Tree) (i : ℕ) → All (λ j. j < length ts) arguments.now → IsDivisionOrNone ts i (Theory Absolute) arguments.now result }
{
    if arguments.len() == 1 {
        Some(Division::Magnitude(arguments[0]))
    } else {
        None
    }
}

fn is_operator(head: Head, operator: Operator) -> bool
    ensures { IsTrue result ↔ (head ≡ Theory operator) }
{
    head == Head::Theory(operator)
}

/// The division that a term with this head and these arguments is, if it has rows.
fn division_with(
    terms: &mut Terms<'_>,
    head: Head,
    arguments: &[TermId],
) -> Result<Option<Division>, AllocError>
    requires arguments { All (λ i. i < length terms.old.nodes) arguments.now }
    requires count { length terms.old.trees ≡ length terms.old.nodes }
    ensures ok { (i : ℕ) → IfOk result (IsDivisionOrNone terms.old.trees i head arguments.now) }
    ensures same { terms.new ≡ terms.old }
{
    if is_operator(head, Operator::Divide) {
        return quotient(terms, arguments);
    }
    if is_operator(head, Operator::Modulo) {
        return remainder(terms, arguments);
    }
    if is_operator(head, Operator::Absolute) {
        return Ok(magnitude(arguments));
    }
    match head {
        Head::Numeral(_) => divisibility(terms, head, arguments),
        Head::Theory(_) => Ok(None),
        Head::Symbol(_) => Ok(None),
        Head::Place(_) => Ok(None),
    }
}

/// The division that a term is, if it has rows.
fn division_of(
    alloc: Global,
    terms: &mut Terms<'_>,
    place: TermId,
) -> Result<Option<Division>, AllocError>
    requires { place < length terms.old.nodes }
    ensures ok { IfOk result (IsDivisionOrNone terms.old.trees place (node_at terms.old.nodes place).head (node_at terms.old.nodes place).arguments) }
    ensures same { terms.new ≡ terms.old }
{
    let _count = terms.len();
    let mut arguments = Vec::new(alloc);
    let node = terms.node(place);
    let head = node.head;
    arguments.extend_from_slice(node.arguments)?;
    division_with(terms, head, &arguments)
}

/// The number of the divisor, 0 where there is none.
fn number_of(terms: &mut Terms<'_>, division: Division) -> Result<i128, Stop>
    requires { IsWithin (length terms.old.nodes) division }
    ensures ok { IfOk result (λ n. (n ≡ number_of terms.old.trees division) × InRange n) }
    ensures range { result ≡ Err Stop.Range → NumberLeaves terms.old.trees division }
    ensures same { terms.new ≡ terms.old }
{
    match division {
        Division::Quotient(argument, divisor) => terms.divisor(argument, divisor),
        Division::Remainder(argument, divisor, _) => terms.divisor(argument, divisor),
        Division::Divisibility(argument, divisor, _) => terms.divisor(argument, divisor),
        Division::Magnitude(_) => Ok(0),
    }
}

/// How many rows a division has.
fn row_count(division: Division) -> u64
    ensures { (n : _) (i : ℕ) → result ≡ length (division_rows division n i) }
{
    match division {
        Division::Quotient(_, _) => 2,
        Division::Remainder(_, _, _) => 4,
        Division::Divisibility(_, _, _) => 4,
        Division::Magnitude(_) => 3,
    }
}

/// The rows of the division that a term is.
fn rows_of(
    alloc: Global,
    division: Division,
    number: i128,
    place: TermId,
) -> Result<Vec<Row>, AllocError>
    requires { InRange number }
    ensures { IfOk result (λ rows. rows.items ≡ map placed_row (division_rows division number place)) }
{
    let mut rows = Vec::new(alloc);
    match division {
        Division::Quotient(argument, divisor) => add_rows(
            &mut rows,
            Operator::Divide,
            number,
            place,
            &[argument, divisor],
        )?,
        Division::Remainder(argument, divisor, quotient) => add_rows(
            &mut rows,
            Operator::Modulo,
            number,
            place,
            &[argument, divisor, quotient],
        )?,
        Division::Divisibility(argument, divisor, quotient) => add_rows(
            &mut rows,
            Operator::Divisible,
            number,
            place,
            &[argument, divisor, quotient],
        )?,
        Division::Magnitude(argument) => {
            add_rows(&mut rows, Operator::Absolute, number, place, &[argument])?
        }
    }
    Ok(rows)
}

/// The row of this number of the division that a term is.
fn row_of_division(
    alloc: Global,
    terms: &mut Terms<'_>,
    division: Division,
    place: TermId,
    which: u64,
) -> Result<Option<Row>, Stop>
    requires place { place < length terms.old.trees }
    requires within { IsWithin (length terms.old.trees) division }
    requires count { length terms.old.trees ≡ length terms.old.nodes }
    ensures ok { IfOk result (IsItsRowOrNone terms.old.trees place division which) }
    ensures range { result ≡ Err Stop.Range → NumberLeaves terms.old.trees division × (which < length (rows_here terms.old.trees division place)) }
    ensures same { terms.new ≡ terms.old }
{
    if which >= row_count(division) {
        return Ok(None);
    }
    let number = number_of(terms, division)?;
    match rows_of(alloc, division, number, place) {
        Ok(rows) => Ok(Some(rows[which as usize])),
        Err(_) => Err(Stop::Memory),
    }
}

/// The row of this number in the table of divisions for a term.
fn row_at(
    alloc: Global,
    terms: &mut Terms<'_>,
    place: TermId,
    which: u64,
) -> Result<Option<Row>, Stop>
    requires { place < length terms.old.nodes }
    ensures ok { IfOk result (IsRowOrNone terms.old.trees place (node_at terms.old.nodes place).head (node_at terms.old.nodes place).arguments which) }
    ensures range { result ≡ Err Stop.Range → RowLeaves terms.old.trees place (node_at terms.old.nodes place).head (node_at terms.old.nodes place).arguments which }
    ensures same { terms.new ≡ terms.old }
{
    let _count = terms.len();
    match division_of(alloc, terms, place) {
        Ok(Some(division)) => row_of_division(alloc, terms, division, place, which),
        Ok(None) => Ok(None),
        Err(_) => Err(Stop::Memory),
    }
}

/// `(euclid place which)`
pub fn judge_euclid(
    alloc: Global,
    terms: &mut Terms<'_>,
    clauses: &mut Clauses,
    place: TermId,
    which: u64,
) -> Result<Verdict, AllocError>
    ensures comes { (asserted : List Tree) → IfOk result (Comes terms.old asserted clauses.old clauses.new (Euclid place which)) }
    ensures same { terms.new ≡ terms.old }
{
    if (place as usize) >= terms.len() {
        return Ok(Verdict::Wrong);
    }
    match row_at(alloc, terms, place, which) {
        Ok(Some(row)) => keep_row(alloc, terms, clauses, place, row),
        Ok(None) => Ok(Verdict::Wrong),
        Err(Stop::Range) => Ok(Verdict::Range),
        Err(Stop::Memory) => Err(AllocError),
    }
}
