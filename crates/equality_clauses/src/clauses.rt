//! The clauses, put at the end of a list.
ghost use Rattle.std.specs.Prelude.{◌≡◌, ◌<◌, ◌^◌, [], ◌∷◌, ◌++◌, map, All, OnOk};
ghost use Rattle.equality_clauses.specs.Ties.{literal, no, joined, parity, comparison_clauses, choice_clauses, sameness_clauses};

use crate::once::keep_once;
use clause_form::Clauses;
use literals::Literal;
use smt_meaning::Operator;
use std::alloc::{AllocError, Global};

/// Lists that are used again for each term.
#[derive(Drop)]
pub struct Lists {
    places: Vec<usize>,
    kept: Vec<u32>,
    literals: Vec<Literal>,
}

impl Lists {
    /// Empty lists. It takes no memory.
    pub fn new(alloc: Global) -> Self {
        Lists {
            places: Vec::new(alloc),
            kept: Vec::new(alloc),
            literals: Vec::new(alloc),
        }
    }
}

fn put(clauses: &mut Clauses, clause: &[Literal]) -> Result<(), AllocError>
    ensures { OnOk result (clauses.new ≡ clauses.old ++ clause.now ∷ []) }
{
    clauses.push(clause)
}

/// Adds these atoms with one sign.
fn add_all(literals: &mut Vec<Literal>, numbers: &[u32], positive: bool) -> Result<(), AllocError>
    requires { All (λ n. n < 2 ^ 31) numbers.now }
    ensures { OnOk result (literals.new.items ≡ literals.old.items ++ map (literal positive) numbers.now) }
{
    for number in numbers {
        literals.push(Literal::new(*number, positive))?;
    }
    Ok(())
}

/// Adds for each of these atoms that it has the sign where the first is true.
fn put_each(
    clauses: &mut Clauses,
    number: u32,
    numbers: &[u32],
    sign: bool,
) -> Result<(), AllocError>
    requires number { number < 2 ^ 31 }
    requires numbers { All (λ n. n < 2 ^ 31) numbers.now }
    ensures { OnOk result (clauses.new ≡ clauses.old ++ map (λ n. no number ∷ literal sign n ∷ []) numbers.now) }
{
    for other in numbers {
        put(
            clauses,
            &[Literal::new(number, false), Literal::new(*other, sign)],
        )?;
    }
    Ok(())
}

/// Adds that the first atom is true exactly where each of these has the sign.
fn put_joined(
    clauses: &mut Clauses,
    literals: &mut Vec<Literal>,
    number: u32,
    numbers: &[u32],
    sign: bool,
) -> Result<(), AllocError>
    requires number { number < 2 ^ 31 }
    requires numbers { All (λ n. n < 2 ^ 31) numbers.now }
    ensures { OnOk result (clauses.new ≡ clauses.old ++ joined number sign numbers.now) }
{
    literals.clear();
    literals.push(Literal::new(number, true))?;
    add_all(literals, numbers, !sign)?;
    put(clauses, literals)?;
    put_each(clauses, number, numbers, sign)
}

/// Adds the clauses of `=` or `distinct` over the numbers of its atom and of its arguments' equalities: of `=` those of neighbours, of `distinct` those of
/// each two, in any order, and also where the two are one term. Of another operator none. An `Err`, for want of memory, says nothing of the clauses.
pub fn put_comparison(
    clauses: &mut Clauses,
    lists: &mut Lists,
    operator: Operator,
    number: u32,
    pairs: &[u32],
) -> Result<(), AllocError>
    requires number { number < 2 ^ 31 }
    requires pairs { All (λ n. n < 2 ^ 31) pairs.now }
    ensures { OnOk result (clauses.new ≡ clauses.old ++ comparison_clauses operator number pairs.now) }
{
    let sign = match operator {
        Operator::Equal => true,
        Operator::Distinct => false,
        _ => return Ok(()),
    };
    keep_once(&mut lists.places, &mut lists.kept, pairs)?;
    put_joined(clauses, &mut lists.literals, number, &lists.kept, sign)
}

/// Adds the clauses of an `ite` that is no Bool, over the numbers of its condition and of its equalities with its branches.
/// An `Err`, for want of memory, says nothing of the clauses.
pub fn put_choice(
    clauses: &mut Clauses,
    condition: u32,
    first: u32,
    second: u32,
) -> Result<(), AllocError>
    requires condition { condition < 2 ^ 31 }
    requires first { first < 2 ^ 31 }
    requires second { second < 2 ^ 31 }
    ensures { OnOk result (clauses.new ≡ clauses.old ++ choice_clauses condition first second) }
{
    let condition = Literal::new(condition, true);
    put(clauses, &[condition.negated(), Literal::new(first, true)])?;
    put(clauses, &[condition, Literal::new(second, true)])
}

fn put_parity(
    clauses: &mut Clauses,
    same: Literal,
    x: Literal,
    y: Literal,
) -> Result<(), AllocError>
    ensures { OnOk result (clauses.new ≡ clauses.old ++ parity same x y) }
{
    put(clauses, &[same.negated(), x.negated(), y])?;
    put(clauses, &[same.negated(), x, y.negated()])?;
    put(clauses, &[same, x, y])?;
    put(clauses, &[same, x.negated(), y.negated()])
}

/// Adds the clauses of the equality of two Bools, over its number and those of their truth, which may be one.
/// An `Err`, for want of memory, says nothing of the clauses.
pub fn put_sameness(clauses: &mut Clauses, same: u32, x: u32, y: u32) -> Result<(), AllocError>
    requires same { same < 2 ^ 31 }
    requires x { x < 2 ^ 31 }
    requires y { y < 2 ^ 31 }
    ensures { OnOk result (clauses.new ≡ clauses.old ++ sameness_clauses same x y) }
{
    let same = Literal::new(same, true);
    if x == y {
        return put(clauses, &[same]);
    }
    put_parity(clauses, same, Literal::new(x, true), Literal::new(y, true))
}
