//! Sums with a positive first coefficient, and their parts.
ghost use Rattle.std.specs.Prelude.{◌≡◌, ◌≢◌, ℕ, ◌<◌, pos, map, length, All, IfOk};
ghost use Rattle.fraction128.specs.Whole.{InRange};
ghost use Rattle.fraction128.specs.Grid.{is_turned, turned, leaf};
ghost use Rattle.simplex_steps.specs.State.{column_in};
ghost use Rattle.simplex.specs.Sums.{HaveOwnSums};
ghost use Rattle.sum_bounds.specs.Bounds.{sum_hashes, IsSum};
ghost use Rattle.sum_bounds.specs.Written.{turned_summand, part_in, HasLeaf};

use crate::lookup::find;
use fraction128::{Seq, Sum, Summand};
use simplex::Simplex;
use std::alloc::{AllocError, Global};
use tableau::Part;
use term_store::HashIndex;

/// The variable of a sum, or of its negation where the sum's first coefficient is negative.
#[derive(Clone, Copy, PartialEq, Eq, Drop)]
pub struct SumVariable {
    pub variable: u32,
    pub turned: bool,
}

/// Whether the first coefficient is negative.
pub(crate) fn first_is_negative(sum: &[Summand]) -> bool
    ensures { result ≡ is_turned sum.now }
{
    match sum.first() {
        Some(summand) => summand.coefficient < 0,
        None => false,
    }
}

/// A summand, or its negation.
fn turn(turned: bool, summand: Summand) -> Summand
    requires { InRange summand.coefficient }
    ensures { result ≡ turned_summand turned summand }
{
    if turned {
        Summand {
            coefficient: -summand.coefficient,
            term: summand.term,
        }
    } else {
        summand
    }
}

/// A sum, or its negation where its first coefficient is negative.
pub(crate) fn turned_sum(alloc: Global, sum: &[Summand]) -> Result<Sum, AllocError>
    requires { All (λ (p : Summand). InRange p.coefficient) sum.now }
    ensures { IfOk result (λ s. s ≡ turned sum.now) }
{
    let turned = first_is_negative(sum);
    let mut copy = Seq::new(alloc);
    for summand in sum {
        copy.push(turn(turned, *summand))?;
    }
    Ok(copy)
}

/// A summand with the variable of its term in the term's place.
fn part_of(simplex: &Simplex, keys: &HashIndex, summand: Summand) -> Part
    requires keys { keys.now ≡ sum_hashes simplex.now.columns }
    requires apart { HaveOwnSums simplex.now.columns }
    requires leaf { HasLeaf simplex.now.columns summand.term }
    ensures { result ≡ part_in simplex.now.columns summand }
{
    let alone = [Summand {
        coefficient: 1,
        term: summand.term,
    }];
    Part {
        coefficient: summand.coefficient,
        variable: find(simplex, keys, &alone).unwrap(),
    }
}

/// The parts of a sum in order.
pub(crate) fn parts_of(
    alloc: Global,
    simplex: &Simplex,
    keys: &HashIndex,
    sum: &[Summand],
) -> Result<Vec<Part>, AllocError>
    requires keys { keys.now ≡ sum_hashes simplex.now.columns }
    requires apart { HaveOwnSums simplex.now.columns }
    requires sum { IsSum simplex.now.columns sum.now }
    ensures { IfOk result (λ ps. ps.items ≡ map (part_in simplex.now.columns) sum.now) }
{
    let mut parts = Vec::new(alloc);
    for summand in sum {
        parts.push(part_of(simplex, keys, *summand))?;
    }
    Ok(parts)
}
