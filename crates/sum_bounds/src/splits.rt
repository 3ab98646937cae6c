//! Sums at which bounds are split: whole numbers have a whole sum, which is at most a number or at least the next one, and no numbers meet the bounds with either. So no whole numbers meet them.
//!
//! The bounds are told to a copy, beside those of the two sides, so that no value of the state itself rests at a number that no literal says.
ghost use Rattle.std.specs.Prelude.{◌≡◌, ◌≢◌, ℕ, ◌+◌, ◌-◌, ◌/◌, ◌<◌, ◌^◌, true, false, [], ◌∷◌, ◌++◌, map, take, length, All, Contains, OnOk, IfOk, IfSome, OnSome};
ghost use Rattle.fraction128.specs.Whole.{InRange};
ghost use Rattle.fraction128.specs.Grid.{leaf};
ghost use Rattle.simplex.specs.State.{tag_in};
ghost use Rattle.simplex_steps.specs.State.{column_in};
ghost use Rattle.simplex_steps.specs.Conflict.{Stands};
ghost use Rattle.sum_bounds.specs.Bounds.{told_of, told_bound, sums, sum_hashes, IsSum, IsConflict, Judges};
ghost use Rattle.sum_bounds.specs.Written.{IsKnown};
ghost use Rattle.sum_bounds.specs.Wholes.{IsWholeConflict};
ghost use Rattle.sum_bounds.specs.Splits.{KeepsSums, Extends, HasFirst, IsCopy, AddsOther, AddsOthers, IsResolvent, told_with, IsSplit};

use crate::finding::Finding;
use crate::fractions::term_of;
use crate::residues::broken_quotients;
use crate::state::SumBounds;
use crate::told::put;
use crate::writing::{SumVariable, first_is_negative};
use fraction128::{Bound, Side, Summand};
use literals::Literal;
use simplex::{PivotLines, Set, Simplex};
use std::alloc::{AllocError, Global};
use term_store::HashIndex;

/// The atom of the two sides, which no bound told has.
const SPARE: u32 = (1 << 31) - 1;

/// So many pivots at most a check makes.
const MOST_PIVOTS: u64 = 1000;

/// Whether a term has a variable, and its coefficient is a number of the range other than 0.
fn is_known(copy: &SumBounds, summand: Summand) -> bool
    ensures { result ≡ true → IsKnown copy.now.columns summand }
{
    summand.coefficient != 0 && summand.coefficient != i128::MIN && copy.has_leaf(summand.term)
}

/// Whether a sum may have a variable.
fn is_sum(copy: &SumBounds, sum: &[Summand]) -> bool
    ensures { result ≡ true → IsSum copy.now.columns sum.now }
{
    for summand in sum {
        if !is_known(copy, *summand) {
            return false;
        }
    }
    true
}

/// The variable of a sum of several terms, whose first coefficient is positive.
#[tactic(auto, using(crate::proofs::SplitLaws::extends_same))]
fn sum_variable(alloc: Global, copy: &mut SumBounds, sum: &[Summand]) -> Option<u32>
    requires { length copy.old.columns < 2 ^ 32 - 1 }
    ensures extends { Extends copy.old copy.new }
    ensures known { IfSome result (λ i. i < length copy.new.columns) }
    ensures sum { IfSome result (λ i. sums copy.new i ≡ sum.now) }
{
    if first_is_negative(sum) || !is_sum(copy, sum) {
        return None;
    }
    match copy.sum(alloc, sum) {
        Ok(of) => Some(of.variable),
        Err(_) => None,
    }
}

/// The variable of a term.
#[tactic(auto, using(crate::proofs::SplitLaws::extends_same))]
fn term_variable(alloc: Global, copy: &mut SumBounds, term: u32) -> Option<u32>
    requires { length copy.old.columns < 2 ^ 32 - 1 }
    ensures extends { Extends copy.old copy.new }
    ensures known { IfSome result (λ i. i < length copy.new.columns) }
    ensures sum { IfSome result (λ i. sums copy.new i ≡ leaf term) }
{
    match copy.leaf(alloc, term) {
        Ok(variable) => Some(variable),
        Err(_) => None,
    }
}

/// The variable of a term or of a sum. `None` where there is no room, a number leaves the range, or the first coefficient is negative.
#[tactic(auto, using(crate::proofs::SplitLaws::extends_same))]
fn variable_of(alloc: Global, copy: &mut SumBounds, sum: &[Summand]) -> Option<u32>
    ensures extends { Extends copy.old copy.new }
    ensures known { IfSome result (λ i. i < length copy.new.columns) }
    ensures sum { IfSome result (λ i. sums copy.new i ≡ sum.now) }
{
    if copy.count() == u32::MAX {
        return None;
    }
    match term_of(sum) {
        Some(term) => term_variable(alloc, copy, term),
        None => sum_variable(alloc, copy, sum),
    }
}

/// The same variables, without bounds.
fn copied_sums(alloc: Global, simplex: &Simplex, count: u32) -> Option<SumBounds>
    requires { count ≡ length simplex.now.columns }
    ensures { IfSome result (λ s. HasFirst simplex.now.columns count s) }
{
    let mut copy = SumBounds::new(alloc);
    for variable in 0..count {
        let made = variable_of(alloc, &mut copy, simplex.column(variable).sum.as_slice())?;
        if made != variable {
            return None;
        }
    }
    Some(copy)
}

/// The tag of the tightest bound on a bound's variable and side.
fn tag_of(alloc: Global, simplex: &Simplex, bound: Bound) -> Option<u32>
    requires { bound.variable < length simplex.now.columns }
    ensures { IfSome result (λ t. t ≡ tag_in simplex.now.bounds bound) }
{
    match simplex.tags(alloc, &[bound]) {
        Ok(tags) if tags.len() == 1 => Some(tags[0]),
        _ => None,
    }
}

/// Tells the copy a bound that stands. `None` where memory is wanting, or the number or the literal is one past those that bounds have.
fn tell(alloc: Global, copy: &mut SumBounds, simplex: &Simplex, bound: Bound) -> Option<()>
    requires stands { Stands simplex.now.columns bound }
    requires copy { IsCopy simplex.now.columns (map told_of simplex.now.bounds) copy.old }
    ensures { OnSome result (IsCopy simplex.now.columns (map told_of simplex.now.bounds) copy.new) }
{
    simplex.facts();
    let tag = tag_of(alloc, simplex, bound)?;
    if tag / 2 == SPARE || bound.number == i128::MIN {
        return None;
    }
    let set = Set {
        variable: bound.variable,
        side: bound.side,
        number: bound.number,
        tag,
    };
    match copy.set_bound(set) {
        Ok(()) => Some(()),
        Err(_) => None,
    }
}

/// Tells the copy the bound of a variable on a side, where it has one.
fn tell_side(
    alloc: Global,
    copy: &mut SumBounds,
    simplex: &Simplex,
    variable: u32,
    side: Side,
    number: Option<i128>,
) -> Option<()>
    requires stands { IfSome number (λ k. Stands simplex.now.columns (record { variable = variable; side = side; number = k })) }
    requires copy { IsCopy simplex.now.columns (map told_of simplex.now.bounds) copy.old }
    ensures { OnSome result (IsCopy simplex.now.columns (map told_of simplex.now.bounds) copy.new) }
{
    match number {
        Some(number) => tell(
            alloc,
            copy,
            simplex,
            Bound {
                variable,
                side,
                number,
            },
        ),
        None => Some(()),
    }
}

/// Tells the copy the bounds of a variable.
fn tell_both(alloc: Global, copy: &mut SumBounds, simplex: &Simplex, variable: u32) -> Option<()>
    requires known { variable < length simplex.now.columns }
    requires copy { IsCopy simplex.now.columns (map told_of simplex.now.bounds) copy.old }
    ensures { OnSome result (IsCopy simplex.now.columns (map told_of simplex.now.bounds) copy.new) }
{
    let column = simplex.column(variable);
    tell_side(alloc, copy, simplex, variable, Side::Lower, column.lower)?;
    tell_side(alloc, copy, simplex, variable, Side::Upper, column.upper)
}

/// The same variables with the bounds that stand, each with its literal.
fn copied(alloc: Global, simplex: &Simplex, count: u32) -> Option<SumBounds>
    requires { count ≡ length simplex.now.columns }
    ensures { IfSome result (IsCopy simplex.now.columns (map told_of simplex.now.bounds)) }
{
    let mut copy = copied_sums(alloc, simplex, count)?;
    for variable in 0..count {
        tell_both(alloc, &mut copy, simplex, variable)?;
    }
    Some(copy)
}

/// What a check finds.
fn checked(alloc: Global, copy: &mut SumBounds) -> Finding
    ensures keeps { KeepsSums copy.old copy.new }
    ensures told { copy.new.told ≡ copy.old.told }
    ensures judges { Judges copy.new result }
{
    let mut lines = PivotLines {
        keep: false,
        lines: Vec::new(alloc),
    };
    copy.check(alloc, &mut lines, MOST_PIVOTS).finding
}

/// The conflict, where one is found.
fn conflict(alloc: Global, copy: &mut SumBounds) -> Option<Vec<Literal>>
    ensures keeps { KeepsSums copy.old copy.new }
    ensures told { copy.new.told ≡ copy.old.told }
    ensures some { IfSome result (λ ls. IsConflict (sums copy.new) copy.new.told ls.items) }
{
    match checked(alloc, copy) {
        Finding::Conflict(clause) => Some(clause),
        _ => None,
    }
}

/// The conflict, where one is found; then only the first bounds are kept.
fn conflict_and_undo(alloc: Global, copy: &mut SumBounds, count: usize) -> Option<Vec<Literal>>
    ensures keeps { KeepsSums copy.old copy.new }
    ensures told { copy.new.told ≡ take count copy.old.told }
    ensures some { IfSome result (λ ls. IsConflict (sums copy.old) copy.old.told ls.items) }
{
    let found = conflict(alloc, copy);
    copy.undo_to(count);
    found
}

/// The conflict with one bound more, where one is found. The bound is taken back.
fn conflict_with(
    alloc: Global,
    copy: &mut SumBounds,
    literal: Literal,
    variable: u32,
    number: i128,
) -> Option<Vec<Literal>>
    requires atom { literal.atom < 2 ^ 31 }
    requires known { variable < length copy.old.columns }
    requires number { InRange number }
    ensures keeps { KeepsSums copy.old copy.new }
    ensures told { copy.new.told ≡ copy.old.told }
    ensures some { IfSome result (λ ls. IsConflict (sums copy.old) (told_with copy.old literal variable number) ls.items) }
{
    let count = copy.len();
    let of = SumVariable {
        variable,
        turned: false,
    };
    match copy.assert(literal, of, number) {
        Ok(()) => conflict_and_undo(alloc, copy, count),
        Err(_) => None,
    }
}

/// Adds a literal where it isn't there, unless it is of a side.
fn put_other(clause: &mut Vec<Literal>, literal: Literal) -> Result<(), AllocError>
    ensures { OnOk result (AddsOther clause.old.items literal clause.new.items) }
{
    if literal.atom() == SPARE {
        return Ok(());
    }
    put(clause, literal)
}

/// Adds the literals that aren't there, but for those of a side.
fn put_others(clause: &mut Vec<Literal>, literals: &[Literal]) -> Result<(), AllocError>
    ensures { OnOk result (AddsOthers clause.old.items literals.now clause.new.items) }
{
    for literal in literals {
        put_other(clause, *literal)?;
    }
    Ok(())
}

/// What the clauses of both sides say without them.
fn resolvent(
    alloc: Global,
    below: &[Literal],
    above: &[Literal],
) -> Result<Vec<Literal>, AllocError>
    ensures { IfOk result (λ ls. IsResolvent below.now above.now ls.items) }
{
    let mut clause = Vec::new(alloc);
    put_others(&mut clause, below)?;
    put_others(&mut clause, above)?;
    Ok(clause)
}

/// The clause of bounds that no numbers meet with the sum of a variable at most a number, nor with it at least the next one.
#[tactic(auto, using(crate::proofs::SplitLaws::keeps_both))]
fn split(alloc: Global, copy: &mut SumBounds, variable: u32, number: i128) -> Option<Vec<Literal>>
    requires known { variable < length copy.old.columns }
    requires number { InRange number }
    ensures keeps { KeepsSums copy.old copy.new }
    ensures told { copy.new.told ≡ copy.old.told }
    ensures some { IfSome result (λ ls. IsSplit copy.old ls.items) }
{
    let below = conflict_with(alloc, copy, Literal::new(SPARE, true), variable, number)?;
    let above = conflict_with(alloc, copy, Literal::new(SPARE, false), variable, number)?;
    match resolvent(alloc, &below, &above) {
        Ok(clause) => Some(clause),
        Err(_) => None,
    }
}

/// Such a clause for a sum, at its value where that isn't whole.
#[tactic(auto, using(crate::proofs::SplitLaws::extends_same))]
fn split_at(alloc: Global, copy: &mut SumBounds, sum: &[Summand]) -> Option<Vec<Literal>>
    ensures extends { Extends copy.old copy.new }
    ensures some { IfSome result (λ ls. IsSplit copy.new ls.items) }
{
    let variable = variable_of(alloc, copy, sum)?;
    let value = copy.value_at(variable);
    if value.is_whole() {
        return None;
    }
    split(alloc, copy, variable, value.floor())
}

/// The first such clause for one of the sums.
#[tactic(auto, using(crate::proofs::SplitLaws::extends_same))]
fn first_split(alloc: Global, copy: &mut SumBounds, sums: &[Vec<Summand>]) -> Option<Vec<Literal>>
    ensures extends { Extends copy.old copy.new }
    ensures some { IfSome result (λ ls. IsSplit copy.new ls.items) }
{
    for sum in sums {
        if let Some(clause) = split_at(alloc, copy, sum) {
            return Some(clause);
        }
    }
    None
}

/// Whether values were found that meet all bounds.
fn settles(alloc: Global, copy: &mut SumBounds) -> bool
    ensures keeps { KeepsSums copy.old copy.new }
    ensures told { copy.new.told ≡ copy.old.told }
{
    matches!(checked(alloc, copy), Finding::Fits)
}

/// The clause of bounds that a split shows to be met by no whole numbers. `None` promises nothing: also where numbers leave the range, or memory is wanting.
pub(crate) fn split_conflict(
    alloc: Global,
    simplex: &Simplex,
    keys: &HashIndex,
    count: u32,
) -> Option<Vec<Literal>>
    requires keys { keys.now ≡ sum_hashes simplex.now.columns }
    requires count { count ≡ length simplex.now.columns }
    ensures { IfSome result (λ ls. IsWholeConflict (λ i. (column_in simplex.now.columns i).sum) (map told_of simplex.now.bounds) ls.items) }
{
    let sums = broken_quotients(alloc, simplex, keys, count)?;
    if sums.is_empty() {
        return None;
    }
    let mut copy = copied(alloc, simplex, count)?;
    if !settles(alloc, &mut copy) {
        return None;
    }
    first_split(alloc, &mut copy, &sums)
}
