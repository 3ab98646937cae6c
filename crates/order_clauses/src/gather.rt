//! Gathering the links of all bounds.
ghost use Rattle.std.specs.Prelude.{◌≡◌, ◌+◌, ◌<◌, List, [], length, IfOk, OnOk};
ghost use Rattle.smt_meaning.specs.declared.clauses.Atom.TheVariants.{AtMost as BoundAtom};
ghost use Rattle.smt_meaning.specs.Term.{Tree, Interpretation};
ghost use Rattle.smt_meaning.specs.Clause.{atom_true, sum_value};
ghost use Rattle.pair_bounds.specs.Turning.{turned, is_within};
ghost use Rattle.atom_form.specs.Sums.{IsAt as IsSumAt};
ghost use Rattle.order_clauses.specs.Axioms.{BoundFits, BoundsFit};
ghost use Rattle.order_clauses.specs.Gathered.{LimitFits, AreGathered, GoesOn, AddsLink};

use crate::links::{Link, link_of};
use atom_form::{AtomNumbers, NumberedAtom, SumTable};
use pair_bounds::{Limit, turn};
use smt_meaning::Summand;
use std::alloc::{AllocError, Global};

/// The number of a sum. More than 2^31 sums are refused as want of memory is.
fn number_sum(sums: &mut SumTable, sum: &[Summand]) -> Result<u32, AllocError>
    ensures at { IfOk result (λ g. IsSumAt sums.new g sum.now) }
    ensures on { OnOk result (GoesOn sums.old sums.new) }
{
    if sums.len() >= 1 << 31 {
        return Err(AllocError);
    }
    let (number, _) = sums.number(sum)?;
    Ok(number)
}

/// Turns a sum so that its first coefficient is positive.
fn turn_all(sum: &mut Vec<Summand>, threshold: i128) -> Limit
    requires { BoundFits sum.old.items threshold }
    ensures sum { sum.new.items ≡ turned sum.old.items }
    ensures fits { LimitFits result }
    ensures says { (ts : List Tree) (I : Interpretation) → is_within result (sum_value ts I sum.new.items) ≡ atom_true ts I (BoundAtom sum.old.items threshold) }
{
    turn(sum, threshold)
}

/// Adds the link of a bound, unless its sum is empty.
fn add_bound(
    sums: &mut SumTable,
    links: &mut Vec<Link>,
    spare: &mut Vec<Summand>,
    sum: &[Summand],
    threshold: i128,
    number: u32,
) -> Result<(), AllocError>
    requires { BoundFits sum.now threshold }
    ensures { OnOk result (AddsLink sums.old sums.new links.old.items links.new.items sum.now threshold number) }
{
    if sum.is_empty() {
        return Ok(());
    }
    spare.clear();
    spare.extend_from_slice(sum)?;
    let limit = turn_all(spare, threshold);
    let group = number_sum(sums, spare)?;
    links.push(link_of(group, limit, number))?;
    Ok(())
}

/// Adds the link of an atom, if it is a bound.
fn add_atom(
    sums: &mut SumTable,
    links: &mut Vec<Link>,
    spare: &mut Vec<Summand>,
    atoms: &AtomNumbers,
    number: u32,
) -> Result<(), AllocError>
    requires number { number < length atoms.now.atoms }
    requires fits { BoundsFit atoms.now.atoms }
    requires gathered { AreGathered atoms.now.atoms number sums.old links.old.items }
    ensures { OnOk result (AreGathered atoms.now.atoms (number + 1) sums.new links.new.items) }
{
    match atoms.atom(number) {
        NumberedAtom::Truth(_) => Ok(()),
        NumberedAtom::Same(_, _) => Ok(()),
        NumberedAtom::Bound(bound) => {
            let sum = atoms.sum(bound.sum);
            add_bound(sums, links, spare, sum, bound.threshold, number)
        }
    }
}

/// Gathers the links of all bounds, and numbers their sums.
pub(crate) fn gather(
    alloc: Global,
    sums: &mut SumTable,
    links: &mut Vec<Link>,
    atoms: &AtomNumbers,
) -> Result<(), AllocError>
    requires fits { BoundsFit atoms.now.atoms }
    requires no_sum { sums.old ≡ [] }
    requires no_link { links.old.items ≡ [] }
    ensures { OnOk result (AreGathered atoms.now.atoms (length atoms.now.atoms) sums.new links.new.items) }
{
    let mut spare = Vec::new(alloc);
    for number in 0..atoms.len() {
        add_atom(sums, links, &mut spare, atoms, number as u32)?;
    }
    Ok(())
}
