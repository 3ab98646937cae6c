//! The clauses that tie equalities of Ints to the bounds of their differences.
ghost use Rattle.std.specs.Prelude.{◌≡◌, ◌<◌, ◌^◌, [], ◌++◌, List, length, map, flat_map, All, Contains, OnOk, IfOk, IfErr};
ghost use Rattle.smt_meaning.specs.Term.{Tree};
ghost use Rattle.linear_forms.specs.Table.{AreForms};
ghost use Rattle.bound_clauses.specs.Orders.{order, bound_atom};
ghost use Rattle.bound_clauses.specs.declared.orders.Sense.TheVariants.{NotAbove};
ghost use Rattle.order_clauses.specs.declared.pairs.Pair.{Pair as PairValue};
ghost use Rattle.order_clauses.specs.Pairs.{orders_of_pair};
ghost use Rattle.order_clauses.specs.Clauses.{same_number, int_tie, tie};
ghost use Rattle.order_clauses.specs.Needed.{orders_tied, atoms_of_pair};
ghost use Rattle.order_clauses.specs.Errors.{IsCause};

use crate::bounds::put_bound;
use crate::error::PartError;
use crate::find::find_same;
use crate::pairs::Pair;
use atom_form::AtomNumbers;
use bound_clauses::{Order, Sense, put_equality};
use clause_form::Clauses;
use linear_forms::LinearForms;
use smt_meaning::{Summand, TermId};

fn not_above(lesser: TermId, greater: TermId) -> Order
    ensures { result ≡ order NotAbove lesser greater }
{
    Order {
        sense: Sense::NotAbove,
        lesser,
        greater,
    }
}

/// Adds the clauses that tie the equality of two Ints, given by its number, to both bounds of their difference.
fn put_int_tie(
    clauses: &mut Clauses,
    forms: &mut LinearForms,
    atoms: &AtomNumbers,
    sum: &mut Vec<Summand>,
    same: u32,
    pair: Pair,
) -> Result<(), PartError>
    ghost trees: { List Tree }
    requires forms { AreForms trees forms.old }
    requires left { pair.left < length trees }
    requires right { pair.right < length trees }
    requires number { same ≡ same_number atoms.now.atoms pair }
    requires small { same < 2 ^ 31 }
    ensures put { OnOk result (clauses.new ≡ clauses.old ++ int_tie trees atoms.now.atoms pair) }
    ensures has { OnOk result (All (Contains atoms.now.atoms) (map (bound_atom trees) (orders_of_pair pair))) }
    ensures cause { IfErr result (λ e. IsCause trees atoms.now.atoms (orders_of_pair pair) (map (bound_atom trees) (orders_of_pair pair)) e) }
    ensures same { forms.new ≡ forms.old }
{
    let below = put_bound(clauses, forms, atoms, sum, not_above(pair.left, pair.right))?;
    let above = put_bound(clauses, forms, atoms, sum, not_above(pair.right, pair.left))?;
    put_equality(clauses, same, below, above)?;
    Ok(())
}

/// The number of the equality of two terms. Where they are Ints, adds the clauses that tie it to both bounds of their difference.
pub(crate) fn put_tie(
    clauses: &mut Clauses,
    forms: &mut LinearForms,
    atoms: &AtomNumbers,
    sum: &mut Vec<Summand>,
    are_ints: bool,
    pair: Pair,
) -> Result<u32, PartError>
    ghost trees: { List Tree }
    requires forms { AreForms trees forms.old }
    requires left { pair.left < length trees }
    requires right { pair.right < length trees }
    ensures number { IfOk result (λ n. n ≡ same_number atoms.now.atoms pair) }
    ensures few { IfOk result (λ n. n < 2 ^ 31) }
    ensures has { OnOk result (All (Contains atoms.now.atoms) (atoms_of_pair trees are_ints pair)) }
    ensures put { OnOk result (clauses.new ≡ clauses.old ++ tie trees atoms.now.atoms are_ints pair) }
    ensures cause { IfErr result (λ e. IsCause trees atoms.now.atoms (orders_tied are_ints pair) (atoms_of_pair trees are_ints pair) e) }
    ensures same { forms.new ≡ forms.old }
{
    let same = find_same(atoms, pair)?;
    if !are_ints {
        return Ok(same);
    }
    put_int_tie(clauses, forms, atoms, sum, same, pair)?;
    Ok(same)
}

/// Adds the numbers of the equalities of these pairs and, where they are of Ints, the clauses that tie them to bounds.
pub(crate) fn put_ties(
    clauses: &mut Clauses,
    forms: &mut LinearForms,
    atoms: &AtomNumbers,
    sum: &mut Vec<Summand>,
    numbers: &mut Vec<u32>,
    are_ints: bool,
    pairs: &[Pair],
) -> Result<(), PartError>
    ghost trees: { List Tree }
    requires forms { AreForms trees forms.old }
    requires places { All (λ (q : PairValue). (q.left < length trees) × (q.right < length trees)) pairs.now }
    requires empty { numbers.old.items ≡ [] }
    ensures numbers { OnOk result (numbers.new.items ≡ map (same_number atoms.now.atoms) pairs.now) }
    ensures has { OnOk result (All (Contains atoms.now.atoms) (flat_map (atoms_of_pair trees are_ints) pairs.now)) }
    ensures put { OnOk result (clauses.new ≡ clauses.old ++ flat_map (tie trees atoms.now.atoms are_ints) pairs.now) }
    ensures cause { IfErr result (λ e. IsCause trees atoms.now.atoms (flat_map (orders_tied are_ints) pairs.now) (flat_map (atoms_of_pair trees are_ints) pairs.now) e) }
    ensures same { forms.new ≡ forms.old }
{
    for pair in pairs {
        let number = put_tie(clauses, forms, atoms, sum, are_ints, *pair)?;
        numbers.push(number)?;
    }
    Ok(())
}
