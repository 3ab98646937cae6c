//! The truth of numbered atoms and of literals by the values of terms.
ghost use Rattle.std.specs.Prelude.{◌≡◌, ◌<◌, length, All, IfOk};
ghost use Rattle.smt_meaning.specs.Term.{truth_of, same_value};
ghost use Rattle.literals.specs.Signed.{sign, literal_true};
ghost use Rattle.search_port.specs.State.{atom_at};
ghost use Rattle.exact_model.specs.Atoms.{atom_true_by, truth_by, HasPlacesBelow};

use crate::log_value_sums::is_at_most;
use atom_form::{AtomNumbers, NumberedAtom};
use literals::Literal;
use smt_meaning::Value;
use std::alloc::AllocError;

fn truth_of(value: Value) -> bool
    ensures { result ≡ truth_of value }
{
    match value {
        Value::Truth(truth) => truth,
        _ => false,
    }
}

fn is_same(left: Value, right: Value) -> bool
    ensures { result ≡ same_value left right }
{
    match (left, right) {
        (Value::Truth(a), Value::Truth(b)) => a == b,
        (Value::Whole(a), Value::Whole(b)) => a == b,
        (Value::Element(a), Value::Element(b)) => a == b,
        _ => false,
    }
}

/// The truth of an atom by the values of terms.
fn atom_truth(
    values: &[Value],
    atoms: &AtomNumbers,
    number: u32,
    pairs: &mut Vec<(i128, i128)>,
) -> Result<bool, AllocError>
    requires number { number < length atoms.now.atoms }
    requires places { All (HasPlacesBelow (length values.now)) atoms.now.atoms }
    ensures { IfOk result (λ b. b ≡ atom_true_by values.now (atom_at atoms.now.atoms number)) }
{
    match atoms.atom(number) {
        NumberedAtom::Truth(place) => Ok(truth_of(values[place as usize])),
        NumberedAtom::Same(left, right) => Ok(is_same(
            values[left as usize],
            values[right as usize],
        )),
        NumberedAtom::Bound(bound) => {
            is_at_most(values, atoms.sum(bound.sum), bound.threshold, pairs)
        }
    }
}

fn signed(positive: bool, truth: bool) -> bool
    ensures { result ≡ sign positive truth }
{
    positive == truth
}

/// Whether a literal is true by the values of terms. The sum of a bound is exact, also where it is outside the range. The pairs are room to work in; what they
/// were is of no meaning. An `Err` is for want of memory.
pub fn makes_true(
    values: &[Value],
    atoms: &AtomNumbers,
    literal: Literal,
    pairs: &mut Vec<(i128, i128)>,
) -> Result<bool, AllocError>
    requires number { literal.atom < length atoms.now.atoms }
    requires places { All (HasPlacesBelow (length values.now)) atoms.now.atoms }
    ensures { IfOk result (λ b. b ≡ literal_true (truth_by values.now atoms.now.atoms) literal) }
{
    let truth = atom_truth(values, atoms, literal.atom(), pairs)?;
    Ok(signed(literal.is_positive(), truth))
}
