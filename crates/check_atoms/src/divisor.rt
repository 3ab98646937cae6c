//! The divisor of a part.
ghost use Rattle.std.specs.Prelude.{◌≡◌, ◌<◌, ℕ, length, All, List, IfOk, IfErr};
ghost use Rattle.smt_meaning.specs.Term.{Tree};
ghost use Rattle.linear_forms.specs.Table.{AreForms};
ghost use Rattle.linear_forms.specs.Differences.{KnowsForms};
ghost use Rattle.pair_bounds.specs.Rows.{divides, RefusesDivisor};
ghost use Rattle.check_atoms.specs.Divisors.{IsDivisorOf};
ghost use Rattle.check_atoms.specs.Numbering.{RefusesDivision};

use crate::refusal::Refusal;
use linear_forms::{DifferenceError, LinearForms};
use pair_bounds::divisor;
use smt_meaning::{Head, Operator, TermId};

/// Whether a term with this operator divides by its second argument.
fn divides(operator: Operator) -> bool
    ensures { result ≡ divides operator }
{
    match operator {
        Operator::Divide | Operator::Modulo | Operator::Divisible => true,
        _ => false,
    }
}

/// The number by which the rows of a term divide. An `Err` says at which part folding the divisor leaves the range (`Term`), or that its number isn't in the range (`Pair`).
pub(crate) fn divisor_of(
    forms: &LinearForms,
    head: Head,
    arguments: &[TermId],
) -> Result<i128, DifferenceError>
    requires places { All (λ i. i < length forms.now) arguments.now }
    requires known { KnowsForms forms.now }
    ensures ok { (trees : List Tree) → AreForms trees forms.now → IfOk result (λ n. IsDivisorOf trees head arguments.now n) }
    ensures err { (trees : List Tree) → AreForms trees forms.now → IfErr result (λ e. RefusesDivisor trees arguments.now e) }
{
    match head {
        Head::Theory(operator) if divides(operator) => divisor(forms, arguments),
        _ => Ok(0),
    }
}

/// Why the atoms of the part at this place aren't numbered, where its divisor is refused.
pub(crate) fn refusal_of_divisor(error: DifferenceError, part: TermId) -> Refusal
    ensures { (trees : List Tree) → (arguments : List ℕ) → RefusesDivisor trees arguments error → RefusesDivision trees part arguments result }
{
    match error {
        DifferenceError::Term(place) => Refusal::Term(place),
        DifferenceError::Pair => Refusal::Limit(part),
        DifferenceError::Memory => Refusal::Memory,
    }
}
