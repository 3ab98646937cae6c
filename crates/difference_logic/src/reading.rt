//! The differences that literals say.
ghost use Rattle.std.specs.Prelude.{◌≡◌, ◌<◌, length, IfSome, [], ◌∷◌};
ghost use Rattle.difference_logic.specs.Differences.{SaysOf, Follows};

use crate::difference::{Difference, of_one, of_two};
use atom_form::{AtomNumbers, NumberedAtom, SumBound};
use literals::Literal;
use smt_meaning::Summand;

/// What the bound of a sum says, or that it doesn't hold.
pub(crate) fn of_sum(sum: &[Summand], bound: SumBound, positive: bool) -> Option<Difference>
    ensures { IfSome result (SaysOf sum.now bound.threshold positive) }
{
    match sum {
        [one] => of_one(*one, bound, positive),
        [one, other] => of_two(*one, *other, bound, positive),
        _ => None,
    }
}

/// The difference that a literal on a numbered atom says.
fn of_numbered(atoms: &AtomNumbers, literal: Literal) -> Option<Difference>
    requires { literal.atom < length atoms.now.atoms }
    ensures { IfSome result (Follows atoms.now.atoms (literal ∷ [])) }
{
    match atoms.atom(literal.atom()) {
        NumberedAtom::Truth(_) | NumberedAtom::Same(_, _) => None,
        NumberedAtom::Bound(bound) => of_sum(atoms.sum(bound.sum), bound, literal.is_positive()),
    }
}

/// The difference that a literal says. None of a literal that says none, or has no numbered atom.
pub fn difference_of(atoms: &AtomNumbers, literal: Literal) -> Option<Difference>
    ensures { IfSome result (Follows atoms.now.atoms (literal ∷ [])) }
{
    if literal.atom() as usize >= atoms.len() {
        return None;
    }
    of_numbered(atoms, literal)
}
