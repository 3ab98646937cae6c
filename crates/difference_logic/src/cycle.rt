//! Paths of differences that literals say.
ghost use Rattle.std.specs.Prelude.{◌<◌, List, length, Contains, IfSome};
ghost use Rattle.literals.specs.Signed.{Signed};
ghost use Rattle.difference_logic.specs.Differences.{Follows};

use crate::difference::{Difference, joined};
use crate::reading::difference_of;
use atom_form::AtomNumbers;
use literals::Literal;

fn literal_at(literals: &[Literal], place: usize) -> Literal
    requires { place < length literals.now }
    ensures { Contains literals.now result }
{
    literals[place]
}

/// The difference that one of these literals says.
fn first_of(atoms: &AtomNumbers, literals: &[Literal], place: usize) -> Option<Difference>
    requires { place < length literals.now }
    ensures { IfSome result (Follows atoms.now.atoms literals.now) }
{
    let literal = literal_at(literals, place);
    difference_of(atoms, literal)
}

/// The path goes on by what a literal says.
pub(crate) fn with_next(
    atoms: &AtomNumbers,
    path: Difference,
    literal: Literal,
) -> Option<Difference>
    ensures { IfSome result (λ d. (ls : List Signed) → Follows atoms.now.atoms ls path → Contains ls literal → Follows atoms.now.atoms ls d) }
{
    let next = difference_of(atoms, literal)?;
    joined(path, next)
}

/// The path goes on by what one of these literals says.
fn with_one(
    atoms: &AtomNumbers,
    literals: &[Literal],
    path: Difference,
    place: usize,
) -> Option<Difference>
    requires place { place < length literals.now }
    requires path { Follows atoms.now.atoms literals.now path }
    ensures { IfSome result (Follows atoms.now.atoms literals.now) }
{
    let literal = literal_at(literals, place);
    with_next(atoms, path, literal)
}

/// The difference that literals add up to, each of which begins where the one before it ends.
pub(crate) fn path_of(atoms: &AtomNumbers, literals: &[Literal]) -> Option<Difference>
    ensures { IfSome result (Follows atoms.now.atoms literals.now) }
{
    if literals.is_empty() {
        return None;
    }
    let mut path = first_of(atoms, literals, 0)?;
    for k in 1..literals.len() {
        path = with_one(atoms, literals, path, k)?;
    }
    Some(path)
}
