//! The reasons of steps.
ghost use Rattle.std.specs.Prelude.{◌≡◌, ◌<◌, ◌++◌, map, length, All, OnOk};
ghost use Rattle.congruence.specs.Reasons.{reason_at, negation_at, AreEachOnce};

use literals::Literal;
use std::alloc::AllocError;

/// Puts the reasons of these steps in the place of others.
pub(crate) fn put_reasons(
    found: &mut Vec<Literal>,
    reasons: &[Literal],
    steps: &[u32],
) -> Result<(), AllocError>
    requires { All (λ s. s < length reasons.now) steps.now }
    ensures { OnOk result (found.new.items ≡ map (reason_at reasons.now) steps.now) }
{
    found.clear();
    for step in steps {
        found.push(reasons[*step as usize])?;
    }
    Ok(())
}

/// Adds the negations of the reasons of these steps.
pub(crate) fn add_negations(
    clause: &mut Vec<Literal>,
    reasons: &[Literal],
    steps: &[u32],
) -> Result<(), AllocError>
    requires { All (λ s. s < length reasons.now) steps.now }
    ensures { OnOk result (clause.new.items ≡ clause.old.items ++ map (negation_at reasons.now) steps.now) }
{
    for step in steps {
        clause.push(reasons[*step as usize].negated())?;
    }
    Ok(())
}

/// Keeps each of the literals once, in the order of their codes.
pub(crate) fn keep_each_once(literals: &mut Vec<Literal>)
    ensures { AreEachOnce literals.old.items literals.new.items }
{
    literals.sort_unstable_by_key(|literal| literal.code());
    literals.dedup();
}

/// The same literals, each once, by their codes.
pub fn each_once(mut literals: Vec<Literal>) -> Vec<Literal>
    ensures { AreEachOnce literals.items result.items }
{
    keep_each_once(&mut literals);
    literals
}
