//! Clauses and units with their atoms written out.
ghost use Rattle.std.specs.Prelude.{◌≡◌, ◌<◌, length, map, All, IfOk};
ghost use Rattle.literals.specs.Signed.{Signed};
ghost use Rattle.worker.specs.Shown.{clause_of, unit_of, IsOfNumbers};

use literals::Literal as Packed;
use search_port::{Named, Spent};
use smt_meaning::{Clause, Literal, Seq, Unit};
use std::alloc::{AllocError, Global};

/// A clause over numbers, with its atoms written out.
pub(crate) fn write_clause<T: Named>(
    alloc: Global,
    theory: &T,
    level: u16,
    literals: &[Packed],
) -> Result<Clause, AllocError>
    requires { All (λ (l : Signed). l.atom < length (T.state theory.now).reading.table) literals.now }
    ensures { IfOk result (λ c. c ≡ clause_of (T.state theory.now).reading.table level literals.now) }
{
    let mut written = Seq::new(alloc);
    for literal in literals {
        written.push(Literal {
            atom: theory.atom(alloc, literal.atom())?,
            positive: literal.is_positive(),
        })?;
    }
    Ok(Clause {
        literals: written,
        level,
    })
}

/// A unit with its atoms written out.
fn write_unit<T: Named>(
    alloc: Global,
    theory: &T,
    level: u16,
    unit: Spent,
) -> Result<Unit, AllocError>
    requires { IsOfNumbers (length (T.state theory.now).reading.table) unit }
    ensures { IfOk result (λ u. u ≡ unit_of (T.state theory.now).reading.table level unit) }
{
    match unit {
        Spent::Learnt(clause) => Ok(Unit::Learnt(write_clause(
            alloc,
            theory,
            level,
            clause.literals.as_slice(),
        )?)),
        Spent::Numbered(number) => Ok(Unit::Numbered(theory.atom(alloc, number)?)),
        Spent::Pivot(line) => Ok(Unit::Pivot(line)),
    }
}

/// The units with their atoms written out, in order.
pub(crate) fn write_units<T: Named>(
    alloc: Global,
    theory: &T,
    level: u16,
    units: Vec<Spent>,
) -> Result<Seq<Unit>, AllocError>
    requires { All (IsOfNumbers (length (T.state theory.now).reading.table)) units.items }
    ensures { IfOk result (λ us. us ≡ map (unit_of (T.state theory.now).reading.table level) units.items) }
{
    let mut written = Seq::new(alloc);
    for unit in units {
        written.push(write_unit(alloc, theory, level, unit)?)?;
    }
    Ok(written)
}
