//! What atoms say of sums, and literals told as bounds.
ghost use Rattle.std.specs.Prelude.{◌≡◌, ◌<◌, ◌≤◌, ◌^◌, ◌++◌, length, OnOk, OnErr, IfErr};
ghost use Rattle.tableau.specs.Failing.{IsRange};
ghost use Rattle.simplex.specs.State.{KeepsValues};
ghost use Rattle.bound_log.specs.Told.{said_at, told_by, IsKnown, IsPast};

use literals::Literal;
use sum_bounds::{SumBounds, SumVariable};
use tableau::Failure;

/// What an atom says of sums.
#[derive(Clone, Copy, Drop)]
pub enum Said {
    /// Nothing.
    Nothing,
    /// The sum of a variable is at most the threshold.
    Bound { of: SumVariable, threshold: i128 },
}

/// What the atom with a number says.
pub(crate) fn said_of(said: &[Said], number: u32) -> Said
    requires { number < length said.now }
    ensures { result ≡ said_at said.now number }
{
    said[number as usize]
}

/// Tells the bound that a literal says, where it says one. An `Err` changes nothing.
pub(crate) fn assert(bounds: &mut SumBounds, said: Said, literal: Literal) -> Result<(), Failure>
    requires atom { literal.atom < 2 ^ 31 }
    requires known { IsKnown (length bounds.old.columns) said }
    ensures table { bounds.new.table ≡ bounds.old.table }
    ensures values { KeepsValues bounds.old.columns bounds.new.columns }
    ensures told { OnOk result (bounds.new.told ≡ bounds.old.told ++ told_by said literal) }
    ensures range { IfErr result (λ e. IsRange e → IsPast said literal e) }
    ensures err { OnErr result (bounds.new ≡ bounds.old) }
{
    match said {
        Said::Nothing => Ok(()),
        Said::Bound { of, threshold } => bounds.assert(literal, of, threshold),
    }
}
