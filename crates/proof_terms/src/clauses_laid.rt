//! Clauses as ascending lists of codes.
ghost use Rattle.std.specs.Prelude.{◌≡◌, ◌<◌, ◌++◌, ◌∷◌, [], length, OnOk, slice_index_or};
ghost use Rattle.proof_terms.specs.Kept.{AreAscending};
ghost use Rattle.proof_terms.specs.ClausesLaid.{AllAscend, IsSetOf, clauses_in};

use std::alloc::AllocError;
use term_store::Rows;

/// The clause of a number.
pub(crate) fn clause_at(rows: &Rows<()>, number: usize) -> &[u32]
    requires ascend { AllAscend rows.now }
    requires number { number < length rows.now }
    ensures clause { slice_index_or (clauses_in rows.now) number [] ≡ result.now }
    ensures ascending { AreAscending result.now }
{
    rows.numbers(number)
}

/// Adds a clause. An `Err` changes nothing.
pub(crate) fn append(rows: &mut Rows<()>, clause: &[u32]) -> Result<(), AllocError>
    requires ascend { AllAscend rows.old }
    requires ascending { AreAscending clause.now }
    ensures ascend { AllAscend rows.new }
    ensures ok { OnOk result (clauses_in rows.new ≡ clauses_in rows.old ++ clause.now ∷ []) }
{
    rows.push((), clause)
}

/// Leaves each code once, ascending.
pub(crate) fn order(codes: &mut Vec<u32>)
    ensures { IsSetOf codes.old.items codes.new.items }
{
    codes.sort_unstable();
    codes.dedup();
}
