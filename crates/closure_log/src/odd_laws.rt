//! What no interpretation gives a `xor`, as the contract of a function that does nothing.
ghost use Rattle.closure_log.specs.OddLaws.{OddClauseIsTrue};

/// Truths of a `xor` and of its arguments of which an odd count is true are none that an interpretation gives: a clause against each of them is true.
pub fn odd_clause_is_true()
    ensures { OddClauseIsTrue }
{
    smt_laws::value_has_its_sort();
}
