//! Why the clauses of a part can't be kept.
ghost use Rattle.std.specs.Prelude.{◌≢◌};
ghost use Rattle.order_clauses.specs.declared.error.PartError.TheVariants.{Missing};
ghost use Rattle.first_clauses.specs.CheckClausesFirst.{IsRefusalOf};

use check_atoms::Refusal;
use order_clauses::PartError;
use smt_meaning::TermId;

/// What it comes to that the clauses of the part at this place can't be put, where its atoms have numbers.
pub(crate) fn refusal_of(place: TermId, error: PartError) -> Refusal
    requires { error ≢ Missing }
    ensures { IsRefusalOf place error result }
{
    match error {
        PartError::Missing => unreachable!(),
        PartError::Term(part) => Refusal::Term(part),
        PartError::Pair(order) => Refusal::Pair(place, order),
        PartError::Limit => Refusal::Limit(place),
        PartError::Memory => Refusal::Memory,
    }
}
