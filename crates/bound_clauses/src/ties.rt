//! The clauses of comparisons and equalities, put at the end of a list.
ghost use Rattle.std.specs.Prelude.{◌≡◌, ◌<◌, ◌^◌, [], ◌∷◌, ◌++◌, All, OnOk};
ghost use Rattle.bound_clauses.specs.Ties.{order_clauses, equal_clauses, constant_clauses};

use clause_form::Clauses;
use equality_clauses::{Lists, put_comparison};
use literals::Literal;
use smt_meaning::Operator;
use std::alloc::AllocError;

pub(crate) fn put(clauses: &mut Clauses, clause: &[Literal]) -> Result<(), AllocError>
    ensures { OnOk result (clauses.new ≡ clauses.old ++ clause.now ∷ []) }
{
    clauses.push(clause)
}

/// Adds the clauses of a comparison `<=`, `<`, `>=` or `>` over the number of its atom and those of its neighbours' bounds, which may stand there in any order
/// and more than once: it is true exactly where each of them is. An `Err`, for want of memory, says nothing of the clauses.
pub fn put_order(
    clauses: &mut Clauses,
    lists: &mut Lists,
    number: u32,
    bounds: &[u32],
) -> Result<(), AllocError>
    requires number { number < 2 ^ 31 }
    requires bounds { All (λ n. n < 2 ^ 31) bounds.now }
    ensures { OnOk result (clauses.new ≡ clauses.old ++ order_clauses number bounds.now) }
{
    put_comparison(clauses, lists, Operator::Equal, number, bounds)
}

/// Adds the clauses of the equality of two Ints over its number and those of the bounds that the first is at most the second, and the second at most the first,
/// which may be one: it is true exactly where both are. An `Err`, for want of memory, says nothing of the clauses.
pub fn put_equality(
    clauses: &mut Clauses,
    same: u32,
    below: u32,
    above: u32,
) -> Result<(), AllocError>
    requires same { same < 2 ^ 31 }
    requires below { below < 2 ^ 31 }
    requires above { above < 2 ^ 31 }
    ensures { OnOk result (clauses.new ≡ clauses.old ++ equal_clauses same below above) }
{
    let same = Literal::new(same, true);
    let not_above = Literal::new(below, true);
    let not_below = Literal::new(above, true);
    if below == above {
        put(clauses, &[same, not_above.negated()])?;
        return put(clauses, &[same.negated(), not_above]);
    }
    put(clauses, &[same, not_above.negated(), not_below.negated()])?;
    put(clauses, &[same.negated(), not_above])?;
    put(clauses, &[same.negated(), not_below])
}

/// Adds that a bound of the empty sum has this truth value. An `Err`, for want of memory, says nothing of the clauses.
pub fn put_constant(clauses: &mut Clauses, number: u32, holds: bool) -> Result<(), AllocError>
    requires { number < 2 ^ 31 }
    ensures { OnOk result (clauses.new ≡ clauses.old ++ constant_clauses number holds) }
{
    put(clauses, &[Literal::new(number, holds)])
}
