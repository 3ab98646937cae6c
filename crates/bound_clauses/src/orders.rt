//! Which bounds compare the arguments of a comparison.
ghost use Rattle.std.specs.Prelude.{◌≡◌, ◌++◌, OnOk};
ghost use Rattle.bound_clauses.specs.Orders.{rising, falling, order_atoms};

use smt_meaning::{Operator, TermId};
use std::alloc::AllocError;

/// How a term stands to another.
#[derive(Clone, Copy, PartialEq, Eq)]
pub enum Sense {
    /// At most as great.
    NotAbove,
    /// Less.
    Below,
}

/// That the value of a term is at most that of another, or less.
#[derive(Clone, Copy, PartialEq, Eq)]
pub struct Order {
    pub sense: Sense,
    pub lesser: TermId,
    pub greater: TermId,
}

/// Adds the order of each place and the next.
fn add_rising(
    orders: &mut Vec<Order>,
    sense: Sense,
    first: TermId,
    others: &[TermId],
) -> Result<(), AllocError>
    ensures { OnOk result (orders.new.items ≡ orders.old.items ++ rising sense first others.now) }
{
    let mut before = first;
    for place in others {
        orders.push(Order {
            sense,
            lesser: before,
            greater: *place,
        })?;
        before = *place;
    }
    Ok(())
}

/// Adds the order of each place and the one before it.
fn add_falling(
    orders: &mut Vec<Order>,
    sense: Sense,
    first: TermId,
    others: &[TermId],
) -> Result<(), AllocError>
    ensures { OnOk result (orders.new.items ≡ orders.old.items ++ falling sense first others.now) }
{
    let mut before = first;
    for place in others {
        orders.push(Order {
            sense,
            lesser: *place,
            greater: before,
        })?;
        before = *place;
    }
    Ok(())
}

/// Adds the orders that `<=`, `<`, `>=` or `>` of the terms at these places says of each two neighbours, in the order of the places; of another operator none.
/// An `Err`, for want of memory, says nothing of the list.
pub fn add_orders(
    orders: &mut Vec<Order>,
    operator: Operator,
    places: &[TermId],
) -> Result<(), AllocError>
    ensures { OnOk result (orders.new.items ≡ orders.old.items ++ order_atoms operator places.now) }
{
    match places {
        [] => Ok(()),
        [first, others @ ..] => match operator {
            Operator::AtMost => add_rising(orders, Sense::NotAbove, *first, others),
            Operator::Less => add_rising(orders, Sense::Below, *first, others),
            Operator::AtLeast => add_falling(orders, Sense::NotAbove, *first, others),
            Operator::Greater => add_falling(orders, Sense::Below, *first, others),
            _ => Ok(()),
        },
    }
}
