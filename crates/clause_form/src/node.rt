//! The clauses of one node.
ghost use Rattle.std.specs.Prelude.{◌≡◌, ◌<◌, ◌^◌, ◌++◌, All, OnOk};
ghost use Rattle.clause_form.specs.NodeClauses.{node_clauses};
ghost use Rattle.clause_form.specs.WideClauses.{wide_clauses};
ghost use Rattle.clause_form.specs.Node.{literals_of_node};
ghost use Rattle.clause_form.specs.Plain.{sign_lists};

use crate::gates::{
    Room, put_all_of, put_chosen, put_equal, put_never, put_odd_of_three, put_one_of_two,
};
use crate::inputs::{add_all, add_premises};
use crate::list::Clauses;
use literals::Literal;
use smt_meaning::Operator;
use std::alloc::AllocError;

/// Adds the clauses of a connective, of an `ite`, and of `xor`, `=` and `distinct` of two.
fn put_narrow(
    clauses: &mut Clauses,
    room: &mut Room,
    operator: Operator,
    number: u32,
    arguments: &[u32],
) -> Result<(), AllocError>
    requires number { number < 2 ^ 31 }
    requires arguments { All (λ n. n < 2 ^ 31) arguments.now }
    ensures { OnOk result (sign_lists clauses.new ≡ sign_lists clauses.old ++ node_clauses operator number arguments.now) }
{
    room.inputs.clear();
    let count = arguments.len();
    match operator {
        Operator::True => put_all_of(clauses, room, Literal::new(number, true)),
        Operator::False => put_all_of(clauses, room, Literal::new(number, false)),
        Operator::Not if count == 1 => {
            add_all(&mut room.inputs, arguments, false)?;
            put_all_of(clauses, room, Literal::new(number, true))
        }
        Operator::And if count > 0 => {
            add_all(&mut room.inputs, arguments, true)?;
            put_all_of(clauses, room, Literal::new(number, true))
        }
        Operator::Or if count > 0 => {
            add_all(&mut room.inputs, arguments, false)?;
            put_all_of(clauses, room, Literal::new(number, false))
        }
        Operator::Implies if count > 1 => {
            add_premises(&mut room.inputs, arguments)?;
            put_all_of(clauses, room, Literal::new(number, false))
        }
        Operator::Ite if count == 3 => put_chosen(
            clauses,
            &mut room.spare,
            number,
            arguments[0],
            arguments[1],
            arguments[2],
        ),
        Operator::Xor | Operator::Distinct if count == 2 => put_one_of_two(
            clauses,
            Literal::new(number, true),
            arguments[0],
            arguments[1],
        ),
        Operator::Equal if count == 2 => put_one_of_two(
            clauses,
            Literal::new(number, false),
            arguments[0],
            arguments[1],
        ),
        _ => Ok(()),
    }
}

/// Adds the clauses of `=` and `distinct` of more than two, and of `xor` of three.
fn put_wide(
    clauses: &mut Clauses,
    room: &mut Room,
    operator: Operator,
    number: u32,
    arguments: &[u32],
) -> Result<(), AllocError>
    requires number { number < 2 ^ 31 }
    requires arguments { All (λ n. n < 2 ^ 31) arguments.now }
    ensures { OnOk result (sign_lists clauses.new ≡ sign_lists clauses.old ++ wide_clauses operator number arguments.now) }
{
    room.inputs.clear();
    let count = arguments.len();
    match operator {
        Operator::Equal if count > 2 => {
            add_all(&mut room.inputs, arguments, true)?;
            put_equal(clauses, room, Literal::new(number, true))
        }
        Operator::Distinct if count > 2 => put_never(clauses, Literal::new(number, true)),
        Operator::Xor if count == 3 => put_odd_of_three(
            clauses,
            &mut room.spare,
            number,
            arguments[0],
            arguments[1],
            arguments[2],
        ),
        _ => Ok(()),
    }
}

/// Adds the clauses of a node with this operator, by the numbers of its atom and of its arguments' atoms. `=`, `distinct` and `ite` are read on Bools.
/// An `Err`, for want of memory, says nothing of the clauses.
pub fn put_node(
    clauses: &mut Clauses,
    room: &mut Room,
    operator: Operator,
    number: u32,
    arguments: &[u32],
) -> Result<(), AllocError>
    requires number { number < 2 ^ 31 }
    requires arguments { All (λ n. n < 2 ^ 31) arguments.now }
    ensures { OnOk result (clauses.new ≡ clauses.old ++ literals_of_node operator number arguments.now) }
{
    put_narrow(clauses, room, operator, number, arguments)?;
    put_wide(clauses, room, operator, number, arguments)
}
