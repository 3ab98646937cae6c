//! Terms as points.
ghost use Rattle.std.specs.Prelude.{◌≡◌, ◌+◌, ◌<◌, ◌^◌, ◌++◌, map, All, OnOk};
ghost use Rattle.congruence.specs.Reading.{point_number, plain_shape as shape_of_plain, applied_shape as shape_of_applied, shape_for, arguments_for};

use point_closure::Shape;
use smt_meaning::{Head, Operator, TermId};
use std::alloc::AllocError;

fn plain_shape(head: Head) -> Shape
    ensures { result ≡ shape_of_plain head }
{
    match head {
        Head::Theory(Operator::True) => Shape::Truth(true),
        Head::Theory(Operator::False) => Shape::Truth(false),
        _ => Shape::Leaf,
    }
}

fn applied_shape(head: Head) -> Shape
    ensures { result ≡ shape_of_applied head }
{
    match head {
        Head::Symbol(symbol) => Shape::Application(symbol),
        _ => Shape::Leaf,
    }
}

/// What equality sees of a term with this head, with or without arguments.
pub(crate) fn shape_of(head: Head, applied: bool) -> Shape
    ensures { result ≡ shape_for head applied }
{
    if applied {
        applied_shape(head)
    } else {
        plain_shape(head)
    }
}

/// The points of these terms.
fn points_of(points: &mut Vec<u32>, terms: &[TermId]) -> Result<(), AllocError>
    requires { All (λ t. t + 2 < 2 ^ 32) terms.now }
    ensures { OnOk result (points.new.items ≡ points.old.items ++ map point_number terms.now) }
{
    for term in terms {
        points.push(*term + 2)?;
    }
    Ok(())
}

/// The points of a term's arguments, where equality sees them.
pub(crate) fn arguments_of(
    points: &mut Vec<u32>,
    shape: Shape,
    terms: &[TermId],
) -> Result<(), AllocError>
    requires { All (λ t. t + 2 < 2 ^ 32) terms.now }
    ensures { OnOk result (points.new.items ≡ arguments_for shape terms.now) }
{
    points.clear();
    match shape {
        Shape::Application(_) => points_of(points, terms),
        Shape::Truth(_) => Ok(()),
        Shape::Leaf => Ok(()),
    }
}
