//! A point is added with its class.
ghost use Rattle.std.specs.Prelude.{◌≡◌, ◌+◌, ◌-◌, ◌<◌, ◌≤◌, ◌^◌, ℕ, [], ◌∷◌, ◌++◌, length, All, OnOk, OnErr};
ghost use Rattle.point_closure.specs.Rest.{Begins, PutsBelow, Puts};

use crate::lists::{Change, Lists};
use crate::{Classes, Graph, Shape};
use std::alloc::AllocError;

/// Has a list for this class.
fn reach(lists: &mut Lists, class: usize) -> Result<(), AllocError>
    requires { class ≤ lists.old.count }
    ensures changes { lists.new.changes ≡ lists.old.changes }
    ensures kept { lists.old.count ≤ lists.new.count }
    ensures ok { OnOk result (class < lists.new.count) }
{
    if lists.len() <= class {
        lists.add_class()?;
    }
    Ok(())
}

/// Has a weight for this class.
fn reach_weight(weights: &mut Vec<u32>, class: usize) -> Result<(), AllocError>
    requires { class ≤ length weights.old.items }
    ensures kept { length weights.old.items ≤ length weights.new.items }
    ensures ok { OnOk result (class < length weights.new.items) }
{
    if weights.len() <= class {
        weights.push(1)?;
    }
    Ok(())
}

/// Puts a point into the lists of its arguments' classes.
fn put_uses(
    classes: &Classes,
    uses: &mut Lists,
    point: u32,
    arguments: &[u32],
) -> Result<(), AllocError>
    requires count { classes.now.count ≤ uses.old.count }
    requires within { All (λ i. i < classes.now.count) arguments.now }
    ensures count { uses.new.count ≡ uses.old.count }
    ensures begins { Begins uses.old.changes uses.new.changes }
    ensures below { (n : ℕ) → point < n → All (PutsBelow n) uses.old.changes → All (PutsBelow n) uses.new.changes }
    ensures ok { OnOk result (Puts classes.now.unions arguments.now point (length arguments.now) uses.old.changes uses.new.changes) }
{
    for argument in arguments {
        uses.change(Change::Put(classes.class_of(*argument), point))?;
    }
    Ok(())
}

/// Adds a point to both. An `Err` changes nothing.
fn add_both(
    graph: &mut Graph,
    classes: &mut Classes,
    shape: Shape,
    arguments: &[u32],
) -> Result<(), AllocError>
    requires points { length graph.old ≡ classes.old.count }
    requires earlier { All (λ i. i < length graph.old) arguments.now }
    requires few { length graph.old < 2 ^ 32 - 1 }
    ensures ok { OnOk result ((graph.new ≡ graph.old ++ record { shape = shape; arguments = arguments.now } ∷ []) × (classes.new ≡ record { count = classes.old.count + 1; unions = classes.old.unions })) }
    ensures err { OnErr result ((graph.new ≡ graph.old) × (classes.new ≡ classes.old)) }
{
    let count = graph.len();
    graph.add(shape, arguments)?;
    if classes.add().is_err() {
        graph.shorten(count);
        return Err(AllocError);
    }
    Ok(())
}

/// Adds a point, with a weight and lists for its class. An `Err` changes nothing.
pub(crate) fn add_point(
    graph: &mut Graph,
    classes: &mut Classes,
    weights: &mut Vec<u32>,
    uses: &mut Lists,
    watches: &mut Lists,
    shape: Shape,
    arguments: &[u32],
) -> Result<(), AllocError>
    requires points { length graph.old ≡ classes.old.count }
    requires earlier { All (λ i. i < length graph.old) arguments.now }
    requires few { length graph.old < 2 ^ 32 - 1 }
    requires weights { length graph.old ≤ length weights.old.items }
    requires uses { length graph.old ≤ uses.old.count }
    requires watches { length graph.old ≤ watches.old.count }
    ensures weights { length graph.new ≤ length weights.new.items }
    ensures use_count { length graph.new ≤ uses.new.count }
    ensures watch_count { length graph.new ≤ watches.new.count }
    ensures watches { watches.new.changes ≡ watches.old.changes }
    ensures below { OnOk result ((n : ℕ) → length graph.old < n → All (PutsBelow n) uses.old.changes → All (PutsBelow n) uses.new.changes) }
    ensures begins { OnOk result (Begins uses.old.changes uses.new.changes) }
    ensures puts { OnOk result (Puts classes.old.unions arguments.now (length graph.old) (length arguments.now) uses.old.changes uses.new.changes) }
    ensures ok { OnOk result ((graph.new ≡ graph.old ++ record { shape = shape; arguments = arguments.now } ∷ []) × (classes.new ≡ record { count = classes.old.count + 1; unions = classes.old.unions })) }
    ensures err { OnErr result ((graph.new ≡ graph.old) × (classes.new ≡ classes.old) × (uses.new.changes ≡ uses.old.changes)) }
{
    let count = graph.len();
    reach_weight(weights, count)?;
    reach(uses, count)?;
    reach(watches, count)?;
    let used = uses.changes();
    if put_uses(classes, uses, count as u32, arguments).is_err()
        || add_both(graph, classes, shape, arguments).is_err()
    {
        uses.undo_to(used);
        return Err(AllocError);
    }
    Ok(())
}
