//! Points of one signature are found and paired.
ghost use Rattle.std.specs.Prelude.{◌≡◌, ◌+◌, ◌<◌, ◌≤◌, ◌↔◌, [], ◌∷◌, ◌++◌, length, map, All, OnOk, OnErr, IfOk, IsTrue};
ghost use Rattle.point_closure.specs.Closure.{point_at, takes_part as shape_takes_part};
ghost use Rattle.point_closure.specs.Unions.{root_of};
ghost use Rattle.point_closure.specs.Signature.{signature, signature_hash as hash_of_signature, shape_state as state_of_shape};
ghost use Rattle.point_closure.specs.Sound.{KeepsPending};
ghost use Rattle.point_closure.specs.Rest.{Begins, AreTied, AreFiled, FilesWherePart, FiledGrows, Looks, Pairs, TakesPart};

use crate::pending::Pending;
use crate::table::Table;
use crate::{Classes, Graph, Reason, Shape};
use std::alloc::AllocError;
use term_store::mix;

/// Whether points of this shape are equal where their arguments are.
fn takes_part(shape: Shape) -> bool
    ensures { result ≡ shape_takes_part shape }
{
    match shape {
        Shape::Leaf => false,
        Shape::Truth(_) => true,
        Shape::Application(_) => true,
    }
}

fn shape_state(shape: Shape) -> u64
    ensures { result ≡ state_of_shape shape }
{
    match shape {
        Shape::Leaf => 1,
        Shape::Truth(true) => 2,
        Shape::Truth(false) => 3,
        Shape::Application(symbol) => mix(4, symbol as u64),
    }
}

/// A hash of a point's symbol and its arguments' classes.
fn signature_hash(graph: &Graph, classes: &Classes, point: u32) -> u32
    requires points { length graph.now ≡ classes.now.count }
    requires within { point < length graph.now }
    ensures { result ≡ hash_of_signature (signature graph.now classes.now.unions point) }
{
    let mut state = shape_state(graph.shape(point));
    let arguments = graph.arguments(point);
    for argument in arguments {
        state = mix(state, classes.class_of(*argument) as u64);
    }
    (state >> 32) as u32
}

/// Whether points are in the same classes, one by one.
fn in_same_classes(classes: &Classes, left: &[u32], right: &[u32]) -> bool
    requires left_within { All (λ i. i < classes.now.count) left.now }
    requires right_within { All (λ i. i < classes.now.count) right.now }
    ensures { IsTrue result ↔ (map (root_of classes.now.unions) left.now ≡ map (root_of classes.now.unions) right.now) }
{
    if left.len() != right.len() {
        return false;
    }
    for i in 0..left.len() {
        if classes.class_of(left[i]) != classes.class_of(right[i]) {
            return false;
        }
    }
    true
}

/// Whether two points have one symbol and arguments of the same classes.
fn are_congruent(graph: &Graph, classes: &Classes, left: u32, right: u32) -> bool
    requires points { length graph.now ≡ classes.now.count }
    requires left_within { left < length graph.now }
    requires right_within { right < length graph.now }
    ensures { IsTrue result ↔ (signature graph.now classes.now.unions left ≡ signature graph.now classes.now.unions right) }
{
    graph.shape(left) == graph.shape(right)
        && in_same_classes(classes, graph.arguments(left), graph.arguments(right))
}

/// Pairs two congruent points, unless they are in one class.
fn pair(
    graph: &Graph,
    classes: &Classes,
    pending: &mut Vec<Pending>,
    left: u32,
    right: u32,
) -> Result<(), AllocError>
    requires points { length graph.now ≡ classes.now.count }
    requires left_within { left < length graph.now }
    requires right_within { right < length graph.now }
    requires takes { IsTrue (shape_takes_part (point_at graph.now left).shape) }
    requires congruent { signature graph.now classes.now.unions left ≡ signature graph.now classes.now.unions right }
    ensures sound { KeepsPending graph.now classes.now.unions pending.old.items pending.new.items }
    ensures begins { Begins pending.old.items pending.new.items }
    ensures ok { OnOk result (AreTied classes.now.unions pending.new.items right left) }
{
    if classes.class_of(left) != classes.class_of(right) {
        pending.push(Pending {
            left,
            right,
            reason: Reason::Alike,
        })?;
    }
    Ok(())
}

/// Pairs a point with the one at this place if they are congruent, and says whether one was found so far.
fn look(
    graph: &Graph,
    classes: &Classes,
    table: &Table,
    pending: &mut Vec<Pending>,
    point: u32,
    place: usize,
    found: bool,
) -> Result<bool, AllocError>
    requires points { length graph.now ≡ classes.now.count }
    requires filed { All (TakesPart graph.now) table.now.points }
    requires within { point < length graph.now }
    requires takes { IsTrue (shape_takes_part (point_at graph.now point).shape) }
    requires place { place < length table.now.points }
    ensures sound { KeepsPending graph.now classes.now.unions pending.old.items pending.new.items }
    ensures begins { Begins pending.old.items pending.new.items }
    ensures ok { IfOk result (λ f. Looks graph.now classes.now.unions table.now pending.new.items point place found f) }
{
    let other = table.point(place);
    if !are_congruent(graph, classes, other, point) {
        return Ok(found);
    }
    pair(graph, classes, pending, point, other)?;
    Ok(true)
}

/// Pairs a point with all that are filed under its signature, and says whether there are some.
fn pair_found(
    graph: &Graph,
    classes: &Classes,
    table: &Table,
    pending: &mut Vec<Pending>,
    hash: u32,
    point: u32,
) -> Result<bool, AllocError>
    requires points { length graph.now ≡ classes.now.count }
    requires filed { All (TakesPart graph.now) table.now.points }
    requires within { point < length graph.now }
    requires takes { IsTrue (shape_takes_part (point_at graph.now point).shape) }
    ensures sound { KeepsPending graph.now classes.now.unions pending.old.items pending.new.items }
    ensures begins { Begins pending.old.items pending.new.items }
    ensures ok { IfOk result (λ found. Pairs graph.now classes.now.unions table.now pending.new.items hash point 0 found) }
{
    let mut found = false;
    let mut link = table.last(hash);
    while link > 0 {
        let place = (link - 1) as usize;
        found = look(graph, classes, table, pending, point, place, found)?;
        link = table.before(place);
    }
    Ok(found)
}

/// Files a point where none of its signature is there, and else pairs it with those.
pub(crate) fn file(
    graph: &Graph,
    classes: &Classes,
    table: &mut Table,
    pending: &mut Vec<Pending>,
    point: u32,
) -> Result<(), AllocError>
    requires points { length graph.now ≡ classes.now.count }
    requires filed { All (TakesPart graph.now) table.old.points }
    requires sizes { length table.old.hashes ≡ length table.old.points }
    requires within { point < length graph.now }
    ensures filed { All (TakesPart graph.now) table.new.points }
    ensures sound { KeepsPending graph.now classes.now.unions pending.old.items pending.new.items }
    ensures begins { Begins pending.old.items pending.new.items }
    ensures grows { FiledGrows table.old table.new }
    ensures ok { OnOk result (FilesWherePart graph.now classes.now.unions table.old table.new pending.new.items point) }
{
    if !takes_part(graph.shape(point)) {
        return Ok(());
    }
    let hash = signature_hash(graph, classes, point);
    if !pair_found(graph, classes, table, pending, hash, point)? {
        table.push(hash, point)?;
    }
    Ok(())
}

/// Files the points of a list anew.
pub(crate) fn refile(
    graph: &Graph,
    classes: &Classes,
    table: &mut Table,
    pending: &mut Vec<Pending>,
    owners: &[u32],
) -> Result<(), AllocError>
    requires points { length graph.now ≡ classes.now.count }
    requires owners { All (λ o. o < length graph.now) owners.now }
    requires filed { All (TakesPart graph.now) table.old.points }
    requires waits { AreFiled graph.now classes.now.unions table.old pending.old.items owners.now 0 }
    ensures filed { All (TakesPart graph.now) table.new.points }
    ensures sound { KeepsPending graph.now classes.now.unions pending.old.items pending.new.items }
    ensures begins { Begins pending.old.items pending.new.items }
    ensures grows { FiledGrows table.old table.new }
    ensures ok { OnOk result (AreFiled graph.now classes.now.unions table.new pending.new.items [] 0) }
{
    for owner in owners {
        file(graph, classes, table, pending, *owner)?;
    }
    Ok(())
}
