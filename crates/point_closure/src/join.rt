//! Classes are joined with their lists, and all is taken back to a mark.
ghost use Rattle.std.specs.Prelude.{◌≡◌, ◌≢◌, ◌+◌, ◌-◌, ◌<◌, ◌≤◌, ℕ, [], ◌∷◌, ◌++◌, length, take, All, OnOk, OnErr, Contains};
ghost use Rattle.point_closure.specs.Unions.{IsUnion};
ghost use Rattle.point_closure.specs.declared.watch.Watch.{Watch};
ghost use Rattle.point_closure.specs.declared.lists.Change.TheVariants.{Join};
ghost use Rattle.point_closure.specs.Lists.{list_of};
ghost use Rattle.point_closure.specs.Rest.{Begins, Meets, IsAcross, PutsBelow, watch_at};

use crate::lists::{Change, Lists};
use crate::meet::meet_pairs;
use crate::pending::Mark;
use crate::table::Table;
use crate::watch::Watch;
use crate::{Classes, Union};
use std::alloc::AllocError;

/// Joins two classes and their lists. An `Err` changes nothing.
fn join_lists(
    classes: &mut Classes,
    uses: &mut Lists,
    watches: &mut Lists,
    union: Union,
) -> Result<(), AllocError>
    requires union { IsUnion classes.old.count classes.old.unions union }
    requires uses { classes.old.count ≤ uses.old.count }
    requires watches { classes.old.count ≤ watches.old.count }
    ensures classes { OnOk result (classes.new ≡ record { count = classes.old.count; unions = classes.old.unions ++ union ∷ [] }) }
    ensures uses { OnOk result (uses.new ≡ record { count = uses.old.count; changes = uses.old.changes ++ Join union.kept union.gone ∷ [] }) }
    ensures watches { OnOk result (watches.new ≡ record { count = watches.old.count; changes = watches.old.changes ++ Join union.kept union.gone ∷ [] }) }
    ensures err { OnErr result ((classes.new ≡ classes.old) × (uses.new ≡ uses.old) × (watches.new ≡ watches.old)) }
{
    let used = uses.changes();
    let watched = watches.changes();
    let change = Change::Join(union.kept, union.gone);
    uses.change(change)?;
    if watches.change(change).is_err() {
        uses.undo_to(used);
        return Err(AllocError);
    }
    if classes.join(union).is_err() {
        uses.undo_to(used);
        watches.undo_to(watched);
        return Err(AllocError);
    }
    Ok(())
}

/// Adds the weight of the one class to the other's.
fn add_weight(weights: &mut Vec<u32>, kept: u32, gone: u32)
    requires kept { kept < length weights.old.items }
    requires gone { gone < length weights.old.items }
    ensures { length weights.new.items ≡ length weights.old.items }
{
    let more = weights[gone as usize];
    weights[kept as usize] = weights[kept as usize].wrapping_add(more);
}

/// Joins two classes and their lists, and meets the watched pairs across them.
pub(crate) fn join_all(
    classes: &mut Classes,
    uses: &mut Lists,
    watches: &mut Lists,
    weights: &mut Vec<u32>,
    pairs: &[Watch],
    met: &mut Vec<u32>,
    union: Union,
) -> Result<(), AllocError>
    requires union { IsUnion classes.old.count classes.old.unions union }
    requires uses { classes.old.count ≤ uses.old.count }
    requires watches { classes.old.count ≤ watches.old.count }
    requires weights { classes.old.count ≤ length weights.old.items }
    requires ends { All (λ (w : Watch). (w.left < classes.old.count) × (w.right < classes.old.count)) pairs.now }
    requires slots { All (PutsBelow (length pairs.now)) watches.old.changes }
    ensures weights { length weights.new.items ≡ length weights.old.items }
    ensures met { Begins met.old.items met.new.items }
    ensures meets { OnOk result (Meets pairs.now classes.old.unions union.kept union.gone met.old.items met.new.items) }
    ensures all { OnOk result ((k : ℕ) → Contains (list_of watches.old.changes union.gone) k → IsAcross classes.old.unions union.kept union.gone (watch_at pairs.now k) → Contains met.new.items k) }
    ensures classes { OnOk result (classes.new ≡ record { count = classes.old.count; unions = classes.old.unions ++ union ∷ [] }) }
    ensures uses { OnOk result (uses.new ≡ record { count = uses.old.count; changes = uses.old.changes ++ Join union.kept union.gone ∷ [] }) }
    ensures watches { OnOk result (watches.new ≡ record { count = watches.old.count; changes = watches.old.changes ++ Join union.kept union.gone ∷ [] }) }
    ensures err { OnErr result ((classes.new ≡ classes.old) × (uses.new ≡ uses.old) × (watches.new ≡ watches.old)) }
{
    meet_pairs(
        classes,
        pairs,
        watches.list(union.gone),
        met,
        union.kept,
        union.gone,
    )?;
    join_lists(classes, uses, watches, union)?;
    add_weight(weights, union.kept, union.gone);
    Ok(())
}

/// Takes the last union back.
fn part_last(classes: &mut Classes, weights: &mut Vec<u32>)
    requires weights { classes.old.count ≤ length weights.old.items }
    requires some { 0 < length classes.old.unions }
    ensures weights { length weights.new.items ≡ length weights.old.items }
    ensures count { classes.new.count ≡ classes.old.count }
    ensures unions { classes.new.unions ≡ take (length classes.old.unions - 1) classes.old.unions }
{
    let union = classes.union_at(classes.unions() - 1);
    let less = weights[union.gone as usize];
    weights[union.kept as usize] = weights[union.kept as usize].wrapping_sub(less);
    let _ = classes.part();
}

/// Takes the unions from this number on back.
fn part_to(classes: &mut Classes, weights: &mut Vec<u32>, unions: usize)
    requires weights { classes.old.count ≤ length weights.old.items }
    ensures weights { length weights.new.items ≡ length weights.old.items }
    ensures count { classes.new.count ≡ classes.old.count }
    ensures unions { classes.new.unions ≡ take unions classes.old.unions }
{
    'unions: while classes.unions() > unions {
        part_last(classes, weights);
    }
}

/// Takes all back to a mark.
pub(crate) fn take_back(
    classes: &mut Classes,
    weights: &mut Vec<u32>,
    uses: &mut Lists,
    watches: &mut Lists,
    table: &mut Table,
    pairs: &mut Vec<Watch>,
    met: &mut Vec<u32>,
    mark: Mark,
)
    requires weights { classes.old.count ≤ length weights.old.items }
    ensures weights { length weights.new.items ≡ length weights.old.items }
    ensures classes { classes.new ≡ record { count = classes.old.count; unions = take mark.unions classes.old.unions } }
    ensures uses { uses.new ≡ record { count = uses.old.count; changes = take mark.uses uses.old.changes } }
    ensures watches { watches.new ≡ record { count = watches.old.count; changes = take mark.watches watches.old.changes } }
    ensures table { table.new ≡ record { hashes = take mark.filed table.old.hashes; points = take mark.filed table.old.points } }
    ensures pairs { pairs.new.items ≡ take mark.pairs pairs.old.items }
    ensures met { met.new.items ≡ take mark.met met.old.items }
{
    part_to(classes, weights, mark.unions);
    uses.undo_to(mark.uses);
    watches.undo_to(mark.watches);
    table.shorten(mark.filed);
    pairs.truncate(mark.pairs);
    met.truncate(mark.met);
}
