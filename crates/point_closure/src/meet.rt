//! Watched pairs whose points come into one class.
ghost use Rattle.std.specs.Prelude.{◌≡◌, ◌<◌, ◌≤◌, ◌⊎◌, ◌++◌, ◌∷◌, [], if◌then◌else◌, ◌↔◌, ℕ, length, All, OnOk, Contains, IsTrue};
ghost use Rattle.point_closure.specs.declared.watch.Watch.{Watch};
ghost use Rattle.point_closure.specs.Rest.{Begins, Meets, MeetsOne, IsAcross, IsWatching, PutsBelow, watch_at};

use crate::Classes;
use crate::lists::{Change, Lists};
use crate::watch::Watch;
use std::alloc::AllocError;

/// Whether one point of a watched pair is in the one class, the other in the other.
fn is_across(classes: &Classes, watch: Watch, kept: u32, gone: u32) -> bool
    requires left { watch.left < classes.now.count }
    requires right { watch.right < classes.now.count }
    ensures { IsTrue result ↔ IsAcross classes.now.unions kept gone watch }
{
    let left = classes.class_of(watch.left);
    let right = classes.class_of(watch.right);
    (left == gone && right == kept) || (left == kept && right == gone)
}

/// Adds a watched pair across two classes to those that were met.
fn meet_one(
    classes: &Classes,
    pairs: &[Watch],
    met: &mut Vec<u32>,
    pair: u32,
    kept: u32,
    gone: u32,
) -> Result<(), AllocError>
    requires ends { All (λ (w : Watch). (w.left < classes.now.count) × (w.right < classes.now.count)) pairs.now }
    requires pair { pair < length pairs.now }
    ensures begins { Begins met.old.items met.new.items }
    ensures ok { OnOk result (MeetsOne pairs.now classes.now.unions kept gone met.old.items met.new.items pair) }
{
    if is_across(classes, pairs[pair as usize], kept, gone) {
        met.push(pair)?;
    }
    Ok(())
}

/// Adds the watched pairs across two classes to those that were met. The slots are the list of one of the classes.
pub(crate) fn meet_pairs(
    classes: &Classes,
    pairs: &[Watch],
    slots: &[u32],
    met: &mut Vec<u32>,
    kept: u32,
    gone: u32,
) -> Result<(), AllocError>
    requires ends { All (λ (w : Watch). (w.left < classes.now.count) × (w.right < classes.now.count)) pairs.now }
    requires slots { All (λ k. k < length pairs.now) slots.now }
    ensures begins { Begins met.old.items met.new.items }
    ensures ok { OnOk result (Meets pairs.now classes.now.unions kept gone met.old.items met.new.items) }
    ensures all { OnOk result ((k : ℕ) → Contains slots.now k → IsAcross classes.now.unions kept gone (watch_at pairs.now k) → Contains met.new.items k) }
{
    for slot in slots {
        meet_one(classes, pairs, met, *slot, kept, gone)?;
    }
    Ok(())
}

/// Adds a number where the points are in one class.
fn meet_if(met: &mut Vec<u32>, same: bool, pair: u32) -> Result<(), AllocError>
    ensures begins { Begins met.old.items met.new.items }
    ensures ok { OnOk result (met.new.items ≡ (if same then met.old.items ++ pair ∷ [] else met.old.items)) }
{
    if same {
        met.push(pair)?;
    }
    Ok(())
}

/// Watches a pair: it comes into the lists of its points' classes.
pub(crate) fn watch_pair(
    classes: &Classes,
    watches: &mut Lists,
    pairs: &mut Vec<Watch>,
    met: &mut Vec<u32>,
    watch: Watch,
) -> Result<(), AllocError>
    requires left { watch.left < classes.now.count }
    requires right { watch.right < classes.now.count }
    requires count { classes.now.count ≤ watches.old.count }
    ensures count { watches.new.count ≡ watches.old.count }
    ensures lists { Begins watches.old.changes watches.new.changes }
    ensures pairs { (pairs.new.items ≡ pairs.old.items) ⊎ (pairs.new.items ≡ pairs.old.items ++ watch ∷ []) }
    ensures met { Begins met.old.items met.new.items }
    ensures below { All (PutsBelow (length pairs.old.items)) watches.old.changes → All (PutsBelow (length pairs.new.items)) watches.new.changes }
    ensures ok { OnOk result (IsWatching classes.now.unions watch pairs.old.items pairs.new.items watches.old.changes watches.new.changes met.old.items met.new.items) }
{
    let pair = pairs.len();
    if pair >= u32::MAX as usize {
        return Err(AllocError);
    }
    let number = pair as u32;
    let left = classes.class_of(watch.left);
    let right = classes.class_of(watch.right);
    pairs.push(watch)?;
    meet_if(met, left == right, number)?;
    watches.change(Change::Put(left, number))?;
    watches.change(Change::Put(right, number))?;
    Ok(())
}
