//! A list for each class, and what changed them, for undo.
ghost use Rattle.std.specs.Prelude.{◌≡◌, ◌≢◌, ℕ, ◌+◌, ◌-◌, ◌<◌, ◌≤◌, [], ◌∷◌, ◌++◌, length, take, OnOk, OnErr, List};
ghost use Rattle.point_closure.specs.Lists.{list_of, items_at, changed, IsChangeOf};

use std::alloc::{AllocError, Global};
use std::marker::Model;

/// A change of the lists.
#[derive(Clone, Copy, Drop)]
pub(crate) enum Change {
    /// At the end of this class's list stands this item.
    Put(u32, u32),
    /// At the end of the first class's list stands the list of the second.
    Join(u32, u32),
}

/// A list of numbers for each class.
#[derive(Drop)]
pub(crate) struct Lists {
    lists: Vec<Vec<u32>>,
    changes: Vec<Change>,
}

impl Model for Lists {
    ghost use Rattle.point_closure.specs.Lists.{Listed, AreLists};
    ghost use Rattle.point_closure.specs.ListsCode.{listed_code};

    ghost Value = { Listed };

    ghost coded = { listed_code };

    ghost use Rattle.std.specs.Prelude.{length};

    ghost view = { λ s. record { count = length s.lists.items; changes = s.changes.items } };

    ghost invariant = { λ s. AreLists s.lists.items s.changes.items };
}

/// Adds the second list to the first. An `Err` may leave a part of it there.
fn append(lists: &mut Vec<Vec<u32>>, kept: u32, gone: u32) -> Result<(), AllocError>
    requires kept { kept < length lists.old.items }
    requires gone { gone < length lists.old.items }
    requires different { kept ≢ gone }
    ensures count { length lists.new.items ≡ length lists.old.items }
    ensures others { (r : ℕ) → r ≢ kept → items_at lists.new.items r ≡ items_at lists.old.items r }
    ensures ok { OnOk result (items_at lists.new.items kept ≡ items_at lists.old.items kept ++ items_at lists.old.items gone) }
    ensures err { OnErr result (items_at lists.new.items kept ≡ items_at lists.old.items kept) }
{
    let none = Vec::new(*lists.allocator());
    let more = std::mem::replace(&mut lists[gone as usize], none);
    let done = lists[kept as usize].extend_from_slice(&more);
    lists[gone as usize] = more;
    done
}

/// Does a change to the lists. An `Err` changes none.
fn apply(lists: &mut Vec<Vec<u32>>, change: Change) -> Result<(), AllocError>
    requires { IsChangeOf (length lists.old.items) change }
    ensures count { length lists.new.items ≡ length lists.old.items }
    ensures ok { OnOk result ((r : ℕ) → items_at lists.new.items r ≡ changed (items_at lists.old.items) change r) }
    ensures err { OnErr result ((r : ℕ) → items_at lists.new.items r ≡ items_at lists.old.items r) }
{
    match change {
        Change::Put(class, item) => {
            lists[class as usize].push(item)?;
            Ok(())
        }
        Change::Join(kept, gone) => append(lists, kept, gone),
    }
}

/// Takes a change of the lists back.
fn revert(lists: &mut Vec<Vec<u32>>, change: Change)
    requires { IsChangeOf (length lists.old.items) change }
    ensures count { length lists.new.items ≡ length lists.old.items }
    ensures reverted { (before : ℕ → List ℕ) → ((r : ℕ) → items_at lists.old.items r ≡ changed before change r) → (r : ℕ) → items_at lists.new.items r ≡ before r }
{
    match change {
        Change::Put(class, _) => {
            let _ = lists[class as usize].pop();
        }
        Change::Join(kept, gone) => {
            let more = lists[gone as usize].len();
            let list = &mut lists[kept as usize];
            let count = list.len();
            if more <= count {
                list.truncate(count - more);
            }
        }
    }
}

impl Lists {
    /// No list. It takes no memory.
    pub(crate) fn new(alloc: Global) -> Self
        ensures { result ≡ record { count = 0; changes = [] } }
    {
        Lists {
            lists: Vec::new(alloc),
            changes: Vec::new(alloc),
        }
    }

    /// The number of classes.
    pub(crate) fn len(&self) -> usize
        ensures { result ≡ self.now.count }
    {
        self.lists.len()
    }

    /// The number of changes.
    pub(crate) fn changes(&self) -> usize
        ensures { result ≡ length self.now.changes }
    {
        self.changes.len()
    }

    /// The list of a class.
    pub(crate) fn list(&self, class: u32) -> &[u32]
        requires { class < self.now.count }
        ensures { result.now ≡ list_of self.now.changes class }
    {
        &self.lists[class as usize]
    }

    /// Adds a class with an empty list. An `Err` changes nothing.
    pub(crate) fn add_class(&mut self) -> Result<(), AllocError>
        ensures ok { OnOk result (self.new ≡ record { count = self.old.count + 1; changes = self.old.changes }) }
        ensures err { OnErr result (self.new ≡ self.old) }
    {
        let alloc = *self.lists.allocator();
        self.lists.push(Vec::new(alloc))?;
        Ok(())
    }

    /// Changes a list. An `Err` changes nothing.
    pub(crate) fn change(&mut self, change: Change) -> Result<(), AllocError>
        requires { IsChangeOf self.old.count change }
        ensures ok { OnOk result (self.new ≡ record { count = self.old.count; changes = self.old.changes ++ change ∷ [] }) }
        ensures err { OnErr result (self.new ≡ self.old) }
    {
        let count = self.changes.len();
        self.changes.push(change)?;
        if apply(&mut self.lists, change).is_err() {
            self.changes.truncate(count);
            return Err(AllocError);
        }
        Ok(())
    }

    /// Takes all changes back but the first.
    pub(crate) fn undo_to(&mut self, count: usize)
        ensures { self.new ≡ record { count = self.old.count; changes = take count self.old.changes } }
    {
        'changes: while self.changes.len() > count {
            if let Some(change) = self.changes.pop() {
                revert(&mut self.lists, change);
            }
        }
    }
}
