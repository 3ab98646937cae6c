//! The watches of one literal.
ghost use Rattle.std.specs.Prelude.{◌≡◌, ℕ, ◌+◌, ◌<◌, ◌≤◌, ◌*◌, OnOk, List, [], ◌∷◌, ◌++◌, length, slice_index_or, slice_set, true, false, vec_len, vec_capacity};
ghost use Rattle.std.specs.List.{swap_remove};
ghost use Rattle.literals.specs.Signed.{Signed, packed};
ghost use Rattle.clause_store.specs.Room.{HasPlace};
ghost use Rattle.clause_store.specs.Choosing.{Enlists};
ghost use Rattle.clause_store.specs.Entries.{watches_of, room_of, bare, rooms};

use literals::Literal;
use std::alloc::{AllocError, Global};
use std::marker::Model;

// A clause, by its place, and one of its literals: where that is true the clause needs no look.
#[derive(Clone, Copy)]
pub struct Watch {
    pub blocker: Literal,
    pub row: u32,
}

#[derive(Drop)]
pub struct WatchList {
    items: Vec<Watch>,
    // how many clauses have the literal: room for a watch of each
    uses: usize,
}

impl Model for WatchList {
    ghost use Rattle.std.specs.Prelude.{◌≤◌, vec_capacity};
    ghost use Rattle.clause_store.specs.Entries.{Listing};

    ghost Value = { Listing };

    ghost view = { λ l. record { watches = l.items.items; room = l.uses } };

    ghost invariant = { λ l. l.uses ≤ vec_capacity l.items };
}

fn push_within(items: &mut Vec<Watch>, watch: Watch)
    requires { vec_len items.old < vec_capacity items.old }
    ensures items { items.new.items ≡ items.old.items ++ watch ∷ [] }
    ensures room { vec_capacity items.old ≤ vec_capacity items.new }
{
    let pushed = items.push(watch);
    prove!(pushed.is_ok());
}

impl WatchList {
    pub fn new(alloc: Global) -> WatchList
        ensures { result ≡ record { watches = []; room = 0 } }
    {
        WatchList {
            items: Vec::new(alloc),
            uses: 0,
        }
    }

    pub fn len(&self) -> usize
        ensures { result ≡ length self.now.watches }
    {
        self.items.len()
    }

    pub fn get(&self, k: usize) -> Watch
        requires { k < length self.now.watches }
        ensures { result ≡ slice_index_or self.now.watches k result }
    {
        self.items[k]
    }

    pub fn set(&mut self, k: usize, watch: Watch)
        requires { k < length self.old.watches }
        ensures { self.new ≡ record { watches = slice_set self.old.watches k watch; room = self.old.room } }
    {
        // one that stays isn't written
        let blocker = watch.blocker;
        let row = watch.row;
        if !self.is_at(k, blocker, row) {
            self.write(k, Watch { blocker, row });
        }
    }

    // Whether this watch stands there.
    fn is_at(&self, k: usize, blocker: Literal, row: u32) -> bool
        requires { k < length self.now.watches }
        ensures { result ≡ true → (let w : Watch = record { blocker = blocker; row = row } in w ≡ slice_index_or self.now.watches k w) }
    {
        let old = self.items[k];
        old.row == row && old.blocker == blocker
    }

    fn write(&mut self, k: usize, watch: Watch)
        requires { k < length self.old.watches }
        ensures { self.new ≡ record { watches = slice_set self.old.watches k watch; room = self.old.room } }
    {
        self.items[k] = watch;
    }

    // Takes one out; the last comes to its place.
    pub fn take_out(&mut self, k: usize) -> Watch
        requires { k < length self.old.watches }
        ensures rest { self.new ≡ record { watches = swap_remove self.old.watches k result; room = self.old.room } }
        ensures value { result ≡ slice_index_or self.old.watches k result }
    {
        self.items.swap_remove(k)
    }

    // Adds one, for which there is room.
    pub fn push(&mut self, watch: Watch)
        requires { length self.old.watches < self.old.room }
        ensures { self.new ≡ record { watches = self.old.watches ++ watch ∷ []; room = self.old.room } }
    {
        push_within(&mut self.items, watch);
    }

    // Makes room for a watch of one more clause.
    pub fn make_room(&mut self) -> bool
        ensures watches { self.new.watches ≡ self.old.watches }
        ensures grows { self.old.room ≤ self.new.room }
        ensures more { result ≡ true → self.old.room + 1 ≤ self.new.room }
    {
        if self.uses == usize::MAX {
            return false;
        }
        let uses = self.uses + 1;
        let rest = uses.saturating_sub(self.items.len());
        if self.items.reserve(rest).is_err() {
            return false;
        }
        self.uses = uses;
        true
    }
}

// Empty lists until there are two for each atom.
pub fn make_lists(alloc: Global, lists: &mut Vec<WatchList>, atoms: u32) -> Result<(), AllocError>
    ensures same { (l : Signed) → watches_of (bare lists.new.items) l ≡ watches_of (bare lists.old.items) l }
    ensures rooms { (l : Signed) → room_of (rooms lists.new.items) l ≡ room_of (rooms lists.old.items) l }
    ensures more { vec_len lists.old ≤ vec_len lists.new }
    ensures room { OnOk result (2 * atoms ≤ vec_len lists.new) }
{
    let wanted = 2 * atoms as usize;
    while lists.len() < wanted {
        lists.push(WatchList::new(alloc))?;
    }
    Ok(())
}

// Puts a watch into a literal's list, where there is room for it.
pub fn enlist(lists: &mut [WatchList], literal: Literal, watch: Watch)
    requires list { packed literal < length lists.old }
    requires room { HasPlace (bare lists.old) (rooms lists.old) literal }
    ensures lists { Enlists (bare lists.old) (bare lists.new) literal watch }
    ensures rooms { rooms lists.new ≡ rooms lists.old }
{
    let list = &mut lists[literal.code()];
    list.push(watch);
}
