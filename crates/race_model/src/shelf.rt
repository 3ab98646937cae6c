//! What workers need of a pool of clauses that they share.
ghost use Rattle.std.specs.Prelude.{◌≡◌, ◌<◌, All, IfOk, OnOk, OnErr, drop, length};

use crate::event::Entry;
use smt_meaning::Clause;
use std::alloc::AllocError;

/// What became of a clause that was to be shared. It comes back where it doesn't stand in the pool.
#[derive(Drop)]
pub enum Told {
    /// It stands at this place.
    Shared(u64),
    /// There are as many entries as there may be.
    Full(Clause),
    /// There was no memory.
    Memory(Clause),
}

/// What has a stack of levels, and the list of trees by which clauses over them are read.
pub trait Framed {
    ghost use Rattle.race_model.specs.Base.{Base};

    ghost base: { Self → Base };
}

/// A pool of clauses that workers share. What it gives follows from the levels that it stands on.
pub trait Shelf {
    ghost use Rattle.race_model.specs.declared.event.Entry.{Entry};
    ghost use Rattle.race_model.specs.Laws.{IsSound};
    ghost use Rattle.race_model.specs.Shelves.{ShelfState, IsSame, Shares, Begins, Ends};

    ghost state: { Self → ShelfState };

    /// Adds a clause of a worker at the end of the entries.
    fn share(&mut self, worker: u8, clause: Clause) -> Told
        requires { IsSound (state self.old).base clause }
        ensures { Shares worker clause (state self.old) (state self.new) result };

    /// The entries from the mark on.
    fn batch(&self, mark: u64) -> Result<Vec<Entry>, AllocError>
        ensures items { IfOk result (λ v. v.items ≡ drop mark (state self.now).entries) }
        ensures sound { IfOk result (λ v. All (λ (e : Entry). IsSound (state self.now).base e.clause) v.items) };

    /// The number of entries.
    fn count(&self) -> u64
        ensures { result ≡ length (state self.now).entries };

    /// Makes room for one end of each worker, as a race begins. An `Err`, for want of memory, changes nothing.
    fn begin(&mut self, workers: u8) -> Result<(), AllocError>
        ensures ok { OnOk result (Begins workers (state self.old) (state self.new)) }
        ensures err { OnErr result (IsSame (state self.old) (state self.new)) };

    /// The worker has ended. This takes no memory.
    fn end(&mut self, worker: u8)
        requires { 0 < (state self.old).room }
        ensures { Ends worker (state self.old) (state self.new) };
}
