//! What a theory shows of a search that ended without an answer.
use crate::theory::Theory;
use fraction128::Line;
use smt_meaning::{Atom, RangeSeen, Seq};
use std::alloc::{AllocError, Global};

/// What a theory shows at the end of a search.
#[derive(Drop)]
pub struct Showing {
    /// The rows at which it branched, oldest first.
    pub branches: Seq<Line>,
    /// Where a number left the range, if that ended the search.
    pub seen: Option<RangeSeen>,
}

/// A theory whose atoms can be written out, and found by what they say.
pub trait Named: Theory {
    ghost use Rattle.std.specs.Prelude.{◌≡◌, ◌<◌, length, Contains, IfOk, IfSome, IfNone};
    ghost use Rattle.search_port.specs.State.{atom_at};

    /// The atom of a number, written out. An `Err` is for want of memory.
    fn atom(&self, alloc: Global, number: u32) -> Result<Atom, AllocError>
        requires { number < length (Self.state self.now).reading.table }
        ensures { IfOk result (λ a. a ≡ atom_at (Self.state self.now).reading.table number) };

    /// The number of an atom, if it has one.
    fn number(&self, atom: &Atom) -> Option<u32>
        ensures some { IfSome result (λ n. (n < length (Self.state self.now).reading.table) × (atom_at (Self.state self.now).reading.table n ≡ atom.now)) }
        ensures none { IfNone result (Contains (Self.state self.now).reading.table atom.now → ⊥) };
}

/// A theory that shows how its atoms came, and where a number left the range.
pub trait Shown: Named {
    ghost use Rattle.search_port.specs.Showing.{IsShowing};

    /// Its branches, over which its atoms are atoms of the check, no two the same; and where a number left the range.
    fn show(self) -> Showing
        ensures { IsShowing (Self.state self) result };
}
