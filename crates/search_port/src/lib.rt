//! What the search asks of a theory (Nieuwenhuis, Oliveras and Tinelli, JACM 2006), the budget of
//! units that it lends.
//!
//! `Theory`: conflicts are false under what was asserted; conflicts and lemmas are true
//! under every interpretation, at the least level of their symbols; a model makes each asserted
//! literal true; what is taken back.
//!
//! The units that a call of a theory spends are each atom newly numbered, once and in order, an
//! equality only if both its sides are Ints, and, where lines are kept, pivots by Bland's rule in
//! rows over numbered atoms.
//!
//! `Named`: the atom of each number, written out, and the number of each atom that has one.
//!
//! `Shown`: what a theory shows at the end of a search: its branches, over which its atoms are
//! atoms of the check, no two the same, and where a number left the range, if that ended it.
//!
//! `push_told`, `start_of`: the literals that a theory was told, each with a count of what was there
//! before it.
//!
//! `Budget`: how many units there are, of which kind, and how many may be spent. A unit and a
//! clause to be shared are put down together or not at all.
//!
//! `follows_as_written`, `forces_by_numbers`, `forces_in_turn`: a clause over numbers follows
//! exactly where the clause with its atoms written out does. What clauses force, they force with
//! numbers in place of atoms, and so is forced what they force in turn.
#![tactic(auto)]

ghost use Rattle.search_port.specs.Valid.{FollowsAsWritten};
ghost use Rattle.search_port.specs.Forcing.{ForcesByNumbers, ForcesInTurn};

mod budget;
mod shown;
mod theory;
mod told;

pub use budget::{Budget, Cause, Lemma, Spent};
pub use shown::{Named, Showing, Shown};
pub use theory::{Asserted, Checked, Inferred, Theory};
pub use told::{push_told, start_of};

/// A clause over numbers follows exactly where the clause with its atoms written out does.
pub fn follows_as_written()
    ensures { FollowsAsWritten }
{}

/// What clauses force, they force with numbers in place of atoms.
pub fn forces_by_numbers()
    ensures { ForcesByNumbers }
{}

/// What clauses force that are forced in turn is forced.
pub fn forces_in_turn()
    ensures { ForcesInTurn }
{}
