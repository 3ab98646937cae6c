//! Sharing what was learnt.
ghost use Rattle.std.specs.Prelude.{◌≡◌};
ghost use Rattle.smt_meaning.specs.Stack.{depth};
ghost use Rattle.search_port.specs.State.{IsGrown};
ghost use Rattle.cdcl_core.specs.Search.{IsAddable};
ghost use Rattle.race_cell.specs.Passes.{base_of, claim_of, IsSamePass};
ghost use Rattle.worker.specs.Racing.{base_of_stack, first_reading, Tries};

use crate::shown::write_clause;
use race_cell::{Pass, Race, Sharing};
use race_model::Shelf;
use scope_stack::Stack;
use search_port::{Lemma, Named, follows_as_written};
use smt_laws::flat_says_the_same;
use std::alloc::Global;

/// What became of a clause to be shared.
#[derive(Clone, Copy, Drop)]
pub(crate) enum Sent {
    /// It stands among the entries.
    Stands,
    /// There are as many entries as there may be.
    Full,
    /// It doesn't stand there yet.
    Waits,
}

/// Shares a learnt clause at the depth of the stack, in one try. Where memory is wanting, or nothing is asserted, it waits.
pub(crate) fn share_clause<S: Shelf, T: Named>(
    alloc: Global,
    stack: &Stack,
    race: &Race<S>,
    pass: &mut Pass<S>,
    theory: &T,
    clause: &Lemma,
) -> Sent
    requires race { pass.old.seat.table_id ≡ race.now.table.shared.table_id }
    requires base { (base_of S.state pass.old).base ≡ base_of_stack stack.now }
    requires heard { IsGrown (first_reading stack.now) (T.state theory.now).reading }
    requires addable { IsAddable (T.state theory.now).reading clause.now }
    ensures same { IsSamePass pass.old pass.new }
    ensures tries { Tries (T.state theory.now).reading.table (depth stack.now.frames) clause.now (claim_of pass.old) result (claim_of pass.new) }
{
    flat_says_the_same();
    follows_as_written();
    if stack.assertions().is_empty() {
        return Sent::Waits;
    }
    let Ok(clause) = write_clause(alloc, theory, stack.depth(), clause.literals.as_slice()) else {
        return Sent::Waits;
    };
    match race.share(pass, clause) {
        Sharing::Shared(_) => Sent::Stands,
        Sharing::Full(_) => Sent::Full,
        Sharing::Busy(_) | Sharing::Memory(_) => Sent::Waits,
    }
}
