//! The sums that a proof writes.
ghost use Rattle.std.specs.Prelude.{◌≡◌, List, true, Some, IfOk};
ghost use Rattle.smt_meaning.specs.declared.clauses.Summand.{Summand as SummandValue};
ghost use Rattle.smt_meaning.specs.Command.{each};
ghost use Rattle.smt_meaning.specs.Linear.{sum_fits};
ghost use Rattle.look_ahead.specs.Ahead.{ahead, AreEnds};
ghost use Rattle.proof_read.specs.Reads.{leaves_near};
ghost use Rattle.proof_read.specs.ReadParts.{Reads, ReadsRest, every};
ghost use Rattle.proof_read.specs.ReadSums.{summand_in, summand_fits, summand_near, sum_in, Arranges, IsApart, are_rising, no_zero, terms_of};

use crate::read_apart::are_different;
use crate::read_parts::{Progress, Source};
use smt_meaning::{Seq, Sum, Summand};
use std::alloc::{AllocError, Global};

impl Source<'_> {
    /// `(coefficient leaf)`, with a coefficient that isn't 0.
    fn summand(&self, at: &mut Progress) -> Option<Summand>
        requires { AreEnds self.now.proof.now self.now.ends.now }
        ensures { Reads self.now.proof.now summand_in summand_fits summand_near at.old at.new result }
    {
        let close = self.enter(at)?;
        let coefficient = self.integer(at)?;
        if coefficient == 0 {
            return None;
        }
        let term = self.term(at)?;
        if !self.is_end(at.place) {
            return None;
        }
        at.place = close + 1;
        Some(Summand { coefficient, term })
    }

    /// The summands that are left of a list, as they are written.
    fn summands(&self, alloc: Global, at: &mut Progress) -> Result<Option<Seq<Summand>>, AllocError>
        requires { AreEnds self.now.proof.now self.now.ends.now }
        ensures { IfOk result (ReadsRest self.now.proof.now (each summand_in) (every summand_fits) (every summand_near) at.old at.new) }
    {
        let mut summands = Seq::new(alloc);
        while !self.is_end(at.place) {
            let Some(summand) = self.summand(at) else {
                return Ok(None);
            };
            summands.push(summand)?;
        }
        Ok(Some(summands))
    }

    /// The sum of the summands that are left of a list, where no leaf stands twice among them.
    pub(crate) fn sum(&self, alloc: Global, at: &mut Progress) -> Result<Option<Sum>, AllocError>
        requires { AreEnds self.now.proof.now self.now.ends.now }
        ensures { IfOk result (ReadsRest self.now.proof.now sum_in sum_fits leaves_near at.old at.new) }
    {
        let start = at.place;
        let mut own = Progress::new(start);
        let Some(summands) = self.summands(alloc, &mut own)? else {
            return Ok(None);
        };
        at.note(own);
        if own.fits & own.near {
            Ok(arranged(summands))
        } else {
            self.without_order(alloc, start, summands)
        }
    }

    /// The summands as they are, where no leaf stands twice among those that are written at a place, however large their numbers are.
    fn without_order(
        &self,
        alloc: Global,
        place: usize,
        summands: Sum,
    ) -> Result<Option<Sum>, AllocError>
        requires { AreEnds self.now.proof.now self.now.ends.now }
        ensures { (ps : List SummandValue) → each summand_in (ahead self.now.proof.now place) ≡ Some ps → IfOk result (IsApart ps) }
    {
        if are_different(alloc, self, place)? {
            Ok(Some(summands))
        } else {
            Ok(None)
        }
    }
}

/// The sum of these summands, none of whose coefficients is 0, where no leaf stands twice among them.
fn arranged(summands: Sum) -> Option<Sum>
    requires { no_zero summands ≡ true }
    ensures { Arranges summands result }
{
    let mut items = summands.into_vec();
    if is_rising(&items) {
        return Some(Seq::from_vec(items));
    }
    items.sort_unstable_by_key(|summand| summand.term);
    if is_rising(&items) {
        Some(Seq::from_vec(items))
    } else {
        None
    }
}

/// Whether each leaf is after the one before it.
fn is_rising(summands: &[Summand]) -> bool
    ensures { result ≡ are_rising (terms_of summands.now) }
{
    let Some((first, rest)) = summands.split_first() else {
        return true;
    };
    let mut last = first.term;
    for summand in rest {
        if last >= summand.term {
            return false;
        }
        last = summand.term;
    }
    true
}
