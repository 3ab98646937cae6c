//! The atoms and the literals that a proof writes.
ghost use Rattle.std.specs.Prelude.{◌≡◌, IfOk};
ghost use Rattle.smt_meaning.specs.Command.{each};
ghost use Rattle.proof_meaning.specs.Reading.{truth_read, same_read, at_most_read, atom_read, literal_read};
ghost use Rattle.look_ahead.specs.Ahead.{AreEnds};
ghost use Rattle.proof_read.specs.Written.{atom_fits, literals_fit};
ghost use Rattle.proof_read.specs.Reads.{atom_near, literals_near};
ghost use Rattle.proof_read.specs.ReadParts.{Reads, ReadsRest};
ghost use Rattle.proof_read.specs.ReadNames.{atom_form};
ghost use Rattle.proof_read.specs.ReadAtoms.{atom_after, literal_after, negation_in, literal_fits, literal_near};

use crate::read_names::{AtomName, atom_name};
use crate::read_parts::{Progress, Source};
use smt_meaning::{Atom, Literal, Seq};
use std::alloc::{AllocError, Global};

impl Source<'_> {
    /// The truth value of a term, from behind its name.
    fn truth(&self, at: &mut Progress) -> Option<Atom>
        requires { AreEnds self.now.proof.now self.now.ends.now }
        ensures { ReadsRest self.now.proof.now truth_read atom_fits atom_near at.old at.new result }
    {
        let term = self.term(at)?;
        self.alone(at, Atom::Truth(term))
    }

    /// The equality of two terms, from behind its name.
    fn same(&self, at: &mut Progress) -> Option<Atom>
        requires { AreEnds self.now.proof.now self.now.ends.now }
        ensures { ReadsRest self.now.proof.now same_read atom_fits atom_near at.old at.new result }
    {
        let left = self.term(at)?;
        let right = self.term(at)?;
        self.alone(at, Atom::Same(left, right))
    }

    /// A bound, from behind its name.
    fn at_most(&self, alloc: Global, at: &mut Progress) -> Result<Option<Atom>, AllocError>
        requires { AreEnds self.now.proof.now self.now.ends.now }
        ensures { IfOk result (ReadsRest self.now.proof.now at_most_read atom_fits atom_near at.old at.new) }
    {
        let Some(close) = self.enter(at) else {
            return Ok(None);
        };
        let Some(sum) = self.sum(alloc, at)? else {
            return Ok(None);
        };
        at.place = close + 1;
        let Some(limit) = self.integer(at) else {
            return Ok(None);
        };
        if !self.is_end(at.place) {
            return Ok(None);
        }
        Ok(Some(Atom::AtMost(sum, limit)))
    }

    /// An atom of a kind, from behind its name.
    fn atom_rest(
        &self,
        alloc: Global,
        name: AtomName,
        at: &mut Progress,
    ) -> Result<Option<Atom>, AllocError>
        requires { AreEnds self.now.proof.now self.now.ends.now }
        ensures { IfOk result (ReadsRest self.now.proof.now (atom_form name) atom_fits atom_near at.old at.new) }
    {
        match name {
            AtomName::Truth => Ok(self.truth(at)),
            AtomName::Same => Ok(self.same(at)),
            AtomName::AtMost => self.at_most(alloc, at),
        }
    }

    /// An atom, from behind its name.
    fn atom_after(
        &self,
        alloc: Global,
        name: &[u8],
        at: &mut Progress,
    ) -> Result<Option<Atom>, AllocError>
        requires { AreEnds self.now.proof.now self.now.ends.now }
        ensures { IfOk result (ReadsRest self.now.proof.now (atom_after name.now) atom_fits atom_near at.old at.new) }
    {
        match atom_name(name) {
            Some(kind) => self.atom_rest(alloc, kind, at),
            None => Ok(None),
        }
    }

    /// An atom.
    fn atom(&self, alloc: Global, at: &mut Progress) -> Result<Option<Atom>, AllocError>
        requires { AreEnds self.now.proof.now self.now.ends.now }
        ensures { IfOk result (Reads self.now.proof.now atom_read atom_fits atom_near at.old at.new) }
    {
        let Some((close, name)) = self.enter_named(at) else {
            return Ok(None);
        };
        let Some(atom) = self.atom_after(alloc, name, at)? else {
            return Ok(None);
        };
        at.place = close + 1;
        Ok(Some(atom))
    }

    /// The literal of a list, from behind the name that the list begins with.
    fn literal_after(
        &self,
        alloc: Global,
        name: &[u8],
        at: &mut Progress,
    ) -> Result<Option<Literal>, AllocError>
        requires { AreEnds self.now.proof.now self.now.ends.now }
        ensures { IfOk result (ReadsRest self.now.proof.now (literal_after name.now) literal_fits literal_near at.old at.new) }
    {
        if name == b"not".as_slice() {
            self.negation(alloc, at)
        } else {
            let Some(atom) = self.atom_after(alloc, name, at)? else {
                return Ok(None);
            };
            Ok(Some(Literal {
                atom,
                positive: true,
            }))
        }
    }

    /// The negation of an atom, from behind `not`.
    fn negation(&self, alloc: Global, at: &mut Progress) -> Result<Option<Literal>, AllocError>
        requires { AreEnds self.now.proof.now self.now.ends.now }
        ensures { IfOk result (ReadsRest self.now.proof.now negation_in literal_fits literal_near at.old at.new) }
    {
        let Some(atom) = self.atom(alloc, at)? else {
            return Ok(None);
        };
        if self.is_end(at.place) {
            Ok(Some(Literal {
                atom,
                positive: false,
            }))
        } else {
            Ok(None)
        }
    }

    /// A literal.
    pub(crate) fn literal(
        &self,
        alloc: Global,
        at: &mut Progress,
    ) -> Result<Option<Literal>, AllocError>
        requires { AreEnds self.now.proof.now self.now.ends.now }
        ensures { IfOk result (Reads self.now.proof.now literal_read literal_fits literal_near at.old at.new) }
    {
        let Some((close, name)) = self.enter_named(at) else {
            return Ok(None);
        };
        let Some(literal) = self.literal_after(alloc, name, at)? else {
            return Ok(None);
        };
        at.place = close + 1;
        Ok(Some(literal))
    }

    /// The literals that are left of a list.
    pub(crate) fn literals(
        &self,
        alloc: Global,
        at: &mut Progress,
    ) -> Result<Option<Seq<Literal>>, AllocError>
        requires { AreEnds self.now.proof.now self.now.ends.now }
        ensures { IfOk result (ReadsRest self.now.proof.now (each literal_read) literals_fit literals_near at.old at.new) }
    {
        let mut literals = Seq::new(alloc);
        while !self.is_end(at.place) {
            let Some(literal) = self.literal(alloc, at)? else {
                return Ok(None);
            };
            literals.push(literal)?;
        }
        Ok(Some(literals))
    }
}
