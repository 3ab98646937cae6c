//! What stands at a place among the tokens of a proof, and how far reading has come.
ghost use Rattle.std.specs.Prelude.{◌≡◌, ◌&&◌, true};
ghost use Rattle.look_ahead.specs.Ahead.{ahead, AreEnds, Skips};
ghost use Rattle.proof_read.specs.ReadParts.{IsPart, Enters, EntersNamed, HasWord, HasDigits, HasName, is_end, alone};

use smt_meaning::{SExpr, TokenView};

/// The tokens of a proof, and for each `(` of them the place of its `)`.
#[derive(Clone, Copy, Drop)]
pub(crate) struct Source<'a> {
    pub(crate) proof: &'a SExpr,
    pub(crate) ends: &'a [usize],
}

/// How far reading has come, and what was met on the way.
#[derive(Clone, Copy, Drop)]
pub(crate) struct Progress {
    /// The place of the next token.
    pub(crate) place: usize,
    /// Whether each coefficient, limit, multiplier and divisor so far is in the range.
    pub(crate) fits: bool,
    /// Whether each term and each step named so far has a number that one may have.
    pub(crate) near: bool,
}

impl Progress {
    /// Reading begins at a place.
    pub(crate) fn new(place: usize) -> Self
        ensures { result ≡ record { place = place; fits = true; near = true } }
    {
        Progress {
            place,
            fits: true,
            near: true,
        }
    }

    /// Notes what was met elsewhere too.
    pub(crate) fn note(&mut self, other: Progress)
        ensures { self.new ≡ record { place = self.old.place; fits = self.old.fits && other.fits; near = self.old.near && other.near } }
    {
        self.fits = self.fits & other.fits;
        self.near = self.near & other.near;
    }
}

/// The first of what is left of a list.
#[derive(Clone, Copy, Drop)]
pub(crate) enum Part<'a> {
    /// Nothing is left.
    End,
    /// A token that is no parenthesis.
    Word(TokenView<'a>),
    /// A list, up to its `)`.
    List(usize),
}

impl<'a> Source<'a> {
    /// What stands at a place.
    pub(crate) fn part_at(&self, place: usize) -> Part<'a>
        requires { AreEnds self.now.proof.now self.now.ends.now }
        ensures { IsPart self.now.proof.now place result }
    {
        if place >= self.proof.len() {
            return Part::End;
        }
        match self.proof.token(place) {
            TokenView::Enter => Part::List(self.ends[place]),
            TokenView::Leave => Part::End,
            token => Part::Word(token),
        }
    }

    /// The place after the s-expression at a place.
    pub(crate) fn skip(&self, place: usize) -> Option<usize>
        requires { AreEnds self.now.proof.now self.now.ends.now }
        ensures { Skips self.now.proof.now place result }
    {
        match self.part_at(place) {
            Part::End => None,
            Part::Word(_) => Some(place + 1),
            Part::List(close) => Some(close + 1),
        }
    }

    /// Whether nothing is left of the list.
    pub(crate) fn is_end(&self, place: usize) -> bool
        requires { AreEnds self.now.proof.now self.now.ends.now }
        ensures { result ≡ is_end (ahead self.now.proof.now place) }
    {
        match self.part_at(place) {
            Part::End => true,
            Part::Word(_) => false,
            Part::List(_) => false,
        }
    }

    /// Enters the list that is next: the place of its `)`.
    pub(crate) fn enter(&self, at: &mut Progress) -> Option<usize>
        requires { AreEnds self.now.proof.now self.now.ends.now }
        ensures { Enters self.now.proof.now at.old at.new result }
    {
        match self.part_at(at.place) {
            Part::List(close) => {
                at.place += 1;
                Some(close)
            }
            Part::Word(_) => None,
            Part::End => None,
        }
    }

    /// A token that is no parenthesis, which is read where it is next.
    pub(crate) fn word(&self, at: &mut Progress) -> Option<TokenView<'a>>
        requires { AreEnds self.now.proof.now self.now.ends.now }
        ensures { HasWord self.now.proof.now at.old at.new result }
    {
        match self.part_at(at.place) {
            Part::Word(token) => {
                at.place += 1;
                Some(token)
            }
            _ => None,
        }
    }

    /// The digits of a numeral, where it is next.
    pub(crate) fn digits(&self, at: &mut Progress) -> Option<&'a [u8]>
        requires { AreEnds self.now.proof.now self.now.ends.now }
        ensures { HasDigits self.now.proof.now at.old at.new result }
    {
        match self.word(at)? {
            TokenView::Numeral(digits) => Some(digits),
            _ => None,
        }
    }

    /// The name of a symbol, where it is next.
    pub(crate) fn symbol(&self, at: &mut Progress) -> Option<&'a [u8]>
        requires { AreEnds self.now.proof.now self.now.ends.now }
        ensures { HasName self.now.proof.now at.old at.new result }
    {
        match self.word(at)? {
            TokenView::Symbol(name) => Some(name),
            _ => None,
        }
    }

    /// Enters the list that is next and begins with a name: the place of its `)`, and the name.
    pub(crate) fn enter_named(&self, at: &mut Progress) -> Option<(usize, &'a [u8])>
        requires { AreEnds self.now.proof.now self.now.ends.now }
        ensures { EntersNamed self.now.proof.now at.old at.new result }
    {
        let close = self.enter(at)?;
        let name = self.symbol(at)?;
        Some((close, name))
    }

    /// What is read up to here, where nothing is left of the list.
    pub(crate) fn alone<A: Drop>(&self, at: &Progress, read: A) -> Option<A>
        requires { AreEnds self.now.proof.now self.now.ends.now }
        ensures { result ≡ alone (ahead self.now.proof.now at.now.place) read }
    {
        if self.is_end(at.place) {
            Some(read)
        } else {
            None
        }
    }
}
