//! A scan of the unread bytes, which goes on from the byte at which it stopped; so reading takes
//! time in proportion to the input.
//!
//! Why: a call goes on from the byte at which the one before stopped, and scans none before it
//! again; so reading takes time in proportion to the input, however it is cut (measured, no clause
//! says it).
ghost use Rattle.std.specs.Prelude.{◌≡◌, ◌≤◌, ◌+◌, ◌++◌, ◌∷◌, [], List, ℕ, length, ◌<◌, true, Some, OnOk, OnErr, IfOk, IsSome};
ghost use Rattle.smt_meaning.specs.declared.tokens.Token.{Token as TokenValue};
ghost use Rattle.smt_meaning.specs.Reading.{IsSExpr, Opens, shapes};
ghost use Rattle.smt_reader.specs.Parts.{StopsAt, part_token};
ghost use Rattle.smt_reader.specs.Scan.{IsScan, start_of, EndsAt, Finds, Goes, Keeps, Comes};

use crate::part::{Ending, Part, Turn};
use smt_meaning::{FaultKind, SExpr, TokenView, Tokens};
use std::alloc::{AllocError, Global};
use std::mem;

/// The most lists that are open at a time.
const MOST_OPEN: usize = 10_000;

/// How far the unread bytes of an input were scanned.
#[derive(Drop)]
pub struct Scan {
    /// How many of them were looked at.
    pub looked: usize,
    /// Where in the token that follows the whole ones they end.
    pub part: Part,
    /// Where that token begins.
    pub start: usize,
    /// What was read of a text or a quoted symbol.
    pub content: Vec<u8>,
    /// The whole tokens of the list that is open.
    pub tokens: Tokens,
    /// How many lists are open.
    pub depth: usize,
    /// Where the outermost list begins.
    pub from: usize,
}

/// What stands first in the unread bytes. Places are counted from the first of them.
#[derive(Drop)]
pub enum Found {
    /// An s-expression, and how many bytes it takes.
    Ready(SExpr, usize),
    /// A fault at a place.
    Fault(FaultKind, usize),
    /// Nothing that is settled: more bytes may follow.
    NeedMore,
    /// Nothing but blanks and comments, and no more bytes follow.
    End,
}

impl Scan {
    /// The scan of which nothing was looked at.
    pub fn new(alloc: Global) -> Self
        ensures { (unread : List ℕ) → IsScan unread result }
    {
        Scan {
            looked: 0,
            part: Part::Blank,
            start: 0,
            content: Vec::new(alloc),
            tokens: Tokens::new(alloc),
            depth: 0,
            from: 0,
        }
    }

    /// Finds what stands first, going on where the scan stopped. An `Err`, for want of memory, loses nothing.
    pub fn find(&mut self, alloc: Global, bytes: &[u8], finished: bool) -> Result<Found, AllocError>
        requires { IsScan bytes.now self.old }
        ensures finds { IfOk result (Finds bytes.now finished) }
        ensures keeps { IfOk result (λ found. Keeps bytes.now found self.new) }
        ensures err { OnErr result (IsScan bytes.now self.new) }
    {
        loop {
            let Some(turn) = self.pass(bytes) else {
                return self.at_end(alloc, bytes, finished);
            };
            if let Some(found) = self.turn(alloc, bytes, turn)? {
                return Ok(found);
            }
        }
    }

    /// Passes over the bytes that only go on, and says what the next one does.
    fn pass(&mut self, bytes: &[u8]) -> Option<Turn>
        requires { IsScan bytes.now self.old }
        ensures scan { IsScan bytes.now self.new }
        ensures stops { StopsAt self.new.part bytes.now self.new.looked result }
        ensures onward { self.old.looked ≤ self.new.looked }
        ensures tokens { self.new.tokens ≡ self.old.tokens }
    {
        let run = self.part.run(&bytes[self.looked..]);
        self.looked += run.passed;
        self.part = run.part;
        run.turn
    }

    /// Begins a token at the next byte.
    fn begin(&mut self, part: Part)
        requires { self.old.looked < usize.MAX }
        ensures { (bytes : List ℕ) → IsScan bytes self.old → StopsAt self.old.part bytes self.old.looked (Some (Turn.Begins part))
            → Goes bytes self.old self.new }
    {
        self.content.clear();
        self.part = part;
        self.start = self.looked;
        self.looked += 1;
    }

    /// Does what the next byte does.
    fn turn(&mut self, alloc: Global, bytes: &[u8], turn: Turn) -> Result<Option<Found>, AllocError>
        requires scan { IsScan bytes.now self.old }
        requires stops { StopsAt self.old.part bytes.now self.old.looked (Some turn) }
        ensures ok { IfOk result (λ found. Comes bytes.now self.old found self.new) }
        ensures err { OnErr result (IsScan bytes.now self.new) }
    {
        match turn {
            Turn::Enters => self.enter(),
            Turn::Leaves => self.leave(alloc),
            Turn::Begins(part) => {
                self.begin(part);
                Ok(None)
            }
            Turn::Adds(part) => {
                let next = self.looked + 1;
                let next = next + part.extends(&bytes[next..]);
                self.content.extend_from_slice(&bytes[self.looked..next])?;
                self.part = part;
                self.looked = next;
                Ok(None)
            }
            Turn::Ends => self.end_token(alloc, bytes, self.looked),
            Turn::Closes => self.end_token(alloc, bytes, self.looked + 1),
            Turn::Wrong => Ok(Some(Found::Fault(FaultKind::Character, self.looked))),
            Turn::Malformed => Ok(Some(Found::Fault(FaultKind::Character, self.start))),
        }
    }

    /// Opens a list at the next byte.
    fn enter(&mut self) -> Result<Option<Found>, AllocError>
        requires { self.old.looked < usize.MAX }
        ensures ok { (bytes : List ℕ) → IsScan bytes self.old → StopsAt self.old.part bytes self.old.looked (Some Turn.Enters)
            → IfOk result (λ found. Comes bytes self.old found self.new) }
        ensures err { (bytes : List ℕ) → IsScan bytes self.old → OnErr result (IsScan bytes self.new) }
    {
        if self.depth >= MOST_OPEN {
            return Ok(Some(Found::Fault(FaultKind::Nesting, self.looked)));
        }
        self.tokens.push(TokenView::Enter)?;
        self.from = self.outermost();
        self.depth += 1;
        self.go_on(self.looked + 1);
        Ok(None)
    }

    /// Closes a list at the next byte.
    fn leave(&mut self, alloc: Global) -> Result<Option<Found>, AllocError>
        requires room { self.old.looked < usize.MAX }
        requires opens { Opens 0 (shapes self.old.tokens) self.old.depth }
        ensures ok { (bytes : List ℕ) → IsScan bytes self.old → StopsAt self.old.part bytes self.old.looked (Some Turn.Leaves)
            → IfOk result (λ found. Comes bytes self.old found self.new) }
        ensures err { (bytes : List ℕ) → IsScan bytes self.old → OnErr result (IsScan bytes self.new) }
    {
        if self.depth == 0 {
            return Ok(Some(Found::Fault(FaultKind::Closing, self.looked)));
        }
        self.tokens.push(TokenView::Leave)?;
        let next = self.looked + 1;
        if self.depth == 1 {
            return Ok(Some(self.ready(alloc, next)));
        }
        self.depth -= 1;
        self.go_on(next);
        Ok(None)
    }

    /// Ends the token, behind which the bytes go on from `next`.
    #[inline(always)]
    fn end_token(
        &mut self,
        alloc: Global,
        bytes: &[u8],
        next: usize,
    ) -> Result<Option<Found>, AllocError>
        requires scan { IsScan bytes.now self.old }
        requires ends { EndsAt bytes.now self.old next }
        ensures ok { IfOk result (λ found. Comes bytes.now self.old found self.new) }
        ensures err { OnErr result (IsScan bytes.now self.new) }
    {
        self.push_token(bytes)?;
        if self.depth == 0 {
            return Ok(Some(self.ready(alloc, next)));
        }
        self.go_on(next);
        Ok(None)
    }

    /// What is found where all bytes were looked at.
    fn at_end(&mut self, alloc: Global, bytes: &[u8], finished: bool) -> Result<Found, AllocError>
        requires scan { IsScan bytes.now self.old }
        requires all { self.old.looked ≡ length bytes.now }
        ensures finds { IfOk result (Finds bytes.now finished) }
        ensures keeps { IfOk result (λ found. Keeps bytes.now found self.new) }
        ensures err { OnErr result (IsScan bytes.now self.new) }
    {
        if !finished {
            return Ok(Found::NeedMore);
        }
        if self.depth > 0 {
            return Ok(self.list_at_end());
        }
        match self.part.ending() {
            Ending::Bare => Ok(Found::End),
            Ending::Whole => {
                self.push_token(bytes)?;
                Ok(self.ready(alloc, self.looked))
            }
            Ending::Halted => Ok(Found::Fault(FaultKind::Unfinished, self.start)),
            Ending::Formless => Ok(Found::Fault(FaultKind::Character, self.start)),
        }
    }

    /// What is found where the input ends inside a list.
    fn list_at_end(&self) -> Found
        requires { 0 < self.now.depth }
        ensures { (bytes : List ℕ) → IsScan bytes self.now → self.now.looked ≡ length bytes
            → Finds bytes true result × Keeps bytes result self.now }
    {
        match self.part.ending() {
            Ending::Formless => Found::Fault(FaultKind::Character, self.start),
            _ => Found::Fault(FaultKind::Unfinished, self.from),
        }
    }

    /// Adds the token that the bytes looked at end. An `Err`, for want of memory, changes nothing.
    #[inline(always)]
    fn push_token(&mut self, bytes: &[u8]) -> Result<(), AllocError>
        requires within { self.old.looked ≤ length bytes.now }
        requires begun { self.old.start ≤ self.old.looked }
        requires ends { IsSome (part_token self.old.part (start_of bytes.now self.old) self.old.content.items) }
        ensures ok { OnOk result ((t : TokenValue) → part_token self.old.part (start_of bytes.now self.old) self.old.content.items ≡ Some t
            → self.new ≡ record self.old { tokens = self.old.tokens ++ t ∷ [] }) }
        ensures err { OnErr result (self.new ≡ self.old) }
    {
        let start = &bytes[self.start..self.looked];
        let Some(token) = self.part.token(start, self.content.as_slice()) else {
            unreachable!()
        };
        self.tokens.push(token)
    }

    /// The tokens are an s-expression. The scan begins anew behind it.
    fn ready(&mut self, alloc: Global, used: usize) -> Found
        requires { IsSExpr self.old.tokens }
        ensures ready { result ≡ Found.Ready self.old.tokens used }
        ensures anew { (unread : List ℕ) → IsScan unread self.new }
    {
        let tokens = mem::replace(&mut self.tokens, Tokens::new(alloc));
        self.depth = 0;
        self.go_on(0);
        Found::Ready(tokens.into_sexpr(), used)
    }

    /// Goes on from a place, in the same part, of which nothing was read before it.
    pub fn resume(&mut self, next: usize)
        ensures { self.new ≡ record self.old { looked = next; start = next } }
    {
        self.looked = next;
        self.start = next;
    }

    /// Goes on from a place, between tokens.
    fn go_on(&mut self, next: usize)
        ensures { self.new ≡ record self.old { looked = next; part = Part.Blank; start = next } }
    {
        self.looked = next;
        self.part = Part::Blank;
        self.start = next;
    }

    /// Where the outermost list begins, if one opens at the next byte.
    fn outermost(&self) -> usize
        ensures first { self.now.depth ≡ 0 → result ≡ self.now.looked }
        ensures inner { 0 < self.now.depth → result ≡ self.now.from }
    {
        if self.depth == 0 {
            self.looked
        } else {
            self.from
        }
    }
}
