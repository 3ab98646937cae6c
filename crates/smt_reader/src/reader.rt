//! The reader: bytes are fed in pieces, and s-expressions are given as soon as they are settled.
//! What was read is forgotten, and so are white space and comments.
//!
//! Why a fault needs no field: the reader keeps none for a fault that it met, as the byte at which
//! it stopped gives the fault again at each call, at once. After `finish` no more may be fed; that
//! is a condition and no refusal, as is that fewer than 2^64 bytes are fed in all.
//!
//! Why white space goes at once: the reader keeps the bytes of the s-expression that it has begun,
//! and drops them once it is read. White space and comments before it go as they come: what is
//! unread then stands for what was there, since whatever follows, the same lexeme comes first at
//! the same place. Of a comment that goes on one byte stays, its mark.
ghost use Rattle.std.specs.Prelude.{◌≡◌, ◌≤◌, ◌<◌, ◌+◌, ◌^◌, ◌++◌, [], length, drop, vec_len, OnOk, OnErr, IfOk, false, true};
ghost use Rattle.smt_reader.specs.Reader.{AnswersRightly, Leaves, Skips};

use crate::Next;
use crate::part::Part;
use crate::scan::{Found, Scan};
use std::alloc::{AllocError, Global};
use std::marker::Model;

/// Reads s-expressions (SMT-LIB 2.6, sections 3.1 and 3.2) from bytes that come in pieces. Contracts see it as the bytes that it hasn't read, the place of the first of them, and whether they are all. In the place of a comment that may go on it keeps its mark alone.
///
/// A call goes on from the byte at which the one before stopped, and scans none before it again.
#[derive(Drop)]
pub struct Reader {
    /// The bytes that are kept: those that aren't read, and some before them.
    bytes: Vec<u8>,
    /// The place of the first of them in the input.
    base: u64,
    /// How many of them are read.
    at: usize,
    scan: Scan,
    finished: bool,
}

impl Model for Reader {
    ghost use Rattle.std.specs.Prelude.{◌+◌, drop};
    ghost use Rattle.smt_meaning.specs.Reading.{Unread};

    ghost Value = { Unread };

    ghost use Rattle.smt_reader.specs.Scan.{IsReading};

    ghost view = { λ r. record { place = r.base + r.at; bytes = drop r.at r.bytes.items; finished = r.finished } };

    ghost invariant = { λ r. IsReading r.bytes.items r.base r.at r.scan };
}

impl Reader {
    /// A reader at the beginning of its input. It takes no memory.
    pub fn new(alloc: Global) -> Self
        ensures { result ≡ record { place = 0; bytes = []; finished = false } }
    {
        Reader {
            bytes: Vec::new(alloc),
            base: 0,
            at: 0,
            scan: Scan::new(alloc),
            finished: false,
        }
    }

    /// Takes the next piece of the input. An `Err`, for want of memory, changes nothing.
    pub fn feed(&mut self, piece: &[u8]) -> Result<(), AllocError>
        requires going { self.old.finished ≡ false }
        requires room { self.old.place + length self.old.bytes + length piece.now < 2 ^ 64 }
        ensures ok { OnOk result (self.new ≡ record self.old { bytes = self.old.bytes ++ piece.now }) }
        ensures err { OnErr result (self.new ≡ self.old) }
    {
        self.forget();
        self.bytes.extend_from_slice(piece)?;
        Ok(())
    }

    /// No more bytes come.
    pub fn finish(&mut self)
        ensures { self.new ≡ record self.old { finished = true } }
    {
        self.finished = true;
    }

    /// What comes next. An s-expression that is given has then been read. Where more bytes are needed, white space and comments before an s-expression are let go. An `Err`, for want of memory, changes nothing.
    pub fn next(&mut self, alloc: Global) -> Result<Next, AllocError>
        ensures answer { IfOk result (λ next. AnswersRightly self.old next) }
        ensures left { IfOk result (λ next. Leaves self.old next self.new) }
        ensures err { OnErr result (self.new ≡ self.old) }
    {
        match self
            .scan
            .find(alloc, &self.bytes[self.at..], self.finished)?
        {
            Found::Ready(sexpr, used) => {
                self.at += used;
                Ok(Next::Ready(sexpr))
            }
            Found::Fault(kind, place) => {
                Ok(Next::Fault(kind, self.base + (self.at + place) as u64))
            }
            Found::NeedMore => {
                self.skip();
                Ok(Next::NeedMore)
            }
            Found::End => Ok(Next::End),
        }
    }

    /// Lets white space and comments go, where no more than these were looked at. Of a comment that may go on, the mark is left.
    fn skip(&mut self)
        ensures { Skips self.old self.new }
    {
        if self.scan.depth > 0 {
            return;
        }
        match self.scan.part {
            Part::Blank => {
                self.at += self.scan.looked;
                self.scan.resume(0);
            }
            Part::Comment if self.scan.looked > 0 => {
                self.at += self.scan.looked - 1;
                self.bytes[self.at] = b';';
                self.scan.resume(1);
            }
            _ => {}
        }
    }

    /// Lets the read bytes go once they are as many as the others, so that in all no more bytes are moved than are read.
    fn forget(&mut self)
        ensures { self.new ≡ self.old }
    {
        if self.at >= self.bytes.len() - self.at {
            drop_front(&mut self.bytes, self.at);
            self.base += self.at as u64;
            self.at = 0;
        }
    }
}

/// Drops the first `count` bytes. It takes no memory.
fn drop_front(bytes: &mut Vec<u8>, count: usize)
    requires { count ≤ vec_len bytes.old }
    ensures { bytes.new.items ≡ drop count bytes.old.items }
{
    let left = bytes.len() - count;
    bytes.copy_within(count.., 0);
    bytes.truncate(left);
}
