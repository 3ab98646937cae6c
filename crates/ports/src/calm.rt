//! A source and a sink in memory that never fail.
ghost use Rattle.std.specs.Prelude.{◌≡◌, ◌≢◌, max, drop, length, take, ◌++◌, Some, None};
ghost use Rattle.ports.specs.Flow.{Gives, GivesAtMost, MoreCause, PutCause, RoseBy, Takes, gifts};
ghost use Rattle.ports.specs.Calm.{calm_after, calm_answer, moved};

use crate::{More, Put, Sink, Source};
use std::marker::Model;

/// A source in memory that never fails. It gives at most `piece` bytes a call, at least 1.
#[derive(Drop)]
pub struct CalmSource {
    bytes: Vec<u8>,
    at: usize,
    piece: usize,
    given: u64,
}

impl Model for CalmSource {
    ghost use Rattle.std.specs.Prelude.{drop, length, ◌≤◌, ◌<◌};
    ghost use Rattle.ports.specs.Calm.{CalmState};

    ghost Value = { CalmState };

    ghost view = { λ s. record {
      left = drop s.at s.bytes.items;
      piece = s.piece;
      given = s.given;
    } };

    ghost invariant = { λ s. (s.at ≤ length s.bytes.items) × (0 < s.piece) };
}

impl CalmSource {
    /// A source that has given nothing yet. A `piece` of 0 counts as 1.
    pub fn new(bytes: Vec<u8>, piece: usize) -> Self
        ensures { result ≡ record {
          left = bytes.items;
          piece = max piece 1;
          given = 0;
        } }
    {
        CalmSource {
            bytes,
            at: 0,
            piece: piece.max(1),
            given: 0,
        }
    }

    /// The bytes still to come.
    pub fn left(&self) -> &[u8]
        ensures { result.now ≡ self.now.left }
    {
        &self.bytes[self.at..]
    }
}

impl Source for CalmSource {
    ghost use Rattle.std.specs.Prelude.{Some};

    ghost told = { λ s. record {
      left = Some s.left;
      given = Some s.given;
      faults = 0;
    } };

    fn more(&mut self, buf: &mut [u8]) -> More
        ensures bound { GivesAtMost result (length buf.new) }
        ensures bytes { Gives (Some self.old.left) result buf.new (Some self.new.left) }
        ensures given { RoseBy (gifts result) (Some self.old.given) (Some self.new.given) }
        ensures cause { MoreCause result 0 0 }
        ensures calm { result ≢ More.Failed }
        ensures answer { result ≡ calm_answer self.old (length buf.old) }
        ensures buffer { buf.new ≡
            take (moved result) self.old.left ++ drop (moved result) buf.old }
        ensures after { self.new ≡ calm_after self.old result }
    {
        let left = &self.bytes[self.at..];
        if left.is_empty() {
            return More::End;
        }
        let count = self.piece.min(left.len()).min(buf.len());
        buf[..count].copy_from_slice(&left[..count]);
        self.at += count;
        self.given = self.given.saturating_add(count.min(1) as u64);
        More::Got(count)
    }
}

/// A sink that never fails. It takes all bytes, keeps none of them, and tells nothing.
#[derive(Clone, Copy, Drop)]
pub struct CalmSink;

impl Sink for CalmSink {
    ghost use Rattle.std.specs.Prelude.{None};

    ghost told = { λ _. record {
      written = None;
      calls = None;
      faults = 0;
    } };

    fn put(&mut self, _bytes: &[u8]) -> Put
        ensures bytes { Takes None result _bytes.now None }
        ensures calls { RoseBy 1 None None }
        ensures cause { PutCause result 0 0 }
        ensures calm { result ≡ Put.Ok }
    {
        Put::Ok
    }
}
