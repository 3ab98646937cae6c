//! Points under hashes.
ghost use Rattle.std.specs.Prelude.{◌≡◌, ◌+◌, ◌^◌, ◌<◌, [], ◌∷◌, ◌++◌, length, take, slice_index, OnOk, OnErr};
ghost use Rattle.term_store.specs.Latest.{last_place};

use std::alloc::{AllocError, Global};
use std::marker::Model;
use term_store::HashIndex;

/// A list of points, each filed under a hash.
#[derive(Drop)]
pub(crate) struct Table {
    index: HashIndex,
    points: Vec<u32>,
}

impl Model for Table {
    ghost use Rattle.point_closure.specs.Signature.{Filed, filed_code};

    ghost Value = { Filed };

    ghost coded = { filed_code };

    ghost use Rattle.std.specs.Prelude.{◌≡◌, length};

    ghost view = { λ t. record { hashes = t.index; points = t.points.items } };

    ghost invariant = { λ t. length t.index ≡ length t.points.items };
}

impl Table {
    /// No point. It takes no memory.
    pub(crate) fn new(alloc: Global) -> Self
        ensures { result ≡ record { hashes = []; points = [] } }
    {
        Table {
            index: HashIndex::new(alloc),
            points: Vec::new(alloc),
        }
    }

    /// The number of points.
    pub(crate) fn len(&self) -> usize
        ensures points { result ≡ length self.now.points }
        ensures hashes { result ≡ length self.now.hashes }
    {
        self.points.len()
    }

    /// The point at a place.
    pub(crate) fn point(&self, place: usize) -> u32
        requires { place < length self.now.points }
        ensures { result ≡ slice_index self.now.points place }
    {
        self.points[place]
    }

    /// One more than the last place with this hash, or 0.
    pub(crate) fn last(&self, hash: u32) -> u32
        ensures { result ≡ last_place self.now.hashes hash (length self.now.points) }
    {
        self.index.last(hash)
    }

    /// One more than the last place before this one with the same hash, or 0.
    pub(crate) fn before(&self, place: usize) -> u32
        requires { place < length self.now.points }
        ensures { result ≡ last_place self.now.hashes (slice_index self.now.hashes place) place }
    {
        self.index.before(place)
    }

    /// Files a point. An `Err` changes nothing.
    pub(crate) fn push(&mut self, hash: u32, point: u32) -> Result<(), AllocError>
        ensures ok { OnOk result (self.new ≡ record { hashes = self.old.hashes ++ hash ∷ []; points = self.old.points ++ point ∷ [] }) }
        ensures err { OnErr result (self.new ≡ self.old) }
    {
        let count = self.points.len();
        if count >= 0xffff_fff0 {
            return Err(AllocError);
        }
        self.points.push(point)?;
        if self.index.push(hash).is_err() {
            self.points.truncate(count);
            return Err(AllocError);
        }
        Ok(())
    }

    /// Takes the points from this place on away.
    pub(crate) fn shorten(&mut self, count: usize)
        ensures { self.new ≡ record { hashes = take count self.old.hashes; points = take count self.old.points } }
    {
        self.index.truncate(count);
        self.points.truncate(count);
    }
}
