//! Places by their hashes.
//!
//! Why: a term store finds a node by the chain of its hash's bucket, the newest first, so that a
//! cut undoes the newest nodes one by one and takes no memory.
ghost use Rattle.std.specs.Prelude.{◌≡◌, ◌+◌, ◌-◌, ◌*◌, ◌^◌, ◌<◌, ◌≤◌, [], ◌∷◌, ◌++◌, length, max, take, replicate, OnOk, OnErr};
ghost use Rattle.term_store.specs.Latest.{last_place, hashes_of, bucket_of, IsIndex, IsOnChain};

use std::alloc::{AllocError, Global};
use std::marker::Model;

/// What is kept of a place: its hash, and one more than the last place before it in its bucket, or 0.
#[derive(Clone, Copy, Drop)]
pub(crate) struct Link {
    hash: u32,
    before: u32,
}

/// A list of hashes, with a table that finds the places of a hash.
#[derive(Drop)]
pub struct HashIndex {
    links: Vec<Link>,
    buckets: Vec<u32>,
}

impl Model for HashIndex {
    ghost use Rattle.std.specs.Prelude.{List, ℕ};

    ghost Value = { List ℕ };

    ghost use Rattle.term_store.specs.Latest.{hashes_of, IsIndex};

    ghost view = { λ a. hashes_of a.links.items };

    ghost invariant = { λ a. IsIndex a.links.items a.buckets.items };
}

fn bucket(hash: u32, count: usize) -> usize
    requires { 0 < count }
    ensures within { result < count }
    ensures value { result ≡ bucket_of count hash }
{
    hash as usize & (count - 1)
}

/// From this link on, one more than the last place with this hash, or 0.
fn follow(links: &[Link], hash: u32, start: u32) -> u32
    requires { IsOnChain links.now hash start }
    ensures { result ≡ last_place (hashes_of links.now) hash start }
{
    let mut link = start;
    while link > 0 {
        let place = (link - 1) as usize;
        if links[place].hash == hash {
            return link;
        }
        link = links[place].before;
    }
    0
}

/// Adds a link at the end.
fn append(links: &mut Vec<Link>, buckets: &mut [u32], hash: u32) -> Result<(), AllocError>
    requires index { IsIndex links.old.items buckets.old }
    requires room { length links.old.items < length buckets.old }
    requires few { length links.old.items + 1 < 2 ^ 32 }
    ensures index { IsIndex links.new.items buckets.new }
    ensures ok { OnOk result (hashes_of links.new.items ≡ hashes_of links.old.items ++ hash ∷ []) }
    ensures err { OnErr result (hashes_of links.new.items ≡ hashes_of links.old.items) }
{
    let at = bucket(hash, buckets.len());
    let before = buckets[at];
    links.push(Link { hash, before })?;
    buckets[at] = links.len() as u32;
    Ok(())
}

/// Takes the last link away.
fn remove_last(links: &mut Vec<Link>, buckets: &mut [u32])
    requires index { IsIndex links.old.items buckets.old }
    ensures index { IsIndex links.new.items buckets.new }
    ensures shorter { hashes_of links.new.items ≡ take (length links.old.items - 1) (hashes_of links.old.items) }
{
    if let Some(link) = links.pop() {
        let at = bucket(link.hash, buckets.len());
        buckets[at] = link.before;
    }
}

/// Twice as many buckets, and 16 at least.
fn more_buckets(count: usize) -> usize
    requires { count < 2 ^ 32 }
    ensures { result ≡ max 16 (2 * count) }
{
    if count < 8 { 16 } else { 2 * count }
}

/// Files each link in empty buckets.
fn fill(links: &mut [Link], buckets: &mut [u32])
    requires empty { buckets.old ≡ replicate (length buckets.old) 0 }
    requires room { length links.old ≤ length buckets.old }
    requires few { length links.old < 2 ^ 32 }
    ensures index { IsIndex links.new buckets.new }
    ensures same { hashes_of links.new ≡ hashes_of links.old }
{
    for i in 0..links.len() {
        let hash = links[i].hash;
        let at = bucket(hash, buckets.len());
        links[i] = Link {
            hash,
            before: buckets[at],
        };
        buckets[at] = (i + 1) as u32;
    }
}

/// Makes room for a link: the buckets stay while they are more than the links, and at least double then. An `Err` keeps the hashes.
fn make_room(links: &mut Vec<Link>, buckets: &mut Vec<u32>) -> Result<(), AllocError>
    requires { IsIndex links.old.items buckets.old.items }
    ensures index { IsIndex links.new.items buckets.new.items }
    ensures room { OnOk result (length links.new.items < length buckets.new.items) }
    ensures kept { OnOk result (length links.old.items < length buckets.old.items → buckets.new.items ≡ buckets.old.items) }
    ensures doubled { OnOk result (length buckets.old.items ≤ length links.old.items → length buckets.new.items ≡ max 16 (2 * length buckets.old.items)) }
    ensures same { hashes_of links.new.items ≡ hashes_of links.old.items }
{
    if links.len() < buckets.len() {
        return Ok(());
    }
    let count = more_buckets(buckets.len());
    let mut larger = vec![in *buckets.allocator(); 0; count]?;
    fill(links, &mut larger);
    *buckets = larger;
    Ok(())
}

/// Takes the links from this place on away.
fn shorten(links: &mut Vec<Link>, buckets: &mut [u32], len: usize)
    requires { IsIndex links.old.items buckets.old }
    ensures index { IsIndex links.new.items buckets.new }
    ensures shorter { hashes_of links.new.items ≡ take len (hashes_of links.old.items) }
{
    while len < links.len() {
        remove_last(links, buckets);
    }
}

impl HashIndex {
    ghost use Rattle.std.specs.Prelude.{◌≡◌, ◌+◌, ◌-◌, ◌^◌, ◌<◌, ◌≤◌, [], ◌∷◌, ◌++◌, length, take, slice_index, OnOk, OnErr};
    ghost use Rattle.term_store.specs.Latest.{last_place};

    /// No hash. It takes no memory.
    pub fn new(alloc: Global) -> Self
        ensures { result ≡ [] }
    {
        HashIndex {
            links: Vec::new(alloc),
            buckets: Vec::new(alloc),
        }
    }

    /// Adds a hash at the end. An `Err`, for want of memory, changes nothing.
    pub fn push(&mut self, hash: u32) -> Result<(), AllocError>
        requires { length self.old + 1 < 2 ^ 32 }
        ensures ok { OnOk result (self.new ≡ self.old ++ hash ∷ []) }
        ensures err { OnErr result (self.new ≡ self.old) }
    {
        make_room(&mut self.links, &mut self.buckets)?;
        append(&mut self.links, &mut self.buckets, hash)
    }

    /// Takes the hashes from this place on away. It takes no memory.
    pub fn truncate(&mut self, len: usize)
        ensures { self.new ≡ take len self.old }
    {
        shorten(&mut self.links, &mut self.buckets, len);
    }

    /// One more than the last place with this hash, or 0.
    pub fn last(&self, hash: u32) -> u32
        ensures { result ≡ last_place self.now hash (length self.now) }
    {
        if self.buckets.is_empty() {
            return 0;
        }
        let first = self.buckets[bucket(hash, self.buckets.len())];
        follow(&self.links, hash, first)
    }

    /// One more than the last place before this one with the same hash, or 0.
    pub fn before(&self, place: usize) -> u32
        requires { place < length self.now }
        ensures { result ≡ last_place self.now (slice_index self.now place) place }
    {
        let link = self.links[place];
        follow(&self.links, link.hash, link.before)
    }
}
