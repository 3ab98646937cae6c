//! Rows of numbers, each under a head, with all their numbers in one list.
ghost use Rattle.std.specs.Prelude.{◌≡◌, ◌<◌, ◌≤◌, [], ◌∷◌, ◌++◌, List, ℕ, length, take, slice_range, slice_index_or, OnOk, OnErr};

use std::alloc::{AllocError, Global};
use std::marker::Model;

/// What is kept of a row: its head, and where its numbers begin and end in the list of all numbers.
#[derive(Clone, Copy, Drop)]
struct Entry<H> {
    head: H,
    start: usize,
    end: usize,
}

/// A list of rows, each a head and a list of numbers.
#[derive(Drop)]
pub struct Rows<H> {
    entries: Vec<Entry<H>>,
    numbers: Vec<u32>,
}

impl<H> Model for Rows<H> {
    ghost use Rattle.std.specs.Prelude.{ℕ, List, length};
    ghost use Rattle.term_store.specs.Rows.{rows_of, AreLaid};

    ghost Value = { List (H × List ℕ) };

    ghost view = { λ a. rows_of a.numbers.items a.entries.items };

    ghost invariant = { λ a. AreLaid (length a.numbers.items) a.entries.items };
}

/// The numbers from one place to another.
fn part(all: &[u32], start: usize, end: usize) -> &[u32]
    requires order { start ≤ end }
    requires within { end ≤ length all.now }
    ensures { result.now ≡ slice_range all.now start end }
{
    &all[start..end]
}

/// Adds an entry at the end. An `Err` changes nothing.
fn append<H: Copy + Drop>(
    entries: &mut Vec<Entry<H>>,
    all: &mut Vec<u32>,
    head: H,
    numbers: &[u32],
) -> Result<(), AllocError>
    ensures entries { OnOk result (entries.new.items ≡ entries.old.items ++ record { head = head; start = length all.old.items; end = length all.new.items } ∷ []) }
    ensures numbers { OnOk result (all.new.items ≡ all.old.items ++ numbers.now) }
    ensures err { OnErr result ((entries.new.items ≡ entries.old.items) × (all.new.items ≡ all.old.items)) }
{
    let start = all.len();
    all.extend_from_slice(numbers)?;
    let end = all.len();
    if entries.push(Entry { head, start, end }).is_err() {
        all.truncate(start);
        return Err(AllocError);
    }
    Ok(())
}

impl<H> Rows<H> {
    /// No row. It takes no memory.
    pub fn new(alloc: Global) -> Self
        ensures { result ≡ [] }
    {
        Rows {
            entries: Vec::new(alloc),
            numbers: Vec::new(alloc),
        }
    }

    /// The number of rows.
    pub fn len(&self) -> usize
        ensures { result ≡ length self.now }
    {
        self.entries.len()
    }

    /// The numbers of a row.
    pub fn numbers(&self, place: usize) -> &[u32]
        requires { place < length self.now }
        ensures { (d : H × List ℕ) → (slice_index_or self.now place d).1 ≡ result.now }
    {
        let entry = &self.entries[place];
        part(&self.numbers, entry.start, entry.end)
    }
}

impl<H: Copy + Drop> Rows<H> {
    /// The head of a row.
    pub fn head(&self, place: usize) -> H
        requires { place < length self.now }
        ensures { (d : H × List ℕ) → (slice_index_or self.now place d).0 ≡ result }
    {
        self.entries[place].head
    }

    /// Adds a row at the end. An `Err`, for want of memory, changes nothing.
    pub fn push(&mut self, head: H, numbers: &[u32]) -> Result<(), AllocError>
        ensures ok { OnOk result (self.new ≡ self.old ++ (head, numbers.now) ∷ []) }
        ensures err { OnErr result (self.new ≡ self.old) }
    {
        append(&mut self.entries, &mut self.numbers, head, numbers)?;
        Ok(())
    }

    /// Takes the rows from this place on away. It takes no memory.
    pub fn truncate(&mut self, count: usize)
        ensures { self.new ≡ take count self.old }
    {
        if count < self.entries.len() {
            let start = self.entries[count].start;
            self.entries.truncate(count);
            self.numbers.truncate(start);
        }
    }
}
