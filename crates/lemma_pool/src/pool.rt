//! The pool: clauses in the order in which they were shared, with who shared them. It keeps no
//! history of the race; that is told by the contract of `race_cell` alone.
//!
//! Why a pool keeps no list of events: a race of many turns has one batch a turn and worker, and
//! such a list would grow without end. The history of a race is told by the contract of `Race::end`
//! and exists in the proofs alone; the pool keeps the entries and the workers that have ended.
//!
//! Why the pool doesn't copy declarations and assertions: it remembers the stack that it was shown
//! last (a snapshot of no bytes, which proofs alone read) and how many of its levels still stand.
//! `push` and `assert` take the stack that they lead to, in place of the declarations and the term,
//! and what they do is the event; `follow` stands for any number of these, `pop` and `cut_to` cut.
ghost use Rattle.std.specs.Prelude.{◌≡◌, ◌+◌, ◌-◌, ◌≤◌, false, [], All, IfOk, OnOk, length, min, vec_len, vec_capacity};
ghost use Rattle.smt_meaning.specs.Stack.{depth};
ghost use Rattle.race_model.specs.declared.event.Entry.{Entry};
ghost use Rattle.race_model.specs.Shelves.{IsSame};
ghost use Rattle.race_model.specs.declared.event.Event.TheVariants.{Push, Pop};
ghost use Rattle.lemma_pool.specs.Pools.{cut_base, Grows, IsAsserted, IsCut, IsKnown, IsSameButBase, IsStep, levels_up_to, on_base};
ghost use Rattle.std.proofs.Props.{props};

use race_model::{
    Entry, Framed, Shelf, Told, copy_clause, sound_after_assert, sound_after_cut,
    sound_after_declared, sound_after_push, sound_with_trees,
};
use smt_meaning::Clause;
use std::alloc::{AllocError, Global};
use std::snapshot::Snapshot;

/// The most entries that a pool has.
const LIMIT: usize = 65536;

/// Clauses with the workers that shared them, and the workers that have ended since the race began.
///
/// It remembers the stack that it was shown last, which proofs alone read, and how many of its levels still stand.
#[derive(Drop)]
pub struct Pool<K: Framed> {
    alloc: Global,
    entries: Vec<Entry>,
    ended: Vec<u8>,
    room: u64,
    stack: Snapshot<K>,
    levels: u64,
    global: bool,
    ghost roomy: { vec_len ended + room ≤ vec_capacity ended },
    ghost standing: { levels ≤ length (K.base stack.value).frames },
    ghost known: { All (λ (e : Entry). IsKnown (cut_base levels (K.base stack.value)) e.clause) entries.items } by { Prim.hlevel props },
}

fn lesser(one: u64, other: u64) -> u64
    ensures { result ≡ min one other }
{
    if one < other { one } else { other }
}

// The number of levels up to this one; at -1 there is none.
fn levels_to(level: i32) -> u64
    ensures { result ≡ levels_up_to level }
{
    if level < 0 { 0 } else { level as u64 + 1 }
}

// Copies of entries, in order.
fn copy_entries(alloc: Global, entries: &[Entry]) -> Result<Vec<Entry>, AllocError>
    ensures { IfOk result (λ v. v.items ≡ entries.now) }
{
    let mut copies = Vec::new(alloc);
    for entry in entries {
        let clause = copy_clause(alloc, &entry.clause)?;
        copies.push(Entry {
            clause,
            worker: entry.worker,
        })?;
    }
    Ok(copies)
}

impl<K: Framed> Pool<K> {
    ghost use Rattle.lemma_pool.specs.State.{state_of};

    /// An empty pool, on no level of the stack. It takes no memory.
    pub fn new(alloc: Global, stack: &K) -> Self
        ensures { state_of result ≡ record { base = cut_base 0 (K.base stack.now); entries = []; ended = []; room = 0; spare = 0; global = false } }
    {
        Pool {
            alloc,
            entries: Vec::new(alloc),
            ended: Vec::new(alloc),
            room: 0,
            stack: Snapshot::of(stack),
            levels: 0,
            global: false,
        }
    }

    /// Whether declarations are global, so that level 0 gains them.
    pub fn global(&self) -> bool
        ensures { result ≡ (state_of self.now).global }
    {
        self.global
    }

    /// Says whether declarations are global, of a pool that stands on no level. It takes no memory.
    pub fn set_global(&mut self, global: bool)
        requires { length (state_of self.old).base.frames ≡ 0 }
        ensures { state_of self.new ≡ record (state_of self.old) { global = global } }
    {
        self.global = global;
    }

    /// Makes room for so many more entries. An `Err`, for want of memory, changes nothing.
    pub fn reserve(&mut self, count: u64) -> Result<(), AllocError>
        ensures same { IsSame (state_of self.old) (state_of self.new) }
        ensures room { OnOk result (count ≤ (state_of self.new).spare) }
    {
        self.entries.reserve(count as usize)
    }

    /// The stack has gained levels, declarations or assertions, of which the pool stands on all from now on. It takes no memory.
    pub fn follow(&mut self, stack: &K, levels: u64)
        requires grows { Grows (state_of self.old).base (K.base stack.now) }
        requires levels { levels ≡ length (K.base stack.now).frames }
        ensures base { (state_of self.new).base ≡ K.base stack.now }
        ensures same { IsSameButBase (state_of self.old) (state_of self.new) }
    {
        sound_after_push();
        sound_after_assert();
        sound_after_declared();
        sound_with_trees();
        self.stack = Snapshot::of(stack);
        self.levels = levels;
    }

    /// The stack has gained so many empty levels, and is this one. It takes no memory.
    pub fn push(&mut self, stack: &K, count: u16)
        requires { IsStep (Push count) (state_of self.old) (on_base (K.base stack.now) (state_of self.old)) }
        ensures step { IsStep (Push count) (state_of self.old) (state_of self.new) }
        ensures base { (state_of self.new).base ≡ K.base stack.now }
        ensures spare { (state_of self.new).spare ≡ (state_of self.old).spare }
    {
        let levels = self.levels + count as u64;
        self.follow(stack, levels);
    }

    /// The newest level has gained declarations, definitions and names, and perhaps an assertion, or level 0 the declarations and definitions where they are global, and the stack is this one. It takes no memory.
    pub fn assert(&mut self, stack: &K)
        requires { IsAsserted (state_of self.old) (on_base (K.base stack.now) (state_of self.old)) }
        ensures step { IsAsserted (state_of self.old) (state_of self.new) }
        ensures base { (state_of self.new).base ≡ K.base stack.now }
        ensures spare { (state_of self.new).spare ≡ (state_of self.old).spare }
    {
        let levels = self.levels;
        self.follow(stack, levels);
    }

    // The levels below `count` stay, with their entries.
    fn keep(&mut self, count: u64)
        ensures { IsCut count (state_of self.old) (state_of self.new) }
    {
        sound_after_cut();
        self.levels = lesser(self.levels, count);
        self.entries
            .retain(|entry| (entry.clause.level as u64) < count);
    }

    /// So many of the newest levels go, with the entries above those that stay. It takes no memory.
    pub fn pop(&mut self, count: u16)
        requires { count ≤ depth (state_of self.old).base.frames }
        ensures cut { IsCut (length (state_of self.old).base.frames - count) (state_of self.old) (state_of self.new) }
        ensures step { IsStep (Pop count) (state_of self.old) (state_of self.new) }
    {
        let kept = self.levels - count as u64;
        self.keep(kept);
    }

    /// The levels up to this one stay, with their entries; at -1 none does. It takes no memory.
    pub fn cut_to(&mut self, level: i32)
        ensures { IsCut (levels_up_to level) (state_of self.old) (state_of self.new) }
    {
        self.keep(levels_to(level));
    }
}

impl<K: Framed> Shelf for Pool<K> {
    ghost use Rattle.lemma_pool.specs.State.{state_of};

    ghost state = { state_of };

    fn share(&mut self, worker: u8, clause: Clause) -> Told {
        if self.entries.len() >= LIMIT {
            return Told::Full(clause);
        }
        if self.entries.reserve(1).is_err() {
            return Told::Memory(clause);
        }
        let place = self.entries.len() as u64;
        self.entries.push_reserved(Entry { clause, worker });
        Told::Shared(place)
    }

    fn batch(&self, mark: u64) -> Result<Vec<Entry>, AllocError> {
        let mark = self.entries.len().min(mark as usize);
        copy_entries(self.alloc, &self.entries[mark..])
    }

    fn count(&self) -> u64 {
        self.entries.len() as u64
    }

    fn begin(&mut self, workers: u8) -> Result<(), AllocError> {
        self.ended.reserve(workers as usize)?;
        self.ended.clear();
        self.room = workers as u64;
        Ok(())
    }

    fn end(&mut self, worker: u8) {
        self.ended.push_reserved(worker);
        self.room -= 1;
    }
}
