//! The state of a race, and its steps.
//!
//! Why a race's state says whether declarations are global, which no event changes: an assertion's
//! declarations join level 0 then, its names and the assertion itself the newest level, both or
//! neither. A pool is told so while it stands on no level.
//!
//! Of new declarations no id stands in the signature or twice in the addition.
//!
//! `step` takes memory, so it answers a Result; an Err changes nothing.
ghost use Rattle.std.specs.Prelude.{◌≡◌, ◌++◌, length, map, IfOk, OnErr, OnOk, MatchBool, All};
ghost use Rattle.race_model.specs.declared.event.Event.TheVariants.{Learn, Share, TakeBatch, Win, End, Push, Pop, Assert};
ghost use Rattle.race_model.specs.Race.{state_of, Owes, StepTells, IsRunning, Supports, cut_worker, clauses_below, entries_below};

use crate::clause::{copy_clauses, has_clause};
use crate::event::{Addition, Entry, Event, Premise};
use crate::levels::Levels;
use smt_meaning::{Clause, Seq};
use std::alloc::{AllocError, Global};
use std::mem;

/// The most entries that a race has.
const MOST_ENTRIES: usize = 65536;

/// The most levels above level 0.
const MOST_DEPTH: usize = 65535;

/// A worker of a race: its own clauses, how many entries it has read, and whether it has stopped.
#[derive(Drop)]
pub struct Worker {
    pub own: Seq<Clause>,
    pub mark: u64,
    pub ended: bool,
}

/// The state of a race.
#[derive(Drop)]
pub struct RaceState {
    pub levels: Levels,
    pub entries: Vec<Entry>,
    pub workers: Vec<Worker>,
    pub winner: Option<u8>,
    /// Whether declarations and definitions join level 0. No event changes it.
    pub global: bool,
}

// How many of the entries have a level below `count`.
fn kept_of(entries: &[Entry], count: usize) -> u64
    ensures { result ≡ length (entries_below count entries.now) }
{
    let mut kept = 0u64;
    for entry in entries {
        if (entry.clause.level as usize) < count {
            kept += 1;
        }
    }
    kept
}

// The clauses whose level is below `count`.
fn cut_own(alloc: Global, own: &mut Seq<Clause>, count: usize)
    ensures { own.new ≡ clauses_below count own.old }
{
    let mut clauses = mem::replace(own, Seq::new(alloc)).into_vec();
    clauses.retain(|clause| (clause.level as usize) < count);
    *own = Seq::from_vec(clauses);
}

// What a worker keeps where `count` levels stay.
fn cut_one(alloc: Global, worker: &mut Worker, entries: &[Entry], count: usize)
    ensures { worker.new ≡ cut_worker count entries.now worker.old }
{
    let read = entries.len().min(worker.mark as usize);
    worker.mark = kept_of(&entries[..read], count);
    cut_own(alloc, &mut worker.own, count);
}

// What all workers keep where `count` levels stay.
fn cut_workers(alloc: Global, workers: &mut [Worker], entries: &[Entry], count: usize)
    ensures { workers.new ≡ map (cut_worker count entries.now) workers.old }
{
    let mut i = 0;
    while i < workers.len() {
        cut_one(alloc, &mut workers[i], entries, count);
        i += 1;
    }
}

// Adds clauses at the end. For want of memory nothing changes.
fn extend_own(alloc: Global, own: &mut Seq<Clause>, mut more: Vec<Clause>) -> Result<(), AllocError>
    ensures ok { OnOk result (own.new ≡ own.old ++ more.items) }
    ensures err { OnErr result (own.new ≡ own.old) }
{
    let mut clauses = mem::replace(own, Seq::new(alloc)).into_vec();
    let extended = clauses.append(&mut more);
    *own = Seq::from_vec(clauses);
    extended
}

impl RaceState {
    fn is_running(&self, worker: u8) -> bool
        ensures { MatchBool result (IsRunning (state_of self.now) worker) (IsRunning (state_of self.now) worker → ⊥) }
    {
        let worker = worker as usize;
        worker < self.workers.len() && !self.workers[worker].ended
    }

    fn is_supported(&self, worker: u8, level: u16, premise: &Premise) -> bool
        requires { IsRunning (state_of self.now) worker }
        ensures { MatchBool result (Supports (state_of self.now) worker level premise.now) (Supports (state_of self.now) worker level premise.now → ⊥) }
    {
        match premise {
            Premise::Known(clause) => {
                clause.level <= level
                    && has_clause(self.workers[worker as usize].own.as_slice(), clause)
            }
            Premise::Asserted(at, place) => {
                *at <= level && *place < self.levels.asserted_at(*at) as u64
            }
        }
    }

    fn are_supported(&self, worker: u8, level: u16, premises: &[Premise]) -> bool
        requires { IsRunning (state_of self.now) worker }
        ensures { MatchBool result (All (Supports (state_of self.now) worker level) premises.now) (All (Supports (state_of self.now) worker level) premises.now → ⊥) }
    {
        let mut i = 0;
        while i < premises.len() {
            if !self.is_supported(worker, level, &premises[i]) {
                return false;
            }
            i += 1;
        }
        true
    }

    fn learn(
        &mut self,
        worker: u8,
        premises: Seq<Premise>,
        clause: Clause,
    ) -> Result<bool, AllocError>
        requires { Owes (state_of self.old) (Learn worker premises clause) }
        ensures tells { IfOk result (λ took. StepTells (state_of self.old) (Learn worker premises clause) took (state_of self.new)) }
        ensures err { OnErr result (state_of self.new ≡ state_of self.old) }
    {
        if !self.is_running(worker) || clause.level as usize >= self.levels.len() {
            return Ok(false);
        }
        if !self.are_supported(worker, clause.level, premises.as_slice()) {
            return Ok(false);
        }
        self.workers[worker as usize].own.push(clause)?;
        Ok(true)
    }

    fn share(&mut self, worker: u8, clause: Clause) -> Result<bool, AllocError>
        ensures tells { IfOk result (λ took. StepTells (state_of self.old) (Share worker clause) took (state_of self.new)) }
        ensures err { OnErr result (state_of self.new ≡ state_of self.old) }
    {
        if !self.is_running(worker) || self.entries.len() >= MOST_ENTRIES {
            return Ok(false);
        }
        if !has_clause(self.workers[worker as usize].own.as_slice(), &clause) {
            return Ok(false);
        }
        self.entries.push(Entry { clause, worker })?;
        Ok(true)
    }

    fn take_batch(&mut self, alloc: Global, worker: u8) -> Result<bool, AllocError>
        ensures tells { IfOk result (λ took. StepTells (state_of self.old) (TakeBatch worker) took (state_of self.new)) }
        ensures err { OnErr result (state_of self.new ≡ state_of self.old) }
    {
        if !self.is_running(worker) {
            return Ok(false);
        }
        let worker = &mut self.workers[worker as usize];
        let mark = self.entries.len().min(worker.mark as usize);
        let batch = copy_clauses(alloc, &self.entries[mark..])?;
        extend_own(alloc, &mut worker.own, batch)?;
        worker.mark = self.entries.len() as u64;
        Ok(true)
    }

    fn win(&mut self, worker: u8) -> bool
        ensures { StepTells (state_of self.old) (Win worker) result (state_of self.new) }
    {
        if !self.is_running(worker) || self.winner.is_some() {
            return false;
        }
        self.winner = Some(worker);
        true
    }

    fn end(&mut self, worker: u8) -> bool
        ensures { StepTells (state_of self.old) (End worker) result (state_of self.new) }
    {
        if !self.is_running(worker) {
            return false;
        }
        self.workers[worker as usize].ended = true;
        true
    }

    fn push(&mut self, alloc: Global, count: u16) -> Result<bool, AllocError>
        ensures tells { IfOk result (λ took. StepTells (state_of self.old) (Push count) took (state_of self.new)) }
        ensures err { OnErr result (state_of self.new ≡ state_of self.old) }
    {
        if self.levels.depth() > MOST_DEPTH - count as usize {
            return Ok(false);
        }
        self.levels.push(alloc, count)?;
        Ok(true)
    }

    fn pop(&mut self, alloc: Global, count: u16) -> bool
        ensures { StepTells (state_of self.old) (Pop count) result (state_of self.new) }
    {
        let count = count as usize;
        if count > self.levels.depth() {
            return false;
        }
        let kept = self.levels.len() - count;
        self.levels.cut(kept);
        cut_workers(
            alloc,
            self.workers.as_mut_slice(),
            self.entries.as_slice(),
            kept,
        );
        self.entries
            .retain(|entry| (entry.clause.level as usize) < kept);
        true
    }

    fn assert(&mut self, alloc: Global, addition: Addition) -> Result<bool, AllocError>
        requires { Owes (state_of self.old) (Assert addition) }
        ensures tells { IfOk result (λ took. StepTells (state_of self.old) (Assert addition) took (state_of self.new)) }
        ensures err { OnErr result (state_of self.new ≡ state_of self.old) }
    {
        if self.levels.len() == 0 || !self.levels.is_new(&addition) {
            return Ok(false);
        }
        self.levels.gain(alloc, addition, self.global)?;
        Ok(true)
    }

    /// Does what the event says, or answers false and changes nothing, exactly where a condition of it that can be tested doesn't hold.
    ///
    /// What can't be tested is owed by the caller: that a learnt clause is true wherever its premises are, with symbols of its levels, and that an assertion is a Bool term with the tree and the names that are given. An `Err`, for want of memory, changes nothing.
    pub fn step(&mut self, alloc: Global, event: Event) -> Result<bool, AllocError>
        requires { Owes (state_of self.old) event }
        ensures tells { IfOk result (λ took. StepTells (state_of self.old) event took (state_of self.new)) }
        ensures err { OnErr result (state_of self.new ≡ state_of self.old) }
    {
        match event {
            Event::Learn(worker, premises, clause) => self.learn(worker, premises, clause),
            Event::Share(worker, clause) => self.share(worker, clause),
            Event::TakeBatch(worker) => self.take_batch(alloc, worker),
            Event::Win(worker) => Ok(self.win(worker)),
            Event::End(worker) => Ok(self.end(worker)),
            Event::Push(count) => self.push(alloc, count),
            Event::Pop(count) => Ok(self.pop(alloc, count)),
            Event::Assert(addition) => self.assert(alloc, addition),
        }
    }
}
