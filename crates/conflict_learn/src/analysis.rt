//! Which steps of the trail a false clause comes from: each step seen either waits, to stay in the
//! learnt clause, or is resolved by its reason, a premise.
ghost use Rattle.std.specs.Prelude.{◌≡◌, ◌≢◌, ℕ, ◌+◌, ◌<◌, ◌≤◌, ◌⊎◌, ◌∷◌, ◌++◌, [], true, false, List, All, Contains, Option, Some, None, max, length, vec_len, count_by, slice_index_or, replicate, IfOk, OnOk};
ghost use Rattle.literals.specs.Signed.{Signed, opposite};
ghost use Rattle.clause_store.specs.Stored.{Kept};
ghost use Rattle.clause_store.specs.Found.{HasKept, HasLevel};
ghost use Rattle.conflict_learn.specs.declared.analysis.Mark.TheVariants.{Unseen};
ghost use Rattle.conflict_learn.specs.Analysing.{State, empty_state, step_at, mark_at, is_unseen, is_seen, is_waiting, seen, with_less, with_mark, with_premise, IsSound, IsFalseBelow, TakesIn, SeenAt, IsAt, IsOnly, IsGrounded};

use crate::reasons::{place_of, reason_literals, step};
use clause_store::store::Store;
use clause_store::trail::Step;
use literals::Literal;
use std::alloc::{AllocError, Global};
use std::marker::Model;

#[derive(Clone, Copy)]
pub enum Mark {
    Unseen,
    Waiting,
    Resolved,
}

#[derive(Drop)]
pub struct Analysis {
    marks: Vec<Mark>,
    lower: Vec<usize>,
    premises: Vec<u64>,
    deepest: u32,
    count: usize,
    level: u16,
}

impl Model for Analysis {
    ghost use Rattle.conflict_learn.specs.Analysing.{State};

    ghost Value = { State };

    ghost view = { λ a. record { marks = a.marks.items; lower = a.lower.items; premises = a.premises.items; deepest = a.deepest; count = a.count; level = a.level } };
}

fn is_unseen(mark: Mark) -> bool
    ensures { result ≡ is_unseen mark }
{
    match mark {
        Mark::Unseen => true,
        Mark::Waiting => false,
        Mark::Resolved => false,
    }
}

pub fn is_waiting(mark: Mark) -> bool
    ensures { result ≡ is_waiting mark }
{
    match mark {
        Mark::Unseen => false,
        Mark::Waiting => true,
        Mark::Resolved => false,
    }
}

// As many marks as there are steps, all unseen.
fn reset_marks(marks: &mut Vec<Mark>, count: usize) -> Result<(), AllocError>
    ensures { OnOk result (marks.new.items ≡ replicate count Unseen) }
{
    marks.truncate(count);
    hide(marks);
    while marks.len() < count {
        marks.push(Mark::Unseen)?;
    }
    Ok(())
}

// Makes each mark unseen.
fn hide(marks: &mut [Mark])
    ensures { marks.new ≡ replicate (length marks.old) Unseen }
{
    for mark in marks.iter_mut() {
        *mark = Mark::Unseen;
    }
}

fn is_it(but: &Option<Literal>, literal: Literal) -> bool
    ensures same { result ≡ true → but.now ≡ Some literal }
    ensures other { result ≡ false → but.now ≡ Some literal → ⊥ }
{
    match but {
        None => false,
        Some(other) => *other == literal,
    }
}

impl Analysis {
    pub fn new(alloc: Global) -> Analysis
        ensures { result ≡ empty_state 0 0 }
    {
        Analysis {
            marks: Vec::new(alloc),
            lower: Vec::new(alloc),
            premises: Vec::new(alloc),
            deepest: 0,
            count: 0,
            level: 0,
        }
    }

    // Nothing is seen of so many steps.
    pub fn clear(&mut self, count: usize, deepest: u32) -> Result<(), AllocError>
        ensures { OnOk result (self.new ≡ empty_state count deepest) }
    {
        reset_marks(&mut self.marks, count)?;
        self.lower.clear();
        self.premises.clear();
        self.deepest = deepest;
        self.count = 0;
        self.level = 0;
        Ok(())
    }

    pub fn deepest(&self) -> u32
        ensures { result ≡ self.now.deepest }
    {
        self.deepest
    }

    pub fn count(&self) -> usize
        ensures { result ≡ self.now.count }
    {
        self.count
    }

    pub fn uncount(&mut self)
        requires { 0 < self.old.count }
        ensures { self.new ≡ with_less self.old }
    {
        self.count -= 1;
    }

    pub fn mark_of(&self, place: usize) -> Mark
        requires { place < length self.now.marks }
        ensures { result ≡ mark_at self.now.marks place }
    {
        self.marks[place]
    }

    pub fn is_seen_at(&self, place: usize) -> bool
        requires { place < length self.now.marks }
    {
        !is_unseen(self.marks[place])
    }

    pub fn level(&self) -> u16
        ensures { result ≡ self.now.level }
    {
        self.level
    }

    pub fn premises(&self) -> &[u64]
        ensures { result.now ≡ self.now.premises }
    {
        &self.premises
    }

    pub fn lower_count(&self) -> usize
        ensures { result ≡ length self.now.lower }
    {
        self.lower.len()
    }

    pub fn lower_at(&self, j: usize) -> usize
        requires { j < length self.now.lower }
        ensures { (d : ℕ) → slice_index_or self.now.lower j d ≡ result }
    {
        self.lower[j]
    }

    // Lets the step at this place wait, unless it was seen.
    fn see(&mut self, store: &Store, place: usize) -> Result<(), AllocError>
        requires room { length self.old.marks ≡ length store.now.trail.steps }
        requires within { place < length store.now.trail.steps }
        requires few { self.old.count + count_by is_unseen self.old.marks ≤ length store.now.trail.steps }
        ensures { OnOk result (self.new ≡ seen store.now.trail.steps place self.old) }
    {
        if !is_unseen(self.marks[place]) {
            return Ok(());
        }
        if step(store, place).depth == self.deepest {
            self.count += 1;
        } else {
            self.lower.push(place)?;
        }
        self.marks[place] = Mark::Waiting;
        Ok(())
    }

    // Counts a kept clause as a premise.
    fn add_premise(&mut self, store: &Store, id: u64) -> Result<(), AllocError>
        requires { HasKept store.now.clauses id (λ ls. Unit {0}) }
        ensures { OnOk result ((level : ℕ) × HasLevel store.now.clauses id level × (self.new ≡ with_premise id (max self.old.level level) self.old)) }
    {
        let level = store.level(id);
        self.premises.push(id)?;
        if level > self.level {
            self.level = level;
        }
        Ok(())
    }

    // Sees the steps by which the literals of a kept clause are false, but for one of them.
    pub fn take_in(
        &mut self,
        store: &Store,
        id: u64,
        literals: &[Literal],
        below: usize,
        but: Option<Literal>,
    ) -> Result<(), AllocError>
        requires sound { IsSound store.now.clauses store.now.trail.steps self.old }
        requires within { below ≤ length store.now.trail.steps }
        requires kept { HasKept store.now.clauses id (λ ls. literals.now ≡ ls) }
        requires others { All (λ m. (but ≡ Some m) ⊎ IsFalseBelow store.now.trail.steps below self.old.deepest m) literals.now }
        ensures { OnOk result (TakesIn store.now.clauses store.now.trail.steps id below but self.old self.new) }
    {
        let _steps = store.steps();
        let depth = self.deepest();
        self.add_premise(store, id)?;
        for literal in literals {
            if !is_it(&but, *literal) {
                let place = place_of(store, below, depth, *literal);
                self.see(store, place)?;
            }
        }
        Ok(())
    }

    pub fn mark(&mut self, place: usize, mark: Mark)
        requires { place < length self.old.marks }
        ensures { self.new ≡ with_mark place mark self.old }
    {
        self.marks[place] = mark;
    }
}
