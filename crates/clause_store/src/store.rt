//! Kept clauses, and the literals that are decided or follow from them, whatever the count of looks
//! at clauses.
ghost use Rattle.std.specs.List.Sorted.{IsNonDecreasingBy};
ghost use Rattle.std.specs.Prelude.{◌≡◌, ℕ, ◌+◌, ◌^◌, ◌<◌, ◌≤◌, true, false, List, [], ◌∷◌, ◌++◌, All, IfOk, OnOk, OnErr, Some, length, max, slice_index_or};
ghost use Rattle.clause_store.specs.Trail.{Assigns, IsOpen, StatusOf, up_to};
ghost use Rattle.clause_store.specs.Each.{EachAfter};
ghost use Rattle.clause_store.specs.TrailInvariant.{IsFresh, IsDecided};
ghost use Rattle.literals.specs.Signed.{Signed, opposite};
ghost use Rattle.clause_store.specs.Stored.{Kept, HaveOwnIds, IsJustified, Propagated, without, up_to_level};
ghost use Rattle.clause_store.specs.Found.{HasKept, HasLevel, Outcomes};

use crate::counted::CountedStore;
use crate::rows::Looked;
use crate::trail::{Status, Step};
use literals::Literal;
use std::alloc::{AllocError, Global};
use std::marker::Model;

// What propagation ends with: nothing left to follow, or a kept clause, by its id, all of whose literals are false.
#[derive(Clone, Copy)]
pub enum Outcome {
    Fixpoint,
    False(u64),
}

#[derive(Drop)]
pub struct Store {
    counted: CountedStore,
}

impl Model for Store {
    ghost use Rattle.clause_store.specs.Stored.{Stored};

    ghost Value = { Stored };

    ghost view = { λ s. s.counted.stored };
}

impl Store {
    pub fn propagate(&mut self) -> Outcome
        ensures reached { Propagated self.old self.new }
        ensures outcome { Outcomes self.new.trail.steps self.new.clauses result }
    {
        self.counted.propagate()
    }

    pub fn decide(&mut self, literal: Literal)
        requires known { literal.atom < self.old.trail.atoms }
        requires is_open { IsOpen self.old.trail.steps literal }
        requires room { self.old.trail.depth + 1 < 2 ^ 32 }
        ensures { let step : Step = record { literal = literal; depth = self.old.trail.depth + 1; reason = None } in self.new ≡ record self.old { trail = record { steps = self.old.trail.steps ++ step ∷ []; atoms = self.old.trail.atoms; depth = self.old.trail.depth + 1 } } }
    {
        self.counted.decide(literal);
    }

    pub fn undo_to(&mut self, depth: u32)
        requires { depth ≤ self.old.trail.depth }
        ensures undone { self.new ≡ record self.old { trail = record { steps = up_to depth self.old.trail.steps; atoms = self.old.trail.atoms; depth = depth } } }
        ensures front { (rest : List Step) × (self.old.trail.steps ≡ self.new.trail.steps ++ rest) }
    {
        self.counted.undo_to(depth);
    }

    pub fn add(&mut self, literals: &[Literal], level: u16) -> Result<u64, AllocError>
        requires known { All (λ (l : Signed). l.atom < self.old.trail.atoms) literals.now }
        ensures added { IfOk result (λ id. let kept : Kept = record { id = id; literals = literals.now; level = level } in self.new ≡ record self.old { clauses = self.old.clauses ++ kept ∷ [] }) }
        ensures same { OnErr result (self.new ≡ self.old) }
    {
        self.counted.add(literals, level)
    }

    pub fn new(alloc: Global) -> Store
        ensures { result ≡ record { clauses = []; trail = record { steps = []; atoms = 0; depth = 0 } } }
    {
        Store {
            counted: CountedStore::new(alloc),
        }
    }

    // Knows so many atoms; no other call takes memory but `add`.
    pub fn reserve(&mut self, atoms: u32) -> Result<(), AllocError>
        ensures reserved { OnOk result (self.new ≡ record self.old { trail = record { steps = self.old.trail.steps; atoms = max self.old.trail.atoms atoms; depth = self.old.trail.depth } }) }
        ensures same { OnErr result (self.new ≡ self.old) }
    {
        self.counted.reserve(atoms)
    }

    // How many atoms it knows.
    pub fn atoms(&self) -> u32
        ensures atoms { result ≡ self.now.trail.atoms }
        ensures few { result ≤ 2 ^ 31 }
    {
        self.counted.atoms()
    }

    // The id that the next clause gets.
    pub fn next_id(&self) -> u64
        ensures { All (λ (c : Kept). c.id < result) self.now.clauses }
    {
        self.counted.next_id()
    }

    // The number of decisions.
    pub fn depth(&self) -> u32
        ensures { result ≡ self.now.trail.depth }
    {
        self.counted.depth()
    }

    pub fn status(&self, literal: Literal) -> Status
        requires { literal.atom < self.now.trail.atoms }
        ensures { StatusOf self.now.trail.steps literal result }
    {
        self.counted.status(literal)
    }

    // How many steps more there is room for, where a literal is open.
    pub fn room(&self, literal: Literal) -> usize
        requires known { literal.atom < self.now.trail.atoms }
        requires is_open { IsOpen self.now.trail.steps literal }
        ensures steps { length self.now.trail.steps + result ≡ self.now.trail.atoms }
        ensures room { 0 < result }
    {
        self.counted.room(literal)
    }

    // Where on the trail a literal stands.
    pub fn place(&self, literal: Literal) -> usize
        requires known { literal.atom < self.now.trail.atoms }
        requires assigned { Assigns self.now.trail.steps literal }
        ensures within { result < length self.now.trail.steps }
        ensures literal { (d : Step) → (slice_index_or self.now.trail.steps result d).literal ≡ literal }
    {
        self.counted.place(literal)
    }

    pub fn steps(&self) -> &[Step]
        ensures steps { result.now ≡ self.now.trail.steps }
        ensures known { All (λ (s : Step). s.literal.atom < self.now.trail.atoms) self.now.trail.steps }
        ensures room { length self.now.trail.steps ≤ self.now.trail.atoms }
        ensures justified { EachAfter (IsJustified self.now.clauses) self.now.trail.steps }
        ensures unique { HaveOwnIds self.now.clauses }
        ensures fresh { EachAfter IsFresh self.now.trail.steps }
        ensures decided { EachAfter IsDecided self.now.trail.steps }
        ensures consistent { (l : Signed) → Assigns self.now.trail.steps l → Assigns self.now.trail.steps (opposite l) → ⊥ }
        ensures in_order { IsNonDecreasingBy (λ (s : Step). s.depth) self.now.trail.steps }
        ensures deepest { All (λ (s : Step). s.depth ≤ self.now.trail.depth) self.now.trail.steps }
    {
        self.counted.steps()
    }

    pub fn is_kept(&self, id: u64) -> bool
        ensures yes { result ≡ true → HasKept self.now.clauses id (λ ls. Unit {0}) }
        ensures no { result ≡ false → HasKept self.now.clauses id (λ ls. Unit {0}) → ⊥ }
    {
        self.counted.is_kept(id)
    }

    pub fn level(&self, id: u64) -> u16
        requires { HasKept self.now.clauses id (λ ls. Unit {0}) }
        ensures { HasLevel self.now.clauses id result }
    {
        self.counted.level(id)
    }

    // How many literals a kept clause has.
    pub fn size(&self, id: u64) -> usize
        requires { HasKept self.now.clauses id (λ ls. Unit {0}) }
        ensures { HasKept self.now.clauses id (λ ls. result ≡ length ls) }
    {
        self.counted.size(id)
    }

    // Looks at a kept clause, which is the one way to its literals.
    pub fn look(&mut self, id: u64) -> Looked
        requires { HasKept self.old.clauses id (λ ls. Unit {0}) }
        ensures same { self.new ≡ self.old }
        ensures clause { result ≡ id }
    {
        self.counted.look(id)
    }

    // The literals of a kept clause that is looked at.
    pub fn literals(&self, looked: Looked) -> &[Literal]
        requires { HasKept self.now.clauses looked (λ ls. Unit {0}) }
        ensures { HasKept self.now.clauses looked (λ ls. result.now ≡ ls) }
    {
        self.counted.literals(looked)
    }

    // How often a clause was looked at; it stands still at its greatest value.
    pub fn looks(&self) -> u64 {
        self.counted.looks()
    }

    // Keeps a clause no longer.
    pub fn forget(&mut self, id: u64)
        requires kept { HasKept self.old.clauses id (λ ls. Unit {0}) }
        requires unused { All (λ (s : Step). s.reason ≡ Some id → ⊥) self.old.trail.steps }
        ensures { self.new ≡ record self.old { clauses = without id self.old.clauses } }
    {
        self.counted.forget(id);
    }

    // Takes back all steps, and keeps the clauses up to this level.
    pub fn cut_to(&mut self, level: i32)
        ensures { self.new ≡ record { clauses = up_to_level level self.old.clauses; trail = record { steps = []; atoms = self.old.trail.atoms; depth = 0 } } }
    {
        self.counted.cut_to(level);
    }
}
