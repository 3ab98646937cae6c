//! Kept clauses, and the literals that are decided or follow from them, by two watched literals a
//! clause; and how often a clause was looked at.
ghost use Rattle.std.specs.List.Sorted.{IsNonDecreasingBy};
ghost use Rattle.std.specs.Prelude.{◌≡◌, ℕ, ◌+◌, ◌^◌, ◌<◌, ◌≤◌, true, false, List, [], ◌∷◌, ◌++◌, All, IfSome, IfNone, IfOk, drop, OnOk, OnErr, Some, length, max, min, slice_index_or};
ghost use Rattle.clause_store.specs.Trail.{Assigns, IsOpen, StatusOf, up_to};
ghost use Rattle.clause_store.specs.Each.{EachAfter};
ghost use Rattle.clause_store.specs.TrailInvariant.{IsFresh, IsDecided};
ghost use Rattle.literals.specs.Signed.{Signed, opposite};
ghost use Rattle.clause_store.specs.Stored.{Kept, HaveOwnIds, IsJustified, without, up_to_level};
ghost use Rattle.clause_store.specs.Found.{HasKept, HasLevel};
ghost use Rattle.clause_store.specs.Entries.{risen};
ghost use Rattle.clause_store.specs.Looks.{AddsClause, PropagatesTo};

use crate::choose::{keep_up, make_room};
use crate::cut::{cut_to, wait_singles};
use crate::empty::still_empty;
use crate::lists::{WatchList, make_lists};
use crate::rows::{Looked, Rows};
use crate::run::{Reached, drive};
use crate::store::Outcome;
use crate::trail::{Status, Step, Trail};
use crate::waits::{Wait, drop_from, drop_of, make_room_to_wait};
use literals::Literal;
use std::alloc::{AllocError, Global};
use std::marker::Model;

#[derive(Drop)]
pub struct CountedStore {
    alloc: Global,
    rows: Rows,
    lists: Vec<WatchList>,
    spare: WatchList,
    trail: Trail,
    head: usize,
    waiting: Vec<Wait>,
    // a kept clause without literals, where there is one
    empty: Option<u32>,
}

impl Model for CountedStore {
    ghost use Rattle.std.specs.Prelude.{vec_capacity};
    ghost use Rattle.clause_store.specs.Looks.{Counted};

    ghost Value = { Counted };

    ghost use Rattle.clause_store.specs.Watching.{kept_from};
    ghost use Rattle.clause_store.specs.Keeping.{IsRoomy};

    ghost view = { λ s. record { stored = record { clauses = kept_from 0 s.rows.entries; trail = s.trail }; looks = s.rows.looks; settled = s.head } };

    ghost invariant = { λ s. IsRoomy s.rows.entries s.lists.items s.trail s.head s.waiting.items (vec_capacity s.waiting) s.empty };
}

fn least(a: usize, b: usize) -> usize
    ensures { result ≡ min a b }
{
    if a < b { a } else { b }
}

impl CountedStore {
    // Propagates by watches, where each clause has literals.
    fn by_watches(&mut self) -> Outcome
        requires { (id : ℕ) → HasKept self.old.stored.clauses id (λ ls. ls ≡ []) → ⊥ }
        ensures { PropagatesTo self.old self.new result }
    {
        let (reached, head) = drive(
            &mut self.rows,
            &mut self.lists,
            &mut self.spare,
            &mut self.trail,
            &mut self.waiting,
            self.head,
        );
        self.head = head;
        match reached {
            Reached::Fixpoint => {
                drop_from(&mut self.waiting, self.trail.depth());
                Outcome::Fixpoint
            }
            Reached::False(row) => Outcome::False(row as u64),
        }
    }

    pub fn propagate(&mut self) -> Outcome
        ensures { PropagatesTo self.old self.new result }
    {
        match self.empty {
            Some(row) => Outcome::False(row as u64),
            None => self.by_watches(),
        }
    }

    pub fn decide(&mut self, literal: Literal)
        requires known { literal.atom < self.old.stored.trail.atoms }
        requires is_open { IsOpen self.old.stored.trail.steps literal }
        requires room { self.old.stored.trail.depth + 1 < 2 ^ 32 }
        ensures decided { let step : Step = record { literal = literal; depth = self.old.stored.trail.depth + 1; reason = None } in self.new.stored ≡ record self.old.stored { trail = record { steps = self.old.stored.trail.steps ++ step ∷ []; atoms = self.old.stored.trail.atoms; depth = self.old.stored.trail.depth + 1 } } }
        ensures settled { self.new.settled ≡ self.old.settled }
        ensures looks { self.new.looks ≡ self.old.looks }
    {
        self.trail.decide(literal);
    }

    pub fn undo_to(&mut self, depth: u32)
        requires { depth ≤ self.old.stored.trail.depth }
        ensures undone { self.new.stored ≡ record self.old.stored { trail = record { steps = up_to depth self.old.stored.trail.steps; atoms = self.old.stored.trail.atoms; depth = depth } } }
        ensures front { (rest : List Step) × (self.old.stored.trail.steps ≡ self.new.stored.trail.steps ++ rest) }
        ensures settled { self.new.settled ≡ min self.old.settled (length self.new.stored.trail.steps) }
        ensures looks { self.new.looks ≡ self.old.looks }
    {
        let before = self.trail.depth();
        self.trail.undo_to(depth);
        if depth >= before {
            return;
        }
        drop_from(&mut self.waiting, depth + 1);
        self.head = least(self.head, self.trail.steps().len());
    }

    // Adds a clause without literals.
    fn add_empty(&mut self, literals: &[Literal], level: u16) -> Result<u64, AllocError>
        requires none { literals.now ≡ [] }
        ensures { AddsClause self.old self.new literals.now level result }
    {
        let row = self.rows.len();
        if row + 1 >= 1 << 32 {
            return Err(AllocError);
        }
        if !make_room_to_wait(&mut self.waiting, row + 1) {
            return Err(AllocError);
        }
        let zero = Literal::new(0, true);
        match self.rows.push(literals, zero, zero, level) {
            Err(_) => Err(AllocError),
            Ok(()) => {
                self.empty = Some(row as u32);
                Ok(row as u64)
            }
        }
    }

    fn add_watched(&mut self, literals: &[Literal], level: u16) -> Result<u64, AllocError>
        requires some { 0 < length literals.now }
        requires known { All (λ (l : Signed). l.atom < self.old.stored.trail.atoms) literals.now }
        ensures { AddsClause self.old self.new literals.now level result }
    {
        let row = self.rows.len();
        if row + 1 >= 1 << 32 {
            return Err(AllocError);
        }
        // each clause may wait once decisions are undone
        if !make_room_to_wait(&mut self.waiting, row + 1) {
            return Err(AllocError);
        }
        if !make_room(&mut self.lists, literals) {
            return Err(AllocError);
        }
        keep_up(
            &mut self.rows,
            &mut self.lists,
            &self.trail,
            &mut self.waiting,
            literals,
            level,
        )?;
        Ok(row as u64)
    }

    pub fn add(&mut self, literals: &[Literal], level: u16) -> Result<u64, AllocError>
        requires known { All (λ (l : Signed). l.atom < self.old.stored.trail.atoms) literals.now }
        ensures { AddsClause self.old self.new literals.now level result }
    {
        if literals.is_empty() {
            return self.add_empty(literals, level);
        }
        self.add_watched(literals, level)
    }

    pub fn new(alloc: Global) -> CountedStore
        ensures { result ≡ record { stored = record { clauses = []; trail = record { steps = []; atoms = 0; depth = 0 } }; looks = 0; settled = 0 } }
    {
        CountedStore {
            alloc,
            rows: Rows::new(alloc),
            lists: Vec::new(alloc),
            spare: WatchList::new(alloc),
            trail: Trail::new(alloc),
            head: 0,
            waiting: Vec::new(alloc),
            empty: None,
        }
    }

    // Knows so many atoms; no other call takes memory but `add`.
    pub fn reserve(&mut self, atoms: u32) -> Result<(), AllocError>
        ensures reserved { OnOk result (self.new.stored ≡ record self.old.stored { trail = record { steps = self.old.stored.trail.steps; atoms = max self.old.stored.trail.atoms atoms; depth = self.old.stored.trail.depth } }) }
        ensures same { OnErr result (self.new.stored ≡ self.old.stored) }
        ensures settled { self.new.settled ≡ self.old.settled }
        ensures looks { self.new.looks ≡ self.old.looks }
    {
        make_lists(self.alloc, &mut self.lists, atoms)?;
        self.trail.reserve(atoms)?;
        Ok(())
    }

    // How many atoms it knows.
    pub fn atoms(&self) -> u32
        ensures atoms { result ≡ self.now.stored.trail.atoms }
        ensures few { result ≤ 2 ^ 31 }
    {
        self.trail.atoms()
    }

    // The id that the next clause gets.
    pub fn next_id(&self) -> u64
        ensures { All (λ (c : Kept). c.id < result) self.now.stored.clauses }
    {
        self.rows.len() as u64
    }

    // The number of decisions.
    pub fn depth(&self) -> u32
        ensures { result ≡ self.now.stored.trail.depth }
    {
        self.trail.depth()
    }

    pub fn status(&self, literal: Literal) -> Status
        requires { literal.atom < self.now.stored.trail.atoms }
        ensures { StatusOf self.now.stored.trail.steps literal result }
    {
        self.trail.status(literal)
    }

    // How many steps more there is room for, where a literal is open.
    pub fn room(&self, literal: Literal) -> usize
        requires known { literal.atom < self.now.stored.trail.atoms }
        requires is_open { IsOpen self.now.stored.trail.steps literal }
        ensures steps { length self.now.stored.trail.steps + result ≡ self.now.stored.trail.atoms }
        ensures room { 0 < result }
    {
        self.trail.room(literal)
    }

    // Where on the trail a literal stands.
    pub fn place(&self, literal: Literal) -> usize
        requires known { literal.atom < self.now.stored.trail.atoms }
        requires assigned { Assigns self.now.stored.trail.steps literal }
        ensures within { result < length self.now.stored.trail.steps }
        ensures literal { (d : Step) → (slice_index_or self.now.stored.trail.steps result d).literal ≡ literal }
    {
        self.trail.place(literal)
    }

    pub fn steps(&self) -> &[Step]
        ensures steps { result.now ≡ self.now.stored.trail.steps }
        ensures known { All (λ (s : Step). s.literal.atom < self.now.stored.trail.atoms) self.now.stored.trail.steps }
        ensures room { length self.now.stored.trail.steps ≤ self.now.stored.trail.atoms }
        ensures justified { EachAfter (IsJustified self.now.stored.clauses) self.now.stored.trail.steps }
        ensures unique { HaveOwnIds self.now.stored.clauses }
        ensures fresh { EachAfter IsFresh self.now.stored.trail.steps }
        ensures decided { EachAfter IsDecided self.now.stored.trail.steps }
        ensures consistent { (l : Signed) → Assigns self.now.stored.trail.steps l → Assigns self.now.stored.trail.steps (opposite l) → ⊥ }
        ensures in_order { IsNonDecreasingBy (λ (s : Step). s.depth) self.now.stored.trail.steps }
        ensures deepest { All (λ (s : Step). s.depth ≤ self.now.stored.trail.depth) self.now.stored.trail.steps }
    {
        self.trail.steps()
    }

    pub fn is_kept(&self, id: u64) -> bool
        ensures yes { result ≡ true → HasKept self.now.stored.clauses id (λ ls. Unit {0}) }
        ensures no { result ≡ false → HasKept self.now.stored.clauses id (λ ls. Unit {0}) → ⊥ }
    {
        if id >= self.rows.len() as u64 {
            return false;
        }
        self.rows.is_live(id as u32)
    }

    pub fn level(&self, id: u64) -> u16
        requires { HasKept self.now.stored.clauses id (λ ls. Unit {0}) }
        ensures { HasLevel self.now.stored.clauses id result }
    {
        self.rows.level(id as u32)
    }

    // How many literals a kept clause has.
    pub fn size(&self, id: u64) -> usize
        requires { HasKept self.now.stored.clauses id (λ ls. Unit {0}) }
        ensures { HasKept self.now.stored.clauses id (λ ls. result ≡ length ls) }
    {
        self.rows.size(id as u32)
    }

    // Looks at a kept clause, which is the one way to its literals.
    pub fn look(&mut self, id: u64) -> Looked
        requires { HasKept self.old.stored.clauses id (λ ls. Unit {0}) }
        ensures same { self.new.stored ≡ self.old.stored }
        ensures looks { self.new.looks ≡ risen self.old.looks }
        ensures clause { result ≡ id }
    {
        self.rows.look(id as u32)
    }

    // The literals of a kept clause that is looked at.
    pub fn literals(&self, looked: Looked) -> &[Literal]
        requires { HasKept self.now.stored.clauses looked (λ ls. Unit {0}) }
        ensures { HasKept self.now.stored.clauses looked (λ ls. result.now ≡ ls) }
    {
        self.rows.literals(looked)
    }

    // How often a clause was looked at; it stands still at its greatest value.
    pub fn looks(&self) -> u64
        ensures { result ≡ self.now.looks }
    {
        self.rows.looks()
    }

    // How many steps propagation has gone through.
    pub fn settled(&self) -> usize
        ensures { result ≡ self.now.settled }
    {
        self.head
    }

    fn row_of(&self, id: u64) -> u32
        requires { HasKept self.now.stored.clauses id (λ ls. Unit {0}) }
        ensures { result ≡ id }
    {
        let _rows = self.rows.len();
        id as u32
    }

    // Keeps a clause no longer.
    pub fn forget(&mut self, id: u64)
        requires kept { HasKept self.old.stored.clauses id (λ ls. Unit {0}) }
        requires unused { All (λ (s : Step). s.reason ≡ Some id → ⊥) self.old.stored.trail.steps }
        ensures forgotten { self.new.stored ≡ record self.old.stored { clauses = without id self.old.stored.clauses } }
        ensures settled { self.new.settled ≡ self.old.settled }
        ensures looks { self.new.looks ≡ self.old.looks }
    {
        let row = self.row_of(id);
        self.rows.forget(row);
        drop_of(&mut self.waiting, row);
        self.empty = still_empty(&self.rows, self.empty);
    }

    // Takes back all steps, and keeps the clauses up to this level.
    pub fn cut_to(&mut self, level: i32)
        ensures settled { self.new.settled ≡ 0 }
        ensures cut { self.new.stored ≡ record { clauses = up_to_level level self.old.stored.clauses; trail = record { steps = []; atoms = self.old.stored.trail.atoms; depth = 0 } } }
        ensures looks { self.new.looks ≡ self.old.looks }
    {
        self.trail.clear();
        cut_to(&mut self.rows, level);
        self.waiting.clear();
        self.head = 0;
        self.empty = still_empty(&self.rows, self.empty);
        wait_singles(&self.rows, &mut self.waiting);
    }
}
