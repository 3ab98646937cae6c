//! The literals decided or reached, in order, and the truth value that each atom has by them.
ghost use Rattle.std.specs.Prelude.{◌≡◌, ℕ, true, false, ◌+◌, ◌^◌, ◌<◌, ◌≤◌, Some, List, [], ◌∷◌, ◌++◌, All, take, length, max, vec_len, vec_capacity, slice_set, slice_index_or, OnOk, OnErr};
ghost use Rattle.clause_store.specs.Trail.{Assigned, IsOpen, IsTrueOn, MarkOf, Assigns, StatusOf, up_to, mark_of};
ghost use Rattle.literals.specs.Signed.{Signed, opposite};
ghost use Rattle.clause_store.specs.Each.{EachAfter};
ghost use Rattle.clause_store.specs.From.{IsFrom};
ghost use Rattle.clause_store.specs.TrailInvariant.{IsFresh, IsDecided, Agrees, IsPlaced};
ghost use Rattle.std.specs.List.Sorted.{IsNonDecreasingBy};

use literals::Literal;
use std::alloc::{AllocError, Global};
use std::marker::Model;

#[derive(Clone, Copy)]
pub struct Step {
    pub literal: Literal,
    pub depth: u32,
    pub reason: Option<u64>,
}

#[derive(Clone, Copy, PartialEq, Eq)]
pub enum Mark {
    Open,
    Positive,
    Negative,
}

#[derive(Clone, Copy)]
pub enum Status {
    Open,
    True,
    False,
}

#[derive(Drop)]
pub struct Trail {
    steps: Vec<Step>,
    // the truth of each atom
    marks: Vec<Mark>,
    // where its step stands, if it has one
    places: Vec<u32>,
    depth: u32,
}

impl Model for Trail {
    ghost use Rattle.clause_store.specs.Assigned.{Assigned};

    ghost Value = { Assigned };

    ghost use Rattle.std.specs.Prelude.{length};
    ghost use Rattle.clause_store.specs.TrailInvariant.{IsKept};

    ghost view = { λ t. record { steps = t.steps.items; atoms = length t.marks.items; depth = t.depth } };

    ghost invariant = { IsKept };
}

// Puts a step at the end, where there is room for it.
fn push_within(steps: &mut Vec<Step>, step: Step)
    requires { vec_len steps.old < vec_capacity steps.old }
    ensures items { steps.new.items ≡ steps.old.items ++ step ∷ [] }
    ensures room { vec_capacity steps.old ≤ vec_capacity steps.new }
{
    let pushed = steps.push(step);
    prove!(pushed.is_ok());
}

fn mark_of(literal: Literal) -> Mark
    ensures { result ≡ mark_of literal }
{
    if literal.is_positive() {
        Mark::Positive
    } else {
        Mark::Negative
    }
}

fn status_by(mark: Mark, literal: Literal) -> Status
    ensures { (steps : List Step) → MarkOf steps literal.atom mark → StatusOf steps literal result }
{
    match mark {
        Mark::Open => Status::Open,
        Mark::Positive => if literal.is_positive() {
            Status::True
        } else {
            Status::False
        },
        Mark::Negative => if literal.is_positive() {
            Status::False
        } else {
            Status::True
        },
    }
}

fn is_same(a: Mark, b: Mark) -> bool
    ensures yes { result ≡ true → a ≡ b }
    ensures no { result ≡ false → a ≡ b → ⊥ }
{
    a == b
}

// Whether a literal has the truth that its atom is marked with: one comparison, whatever its sign.
fn has_mark(mark: Mark, literal: Literal) -> bool
    ensures yes { result ≡ true → (steps : List Step) → MarkOf steps literal.atom mark → IsTrueOn steps literal }
    ensures no { result ≡ false → (steps : List Step) → MarkOf steps literal.atom mark → Assigns steps literal → ⊥ }
{
    is_same(mark, mark_of(literal))
}

fn put_place(places: &mut Vec<u32>, atom: u32, place: usize)
    requires within { atom < vec_len places.old }
    requires small { place < 2 ^ 32 }
    ensures { places.new.items ≡ slice_set places.old.items atom place }
{
    places[atom as usize] = place as u32;
}

// One more atom, which is open, where there is room for it.
fn push_open(marks: &mut Vec<Mark>, places: &mut Vec<u32>)
    requires marks { vec_len marks.old < vec_capacity marks.old }
    requires places { vec_len places.old < vec_capacity places.old }
    ensures marks { marks.new.items ≡ marks.old.items ++ Mark.Open ∷ [] }
    ensures places { places.new.items ≡ places.old.items ++ 0 ∷ [] }
    ensures room { (vec_capacity marks.old ≤ vec_capacity marks.new) × (vec_capacity places.old ≤ vec_capacity places.new) }
{
    let marked = marks.push(Mark::Open);
    prove!(marked.is_ok());
    let placed = places.push(0);
    prove!(placed.is_ok());
}

// Atoms up to this number, where there is room for them.
fn open_up_to(marks: &mut Vec<Mark>, places: &mut Vec<u32>, atoms: usize)
    requires few { vec_len marks.old ≤ atoms }
    requires even { vec_len places.old ≡ vec_len marks.old }
    requires marks { atoms ≤ vec_capacity marks.old }
    requires places { atoms ≤ vec_capacity places.old }
    ensures count { vec_len marks.new ≡ atoms }
    ensures agrees { (steps : List Step) (depth : ℕ) → Agrees steps marks.old.items depth → Agrees steps marks.new.items depth }
    ensures placed { (steps : List Step) (depth : ℕ) → Agrees steps marks.old.items depth → IsPlaced steps places.old.items (vec_len marks.old) → IsPlaced steps places.new.items atoms }
{
    while marks.len() < atoms {
        push_open(marks, places);
    }
}

impl Trail {
    pub fn new(alloc: Global) -> Trail
        ensures { result ≡ record { steps = []; atoms = 0; depth = 0 } }
    {
        Trail {
            steps: Vec::new(alloc),
            marks: Vec::new(alloc),
            places: Vec::new(alloc),
            depth: 0,
        }
    }

    // Knows so many atoms, with room for a step of each.
    pub fn reserve(&mut self, atoms: u32) -> Result<(), AllocError>
        ensures reserved { OnOk result (self.new ≡ record { steps = self.old.steps; atoms = max self.old.atoms atoms; depth = self.old.depth }) }
        ensures same { OnErr result (self.new ≡ self.old) }
    {
        let known = self.marks.len();
        let wanted = atoms as usize;
        if wanted <= known {
            return Ok(());
        }
        if wanted > 1 << 31 {
            return Err(AllocError);
        }
        self.marks.reserve(wanted - known)?;
        self.places.reserve(wanted - known)?;
        self.steps.reserve(wanted - self.steps.len())?;
        open_up_to(&mut self.marks, &mut self.places, wanted);
        Ok(())
    }

    // Where a literal stands.
    pub fn place(&self, literal: Literal) -> usize
        requires known { literal.atom < self.now.atoms }
        requires assigned { Assigns self.now.steps literal }
        ensures within { result < length self.now.steps }
        ensures literal { (d : Step) → (slice_index_or self.now.steps result d).literal ≡ literal }
    {
        self.places[literal.atom() as usize] as usize
    }

    // The depth of a literal's step.
    pub fn depth_of(&self, literal: Literal) -> u32
        requires known { literal.atom < self.now.atoms }
        requires assigned { Assigns self.now.steps literal }
        ensures { IsFrom self.now.steps literal result }
    {
        let steps = self.steps();
        let place = self.place(literal);
        steps[place].depth
    }

    // Takes away all steps.
    pub fn clear(&mut self)
        ensures { self.new ≡ record { steps = []; atoms = self.old.atoms; depth = 0 } }
    {
        'clear: while self.steps.len() > 0 {
            self.drop_last();
        }
        self.depth = 0;
    }

    pub fn status(&self, literal: Literal) -> Status
        requires { literal.atom < self.now.atoms }
        ensures { StatusOf self.now.steps literal result }
    {
        status_by(self.marks[literal.atom() as usize], literal)
    }

    pub fn atoms(&self) -> u32
        ensures atoms { result ≡ self.now.atoms }
        ensures few { result ≤ 2 ^ 31 }
    {
        self.marks.len() as u32
    }

    pub fn is_true(&self, literal: Literal) -> bool
        requires { literal.atom < self.now.atoms }
        ensures yes { result ≡ true → IsTrueOn self.now.steps literal }
        ensures no { result ≡ false → Assigns self.now.steps literal → ⊥ }
    {
        has_mark(self.marks[literal.atom() as usize], literal)
    }

    // The atom of an open literal leaves room for a step.
    pub fn room(&self, literal: Literal) -> usize
        requires known { literal.atom < self.now.atoms }
        requires is_open { IsOpen self.now.steps literal }
        ensures steps { length self.now.steps + result ≡ self.now.atoms }
        ensures room { 0 < result }
    {
        let _mark = self.marks[literal.atom() as usize];
        self.marks.len() - self.steps.len()
    }

    pub fn depth(&self) -> u32
        ensures { result ≡ self.now.depth }
    {
        self.depth
    }

    pub fn steps(&self) -> &[Step]
        ensures steps { result.now ≡ self.now.steps }
        ensures known { All (λ (s : Step). s.literal.atom < self.now.atoms) self.now.steps }
        ensures room { length self.now.steps ≤ self.now.atoms }
        ensures fresh { EachAfter IsFresh self.now.steps }
        ensures decided { EachAfter IsDecided self.now.steps }
        ensures consistent { (l : Signed) → Assigns self.now.steps l → Assigns self.now.steps (opposite l) → ⊥ }
        ensures in_order { IsNonDecreasingBy (λ (s : Step). s.depth) self.now.steps }
        ensures deepest { All (λ (s : Step). s.depth ≤ self.now.depth) self.now.steps }
    {
        &self.steps
    }

    pub fn assign(&mut self, literal: Literal, reason: u64)
        requires known { literal.atom < self.old.atoms }
        requires is_open { IsOpen self.old.steps literal }
        ensures room { length self.old.steps < self.old.atoms }
        ensures steps { let step : Step = record { literal = literal; depth = self.old.depth; reason = Some reason } in self.new ≡ record self.old { steps = self.old.steps ++ step ∷ [] } }
    {
        let mark = mark_of(literal);
        put_place(&mut self.places, literal.atom(), self.steps.len());
        push_within(
            &mut self.steps,
            Step {
                literal,
                depth: self.depth,
                reason: Some(reason),
            },
        );
        self.marks[literal.atom() as usize] = mark;
    }

    pub fn decide(&mut self, literal: Literal)
        requires known { literal.atom < self.old.atoms }
        requires is_open { IsOpen self.old.steps literal }
        requires room { self.old.depth + 1 < 2 ^ 32 }
        ensures { let step : Step = record { literal = literal; depth = self.old.depth + 1; reason = None } in self.new ≡ record { steps = self.old.steps ++ step ∷ []; atoms = self.old.atoms; depth = self.old.depth + 1 } }
    {
        let mark = mark_of(literal);
        put_place(&mut self.places, literal.atom(), self.steps.len());
        self.depth += 1;
        push_within(
            &mut self.steps,
            Step {
                literal,
                depth: self.depth,
                reason: None,
            },
        );
        self.marks[literal.atom() as usize] = mark;
    }

    // Takes away the steps above this depth.
    pub fn undo_to(&mut self, depth: u32)
        requires { depth ≤ self.old.depth }
        ensures undone { self.new ≡ record { steps = up_to depth self.old.steps; atoms = self.old.atoms; depth = depth } }
        ensures front { (rest : List Step) × (self.old.steps ≡ self.new.steps ++ rest) }
    {
        while self.last_depth() > depth {
            self.drop_last();
        }
        self.depth = depth;
    }

    fn last_depth(&self) -> u32
        ensures none { self.now.steps ≡ [] → result ≡ 0 }
        ensures last { (before : List Step) (s : Step) → self.now.steps ≡ before ++ s ∷ [] → result ≡ s.depth }
    {
        match self.steps.last() {
            Some(s) => s.depth,
            None => 0,
        }
    }

    fn drop_last(&mut self)
        requires { 0 < length self.old.steps }
        ensures { (s : Step) × (self.old.steps ≡ self.new.steps ++ s ∷ []) × (self.new.atoms ≡ self.old.atoms) × (self.new.depth ≡ self.old.depth) }
    {
        let Some(step) = self.steps.pop() else {
            return;
        };
        self.marks[step.literal.atom() as usize] = Mark::Open;
    }
}
