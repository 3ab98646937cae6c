//! Clauses that wait for their one literal to be forced.
ghost use Rattle.std.specs.Prelude.{◌≡◌, ◌⊎◌, ℕ, ◌<◌, ◌≤◌, true, List, [], ◌∷◌, ◌++◌, All, IfSome, IfNone, Contains, vec_len, vec_capacity};
ghost use Rattle.clause_store.specs.Looks.{AreApart};
ghost use Rattle.clause_store.specs.Room.{rows_of};
ghost use Rattle.literals.specs.Signed.{Signed};
ghost use Rattle.clause_store.specs.Trail.{Assigns};
ghost use Rattle.clause_store.specs.Entries.{Entry};
ghost use Rattle.clause_store.specs.Watching.{Grows, kept_from};
ghost use Rattle.clause_store.specs.Rested.{IsWaiting};
ghost use Rattle.clause_store.specs.declared.waits.Wait.{Wait};
ghost use Rattle.clause_store.specs.Forcing.{ForceGives, AllForced, IsFalseWait};

use crate::trail::{Status, Trail};
use literals::Literal;

// A clause, by its place, whose other literals are false from this depth on.
#[derive(Clone, Copy)]
pub struct Wait {
    pub row: u32,
    pub literal: Literal,
    pub depth: u32,
}

pub fn force(wait: Wait, trail: &mut Trail) -> bool
    requires { wait.literal.atom < trail.old.atoms }
    ensures gives { ForceGives wait trail.old.depth trail.old.steps trail.new.steps result }
    ensures same { (trail.new.atoms ≡ trail.old.atoms) × (trail.new.depth ≡ trail.old.depth) }
{
    match trail.status(wait.literal) {
        Status::True => true,
        Status::False => false,
        Status::Open => {
            trail.assign(wait.literal, wait.row as u64);
            true
        }
    }
}

// Puts the literals of waiting clauses on the trail; answers a clause whose literal is false.
pub fn force_all(waiting: &[Wait], trail: &mut Trail) -> Option<Wait>
    requires { All (λ (w : Wait). w.literal.atom < trail.old.atoms) waiting.now }
    ensures grows { (es : List Entry) → All (IsWaiting es trail.old.steps) waiting.now → Grows (kept_from 0 es) trail.old.depth trail.old.steps trail.new.steps }
    ensures more { (l : Signed) → Assigns trail.old.steps l → Assigns trail.new.steps l }
    ensures none { IfNone result (AllForced trail.new.steps waiting.now) }
    ensures some { IfSome result (λ w. Contains waiting.now w × IsFalseWait trail.new.steps w) }
    ensures same { (trail.new.atoms ≡ trail.old.atoms) × (trail.new.depth ≡ trail.old.depth) }
{
    for wait in waiting {
        if !force(*wait, trail) {
            return Some(*wait);
        }
    }
    None
}

// Takes out those that wait from this depth on, or a deeper one.
pub fn drop_from(waiting: &mut Vec<Wait>, depth: u32)
    ensures keeps { (w : Wait) → Contains waiting.old.items w → w.depth < depth → Contains waiting.new.items w }
    ensures only { (w : Wait) → Contains waiting.new.items w → Contains waiting.old.items w × (w.depth < depth) }
    ensures apart { AreApart (rows_of waiting.old.items) → AreApart (rows_of waiting.new.items) }
    ensures room { vec_capacity waiting.new ≡ vec_capacity waiting.old }
{
    let mut k = 0;
    'waits: while k < waiting.len() {
        if waiting[k].depth >= depth {
            waiting.swap_remove(k);
        } else {
            k += 1;
        }
    }
}

// Takes out those of a clause.
pub fn drop_of(waiting: &mut Vec<Wait>, row: u32)
    ensures keeps { (w : Wait) → Contains waiting.old.items w → (w.row ≡ row → ⊥) → Contains waiting.new.items w }
    ensures only { (w : Wait) → Contains waiting.new.items w → Contains waiting.old.items w × (w.row ≡ row → ⊥) }
    ensures apart { AreApart (rows_of waiting.old.items) → AreApart (rows_of waiting.new.items) }
    ensures room { vec_capacity waiting.new ≡ vec_capacity waiting.old }
{
    let mut k = 0;
    'waits: while k < waiting.len() {
        if waiting[k].row == row {
            waiting.swap_remove(k);
        } else {
            k += 1;
        }
    }
}

// Adds one.
pub fn push_wait(waiting: &mut Vec<Wait>, wait: Wait)
    requires { vec_len waiting.old < vec_capacity waiting.old }
    ensures items { waiting.new.items ≡ waiting.old.items ++ wait ∷ [] }
    ensures room { vec_capacity waiting.old ≤ vec_capacity waiting.new }
{
    let pushed = waiting.push(wait);
    prove!(pushed.is_ok());
}

// A clause waits so, and no longer otherwise.
pub fn wait_anew(waiting: &mut Vec<Wait>, wait: Wait)
    requires apart { AreApart (rows_of waiting.old.items) }
    requires room { (n : ℕ) × (wait.row < n) × All (λ (w : Wait). w.row < n) waiting.old.items × (n ≤ vec_capacity waiting.old) }
    ensures waits { Contains waiting.new.items wait }
    ensures keeps { (w : Wait) → Contains waiting.old.items w → (w.row ≡ wait.row → ⊥) → Contains waiting.new.items w }
    ensures only { (w : Wait) → Contains waiting.new.items w → Contains waiting.old.items w ⊎ (w ≡ wait) }
    ensures apart { AreApart (rows_of waiting.new.items) }
    ensures room { vec_capacity waiting.old ≤ vec_capacity waiting.new }
{
    drop_of(waiting, wait.row);
    push_wait(waiting, wait);
}

// Makes room for so many.
pub fn make_room_to_wait(waiting: &mut Vec<Wait>, count: usize) -> bool
    ensures items { waiting.new.items ≡ waiting.old.items }
    ensures same { vec_capacity waiting.old ≤ vec_capacity waiting.new }
    ensures room { result ≡ true → count ≤ vec_capacity waiting.new }
{
    let rest = count.saturating_sub(waiting.len());
    waiting.reserve(rest).is_ok()
}
