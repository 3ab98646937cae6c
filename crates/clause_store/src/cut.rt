//! Keeps the clauses up to a level, with nothing assigned.
ghost use Rattle.std.specs.Prelude.{◌≡◌, ℕ, true, false, [], ◌+◌, ◌<◌, ◌≤◌, ◌^◌, length, int_le, nat_lt, pos, vec_capacity};
ghost use Rattle.clause_store.specs.Stored.{up_to_level};
ghost use Rattle.clause_store.specs.Watching.{kept_from};
ghost use Rattle.clause_store.specs.Cutting.{IsCut, IsFewer};
ghost use Rattle.clause_store.specs.Entries.{entry_at};
ghost use Rattle.clause_store.specs.Empties.{all_filled};
ghost use Rattle.clause_store.specs.From.{HasSingles};

use crate::rows::Rows;
use crate::waits::{Wait, push_wait};

// The least number above all levels up to this.
fn bound(level: i32) -> u32
    ensures { (n : ℕ) → nat_lt n result ≡ int_le (pos n) level }
{
    if level < 0 { 0 } else { level as u32 + 1 }
}

// Forgets the clauses of levels that aren't below the bound.
fn cut_rows(rows: &mut Rows, bound: u32)
    requires small { length rows.old.entries < 2 ^ 32 }
    ensures cut { IsCut bound rows.old.entries rows.new.entries (length rows.old.entries) }
    ensures looks { rows.new.looks ≡ rows.old.looks }
{
    for i in 0..rows.len() {
        let row = i as u32;
        if rows.level(row) as u32 >= bound {
            rows.forget(row);
        }
    }
}

// Forgets the clauses of levels above this.
pub fn cut_to(rows: &mut Rows, level: i32)
    requires small { length rows.old.entries < 2 ^ 32 }
    ensures looks { rows.new.looks ≡ rows.old.looks }
    ensures fewer { IsFewer rows.old.entries rows.new.entries }
    ensures clauses { kept_from 0 rows.new.entries ≡ up_to_level level (kept_from 0 rows.old.entries) }
{
    cut_rows(rows, bound(level));
}

// Whether a clause is kept and watched.
fn is_watched(rows: &Rows, i: u32) -> bool
    requires within { i < length rows.now.entries }
    ensures { result ≡ (entry_at (all_filled rows.now.entries) i).live }
{
    rows.is_live(i) && rows.size(i) > 0
}

// Whether a clause is watched and both its watched literals are one.
fn is_single(rows: &Rows, i: u32) -> bool
    requires within { i < length rows.now.entries }
    ensures yes { result ≡ true → ((entry_at (all_filled rows.now.entries) i).live ≡ true) × ((entry_at rows.now.entries i).first ≡ (entry_at rows.now.entries i).second) }
    ensures no { result ≡ false → (entry_at (all_filled rows.now.entries) i).live ≡ true → (entry_at rows.now.entries i).first ≡ (entry_at rows.now.entries i).second → ⊥ }
{
    is_watched(rows, i) && rows.first(i) == rows.second(i)
}

// A clause of one literal waits.
fn wait_single(rows: &Rows, i: u32, waiting: &mut Vec<Wait>)
    requires within { i < length rows.now.entries }
    requires singles { HasSingles (all_filled rows.now.entries) i waiting.old.items }
    requires room { length rows.now.entries ≤ vec_capacity waiting.old }
    ensures singles { HasSingles (all_filled rows.now.entries) (i + 1) waiting.new.items }
    ensures room { vec_capacity waiting.old ≤ vec_capacity waiting.new }
{
    if is_single(rows, i) {
        let literal = rows.first(i);
        push_wait(
            waiting,
            Wait {
                row: i,
                literal,
                depth: 0,
            },
        );
    }
}

// The clauses of one literal wait.
pub fn wait_singles(rows: &Rows, waiting: &mut Vec<Wait>)
    requires none { waiting.old.items ≡ [] }
    requires small { length rows.now.entries < 2 ^ 32 }
    requires room { length rows.now.entries ≤ vec_capacity waiting.old }
    ensures singles { HasSingles (all_filled rows.now.entries) (length rows.now.entries) waiting.new.items }
    ensures room { vec_capacity waiting.old ≤ vec_capacity waiting.new }
{
    for i in 0..rows.len() {
        wait_single(rows, i as u32, waiting);
    }
}
