//! Every clause's literals in one arena, and its two watched literals.
ghost use Rattle.std.specs.Prelude.{◌≡◌, ℕ, ◌+◌, ◌<◌, ◌≤◌, ◌^◌, List, [], ◌∷◌, ◌++◌, length, slice_set, true, false, OnOk, OnErr};
ghost use Rattle.literals.specs.Signed.{Signed};

use literals::Literal;
use std::alloc::{AllocError, Global};
use std::marker::Model;

#[derive(Clone, Copy)]
pub struct Row {
    start: u32,
    len: u32,
    first: Literal,
    second: Literal,
    level: u16,
    live: bool,
    // where the last search for another literal ended
    place: u32,
}

#[derive(Drop)]
pub struct Rows {
    literals: Vec<Literal>,
    rows: Vec<Row>,
    // how often a clause was looked at
    looks: u64,
}

// A clause that is looked at: its literals may be read.
#[derive(Clone, Copy)]
pub struct Looked {
    row: u32,
}

impl Model for Looked {
    ghost use Rattle.std.specs.Prelude.{ℕ};
    ghost use Rattle.std.proofs.Common.{refl};

    ghost Value = { ℕ };

    ghost view = { λ l. l.row };

    ghost inverse = { λ n. record { row = n } };

    ghost inverse_ok = { λ a h. refl };
}

impl Model for Rows {
    ghost use Rattle.std.specs.Prelude.{List, map, All, ◌+◌, ◌≤◌, length};
    ghost use Rattle.clause_store.specs.Entries.{Held, entry_of};
    ghost use Rattle.clause_store.specs.declared.rows.Row.{Row};

    ghost Value = { Held };

    ghost view = { λ r. record { entries = map (entry_of r.literals.items) r.rows.items; looks = r.looks } };

    ghost invariant = { λ r. All (λ (row : Row). row.start + row.len ≤ length r.literals.items) r.rows.items };
}

fn extended(items: &mut Vec<Literal>, more: &[Literal]) -> bool
    ensures yes { result ≡ true → items.new.items ≡ items.old.items ++ more.now }
    ensures no { result ≡ false → items.new.items ≡ items.old.items }
{
    items.extend_from_slice(more).is_ok()
}

fn pushed(rows: &mut Vec<Row>, row: Row) -> bool
    ensures yes { result ≡ true → rows.new.items ≡ rows.old.items ++ row ∷ [] }
    ensures no { result ≡ false → rows.new.items ≡ rows.old.items }
{
    rows.push(row).is_ok()
}

impl Rows {
    ghost use Rattle.clause_store.specs.Entries.{Entry, Held, entry_at, risen};

    // How many clauses it has had room for, those forgotten too.
    pub fn len(&self) -> usize
        ensures { result ≡ length self.now.entries }
    {
        self.rows.len()
    }

    pub fn first(&self, i: u32) -> Literal
        requires { i < length self.now.entries }
        ensures { result ≡ (entry_at self.now.entries i).first }
    {
        self.rows[i as usize].first
    }

    pub fn second(&self, i: u32) -> Literal
        requires { i < length self.now.entries }
        ensures { result ≡ (entry_at self.now.entries i).second }
    {
        self.rows[i as usize].second
    }

    pub fn is_live(&self, i: u32) -> bool
        requires { i < length self.now.entries }
        ensures { result ≡ (entry_at self.now.entries i).live }
    {
        self.rows[i as usize].live
    }

    pub fn level(&self, i: u32) -> u16
        requires { i < length self.now.entries }
        ensures { result ≡ (entry_at self.now.entries i).level }
    {
        self.rows[i as usize].level
    }

    // How many literals a clause has.
    pub fn size(&self, i: u32) -> usize
        requires { i < length self.now.entries }
        ensures { result ≡ length (entry_at self.now.entries i).literals }
    {
        self.rows[i as usize].len as usize
    }

    pub fn new(alloc: Global) -> Rows
        ensures { result ≡ record { entries = []; looks = 0 } }
    {
        Rows {
            literals: Vec::new(alloc),
            rows: Vec::new(alloc),
            looks: 0,
        }
    }

    // How often a clause was looked at; it stands still at its greatest value.
    pub fn looks(&self) -> u64
        ensures { result ≡ self.now.looks }
    {
        self.looks
    }

    // Looks at a clause, which is the one way to its literals.
    pub fn look(&mut self, i: u32) -> Looked
        requires { i < length self.old.entries }
        ensures same { self.new.entries ≡ self.old.entries }
        ensures looks { self.new.looks ≡ risen self.old.looks }
        ensures rises { self.old.looks ≤ self.new.looks }
        ensures once { self.new.looks ≤ self.old.looks + 1 }
        ensures clause { result ≡ i }
    {
        self.looks = self.looks.saturating_add(1);
        Looked { row: i }
    }

    // The literals of a clause that is looked at.
    pub fn literals(&self, looked: Looked) -> &[Literal]
        requires { looked < length self.now.entries }
        ensures { result.now ≡ (entry_at self.now.entries looked).literals }
    {
        let row = self.rows[looked.row as usize];
        let start = row.start as usize;
        let end = start + row.len as usize;
        &self.literals[start..end]
    }

    // Keeps a clause no longer; its place stays.
    pub fn forget(&mut self, i: u32)
        requires { i < length self.old.entries }
        ensures entries { self.new.entries ≡ slice_set self.old.entries i (record (entry_at self.old.entries i) { live = false }) }
        ensures looks { self.new.looks ≡ self.old.looks }
    {
        let row = self.rows[i as usize];
        self.rows[i as usize] = Row { live: false, ..row };
    }

    pub fn watch(&mut self, i: u32, first: Literal, second: Literal)
        requires { i < length self.old.entries }
        ensures entries { self.new.entries ≡ slice_set self.old.entries i (record (entry_at self.old.entries i) { first = first; second = second }) }
        ensures looks { self.new.looks ≡ self.old.looks }
    {
        let row = self.rows[i as usize];
        self.rows[i as usize] = Row {
            first,
            second,
            ..row
        };
    }

    // Adds a clause at the next place.
    pub fn push(
        &mut self,
        literals: &[Literal],
        first: Literal,
        second: Literal,
        level: u16,
    ) -> Result<(), AllocError>
        ensures added { OnOk result (let e : Entry = record { literals = literals.now; first = first; second = second; level = level; live = true } in self.new.entries ≡ self.old.entries ++ e ∷ []) }
        ensures same { OnErr result (self.new.entries ≡ self.old.entries) }
        ensures looks { self.new.looks ≡ self.old.looks }
    {
        let start = self.literals.len();
        let len = literals.len();
        if start >= 1 << 31 || len >= 1 << 31 {
            return Err(AllocError);
        }
        if !extended(&mut self.literals, literals) {
            return Err(AllocError);
        }
        let row = Row {
            start: start as u32,
            len: len as u32,
            first,
            second,
            level,
            live: true,
            place: 0,
        };
        if !pushed(&mut self.rows, row) {
            return Err(AllocError);
        }
        Ok(())
    }

    pub fn place(&self, i: u32) -> usize
        requires { i < length self.now.entries }
    {
        self.rows[i as usize].place as usize
    }

    // Keeps where a search ended.
    pub fn go_on(&mut self, i: u32, place: usize)
        requires { i < length self.old.entries }
        ensures entries { self.new.entries ≡ self.old.entries }
        ensures looks { self.new.looks ≡ self.old.looks }
    {
        let place = if place < 1 << 31 { place as u32 } else { 0 };
        let row = &mut self.rows[i as usize];
        row.place = place;
    }
}
