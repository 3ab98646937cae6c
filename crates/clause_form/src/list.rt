//! A flat list of clauses.
ghost use Rattle.std.specs.Prelude.{◌≡◌, ◌<◌, [], ◌∷◌, ◌++◌, length, slice_index_or, OnOk, OnErr};
ghost use Rattle.clause_form.specs.Parts.{piece, pieces, AreWithin};

use literals::Literal;
use std::alloc::{AllocError, Global};
use std::marker::Model;

/// Where a clause's literals stand.
#[derive(Clone, Copy, Drop)]
struct Part {
    start: usize,
    end: usize,
}

/// A list of clauses over numbered atoms, in one list of literals.
#[derive(Drop)]
pub struct Clauses {
    literals: Vec<Literal>,
    parts: Vec<Part>,
}

impl Model for Clauses {
    ghost use Rattle.std.specs.Prelude.{List};
    ghost use Rattle.literals.specs.Signed.{Signed};

    ghost Value = { List (List Signed) };

    ghost use Rattle.std.specs.Prelude.{length};
    ghost use Rattle.clause_form.specs.Parts.{pieces, AreWithin};

    ghost view = { λ c. pieces c.literals.items c.parts.items };

    ghost invariant = { λ c. AreWithin (length c.literals.items) c.parts.items };
}

/// Adds a clause at the end. An `Err` changes nothing.
fn append(
    literals: &mut Vec<Literal>,
    parts: &mut Vec<Part>,
    clause: &[Literal],
) -> Result<(), AllocError>
    ensures parts { OnOk result (parts.new.items ≡ parts.old.items ++ record { start = length literals.old.items; end = length literals.new.items } ∷ []) }
    ensures literals { OnOk result (literals.new.items ≡ literals.old.items ++ clause.now) }
    ensures err { OnErr result ((parts.new.items ≡ parts.old.items) × (literals.new.items ≡ literals.old.items)) }
{
    let start = literals.len();
    literals.extend_from_slice(clause)?;
    let end = literals.len();
    if parts.push(Part { start, end }).is_err() {
        literals.truncate(start);
        return Err(AllocError);
    }
    Ok(())
}

/// The literals of the clause at a place.
fn literals_at<'a>(literals: &'a [Literal], parts: &[Part], i: usize) -> &'a [Literal]
    requires within { i < length parts.now }
    requires parts { AreWithin (length literals.now) parts.now }
    ensures { result.now ≡ slice_index_or (pieces literals.now parts.now) i [] }
{
    let part = parts[i];
    &literals[part.start..part.end]
}

impl Clauses {
    /// No clause. It takes no memory.
    pub fn new(alloc: Global) -> Self
        ensures { result ≡ [] }
    {
        Clauses {
            literals: Vec::new(alloc),
            parts: Vec::new(alloc),
        }
    }

    /// The number of clauses.
    pub fn len(&self) -> usize
        ensures { result ≡ length self.now }
    {
        self.parts.len()
    }

    /// The literals of a clause, by its place from 0.
    pub fn clause(&self, i: usize) -> &[Literal]
        requires { i < length self.now }
        ensures { result.now ≡ slice_index_or self.now i [] }
    {
        literals_at(&self.literals, &self.parts, i)
    }

    /// Adds a clause at the end. An `Err`, for want of memory, changes nothing.
    pub fn push(&mut self, clause: &[Literal]) -> Result<(), AllocError>
        ensures ok { OnOk result (self.new ≡ self.old ++ clause.now ∷ []) }
        ensures err { OnErr result (self.new ≡ self.old) }
    {
        append(&mut self.literals, &mut self.parts, clause)
    }

    /// Drops all clauses.
    pub fn clear(&mut self)
        ensures { self.new ≡ [] }
    {
        self.literals.clear();
        self.parts.clear();
    }
}
