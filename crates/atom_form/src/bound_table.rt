//! Bounds by number, each once.
//!
//! Bounds have a table of their own, by the number of their sum and their threshold: the table of
//! all atoms is made of it and of that of truths and equalities.
ghost use Rattle.std.specs.Prelude.{◌≡◌, ◌+◌, ◌<◌, ◌^◌, [], ◌∷◌, ◌++◌, length, map, take, Contains, OnOk, OnErr, IfOk, IfSome, IfNone};
ghost use Rattle.atom_form.specs.BoundTableHash.{bound_hash};
ghost use Rattle.atom_form.specs.Numbering.{IsAt, Numbered, IsTable, AreApart};

use crate::bound::{SumBound, hash_of, is_same};
use crate::table::append;
use std::alloc::{AllocError, Global};
use std::marker::Model;
use term_store::HashIndex;

/// The bounds by their numbers, each found by a hash.
#[derive(Drop)]
pub struct BoundTable {
    bounds: Vec<SumBound>,
    keys: HashIndex,
}

impl Model for BoundTable {
    ghost use Rattle.std.specs.Prelude.{List};
    ghost use Rattle.atom_form.specs.declared.bound.SumBound.{SumBound as BoundValue};

    ghost Value = { List BoundValue };

    ghost use Rattle.atom_form.specs.BoundTableHash.{bound_hash};
    ghost use Rattle.atom_form.specs.Numbering.{IsTable};

    ghost view = { λ t. t.bounds.items };

    ghost invariant = { λ t. IsTable bound_hash t.bounds.items t.keys };
}

/// The number of a bound, if it has one.
fn find(bounds: &[SumBound], keys: &HashIndex, bound: SumBound, hash: u32) -> Option<u32>
    requires hashed { keys.now ≡ map bound_hash bounds.now }
    requires hash { hash ≡ bound_hash bound }
    ensures some { IfSome result (λ k. IsAt bounds.now k bound) }
    ensures none { IfNone result (Contains bounds.now bound → ⊥) }
{
    let mut link = keys.last(hash);
    while link > 0 {
        let at = (link - 1) as usize;
        if is_same(bounds[at], bound) {
            return Some(link - 1);
        }
        link = keys.before(at);
    }
    None
}

/// The number of a bound, and whether it is new. An `Err` changes nothing.
fn number(
    bounds: &mut Vec<SumBound>,
    keys: &mut HashIndex,
    bound: SumBound,
) -> Result<(u32, bool), AllocError>
    requires table { IsTable bound_hash bounds.old.items keys.old }
    requires few { length bounds.old.items < 2 ^ 31 }
    ensures table { IsTable bound_hash bounds.new.items keys.new }
    ensures ok { IfOk result (λ r. Numbered bounds.old.items bounds.new.items bound r.0 r.1) }
    ensures err { OnErr result (bounds.new.items ≡ bounds.old.items) }
{
    let hash = hash_of(bound);
    match find(bounds, keys, bound, hash) {
        Some(known) => Ok((known, false)),
        None => {
            let next = bounds.len() as u32;
            append(bounds, keys, bound, hash)?;
            Ok((next, true))
        }
    }
}

/// The bound of a number.
fn bound_at(bounds: &[SumBound], number: u32) -> SumBound
    requires { number < length bounds.now }
    ensures { IsAt bounds.now number result }
{
    bounds[number as usize]
}

/// Forgets the bounds from a number on.
fn keep(bounds: &mut Vec<SumBound>, keys: &mut HashIndex, len: usize)
    requires { IsTable bound_hash bounds.old.items keys.old }
    ensures table { IsTable bound_hash bounds.new.items keys.new }
    ensures first { bounds.new.items ≡ take len bounds.old.items }
{
    bounds.truncate(len);
    keys.truncate(len);
}

/// No bound has two numbers.
fn are_apart(bounds: &[SumBound], keys: &HashIndex)
    requires { IsTable bound_hash bounds.now keys.now }
    ensures { AreApart bounds.now }
{}

impl BoundTable {
    ghost use Rattle.std.specs.Prelude.{◌≡◌, ◌<◌, ◌^◌, [], length, take, Contains, OnErr, IfOk, IfSome, IfNone};
    ghost use Rattle.atom_form.specs.Numbering.{IsAt, Numbered, AreApart};

    /// No bound. It takes no memory.
    pub fn new(alloc: Global) -> Self
        ensures { result ≡ [] }
    {
        BoundTable {
            bounds: Vec::new(alloc),
            keys: HashIndex::new(alloc),
        }
    }

    /// The count of numbered bounds.
    pub fn len(&self) -> usize
        ensures { result ≡ length self.now }
    {
        self.bounds.len()
    }

    /// The number of a bound, and whether it is new. Equal bounds have one number. An `Err`, for want of memory, changes nothing.
    pub fn number(&mut self, bound: SumBound) -> Result<(u32, bool), AllocError>
        requires few { length self.old < 2 ^ 31 }
        ensures ok { IfOk result (λ r. Numbered self.old self.new bound r.0 r.1) }
        ensures err { OnErr result (self.new ≡ self.old) }
    {
        number(&mut self.bounds, &mut self.keys, bound)
    }

    /// The number of a bound, if it has one.
    pub fn find(&self, bound: SumBound) -> Option<u32>
        ensures some { IfSome result (λ k. IsAt self.now k bound) }
        ensures none { IfNone result (Contains self.now bound → ⊥) }
    {
        find(&self.bounds, &self.keys, bound, hash_of(bound))
    }

    /// The bound of a number.
    pub fn bound(&self, number: u32) -> SumBound
        requires { number < length self.now }
        ensures { IsAt self.now number result }
    {
        bound_at(&self.bounds, number)
    }

    /// Forgets the bounds from a number on. It takes no memory.
    pub fn truncate(&mut self, len: usize)
        ensures { self.new ≡ take len self.old }
    {
        keep(&mut self.bounds, &mut self.keys, len);
    }

    /// No bound has two numbers.
    pub fn are_apart(&self)
        ensures { AreApart self.now }
    {
        are_apart(&self.bounds, &self.keys);
    }
}
