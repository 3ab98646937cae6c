//! Atoms by number, each once.
ghost use Rattle.std.specs.Prelude.{◌≡◌, ℕ, ◌+◌, ◌<◌, ◌^◌, [], ◌∷◌, ◌++◌, length, map, take, Contains, OnOk, OnErr, IfOk, IfSome, IfNone, slice_index_or, HoldsAt};
ghost use Rattle.smt_meaning.specs.declared.clauses.Atom.{Atom};
ghost use Rattle.atom_form.specs.Compact.{atom_of, atom_hash};
ghost use Rattle.atom_form.specs.AtomTableNumbers.{IsAt, AreApart};
ghost use Rattle.atom_form.specs.Numbering.{Numbered, IsTable};
ghost use Rattle.atom_form.specs.declared.compact.CompactAtom.{CompactAtom as Kept};

use crate::CompactAtom;
use crate::compact::{hash_of, is_same};
use crate::table::append;
use std::alloc::{AllocError, Global};
use std::marker::Model;
use term_store::HashIndex;

/// The atoms by their numbers, each found by a hash.
#[derive(Drop)]
pub struct AtomTable {
    atoms: Vec<CompactAtom>,
    keys: HashIndex,
}

impl Model for AtomTable {
    ghost use Rattle.std.specs.Prelude.{List, map};
    ghost use Rattle.smt_meaning.specs.declared.clauses.Atom.{Atom};

    ghost Value = { List Atom };

    ghost use Rattle.atom_form.specs.Compact.{atom_of, atom_hash};
    ghost use Rattle.atom_form.specs.Numbering.{IsTable};

    ghost view = { λ t. map atom_of t.atoms.items };

    ghost invariant = { λ t. IsTable atom_hash t.atoms.items t.keys };
}

/// The number of an atom, if it has one.
fn find(atoms: &[CompactAtom], keys: &HashIndex, atom: CompactAtom, hash: u32) -> Option<u32>
    requires hashed { keys.now ≡ map atom_hash atoms.now }
    requires hash { hash ≡ atom_hash atom }
    ensures some { IfSome result (λ k. (k < length atoms.now) × ((d : Kept) → slice_index_or atoms.now k d ≡ atom)) }
    ensures none { IfNone result (Contains atoms.now atom → ⊥) }
{
    let mut link = keys.last(hash);
    while link > 0 {
        let at = (link - 1) as usize;
        if is_same(atoms[at], atom) {
            return Some(link - 1);
        }
        link = keys.before(at);
    }
    None
}

/// The number of an atom, and whether it is new. An `Err` changes nothing.
fn number(
    atoms: &mut Vec<CompactAtom>,
    keys: &mut HashIndex,
    atom: CompactAtom,
) -> Result<(u32, bool), AllocError>
    requires table { IsTable atom_hash atoms.old.items keys.old }
    requires few { length atoms.old.items < 2 ^ 31 }
    ensures table { IsTable atom_hash atoms.new.items keys.new }
    ensures ok { IfOk result (λ r. Numbered (map atom_of atoms.old.items) (map atom_of atoms.new.items) (atom_of atom) r.0 r.1) }
    ensures err { OnErr result (atoms.new.items ≡ atoms.old.items) }
{
    let hash = hash_of(atom);
    match find(atoms, keys, atom, hash) {
        Some(known) => Ok((known, false)),
        None => {
            let next = atoms.len() as u32;
            append(atoms, keys, atom, hash)?;
            Ok((next, true))
        }
    }
}

/// The atom of a number.
fn atom_at(atoms: &[CompactAtom], number: u32) -> CompactAtom
    requires { number < length atoms.now }
    ensures { IsAt (map atom_of atoms.now) number (atom_of result) }
{
    atoms[number as usize]
}

/// No atom has two numbers.
fn are_apart(atoms: &[CompactAtom], keys: &HashIndex)
    requires { IsTable atom_hash atoms.now keys.now }
    ensures { AreApart (map atom_of atoms.now) }
{}

/// The number of an atom, if it has one.
fn find_number(atoms: &[CompactAtom], keys: &HashIndex, atom: CompactAtom) -> Option<u32>
    requires { IsTable atom_hash atoms.now keys.now }
    ensures some { IfSome result (λ k. IsAt (map atom_of atoms.now) k (atom_of atom)) }
    ensures none { IfNone result (Contains (map atom_of atoms.now) (atom_of atom) → ⊥) }
{
    find(atoms, keys, atom, hash_of(atom))
}

impl AtomTable {
    ghost use Rattle.std.specs.Prelude.{◌≡◌, ◌<◌, ◌^◌, [], length, Contains, OnErr, IfOk, IfSome, IfNone};
    ghost use Rattle.atom_form.specs.Compact.{atom_of};
    ghost use Rattle.atom_form.specs.AtomTableNumbers.{IsAt, AreApart};
    ghost use Rattle.atom_form.specs.Numbering.{Numbered};

    /// No atom. It takes no memory.
    pub fn new(alloc: Global) -> Self
        ensures { result ≡ [] }
    {
        AtomTable {
            atoms: Vec::new(alloc),
            keys: HashIndex::new(alloc),
        }
    }

    /// The count of numbered atoms.
    pub fn len(&self) -> usize
        ensures { result ≡ length self.now }
    {
        self.atoms.len()
    }

    /// The number of an atom, and whether it is new. Equal atoms have one number. An `Err`, for want of memory, changes nothing.
    pub fn number(&mut self, atom: CompactAtom) -> Result<(u32, bool), AllocError>
        requires few { length self.old < 2 ^ 31 }
        ensures ok { IfOk result (λ r. Numbered self.old self.new (atom_of atom) r.0 r.1) }
        ensures err { OnErr result (self.new ≡ self.old) }
    {
        number(&mut self.atoms, &mut self.keys, atom)
    }

    /// The number of an atom, if it has one.
    pub fn find(&self, atom: CompactAtom) -> Option<u32>
        ensures some { IfSome result (λ k. IsAt self.now k (atom_of atom)) }
        ensures none { IfNone result (Contains self.now (atom_of atom) → ⊥) }
    {
        find_number(&self.atoms, &self.keys, atom)
    }

    /// The atom of a number.
    pub fn atom(&self, number: u32) -> CompactAtom
        requires { number < length self.now }
        ensures { IsAt self.now number (atom_of result) }
    {
        atom_at(&self.atoms, number)
    }

    /// No atom has two numbers.
    pub fn are_apart(&self)
        ensures { AreApart self.now }
    {
        are_apart(&self.atoms, &self.keys);
    }
}
