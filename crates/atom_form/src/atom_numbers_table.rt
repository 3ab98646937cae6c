//! Atoms of all kinds by number, each once.
ghost use Rattle.std.specs.Prelude.{◌≡◌, ℕ, ◌+◌, ◌<◌, ◌≤◌, ◌^◌, [], ◌∷◌, ◌++◌, length, map, Contains, OnErr, OnOk, IfOk, IfSome, IfNone, vec_len, vec_capacity};
ghost use Rattle.atom_form.specs.Compact.{atom_of};
ghost use Rattle.atom_form.specs.Sums.{IsAt as IsSumAt};
ghost use Rattle.atom_form.specs.declared.bound.SumBound.{SumBound as KeptBound};
ghost use Rattle.atom_form.specs.declared.atom.NumberedAtom.TheVariants.{Bound};
ghost use Rattle.atom_form.specs.AtomNumbersAtoms.{GoesOn};
ghost use Rattle.atom_form.specs.AtomNumbers.{numbered_of, IsKeyAt, IsUnchanged, IsNumberedBy};

use crate::atom::{NumberedAtom, numbered};
use crate::{AtomTable, BoundTable, CompactAtom, SumBound, SumTable};
use smt_meaning::Summand;
use std::alloc::{AllocError, Global};
use std::marker::Model;

/// How many atoms, and how many sums, have a number at most.
const LIMIT: usize = 1 << 31;

/// The atoms by their numbers.
#[derive(Drop)]
pub struct AtomNumbers {
    core: AtomTable,
    bounds: BoundTable,
    sums: SumTable,
    entries: Vec<NumberedAtom>,
    core_numbers: Vec<u32>,
    bound_numbers: Vec<u32>,
}

impl Model for AtomNumbers {
    ghost use Rattle.std.specs.Prelude.{map};
    ghost use Rattle.atom_form.specs.AtomNumbersAtoms.{Atoms, atoms_code, atom_in};

    ghost Value = { Atoms };

    ghost coded = { atoms_code };

    ghost use Rattle.atom_form.specs.AtomNumbers.{IsTable};

    ghost view = { λ t. record { atoms = map (atom_in t.sums) t.entries.items; sums = t.sums } };

    ghost invariant = { λ t. IsTable t.core t.bounds t.sums t.entries.items t.core_numbers.items t.bound_numbers.items };
}

/// Room for one more number.
fn make_room(entries: &mut Vec<NumberedAtom>, numbers: &mut Vec<u32>) -> Result<(), AllocError>
    ensures entries { entries.new.items ≡ entries.old.items }
    ensures numbers { numbers.new.items ≡ numbers.old.items }
    ensures few { OnOk result (length entries.new.items < 2 ^ 31) }
    ensures room { OnOk result ((vec_len entries.new < vec_capacity entries.new) × (vec_len numbers.new < vec_capacity numbers.new)) }
{
    if entries.len() >= LIMIT {
        return Err(AllocError);
    }
    entries.reserve(1)?;
    numbers.reserve(1)
}

/// Gives an atom the next number.
fn add(entries: &mut Vec<NumberedAtom>, numbers: &mut Vec<u32>, atom: NumberedAtom) -> u32
    requires few { length entries.old.items < 2 ^ 31 }
    requires room { (vec_len entries.old < vec_capacity entries.old) × (vec_len numbers.old < vec_capacity numbers.old) }
    ensures entries { entries.new.items ≡ entries.old.items ++ atom ∷ [] }
    ensures numbers { numbers.new.items ≡ numbers.old.items ++ length entries.old.items ∷ [] }
    ensures number { result ≡ length entries.old.items }
{
    let number = entries.len() as u32;
    entries.push_reserved(atom);
    numbers.push_reserved(number);
    number
}

/// The number of a truth or of an equality. An `Err` changes nothing.
fn number_core(
    core: &mut AtomTable,
    numbers: &mut Vec<u32>,
    entries: &mut Vec<NumberedAtom>,
    atom: CompactAtom,
) -> Result<u32, AllocError>
    requires size { length numbers.old.items ≡ length core.old }
    requires few { length core.old ≤ length entries.old.items }
    ensures ok { IfOk result (λ n. IsNumberedBy core.old core.new numbers.old.items numbers.new.items entries.old.items entries.new.items (atom_of atom) (numbered_of atom) n) }
    ensures err { OnErr result (IsUnchanged core.old core.new numbers.old.items numbers.new.items entries.old.items entries.new.items) }
{
    make_room(entries, numbers)?;
    let (place, is_new) = core.number(atom)?;
    if is_new {
        return Ok(add(entries, numbers, numbered(atom)));
    }
    Ok(numbers[place as usize])
}

/// The number of a bound. An `Err` changes nothing.
fn number_bound(
    bounds: &mut BoundTable,
    numbers: &mut Vec<u32>,
    entries: &mut Vec<NumberedAtom>,
    bound: SumBound,
) -> Result<u32, AllocError>
    requires size { length numbers.old.items ≡ length bounds.old }
    requires few { length bounds.old ≤ length entries.old.items }
    ensures ok { IfOk result (λ n. IsNumberedBy bounds.old bounds.new numbers.old.items numbers.new.items entries.old.items entries.new.items bound (Bound bound) n) }
    ensures err { OnErr result (IsUnchanged bounds.old bounds.new numbers.old.items numbers.new.items entries.old.items entries.new.items) }
{
    make_room(entries, numbers)?;
    let (place, is_new) = bounds.number(bound)?;
    if is_new {
        return Ok(add(entries, numbers, NumberedAtom::Bound(bound)));
    }
    Ok(numbers[place as usize])
}

fn bound_of(sum: u32, threshold: i128) -> SumBound
    ensures { result ≡ record { sum = sum; threshold = threshold } }
{
    SumBound { sum, threshold }
}

/// The number of a sum. An `Err` changes nothing.
fn number_sum(sums: &mut SumTable, sum: &[Summand]) -> Result<u32, AllocError>
    ensures ok { IfOk result (λ k. IsSumAt sums.new k sum.now) }
    ensures more { GoesOn sums.old sums.new sum.now }
    ensures err { OnErr result (sums.new ≡ sums.old) }
{
    if sums.len() >= LIMIT {
        return Err(AllocError);
    }
    let (number, _) = sums.number(sum)?;
    Ok(number)
}

impl AtomNumbers {
    ghost use Rattle.std.specs.Prelude.{◌≡◌, ◌<◌, ◌≤◌, ◌^◌, [], length, Contains, OnErr, IfOk, IfSome, IfNone};
    ghost use Rattle.smt_meaning.specs.declared.clauses.Atom.TheVariants.{AtMost};
    ghost use Rattle.atom_form.specs.Compact.{atom_of};
    ghost use Rattle.atom_form.specs.AtomTableNumbers.{IsAt, AreApart};
    ghost use Rattle.atom_form.specs.Sums.{IsAt as IsSumAt};
    ghost use Rattle.atom_form.specs.AtomNumbersAtoms.{atom_in, HasSum, GoesOn, Numbers};

    /// No atom. It takes no memory.
    pub fn new(alloc: Global) -> Self
        ensures atoms { result.atoms ≡ [] }
        ensures sums { result.sums ≡ [] }
    {
        AtomNumbers {
            core: AtomTable::new(alloc),
            bounds: BoundTable::new(alloc),
            sums: SumTable::new(alloc),
            entries: Vec::new(alloc),
            core_numbers: Vec::new(alloc),
            bound_numbers: Vec::new(alloc),
        }
    }

    /// The count of numbered atoms.
    pub fn len(&self) -> usize
        ensures count { result ≡ length self.now.atoms }
        ensures few { result ≤ 2 ^ 31 }
    {
        self.entries.len()
    }

    /// The number of a truth or of an equality. Equal atoms have one number. An `Err`, for want of memory, as where 2^31 atoms have numbers, changes nothing.
    pub fn number(&mut self, atom: CompactAtom) -> Result<u32, AllocError>
        ensures ok { IfOk result (λ k. Numbers self.old.atoms self.new.atoms (atom_of atom) k) }
        ensures err { OnErr result (self.new.atoms ≡ self.old.atoms) }
        ensures sums { self.new.sums ≡ self.old.sums }
    {
        number_core(
            &mut self.core,
            &mut self.core_numbers,
            &mut self.entries,
            atom,
        )
    }

    /// The number of the bound that a sum is at most a threshold. An `Err`, for want of memory, as where 2^31 atoms or sums have numbers, leaves the atoms as they
    /// were; the sum may have a number then.
    pub fn number_bound(&mut self, sum: &[Summand], threshold: i128) -> Result<u32, AllocError>
        ensures ok { IfOk result (λ k. Numbers self.old.atoms self.new.atoms (AtMost sum.now threshold) k) }
        ensures err { OnErr result (self.new.atoms ≡ self.old.atoms) }
        ensures sums { GoesOn self.old.sums self.new.sums sum.now }
    {
        let place = number_sum(&mut self.sums, sum)?;
        self.sums.are_apart();
        number_bound(
            &mut self.bounds,
            &mut self.bound_numbers,
            &mut self.entries,
            bound_of(place, threshold),
        )
    }

    /// The number of a truth or of an equality, if it has one.
    pub fn find(&self, atom: CompactAtom) -> Option<u32>
        ensures some { IfSome result (λ k. IsAt self.now.atoms k (atom_of atom)) }
        ensures none { IfNone result (Contains self.now.atoms (atom_of atom) → ⊥) }
    {
        let place = self.core.find(atom)?;
        Some(self.core_numbers[place as usize])
    }

    /// The number of the bound that a sum is at most a threshold, if it has one.
    pub fn find_bound(&self, sum: &[Summand], threshold: i128) -> Option<u32>
        ensures some { IfSome result (λ k. IsAt self.now.atoms k (AtMost sum.now threshold)) }
        ensures none { IfNone result (Contains self.now.atoms (AtMost sum.now threshold) → ⊥) }
    {
        self.sums.are_apart();
        let number = self.sums.find(sum)?;
        let place = self.bounds.find(bound_of(number, threshold))?;
        Some(self.bound_numbers[place as usize])
    }

    /// The atom of a number.
    pub fn atom(&self, number: u32) -> NumberedAtom
        requires { number < length self.now.atoms }
        ensures atom { IsAt self.now.atoms number (atom_in self.now.sums result) }
        ensures sum { HasSum self.now.sums result }
    {
        self.entries[number as usize]
    }

    /// The sum of a bound, by its number.
    pub fn sum(&self, sum: u32) -> &[Summand]
        requires { sum < length self.now.sums }
        ensures { IsSumAt self.now.sums sum result.now }
    {
        self.sums.sum(sum)
    }

    /// At most 2^31 atoms have numbers.
    pub fn are_few(&self)
        ensures { length self.now.atoms ≤ 2 ^ 31 }
    {
        let _entries = self.entries.len();
    }

    /// No atom has two numbers.
    pub fn are_apart(&self)
        ensures { AreApart self.now.atoms }
    {
        let _entries = &self.entries;
    }
}
