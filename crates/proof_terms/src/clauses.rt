//! The clauses of a proof's steps, as ascending lists of codes of literals.
ghost use Rattle.std.specs.Prelude.{◌≡◌, ◌≢◌, ◌<◌, ◌+◌, ◌*◌, ◌^◌, IfOk, OnOk, length};
ghost use Rattle.atom_form.specs.Compact.{atom_of};
ghost use Rattle.smt_meaning.specs.declared.clauses.Atom.TheVariants.{AtMost as BoundAtom};
ghost use Rattle.proof_meaning.specs.Proof.{literal};
ghost use Rattle.proof_terms.specs.Kept.{IsCodeOf, GoOn, sign_code};
ghost use Rattle.proof_terms.specs.ClausesLaid.{AllAscend, clauses_in};
ghost use Rattle.proof_terms.specs.ClausesMerged.{IsResolved};

use crate::clauses_laid::{append, clause_at, order};
use crate::clauses_merge::merge;
use atom_form::{AtomNumbers, CompactAtom};
use smt_meaning::{Atom, Summand, TermId};
use std::alloc::{AllocError, Global};
use std::marker::Model;
use std::mem;
use term_store::Rows;

/// The clauses of the steps so far, and the numbers of their atoms.
#[derive(Drop)]
pub struct Clauses {
    atoms: AtomNumbers,
    /// The codes of each clause.
    clauses: Rows<()>,
    scratch: Vec<u32>,
}

impl Model for Clauses {
    ghost use Rattle.proof_terms.specs.Kept.{Kept};

    ghost Value = { Kept };

    ghost use Rattle.proof_terms.specs.Kept.{kept_code};

    ghost coded = { kept_code };

    ghost use Rattle.proof_terms.specs.ClausesLaid.{AllAscend, clauses_in};

    ghost view = { λ c. record { atoms = c.atoms.atoms; clauses = clauses_in c.clauses } };

    ghost invariant = { λ c. AllAscend c.clauses };
}

/// Twice the number of an atom, and one more for the positive literal.
fn code_of(positive: bool, number: u32) -> u32
    requires { number < 2 ^ 31 }
    ensures { result ≡ number * 2 + sign_code positive }
{
    if positive { number * 2 + 1 } else { number * 2 }
}

/// The code of a literal on a truth or on an equality, whose atom gets a number.
fn core_code(atoms: &mut AtomNumbers, positive: bool, atom: CompactAtom) -> Result<u32, AllocError>
    ensures code { IfOk result (λ c. IsCodeOf atoms.new.atoms c (literal positive (atom_of atom))) }
    ensures atoms { GoOn atoms.old.atoms atoms.new.atoms }
{
    let number = atoms.number(atom)?;
    atoms.are_few();
    Ok(code_of(positive, number))
}

/// The code of a literal on a bound, whose atom gets a number.
fn bound_code(
    atoms: &mut AtomNumbers,
    positive: bool,
    sum: &[Summand],
    limit: i128,
) -> Result<u32, AllocError>
    ensures code { IfOk result (λ c. IsCodeOf atoms.new.atoms c (literal positive (BoundAtom sum.now limit))) }
    ensures atoms { GoOn atoms.old.atoms atoms.new.atoms }
{
    let number = atoms.number_bound(sum, limit)?;
    atoms.are_few();
    Ok(code_of(positive, number))
}

/// Adds the clause of two, without a literal of the one and its negation of the other.
fn resolve(
    clauses: &mut Rows<()>,
    scratch: &mut Vec<u32>,
    left: usize,
    right: usize,
    code: u32,
    negation: u32,
) -> Result<(), AllocError>
    requires ascend { AllAscend clauses.old }
    requires left { left < length clauses.old }
    requires right { right < length clauses.old }
    requires different { code ≢ negation }
    ensures ascend { AllAscend clauses.new }
    ensures ok { OnOk result (IsResolved (clauses_in clauses.old) (clauses_in clauses.new) left right code negation) }
{
    merge(
        clause_at(clauses, left),
        clause_at(clauses, right),
        code,
        negation,
        scratch,
    )?;
    append(clauses, scratch)
}

impl Clauses {
    ghost use Rattle.std.specs.Prelude.{◌≡◌, ◌≢◌, ◌<◌, ◌++◌, ◌∷◌, ℕ, List, [], length, Ok, IfOk, OnOk, slice_index_or};
    ghost use Rattle.smt_meaning.specs.declared.clauses.Literal.{Literal as LiteralValue};
    ghost use Rattle.smt_meaning.specs.declared.clauses.Atom.TheVariants.{Truth, Same, AtMost};
    ghost use Rattle.proof_meaning.specs.Proof.{literal};
    ghost use Rattle.proof_terms.specs.Kept.{Kept, AreCodesOf, IsCodeOf, KeepsAll, GoOn, AreApart};
    ghost use Rattle.proof_terms.specs.ClausesMerged.{IsResolved};

    /// No clause. It takes no memory.
    pub fn new(alloc: Global) -> Self
        ensures { result ≡ record { atoms = []; clauses = [] } }
    {
        Clauses {
            atoms: AtomNumbers::new(alloc),
            clauses: Rows::new(alloc),
            scratch: Vec::new(alloc),
        }
    }

    /// How many clauses there are.
    pub fn len(&self) -> usize
        ensures count { result ≡ length self.now.clauses }
        ensures apart { AreApart self.now.atoms }
    {
        self.atoms.are_apart();
        self.clauses.len()
    }

    /// The codes of a clause, ascending.
    pub fn clause(&self, place: usize) -> &[u32]
        requires { place < length self.now.clauses }
        ensures { slice_index_or self.now.clauses place [] ≡ result.now }
    {
        clause_at(&self.clauses, place)
    }

    /// The code of a literal on a truth, whose atom gets a number. An `Err` changes nothing.
    pub(crate) fn truth(&mut self, positive: bool, place: TermId) -> Result<u32, AllocError>
        ensures code { IfOk result (λ c. IsCodeOf self.new.atoms c (literal positive (Truth place))) }
        ensures atoms { GoOn self.old.atoms self.new.atoms }
        ensures clauses { self.new.clauses ≡ self.old.clauses }
        ensures codes { (c : ℕ) (l : LiteralValue) → IsCodeOf self.old.atoms c l → IsCodeOf self.new.atoms c l }
        ensures kept { (before : List (List LiteralValue)) → KeepsAll self.old before → KeepsAll self.new before }
    {
        core_code(&mut self.atoms, positive, CompactAtom::Truth(place))
    }

    /// The code of a literal on an equality, whose atom gets a number.
    pub fn same(&mut self, positive: bool, left: TermId, right: TermId) -> Result<u32, AllocError>
        ensures code { IfOk result (λ c. IsCodeOf self.new.atoms c (literal positive (Same left right))) }
        ensures atoms { GoOn self.old.atoms self.new.atoms }
        ensures clauses { self.new.clauses ≡ self.old.clauses }
        ensures codes { (c : ℕ) (l : LiteralValue) → IsCodeOf self.old.atoms c l → IsCodeOf self.new.atoms c l }
        ensures kept { (before : List (List LiteralValue)) → KeepsAll self.old before → KeepsAll self.new before }
    {
        core_code(&mut self.atoms, positive, CompactAtom::Same(left, right))
    }

    /// The code of a literal on a bound, whose atom gets a number.
    pub(crate) fn bound(
        &mut self,
        positive: bool,
        sum: &[Summand],
        limit: i128,
    ) -> Result<u32, AllocError>
        ensures code { IfOk result (λ c. IsCodeOf self.new.atoms c (literal positive (AtMost sum.now limit))) }
        ensures atoms { GoOn self.old.atoms self.new.atoms }
        ensures clauses { self.new.clauses ≡ self.old.clauses }
        ensures codes { (c : ℕ) (l : LiteralValue) → IsCodeOf self.old.atoms c l → IsCodeOf self.new.atoms c l }
        ensures kept { (before : List (List LiteralValue)) → KeepsAll self.old before → KeepsAll self.new before }
    {
        bound_code(&mut self.atoms, positive, sum, limit)
    }

    /// The code of a literal, whose atom gets a number.
    pub fn literal(&mut self, positive: bool, atom: &Atom) -> Result<u32, AllocError>
        ensures code { IfOk result (λ c. IsCodeOf self.new.atoms c (literal positive atom.now)) }
        ensures atoms { GoOn self.old.atoms self.new.atoms }
        ensures clauses { self.new.clauses ≡ self.old.clauses }
        ensures codes { (c : ℕ) (l : LiteralValue) → IsCodeOf self.old.atoms c l → IsCodeOf self.new.atoms c l }
        ensures kept { (before : List (List LiteralValue)) → KeepsAll self.old before → KeepsAll self.new before }
    {
        match atom {
            Atom::Truth(place) => self.truth(positive, *place),
            Atom::AtMost(sum, limit) => self.bound(positive, sum.as_slice(), *limit),
            Atom::Same(left, right) => self.same(positive, *left, *right),
        }
    }

    /// Keeps the clause of these codes, in any order and also twice; then the list has each of them once, ascending.
    pub fn keep(&mut self, codes: &mut Vec<u32>) -> Result<(), AllocError>
        ensures kept { OnOk result ((before : List (List LiteralValue)) (ls : List LiteralValue) → KeepsAll self.old before
            → AreCodesOf self.old.atoms codes.old.items ls → KeepsAll self.new (before ++ ls ∷ [])) }
        ensures atoms { self.new.atoms ≡ self.old.atoms }
    {
        order(codes);
        append(&mut self.clauses, codes)
    }

    /// Keeps the clause of two that are kept, without a code of the one and another of the other.
    pub fn resolve(
        &mut self,
        left: usize,
        right: usize,
        code: u32,
        negation: u32,
    ) -> Result<(), AllocError>
        requires left { left < length self.old.clauses }
        requires right { right < length self.old.clauses }
        requires different { code ≢ negation }
        ensures kept { OnOk result (IsResolved self.old.clauses self.new.clauses left right code negation) }
        ensures atoms { self.new.atoms ≡ self.old.atoms }
    {
        resolve(
            &mut self.clauses,
            &mut self.scratch,
            left,
            right,
            code,
            negation,
        )
    }

    /// An empty list whose memory was used before.
    pub fn take_scratch(&mut self, alloc: Global) -> Vec<u32>
        ensures empty { result.items ≡ [] }
        ensures same { self.new ≡ self.old }
    {
        let mut scratch = mem::replace(&mut self.scratch, Vec::new(alloc));
        scratch.clear();
        scratch
    }

    /// Takes a list back, for its memory.
    pub fn give_scratch(&mut self, scratch: Vec<u32>)
        ensures { self.new ≡ self.old }
    {
        self.scratch = scratch;
    }
}
