//! Taking what other workers have learnt.
ghost use Rattle.std.specs.Prelude.{◌≡◌, ◌≢◌, ◌<◌, ◌≤◌, ◌^◌, length, map, All, Contains, MatchBool, IfOk, IfSome, IfNone, OnOk};
ghost use Rattle.literals.specs.Signed.{Signed, opposite};
ghost use Rattle.smt_meaning.specs.declared.clauses.Literal.{Literal as LiteralValue};
ghost use Rattle.race_model.specs.declared.event.Entry.{Entry as EntryValue};
ghost use Rattle.race_model.specs.Laws.{IsSound};
ghost use Rattle.search_port.specs.State.{IsGrown};
ghost use Rattle.search_port.specs.Forcing.{HasNoPair};
ghost use Rattle.cdcl_core.specs.Search.{AreAddable, IsAddable};
ghost use Rattle.first_clauses.specs.PartClausesFirst.{written_literal};
ghost use Rattle.race_cell.specs.Passes.{base_of, claim_of, IsSamePass};
ghost use Rattle.worker.specs.Racing.{base_of_stack, first_reading, Adds, TakesOne};
ghost use Rattle.worker.specs.Import.{AreTaken, HasPair, IsTaken, MayTake, SaysSame, TakesBatch};

use literals::Literal as Packed;
use race_cell::{Batch, Pass, Race};
use race_model::{Entry, Shelf};
use scope_stack::Stack;
use search_port::{Lemma, Named, follows_as_written};
use smt_laws::{flat_says_the_same, still_follows_above};
use smt_meaning::{Clause, Literal, Seq};
use std::alloc::{AllocError, Global};

/// So many numbers of atoms have literals.
const MOST_ATOMS: u32 = 2147483648;

/// The literals over numbers, if each atom has one. An `Err` is for want of memory.
fn number_literals<T: Named>(
    alloc: Global,
    theory: &T,
    literals: &[Literal],
) -> Result<Option<Vec<Packed>>, AllocError>
    ensures within { IfOk result (λ o. IfSome o (λ v. All (λ (l : Signed). l.atom < length (T.state theory.now).reading.table) v.items)) }
    ensures same { IfOk result (λ o. IfSome o (λ v. map (written_literal (T.state theory.now).reading.table) v.items ≡ literals.now)) }
    ensures none { IfOk result (λ o. IfNone o (length (T.state theory.now).reading.table ≤ 2 ^ 31 → ((l : LiteralValue) → Contains literals.now l → Contains (T.state theory.now).reading.table l.atom) → ⊥)) }
{
    let mut numbers = Vec::new(alloc);
    for literal in literals {
        let Some(number) = theory.number(&literal.atom) else {
            return Ok(None);
        };
        if number >= MOST_ATOMS {
            return Ok(None);
        }
        numbers.push(Packed::new(number, literal.positive))?;
    }
    Ok(Some(numbers))
}

/// Whether an atom stands there with both signs.
fn has_pair(literals: &[Packed]) -> bool
    ensures { MatchBool result (HasPair literals.now) (HasNoPair literals.now) }
{
    for literal in literals {
        if literals.contains(&literal.negated()) {
            return true;
        }
    }
    false
}

/// The clause over numbers at level 0, if each atom has one and none stands in it with both signs. An `Err` is for want of memory.
fn number_clause<T: Named>(
    alloc: Global,
    stack: &Stack,
    theory: &T,
    clause: &Clause,
) -> Result<Option<Lemma>, AllocError>
    requires heard { IsGrown (first_reading stack.now) (T.state theory.now).reading }
    requires sound { IsSound (base_of_stack stack.now) clause.now }
    ensures addable { IfOk result (λ o. IfSome o (IsAddable (T.state theory.now).reading)) }
    ensures same { IfOk result (λ o. IfSome o (SaysSame (T.state theory.now).reading.table clause.now.literals)) }
    ensures none { IfOk result (λ o. IfNone o (length (T.state theory.now).reading.table ≤ 2 ^ 31 → MayTake (T.state theory.now).reading.table clause.now.literals → ⊥)) }
{
    let _ = stack;
    flat_says_the_same();
    follows_as_written();
    still_follows_above();
    let Some(literals) = number_literals(alloc, theory, clause.literals.as_slice())? else {
        return Ok(None);
    };
    if has_pair(&literals) {
        return Ok(None);
    }
    Ok(Some(Lemma {
        literals: Seq::from_vec(literals),
        level: 0,
    }))
}

/// Adds the clause of an entry of another worker, if it may be taken. An `Err`, for want of memory, changes nothing.
fn take_entry<T: Named>(
    alloc: Global,
    stack: &Stack,
    theory: &T,
    worker: u8,
    entry: &Entry,
    lemmas: &mut Seq<Lemma>,
) -> Result<(), AllocError>
    requires heard { IsGrown (first_reading stack.now) (T.state theory.now).reading }
    requires sound { IsSound (base_of_stack stack.now) entry.now.clause }
    requires addable { AreAddable (T.state theory.now).reading lemmas.old }
    ensures addable { AreAddable (T.state theory.now).reading lemmas.new }
    ensures stay { OnOk result ((m : _) → Contains lemmas.old m → Contains lemmas.new m) }
    ensures taken { OnOk result (IsTaken (T.state theory.now).reading.table worker lemmas.new entry.now) }
{
    if entry.worker == worker {
        return Ok(());
    }
    if let Some(lemma) = number_clause(alloc, stack, theory, &entry.clause)? {
        lemmas.push(lemma)?;
    }
    Ok(())
}

/// Adds the clauses of entries of other workers that may be taken. After an `Err`, for want of memory, the first of them are there.
fn take_entries<T: Named>(
    alloc: Global,
    stack: &Stack,
    theory: &T,
    worker: u8,
    entries: &[Entry],
    lemmas: &mut Seq<Lemma>,
) -> Result<(), AllocError>
    requires heard { IsGrown (first_reading stack.now) (T.state theory.now).reading }
    requires sound { All (λ (e : EntryValue). IsSound (base_of_stack stack.now) e.clause) entries.now }
    requires addable { AreAddable (T.state theory.now).reading lemmas.old }
    ensures addable { AreAddable (T.state theory.now).reading lemmas.new }
    ensures taken { OnOk result (AreTaken (T.state theory.now).reading.table worker entries.now lemmas.new) }
{
    for entry in entries {
        take_entry(alloc, stack, theory, worker, entry, lemmas)?;
    }
    Ok(())
}

/// Takes a batch, in one try, and adds the clauses of it that may be taken. After an `Err`, for want of memory, the first of them are there.
pub(crate) fn take_clauses<S: Shelf, T: Named>(
    alloc: Global,
    stack: &Stack,
    race: &Race<S>,
    pass: &mut Pass<S>,
    theory: &T,
    lemmas: &mut Seq<Lemma>,
) -> Result<(), AllocError>
    requires race { pass.old.seat.table_id ≡ race.now.table.shared.table_id }
    requires base { (base_of S.state pass.old).base ≡ base_of_stack stack.now }
    requires heard { IsGrown (first_reading stack.now) (T.state theory.now).reading }
    requires addable { AreAddable (T.state theory.now).reading lemmas.old }
    ensures same { IsSamePass pass.old pass.new }
    ensures adds { (es : _) × TakesOne (claim_of pass.old).worker es × Adds es 0 (claim_of pass.old) (claim_of pass.new) }
    ensures addable { AreAddable (T.state theory.now).reading lemmas.new }
    ensures taken { OnOk result (TakesBatch (T.state theory.now).reading.table (base_of S.state pass.old) (claim_of pass.old) lemmas.old (claim_of pass.new) lemmas.new) }
{
    match race.take_batch(pass) {
        Batch::Batch(entries) => take_entries(alloc, stack, theory, pass.worker, &entries, lemmas),
        Batch::Busy => Ok(()),
        Batch::Memory => Ok(()),
    }
}
