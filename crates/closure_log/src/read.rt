//! What a log says of the terms of a part.
ghost use Rattle.std.specs.Prelude.{◌≡◌, ◌∷◌, ◌++◌, [], ℕ, Bool, true, false, List, length, All, Contains, OnOk, IfOk, IfSome, IfNone, MatchOption};
ghost use Rattle.literals.specs.Signed.{opposite};
ghost use Rattle.smt_meaning.specs.declared.clauses.Atom.TheVariants.{Truth};
ghost use Rattle.smt_meaning.specs.Term.{xor};
ghost use Rattle.closure_log.specs.Parts.{IsPlacedLog};
ghost use Rattle.closure_log.specs.Read.{IsUntold, LacksOne, IsOpenTruth, IsToldTruth, IsSaid, IsRead};
ghost use Rattle.closure_log.specs.Whole.{Gives};

use crate::told_of;
use atom_form::{AtomNumbers, CompactAtom};
use literals::Literal;
use smt_meaning::TermId;
use std::alloc::{AllocError, Global};

/// What a log says of the truth of a term.
#[derive(Clone, Copy, Drop)]
pub(crate) enum Said {
    /// It has no number.
    Nothing,
    /// It is open, and this literal says that it is true.
    Open(Literal),
    /// This literal is told.
    Told(Literal),
}

/// What a log says of the truth of a term.
pub(crate) fn said_of(atoms: &AtomNumbers, places: &[usize], log: &[Literal], term: TermId) -> Said
    requires { IsPlacedLog atoms.now.atoms log.now places.now }
    ensures { IsSaid atoms.now.atoms log.now term result }
{
    let _few = atoms.len();
    let Some(number) = atoms.find(CompactAtom::Truth(term)) else {
        return Said::Nothing;
    };
    match told_of(places, log, number) {
        Some(literal) => Said::Told(literal),
        None => Said::Open(Literal::new(number, true)),
    }
}

/// The literal of the log on the truth of a term.
pub(crate) fn truth_told(
    atoms: &AtomNumbers,
    places: &[usize],
    log: &[Literal],
    term: TermId,
) -> Option<Literal>
    requires { IsPlacedLog atoms.now.atoms log.now places.now }
    ensures some { IfSome result (IsToldTruth atoms.now.atoms log.now term) }
    ensures one { IfSome result (λ l. (b : Bool) → Gives atoms.now.atoms log.now (Truth term) b → b ≡ l.positive) }
    ensures none { IfNone result ((b : Bool) → Gives atoms.now.atoms log.now (Truth term) b → ⊥) }
{
    atoms.are_apart();
    match said_of(atoms, places, log, term) {
        Said::Nothing => None,
        Said::Open(_) => None,
        Said::Told(literal) => Some(literal),
    }
}

/// How far the terms of a part were read.
#[derive(Drop)]
pub(crate) struct Read {
    /// Against each truth told.
    pub(crate) clause: Vec<Literal>,
    /// That the term is true that is open.
    pub(crate) open_truth: Option<Literal>,
    /// Whether an odd count of the truths told is true.
    pub(crate) is_odd: bool,
}

fn flipped(is_odd: bool, truth: bool) -> bool
    ensures { result ≡ xor is_odd truth }
{
    is_odd != truth
}

/// Adds a truth told. After an `Err` nothing is said.
fn add_told(read: &mut Read, literal: Literal) -> Result<(), AllocError>
    ensures clause { OnOk result (read.new.clause.items ≡ read.old.clause.items ++ opposite literal ∷ []) }
    ensures open { OnOk result (read.new.open_truth ≡ read.old.open_truth) }
    ensures odd { OnOk result (read.new.is_odd ≡ xor read.old.is_odd literal.positive) }
{
    read.clause.push(literal.negated())?;
    read.is_odd = flipped(read.is_odd, literal.is_positive());
    Ok(())
}

/// Reads one term more. False where its truth is not told, and it is not the only one.
fn read_term(
    read: &mut Read,
    atoms: &AtomNumbers,
    places: &[usize],
    log: &[Literal],
    term: TermId,
) -> Result<bool, AllocError>
    requires { IsPlacedLog atoms.now.atoms log.now places.now }
    ensures goes { IfOk result (λ goes. goes ≡ true → (ps : List ℕ) → IsRead atoms.now.atoms log.now ps read.old.clause.items read.old.open_truth read.old.is_odd → IsRead atoms.now.atoms log.now (ps ++ term ∷ []) read.new.clause.items read.new.open_truth read.new.is_odd) }
    ensures stops { IfOk result (λ goes. goes ≡ false → IsUntold atoms.now.atoms log.now term) }
{
    atoms.are_apart();
    match said_of(atoms, places, log, term) {
        Said::Nothing => Ok(false),
        Said::Open(literal) => {
            if read.open_truth.is_some() {
                return Ok(false);
            }
            read.open_truth = Some(literal);
            Ok(true)
        }
        Said::Told(literal) => {
            add_told(read, literal)?;
            Ok(true)
        }
    }
}

/// No term is read.
fn unread(alloc: Global) -> Read
    ensures clause { result.clause.items ≡ [] }
    ensures open { result.open_truth ≡ None }
    ensures odd { result.is_odd ≡ false }
{
    Read {
        clause: Vec::new(alloc),
        open_truth: None,
        is_odd: false,
    }
}

/// Reads a part and its arguments. None where a truth is not told, and isn't the only one.
pub(crate) fn read_part(
    alloc: Global,
    atoms: &AtomNumbers,
    places: &[usize],
    log: &[Literal],
    place: TermId,
    arguments: &[TermId],
) -> Result<Option<Read>, AllocError>
    requires { IsPlacedLog atoms.now.atoms log.now places.now }
    ensures { IfOk result (λ o. MatchOption o (LacksOne atoms.now.atoms log.now (place ∷ arguments.now)) (λ r. IsRead atoms.now.atoms log.now (place ∷ arguments.now) r.clause.items r.open_truth r.is_odd)) }
{
    let mut read = unread(alloc);
    if !read_term(&mut read, atoms, places, log, place)? {
        return Ok(None);
    }
    for argument in arguments {
        if !read_term(&mut read, atoms, places, log, *argument)? {
            return Ok(None);
        }
    }
    Ok(Some(read))
}
