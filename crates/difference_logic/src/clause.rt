//! The clauses that differences which don't all hold give.
ghost use Rattle.std.specs.Prelude.{◌≡◌, true, List, map, ◌∷◌, ◌++◌, All, Contains, OnOk, IfOk, IfSome};
ghost use Rattle.literals.specs.Signed.{Signed, opposite};
ghost use Rattle.difference_logic.specs.Clauses.{IsBroken, IsImpliedBy, IsTrueAnywhere};

use crate::cycle::{path_of, with_next};
use crate::difference::is_broken;
use atom_form::AtomNumbers;
use congruence::lemma_of;
use literals::Literal;
use search_port::Lemma;
use std::alloc::{AllocError, Global};

/// Whether a literal is told, where the places are those at which atoms were told.
fn is_told(log: &[Literal], places: &[usize], literal: Literal) -> bool
    ensures { result ≡ true → Contains log.now literal }
{
    let atom = literal.atom() as usize;
    if atom >= places.len() || places[atom] >= log.len() {
        return false;
    }
    log[places[atom]] == literal
}

/// Adds a literal.
fn add(literals: &mut Vec<Literal>, literal: Literal) -> Result<(), AllocError>
    ensures { OnOk result ((log : List Signed) → Contains log literal → All (Contains log) literals.old.items → All (Contains log) literals.new.items) }
{
    literals.push(literal)?;
    Ok(())
}

/// The literals with these codes, where all are told, by the places at which atoms were told. An `Err` is for want of memory.
pub fn told_literals(
    alloc: Global,
    log: &[Literal],
    places: &[usize],
    codes: &[u32],
) -> Result<Option<Vec<Literal>>, AllocError>
    ensures { IfOk result (λ o. IfSome o (λ ls. All (Contains log.now) ls.items)) }
{
    let mut literals = Vec::new(alloc);
    for code in codes {
        let literal = Literal::new(*code / 2, *code % 2 == 0);
        if !is_told(log, places, literal) {
            return Ok(None);
        }
        add(&mut literals, literal)?;
    }
    Ok(Some(literals))
}

/// Whether literals add up to what no numbers meet.
fn is_cycle(atoms: &AtomNumbers, literals: &[Literal]) -> bool
    ensures { result ≡ true → IsTrueAnywhere atoms.now.atoms (map opposite literals.now) }
{
    match path_of(atoms, literals) {
        Some(path) => is_broken(path),
        None => false,
    }
}

/// Adds the negations of literals.
fn add_negations(clause: &mut Vec<Literal>, literals: &[Literal]) -> Result<(), AllocError>
    ensures { OnOk result (clause.new.items ≡ clause.old.items ++ map opposite literals.now) }
{
    for literal in literals {
        clause.push(literal.negated())?;
    }
    Ok(())
}

/// The clause that not all of these literals hold, where each says a difference that begins where the one before it ends, and they come round to less than 0.
/// An `Err` is for want of memory.
pub fn broken(
    alloc: Global,
    atoms: &AtomNumbers,
    literals: &[Literal],
) -> Result<Option<Lemma>, AllocError>
    ensures { IfOk result (λ o. IfSome o (IsBroken atoms.now.atoms literals.now)) }
{
    if !is_cycle(atoms, literals) {
        return Ok(None);
    }
    let mut clause = Vec::new(alloc);
    add_negations(&mut clause, literals)?;
    Ok(Some(lemma_of(clause)))
}

/// Whether literals and the negation of one add up to what no numbers meet.
fn is_shown(atoms: &AtomNumbers, literal: Literal, reasons: &[Literal]) -> bool
    ensures { result ≡ true → IsTrueAnywhere atoms.now.atoms (literal ∷ map opposite reasons.now) }
{
    let Some(path) = path_of(atoms, reasons) else {
        return false;
    };
    match with_next(atoms, path, literal.negated()) {
        Some(round) => is_broken(round),
        None => false,
    }
}

/// The clause that a literal follows from reasons, where these and its negation are differences that come round to less than 0, each beginning where the one before
/// it ends. An `Err` is for want of memory.
pub fn implied(
    alloc: Global,
    atoms: &AtomNumbers,
    literal: Literal,
    reasons: &[Literal],
) -> Result<Option<Lemma>, AllocError>
    ensures { IfOk result (λ o. IfSome o (IsImpliedBy atoms.now.atoms literal reasons.now)) }
{
    if !is_shown(atoms, literal, reasons) {
        return Ok(None);
    }
    let mut clause = Vec::new(alloc);
    clause.push(literal)?;
    add_negations(&mut clause, reasons)?;
    Ok(Some(lemma_of(clause)))
}
