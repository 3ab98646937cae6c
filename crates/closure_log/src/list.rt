//! The wide `xor`s of a stack, and clauses of those that come to press.
ghost use Rattle.std.specs.Prelude.{◌≡◌, ◌+◌, List, ℕ, false, IfOk, IfSome, OnOk};
ghost use Rattle.congruence.specs.Implied.{IsPressingLemma};
ghost use Rattle.check_atoms.specs.Parts.{IsMarked};
ghost use Rattle.closure_log.specs.Seen.{state_of, IsSetting};
ghost use Rattle.closure_log.specs.Parts.{IsWideXor, AreWideXorsBelow, AreWideXors, IsPlacedLog};

use crate::clause::{pressing, wide_arguments};
use crate::{is_open, keep};
use atom_form::{AtomNumbers, CompactAtom};
use literals::Literal;
use scope_stack::Stack;
use search_port::Lemma;
use smt_meaning::TermId;
use std::alloc::{AllocError, Global};

/// How many clauses are given in a call.
const GIVEN: usize = 8;

/// How many parts are looked at in a call.
const LOOKS: usize = 1024;

/// Whether a term is marked, and a wide `xor`.
fn is_marked_xor(stack: &Stack, marks: &[bool], place: TermId) -> bool
    ensures { result ≡ false → (is : List ℕ) → IsMarked marks.now place → IsWideXor stack.now.trees place is → ⊥ }
{
    if place as usize >= marks.len() || !marks[place as usize] {
        return false;
    }
    wide_arguments(stack, place).is_some()
}

/// Adds a term, if it is a marked wide `xor`.
fn add_if_wide(
    parts: &mut Vec<TermId>,
    stack: &Stack,
    marks: &[bool],
    place: TermId,
) -> Result<(), AllocError>
    ensures { OnOk result (AreWideXorsBelow stack.now.trees marks.now place parts.old.items → AreWideXorsBelow stack.now.trees marks.now (place + 1) parts.new.items) }
{
    if is_marked_xor(stack, marks, place) {
        parts.push(place)?;
    }
    Ok(())
}

/// The marked terms that are wide `xor`s, by their places. An `Err` is for want of memory.
pub fn wide_xors(alloc: Global, stack: &Stack, marks: &[bool]) -> Result<Vec<TermId>, AllocError>
    ensures { IfOk result (λ ps. AreWideXors stack.now.trees marks.now ps.items) }
{
    let mut parts = Vec::new(alloc);
    for place in 0..stack.terms().len() {
        add_if_wide(&mut parts, stack, marks, place)?;
    }
    Ok(parts)
}

/// The atoms of two terms of a part that were open when it was looked at last.
#[derive(Clone, Copy, Drop)]
struct Watch {
    first: u32,
    second: u32,
}

/// Two terms of each part of a list, and the part after that looked at last. They guide a search, and no contract speaks of them.
#[derive(Drop)]
pub struct Watches {
    watches: Vec<Watch>,
    next: usize,
}

fn is_open_atom(atoms: &AtomNumbers, places: &[usize], log: &[Literal], atom: u32) -> bool
    requires { IsPlacedLog atoms.now.atoms log.now places.now }
{
    (atom as usize) < places.len() && is_open(places, log, atom)
}

/// Finds two open terms, or as many as there are. Whether there are two.
fn find_open(
    atoms: &AtomNumbers,
    places: &[usize],
    log: &[Literal],
    watch: &mut Watch,
    terms: &[TermId],
) -> bool
    requires { IsPlacedLog atoms.now.atoms log.now places.now }
{
    for term in terms {
        if let Some(number) = atoms.find(CompactAtom::Truth(*term)) {
            if number != watch.first && is_open_atom(atoms, places, log, number) {
                if is_open_atom(atoms, places, log, watch.first) {
                    watch.second = number;
                    return true;
                }
                watch.first = number;
            }
        }
    }
    false
}

/// Whether two terms of a part are open.
fn has_two_open(
    stack: &Stack,
    atoms: &AtomNumbers,
    places: &[usize],
    log: &[Literal],
    part: TermId,
    watched: &mut Watch,
) -> bool
    requires { IsPlacedLog atoms.now.atoms log.now places.now }
{
    if watched.first != watched.second
        && is_open_atom(atoms, places, log, watched.first)
        && is_open_atom(atoms, places, log, watched.second)
    {
        return true;
    }
    let Some(arguments) = wide_arguments(stack, part) else {
        return false;
    };
    find_open(atoms, places, log, watched, &[part])
        || find_open(atoms, places, log, watched, arguments)
}

/// The clause of a part that presses.
fn look(
    alloc: Global,
    stack: &Stack,
    atoms: &AtomNumbers,
    places: &[usize],
    log: &[Literal],
    part: TermId,
    watched: &mut Watch,
) -> Result<Option<Lemma>, AllocError>
    requires setting { IsSetting stack.now atoms.now.atoms }
    requires log { IsPlacedLog atoms.now.atoms log.now places.now }
    ensures { IfOk result (λ o. IfSome o (IsPressingLemma (state_of stack.now atoms.now.atoms log.now))) }
{
    if has_two_open(stack, atoms, places, log, part, watched) {
        return Ok(None);
    }
    pressing(alloc, stack, atoms, places, log, part)
}

impl Watches {
    ghost use Rattle.std.specs.Prelude.{◌<◌, length, All, IfOk, IfSome};
    ghost use Rattle.congruence.specs.Implied.{IsPressingLemma};
    ghost use Rattle.closure_log.specs.Seen.{state_of, IsSetting};
    ghost use Rattle.closure_log.specs.Parts.{IsPlacedLog};

    /// No term is watched. It takes no memory.
    pub fn new(alloc: Global) -> Self {
        Watches {
            watches: Vec::new(alloc),
            next: 0,
        }
    }

    /// Makes room for so many parts. An `Err` is for want of memory.
    fn grow(&mut self, count: usize) -> Result<(), AllocError> {
        if self.watches.len() < count {
            let none = Watch {
                first: u32::MAX,
                second: u32::MAX,
            };
            self.watches.resize(count, none)?;
        }
        Ok(())
    }

    /// The place of the part to look at next, of so many.
    fn turn(&mut self, count: usize) -> Option<usize>
        ensures { IfSome result (λ at. (at < count) × (at < length self.new.watches.items)) }
    {
        let at = if self.next < count { self.next } else { 0 };
        self.next = at.saturating_add(1);
        if at < count && at < self.watches.len() {
            return Some(at);
        }
        None
    }

    /// Clauses of parts by which open terms follow, or that are false. An `Err` is for want of memory.
    pub fn follow(
        &mut self,
        alloc: Global,
        stack: &Stack,
        atoms: &AtomNumbers,
        places: &[usize],
        log: &[Literal],
        parts: &[TermId],
    ) -> Result<Vec<Lemma>, AllocError>
        requires setting { IsSetting stack.now atoms.now.atoms }
        requires log { IsPlacedLog atoms.now.atoms log.now places.now }
        ensures { IfOk result (λ cs. All (IsPressingLemma (state_of stack.now atoms.now.atoms log.now)) cs.items) }
    {
        let mut clauses = Vec::new(alloc);
        self.grow(parts.len())?;
        for turn in 0..parts.len().min(LOOKS) {
            if clauses.len() >= GIVEN {
                return Ok(clauses);
            }
            let Some(at) = self.turn(parts.len()) else {
                return Ok(clauses);
            };
            let found = look(
                alloc,
                stack,
                atoms,
                places,
                log,
                parts[at],
                &mut self.watches[at],
            )?;
            keep(&mut clauses, found)?;
        }
        Ok(clauses)
    }
}
