//! The atoms that wait for a decision, in a binary heap with the greatest score on top.
use crate::scores::Scores;
use std::alloc::{AllocError, Global};

// The place of an atom that isn't in the heap.
const NOWHERE: u32 = u32::MAX;

// No heap is higher, since atoms have 31 bits.
const HEIGHT: u32 = 32;

#[derive(Drop)]
pub struct Heap {
    atoms: Vec<u32>,
    // by atom
    places: Vec<u32>,
}

fn word(words: &[u32], i: usize) -> u32 {
    if i < words.len() { words[i] } else { 0 }
}

fn put(words: &mut [u32], i: usize, value: u32) {
    if i < words.len() {
        words[i] = value;
    }
}

fn short(i: usize) -> u32 {
    if i < 1 << 31 { i as u32 } else { NOWHERE }
}

fn settle(atoms: &mut [u32], places: &mut [u32], i: usize, atom: u32) {
    put(atoms, i, atom);
    put(places, atom as usize, short(i));
}

// Moves the atom at this place up, past those of lesser scores.
fn rise(atoms: &mut [u32], places: &mut [u32], scores: &Scores, start: usize) {
    let atom = word(atoms, start);
    let score = scores.of(atom);
    let mut i = start;
    for _ in 0..HEIGHT {
        if i == 0 {
            break;
        }
        let above = (i - 1) / 2;
        let other = word(atoms, above);
        if scores.of(other) >= score {
            break;
        }
        settle(atoms, places, i, other);
        i = above;
    }
    settle(atoms, places, i, atom);
}

// The place of the greater of the one or two atoms below this place.
fn greater_below(atoms: &[u32], scores: &Scores, i: usize) -> usize {
    if i >= atoms.len() / 2 {
        return i;
    }
    let left = 2 * i + 1;
    let right = left + 1;
    if right < atoms.len() && scores.of(word(atoms, right)) > scores.of(word(atoms, left)) {
        right
    } else {
        left
    }
}

// Moves the atom on top down, past those of greater scores.
fn sink(atoms: &mut [u32], places: &mut [u32], scores: &Scores) {
    let atom = word(atoms, 0);
    let score = scores.of(atom);
    let mut i = 0;
    for _ in 0..HEIGHT {
        let below = greater_below(atoms, scores, i);
        if below == i {
            break;
        }
        let other = word(atoms, below);
        if scores.of(other) <= score {
            break;
        }
        settle(atoms, places, i, other);
        i = below;
    }
    settle(atoms, places, i, atom);
}

impl Heap {
    pub fn new(alloc: Global) -> Heap {
        Heap {
            atoms: Vec::new(alloc),
            places: Vec::new(alloc),
        }
    }

    pub fn len(&self) -> usize {
        self.atoms.len()
    }

    // Has room for one atom more, which isn't in the heap yet.
    pub fn make_room(&mut self) -> Result<(), AllocError> {
        self.places.push(NOWHERE)?;
        self.atoms
            .reserve(self.places.len().saturating_sub(self.atoms.len()))?;
        Ok(())
    }

    pub fn insert(&mut self, scores: &Scores, atom: u32) {
        if word(&self.places, atom as usize) != NOWHERE {
            return;
        }
        let place = self.atoms.len();
        if self.atoms.push(atom).is_ok() {
            rise(&mut self.atoms, &mut self.places, scores, place);
        }
    }

    // The score of this atom has grown.
    pub fn raised(&mut self, scores: &Scores, atom: u32) {
        let place = word(&self.places, atom as usize);
        if place != NOWHERE {
            rise(&mut self.atoms, &mut self.places, scores, place as usize);
        }
    }

    // Takes the atom of the greatest score.
    pub fn take(&mut self, scores: &Scores) -> Option<u32> {
        let top = word(&self.atoms, 0);
        let last = self.atoms.pop()?;
        put(&mut self.places, top as usize, NOWHERE);
        if !self.atoms.is_empty() {
            put(&mut self.atoms, 0, last);
            sink(&mut self.atoms, &mut self.places, scores);
        }
        Some(top)
    }
}
