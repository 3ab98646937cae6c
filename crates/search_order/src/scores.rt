//! Scores of atoms: those of recent conflicts have the greatest (Chaff's sum that decays, with
//! MiniSat's growing increment in place of the decay). Scores are whole numbers, scaled down
//! together when one grows too large.
use std::alloc::{AllocError, Global};

// A score above this one scales all down.
const LIMIT: u64 = 1 << 62;

// By how many bits all are scaled down.
const SCALE: u32 = 32;

const FIRST: u64 = 1 << 20;

#[derive(Drop)]
pub struct Scores {
    // by atom
    values: Vec<u64>,
    increment: u64,
}

fn scale_down(values: &mut [u64]) {
    for value in values.iter_mut() {
        *value >>= SCALE;
    }
}

impl Scores {
    pub fn new(alloc: Global) -> Scores {
        Scores {
            values: Vec::new(alloc),
            increment: FIRST,
        }
    }

    pub fn len(&self) -> usize {
        self.values.len()
    }

    // One atom more.
    pub fn push(&mut self, value: u64) -> Result<(), AllocError> {
        self.values.push(value)?;
        Ok(())
    }

    pub fn of(&self, atom: u32) -> u64 {
        let i = atom as usize;
        if i < self.values.len() {
            self.values[i]
        } else {
            0
        }
    }

    pub fn raise(&mut self, atom: u32) {
        let i = atom as usize;
        if i >= self.values.len() {
            return;
        }
        let value = self.values[i].saturating_add(self.increment);
        self.values[i] = value;
        if value > LIMIT {
            scale_down(&mut self.values);
            self.increment = (self.increment >> SCALE).saturating_add(1);
        }
    }

    // From now on atoms are raised by a nineteenth more.
    pub fn decay(&mut self) {
        self.increment = self.increment.saturating_add(self.increment / 19);
    }
}
