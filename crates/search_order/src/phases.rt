//! The sign that an atom had last, which is tried first when it is decided again (Pipatsrisawat and
//! Darwiche).
use std::alloc::{AllocError, Global};

#[derive(Drop)]
pub struct Phases {
    // by atom
    positive: Vec<bool>,
}

impl Phases {
    pub fn new(alloc: Global) -> Phases {
        Phases {
            positive: Vec::new(alloc),
        }
    }

    // One atom more.
    pub fn push(&mut self, positive: bool) -> Result<(), AllocError> {
        self.positive.push(positive)?;
        Ok(())
    }

    pub fn of(&self, atom: u32) -> bool {
        let i = atom as usize;
        i < self.positive.len() && self.positive[i]
    }

    pub fn save(&mut self, atom: u32, positive: bool) {
        let i = atom as usize;
        if i < self.positive.len() {
            self.positive[i] = positive;
        }
    }
}
