//! When learnt clauses are forgotten, and which: those that weren't used since they were looked
//! over last.
use std::alloc::{AllocError, Global};

// The conflicts before clauses are forgotten for the first time, and how many more each time.
const FIRST: u64 = 500;

const MORE: u64 = 100;

#[derive(Drop)]
pub struct Uses {
    // by id: whether it was used since
    used: Vec<bool>,
    wait: u64,
    left: u64,
}

impl Uses {
    pub fn new(alloc: Global) -> Uses {
        Uses {
            used: Vec::new(alloc),
            wait: FIRST,
            left: FIRST,
        }
    }

    // The clause of this id was used, or is new.
    pub fn note(&mut self, id: u64) -> Result<(), AllocError> {
        let i = id as usize;
        if i < self.used.len() {
            self.used[i] = true;
            return Ok(());
        }
        self.used.resize(i.saturating_add(1), true)?;
        Ok(())
    }

    // After a conflict: whether clauses are to be forgotten now.
    pub fn is_due(&mut self) -> bool {
        if self.left > 1 {
            self.left -= 1;
            return false;
        }
        self.wait = self.wait.saturating_add(MORE);
        self.left = self.wait;
        true
    }

    // Whether the clause of this id wasn't used since this was asked last.
    pub fn is_idle(&mut self, id: u64) -> bool {
        let i = id as usize;
        if i >= self.used.len() {
            return false;
        }
        let used = self.used[i];
        self.used[i] = false;
        !used
    }
}
