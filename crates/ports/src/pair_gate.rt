//! A gate at which two workers meet. It is the only thing here that waits, and tests alone use it.
use crate::gates::Gate;
use std::sync::atomic::AtomicBool;
use std::sync::atomic::Ordering::SeqCst;
use std::thread::yield_now;

/// How often a worker looks for the other one.
const LOOKS: u64 = 10_000_000;

/// A gate that holds each of the workers 0 and 1 in its first turn until the other has come to its
/// own, or until it has looked for it so often that it goes on alone.
#[derive(Drop)]
pub struct PairGate {
    first_came: AtomicBool,
    second_came: AtomicBool,
    first_found: AtomicBool,
    second_found: AtomicBool,
}

// Says that one has come, and looks for the other.
fn look(came: &AtomicBool, other: &AtomicBool, found: &AtomicBool) {
    came.store(true, SeqCst);
    for _ in 0..LOOKS {
        if other.load(SeqCst) {
            found.store(true, SeqCst);
            break;
        }
        yield_now();
    }
}

impl PairGate {
    /// A gate to which nobody has come.
    pub fn new() -> Self {
        PairGate {
            first_came: AtomicBool::new(false),
            second_came: AtomicBool::new(false),
            first_found: AtomicBool::new(false),
            second_found: AtomicBool::new(false),
        }
    }

    /// Whether both workers have found the other.
    pub fn met(&self) -> bool {
        self.first_found.load(SeqCst) && self.second_found.load(SeqCst)
    }
}

impl Gate for PairGate {
    fn turn(&self, worker: u8, unit: u64) {
        if unit > 0 {
            return;
        }
        if worker == 0 {
            look(&self.first_came, &self.second_came, &self.first_found);
        } else if worker == 1 {
            look(&self.second_came, &self.first_came, &self.second_found);
        }
    }
}
