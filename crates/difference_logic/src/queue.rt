//! Nodes in the order of a key, the greatest first.
use std::alloc::{AllocError, Global};

/// No queue is higher than this, since places have 32 bits.
const HEIGHT: u32 = 33;

/// A node with its key.
#[derive(Clone, Copy, Drop)]
pub(crate) struct Waiting {
    pub(crate) key: i64,
    pub(crate) node: u32,
}

/// A binary heap.
#[derive(Drop)]
pub(crate) struct Queue {
    waiting: Vec<Waiting>,
}

fn at(waiting: &[Waiting], place: usize) -> Waiting {
    if place < waiting.len() {
        waiting[place]
    } else {
        Waiting {
            key: i64::MIN,
            node: 0,
        }
    }
}

fn put(waiting: &mut [Waiting], place: usize, one: Waiting) {
    if place < waiting.len() {
        waiting[place] = one;
    }
}

/// Moves what stands at a place up, past lesser keys.
fn rise(waiting: &mut [Waiting], start: usize) {
    let one = at(waiting, start);
    let mut place = start;
    for _ in 0..HEIGHT {
        if place == 0 {
            break;
        }
        let above = (place - 1) / 2;
        let other = at(waiting, above);
        if other.key >= one.key {
            break;
        }
        put(waiting, place, other);
        place = above;
    }
    put(waiting, place, one);
}

/// The place of the greater of the one or two below this place, or this place where there is none.
fn greater_below(waiting: &[Waiting], place: usize) -> usize {
    if place >= waiting.len() / 2 {
        return place;
    }
    let left = 2 * place + 1;
    let right = left + 1;
    if right < waiting.len() && at(waiting, right).key > at(waiting, left).key {
        right
    } else {
        left
    }
}

/// Moves what stands first down, past greater keys.
fn sink(waiting: &mut [Waiting]) {
    let one = at(waiting, 0);
    let mut place = 0;
    for _ in 0..HEIGHT {
        let below = greater_below(waiting, place);
        if below == place {
            break;
        }
        let other = at(waiting, below);
        if other.key <= one.key {
            break;
        }
        put(waiting, place, other);
        place = below;
    }
    put(waiting, place, one);
}

impl Queue {
    /// It takes no memory.
    pub(crate) fn new(alloc: Global) -> Self {
        Queue {
            waiting: Vec::new(alloc),
        }
    }

    pub(crate) fn clear(&mut self) {
        self.waiting.clear();
    }

    pub(crate) fn push(&mut self, key: i64, node: u32) -> Result<(), AllocError> {
        let place = self.waiting.len();
        self.waiting.push(Waiting { key, node })?;
        rise(&mut self.waiting, place);
        Ok(())
    }

    pub(crate) fn pop(&mut self) -> Option<Waiting> {
        let last = self.waiting.pop()?;
        if self.waiting.is_empty() {
            return Some(last);
        }
        let first = at(&self.waiting, 0);
        put(&mut self.waiting, 0, last);
        sink(&mut self.waiting);
        Some(first)
    }
}
