//! The choices of one search.
use crate::choices::Choices;
use crate::heap::Heap;
use crate::phases::Phases;
use crate::reduce::Uses;
use crate::restart::Restarts;
use crate::scores::Scores;
use literals::Literal;
use rand_core::utils::NextWord;
use rand_pcg::Pcg32;
use std::alloc::{AllocError, Global};

// One decision in so many takes a sign that is drawn.
const RARE: u32 = 256;

/// What the choices are made from.
#[derive(Drop)]
pub struct Order {
    scores: Scores,
    heap: Heap,
    phases: Phases,
    // by atom: the conflict in which it was raised last
    raised: Vec<u64>,
    conflicts: u64,
    restarts: Restarts,
    uses: Uses,
    choices: Choices,
    draws: Pcg32,
    // to which depth decisions that were taken back for a clause had been looked at
    looked: u32,
}

impl Order {
    /// Of no atoms, for the worker of this number, by its choices. They are drawn by the generator that starts at the seed plus the worker's number, on the stream of that number: now and then the sign of a decision, and first scores and signs where these say so.
    pub fn new(alloc: Global, seed: u64, worker: u8) -> Order {
        let stream = u64::from(worker);
        let choices = Choices::of(worker);
        Order {
            scores: Scores::new(alloc),
            heap: Heap::new(alloc),
            phases: Phases::new(alloc),
            raised: Vec::new(alloc),
            conflicts: 0,
            restarts: Restarts::new(choices.luby),
            uses: Uses::new(alloc),
            choices,
            draws: Pcg32::new(seed.wrapping_add(stream), stream),
            looked: 0,
        }
    }

    // One atom more.
    fn push(&mut self, atom: u32) -> Result<(), AllocError> {
        let word = if self.choices.draws() {
            self.draws.next_word()
        } else {
            0
        };
        self.phases.push(self.choices.first_sign(word))?;
        self.raised.push(0)?;
        self.heap.make_room()?;
        self.scores.push(self.choices.first_score(atom, word))?;
        self.heap.insert(&self.scores, atom);
        Ok(())
    }

    /// Knows so many atoms, and has room for them.
    pub fn grow(&mut self, atoms: u32) -> Result<(), AllocError> {
        let known = self.scores.len();
        if known >= atoms as usize {
            return Ok(());
        }
        for atom in known as u32..atoms {
            self.push(atom)?;
        }
        Ok(())
    }

    /// Lets every atom wait.
    pub fn refill(&mut self) {
        for atom in 0..self.raised.len() {
            if atom < 1 << 31 {
                self.heap.insert(&self.scores, atom as u32);
            }
        }
    }

    /// How many atoms wait for a decision at most.
    pub fn waiting(&self) -> usize {
        self.heap.len()
    }

    /// The atom to decide next, with the sign to try first. It waits no longer.
    pub fn take(&mut self) -> Option<Literal> {
        let atom = self.heap.take(&self.scores)?;
        if atom >= 1 << 31 {
            return None;
        }
        Some(Literal::new(atom, self.first_sign(atom)))
    }

    // The sign that the atom had last, or rarely one that is drawn.
    fn first_sign(&mut self, atom: u32) -> bool {
        let word = self.draws.next_word();
        if word % RARE == 0 {
            word >> 31 == 1
        } else {
            self.phases.of(atom)
        }
    }

    /// A literal is taken back: its atom waits again, with this sign first where signs are saved.
    pub fn release(&mut self, literal: Literal) {
        let atom = literal.atom();
        if self.choices.saves_signs {
            self.phases.save(atom, literal.is_positive());
        }
        self.heap.insert(&self.scores, atom);
    }

    /// An atom of a clause that a conflict comes from.
    pub fn raise(&mut self, atom: u32) {
        let i = atom as usize;
        if i >= self.raised.len() || self.raised[i] == self.conflicts {
            return;
        }
        self.raised[i] = self.conflicts;
        self.scores.raise(atom);
        self.heap.raised(&self.scores, atom);
    }

    /// A clause that a conflict comes from, or a new one.
    pub fn note_use(&mut self, id: u64) -> Result<(), AllocError> {
        self.uses.note(id)
    }

    /// Some decisions above others are taken back for a clause; up to this depth they were looked at. Most of them are made again at once.
    pub fn go_back(&mut self, depth: u32) {
        self.looked = self.looked.max(depth);
    }

    /// Whether a look at so many decisions is worth while. It isn't as long as decisions are made again that were looked at before (compare trail saving: Hickey and Bacchus, SAT 2020).
    pub fn looks(&mut self, depth: u32) -> bool {
        if depth < self.looked {
            return false;
        }
        self.looked = 0;
        true
    }

    /// The next decisions are others, so each is worth a look.
    pub fn look_again(&mut self) {
        self.looked = 0;
    }

    /// A conflict begins.
    pub fn begin_conflict(&mut self) {
        self.conflicts = self.conflicts.saturating_add(1);
        self.scores.decay();
    }

    /// After a conflict: whether all decisions are to be taken back.
    pub fn restarts(&mut self) -> bool {
        self.restarts.is_due()
    }

    /// After a conflict: whether learnt clauses are to be forgotten.
    pub fn forgets(&mut self) -> bool {
        self.choices.forgets && self.uses.is_due()
    }

    /// Whether atoms of clauses beside a conflict are to be raised as those in it are.
    pub fn raises_reasons(&self) -> bool {
        self.choices.raises_reasons
    }

    /// Whether the learnt clause of this id wasn't used since this was asked last.
    pub fn is_idle(&mut self, id: u64) -> bool {
        self.uses.is_idle(id)
    }
}
