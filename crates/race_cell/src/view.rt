//! What a seat knows. No value of these is made.
//!
//! Why: a pass keeps counts of Busy answers, of slots given back and of looks in what it knows, so
//! that a body that always answers Busy or Memory, or never looks, is refused.
use crate::action::Action;
use std::collections::LinkedList;

/// What is known of one worker: its own actions, the shares and batches of the race that it has seen, the word that it found at WINNER,
/// and how many actions it had seen when it won.
pub struct Claim {
    pub worker: u8,
    pub own: LinkedList<Action>,
    pub seen: LinkedList<Action>,
    pub found: u64,
    pub place: u64,
    /// How often it found the slot out, gave it back as it was, and looked at WINNER.
    pub busy: u64,
    pub returned: u64,
    pub looks: u64,
}

/// The claims of a seat's workers, and whether the slot is out with it.
pub struct View<S> {
    /// The shelf as the race began.
    pub base: Option<S>,
    pub claims: LinkedList<Claim>,
    pub holds: bool,
}
