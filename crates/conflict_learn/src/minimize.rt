//! Minimization: which literals a learnt clause can do without, since they follow from its others
//! by reasons (Sörensson and Biere, SAT 2009). Reasons are followed to a depth of 200, and what was
//! found is remembered within one conflict. No contract rests on the answers, since each step left
//! out is resolved.
ghost use Rattle.std.specs.Prelude.{◌≡◌, ◌<◌, ◌≤◌, List, All, Some, length, IfSome, OnOk};
ghost use Rattle.conflict_learn.specs.Analysing.{step_at, KnownBy};

use crate::analysis::{Analysis, Mark};
use crate::reasons::{look_at_reason, place_of, reason_literals, step};
use clause_store::rows::Looked;
use clause_store::store::Store;
use std::alloc::{AllocError, Global};

// What was found before of a step that wasn't seen.
#[derive(Clone, Copy)]
pub enum Flag {
    Unknown,
    Implied,
    Needed,
}

// How deep reasons are followed.
const DEPTH: u32 = 200;

// Forgets what was found before.
pub fn reset_flags(flags: &mut Vec<Flag>, count: usize) -> Result<(), AllocError>
    ensures { OnOk result (length flags.new.items ≡ count) }
{
    flags.truncate(count);
    for flag in flags.iter_mut() {
        *flag = Flag::Unknown;
    }
    while flags.len() < count {
        flags.push(Flag::Unknown)?;
    }
    Ok(())
}

// The place of the step by which a literal of the reason is false, unless it is the literal that follows.
fn other_place(store: &Store, place: usize, reason: u64, looked: Looked, k: usize) -> Option<usize>
    requires within { place < length store.now.trail.steps }
    requires reason { (step_at store.now.trail.steps place).reason ≡ Some reason }
    requires looked { looked ≡ reason }
    ensures { IfSome result (λ below. below < place) }
{
    let own = step(store, place);
    let literals = reason_literals(store, place, reason, looked);
    if k >= literals.len() {
        return None;
    }
    let literal = literals[k];
    if literal == own.literal {
        return None;
    }
    Some(place_of(store, place, own.depth, literal))
}

// What is known of a step without a look at its reason.
#[derive(Clone, Copy)]
enum Known {
    Yes,
    No,
    By(u64),
}

// Whether the step's literal was seen, is of depth 0, or was found to follow or not.
fn recall(analysis: &Analysis, store: &Store, flags: &[Flag], place: usize) -> Known
    requires within { place < length store.now.trail.steps }
    requires marks { length analysis.now.marks ≡ length store.now.trail.steps }
    requires flags { length flags.now ≡ length store.now.trail.steps }
    ensures { KnownBy store.now.trail.steps place result }
{
    let own = step(store, place);
    if own.depth == 0 || analysis.is_seen_at(place) {
        return Known::Yes;
    }
    match flags[place] {
        Flag::Implied => Known::Yes,
        Flag::Needed => Known::No,
        Flag::Unknown => match own.reason {
            Some(reason) => Known::By(reason),
            None => Known::No,
        },
    }
}

// Whether the other literals of the step's reason follow from those that were seen, by reasons at most so deep.
fn all_follow(
    analysis: &Analysis,
    store: &mut Store,
    flags: &mut [Flag],
    place: usize,
    reason: u64,
    fuel: u32,
) -> bool
    requires within { place < length store.old.trail.steps }
    requires reason { (step_at store.old.trail.steps place).reason ≡ Some reason }
    requires marks { length analysis.now.marks ≡ length store.old.trail.steps }
    requires flags { length flags.old ≡ length store.old.trail.steps }
    ensures same { store.new ≡ store.old }
    ensures flags { length flags.new ≡ length flags.old }
{
    let looked = look_at_reason(store, place, reason);
    let count = reason_literals(store, place, reason, looked).len();
    for k in 0..count {
        if let Some(below) = other_place(store, place, reason, looked, k) {
            match recall(analysis, store, flags, below) {
                Known::Yes => {}
                Known::No => return false,
                Known::By(other) => {
                    if fuel == 0 {
                        return false;
                    }
                    if !all_follow(analysis, store, flags, below, other, fuel - 1) {
                        flags[below] = Flag::Needed;
                        return false;
                    }
                    flags[below] = Flag::Implied;
                }
            }
        }
    }
    true
}

// The reason by which the step's literal is left out of the learnt clause, if it is.
pub fn dispensable(
    analysis: &Analysis,
    store: &mut Store,
    flags: &mut [Flag],
    place: usize,
) -> Option<u64>
    requires within { place < length store.old.trail.steps }
    requires marks { length analysis.now.marks ≡ length store.old.trail.steps }
    requires flags { length flags.old ≡ length store.old.trail.steps }
    ensures same { store.new ≡ store.old }
    ensures flags { length flags.new ≡ length flags.old }
    ensures reason { IfSome result (λ reason. (step_at store.old.trail.steps place).reason ≡ Some reason) }
{
    let own = step(store, place);
    let Some(reason) = own.reason else {
        return None;
    };
    if own.depth == 0 {
        return Some(reason);
    }
    if all_follow(analysis, store, flags, place, reason, DEPTH) {
        Some(reason)
    } else {
        None
    }
}
