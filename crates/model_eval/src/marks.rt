//! Which terms of a store are parts of some terms.
ghost use Rattle.std.specs.Prelude.{ℕ, ◌≡◌, ◌+◌, ◌≤◌, ◌<◌, length, max, replicate, false, All, IfOk};
ghost use Rattle.model_eval.specs.Walk.{AreMarked, AreAdded};

use smt_meaning::TermId;
use std::alloc::{AllocError, Global};
use term_store::TermStore;

/// Marks these places besides.
fn mark_all(marks: &mut [bool], places: &[TermId])
    requires { All (λ i. i < length marks.old) places.now }
    ensures { AreAdded places.now marks.old marks.new }
{
    for place in places {
        marks[*place as usize] = true;
    }
}

/// Where the terms are marked, marks their parts too.
fn mark_parts(marks: &mut [bool], store: &TermStore, terms: &[TermId])
    requires within { length marks.old ≤ length store.now.trees }
    requires start { AreMarked store.now.trees terms.now (length marks.old) (length marks.old) marks.old }
    ensures { AreMarked store.now.trees terms.now (length marks.old) 0 marks.new }
{
    let _known = store.len();
    let mut bound = marks.len();
    while bound > 0 {
        bound -= 1;
        if marks[bound] {
            mark_all(marks, store.node(bound as u32).arguments);
        }
    }
}

/// Marks the terms and their parts.
fn mark(marks: &mut [bool], store: &TermStore, terms: &[TermId])
    requires within { length marks.old ≤ length store.now.trees }
    requires below { All (λ i. i < length marks.old) terms.now }
    requires fresh { marks.old ≡ replicate (length marks.old) false }
    ensures { AreMarked store.now.trees terms.now (length marks.old) 0 marks.new }
{
    mark_all(marks, terms);
    mark_parts(marks, store, terms);
}

/// The top so far, and one more term.
fn raised(top: usize, term: TermId) -> usize
    ensures { result ≡ max top (term + 1) }
{
    top.max(term as usize + 1)
}

/// One more than the greatest of the numbers, 0 where there are none.
fn top_of(terms: &[TermId]) -> usize
    ensures below { All (λ i. i < result) terms.now }
    ensures least { (n : ℕ) → All (λ i. i < n) terms.now → result ≤ n }
{
    let mut top = 0;
    for term in terms {
        top = raised(top, *term);
    }
    top
}

/// The marks of the terms and their parts, by their numbers.
pub(crate) fn parts_of(
    alloc: Global,
    store: &TermStore,
    terms: &[TermId],
) -> Result<Vec<bool>, AllocError>
    requires { All (λ i. i < length store.now.trees) terms.now }
    ensures marked { IfOk result (λ marks. AreMarked store.now.trees terms.now (length marks.items) 0 marks.items) }
    ensures below { IfOk result (λ marks. All (λ i. i < length marks.items) terms.now) }
    ensures within { IfOk result (λ marks. length marks.items ≤ length store.now.trees) }
    ensures least { IfOk result (λ marks. (n : ℕ) → All (λ i. i < n) terms.now → length marks.items ≤ n) }
{
    let mut marks = Vec::new(alloc);
    marks.resize(top_of(terms), false)?;
    mark(&mut marks, store, terms);
    Ok(marks)
}
