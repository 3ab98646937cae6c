//! Terms and steps of a proof from its tokens.
ghost use Rattle.std.specs.Prelude.{◌≡◌, ◌<◌, ◌≤◌, ◌+◌, ℕ, length, Ok, Some, None, IfOk, IfSome, IfNone, MatchOption, true};
ghost use Rattle.smt_meaning.specs.Sexp.{Sexp, Sexps, ◌▸◌, end, sexp};
ghost use Rattle.proof_meaning.specs.Reading.{node_read, lists_of};
ghost use Rattle.look_ahead.specs.Ahead.{ahead, AreEnds};
ghost use Rattle.proof_read.specs.Reads.{IsReadStep, IsNoNode, StandsAt};
ghost use Rattle.proof_read.specs.ReadOut.{Sorts};

use crate::read_parts::{Progress, Source};
use crate::symbols::Symbols;
use proof_meaning::Step;
use smt_laws::s_expressions_read_back;
use smt_meaning::{Node, SExpr};
use std::alloc::{AllocError, Global};

/// What a step is read as.
#[derive(Drop)]
pub enum ReadStep {
    Step(Step),
    /// It is none, or it names a term or a step of a number that no term or step has.
    Wrong,
    /// It is a step, and a number that it writes leaves the range.
    Large,
}

/// Where the lists of a proof begin: the places of their first tokens, behind the parenthesis.
#[derive(Clone, Copy, Drop)]
pub struct ListPlaces {
    pub terms: usize,
    pub steps: usize,
}

/// The lists of terms and of steps, where the s-expression is two lists.
pub fn two_lists(proof: &SExpr, ends: &[usize]) -> Option<ListPlaces>
    requires ends { AreEnds proof.now ends.now }
    ensures some { IfSome result (λ l. lists_of (sexp proof.now) ≡ Some (ahead proof.now l.terms, ahead proof.now l.steps)) }
    ensures within { IfSome result (λ l. (l.terms ≤ length proof.now) × (l.steps ≤ length proof.now)) }
    ensures none { IfNone result (lists_of (sexp proof.now) ≡ None) }
{
    s_expressions_read_back();
    let _count = proof.len();
    let source = Source { proof, ends };
    let mut at = Progress::new(0);
    source.enter(&mut at)?;
    let terms_close = source.enter(&mut at)?;
    let terms = at.place;
    at.place = terms_close + 1;
    let steps_close = source.enter(&mut at)?;
    let steps = at.place;
    if !source.is_end(steps_close + 1) {
        return None;
    }
    Some(ListPlaces { terms, steps })
}

/// Where the s-expression that stands at a place ends, or that the list ends there.
pub fn next_place(proof: &SExpr, ends: &[usize], place: usize) -> Option<usize>
    requires ends { AreEnds proof.now ends.now }
    requires within { place ≤ length proof.now }
    ensures some { IfSome result (λ next. (x : Sexp) × StandsAt proof.now place x next) }
    ensures order { IfSome result (λ next. (place < next) × (next ≤ length proof.now)) }
    ensures none { IfNone result (ahead proof.now place ≡ end) }
{
    let source = Source { proof, ends };
    source.skip(place)
}

/// The term that stands at a place, unless there is none, or it names one of a number that no term has.
pub fn read_node(
    alloc: Global,
    symbols: &Symbols<'_>,
    proof: &SExpr,
    ends: &[usize],
    place: usize,
) -> Result<Option<Node>, AllocError>
    requires ends { AreEnds proof.now ends.now }
    requires within { place ≤ length proof.now }
    ensures { (x : Sexp) (rest : Sexps) → ahead proof.now place ≡ x ▸ rest
        → IfOk result (λ r. MatchOption r (IsNoNode symbols.now x) (λ n. node_read symbols.now x ≡ Some n)) }
{
    let source = Source { proof, ends };
    let mut at = Progress::new(place);
    match source.node(alloc, symbols, &mut at)? {
        Some(node) if at.near => Ok(Some(node)),
        Some(_) => Ok(None),
        None => Ok(None),
    }
}

/// The step that stands at a place.
pub fn read_step(
    alloc: Global,
    proof: &SExpr,
    ends: &[usize],
    place: usize,
) -> Result<ReadStep, AllocError>
    requires ends { AreEnds proof.now ends.now }
    requires within { place ≤ length proof.now }
    ensures { (x : Sexp) (rest : Sexps) → ahead proof.now place ≡ x ▸ rest → IfOk result (IsReadStep x) }
{
    let source = Source { proof, ends };
    let mut at = Progress::new(place);
    match source.step(alloc, &mut at)? {
        Some(step) => Ok(sorted(step, at)),
        None => Ok(ReadStep::Wrong),
    }
}

/// What a step is read as, by what was met on the way.
fn sorted(step: Step, at: Progress) -> ReadStep
    ensures { Sorts step at result }
{
    if !at.fits {
        ReadStep::Large
    } else if at.near {
        ReadStep::Step(step)
    } else {
        ReadStep::Wrong
    }
}
