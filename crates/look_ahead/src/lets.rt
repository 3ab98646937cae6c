//! The form of a `let`.
ghost use Rattle.std.specs.Prelude.{◌≡◌, ◌≤◌, List, ℕ, length, map, Some, None, [], OnOk, IfOk, IfErr, IfSome, IfNone, MatchOption};
ghost use Rattle.smt_meaning.specs.Signature.{is_one_of};
ghost use Rattle.smt_meaning.specs.Sorts.{Scope, bound_names, check_bindings, done};
ghost use Rattle.smt_laws.specs.Walk.{check_let};
ghost use Rattle.look_ahead.specs.Ahead.{ahead, AreEnds, IsWhyNoLet};
ghost use Rattle.look_ahead.specs.Lets.{IsLetAt, name_bound, BindingAt, names_of, IsDouble, IsWhyNoNames};

use crate::LookError;
use crate::parts::{Part, part_at, skip};
use smt_meaning::{Refusal, SExpr, Seq, TokenView};
use std::alloc::{AllocError, Global};
use term_store::{HashIndex, find, hash};

/// Where the parts of a `let` begin.
#[derive(Clone, Copy, Drop)]
pub(crate) struct LetPlaces {
    pub(crate) bindings: usize,
    pub(crate) body: usize,
}

/// The parts of a `let`, whose word stands before a place.
pub(crate) fn let_places(term: &SExpr, ends: &[usize], place: usize) -> Option<LetPlaces>
    requires { AreEnds term.now ends.now }
    ensures { IsLetAt term.now place result }
{
    match part_at(term, ends, place) {
        Part::List(close) => match skip(term, ends, close + 1) {
            Some(after) => match part_at(term, ends, after) {
                Part::End => Some(LetPlaces {
                    bindings: place + 1,
                    body: close + 1,
                }),
                _ => None,
            },
            None => None,
        },
        _ => None,
    }
}

/// The name of a binding, where the inside of its list begins at a place.
fn bound_name<'a>(term: &'a SExpr, ends: &[usize], place: usize) -> Option<&'a [u8]>
    requires { AreEnds term.now ends.now }
    ensures some { IfSome result (λ n. name_bound (ahead term.now place) ≡ Some n.now) }
    ensures none { IfNone result (name_bound (ahead term.now place) ≡ None) }
{
    match part_at(term, ends, place) {
        Part::Word(TokenView::Symbol(name)) => match skip(term, ends, place + 1) {
            Some(after) => match part_at(term, ends, after) {
                Part::End => Some(name),
                _ => None,
            },
            None => None,
        },
        _ => None,
    }
}

/// What stands among bindings.
pub(crate) enum Binding<'a> {
    /// Nothing more.
    Last,
    /// No binding.
    Malformed,
    /// A binding of this name, and the place after it.
    Named(&'a [u8], usize),
}

/// The binding at a place.
fn binding_at<'a>(term: &'a SExpr, ends: &[usize], place: usize) -> Binding<'a>
    requires { AreEnds term.now ends.now }
    ensures { BindingAt term.now place result }
{
    match part_at(term, ends, place) {
        Part::End => Binding::Last,
        Part::Word(_) => Binding::Malformed,
        Part::List(close) => match bound_name(term, ends, place + 1) {
            Some(name) => Binding::Named(name, close + 1),
            None => Binding::Malformed,
        },
    }
}

/// The names of bindings, or none where one hasn't the form.
pub(crate) fn names_bound<'a>(
    alloc: Global,
    term: &'a SExpr,
    ends: &[usize],
    place: usize,
) -> Result<Option<Vec<&'a [u8]>>, AllocError>
    requires { AreEnds term.now ends.now }
    ensures { IfOk result (λ o. MatchOption o (bound_names (ahead term.now place) ≡ None) (λ v. bound_names (ahead term.now place) ≡ Some (names_of v.items))) }
{
    let mut names = Vec::new(alloc);
    let mut at = place;
    while at < term.len() {
        match binding_at(term, ends, at) {
            Binding::Last => return Ok(Some(names)),
            Binding::Malformed => return Ok(None),
            Binding::Named(name, next) => {
                names.push(name)?;
                at = next;
            }
        }
    }
    Ok(Some(names))
}

/// Whether a name is one of these.
pub(crate) fn is_one_of(name: &[u8], names: &[&[u8]]) -> bool
    ensures { result ≡ is_one_of name.now (names_of names.now) }
{
    for other in names {
        if name == *other {
            return true;
        }
    }
    false
}

/// The place of the first name that stood before. Each name is found by its hash, so this takes time linear in their letters.
fn first_double(alloc: Global, names: &[&[u8]]) -> Result<Option<usize>, AllocError>
    ensures { IfOk result (IsDouble names.now) }
{
    if names.len() > u32::MAX as usize {
        return Err(AllocError);
    }
    let mut index = HashIndex::new(alloc);
    for place in 0..names.len() {
        match find(&names[..place], &index, names[place]) {
            Some(_) => return Ok(Some(place)),
            None => index.push(hash(names[place]))?,
        }
    }
    Ok(None)
}

/// Whether names may be bound together.
fn check_names(alloc: Global, names: &[&[u8]]) -> Result<(), LookError>
    ensures ok { OnOk result ((s : Scope) → check_bindings (Some (names_of names.now)) s ≡ done tt s) }
    ensures err { IfErr result (λ e. IsWhyNoNames (Some (names_of names.now)) e) }
{
    if names.is_empty() {
        return Err(LookError::Refused(Refusal::WrongArguments));
    }
    match first_double(alloc, names) {
        Ok(None) => Ok(()),
        Ok(Some(place)) => match Seq::copy(alloc, names[place]) {
            Ok(name) => Err(LookError::Refused(Refusal::AlreadyDeclared(name))),
            Err(AllocError) => Err(LookError::Memory),
        },
        Err(AllocError) => Err(LookError::Memory),
    }
}

/// Whether a `let`, whose word stands before a place, has its form and binds no name twice.
pub(crate) fn check(
    alloc: Global,
    term: &SExpr,
    ends: &[usize],
    place: usize,
) -> Result<(), LookError>
    requires ends { AreEnds term.now ends.now }
    ensures ok { OnOk result ((s : Scope) → check_let (ahead term.now place) s ≡ done tt s) }
    ensures err { IfErr result (λ e. IsWhyNoLet (ahead term.now place) e) }
{
    let bindings = match let_places(term, ends, place) {
        Some(places) => places.bindings,
        None => return Err(LookError::Refused(Refusal::WrongArguments)),
    };
    match names_bound(alloc, term, ends, bindings) {
        Ok(Some(names)) => check_names(alloc, &names),
        Ok(None) => Err(LookError::Refused(Refusal::WrongArguments)),
        Err(AllocError) => Err(LookError::Memory),
    }
}
