//! Whether a name is free in a term.
ghost use Rattle.std.specs.Prelude.{◌≡◌, ◌++◌, ◌+◌, ◌<◌, ◌≤◌, List, ℕ, ◌∷◌, length, reverse, true, false, not, ◌&&◌, if◌then◌else◌, OnOk, IfOk};
ghost use Rattle.smt_meaning.specs.declared.tokens.Token.{Token};
ghost use Rattle.smt_meaning.specs.declared.tokens.Word.{Word};
ghost use Rattle.smt_meaning.specs.Seen.{seen};
ghost use Rattle.smt_meaning.specs.Sexp.{word, ◌▸◌};
ghost use Rattle.smt_meaning.specs.Signature.{is_one_of};
ghost use Rattle.smt_meaning.specs.Sorts.{without, names_or_none, bound_names};
ghost use Rattle.look_ahead.specs.Ahead.{ahead, AreEnds};
ghost use Rattle.look_ahead.specs.Lets.{names_of};
ghost use Rattle.look_ahead.specs.Free.{IsSecond, Looks, Replaces, Follows, form_of, FormAt, first_free};

use crate::Names;
use crate::lets::{LetPlaces, is_one_of, let_places, names_bound};
use crate::parts::{Part, part_at, skip};
use smt_laws::others_are_left_out;
use smt_meaning::{SExpr, TokenView, Word};
use std::alloc::{AllocError, Global};

/// What is still to be looked through.
#[derive(Clone, Copy, Drop)]
pub(crate) enum Job {
    /// The rest of a list.
    Rest(usize),
    /// One s-expression.
    First(usize),
    /// A list, from its inside.
    Inside(usize),
    /// The terms of bindings.
    Bindings(usize),
    /// The body of a `let`, after its bindings.
    Body(LetPlaces),
    /// Names past so many are no more hidden.
    Unhide(usize),
}

/// The rest of a list.
fn look_through_rest(
    term: &SExpr,
    ends: &[usize],
    place: usize,
    jobs: &mut Vec<Job>,
) -> Result<(), AllocError>
    requires { AreEnds term.now ends.now }
    ensures { OnOk result (Replaces term.now (Job.Rest place ∷ reverse jobs.old.items) (reverse jobs.new.items)) }
{
    if let Some(next) = skip(term, ends, place) {
        jobs.push(Job::Rest(next))?;
        jobs.push(Job::First(place))?;
    }
    Ok(())
}

/// What a list begins with.
#[derive(Clone, Copy, Drop)]
pub(crate) enum Form {
    Let,
    Annotation,
    /// A list that stands as its head, up to its `)`.
    Head(usize),
    Other,
}

fn word_form(word: Word) -> Form
    ensures { result ≡ form_of (Token.Reserved word) }
{
    match word {
        Word::Let => Form::Let,
        Word::Exclamation => Form::Annotation,
        Word::Underscore => Form::Other,
        Word::As => Form::Other,
        Word::Exists => Form::Other,
        Word::Forall => Form::Other,
        Word::Match => Form::Other,
        Word::Par => Form::Other,
    }
}

fn token_form(token: TokenView<'_>) -> Form
    ensures { result ≡ form_of (seen token.entry) }
{
    match token {
        TokenView::Reserved(word) => word_form(word),
        _ => Form::Other,
    }
}

/// What the list begins with whose inside begins at a place.
fn form_at(term: &SExpr, ends: &[usize], place: usize) -> Form
    requires { AreEnds term.now ends.now }
    ensures { FormAt term.now place result }
{
    match part_at(term, ends, place) {
        Part::End => Form::Other,
        Part::Word(token) => token_form(token),
        Part::List(close) => Form::Head(close),
    }
}

/// A list, from its inside. Nothing of a list that stands as its head is free.
fn look_inside(
    term: &SExpr,
    ends: &[usize],
    place: usize,
    jobs: &mut Vec<Job>,
) -> Result<(), AllocError>
    requires { AreEnds term.now ends.now }
    ensures { OnOk result (Replaces term.now (Job.Inside place ∷ reverse jobs.old.items) (reverse jobs.new.items)) }
{
    match form_at(term, ends, place) {
        Form::Let => look_into_let(term, ends, place, jobs),
        Form::Annotation => {
            jobs.push(Job::First(place + 1))?;
            Ok(())
        }
        Form::Head(close) => {
            jobs.push(Job::Rest(close + 1))?;
            Ok(())
        }
        Form::Other => {
            jobs.push(Job::Rest(place))?;
            Ok(())
        }
    }
}

/// A list that begins with `let`, from its inside.
fn look_into_let(
    term: &SExpr,
    ends: &[usize],
    place: usize,
    jobs: &mut Vec<Job>,
) -> Result<(), AllocError>
    requires ends { AreEnds term.now ends.now }
    requires word { ahead term.now place ≡ word (Token.Reserved Word.Let) ▸ ahead term.now (place + 1) }
    requires within { place < length term.now }
    ensures { OnOk result (Replaces term.now (Job.Inside place ∷ reverse jobs.old.items) (reverse jobs.new.items)) }
{
    match let_places(term, ends, place + 1) {
        Some(places) => {
            jobs.push(Job::Body(places))?;
            jobs.push(Job::Bindings(places.bindings))?;
            Ok(())
        }
        None => {
            jobs.push(Job::Rest(place))?;
            Ok(())
        }
    }
}

/// The place of the second of two s-expressions that fill a list.
fn second(term: &SExpr, ends: &[usize], place: usize) -> Option<usize>
    requires { AreEnds term.now ends.now }
    ensures { IsSecond term.now place result }
{
    match skip(term, ends, place) {
        Some(next) => match skip(term, ends, next) {
            Some(after) => match part_at(term, ends, after) {
                Part::End => Some(next),
                _ => None,
            },
            None => None,
        },
        None => None,
    }
}

/// The terms of bindings.
fn look_through_bindings(
    term: &SExpr,
    ends: &[usize],
    place: usize,
    jobs: &mut Vec<Job>,
) -> Result<(), AllocError>
    requires { AreEnds term.now ends.now }
    ensures { OnOk result (Replaces term.now (Job.Bindings place ∷ reverse jobs.old.items) (reverse jobs.new.items)) }
{
    match part_at(term, ends, place) {
        Part::End => Ok(()),
        Part::Word(_) => {
            jobs.push(Job::Bindings(place + 1))?;
            Ok(())
        }
        Part::List(close) => {
            jobs.push(Job::Bindings(close + 1))?;
            if let Some(bound) = second(term, ends, place + 1) {
                jobs.push(Job::First(bound))?;
            }
            Ok(())
        }
    }
}

/// Whether one of the names is it, and isn't hidden.
fn is_free<N: Names>(names: &N, hidden: &[&[u8]], name: &[u8]) -> bool
    ensures { result ≡ is_one_of name.now (without (names_of hidden.now) (N.names names.now)) }
{
    others_are_left_out();
    if is_one_of(name, hidden) {
        return false;
    }
    names.binds(name)
}

/// One s-expression, and whether it is a symbol that is free.
fn look_at<N: Names>(
    names: &N,
    term: &SExpr,
    ends: &[usize],
    place: usize,
    jobs: &mut Vec<Job>,
    hidden: &[&[u8]],
) -> Result<bool, AllocError>
    requires { AreEnds term.now ends.now }
    ensures { IfOk result (λ b. Looks term.now (N.names names.now) (names_of hidden.now) (Job.First place ∷ reverse jobs.old.items) (names_of hidden.now) (reverse jobs.new.items) b) }
{
    match part_at(term, ends, place) {
        Part::End => Ok(false),
        Part::Word(TokenView::Symbol(name)) => Ok(is_free(names, hidden, name)),
        Part::Word(_) => Ok(false),
        Part::List(_) => {
            jobs.push(Job::Inside(place + 1))?;
            Ok(false)
        }
    }
}

/// Hides the names of bindings.
fn hide<'a>(
    alloc: Global,
    term: &'a SExpr,
    ends: &[usize],
    bindings: usize,
    hidden: &mut Vec<&'a [u8]>,
) -> Result<(), AllocError>
    requires { AreEnds term.now ends.now }
    ensures { OnOk result (names_of hidden.new.items ≡ names_of hidden.old.items ++ names_or_none (bound_names (ahead term.now bindings))) }
{
    match names_bound(alloc, term, ends, bindings) {
        Ok(Some(names)) => {
            hidden.extend_from_slice(&names)?;
            Ok(())
        }
        Ok(None) => Ok(()),
        Err(AllocError) => Err(AllocError),
    }
}

/// The body of a `let`, under the names that it binds.
fn open_body<'a>(
    alloc: Global,
    term: &'a SExpr,
    ends: &[usize],
    places: LetPlaces,
    jobs: &mut Vec<Job>,
    hidden: &mut Vec<&'a [u8]>,
) -> Result<(), AllocError>
    requires { AreEnds term.now ends.now }
    ensures { OnOk result (Follows term.now (names_of hidden.old.items) (Job.Body places ∷ reverse jobs.old.items) (names_of hidden.new.items) (reverse jobs.new.items)) }
{
    let count = hidden.len();
    hide(alloc, term, ends, places.bindings, hidden)?;
    jobs.push(Job::Unhide(count))?;
    jobs.push(Job::First(places.body))?;
    Ok(())
}

/// One job, and whether something free is found.
fn look_once<'a, N: Names>(
    alloc: Global,
    names: &N,
    term: &'a SExpr,
    ends: &[usize],
    job: Job,
    jobs: &mut Vec<Job>,
    hidden: &mut Vec<&'a [u8]>,
) -> Result<bool, AllocError>
    requires { AreEnds term.now ends.now }
    ensures { IfOk result (λ b. Looks term.now (N.names names.now) (names_of hidden.old.items) (job ∷ reverse jobs.old.items) (names_of hidden.new.items) (reverse jobs.new.items) b) }
{
    match job {
        Job::Rest(place) => {
            look_through_rest(term, ends, place, jobs)?;
            Ok(false)
        }
        Job::First(place) => look_at(names, term, ends, place, jobs, hidden),
        Job::Inside(place) => {
            look_inside(term, ends, place, jobs)?;
            Ok(false)
        }
        Job::Bindings(place) => {
            look_through_bindings(term, ends, place, jobs)?;
            Ok(false)
        }
        Job::Body(places) => {
            open_body(alloc, term, ends, places, jobs, hidden)?;
            Ok(false)
        }
        Job::Unhide(count) => {
            hidden.truncate(count);
            Ok(false)
        }
    }
}

/// Whether one of the names occurs free in the term at a place.
pub(crate) fn first_has_free<N: Names>(
    alloc: Global,
    names: &N,
    term: &SExpr,
    ends: &[usize],
    place: usize,
) -> Result<bool, AllocError>
    requires { AreEnds term.now ends.now }
    ensures { IfOk result (λ b. first_free (N.names names.now) (ahead term.now place) ≡ b) }
{
    let mut hidden = Vec::new(alloc);
    let mut jobs = Vec::new(alloc);
    jobs.push(Job::First(place))?;
    while let Some(job) = jobs.pop() {
        if look_once(alloc, names, term, ends, job, &mut jobs, &mut hidden)? {
            return Ok(true);
        }
    }
    Ok(false)
}
