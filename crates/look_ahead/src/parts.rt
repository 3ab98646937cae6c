//! What stands at a place.
ghost use Rattle.std.specs.Prelude.{◌≡◌, ◌≤◌, length, false};
ghost use Rattle.smt_meaning.specs.Sorts.{are_attributes_from, Scope};
ghost use Rattle.smt_laws.specs.Walk.{check_annotation};
ghost use Rattle.look_ahead.specs.Ahead.{ahead, AreEnds, IsPart, Skips, GoesOn, checked};

use smt_meaning::{SExpr, TokenView};

/// The first of what is left of a list.
#[derive(Clone, Copy, Drop)]
pub(crate) enum Part<'a> {
    /// Nothing is left.
    End,
    /// A token that is no parenthesis.
    Word(TokenView<'a>),
    /// A list, up to its `)`.
    List(usize),
}

/// What stands at a place.
pub(crate) fn part_at<'a>(term: &'a SExpr, ends: &[usize], place: usize) -> Part<'a>
    requires { AreEnds term.now ends.now }
    ensures { IsPart term.now place result }
{
    if place >= term.len() {
        return Part::End;
    }
    match term.token(place) {
        TokenView::Enter => Part::List(ends[place]),
        TokenView::Leave => Part::End,
        token => Part::Word(token),
    }
}

/// The place after the s-expression at a place.
pub(crate) fn skip(term: &SExpr, ends: &[usize], place: usize) -> Option<usize>
    requires { AreEnds term.now ends.now }
    ensures { Skips term.now place result }
{
    match part_at(term, ends, place) {
        Part::End => None,
        Part::Word(_) => Some(place + 1),
        Part::List(close) => Some(close + 1),
    }
}

/// Whether an annotation, whose `!` stands before a place, has its form.
pub(crate) fn is_annotation(term: &SExpr, ends: &[usize], place: usize) -> bool
    requires { AreEnds term.now ends.now }
    ensures { (s : Scope) → check_annotation (ahead term.now place) s ≡ checked result s }
{
    match skip(term, ends, place) {
        None => false,
        Some(first) => match skip(term, ends, first) {
            None => false,
            Some(_) => may_follow(term, ends, first),
        },
    }
}

/// Where the reading of attributes goes on, or whether they have the form.
enum Attributes {
    Read(bool),
    Before { may: bool, place: usize },
}

/// One keyword or value.
fn next_attribute(term: &SExpr, ends: &[usize], may: bool, place: usize) -> Attributes
    requires { AreEnds term.now ends.now }
    ensures { GoesOn term.now may place result }
{
    match part_at(term, ends, place) {
        Part::End => Attributes::Read(true),
        Part::Word(TokenView::Keyword(_)) => Attributes::Before {
            may: true,
            place: place + 1,
        },
        Part::Word(_) if may => Attributes::Before {
            may: false,
            place: place + 1,
        },
        Part::List(close) if may => Attributes::Before {
            may: false,
            place: close + 1,
        },
        _ => Attributes::Read(false),
    }
}

/// Whether keywords with at most one value each stand at a place, if anything does.
fn may_follow(term: &SExpr, ends: &[usize], place: usize) -> bool
    requires ends { AreEnds term.now ends.now }
    requires within { place ≤ length term.now }
    ensures { are_attributes_from false (ahead term.now place) ≡ result }
{
    let mut at = place;
    let mut may = false;
    while at < term.len() {
        match next_attribute(term, ends, may, at) {
            Attributes::Read(right) => return right,
            Attributes::Before { may: next, place } => {
                may = next;
                at = place;
            }
        }
    }
    true
}
