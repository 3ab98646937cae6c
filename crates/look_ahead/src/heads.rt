//! The form of a head that divides.
//!
//! The head `(_ divisible n)` is looked at whole before anything of the application is judged:
//! nothing of it is a term, so its symbol hides nothing and is hidden by nothing, and nothing of it
//! is free.
ghost use Rattle.std.specs.Prelude.{◌≡◌, Some, None, IfSome, IfNone};
ghost use Rattle.smt_meaning.specs.Sorts.{decimal, head_number};
ghost use Rattle.look_ahead.specs.Ahead.{ahead, AreEnds};
ghost use Rattle.look_ahead.specs.Heads.{last_number, divisible_number};

use crate::parts::{Part, part_at};
use smt_meaning::{SExpr, TokenView, Word};

/// The digits of the numeral at a place, where it is the last of its list.
fn last_number<'a>(term: &'a SExpr, ends: &[usize], place: usize) -> Option<&'a [u8]>
    requires { AreEnds term.now ends.now }
    ensures some { IfSome result (λ d. last_number (ahead term.now place) ≡ Some (decimal d.now)) }
    ensures none { IfNone result (last_number (ahead term.now place) ≡ None) }
{
    match part_at(term, ends, place) {
        Part::Word(TokenView::Numeral(digits)) => match part_at(term, ends, place + 1) {
            Part::End => Some(digits),
            _ => None,
        },
        _ => None,
    }
}

/// The digits of the number after `divisible` at a place.
fn divisible_number<'a>(term: &'a SExpr, ends: &[usize], place: usize) -> Option<&'a [u8]>
    requires { AreEnds term.now ends.now }
    ensures some { IfSome result (λ d. divisible_number (ahead term.now place) ≡ Some (decimal d.now)) }
    ensures none { IfNone result (divisible_number (ahead term.now place) ≡ None) }
{
    match part_at(term, ends, place) {
        Part::Word(TokenView::Symbol(name)) => {
            if name == b"divisible".as_slice() {
                last_number(term, ends, place + 1)
            } else {
                None
            }
        }
        _ => None,
    }
}

/// The digits of the number of a head that divides, whose list's inside begins at a place.
pub(crate) fn number<'a>(term: &'a SExpr, ends: &[usize], place: usize) -> Option<&'a [u8]>
    requires { AreEnds term.now ends.now }
    ensures some { IfSome result (λ d. head_number (ahead term.now place) ≡ Some (decimal d.now)) }
    ensures none { IfNone result (head_number (ahead term.now place) ≡ None) }
{
    match part_at(term, ends, place) {
        Part::Word(TokenView::Reserved(Word::Underscore)) => divisible_number(
            term,
            ends,
            place + 1,
        ),
        _ => None,
    }
}
