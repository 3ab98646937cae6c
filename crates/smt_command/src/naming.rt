//! The name that `:named` gives to the whole of a term (SMT-LIB 2.6, section 3.6.4).
//!
//! The name of an assertion is read from its text: the first name that is given to the whole of it,
//! of nested annotations the innermost one first. Nothing is kept for it beside the text.
ghost use Rattle.std.specs.Prelude.{◌≡◌, ◌<◌, Some, MatchOption, IsFalse};
ghost use Rattle.std.specs.Option.{option_map, option_copied};
ghost use Rattle.smt_meaning.specs.Sexp.{sexp};
ghost use Rattle.smt_meaning.specs.Core.{first_named as first_name_among, name_of};
ghost use Rattle.smt_command.specs.Arguments.{left, is_end, first_by};
ghost use Rattle.smt_command.specs.Namings.{annotated as annotated_in, count};

use crate::arguments::{Arguments, Kind};
use smt_meaning::{SExpr, TokenView, Word};

/// The annotated term and its attributes, where the next s-expression is an annotation.
fn annotated<'a>(term: &Arguments<'a>) -> Option<Arguments<'a>>
    ensures { option_map left result ≡ first_by annotated_in (left term.now) }
{
    let mut inside = term.enter()?;
    if !matches!(inside.peek(), Some(TokenView::Reserved(Word::Exclamation))) {
        return None;
    }
    inside.skip();
    if inside.is_end() {
        return None;
    }
    Some(inside)
}

/// The name that the next attribute gives, if it gives one. It, or the first part of it, is read.
fn next_name<'a>(attributes: &mut Arguments<'a>) -> Option<&'a [u8]>
    requires { IsFalse (is_end (left attributes.old)) }
    ensures { MatchOption result
        ((first_name_among (left attributes.old) ≡ first_name_among (left attributes.new)) × (count (left attributes.new) < count (left attributes.old)))
        (λ n. first_name_among (left attributes.old) ≡ Some n.now) }
{
    let first = attributes.peek();
    attributes.skip();
    let Some(TokenView::Keyword(keyword)) = first else {
        return None;
    };
    let Some(name) = attributes.word(Kind::Symbol) else {
        return None;
    };
    if keyword == b"named".as_slice() {
        Some(name)
    } else {
        None
    }
}

/// The first name among attributes.
fn first_name(mut attributes: Arguments<'_>) -> Option<&[u8]>
    ensures { option_copied result ≡ first_name_among (left attributes.entry) }
{
    while !attributes.is_end() {
        if let Some(name) = next_name(&mut attributes) {
            return Some(name);
        }
    }
    None
}

/// The first name that is given to the whole of a term, the innermost first.
pub fn name_of_whole(term: &SExpr) -> Option<&[u8]>
    ensures { option_copied result ≡ name_of (sexp term.now) }
{
    let mut named = Arguments::whole(term);
    let mut found = None;
    while let Some(inside) = annotated(&named) {
        let mut attributes = inside;
        attributes.skip();
        if let Some(name) = first_name(attributes) {
            found = Some(name);
        }
        named = inside;
    }
    found
}
