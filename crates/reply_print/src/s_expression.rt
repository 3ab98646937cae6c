//! S-expressions and their tokens (SMT-LIB 2.6, sections 3.1 and 3.2).
ghost use Rattle.std.specs.Prelude.{◌≡◌, ◌++◌, ◌&&◌, not, OnOk, IfOk, if◌then◌else◌};
ghost use Rattle.smt_meaning.specs.Seen.{seen};
ghost use Rattle.smt_meaning.specs.Reading.{spelling as spelling_of};
ghost use Rattle.smt_meaning.specs.Text.{token_text, tokens_text};
ghost use Rattle.reply_print.specs.Pieces.{is_enter as opens, is_leave as closes, space_before};

use crate::list::Print;
use crate::name::{keyword, literal, symbol};
use smt_laws::s_expressions_read_back;
use smt_meaning::{Bytes, SExpr, TokenView, Word};
use std::alloc::{AllocError, Global};

/// Appends an s-expression: its tokens, with one space between neighbours in a list.
pub fn s_expression(sexpr: &SExpr, out: &mut Bytes) -> Result<(), AllocError>
    ensures { OnOk result (out.new ≡ out.old ++ tokens_text sexpr.now) }
{
    s_expressions_read_back();
    let mut gap = false;
    for place in 0..sexpr.len() {
        gap = next_token(gap, sexpr.token(place), out)?;
    }
    Ok(())
}

/// Appends a token, with a space before it where there is a gap that it doesn't close, and answers whether a gap follows it.
fn next_token(gap: bool, view: TokenView<'_>, out: &mut Bytes) -> Result<bool, AllocError>
    ensures text { OnOk result (out.new ≡ out.old ++ space_before gap (seen view.entry) ++ token_text (seen view.entry)) }
    ensures gap { IfOk result (λ g. g ≡ not (opens (seen view.entry))) }
{
    if gap && !is_leave(view) {
        out.push(b' ')?;
    }
    token(view, out)?;
    Ok(!is_enter(view))
}

/// Appends a token as it is written.
pub fn token(view: TokenView<'_>, out: &mut Bytes) -> Result<(), AllocError>
    ensures { OnOk result (out.new ≡ out.old ++ token_text (seen view.entry)) }
{
    match view {
        TokenView::Enter => out.push(b'('),
        TokenView::Leave => out.push(b')'),
        TokenView::Numeral(bytes)
        | TokenView::Decimal(bytes)
        | TokenView::Hex(bytes)
        | TokenView::Binary(bytes) => out.append(bytes),
        TokenView::Text(bytes) => literal(bytes, out),
        TokenView::Symbol(name) => symbol(name, out),
        TokenView::Reserved(word) => out.append(spelling(word)),
        TokenView::Keyword(word) => keyword(word, out),
    }
}

fn is_enter(view: TokenView<'_>) -> bool
    ensures { result ≡ opens (seen view.entry) }
{
    matches!(view, TokenView::Enter)
}

fn is_leave(view: TokenView<'_>) -> bool
    ensures { result ≡ closes (seen view.entry) }
{
    matches!(view, TokenView::Leave)
}

fn spelling(word: Word) -> &'static [u8]
    ensures { result.now ≡ spelling_of word }
{
    match word {
        Word::Exclamation => b"!",
        Word::Underscore => b"_",
        Word::As => b"as",
        Word::Let => b"let",
        Word::Exists => b"exists",
        Word::Forall => b"forall",
        Word::Match => b"match",
        Word::Par => b"par",
    }
}

impl Print for SExpr {
    ghost text = { tokens_text };

    fn print(&self, _alloc: Global, out: &mut Bytes) -> Result<(), AllocError> {
        s_expression(self, out)
    }
}
