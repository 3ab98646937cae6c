//! The kinds of tokens: with its bytes, a kind is a token.
ghost use Rattle.std.specs.Prelude.{◌≡◌};
ghost use Rattle.smt_meaning.specs.Seen.{seen};
ghost use Rattle.smt_meaning.specs.Flat.{token_of};

use crate::tokens::{TokenView, Word};

/// What a token is, beside its bytes.
#[derive(Clone, Copy, Drop)]
pub enum Kind {
    Enter,
    Leave,
    Numeral,
    Decimal,
    Hex,
    Binary,
    Text,
    Symbol,
    Reserved(Word),
    Keyword,
}

/// The token of this kind that has these bytes.
pub fn token(kind: Kind, bytes: &[u8]) -> TokenView<'_>
    ensures { seen result ≡ token_of kind bytes.now }
{
    match kind {
        Kind::Enter => TokenView::Enter,
        Kind::Leave => TokenView::Leave,
        Kind::Numeral => TokenView::Numeral(bytes),
        Kind::Decimal => TokenView::Decimal(bytes),
        Kind::Hex => TokenView::Hex(bytes),
        Kind::Binary => TokenView::Binary(bytes),
        Kind::Text => TokenView::Text(bytes),
        Kind::Symbol => TokenView::Symbol(bytes),
        Kind::Reserved(word) => TokenView::Reserved(word),
        Kind::Keyword => TokenView::Keyword(bytes),
    }
}

/// A token's kind and its bytes.
pub fn kind_and_bytes(token: TokenView<'_>) -> (Kind, &[u8])
    ensures { token_of result.0 result.1.now ≡ seen token.entry }
{
    match token {
        TokenView::Enter => (Kind::Enter, b"".as_slice()),
        TokenView::Leave => (Kind::Leave, b"".as_slice()),
        TokenView::Numeral(bytes) => (Kind::Numeral, bytes),
        TokenView::Decimal(bytes) => (Kind::Decimal, bytes),
        TokenView::Hex(bytes) => (Kind::Hex, bytes),
        TokenView::Binary(bytes) => (Kind::Binary, bytes),
        TokenView::Text(bytes) => (Kind::Text, bytes),
        TokenView::Symbol(bytes) => (Kind::Symbol, bytes),
        TokenView::Reserved(word) => (Kind::Reserved(word), b"".as_slice()),
        TokenView::Keyword(bytes) => (Kind::Keyword, bytes),
    }
}
