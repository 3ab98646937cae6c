//! Tokens, and s-expressions as flat lists of bytes, kinds and ends (SMT-LIB 2.6, sections 3.1 and
//! 3.2). Nothing here is walked by recursion.
//!
//! An s-expression lies in three flat lists (bytes, kinds, ends). One with more than 4,294,967,295
//! bytes of symbols and literals is answered as want of memory.
//!
//! The text of an assertion is its list of tokens, which is what the code holds. The tree of it is
//! read from the tokens; both ways are laws, so no definition needs to choose.
ghost use Rattle.std.specs.Prelude.{◌≡◌, ◌+◌, ◌<◌, ◌≤◌, [], ◌∷◌, ◌++◌, Some, drop, length, slice_get, slice_index_or, slice_range, vec_len, OnOk, OnErr, IfOk};
ghost use Rattle.std.specs.Vec.{vec_capacity};
ghost use Rattle.smt_meaning.specs.declared.tokens.Token.{Token};
ghost use Rattle.smt_meaning.specs.Reading.{IsInner, IsSExpr};
ghost use Rattle.smt_meaning.specs.Seen.{seen};
ghost use Rattle.smt_meaning.specs.Flat.{start_from};

use crate::kinds::{self, Kind};
use crate::seq::{Bytes, Seq};
use std::alloc::{AllocError, Global};
use std::marker::Model;

/// A reserved word that may stand in a term (SMT-LIB 2.6, section 3.1).
#[derive(Clone, Copy, PartialEq, Eq, Drop)]
pub enum Word {
    /// `!`
    Exclamation,
    /// `_`
    Underscore,
    /// `as`
    As,
    /// `let`
    Let,
    /// `exists`
    Exists,
    /// `forall`
    Forall,
    /// `match`
    Match,
    /// `par`
    Par,
}

/// A token of the input (SMT-LIB 2.6, section 3.1). A quoted symbol is the same as the plain one with its bytes.
#[derive(Drop)]
pub enum Token {
    /// `(`
    Enter,
    /// `)`
    Leave,
    /// The digits of a numeral.
    Numeral(Bytes),
    /// A decimal as written.
    Decimal(Bytes),
    /// A hexadecimal as written, with its `#x`.
    Hex(Bytes),
    /// A binary as written, with its `#b`.
    Binary(Bytes),
    /// The bytes that a string literal stands for.
    Text(Bytes),
    /// The name of a symbol, without bars.
    Symbol(Bytes),
    /// A reserved word.
    Reserved(Word),
    /// A keyword, without its colon.
    Keyword(Bytes),
}

/// A token whose bytes stand elsewhere.
#[derive(Clone, Copy, Drop)]
pub enum TokenView<'a> {
    /// `(`
    Enter,
    /// `)`
    Leave,
    /// The digits of a numeral.
    Numeral(&'a [u8]),
    /// A decimal as written.
    Decimal(&'a [u8]),
    /// A hexadecimal as written, with its `#x`.
    Hex(&'a [u8]),
    /// A binary as written, with its `#b`.
    Binary(&'a [u8]),
    /// The bytes that a string literal stands for.
    Text(&'a [u8]),
    /// The name of a symbol, without bars.
    Symbol(&'a [u8]),
    /// A reserved word.
    Reserved(Word),
    /// A keyword, without its colon.
    Keyword(&'a [u8]),
}

impl TokenView<'_> {
    /// A token of its own with the same bytes.
    pub fn to_token(self, alloc: Global) -> Result<Token, AllocError>
        ensures { IfOk result (λ t. t ≡ seen self.entry) }
    {
        Ok(match self {
            TokenView::Enter => Token::Enter,
            TokenView::Leave => Token::Leave,
            TokenView::Numeral(bytes) => Token::Numeral(Seq::copy(alloc, bytes)?),
            TokenView::Decimal(bytes) => Token::Decimal(Seq::copy(alloc, bytes)?),
            TokenView::Hex(bytes) => Token::Hex(Seq::copy(alloc, bytes)?),
            TokenView::Binary(bytes) => Token::Binary(Seq::copy(alloc, bytes)?),
            TokenView::Text(bytes) => Token::Text(Seq::copy(alloc, bytes)?),
            TokenView::Symbol(bytes) => Token::Symbol(Seq::copy(alloc, bytes)?),
            TokenView::Reserved(word) => Token::Reserved(word),
            TokenView::Keyword(bytes) => Token::Keyword(Seq::copy(alloc, bytes)?),
        })
    }
}

impl Token {
    /// The token, with its bytes where they stand.
    pub fn view(&self) -> TokenView<'_>
        ensures { seen result ≡ self.now }
    {
        match self {
            Token::Enter => TokenView::Enter,
            Token::Leave => TokenView::Leave,
            Token::Numeral(bytes) => TokenView::Numeral(bytes.as_slice()),
            Token::Decimal(bytes) => TokenView::Decimal(bytes.as_slice()),
            Token::Hex(bytes) => TokenView::Hex(bytes.as_slice()),
            Token::Binary(bytes) => TokenView::Binary(bytes.as_slice()),
            Token::Text(bytes) => TokenView::Text(bytes.as_slice()),
            Token::Symbol(bytes) => TokenView::Symbol(bytes.as_slice()),
            Token::Reserved(word) => TokenView::Reserved(*word),
            Token::Keyword(bytes) => TokenView::Keyword(bytes.as_slice()),
        }
    }
}

/// A list of tokens in the making. Their bytes stand one after another, so that a token takes no memory of its own.
#[derive(Drop)]
pub struct Tokens {
    bytes: Vec<u8>,
    kinds: Vec<Kind>,
    /// Where the bytes of each token end.
    ends: Vec<u32>,
}

impl Model for Tokens {
    ghost use Rattle.std.specs.Prelude.{List, length};
    ghost use Rattle.smt_meaning.specs.declared.tokens.Token.{Token};

    ghost Value = { List Token };

    ghost use Rattle.smt_meaning.specs.Flat.{tokens_from, AreEnds};

    ghost view = { λ t. tokens_from 0 t.kinds.items t.ends.items t.bytes.items };

    ghost invariant = { λ t. AreEnds 0 t.kinds.items t.ends.items (length t.bytes.items) };
}

impl Tokens {
    /// No tokens.
    pub fn new(alloc: Global) -> Self
        ensures { result ≡ [] }
    {
        Tokens {
            bytes: Vec::new(alloc),
            kinds: Vec::new(alloc),
            ends: Vec::new(alloc),
        }
    }

    /// No tokens, with room for so many that have so many bytes.
    fn with_capacity(alloc: Global, tokens: usize, bytes: usize) -> Result<Self, AllocError>
        ensures { IfOk result (λ t. t ≡ []) }
    {
        Ok(Tokens {
            bytes: Vec::with_capacity(alloc, bytes)?,
            kinds: Vec::with_capacity(alloc, tokens)?,
            ends: Vec::with_capacity(alloc, tokens)?,
        })
    }

    /// The number of tokens.
    pub fn len(&self) -> usize
        ensures { result ≡ length self.now }
    {
        self.kinds.len()
    }

    /// The token at a place, counted from 0.
    pub fn token(&self, place: usize) -> TokenView<'_>
        requires { place < length self.now }
        ensures at { slice_get self.now place ≡ Some (seen result) }
        ensures index { (other : Token) → slice_index_or self.now place other ≡ seen result }
        ensures rest { drop place self.now ≡ seen result ∷ drop (place + 1) self.now }
    {
        let start = start_at(self.ends.as_slice(), place);
        let end = self.ends[place] as usize;
        kinds::token(self.kinds[place], &self.bytes[start..end])
    }

    /// Adds a token at the end. An `Err`, for want of memory, changes nothing.
    pub fn push(&mut self, token: TokenView<'_>) -> Result<(), AllocError>
        ensures ok { OnOk result (self.new ≡ self.old ++ seen token.entry ∷ []) }
        ensures err { OnErr result (self.new ≡ self.old) }
    {
        let (kind, bytes) = kinds::kind_and_bytes(token);
        let end = self.bytes.len() + bytes.len();
        if end > u32::MAX as usize {
            return Err(AllocError);
        }
        self.kinds.reserve(1)?;
        self.ends.reserve(1)?;
        self.bytes.extend_from_slice(bytes)?;
        push_within(&mut self.kinds, kind);
        push_within(&mut self.ends, end as u32);
        Ok(())
    }

    /// Takes all tokens away.
    pub fn clear(&mut self)
        ensures { self.new ≡ [] }
    {
        self.bytes.clear();
        self.kinds.clear();
        self.ends.clear();
    }

    /// A list of its own with the tokens from one place to another.
    fn part(&self, alloc: Global, from: usize, to: usize) -> Result<Tokens, AllocError>
        requires order { from ≤ to }
        requires within { to ≤ length self.now }
        ensures { IfOk result (λ t. t ≡ slice_range self.now from to) }
    {
        let mut part = self.room_for(alloc, from, to)?;
        for place in from..to {
            part.push(self.token(place))?;
        }
        Ok(part)
    }

    /// No tokens, with room for those from one place to another.
    fn room_for(&self, alloc: Global, from: usize, to: usize) -> Result<Tokens, AllocError>
        requires order { from ≤ to }
        requires within { to ≤ length self.now }
        ensures { IfOk result (λ t. t ≡ []) }
    {
        let ends = self.ends.as_slice();
        let bytes = start_at(ends, to).saturating_sub(start_at(ends, from));
        Tokens::with_capacity(alloc, to - from, bytes)
    }

    /// The s-expression of these tokens.
    pub fn into_sexpr(self) -> SExpr
        requires { IsSExpr self }
        ensures { result ≡ self }
    {
        SExpr { tokens: self }
    }
}

/// Where the bytes of the token at a place begin.
fn start_at(ends: &[u32], place: usize) -> usize
    requires { place ≤ length ends.now }
    ensures { result ≡ start_from 0 ends.now place }
{
    if place == 0 {
        0
    } else {
        ends[place - 1] as usize
    }
}

/// Adds a value for which there is room.
fn push_within<T: Drop>(items: &mut Vec<T>, value: T)
    requires { vec_len items.old < vec_capacity items.old }
    ensures { items.new.items ≡ items.old.items ++ value ∷ [] }
{
    let Ok(()) = items.push(value) else {
        unreachable!()
    };
}

/// One s-expression (SMT-LIB 2.6, section 3.2): a list of tokens with matched parentheses.
#[derive(Drop)]
pub struct SExpr {
    tokens: Tokens,
}

impl Model for SExpr {
    ghost use Rattle.std.specs.Prelude.{List};
    ghost use Rattle.smt_meaning.specs.declared.tokens.Token.{Token};

    ghost Value = { List Token };

    ghost use Rattle.smt_meaning.specs.Reading.{IsSExpr};

    ghost view = { λ s. s.tokens };

    ghost invariant = { λ s. IsSExpr s.tokens };
}

impl SExpr {
    /// The number of tokens.
    pub fn len(&self) -> usize
        ensures len { result ≡ length self.now }
        ensures matched { IsSExpr self.now }
    {
        self.tokens.len()
    }

    /// The token at a place, counted from 0.
    pub fn token(&self, place: usize) -> TokenView<'_>
        requires { place < length self.now }
        ensures at { slice_get self.now place ≡ Some (seen result) }
        ensures index { (other : Token) → slice_index_or self.now place other ≡ seen result }
        ensures rest { drop place self.now ≡ seen result ∷ drop (place + 1) self.now }
    {
        self.tokens.token(place)
    }

    /// An s-expression of its own with the tokens from one place to another.
    pub fn part(&self, alloc: Global, from: usize, to: usize) -> Result<SExpr, AllocError>
        requires order { from ≤ to }
        requires within { to ≤ length self.now }
        requires matched { IsSExpr (slice_range self.now from to) }
        ensures { IfOk result (λ s. s ≡ slice_range self.now from to) }
    {
        let tokens = self.tokens.part(alloc, from, to)?;
        Ok(tokens.into_sexpr())
    }

    /// An s-expression of its own with the same tokens.
    pub fn copy(&self, alloc: Global) -> Result<SExpr, AllocError>
        ensures { IfOk result (λ s. s ≡ self.now) }
    {
        self.part(alloc, 0, self.len())
    }
}

/// An s-expression that may stand in a list: with parentheses around it it is one too.
#[derive(Drop)]
pub struct Inner {
    sexpr: SExpr,
}

impl Model for Inner {
    ghost use Rattle.std.specs.Prelude.{List};
    ghost use Rattle.smt_meaning.specs.declared.tokens.Token.{Token};

    ghost Value = { List Token };

    ghost use Rattle.smt_meaning.specs.Reading.{IsInner};

    ghost view = { λ s. s.sexpr };

    ghost invariant = { λ s. IsInner s.sexpr };
}

impl Inner {
    /// Of an s-expression that may.
    pub fn new(sexpr: SExpr) -> Self
        requires { IsInner sexpr }
        ensures { result ≡ sexpr }
    {
        Inner { sexpr }
    }

    /// The s-expression.
    pub fn sexpr(&self) -> &SExpr
        ensures same { result.now ≡ self.now }
        ensures inner { IsInner self.now }
    {
        &self.sexpr
    }
}

/// Why the input can't be read on.
#[derive(Clone, Copy, PartialEq, Eq, Drop)]
pub enum FaultKind {
    /// A byte that can't stand where it stands.
    Character,
    /// A closing parenthesis where nothing is open.
    Closing,
    /// The input ends inside an s-expression.
    Unfinished,
    /// An opening parenthesis that opens one list too many.
    Nesting,
}
