//! The arguments of a command, taken off a list of tokens one after another.
//!
//! Why: a sort is kept as it is written by its symbol, and whether it stands alone or begins a
//! list: a list is always refused by its first symbol. A list in the place of a sort whose first
//! token is a reserved word is `E8`.
ghost use Rattle.std.specs.Prelude.{◌≡◌, ◌+◌, ◌^◌, ◌∷◌, ◌<◌, ◌≤◌, Some, drop, length, slice_range, IfOk, OnOk, OnSome, IfSome, IfNone, IsTrue};
ghost use Rattle.std.specs.Option.{option_map, option_copied};
ghost use Rattle.smt_meaning.specs.Reading.{IsSExpr, IsInner};
ghost use Rattle.smt_meaning.specs.Seen.{seen};
ghost use Rattle.smt_meaning.specs.Sexp.{end, ◌▸◌, sexp, open_lists_of};
ghost use Rattle.smt_meaning.specs.Command.{written_sort, parameter};
ghost use Rattle.smt_command.specs.Arguments.{open_lists, IsInList, left, is_end, rest_of, depth_behind, first_by, bytes_as, bytes_in, token_in, parts, term};

use smt_meaning::language::{Parameter, WrittenSort};
use smt_meaning::{Inner, SExpr, Seq, TokenView};
use std::alloc::{AllocError, Global};

/// Tokens that hold bytes: the name of a symbol or of a keyword, the digits of a numeral, what a string literal says.
#[derive(Clone, Copy, Drop)]
pub enum Kind {
    Symbol,
    Keyword,
    Numeral,
    Text,
}

/// What is left to read of a list: the s-expressions from a place on, to the list's end. Past the end there is nothing.
#[derive(Clone, Copy, Drop)]
pub struct Arguments<'a> {
    sexpr: &'a SExpr,
    place: usize,
}

impl<'a> Arguments<'a> {
    /// The whole s-expression.
    pub fn whole(sexpr: &'a SExpr) -> Self
        ensures { left result ≡ sexp sexpr.now ▸ end }
    {
        let _ = sexpr.len();
        Arguments { sexpr, place: 0 }
    }

    /// The next token, where it is no parenthesis.
    pub fn peek(&self) -> Option<TokenView<'a>>
        ensures { option_map seen result ≡ first_by token_in (left self.now) }
    {
        if self.place >= self.sexpr.len() {
            return None;
        }
        match self.sexpr.token(self.place) {
            TokenView::Enter | TokenView::Leave => None,
            token => Some(token),
        }
    }

    /// Whether nothing is left.
    pub fn is_end(&self) -> bool
        ensures { result ≡ is_end (left self.now) }
    {
        if self.place >= self.sexpr.len() {
            return true;
        }
        match self.sexpr.token(self.place) {
            TokenView::Leave => true,
            _ => false,
        }
    }

    /// What stands in the next s-expression, where it is a list.
    pub fn enter(&self) -> Option<Arguments<'a>>
        ensures parts { option_map left result ≡ first_by parts (left self.now) }
        ensures inside { IfSome result IsInList }
    {
        if self.place >= self.sexpr.len() {
            return None;
        }
        match self.sexpr.token(self.place) {
            TokenView::Enter => Some(Arguments {
                sexpr: self.sexpr,
                place: self.place + 1,
            }),
            _ => None,
        }
    }

    /// Leaves the next s-expression out.
    pub fn skip(&mut self)
        ensures rest { left self.new ≡ rest_of (left self.old) }
        ensures lists { open_lists self.new ≡ rest_of (left self.old) ∷ drop 1 (open_lists self.old) }
        ensures same { self.new.sexpr.now ≡ self.old.sexpr.now }
        ensures order { self.old.place ≤ self.new.place }
        ensures within { self.old.place ≤ length self.old.sexpr.now → self.new.place ≤ length self.old.sexpr.now }
        ensures matched { IsSExpr self.old.sexpr.now }
    {
        if self.place >= self.sexpr.len() {
            return;
        }
        match self.sexpr.token(self.place) {
            TokenView::Enter => self.place = end_of_list(self.sexpr, self.place + 1),
            TokenView::Leave => {}
            _ => self.place += 1,
        }
    }
}

impl<'a> Arguments<'a> {
    /// The bytes of a token of this kind, which is read where it is next.
    #[tactic(auto, using(crate::proofs::TokenBytes::first_bytes))]
    pub fn word(&mut self, kind: Kind) -> Option<&'a [u8]>
        ensures bytes { option_copied result ≡ first_by (bytes_as kind) (left self.old) }
        ensures read { OnSome result (left self.new ≡ rest_of (left self.old)) }
        ensures kept { IfNone result (left self.new ≡ left self.old) }
        ensures inside { IsInList self.old → IsInList self.new }
    {
        let Some(bytes) = bytes_in(self.peek(), kind) else {
            return None;
        };
        self.skip();
        Some(bytes)
    }

    /// What stands in a list, which is read where it is next.
    pub fn list(&mut self) -> Option<Arguments<'a>>
        ensures parts { option_map left result ≡ first_by parts (left self.old) }
        ensures read { left self.new ≡ rest_of (left self.old) }
    {
        let inside = self.enter();
        self.skip();
        inside
    }

    /// The next s-expression as one of its own, which is read. An `Err` is want of memory.
    pub fn term(&mut self, alloc: Global) -> Result<Option<SExpr>, AllocError>
        ensures term { IfOk result (λ r. r ≡ first_by term (left self.old)) }
        ensures inner { IfOk result (λ r. IfSome r (λ t. IsInList self.old → IsInner t)) }
        ensures read { OnOk result (left self.new ≡ rest_of (left self.old)) }
    {
        if self.is_end() {
            return Ok(None);
        }
        let from = self.place;
        self.skip();
        let term = self.sexpr.part(alloc, from, self.place)?;
        Ok(Some(term))
    }

    /// The next s-expression of a list as one that may stand in a list, which is read. An `Err` is want of memory.
    pub fn inner(&mut self, alloc: Global) -> Result<Option<Inner>, AllocError>
        requires { IsInList self.old }
        ensures term { IfOk result (λ r. r ≡ first_by term (left self.old)) }
        ensures read { OnOk result (left self.new ≡ rest_of (left self.old)) }
    {
        let Some(term) = self.term(alloc)? else {
            return Ok(None);
        };
        Ok(Some(Inner::new(term)))
    }
}

impl<'a> Arguments<'a> {
    /// A sort as it is written, which is read where it is next. An `Err` is want of memory.
    pub fn sort(&mut self, alloc: Global) -> Result<Option<WrittenSort>, AllocError>
        ensures sort { IfOk result (λ r. r ≡ first_by written_sort (left self.old)) }
        ensures read { IfOk result (λ r. OnSome r (left self.new ≡ rest_of (left self.old))) }
    {
        if let Some(name) = self.word(Kind::Symbol) {
            return Ok(Some(WrittenSort::Name(Seq::copy(alloc, name)?)));
        }
        let Some(mut inside) = self.list() else {
            return Ok(None);
        };
        let Some(name) = inside.word(Kind::Symbol) else {
            return Ok(None);
        };
        Ok(Some(WrittenSort::Applied(Seq::copy(alloc, name)?)))
    }

    /// A parameter with its sort, which is read where it is next. An `Err` is want of memory.
    pub fn parameter(&mut self, alloc: Global) -> Result<Option<Parameter>, AllocError>
        ensures parameter { IfOk result (λ r. r ≡ first_by parameter (left self.old)) }
        ensures read { IfOk result (λ r. OnSome r (left self.new ≡ rest_of (left self.old))) }
    {
        let Some(mut inside) = self.list() else {
            return Ok(None);
        };
        let Some(name) = inside.word(Kind::Symbol) else {
            return Ok(None);
        };
        let Some(sort) = inside.sort(alloc)? else {
            return Ok(None);
        };
        if !inside.is_end() {
            return Ok(None);
        }
        let name = Seq::copy(alloc, name)?;
        Ok(Some(Parameter { name, sort }))
    }
}

/// The bytes that a token holds, where it is of this kind.
fn bytes_in<'a>(token: Option<TokenView<'a>>, kind: Kind) -> Option<&'a [u8]>
    ensures { option_copied result ≡ bytes_in kind (option_map seen token.entry) }
{
    match (kind, token) {
        (Kind::Symbol, Some(TokenView::Symbol(name))) => Some(name),
        (Kind::Keyword, Some(TokenView::Keyword(name))) => Some(name),
        (Kind::Numeral, Some(TokenView::Numeral(digits))) => Some(digits),
        (Kind::Text, Some(TokenView::Text(bytes))) => Some(bytes),
        _ => None,
    }
}

/// The place after the list that is the innermost one at a place.
fn end_of_list(sexpr: &SExpr, from: usize) -> usize
    requires inside { 0 < from }
    requires within { from ≤ length sexpr.now }
    requires open { 2 ≤ length (open_lists_of (drop from sexpr.now)) }
    ensures after { open_lists_of (drop result sexpr.now) ≡ drop 1 (open_lists_of (drop from sexpr.now)) }
    ensures order { from ≤ result }
    ensures within { result ≤ length sexpr.now }
{
    let mut place = from;
    let mut depth = 1;
    while depth > 0 && place < sexpr.len() {
        depth = depth_behind(sexpr.token(place), depth);
        place += 1;
    }
    place
}

/// How many lists are open behind a token, where so many are open before it.
fn depth_behind(token: TokenView<'_>, depth: usize) -> usize
    requires some { 0 < depth }
    requires room { depth + 1 < 2 ^ 64 }
    ensures { result ≡ depth_behind (seen token.entry) depth }
{
    match token {
        TokenView::Enter => depth + 1,
        TokenView::Leave => depth - 1,
        _ => depth,
    }
}
