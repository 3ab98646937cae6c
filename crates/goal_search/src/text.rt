//! What is asked of a term, and its texts.
ghost use Rattle.std.specs.Prelude.{◌≡◌, ◌∷◌, ◌++◌, IfOk, OnOk, codes};
ghost use Rattle.smt_meaning.specs.Goal.{number_text, pair_text};
ghost use Rattle.smt_meaning.specs.declared.tokens.Token.TheVariants.{Enter, Symbol};
ghost use Rattle.goal_search.specs.Asks.{AsksAreAssumed, IsInRange, asked_texts};

use itoa::Buffer;
use smt_laws::{
    definitions_are_noted_once, judged_again, s_expressions_read_back, tokens_read_back,
    trees_are_s_expressions,
};
use smt_meaning::{Inner, SExpr, Seq, TokenView, Tokens};
use std::alloc::{AllocError, Global};

/// What is asked of a term.
#[derive(Clone, Copy, Drop)]
pub enum Ask {
    /// Whether it has a value in a model.
    Itself,
    /// Whether it is at most this number in one.
    AtMost(i128),
    /// Whether it is below the least number of the range in one.
    BelowLeast,
}

/// Appends the tokens of an s-expression.
fn append(tokens: &mut Tokens, text: &SExpr) -> Result<(), AllocError>
    ensures { OnOk result (tokens.new ≡ tokens.old ++ text.now) }
{
    for place in 0..text.len() {
        tokens.push(text.token(place))?;
    }
    Ok(())
}

/// Appends the tokens of a number.
fn append_number(tokens: &mut Tokens, number: i128) -> Result<(), AllocError>
    ensures { OnOk result (tokens.new ≡ tokens.old ++ number_text number) }
{
    let mut buffer = Buffer::new();
    let digits = buffer.format(number.unsigned_abs()).as_bytes();
    if number >= 0 {
        return tokens.push(TokenView::Numeral(digits));
    }
    tokens.push(TokenView::Enter)?;
    tokens.push(TokenView::Symbol(b"-"))?;
    tokens.push(TokenView::Numeral(digits))?;
    tokens.push(TokenView::Leave)
}

/// How the application of an operator to a term begins.
fn begun(alloc: Global, operator: &[u8], text: &SExpr) -> Result<Tokens, AllocError>
    ensures { IfOk result (λ ts. ts ≡ Enter ∷ Symbol operator.now ∷ text.now) }
{
    let mut tokens = Tokens::new(alloc);
    tokens.push(TokenView::Enter)?;
    tokens.push(TokenView::Symbol(operator))?;
    append(&mut tokens, text)?;
    Ok(tokens)
}

/// `(= t t)`
pub fn itself(alloc: Global, text: &Inner) -> Result<SExpr, AllocError>
    ensures { IfOk result (λ s. s ≡ pair_text (codes "=") text.now text.now) }
{
    tokens_read_back();
    s_expressions_read_back();
    trees_are_s_expressions();
    let sexpr = text.sexpr();
    let _ = sexpr.len();
    let mut tokens = begun(alloc, b"=", sexpr)?;
    append(&mut tokens, sexpr)?;
    tokens.push(TokenView::Leave)?;
    Ok(tokens.into_sexpr())
}

/// An operator applied to a term and a number.
fn compared(alloc: Global, operator: &[u8], text: &Inner, number: i128) -> Result<SExpr, AllocError>
    ensures { IfOk result (λ s. s ≡ pair_text operator.now text.now (number_text number)) }
{
    tokens_read_back();
    s_expressions_read_back();
    trees_are_s_expressions();
    let sexpr = text.sexpr();
    let _ = sexpr.len();
    let mut tokens = begun(alloc, operator, sexpr)?;
    append_number(&mut tokens, number)?;
    tokens.push(TokenView::Leave)?;
    Ok(tokens.into_sexpr())
}

/// The terms that are assumed where this is asked.
pub(crate) fn texts(alloc: Global, text: &Inner, ask: Ask) -> Result<Seq<SExpr>, AllocError>
    requires { IsInRange ask }
    ensures { IfOk result (λ ts. ts ≡ asked_texts text.now ask) }
{
    let mut texts = Seq::new(alloc);
    texts.push(itself(alloc, text)?)?;
    match ask {
        Ask::Itself => Ok(texts),
        Ask::AtMost(bound) => {
            texts.push(compared(alloc, b"<=", text, bound)?)?;
            Ok(texts)
        }
        Ask::BelowLeast => {
            texts.push(compared(alloc, b"<", text, -i128::MAX)?)?;
            Ok(texts)
        }
    }
}

/// What is asked of a goal can be assumed: its texts are judged to be its assertions, whose terms join the list.
pub fn asks_are_assumed()
    ensures { AsksAreAssumed }
{
    tokens_read_back();
    s_expressions_read_back();
    judged_again();
    definitions_are_noted_once();
}
