//! Why a term, or a command that works on the stack, is refused.
//!
//! Why a refusal of an unknown symbol carries the token, not its bytes: `1.5` and `|1.5|`, `(forall
//! 1)` and `(|forall| 1)`, `"a"` and `|"a"|` have different texts, so they are different refusals.
//!
//! `E25` is two refusals, for terms and for symbols. That for terms is judged after the term and
//! after `E17`; that for symbols at the name that needs the id.
use crate::seq::Bytes;
use crate::tokens::Token;

/// Why a term, or a command that works on the stack, is refused.
#[derive(Drop)]
pub enum Refusal {
    /// E5: a numeral past 128 bits.
    NumeralTooLarge,
    /// E8: the arguments of the command haven't the form that it asks for.
    WrongArguments,
    /// E12: the name is already declared, or bound twice.
    AlreadyDeclared(Bytes),
    /// E13: a symbol that isn't known, or a token that this profile leaves out.
    UnknownSymbol(Token),
    /// E14: the head has another number of arguments.
    ArgumentCount(Bytes),
    /// E15: the arguments' sorts aren't the head's.
    SortsDiffer(Bytes),
    /// E16: a product of two terms that both vary, or a divisor that is no numeral other than 0, nor the negation of one.
    NotLinear,
    /// E17: the term isn't of sort Bool.
    NotBool,
    /// E18: fewer levels are there than are to go.
    PopPastLevelZero,
    /// E19: more than 65,535 levels above 0.
    TooManyLevels,
    /// E24: a name of the theories.
    ReservedName(Bytes),
    /// E25: more than 4,294,967,295 different terms.
    TooManyTerms,
    /// E25: more than 4,294,967,295 symbols.
    TooManySymbols,
}
