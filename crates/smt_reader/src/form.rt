//! The form that a word has so far (SMT-LIB 2.6, section 3.1).
//!
//! Why a word is refused early: as soon as no byte that may follow can mend it, `1a` at the `a`,
//! though the word may go on.
//!
//! A keyword may begin with a digit behind its colon, and symbols that begin with `@` or `.` are
//! taken, though the standard keeps them for solvers. The names of commands and the standard's
//! further reserved words are symbols.
ghost use Rattle.std.specs.Prelude.{◌≡◌, ℕ, List, Some, None, if◌then◌else◌};
ghost use Rattle.std.specs.Option.{is_some};
ghost use Rattle.smt_reader.specs.Forms.{BeginsAs, GoesTo};
ghost use Rattle.smt_reader.specs.Parts.{form_token};

use crate::byte::{is_binary_digit, is_digit, is_hex_digit, is_symbol_byte};

/// The form that a word has so far (SMT-LIB 2.6, section 3.1).
#[derive(Clone, Copy, PartialEq, Eq, Drop)]
pub enum Form {
    /// A simple symbol or a reserved word.
    Simple,
    /// The numeral 0.
    Zero,
    /// A numeral that doesn't begin with 0.
    Digits,
    /// A numeral and a point.
    Point,
    /// A decimal.
    Places,
    /// `#`
    Hash,
    /// `#x`
    HexMark,
    /// A hexadecimal.
    HexDigits,
    /// `#b`
    BinaryMark,
    /// A binary.
    BinaryDigits,
    /// `:`
    Colon,
    /// A keyword.
    Named,
}

impl Form {
    /// The form of the word of this one byte. None where it is no byte of a word.
    pub fn begin(byte: u8) -> Option<Form>
        ensures { BeginsAs byte result }
    {
        if byte == b'0' {
            Some(Form::Zero)
        } else if is_digit(byte) {
            Some(Form::Digits)
        } else if is_symbol_byte(byte) {
            Some(Form::Simple)
        } else if byte == b'#' {
            Some(Form::Hash)
        } else if byte == b':' {
            Some(Form::Colon)
        } else {
            None
        }
    }

    /// What one more byte makes of a word of this form. None where the word is then of no form, whatever follows.
    pub fn next(self, byte: u8) -> Option<Form>
        ensures { GoesTo self byte result }
    {
        match self {
            Form::Simple => chosen(is_symbol_byte(byte), Form::Simple),
            Form::Zero => chosen(byte == b'.', Form::Point),
            Form::Digits if is_digit(byte) => Some(Form::Digits),
            Form::Digits => chosen(byte == b'.', Form::Point),
            Form::Point | Form::Places => chosen(is_digit(byte), Form::Places),
            Form::Hash if byte == b'x' => Some(Form::HexMark),
            Form::Hash => chosen(byte == b'b', Form::BinaryMark),
            Form::HexMark | Form::HexDigits => chosen(is_hex_digit(byte), Form::HexDigits),
            Form::BinaryMark | Form::BinaryDigits => {
                chosen(is_binary_digit(byte), Form::BinaryDigits)
            }
            Form::Colon | Form::Named => chosen(is_symbol_byte(byte), Form::Named),
        }
    }

    /// Whether a word of this form is a token.
    pub fn is_token(self) -> bool
        ensures { (w : List ℕ) → result ≡ is_some (form_token self w) }
    {
        match self {
            Form::Simple
            | Form::Zero
            | Form::Digits
            | Form::Places
            | Form::HexDigits
            | Form::BinaryDigits
            | Form::Named => true,
            Form::Point | Form::Hash | Form::HexMark | Form::BinaryMark | Form::Colon => false,
        }
    }
}

/// The form, where the test holds.
fn chosen(holds: bool, form: Form) -> Option<Form>
    ensures { result ≡ (if holds then Some form else None) }
{
    if holds { Some(form) } else { None }
}
