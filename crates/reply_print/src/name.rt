//! Names: symbols, keywords and texts (SMT-LIB 2.6, section 3.1).
//!
//! The text of a symbol that a reply prints is decided by its bytes alone: a name of a command, and
//! each further reserved word of the standard, stands between bars. `minimize` is no word of the
//! standard, so as a symbol it prints without bars.
ghost use Rattle.std.specs.Prelude.{◌≡◌, ◌++◌, ◌||◌, ◌==◌, map, length, OnOk};
ghost use Rattle.std.specs.List.{list_all};
ghost use Rattle.smt_meaning.specs.Reading.{is_digit as is_digit_byte, is_letter as is_letter_byte, is_sign as is_sign_byte, is_symbol_byte as is_symbol, is_simple_symbol};
ghost use Rattle.smt_meaning.specs.Signature.{is_one_of as is_among};
ghost use Rattle.smt_meaning.specs.Text.{symbol_text, literal as literal_text, keyword_text, quotes_doubled, is_plain as is_plain_name, further_reserved_words};
ghost use Rattle.reply_print.specs.Pieces.{term_words, constant_words, solver_words, stack_words, left_out_words};

use crate::list::Print;
use smt_meaning::Bytes;
use std::alloc::{AllocError, Global};

/// Appends a symbol: plainly, or between bars.
#[tactic(auto, unfolding(smt_meaning::specs::Text::symbol_text))]
pub fn symbol(name: &[u8], out: &mut Bytes) -> Result<(), AllocError>
    ensures { OnOk result (out.new ≡ out.old ++ symbol_text name.now) }
{
    if is_plain(name) {
        return out.append(name);
    }
    out.push(b'|')?;
    out.append(name)?;
    out.push(b'|')
}

impl Print for Bytes {
    ghost text = { symbol_text };

    fn print(&self, _: Global, out: &mut Bytes) -> Result<(), AllocError> {
        symbol(self.as_slice(), out)
    }
}

/// Appends a keyword with its colon.
pub fn keyword(word: &[u8], out: &mut Bytes) -> Result<(), AllocError>
    ensures { OnOk result (out.new ≡ out.old ++ keyword_text word.now) }
{
    out.push(b':')?;
    out.append(word)
}

/// Appends a string literal.
pub fn literal(text: &[u8], out: &mut Bytes) -> Result<(), AllocError>
    ensures { OnOk result (out.new ≡ out.old ++ literal_text text.now) }
{
    out.push(b'"')?;
    double_quotes(text, out)?;
    out.push(b'"')
}

/// Appends the bytes of a text, each quotation mark twice.
fn double_quotes(text: &[u8], out: &mut Bytes) -> Result<(), AllocError>
    ensures { OnOk result (out.new ≡ out.old ++ quotes_doubled text.now) }
{
    for byte in text {
        if *byte == b'"' {
            out.push(b'"')?;
        }
        out.push(*byte)?;
    }
    Ok(())
}

/// Whether a symbol of this name may stand without bars.
#[tactic(auto, using(crate::proofs::Names::plain_is))]
fn is_plain(name: &[u8]) -> bool
    ensures { result ≡ is_plain_name name.now }
{
    is_simple(name) && !is_reserved(name) && !is_further_reserved(name)
}

/// Whether the name is a simple symbol or a reserved word.
#[tactic(auto, using(crate::proofs::Names::simple_is))]
fn is_simple(name: &[u8]) -> bool
    ensures { result ≡ is_simple_symbol name.now }
{
    if name.is_empty() {
        return false;
    }
    !is_digit(name[0]) && has_symbol_bytes(name)
}

/// Whether each byte may stand in a simple symbol.
fn has_symbol_bytes(name: &[u8]) -> bool
    ensures { result ≡ list_all is_symbol name.now }
{
    name.iter().all(|byte| is_symbol_byte(*byte))
}

#[tactic(auto, unfolding(smt_meaning::specs::Reading::is_symbol_byte))]
fn is_symbol_byte(byte: u8) -> bool
    ensures { result ≡ is_symbol byte }
{
    is_letter(byte) || is_digit(byte) || is_sign(byte)
}

fn is_letter(byte: u8) -> bool
    ensures { result ≡ is_letter_byte byte }
{
    (b'A' <= byte && byte <= b'Z') || (b'a' <= byte && byte <= b'z')
}

fn is_digit(byte: u8) -> bool
    ensures { result ≡ is_digit_byte byte }
{
    b'0' <= byte && byte <= b'9'
}

fn is_sign(byte: u8) -> bool
    ensures { result ≡ is_sign_byte byte }
{
    b"~!@$%^&*_-+=<>.?/".contains(&byte)
}

/// Whether it is a reserved word of terms.
fn is_reserved(name: &[u8]) -> bool
    ensures { result ≡ is_among name.now term_words }
{
    is_one_of(
        name,
        &[
            b"!".as_slice(),
            b"_",
            b"as",
            b"let",
            b"exists",
            b"forall",
            b"match",
            b"par",
        ],
    )
}

/// Whether it is one of the further reserved words: the standard's words for constants, and the names of commands.
#[tactic(auto, using(crate::proofs::Names::further_is))]
fn is_further_reserved(name: &[u8]) -> bool
    ensures { result ≡ is_among name.now further_reserved_words }
{
    names_constants(name)
        || is_solver_command(name)
        || is_stack_command(name)
        || asks_why_or_is_left_out(name)
}

/// Whether it is a word for a kind of constants.
fn names_constants(name: &[u8]) -> bool
    ensures { result ≡ is_among name.now constant_words }
{
    is_one_of(
        name,
        &[
            b"BINARY".as_slice(),
            b"DECIMAL",
            b"HEXADECIMAL",
            b"NUMERAL",
            b"STRING",
        ],
    )
}

/// Whether it names a command for the solver as a whole.
fn is_solver_command(name: &[u8]) -> bool
    ensures { result ≡ is_among name.now solver_words }
{
    is_one_of(
        name,
        &[
            b"set-logic".as_slice(),
            b"set-option",
            b"get-option",
            b"set-info",
            b"get-info",
            b"echo",
            b"exit",
            b"reset",
            b"reset-assertions",
        ],
    )
}

/// Whether it names a command for the stack and its models.
fn is_stack_command(name: &[u8]) -> bool
    ensures { result ≡ is_among name.now stack_words }
{
    is_one_of(
        name,
        &[
            b"declare-sort".as_slice(),
            b"define-sort",
            b"declare-const",
            b"declare-fun",
            b"define-fun",
            b"assert",
            b"check-sat",
            b"push",
            b"pop",
            b"get-value",
            b"get-model",
            b"get-assertions",
            b"check-sat-assuming",
            b"get-assignment",
        ],
    )
}

/// Whether it names a command that asks why there is no model, or one that is left out.
fn asks_why_or_is_left_out(name: &[u8]) -> bool
    ensures { result ≡ is_among name.now left_out_words }
{
    is_one_of(
        name,
        &[
            b"get-proof".as_slice(),
            b"get-unsat-core",
            b"get-unsat-assumptions",
            b"define-fun-rec",
            b"define-funs-rec",
            b"declare-datatype",
            b"declare-datatypes",
        ],
    )
}

/// Whether it is one of these words.
fn is_one_of(name: &[u8], words: &[&[u8]]) -> bool
    ensures { result ≡ is_among name.now (map (λ w. w.now) words.now) }
{
    for word in words {
        if name == *word {
            return true;
        }
    }
    false
}
