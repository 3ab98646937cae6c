//! The lexicon as a machine: where in the input's tokens the bytes so far end, and what the next
//! byte does (SMT-LIB 2.6, section 3.1).
ghost use Rattle.std.specs.Prelude.{◌≡◌, Some, None, if◌then◌else◌};
ghost use Rattle.std.specs.Option.{option_map};
ghost use Rattle.std.specs.Str.{bytes_eq};
ghost use Rattle.smt_meaning.specs.Reading.{symbol_token, reserved_word};
ghost use Rattle.smt_meaning.specs.Seen.{seen};
ghost use Rattle.smt_reader.specs.Parts.{EndsSo, Extends, Passes, StepsSo, StopsAt, form_token, part_token};
ghost use Rattle.smt_reader.specs.declared.part.Part.TheVariants.{Blank, Comment, Word as InWord, Text as InText, Mark, Quoted};

use crate::byte::{
    first_line, is_blank, is_printable, is_word_byte, leading_blanks, leading_digits,
    leading_quoted, leading_symbol_bytes, leading_text,
};
use crate::form::Form;
use smt_meaning::{TokenView, Word};

/// Where in the input's tokens the bytes so far end.
#[derive(Clone, Copy, PartialEq, Eq, Drop)]
pub enum Part {
    /// Between tokens.
    Blank,
    /// In a comment.
    Comment,
    /// In a word that has this form so far.
    Word(Form),
    /// In a text.
    Text,
    /// In a text, behind a quotation mark that ends it unless another follows.
    Mark,
    /// In a quoted symbol.
    Quoted,
}

/// What a byte does in a part of a token.
#[derive(Clone, Copy, PartialEq, Eq, Drop)]
pub enum Turn {
    /// It is `(`.
    Enters,
    /// It is `)`.
    Leaves,
    /// It begins a token, which has then been read up to this part.
    Begins(Part),
    /// It stands in a text or a quoted symbol, which has then been read up to this part.
    Adds(Part),
    /// The token ends before it.
    Ends,
    /// The token ends with it.
    Closes,
    /// It can't stand here.
    Wrong,
    /// The word that it ends or goes on is of no form.
    Malformed,
}

/// What the end of the input does in a part of a token.
#[derive(Clone, Copy, PartialEq, Eq, Drop)]
pub enum Ending {
    /// No token is there.
    Bare,
    /// The token ends.
    Whole,
    /// A text or a quoted symbol isn't closed.
    Halted,
    /// The word is of no form.
    Formless,
}

/// How far bytes were passed over.
#[derive(Clone, Copy, Drop)]
pub struct Run {
    /// How many bytes were passed over.
    pub passed: usize,
    /// The part up to which they were read.
    pub part: Part,
    /// What the next byte does, where there is one.
    pub turn: Option<Turn>,
}

/// What one byte does, be it a turn or not.
#[derive(Clone, Copy, PartialEq, Eq, Drop)]
enum Step {
    /// It goes on in the same token, comment or white space, which has then been read up to this part.
    Stays(Part),
    /// It does this.
    Turns(Turn),
}

impl Part {
    /// Passes over bytes from this part on, as long as they only go on in the same token, comment or white space.
    pub fn run(self, bytes: &[u8]) -> Run
        ensures passes { Passes self result.part bytes.now result.passed }
        ensures stops { StopsAt result.part bytes.now result.passed result.turn }
    {
        let mut part = self;
        let mut passed = 0;
        loop {
            passed += part.steady(&bytes[passed..]);
            let Some(byte) = bytes.get(passed) else {
                return Run {
                    passed: bytes.len(),
                    part,
                    turn: None,
                };
            };
            match part.step(*byte) {
                Step::Stays(next) => {
                    part = next;
                    passed += 1;
                }
                Step::Turns(turn) => {
                    return Run {
                        passed,
                        part,
                        turn: Some(turn),
                    };
                }
            }
        }
    }

    /// How many bytes at the front are passed over with no change of the part.
    fn steady(self, bytes: &[u8]) -> usize
        ensures { Passes self self bytes.now result }
    {
        match self {
            Part::Blank => leading_blanks(bytes),
            Part::Comment => first_line(bytes),
            Part::Word(form) => steady_word(form, bytes),
            Part::Text | Part::Mark | Part::Quoted => 0,
        }
    }

    /// How many bytes at the front only add to the content of a text or a quoted symbol.
    pub fn extends(self, bytes: &[u8]) -> usize
        ensures { Extends self self bytes.now result }
    {
        match self {
            Part::Text => leading_text(bytes),
            Part::Quoted => leading_quoted(bytes),
            _ => 0,
        }
    }

    /// What this byte does.
    fn step(self, byte: u8) -> Step
        ensures { StepsSo self byte result }
    {
        match self {
            Part::Blank => blank_step(byte),
            Part::Comment => comment_step(byte),
            Part::Word(form) => word_step(form, byte),
            Part::Text => text_step(byte),
            Part::Mark => mark_step(byte),
            Part::Quoted => quoted_step(byte),
        }
    }

    /// What the end of the input does here.
    pub fn ending(self) -> Ending
        ensures { EndsSo self result }
    {
        match self {
            Part::Blank | Part::Comment => Ending::Bare,
            Part::Word(form) => {
                if form.is_token() {
                    Ending::Whole
                } else {
                    Ending::Formless
                }
            }
            Part::Mark => Ending::Whole,
            Part::Text | Part::Quoted => Ending::Halted,
        }
    }

    /// The token that ends here: `start` has its bytes, and `content` what was read of a text or a quoted symbol.
    #[inline(always)]
    pub fn token<'a>(self, start: &'a [u8], content: &'a [u8]) -> Option<TokenView<'a>>
        ensures { option_map seen result ≡ part_token self start.now content.now }
    {
        match self {
            Part::Blank | Part::Comment | Part::Text => None,
            Part::Word(form) => word_token(form, start),
            Part::Mark => Some(TokenView::Text(content)),
            Part::Quoted => Some(TokenView::Symbol(content)),
        }
    }
}

/// How many bytes at the front leave the form of the word as it is. The rarer forms take their bytes one by one.
fn steady_word(form: Form, bytes: &[u8]) -> usize
    ensures { Passes (InWord form) (InWord form) bytes.now result }
{
    match form {
        Form::Simple | Form::Named => leading_symbol_bytes(bytes),
        Form::Digits | Form::Places => leading_digits(bytes),
        _ => 0,
    }
}

/// What a byte does between tokens.
fn blank_step(byte: u8) -> Step
    ensures { StepsSo Blank byte result }
{
    if is_blank(byte) {
        Step::Stays(Part::Blank)
    } else if byte == b';' {
        Step::Stays(Part::Comment)
    } else if byte == b'(' {
        Step::Turns(Turn::Enters)
    } else if byte == b')' {
        Step::Turns(Turn::Leaves)
    } else if byte == b'"' {
        Step::Turns(Turn::Begins(Part::Text))
    } else if byte == b'|' {
        Step::Turns(Turn::Begins(Part::Quoted))
    } else if let Some(form) = Form::begin(byte) {
        Step::Turns(Turn::Begins(Part::Word(form)))
    } else {
        Step::Turns(Turn::Wrong)
    }
}

/// What a byte does in a comment.
fn comment_step(byte: u8) -> Step
    ensures { StepsSo Comment byte result }
{
    if byte == b'\n' || byte == b'\r' {
        Step::Stays(Part::Blank)
    } else {
        Step::Stays(Part::Comment)
    }
}

/// What a byte does in a word.
fn word_step(form: Form, byte: u8) -> Step
    ensures { StepsSo (InWord form) byte result }
{
    if let Some(next) = form.next(byte) {
        Step::Stays(Part::Word(next))
    } else if is_word_byte(byte) {
        Step::Turns(Turn::Malformed)
    } else if form.is_token() {
        Step::Turns(Turn::Ends)
    } else {
        Step::Turns(Turn::Malformed)
    }
}

/// What a byte does in a text.
fn text_step(byte: u8) -> Step
    ensures { StepsSo InText byte result }
{
    if byte == b'"' {
        Step::Stays(Part::Mark)
    } else if is_printable(byte) {
        Step::Turns(Turn::Adds(Part::Text))
    } else {
        Step::Turns(Turn::Wrong)
    }
}

/// What a byte does behind a quotation mark in a text.
fn mark_step(byte: u8) -> Step
    ensures { StepsSo Mark byte result }
{
    if byte == b'"' {
        Step::Turns(Turn::Adds(Part::Text))
    } else {
        Step::Turns(Turn::Ends)
    }
}

/// What a byte does in a quoted symbol.
fn quoted_step(byte: u8) -> Step
    ensures { StepsSo Quoted byte result }
{
    if byte == b'|' {
        Step::Turns(Turn::Closes)
    } else if byte == b'\\' {
        Step::Turns(Turn::Wrong)
    } else if is_printable(byte) {
        Step::Turns(Turn::Adds(Part::Quoted))
    } else {
        Step::Turns(Turn::Wrong)
    }
}

/// The token that a word of this form is.
#[inline(always)]
fn word_token(form: Form, word: &[u8]) -> Option<TokenView<'_>>
    ensures { option_map seen result ≡ form_token form word.now }
{
    match form {
        Form::Simple => Some(symbol(word)),
        Form::Zero | Form::Digits => Some(TokenView::Numeral(word)),
        Form::Places => Some(TokenView::Decimal(word)),
        Form::HexDigits => Some(TokenView::Hex(word)),
        Form::BinaryDigits => Some(TokenView::Binary(word)),
        Form::Named => match word {
            [] => Some(TokenView::Keyword(word)),
            [_, name @ ..] => Some(TokenView::Keyword(name)),
        },
        Form::Point | Form::Hash | Form::HexMark | Form::BinaryMark | Form::Colon => None,
    }
}

/// The token that a simple symbol or a reserved word is.
#[inline(always)]
fn symbol(word: &[u8]) -> TokenView<'_>
    ensures { seen result ≡ symbol_token (reserved_word word.now) word.now }
{
    match reserved(word) {
        Some(reserved) => TokenView::Reserved(reserved),
        None => TokenView::Symbol(word),
    }
}

/// The reserved word that is spelled so. No two of them begin with the same byte.
#[inline(always)]
fn reserved(word: &[u8]) -> Option<Word>
    ensures { result ≡ reserved_word word.now }
{
    let Some(first) = word.first() else {
        return None;
    };
    match *first {
        b'!' => spelled(word, b"!".as_slice(), Word::Exclamation),
        b'_' => spelled(word, b"_".as_slice(), Word::Underscore),
        b'a' => spelled(word, b"as".as_slice(), Word::As),
        b'l' => spelled(word, b"let".as_slice(), Word::Let),
        b'e' => spelled(word, b"exists".as_slice(), Word::Exists),
        b'f' => spelled(word, b"forall".as_slice(), Word::Forall),
        b'm' => spelled(word, b"match".as_slice(), Word::Match),
        b'p' => spelled(word, b"par".as_slice(), Word::Par),
        _ => None,
    }
}

/// The reserved word, where the word has its spelling.
fn spelled(word: &[u8], spelling: &[u8], reserved: Word) -> Option<Word>
    ensures { result ≡ (if bytes_eq word.now spelling.now then Some reserved else None) }
{
    if word == spelling {
        Some(reserved)
    } else {
        None
    }
}
