//! The text of a whole reply: what each kind of reply prints, and its line feed.
//!
//! Why: a reply is written into a line of its own and then appended, so want of memory leaves the
//! output as it was.
ghost use Rattle.std.specs.Prelude.{◌≡◌, ◌↔◌, ◌++◌, [], ◌∷◌, map, IsSome, IfSome, OnOk, OnErr};
ghost use Rattle.smt_meaning.specs.Text.{text as text_of, listed};
ghost use Rattle.reply_print.specs.Texts.{HasFixedText, error_reply_text, minimum_text};

use crate::error::message;
use crate::information::{information, option_value};
use crate::list::{Print, parts};
use crate::name::literal;
use crate::number::integer;
use smt_meaning::Bytes;
use smt_meaning::language::{Error, Reply};
use std::alloc::{AllocError, Global};

/// Appends the text of a reply. An `Err`, for want of memory, leaves `out` as it was.
pub fn text(alloc: Global, reply: &Reply, out: &mut Bytes) -> Result<(), AllocError>
    ensures ok { OnOk result (out.new ≡ out.old ++ text_of reply.now) }
    ensures err { OnErr result (out.new ≡ out.old) }
{
    if let Some(text) = fixed(reply) {
        return out.append(text);
    }
    let mut line = Bytes::new(alloc);
    content(alloc, reply, &mut line)?;
    line.push(b'\n')?;
    out.append(line.as_slice())
}

/// The text of a reply, where it is always the same. It takes no memory.
#[tactic(auto, unfolding(smt_meaning::specs::Text::text))]
pub fn fixed(reply: &Reply) -> Option<&'static [u8]>
    ensures fixed { IsSome result ↔ HasFixedText reply.now }
    ensures some { IfSome result (λ t. t.now ≡ text_of reply.now) }
{
    match reply {
        Reply::Success => Some(b"success\n"),
        Reply::Silent => Some(b""),
        Reply::Unsupported => Some(b"unsupported\n"),
        Reply::Sat => Some(b"sat\n"),
        Reply::Unsat => Some(b"unsat\n"),
        Reply::Unknown => Some(b"unknown\n"),
        _ => None,
    }
}

/// Appends the text of a reply without its line feed.
#[tactic(auto, unfolding(smt_meaning::specs::Text::text))]
fn content(alloc: Global, reply: &Reply, out: &mut Bytes) -> Result<(), AllocError>
    requires { HasFixedText reply.now → ⊥ }
    ensures { OnOk result (out.new ++ 10 ∷ [] ≡ out.old ++ text_of reply.now) }
{
    match reply {
        Reply::Echo(text) => literal(text.as_slice(), out),
        Reply::Option(value) => option_value(value, out),
        Reply::Info(info) => information(*info, out),
        Reply::Values(values) => list(alloc, values.as_slice(), out),
        Reply::Model(functions) => list(alloc, functions.as_slice(), out),
        Reply::Assertions(terms) => list(alloc, terms.as_slice(), out),
        Reply::Assignment(truths) => list(alloc, truths.as_slice(), out),
        Reply::UnsatCore(names) => list(alloc, names.as_slice(), out),
        Reply::UnsatAssumptions(terms) => list(alloc, terms.as_slice(), out),
        Reply::Minimum(value) => minimum(*value, out),
        Reply::Error(error) => error_reply(alloc, error, out),
        _ => unreachable!(),
    }
}

/// Appends a list in parentheses.
fn list<T: Print>(alloc: Global, items: &[T], out: &mut Bytes) -> Result<(), AllocError>
    ensures { OnOk result (out.new ≡ out.old ++ listed (map T.text items.now)) }
{
    out.push(b'(')?;
    parts(alloc, items, out)?;
    out.push(b')')
}

/// Appends a least value.
fn minimum(value: i128, out: &mut Bytes) -> Result<(), AllocError>
    ensures { OnOk result (out.new ≡ out.old ++ minimum_text value) }
{
    out.append(b"(minimum ")?;
    integer(value, out)?;
    out.push(b')')
}

/// Appends an error, whose message is a string literal.
fn error_reply(alloc: Global, error: &Error, out: &mut Bytes) -> Result<(), AllocError>
    ensures { OnOk result (out.new ≡ out.old ++ error_reply_text error.now) }
{
    let mut words = Bytes::new(alloc);
    message(error, &mut words)?;
    out.append(b"(error ")?;
    literal(words.as_slice(), out)?;
    out.push(b')')
}
