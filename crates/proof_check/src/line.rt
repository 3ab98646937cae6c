//! The line that says what was found, and the exit status.
ghost use Rattle.std.specs.Prelude.{◌≡◌, IfOk};
ghost use Rattle.proof_check.specs.Lines.{line_of, numbered as numbered_line, status_of};

use itoa::Buffer;
use proof_form::Found;
use smt_meaning::Bytes;
use std::alloc::{AllocError, Global};

/// A word and a number.
fn numbered(alloc: Global, word: &[u8], number: u64) -> Result<Bytes, AllocError>
    ensures { IfOk result (λ line. line ≡ numbered_line word.now number) }
{
    let mut digits = Buffer::new();
    let mut line = Bytes::copy(alloc, word)?;
    line.append(digits.format(number).as_bytes())?;
    line.append(b"\n")?;
    Ok(line)
}

/// The line that says what was found.
pub fn line(alloc: Global, found: Found) -> Result<Bytes, AllocError>
    ensures { IfOk result (λ line. line ≡ line_of found) }
{
    match found {
        Found::Yes => Bytes::copy(alloc, b"yes\n"),
        Found::Node(number) => numbered(alloc, b"node ", number),
        Found::No(number) => numbered(alloc, b"no ", number),
        Found::Range(number) => numbered(alloc, b"range ", number),
        Found::NoProof => Bytes::copy(alloc, b"no proof\n"),
    }
}

/// The exit status where the line is written.
pub fn status(found: Found) -> u8
    ensures { result ≡ status_of found }
{
    match found {
        Found::Yes => 0,
        Found::Node(_) | Found::No(_) => 1,
        Found::Range(_) => 8,
        Found::NoProof => 7,
    }
}
