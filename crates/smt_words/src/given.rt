//! The words of the command line, as the system gives them.
//!
//! Where the words of the command line can't be had for want of memory, the status is 5, as for any
//! other want of memory; so it is where `clap` finds none, also at words that it would refuse.
//! Nothing is read or written then. A word that isn't UTF-8 is refused (status 2): the standard
//! library answers it by a kind of error of its own. Every other error of the command line counts
//! as want of memory.
ghost use Rattle.std.specs.Prelude.{◌≡◌};
ghost use Rattle.smt_words.specs.Given.{AreCollected, AreWords, cause_of};

use crate::WordsError;
use std::alloc::Global;
use std::env::Args;
use std::io;
use std::io::ErrorKind;

/// The words of a command line, the program's name first, from what the system gives of them. A
/// word that isn't UTF-8 is refused, as each word is that isn't one of the program's.
pub fn words_of(alloc: Global, args: io::Result<Args<Global>>) -> Result<Vec<String>, WordsError>
    ensures { AreWords args result }
{
    match args {
        Ok(args) => collected(alloc, args),
        Err(error) => Err(cause(error.kind())),
    }
}

/// Why there are no words.
fn cause(kind: ErrorKind) -> WordsError
    ensures { result ≡ cause_of kind }
{
    match kind {
        ErrorKind::InvalidData => WordsError::Refused,
        _ => WordsError::Memory,
    }
}

/// All words, in order.
fn collected(alloc: Global, mut args: Args<Global>) -> Result<Vec<String>, WordsError>
    ensures { AreCollected args result }
{
    let mut words = Vec::new(alloc);
    while let Some(word) = args.next() {
        if words.push(word).is_err() {
            return Err(WordsError::Memory);
        }
    }
    Ok(words)
}
