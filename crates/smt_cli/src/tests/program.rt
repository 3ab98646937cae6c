//! The program round a run, over a command line and ends in memory.
use crate::program::program;
use ports::{MemSink, MemSource};
use smt_words::{WordsError, words_of};
use std::alloc::Global;
use std::env;
use std::env::{Env, FillError};
use std::test::Fail;
use std::thread::Threads;

/// An environment with these words of the command line.
#[derive(Clone, Copy)]
struct CommandLine<'a>(&'a [&'a [u8]]);

impl Env for CommandLine<'_> {
    fn arg(&self, i: usize, buf: &mut [u8]) -> Result<usize, FillError> {
        match self.0.get(i) {
            Some(word) if word.len() <= buf.len() => {
                buf[..word.len()].copy_from_slice(word);
                Ok(word.len())
            }
            Some(_) => Err(FillError::TooLong),
            None => Err(FillError::NotPresent),
        }
    }

    fn var(&self, _name: &str, _buf: &mut [u8]) -> Result<usize, FillError> {
        Err(FillError::NotPresent)
    }

    fn var_at(&self, _i: usize, _buf: &mut [u8]) -> Result<usize, FillError> {
        Err(FillError::NotPresent)
    }
}

fn words(alloc: Global, words: &[&[u8]]) -> Result<Vec<String>, WordsError> {
    words_of(alloc, env::args(&(CommandLine(words), alloc)))
}

#[test]
fn takes_all_words_in_order(rt: HostRuntime) -> Result<(), Fail> {
    let alloc = rt.alloc();
    let taken = words(alloc, &[b"smt_cli", b"--seed", b"\xc3\xa9", b""])?;
    assert_eq!(rt; taken.len(), 4);
    assert_eq!(rt; taken[0].as_str(), "smt_cli");
    assert_eq!(rt; taken[1].as_str(), "--seed");
    assert_eq!(rt; taken[2].as_str(), "\u{e9}");
    assert_eq!(rt; taken[3].as_str(), "");
    Ok(())
}

#[test]
fn refuses_a_word_that_is_not_utf_8(rt: HostRuntime) -> Result<(), Fail> {
    let refused = words(rt.alloc(), &[b"smt_cli", b"--seed", b"\xff"]);
    assert!(rt; matches!(&refused, Err(WordsError::Refused)));
    Ok(())
}

/// What the program exits with, what it wrote, and what it said.
fn outcome<R: Threads + Sync>(
    rt: &R,
    alloc: Global,
    given: &[&[u8]],
    script: &[u8],
) -> Result<(String, Vec<u8>, Vec<u8>), Fail> {
    let words = words(alloc, given);
    let mut source = MemSource::new(script.to_vec(alloc)?, 9, Vec::new(alloc));
    let mut sink = MemSink::new(alloc, 60, Vec::new(alloc))?;
    let mut errors = MemSink::new(alloc, 120, Vec::new(alloc))?;
    let code = program(rt, alloc, &words, &mut source, &mut sink, &mut errors);
    Ok((
        format!(in alloc; "{code:?}")?,
        sink.written().to_vec(alloc)?,
        errors.written().to_vec(alloc)?,
    ))
}

const USAGE: &[u8] =
    b"usage: smt_cli [--workers 1..16] [--units U] [--share 0..64] [--seed K] [gen --seed K --size 1..2000]\n";

/// Words, a script, what the program exits with, what it writes, and what it says.
static ENDS: [(
    &'static [&'static [u8]],
    &'static [u8],
    &'static str,
    &'static [u8],
    &'static [u8],
); 5] = [
    (
        &[b"smt_cli", b"--seed=7"],
        b"(check-sat)",
        "ExitCode(unix_exit_status(0))",
        b"sat\n",
        b"",
    ),
    (
        &[b"smt_cli"],
        b"(check-sat))",
        "ExitCode(unix_exit_status(1))",
        b"sat\n(error \"E2 closing parenthesis at byte 11\")\n",
        b"",
    ),
    (
        &[b"smt_cli", b"--workers=0"],
        b"(check-sat)",
        "ExitCode(unix_exit_status(2))",
        b"",
        USAGE,
    ),
    (
        &[b"smt_cli", b"gen", b"--seed", b"7"],
        b"(check-sat)",
        "ExitCode(unix_exit_status(2))",
        b"",
        USAGE,
    ),
    (
        &[b"smt_cli", b"--seed=\xff"],
        b"(check-sat)",
        "ExitCode(unix_exit_status(2))",
        b"",
        USAGE,
    ),
];

#[test]
fn ends_with_a_status_and_a_line(rt: HostRuntime) -> Result<(), Fail> {
    for row in ENDS.iter() {
        let (given, script, code, written, said) = *row;
        let (ended, replies, line) = outcome(&rt, rt.alloc(), given, script)?;
        assert_eq!(rt; ended.as_str(), code);
        assert_eq!(rt; replies.as_slice(), written);
        assert_eq!(rt; line.as_slice(), said);
    }
    Ok(())
}
