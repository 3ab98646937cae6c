//! Whole runs: words and a script in, bytes and a status out, over sources and sinks in memory.
use ports::{CalmSink, CalmSource, MemSink, MemSource, More, OpenGate, Put, Sink, Source};
use smt_meaning::language::{Entry, Error, Reply};
use smt_top::{Note, run, run_within};
use std::alloc::{AllocError, Global};
use std::cell::Cell;
use std::test::Fail;
use std::thread::Threads;

/// The words of a line, cut at single spaces.
fn words_of(alloc: Global, line: &str) -> Result<Vec<String>, AllocError> {
    let mut words = Vec::new(alloc);
    for word in line.split(' ') {
        words.push(String::from_str(alloc, word)?)?;
    }
    Ok(words)
}

/// What becomes of a script that comes in pieces, where these calls of the source and of the sink
/// fail, and that of the sink takes so many bytes. No call has the number 0.
fn outcome<R: Threads + Sync>(
    rt: &R,
    alloc: Global,
    script: &[u8],
    piece: usize,
    read_fails: u64,
    write_fails: u64,
    cut: usize,
) -> Result<(u8, Vec<u8>), AllocError> {
    let words = words_of(alloc, "smt_cli")?;
    let mut source = MemSource::new(script.to_vec(alloc)?, piece, vec![in alloc; read_fails]?);
    let mut sink = MemSink::torn(alloc, 200, vec![in alloc; write_fails]?, cut)?;
    let ended = run(rt, alloc, &words, &mut source, &mut sink, &OpenGate);
    Ok((ended.status, sink.written().to_vec(alloc)?))
}

/// Scripts, the status at the end, and what is written.
static SCRIPTS: [(&'static [u8], u8, &'static [u8]); 6] = [
    (b"", 0, b""),
    (
        b"(set-logic QF_UFLIA)(check-sat)(exit)",
        0,
        b"success\nsat\nsuccess\n",
    ),
    (
        b"(check-sat)(assert",
        1,
        b"sat\n(error \"E3 end inside a command at byte 11\")\n",
    ),
    (
        b"(set-logic QF_UF))(check-sat)",
        1,
        b"success\n(error \"E2 closing parenthesis at byte 17\")\n",
    ),
    (
        b"(check-sat)(push 01)",
        1,
        b"sat\n(error \"E1 character at byte 17\")\n",
    ),
    (b"(exit)\xff\x00\x28", 0, b"success\n"),
];

#[test]
fn answers_scripts(rt: HostRuntime) -> Result<(), Fail> {
    for row in SCRIPTS.iter() {
        let (script, status, want) = *row;
        for piece in [1, 4096] {
            let (ended, written) = outcome(&rt, rt.alloc(), script, piece, 0, 0, 0)?;
            assert_eq!(rt; ended, status);
            assert_eq!(rt; written.as_slice(), want);
        }
    }
    Ok(())
}

/// For a script of 37 bytes in pieces of 7: the calls of the source and of the sink that fail, how many bytes the sink then takes, the status at the end, and
/// what is written.
static FAULTS: [(u64, u64, usize, u8, &'static [u8]); 12] = [
    (1, 0, 0, 3, b""),
    (2, 0, 0, 3, b""),
    (3, 0, 0, 3, b""),
    (4, 0, 0, 3, b"success\n"),
    (5, 0, 0, 3, b"success\n"),
    (6, 0, 0, 3, b"success\nsat\n"),
    (7, 0, 0, 0, b"success\nsat\nsuccess\n"),
    (0, 1, 0, 4, b""),
    (0, 2, 0, 4, b"success\n"),
    (0, 3, 0, 4, b"success\nsat\n"),
    (0, 2, 2, 4, b"success\nsa"),
    (0, 2, 9, 4, b"success\nsat\n"),
];

#[test]
fn stops_at_faults(rt: HostRuntime) -> Result<(), Fail> {
    let script = b"(set-logic QF_UFLIA)(check-sat)(exit)";
    for row in FAULTS.iter() {
        let (read_fails, write_fails, cut, status, want) = *row;
        let (ended, written) = outcome(&rt, rt.alloc(), script, 7, read_fails, write_fails, cut)?;
        assert_eq!(rt; ended, status);
        assert_eq!(rt; written.as_slice(), want);
    }
    Ok(())
}

#[test]
fn stops_at_the_budget(rt: HostRuntime) -> Result<(), Fail> {
    let alloc = rt.alloc();
    let words = words_of(alloc, "smt_cli")?;
    let mut source = MemSource::new(b"(exit)".to_vec(alloc)?, 1, Vec::new(alloc));
    let mut sink = MemSink::new(alloc, 20, Vec::new(alloc))?;
    let ended = run_within(&rt, alloc, 2, &words, &mut source, &mut sink, &OpenGate);
    assert_eq!(rt; ended.status, 6);
    assert_eq!(rt; ended.note, Note::TooLong);
    assert!(rt; sink.written().is_empty());
    Ok(())
}

fn is_sat(entry: &Entry, number: u64) -> bool {
    entry.number == number && matches!(entry.reply, Reply::Sat)
}

fn is_no_command(entry: &Entry, number: u64) -> bool {
    entry.number == number && matches!(entry.reply, Reply::Error(Error::NotCommand))
}

#[test]
fn keeps_the_journal(rt: HostRuntime) -> Result<(), Fail> {
    let alloc = rt.alloc();
    let words = words_of(alloc, "smt_cli --workers 2")?;
    let mut source = CalmSource::new(b"(check-sat)(check-sat)x".to_vec(alloc)?, 3);
    let ended = run(&rt, alloc, &words, &mut source, &mut CalmSink, &OpenGate);
    assert_eq!(rt; ended.status, 1);
    let replies = ended.journal.as_slice();
    assert_eq!(rt; replies.len(), 3);
    assert!(rt; is_sat(&replies[0], 0));
    assert!(rt; is_sat(&replies[1], 1));
    assert!(rt; is_no_command(&replies[2], 2));
    Ok(())
}

/// Words with `gen`, the status at the end, and the last line that is written after four rounds of answers. Nothing is written where the words are refused.
static MADE: [(&'static str, u8, &'static [u8]); 7] = [
    (
        "smt_cli --workers 2 gen --seed 1 --size 3",
        0,
        b"\"size 3 sat 8 unsat 4\"\n",
    ),
    (
        "smt_cli gen --seed 7 --size 20",
        0,
        b"\"size 20 sat 8 unsat 4\"\n",
    ),
    (
        "smt_cli gen --seed 7 --size 20",
        0,
        b"\"size 20 sat 8 unsat 4\"\n",
    ),
    (
        "smt_cli --workers 1 gen --seed 7 --size 200",
        0,
        b"\"size 200 sat 8 unsat 4\"\n",
    ),
    ("smt_cli gen --seed 7 --size 0", 2, b""),
    ("smt_cli gen --seed 7 --size 2001", 2, b""),
    ("smt_cli gen --seed 7", 2, b""),
];

/// What a run writes that ends with this line, if there is one.
fn replies(alloc: Global, last: &[u8]) -> Result<Vec<u8>, AllocError> {
    let mut replies = Vec::new(alloc);
    if last.is_empty() {
        return Ok(replies);
    }
    for _ in 0..4 {
        replies.extend_from_slice(b"sat\nunsat\nsat\n")?;
    }
    replies.extend_from_slice(last)?;
    Ok(replies)
}

#[test]
fn answers_scripts_that_are_made(rt: HostRuntime) -> Result<(), Fail> {
    let alloc = rt.alloc();
    for row in MADE.iter() {
        let (line, status, last) = *row;
        let words = words_of(alloc, line)?;
        let mut source = MemSource::new(b"(check-sat)".to_vec(alloc)?, 4, Vec::new(alloc));
        let mut sink = MemSink::new(alloc, 200, Vec::new(alloc))?;
        let ended = run_within(&rt, alloc, 1, &words, &mut source, &mut sink, &OpenGate);
        assert_eq!(rt; ended.status, status, "{line}");
        assert_eq!(rt; sink.written(), replies(alloc, last)?.as_slice(), "{line}");
        let mut left = [0; 20];
        let unread = matches!(source.more(left.as_mut_slice()), More::Got(4));
        assert!(rt; unread, "{line}");
    }
    Ok(())
}

/// A source that notes at each call how many bytes have been written by then.
#[derive(Drop)]
struct Watching<'a> {
    source: CalmSource,
    written: &'a Cell<usize>,
    seen: Vec<usize>,
}

impl Source for Watching<'_> {
    ghost use Rattle.std.specs.Prelude.{None};

    ghost told = { λ _. record {
      left = None;
      given = None;
      faults = 0;
    } };

    fn more(&mut self, buf: &mut [u8]) -> More {
        let _ = self.seen.push(self.written.get());
        self.source.more(buf)
    }
}

/// A sink that counts the bytes written.
#[derive(Drop)]
struct Counting<'a> {
    written: &'a Cell<usize>,
}

impl Sink for Counting<'_> {
    ghost use Rattle.std.specs.Prelude.{None};

    ghost told = { λ _. record {
      written = None;
      calls = None;
      faults = 0;
    } };

    fn put(&mut self, bytes: &[u8]) -> Put {
        let count = self.written.get();
        self.written.set(count.saturating_add(bytes.len()));
        Put::Ok
    }
}

#[test]
fn answers_what_is_whole_before_it_asks_again(rt: HostRuntime) -> Result<(), Fail> {
    let alloc = rt.alloc();
    let words = words_of(alloc, "smt_cli")?;
    let written = Cell::new(0);
    let mut source = Watching {
        source: CalmSource::new(b"(check-sat)(check-sat)".to_vec(alloc)?, 11),
        written: &written,
        seen: Vec::new(alloc),
    };
    let mut sink = Counting { written: &written };
    let ended = run(&rt, alloc, &words, &mut source, &mut sink, &OpenGate);
    assert_eq!(rt; ended.status, 0);
    assert_eq!(rt; source.seen.as_slice(), [0, 4, 8].as_slice());
    Ok(())
}
