//! Whole runs: a script in, a line and a status out, over sources and sinks in memory.
mod faults;
mod lines;
mod proofs;

use ports::{MemSink, MemSource};
use proof_check::{CheckEnded, check_within};
use std::alloc::{AllocError, Global};

/// How a source and a sink in memory behave: how many bytes a call of the source gives, which call of each fails (none has the number 0), and how many
/// bytes a failing call of the sink takes.
#[derive(Clone, Copy)]
struct Ends {
    piece: usize,
    read_fails: u64,
    write_fails: u64,
    cut: usize,
}

/// Ends that never fail.
fn calm(piece: usize) -> Ends {
    Ends {
        piece,
        read_fails: 0,
        write_fails: 0,
        cut: 0,
    }
}

/// How a run over a script ends under these words, cut at single spaces, and what it writes.
fn outcome(
    alloc: Global,
    line: &str,
    script: &[u8],
    budget: u32,
    ends: Ends,
) -> Result<(CheckEnded, Vec<u8>), AllocError> {
    let mut words = Vec::new(alloc);
    for word in line.split(' ') {
        words.push(String::from_str(alloc, word)?)?;
    }
    let read_fails = vec![in alloc; ends.read_fails]?;
    let write_fails = vec![in alloc; ends.write_fails]?;
    let mut source = MemSource::new(script.to_vec(alloc)?, ends.piece, read_fails);
    let mut sink = MemSink::torn(alloc, 60, write_fails, ends.cut)?;
    let ended = check_within(alloc, u64::from(budget), &mut source, &mut sink, &words);
    Ok((ended, sink.written().to_vec(alloc)?))
}
