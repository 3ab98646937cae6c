//! What the program does round a run, between a source, a sink and a sink for errors.
ghost use Rattle.std.specs.Prelude.{◌≡◌, [], List, length};
ghost use Rattle.std.specs.Process.{exit_status};
ghost use Rattle.smt_top.specs.Progress.{between};
ghost use Rattle.smt_meaning.specs.declared.answers.Entry.{Entry as EntryValue};
ghost use Rattle.smt_top.specs.Ended.{ended_with};
ghost use Rattle.smt_top.specs.declared.top.Ended.{Ended as EndedValue};
ghost use Rattle.smt_cli.specs.Program.{IsServed, IsSaid, line_of};

use crate::line::line;
use ports::{OpenGate, ReadSource, Sink, Source, WriteSink};
use smt_top::{Forgetting, Outcome, run_through, unbegun};
use smt_words::{WordsError, words_of};
use std::alloc::Global;
use std::env;
use std::process::ExitCode;
use std::thread::Threads;

/// Runs the script that the source gives, where there are words of the command line. No entry is kept, so that a run may be as long as it likes.
fn serve<R: Threads + Sync, S: Source, K: Sink>(
    rt: &R,
    alloc: Global,
    words: &Result<Vec<String>, WordsError>,
    source: &mut S,
    sink: &mut K,
) -> Outcome
    ensures { (journal : List EntryValue)
        × IsServed words.now (between (S.told source.old) (K.told sink.old) (S.told source.new) (K.told sink.new)) (ended_with result journal) }
{
    match words {
        Ok(words) => run_through(
            rt,
            alloc,
            1 << 40,
            words,
            source,
            sink,
            &OpenGate,
            &mut Forgetting,
        ),
        Err(error) => unbegun(*error),
    }
}

/// Puts a text into a sink, if there is any. Where the sink takes nothing, the program's status
/// still tells.
fn say<E: Sink>(errors: &mut E, text: &[u8])
    ensures said { IsSaid text.now (E.told errors.old) (E.told errors.new) }
    ensures silent { text.now ≡ [] → errors.new ≡ errors.old }
{
    if text.is_empty() {
        return;
    }
    let _ = errors.put(text);
}

/// Says why a run ended, where the replies don't say all, and gives the status to exit with.
fn conclude<E: Sink>(errors: &mut E, outcome: Outcome) -> ExitCode
    ensures status { exit_status result ≡ outcome.status }
    ensures said { IsSaid (line_of outcome.note) (E.told errors.old) (E.told errors.new) }
    ensures silent { line_of outcome.note ≡ [] → errors.new ≡ errors.old }
{
    say(errors, line(outcome.note).as_bytes());
    ExitCode::from(outcome.status)
}

/// The whole program between its ends: a run of the script that the source gives, under the words
/// of the command line, with the replies in the sink and a line on why it ended among the errors.
/// The code is the run's status.
pub fn program<R: Threads + Sync, S: Source, K: Sink, E: Sink>(
    rt: &R,
    alloc: Global,
    words: &Result<Vec<String>, WordsError>,
    source: &mut S,
    sink: &mut K,
    errors: &mut E,
) -> ExitCode
    ensures { (ended : EndedValue)
        × IsServed words.now (between (S.told source.old) (K.told sink.old) (S.told source.new) (K.told sink.new)) ended
        × (exit_status result ≡ ended.status)
        × IsSaid (line_of ended.note) (E.told errors.old) (E.told errors.new) }
{
    let outcome = serve(rt, alloc, words, source, sink);
    conclude(errors, outcome)
}

/// The program over the standard streams. The workers of its checks are in threads of the handle.
pub fn start<R: Threads + Sync>(threads: &R, rt: &HostRuntime) -> ExitCode {
    let words = words_of(rt.alloc(), env::args(rt));
    let mut source = ReadSource::new(rt.stdin());
    let mut sink = WriteSink::new(rt.stdout());
    let mut errors = WriteSink::new(rt.stderr());
    program(
        threads,
        rt.alloc(),
        &words,
        &mut source,
        &mut sink,
        &mut errors,
    )
}
