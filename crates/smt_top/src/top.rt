//! A run from its words to its status: pieces are taken from the source, and whatever they settle
//! is answered before the next is asked for.
ghost use Rattle.std.specs.Prelude.{◌≡◌, ◌≤◌, ◌<◌, ◌↔◌, ◌^◌, ◌+◌, [], List, ℕ, length, map, IsTrue, IfErr, IfOk, OnOk, Some, false, string_bytes};
ghost use Rattle.smt_meaning.specs.declared.settings.Settings.{Settings as SettingsValue};
ghost use Rattle.smt_meaning.specs.declared.answers.Entry.{Entry as EntryValue};
ghost use Rattle.smt_meaning.specs.LegalJournal.{journal_text};
ghost use Rattle.smt_meaning.specs.State.{start};
ghost use Rattle.smt_words.specs.Words.{are_taken, generated_of};
ghost use Rattle.smt_words.specs.declared.Generated.{Generated as GeneratedValue};
ghost use Rattle.script_gen.specs.Script.{script as made};
ghost use Rattle.theory_port.specs.Verdicts.{IsVerdict};
ghost use Rattle.smt_top.specs.Progress.{Advances, CutOff, Driven, Ends, NoneSettled, SoFar, Tallies, at_source, between, run_of};
ghost use Rattle.smt_top.specs.Ended.{IsUnbegun, MatchesStatus, RanThrough, RanUnder, StatusOf, made_of};

use crate::ledger::Ledger;
use crate::serving::{Server, Stage, Stop};
use portfolio::{By, check};
use ports::{Gate, More, Sink, Source};
use scope_stack::Stack;
use script_gen::script;
use smt_meaning::language::Entry;
use smt_meaning::{Seq, Settings};
use smt_words::{Generated, Invocation, WordsError};
use std::alloc::{AllocError, Global};
use std::thread::Threads;
use theory_port::{Decider, Verdict};

/// Why a run ended.
#[derive(Clone, Copy, Debug, PartialEq, Eq, Drop)]
pub enum Note {
    /// The input was answered to its end, to an exit or to a fault.
    Fine,
    /// The words of the command line were refused.
    Words,
    /// The source failed.
    ReadFault,
    /// The sink failed.
    WriteFault,
    /// Memory was wanting.
    NoMemory,
    /// The input is longer than the budget of calls that ask for it.
    TooLong,
}

/// How a run ended.
#[derive(Clone, Copy, Debug, PartialEq, Eq, Drop)]
pub struct Outcome {
    /// What the program exits with: 0 where all is well, 1 where an error was replied, 2 where the words were refused, 3 and 4 where the source or the sink failed, 5 where memory was wanting, 6 where the input was too long.
    pub status: u8,
    pub note: Note,
}

/// A run that has ended, with its journal.
#[derive(Drop)]
pub struct Ended {
    /// As that of an `Outcome`.
    pub status: u8,
    /// What was answered, in order.
    pub journal: Seq<Entry>,
    pub note: Note,
}

/// What cut a run off.
#[derive(Clone, Copy, PartialEq, Eq, Drop)]
pub enum Halt {
    Memory,
    ReadFault,
    WriteFault,
}

impl From<AllocError> for Halt {
    ghost use Rattle.std.specs.Prelude.{◌≡◌};
    ghost use Rattle.smt_top.specs.declared.top.Halt.TheVariants.{Memory};

    ghost from_gives = { λ _ e. e ≡ Memory };

    fn from(_: AllocError) -> Self {
        Halt::Memory
    }
}

impl From<Stop> for Halt {
    ghost use Rattle.smt_top.specs.Ended.{HaltOf};

    ghost from_gives = { HaltOf };

    fn from(stop: Stop) -> Self {
        match stop {
            Stop::Memory => Halt::Memory,
            Stop::WriteFault => Halt::WriteFault,
        }
    }
}

/// Runs to the end of the input, to an exit or to a fault, or says that more of the input is needed past the budget.
#[tactic(none)]
fn drive<S: Source, K: Sink, L: Ledger, D: Decider>(
    alloc: Global,
    budget: u64,
    source: &mut S,
    sink: &mut K,
    ledger: &mut L,
    decider: &mut D,
    server: &mut Server,
) -> Result<Stage, Halt>
    requires may { D.may decider.old }
    requires budget { budget ≤ 2 ^ 40 }
    requires begun { SoFar server.old.session.settings (between (S.told source.old) (K.told sink.old) (S.told source.old) (K.told sink.old)) 0 (run_of server.old []) }
    requires tally { Tallies server.old [] }
    ensures { Driven server.old.session.settings result (between (S.told source.old) (K.told sink.old) (S.told source.new) (K.told sink.new)) budget server.new
        sink.old sink.new (L.entries ledger.old) (L.entries ledger.new) }
{
    let mut buf = vec![in alloc; 0u8; 65536]?;
    let mut stage = advance(alloc, sink, ledger, decider, server)?;
    for turn in 0..budget {
        match stage {
            Stage::Complete => break,
            Stage::Asks => take_more(source, buf.as_mut_slice(), server)?,
        }
        stage = advance(alloc, sink, ledger, decider, server)?;
    }
    Ok(stage)
}

/// Makes a script, and answers it to its end, to an exit or to a fault.
#[tactic(none)]
fn serve_made<K: Sink, L: Ledger, D: Decider>(
    alloc: Global,
    generated: Generated,
    sink: &mut K,
    ledger: &mut L,
    decider: &mut D,
    server: &mut Server,
) -> Result<Stage, Halt>
    requires may { D.may decider.old }
    requires size { (1 ≤ generated.size) × (generated.size ≤ 2000) }
    requires reader { server.old.reader ≡ record { place = 0; bytes = []; finished = false } }
    requires session { server.old.session ≡ start server.old.session.settings }
    requires tally { Tallies server.old [] }
    ensures { Driven server.old.session.settings result (made_of (made generated.seed generated.size) (K.told sink.old) (K.told sink.new))
        (length (made generated.seed generated.size) + 1) server.new sink.old sink.new (L.entries ledger.old) (L.entries ledger.new) }
{
    let text = script(alloc, generated.seed, generated.size)?;
    server.reader.feed(text.as_bytes())?;
    server.reader.finish();
    advance(alloc, sink, ledger, decider, server)
}

/// Answers all that is ready.
fn advance<K: Sink, L: Ledger, D: Decider>(
    alloc: Global,
    sink: &mut K,
    ledger: &mut L,
    decider: &mut D,
    server: &mut Server,
) -> Result<Stage, Halt>
    requires may { D.may decider.old }
    requires numbered { server.old.count ≤ server.old.reader.place }
    requires room { server.old.reader.place + length server.old.reader.bytes + 1 < 2 ^ 64 }
    ensures still { D.may decider.new }
    ensures advances { Advances result server.old server.new sink.old sink.new (K.told sink.old) (K.told sink.new) (L.entries ledger.old) (L.entries ledger.new) }
{
    let stage = server.serve(alloc, sink, ledger, decider)?;
    Ok(stage)
}

/// Asks the source for more bytes, and feeds them.
fn take_more<S: Source>(source: &mut S, buf: &mut [u8], server: &mut Server) -> Result<(), Halt>
    requires going { server.old.reader.finished ≡ false }
    requires settled { NoneSettled server.old.reader }
    requires buffer { length buf.old ≡ 65536 }
    requires room { server.old.reader.place + length server.old.reader.bytes + 65536 < 2 ^ 64 }
    ensures ok { OnOk result ((s : SettingsValue) (e : Ends) (count : ℕ) (entries : List EntryValue)
        → SoFar s e count (run_of server.old entries) → e.source_now ≡ S.told source.old
        → SoFar s (at_source e (S.told source.new)) (count + 1) (run_of server.new entries)) }
    ensures err { IfErr result (λ halt. (s : SettingsValue) (e : Ends) (count : ℕ) (entries : List EntryValue)
        → SoFar s e count (run_of server.old entries) → e.source_now ≡ S.told source.old
        → CutOff s halt (at_source e (S.told source.new)) (count + 1) (run_of server.new entries)) }
    ensures tally { (entries : List EntryValue) → Tallies server.old entries → Tallies server.new entries }
{
    match source.more(buf) {
        More::Got(0) => server.reader.finish(),
        More::Got(count) => server.reader.feed(&buf[..count])?,
        More::End => server.reader.finish(),
        More::Failed => return Err(Halt::ReadFault),
    }
    Ok(())
}

/// Runs the script that the source gives, or with the word `gen` one that is made, and writes the replies to the sink: what a run comes to is said by `RanUnder`. The words are those of the command line, of which the first is the program's name; where they are refused, nothing is read or written.
pub fn run<R: Threads + Sync, S: Source, K: Sink, G: Gate>(
    rt: &R,
    alloc: Global,
    words: &Vec<String>,
    source: &mut S,
    sink: &mut K,
    gate: &G,
) -> Ended
    ensures ran { RanUnder (2 ^ 40) (map string_bytes words.now.items) (between (S.told source.old) (K.told sink.old) (S.told source.new) (K.told sink.new)) result }
    ensures untouched { are_taken (map string_bytes words.now.items) ≡ false → (source.new ≡ source.old) × (sink.new ≡ sink.old) × (result.journal ≡ []) }
    ensures unasked { (g : GeneratedValue) → generated_of (map string_bytes words.now.items) ≡ Some g → source.new ≡ source.old }
    ensures silent { journal_text result.journal ≡ [] → sink.new ≡ sink.old }
{
    run_within(rt, alloc, 1 << 40, words, source, sink, gate)
}

/// `run` with another budget of calls that ask for more input, where `run` has 2^40.
pub fn run_within<R: Threads + Sync, S: Source, K: Sink, G: Gate>(
    rt: &R,
    alloc: Global,
    budget: u64,
    words: &Vec<String>,
    source: &mut S,
    sink: &mut K,
    gate: &G,
) -> Ended
    requires { budget ≤ 2 ^ 40 }
    ensures ran { RanUnder budget (map string_bytes words.now.items) (between (S.told source.old) (K.told sink.old) (S.told source.new) (K.told sink.new)) result }
    ensures untouched { are_taken (map string_bytes words.now.items) ≡ false → (source.new ≡ source.old) × (sink.new ≡ sink.old) × (result.journal ≡ []) }
    ensures unasked { (g : GeneratedValue) → generated_of (map string_bytes words.now.items) ≡ Some g → source.new ≡ source.old }
    ensures silent { journal_text result.journal ≡ [] → sink.new ≡ sink.old }
{
    let mut journal = Seq::new(alloc);
    let outcome = run_through(rt, alloc, budget, words, source, sink, gate, &mut journal);
    Ended {
        status: outcome.status,
        journal,
        note: outcome.note,
    }
}

/// `run_within` through any ledger: the journal is that of its entries where it tells them, and there is one where it tells none.
#[tactic(none)]
pub fn run_through<R: Threads + Sync, S: Source, K: Sink, G: Gate, L: Ledger>(
    rt: &R,
    alloc: Global,
    budget: u64,
    words: &Vec<String>,
    source: &mut S,
    sink: &mut K,
    gate: &G,
    ledger: &mut L,
) -> Outcome
    requires { budget ≤ 2 ^ 40 }
    ensures ran { RanThrough budget (map string_bytes words.now.items) (between (S.told source.old) (K.told sink.old) (S.told source.new) (K.told sink.new)) result
        sink.old sink.new (L.entries ledger.old) (L.entries ledger.new) }
    ensures untouched { are_taken (map string_bytes words.now.items) ≡ false → (source.new ≡ source.old) × (sink.new ≡ sink.old) × (ledger.new ≡ ledger.old) }
    ensures unasked { (g : GeneratedValue) → generated_of (map string_bytes words.now.items) ≡ Some g → source.new ≡ source.old }
{
    #[tactic(auto)]
    let race = |stack: &Stack, settings: &Settings| -> Result<Verdict, AllocError>
        requires { 0 < settings.now.workers }
        ensures { IfOk result (IsVerdict settings.now.workers stack.now.trees stack.now.frames settings.now.units) }
    { check(rt, alloc, gate, stack, settings) };
    let mut decider = By { f: race };
    match Invocation::from_words(alloc, words) {
        Ok(invocation) => match invocation.generated {
            None => {
                let mut server = Server::new(alloc, &invocation.settings);
                let end = drive(
                    alloc,
                    budget,
                    source,
                    sink,
                    ledger,
                    &mut decider,
                    &mut server,
                );
                finish(end, server.is_faulty)
            }
            Some(generated) => {
                let mut server = Server::new(alloc, &invocation.settings);
                let end = serve_made(alloc, generated, sink, ledger, &mut decider, &mut server);
                finish(end, server.is_faulty)
            }
        },
        Err(error) => unbegun(error),
    }
}

/// The outcome of a run that has ended before it began, since there are no settings for it.
pub fn unbegun(error: WordsError) -> Outcome
    ensures status { IsUnbegun error result.status }
    ensures note { MatchesStatus result.note result.status }
{
    let (status, note) = match error {
        WordsError::Refused => (2, Note::Words),
        WordsError::Memory => (5, Note::NoMemory),
    };
    Outcome { status, note }
}

/// The status of a run that is over, and why it is, by whether an error was replied.
fn finish(end: Result<Stage, Halt>, is_faulty: bool) -> Outcome
    ensures error { end ≡ Ok Stage.Complete → ((result.status ≡ 1) ↔ IsTrue is_faulty) }
    ensures status { StatusOf end result.status }
    ensures note { MatchesStatus result.note result.status }
{
    let (status, note) = match end {
        Ok(Stage::Complete) => (u8::from(is_faulty), Note::Fine),
        Ok(Stage::Asks) => (6, Note::TooLong),
        Err(Halt::ReadFault) => (3, Note::ReadFault),
        Err(Halt::WriteFault) => (4, Note::WriteFault),
        Err(Halt::Memory) => (5, Note::NoMemory),
    };
    Outcome { status, note }
}
