//! The checker of proofs, which knows nothing of the solver's search: it folds the commands of a
//! script up to `(get-proof)`, judges the s-expression behind it as a proof that the assertions of
//! the last check have no model, and writes one line on what it found.
//!
//! `check_run`, `check_within`: the clause `IsChecked`. The line is `yes` only where the
//! s-expression is a proof that is good for the levels of the last check; then no interpretation
//! makes the assertions true that its steps name, and so none makes all of them true.
//!
//! Each line comes in its case alone: `node n`, `no n` or `range n` where the term or the step of
//! this number is the first that isn't by its rule, or the first whose numbers leave the range.
//!
//! `no proof` comes only where a fault, the end or an exit stands before the proof, where it isn't two
//! lists, and where `(get-proof)` doesn't come after a check.
//!
//! The frames of the last check are those of a fold of the commands, each of which is answered as
//! it may be. The fold has the settings of no words, but for one worker. It decides no check: each
//! is answered `unknown` for want of memory, as a worker may always answer.
//!
//! All this holds of the bytes that were taken, whatever bytes may follow, and of all that the
//! source has. The line is written by one call of the sink.
//!
//! Status 2 comes exactly where there is a word past the name, and nothing is then read or written;
//! 3 and 4 come only where the source's or the sink's count of faults rose, 6 only where as many
//! calls of the source gave a byte or more as the budget has. At 3 and 6 nothing is settled.
#![tactic(auto)]

mod checking;
mod folding;
mod intake;
mod line;
mod undecided;

pub use checking::{CheckEnded, check_run, check_within};
use ports::{ReadSource, WriteSink};
use smt_words::{WordsError, words_of};
use std::env;
use std::process::ExitCode;

/// The program over the standard streams: a run of the checker under the words of the command line, whose status is the exit code. Where no words can be had nothing is read or written, and the code is 2, or 5 for want of memory.
pub fn start(rt: &HostRuntime) -> ExitCode {
    let status = match words_of(rt.alloc(), env::args(rt)) {
        Ok(words) => {
            let mut source = ReadSource::new(rt.stdin());
            let mut sink = WriteSink::new(rt.stdout());
            check_run(rt.alloc(), &mut source, &mut sink, &words).status
        }
        Err(WordsError::Refused) => 2,
        Err(WordsError::Memory) => 5,
    };
    ExitCode::from(status)
}
