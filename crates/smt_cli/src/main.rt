//! The program: reads a script from standard input, writes the replies to standard output, and ends
//! with the status of the run.
//!
//! `program`: what it does round a run: it takes the words of its command line, runs between two
//! ends, says on a third why the run ended, and gives the status to exit with.
//!
//! Between a source, a sink and a sink for errors there is a run as `smt_top` says, whose status is
//! the exit code. Where no words can be had, nothing is read, written or answered, with status 2
//! where they are refused and 5 for want of memory.
//!
//! The run's line is put into the errors by one call (none where the line is empty), unless the
//! count of faults of that sink rose.
//!
//! `main` is one call of `start`, of which no clause speaks. Its stored run has checks of each kind,
//! and each kind of reply and refusal; its tests are tables of whole runs over sources and sinks in
//! memory.
#![tactic(auto)]

mod line;
mod program;
#[cfg(test)]
mod tests;

use program::start;
use std::process::ExitCode;

fn main(rt: HostRuntime) -> ExitCode {
    start(&rt, &rt)
}
