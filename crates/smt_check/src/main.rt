//! The checker of proofs as a program: reads a script and a proof from standard input, writes a line
//! on what it found to standard output, and ends with the status of the run.
//!
//! `main` is one call of `proof_check::start`, of which no clause speaks. Its stored run is a good
//! proof; its tests are tables of whole runs over sources and sinks in memory.
#![tactic(auto)]

#[cfg(test)]
mod tests;

use proof_check::start;
use std::process::ExitCode;

fn main(rt: HostRuntime) -> ExitCode {
    start(&rt)
}
