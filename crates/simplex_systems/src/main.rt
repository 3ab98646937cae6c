//! A program that reads systems of sums and bounds from standard input, a command a line, and
//! prints what each check of the simplex method finds: values, the tags of a conflict, the number
//! of pivots.
//!
//! It promises nothing beyond safety. The answers of its stored run were computed apart from it,
//! over exact fractions without bound; z3 confirmed each `fits` and `conflict`, that the bounds of
//! each conflict have no solution by themselves, and that without any one of a row's they have one.
#![tactic(auto)]

mod command;
mod system;

use std::io::{BufRead, BufReader};
use system::System;

fn main(rt: HostRuntime) -> anyhow::Result<()> {
    let alloc = rt.alloc();
    let mut system = System::new(alloc);
    for line in BufReader::new(alloc, rt.reader())?.lines(alloc) {
        if let Some(reply) = command::obey(&mut system, alloc, line?.as_str())? {
            rt.println(reply)?;
        }
    }
    Ok(())
}
