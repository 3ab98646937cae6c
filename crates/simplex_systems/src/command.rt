//! The commands, a line each.
//!
//! - `system N`: a new system, whose first N variables stand for terms.
//! - `row C V C V ..`: a new variable for the sum of C times V and so on, where each V stands for a
//!   term. Prints `range` where the sum isn't taken in since a number leaves the range.
//! - `lower V K`, `upper V K`: a bound of a variable. Its tag is the number of bounds that stood
//!   before it.
//! - `undo N`: all bounds but the first N are taken back.
//! - `check N`: with room for N pivots. Prints `fits` with the values of all variables, `conflict`
//!   with the tags of the bounds, `range` or `units`; the word is followed by the number of pivots.
//! - `trace N`: the same, and then for each pivot a semicolon, the variable that leaves and the one
//!   that enters.
use crate::system::System;
use anyhow::{Result, bail};
use fraction128::Side;
use std::alloc::Global;
use std::str::SplitWhitespace;

/// All numbers of the words, in order.
fn numbers_of(alloc: Global, words: SplitWhitespace<'_>) -> Result<Vec<i128>> {
    let mut numbers = Vec::new(alloc);
    for word in words {
        numbers.push(word.parse::<i128>()?)?;
    }
    Ok(numbers)
}

/// Refuses numbers that aren't so many.
fn expect(numbers: &[i128], count: usize) -> Result<()> {
    if numbers.len() == count {
        Ok(())
    } else {
        bail!("not as many numbers as the command has")
    }
}

/// The number in this place.
fn number_at(numbers: &[i128], place: usize) -> Result<i128> {
    match numbers.get(place) {
        Some(number) => Ok(*number),
        None => bail!("a number is missing"),
    }
}

/// The variable in this place.
fn variable_at(numbers: &[i128], place: usize) -> Result<u32> {
    Ok(u32::try_from(number_at(numbers, place)?)?)
}

/// Sets the bound that the numbers tell.
fn set_bound(system: &mut System, side: Side, numbers: &[i128]) -> Result<()> {
    expect(numbers, 2)?;
    system.set_bound(variable_at(numbers, 0)?, side, number_at(numbers, 1)?)
}

/// Does what a line says, and gives the line to print, if there is one.
pub fn obey(system: &mut System, alloc: Global, line: &str) -> Result<Option<String>> {
    let mut words = line.split_whitespace();
    let Some(command) = words.next() else {
        return Ok(None);
    };
    let numbers = numbers_of(alloc, words)?;
    match command {
        "system" => {
            expect(&numbers, 1)?;
            system.begin(alloc, variable_at(&numbers, 0)?)?;
            Ok(None)
        }
        "row" => system.add_row(alloc, &numbers),
        "lower" => {
            set_bound(system, Side::Lower, &numbers)?;
            Ok(None)
        }
        "upper" => {
            set_bound(system, Side::Upper, &numbers)?;
            Ok(None)
        }
        "undo" => {
            expect(&numbers, 1)?;
            system.undo_to(usize::try_from(number_at(&numbers, 0)?)?);
            Ok(None)
        }
        "check" => {
            expect(&numbers, 1)?;
            let room = u64::try_from(number_at(&numbers, 0)?)?;
            Ok(Some(system.check(alloc, room)?))
        }
        "trace" => {
            expect(&numbers, 1)?;
            let room = u64::try_from(number_at(&numbers, 0)?)?;
            Ok(Some(system.trace(alloc, room)?))
        }
        _ => bail!("no such command"),
    }
}
