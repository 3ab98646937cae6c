//! What the words of a command line ask for, exactly as `clap` means them. No words of
//! help or of a version are known, nothing is printed, and the text of an error isn't made use of.
//!
//! `Invocation::from_words`: exactly what `clap` reads of the words as words of the program's
//! command, with its ranges and defaults, and the numbers of `gen`; refused only where `clap`
//! refuses them.
//!
//! `words_of`: from what the system gives of the command line, all words, in order; refused exactly
//! where the system says that a word isn't UTF-8.
#![tactic(auto)]

ghost use Rattle.std.specs.Prelude.{◌≡◌, ◌≤◌, ◌<◌, ◌^◌, ◌≤ℤ◌, ◌<ℤ◌, true, pos, map};
ghost use Rattle.std.specs.Prelude.{string_bytes, IfOk, IfSome, OnOk, IfErr};
ghost use Rattle.smt_words.specs.Words.{are_taken, generated_of, settings_of};
ghost use Rattle.smt_words.specs.Causes.{IsCause};

mod command;
mod error;
mod given;

use command::command;
pub use error::WordsError;
pub use given::words_of;
use smt_meaning::Settings;
use std::alloc::Global;

/// A script that is made from a seed, of so many constants.
#[derive(Clone, Copy, Drop)]
pub struct Generated {
    pub seed: u64,
    pub size: u32,
}

/// What words ask for: a run with settings, of the script that comes in or of one that is made.
#[derive(Clone, Copy, Drop)]
pub struct Invocation {
    pub settings: Settings,
    pub generated: Option<Generated>,
}

impl Invocation {
    /// What these words ask for, of which the first is the program's name:
    ///
    /// ```text
    /// smt_cli [--workers N] [--units U] [--share L] [--seed K] [gen --seed K --size N]
    /// ```
    ///
    /// The workers are 1 to 16 (4 if they aren't given), the units and seeds 0 to 2^64 - 1 (0), the
    /// share 0 to 64 (8), and the size 1 to 2000; `gen` needs both its numbers.
    /// `Refused` comes only where `clap` takes no such words: an unknown option or a stray word, an
    /// option without its value or used twice, one of `gen` that is missing, a value that is no number
    /// or not in its range.
    pub fn from_words(alloc: Global, words: &Vec<String>) -> Result<Self, WordsError>
        ensures taken { OnOk result (are_taken (map string_bytes words.now.items) ≡ true) }
        ensures settings { IfOk result (λ i. i.settings ≡ settings_of (map string_bytes words.now.items)) }
        ensures generated { IfOk result (λ i. i.generated ≡ generated_of (map string_bytes words.now.items)) }
        ensures workers { IfOk result (λ i. (1 ≤ i.settings.workers) × (i.settings.workers ≤ 16)) }
        ensures units { IfOk result (λ i. (pos 0 ≤ℤ i.settings.units) × (i.settings.units <ℤ pos (2 ^ 64))) }
        ensures share { IfOk result (λ i. i.settings.share ≤ 64) }
        ensures size { IfOk result (λ i. IfSome i.generated (λ g. (1 ≤ g.size) × (g.size ≤ 2000))) }
        ensures cause { IfErr result (IsCause (map string_bytes words.now.items)) }
    {
        let command = command(alloc)?;
        let matches = command.try_get_matches_from(words.as_slice())?;
        let settings = Settings {
            workers: matches.get_one::<u8>("workers").unwrap(),
            units: i128::from(matches.get_one::<u64>("units").unwrap()),
            share: matches.get_one::<u8>("share").unwrap(),
            seed: matches.get_one::<u64>("seed").unwrap(),
        };
        let generated = match matches.subcommand() {
            Some((_, given)) => Some(Generated {
                seed: given.get_one::<u64>("seed").unwrap(),
                size: given.get_one::<u32>("size").unwrap(),
            }),
            None => None,
        };
        Ok(Invocation {
            settings,
            generated,
        })
    }
}
