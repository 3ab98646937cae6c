//! The command as `clap` sees it.
//!
//! Why the words that `clap` knows by itself are off: the usage line names the words that are
//! taken, and the one subcommand. `clap`'s own words for help and a version are off, its subcommand
//! `help` too, so they are refused like any other.
//!
//! Why the definition of what the words mean stands beside the call that reads them: it speaks of
//! `clap`'s terms, and the base crate stands on nothing.
//!
//! The numbers of `gen` are read by `clap`'s own parsers, as the options are. That both are there
//! and in their ranges where `clap` takes the words is proved from its specification, which speaks
//! of the matches of a subcommand as of a walk over the words.
ghost use Rattle.std.specs.Prelude.{◌≡◌, false, IfOk};
ghost use Rattle.clap.specs.Words.{app_of, rule_of};
ghost use Rattle.smt_words.specs.Words.{generator, needed, option, program};

use clap::builder::ValueParser;
use clap::{Arg, ArgAction, Command, value_parser};
use std::alloc::{AllocError, Global};

/// The program's command, without words for help and version.
pub(crate) fn command<'a>(alloc: Global) -> Result<Command<'a>, AllocError>
    ensures { IfOk result (λ c. app_of c ≡ program) }
{
    let workers = option(alloc, "workers", "4", value_parser!(u8).range(1..=16));
    let units = option(alloc, "units", "0", value_parser!(u64));
    let share = option(alloc, "share", "8", value_parser!(u8).range(0..=64));
    let seed = option(alloc, "seed", "0", value_parser!(u64));
    let generator = generator(alloc)?;
    Command::new(alloc, "smt_cli")
        .disable_help_flag(true)
        .disable_version_flag(true)
        .disable_help_subcommand(true)
        .arg(workers)?
        .arg(units)?
        .arg(share)?
        .arg(seed)?
        .subcommand(generator)
}

/// The subcommand `gen`.
fn generator<'a>(alloc: Global) -> Result<Command<'a>, AllocError>
    ensures { IfOk result (λ c. app_of c ≡ generator) }
{
    let seed = needed(alloc, "seed", value_parser!(u64));
    let size = needed(alloc, "size", value_parser!(u32).range(1..=2000));
    Command::new(alloc, "gen").arg(seed)?.arg(size)
}

/// The option `--name`, with one value.
fn option<'a>(alloc: Global, name: &'a str, default: &'a str, parser: ValueParser<'a>) -> Arg<'a>
    ensures rule { rule_of result ≡ option name.entry.now default.entry.now parser.entry }
    ensures local { result.global ≡ false }
{
    Arg::new(alloc, name)
        .long(name)
        .action(ArgAction::Set)
        .value_parser(parser)
        .default_value(default)
}

/// The option `--name`, which has to be given, with one value.
fn needed<'a>(alloc: Global, name: &'a str, parser: ValueParser<'a>) -> Arg<'a>
    ensures rule { rule_of result ≡ needed name.entry.now parser.entry }
    ensures local { result.global ≡ false }
{
    Arg::new(alloc, name)
        .long(name)
        .action(ArgAction::Set)
        .value_parser(parser)
        .required(true)
}
