//! Options and information as arguments (SMT-LIB 2.6, sections 4.1.7 and 4.1.8).
ghost use Rattle.std.specs.Prelude.{◌≡◌, Ok};
ghost use Rattle.std.specs.Option.{option_map};
ghost use Rattle.smt_meaning.specs.declared.commands.Command.TheVariants.{SetOption};
ghost use Rattle.smt_meaning.specs.Seen.{seen};
ghost use Rattle.smt_meaning.specs.Command.{set_option, get_option, set_info, get_info, setting, regular_channel, diagnostic_channel};
ghost use Rattle.smt_command.specs.Arguments.{left};
ghost use Rattle.smt_command.specs.Values.{only_value, value_sexp, truth_in, number_in};

use crate::arguments::{Arguments, Kind};
use crate::names::{info_name, option_name};
use crate::number::number;
use smt_meaning::language::{Channel, Command, OptionName, OptionSetting};
use smt_meaning::{Refusal, TokenView};

/// The command `set-option` with these arguments: a keyword and a value.
pub fn set_option(mut arguments: Arguments<'_>) -> Result<Command, Refusal>
    ensures { result ≡ set_option (left arguments.entry) }
{
    let Some(keyword) = arguments.word(Kind::Keyword) else {
        return Err(Refusal::WrongArguments);
    };
    let Some(value) = only_value(arguments) else {
        return Err(Refusal::WrongArguments);
    };
    match option_name(keyword) {
        Some(name) => setting(name, value),
        None => Ok(Command::LeftOut),
    }
}

/// The command `get-option` with these arguments: a keyword.
pub fn get_option(mut arguments: Arguments<'_>) -> Result<Command, Refusal>
    ensures { result ≡ get_option (left arguments.entry) }
{
    let Some(keyword) = arguments.word(Kind::Keyword) else {
        return Err(Refusal::WrongArguments);
    };
    if !arguments.is_end() {
        return Err(Refusal::WrongArguments);
    }
    match option_name(keyword) {
        Some(name) => Ok(Command::GetOption(name)),
        None => Ok(Command::LeftOut),
    }
}

/// The command `set-info` with these arguments: a keyword, and perhaps a value.
pub fn set_info(mut arguments: Arguments<'_>) -> Result<Command, Refusal>
    ensures { result ≡ set_info (left arguments.entry) }
{
    if arguments.word(Kind::Keyword).is_none() {
        return Err(Refusal::WrongArguments);
    }
    if !arguments.is_end() && only_value(arguments).is_none() {
        return Err(Refusal::WrongArguments);
    }
    Ok(Command::SetInfo)
}

/// The command `get-info` with these arguments: a keyword.
pub fn get_info(mut arguments: Arguments<'_>) -> Result<Command, Refusal>
    ensures { result ≡ get_info (left arguments.entry) }
{
    let Some(keyword) = arguments.word(Kind::Keyword) else {
        return Err(Refusal::WrongArguments);
    };
    if !arguments.is_end() {
        return Err(Refusal::WrongArguments);
    }
    match info_name(keyword) {
        Some(name) => Ok(Command::GetInfo(name)),
        None => Ok(Command::LeftOut),
    }
}

/// The one value that is left: its token, or `None` for a list. A keyword is no value.
fn only_value(mut arguments: Arguments<'_>) -> Option<Option<TokenView<'_>>>
    ensures { option_map (λ v. option_map seen v) result ≡ only_value (left arguments.entry) }
{
    let value = arguments.peek();
    if arguments.is_end() || matches!(value, Some(TokenView::Keyword(_))) {
        return None;
    }
    arguments.skip();
    arguments.is_end().then_some(value)
}

/// An option with its value: a token, or `None` for a list.
#[tactic(auto, using(crate::proofs::OptionForms::numerals))]
fn setting(name: OptionName, value: Option<TokenView<'_>>) -> Result<Command, Refusal>
    ensures { result ≡ setting name (value_sexp (option_map seen value.entry)) }
{
    match name {
        OptionName::PrintSuccess => set(OptionSetting::PrintSuccess(truth(value)?)),
        OptionName::RegularOutputChannel => regular_channel(value),
        OptionName::DiagnosticOutputChannel => diagnostic_channel(value),
        OptionName::Verbosity => set(OptionSetting::Verbosity(numeral(value)?)),
        OptionName::ReproducibleResourceLimit => {
            set(OptionSetting::ReproducibleResourceLimit(numeral(value)?))
        }
        OptionName::RandomSeed => set(OptionSetting::RandomSeed(numeral(value)?)),
        OptionName::ProduceModels => set(OptionSetting::ProduceModels(truth(value)?)),
        OptionName::ProduceAssertions => set(OptionSetting::ProduceAssertions(truth(value)?)),
        OptionName::InteractiveMode => set(OptionSetting::InteractiveMode(truth(value)?)),
        OptionName::ProduceAssignments => set(OptionSetting::ProduceAssignments(truth(value)?)),
        OptionName::GlobalDeclarations => set(OptionSetting::GlobalDeclarations(truth(value)?)),
        OptionName::ProduceUnsatCores => set(OptionSetting::ProduceUnsatCores(truth(value)?)),
        OptionName::ProduceUnsatAssumptions => {
            set(OptionSetting::ProduceUnsatAssumptions(truth(value)?))
        }
    }
}

fn set(setting: OptionSetting) -> Result<Command, Refusal>
    ensures { result ≡ Ok (SetOption setting) }
{
    Ok(Command::SetOption(setting))
}

/// The truth value that a symbol is.
fn truth(value: Option<TokenView<'_>>) -> Result<bool, Refusal>
    ensures { result ≡ truth_in (option_map seen value.entry) }
{
    let Some(TokenView::Symbol(name)) = value else {
        return Err(Refusal::WrongArguments);
    };
    if name == b"true".as_slice() {
        Ok(true)
    } else if name == b"false".as_slice() {
        Ok(false)
    } else {
        Err(Refusal::WrongArguments)
    }
}

/// The number that a numeral writes.
fn numeral(value: Option<TokenView<'_>>) -> Result<i128, Refusal>
    ensures { result ≡ number_in (option_map seen value.entry) }
{
    match value {
        Some(TokenView::Numeral(digits)) => number(digits),
        _ => Err(Refusal::WrongArguments),
    }
}

/// The regular output channel. Only `"stdout"` is there.
fn regular_channel(value: Option<TokenView<'_>>) -> Result<Command, Refusal>
    ensures { result ≡ regular_channel (value_sexp (option_map seen value.entry)) }
{
    let Some(TokenView::Text(channel)) = value else {
        return Err(Refusal::WrongArguments);
    };
    if channel == b"stdout".as_slice() {
        Ok(Command::SetOption(OptionSetting::RegularOutputChannel))
    } else {
        Ok(Command::LeftOut)
    }
}

/// The diagnostic output channel, `"stdout"` or `"stderr"`.
fn diagnostic_channel(value: Option<TokenView<'_>>) -> Result<Command, Refusal>
    ensures { result ≡ diagnostic_channel (value_sexp (option_map seen value.entry)) }
{
    let Some(TokenView::Text(name)) = value else {
        return Err(Refusal::WrongArguments);
    };
    let channel = if name == b"stdout".as_slice() {
        Channel::Stdout
    } else if name == b"stderr".as_slice() {
        Channel::Stderr
    } else {
        return Ok(Command::LeftOut);
    };
    Ok(Command::SetOption(OptionSetting::DiagnosticOutputChannel(channel)))
}
