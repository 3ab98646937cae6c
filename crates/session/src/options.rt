//! Options (SMT-LIB 2.6, section 4.1.7).
ghost use Rattle.std.specs.Prelude.{◌≡◌, IfOk};
ghost use Rattle.smt_meaning.specs.State.{options_at_start as first_options, set as set_option, start_option as option_of_start, option_value as value_of, channel_name};

use smt_meaning::language::{Channel, OptionName, OptionSetting, OptionValue, Options};
use smt_meaning::{Bytes, Settings};
use std::alloc::{AllocError, Global};

/// The options' values at the start.
pub fn options_at_start(settings: &Settings) -> Options
    ensures { result ≡ first_options settings.now }
{
    Options {
        print_success: true,
        diagnostic_output_channel: Channel::Stderr,
        verbosity: 0,
        reproducible_resource_limit: settings.units,
        random_seed: i128::from(settings.seed),
        produce_models: false,
        produce_assertions: false,
        produce_assignments: false,
        produce_unsat_cores: false,
        produce_unsat_assumptions: false,
    }
}

/// The options' values once one is set. Whether declarations are global is the stack's.
pub fn with_setting(options: Options, setting: OptionSetting) -> Options
    ensures { result ≡ set_option setting options }
{
    let mut options = options;
    match setting {
        OptionSetting::PrintSuccess(on) => options.print_success = on,
        OptionSetting::RegularOutputChannel => {}
        OptionSetting::DiagnosticOutputChannel(channel) => {
            options.diagnostic_output_channel = channel;
        }
        OptionSetting::Verbosity(level) => options.verbosity = level,
        OptionSetting::ReproducibleResourceLimit(units) => {
            options.reproducible_resource_limit = units;
        }
        OptionSetting::RandomSeed(seed) => options.random_seed = seed,
        OptionSetting::ProduceModels(on) => options.produce_models = on,
        OptionSetting::ProduceAssertions(on) | OptionSetting::InteractiveMode(on) => {
            options.produce_assertions = on;
        }
        OptionSetting::ProduceAssignments(on) => options.produce_assignments = on,
        OptionSetting::GlobalDeclarations(_) => {}
        OptionSetting::ProduceUnsatCores(on) => options.produce_unsat_cores = on,
        OptionSetting::ProduceUnsatAssumptions(on) => options.produce_unsat_assumptions = on,
    }
    options
}

/// The option, where it is set at the start alone.
pub fn start_option(setting: OptionSetting) -> Option<OptionName>
    ensures { result ≡ option_of_start setting }
{
    match setting {
        OptionSetting::RandomSeed(_) => Some(OptionName::RandomSeed),
        OptionSetting::ProduceModels(_) => Some(OptionName::ProduceModels),
        OptionSetting::ProduceAssertions(_) => Some(OptionName::ProduceAssertions),
        OptionSetting::InteractiveMode(_) => Some(OptionName::InteractiveMode),
        OptionSetting::ProduceAssignments(_) => Some(OptionName::ProduceAssignments),
        OptionSetting::GlobalDeclarations(_) => Some(OptionName::GlobalDeclarations),
        OptionSetting::ProduceUnsatCores(_) => Some(OptionName::ProduceUnsatCores),
        OptionSetting::ProduceUnsatAssumptions(_) => Some(OptionName::ProduceUnsatAssumptions),
        _ => None,
    }
}

/// The value of an option, where declarations are global or not.
pub fn option_value(
    alloc: Global,
    options: &Options,
    global: bool,
    option: OptionName,
) -> Result<OptionValue, AllocError>
    ensures { IfOk result (λ v. v ≡ value_of options.now global option) }
{
    Ok(match option {
        OptionName::PrintSuccess => OptionValue::Truth(options.print_success),
        OptionName::RegularOutputChannel => channel_value(alloc, Channel::Stdout)?,
        OptionName::DiagnosticOutputChannel => {
            channel_value(alloc, options.diagnostic_output_channel)?
        }
        OptionName::Verbosity => OptionValue::Number(options.verbosity),
        OptionName::ReproducibleResourceLimit => {
            OptionValue::Number(options.reproducible_resource_limit)
        }
        OptionName::RandomSeed => OptionValue::Number(options.random_seed),
        OptionName::ProduceModels => OptionValue::Truth(options.produce_models),
        OptionName::ProduceAssertions | OptionName::InteractiveMode => {
            OptionValue::Truth(options.produce_assertions)
        }
        OptionName::ProduceAssignments => OptionValue::Truth(options.produce_assignments),
        OptionName::GlobalDeclarations => OptionValue::Truth(global),
        OptionName::ProduceUnsatCores => OptionValue::Truth(options.produce_unsat_cores),
        OptionName::ProduceUnsatAssumptions => {
            OptionValue::Truth(options.produce_unsat_assumptions)
        }
    })
}

/// The name of a channel, as the value of an option.
fn channel_value(alloc: Global, channel: Channel) -> Result<OptionValue, AllocError>
    ensures { IfOk result (λ v. v ≡ OptionValue.Text (channel_name channel)) }
{
    let name: &[u8] = match channel {
        Channel::Stdout => b"stdout",
        Channel::Stderr => b"stderr",
    };
    Ok(OptionValue::Text(Bytes::copy(alloc, name)?))
}
