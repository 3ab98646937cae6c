//! Values of options, and information (SMT-LIB 2.6, sections 4.1.7 and 4.1.8).
ghost use Rattle.std.specs.Prelude.{◌≡◌, ◌++◌, OnOk};
ghost use Rattle.smt_meaning.specs.Text.{option_text, info_text, reason_text};
ghost use Rattle.smt_meaning.specs.Command.{option_word as word_of_option};

use crate::name::literal;
use crate::number::{integer, natural};
use crate::values::truth;
use smt_meaning::Bytes;
use smt_meaning::language::{Info, OptionName, OptionValue, UnknownReason};
use std::alloc::AllocError;

/// Appends the value of an option.
pub fn option_value(value: &OptionValue, out: &mut Bytes) -> Result<(), AllocError>
    ensures { OnOk result (out.new ≡ out.old ++ option_text value.now) }
{
    match value {
        OptionValue::Truth(holds) => truth(*holds, out),
        OptionValue::Number(number) => integer(*number, out),
        OptionValue::Text(text) => literal(text.as_slice(), out),
    }
}

/// Appends a piece of information.
pub fn information(info: Info, out: &mut Bytes) -> Result<(), AllocError>
    ensures { OnOk result (out.new ≡ out.old ++ info_text info) }
{
    match info {
        Info::Name => out.append(b"(:name \"smt_cli\")"),
        Info::Version => out.append(b"(:version \"1.0\")"),
        Info::Authors => out.append(b"(:authors \"the smt_cli team\")"),
        Info::ErrorBehavior => out.append(b"(:error-behavior continued-execution)"),
        Info::AssertionStackLevels(levels) => {
            out.append(b"(:assertion-stack-levels ")?;
            natural(u128::from(levels), out)?;
            out.push(b')')
        }
        Info::ReasonUnknown(reason) => {
            out.append(b"(:reason-unknown ")?;
            out.append(reason_word(reason))?;
            out.push(b')')
        }
    }
}

fn reason_word(reason: UnknownReason) -> &'static [u8]
    ensures { result.now ≡ reason_text reason }
{
    match reason {
        UnknownReason::Memout => b"memout",
        UnknownReason::Incomplete => b"incomplete",
    }
}

/// The keyword of an option, without its colon.
pub fn option_word(option: OptionName) -> &'static [u8]
    ensures { result.now ≡ word_of_option option }
{
    match option {
        OptionName::PrintSuccess => b"print-success",
        OptionName::RegularOutputChannel => b"regular-output-channel",
        OptionName::DiagnosticOutputChannel => b"diagnostic-output-channel",
        OptionName::Verbosity => b"verbosity",
        OptionName::ReproducibleResourceLimit => b"reproducible-resource-limit",
        OptionName::RandomSeed => b"random-seed",
        OptionName::ProduceModels => b"produce-models",
        OptionName::ProduceAssertions => b"produce-assertions",
        OptionName::InteractiveMode => b"interactive-mode",
        OptionName::ProduceAssignments => b"produce-assignments",
        OptionName::GlobalDeclarations => b"global-declarations",
        OptionName::ProduceUnsatCores => b"produce-unsat-cores",
        OptionName::ProduceUnsatAssumptions => b"produce-unsat-assumptions",
    }
}
