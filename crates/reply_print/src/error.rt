//! Errors (SMT-LIB 2.6, section 4.1.1).
ghost use Rattle.std.specs.Prelude.{◌≡◌, ◌++◌, OnOk};
ghost use Rattle.smt_meaning.specs.Text.{error_text, fault_text, refusal_text, symbol_text};
ghost use Rattle.smt_meaning.specs.Seen.{seen};

use crate::information::option_word;
use crate::name::{keyword, symbol};
use crate::number::natural;
use crate::s_expression::token;
use smt_meaning::language::Error;
use smt_meaning::{Bytes, FaultKind, Refusal, Token};
use std::alloc::AllocError;

/// Appends the message of an error.
pub fn message(error: &Error, out: &mut Bytes) -> Result<(), AllocError>
    ensures { OnOk result (out.new ≡ out.old ++ error_text error.now) }
{
    match error {
        Error::Fault(kind, at) => {
            out.append(fault_name(*kind))?;
            natural(u128::from(*at), out)
        }
        Error::NotCommand => out.append(b"E6 not a command"),
        Error::UnknownCommand(name) => {
            out.append(b"E7 unknown command: ")?;
            symbol(name.as_slice(), out)
        }
        Error::NoUnknownAnswer => out.append(b"E9 no unknown answer"),
        Error::LogicAlreadySet => out.append(b"E10 logic already set"),
        Error::OptionTooLate(option) => {
            out.append(b"E11 option too late: ")?;
            keyword(option_word(*option), out)
        }
        Error::NoModel => out.append(b"E20 no model"),
        Error::OptionIsOff(option) => {
            out.append(b"E21 option is off: ")?;
            keyword(option_word(*option), out)
        }
        Error::ValueTooLarge => out.append(b"E22 value past 128 bits"),
        Error::NotUnsat => out.append(b"E23 not in unsat mode"),
        Error::Refused(command, why) => refusal(command.as_slice(), why, out),
    }
}

fn fault_name(kind: FaultKind) -> &'static [u8]
    ensures { result.now ≡ fault_text kind }
{
    match kind {
        FaultKind::Character => b"E1 character at byte ",
        FaultKind::Closing => b"E2 closing parenthesis at byte ",
        FaultKind::Unfinished => b"E3 end inside a command at byte ",
        FaultKind::Nesting => b"E4 nesting past 10000 at byte ",
    }
}

/// Appends the message of a refusal of the command of this name.
fn refusal(command: &[u8], why: &Refusal, out: &mut Bytes) -> Result<(), AllocError>
    ensures { OnOk result (out.new ≡ out.old ++ refusal_text command.now why.now) }
{
    match why {
        Refusal::NumeralTooLarge => out.append(b"E5 numeral past 128 bits"),
        Refusal::WrongArguments => {
            out.append(b"E8 wrong arguments: ")?;
            out.append(command)
        }
        Refusal::AlreadyDeclared(name) => { with_name(b"E12 name already declared: ", name, out) }
        Refusal::UnknownSymbol(unknown) => {
            out.append(b"E13 unknown symbol: ")?;
            token(unknown.view(), out)
        }
        Refusal::ArgumentCount(name) => { with_name(b"E14 number of arguments: ", name, out) }
        Refusal::SortsDiffer(name) => with_name(b"E15 sorts differ: ", name, out),
        Refusal::NotLinear => out.append(b"E16 not linear"),
        Refusal::NotBool => out.append(b"E17 not Bool"),
        Refusal::PopPastLevelZero => out.append(b"E18 pop past level 0"),
        Refusal::TooManyLevels => out.append(b"E19 too many levels"),
        Refusal::ReservedName(name) => with_name(b"E24 reserved name: ", name, out),
        Refusal::TooManyTerms => out.append(b"E25 too many terms"),
        Refusal::TooManySymbols => out.append(b"E25 too many symbols"),
    }
}

/// Appends a message and the symbol that it speaks of.
fn with_name(message: &[u8], name: &Bytes, out: &mut Bytes) -> Result<(), AllocError>
    ensures { OnOk result (out.new ≡ out.old ++ (message.now ++ symbol_text name.now)) }
{
    out.append(message)?;
    symbol(name.as_slice(), out)
}
