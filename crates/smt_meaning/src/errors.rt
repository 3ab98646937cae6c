//! Errors, with all that their texts print (SMT-LIB 2.6, section 4.1.1).
//!
//! An error found in a command's arguments carries the command's name, which only E8 prints. E11
//! and E21 carry the option and not its spelling.
use crate::options::OptionName;
use crate::refusals::Refusal;
use crate::seq::Bytes;
use crate::tokens::FaultKind;

/// An error (SMT-LIB 2.6, section 4.1.1), with all that its text prints.
#[derive(Drop)]
pub enum Error {
    /// E1 to E4: the input can't be read on from this byte, counted from 0.
    Fault(FaultKind, u64),
    /// E6: no list that begins with a symbol.
    NotCommand,
    /// E7: no command has this name.
    UnknownCommand(Bytes),
    /// E9: the last answer to a check wasn't `unknown`.
    NoUnknownAnswer,
    /// E10: a logic is set already.
    LogicAlreadySet,
    /// E11: this option is set at the start alone.
    OptionTooLate(OptionName),
    /// E20: no model is kept.
    NoModel,
    /// E21: this option would have to be on.
    OptionIsOff(OptionName),
    /// E22: a value past 128 bits.
    ValueTooLarge,
    /// E23: the last answer to a check wasn't `unsat`.
    NotUnsat,
    /// E5, E8, E12 to E19, E24, E25: in the command of this name.
    Refused(Bytes, Refusal),
}
