//! Judges an s-expression as a command (SMT-LIB 2.6, section 4.2): which command it is, or why it
//! is none.
//!
//! `command`: what an s-expression is as a command, or its error, exactly. `name_of_whole`: the
//! name that `:named` gives to the whole of a term, exactly. `written_number`: the number
//! that digits write, or the error of one that is past 2^127 - 1.
#![tactic(auto)]

mod arguments;
mod forms;
mod judge;
mod lists;
mod names;
mod naming;
mod number;
mod settings;

pub use judge::command;
pub use naming::name_of_whole;
pub use number::number as written_number;
