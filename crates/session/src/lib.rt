//! A run's state, and what each command does to it (SMT-LIB 2.6, sections 4.1 and 4.2).
//!
//! `Session::new`, `step`: a command may be answered so in the state before, with this kept, and
//! leaves this state, by the definition of replies. It stops exactly on an accepted `exit`; want of
//! memory changes nothing.
//!
//! `Session::reply_to`: the same of an s-expression, which is a command or is answered by the error
//! for which it is none.
//!
//! `Session::into_last_check`: in the modes after a check, and in no other, the stack and the
//! assumptions of the last check.
#![tactic(auto)]

mod above;
mod asked;
mod assignment;
mod carry;
mod checks;
mod cores;
mod logic;
mod minimizing;
mod negated;
mod options;
mod printed;
mod replying;
mod state;

pub use state::{Done, LastCheck, Session};
