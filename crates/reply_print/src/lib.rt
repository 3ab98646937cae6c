//! The texts of replies: what the solver writes in answer to a command (SMT-LIB 2.6, section 4.1).
//!
//! `text`, `fixed`: what is appended is exactly the text of the reply, behind what was there; want
//! of memory changes nothing. A reply whose text is always the same has it without memory.
#![tactic(auto)]

mod error;
mod information;
mod list;
mod model;
mod name;
mod number;
mod reply;
mod s_expression;
mod values;

pub use reply::{fixed, text};
