//! Checks of a stack, and what is searched for by one check after another (SMT-LIB 2.6, sections
//! 4.2.5 and 4.2.7).
//!
//! `checked`: a check's reply, what the journal keeps with it and the mode that it gives, all of one
//! verdict; in the mode unsat the levels have no model. The stack is as before.
//!
//! `check_under`: the same under a level that asserts terms, which is gone afterwards, or the terms'
//! refusal. They join the stack's terms, and in the mode unsat the level may stand there again;
//! where they are refused or memory is wanting, the stack is as before.
//!
//! `core`: of the assertions that may go, those that stay where each one that isn't needed is left
//! out. With them and those that may not go there is no model, and each of them has its reason: a
//! model of what is left without it, or what each worker shows that didn't find one. The stack is as
//! before, also where memory is wanting.
//!
//! `least`: the least value of an Int term in the models of a stack, with a model that has it; that
//! there is no model; or the best value that was found, with what each worker shows of the next
//! bound. The stack is as before, and the checks, as `least` counts them, are at most 300.
//!
//! `itself`, `asks_are_assumed`: the text `(= t t)`; what is asked of a goal is judged to be its
//! assertions, and their terms join the list.
#![tactic(auto)]

mod answer;
mod assuming;
mod descent;
mod minimum;
mod point;
mod question;
mod reduce;
mod text;

pub use answer::{Answer, checked, reason_of};
pub use assuming::{Assumed, check_under, copied};
pub use minimum::{Found, LeastValue, least};
pub use reduce::core;
pub use text::{Ask, asks_are_assumed, itself};
