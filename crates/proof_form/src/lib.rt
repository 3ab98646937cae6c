//! Proofs that assertions have no model, read and judged.
//!
//! `judge`: an s-expression in the place of a proof is judged against the assertions of a stack:
//! what is found of it is exactly what the definition of good proofs says, as long as no number on
//! the way leaves the range.
//!
//! `found_is_one`: the cases of what is found exclude one another.
#![tactic(auto)]

mod equalities;
mod farkas;
mod farkas_entries;
mod farkas_sums;
mod found;
mod laws;
mod resolution;
mod steps;
mod whole;

pub use found::Found;
pub use laws::found_is_one;
pub use whole::judge;
