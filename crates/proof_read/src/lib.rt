//! Terms and steps of a proof from its tokens.
//!
//! `two_lists` says whether an s-expression is two lists, as a proof is. `read_node` and `read_step` read the term or the step
//! that stands at a place, exactly as the definitions say, by the symbols of a stack: a step that writes a number past the
//! range is told as such, and one that names a term or a step of a number past any as none.
#![tactic(auto)]

mod read;
mod read_apart;
mod read_atoms;
mod read_names;
mod read_nodes;
mod read_numbers;
mod read_parts;
mod read_steps;
mod read_sums;
mod symbols;

pub use read::{ListPlaces, ReadStep, next_place, read_node, read_step, two_lists};
pub use symbols::Symbols;
