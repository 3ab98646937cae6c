//! The clauses of a connective: what a term that is a Bool says of its arguments, in the truths of
//! terms (Tseitin, 1968). Laws stand beside the code that puts them.
//!
//! `put_node`, `Clauses`, `node_clauses_hold`: exactly the clauses of a node are appended, over the
//! numbers of its own truth and its arguments'; each is true of the node, over these alone, and has
//! no atom twice.
//!
//! `node_clauses_are_true`, `node_clauses_are_over`, `node_clauses_are_apart` and the same of
//! `wide_clauses`: the clauses by operator are true whatever truth values the arguments have, over
//! these and the node's own, and no place stands twice in one.
//!
//! `node_clauses_force`, `more_force_as_much`: propagation over a node's clauses reaches all that
//! is true of the node; more clauses force as much.
#![tactic(auto)]

ghost use Rattle.clause_form.specs.NodeClausesLaws.{NodeClausesAreApart, NodeClausesAreOver, NodeClausesAreTrue, WideClausesAreApart, WideClausesAreOver, WideClausesAreTrue};

pub mod forced_clauses;
mod gates;
mod gather;
mod inputs;
mod laws;
mod list;
mod node;

pub use forced_clauses::{more_force_as_much, node_clauses_are_renamed, node_clauses_force};
pub use gates::Room;
pub use laws::{node_clauses_decide, node_clauses_hold};
pub use list::Clauses;
pub use node::put_node;

/// Each clause of a node is true whatever truth values its arguments have.
pub fn node_clauses_are_true()
    ensures { NodeClausesAreTrue }
{}

/// They are over the truth of the node and of its arguments.
pub fn node_clauses_are_over()
    ensures { NodeClausesAreOver }
{}

/// No place stands twice in one of them, where the node isn't one of its own arguments.
pub fn node_clauses_are_apart()
    ensures { NodeClausesAreApart }
{}

/// The clauses of `=` and `distinct` of more than two Bools, and of `xor` of three, are true of the node.
pub fn wide_clauses_are_true()
    ensures { WideClausesAreTrue }
{}

/// They are over the truth of the node and of its arguments.
pub fn wide_clauses_are_over()
    ensures { WideClausesAreOver }
{}

/// No place stands twice in one of them, where the node isn't one of its own arguments.
pub fn wide_clauses_are_apart()
    ensures { WideClausesAreApart }
{}
