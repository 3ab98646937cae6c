//! The nodes of a proof's terms, as they are written.
ghost use Rattle.std.specs.Prelude.{◌≡◌, ◌<◌, ◌++◌, ◌∷◌, [], length, OnOk, OnErr};

use smt_meaning::{Head, TermId};
use std::alloc::{AllocError, Global};
use std::marker::Model;
use term_store::{Node as NodeView, Rows};

/// A list of nodes.
#[derive(Drop)]
pub(crate) struct WrittenNodes {
    rows: Rows<Head>,
}

impl Model for WrittenNodes {
    ghost use Rattle.std.specs.Prelude.{List};
    ghost use Rattle.smt_meaning.specs.declared.nodes.Node.{Node};
    ghost use Rattle.proof_terms.specs.TermNodes.{written};

    ghost Value = { List Node };

    ghost view = { λ a. written a.rows };
}

impl WrittenNodes {
    ghost use Rattle.std.specs.Prelude.{◌≡◌, ◌<◌, ◌++◌, ◌∷◌, [], length, OnOk, OnErr};
    ghost use Rattle.proof_meaning.specs.Proof.{node_at};

    /// No node. It takes no memory.
    pub(crate) fn new(alloc: Global) -> Self
        ensures { result ≡ [] }
    {
        WrittenNodes {
            rows: Rows::new(alloc),
        }
    }

    pub(crate) fn len(&self) -> usize
        ensures { result ≡ length self.now }
    {
        self.rows.len()
    }

    /// Adds a node at the end. An `Err`, for want of memory, changes nothing.
    pub(crate) fn push(&mut self, head: Head, arguments: &[TermId]) -> Result<(), AllocError>
        ensures ok { OnOk result (self.new ≡ self.old ++ record { head = head; arguments = arguments.now } ∷ []) }
        ensures err { OnErr result (self.new ≡ self.old) }
    {
        self.rows.push(head, arguments)?;
        Ok(())
    }

    /// The node at a place.
    pub(crate) fn node(&self, place: usize) -> NodeView<'_>
        requires { place < length self.now }
        ensures { node_at self.now place ≡ record { head = result.head; arguments = result.arguments.now } }
    {
        NodeView {
            head: self.rows.head(place),
            arguments: self.rows.numbers(place),
        }
    }
}
