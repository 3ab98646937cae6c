//! The two ways to go by edges.
use crate::edge::{Edge, NONE};
use crate::nodes::{Node, node_at};

/// A way along the edges, or against them.
#[derive(Clone, Copy, PartialEq, Eq, Drop)]
pub(crate) enum Way {
    Along,
    Against,
}

impl Way {
    /// The node that an edge leads to, this way.
    pub(crate) fn end_of(self, edge: Edge) -> u32 {
        match self {
            Way::Along => edge.to,
            Way::Against => edge.from,
        }
    }

    /// The node that an edge comes from, this way.
    pub(crate) fn start_of(self, edge: Edge) -> u32 {
        match self {
            Way::Along => edge.from,
            Way::Against => edge.to,
        }
    }

    /// The newest edge that goes on from a node, this way.
    pub(crate) fn newest(self, node: Node) -> u32 {
        match self {
            Way::Along => node.out,
            Way::Against => node.into,
        }
    }

    /// The way in which a missed edge moves numbers. Every bound of a variable is an edge at node 0, so the variable moves and not that node; and a number that nothing holds moves alone.
    pub(crate) fn to_meet(nodes: &[Node], edge: Edge) -> Self {
        let is_free = node_at(nodes, edge.from).into == NONE && edge.from != 0;
        if edge.to == 0 || (is_free && node_at(nodes, edge.to).out != NONE) {
            Way::Against
        } else {
            Way::Along
        }
    }
}
