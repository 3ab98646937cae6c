//! Nodes, with their numbers.
use crate::edge::NONE;
use std::alloc::AllocError;

/// A node: its number, its newest edges, and how far a repair has come with it.
#[derive(Clone, Copy, Drop)]
pub(crate) struct Node {
    pub(crate) number: i64,
    /// The newest edge from it.
    pub(crate) out: u32,
    /// The newest edge to it.
    pub(crate) into: u32,
    /// The newest candidate to it.
    pub(crate) candidate: u32,
    /// The round that the rest is of.
    pub(crate) round: u32,
    pub(crate) is_done: bool,
    /// By how much its number is to fall, and the edge that asks for it.
    pub(crate) fall: i64,
    pub(crate) via: u32,
}

/// A node with no edges.
const ALONE: Node = Node {
    number: 0,
    out: NONE,
    into: NONE,
    candidate: NONE,
    round: 0,
    is_done: false,
    fall: 0,
    via: NONE,
};

/// The node at a place. There is none past the end.
pub(crate) fn node_at(nodes: &[Node], place: u32) -> Node {
    let place = place as usize;
    if place < nodes.len() {
        nodes[place]
    } else {
        ALONE
    }
}

pub(crate) fn put_node(nodes: &mut [Node], place: u32, node: Node) {
    let place = place as usize;
    if place < nodes.len() {
        nodes[place] = node;
    }
}

/// Sets the number of a node.
pub(crate) fn put_number(nodes: &mut [Node], place: u32, number: i64) {
    let place = place as usize;
    if place < nodes.len() {
        nodes[place].number = number;
    }
}

/// Makes a node known.
pub(crate) fn grow(nodes: &mut Vec<Node>, place: u32) -> Result<(), AllocError> {
    let place = place as usize;
    if place < nodes.len() {
        return Ok(());
    }
    nodes.resize(place + 1, ALONE)?;
    Ok(())
}
