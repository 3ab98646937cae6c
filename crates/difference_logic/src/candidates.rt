//! Edges that may follow from those of the graph.
use crate::edge::{Edge, edge_at, short, word};
use crate::nodes::{Node, node_at, put_node};
use std::alloc::{AllocError, Global};

/// How many candidates of a node are looked at.
const LOOKS: u32 = 64;

/// Edges that may follow, by the node that they lead to.
#[derive(Drop)]
pub(crate) struct Candidates {
    edges: Vec<Edge>,
    /// By candidate, the one before it to the same node.
    earlier: Vec<u32>,
    /// By half the tag, whether one of its pair is told.
    told: Vec<bool>,
    /// How many pairs are told.
    count: usize,
}

/// Sets whether one of a pair of tags is told.
fn mark(told: &mut [bool], tag: u32, is_told: bool) {
    let pair = (tag / 2) as usize;
    if pair < told.len() {
        told[pair] = is_told;
    }
}

fn is_marked(told: &[bool], tag: u32) -> bool {
    let pair = (tag / 2) as usize;
    pair < told.len() && told[pair]
}

impl Candidates {
    /// It takes no memory.
    pub(crate) fn new(alloc: Global) -> Self {
        Candidates {
            edges: Vec::new(alloc),
            earlier: Vec::new(alloc),
            told: Vec::new(alloc),
            count: 0,
        }
    }

    /// Adds an edge to nodes that are known.
    pub(crate) fn add(&mut self, nodes: &mut [Node], edge: Edge) -> Result<(), AllocError> {
        let pairs = (edge.tag / 2) as usize + 1;
        if self.told.len() < pairs {
            self.told.resize(pairs, false)?;
        }
        let node = node_at(nodes, edge.to);
        let place = short(self.edges.len());
        self.earlier.push(node.candidate)?;
        self.edges.push(edge)?;
        let listed = Node {
            candidate: place,
            ..node
        };
        put_node(nodes, edge.to, listed);
        Ok(())
    }

    pub(crate) fn tell(&mut self, tag: u32) {
        if !is_marked(&self.told, tag) {
            self.count = self.count.saturating_add(1);
        }
        mark(&mut self.told, tag, true);
    }

    pub(crate) fn forget(&mut self, tag: u32) {
        if is_marked(&self.told, tag) {
            self.count = self.count.saturating_sub(1);
        }
        mark(&mut self.told, tag, false);
    }

    /// Whether as many pairs are told as there are.
    pub(crate) fn are_told(&self) -> bool {
        self.count >= self.edges.len() / 2
    }

    /// Adds the open ones that lead to a node.
    pub(crate) fn open_to(&self, node: Node, found: &mut Vec<Edge>) -> Result<(), AllocError> {
        let mut place = node.candidate;
        for _ in 0..LOOKS {
            let Some(edge) = edge_at(&self.edges, place) else {
                return Ok(());
            };
            if !is_marked(&self.told, edge.tag) {
                found.push(edge)?;
            }
            place = word(&self.earlier, place);
        }
        Ok(())
    }
}
