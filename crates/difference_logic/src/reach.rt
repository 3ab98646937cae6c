//! What is near an edge: the nodes that paths from its end lead to, and those whose paths lead to its start, by reduced weights.
use crate::edge::{Edge, NONE, edge_at, word};
use crate::nodes::{Node, node_at};
use crate::queue::{Queue, Waiting};
use crate::way::Way;
use std::alloc::{AllocError, Global};

/// How many nodes are reached.
const NODES: u32 = 32;

/// How many edges of a node are walked, the newest first. The bounds of all variables are edges at one node, which may have thousands.
const EDGES: u32 = 64;

/// How far a node is, and by which edge it is reached.
#[derive(Clone, Copy, Drop)]
pub(crate) struct Reached {
    round: u32,
    is_done: bool,
    length: i64,
    via: u32,
}

const UNREACHED: Reached = Reached {
    round: 0,
    is_done: false,
    length: 0,
    via: NONE,
};

/// The nodes near a node, one way.
#[derive(Drop)]
pub(crate) struct Reach {
    way: Way,
    round: u32,
    by_node: Vec<Reached>,
    /// The nodes reached, nearest first.
    pub(crate) order: Vec<u32>,
    queue: Queue,
    /// How many edges were walked in all rounds.
    pub(crate) walked: u64,
}

fn reached_at(by_node: &[Reached], node: u32) -> Reached {
    let node = node as usize;
    if node < by_node.len() {
        by_node[node]
    } else {
        UNREACHED
    }
}

fn put_reached(by_node: &mut [Reached], node: u32, reached: Reached) {
    let node = node as usize;
    if node < by_node.len() {
        by_node[node] = reached;
    }
}

/// The weight of an edge, less the difference that the nodes' numbers have: at least 0 where they meet it.
fn slack_of(nodes: &[Node], edge: Edge) -> Option<i64> {
    let start = node_at(nodes, edge.from).number;
    let end = node_at(nodes, edge.to).number;
    start.checked_add(edge.weight)?.checked_sub(end)
}

impl Reach {
    /// It takes no memory.
    pub(crate) fn new(alloc: Global, way: Way) -> Self {
        Reach {
            way,
            round: 0,
            by_node: Vec::new(alloc),
            order: Vec::new(alloc),
            queue: Queue::new(alloc),
            walked: 0,
        }
    }

    /// The reduced length to a node, where it is reached.
    pub(crate) fn length_to(&self, node: u32) -> Option<i64> {
        let reached = reached_at(&self.by_node, node);
        if reached.round == self.round && reached.is_done {
            Some(reached.length)
        } else {
            None
        }
    }

    /// The edge by which a node was reached.
    pub(crate) fn via(&self, node: u32) -> u32 {
        reached_at(&self.by_node, node).via
    }

    /// The node that an edge comes from, the way of the search.
    pub(crate) fn start_of(&self, edge: Edge) -> u32 {
        self.way.start_of(edge)
    }

    /// Takes a path to a node, where it is shorter than what is known.
    fn offer(&mut self, node: u32, length: i64, via: u32) -> Result<(), AllocError> {
        let reached = reached_at(&self.by_node, node);
        let is_known = reached.round == self.round;
        if is_known && (reached.is_done || reached.length <= length) {
            return Ok(());
        }
        let offered = Reached {
            round: self.round,
            is_done: false,
            length,
            via,
        };
        put_reached(&mut self.by_node, node, offered);
        self.queue.push(length.saturating_neg(), node)
    }

    /// Takes the path that an edge at a place lengthens.
    fn walk(
        &mut self,
        nodes: &[Node],
        edge: Edge,
        place: u32,
        length: i64,
    ) -> Result<(), AllocError> {
        self.walked = self.walked.saturating_add(1);
        let Some(slack) = slack_of(nodes, edge) else {
            return Ok(());
        };
        match length.checked_add(slack) {
            Some(longer) => self.offer(self.way.end_of(edge), longer, place),
            None => Ok(()),
        }
    }

    /// Goes on from a node at a length by its edges.
    fn go_on(
        &mut self,
        edges: &[Edge],
        earlier: &[u32],
        nodes: &[Node],
        start: u32,
        length: i64,
    ) -> Result<(), AllocError> {
        let mut place = self.way.newest(node_at(nodes, start));
        for _ in 0..EDGES {
            let Some(edge) = edge_at(edges, place) else {
                return Ok(());
            };
            self.walk(nodes, edge, place, length)?;
            place = word(earlier, place);
        }
        Ok(())
    }

    /// Takes the next node, if its path is the shortest.
    fn take(
        &mut self,
        edges: &[Edge],
        earlier: &[u32],
        nodes: &[Node],
        one: Waiting,
    ) -> Result<(), AllocError> {
        let reached = reached_at(&self.by_node, one.node);
        if reached.is_done {
            return Ok(());
        }
        let taken = Reached {
            is_done: true,
            ..reached
        };
        put_reached(&mut self.by_node, one.node, taken);
        self.order.push(one.node)?;
        self.go_on(edges, earlier, nodes, one.node, reached.length)
    }

    /// Reaches the nodes nearest to a node.
    pub(crate) fn run(
        &mut self,
        edges: &[Edge],
        earlier: &[u32],
        nodes: &[Node],
        start: u32,
    ) -> Result<(), AllocError> {
        if self.by_node.len() < nodes.len() {
            self.by_node.resize(nodes.len(), UNREACHED)?;
        }
        self.round = self.round.wrapping_add(1);
        self.order.clear();
        self.queue.clear();
        self.offer(start, 0, NONE)?;
        for _ in 0..NODES {
            let Some(one) = self.queue.pop() else {
                return Ok(());
            };
            self.take(edges, earlier, nodes, one)?;
        }
        Ok(())
    }
}
