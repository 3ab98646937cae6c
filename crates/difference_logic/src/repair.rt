//! Numbers that meet one edge more, by falling as little as they must (S. Cotton and O. Maler, Fast and Flexible Difference Constraint Propagation for DPLL(T), 2006), or by rising, which is the same with edges and signs turned.
ghost use Rattle.std.specs.Prelude.{IfOk};
ghost use Rattle.difference_logic.specs.Edges.{AreTagsWith};

use crate::edge::{Edge, edge_at, short, tags_of, word};
use crate::nodes::{Node, node_at, put_node, put_number};
use crate::queue::{Queue, Waiting};
use crate::way::Way;
use std::alloc::{AllocError, Global};

/// How a repair ends.
#[derive(Clone, Copy, PartialEq, Eq, Drop)]
pub(crate) enum Ending {
    /// The numbers meet the edge too.
    Met,
    /// The edge closes a cycle whose weights sum to less than 0.
    Cycle,
    /// A number left the range.
    Beyond,
}

/// A number before a repair.
#[derive(Clone, Copy, Drop)]
pub(crate) struct Former {
    node: u32,
    number: i64,
}

/// The lists of a repair, for the next one.
#[derive(Drop)]
pub(crate) struct Repair {
    way: Way,
    queue: Queue,
    formers: Vec<Former>,
    round: u32,
}

/// By how much the number of an edge's end is to fall, or that of its start to rise.
fn fall_of(from: i64, to: i64, weight: i64) -> Option<i64> {
    to.checked_sub(from.checked_add(weight)?)
}

impl Repair {
    /// It takes no memory.
    pub(crate) fn new(alloc: Global) -> Self {
        Repair {
            way: Way::Along,
            queue: Queue::new(alloc),
            formers: Vec::new(alloc),
            round: 0,
        }
    }

    /// By how much an edge is missed, where the node that it comes from, this way, has this number.
    fn missed(&self, nodes: &[Node], edge: Edge, number: i64) -> Option<i64> {
        let end = node_at(nodes, self.way.end_of(edge)).number;
        match self.way {
            Way::Along => fall_of(number, end, edge.weight),
            Way::Against => fall_of(end, number, edge.weight),
        }
    }

    /// The number of a node that has moved as it was asked. None where it leaves the range.
    fn moved(&self, node: Node) -> Option<i64> {
        match self.way {
            Way::Along => node.number.checked_sub(node.fall),
            Way::Against => node.number.checked_add(node.fall),
        }
    }

    /// Asks for a fall, where it is more than what was asked for.
    fn ask(
        &mut self,
        nodes: &mut [Node],
        place: u32,
        fall: i64,
        via: u32,
    ) -> Result<(), AllocError> {
        let node = node_at(nodes, place);
        let is_known = node.round == self.round;
        if is_known && (node.is_done || node.fall >= fall) {
            return Ok(());
        }
        let asked = Node {
            round: self.round,
            is_done: false,
            fall,
            via,
            ..node
        };
        put_node(nodes, place, asked);
        self.queue.push(fall, place)
    }

    /// Moves the number of a node. None where it leaves the range.
    fn lower(&mut self, nodes: &mut [Node], place: u32) -> Result<Option<i64>, AllocError> {
        let node = node_at(nodes, place);
        let Some(number) = self.moved(node) else {
            return Ok(None);
        };
        self.formers.push(Former {
            node: place,
            number: node.number,
        })?;
        let lowered = Node {
            number,
            is_done: true,
            ..node
        };
        put_node(nodes, place, lowered);
        Ok(Some(number))
    }

    /// Asks for the fall that an edge wants, where the node that it comes from has this number. None where a number leaves the range; whether the fall comes round to the goal.
    fn follow(
        &mut self,
        nodes: &mut [Node],
        edge: Edge,
        place: u32,
        number: i64,
        goal: u32,
    ) -> Result<Option<bool>, AllocError> {
        let Some(fall) = self.missed(nodes, edge, number) else {
            return Ok(None);
        };
        if fall <= 0 {
            return Ok(Some(false));
        }
        let end = self.way.end_of(edge);
        self.ask(nodes, end, fall, place)?;
        Ok(Some(end == goal))
    }

    /// Asks for the falls that the edges from a node want.
    fn follow_all(
        &mut self,
        edges: &[Edge],
        earlier: &[u32],
        nodes: &mut [Node],
        start: u32,
        number: i64,
        goal: u32,
    ) -> Result<Option<bool>, AllocError> {
        let mut place = self.way.newest(node_at(nodes, start));
        for _ in 0..edges.len() {
            let Some(edge) = edge_at(edges, place) else {
                return Ok(Some(false));
            };
            match self.follow(nodes, edge, place, number, goal)? {
                Some(false) => {}
                other => return Ok(other),
            }
            place = word(earlier, place);
        }
        Ok(Some(false))
    }

    /// Moves a node's number, if it is still to, and goes on from there.
    fn settle(
        &mut self,
        edges: &[Edge],
        earlier: &[u32],
        nodes: &mut [Node],
        one: Waiting,
        goal: u32,
    ) -> Result<Option<bool>, AllocError> {
        let node = node_at(nodes, one.node);
        if node.is_done || node.fall != one.key {
            return Ok(Some(false));
        }
        match self.lower(nodes, one.node)? {
            None => Ok(None),
            Some(number) => self.follow_all(edges, earlier, nodes, one.node, number, goal),
        }
    }

    /// Moves numbers until none has to.
    fn run(
        &mut self,
        edges: &[Edge],
        earlier: &[u32],
        nodes: &mut [Node],
        goal: u32,
    ) -> Result<Ending, AllocError> {
        for _ in 0..u64::MAX {
            let Some(one) = self.queue.pop() else {
                return Ok(Ending::Met);
            };
            match self.settle(edges, earlier, nodes, one, goal)? {
                None => return Ok(Ending::Beyond),
                Some(true) => return Ok(Ending::Cycle),
                Some(false) => {}
            }
        }
        Ok(Ending::Beyond)
    }

    /// Gives the numbers back that have moved.
    fn restore(&mut self, nodes: &mut [Node]) {
        for former in &self.formers {
            put_number(nodes, former.node, former.number);
        }
    }

    /// Finds numbers that meet an edge more, which isn't among the edges yet. Unless it is met the numbers stay.
    pub(crate) fn meet(
        &mut self,
        edges: &[Edge],
        earlier_out: &[u32],
        earlier_into: &[u32],
        nodes: &mut [Node],
        edge: Edge,
    ) -> Result<Ending, AllocError> {
        let from = node_at(nodes, edge.from).number;
        let to = node_at(nodes, edge.to).number;
        let Some(fall) = fall_of(from, to, edge.weight) else {
            return Ok(Ending::Beyond);
        };
        if fall <= 0 {
            return Ok(Ending::Met);
        }
        self.queue.clear();
        self.formers.clear();
        self.round = self.round.wrapping_add(1);
        self.way = Way::to_meet(nodes, edge);
        self.ask(nodes, self.way.end_of(edge), fall, short(edges.len()))?;
        if edge.from == edge.to {
            return Ok(Ending::Cycle);
        }
        let earlier = match self.way {
            Way::Along => earlier_out,
            Way::Against => earlier_into,
        };
        let ending = self.run(edges, earlier, nodes, self.way.start_of(edge));
        match ending {
            Ok(Ending::Met) => {}
            _ => self.restore(nodes),
        }
        ending
    }
}

/// The edges by which a repair came from one end of an edge to the other, in order.
fn way_round(
    alloc: Global,
    edges: &[Edge],
    nodes: &[Node],
    edge: Edge,
) -> Result<Vec<u32>, AllocError> {
    let mut places = Vec::new(alloc);
    let way = Way::to_meet(nodes, edge);
    let goal = way.end_of(edge);
    let mut node = way.start_of(edge);
    for _ in 0..nodes.len() {
        if node == goal {
            break;
        }
        let place = node_at(nodes, node).via;
        let Some(before) = edge_at(edges, place) else {
            break;
        };
        places.push(place)?;
        node = way.start_of(before);
    }
    if way == Way::Along {
        places.reverse();
    }
    Ok(places)
}

/// The tags of the edges by which a repair came from one end of an edge to the other, in order, and that of the edge.
pub(crate) fn cycle_tags(
    alloc: Global,
    edges: &[Edge],
    nodes: &[Node],
    edge: Edge,
) -> Result<Vec<u32>, AllocError>
    ensures { IfOk result (λ tags. AreTagsWith edges.now edge tags.items) }
{
    let places = way_round(alloc, edges, nodes, edge)?;
    let mut tags = tags_of(alloc, edges, &places)?;
    tags.push(edge.tag)?;
    Ok(tags)
}
