//! The graph, and the calls on it.
use crate::candidates::Candidates;
use crate::edge::{Edge, edge_at, short, tags_of};
use crate::nodes::{Node, grow, node_at, put_node};
use crate::reach::Reach;
use crate::repair::{Ending, Repair, cycle_tags};
use crate::way::Way;
use std::alloc::{AllocError, Global};
use std::marker::Model;

/// How many candidates that follow from one edge are given.
const GIVEN: usize = 8;

/// How many steps that searches for paths may take are saved up at most.
const SAVED: u64 = 65_536;

/// How many edges may be walked for a candidate that is given.
const WORTH: u64 = 1024;

/// How many steps are allowed at once where searches for paths give less than that.
const FEW: u64 = 64;

/// How many candidates count as given from the start.
const TRUSTED: u64 = 64;

/// What becomes of an edge.
#[derive(Drop)]
pub enum Asserted {
    /// Numbers meet it with the edges before it.
    Taken,
    /// It isn't taken: with edges before it, it closes a cycle whose weights sum to less than 0. Their tags, each edge beginning where the one before it ends.
    Cycle(Vec<u32>),
    /// It isn't taken: a number left the range.
    Beyond,
}

/// A candidate that follows, and the tags of the edges of a path that shows it, in order.
#[derive(Drop)]
pub struct ImpliedEdge {
    pub tag: u32,
    pub reasons: Vec<u32>,
}

/// Edges, taken one after another, with numbers of the nodes that meet all of them.
#[derive(Drop)]
pub struct DifferenceGraph {
    edges: Vec<Edge>,
    /// By edge, the one before it from the same node.
    earlier_out: Vec<u32>,
    /// By edge, the one before it to the same node.
    earlier_into: Vec<u32>,
    nodes: Vec<Node>,
    repair: Repair,
    candidates: Candidates,
    along: Reach,
    against: Reach,
    open: Vec<Edge>,
    /// How many edges all searches for paths may walk.
    allowed: u64,
    /// How many candidates they gave, and those that count as given.
    given: u64,
}

impl Model for DifferenceGraph {
    ghost use Rattle.std.specs.Prelude.{List};
    ghost use Rattle.difference_logic.specs.declared.edge.Edge.{Edge};

    ghost Value = { List Edge };

    ghost view = { λ s. s.edges.items };
}

/// Hangs an edge, which gets this place, to its nodes.
fn hang(
    nodes: &mut [Node],
    earlier_out: &mut Vec<u32>,
    earlier_into: &mut Vec<u32>,
    edge: Edge,
    place: u32,
) -> Result<(), AllocError> {
    let start = node_at(nodes, edge.from);
    earlier_out.push(start.out)?;
    put_node(
        nodes,
        edge.from,
        Node {
            out: place,
            ..start
        },
    );
    let end = node_at(nodes, edge.to);
    earlier_into.push(end.into)?;
    put_node(nodes, edge.to, Node { into: place, ..end });
    Ok(())
}

impl DifferenceGraph {
    ghost use Rattle.std.specs.Prelude.{◌≡◌, ◌++◌, ◌∷◌, [], length, take, OnOk, OnErr, IfOk};
    ghost use Rattle.difference_logic.specs.Edges.{IsAsserted};

    /// No edge. It takes no memory.
    pub fn new(alloc: Global) -> Self
        ensures { result ≡ [] }
    {
        DifferenceGraph {
            edges: Vec::new(alloc),
            earlier_out: Vec::new(alloc),
            earlier_into: Vec::new(alloc),
            nodes: Vec::new(alloc),
            repair: Repair::new(alloc),
            candidates: Candidates::new(alloc),
            along: Reach::new(alloc, Way::Along),
            against: Reach::new(alloc, Way::Against),
            open: Vec::new(alloc),
            allowed: 0,
            given: TRUSTED,
        }
    }

    /// How many edges are taken.
    pub fn len(&self) -> usize
        ensures { result ≡ length self.now }
    {
        self.edges.len()
    }

    /// Makes the nodes of an edge known.
    fn know(&mut self, edge: Edge) -> Result<(), AllocError>
        ensures { self.new ≡ self.old }
    {
        grow(&mut self.nodes, edge.from)?;
        grow(&mut self.nodes, edge.to)
    }

    /// Lets an edge be looked for among what follows.
    pub fn add_candidate(&mut self, edge: Edge) -> Result<(), AllocError>
        ensures { self.new ≡ self.old }
    {
        self.know(edge)?;
        self.candidates.add(&mut self.nodes, edge)
    }

    /// Takes an edge that numbers meet, after those before it.
    fn take(&mut self, edge: Edge) -> Result<(), AllocError>
        ensures ok { OnOk result (self.new ≡ self.old ++ edge ∷ []) }
        ensures err { OnErr result (self.new ≡ self.old) }
    {
        let place = short(self.edges.len());
        self.edges.reserve(1)?;
        self.earlier_out.reserve(1)?;
        self.earlier_into.reserve(1)?;
        hang(
            &mut self.nodes,
            &mut self.earlier_out,
            &mut self.earlier_into,
            edge,
            place,
        )?;
        self.edges.push(edge)?;
        self.candidates.tell(edge.tag);
        Ok(())
    }

    /// Takes one edge more, where numbers meet it with those before it. An `Err`, for want of memory, takes nothing.
    pub fn assert(&mut self, alloc: Global, edge: Edge) -> Result<Asserted, AllocError>
        ensures ok { IfOk result (IsAsserted self.old edge self.new) }
        ensures err { OnErr result (self.new ≡ self.old) }
    {
        self.know(edge)?;
        match self.repair.meet(
            &self.edges,
            &self.earlier_out,
            &self.earlier_into,
            &mut self.nodes,
            edge,
        )? {
            Ending::Met => {
                self.take(edge)?;
                Ok(Asserted::Taken)
            }
            Ending::Cycle => Ok(Asserted::Cycle(cycle_tags(
                alloc,
                &self.edges,
                &self.nodes,
                edge,
            )?)),
            Ending::Beyond => Ok(Asserted::Beyond),
        }
    }

    /// The edge at a place, if there is one.
    fn edge(&self, place: usize) -> Option<Edge> {
        edge_at(&self.edges, short(place))
    }

    /// Takes the newest edge off its nodes.
    fn unhang(&mut self, edge: Option<Edge>)
        ensures { self.new ≡ self.old }
    {
        let Some(edge) = edge else {
            return;
        };
        if let Some(out) = self.earlier_out.pop() {
            let start = node_at(&self.nodes, edge.from);
            put_node(&mut self.nodes, edge.from, Node { out, ..start });
        }
        if let Some(into) = self.earlier_into.pop() {
            let end = node_at(&self.nodes, edge.to);
            put_node(&mut self.nodes, edge.to, Node { into, ..end });
        }
        self.candidates.forget(edge.tag);
    }

    /// Takes back all edges but the first ones, so many as the count says. Numbers stay.
    pub fn undo_to(&mut self, count: usize)
        ensures { self.new ≡ take count self.old }
    {
        for place in (count..self.edges.len()).rev() {
            let edge = self.edge(place);
            self.unhang(edge);
        }
        self.edges.truncate(count);
    }

    /// The number of a node above that of node 0. None where it leaves the range.
    pub fn number(&self, node: u32) -> Option<i64> {
        let zero = node_at(&self.nodes, 0).number;
        node_at(&self.nodes, node).number.checked_sub(zero)
    }

    /// How many nodes are known.
    pub fn nodes(&self) -> usize {
        self.nodes.len()
    }

    /// The weight of the path by an edge from one reached node to another.
    fn weight_by(&self, edge: Edge, candidate: Edge) -> Option<i64> {
        let before = self.against.length_to(candidate.from)?;
        let after = self.along.length_to(candidate.to)?;
        let slack = node_at(&self.nodes, edge.from)
            .number
            .checked_add(edge.weight)?
            .checked_sub(node_at(&self.nodes, edge.to).number)?;
        let reduced = before.checked_add(after)?.checked_add(slack)?;
        let start = node_at(&self.nodes, candidate.from).number;
        let end = node_at(&self.nodes, candidate.to).number;
        reduced.checked_add(end.checked_sub(start)?)
    }

    /// The edges by which a search reached a node, the last first.
    fn way_to(&self, alloc: Global, reach: &Reach, node: u32) -> Result<Vec<u32>, AllocError> {
        let mut places = Vec::new(alloc);
        let mut node = node;
        for _ in 0..self.edges.len() {
            let place = reach.via(node);
            let Some(edge) = edge_at(&self.edges, place) else {
                break;
            };
            places.push(place)?;
            node = reach.start_of(edge);
        }
        Ok(places)
    }

    /// The edges of the path by the edge at a place that shows a candidate, in order.
    fn path_of(
        &self,
        alloc: Global,
        place: usize,
        candidate: Edge,
    ) -> Result<Vec<u32>, AllocError> {
        let mut places = self.way_to(alloc, &self.against, candidate.from)?;
        places.push(short(place))?;
        let after = self.way_to(alloc, &self.along, candidate.to)?;
        for place in after.iter().rev() {
            places.push(*place)?;
        }
        Ok(places)
    }

    /// Their tags.
    fn reasons_of(
        &self,
        alloc: Global,
        place: usize,
        candidate: Edge,
    ) -> Result<Vec<u32>, AllocError> {
        let places = self.path_of(alloc, place, candidate)?;
        tags_of(alloc, &self.edges, &places)
    }

    /// Reaches what is near an edge, and lists the open candidates there.
    fn look_round(&mut self, edge: Edge) -> Result<(), AllocError>
        ensures { self.new ≡ self.old }
    {
        self.along
            .run(&self.edges, &self.earlier_out, &self.nodes, edge.to)?;
        self.open.clear();
        for node in &self.along.order {
            let node = node_at(&self.nodes, *node);
            self.candidates.open_to(node, &mut self.open)?;
        }
        if self.open.is_empty() {
            return Ok(());
        }
        self.against
            .run(&self.edges, &self.earlier_into, &self.nodes, edge.from)
    }

    /// Whether the path by an edge shows a candidate.
    fn shows(&self, edge: Edge, candidate: Edge) -> bool {
        match self.weight_by(edge, candidate) {
            Some(weight) => weight <= candidate.weight,
            None => false,
        }
    }

    /// Those of the listed candidates that the path by the edge at a place shows.
    fn shown(
        &self,
        alloc: Global,
        place: usize,
        edge: Edge,
    ) -> Result<Vec<ImpliedEdge>, AllocError> {
        let mut found = Vec::new(alloc);
        for candidate in &self.open {
            if found.len() >= GIVEN {
                break;
            }
            if self.shows(edge, *candidate) {
                let reasons = self.reasons_of(alloc, place, *candidate)?;
                found.push(ImpliedEdge {
                    tag: candidate.tag,
                    reasons,
                })?;
            }
        }
        Ok(found)
    }

    /// How many edges searches for paths have walked.
    fn walked(&self) -> u64 {
        self.along.walked.saturating_add(self.against.walked)
    }

    /// Whether searches for paths have given enough for the edges that they walked.
    fn pays(&self) -> bool {
        self.walked() <= self.given.saturating_mul(WORTH)
    }

    /// Lets searches for paths walk so many edges more, or a few where they have given little.
    pub fn allow(&mut self, steps: u64)
        ensures { self.new ≡ self.old }
    {
        let steps = if self.pays() { steps } else { steps.min(FEW) };
        let most = self.walked().saturating_add(SAVED);
        self.allowed = self.allowed.saturating_add(steps).min(most);
    }

    /// Whether a path is worth looking for: a candidate is open, and edges may be walked.
    pub fn looks(&self) -> bool {
        self.walked() < self.allowed && !self.candidates.are_told()
    }

    /// Open candidates that follow by short paths through the edge at a place. It promises nothing of those that it doesn't give.
    pub fn implied(&mut self, alloc: Global, place: usize) -> Result<Vec<ImpliedEdge>, AllocError>
        ensures { self.new ≡ self.old }
    {
        let Some(edge) = self.edge(place) else {
            return Ok(Vec::new(alloc));
        };
        self.look_round(edge)?;
        let found = self.shown(alloc, place, edge)?;
        self.given = self.given.saturating_add(found.len() as u64);
        Ok(found)
    }
}
