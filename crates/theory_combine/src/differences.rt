//! Differences among what is told, as edges of a graph. It guides a search, and no contract speaks of what it has.
ghost use Rattle.std.specs.Prelude.{◌<◌, length, IfSome};

use atom_form::{AtomNumbers, NumberedAtom};
use difference_logic::{Asserted, DifferenceGraph, Edge, ImpliedEdge, difference_of};
use literals::Literal;
use std::alloc::{AllocError, Global};

/// How many edges a call may walk to find paths, where all bounds told are differences: the graph's numbers alone tell then whether they can be met.
const STEPS: u64 = 16;

/// How many, where sums are to be looked at too. That costs more, and a path may save it.
const STEPS_BESIDE_SUMS: u64 = 1024;

/// What was taken before a literal.
#[derive(Clone, Copy, Drop)]
struct Mark {
    edges: usize,
    others: usize,
}

/// The differences told.
#[derive(Drop)]
pub(crate) struct Differences {
    graph: DifferenceGraph,
    /// By place in the log.
    marks: Vec<Mark>,
    /// How many bounds were taken that are no edges.
    others: usize,
    /// How many atoms are candidates, where they can be.
    listed: usize,
    /// How many edges were looked round.
    seen: usize,
    /// Whether the graph's numbers were seen to be those of no model.
    is_stuck: bool,
}

/// The edge that a literal says.
fn edge_of(atoms: &AtomNumbers, literal: Literal) -> Option<Edge> {
    let difference = difference_of(atoms, literal)?;
    let Ok(weight) = i64::try_from(difference.weight) else {
        return None;
    };
    let Ok(tag) = u32::try_from(literal.code()) else {
        return None;
    };
    Some(Edge {
        from: difference.from,
        to: difference.to,
        weight,
        tag,
    })
}

/// Whether a literal bounds a sum.
fn is_bound(atoms: &AtomNumbers, literal: Literal) -> bool {
    if literal.atom() as usize >= atoms.len() {
        return false;
    }
    match atoms.atom(literal.atom()) {
        NumberedAtom::Bound(_) => true,
        NumberedAtom::Truth(_) | NumberedAtom::Same(_, _) => false,
    }
}

/// The literal of a tag, if its atom has a number.
pub(crate) fn literal_of(atoms: &AtomNumbers, tag: u32) -> Option<Literal>
    ensures { IfSome result (λ l. l.atom < length atoms.now.atoms) }
{
    if (tag / 2) as usize >= atoms.len() {
        return None;
    }
    Some(Literal::new(tag / 2, tag % 2 == 0))
}

impl Differences {
    /// It takes no memory.
    pub(crate) fn new(alloc: Global) -> Self {
        Differences {
            graph: DifferenceGraph::new(alloc),
            marks: Vec::new(alloc),
            others: 0,
            listed: 0,
            seen: 0,
            is_stuck: false,
        }
    }

    /// Lists what a literal says among the candidates.
    fn list_literal(&mut self, atoms: &AtomNumbers, literal: Literal) -> Result<(), AllocError> {
        match edge_of(atoms, literal) {
            Some(edge) => self.graph.add_candidate(edge),
            None => Ok(()),
        }
    }

    /// Lists what the literals on new atoms say among the candidates.
    fn list(&mut self, atoms: &AtomNumbers) -> Result<(), AllocError> {
        for number in self.listed..atoms.len() {
            let literal = Literal::new(number as u32, true);
            self.list_literal(atoms, literal)?;
            self.list_literal(atoms, literal.negated())?;
        }
        self.listed = atoms.len();
        Ok(())
    }

    /// Takes a literal. The tags of a cycle, where there is one.
    fn take_literal(
        &mut self,
        alloc: Global,
        atoms: &AtomNumbers,
        literal: Literal,
    ) -> Result<Option<Vec<u32>>, AllocError> {
        match edge_of(atoms, literal) {
            Some(edge) => match self.graph.assert(alloc, edge)? {
                Asserted::Taken => {}
                Asserted::Cycle(tags) => return Ok(Some(tags)),
                Asserted::Beyond => self.others = self.others.saturating_add(1),
            },
            None => {
                if is_bound(atoms, literal) {
                    self.others = self.others.saturating_add(1);
                }
            }
        }
        Ok(None)
    }

    /// Lets paths be looked for a little more.
    fn allow_paths(&mut self) {
        let steps = if self.others == 0 {
            STEPS
        } else {
            STEPS_BESIDE_SUMS
        };
        self.graph.allow(steps);
    }

    /// Takes what the log has more. The tags of the first cycle, where there is one.
    pub(crate) fn take(
        &mut self,
        alloc: Global,
        atoms: &AtomNumbers,
        log: &[Literal],
    ) -> Result<Option<Vec<u32>>, AllocError> {
        self.list(atoms)?;
        for place in self.marks.len()..log.len() {
            let mark = Mark {
                edges: self.graph.len(),
                others: self.others,
            };
            if let Some(tags) = self.take_literal(alloc, atoms, log[place])? {
                return Ok(Some(tags));
            }
            self.marks.push(mark)?;
        }
        self.allow_paths();
        Ok(None)
    }

    /// What follows from the next edge that wasn't looked round yet. None where each was, or paths aren't worth looking for.
    pub(crate) fn next_implied(
        &mut self,
        alloc: Global,
    ) -> Result<Option<Vec<ImpliedEdge>>, AllocError> {
        if self.seen >= self.graph.len() || !self.graph.looks() {
            return Ok(None);
        }
        let place = self.seen;
        self.seen = place.saturating_add(1);
        Ok(Some(self.graph.implied(alloc, place)?))
    }

    /// Keeps so many of the literals.
    pub(crate) fn undo_to(&mut self, count: usize) {
        if count >= self.marks.len() {
            return;
        }
        let mark = self.marks[count];
        self.graph.undo_to(mark.edges);
        self.marks.truncate(count);
        self.others = mark.others;
        self.seen = self.seen.min(mark.edges);
        self.is_stuck = false;
    }

    /// Whether all bounds among so many literals are edges, which the graph's numbers meet.
    pub(crate) fn are_all(&self, told: usize) -> bool {
        self.others == 0 && self.marks.len() == told
    }

    /// Whether the graph's numbers are to be tried as those of a model.
    pub(crate) fn leads(&self, told: usize) -> bool {
        self.are_all(told) && !self.is_stuck
    }

    /// The graph's numbers are those of no model.
    pub(crate) fn give_up(&mut self) {
        self.is_stuck = true;
    }

    /// The number of a term that stands in a difference.
    pub(crate) fn number(&self, term: u32) -> Option<i128> {
        let node = term.checked_add(1)?;
        if node as usize >= self.graph.nodes() {
            return None;
        }
        let number = self.graph.number(node)?;
        Some(i128::from(number))
    }
}
