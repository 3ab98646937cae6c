//! The graph of equalities, from which terms with at most two neighbours are taken one after
//! another (chords: Bryant and Velev, CAV 2000).
ghost use Rattle.std.specs.Prelude.{◌<◌, length};
ghost use Rattle.check_atoms.specs.Marks.{AreMarkedFrom};
ghost use Rattle.check_atoms.specs.OfStack.{AreCheckAtoms};

use crate::chord::{is_declared, number_chord};
use atom_form::{AtomNumbers, NumberedAtom};
use scope_stack::Stack;
use smt_meaning::{Head, Operator, Sort, TermId};
use std::alloc::{AllocError, Global};

/// The numbers of three equalities between three terms.
#[derive(Clone, Copy, Drop)]
pub struct Triangle {
    pub first: u32,
    pub second: u32,
    pub third: u32,
}

/// An equality with another term.
#[derive(Clone, Copy, Drop)]
struct Edge {
    other: TermId,
    number: u32,
}

/// By place: the equalities of a term, with how many terms that are left, and whether it is taken.
#[derive(Drop)]
struct Graph {
    lists: Vec<Vec<Edge>>,
    degrees: Vec<u32>,
    taken: Vec<bool>,
}

/// Lists longer than this aren't searched.
const LONG: usize = 64;

fn degree(graph: &Graph, place: TermId) -> u32 {
    if (place as usize) < graph.degrees.len() {
        graph.degrees[place as usize]
    } else {
        0
    }
}

fn set_degree(degrees: &mut Vec<u32>, place: TermId, degree: u32) {
    if (place as usize) < degrees.len() {
        degrees[place as usize] = degree;
    }
}

fn is_taken(graph: &Graph, place: TermId) -> bool {
    (place as usize) >= graph.taken.len() || graph.taken[place as usize]
}

fn take(taken: &mut Vec<bool>, place: TermId) {
    if (place as usize) < taken.len() {
        taken[place as usize] = true;
    }
}

/// The number of a term's equality with another, in its list.
fn in_list(list: &[Edge], other: TermId) -> Option<u32> {
    for edge in list {
        if edge.other == other {
            return Some(edge.number);
        }
    }
    None
}

/// What is known of the equality of two terms.
#[derive(Clone, Copy, Drop)]
enum Known {
    Number(u32),
    None,
    /// Both have long lists.
    Unsearched,
}

fn look_up(graph: &Graph, left: TermId, right: TermId) -> Known {
    let l = left as usize;
    let r = right as usize;
    if l >= graph.lists.len() || r >= graph.lists.len() {
        return Known::Unsearched;
    }
    let found = if graph.lists[l].len() <= LONG {
        in_list(&graph.lists[l], right)
    } else if graph.lists[r].len() <= LONG {
        in_list(&graph.lists[r], left)
    } else {
        return Known::Unsearched;
    };
    match found {
        Some(number) => Known::Number(number),
        None => Known::None,
    }
}

fn add_to(
    lists: &mut Vec<Vec<Edge>>,
    place: TermId,
    other: TermId,
    number: u32,
) -> Result<(), AllocError> {
    if (place as usize) < lists.len() {
        lists[place as usize].push(Edge { other, number })?;
    }
    Ok(())
}

fn add_edge(graph: &mut Graph, left: TermId, right: TermId, number: u32) -> Result<(), AllocError> {
    add_to(&mut graph.lists, left, right, number)?;
    add_to(&mut graph.lists, right, left, number)?;
    let of_left = degree(graph, left);
    set_degree(&mut graph.degrees, left, of_left.saturating_add(1));
    let of_right = degree(graph, right);
    set_degree(&mut graph.degrees, right, of_right.saturating_add(1));
    Ok(())
}

/// The two terms of an equality, if the atom is one of two.
fn ends(stack: &Stack, atoms: &AtomNumbers, number: u32) -> Option<(TermId, TermId)>
    requires { number < length atoms.now.atoms }
{
    match atoms.atom(number) {
        NumberedAtom::Bound(_) => None,
        NumberedAtom::Same(left, right) => Some((left, right)),
        NumberedAtom::Truth(place) => {
            if place >= stack.terms().len() {
                return None;
            }
            let node = stack.terms().node(place);
            if node.head == Head::Theory(Operator::Equal) && node.arguments.len() == 2 {
                Some((node.arguments[0], node.arguments[1]))
            } else {
                None
            }
        }
    }
}

/// Whether the term at a place is of a declared sort.
fn is_element(sorts: &[Sort], place: TermId) -> bool {
    (place as usize) < sorts.len() && is_declared(sorts[place as usize])
}

/// Adds the equality of a number, where it is one of two terms of a declared sort, and the only one between them.
fn add_equality(
    stack: &Stack,
    atoms: &AtomNumbers,
    graph: &mut Graph,
    number: u32,
) -> Result<(), AllocError>
    requires { number < length atoms.now.atoms }
{
    let Some((left, right)) = ends(stack, atoms, number) else {
        return Ok(());
    };
    if left == right || !is_element(stack.sorts(), left) {
        return Ok(());
    }
    match look_up(graph, left, right) {
        Known::Number(_) => Ok(()),
        Known::None | Known::Unsearched => add_edge(graph, left, right, number),
    }
}

/// The graph of all equalities.
fn graph_of(alloc: Global, stack: &Stack, atoms: &AtomNumbers) -> Result<Graph, AllocError> {
    let count = stack.terms().len() as usize;
    let mut lists = Vec::new(alloc);
    for _ in 0..count {
        lists.push(Vec::new(alloc))?;
    }
    let mut graph = Graph {
        lists,
        degrees: vec![in alloc; 0; count]?,
        taken: vec![in alloc; false; count]?,
    };
    for number in 0..atoms.len() {
        add_equality(stack, atoms, &mut graph, number as u32)?;
    }
    Ok(graph)
}

/// The first two equalities of a term with terms that aren't taken.
fn near(graph: &Graph, place: TermId) -> (Option<Edge>, Option<Edge>) {
    if (place as usize) >= graph.lists.len() {
        return (None, None);
    }
    let mut first = None;
    for edge in graph.lists[place as usize].as_slice() {
        if !is_taken(graph, edge.other) {
            match first {
                None => first = Some(*edge),
                Some(_) => return (first, Some(*edge)),
            }
        }
    }
    (first, None)
}

/// A neighbour loses a neighbour, and is to be looked at where at most two are left.
fn leave(
    graph: &mut Graph,
    waiting: &mut Vec<TermId>,
    edge: Option<Edge>,
) -> Result<(), AllocError> {
    if let Some(found) = edge {
        let left = degree(graph, found.other).saturating_sub(1);
        set_degree(&mut graph.degrees, found.other, left);
        if left <= 2 {
            waiting.push(found.other)?;
        }
    }
    Ok(())
}

/// The triangle of a term with its two neighbours, whose equality is numbered where it wasn't.
fn close(
    stack: &Stack,
    marks: &[bool],
    atoms: &mut AtomNumbers,
    graph: &mut Graph,
    triangles: &mut Vec<Triangle>,
    first: Edge,
    second: Edge,
) -> Result<(), AllocError>
    requires parts { AreMarkedFrom stack.now 0 marks.now }
    requires atoms { AreCheckAtoms stack.now marks.now atoms.old.atoms }
    ensures { AreCheckAtoms stack.now marks.now atoms.new.atoms }
{
    let third = match look_up(graph, first.other, second.other) {
        Known::Unsearched => return Ok(()),
        Known::Number(number) => number,
        Known::None => {
            let Some(number) = number_chord(stack, marks, atoms, first.other, second.other)? else {
                return Ok(());
            };
            add_edge(graph, first.other, second.other, number)?;
            number
        }
    };
    triangles.push(Triangle {
        first: first.number,
        second: second.number,
        third,
    })?;
    Ok(())
}

/// Takes a term that has at most two neighbours left.
fn take_term(
    stack: &Stack,
    marks: &[bool],
    atoms: &mut AtomNumbers,
    graph: &mut Graph,
    waiting: &mut Vec<TermId>,
    triangles: &mut Vec<Triangle>,
    place: TermId,
) -> Result<(), AllocError>
    requires parts { AreMarkedFrom stack.now 0 marks.now }
    requires atoms { AreCheckAtoms stack.now marks.now atoms.old.atoms }
    ensures { AreCheckAtoms stack.now marks.now atoms.new.atoms }
{
    if is_taken(graph, place) || degree(graph, place) > 2 {
        return Ok(());
    }
    take(&mut graph.taken, place);
    let (first, second) = near(graph, place);
    leave(graph, waiting, first)?;
    leave(graph, waiting, second)?;
    match (first, second) {
        (Some(one), Some(other)) => close(stack, marks, atoms, graph, triangles, one, other),
        _ => Ok(()),
    }
}

/// The terms that have neighbours.
fn with_neighbours(alloc: Global, stack: &Stack, graph: &Graph) -> Result<Vec<TermId>, AllocError> {
    let mut places = Vec::new(alloc);
    for place in 0..stack.terms().len() {
        if degree(graph, place) > 0 {
            places.push(place)?;
        }
    }
    Ok(places)
}

/// The two terms that a `distinct` compares alone, where this atom is the truth of one.
fn apart(stack: &Stack, atoms: &AtomNumbers, number: usize) -> Option<(TermId, TermId)> {
    if number >= atoms.len() {
        return None;
    }
    match atoms.atom(number as u32) {
        NumberedAtom::Bound(_) | NumberedAtom::Same(_, _) => None,
        NumberedAtom::Truth(place) => {
            if place >= stack.terms().len() {
                return None;
            }
            let node = stack.terms().node(place);
            if node.head == Head::Theory(Operator::Distinct) && node.arguments.len() == 2 {
                Some((node.arguments[0], node.arguments[1]))
            } else {
                None
            }
        }
    }
}

/// Terms in more `distinct`s of two than this are left alone: of a clique every pair would have an equality.
const FEW: u32 = 2;

fn count_one(counts: &mut Vec<u32>, place: TermId) {
    if (place as usize) < counts.len() {
        counts[place as usize] = counts[place as usize].saturating_add(1);
    }
}

/// By place: in how many `distinct`s of two a term stands.
fn counts_apart(alloc: Global, stack: &Stack, atoms: &AtomNumbers) -> Result<Vec<u32>, AllocError> {
    let mut counts = vec![in alloc; 0; stack.terms().len() as usize]?;
    for number in 0..atoms.len() {
        if let Some((left, right)) = apart(stack, atoms, number) {
            count_one(&mut counts, left);
            count_one(&mut counts, right);
        }
    }
    Ok(counts)
}

fn are_few(counts: &[u32], place: TermId) -> bool {
    (place as usize) < counts.len() && counts[place as usize] <= FEW
}

/// Numbers the equality of two terms of a declared sort that a `distinct` compares alone, so that it is an edge as others are.
fn number_apart(
    stack: &Stack,
    marks: &[bool],
    atoms: &mut AtomNumbers,
    counts: &[u32],
    number: usize,
) -> Result<(), AllocError>
    requires parts { AreMarkedFrom stack.now 0 marks.now }
    requires atoms { AreCheckAtoms stack.now marks.now atoms.old.atoms }
    ensures { AreCheckAtoms stack.now marks.now atoms.new.atoms }
{
    match apart(stack, atoms, number) {
        Some((left, right)) if left != right && are_few(counts, left) && are_few(counts, right) => {
            let _number = number_chord(stack, marks, atoms, left, right)?;
            Ok(())
        }
        _ => Ok(()),
    }
}

/// The same of each `distinct` of two.
fn number_all_apart(
    alloc: Global,
    stack: &Stack,
    marks: &[bool],
    atoms: &mut AtomNumbers,
) -> Result<(), AllocError>
    requires parts { AreMarkedFrom stack.now 0 marks.now }
    requires atoms { AreCheckAtoms stack.now marks.now atoms.old.atoms }
    ensures { AreCheckAtoms stack.now marks.now atoms.new.atoms }
{
    let counts = counts_apart(alloc, stack, atoms)?;
    for number in 0..atoms.len() {
        number_apart(stack, marks, atoms, &counts, number)?;
    }
    Ok(())
}

/// Numbers the equalities of the two neighbours of terms that have two, one term after another, and gives the triangles. An `Err`, for want of memory, keeps the atoms that are numbered.
pub(crate) fn chords(
    alloc: Global,
    stack: &Stack,
    marks: &[bool],
    atoms: &mut AtomNumbers,
) -> Result<Vec<Triangle>, AllocError>
    requires parts { AreMarkedFrom stack.now 0 marks.now }
    requires atoms { AreCheckAtoms stack.now marks.now atoms.old.atoms }
    ensures { AreCheckAtoms stack.now marks.now atoms.new.atoms }
{
    let mut triangles = Vec::new(alloc);
    if !stack.sorts().iter().any(|sort| is_declared(*sort)) {
        return Ok(triangles);
    }
    number_all_apart(alloc, stack, marks, atoms)?;
    let mut graph = graph_of(alloc, stack, atoms)?;
    let mut waiting = with_neighbours(alloc, stack, &graph)?;
    for _turn in 0..u64::MAX {
        let Some(place) = waiting.pop() else {
            return Ok(triangles);
        };
        take_term(
            stack,
            marks,
            atoms,
            &mut graph,
            &mut waiting,
            &mut triangles,
            place,
        )?;
    }
    Ok(triangles)
}
