//! Edges, and how they hang together.
ghost use Rattle.std.specs.Prelude.{IfSome, IfOk, OnOk, Contains};
ghost use Rattle.difference_logic.specs.Edges.{AreTags};

use std::alloc::{AllocError, Global};

/// That the number of a node is at most so much above that of another. Tags come in pairs, `2 n` and `2 n + 1`, of which one excludes the other.
#[derive(Clone, Copy, PartialEq, Eq, Drop)]
pub struct Edge {
    pub from: u32,
    pub to: u32,
    pub weight: i64,
    pub tag: u32,
}

/// No node, and no edge.
pub(crate) const NONE: u32 = u32::MAX;

/// A place in a list, or none.
pub(crate) fn short(place: usize) -> u32 {
    if place < 1 << 31 { place as u32 } else { NONE }
}

/// The word at a place, or none.
pub(crate) fn word(words: &[u32], place: u32) -> u32 {
    let place = place as usize;
    if place < words.len() {
        words[place]
    } else {
        NONE
    }
}

/// The edge at a place.
pub(crate) fn edge_at(edges: &[Edge], place: u32) -> Option<Edge>
    ensures { IfSome result (Contains edges.now) }
{
    let place = place as usize;
    if place < edges.len() {
        Some(edges[place])
    } else {
        None
    }
}

/// Adds the tag of the edge at a place, if there is one.
fn add_tag(tags: &mut Vec<u32>, edges: &[Edge], place: u32) -> Result<(), AllocError>
    ensures { OnOk result (AreTags edges.now tags.old.items → AreTags edges.now tags.new.items) }
{
    if let Some(edge) = edge_at(edges, place) {
        tags.push(edge.tag)?;
    }
    Ok(())
}

/// The tags of the edges at these places.
pub(crate) fn tags_of(alloc: Global, edges: &[Edge], places: &[u32]) -> Result<Vec<u32>, AllocError>
    ensures { IfOk result (λ tags. AreTags edges.now tags.items) }
{
    let mut tags = Vec::new(alloc);
    for place in places {
        add_tag(&mut tags, edges, *place)?;
    }
    Ok(tags)
}
