//! Terms by number.
//!
//! Why a cut takes no memory: a node is found by the chain of its hash's bucket, the newest first,
//! so the newest nodes are undone one by one. `intern` takes the head and the arguments, and want
//! of memory is one of its two errors.
ghost use Rattle.std.specs.Prelude.{◌≡◌, ◌<◌, ◌≤◌, ◌↔◌, ℕ, List, [], ◌∷◌, ◌++◌, length, take, map, slice_index_or, OnOk, OnErr, IfOk, IfSome, IfNone, All, IsTrue};
ghost use Rattle.term_store.specs.Hash.{node_hash};
ghost use Rattle.smt_meaning.specs.declared.nodes.Node.{Node as NodeOf};
ghost use Rattle.term_store.specs.Nodes.{plain, nodes_of, plain_hash, HasNode, HasNoNode};

use crate::index::HashIndex;
use crate::rows::Rows;
use crate::term_store_hash;
use smt_meaning::{Head, TermId};
use std::alloc::{AllocError, Global};
use std::marker::Model;

/// A node of a term: its head, and the places of its arguments.
#[derive(Clone, Copy, Drop)]
pub struct Node<'a> {
    pub head: Head,
    pub arguments: &'a [TermId],
}

/// Why a node isn't stored.
#[derive(Clone, Copy, PartialEq, Eq, Debug, Drop)]
pub enum InternError {
    /// As many nodes are stored as there may be.
    Full,
    /// Memory is wanting.
    Memory,
}

impl From<AllocError> for InternError {
    ghost use Rattle.std.specs.Prelude.{◌≡◌};
    ghost use Rattle.term_store.specs.declared.store.InternError.TheVariants.{Memory};

    ghost from_gives = { λ _ e. e ≡ Memory };

    fn from(_: AllocError) -> InternError {
        InternError::Memory
    }
}

/// A list of different terms, of at most so many. Each term's arguments stand before it, and its number is its place.
#[derive(Drop)]
pub struct TermStore {
    rows: Rows<Head>,
    index: HashIndex,
    limit: u32,
}

impl Model for TermStore {
    ghost use Rattle.term_store.specs.Terms.{Terms, terms_code};

    ghost Value = { Terms };

    ghost coded = { terms_code };

    ghost use Rattle.smt_meaning.specs.declared.nodes.Node.{Node as NodeOf};
    ghost use Rattle.term_store.specs.Nodes.{plain, nodes_of, IsStore};
    ghost use Rattle.smt_meaning.specs.Nodes.{trees_of};

    ghost view = { λ a. record { limit = a.limit; trees = trees_of (nodes_of a.rows) } };

    ghost invariant = { λ a. IsStore a.limit a.rows a.index };
}

/// Whether two nodes have the same head and the same arguments.
fn is_same(left: Node<'_>, right: Node<'_>) -> bool
    ensures { IsTrue result ↔ (plain left.entry.head left.entry.arguments.now ≡ plain right.entry.head right.entry.arguments.now) }
{
    left.head == right.head && left.arguments == right.arguments
}

/// A row as a node.
fn node_at<'a>(rows: &'a Rows<Head>, place: usize) -> Node<'a>
    requires { place < length rows.now }
    ensures { (d : NodeOf) → slice_index_or (nodes_of rows.now) place d ≡ plain result.head result.arguments.now }
{
    Node {
        head: rows.head(place),
        arguments: rows.numbers(place),
    }
}

/// The place of the node with this head, these arguments and their hash.
fn find(rows: &Rows<Head>, index: &HashIndex, hash: u32, node: Node<'_>) -> Option<TermId>
    requires hashed { index.now ≡ map plain_hash (nodes_of rows.now) }
    requires hash { hash ≡ node_hash node.head node.arguments.now }
    ensures some { IfSome result (λ i. HasNode (nodes_of rows.now) i (plain node.entry.head node.entry.arguments.now)) }
    ensures none { IfNone result (HasNoNode (nodes_of rows.now) (plain node.entry.head node.entry.arguments.now)) }
{
    let mut link = index.last(hash);
    while link > 0 {
        let place = (link - 1) as usize;
        if is_same(node_at(rows, place), node) {
            return Some(link - 1);
        }
        link = index.before(place);
    }
    None
}

impl TermStore {
    ghost use Rattle.smt_meaning.specs.Term.{tree_at};
    ghost use Rattle.smt_meaning.specs.TreeShape.{place_of, with_parts};
    ghost use Rattle.term_store.specs.Terms.{tree_with, interned, IsFullFor, IsPlace, IsNew, AreDifferent, AreComplete};

    /// No term, where there may be this many. It takes no memory.
    pub fn new(alloc: Global, limit: u32) -> Self
        ensures { result ≡ record { limit = limit; trees = [] } }
    {
        TermStore {
            rows: Rows::new(alloc),
            index: HashIndex::new(alloc),
            limit,
        }
    }

    /// How many terms there may be.
    pub fn limit(&self) -> u32
        ensures { result ≡ self.now.limit }
    {
        self.limit
    }

    /// The number of terms.
    pub fn len(&self) -> u32
        ensures value { result ≡ length self.now.trees }
        ensures within { length self.now.trees ≤ self.now.limit }
        ensures different { AreDifferent self.now.trees }
        ensures parts { AreComplete self.now.trees }
    {
        self.rows.len() as u32
    }

    /// The node of a term.
    pub fn node(&self, id: TermId) -> Node<'_>
        requires { id < length self.now.trees }
        ensures tree { tree_at self.now.trees id ≡ tree_with self.now.trees result.head result.arguments.now }
        ensures earlier { All (λ i. i < id) result.arguments.now }
    {
        node_at(&self.rows, id as usize)
    }

    /// The place of a term, by its node's hash.
    fn place(&self, hash: u32, head: Head, arguments: &[TermId]) -> Option<TermId>
        requires below { All (λ i. i < length self.now.trees) arguments.now }
        requires hash { hash ≡ node_hash head arguments.now }
        ensures some { IfSome result (λ i. IsPlace self.now.trees i (tree_with self.now.trees head arguments.now)) }
        ensures none { IfNone result (IsNew self.now.trees (tree_with self.now.trees head arguments.now)) }
        ensures different { AreDifferent self.now.trees }
    {
        find(&self.rows, &self.index, hash, Node { head, arguments })
    }

    /// Adds a term at the end. An `Err`, for want of memory, changes nothing.
    fn add(&mut self, hash: u32, head: Head, arguments: &[TermId]) -> Result<(), AllocError>
        requires below { All (λ i. i < length self.old.trees) arguments.now }
        requires hash { hash ≡ node_hash head arguments.now }
        requires new { IsNew self.old.trees (tree_with self.old.trees head arguments.now) }
        requires room { length self.old.trees < self.old.limit }
        ensures ok { OnOk result (self.new ≡ record { limit = self.old.limit; trees = self.old.trees ++ tree_with self.old.trees head arguments.now ∷ [] }) }
        ensures err { OnErr result (self.new ≡ self.old) }
    {
        let count = self.rows.len();
        self.index.push(hash)?;
        let added = self.rows.push(head, arguments);
        if added.is_err() {
            self.index.truncate(count);
        }
        added
    }

    /// The number of the term with this head and these arguments. It is stored unless it was before. `Full` comes exactly where as many terms as
    /// there may be are stored and this one is not. An `Err` changes nothing.
    pub fn intern(&mut self, head: Head, arguments: &[TermId]) -> Result<TermId, InternError>
        requires { All (λ i. i < length self.old.trees) arguments.now }
        ensures ok { OnOk result (self.new ≡ interned self.old (tree_with self.old.trees head arguments.now)) }
        ensures parts { OnOk result (self.new.trees ≡ with_parts self.old.trees (tree_with self.old.trees head arguments.now)) }
        ensures number { IfOk result (λ i. i ≡ place_of (tree_with self.old.trees head arguments.now) self.new.trees) }
        ensures place { IfOk result (λ i. IsPlace self.new.trees i (tree_with self.old.trees head arguments.now)) }
        ensures full { (result ≡ Err InternError.Full) ↔ IsFullFor self.old (tree_with self.old.trees head arguments.now) }
        ensures err { OnErr result (self.new ≡ self.old) }
    {
        let id = self.len();
        let hash = term_store_hash::of_node(head, arguments);
        if let Some(old) = self.place(hash, head, arguments) {
            return Ok(old);
        }
        if id >= self.limit {
            return Err(InternError::Full);
        }
        self.add(hash, head, arguments)?;
        Ok(id)
    }

    /// Takes the terms from this number on away. It takes no memory.
    pub fn cut(&mut self, len: u32)
        ensures { self.new ≡ record { limit = self.old.limit; trees = take len self.old.trees } }
    {
        let count = len as usize;
        self.rows.truncate(count);
        self.index.truncate(count);
    }
}
