//! Lists of terms, each after its arguments, in parts that several lists may share.
ghost use Rattle.std.specs.Prelude.{◌≡◌, ◌≤◌, ◌++◌, ◌∷◌, [], length, map, All, IfOk, OnOk};
ghost use Rattle.smt_meaning.specs.Term.{tree_at};
ghost use Rattle.smt_meaning.specs.Nodes.{AreNodes, AreNodesAfter, joined, tree_of, trees_from, trees_of};

use crate::seq::Seq;
use crate::terms::{Head, TermId};
use std::alloc::{AllocError, Global};
use std::marker::Model;
use std::sync::Arc;

/// A term: its head, and the places of its arguments in a list where they stand before it.
#[derive(Drop)]
pub struct Node {
    pub head: Head,
    pub arguments: Seq<TermId>,
}

/// A part of a list of terms, which several lists may share.
#[derive(Drop)]
pub struct Layer {
    nodes: Arc<Vec<Node>>,
}

impl Model for Layer {
    ghost use Rattle.std.specs.Prelude.{List};
    ghost use Rattle.std.specs.Arc.{arc_value};
    ghost use Rattle.smt_meaning.specs.declared.nodes.Node.{Node};

    ghost Value = { List Node };

    ghost view = { λ l. (arc_value l.nodes).items };
}

impl Layer {
    fn new(alloc: Global, nodes: Vec<Node>) -> Result<Self, AllocError>
        ensures { IfOk result (λ l. l ≡ nodes.items) }
    {
        let nodes = Arc::new(alloc, nodes)?;
        Ok(Layer { nodes })
    }

    fn share(&self) -> Result<Self, AllocError>
        ensures { IfOk result (λ l. l ≡ self.now) }
    {
        let nodes = Arc::try_clone(&self.nodes)?;
        Ok(Layer { nodes })
    }

    /// The nodes of the part, in order.
    pub fn nodes(&self) -> &[Node]
        ensures { result.now ≡ self.now }
    {
        self.nodes.as_slice()
    }
}

/// A list of terms, each after its arguments, which contracts see as the list of their trees.
#[derive(Drop)]
pub struct Terms {
    layers: Vec<Layer>,
}

impl Model for Terms {
    ghost use Rattle.std.specs.Prelude.{List};
    ghost use Rattle.smt_meaning.specs.Term.{Tree};
    ghost use Rattle.smt_meaning.specs.TreeCode.{coded_trees};

    ghost Value = { List Tree };

    ghost coded = { coded_trees };

    ghost use Rattle.smt_meaning.specs.Nodes.{AreNodes, joined, trees_of};

    ghost view = { λ t. trees_of (joined t.layers.items) };

    ghost invariant = { λ t. AreNodes (joined t.layers.items) };
}

/// How many of the first parts stay as they are where so many nodes join: the others are joined with these, since none is twice as long as what
/// follows it. So a list has few parts.
fn kept(layers: &[Layer], count: usize) -> usize
    ensures { result ≤ length layers.now }
{
    let mut size = count;
    let mut left = layers.len();
    while left > 0 {
        let length = layers[left - 1].nodes().len();
        if length > size {
            return left;
        }
        size = size.saturating_add(length);
        left -= 1;
    }
    left
}

fn copy_node(alloc: Global, node: &Node) -> Result<Node, AllocError>
    ensures { IfOk result (λ n. n ≡ node.now) }
{
    let arguments = node.arguments.as_slice().to_vec(alloc)?;
    Ok(Node {
        head: node.head,
        arguments: Seq::from_vec(arguments),
    })
}

/// Adds copies of these nodes.
fn copy_nodes(alloc: Global, nodes: &[Node], copies: &mut Vec<Node>) -> Result<(), AllocError>
    ensures { OnOk result (copies.new.items ≡ copies.old.items ++ nodes.now) }
{
    for node in nodes {
        let copy = copy_node(alloc, node)?;
        copies.push(copy)?;
    }
    Ok(())
}

/// Copies of the nodes of these parts, in order.
fn copy_layers(alloc: Global, layers: &[Layer]) -> Result<Vec<Node>, AllocError>
    ensures { IfOk result (λ v. v.items ≡ joined layers.now) }
{
    let mut copies = Vec::new(alloc);
    for layer in layers {
        copy_nodes(alloc, layer.nodes(), &mut copies)?;
    }
    Ok(copies)
}

/// The same parts.
fn share(alloc: Global, layers: &[Layer]) -> Result<Vec<Layer>, AllocError>
    ensures { IfOk result (λ v. v.items ≡ layers.now) }
{
    let mut shared = Vec::new(alloc);
    for layer in layers {
        let same = layer.share()?;
        shared.push(same)?;
    }
    Ok(shared)
}

/// These parts and then these nodes, in parts.
fn with_nodes(alloc: Global, layers: &[Layer], nodes: Vec<Node>) -> Result<Vec<Layer>, AllocError>
    ensures { IfOk result (λ v. joined v.items ≡ joined layers.now ++ nodes.items) }
{
    let count = kept(layers, nodes.len());
    let mut last = copy_layers(alloc, &layers[count..])?;
    let mut nodes = nodes;
    last.append(&mut nodes)?;
    let mut all = share(alloc, &layers[..count])?;
    let layer = Layer::new(alloc, last)?;
    all.push(layer)?;
    Ok(all)
}

impl Terms {
    /// No term. It takes no memory.
    pub fn new(alloc: Global) -> Self
        ensures { result ≡ [] }
    {
        Terms {
            layers: Vec::new(alloc),
        }
    }

    /// The terms that these nodes stand for.
    pub fn from_nodes(alloc: Global, nodes: Vec<Node>) -> Result<Self, AllocError>
        requires { AreNodes nodes.items }
        ensures { IfOk result (λ t. t ≡ trees_of nodes.items) }
    {
        let layer = Layer::new(alloc, nodes)?;
        let mut layers = Vec::new(alloc);
        layers.push(layer)?;
        Ok(Terms { layers })
    }

    /// These terms, which are shared, and then the terms of these nodes, whose arguments may be any terms before them.
    pub fn with_nodes(&self, alloc: Global, nodes: Vec<Node>) -> Result<Self, AllocError>
        requires { AreNodesAfter (length self.now) nodes.items }
        ensures { IfOk result (λ t. t ≡ trees_from self.now nodes.items) }
    {
        let layers = with_nodes(alloc, &self.layers, nodes)?;
        Ok(Terms { layers })
    }

    /// The same terms, which are shared.
    pub fn share(&self, alloc: Global) -> Result<Self, AllocError>
        ensures { IfOk result (λ t. t ≡ self.now) }
    {
        let layers = share(alloc, &self.layers)?;
        Ok(Terms { layers })
    }

    /// Their nodes in order, in parts.
    pub fn layers(&self) -> &[Layer]
        ensures trees { self.now ≡ trees_of (joined result.now) }
        ensures earlier { AreNodes (joined result.now) }
    {
        self.layers.as_slice()
    }
}
