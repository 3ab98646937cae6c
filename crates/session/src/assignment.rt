//! The truth values of names under a kept model (SMT-LIB 2.6, section 4.2.6).
ghost use Rattle.std.specs.Prelude.{◌≡◌, ◌<◌, ◌++◌, ◌∷◌, [], true, length, map, All, IfOk, IfErr, OnOk};
ghost use Rattle.smt_meaning.specs.Term.{tree_at, value as value_of, fits, truth_of};
ghost use Rattle.smt_meaning.specs.Interpretation.{meaning};
ghost use Rattle.smt_meaning.specs.Nodes.{tree_of, trees_from, trees_of, joined, AreNodes, AreNodesAfter};
ghost use Rattle.smt_meaning.specs.State.{is_truth_name as is_name_of_truth, named_truths as truths_of_names, named_fit, body_fits, truth_of_body};
ghost use Rattle.session.specs.Shown.{IsUnfit};
ghost use Rattle.session.specs.Stored.{AreStored};

use model_eval::{EvalError, value};
use smt_meaning::language::NamedTruth;
use smt_meaning::{Body, Bytes, Declaration, Interp, Layer, Node, Seq, Sort, TermId, Value};
use std::alloc::{AllocError, Global};
use term_store::{TermStore, chosen};

/// Terms in a store of their own, and the place of each there.
#[derive(Drop)]
pub struct StoredTerms {
    store: TermStore,
    places: Vec<TermId>,
}

/// Stores one more term, whose arguments are earlier ones.
fn store_node(
    alloc: Global,
    node: &Node,
    store: &mut TermStore,
    places: &mut Vec<TermId>,
) -> Result<(), AllocError>
    requires within { All (λ i. i < length store.old.trees) places.old.items }
    requires arguments { All (λ i. i < length places.old.items) node.now.arguments }
    ensures { OnOk result (AreStored (map (tree_at store.old.trees) places.old.items ++ tree_of (map (tree_at store.old.trees) places.old.items) node.now ∷ []) store.new.trees places.new.items) }
{
    let arguments = chosen(alloc, places, node.arguments.as_slice())?;
    let Ok(place) = store.intern(node.head, &arguments) else {
        return Err(AllocError);
    };
    places.push(place)?;
    Ok(())
}

/// Stores more terms in order, whose arguments are earlier ones.
fn store_nodes(
    alloc: Global,
    nodes: &[Node],
    store: &mut TermStore,
    places: &mut Vec<TermId>,
) -> Result<(), AllocError>
    requires within { All (λ i. i < length store.old.trees) places.old.items }
    requires nodes { AreNodesAfter (length places.old.items) nodes.now }
    ensures { OnOk result (AreStored (trees_from (map (tree_at store.old.trees) places.old.items) nodes.now) store.new.trees places.new.items) }
{
    for node in nodes {
        store_node(alloc, node, store, places)?;
    }
    Ok(())
}

/// The terms of these parts of a list, in a store of their own. An `Err` is for want of memory, or of room for them in one store.
fn stored(alloc: Global, layers: &[Layer]) -> Result<StoredTerms, AllocError>
    requires { AreNodes (joined layers.now) }
    ensures { IfOk result (λ s. AreStored (trees_of (joined layers.now)) s.store.trees s.places.items) }
{
    let mut store = TermStore::new(alloc, u32::MAX);
    let mut places = Vec::new(alloc);
    for layer in layers {
        store_nodes(alloc, layer.nodes(), &mut store, &mut places)?;
    }
    Ok(StoredTerms { store, places })
}

/// The truth value of a body. `Range` comes where a value, or a partial result, is past the range.
fn truth(alloc: Global, model: &Interp, body: &Body) -> Result<bool, EvalError>
    ensures fits { OnOk result (fits (meaning model.now) body.now.term ≡ true) }
    ensures truth { IfOk result (λ b. b ≡ truth_of (value_of (meaning model.now) body.now.term)) }
    ensures cause { IfErr result (λ e. IsUnfit e (fits (meaning model.now) body.now.term)) }
{
    let stored = stored(alloc, body.terms().layers())?;
    let place = stored.places[body.place() as usize];
    match value(alloc, model, &stored.store, place) {
        Ok(Value::Truth(holds)) => Ok(holds),
        Ok(_) => Ok(false),
        Err(error) => Err(error),
    }
}

/// The truth value of what a name stands for, false where it has no body.
fn truth_of_name(
    alloc: Global,
    model: &Interp,
    declaration: &Declaration,
) -> Result<bool, EvalError>
    ensures fits { OnOk result (body_fits (meaning model.now) declaration.now.body ≡ true) }
    ensures truth { IfOk result (λ b. b ≡ truth_of_body (meaning model.now) declaration.now.body) }
    ensures cause { IfErr result (λ e. IsUnfit e (body_fits (meaning model.now) declaration.now.body)) }
{
    match declaration.body() {
        Some(body) => truth(alloc, model, body),
        None => Ok(false),
    }
}

/// Whether it is the name of a Bool term.
fn is_truth_name(declaration: &Declaration) -> bool
    ensures { result ≡ is_name_of_truth declaration.now }
{
    declaration.is_name() && matches!(declaration.rank().result, Sort::Bool)
}

/// The names of Bool terms, in the order in which they were given, each with the value of its term under a model. `Range` comes where one has a partial result past the range.
pub fn named_truths(
    alloc: Global,
    model: &Interp,
    declarations: &[Declaration],
) -> Result<Seq<NamedTruth>, EvalError>
    ensures fits { OnOk result (named_fit (meaning model.now) declarations.now ≡ true) }
    ensures truths { IfOk result (λ ts. ts ≡ truths_of_names (meaning model.now) declarations.now) }
    ensures cause { IfErr result (λ e. IsUnfit e (named_fit (meaning model.now) declarations.now)) }
{
    let mut out = Seq::new(alloc);
    for declaration in declarations {
        if is_truth_name(declaration) {
            let value = truth_of_name(alloc, model, declaration)?;
            let name = Bytes::copy(alloc, declaration.name().as_slice())?;
            out.push(NamedTruth { name, value })?;
        }
    }
    Ok(out)
}
