//! The body of a definition, which is judged apart.
ghost use Rattle.std.specs.Prelude.{◌≡◌, ◌<◌, ◌≤◌, [], List, All, Some, None, if◌then◌else◌, length, take, IfOk, IfErr, OnOk};
ghost use Rattle.smt_meaning.specs.Sexp.{sexp};
ghost use Rattle.smt_meaning.specs.Term.{Tree, tree_at};
ghost use Rattle.smt_meaning.specs.Nodes.{AreNodesAfter, tree_of, trees_from};
ghost use Rattle.smt_meaning.specs.Sorts.{judge, done};
ghost use Rattle.smt_meaning.specs.StackCommand.{judge_body, in_body};
ghost use Rattle.elaborate.specs.Judged.{scope_of, IsCauseOf, variables_of, bodied_of};
ghost use Rattle.smt_sorts.specs.Names.{signature};
ghost use Rattle.smt_sorts.specs.Workshop.{places_from, IsOfAny};
ghost use Rattle.elaborate.specs.Values.{Comes, IsValue};
ghost use Rattle.elaborate.specs.Bodies.{bindings_from};
ghost use Rattle.elaborate.specs.Own.{IsApart, IsTaken, IsLeft, is_own_node, are_own_nodes};

use crate::apply::Rules;
use crate::bindings::Bindings;
use crate::error::JudgeError;
use crate::frame::Binding;
use crate::own::Apart;
use crate::read::judge_term;
use crate::value::Value;
use crate::{Parameter, TypedBody};
use look_ahead::ends;
use smt_meaning::{Body, Bytes, Head, Node, SExpr, Seq, TermId, Terms};
use smt_sorts::{Kept, Table, Workshop};
use std::alloc::{AllocError, Global};
use term_store::{InternError, TermStore};

/// Puts so many places in order into an empty list of terms.
fn add_places(count: u32, store: &mut TermStore) -> Result<(), InternError>
    requires { store.old.trees ≡ [] }
    ensures { OnOk result (store.new.trees ≡ places_from 0 count) }
{
    for place in 0..count {
        store.intern(Head::Place(place), &[])?;
    }
    Ok(())
}

/// The binding of each parameter to its place, the first parameter on top.
fn bind(alloc: Global, parameters: &[Parameter], count: u32) -> Result<Bindings, AllocError>
    requires { count ≡ length parameters.now }
    ensures { IfOk result (λ bs. bs ≡ bindings_from 0 parameters.now) }
{
    let mut bindings = Bindings::new(alloc);
    let mut place = count;
    while place > 0 {
        place -= 1;
        let parameter = &parameters[place as usize];
        let name = Bytes::copy(alloc, parameter.name.as_slice())?;
        let value = Value {
            id: place,
            sort: parameter.sort,
            constant: false,
            linear: true,
        };
        bindings.push(Binding { name, value })?;
    }
    Ok(bindings)
}

/// A node of a term, with arguments of its own.
fn copy_node(alloc: Global, store: &TermStore, id: TermId) -> Result<Node, AllocError>
    requires { id < length store.now.trees }
    ensures tree { IfOk result (λ n. tree_at store.now.trees id ≡ tree_of store.now.trees n) }
    ensures earlier { IfOk result (λ n. All (λ i. i < id) n.arguments) }
{
    let node = store.node(id);
    let arguments = node.arguments.to_vec(alloc)?;
    Ok(Node {
        head: node.head,
        arguments: Seq::from_vec(arguments),
    })
}

/// The nodes of a store from this one on.
pub(crate) fn nodes_from(
    alloc: Global,
    store: &TermStore,
    count: u32,
) -> Result<Vec<Node>, AllocError>
    requires { count ≤ length store.now.trees }
    ensures trees { IfOk result (λ v. trees_from (take count store.now.trees) v.items ≡ store.now.trees) }
    ensures earlier { IfOk result (λ v. AreNodesAfter count v.items) }
{
    let mut nodes = Vec::new(alloc);
    for id in count..store.len() {
        let node = copy_node(alloc, store, id)?;
        nodes.push(node)?;
    }
    Ok(nodes)
}

/// Whether a node is no parameter but one of so many.
fn is_own(node: &Node, parameters: u32) -> bool
    ensures { result ≡ is_own_node parameters node.now }
{
    match node.head {
        Head::Place(place) => place < parameters && node.arguments.len() == 0,
        Head::Numeral(_) => true,
        Head::Theory(_) => true,
        Head::Symbol(_) => true,
    }
}

/// Whether these nodes have no parameter but so many.
fn are_own(nodes: &[Node], parameters: u32) -> bool
    ensures { result ≡ are_own_nodes parameters nodes.now }
{
    for node in nodes {
        if !is_own(node, parameters) {
            return false;
        }
    }
    true
}

/// Judges a body in an empty list of terms, which gains its parameters and what was judged on the way.
fn judge_apart(
    alloc: Global,
    parameters: &[Parameter],
    term: &SExpr,
    table: &Table,
    store: &mut TermStore,
    apart: &mut Apart,
) -> Result<Value, JudgeError>
    requires empty { store.old.trees ≡ [] }
    requires none { apart.old.terms ≡ [] }
    requires count { apart.old.count ≡ 0 }
    requires parameters { apart.old.parameters ≡ length parameters.now }
    requires kept { IsOfAny (signature table.now) apart.old.kept }
    requires untaken { apart.old.taken ≡ None }
    ensures comes { Comes (judge in_body (variables_of parameters.now) (sexp term.now)) (scope_of table.now (places_from 0 (length parameters.now))) store.new.trees result }
    ensures apart { OnOk result (IsApart (signature table.now) store.new.trees apart.new) }
{
    let count = apart.parameters;
    let Ok(()) = add_places(count, store) else {
        return Err(JudgeError::Memory);
    };
    let Ok(bindings) = bind(alloc, parameters, count) else {
        return Err(JudgeError::Memory);
    };
    let Ok(ends) = ends(alloc, term) else {
        return Err(JudgeError::Memory);
    };
    let rules = Rules {
        naming: false,
        closed: false,
    };
    judge_term(alloc, rules, term, &ends, bindings, table, store, apart)
}

/// The body that was judged, whose terms are those that were taken and then what was judged after them.
fn judged_body(
    alloc: Global,
    value: Value,
    store: TermStore,
    apart: Apart,
) -> Result<TypedBody, AllocError>
    requires value { IsValue store.trees value }
    requires apart { IsTaken store.trees apart }
    ensures body { IfOk result (λ b. b.body ≡ record { terms = store.trees; term = tree_at store.trees value.id }) }
    ensures sort { IfOk result (λ b. b.sort ≡ value.sort) }
    ensures workshop { IfOk result (λ b. IsLeft b.body b.workshop) }
{
    let _ = store.len();
    let nodes = nodes_from(alloc, &store, apart.count)?;
    let own = are_own(&nodes, apart.parameters);
    let terms = apart.terms.with_nodes(alloc, nodes)?;
    let shared = terms.share(alloc)?;
    let _ = terms.layers();
    let workshop = Workshop {
        store,
        terms,
        parameters: apart.parameters,
        constant: value.constant,
        linear: value.linear,
    };
    Ok(TypedBody {
        body: Body::new(shared, value.id),
        sort: value.sort,
        workshop: left(own, workshop),
    })
}

/// What is left, where it may be kept.
fn left(own: bool, workshop: Workshop) -> Option<Workshop>
    ensures { result ≡ (if own then Some workshop else None) }
{
    if own { Some(workshop) } else { None }
}

/// Judges the body of a definition with these parameters, apart from the terms of the stack: its different terms, and its sort, or the one
/// refusal. Where it begins with the definition of which something is kept, its terms are taken from there.
pub fn body(
    alloc: Global,
    parameters: &[Parameter],
    term: &SExpr,
    table: &Table,
    kept: Option<Kept>,
) -> Result<TypedBody, JudgeError>
    requires { IsOfAny (signature table.now) kept }
    ensures workshop { IfOk result (λ b. IsLeft b.body b.workshop) }
    ensures ok { IfOk result (λ b. (ts : List Tree) → judge_body (variables_of parameters.now) term.now (scope_of table.now ts) ≡ done (bodied_of b) (scope_of table.now ts)) }
    ensures refused { IfErr result (λ e. (ts : List Tree) → IsCauseOf e (judge_body (variables_of parameters.now) term.now (scope_of table.now ts))) }
{
    let Ok(count) = u32::try_from(parameters.len()) else {
        return Err(JudgeError::Memory);
    };
    let mut store = TermStore::new(alloc, u32::MAX);
    let mut apart = Apart {
        parameters: count,
        kept,
        taken: None,
        terms: Terms::new(alloc),
        count: 0,
    };
    match judge_apart(alloc, parameters, term, table, &mut store, &mut apart) {
        Ok(value) => match judged_body(alloc, value, store, apart) {
            Ok(body) => Ok(body),
            Err(_) => Err(JudgeError::Memory),
        },
        Err(error) => Err(error),
    }
}
