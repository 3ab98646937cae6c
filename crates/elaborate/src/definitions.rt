//! Definitions, with arguments put in for their parameters (SMT-LIB 2.6, section 4.2.3).
//!
//! Why all that was judged is kept: a definition keeps all terms that were judged in its body, with
//! parameters as places, and which of them it is. So a name that the body used may go, and a
//! product that isn't linear is refused where the definition is used, also where it stands in a
//! `let` that the body doesn't use.
//!
//! Why its terms go in one after another, in the order in which they were judged in its body: each
//! is stored with its arguments' places, so no term is walked as a tree. Its body is a list of
//! nodes in parts, which several bodies may share.
ghost use Rattle.std.specs.Prelude.{◌≡◌, ◌<◌, ◌++◌, [], map, length, All, IfOk, OnOk, OnErr, Some, List};
ghost use Rattle.smt_meaning.specs.declared.nodes.Node.{Node as NodeValue};
ghost use Rattle.smt_meaning.specs.Nodes.{AreNodes, AreNodesAfter, joined, trees_of as terms_of};
ghost use Rattle.smt_meaning.specs.Term.{Tree, Trees};
ghost use Rattle.smt_meaning.specs.Sorts.{judge_symbol, trees_of};
ghost use Rattle.elaborate.specs.Judged.{scope_of, rules_of};
ghost use Rattle.elaborate.specs.Values.{AreValues, Comes, HasGrown, IsNode, typed};
ghost use Rattle.smt_meaning.specs.declared.values.Sort.TheVariants as Sort;
ghost use Rattle.elaborate.specs.Putting.{value_at, IsPut, ArePut};

use crate::apply::{Rules, may_stand};
use crate::error::JudgeError;
use crate::value::{Value, are_linear, stored};
use smt_meaning::{Body, Declaration, Head, Layer, Node, Operator, Refusal, Sort};
use smt_sorts::Table;
use std::alloc::Global;
use term_store::{TermStore, chosen};

/// The argument that is put in for a parameter.
fn put_parameter(
    alloc: Global,
    parameter: u32,
    arguments: &[Value],
    store: &mut TermStore,
) -> Result<Value, JudgeError>
    requires { AreValues store.old.trees arguments.now }
    ensures ok { IfOk result (λ v. IsPut (trees_of (map (typed store.old.trees) arguments.now)) (Head.Place parameter) [] store.old.trees store.new.trees v) }
    ensures memory { OnErr result (result ≡ Err JudgeError.Memory) }
    ensures longer { HasGrown store.old store.new }
{
    let _ = store.len();
    if (parameter as usize) < arguments.len() {
        return Ok(arguments[parameter as usize]);
    }
    stored(alloc, Head::Theory(Operator::False), Sort::Bool, &[], store)
}

/// A term of a definition with arguments put in, where the values of the terms before it are known.
fn put_node(
    alloc: Global,
    node: &Node,
    arguments: &[Value],
    values: &[Value],
    store: &mut TermStore,
) -> Result<Value, JudgeError>
    requires arguments { AreValues store.old.trees arguments.now }
    requires values { AreValues store.old.trees values.now }
    requires places { All (λ i. i < length values.now) node.now.arguments }
    ensures ok { IfOk result (λ v. IsPut (trees_of (map (typed store.old.trees) arguments.now)) node.now.head (map (value_at values.now) node.now.arguments) store.old.trees store.new.trees v) }
    ensures memory { OnErr result (result ≡ Err JudgeError.Memory) }
    ensures longer { HasGrown store.old store.new }
{
    match node.head {
        Head::Place(parameter) => put_parameter(alloc, parameter, arguments, store),
        Head::Numeral(_) => put_other(alloc, node, values, store),
        Head::Theory(_) => put_other(alloc, node, values, store),
        Head::Symbol(_) => put_other(alloc, node, values, store),
    }
}

/// A term of a definition that is no parameter.
fn put_other(
    alloc: Global,
    node: &Node,
    values: &[Value],
    store: &mut TermStore,
) -> Result<Value, JudgeError>
    requires values { AreValues store.old.trees values.now }
    requires places { All (λ i. i < length values.now) node.now.arguments }
    ensures ok { IfOk result (λ v. IsNode node.now.head Sort.Bool (map (value_at values.now) node.now.arguments) store.old.trees store.new.trees v) }
    ensures memory { OnErr result (result ≡ Err JudgeError.Memory) }
    ensures longer { HasGrown store.old store.new }
{
    let parts = chosen(alloc, values, node.arguments.as_slice())?;
    stored(alloc, node.head, Sort::Bool, &parts, store)
}

/// The values of more terms of a definition with arguments put in, after those of the terms before them.
fn put_layer(
    alloc: Global,
    nodes: &[Node],
    arguments: &[Value],
    values: &mut Vec<Value>,
    store: &mut TermStore,
) -> Result<(), JudgeError>
    requires arguments { AreValues store.old.trees arguments.now }
    requires values { AreValues store.old.trees values.old.items }
    requires nodes { AreNodesAfter (length values.old.items) nodes.now }
    ensures ok { OnOk result ((ns : List NodeValue) (ts : List Tree) (xs : Trees) → xs ≡ trees_of (map (typed store.old.trees) arguments.now) → ArePut xs ts (terms_of ns) values.old.items store.old.trees → ArePut xs ts (terms_of (ns ++ nodes.now)) values.new.items store.new.trees) }
    ensures memory { OnErr result (result ≡ Err JudgeError.Memory) }
    ensures longer { HasGrown store.old store.new }
{
    for node in nodes {
        let value = put_node(alloc, node, arguments, values, store)?;
        values.push(value)?;
    }
    Ok(())
}

/// The values of all terms of a definition with arguments put in, in order.
fn put_all(
    alloc: Global,
    layers: &[Layer],
    arguments: &[Value],
    store: &mut TermStore,
) -> Result<Vec<Value>, JudgeError>
    requires arguments { AreValues store.old.trees arguments.now }
    requires nodes { AreNodes (joined layers.now) }
    ensures ok { IfOk result (λ v. ArePut (trees_of (map (typed store.old.trees) arguments.now)) store.old.trees (terms_of (joined layers.now)) v.items store.new.trees) }
    ensures memory { OnErr result (result ≡ Err JudgeError.Memory) }
    ensures longer { HasGrown store.old store.new }
{
    let mut values = Vec::new(alloc);
    for layer in layers {
        put_layer(alloc, layer.nodes(), arguments, &mut values, store)?;
    }
    Ok(values)
}

/// A definition with its arguments put in.
pub(crate) fn apply_definition(
    alloc: Global,
    rules: Rules,
    declaration: &Declaration,
    body: &Body,
    arguments: &[Value],
    table: &Table,
    store: &mut TermStore,
) -> Result<Value, JudgeError>
    requires values { AreValues store.old.trees arguments.now }
    requires defined { declaration.now.body ≡ Some body.now }
    ensures comes { Comes (judge_symbol (rules_of rules) declaration.now (trees_of (map (typed store.old.trees) arguments.now))) (scope_of table.now store.old.trees) store.new.trees result }
    ensures longer { HasGrown store.old store.new }
{
    let _ = table.ids();
    let values = put_all(alloc, body.terms().layers(), arguments, store)?;
    if !may_stand(rules, are_linear(&values)) {
        return Err(JudgeError::Refused(Refusal::NotLinear));
    }
    let value = values[body.place() as usize];
    Ok(Value {
        id: value.id,
        sort: declaration.rank().result,
        constant: value.constant,
        linear: value.linear,
    })
}
