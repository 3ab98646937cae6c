//! The terms of a proof as they are kept.
ghost use Rattle.std.specs.Prelude.{◌≡◌, ◌<◌, ◌++◌, ◌∷◌, ◌↔◌, ◌⊎◌, ◌^◌, [], true, false, length, take, map, All, IsTrue, IfSome, IfNone, IfOk, OnOk, OnErr, List, Ok, Err};
ghost use Rattle.smt_meaning.specs.Stack.{signature_of};
ghost use Rattle.smt_meaning.specs.Declaration.{Declaration};
ghost use Rattle.smt_meaning.specs.Nodes.{trees_of};
ghost use Rattle.proof_meaning.specs.Proof.{IsTerm};
ghost use Rattle.term_store.specs.Terms.{tree_with, AreComplete};
ghost use Rattle.proof_terms.specs.TermFacts.{facts_at, places_at};
ghost use Rattle.proof_terms.specs.TermTable.{MayBeTerm, IsNoTerm, IsInterned, IsEntered};

use crate::terms_divisions::divides;
use crate::terms_facts::{Fact, is_constant, judge};
use crate::terms_held::held_place;
use crate::terms_nodes::WrittenNodes;
use linear_forms::LinearForms;
use scope_stack::Stack;
use smt_meaning::{Head, Sort, TermId};
use std::alloc::{AllocError, Global};
use term_store::TermStore;

/// The most terms that there may be.
const MOST: usize = 4294967295;

/// Different trees, and what is kept of each.
#[derive(Drop)]
pub(crate) struct Distinct {
    pub(crate) store: TermStore,
    pub(crate) facts: Vec<Fact>,
}

/// What is known of the arguments of a term while it is added.
#[derive(Drop)]
pub(crate) struct Arguments {
    /// The places of their trees.
    pub(crate) places: Vec<TermId>,
    pub(crate) facts: Vec<Fact>,
}

/// The nodes of terms, the place of each one's tree, and the different trees; beside them the terms of the stack.
#[derive(Drop)]
pub(crate) struct TermTable {
    pub(crate) nodes: WrittenNodes,
    pub(crate) places: Vec<TermId>,
    pub(crate) distinct: Distinct,
    pub(crate) held: TermStore,
    pub(crate) forms: LinearForms,
    pub(crate) arguments: Arguments,
    /// The places of the arguments of a term among the stack's terms.
    pub(crate) held_arguments: Vec<TermId>,
}

fn are_below(arguments: &[TermId], count: usize) -> bool
    ensures { IsTrue result ↔ All (λ i. i < count) arguments.now }
{
    arguments
        .iter()
        .all(|argument| (*argument as usize) < count)
}

/// Notes the places of the trees of these terms, and what is kept of them.
pub(crate) fn gather(
    places: &[TermId],
    facts: &[Fact],
    terms: &[TermId],
    arguments: &mut Arguments,
) -> Result<(), AllocError>
    requires inside { All (λ i. i < length places.now) terms.now }
    requires placed { All (λ p. p < length facts.now) places.now }
    ensures places { OnOk result (arguments.new.places.items ≡ places_at places.now terms.now) }
    ensures facts { OnOk result (arguments.new.facts.items ≡ facts_at facts.now (places_at places.now terms.now)) }
{
    arguments.places.clear();
    arguments.facts.clear();
    for term in terms {
        let place = places[*term as usize];
        arguments.places.push(place)?;
        arguments.facts.push(facts[place as usize])?;
    }
    Ok(())
}

/// The sort of a term that an assertion may have, by what was gathered of its arguments.
fn judge_gathered(
    stack: &Stack,
    store: &TermStore,
    head: Head,
    arguments: &Arguments,
) -> Option<Sort>
    requires { All (λ p. p < length store.now.trees) arguments.now.places.items }
    ensures some { IfSome result (λ s. MayBeTerm (signature_of stack.now.frames) store.now.trees head arguments.now.places.items arguments.now.facts.items s) }
    ensures none { IfNone result (IsNoTerm (signature_of stack.now.frames) store.now.trees head arguments.now.places.items arguments.now.facts.items) }
{
    if divides(store, head, &arguments.places) {
        judge(stack, head, &arguments.facts)
    } else {
        None
    }
}

/// Takes the trees from this place on away.
fn forget(distinct: &mut Distinct, len: u32)
    ensures store { distinct.new.store ≡ record { limit = distinct.old.store.limit; trees = take len distinct.old.store.trees } }
    ensures facts { distinct.new.facts.items ≡ take len distinct.old.facts.items }
{
    distinct.store.cut(len);
    distinct.facts.truncate(len as usize);
}

/// The place of a tree, which joins the others with its fact unless it was there. An `Err` changes nothing.
fn intern(
    distinct: &mut Distinct,
    head: Head,
    arguments: &[TermId],
    fact: Fact,
) -> Result<TermId, AllocError>
    requires below { All (λ p. p < length distinct.old.store.trees) arguments.now }
    requires count { length distinct.old.facts.items ≡ length distinct.old.store.trees }
    ensures ok { IfOk result (λ p. IsInterned distinct.old.store.trees distinct.old.facts.items distinct.new.store.trees distinct.new.facts.items (tree_with distinct.old.store.trees head arguments.now) fact p) }
    ensures err { OnErr result ((distinct.new.store ≡ distinct.old.store) × (distinct.new.facts.items ≡ distinct.old.facts.items)) }
{
    let count = distinct.store.len();
    let place = match distinct.store.intern(head, arguments) {
        Ok(place) => place,
        Err(_) => return Err(AllocError),
    };
    if place < count {
        return Ok(place);
    }
    if distinct.facts.push(fact).is_err() {
        distinct.store.cut(count);
        return Err(AllocError);
    }
    Ok(place)
}

/// Adds a node and the place of its tree. An `Err` changes nothing.
fn add_node(
    nodes: &mut WrittenNodes,
    places: &mut Vec<TermId>,
    head: Head,
    arguments: &[TermId],
    place: TermId,
) -> Result<(), AllocError>
    ensures ok { OnOk result ((nodes.new ≡ nodes.old ++ record { head = head; arguments = arguments.now } ∷ []) × (places.new.items ≡ places.old.items ++ place ∷ [])) }
    ensures err { OnErr result ((nodes.new ≡ nodes.old) × (places.new.items ≡ places.old.items)) }
{
    let count = places.len();
    places.push(place)?;
    if nodes.push(head, arguments).is_err() {
        places.truncate(count);
        return Err(AllocError);
    }
    Ok(())
}

/// Adds a term with its tree, whose arguments have these places. An `Err` changes nothing.
fn enter(
    nodes: &mut WrittenNodes,
    places: &mut Vec<TermId>,
    distinct: &mut Distinct,
    head: Head,
    arguments: &[TermId],
    seen: &[TermId],
    fact: Fact,
) -> Result<(), AllocError>
    requires below { All (λ p. p < length distinct.old.store.trees) seen.now }
    requires count { length distinct.old.facts.items ≡ length distinct.old.store.trees }
    ensures ok { OnOk result (IsEntered nodes.old places.old.items distinct.old.store.trees distinct.old.facts.items head arguments.now seen.now fact nodes.new places.new.items distinct.new.store.trees distinct.new.facts.items) }
    ensures err { OnErr result ((nodes.new ≡ nodes.old) × (places.new.items ≡ places.old.items) × (distinct.new.store.trees ≡ distinct.old.store.trees) × (distinct.new.facts.items ≡ distinct.old.facts.items)) }
{
    let count = distinct.store.len();
    let place = intern(distinct, head, seen, fact)?;
    if add_node(nodes, places, head, arguments, place).is_err() {
        forget(distinct, count);
        return Err(AllocError);
    }
    Ok(())
}

impl TermTable {
    ghost use Rattle.std.specs.Prelude.{◌≡◌, ◌<◌, ◌++◌, ◌∷◌, [], length, slice_index, List, All, OnOk, OnErr, Ok};
    ghost use Rattle.proof_terms.specs.TermFacts.{fact_at};
    ghost use Rattle.smt_meaning.specs.Declaration.{Declaration};
    ghost use Rattle.smt_meaning.specs.Term.{Tree};
    ghost use Rattle.smt_meaning.specs.Stack.{signature_of};
    ghost use Rattle.smt_meaning.specs.Nodes.{trees_of};
    ghost use Rattle.proof_meaning.specs.Proof.{IsTerm};
    ghost use Rattle.proof_terms.specs.TermTable.{IsTable, CanEnter, MayEnter};

    /// No term, beside those of a stack. It takes no memory.
    pub(crate) fn new(alloc: Global, held: TermStore) -> Self
        ensures none { result.nodes ≡ [] }
        ensures table { (ds : List Declaration) → IsTable ds held.trees result }
    {
        let _ = held.len();
        TermTable {
            nodes: WrittenNodes::new(alloc),
            places: Vec::new(alloc),
            distinct: Distinct {
                store: TermStore::new(alloc, u32::MAX),
                facts: Vec::new(alloc),
            },
            held,
            forms: LinearForms::new(alloc),
            arguments: Arguments {
                places: Vec::new(alloc),
                facts: Vec::new(alloc),
            },
            held_arguments: Vec::new(alloc),
        }
    }

    /// Adds a term of this sort, by what was gathered of its arguments. An `Err`, for want of memory, keeps the terms.
    fn enter(&mut self, head: Head, arguments: &[TermId], sort: Sort) -> Result<(), AllocError>
        requires { MayEnter self.old head arguments.now sort }
        ensures table { (ds : List Declaration) (hs : List Tree) → CanEnter ds hs self.old head arguments.now sort → IsTable ds hs self.new }
        ensures ok { OnOk result (self.new.nodes ≡ self.old.nodes ++ record { head = head; arguments = arguments.now } ∷ []) }
        ensures err { OnErr result (self.new.nodes ≡ self.old.nodes) }
    {
        let held = held_place(
            &mut self.held,
            head,
            &self.arguments.facts,
            &mut self.held_arguments,
        )?;
        let fact = Fact {
            sort,
            constant: is_constant(head, &self.arguments.facts),
            first: self.places.len() as u32,
            held,
        };
        enter(
            &mut self.nodes,
            &mut self.places,
            &mut self.distinct,
            head,
            arguments,
            &self.arguments.places,
            fact,
        )
    }

    /// Adds a term, if it is one that an assertion may have. An `Err`, for want of memory as where 2^32 - 1 terms are there, keeps the terms.
    pub(crate) fn add(
        &mut self,
        stack: &Stack,
        head: Head,
        arguments: &[TermId],
    ) -> Result<bool, AllocError>
        requires { IsTable (signature_of stack.now.frames) stack.now.trees self.old }
        ensures table { IsTable (signature_of stack.now.frames) stack.now.trees self.new }
        ensures term { result ≡ Ok true → IsTerm (signature_of stack.now.frames) (trees_of self.old.nodes) (record { head = head; arguments = arguments.now }) × (self.new.nodes ≡ self.old.nodes ++ record { head = head; arguments = arguments.now } ∷ []) }
        ensures other { result ≡ Ok false → (IsTerm (signature_of stack.now.frames) (trees_of self.old.nodes) (record { head = head; arguments = arguments.now }) → ⊥) × (self.new.nodes ≡ self.old.nodes) }
        ensures err { OnErr result (self.new.nodes ≡ self.old.nodes) }
    {
        let count = self.places.len();
        if count >= MOST {
            return Err(AllocError);
        }
        if !are_below(arguments, count) {
            return Ok(false);
        }
        gather(
            &self.places,
            &self.distinct.facts,
            arguments,
            &mut self.arguments,
        )?;
        match judge_gathered(stack, &self.distinct.store, head, &self.arguments) {
            Some(sort) => {
                self.enter(head, arguments, sort)?;
                Ok(true)
            }
            None => Ok(false),
        }
    }

    /// What is kept of the tree of a term.
    pub(crate) fn fact(&self, place: TermId) -> Fact
        requires place { place < length self.now.places.items }
        requires placed { All (λ p. p < length self.now.distinct.facts.items) self.now.places.items }
        ensures { result ≡ fact_at self.now.distinct.facts.items (slice_index self.now.places.items place) }
    {
        let at = self.places[place as usize];
        self.distinct.facts[at as usize]
    }
}
