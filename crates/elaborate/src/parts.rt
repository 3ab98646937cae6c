//! The body of a name that `:named` gives (SMT-LIB 2.6, section 5.2): a stored term with its parts, as terms of its own.
//!
//! Why: a name that a term gives keeps the term's parts as nodes of its own, copied without
//! recursion. Copying gives want of memory where a growth was refused, and where the parts are more
//! than 4,294,967,295.
ghost use Rattle.std.specs.Prelude.{◌≡◌, ◌<◌, ◌∷◌, [], List, All, length, map, nat_eq, ℕ, Some, IfOk, IsSome, OnOk, None};
ghost use Rattle.std.specs.HashMap.{get};
ghost use Rattle.std.specs.Map.{update};
ghost use Rattle.smt_meaning.specs.Term.{Tree, tree_at};
ghost use Rattle.smt_meaning.specs.TreeShape.{with_tree, with_parts};
ghost use Rattle.smt_meaning.specs.Sorts.{body_of};
ghost use Rattle.term_store.specs.Terms.{IsPlace};
ghost use Rattle.elaborate.specs.Parts.{job_place, outcome, jobs_left, visits_of, AreCopies, AreInOrder, HasArguments, HaveCopies};
ghost use Rattle.elaborate.specs.declared.parts.Job.TheVariants as Job;

use crate::bodies::nodes_from;
use crate::stack::Stack;
use smt_laws::parts_are_visited;
use smt_meaning::{Body, TermId, Terms};
use std::alloc::{AllocError, Global};
use std::collections::HashMap;
use term_store::TermStore;

/// What is still to do with a term of a store.
#[derive(Clone, Copy, Drop)]
enum Job {
    /// It is copied after its parts.
    Visit(TermId),
    /// It is copied, whose arguments are.
    Keep(TermId),
}

/// Where the copy of a term stands.
fn copy_of(copies: &HashMap<TermId, TermId>, term: TermId) -> Option<TermId>
    ensures { result ≡ get nat_eq copies.now term }
{
    match copies.get(&term) {
        Some(place) => Some(*place),
        None => None,
    }
}

/// Where the copies of these terms stand.
fn copied(
    alloc: Global,
    copies: &HashMap<TermId, TermId>,
    terms: &[TermId],
) -> Result<Vec<TermId>, AllocError>
    requires { All (λ i. IsSome (get nat_eq copies.now i)) terms.now }
    ensures { IfOk result (λ v. map Some v.items ≡ map (get nat_eq copies.now) terms.now) }
{
    let mut places = Vec::new(alloc);
    for term in terms {
        let Some(place) = copy_of(copies, *term) else {
            unreachable!()
        };
        places.push(place)?;
    }
    Ok(places)
}

/// Notes where the copy of a term stands.
fn note(copies: &mut HashMap<TermId, TermId>, term: TermId, place: TermId) -> Result<(), AllocError>
    ensures { OnOk result ((q : ℕ) → get nat_eq copies.new q ≡ update nat_eq (get nat_eq copies.old) term (Some place) q) }
{
    match copies.insert(term, place) {
        Ok(_) => Ok(()),
        Err(error) => Err(AllocError::from(error)),
    }
}

/// Copies a term whose arguments are copied.
fn keep(
    alloc: Global,
    store: &TermStore,
    id: TermId,
    copies: &mut HashMap<TermId, TermId>,
    parts: &mut TermStore,
) -> Result<(), AllocError>
    requires within { id < length store.now.trees }
    requires arguments { HasArguments (tree_at store.now.trees id) parts.old.trees }
    requires copies { AreCopies store.now.trees parts.old.trees (get nat_eq copies.old) }
    requires all { HaveCopies store.now.trees parts.old.trees (get nat_eq copies.old) }
    ensures trees { OnOk result (parts.new.trees ≡ with_tree parts.old.trees (tree_at store.now.trees id)) }
    ensures copies { OnOk result (AreCopies store.now.trees parts.new.trees (get nat_eq copies.new)) }
    ensures all { OnOk result (HaveCopies store.now.trees parts.new.trees (get nat_eq copies.new)) }
{
    let _ = store.len();
    let node = store.node(id);
    let arguments = copied(alloc, copies, node.arguments)?;
    let Ok(place) = parts.intern(node.head, &arguments) else {
        return Err(AllocError);
    };
    note(copies, id, place)
}

/// The terms are visited from left to right, before the other jobs.
fn push_visits(terms: &[TermId], jobs: &mut Stack<Job>) -> Result<(), AllocError>
    ensures { OnOk result (jobs.new ≡ visits_of terms.now jobs.old) }
{
    let mut left = terms.len();
    while left > 0 {
        left -= 1;
        jobs.push(Job::Visit(terms[left]))?;
    }
    Ok(())
}

/// A term is kept after its arguments are visited.
fn visit(store: &TermStore, id: TermId, jobs: &mut Stack<Job>) -> Result<(), AllocError>
    requires within { id < length store.now.trees }
    requires inside { All (λ j. job_place j < length store.now.trees) jobs.old }
    ensures same { OnOk result ((out : List Tree) → outcome store.now.trees jobs.new out ≡ outcome store.now.trees (Job.Visit id ∷ jobs.old) out) }
    ensures order { OnOk result ((out : List Tree) → AreInOrder store.now.trees (Job.Visit id ∷ jobs.old) out → AreInOrder store.now.trees jobs.new out) }
    ensures fewer { OnOk result (jobs_left store.now.trees jobs.new < jobs_left store.now.trees (Job.Visit id ∷ jobs.old)) }
    ensures inside { OnOk result (All (λ j. job_place j < length store.now.trees) jobs.new) }
{
    parts_are_visited();
    jobs.push(Job::Keep(id))?;
    push_visits(store.node(id).arguments, jobs)
}

/// Does one job.
fn step(
    alloc: Global,
    store: &TermStore,
    job: Job,
    jobs: &mut Stack<Job>,
    copies: &mut HashMap<TermId, TermId>,
    parts: &mut TermStore,
) -> Result<(), AllocError>
    requires within { job_place job < length store.now.trees }
    requires inside { All (λ j. job_place j < length store.now.trees) jobs.old }
    requires order { AreInOrder store.now.trees (job ∷ jobs.old) parts.old.trees }
    requires copies { AreCopies store.now.trees parts.old.trees (get nat_eq copies.old) }
    requires all { HaveCopies store.now.trees parts.old.trees (get nat_eq copies.old) }
    ensures same { OnOk result (outcome store.now.trees jobs.new parts.new.trees ≡ outcome store.now.trees (job ∷ jobs.old) parts.old.trees) }
    ensures inside { OnOk result (All (λ j. job_place j < length store.now.trees) jobs.new) }
    ensures order { OnOk result (AreInOrder store.now.trees jobs.new parts.new.trees) }
    ensures copies { OnOk result (AreCopies store.now.trees parts.new.trees (get nat_eq copies.new)) }
    ensures all { OnOk result (HaveCopies store.now.trees parts.new.trees (get nat_eq copies.new)) }
    ensures fewer { OnOk result (jobs_left store.now.trees jobs.new < jobs_left store.now.trees (job ∷ jobs.old)) }
{
    let _ = parts.len();
    match job {
        Job::Visit(id) => match copy_of(copies, id) {
            Some(_) => Ok(()),
            None => visit(store, id, jobs),
        },
        Job::Keep(id) => keep(alloc, store, id, copies, parts),
    }
}

/// Copies a term with its parts, in order, and says where its copy stands.
fn copy_parts(
    alloc: Global,
    store: &TermStore,
    id: TermId,
    copies: &mut HashMap<TermId, TermId>,
    parts: &mut TermStore,
) -> Result<TermId, AllocError>
    requires within { id < length store.now.trees }
    requires copies { (i : ℕ) → get nat_eq copies.old i ≡ None }
    requires none { parts.old.trees ≡ [] }
    ensures parts { OnOk result (parts.new.trees ≡ with_parts [] (tree_at store.now.trees id)) }
    ensures place { IfOk result (λ p. IsPlace parts.new.trees p (tree_at store.now.trees id)) }
{
    let mut jobs = Stack::new(alloc);
    jobs.push(Job::Visit(id))?;
    while let Some(job) = jobs.pop() {
        step(alloc, store, job, &mut jobs, copies, parts)?;
    }
    match copy_of(copies, id) {
        Some(place) => Ok(place),
        None => unreachable!(),
    }
}

/// The terms of a store.
fn terms(alloc: Global, store: &TermStore) -> Result<Terms, AllocError>
    ensures { IfOk result (λ ts. ts ≡ store.now.trees) }
{
    let nodes = nodes_from(alloc, store, 0)?;
    Terms::from_nodes(alloc, nodes)
}

/// A stored term as the body of a definition.
pub(crate) fn named_body(alloc: Global, store: &TermStore, id: TermId) -> Result<Body, AllocError>
    requires { id < length store.now.trees }
    ensures { IfOk result (λ b. b ≡ body_of (tree_at store.now.trees id)) }
{
    let mut copies = HashMap::new(alloc);
    let mut parts = TermStore::new(alloc, u32::MAX);
    let place = copy_parts(alloc, store, id, &mut copies, &mut parts)?;
    let terms = terms(alloc, &parts)?;
    Ok(Body::new(terms, place))
}
