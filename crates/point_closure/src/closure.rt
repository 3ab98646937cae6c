//! Congruence closure: points that are merged, and whatever becomes equal by that.
//!
//! A point is a term as equality sees it: an application of a symbol to points, a truth value, or a
//! leaf. Merging two points makes them equal, and with them all applications of one symbol whose
//! arguments are equal, one by one (Nelson and Oppen, JACM 1980; Downey, Sethi and Tarjan, JACM
//! 1980). Classes are trees without shortcuts, the smaller joined to the larger, so that a union is
//! taken back by removing one edge, and a point finds its class in logarithmic time. Each edge
//! tells which two points were joined there, and why: a step that was recorded, or that they are
//! alike (Nieuwenhuis and Oliveras, 2007). That is what `explain` follows.
//!
//! Each application is filed under a hash of its signature, its symbol with the classes of its
//! arguments. A union changes only the signatures of points with an argument in the class that
//! goes; each class has a list of those (`uses`). So `unite` joins classes and lists, and files the
//! listed points anew: one whose signature is there already is pending with the points that have
//! it, else it is filed. `close` takes pending pairs, oldest first, until there are none. What is
//! filed stays where it is when a signature changes: a search looks at every point of its hash and
//! compares signatures as they now are.
//!
//! A step that keeps two points apart has them watched: the pair is listed with the classes of its
//! two points, and is met by the union that brings them together.
//!
//! Undoing. All of this grows at its end: unions, filed points, changes of lists, watched pairs,
//! met ones. A mark is the length of each; a step keeps the mark from before it, and `reset` cuts
//! back to one. So does a call that finds no memory half way, which then leaves all as it was.
//!
//! Why `same` is exact. No more is equal than should be: each union has a reason, a merged pair, or
//! two points with one symbol and arguments that were in one class already (`IsJustified`). No less
//! is: while pairs are pending (`Stands`), each merged pair and each two points of one signature
//! are in one class, or a pending pair ties them, or one of them still waits to be filed. Once
//! nothing is pending the classes respect all merges and all applications, so they are the closure.
//! A run of `close` ends, since each union leaves a class fewer.
//!
//! What a caller may rely on is said by `record`, `add` and `undo_to`, and by `same`, `met` and
//! `explain`. Points are added before the first step only, and stay.
ghost use Rattle.std.specs.Prelude.{◌≡◌, ◌+◌, ◌-◌, ◌<◌, ◌≤◌, [], ◌∷◌, ◌++◌, length, take, All, OnOk, OnErr, IsTrue, ◌↔◌, ◌^◌};

use crate::file::refile;
use crate::join::{join_all, take_back};
use crate::lists::Lists;
use crate::meet::watch_pair;
use crate::pending::{Mark, Pending};
use crate::points::add_point;
use crate::table::Table;
use crate::watch::Watch;
use crate::{Classes, Explainer, Graph, Reason, Shape, Step, Union, classes_are_the_closure};
use std::alloc::{AllocError, Global};

/// Points with what was recorded of them.
#[derive(Drop)]
pub struct Closure {
    pub graph: Graph,
    pub classes: Classes,
    /// Of each class's root, the number of its points.
    weights: Vec<u32>,
    /// For each class the points with an argument in it.
    uses: Lists,
    /// For each class the watched pairs with a point in it.
    watches: Lists,
    /// The pairs of the steps that keep points apart.
    pub pairs: Vec<Watch>,
    table: Table,
    pending: Vec<Pending>,
    pub steps: Vec<Step>,
    marks: Vec<Mark>,
    /// The watched pairs whose points were found in one class, oldest first.
    met: Vec<u32>,
}

impl Closure {
    ghost use Rattle.point_closure.specs.Unions.{IsUnion};
    ghost use Rattle.point_closure.specs.Lists.{list_of};
    ghost use Rattle.point_closure.specs.Sound.{IsJustified, IsPending};
    ghost use Rattle.point_closure.specs.Rest.{Begins};
    ghost use Rattle.point_closure.specs.State.{Stands, IsAtRest};
    ghost use Rattle.point_closure.specs.Whole.{IsClosure, IsWhole, Keeps, IsUnited, state_of};

    /// No point, no step. It takes no memory.
    pub fn new(alloc: Global) -> Self
        ensures whole { IsWhole result }
        ensures points { result.graph ≡ [] }
        ensures steps { result.steps.items ≡ [] }
    {
        Closure {
            graph: Graph::new(alloc),
            classes: Classes::new(alloc),
            weights: Vec::new(alloc),
            uses: Lists::new(alloc),
            watches: Lists::new(alloc),
            pairs: Vec::new(alloc),
            table: Table::new(alloc),
            pending: Vec::new(alloc),
            steps: Vec::new(alloc),
            marks: Vec::new(alloc),
            met: Vec::new(alloc),
        }
    }

    // ---- classes are joined

    /// Files the points with an argument in a class that went anew.
    fn refile(&mut self, gone: u32) -> Result<(), AllocError>
        requires whole { IsClosure self.old }
        requires within { gone < length self.old.graph }
        requires stands { Stands self.old.graph self.old.steps.items (state_of self.old) self.old.pending.items (list_of self.old.uses.changes gone) 0 }
        ensures whole { IsClosure self.new }
        ensures keeps { Keeps self.old self.new }
        ensures pending { Begins self.old.pending.items self.new.pending.items }
        ensures classes { self.new.classes ≡ self.old.classes }
        ensures stands { OnOk result (Stands self.new.graph self.new.steps.items (state_of self.new) self.new.pending.items [] 0) }
    {
        refile(
            &self.graph,
            &self.classes,
            &mut self.table,
            &mut self.pending,
            self.uses.list(gone),
        )
    }

    /// Joins two classes and their lists, and files anew the points with an argument in the one that goes.
    fn unite(&mut self, union: Union) -> Result<(), AllocError>
        requires whole { IsClosure self.old }
        requires stands { Stands self.old.graph self.old.steps.items (state_of self.old) self.old.pending.items [] 0 }
        requires union { IsUnion self.old.classes.count self.old.classes.unions union }
        requires justified { IsJustified self.old.graph self.old.classes.unions self.old.steps.items union }
        ensures whole { IsClosure self.new }
        ensures keeps { Keeps self.old self.new }
        ensures pending { Begins self.old.pending.items self.new.pending.items }
        ensures unions { OnOk result (self.new.classes.unions ≡ self.old.classes.unions ++ union ∷ []) }
        ensures stands { OnOk result (Stands self.new.graph self.new.steps.items (state_of self.new) self.new.pending.items [] 0) }
    {
        join_all(
            &mut self.classes,
            &mut self.uses,
            &mut self.watches,
            &mut self.weights,
            &self.pairs,
            &mut self.met,
            union,
        )?;
        self.refile(union.gone)
    }

    /// Joins the classes of a pending pair.
    fn take(&mut self, next: Pending) -> Result<(), AllocError>
        requires whole { IsClosure self.old }
        requires stands { Stands self.old.graph self.old.steps.items (state_of self.old) self.old.pending.items [] 0 }
        requires pending { IsPending self.old.graph self.old.classes.unions self.old.steps.items next }
        ensures whole { IsClosure self.new }
        ensures keeps { Keeps self.old self.new }
        ensures pending { Begins self.old.pending.items self.new.pending.items }
        ensures united { OnOk result (IsUnited self.old self.new next.left next.right) }
        ensures stands { OnOk result (Stands self.new.graph self.new.steps.items (state_of self.new) self.new.pending.items [] 0) }
    {
        let left = self.classes.class_of(next.left);
        let right = self.classes.class_of(next.right);
        if left == right {
            return Ok(());
        }
        if self.weights[left as usize] <= self.weights[right as usize] {
            self.unite(Union {
                gone: left,
                kept: right,
                from: next.left,
                to: next.right,
                reason: next.reason,
            })
        } else {
            self.unite(Union {
                gone: right,
                kept: left,
                from: next.right,
                to: next.left,
                reason: next.reason,
            })
        }
    }

    /// Joins classes until no pair is pending.
    fn close(&mut self) -> Result<(), AllocError>
        requires whole { IsClosure self.old }
        requires stands { Stands self.old.graph self.old.steps.items (state_of self.old) self.old.pending.items [] 0 }
        ensures whole { IsClosure self.new }
        ensures keeps { Keeps self.old self.new }
        ensures rest { OnOk result (IsAtRest self.new.graph self.new.steps.items (state_of self.new)) }
    {
        let mut head = 0;
        'pairs: while head < self.pending.len() {
            let next = self.pending[head];
            self.take(next)?;
            let _few = self.classes.unions();
            head += 1;
        }
        Ok(())
    }
}

impl Closure {
    ghost use Rattle.point_closure.specs.Unions.{AreUnions};
    ghost use Rattle.point_closure.specs.State.{Stands, IsAtRest, Grows, IsFull, cut};
    ghost use Rattle.point_closure.specs.Whole.{IsSized, AreParts, IsClosure, IsWhole, Keeps, state_of};

    // ---- back to a mark

    /// The mark of all that is there.
    fn mark(&self) -> Mark
        ensures { IsFull result (state_of self.now) }
    {
        Mark {
            unions: self.classes.unions(),
            filed: self.table.len(),
            uses: self.uses.changes(),
            watches: self.watches.changes(),
            pairs: self.pairs.len(),
            met: self.met.len(),
        }
    }

    /// Takes all back to a mark, and all points but the first.
    fn reset(&mut self, mark: Mark, count: usize)
        requires sized { IsSized self.old }
        requires within { count ≤ length self.old.graph }
        requires parts { AreParts (take count self.old.graph) self.old.steps.items (cut mark (state_of self.old)) self.old.marks.items }
        requires rest { IsAtRest (take count self.old.graph) self.old.steps.items (cut mark (state_of self.old)) }
        requires alone { AreUnions count (take mark.unions self.old.classes.unions) }
        ensures whole { IsWhole self.new }
        ensures graph { self.new.graph ≡ take count self.old.graph }
        ensures steps { self.new.steps.items ≡ self.old.steps.items }
        ensures marks { self.new.marks.items ≡ self.old.marks.items }
    {
        self.pending.clear();
        take_back(
            &mut self.classes,
            &mut self.weights,
            &mut self.uses,
            &mut self.watches,
            &mut self.table,
            &mut self.pairs,
            &mut self.met,
            mark,
        );
        self.graph.shorten(count);
        self.classes.shorten(count);
    }

    // ---- points

    /// Adds a point that waits to be filed. An `Err` changes nothing.
    fn add_waiting(&mut self, shape: Shape, arguments: &[u32]) -> Result<(), AllocError>
        requires whole { IsWhole self.old }
        requires first { self.old.steps.items ≡ [] }
        requires earlier { All (λ i. i < length self.old.graph) arguments.now }
        requires few { length self.old.graph < 2 ^ 32 - 1 }
        ensures closure { IsClosure self.new }
        ensures steps { self.new.steps.items ≡ self.old.steps.items }
        ensures marks { self.new.marks.items ≡ self.old.marks.items }
        ensures grows { Grows (state_of self.old) (state_of self.new) }
        ensures ok { OnOk result (self.new.graph ≡ self.old.graph ++ record { shape = shape; arguments = arguments.now } ∷ []) }
        ensures stands { OnOk result (Stands self.new.graph self.new.steps.items (state_of self.new) self.new.pending.items (length self.old.graph ∷ []) 0) }
        ensures err { OnErr result (self.new.graph ≡ self.old.graph) }
        ensures whole { OnErr result (IsWhole self.new) }
    {
        add_point(
            &mut self.graph,
            &mut self.classes,
            &mut self.weights,
            &mut self.uses,
            &mut self.watches,
            shape,
            arguments,
        )?;
        Ok(())
    }

    /// Files points that wait.
    fn file(&mut self, points: &[u32]) -> Result<(), AllocError>
        requires whole { IsClosure self.old }
        requires within { All (λ i. i < length self.old.graph) points.now }
        requires stands { Stands self.old.graph self.old.steps.items (state_of self.old) self.old.pending.items points.now 0 }
        ensures whole { IsClosure self.new }
        ensures keeps { Keeps self.old self.new }
        ensures stands { OnOk result (Stands self.new.graph self.new.steps.items (state_of self.new) self.new.pending.items [] 0) }
    {
        refile(
            &self.graph,
            &self.classes,
            &mut self.table,
            &mut self.pending,
            points,
        )
    }

    /// Files a point that waits, and joins what that makes equal.
    fn settle(&mut self, point: u32) -> Result<(), AllocError>
        requires whole { IsClosure self.old }
        requires within { point < length self.old.graph }
        requires stands { Stands self.old.graph self.old.steps.items (state_of self.old) self.old.pending.items (point ∷ []) 0 }
        ensures whole { IsClosure self.new }
        ensures keeps { Keeps self.old self.new }
        ensures rest { OnOk result (IsAtRest self.new.graph self.new.steps.items (state_of self.new)) }
    {
        self.file(&[point])?;
        self.close()
    }

    /// Adds a point. It has no step yet. An `Err` changes nothing.
    pub fn add(&mut self, shape: Shape, arguments: &[u32]) -> Result<(), AllocError>
        requires whole { IsWhole self.old }
        requires first { self.old.steps.items ≡ [] }
        requires earlier { All (λ i. i < length self.old.graph) arguments.now }
        ensures whole { IsWhole self.new }
        ensures steps { self.new.steps.items ≡ [] }
        ensures ok { OnOk result (self.new.graph ≡ self.old.graph ++ record { shape = shape; arguments = arguments.now } ∷ []) }
        ensures err { OnErr result (self.new.graph ≡ self.old.graph) }
    {
        let count = self.graph.len();
        if count >= 0xffff_fff0 {
            return Err(AllocError);
        }
        let mark = self.mark();
        let _each = self.classes.unions();
        self.add_waiting(shape, arguments)?;
        if self.settle(count as u32).is_err() {
            self.reset(mark, count);
            return Err(AllocError);
        }
        Ok(())
    }
}

impl Closure {
    ghost use Rattle.point_closure.specs.Sound.{IsPending};
    ghost use Rattle.point_closure.specs.State.{Watches};
    ghost use Rattle.point_closure.specs.Whole.{IsClosure, IsWhole, Keeps, state_of};

    // ---- watched pairs

    /// Watches the pair of a step.
    fn add_watch(&mut self, watch: Watch) -> Result<(), AllocError>
        requires whole { IsClosure self.old }
        requires left { watch.left < length self.old.graph }
        requires right { watch.right < length self.old.graph }
        ensures whole { IsClosure self.new }
        ensures keeps { Keeps self.old self.new }
        ensures watches { OnOk result (Watches (state_of self.old) (state_of self.new) watch) }
    {
        watch_pair(
            &self.classes,
            &mut self.watches,
            &mut self.pairs,
            &mut self.met,
            watch,
        )
    }

    // ---- steps

    /// Adds a step, with a mark of what stands before it. An `Err` changes nothing.
    fn push_step(&mut self, step: Step) -> Result<(), AllocError>
        requires whole { IsWhole self.old }
        ensures closure { IsClosure self.new }
        ensures graph { self.new.graph ≡ self.old.graph }
        ensures state { state_of self.new ≡ state_of self.old }
        ensures ok { OnOk result (self.new.steps.items ≡ self.old.steps.items ++ step ∷ []) }
        ensures whole { OnErr result (IsWhole self.new) }
        ensures err { OnErr result (self.new.steps.items ≡ self.old.steps.items) }
    {
        let mark = self.mark();
        push_both(&mut self.steps, &mut self.marks, step, mark)?;
        Ok(())
    }

    /// Makes this pair the only one that is pending.
    fn start(&mut self, pending: Pending) -> Result<(), AllocError>
        requires whole { IsClosure self.old }
        requires pending { IsPending self.old.graph self.old.classes.unions self.old.steps.items pending }
        ensures whole { IsClosure self.new }
        ensures keeps { Keeps self.old self.new }
        ensures state { state_of self.new ≡ state_of self.old }
        ensures ok { OnOk result (self.new.pending.items ≡ pending ∷ []) }
    {
        self.pending.clear();
        self.pending.push(pending)?;
        Ok(())
    }
}

impl Closure {
    ghost use Rattle.point_closure.specs.Closure.{Equal};
    ghost use Rattle.point_closure.specs.Unions.{root_of};
    ghost use Rattle.point_closure.specs.Explained.{Explains, merged};
    ghost use Rattle.point_closure.specs.State.{IsAtRest};
    ghost use Rattle.point_closure.specs.Whole.{IsClosure, IsWhole, Keeps, IsLast, IsWithin, AreEqualPairs, state_of};

    /// Does what the last step says.
    fn apply(&mut self, step: Step, index: u32) -> Result<(), AllocError>
        requires whole { IsClosure self.old }
        requires last { IsLast self.old.steps.items index step }
        requires within { IsWithin (length self.old.graph) step }
        requires rest { IsAtRest self.old.graph (take index self.old.steps.items) (state_of self.old) }
        ensures whole { IsClosure self.new }
        ensures keeps { Keeps self.old self.new }
        ensures rest { OnOk result (IsAtRest self.new.graph self.new.steps.items (state_of self.new)) }
    {
        match step {
            Step::Merge(left, right) => {
                self.start(Pending {
                    left,
                    right,
                    reason: Reason::Step(index),
                })?;
                self.close()
            }
            Step::Differ(left, right) => self.add_watch(Watch {
                left,
                right,
                step: index,
            }),
        }
    }

    /// Takes back all steps but the first.
    fn back_to(&mut self, depth: usize)
        requires whole { IsClosure self.old }
        requires depth { depth < length self.old.steps.items }
        ensures whole { IsWhole self.new }
        ensures graph { self.new.graph ≡ self.old.graph }
        ensures steps { self.new.steps.items ≡ take depth self.old.steps.items }
    {
        let mark = self.marks[depth];
        let count = self.graph.len();
        let _each = self.classes.unions();
        self.steps.truncate(depth);
        self.marks.truncate(depth);
        self.reset(mark, count);
    }

    /// Records a step. An `Err` changes nothing.
    pub fn record(&mut self, step: Step) -> Result<(), AllocError>
        requires whole { IsWhole self.old }
        requires within { IsWithin (length self.old.graph) step }
        ensures whole { IsWhole self.new }
        ensures graph { self.new.graph ≡ self.old.graph }
        ensures ok { OnOk result (self.new.steps.items ≡ self.old.steps.items ++ step ∷ []) }
        ensures err { OnErr result (self.new.steps.items ≡ self.old.steps.items) }
    {
        let depth = self.steps.len();
        if depth > 0xffff_fff0 {
            return Err(AllocError);
        }
        self.push_step(step)?;
        if self.apply(step, depth as u32).is_err() {
            self.back_to(depth);
            return Err(AllocError);
        }
        Ok(())
    }

    /// Takes back all steps but the first.
    pub fn undo_to(&mut self, depth: usize)
        requires whole { IsWhole self.old }
        ensures whole { IsWhole self.new }
        ensures graph { self.new.graph ≡ self.old.graph }
        ensures steps { self.new.steps.items ≡ take depth self.old.steps.items }
    {
        if depth < self.steps.len() {
            self.back_to(depth);
        }
    }

    // ---- what follows

    /// The number of points.
    pub fn len(&self) -> usize
        ensures { result ≡ length self.now.graph }
    {
        self.graph.len()
    }

    /// Whether the merges make two points equal.
    pub fn same(&self, left: u32, right: u32) -> bool
        requires whole { IsWhole self.now }
        requires left_within { left < length self.now.graph }
        requires right_within { right < length self.now.graph }
        ensures { IsTrue result ↔ Equal self.now.graph (merged self.now.steps.items) left right }
    {
        let _each = self.classes.unions();
        classes_are_the_closure();
        self.classes.class_of(left) == self.classes.class_of(right)
    }

    /// Finds the steps whose merges make two equal points equal. An `Err` is for want of memory.
    pub fn explain(
        &self,
        explainer: &mut Explainer,
        left: u32,
        right: u32,
    ) -> Result<(), AllocError>
        requires whole { IsWhole self.now }
        requires left_within { left < length self.now.graph }
        requires right_within { right < length self.now.graph }
        requires equal { Equal self.now.graph (merged self.now.steps.items) left right }
        ensures { OnOk result (Explains self.now.graph self.now.steps.items explainer.new.steps.items left right) }
    {
        let _earlier = self.graph.len();
        let _each = self.classes.unions();
        classes_are_the_closure();
        explainer.explain(&self.graph, &self.classes, left, right)
    }

    /// A point that stands for its class: equal points have the same.
    pub fn class_of(&self, point: u32) -> u32
        requires whole { IsWhole self.now }
        requires within { point < length self.now.graph }
        ensures within { result < length self.now.graph }
        ensures value { result ≡ root_of self.now.classes.unions point }
    {
        self.classes.class_of(point)
    }

    /// The numbers of the watched pairs whose points are equal, oldest first.
    pub fn met(&self) -> &[u32]
        requires whole { IsWhole self.now }
        ensures { AreEqualPairs self.now.graph self.now.steps.items self.now.pairs.items result.now }
    {
        let _each = self.classes.unions();
        classes_are_the_closure();
        self.met.as_slice()
    }
}

/// Adds a step and its mark. An `Err` changes nothing.
fn push_both(
    steps: &mut Vec<Step>,
    marks: &mut Vec<Mark>,
    step: Step,
    mark: Mark,
) -> Result<(), AllocError>
    ensures ok { OnOk result ((steps.new.items ≡ steps.old.items ++ step ∷ []) × (marks.new.items ≡ marks.old.items ++ mark ∷ [])) }
    ensures err { OnErr result ((steps.new.items ≡ steps.old.items) × (marks.new.items ≡ marks.old.items)) }
{
    let count = marks.len();
    marks.push(mark)?;
    if steps.push(step).is_err() {
        marks.truncate(count);
        return Err(AllocError);
    }
    Ok(())
}
