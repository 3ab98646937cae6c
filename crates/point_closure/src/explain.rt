//! Why two points are equal (Nieuwenhuis and Oliveras, 2007): the union that first put them into
//! one class, and then why each of them is equal to its end of it. What is still to be told stands
//! in a list of goals.
ghost use Rattle.std.specs.Prelude.{if◌then◌else◌, ◌≡◌, ◌≢◌, ◌<◌, ◌≤◌, ◌++◌, ◌∷◌, [], List, length, OnOk};
ghost use Rattle.point_closure.specs.declared.step.Step.{Step};
ghost use Rattle.point_closure.specs.Closure.{ArePoints};
ghost use Rattle.point_closure.specs.Unions.{root_of};
ghost use Rattle.point_closure.specs.Explained.{AlikeAreCongruent, StepsAreMerges, Explains};
ghost use Rattle.point_closure.specs.Explaining.{paired, Tells, goal_of};

use crate::classes::{Classes, Reason};
use crate::graph::Graph;
use crate::marks::Marks;
use std::alloc::{AllocError, Global};

/// Two points whose equality is to be explained.
#[derive(Clone, Copy, Drop)]
pub struct Goal {
    left: u32,
    right: u32,
}

/// Adds the goals of two lists of points, one by one.
fn push_arguments(goals: &mut Vec<Goal>, left: &[u32], right: &[u32]) -> Result<(), AllocError>
    requires { length left.now ≡ length right.now }
    ensures { OnOk result (goals.new.items ≡ goals.old.items ++ paired left.now right.now) }
{
    for i in 0..left.len() {
        goals.push(Goal {
            left: left[i],
            right: right[i],
        })?;
    }
    Ok(())
}

/// The goal's ends, the first one on the side of the class that was taken away.
fn sides(goal: Goal, turned: bool) -> Goal
    ensures { result ≡ (if turned then goal_of goal.right goal.left else goal) }
{
    if turned {
        Goal {
            left: goal.right,
            right: goal.left,
        }
    } else {
        goal
    }
}

/// Replaces a goal by those before the union that joined its classes.
fn tell(
    graph: &Graph,
    classes: &Classes,
    goal: Goal,
    goals: &mut Vec<Goal>,
    told: &mut Marks,
    steps: &mut Vec<u32>,
) -> Result<(), AllocError>
    requires points { length graph.now ≡ classes.now.count }
    requires alike { AlikeAreCongruent graph.now classes.now.unions }
    requires left_within { goal.left < classes.now.count }
    requires right_within { goal.right < classes.now.count }
    requires different { goal.left ≢ goal.right }
    requires same { root_of classes.now.unions goal.left ≡ root_of classes.now.unions goal.right }
    requires count { length classes.now.unions ≤ length told.old }
    ensures { OnOk result (Tells graph.now classes.now.unions goal goals.old.items goals.new.items told.old told.new steps.old.items steps.new.items) }
{
    let newest = classes.newest(goal.left, goal.right);
    let at = newest.union as usize;
    let union = classes.union_at(at);
    let ends = sides(goal, newest.turned);
    goals.push(Goal {
        left: ends.left,
        right: union.from,
    })?;
    goals.push(Goal {
        left: ends.right,
        right: union.to,
    })?;
    if told.is_set(at) {
        return Ok(());
    }
    told.set(at);
    match union.reason {
        Reason::Step(step) => steps.push(step)?,
        Reason::Alike => push_arguments(
            goals,
            graph.arguments(union.from),
            graph.arguments(union.to),
        )?,
    }
    Ok(())
}

/// The lists of an explanation, which are kept from one to the next.
#[derive(Drop)]
pub struct Explainer {
    /// The steps that were found last.
    pub steps: Vec<u32>,
    goals: Vec<Goal>,
    told: Marks,
}

impl Explainer {
    /// Nothing is explained yet. It takes no memory.
    pub fn new(alloc: Global) -> Self {
        Explainer {
            steps: Vec::new(alloc),
            goals: Vec::new(alloc),
            told: Marks::new(alloc),
        }
    }

    /// Finds the steps whose merges make two points of one class equal, in time that doesn't grow with the number of unions once there is room for them.
    /// An `Err` is for want of memory.
    pub fn explain(
        &mut self,
        graph: &Graph,
        classes: &Classes,
        left: u32,
        right: u32,
    ) -> Result<(), AllocError>
        requires points { length graph.now ≡ classes.now.count }
        requires earlier { ArePoints graph.now }
        requires alike { AlikeAreCongruent graph.now classes.now.unions }
        requires left_within { left < classes.now.count }
        requires right_within { right < classes.now.count }
        requires same { root_of classes.now.unions left ≡ root_of classes.now.unions right }
        ensures { OnOk result ((log : List Step) → StepsAreMerges log classes.now.unions → Explains graph.now log self.new.steps.items left right) }
    {
        self.steps.clear();
        self.goals.clear();
        self.told.clear(classes.unions())?;
        self.goals.push(Goal { left, right })?;
        'goals: while let Some(goal) = self.goals.pop() {
            if goal.left != goal.right {
                tell(
                    graph,
                    classes,
                    goal,
                    &mut self.goals,
                    &mut self.told,
                    &mut self.steps,
                )?;
            }
        }
        Ok(())
    }
}
