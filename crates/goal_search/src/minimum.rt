//! The least value of a term: bounds on it are asked for, one below the other, until nothing is below the last model's value.
ghost use Rattle.std.specs.Prelude.{◌≡◌, ◌<◌, ◌≤◌, IfOk};
ghost use Rattle.smt_meaning.specs.Term.{tree_at};
ghost use Rattle.goal_search.specs.Goals.{IsGoal, IsLeast};

use crate::descent::descend;
use crate::point::{Step, seek};
use crate::text::Ask;
use scope_stack::ScopeStack;
use smt_meaning::{Best, Inner, Interp, Settings, TermId};
use std::alloc::{AllocError, Global};
use theory_port::Decider;

/// What is known of the least value of a term.
#[derive(Drop)]
pub enum LeastValue {
    /// The value, and a model in which the term has it.
    Minimum(i128, Interp),
    /// There is no model.
    Unsat,
    /// The least value isn't found.
    Unknown(Best),
}

/// What is found of the least value, and in how many checks.
#[derive(Drop)]
pub struct Found {
    pub value: LeastValue,
    pub checks: u16,
}

/// The least value of a term in the models of a stack, which stays as it is. An `Err` is for want of memory.
pub fn least<D: Decider>(
    alloc: Global,
    stack: &mut ScopeStack,
    text: &Inner,
    term: TermId,
    settings: &Settings,
    decider: &mut D,
) -> Result<Found, AllocError>
    requires may { D.may decider.old }
    requires workers { 0 < settings.now.workers }
    requires goal { IsGoal stack.old text.now term }
    ensures still { D.may decider.new }
    ensures stays { stack.new ≡ stack.old }
    ensures least { IfOk result (λ f. IsLeast settings.now.workers stack.old.trees stack.old.frames settings.now.units text.now (tree_at stack.old.trees term) f.value) }
    ensures checks { IfOk result (λ f. f.checks ≤ 300) }
{
    let step = seek(alloc, stack, text, term, Ask::Itself, settings, decider)?;
    match step {
        Step::Lower(point) => {
            let found = descend(alloc, stack, text, term, settings, decider, point)?;
            Ok(Found {
                value: found.value,
                checks: found.checks + 1,
            })
        }
        Step::Nothing => Ok(Found {
            value: LeastValue::Unsat,
            checks: 1,
        }),
        Step::Unknown(reports) => Ok(Found {
            value: LeastValue::Unknown(Best {
                model: None,
                bound: None,
                reports,
            }),
            checks: 1,
        }),
    }
}
