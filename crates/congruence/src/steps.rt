//! The steps that a truth stands for.
ghost use Rattle.std.specs.Prelude.{◌≡◌, ◌+◌, ◌<◌, ◌^◌, ◌++◌, ◌∷◌, [], All, OnOk};
ghost use Rattle.congruence.specs.Steps.{equal_terms, different_terms, truth_step, pair_step, all_equal, pair_steps, equality_steps, node_steps, branch_step, choice_steps};

use point_closure::Step;
use smt_meaning::{Head, Operator, TermId};
use std::alloc::AllocError;

fn equal(left: TermId, right: TermId) -> Step
    requires left { left + 2 < 2 ^ 32 }
    requires right { right + 2 < 2 ^ 32 }
    ensures { result ≡ equal_terms left right }
{
    Step::Merge(left + 2, right + 2)
}

fn pair(left: TermId, right: TermId, same: bool) -> Step
    requires left { left + 2 < 2 ^ 32 }
    requires right { right + 2 < 2 ^ 32 }
    ensures { result ≡ pair_step left right same }
{
    if same {
        Step::Merge(left + 2, right + 2)
    } else {
        Step::Differ(left + 2, right + 2)
    }
}

/// Adds that a term has a truth value.
pub fn add_truth_step(steps: &mut Vec<Step>, term: TermId, value: bool) -> Result<(), AllocError>
    requires { term + 2 < 2 ^ 32 }
    ensures { OnOk result (steps.new.items ≡ steps.old.items ++ truth_step term value ∷ []) }
{
    steps.push(Step::Merge(term + 2, if value { 0 } else { 1 }))?;
    Ok(())
}

/// Adds that two terms are equal, or that they differ.
pub fn add_pair_step(
    steps: &mut Vec<Step>,
    left: TermId,
    right: TermId,
    same: bool,
) -> Result<(), AllocError>
    requires left { left + 2 < 2 ^ 32 }
    requires right { right + 2 < 2 ^ 32 }
    ensures { OnOk result (steps.new.items ≡ steps.old.items ++ pair_step left right same ∷ []) }
{
    steps.push(pair(left, right, same))?;
    Ok(())
}

/// Adds that each two neighbours are equal.
fn add_neighbours(steps: &mut Vec<Step>, terms: &[TermId]) -> Result<(), AllocError>
    requires { All (λ t. t + 2 < 2 ^ 32) terms.now }
    ensures { OnOk result (steps.new.items ≡ steps.old.items ++ all_equal terms.now) }
{
    if terms.is_empty() {
        return Ok(());
    }
    let mut last = terms[0];
    for k in 1..terms.len() {
        steps.push(equal(last, terms[k]))?;
        last = terms[k];
    }
    Ok(())
}

/// Adds that two terms are equal, or that they differ, and nothing of more.
fn add_two(steps: &mut Vec<Step>, terms: &[TermId], same: bool) -> Result<(), AllocError>
    requires { All (λ t. t + 2 < 2 ^ 32) terms.now }
    ensures { OnOk result (steps.new.items ≡ steps.old.items ++ pair_steps terms.now same) }
{
    if terms.len() == 2 {
        steps.push(pair(terms[0], terms[1], same))?;
    }
    Ok(())
}

fn add_equality_steps(
    steps: &mut Vec<Step>,
    terms: &[TermId],
    value: bool,
) -> Result<(), AllocError>
    requires { All (λ t. t + 2 < 2 ^ 32) terms.now }
    ensures { OnOk result (steps.new.items ≡ steps.old.items ++ equality_steps terms.now value) }
{
    if value {
        add_neighbours(steps, terms)
    } else {
        add_two(steps, terms, false)
    }
}

/// Adds what the truth of a term says of its arguments. An `Err` adds a part of it.
pub fn add_node_steps(
    steps: &mut Vec<Step>,
    head: Head,
    arguments: &[TermId],
    value: bool,
) -> Result<(), AllocError>
    requires { All (λ t. t + 2 < 2 ^ 32) arguments.now }
    ensures { OnOk result (steps.new.items ≡ steps.old.items ++ node_steps head arguments.now value) }
{
    match head {
        Head::Theory(Operator::Equal) => add_equality_steps(steps, arguments, value),
        Head::Theory(Operator::Distinct) => add_two(steps, arguments, !value),
        _ => Ok(()),
    }
}

/// Adds what the truth of a condition says of the term at a place, if that is a choice by it.
pub fn add_choice_steps(
    steps: &mut Vec<Step>,
    place: TermId,
    head: Head,
    arguments: &[TermId],
    condition: TermId,
    value: bool,
) -> Result<(), AllocError>
    requires place { place + 2 < 2 ^ 32 }
    requires arguments { All (λ t. t + 2 < 2 ^ 32) arguments.now }
    ensures { OnOk result (steps.new.items ≡ steps.old.items ++ choice_steps place head arguments.now condition value) }
{
    if head == Head::Theory(Operator::Ite) && arguments.len() == 3 && arguments[0] == condition {
        let branch = if value { arguments[1] } else { arguments[2] };
        steps.push(equal(place, branch))?;
    }
    Ok(())
}
