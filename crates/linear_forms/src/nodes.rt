//! The form of a node from those of its arguments.
ghost use Rattle.std.specs.Prelude.{◌≡◌, ◌<◌, ◌≤◌, [], length, true, false, All, OnOk, IfOk};
ghost use Rattle.smt_meaning.specs.Linear.{sum_fits, head_folding_fits, folded, folded_fits, form_product, number_form};
ghost use Rattle.linear_forms.specs.Scratch.{AreZero, AreTouched};
ghost use Rattle.linear_forms.specs.Folding.{form_of, combined_form, combined_fits, IsFolded, leaf_at};
ghost use Rattle.linear_forms.specs.Entries.{knowns, forms_at, AreLaid, AreSums, IsReady};

use crate::coefficients::{Coefficient, Stop, take_sum, wipe};
use crate::entries::Entry;
use crate::products::fold_product;
use crate::sums::fold_sum;
use smt_meaning::{Head, Operator, Summand, TermId};
use std::alloc::{AllocError, Global};

/// Room to fold in: coefficients by place, which are 0 between two foldings, the places of those that aren't, the sum that is made, and a spare one.
#[derive(Drop)]
pub(crate) struct Work {
    pub(crate) values: Vec<Coefficient>,
    pub(crate) touched: Vec<TermId>,
    pub(crate) sum: Vec<Summand>,
    pub(crate) spare: Vec<Summand>,
}

impl Work {
    ghost use Rattle.linear_forms.specs.Entries.{IsReady};

    /// No room. It takes no memory.
    pub(crate) fn new(alloc: Global) -> Self
        ensures { IsReady result }
    {
        Work {
            values: Vec::new(alloc),
            touched: Vec::new(alloc),
            sum: Vec::new(alloc),
            spare: Vec::new(alloc),
        }
    }
}

/// Makes room for the coefficients of so many places.
pub(crate) fn reach(values: &mut Vec<Coefficient>, count: usize) -> Result<(), AllocError>
    requires { AreZero values.old.items }
    ensures zero { AreZero values.new.items }
    ensures size { OnOk result (count ≤ length values.new.items) }
{
    while values.len() < count {
        values.push(Coefficient { value: 0 })?;
    }
    Ok(())
}

/// Adds up the forms of some terms, or takes those of the others from the first one, and takes the sum out.
fn combine_into(
    entries: &[Entry],
    all: &[Summand],
    work: &mut Work,
    arguments: &[TermId],
    subtract: bool,
) -> Result<i128, Stop>
    requires laid { AreLaid (length all.now) entries.now }
    requires places { All (λ i. i < length entries.now) arguments.now }
    requires sums { AreSums (length work.old.values.items) (knowns all.now entries.now) arguments.now }
    requires zero { AreZero work.old.values.items }
    requires touched { AreTouched work.old.values.items work.old.touched.items }
    requires empty { work.old.sum.items ≡ [] }
    ensures ok { IfOk result (λ n. form_of work.new.sum.items n ≡ combined_form subtract (forms_at (knowns all.now entries.now) arguments.now)) }
    ensures fits { IfOk result (λ n. combined_fits subtract (forms_at (knowns all.now entries.now) arguments.now) ≡ true) }
    ensures ranges { IfOk result (λ n. sum_fits work.new.sum.items ≡ true) }
    ensures range { result ≡ Err Stop.Range → combined_fits subtract (forms_at (knowns all.now entries.now) arguments.now) ≡ false }
    ensures touched { AreTouched work.new.values.items work.new.touched.items }
{
    let constant = fold_sum(
        entries,
        all,
        &mut work.values,
        &mut work.touched,
        arguments,
        subtract,
    )?;
    take_sum(&mut work.values, &mut work.touched, &mut work.sum)?;
    Ok(constant)
}

/// Adds up the forms of some terms that stand before a place, or takes those of the others from the first one.
pub(crate) fn fold_combined(
    entries: &[Entry],
    all: &[Summand],
    work: &mut Work,
    arguments: &[TermId],
    subtract: bool,
    place: usize,
) -> Result<i128, Stop>
    requires laid { AreLaid (length all.now) entries.now }
    requires places { All (λ i. i < length entries.now) arguments.now }
    requires sums { AreSums place (knowns all.now entries.now) arguments.now }
    requires ready { IsReady work.old }
    ensures ok { IfOk result (λ n. form_of work.new.sum.items n ≡ combined_form subtract (forms_at (knowns all.now entries.now) arguments.now)) }
    ensures fits { IfOk result (λ n. combined_fits subtract (forms_at (knowns all.now entries.now) arguments.now) ≡ true) }
    ensures ranges { IfOk result (λ n. sum_fits work.new.sum.items ≡ true) }
    ensures range { result ≡ Err Stop.Range → combined_fits subtract (forms_at (knowns all.now entries.now) arguments.now) ≡ false }
    ensures ready { IsReady work.new }
{
    work.sum.clear();
    reach(&mut work.values, place)?;
    let folded = combine_into(entries, all, work, arguments, subtract);
    wipe(&mut work.values, &mut work.touched);
    folded
}

/// The form of a numeral.
fn fold_numeral(work: &mut Work, number: i128) -> Result<i128, Stop>
    requires { IsReady work.old }
    ensures ok { IfOk result (λ n. form_of work.new.sum.items n ≡ number_form number) }
    ensures range { result ≡ Err Stop.Range → ⊥ }
    ensures ready { IsReady work.new }
{
    work.sum.clear();
    Ok(number)
}

/// A term alone.
fn fold_leaf(work: &mut Work, place: TermId) -> Result<i128, Stop>
    requires { IsReady work.old }
    ensures ok { IfOk result (λ n. form_of work.new.sum.items n ≡ leaf_at place) }
    ensures range { result ≡ Err Stop.Range → ⊥ }
    ensures ready { IsReady work.new }
{
    work.sum.clear();
    work.sum.push(Summand {
        coefficient: 1,
        term: place,
    })?;
    Ok(0)
}

/// The form of a term with an operator of the theories, from those of its arguments.
fn fold_operator(
    entries: &[Entry],
    all: &[Summand],
    work: &mut Work,
    operator: Operator,
    arguments: &[TermId],
    place: TermId,
) -> Result<i128, Stop>
    requires laid { AreLaid (length all.now) entries.now }
    requires places { All (λ i. i < length entries.now) arguments.now }
    requires sums { AreSums place (knowns all.now entries.now) arguments.now }
    requires ready { IsReady work.old }
    ensures ok { IfOk result (λ n. IsFolded (Head.Theory operator) (forms_at (knowns all.now entries.now) arguments.now) place (form_of work.new.sum.items n)) }
    ensures range { result ≡ Err Stop.Range → head_folding_fits (Head.Theory operator) (forms_at (knowns all.now entries.now) arguments.now) ≡ false }
    ensures ready { IsReady work.new }
{
    match operator {
        Operator::Add => fold_combined(entries, all, work, arguments, false, place as usize),
        Operator::Subtract => fold_combined(entries, all, work, arguments, true, place as usize),
        Operator::Multiply => {
            work.sum.clear();
            fold_product(entries, all, &mut work.sum, &mut work.spare, arguments)
        }
        _ => fold_leaf(work, place),
    }
}

/// The constant of the form of the node at a place, whose arguments stand before it. The sum is left in the room.
pub(crate) fn fold_node(
    entries: &[Entry],
    all: &[Summand],
    work: &mut Work,
    head: Head,
    arguments: &[TermId],
    place: TermId,
) -> Result<i128, Stop>
    requires laid { AreLaid (length all.now) entries.now }
    requires places { All (λ i. i < length entries.now) arguments.now }
    requires sums { AreSums place (knowns all.now entries.now) arguments.now }
    requires ready { IsReady work.old }
    ensures ok { IfOk result (λ n. IsFolded head (forms_at (knowns all.now entries.now) arguments.now) place (form_of work.new.sum.items n)) }
    ensures range { result ≡ Err Stop.Range → head_folding_fits head (forms_at (knowns all.now entries.now) arguments.now) ≡ false }
    ensures ready { IsReady work.new }
{
    match head {
        Head::Numeral(number) => fold_numeral(work, number),
        Head::Theory(operator) => fold_operator(entries, all, work, operator, arguments, place),
        Head::Symbol(_) => fold_leaf(work, place),
        Head::Place(_) => fold_leaf(work, place),
    }
}
