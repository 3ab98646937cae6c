//! The variables of the terms of a sum, and that of the sum.
ghost use Rattle.std.specs.Prelude.{◌≡◌, ◌≢◌, ℕ, ◌<◌, ◌-◌, ◌^◌, false, pos, All, length, OnOk, OnErr, IfOk, IfErr, None};
ghost use Rattle.fraction128.specs.Whole.{InRange};
ghost use Rattle.fraction128.specs.Grid.{column_of, leaf, turned};
ghost use Rattle.fraction128.specs.declared.Summand.{Summand as SummandValue};
ghost use Rattle.tableau.specs.Failing.{IsRange};
ghost use Rattle.sum_bounds.specs.Bounds.{StandsFor, IsSum, sum_fits};
ghost use Rattle.sum_bounds.specs.Bases.{AddsBases};
ghost use Rattle.sum_bounds.specs.Written.{HasLeaf};
ghost use Rattle.bound_log.specs.Growth.{IsGrown};
ghost use Rattle.bound_log.specs.Columns.{IsLeafIn, IsPartIn, AddsSums};
ghost use Rattle.bound_log.specs.Resting.{AreStill};

use fraction128::Summand;
use std::alloc::{AllocError, Global};
use sum_bounds::{SumBounds, SumVariable};
use tableau::Failure;

/// Gives a term a variable where it has none. More variables than can be counted are want of memory.
pub(crate) fn add_leaf(bounds: &mut SumBounds, alloc: Global, term: u32) -> Result<(), AllocError>
    ensures grown { IsGrown bounds.old bounds.new }
    ensures still { AreStill bounds.old bounds.new }
    ensures bases { AddsBases bounds.old bounds.new }
    ensures sums { AddsSums (λ ps. ps ≡ leaf term) bounds.old bounds.new }
    ensures leaf { OnOk result (HasLeaf bounds.new.columns term) }
{
    if bounds.count() == u32::MAX {
        return Err(AllocError);
    }
    let _variable = bounds.leaf(alloc, term)?;
    Ok(())
}

/// Gives each term of a sum a variable where it has none. After an `Err` some terms may have one.
fn add_leaves(bounds: &mut SumBounds, alloc: Global, sum: &[Summand]) -> Result<(), AllocError>
    ensures grown { IsGrown bounds.old bounds.new }
    ensures still { AreStill bounds.old bounds.new }
    ensures bases { AddsBases bounds.old bounds.new }
    ensures sums { AddsSums (IsLeafIn sum.now) bounds.old bounds.new }
    ensures leaves { OnOk result (All (λ (p : SummandValue). HasLeaf bounds.new.columns p.term) sum.now) }
{
    for summand in sum {
        add_leaf(bounds, alloc, summand.term)?;
    }
    Ok(())
}

/// The variable of a sum, a new one where it has none. After an `Err` some terms may have a variable more.
pub(crate) fn variable_of(
    bounds: &mut SumBounds,
    alloc: Global,
    sum: &[Summand],
) -> Result<SumVariable, Failure>
    requires { All (λ (p : SummandValue). InRange p.coefficient × (p.coefficient ≢ pos 0)) sum.now }
    ensures grown { IsGrown bounds.old bounds.new }
    ensures still { AreStill bounds.old bounds.new }
    ensures bases { AddsBases bounds.old bounds.new }
    ensures sums { AddsSums (IsPartIn sum.now) bounds.old bounds.new }
    ensures ok { IfOk result (StandsFor bounds.new sum.now) }
    ensures range { IfErr result (λ e. IsRange e → sum_fits bounds.new.table bounds.new.columns (turned sum.now) ≡ false) }
    ensures lacks { IfErr result (λ e. IsRange e → column_of bounds.new.columns (turned sum.now) ≡ None) }
{
    add_leaves(bounds, alloc, sum)?;
    if bounds.count() == u32::MAX {
        return Err(Failure::Memory);
    }
    bounds.sum(alloc, sum)
}
