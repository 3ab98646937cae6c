//! Which pairs two applications may differ by.
ghost use Rattle.std.specs.Prelude.{◌<◌, length};

use crate::parts::Pair;
use model_build::Clash;
use scope_stack::Stack;
use smt_meaning::TermId;
use std::alloc::AllocError;

/// Adds the pairs of arguments, one by one.
fn want_arguments(
    pairs: &mut Vec<Pair>,
    left: &[TermId],
    right: &[TermId],
) -> Result<(), AllocError> {
    for k in 0..left.len() {
        if k < right.len() && left[k] != right[k] {
            pairs.push(Pair {
                left: left[k],
                right: right[k],
            })?;
        }
    }
    Ok(())
}

/// Adds the pairs that two applications may differ by: of themselves, and of their arguments. An `Err`, for want of memory, adds some of them.
pub(crate) fn want(pairs: &mut Vec<Pair>, stack: &Stack, clash: Clash) -> Result<(), AllocError>
    requires first { clash.first < length stack.now.trees }
    requires second { clash.second < length stack.now.trees }
{
    let store = stack.terms();
    pairs.push(Pair {
        left: clash.first,
        right: clash.second,
    })?;
    let first = store.node(clash.first);
    let second = store.node(clash.second);
    want_arguments(pairs, first.arguments, second.arguments)
}
