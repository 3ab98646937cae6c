//! The items of a list by their places.
ghost use Rattle.std.specs.Prelude.{◌≡◌, ◌<◌, All, IfOk, length, map, slice_index_or};

use smt_meaning::TermId;
use std::alloc::{AllocError, Global};

/// The items at these places, in order. An `Err` is want of memory.
pub fn chosen<T: Copy + Drop>(
    alloc: Global,
    items: &[T],
    places: &[TermId],
) -> Result<Vec<T>, AllocError>
    requires { All (λ i. i < length items.now) places.now }
    ensures { IfOk result (λ v. (d : T) → v.items ≡ map (λ i. slice_index_or items.now i d) places.now) }
{
    let mut found = Vec::new(alloc);
    for place in places {
        found.push(items[*place as usize])?;
    }
    Ok(found)
}
