//! Keys by number, each found by a hash.
ghost use Rattle.std.specs.Prelude.{◌≡◌, ◌+◌, ◌<◌, ◌^◌, [], ◌∷◌, ◌++◌, length, OnOk, OnErr};

use std::alloc::AllocError;
use term_store::HashIndex;

/// Adds a key and its hash. An `Err` changes nothing.
pub(crate) fn append<K: Copy + Drop>(
    items: &mut Vec<K>,
    hashes: &mut HashIndex,
    item: K,
    hash: u32,
) -> Result<(), AllocError>
    requires size { length hashes.old ≡ length items.old.items }
    requires few { length items.old.items + 1 < 2 ^ 32 }
    ensures items { OnOk result (items.new.items ≡ items.old.items ++ item ∷ []) }
    ensures hashes { OnOk result (hashes.new ≡ hashes.old ++ hash ∷ []) }
    ensures err { OnErr result ((items.new.items ≡ items.old.items) × (hashes.new ≡ hashes.old)) }
{
    let count = items.len();
    hashes.push(hash)?;
    if items.push(item).is_err() {
        hashes.truncate(count);
        return Err(AllocError);
    }
    Ok(())
}
