//! Terms of one list are put behind those of another.
ghost use Rattle.std.specs.Prelude.{◌≡◌, ◌+◌, ◌≤◌, ◌<◌, OnOk, OnErr, true, false, length, take};
ghost use Rattle.smt_meaning.specs.Sorts.{with_all};
ghost use Rattle.smt_meaning.specs.Term.{tree_at};
ghost use Rattle.smt_meaning.specs.TreeShape.{with_parts};
ghost use Rattle.term_store.specs.Room.{ArePlaces};

use crate::{InternError, TermStore, chosen};
use smt_meaning::TermId;
use std::alloc::{AllocError, Global};

/// Puts the next term behind others, where those before it have their places. An `Err` changes nothing.
fn put(
    alloc: Global,
    others: &TermStore,
    id: TermId,
    places: &mut Vec<TermId>,
    store: &mut TermStore,
) -> Result<(), InternError>
    requires within { id < length others.now.trees }
    requires size { length places.old.items ≡ id }
    requires places { ArePlaces others.now.trees places.old.items store.old.trees }
    ensures trees { OnOk result (store.new.trees ≡ with_parts store.old.trees (tree_at others.now.trees id)) }
    ensures size { OnOk result (length places.new.items ≡ id + 1) }
    ensures places { OnOk result (ArePlaces others.now.trees places.new.items store.new.trees) }
    ensures limit { store.new.limit ≡ store.old.limit }
    ensures full { result ≡ Err InternError.Full → store.old.limit < length (with_parts store.old.trees (tree_at others.now.trees id)) }
    ensures err { OnErr result (store.new ≡ store.old) }
{
    let node = others.node(id);
    let arguments = chosen(alloc, places, node.arguments)?;
    places.reserve(1)?;
    let _complete = store.len();
    match store.intern(node.head, &arguments) {
        Ok(place) => {
            places.push_reserved(place);
            Ok(())
        }
        Err(error) => Err(error),
    }
}

/// Puts terms behind others, in order, as far as there is room: whether room is wanting.
fn put_all(alloc: Global, others: &TermStore, store: &mut TermStore) -> Result<bool, AllocError>
    ensures full { result ≡ Ok true → store.old.limit < length (with_all store.old.trees others.now.trees) }
    ensures room { result ≡ Ok false → store.new.trees ≡ with_all store.old.trees others.now.trees }
    ensures limit { store.new.limit ≡ store.old.limit }
    ensures kept { take (length store.old.trees) store.new.trees ≡ store.old.trees }
{
    let mut places = Vec::new(alloc);
    for id in 0..others.len() {
        match put(alloc, others, id, &mut places, store) {
            Ok(()) => {}
            Err(InternError::Full) => return Ok(true),
            Err(InternError::Memory) => return Err(AllocError),
        }
    }
    Ok(false)
}

/// Whether a list lacks the room for other terms behind its own. Nothing changes.
pub fn lacks_room(
    alloc: Global,
    others: &TermStore,
    store: &mut TermStore,
) -> Result<bool, AllocError>
    ensures lacks { result ≡ Ok true → store.old.limit < length (with_all store.old.trees others.now.trees) }
    ensures room { result ≡ Ok false → length (with_all store.old.trees others.now.trees) ≤ store.old.limit }
    ensures same { store.new ≡ store.old }
{
    let count = store.len();
    let lacks = put_all(alloc, others, store);
    let _within = store.len();
    store.cut(count);
    lacks
}
