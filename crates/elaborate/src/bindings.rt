//! The names that are bound where a term stands.
//!
//! Why names are filed: those of one `let`, the parameters of one definition and the variables
//! where a term stands are found by their hashes, in the term store's index, so a wide `let` or
//! definition takes time linear in its letters. The definitions stay: the first name that stood
//! before, from left to right, and the newest binding. Of names that stand twice, in the bindings
//! of a `let` or the parameters of a definition, the refusal names the first that stood before,
//! from left to right: of x y y x it is y. One definition serves both. 2^32 names and more of one
//! term count as want of memory. Only the names that a `let` hides inside a named term that stands
//! under variables are still compared one by one.
//!
//! A variable of `let` hides every function of its name, the theories' too; as the head of a list
//! it is `E14`.
ghost use Rattle.std.specs.Prelude.{◌≡◌, ◌++◌, ◌∷◌, [], drop, length, OnOk, OnErr};
ghost use Rattle.elaborate.specs.Frames.{find_value};
ghost use Rattle.elaborate.specs.Filed.{bound_hashes};

use crate::frame::Binding;
use crate::value::Value;
use std::alloc::{AllocError, Global};
use std::marker::Model;
use term_store::{HashIndex, Named, find, hash};

impl Named for Binding {
    ghost name = { λ b. b.name };

    fn name(&self) -> &[u8] {
        self.name.as_slice()
    }
}

/// Names with their terms, each found by its name's hash. Contracts see the list of them, the newest first.
#[derive(Drop)]
pub(crate) struct Bindings {
    items: Vec<Binding>,
    index: HashIndex,
}

impl Model for Bindings {
    ghost use Rattle.std.specs.Prelude.{◌≡◌, List, reverse};
    ghost use Rattle.elaborate.specs.Filed.{bound_hashes};
    ghost use Rattle.elaborate.specs.declared.frame.Binding.{Binding};

    ghost Value = { List Binding };

    ghost view = { λ b. reverse b.items.items };

    ghost invariant = { λ b. b.index ≡ bound_hashes b.items.items };
}

/// Adds a binding at the end. An `Err`, for want of memory, changes nothing.
fn append(
    items: &mut Vec<Binding>,
    index: &mut HashIndex,
    binding: Binding,
) -> Result<(), AllocError>
    requires { index.old ≡ bound_hashes items.old.items }
    ensures hashed { index.new ≡ bound_hashes items.new.items }
    ensures ok { OnOk result (items.new.items ≡ items.old.items ++ binding ∷ []) }
    ensures err { OnErr result (items.new.items ≡ items.old.items) }
{
    let count = items.len();
    if count >= u32::MAX as usize {
        return Err(AllocError);
    }
    index.push(hash(binding.name.as_slice()))?;
    if items.push(binding).is_err() {
        index.truncate(count);
        return Err(AllocError);
    }
    Ok(())
}

impl Bindings {
    pub fn new(alloc: Global) -> Self
        ensures { result ≡ [] }
    {
        Bindings {
            items: Vec::new(alloc),
            index: HashIndex::new(alloc),
        }
    }

    pub fn len(&self) -> usize
        ensures { result ≡ length self.now }
    {
        self.items.len()
    }

    /// Binds a name. An `Err`, for want of memory, changes nothing.
    pub fn push(&mut self, binding: Binding) -> Result<(), AllocError>
        ensures ok { OnOk result (self.new ≡ binding ∷ self.old) }
        ensures err { OnErr result (self.new ≡ self.old) }
    {
        append(&mut self.items, &mut self.index, binding)
    }

    /// Takes so many of the newest bindings off.
    pub fn drop_newest(&mut self, count: usize)
        ensures { self.new ≡ drop count self.old }
    {
        let kept = self.items.len().saturating_sub(count);
        self.items.truncate(kept);
        self.index.truncate(kept);
    }

    /// What a name stands for, by the newest binding.
    pub fn find(&self, name: &[u8]) -> Option<Value>
        ensures { result ≡ find_value name.now self.now }
    {
        if self.items.is_empty() {
            return None;
        }
        match find(&self.items, &self.index, name) {
            Some(place) => Some(self.items[place].value),
            None => None,
        }
    }
}
