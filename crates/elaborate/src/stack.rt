//! A list that is read, grown and cut at its newest end.
ghost use Rattle.std.specs.Prelude.{◌≡◌, ◌∷◌, [], List, OnOk, OnErr, IfSome, IfNone};

use std::alloc::{AllocError, Global};
use std::marker::Model;

/// A stack, which contracts see as the list of its items, the newest first.
#[derive(Drop)]
pub(crate) struct Stack<T> {
    items: Vec<T>,
}

impl<T> Model for Stack<T> {
    ghost use Rattle.std.specs.Prelude.{List, reverse};

    ghost Value = { List T };

    ghost view = { λ s. reverse s.items.items };
}

impl<T: Drop> Stack<T> {
    pub fn new(alloc: Global) -> Self
        ensures { result ≡ [] }
    {
        Stack {
            items: Vec::new(alloc),
        }
    }

    /// Puts an item on top. An `Err`, for want of memory, changes nothing.
    pub fn push(&mut self, item: T) -> Result<(), AllocError>
        ensures ok { OnOk result (self.new ≡ item ∷ self.old) }
        ensures err { OnErr result (self.new ≡ self.old) }
    {
        self.items.push(item)?;
        Ok(())
    }

    /// Takes the newest item off.
    pub fn pop(&mut self) -> Option<T>
        ensures some { IfSome result (λ x. self.old ≡ x ∷ self.new) }
        ensures none { IfNone result ((self.old ≡ []) × (self.new ≡ [])) }
    {
        self.items.pop()
    }

    /// The newest item.
    pub fn newest(&self) -> Option<&T>
        ensures some { IfSome result (λ x. (rest : List T) × (self.now ≡ x.now ∷ rest)) }
        ensures none { IfNone result (self.now ≡ []) }
    {
        self.items.last()
    }
}
