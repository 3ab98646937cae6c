//! Ledgers, to which a run gives each entry of its journal.
ghost use Rattle.std.specs.Prelude.{◌≡◌, ◌∷◌, [], List, Option, OnOk, OnErr};
ghost use Rattle.smt_meaning.specs.declared.answers.Entry.{Entry as EntryValue};
ghost use Rattle.smt_top.specs.Ledgers.{Gains};

use smt_meaning::Seq;
use smt_meaning::language::Entry;
use std::alloc::AllocError;

/// Where the entries of a run go, each before its text is written.
pub trait Ledger {
    /// The entries taken so far, in order, where the ledger tells them.
    ghost entries: { Self → Option (List EntryValue) };

    /// Takes the next entry. An `Err`, for want of memory, takes nothing.
    fn keep(&mut self, entry: Entry) -> Result<(), AllocError>
        ensures ok { OnOk result (Gains (entries self.old) (entry ∷ []) (entries self.new)) }
        ensures err { OnErr result (entries self.new ≡ entries self.old) };
}

/// A list keeps every entry.
impl Ledger for Seq<Entry> {
    ghost use Rattle.std.specs.Prelude.{Some};

    ghost entries = { λ kept. Some kept };

    fn keep(&mut self, entry: Entry) -> Result<(), AllocError> {
        self.push(entry)
    }
}

/// A ledger that keeps no entry, and tells none: what a run needs of memory then doesn't grow with its length.
#[derive(Clone, Copy, Drop)]
pub struct Forgetting;

impl Ledger for Forgetting {
    ghost use Rattle.std.specs.Prelude.{None};

    ghost entries = { λ _. None };

    fn keep(&mut self, entry: Entry) -> Result<(), AllocError> {
        let _ = entry;
        Ok(())
    }
}
