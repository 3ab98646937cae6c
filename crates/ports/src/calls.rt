//! Counts of calls, of 64 bits, which stand still at their end.
//!
//! A count of faults or of calls has 64 bits and stands still at its end. A list of failing calls
//! that holds 2^64-1 then fails each later one. So do the counts of calls that gave a byte and of a
//! sink's calls.
ghost use Rattle.std.specs.Prelude.{◌≡◌, ◌≤◌};
ghost use Rattle.ports.specs.Flow.{raised};
ghost use Rattle.ports.specs.Memory.{fails_next};

/// The calls of a source or a sink in memory: which of them fail, by their numbers from 1, how many
/// there were, and how many failed. Both counts stand still at their end.
#[derive(Drop)]
pub(crate) struct Calls {
    pub(crate) fails: Vec<u64>,
    pub(crate) count: u64,
    pub(crate) faults: u64,
}

impl Calls {
    pub(crate) fn new(fails: Vec<u64>) -> Calls
        ensures { result ≡ record { fails = fails; count = 0; faults = 0 } }
    {
        Calls {
            fails,
            count: 0,
            faults: 0,
        }
    }

    /// Counts one more call, and says whether it is one that fails.
    pub(crate) fn begin(&mut self) -> bool
        ensures fails { result ≡ fails_next self.old.fails.items self.old.count }
        ensures after { self.new ≡ record self.old { count = raised self.old.count } }
    {
        self.count = self.count.saturating_add(1);
        self.fails.contains(&self.count)
    }

    /// Counts one more call that failed.
    pub(crate) fn fault(&mut self)
        ensures after { self.new ≡ record self.old { faults = raised self.old.faults } }
        ensures never_falls { self.old.faults ≤ self.new.faults }
    {
        self.faults = self.faults.saturating_add(1);
    }
}
