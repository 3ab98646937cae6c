//! A bound by the number of its sum and its threshold, with its hash.
ghost use Rattle.std.specs.Prelude.{◌≡◌, ◌↔◌, IsTrue};
ghost use Rattle.atom_form.specs.BoundTableHash.{bound_hash};

use crate::mix_number;
use term_store::mix;

/// That a sum, given by its number, is at most a threshold.
#[derive(Clone, Copy, PartialEq, Eq, Drop)]
pub struct SumBound {
    pub sum: u32,
    pub threshold: i128,
}

pub(crate) fn is_same(a: SumBound, b: SumBound) -> bool
    ensures { IsTrue result ↔ (a ≡ b) }
{
    a == b
}

/// The hash of a bound. Equal bounds have equal hashes.
#[tactic(auto, unfolding(crate::specs::BoundTableHash::bound_hash))]
pub(crate) fn hash_of(bound: SumBound) -> u32
    ensures { result ≡ bound_hash bound }
{
    (mix_number(mix(1, bound.sum as u64), bound.threshold) >> 32) as u32
}
