//! The variable of a sum, found by a hash.
ghost use Rattle.std.specs.Prelude.{◌≡◌, ◌≢◌, ℕ, ◌<◌, length, IsTrue, ◌↔◌, IfSome, IfNone};
ghost use Rattle.simplex_steps.specs.State.{column_in};
ghost use Rattle.sum_bounds.specs.Hash.{summand_state, sum_hash};
ghost use Rattle.sum_bounds.specs.Bounds.{sum_hashes};

use fraction128::Summand;
use simplex::Simplex;
use term_store::{HashIndex, mix};

/// The state of a hash after one more summand.
fn with_summand(state: u64, summand: Summand) -> u64
    ensures { result ≡ summand_state state summand }
{
    let size = summand.coefficient.unsigned_abs();
    mix(mix(state, summand.term as u64), (size % (1 << 64)) as u64)
}

/// The hash of a sum. Equal sums have equal hashes.
#[tactic(auto, unfolding(crate::specs::Hash::sum_hash))]
pub(crate) fn hash_of(sum: &[Summand]) -> u32
    ensures { result ≡ sum_hash sum.now }
{
    let mut state = 1;
    for summand in sum {
        state = with_summand(state, *summand);
    }
    (state >> 32) as u32
}

fn is_equal(left: Summand, right: Summand) -> bool
    ensures { IsTrue result ↔ (left ≡ right) }
{
    left == right
}

/// Whether two sums have the same summands in the same order.
fn is_same(left: &[Summand], right: &[Summand]) -> bool
    ensures { IsTrue result ↔ (left.now ≡ right.now) }
{
    if left.len() != right.len() {
        return false;
    }
    for (place, summand) in left.iter().enumerate() {
        if !is_equal(*summand, right[place]) {
            return false;
        }
    }
    true
}

/// The variable with this sum, if there is one.
pub(crate) fn find(simplex: &Simplex, keys: &HashIndex, sum: &[Summand]) -> Option<u32>
    requires { keys.now ≡ sum_hashes simplex.now.columns }
    ensures known { IfSome result (λ i. i < length simplex.now.columns) }
    ensures some { IfSome result (λ i. (column_in simplex.now.columns i).sum ≡ sum.now) }
    ensures none { IfNone result ((i : ℕ) → i < length simplex.now.columns → (column_in simplex.now.columns i).sum ≢ sum.now) }
{
    let mut link = keys.last(hash_of(sum));
    while link > 0 {
        let at = link - 1;
        if is_same(simplex.column(at).sum.as_slice(), sum) {
            return Some(at);
        }
        link = keys.before(at as usize);
    }
    None
}
