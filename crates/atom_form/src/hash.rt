//! A hash of a sum: of its coefficients and places.
ghost use Rattle.std.specs.Prelude.{◌≡◌};
ghost use Rattle.atom_form.specs.SumTableHash.{sign_word, number_state, summand_state, sum_state, sum_hash};

use smt_meaning::Summand;
use term_store::mix;

fn word_of(negative: bool) -> u64
    ensures { result ≡ sign_word negative }
{
    if negative { 1 } else { 0 }
}

/// The state of a hash after one more number.
pub fn mix_number(state: u64, number: i128) -> u64
    ensures { result ≡ number_state state number }
{
    let size = number.unsigned_abs();
    let low = (size % (1 << 64)) as u64;
    let high = (size / (1 << 64)) as u64;
    mix(mix(mix(state, word_of(number < 0)), low), high)
}

fn with_summand(state: u64, summand: Summand) -> u64
    ensures { result ≡ summand_state state summand }
{
    mix(mix_number(state, summand.coefficient), summand.term as u64)
}

fn with_summands(start: u64, sum: &[Summand]) -> u64
    ensures { result ≡ sum_state start sum.now }
{
    let mut state = start;
    for summand in sum {
        state = with_summand(state, *summand);
    }
    state
}

/// The hash of a sum. Equal sums have equal hashes.
#[tactic(auto, unfolding(crate::specs::SumTableHash::sum_hash))]
pub(crate) fn hash_of(sum: &[Summand]) -> u32
    ensures { result ≡ sum_hash sum.now }
{
    (with_summands(1, sum) >> 32) as u32
}
