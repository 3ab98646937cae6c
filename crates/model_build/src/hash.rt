//! A hash of a symbol and of what its arguments are given.
ghost use Rattle.std.specs.Prelude.{◌≡◌, ◌<◌, length, map, All};
ghost use Rattle.model_build.specs.Given.{given_at};
ghost use Rattle.model_build.specs.Keys.{given_state, givens_state, key_hash};

use crate::Given;
use crate::applications::has_past;
use smt_meaning::{SymId, TermId};
use term_store::{mix, mix_value};

fn with_given(state: u64, given: Given) -> u64
    ensures { result ≡ given_state state given }
{
    match given {
        Given::Unmarked => mix(state, 2),
        Given::InRange(value) => mix_value(state, value),
        Given::PastRange => mix(state, 3),
    }
}

fn with_each(start: u64, given: &[Given], places: &[TermId]) -> u64
    requires { All (λ i. i < length given.now) places.now }
    ensures { result ≡ givens_state start (map (given_at given.now) places.now) }
{
    let mut state = start;
    for place in places {
        state = with_given(state, given[*place as usize]);
    }
    state
}

/// The hash of an application: one for those to which a table gives one value.
pub(crate) fn hash_of(given: &[Given], symbol: SymId, arguments: &[TermId]) -> u32
    requires { All (λ i. i < length given.now) arguments.now }
    ensures { result ≡ key_hash symbol (map (given_at given.now) arguments.now) }
{
    let state = if has_past(given, arguments) {
        mix(mix(5, symbol as u64), 1)
    } else {
        with_each(mix(6, symbol as u64), given, arguments)
    };
    (state >> 32) as u32
}
