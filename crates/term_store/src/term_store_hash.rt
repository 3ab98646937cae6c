//! A hash of a node, its head and its arguments; and of values.
ghost use Rattle.std.specs.Prelude.{◌≡◌};
ghost use Rattle.smt_meaning.specs.TreeShape.{operator_number};
ghost use Rattle.term_store.specs.Hash.{mixed, truth_word, number_state, value_state, head_state, words_state, node_hash};

use smt_meaning::{Head, Operator, TermId, Value};

/// An odd number whose bits look random: 2^64 divided by the golden ratio (Knuth, The Art of Computer Programming, volume 3, section 6.4).
const MULTIPLIER: u64 = 0x9e37_79b9_7f4a_7c15;

/// The state of a hash after one more word.
pub fn mix(state: u64, word: u64) -> u64
    ensures { result ≡ mixed state word }
{
    (state ^ word).wrapping_mul(MULTIPLIER)
}

fn word_of(truth: bool) -> u64
    ensures { result ≡ truth_word truth }
{
    if truth { 1 } else { 0 }
}

fn with_number(state: u64, number: i128) -> u64
    ensures { result ≡ number_state state number }
{
    let size = number.unsigned_abs();
    let low = (size % (1 << 64)) as u64;
    let high = (size / (1 << 64)) as u64;
    mix(mix(mix(state, word_of(number < 0)), low), high)
}

/// The state of a hash after one more value.
pub fn mix_value(state: u64, value: Value) -> u64
    ensures { result ≡ value_state state value }
{
    match value {
        Value::Truth(truth) => mix(state, word_of(truth)),
        Value::Whole(number) => with_number(state, number),
        Value::Element(element) => mix(state, element),
    }
}

fn of_operator(operator: Operator) -> u64
    ensures { result ≡ operator_number operator }
{
    operator as u64
}

fn of_head(head: Head) -> u64
    ensures { result ≡ head_state head }
{
    match head {
        Head::Numeral(number) => {
            let size = number.unsigned_abs();
            let low = (size % (1 << 64)) as u64;
            let high = (size / (1 << 64)) as u64;
            mix(mix(1, low), high)
        }
        Head::Theory(operator) => mix(2, of_operator(operator)),
        Head::Symbol(symbol) => mix(3, symbol as u64),
        Head::Place(place) => mix(4, place as u64),
    }
}

fn with_words(start: u64, words: &[TermId]) -> u64
    ensures { result ≡ words_state start words.now }
{
    let mut state = start;
    for word in words {
        state = mix(state, *word as u64);
    }
    state
}

/// The hash of a node with this head and these arguments. Equal nodes have equal hashes.
pub(crate) fn of_node(head: Head, arguments: &[TermId]) -> u32
    ensures { result ≡ node_hash head arguments.now }
{
    (with_words(of_head(head), arguments) >> 32) as u32
}
