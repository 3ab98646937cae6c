//! The number that a numeral's digits write, where it is in the range.
ghost use Rattle.std.specs.Prelude.{◌≡◌, ◌+◌, ◌-◌, ◌*◌, ◌^◌, ◌<◌, ◌≤◌, MatchOption};
ghost use Rattle.smt_command.specs.Values.{small_number};

use smt_meaning::Refusal;

/// The number that decimal digits write. An `Err`, `NumeralTooLarge`, is for one past 2^127 - 1.
pub fn number(digits: &[u8]) -> Result<i128, Refusal>
    ensures { result ≡ small_number digits.now }
{
    let mut number = 0;
    for digit in digits {
        match with_digit(number, *digit) {
            Some(larger) => number = larger,
            None => return Err(Refusal::NumeralTooLarge),
        }
    }
    Ok(number as i128)
}

/// The number with one more digit behind, where it is below 2^127.
fn with_digit(number: u128, digit: u8) -> Option<u128>
    ensures { MatchOption result (2 ^ 127 ≤ 10 * number + (digit - 48)) (λ n. (n ≡ 10 * number + (digit - 48)) × (n < 2 ^ 127)) }
{
    let tens = number.checked_mul(10)?;
    let larger = tens.checked_add(u128::from(digit.saturating_sub(48)))?;
    if larger >= 1 << 127 {
        return None;
    }
    Some(larger)
}
