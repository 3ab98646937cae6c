//! The number that a numeral's digits write.
ghost use Rattle.std.specs.Prelude.{◌≡◌, ◌+◌, ◌-◌, ◌*◌, ◌^◌, ◌<◌, ◌≤◌, pos, true, false, IfSome, IfNone};
ghost use Rattle.smt_meaning.specs.Sorts.{decimal, is_small};

use smt_meaning::Head;

/// The most that a tenth may be.
const MOST_TENTH: u128 = 17_014_118_346_046_923_173_168_730_371_588_410_572;

/// The number with one digit more, where it is below 2^127.
fn with_digit(number: u128, digit: u8) -> Option<u128>
    requires { number < 2 ^ 127 }
    ensures some { IfSome result (λ n. n ≡ 10 * number + (digit - 48)) }
    ensures small { IfSome result (λ n. n < 2 ^ 127) }
    ensures none { IfNone result (2 ^ 127 ≤ 10 * number + (digit - 48)) }
{
    if number > MOST_TENTH {
        return None;
    }
    let next = 10 * number + digit.saturating_sub(48) as u128;
    if next > i128::MAX as u128 {
        None
    } else {
        Some(next)
    }
}

/// The number that these digits write, where it is at most 2^127 - 1.
pub(crate) fn number(digits: &[u8]) -> Option<u128>
    ensures some { IfSome result (λ n. n ≡ decimal digits.now) }
    ensures small { IfSome result (λ n. is_small n ≡ true) }
    ensures none { IfNone result (is_small (decimal digits.now) ≡ false) }
{
    let mut number: u128 = 0;
    for digit in digits {
        match with_digit(number, *digit) {
            Some(next) => number = next,
            None => return None,
        }
    }
    Some(number)
}

/// The head of a numeral's term.
pub(crate) fn numeral(number: u128) -> Head
    requires { is_small number ≡ true }
    ensures { result ≡ Head.Numeral (pos number) }
{
    Head::Numeral(number as i128)
}
