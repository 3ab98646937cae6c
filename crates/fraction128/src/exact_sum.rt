//! Exact sums of products, as numbers of 128 bits.
#![tactic(auto)]

ghost use Rattle.std.specs.Prelude.{◌≡◌, ℕ, ℤ, ◌+◌, ◌*◌, ◌<◌, ◌≤◌, ◌^◌, pos, ◌+ℤ◌, ◌*ℤ◌, ◌<ℤ◌, ◌≤ℤ◌, unsigned_abs, IfSome, IfNone};
ghost use Rattle.fraction128.specs.Whole.{InRange};
ghost use Rattle.fraction128.specs.Dot.{dot_of};
ghost use Rattle.fraction128.specs.Digits.{IsDigit, IsSettled, held, next, IsRanged};
ghost use Rattle.fraction128.specs.Wide.{base, seven_value, AreSevenWithin};

use crate::wide::{Seven, sum_of_products};

const BASE: i128 = 1 << 32;

/// A digit, and what is past it.
#[derive(Clone, Copy)]
struct Split {
    digit: i128,
    carry: i128,
}

/// Splits a place, with what comes from the place below it.
fn carried(place: i128, below: i128) -> Split
    requires near { unsigned_abs place ≤ 2 ^ 125 }
    requires bound { unsigned_abs below ≤ 2 ^ 94 }
    ensures value { result.digit +ℤ base *ℤ result.carry ≡ place +ℤ below }
    ensures digit { IsDigit result.digit }
    ensures carry { unsigned_abs result.carry ≤ 2 ^ 94 }
{
    let sum = place + below;
    Split {
        digit: sum.rem_euclid(BASE),
        carry: sum.div_euclid(BASE),
    }
}

/// Brings what is past a digit to the place above, from the lowest place on.
fn settled(w: Seven) -> Seven
    requires { AreSevenWithin w (2 ^ 125) }
    ensures value { seven_value result ≡ seven_value w }
    ensures digits { IsSettled result }
{
    let first = carried(w.d0, 0);
    let second = carried(w.d1, first.carry);
    let third = carried(w.d2, second.carry);
    let fourth = carried(w.d3, third.carry);
    let fifth = carried(w.d4, fourth.carry);
    let sixth = carried(w.d5, fifth.carry);
    Seven {
        d0: first.digit,
        d1: second.digit,
        d2: third.digit,
        d3: fourth.digit,
        d4: fifth.digit,
        d5: sixth.digit,
        d6: w.d6 + sixth.carry,
    }
}

/// A number with one digit more below it, where that has 128 bits.
fn with_digit(high: Option<i128>, digit: i128) -> Option<i128>
    requires { IsDigit digit }
    ensures { result ≡ next high digit }
{
    high?.checked_mul(BASE)?.checked_add(digit)
}

/// The number in one word, where it has 128 bits.
fn word(w: Seven) -> Option<i128>
    requires { IsSettled w }
    ensures { result ≡ held (seven_value w) }
{
    let fifth = with_digit(Some(w.d6), w.d5);
    let fourth = with_digit(fifth, w.d4);
    let third = with_digit(fourth, w.d3);
    let second = with_digit(third, w.d2);
    let first = with_digit(second, w.d1);
    with_digit(first, w.d0)
}

/// A number of the range: all of 128 bits but the least.
fn in_range(word: Option<i128>) -> Option<i128>
    ensures { (n : ℤ) → word ≡ held n → IsRanged n result }
{
    match word {
        Some(n) if n != i128::MIN => Some(n),
        _ => None,
    }
}

/// The sum of a number and the products of pairs, where that exact sum is in the range: what the
/// parts sum up to on the way doesn't matter.
pub fn dot(constant: i128, pairs: &[(i128, i128)]) -> Option<i128>
    ensures some { IfSome result (λ n. (n ≡ dot_of constant pairs.now) × InRange n) }
    ensures none { IfNone result (InRange (dot_of constant pairs.now) → ⊥) }
{
    in_range(word(settled(sum_of_products(constant, pairs))))
}
