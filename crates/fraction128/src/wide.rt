//! An exact sum of products, in digits of 32 bits, and its sign.
//!
//! Why sums are in digits: `dot` works in seven places of 32 bits, carried after each pair, so that
//! it needs no bound on the number of pairs.
ghost use Rattle.std.specs.Prelude.{◌≡◌, ℕ, ℤ, ◌+◌, ◌*◌, ◌<◌, ◌≤◌, ◌^◌, length, pos, ◌+ℤ◌, ◌*ℤ◌, int_lt, unsigned_abs};
ghost use Rattle.fraction128.specs.Dot.{dot_of};
ghost use Rattle.fraction128.specs.Wide.{base, four_value, seven_value, AreSmall, AreFourWithin, HasGrown, AreSevenWithin};

const BASE: i128 = 1 << 32;

/// A whole number in four places of 32 bits, lowest first.
#[derive(Clone, Copy)]
struct Four {
    d0: i128,
    d1: i128,
    d2: i128,
    d3: i128,
}

/// A whole number in seven places of 32 bits, lowest first.
#[derive(Clone, Copy)]
pub struct Seven {
    pub d0: i128,
    pub d1: i128,
    pub d2: i128,
    pub d3: i128,
    pub d4: i128,
    pub d5: i128,
    pub d6: i128,
}

fn digits_of(n: i128) -> Four
    ensures value { four_value result ≡ n }
    ensures small { AreSmall result }
{
    let one = n.div_euclid(BASE);
    let two = one.div_euclid(BASE);
    let three = two.div_euclid(BASE);
    Four {
        d0: n.rem_euclid(BASE),
        d1: one.rem_euclid(BASE),
        d2: two.rem_euclid(BASE),
        d3: three,
    }
}

/// The product of two digits.
fn times(a: i128, b: i128) -> i128
    requires left { unsigned_abs a ≤ 2 ^ 32 }
    requires right { unsigned_abs b ≤ 2 ^ 32 }
    ensures value { result ≡ a *ℤ b }
    ensures bound { unsigned_abs result ≤ 2 ^ 64 }
{
    a * b
}

/// A place and the product of two digits.
fn with_times(place: i128, a: i128, b: i128) -> i128
    requires near { unsigned_abs place ≤ 2 ^ 126 }
    requires left { unsigned_abs a ≤ 2 ^ 32 }
    requires right { unsigned_abs b ≤ 2 ^ 32 }
    ensures value { result ≡ place +ℤ a *ℤ b }
    ensures bound { unsigned_abs result ≤ unsigned_abs place + 2 ^ 64 }
{
    place + times(a, b)
}

/// Places, with the product of a number and a digit.
fn with_digit(places: Four, x: Four, digit: i128) -> Four
    requires near { AreFourWithin places (2 ^ 126) }
    requires small { AreSmall x }
    requires digit { unsigned_abs digit ≤ 2 ^ 32 }
    ensures value { four_value result ≡ four_value places +ℤ four_value x *ℤ digit }
    ensures grown { HasGrown places result }
{
    Four {
        d0: with_times(places.d0, x.d0, digit),
        d1: with_times(places.d1, x.d1, digit),
        d2: with_times(places.d2, x.d2, digit),
        d3: with_times(places.d3, x.d3, digit),
    }
}

/// Places, with the product of two numbers.
fn with_product(places: Seven, x: Four, y: Four) -> Seven
    requires near { AreSevenWithin places (2 ^ 125) }
    requires left { AreSmall x }
    requires right { AreSmall y }
    ensures value { seven_value result ≡ seven_value places +ℤ four_value x *ℤ four_value y }
    ensures grown { (n : ℕ) → n ≤ 2 ^ 125 → AreSevenWithin places n → AreSevenWithin result (n + 2 ^ 66) }
{
    let a = with_digit(window(places.d0, places.d1, places.d2, places.d3), x, y.d0);
    let b = with_digit(window(a.d1, a.d2, a.d3, places.d4), x, y.d1);
    let c = with_digit(window(b.d1, b.d2, b.d3, places.d5), x, y.d2);
    let d = with_digit(window(c.d1, c.d2, c.d3, places.d6), x, y.d3);
    Seven {
        d0: a.d0,
        d1: b.d0,
        d2: c.d0,
        d3: d.d0,
        d4: d.d1,
        d5: d.d2,
        d6: d.d3,
    }
}

fn window(d0: i128, d1: i128, d2: i128, d3: i128) -> Four
    ensures { result ≡ record { d0 = d0; d1 = d1; d2 = d2; d3 = d3 } }
{
    Four { d0, d1, d2, d3 }
}

/// A place, with what is past a digit in the place below it.
fn carried(below: i128, place: i128) -> i128
    requires below { unsigned_abs below ≤ 2 ^ 126 }
    requires place { unsigned_abs place ≤ 2 ^ 125 }
    ensures sign { (above : ℤ) → int_lt (below +ℤ base *ℤ (place +ℤ above)) (pos 0) ≡ int_lt (result +ℤ above) (pos 0) }
    ensures bound { unsigned_abs result ≤ 2 ^ 126 }
{
    place + below.div_euclid(BASE)
}

fn is_negative(places: Seven) -> bool
    requires { AreSevenWithin places (2 ^ 125) }
    ensures { result ≡ int_lt (seven_value places) (pos 0) }
{
    let one = carried(places.d0, places.d1);
    let two = carried(one, places.d2);
    let three = carried(two, places.d3);
    let fourth = carried(three, places.d4);
    let five = carried(fourth, places.d5);
    carried(five, places.d6) < 0
}

/// A number that stands in memory.
fn number_at(place: &i128) -> i128
    ensures { result ≡ place.now }
{
    *place
}

/// A whole number in seven places.
fn places_of(n: i128) -> Seven
    ensures value { seven_value result ≡ n }
    ensures within { AreSevenWithin result (2 ^ 32) }
{
    let parts = digits_of(n);
    Seven {
        d0: parts.d0,
        d1: parts.d1,
        d2: parts.d2,
        d3: parts.d3,
        d4: 0,
        d5: 0,
        d6: 0,
    }
}

/// The sum of a number and the products of pairs, in places that may be past a digit.
pub fn sum_of_products(constant: i128, pairs: &[(i128, i128)]) -> Seven
    ensures value { seven_value result ≡ dot_of constant pairs.now }
    ensures within { AreSevenWithin result (2 ^ 125) }
{
    let mut sum = places_of(constant);
    for pair in pairs {
        let left = digits_of(number_at(&pair.0));
        let right = digits_of(number_at(&pair.1));
        sum = with_product(sum, left, right);
    }
    sum
}

/// Whether the exact sum of the products of pairs is less than 0.
pub fn is_sum_negative(pairs: &[(i128, i128)]) -> bool
    ensures { result ≡ int_lt (dot_of (pos 0) pairs.now) (pos 0) }
{
    is_negative(sum_of_products(0, pairs))
}
