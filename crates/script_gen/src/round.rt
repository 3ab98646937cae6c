//! One round of a script.
ghost use Rattle.std.specs.Prelude.{◌≡◌, ◌≤◌, ◌<◌, ◌++◌, IfOk, OnOk, All, length, string_bytes, slice_index};
ghost use Rattle.script_gen.specs.Script.{round, round_text, declarations, bounds, image, choice, all_facts, checks};

use crate::draws::draws;
use rand_pcg::Pcg32;
use std::alloc::{AllocError, Global};

/// Appends a round, whose numbers are drawn.
pub(crate) fn round(
    alloc: Global,
    size: u32,
    shift: u32,
    rng: &mut Pcg32,
    text: &mut String,
) -> Result<(), AllocError>
    requires { 1 ≤ size }
    ensures text { OnOk result (string_bytes text.new ≡ string_bytes text.old ++ (round size shift rng.old).0) }
    ensures drawn { OnOk result (rng.new ≡ (round size shift rng.old).1) }
{
    let values = draws(alloc, rng, 1000, size)?;
    let partners = draws(alloc, rng, size, size)?;
    write_round(shift, values.as_slice(), partners.as_slice(), text)
}

/// Appends a round of these numbers.
fn write_round(
    shift: u32,
    values: &[u32],
    partners: &[u32],
    text: &mut String,
) -> Result<(), AllocError>
    requires some { 1 ≤ length values.now }
    requires values { All (λ v. v < 1000) values.now }
    requires partners { All (λ k. k < length values.now) partners.now }
    requires count { length partners.now ≡ length values.now }
    ensures { OnOk result (string_bytes text.new ≡ string_bytes text.old ++ round_text shift values.now partners.now) }
{
    write!(text, "(push 1)\n")?;
    declare(values.len(), text)?;
    assert_all(shift, values, partners, text)?;
    check(shift, values[0], text)
}

/// Appends the declarations of the constants.
fn declare(size: usize, text: &mut String) -> Result<(), AllocError>
    ensures { OnOk result (string_bytes text.new ≡ string_bytes text.old ++ declarations 0 size) }
{
    for place in 0..size {
        write!(text, "(declare-const x{place} Int)\n")?;
    }
    Ok(())
}

/// Appends what is asserted of all constants.
fn assert_all(
    shift: u32,
    values: &[u32],
    partners: &[u32],
    text: &mut String,
) -> Result<(), AllocError>
    requires values { All (λ v. v < 1000) values.now }
    requires partners { All (λ k. k < length values.now) partners.now }
    requires count { length partners.now ≡ length values.now }
    ensures { OnOk result (string_bytes text.new ≡ string_bytes text.old ++ all_facts shift values.now 0 partners.now) }
{
    for (place, &partner) in partners.iter().enumerate() {
        let value = values[place];
        bound(place, value, text)?;
        map(shift, place, text)?;
        choose(place, partner, value + values[partner as usize], text)?;
    }
    Ok(())
}

/// Appends that a constant is the value or one more.
#[tactic(auto, unfolding(crate::specs::Script::bounds))]
fn bound(place: usize, value: u32, text: &mut String) -> Result<(), AllocError>
    ensures { OnOk result (string_bytes text.new ≡ string_bytes text.old ++ bounds place value) }
{
    write!(
        text,
        "(assert (<= {value} x{place}))\n\
         (assert (<= x{place} (+ {value} 1)))\n"
    )
}

/// Appends the value of the function at a constant.
#[tactic(auto, unfolding(crate::specs::Script::image))]
fn map(shift: u32, place: usize, text: &mut String) -> Result<(), AllocError>
    ensures { OnOk result (string_bytes text.new ≡ string_bytes text.old ++ image shift place) }
{
    write!(text, "(assert (= (f x{place}) (+ x{place} {shift})))\n")
}

/// Appends that the sum of a constant and its partner is small, or the partner is less.
#[tactic(auto, unfolding(crate::specs::Script::choice))]
fn choose(place: usize, partner: u32, sum: u32, text: &mut String) -> Result<(), AllocError>
    ensures { OnOk result (string_bytes text.new ≡ string_bytes text.old ++ choice place partner sum) }
{
    write!(
        text,
        "(assert (or (<= (+ x{place} x{partner}) {sum}) (< x{partner} x{place})))\n"
    )
}

/// Appends the checks of a round.
#[tactic(auto, unfolding(crate::specs::Script::checks))]
fn check(shift: u32, value: u32, text: &mut String) -> Result<(), AllocError>
    ensures { OnOk result (string_bytes text.new ≡ string_bytes text.old ++ checks shift value) }
{
    write!(
        text,
        "(check-sat)\n\
         (push 1)\n\
         (assert (= x0 {value}))\n\
         (assert (not (= (f {value}) (+ {value} {shift}))))\n\
         (check-sat)\n\
         (pop 1)\n\
         (check-sat)\n\
         (pop 1)\n"
    )
}
