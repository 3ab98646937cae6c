//! Numbers below a bound, from a generator.
ghost use Rattle.std.specs.Prelude.{◌≡◌, ◌≤◌, ◌<◌, IfOk, All, length};
ghost use Rattle.script_gen.specs.Draws.{draw, draws};

use rand_core::utils::NextWord;
use rand_pcg::Pcg32;
use std::alloc::{AllocError, Global};

/// The next number.
pub(crate) fn draw(rng: &mut Pcg32, bound: u32) -> u32
    requires { 1 ≤ bound }
    ensures drawn { (result, rng.new) ≡ draw bound rng.old }
    ensures below { result < bound }
{
    rng.next_word() % bound
}

/// The next so many numbers.
pub(crate) fn draws(
    alloc: Global,
    rng: &mut Pcg32,
    bound: u32,
    count: u32,
) -> Result<Vec<u32>, AllocError>
    requires { 1 ≤ bound }
    ensures drawn { IfOk result (λ v. (v.items, rng.new) ≡ draws bound count rng.old) }
    ensures below { IfOk result (λ v. All (λ d. d < bound) v.items) }
    ensures count { IfOk result (λ v. length v.items ≡ count) }
{
    let mut numbers = Vec::new(alloc);
    for _ in 0..count {
        numbers.push(draw(rng, bound))?;
    }
    Ok(numbers)
}
