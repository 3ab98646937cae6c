//! The script that a seed and a size give: a benchmark over integers and one function, whose answers are known. The same seed and size give the same bytes at each call.
#![tactic(auto)]

ghost use Rattle.std.specs.Prelude.{◌≡◌, ◌≤◌, IfOk, string_bytes};
ghost use Rattle.script_gen.specs.Script.{script};

mod draws;
mod examples;
mod round;

use draws::draw;
pub use examples::{draws_of_seed_one, smallest_script};
use rand_core::SeedableRng;
use rand_pcg::Pcg32;
use round::round;
use std::alloc::{AllocError, Global};

const ROUNDS: u32 = 4;

/// The script of a seed and a size. Its size is the number of constants.
pub fn script(alloc: Global, seed: u64, size: u32) -> Result<String, AllocError>
    requires { (1 ≤ size) × (size ≤ 2000) }
    ensures { IfOk result (λ s. string_bytes s ≡ script seed size) }
{
    let mut rng = Pcg32::seed_from_u64(seed);
    let shift = draw(&mut rng, 1000);
    let mut text = String::new(alloc);
    write!(
        text,
        "(set-option :print-success false)\n\
         (set-logic QF_UFLIA)\n\
         (declare-fun f (Int) Int)\n"
    )?;
    for _ in 0..ROUNDS {
        round(alloc, size, shift, &mut rng, &mut text)?;
    }
    write!(text, "(echo \"size {size} sat 8 unsat 4\")\n")?;
    Ok(text)
}
