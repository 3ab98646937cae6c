//! What a check heeds of the options.
ghost use Rattle.std.specs.Prelude.{◌≡◌};
ghost use Rattle.session.specs.Heeded.{heeded};

use smt_meaning::Settings;
use smt_meaning::language::Options;

/// The settings of the words, with the limit of units and the seed that the options have: of the seed the lowest 64 bits.
pub fn in_force(settings: &Settings, options: &Options) -> Settings
    ensures { result ≡ heeded options.now settings.now }
{
    let seed = options.random_seed.unsigned_abs() % (1 << 64);
    Settings {
        units: options.reproducible_resource_limit,
        seed: seed as u64,
        ..*settings
    }
}
