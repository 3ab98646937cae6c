//! Examples of the definitions, worked out by another program, and an invented one.
ghost use Rattle.std.specs.Prelude.{◌≡◌, ◌∷◌, []};
ghost use Rattle.script_gen.specs.Draws.{draws, seeded};
ghost use Rattle.script_gen.specs.Script.{script};
ghost use Rattle.script_gen.specs.Examples.{smallest, invented};

/// The first draws of seed 1.
pub fn draws_of_seed_one()
    ensures { (draws 1000 6 (seeded 1)).0 ≡ 574 ∷ 214 ∷ 417 ∷ 984 ∷ 235 ∷ 480 ∷ [] }
{}

/// The script of seed 1 and size 1 is the one that another program makes, and not one whose first sum is of one value alone.
pub fn smallest_script()
    ensures made { script 1 1 ≡ smallest }
    ensures not_invented { script 1 1 ≡ invented → ⊥ }
{}
