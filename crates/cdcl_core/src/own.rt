//! Clauses without repeats.
ghost use Rattle.std.specs.Prelude.{◌≡◌, true, false, Contains, IfOk, OnOk};
ghost use Rattle.literals.specs.Signed.{opposite};
ghost use Rattle.search_port.specs.Forcing.{HasNoPair};
ghost use Rattle.cdcl_core.specs.Turns.{GainsNew, IsDistinct};

use literals::Literal;
use search_port::Lemma;
use smt_meaning::Seq;
use std::alloc::{AllocError, Global};

fn has(literals: &[Literal], literal: Literal) -> bool
    ensures yes { result ≡ true → Contains literals.now literal }
    ensures no { result ≡ false → Contains literals.now literal → ⊥ }
{
    for other in literals {
        if *other == literal {
            return true;
        }
    }
    false
}

// The literal joins those that are there, unless it is one of them.
fn join(own: &mut Vec<Literal>, literal: Literal) -> Result<(), AllocError>
    ensures { OnOk result (GainsNew own.old.items own.new.items literal) }
{
    if has(own.as_slice(), literal) {
        return Ok(());
    }
    own.push(literal)?;
    Ok(())
}

// The clause without repeats.
pub fn distinct(alloc: Global, clause: &Lemma) -> Result<Lemma, AllocError>
    requires { HasNoPair clause.now.literals }
    ensures { IfOk result (IsDistinct clause.now) }
{
    let literals = clause.literals.as_slice();
    let mut own = Vec::new(alloc);
    for literal in literals {
        join(&mut own, *literal)?;
    }
    Ok(Lemma {
        literals: Seq::from_vec(own),
        level: clause.level,
    })
}
