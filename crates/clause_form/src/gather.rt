//! Literals each once, in linear time: a table has where an atom's literal stands. It is never cleared, since an entry counts only where it leads to that atom.
ghost use Rattle.std.specs.Prelude.{◌≡◌, ◌≢◌, ◌<◌, true, false, [], ◌∷◌, ◌++◌, length, reverse, All, Contains, if◌then◌else◌, OnOk, IfOk, IfSome, IfNone};
ghost use Rattle.literals.specs.Signed.{Signed};
ghost use Rattle.clause_form.specs.Signs.{negated, is_sign_in, once, clashes};
ghost use Rattle.clause_form.specs.Node.{plain};
ghost use Rattle.clause_form.specs.Plain.{signs, IsPlaced};

use literals::Literal;
use std::alloc::AllocError;

/// The literal of an atom.
fn find(places: &[usize], kept: &[Literal], atom: u32) -> Option<Literal>
    requires { IsPlaced places.now kept.now }
    ensures some { IfSome result (λ (m : Signed). Contains kept.now m × (m.atom ≡ atom)) }
    ensures none { IfNone result (All (λ (m : Signed). m.atom ≢ atom) kept.now) }
{
    if atom as usize >= places.len() {
        return None;
    }
    let place = places[atom as usize];
    if place >= kept.len() {
        return None;
    }
    let literal = kept[place];
    if literal.atom() == atom {
        Some(literal)
    } else {
        None
    }
}

/// Makes room for the place of an atom.
fn reach(places: &mut Vec<usize>, kept: &[Literal], atom: usize) -> Result<(), AllocError>
    requires { IsPlaced places.old.items kept.now }
    ensures same { IsPlaced places.new.items kept.now }
    ensures within { OnOk result (atom < length places.new.items) }
{
    while places.len() <= atom {
        places.push(0)?;
    }
    Ok(())
}

/// Keeps a literal whose atom has none.
fn keep(
    places: &mut Vec<usize>,
    kept: &mut Vec<Literal>,
    literal: Literal,
) -> Result<(), AllocError>
    requires placed { IsPlaced places.old.items kept.old.items }
    requires new { All (λ (m : Signed). m.atom ≢ literal.atom) kept.old.items }
    ensures placed { OnOk result (IsPlaced places.new.items kept.new.items) }
    ensures kept { OnOk result (kept.new.items ≡ kept.old.items ++ literal ∷ []) }
{
    let atom = literal.atom() as usize;
    reach(places, kept, atom)?;
    places[atom] = kept.len();
    kept.push(literal)?;
    Ok(())
}

/// Whether two literals of one atom have the same sign.
fn is_same(literal: Literal, other: Literal) -> bool
    requires { literal.atom ≡ other.atom }
    ensures same { result ≡ true → literal ≡ other }
    ensures opposite { result ≡ false → negated (plain literal) ≡ plain other }
{
    literal.is_positive() == other.is_positive()
}

/// Keeps a literal unless it is kept; or answers that its negation is.
fn take_in(
    places: &mut Vec<usize>,
    kept: &mut Vec<Literal>,
    literal: Literal,
) -> Result<bool, AllocError>
    requires { IsPlaced places.old.items kept.old.items }
    ensures placed { OnOk result (IsPlaced places.new.items kept.new.items) }
    ensures clash { IfOk result (λ b. b ≡ true → is_sign_in (negated (plain literal)) (signs kept.old.items) ≡ true) }
    ensures clear { IfOk result (λ b. b ≡ false → is_sign_in (negated (plain literal)) (signs kept.old.items) ≡ false) }
    ensures kept { IfOk result (λ b. b ≡ false → signs kept.new.items ≡ (if is_sign_in (plain literal) (signs kept.old.items) then signs kept.old.items else signs kept.old.items ++ plain literal ∷ [])) }
{
    match find(places, kept, literal.atom()) {
        Some(other) => Ok(!is_same(literal, other)),
        None => {
            keep(places, kept, literal)?;
            Ok(false)
        }
    }
}

fn turn(literals: &mut Vec<Literal>)
    ensures { literals.new.items ≡ reverse literals.old.items }
{
    literals.reverse();
}

/// Keeps each of these literals once; or answers that an atom stands there with both signs.
pub(crate) fn gather(
    places: &mut Vec<usize>,
    kept: &mut Vec<Literal>,
    literals: &[Literal],
) -> Result<bool, AllocError>
    ensures clash { IfOk result (λ b. b ≡ clashes (signs literals.now)) }
    ensures kept { IfOk result (λ b. b ≡ false → signs kept.new.items ≡ once (signs literals.now)) }
{
    kept.clear();
    let mut i = literals.len();
    while i > 0 {
        i -= 1;
        if take_in(places, kept, literals[i])? {
            return Ok(true);
        }
    }
    turn(kept);
    Ok(false)
}
