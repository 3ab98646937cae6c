//! Numbers each once, in linear time: a table has where a number stands. It is never cleared, since an entry counts only where it leads to that number.
ghost use Rattle.std.specs.Prelude.{◌≡◌, ◌<◌, [], ◌∷◌, ◌++◌, length, false, OnOk};
ghost use Rattle.equality_clauses.specs.Once.{is_in, taken, once, IsPlaced};

use std::alloc::AllocError;

fn is_kept(places: &[usize], kept: &[u32], number: u32) -> bool
    requires { IsPlaced places.now kept.now }
    ensures { result ≡ is_in number kept.now }
{
    if number as usize >= places.len() {
        return false;
    }
    let place = places[number as usize];
    if place >= kept.len() {
        return false;
    }
    kept[place] == number
}

/// Keeps a number that isn't kept.
fn keep(places: &mut Vec<usize>, kept: &mut Vec<u32>, number: u32) -> Result<(), AllocError>
    requires placed { IsPlaced places.old.items kept.old.items }
    requires new { is_in number kept.old.items ≡ false }
    ensures placed { OnOk result (IsPlaced places.new.items kept.new.items) }
    ensures kept { OnOk result (kept.new.items ≡ kept.old.items ++ number ∷ []) }
{
    let place = number as usize;
    if places.len() <= place {
        places.resize(place + 1, 0)?;
    }
    places[place] = kept.len();
    kept.push(number)?;
    Ok(())
}

/// Keeps a number unless it is kept.
fn take(places: &mut Vec<usize>, kept: &mut Vec<u32>, number: u32) -> Result<(), AllocError>
    requires { IsPlaced places.old.items kept.old.items }
    ensures placed { OnOk result (IsPlaced places.new.items kept.new.items) }
    ensures kept { OnOk result (kept.new.items ≡ taken kept.old.items number) }
{
    if is_kept(places, kept, number) {
        return Ok(());
    }
    keep(places, kept, number)
}

/// Keeps each of these numbers once.
pub(crate) fn keep_once(
    places: &mut Vec<usize>,
    kept: &mut Vec<u32>,
    numbers: &[u32],
) -> Result<(), AllocError>
    ensures { OnOk result (kept.new.items ≡ once numbers.now) }
{
    kept.clear();
    for number in numbers {
        take(places, kept, *number)?;
    }
    Ok(())
}
