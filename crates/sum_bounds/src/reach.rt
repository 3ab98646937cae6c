//! How far a row lets its basic variable go.
ghost use Rattle.std.specs.Prelude.{◌<◌, length};
ghost use Rattle.simplex_steps.specs.State.{column_in};
ghost use Rattle.simplex_steps.specs.Conflict.{KnownEntries};

use fraction128::{Column, Entry, Fraction};
use simplex::Simplex;

/// The most or the least that a part of a row comes to by the bounds of its variable.
fn part(column: &Column, coefficient: Fraction, rises: bool) -> Option<Fraction> {
    let goes_up = (coefficient.numerator() > 0) == rises;
    let bound = if goes_up { column.upper } else { column.lower };
    let number = bound?;
    if number == i128::MIN {
        return None;
    }
    match coefficient.mul(Fraction::from_whole(number)) {
        Ok(part) => Some(part),
        Err(_) => None,
    }
}

fn sum(left: Fraction, right: Fraction) -> Option<Fraction> {
    match left.add(right) {
        Ok(sum) => Some(sum),
        Err(_) => None,
    }
}

/// The most or the least that entries come to by the bounds of their variables.
fn reach_of(simplex: &Simplex, entries: &[Entry], rises: bool) -> Option<Fraction>
    requires { KnownEntries (length simplex.now.columns) entries.now }
{
    let mut whole = Fraction::from_whole(0);
    let mut left = entries.len();
    while left > 0 {
        left -= 1;
        let entry = entries[left];
        let part = part(simplex.column(entry.variable), entry.coefficient, rises)?;
        whole = sum(whole, part)?;
    }
    Some(whole)
}

/// The most or the least that a row comes to by the bounds of its entries' variables.
fn reach_at(simplex: &Simplex, place: usize, rises: bool) -> Option<Fraction>
    requires { place < length simplex.now.table.rows }
{
    simplex.facts();
    let tableau = simplex.tableau();
    let entries = tableau.entries(place);
    reach_of(simplex, entries, rises)
}

/// The most, or the least, that the other variables of its row leave a basic variable. This only guides a search: `None` and a number promise nothing.
pub(crate) fn reach(simplex: &Simplex, variable: u32, rises: bool) -> Option<Fraction> {
    let place = simplex.tableau().place_of(variable)?;
    reach_at(simplex, place, rises)
}
