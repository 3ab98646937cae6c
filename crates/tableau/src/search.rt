//! The place of a variable among the entries of a row.
ghost use Rattle.std.specs.Prelude.{◌≡◌, ℕ, ◌<◌, ◌≤◌, ◌≢◌, true, false, length, IfSome, IfNone};
ghost use Rattle.tableau.specs.Rows.{IsAscending, variable_at, coefficient_at};
ghost use Rattle.tableau.specs.Table.{AreNonzero};
ghost use Rattle.fraction128.specs.Number.{whole, is_zero};
ghost use Rattle.fraction128.specs.Grid.{coefficient};

use fraction128::{Entry, Fraction};

/// The place of the entry of a variable.
pub fn place_of(entries: &[Entry], variable: u32) -> Option<usize>
    requires { IsAscending entries.now }
    ensures some { IfSome result (λ i. i < length entries.now) }
    ensures variable { IfSome result (λ i. variable_at entries.now i ≡ variable) }
    ensures none { IfNone result ((k : ℕ) → k < length entries.now → variable_at entries.now k ≢ variable) }
{
    let mut low = 0;
    let mut high = entries.len();
    while low < high {
        let middle = low + (high - low) / 2;
        let found = entries[middle].variable;
        if found == variable {
            return Some(middle);
        }
        if found < variable {
            low = middle + 1;
        } else {
            high = middle;
        }
    }
    None
}

/// How many entries, in ascending order, are of variables below this one.
pub fn place_among(entries: &[Entry], variable: u32) -> usize
    requires { IsAscending entries.now }
    ensures within { result ≤ length entries.now }
    ensures before { (k : ℕ) → k < result → variable_at entries.now k < variable }
    ensures after { (k : ℕ) → result ≤ k → k < length entries.now → variable ≤ variable_at entries.now k }
{
    let mut low = 0;
    let mut high = entries.len();
    while low < high {
        let middle = low + (high - low) / 2;
        if entries[middle].variable < variable {
            low = middle + 1;
        } else {
            high = middle;
        }
    }
    low
}

/// The coefficient of a variable, where it has an entry.
pub fn coefficient_in(entries: &[Entry], variable: u32) -> Option<Fraction>
    requires ascending { IsAscending entries.now }
    requires nonzero { AreNonzero entries.now }
    ensures some { IfSome result (λ x. x ≡ coefficient entries.now variable) }
    ensures nonzero { IfSome result (λ x. is_zero x ≡ false) }
    ensures zero { IfNone result (is_zero (coefficient entries.now variable) ≡ true) }
    ensures none { IfNone result ((k : ℕ) → k < length entries.now → variable_at entries.now k ≢ variable) }
{
    match place_of(entries, variable) {
        Some(i) => Some(entries[i].coefficient),
        None => None,
    }
}
