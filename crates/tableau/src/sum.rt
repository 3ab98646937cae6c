//! Sums of variables, written by variables that aren't basic.
//!
//! Why this order. Its terms are taken in order, each term's row (or the variable itself) times the
//! coefficient, added to what is there so far; coefficients that are absent count as 0, whose steps
//! always fit. Then its value: 0, and each entry times its variable's value, in ascending order. So
//! the definition lists the very numbers that are formed here. A new row's variables are given by
//! whoever has the map from terms to variables.
ghost use Rattle.std.specs.Prelude.{◌≡◌, ◌≢◌, ℕ, ◌+◌, ◌-◌, ◌^◌, ◌<◌, ◌≤◌, pos, true, false, [], ◌∷◌, ◌++◌, length, OnOk, OnErr, IfOk, IfErr};
ghost use Rattle.fraction128.specs.Number.{whole};
ghost use Rattle.fraction128.specs.Whole.{InRange};
ghost use Rattle.fraction128.specs.Grid.{row_of, no_coefficients};
ghost use Rattle.tableau.specs.Failing.{IsRange};
ghost use Rattle.tableau.specs.Fitting.{merged_fits};
ghost use Rattle.tableau.specs.Rows.{merged};
ghost use Rattle.tableau.specs.Table.{IsTable, IsOpenRow};
ghost use Rattle.tableau.specs.Written.{parts_written, parts_fit, parts_row, AreParts, form_of, IsWritten};

use crate::failure::Failure;
use crate::merge::append_merged;
use crate::table::Tableau;
use fraction128::{Entry, Fraction};
use std::alloc::Global;
use std::mem;

/// A coefficient and the variable that it multiplies.
#[derive(Clone, Copy, PartialEq, Eq, Drop)]
pub struct Part {
    pub coefficient: i128,
    pub variable: u32,
}

/// Fills the buffer with the sum of the entries and a multiple of a variable, which is written by variables that aren't basic.
fn add_part(
    out: &mut Vec<Entry>,
    tableau: &Tableau,
    sum: &[Entry],
    part: Part,
) -> Result<(), Failure>
    requires { InRange part.coefficient }
    ensures ok { OnOk result (out.new.items ≡ merged (whole part.coefficient) sum.now (form_of (row_of tableau.now.rows part.variable) part.variable)) }
    ensures fits { OnOk result (merged_fits (whole part.coefficient) sum.now (form_of (row_of tableau.now.rows part.variable) part.variable) ≡ true) }
    ensures range { IfErr result (λ e. IsRange e → merged_fits (whole part.coefficient) sum.now (form_of (row_of tableau.now.rows part.variable) part.variable) ≡ false) }
{
    out.clear();
    let factor = Fraction::from_whole(part.coefficient);
    match tableau.place_of(part.variable) {
        Some(place) => append_merged(out, sum, factor, tableau.entries(place)),
        None => {
            let itself = [Entry {
                variable: part.variable,
                coefficient: Fraction::from_whole(1),
            }];
            append_merged(out, sum, factor, &itself)
        }
    }
}

/// A sum of variables, its parts in order, written by variables that aren't basic.
pub fn write_parts(tableau: &Tableau, alloc: Global, parts: &[Part]) -> Result<Vec<Entry>, Failure>
    requires { AreParts tableau.now.count parts.now }
    ensures ok { IfOk result (λ es. IsWritten tableau.now parts.now es.items) }
    ensures fits { OnOk result (parts_fit tableau.now.count tableau.now.rows no_coefficients parts.now ≡ true) }
    ensures range { IfErr result (λ e. IsRange e → parts_fit tableau.now.count tableau.now.rows no_coefficients parts.now ≡ false) }
{
    tableau.facts();
    let mut sum = Vec::new(alloc);
    let mut spare = Vec::new(alloc);
    for part in parts {
        add_part(&mut spare, tableau, &sum, *part)?;
        mem::swap(&mut sum, &mut spare);
    }
    Ok(sum)
}

/// Adds a row for a sum of variables, its parts in order, whose basic variable is new: of each valuation of the other variables it has the sum's value. An `Err` changes nothing.
pub fn add_sum(tableau: &mut Tableau, alloc: Global, parts: &[Part]) -> Result<u32, Failure>
    requires parts { AreParts tableau.old.count parts.now }
    requires room { tableau.old.count < 2 ^ 32 - 1 }
    ensures number { IfOk result (λ i. i ≡ tableau.old.count) }
    ensures ok { OnOk result (tableau.new ≡ record { count = tableau.old.count + 1; rows = tableau.old.rows ++ parts_row tableau.old.count tableau.old.rows parts.now ∷ [] }) }
    ensures fits { OnOk result (parts_fit tableau.old.count tableau.old.rows no_coefficients parts.now ≡ true) }
    ensures range { IfErr result (λ e. IsRange e → parts_fit tableau.old.count tableau.old.rows no_coefficients parts.now ≡ false) }
    ensures err { OnErr result (tableau.new ≡ tableau.old) }
{
    let entries = write_parts(tableau, alloc, parts)?;
    tableau.append_row(alloc, entries)
}
