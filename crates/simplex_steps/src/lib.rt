//! Steps of the general simplex method over a tableau, with Bland's rule: values move until all are
//! within their bounds, or bounds are found that no values meet (Dutertre and de Moura, CAV 2006,
//! section 3; Bland, 1977). Its laws speak of the definitions of grids alone.
//!
//! `check`: the grid at the end is the one at the start after next steps of the definition, with
//! the number of pivots told; the rows' solutions stay. `Fits`: every value is within its bounds.
//! `Conflict`: exactly the bounds that stop a row, or the two of the least variable whose bounds
//! cross; each stands, and no values meet them.
//!
//! `Range`: the next step doesn't fit. `UnitsSpent`: the next step is a pivot that fits, and as
//! many were made as there was room for. What isn't basic at the end stands at a bound, or wasn't
//! basic at the start and has its value from then.
//!
//! Where lines are kept, the line of each pivot comes after those before, each by the definition
//! and of the grid at its step, which fits; each goes on from the basis that the one before it left.
//!
//! `look`: such an end where no step is taken; none where the next step is a move.
//!
//! `Suspects`: the variables among which a check looks; each other one is within its bounds, which
//! don't cross, before a check and after it, whatever the end.
//!
//! `runs_are_short`: every run of next steps of a grid of n variables, with nothing pending, values
//! that meet the rows and bounds that don't cross, has fewer than 3^n pivots: so the simplex method
//! ends whatever the numbers.
//!
//! `steps_keep`: a next step leads from a lawful grid to one; a move settles its variable; after a
//! pivot all that isn't basic is within its bounds.
//!
//! `lines_are_pivots`: the line of each pivot of a run, as a row of the grid before the step with
//! the columns of its variables, is a pivot by Bland's rule: its basic variable is outside one of
//! its bounds, and the one that moves is the least of the row that can bring it nearer.
//!
//! Neighbours among these lines differ in the basic variable, and that of the last isn't basic at
//! the end, also after lines of earlier runs. Where rows are identities between sums of terms, so
//! is a line, its values meet it, and its entries are of variables that aren't basic.
//!
//! `values_rest`: after a run each variable that isn't basic stands at one of its bounds, or wasn't
//! basic before and has the value that it had.
#![tactic(auto)]

ghost use Rattle.simplex_steps.specs.Law.{RunsAreShort, StepsKeep, MovesSettle, PivotsSettle, LinesArePivots, LinesGoOn, LinesAreRows, RunsRest, SolutionsAreFree, FreeAreSolutions, PivotsKeepFree, MovesKeepFree, PivotsExchange, RunsExchange, BasesDetermine};
ghost use Rattle.simplex_steps.specs.Suspects.{SuspectsAreCovered};
ghost use Rattle.simplex_steps.specs.TableRows.{TablesHaveRows};

mod bounds;
mod conflict;
mod find;
mod line;
mod moves;
mod run;
mod suspects;
mod turn;

pub use line::{PivotLines, copy_column, line_of_pivot};
pub use moves::{Moved, moved_by};
pub use run::{Checked, Outcome, check, look};
pub use suspects::Suspects;

/// A run of next steps of n variables has fewer than 3^n pivots.
pub fn runs_are_short()
    ensures { RunsAreShort }
{}

/// A next step keeps the shape of the rows, the values meet them again, and what isn't basic comes within its bounds and stays there.
pub fn steps_keep()
    ensures keep { StepsKeep }
    ensures moves { MovesSettle }
    ensures pivots { PivotsSettle }
{}

/// The lines of a run are pivots by Bland's rule, and neighbours among them differ in the basic variable; a line is a row of the grid, between the sums of its variables.
pub fn lines_are_pivots()
    ensures pivots { LinesArePivots }
    ensures series { LinesGoOn }
    ensures rows { LinesAreRows }
{}

/// After a run what isn't basic stands at one of its bounds, or it wasn't basic before and has the value that it had.
pub fn values_rest()
    ensures { RunsRest }
{}

/// The sums of what isn't basic are independent exactly where each solution of the rows comes from values of the terms, and next steps keep them so.
pub fn sums_stay_independent()
    ensures solutions { SolutionsAreFree }
    ensures free { FreeAreSolutions }
    ensures pivots { PivotsKeepFree }
    ensures moves { MovesKeepFree }
{}

/// The line of a pivot tells which variables are basic after it, and the lines of a run tell it at its end.
pub fn pivots_exchange()
    ensures one { PivotsExchange }
    ensures runs { RunsExchange }
{}

/// Where the sums of what isn't basic are independent, the basis determines the rows.
pub fn bases_determine_rows()
    ensures { BasesDetermine }
{}

/// A tableau's rows are rows of its grid.
pub fn tables_have_rows()
    ensures { TablesHaveRows }
{}

/// A variable outside its bounds is a suspect: an example.
pub fn suspects_are_covered()
    ensures { SuspectsAreCovered }
{}
