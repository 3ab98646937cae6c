//! Bounds on sums of terms, each told with the literal that says it: whether rational numbers meet
//! all of them, or which of them no numbers meet, or no whole ones.
//!
//! `SumBounds::leaf`, `sum`: a term or a sum has one variable, found again if it is there. A sum is
//! turned so that its first coefficient is positive; that the range is left is told only where a
//! new row, or its value, leaves it, and changes nothing.
//!
//! `assert`, `undo_to`: "sum <= k" of a true atom, "sum >= k + 1" of a false one, on the turned
//! sum's other side with the negated number where the sum is turned. A `k + 1` past the range is
//! told, and changes nothing; taking back keeps the first so many bounds, without memory.
//!
//! `check`: Fits: all bounds told hold of their sums at the values of the terms. Conflict:
//! literals, none twice, each the complement of that of a bound that was told, and whatever
//! rational numbers the terms have, not all of these bounds hold. The range, the room and the lines
//! as `simplex` says them.
//!
//! `look`: what such a check finds that takes no step, so that nothing changes; none where the next
//! step is a move.
//!
//! `whole_conflict`, `whole_conflicts_are_valid`: such literals of bounds of which, whatever whole
//! numbers the terms have, not all hold; a clause that is true under every interpretation where
//! each bound told is what its literal's atom says. That none is given promises nothing.
//!
//! It is sought in each row (Griggio, 2012), then at what fixed sums leave of others by a common
//! divisor: no numbers meet the bounds with such a sum at most a number, nor with it at least the
//! next one.
//!
//! `first_fraction`, `conflicts_are_valid`, `wholes_meet`: the least variable of a term whose value
//! isn't whole, with its floor, none exactly where all are whole; where each bound told is what its
//! literal's atom says, a conflict is a clause that is true under every interpretation; whole
//! values that meet the bounds meet them as whole numbers.
//!
//! `line`, `grid`, `origins`: the row of a basic variable with the columns of its variables; all
//! rows and columns as they are; each bound of a variable is one that was told.
//!
//! `spread`: numbers by term, moved within all bounds so that wanted terms have numbers of their own
//! where that is found. It promises nothing.
//!
//! `Progression`: numbers of which so many times is a start plus a multiple of a step. A part more
//! (a coefficient times a number, or times any whole number) leaves no sum out; `lacks_zero` says
//! yes only where 0 isn't among them.
#![tactic(auto)]

mod finding;
mod fractions;
mod laws;
mod lookup;
mod progression;
mod reach;
mod residues;
mod splits;
mod spread;
mod state;
mod told;
mod wholes;
mod writing;

pub use finding::{Checked, Finding};
pub use fractions::FractionalLeaf;
pub use laws::{conflicts_are_valid, whole_conflicts_are_valid, wholes_meet};
pub use progression::Progression;
pub use state::SumBounds;
pub use writing::SumVariable;
