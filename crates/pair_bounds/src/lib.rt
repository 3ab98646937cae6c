//! The bounds that compare two Int terms, in normal form (Dutertre and de Moura, CAV 2006).
//!
//! `at_most`, `below`: the bound by which two terms compare, exactly the definition's, with all
//! numbers in the range; refused exactly where folding a term, or the pair, leaves it.
//!
//! `turn`: a bound whose sum has a negative first coefficient as one on the negated sum's other
//! side, with the same truth value under every interpretation.
//!
//! `add_rows`, `row_bound`: the rows that the definition gives `div`, `mod`, `abs` and a
//! divisibility, over places, and the bound in normal form of each limit of a row, exactly the
//! definition's; refused exactly where folding leaves the range. `rows_are_atoms`: these bounds are
//! the atoms that a stack has for the term. `large_divisor_leaves_range`: with a divisor out of the
//! range folding them leaves it.
#![tactic(auto)]

mod normal;
mod pairs;
mod rows;
mod turning;

pub use pairs::{at_most, below};
pub use rows::{
    Row, RowLimit, add_rows, divisor, large_divisor_leaves_range, row_bound, rows_are_atoms,
};
pub use turning::{Limit, turn};
