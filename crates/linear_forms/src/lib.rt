//! Linear forms of Int terms (Dutertre and de Moura, CAV 2006).
//!
//! `LinearForms::cover`, `form`, `cut`: the linear form of each term of a store, folded once from
//! the left: exactly the definition's where no number of the folding leaves the range, else the
//! place of the part at which it does, whose arguments' foldings stay in the range.
//!
//! `LinearForms::cover_counted`: the forms of the first so many terms, with a count of steps, one for
//! each term that wasn't known.
//!
//! Sums are in ascending order of places, without zero coefficients, and name no place past the
//! term's own; want of memory keeps what was known.
//!
//! `LinearForms::difference`: the form of the difference of two terms, exactly the definition's
//! where no number of the folding leaves the range; else the part at which one of the two leaves
//! it, or that the pair does. `LinearForms::combine`: the same of a sum of multiples of terms.
//! `minus`: the difference of two numbers, where it is in the range.
#![tactic(auto)]

mod coefficients;
mod differences;
mod entries;
mod multiples;
mod nodes;
mod products;
mod sums;
mod table;

pub use coefficients::minus;
pub use differences::DifferenceError;
pub use entries::LinearForm;
pub use multiples::Multiple;
pub use table::LinearForms;
