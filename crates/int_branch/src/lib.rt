//! Branches at values that aren't whole: for a whole number one of two bounds holds (branch and
//! bound).
//!
//! `branch`, `branches_hold`: of a term and a value that isn't whole the floor k and the atoms `t
//! <= k` and `-t <= -k - 1`, in normal form and in the range. Exactly one of the two is true under
//! every interpretation, and so the clause of both, and that of both negated, are true.
#![tactic(auto)]

mod sides;

pub use sides::{Sides, branch, branches_hold};
