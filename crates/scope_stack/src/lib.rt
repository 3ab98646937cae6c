//! The stack of levels, as the fold of the commands that work on it (SMT-LIB 2.6, sections 4.1.4
//! and 4.2.2 to 4.2.4).
//!
//! `ScopeStack`: each command on the stack does exactly what it is judged to do, is answered
//! `unsupported`, or is refused exactly as it is judged; then nothing changes, and no declaration,
//! name, term or number of it stays.
//!
//! The terms that a check assumes stand on a level of their own above the stack, which is then what
//! a push and their assertions would make of it. The level goes with the check: its terms stay
//! among the terms, or are taken back too, and the stack is as it was.
//!
//! Where declarations are global, level 0 gains them at whatever depth, and `reset-assertions`
//! keeps all of level 0 but the names that `:named` gave.
//!
//! `Stack`: beside the terms stand, by place, their sorts (of a term that has one it is this one)
//! and their levels (of a term whose symbols are declared the least one with all of them). It is
//! also what a pool of clauses stands on.
//!
//! `Part`: a check sees all of a stack, or a part: the same levels, and terms that make a lawful
//! stack with them, so that those of the assertions are among them. That there are no others, no
//! clause says. The whole comes back as it was.
//!
//! `Trial`: of a stack some assertions may be left out, by their places among all of them, and put
//! back, without memory. A check sees the same terms and levels with copies of the others, and the
//! whole comes back as it was.
#![tactic(auto)]

mod answers;
mod asserted;
mod copy;
mod declare;
mod facts;
mod few;
mod framed;
mod judge;
mod lawful;
mod room;
mod stack;
mod term;
mod term_set;
mod trial;

pub use answers::{Asked, Assertion, Carried, StackError};
pub use stack::{Part, ScopeStack, Stack};
pub use trial::{Thinned, Trial};
