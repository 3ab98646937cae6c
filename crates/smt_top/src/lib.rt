//! Runs a script: bytes come in, replies go out, and what was answered goes to a ledger. Here
//! stands the headline.
//!
//! `run`, `run_within`: the clause `Ran`. Under the settings of the words, the journal is legal
//! over the whole language as far as it goes at every status, where checks on all stacks are
//! decided.
//!
//! At 0 and 1 it is legal for the bytes taken and for all that the source has, which it read to its
//! end unless an exit or a fault ended it.
//!
//! The status is 1 exactly where a reply is an error. At 3 and 6 the journal answers exactly the
//! s-expressions that the bytes taken settle.
//!
//! Its whole text is written at each status but 4, where all is but the last entry's text, of which
//! a front is. At each status the sink was called once for each reply that has a text and not
//! otherwise; where the journal has no text, the sink is as it was.
//!
//! `sat` stands only with a kept model that makes every assertion true, with every number on the
//! way in the range; `unsat` only where no interpretation does.
//!
//! `unknown` stands only with a kept report of each of the workers that the words say. Each shows
//! as many new units of its search as the limit in force says, where a number left the range, or
//! that memory was wanting. Every other command has exactly the reply, and leaves exactly the state,
//! that the definitions say.
//!
//! Status 2 comes only where the words are refused, and where they are nothing is read, written or
//! answered (the status is then 2, or 5 for want of memory); 3 and 4 come only where the source's
//! or the sink's count of faults rose. The note goes by the status.
//!
//! Where a source tells how many of its calls gave a byte or more, no more calls do than the budget
//! has; status 6 comes only where as many did, and a run that ends at 3, or at 0 or 1 with neither
//! exit nor fault, had fewer.
//!
//! Where a source tells nothing of its calls, 6 comes only where at least as many bytes were taken
//! as the budget has calls.
//!
//! `run_through`: as `run_within`, through any ledger of entries: there is a journal with which all
//! of that holds, and the ledger gained exactly its entries, where it tells them. Where the words
//! are refused the journal is empty, and source, sink and ledger are as they were.
//!
//! `run_within` is this with a list as its ledger; the program with one that keeps nothing.
//!
//! `Ledger::keep`: the entry stands behind those that the ledger had, where it tells them; want of
//! memory takes nothing.
#![tactic(auto)]

mod ledger;
mod serving;
mod top;

pub use ledger::{Forgetting, Ledger};
pub use top::{Ended, Note, Outcome, run, run_through, run_within, unbegun};
