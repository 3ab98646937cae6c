//! Tests of single calls, each a table with outcomes from elsewhere: numbers, terms, clauses, conflicts, bytes and words.
//!
//! What a script reaches is tested by the runs of the program; here stands what no script tells apart, or no program calls.
//!
//! Tests of races over a pool, with and without threads: two workers at a gate, four over one cell,
//! a full pool, and the same race by steps of the pure machine.
#![tactic(auto)]

#[cfg(test)]
mod bounds;
#[cfg(test)]
mod clauses;
#[cfg(test)]
mod conflicts;
#[cfg(test)]
mod ends;
#[cfg(test)]
mod equalities;
#[cfg(test)]
mod fractions;
#[cfg(test)]
mod gates;
#[cfg(test)]
mod jobs;
#[cfg(test)]
mod pairs;
#[cfg(test)]
mod pivots;
#[cfg(test)]
mod reading;
#[cfg(test)]
mod room;
#[cfg(test)]
mod rows;
#[cfg(test)]
mod scripts;
#[cfg(test)]
mod stack;
#[cfg(test)]
mod terms;
#[cfg(test)]
mod tests;
#[cfg(test)]
mod values;
#[cfg(test)]
mod words;
