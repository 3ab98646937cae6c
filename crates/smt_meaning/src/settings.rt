//! The settings of a run.
//!
//! `--units` reaches 2^64 - 1, while the setting may be any number below 2^127: an option of the
//! language may set more. A limit below 0, which no words and no option give, counts as none.
//!
//! The number of workers is a parameter of what reports say; in replies it is that of the words of
//! the command line, which no option changes.

/// What the words of the command line set for a run.
#[derive(Clone, Copy, Debug, PartialEq, Eq, Drop)]
pub struct Settings {
    /// How many workers race at a check: 1 to 16.
    pub workers: u8,
    /// The limit of a check in units, where 0 stands for none: 0 to 2^127 - 1.
    pub units: i128,
    /// The most literals of a learnt clause that is shared: 0 to 64.
    pub share: u8,
    /// Where the workers' choices start.
    pub seed: u64,
}
