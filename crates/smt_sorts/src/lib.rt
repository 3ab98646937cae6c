//! The names that a script declares, by levels: sorts and functions (SMT-LIB 2.6, sections 4.2.2
//! and 4.2.3).
//!
//! `Table`: names are found exactly as the signature's definitions find them. `E24` comes before
//! `E12`, each exactly where it should; `TooManySymbols` exactly where 4,294,967,295 numbers were
//! given. A refused command leaves the table as it was.
//!
//! A declaration joins the newest level, or level 0 where it is global, and levels go with their
//! names, without memory. Level 0 alone can be kept, without the names that went with assertions.
//! The table tells what has an id, and the least level with it.
#![tactic(auto)]

mod entries;
mod errors;
mod places;
mod reserved;
mod table;
mod workshop;

pub use errors::{AddError, NameError};
pub use table::Table;
pub use workshop::{Kept, Workshop};
