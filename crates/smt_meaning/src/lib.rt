//! The plain types of the solver, and in `specs/` the definitions of what they mean: of the whole
//! language, its commands, replies and journals, and of what a report shows. The crates above read
//! these; nothing is computed here. `docs/DEFINITIONS.md` has the definitions in plain words, each
//! with its section of SMT-LIB 2.6 or its paper.
//!
//! `SExpr`, `Tokens`, `TokenView`: an s-expression is seen as its list of tokens, whose parentheses
//! match, and kept as flat lists of bytes, kinds and ends. A token at a place is a view into them;
//! a part or a copy is a list of its own. `push` adds exactly the token or changes nothing. `Inner`
//! is one that may stand in a list.
//!
//! `Seq`, `Terms`, `Declaration`, `Body`: small lists whose value is a list, and a declaration or
//! definition as the record that the definitions speak of.
#![tactic(auto)]

mod answers;
mod clauses;
mod commands;
mod declarations;
mod errors;
mod kinds;
mod nodes;
mod options;
mod refusals;
mod replies;
mod reports;
mod seq;
mod settings;
mod terms;
mod tokens;
mod values;

pub use clauses::{Atom, AtomId, Clause, ClauseId, Literal, Sum, Summand};
pub use declarations::{Body, Declaration, Rank};
pub use nodes::{Layer, Node, Terms};
pub use refusals::Refusal;
pub use replies::{Best, Held, Kept, Reason};
pub use reports::{Cause, RangeSeen, Report, Unit};
pub use seq::{Bytes, Seq};
pub use settings::Settings;
pub use terms::{Head, Operator, TermId};
pub use tokens::{FaultKind, Inner, SExpr, Token, TokenView, Tokens, Word};
pub use values::{Interp, Row, Sort, SymId, Table, Value};

/// The commands and replies of the language.
pub mod language {
    pub use crate::answers::{
        Entry, Mode, NamedTruth, PrintedFunction, PrintedRow, PrintedValue, Reply, TermValue,
    };
    pub use crate::commands::{Command, Parameter, WrittenSort};
    pub use crate::errors::Error;
    pub use crate::options::{
        Channel, Info, InfoName, OptionName, OptionSetting, OptionValue, Options, UnknownReason,
    };
}
