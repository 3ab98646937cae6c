//! Reads s-expressions (SMT-LIB 2.6, sections 3.1 and 3.2) from bytes that come in pieces.
//!
//! `Reader::new`, `feed`, `finish`, `next`: however the bytes are cut into pieces, an s-expression
//! or a fault is given as soon as it is settled, whatever bytes may follow, and is what the bytes
//! read as.
//!
//! `NeedMore` comes exactly where nothing is settled yet, and lets white space and comments go;
//! `End` exactly where the input has ended in white space or comments. Want of memory leaves what
//! is unread as it was.
//!
//! `reads_in_one_way`: an input has at most one first answer, and at most one is settled.
//!
//! `skips_nothing_else`: where white space and comments are let go, the same answers are settled,
//! and each s-expression is taken with the same rest.
#![tactic(auto)]

mod byte;
mod form;
mod law;
mod part;
mod reader;
mod scan;

pub use law::{reads_in_one_way, skips_nothing_else};
pub use reader::Reader;
use smt_meaning::{FaultKind, SExpr};

/// What a reader finds next.
#[derive(Drop)]
pub enum Next {
    /// An s-expression (SMT-LIB 2.6, section 3.2), which the reader has then read.
    Ready(SExpr),
    /// The bytes so far settle neither an s-expression nor a fault: more bytes, or the end of the input, must come first.
    NeedMore,
    /// The input has ended, and nothing but white space and comments is left.
    End,
    /// The input can't be read on: why, and the place, counted in bytes from 0. It is found again at each further call.
    Fault(FaultKind, u64),
}
