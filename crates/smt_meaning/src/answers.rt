//! Replies, with all that their texts print, the modes of a run, and the entries of a journal
//! (SMT-LIB 2.6, section 4.1).
//!
//! A success that isn't printed is a reply of its own, so that the text of a journal is the text of
//! its replies. A reply without text makes no call of the sink.
//!
//! The mode carries the kept model, so no model outlives its mode. `unknown`, and why, have their
//! texts; after it the mode holds the reason alone; the reports go to the journal's entry and
//! aren't kept twice. It is the standard's sat mode without a model, and a mode of its own in the
//! types, so no value has to say that there is no model.
use crate::errors::Error;
use crate::options::{Info, OptionValue, UnknownReason};
use crate::replies::Kept;
use crate::seq::{Bytes, Seq};
use crate::tokens::SExpr;
use crate::values::Interp;

/// A value as it is printed.
#[derive(Drop)]
pub enum PrintedValue {
    Truth(bool),
    Whole(i128),
    /// The element of this number, of the sort of this name.
    Element(u64, Bytes),
}

/// A term as it was given, and its value.
#[derive(Drop)]
pub struct TermValue {
    pub term: SExpr,
    pub value: PrintedValue,
}

/// The value at a list of arguments, as it is printed.
#[derive(Drop)]
pub struct PrintedRow {
    pub arguments: Seq<PrintedValue>,
    pub value: PrintedValue,
}

/// A function of a model as it is printed: its name, the names of its sorts, its rows and its default.
#[derive(Drop)]
pub struct PrintedFunction {
    pub name: Bytes,
    pub arguments: Seq<Bytes>,
    pub result: Bytes,
    pub rows: Seq<PrintedRow>,
    pub default: PrintedValue,
}

/// A name that `:named` gave to a Bool term, and the term's value.
#[derive(Drop)]
pub struct NamedTruth {
    pub name: Bytes,
    pub value: bool,
}

/// A reply (SMT-LIB 2.6, section 4.1), with all that its text prints.
#[derive(Drop)]
pub enum Reply {
    /// The command was carried out, and `:print-success` is on after it.
    Success,
    /// The command was carried out, and `:print-success` is off after it, so nothing is written.
    Silent,
    Unsupported,
    Sat,
    Unsat,
    Unknown,
    Echo(Bytes),
    Option(OptionValue),
    Info(Info),
    Values(Seq<TermValue>),
    Model(Seq<PrintedFunction>),
    Assertions(Seq<SExpr>),
    Assignment(Seq<NamedTruth>),
    /// The names of assertions.
    UnsatCore(Seq<Bytes>),
    UnsatAssumptions(Seq<SExpr>),
    /// The least value of a term.
    Minimum(i128),
    Error(Error),
}

/// The modes (SMT-LIB 2.6, section 4.1.3).
#[derive(Drop)]
pub enum Mode {
    Start,
    Assert,
    /// After `sat`, with the model that is kept.
    Sat(Interp),
    /// The mode sat after `unknown`, with its reason: no model is kept.
    Unknown(UnknownReason),
    Unsat,
}

/// An entry of the journal: what was answered to one s-expression, or to a fault.
#[derive(Drop)]
pub struct Entry {
    /// Counted from 0.
    pub number: u64,
    pub reply: Reply,
    pub kept: Kept,
}
