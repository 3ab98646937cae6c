//! Commands, as they are read from an s-expression alone (SMT-LIB 2.6, section 4.2).
//!
//! Why a command is read from an s-expression alone: what needs no state is decided there: forms,
//! numerals past 128 bits where they aren't terms, unknown options and information, output channels
//! other than those that are there, and what is left out, which are all one command, `LeftOut`,
//! answered `unsupported`.
//!
//! What a command does on the stack is judged from the command, a type of its own; how an
//! s-expression is read as a command is apart. `get-value` is one of the stack's commands, as its
//! terms join the list of judged trees, which is what the limit of terms counts.
use crate::options::{InfoName, OptionName, OptionSetting};
use crate::seq::{Bytes, Seq};
use crate::tokens::{Inner, SExpr};

/// A sort as it is written.
#[derive(Drop)]
pub enum WrittenSort {
    /// A symbol.
    Name(Bytes),
    /// A list that begins with this symbol.
    Applied(Bytes),
}

/// A parameter of a definition, with its sort as it is written.
#[derive(Drop)]
pub struct Parameter {
    pub name: Bytes,
    pub sort: WrittenSort,
}

/// A command (SMT-LIB 2.6, section 4.2), judged from an s-expression alone. Its terms and sorts are as they are written, and its numbers are at most 2^127 - 1.
#[derive(Drop)]
pub enum Command {
    /// `(set-logic name)`
    SetLogic(Bytes),
    /// `(set-option :option value)`
    SetOption(OptionSetting),
    /// `(get-option :option)`
    GetOption(OptionName),
    /// `(set-info :keyword value)`, which says nothing to the solver.
    SetInfo,
    /// `(get-info :keyword)`
    GetInfo(InfoName),
    /// `(echo text)`
    Echo(Bytes),
    Exit,
    Reset,
    ResetAssertions,
    /// `(declare-sort name arity)`
    DeclareSort(Bytes, i128),
    /// `(define-sort name (parameter ..) sort)`
    DefineSort(Bytes, Seq<Bytes>, WrittenSort),
    /// `(declare-const name sort)`
    DeclareConst(Bytes, WrittenSort),
    /// `(declare-fun name (sort ..) sort)`
    DeclareFun(Bytes, Seq<WrittenSort>, WrittenSort),
    /// `(define-fun name ((parameter sort) ..) sort term)`
    DefineFun(Bytes, Seq<Parameter>, WrittenSort, SExpr),
    /// `(assert term)`
    Assert(SExpr),
    CheckSat,
    /// `(check-sat-assuming (term ..))`
    CheckSatAssuming(Seq<SExpr>),
    /// `(push n)`, where n is 1 if it isn't written.
    Push(i128),
    /// `(pop n)`, where n is 1 if it isn't written.
    Pop(i128),
    /// `(get-value (term ..))`
    GetValue(Seq<SExpr>),
    GetModel,
    GetAssertions,
    GetAssignment,
    GetUnsatCore,
    GetUnsatAssumptions,
    /// `(minimize term)`, a command of this project's own.
    Minimize(Inner),
    /// A command of the standard, an option, an output channel or a piece of information that is left out: it is answered `unsupported`.
    LeftOut,
}
