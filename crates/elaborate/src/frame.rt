//! Where the reading of a term stands.
use crate::bindings::Bindings;
use crate::stack::Stack;
use crate::value::Value;
use smt_meaning::{Bytes, Operator, Seq};

/// A name with the term that it stands for.
#[derive(Drop)]
pub(crate) struct Binding {
    pub name: Bytes,
    pub value: Value,
}

/// A term whose reading has begun.
#[derive(Drop)]
pub(crate) enum Frame {
    /// After `(`.
    Opened,
    /// After a name, which is an operator or a declared function, and some arguments.
    Application(Bytes, Option<Operator>, Seq<Value>),
    /// In a head that divides by a number, in so many lists of it.
    Dividing(u128, usize),
    /// After such a head and some arguments.
    Division(u128, Seq<Value>),
    /// After `(let`.
    LetOpen,
    /// Among the bindings of a `let`, after some.
    Bindings(Seq<Binding>),
    /// After the `(` of a binding.
    BindingOpen(Seq<Binding>),
    /// After the name of a binding.
    Bound(Seq<Binding>, Bytes),
    /// After the term of a binding.
    BoundTo(Seq<Binding>, Bytes, Value),
    /// After the bindings of a `let`, which are so many of the newest.
    Body(usize),
    /// After the body of a `let`.
    Done(Value),
    /// After `(!`, where the term begins at a place.
    Annotation(usize),
    /// Among the attributes of a term that begins at a place, in so many lists of a value.
    Attributes(Value, usize, usize),
    /// After `:named`.
    Naming(Value, usize),
}

/// The whole term once it is read; else the terms whose reading has begun, the innermost first, and the names that are bound, the newest first.
#[derive(Drop)]
pub(crate) struct Walk {
    pub answer: Option<Value>,
    pub frames: Stack<Frame>,
    pub bindings: Bindings,
}
