//! Terms are given to the terms around them.
//!
//! Why one pass does: a term is judged in one pass over its tokens, with a frame for each term that
//! is open. The forms of `let` and `!` are looked at before their terms, by the ends of lists,
//! which are found in one pass over the whole term.
//!
//! Each call of the walk over a term is made where the newest frame is one that it takes, and all
//! frames below that one wait for a term. So the walk gives want of memory where a growth was
//! refused, at the limits of the numbers of terms and of names, and where lists stand 2^64 deep
//! inside a head that divides or an attribute, more than any input has bytes; no clause says that
//! this isn't reached.
ghost use Rattle.std.specs.Prelude.{◌≡◌, ◌∷◌, List, None, true, drop, IfOk, OnOk, OnErr};
ghost use Rattle.elaborate.specs.declared.frame.Binding.{Binding as BindingValue};
ghost use Rattle.elaborate.specs.Frames.{outside, waits, AllWait};
ghost use Rattle.elaborate.specs.Steps.{kind_of, kind_of_frame, attribute_kind, is_answered, is_past, awaits_term, is_argument, is_divided, is_head, is_name, takes_list, takes_word, may_end, IsGiven, Given};

use crate::error::JudgeError;
use crate::frame::{Frame, Walk};
use crate::value::Value;
use std::alloc::AllocError;

/// What may come next.
#[derive(Clone, Copy, Drop)]
pub(crate) enum Kind {
    /// All is read.
    Answered,
    /// The whole term.
    Whole,
    /// An argument, or `)`.
    Argument,
    /// The term that a number divides, or `)`.
    Divided,
    /// A term.
    Term,
    /// The head of a list.
    Head,
    /// The list of the bindings of a `let`.
    LetList,
    /// A binding, or `)`.
    Binding,
    /// The name of a binding.
    BoundName,
    /// The end of a binding.
    BindingEnd,
    /// The end of a `let`.
    LetEnd,
    /// An attribute, or `)`.
    Attribute,
    /// A part of an attribute's value, or of a head that divides.
    Passed,
    /// The name of a term.
    Name,
}

fn frame_kind(frame: &Frame) -> Kind
    ensures { result ≡ kind_of_frame frame.now }
{
    match frame {
        Frame::Opened => Kind::Head,
        Frame::Application(_, _, _) => Kind::Argument,
        Frame::Dividing(_, _) => Kind::Passed,
        Frame::Division(_, _) => Kind::Divided,
        Frame::LetOpen => Kind::LetList,
        Frame::Bindings(_) => Kind::Binding,
        Frame::BindingOpen(_) => Kind::BoundName,
        Frame::Bound(_, _) => Kind::Term,
        Frame::BoundTo(_, _, _) => Kind::BindingEnd,
        Frame::Body(_) => Kind::Term,
        Frame::Done(_) => Kind::LetEnd,
        Frame::Annotation(_) => Kind::Term,
        Frame::Attributes(_, _, depth) => attribute_kind(*depth),
        Frame::Naming(_, _) => Kind::Name,
    }
}

fn attribute_kind(depth: usize) -> Kind
    ensures { result ≡ attribute_kind depth }
{
    if depth == 0 {
        Kind::Attribute
    } else {
        Kind::Passed
    }
}

/// What may come next in a walk.
pub(crate) fn what_comes(walk: &Walk) -> Kind
    ensures { result ≡ kind_of walk.now.answer walk.now.frames }
{
    match walk.answer {
        Some(_) => Kind::Answered,
        None => match walk.frames.newest() {
            Some(frame) => frame_kind(frame),
            None => Kind::Whole,
        },
    }
}

/// How many bindings end with the body of a `let`.
fn bound_by(frame: &Frame) -> usize
    ensures { (bs : List BindingValue) → drop result bs ≡ outside bs frame.now }
{
    match frame {
        Frame::Body(count) => *count,
        Frame::Opened => 0,
        Frame::Application(_, _, _) => 0,
        Frame::Dividing(_, _) => 0,
        Frame::Division(_, _) => 0,
        Frame::LetOpen => 0,
        Frame::Bindings(_) => 0,
        Frame::BindingOpen(_) => 0,
        Frame::Bound(_, _) => 0,
        Frame::BoundTo(_, _, _) => 0,
        Frame::Done(_) => 0,
        Frame::Annotation(_) => 0,
        Frame::Attributes(_, _, _) => 0,
        Frame::Naming(_, _) => 0,
    }
}

/// A frame after the term for which it waits.
fn given(frame: Frame, value: Value) -> Result<Frame, AllocError>
    requires { waits frame ≡ true }
    ensures { IfOk result (λ g. IsGiven frame value g) }
{
    match frame {
        Frame::Application(name, operator, mut arguments) => {
            arguments.push(value)?;
            Ok(Frame::Application(name, operator, arguments))
        }
        Frame::Division(number, mut arguments) => {
            arguments.push(value)?;
            Ok(Frame::Division(number, arguments))
        }
        Frame::Bound(bindings, name) => Ok(Frame::BoundTo(bindings, name, value)),
        Frame::Body(_) => Ok(Frame::Done(value)),
        Frame::Annotation(place) => Ok(Frame::Attributes(value, place, 0)),
        _ => unreachable!(),
    }
}

/// A frame on top. An `Err` is want of memory.
pub(crate) fn push(walk: &mut Walk, frame: Frame) -> Result<(), JudgeError>
    ensures ok { OnOk result (walk.new ≡ record { answer = walk.old.answer; frames = frame ∷ walk.old.frames; bindings = walk.old.bindings }) }
    ensures memory { OnErr result (result ≡ Err JudgeError.Memory) }
{
    match walk.frames.push(frame) {
        Ok(()) => Ok(()),
        Err(_) => Err(JudgeError::Memory),
    }
}

/// A term is given to the innermost open term, or is the whole one.
pub(crate) fn give(walk: &mut Walk, value: Value) -> Result<(), AllocError>
    requires none { walk.old.answer ≡ None }
    requires waits { AllWait walk.old.frames }
    ensures { OnOk result (Given walk.old value walk.new) }
{
    match walk.frames.pop() {
        None => walk.answer = Some(value),
        Some(frame) => {
            let count = bound_by(&frame);
            walk.bindings.drop_newest(count);
            let frame = given(frame, value)?;
            walk.frames.push(frame)?;
        }
    }
    Ok(())
}

/// All is read.
pub(crate) fn is_answered(kind: Kind) -> bool
    ensures { result ≡ is_answered kind }
{
    match kind {
        Kind::Answered => true,
        Kind::Whole => false,
        Kind::Argument => false,
        Kind::Divided => false,
        Kind::Term => false,
        Kind::Head => false,
        Kind::LetList => false,
        Kind::Binding => false,
        Kind::BoundName => false,
        Kind::BindingEnd => false,
        Kind::LetEnd => false,
        Kind::Attribute => false,
        Kind::Passed => false,
        Kind::Name => false,
    }
}

/// The token is passed over.
pub(crate) fn is_past(kind: Kind) -> bool
    ensures { result ≡ is_past kind }
{
    match kind {
        Kind::Answered => true,
        Kind::Whole => false,
        Kind::Argument => false,
        Kind::Divided => false,
        Kind::Term => false,
        Kind::Head => false,
        Kind::LetList => false,
        Kind::Binding => false,
        Kind::BoundName => false,
        Kind::BindingEnd => false,
        Kind::LetEnd => false,
        Kind::Attribute => false,
        Kind::Passed => true,
        Kind::Name => false,
    }
}

/// A term may come next.
pub(crate) fn awaits_term(kind: Kind) -> bool
    ensures { result ≡ awaits_term kind }
{
    match kind {
        Kind::Answered => false,
        Kind::Whole => true,
        Kind::Argument => true,
        Kind::Divided => true,
        Kind::Term => true,
        Kind::Head => false,
        Kind::LetList => false,
        Kind::Binding => false,
        Kind::BoundName => false,
        Kind::BindingEnd => false,
        Kind::LetEnd => false,
        Kind::Attribute => false,
        Kind::Passed => false,
        Kind::Name => false,
    }
}

/// An argument may come next.
pub(crate) fn is_argument(kind: Kind) -> bool
    ensures { result ≡ is_argument kind }
{
    match kind {
        Kind::Answered => false,
        Kind::Whole => false,
        Kind::Argument => true,
        Kind::Divided => false,
        Kind::Term => false,
        Kind::Head => false,
        Kind::LetList => false,
        Kind::Binding => false,
        Kind::BoundName => false,
        Kind::BindingEnd => false,
        Kind::LetEnd => false,
        Kind::Attribute => false,
        Kind::Passed => false,
        Kind::Name => false,
    }
}

/// The term that a number divides may come next.
pub(crate) fn is_divided(kind: Kind) -> bool
    ensures { result ≡ is_divided kind }
{
    match kind {
        Kind::Answered => false,
        Kind::Whole => false,
        Kind::Argument => false,
        Kind::Divided => true,
        Kind::Term => false,
        Kind::Head => false,
        Kind::LetList => false,
        Kind::Binding => false,
        Kind::BoundName => false,
        Kind::BindingEnd => false,
        Kind::LetEnd => false,
        Kind::Attribute => false,
        Kind::Passed => false,
        Kind::Name => false,
    }
}

/// The head of a list comes next.
pub(crate) fn is_head(kind: Kind) -> bool
    ensures { result ≡ is_head kind }
{
    match kind {
        Kind::Answered => false,
        Kind::Whole => false,
        Kind::Argument => false,
        Kind::Divided => false,
        Kind::Term => false,
        Kind::Head => true,
        Kind::LetList => false,
        Kind::Binding => false,
        Kind::BoundName => false,
        Kind::BindingEnd => false,
        Kind::LetEnd => false,
        Kind::Attribute => false,
        Kind::Passed => false,
        Kind::Name => false,
    }
}

/// The name of a term comes next.
pub(crate) fn is_name(kind: Kind) -> bool
    ensures { result ≡ is_name kind }
{
    match kind {
        Kind::Answered => false,
        Kind::Whole => false,
        Kind::Argument => false,
        Kind::Divided => false,
        Kind::Term => false,
        Kind::Head => false,
        Kind::LetList => false,
        Kind::Binding => false,
        Kind::BoundName => false,
        Kind::BindingEnd => false,
        Kind::LetEnd => false,
        Kind::Attribute => false,
        Kind::Passed => false,
        Kind::Name => true,
    }
}

/// A list that is no term may come next.
pub(crate) fn takes_list(kind: Kind) -> bool
    ensures { result ≡ takes_list kind }
{
    match kind {
        Kind::Answered => false,
        Kind::Whole => false,
        Kind::Argument => false,
        Kind::Divided => false,
        Kind::Term => false,
        Kind::Head => false,
        Kind::LetList => true,
        Kind::Binding => true,
        Kind::BoundName => false,
        Kind::BindingEnd => false,
        Kind::LetEnd => false,
        Kind::Attribute => true,
        Kind::Passed => true,
        Kind::Name => false,
    }
}

/// A token that is no term may come next.
pub(crate) fn takes_word(kind: Kind) -> bool
    ensures { result ≡ takes_word kind }
{
    match kind {
        Kind::Answered => false,
        Kind::Whole => false,
        Kind::Argument => false,
        Kind::Divided => false,
        Kind::Term => false,
        Kind::Head => false,
        Kind::LetList => false,
        Kind::Binding => false,
        Kind::BoundName => true,
        Kind::BindingEnd => false,
        Kind::LetEnd => false,
        Kind::Attribute => true,
        Kind::Passed => false,
        Kind::Name => true,
    }
}

/// A list that is no application may end.
pub(crate) fn may_end(kind: Kind) -> bool
    ensures { result ≡ may_end kind }
{
    match kind {
        Kind::Answered => false,
        Kind::Whole => false,
        Kind::Argument => false,
        Kind::Divided => false,
        Kind::Term => false,
        Kind::Head => false,
        Kind::LetList => false,
        Kind::Binding => true,
        Kind::BoundName => false,
        Kind::BindingEnd => true,
        Kind::LetEnd => true,
        Kind::Attribute => true,
        Kind::Passed => true,
        Kind::Name => false,
    }
}
