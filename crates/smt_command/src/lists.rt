//! Lists among the arguments: of symbols, sorts, parameters and terms.
ghost use Rattle.std.specs.Prelude.{◌≡◌, Option, IfOk, OnSome};
ghost use Rattle.smt_meaning.specs.Command.{each, terms};
ghost use Rattle.smt_meaning.specs.Sexp.{Sexp};
ghost use Rattle.smt_command.specs.Arguments.{first_by, left, rest_of};

use crate::arguments::{Arguments, Kind};
use smt_meaning::language::{Parameter, WrittenSort};
use smt_meaning::{Bytes, SExpr, Seq};
use std::alloc::{AllocError, Global};

/// What a command may have a list of.
pub trait Listed: Sized {
    /// What an s-expression is as one of them.
    ghost read_as: { Sexp → Option Self };

    /// The next one of a list, which is read. An `Err` is want of memory.
    fn next_of(inside: &mut Arguments<'_>, alloc: Global) -> Result<Option<Self>, AllocError>
        ensures item { IfOk result (λ r. r ≡ first_by read_as (left inside.old)) }
        ensures read { IfOk result (λ r. OnSome r (left inside.new ≡ rest_of (left inside.old))) };
}

impl Listed for Bytes {
    ghost use Rattle.smt_meaning.specs.Command.{symbol};

    ghost read_as = { symbol };

    fn next_of(inside: &mut Arguments<'_>, alloc: Global) -> Result<Option<Self>, AllocError> {
        match inside.word(Kind::Symbol) {
            Some(name) => Ok(Some(Seq::copy(alloc, name)?)),
            None => Ok(None),
        }
    }
}

impl Listed for WrittenSort {
    ghost use Rattle.smt_meaning.specs.Command.{written_sort};

    ghost read_as = { written_sort };

    fn next_of(inside: &mut Arguments<'_>, alloc: Global) -> Result<Option<Self>, AllocError> {
        inside.sort(alloc)
    }
}

impl Listed for Parameter {
    ghost use Rattle.smt_meaning.specs.Command.{parameter};

    ghost read_as = { parameter };

    fn next_of(inside: &mut Arguments<'_>, alloc: Global) -> Result<Option<Self>, AllocError> {
        inside.parameter(alloc)
    }
}

/// All of a list, where each s-expression in it is one of them.
pub fn all<T: Listed + Drop>(
    alloc: Global,
    mut inside: Arguments<'_>,
) -> Result<Option<Seq<T>>, AllocError>
    ensures { IfOk result (λ r. r ≡ each T.read_as (left inside.entry)) }
{
    let mut items = Seq::new(alloc);
    while !inside.is_end() {
        let Some(item) = T::next_of(&mut inside, alloc)? else {
            return Ok(None);
        };
        items.push(item)?;
    }
    Ok(Some(items))
}

/// The terms in a list of terms.
pub fn terms(alloc: Global, mut inside: Arguments<'_>) -> Result<Seq<SExpr>, AllocError>
    ensures { IfOk result (λ r. r ≡ terms (left inside.entry)) }
{
    let mut terms = Seq::new(alloc);
    while let Some(term) = inside.term(alloc)? {
        terms.push(term)?;
    }
    Ok(terms)
}
