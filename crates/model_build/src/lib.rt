//! Tables of a signature's functions under which the terms of a stack have given values.
//!
//! `given_values`: each part is given a value of its sort from lists by place, sums, differences and
//! products what their arguments give.
//!
//! `model_from`: of terms that are given values of their sorts, two applications that clash exactly
//! where there are two: of one declared symbol and given different values, with equal arguments in
//! the range or each with an argument past it. Else one table for each declared function of the
//! signature in order, each of its sort, no two rows with equal arguments, none for constants.
//!
//! Under these tables each marked term has its value: for all values of terms, without bound, that
//! agree with what the marked places are given and in which each marked term that is no application
//! has its operator's value of its arguments' values.
#![tactic(auto)]

ghost use Rattle.std.specs.Prelude.{◌≡◌, length, IfOk};
ghost use Rattle.smt_meaning.specs.Signature.{HasNoIdTwice};
ghost use Rattle.smt_meaning.specs.Interpretation.{AreTablesFor};
ghost use Rattle.model_build.specs.Building.{AreGiven, GiveValues};
ghost use Rattle.model_build.specs.Keys.{AreFirst};

mod applications;
mod firsts;
mod given;
mod hash;
mod model;
mod numbers;
mod tables;
mod value_model_given;

pub use given::{Clash, Given};
pub use model::{Modelled, model_from};
use smt_meaning::{Declaration, Interp, TermId};
use std::alloc::{AllocError, Global};
use tables::tables_of;
use term_store::TermStore;
pub use value_model_given::{PlaceValues, given_values};

/// The tables that are made of the first applications of a store in which no two clash.
fn tables_from(
    alloc: Global,
    store: &TermStore,
    declarations: &[Declaration],
    given: &[Given],
    firsts: &[TermId],
) -> Result<Interp, AllocError>
    requires ids { HasNoIdTwice declarations.now }
    requires given { AreGiven declarations.now store.now.trees given.now }
    requires first { AreFirst store.now.trees given.now (length store.now.trees) firsts.now }
    ensures tables { IfOk result (AreTablesFor declarations.now) }
    ensures values { IfOk result (GiveValues store.now.trees given.now) }
{
    let _known = store.len();
    tables_of(alloc, store, given, firsts, declarations)
}
