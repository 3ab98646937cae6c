//! What is kept of the answer to a check, to the question for a core and to that for a least value.
//!
//! The reply `unknown` to the question for a least value keeps the best model, the bound that was
//! asked for last, and what each worker shows of it, where there is a model; the mode keeps the
//! reason alone, as after a check, so values are refused then.
use crate::reports::Report;
use crate::seq::Seq;
use crate::values::Interp;

/// Why an assertion stays in a core: what a check without it came to.
#[derive(Drop)]
pub enum Reason {
    /// The others have this model.
    Model(Interp),
    /// It isn't found: what each worker shows, in order.
    Reports(Seq<Report>),
}

/// An assertion that stays in a core.
#[derive(Drop)]
pub struct Held {
    /// Its place among the assertions of the check, counted from 0.
    pub place: u64,
    pub why: Reason,
}

/// What is known of a least value that isn't found.
#[derive(Drop)]
pub struct Best {
    /// A model in which the term has the least value that was found.
    pub model: Option<Interp>,
    /// The bound on the term that was asked for last, where there was one.
    pub bound: Option<i128>,
    /// Of the last check: what each worker shows, in order.
    pub reports: Seq<Report>,
}

/// What is kept with a reply.
#[derive(Drop)]
pub enum Kept {
    Nothing,
    /// With `sat` and with a least value: an interpretation that makes every assertion true.
    Model(Interp),
    /// With `unknown`: what each worker shows, in order.
    Reports(Seq<Report>),
    /// With a core: the assertions that stay in it, in order.
    Core(Seq<Held>),
    /// With `unknown` for a least value.
    Best(Best),
}
