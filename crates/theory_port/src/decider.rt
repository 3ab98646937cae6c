//! Who decides the checks of a run.
ghost use Rattle.std.specs.Prelude.{IfOk};

use scope_stack::Stack;
use smt_meaning::{Interp, Report, Seq, Settings};
use std::alloc::{AllocError, Global};

/// What is found of the assertions of a stack.
#[derive(Drop)]
pub enum Verdict {
    /// They have this model.
    Sat(Interp),
    /// They have none.
    Unsat,
    /// It isn't found: each worker ended by what it shows.
    Unknown(Seq<Report>),
}

/// Decides whether the assertions of a stack have a model (SMT-LIB 2.6, section 4.2.5). It decides every stack: also one without some assertions of another, and one with a level more.
pub trait Decider {
    ghost use Rattle.std.specs.Prelude.{◌<◌};
    ghost use Rattle.theory_port.specs.Verdicts.{IsVerdict};

    /// What its calls need of it. Each call leaves it so.
    ghost may: { Self → Type 0 };

    /// Decides a check by the workers of the settings in force, whose units are its limit. An `Err` is for want of memory.
    fn decide(
        &mut self,
        alloc: Global,
        stack: &Stack,
        settings: &Settings,
    ) -> Result<Verdict, AllocError>
        requires may { may self.old }
        requires workers { 0 < settings.now.workers }
        ensures still { may self.new }
        ensures verdict { IfOk result (IsVerdict settings.now.workers stack.now.trees stack.now.frames settings.now.units) };
}
