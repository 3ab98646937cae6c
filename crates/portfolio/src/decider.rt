//! The decider that has its checks made by a closure, which knows of threads and the gate.
use scope_stack::Stack;
use smt_meaning::Settings;
use std::alloc::{AllocError, Global};
use theory_port::{Decider, Verdict};

/// Decides the checks of all stacks by this closure. A method of a trait's impl can't start threads; a closure made where they are known can.
#[derive(Drop)]
pub struct By<F: Fn(&Stack, &Settings) -> Result<Verdict, AllocError>> {
    pub f: F,
}

impl<F: Fn(&Stack, &Settings) -> Result<Verdict, AllocError>> Decider for By<F> {
    ghost use denote.Ref.{Bor};
    ghost use Rattle.std.specs.Prelude.{◌<◌, IfOk, Result};
    ghost use Rattle.std.specs.declared.alloc.AllocError.{AllocError as AllocErrorValue};
    ghost use Rattle.theory_port.specs.declared.decider.Verdict.{Verdict as VerdictValue};
    ghost use Rattle.theory_port.specs.Verdicts.{IsVerdict};

    ghost may = { λ b. (s : Bor _) (t : Bor _) → 0 < t.now.workers
        → F.pre b.f s t × ((r : Result VerdictValue AllocErrorValue) → F.Fn.post b.f (s, (t, tt)) r → IfOk r (IsVerdict t.now.workers s.now.trees s.now.frames t.now.units)) };

    fn decide(
        &mut self,
        _alloc: Global,
        stack: &Stack,
        settings: &Settings,
    ) -> Result<Verdict, AllocError> {
        (self.f)(stack, settings)
    }
}
