//! An s-expression is answered: as the command that it is, or by the error for which it is none.
ghost use Rattle.std.specs.Prelude.{◌≡◌, ◌↔◌, IfOk, IsTrue, OnErr};
ghost use Rattle.smt_meaning.specs.LegalJournal.{IsExit};
ghost use Rattle.smt_meaning.specs.MayReply.{Replies};
ghost use Rattle.session.specs.Taken.{every_stack};

use crate::state::{Done, Session};
use smt_command::command;
use smt_meaning::language::Reply;
use smt_meaning::{Kept, SExpr};
use std::alloc::{AllocError, Global};
use theory_port::Decider;

impl Session {
    /// Answers an s-expression. An `Err`, for want of memory, changes nothing.
    pub fn reply_to<D: Decider>(
        &mut self,
        alloc: Global,
        sexpr: &SExpr,
        decider: &mut D,
    ) -> Result<Done, AllocError>
        requires may { D.may decider.old }
        ensures still { D.may decider.new }
        ensures reply { IfOk result (λ d. Replies every_stack self.old sexpr.now d.reply d.kept self.new) }
        ensures stop { IfOk result (λ d. IsTrue d.stop ↔ IsExit sexpr.now) }
        ensures err { OnErr result (self.new ≡ self.old) }
    {
        match command(alloc, sexpr)? {
            Ok(command) => self.step(alloc, &command, decider),
            Err(error) => Ok(Done {
                reply: Reply::Error(error),
                kept: Kept::Nothing,
                stop: false,
            }),
        }
    }
}
