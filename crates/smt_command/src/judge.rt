//! The one call: which command an s-expression is, in the order of its refusals.
//!
//! `declare-sort` with a number other than 0, and `define-sort` with parameters, are accepted and
//! change nothing; they are answered `unsupported`.
ghost use Rattle.std.specs.Prelude.{◌≡◌, IfOk};
ghost use Rattle.smt_meaning.specs.Command.{command};
ghost use Rattle.smt_meaning.specs.Sexp.{sexp};
ghost use Rattle.smt_command.specs.Arguments.{left, IsInList};
ghost use Rattle.smt_command.specs.FormOf.{form_of};

use crate::arguments::{Arguments, Kind};
use crate::names::{CommandName, command_name};
use crate::{forms, settings};
use smt_meaning::language::{Command, Error};
use smt_meaning::{Refusal, SExpr, Seq};
use std::alloc::{AllocError, Global};

/// The command that an s-expression is, or the error for which it is none: it is no list that begins with a symbol, no command has this name, or the arguments haven't the command's form (SMT-LIB 2.6, section 4.2). An outer `Err` is want of memory.
pub fn command(alloc: Global, sexpr: &SExpr) -> Result<Result<Command, Error>, AllocError>
    ensures { IfOk result (λ r. r ≡ command (sexp sexpr.now)) }
{
    let Some(mut arguments) = Arguments::whole(sexpr).enter() else {
        return Ok(Err(Error::NotCommand));
    };
    let Some(name) = arguments.word(Kind::Symbol) else {
        return Ok(Err(Error::NotCommand));
    };
    let Some(known) = command_name(name) else {
        return Ok(Err(Error::UnknownCommand(Seq::copy(alloc, name)?)));
    };
    match formed(alloc, known, arguments)? {
        Ok(command) => Ok(Ok(command)),
        Err(refusal) => Ok(Err(Error::Refused(Seq::copy(alloc, name)?, refusal))),
    }
}

/// The command of this name with these arguments.
fn formed(
    alloc: Global,
    name: CommandName,
    arguments: Arguments<'_>,
) -> Result<Result<Command, Refusal>, AllocError>
    requires { IsInList arguments }
    ensures { IfOk result (λ r. r ≡ form_of name (left arguments.entry)) }
{
    match name {
        CommandName::SetLogic => forms::set_logic(alloc, arguments),
        CommandName::SetOption => Ok(settings::set_option(arguments)),
        CommandName::GetOption => Ok(settings::get_option(arguments)),
        CommandName::SetInfo => Ok(settings::set_info(arguments)),
        CommandName::GetInfo => Ok(settings::get_info(arguments)),
        CommandName::Echo => forms::echo(alloc, arguments),
        CommandName::Exit => Ok(forms::bare(Command::Exit, &arguments)),
        CommandName::Reset => Ok(forms::bare(Command::Reset, &arguments)),
        CommandName::ResetAssertions => Ok(forms::bare(Command::ResetAssertions, &arguments)),
        CommandName::DeclareSort => forms::declare_sort(alloc, arguments),
        CommandName::DefineSort => forms::define_sort(alloc, arguments),
        CommandName::DeclareConst => forms::declare_const(alloc, arguments),
        CommandName::DeclareFun => forms::declare_fun(alloc, arguments),
        CommandName::DefineFun => forms::define_fun(alloc, arguments),
        CommandName::Assert => forms::assert_form(alloc, arguments),
        CommandName::CheckSat => Ok(forms::bare(Command::CheckSat, &arguments)),
        CommandName::Push => Ok(forms::push(arguments)),
        CommandName::Pop => Ok(forms::pop(arguments)),
        CommandName::GetValue => forms::get_value(alloc, arguments),
        CommandName::GetModel => Ok(forms::bare(Command::GetModel, &arguments)),
        CommandName::GetAssertions => Ok(forms::bare(Command::GetAssertions, &arguments)),
        CommandName::CheckSatAssuming => forms::check_sat_assuming(alloc, arguments),
        CommandName::GetAssignment => Ok(forms::bare(Command::GetAssignment, &arguments)),
        CommandName::GetUnsatCore => Ok(forms::bare(Command::GetUnsatCore, &arguments)),
        CommandName::GetUnsatAssumptions => {
            Ok(forms::bare(Command::GetUnsatAssumptions, &arguments))
        }
        CommandName::Minimize => forms::minimize(alloc, arguments),
        CommandName::LeftOut => Ok(Ok(Command::LeftOut)),
    }
}
