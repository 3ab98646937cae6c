//! The commands that the stack carries out or refuses (SMT-LIB 2.6, sections 4.2.2 to 4.2.4).
ghost use Rattle.std.specs.Prelude.{◌≡◌, IfOk, IfSome, IsTrue};
ghost use Rattle.smt_meaning.specs.StackCommand.{stack_command};
ghost use Rattle.scope_stack.specs.Carries.{Carries};
ghost use Rattle.session.specs.Effects.{is_carried, word_of, DeclaresSort};

use scope_stack::{Carried, ScopeStack, StackError};
use smt_meaning::language::{Command, Error, Reply};
use smt_meaning::{Bytes, Refusal};
use std::alloc::{AllocError, Global};

/// Carries a command of the stack out.
pub fn carry(
    alloc: Global,
    command: &Command,
    stack: &mut ScopeStack,
) -> Result<Carried, StackError>
    requires { IsTrue (is_carried command.now) }
    ensures { IfSome (stack_command command.now) (λ c. Carries c stack.old result stack.new) }
{
    match command {
        Command::DeclareSort(name, arity) => declare_sort(alloc, name, *arity, stack),
        Command::DefineSort(name, parameters, sort) => {
            stack.define_sort(alloc, name.as_slice(), parameters.as_slice(), sort)
        }
        Command::DeclareConst(name, sort) => {
            stack.declare_function(alloc, name.as_slice(), &[], sort)
        }
        Command::DeclareFun(name, arguments, sort) => {
            stack.declare_function(alloc, name.as_slice(), arguments.as_slice(), sort)
        }
        Command::DefineFun(name, parameters, sort, body) => {
            stack.define_function(alloc, name.as_slice(), parameters.as_slice(), sort, body)
        }
        Command::Assert(term) => stack.assert_term(alloc, term),
        Command::Push(count) => stack.push(alloc, *count),
        Command::Pop(count) => stack.pop(*count),
        _ => unreachable!(),
    }
}

/// Declares a sort.
#[tactic(auto, unfolding(crate::specs::Effects::DeclaresSort))]
fn declare_sort(
    alloc: Global,
    name: &Bytes,
    arity: i128,
    stack: &mut ScopeStack,
) -> Result<Carried, StackError>
    ensures { DeclaresSort name.now arity stack.old result stack.new }
{
    stack.declare_sort(alloc, name.as_slice(), arity)
}

/// The name of such a command.
pub fn word(command: &Command) -> &'static [u8]
    ensures { result.now ≡ word_of command.now }
{
    match command {
        Command::DeclareSort(..) => b"declare-sort",
        Command::DefineSort(..) => b"define-sort",
        Command::DeclareConst(..) => b"declare-const",
        Command::DeclareFun(..) => b"declare-fun",
        Command::DefineFun(..) => b"define-fun",
        Command::Assert(_) => b"assert",
        Command::Push(_) => b"push",
        Command::Pop(_) => b"pop",
        _ => b"",
    }
}

/// A refusal of the command of this name.
pub fn refused(alloc: Global, command: &[u8], why: Refusal) -> Result<Reply, AllocError>
    ensures { IfOk result (λ r. r ≡ Reply.Error (Error.Refused command.now why)) }
{
    Ok(Reply::Error(Error::Refused(Bytes::copy(alloc, command)?, why)))
}
