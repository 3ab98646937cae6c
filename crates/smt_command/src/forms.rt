//! The forms of the commands' arguments (SMT-LIB 2.6, section 3.9).
ghost use Rattle.std.specs.Prelude.{◌≡◌, IfOk};
ghost use Rattle.smt_meaning.specs.declared.commands.Command.TheVariants.{DeclareSort, Push, Pop};
ghost use Rattle.smt_meaning.specs.Command.{bare, levels, with_numeral, set_logic, echo, declare_sort, define_sort, declare_const, declare_fun, define_fun, assert_form, get_value, check_sat_assuming, minimize};
ghost use Rattle.smt_command.specs.Arguments.{left, IsInList};
ghost use Rattle.smt_command.specs.Values.{level_count, name_list_sort, with_body};

use crate::arguments::{Arguments, Kind};
use crate::lists::{self, Listed};
use crate::number::number;
use smt_meaning::language::{Command, Parameter, WrittenSort};
use smt_meaning::{Bytes, Inner, Refusal, Seq};
use std::alloc::{AllocError, Global};

/// A command without arguments.
pub fn bare(command: Command, arguments: &Arguments<'_>) -> Result<Command, Refusal>
    ensures { result ≡ bare command (left arguments.now) }
{
    if arguments.is_end() {
        Ok(command)
    } else {
        Err(Refusal::WrongArguments)
    }
}

/// A number of levels: 1 without arguments, or a numeral.
fn level_count(mut arguments: Arguments<'_>) -> Result<i128, Refusal>
    ensures { result ≡ level_count (left arguments.entry) }
{
    if arguments.is_end() {
        return Ok(1);
    }
    let Some(digits) = arguments.word(Kind::Numeral) else {
        return Err(Refusal::WrongArguments);
    };
    if !arguments.is_end() {
        return Err(Refusal::WrongArguments);
    }
    number(digits)
}

/// The command `push` with these arguments: nothing, or a numeral.
#[tactic(auto, using(crate::proofs::OptionForms::level_rules))]
pub fn push(arguments: Arguments<'_>) -> Result<Command, Refusal>
    ensures { result ≡ levels Push (left arguments.entry) }
{
    Ok(Command::Push(level_count(arguments)?))
}

/// The command `pop` with these arguments: nothing, or a numeral.
#[tactic(auto, using(crate::proofs::OptionForms::level_rules))]
pub fn pop(arguments: Arguments<'_>) -> Result<Command, Refusal>
    ensures { result ≡ levels Pop (left arguments.entry) }
{
    Ok(Command::Pop(level_count(arguments)?))
}

/// The command `set-logic` with these arguments: a symbol.
pub fn set_logic(
    alloc: Global,
    mut arguments: Arguments<'_>,
) -> Result<Result<Command, Refusal>, AllocError>
    ensures { IfOk result (λ r. r ≡ set_logic (left arguments.entry)) }
{
    let Some(name) = arguments.word(Kind::Symbol) else {
        return Ok(Err(Refusal::WrongArguments));
    };
    if !arguments.is_end() {
        return Ok(Err(Refusal::WrongArguments));
    }
    Ok(Ok(Command::SetLogic(Seq::copy(alloc, name)?)))
}

/// The command `echo` with these arguments: a string literal.
pub fn echo(
    alloc: Global,
    mut arguments: Arguments<'_>,
) -> Result<Result<Command, Refusal>, AllocError>
    ensures { IfOk result (λ r. r ≡ echo (left arguments.entry)) }
{
    let Some(text) = arguments.word(Kind::Text) else {
        return Ok(Err(Refusal::WrongArguments));
    };
    if !arguments.is_end() {
        return Ok(Err(Refusal::WrongArguments));
    }
    Ok(Ok(Command::Echo(Seq::copy(alloc, text)?)))
}

/// The command `declare-sort` with these arguments: a symbol and a numeral.
pub fn declare_sort(
    alloc: Global,
    mut arguments: Arguments<'_>,
) -> Result<Result<Command, Refusal>, AllocError>
    ensures { IfOk result (λ r. r ≡ declare_sort (left arguments.entry)) }
{
    let Some(name) = arguments.word(Kind::Symbol) else {
        return Ok(Err(Refusal::WrongArguments));
    };
    let Some(digits) = arguments.word(Kind::Numeral) else {
        return Ok(Err(Refusal::WrongArguments));
    };
    let declared = sort_declaration(Seq::copy(alloc, name)?, digits);
    let whole = arguments.is_end();
    if whole {
        Ok(declared)
    } else {
        Ok(Err(Refusal::WrongArguments))
    }
}

/// The command `declare-sort` with a name and the digits of an arity.
#[tactic(auto, using(crate::proofs::OptionForms::sort_rules))]
fn sort_declaration(name: Bytes, digits: &[u8]) -> Result<Command, Refusal>
    ensures { result ≡ with_numeral (DeclareSort name) digits.now }
{
    Ok(Command::DeclareSort(name, number(digits)?))
}

/// The command `define-sort` with these arguments: a symbol, a list of symbols and a sort.
#[tactic(auto, using(crate::proofs::SortForms::sort_read))]
pub fn define_sort(
    alloc: Global,
    arguments: Arguments<'_>,
) -> Result<Result<Command, Refusal>, AllocError>
    ensures { IfOk result (λ r. r ≡ define_sort (left arguments.entry)) }
{
    let Some(read) = name_list_sort(alloc, arguments)? else {
        return Ok(Err(Refusal::WrongArguments));
    };
    Ok(Ok(Command::DefineSort(read.name, read.items, read.sort)))
}

/// A symbol, a list and a sort, as which arguments were read.
#[derive(Drop)]
struct NameListSort<T> {
    name: Bytes,
    items: Seq<T>,
    sort: WrittenSort,
}

/// These arguments as a symbol, a list and a sort.
fn name_list_sort<T: Listed + Drop>(
    alloc: Global,
    mut arguments: Arguments<'_>,
) -> Result<Option<NameListSort<T>>, AllocError>
    ensures { IfOk result (λ r. r ≡ name_list_sort T.read_as (left arguments.entry)) }
{
    let Some(name) = arguments.word(Kind::Symbol) else {
        return Ok(None);
    };
    let Some(inside) = arguments.list() else {
        return Ok(None);
    };
    let Some(items) = lists::all(alloc, inside)? else {
        return Ok(None);
    };
    let Some(sort) = arguments.sort(alloc)? else {
        return Ok(None);
    };
    if !arguments.is_end() {
        return Ok(None);
    }
    let name = Seq::copy(alloc, name)?;
    Ok(Some(NameListSort { name, items, sort }))
}

/// The command `declare-const` with these arguments: a symbol and a sort.
pub fn declare_const(
    alloc: Global,
    mut arguments: Arguments<'_>,
) -> Result<Result<Command, Refusal>, AllocError>
    ensures { IfOk result (λ r. r ≡ declare_const (left arguments.entry)) }
{
    let Some(name) = arguments.word(Kind::Symbol) else {
        return Ok(Err(Refusal::WrongArguments));
    };
    let Some(sort) = arguments.sort(alloc)? else {
        return Ok(Err(Refusal::WrongArguments));
    };
    if !arguments.is_end() {
        return Ok(Err(Refusal::WrongArguments));
    }
    Ok(Ok(Command::DeclareConst(Seq::copy(alloc, name)?, sort)))
}

/// The command `declare-fun` with these arguments: a symbol, a list of sorts and a sort.
#[tactic(auto, using(crate::proofs::SortForms::function_read))]
pub fn declare_fun(
    alloc: Global,
    arguments: Arguments<'_>,
) -> Result<Result<Command, Refusal>, AllocError>
    ensures { IfOk result (λ r. r ≡ declare_fun (left arguments.entry)) }
{
    let Some(read) = name_list_sort(alloc, arguments)? else {
        return Ok(Err(Refusal::WrongArguments));
    };
    Ok(Ok(Command::DeclareFun(read.name, read.items, read.sort)))
}

/// The command `define-fun` with these arguments: a symbol, a list of symbols with their sorts, a sort and a term.
pub fn define_fun(
    alloc: Global,
    mut arguments: Arguments<'_>,
) -> Result<Result<Command, Refusal>, AllocError>
    ensures { IfOk result (λ r. r ≡ define_fun (left arguments.entry)) }
{
    let Some(name) = arguments.word(Kind::Symbol) else {
        return Ok(Err(Refusal::WrongArguments));
    };
    let Some(inside) = arguments.list() else {
        return Ok(Err(Refusal::WrongArguments));
    };
    let Some(parameters) = lists::all(alloc, inside)? else {
        return Ok(Err(Refusal::WrongArguments));
    };
    definition(alloc, name, parameters, arguments)
}

/// The command `define-fun` with a name and parameters, and with these further arguments: a sort and a term.
fn definition(
    alloc: Global,
    name: &[u8],
    parameters: Seq<Parameter>,
    mut arguments: Arguments<'_>,
) -> Result<Result<Command, Refusal>, AllocError>
    ensures { IfOk result (λ r. r ≡ with_body name.now parameters (left arguments.entry)) }
{
    let Some(sort) = arguments.sort(alloc)? else {
        return Ok(Err(Refusal::WrongArguments));
    };
    let Some(body) = arguments.term(alloc)? else {
        return Ok(Err(Refusal::WrongArguments));
    };
    if !arguments.is_end() {
        return Ok(Err(Refusal::WrongArguments));
    }
    Ok(Ok(Command::DefineFun(Seq::copy(alloc, name)?, parameters, sort, body)))
}

/// The command `assert` with these arguments: a term.
pub fn assert_form(
    alloc: Global,
    mut arguments: Arguments<'_>,
) -> Result<Result<Command, Refusal>, AllocError>
    ensures { IfOk result (λ r. r ≡ assert_form (left arguments.entry)) }
{
    let Some(term) = arguments.term(alloc)? else {
        return Ok(Err(Refusal::WrongArguments));
    };
    if !arguments.is_end() {
        return Ok(Err(Refusal::WrongArguments));
    }
    Ok(Ok(Command::Assert(term)))
}

/// The command `get-value` with these arguments: a list of terms, of which there is one at least.
pub fn get_value(
    alloc: Global,
    mut arguments: Arguments<'_>,
) -> Result<Result<Command, Refusal>, AllocError>
    ensures { IfOk result (λ r. r ≡ get_value (left arguments.entry)) }
{
    let Some(inside) = arguments.list() else {
        return Ok(Err(Refusal::WrongArguments));
    };
    if inside.is_end() || !arguments.is_end() {
        return Ok(Err(Refusal::WrongArguments));
    }
    Ok(Ok(Command::GetValue(lists::terms(alloc, inside)?)))
}

/// The command `check-sat-assuming` with these arguments: a list of terms, which may be empty.
pub fn check_sat_assuming(
    alloc: Global,
    mut arguments: Arguments<'_>,
) -> Result<Result<Command, Refusal>, AllocError>
    ensures { IfOk result (λ r. r ≡ check_sat_assuming (left arguments.entry)) }
{
    let Some(inside) = arguments.list() else {
        return Ok(Err(Refusal::WrongArguments));
    };
    if !arguments.is_end() {
        return Ok(Err(Refusal::WrongArguments));
    }
    Ok(Ok(Command::CheckSatAssuming(lists::terms(alloc, inside)?)))
}

/// The command `minimize` with these arguments: a term, which stands in the command and so may stand in a list.
pub fn minimize(
    alloc: Global,
    mut arguments: Arguments<'_>,
) -> Result<Result<Command, Refusal>, AllocError>
    requires { IsInList arguments }
    ensures { IfOk result (λ r. r ≡ minimize (left arguments.entry)) }
{
    let Some(term) = arguments.inner(alloc)? else {
        return Ok(Err(Refusal::WrongArguments));
    };
    if !arguments.is_end() {
        return Ok(Err(Refusal::WrongArguments));
    }
    Ok(Ok(Command::Minimize(term)))
}
