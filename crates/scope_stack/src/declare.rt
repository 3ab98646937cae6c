//! Declarations and definitions of sorts and functions.
ghost use Rattle.std.specs.Prelude.{◌≡◌, ◌<◌, None, Some, pos, OnOk, OnErr, IfErr};
ghost use Rattle.smt_meaning.specs.Signature.{find_function, find_sort};
ghost use Rattle.smt_meaning.specs.Sorts.{declare};
ghost use Rattle.smt_meaning.specs.StackCommand.{declare_function, declare_new_sort, declare_sort, define_function, define_new_sort, define_sort, function_declaration, sort_declaration};
ghost use Rattle.smt_meaning.specs.Term.{int_eq};
ghost use Rattle.smt_sorts.specs.Names.{signature, sort_or_new};
ghost use Rattle.smt_sorts.specs.Workshop.{IsOfAny};
ghost use Rattle.elaborate.specs.Own.{IsLeft};
ghost use Rattle.scope_stack.specs.Kept.{IsKeptOf};
ghost use Rattle.scope_stack.specs.Judged.{Causes, Declares, HasAdded, HasDeclared, IsFailed, IfTooMany};

use crate::answers::{Carried, StackError};
use crate::judge::{
    judge_body, judge_parameters, judge_sort, judge_sorts, new_function_name, new_sort_name,
    sorts_of,
};
use elaborate::TypedBody;
use smt_meaning::language::{Parameter, WrittenSort};
use smt_meaning::{Bytes, Rank, Refusal, SExpr, Seq, Sort, SymId};
use smt_sorts::{AddError, Kept, Table, Workshop};
use std::alloc::Global;

fn add_error(error: AddError) -> StackError
    ensures { IfTooMany error result }
{
    match error {
        AddError::TooManySymbols => StackError::Refused(Refusal::TooManySymbols),
        AddError::Memory => StackError::Memory,
    }
}

/// The newest level gains a sort, or level 0 where declarations are global.
fn add_sort(
    alloc: Global,
    table: &mut Table,
    name: &[u8],
    sort: Option<Sort>,
    global: bool,
) -> Result<(), StackError>
    requires { find_sort name.now (signature table.old) ≡ None }
    ensures added { OnOk result (HasAdded (declare (λ id. sort_declaration id name.now (sort_or_new sort id))) tt global table.old table.new) }
    ensures causes { IfErr result (Causes (declare (λ id. sort_declaration id name.now (sort_or_new sort id))) table.old) }
    ensures err { OnErr result (table.new ≡ table.old) }
{
    let _ = table.ids();
    match table.add_sort(alloc, name, sort, global) {
        Ok(_) => Ok(()),
        Err(error) => Err(add_error(error)),
    }
}

/// The newest level gains a declared function, or level 0.
fn add_function(
    alloc: Global,
    table: &mut Table,
    name: &[u8],
    rank: Rank,
    global: bool,
) -> Result<(), StackError>
    requires { find_function name.now (signature table.old) ≡ None }
    ensures added { OnOk result (HasAdded (declare (λ id. function_declaration id name.now rank.arguments rank.result None)) tt global table.old table.new) }
    ensures causes { IfErr result (Causes (declare (λ id. function_declaration id name.now rank.arguments rank.result None)) table.old) }
    ensures err { OnErr result (table.new ≡ table.old) }
{
    let _ = table.ids();
    match table.add_function(alloc, name, rank, None, global) {
        Ok(_) => Ok(()),
        Err(error) => Err(add_error(error)),
    }
}

/// The newest level gains a definition, or level 0, of whose judgement something may be kept.
fn add_definition(
    alloc: Global,
    table: &mut Table,
    name: &[u8],
    rank: Rank,
    judged: TypedBody,
    global: bool,
) -> Result<(), StackError>
    requires new { find_function name.now (signature table.old) ≡ None }
    requires workshop { IsLeft judged.body judged.workshop }
    ensures added { OnOk result (HasAdded (declare (λ id. function_declaration id name.now rank.arguments rank.result (Some judged.body))) tt global table.old table.new) }
    ensures causes { IfErr result (Causes (declare (λ id. function_declaration id name.now rank.arguments rank.result (Some judged.body))) table.old) }
    ensures err { OnErr result (table.new ≡ table.old) }
{
    let _ = table.ids();
    match table.add_function(alloc, name, rank, Some(judged.body), global) {
        Ok(id) => {
            keep(table, id, judged.workshop);
            Ok(())
        }
        Err(error) => Err(add_error(error)),
    }
}

/// Keeps what is left of the judgement of the definition with this id.
fn keep(table: &mut Table, id: SymId, workshop: Option<Workshop>)
    requires given { id < table.old.given }
    requires of { IsKeptOf (signature table.old) id workshop }
    ensures { table.new ≡ table.old }
{
    if let Some(workshop) = workshop {
        table.keep(Kept { id, workshop });
    }
}

fn is_zero(number: i128) -> bool
    ensures { result ≡ int_eq number (pos 0) }
{
    number.unsigned_abs() == 0
}

fn declare_new_sort(
    alloc: Global,
    table: &mut Table,
    name: &[u8],
    global: bool,
) -> Result<(), StackError>
    ensures adds { OnOk result (HasDeclared (declare_new_sort name.now) global table.old table.new) }
    ensures err { IfErr result (λ e. IsFailed (declare_new_sort name.now) e table.old table.new) }
{
    new_sort_name(alloc, name, table)?;
    add_sort(alloc, table, name, None, global)?;
    Ok(())
}

/// `(declare-sort name arity)`: only sorts without arguments are declared.
pub(crate) fn declare_sort(
    alloc: Global,
    table: &mut Table,
    name: &[u8],
    arity: i128,
    global: bool,
) -> Result<Carried, StackError>
    ensures { Declares (declare_sort name.now arity) global table.old result table.new }
{
    if is_zero(arity) {
        declare_new_sort(alloc, table, name, global)?;
        Ok(Carried::Done)
    } else {
        Ok(Carried::Unsupported)
    }
}

fn define_new_sort(
    alloc: Global,
    table: &mut Table,
    name: &[u8],
    sort: &WrittenSort,
    global: bool,
) -> Result<(), StackError>
    ensures adds { OnOk result (HasDeclared (define_new_sort name.now sort.now) global table.old table.new) }
    ensures err { IfErr result (λ e. IsFailed (define_new_sort name.now sort.now) e table.old table.new) }
{
    new_sort_name(alloc, name, table)?;
    let sort = judge_sort(alloc, sort, table)?;
    add_sort(alloc, table, name, Some(sort), global)?;
    Ok(())
}

/// `(define-sort name (parameter ..) sort)`: only sorts without parameters are defined.
pub(crate) fn define_sort(
    alloc: Global,
    table: &mut Table,
    name: &[u8],
    parameters: &[Bytes],
    sort: &WrittenSort,
    global: bool,
) -> Result<Carried, StackError>
    ensures { Declares (define_sort name.now parameters.now sort.now) global table.old result table.new }
{
    match parameters.split_first() {
        Some(_) => Ok(Carried::Unsupported),
        None => {
            define_new_sort(alloc, table, name, sort, global)?;
            Ok(Carried::Done)
        }
    }
}

/// `(declare-fun name (argument ..) sort)`
pub(crate) fn declare_function(
    alloc: Global,
    table: &mut Table,
    name: &[u8],
    arguments: &[WrittenSort],
    sort: &WrittenSort,
    global: bool,
) -> Result<Carried, StackError>
    ensures { Declares (declare_function name.now arguments.now sort.now) global table.old result table.new }
{
    new_function_name(alloc, name, table)?;
    let arguments = judge_sorts(alloc, arguments, table)?;
    let result = judge_sort(alloc, sort, table)?;
    add_function(alloc, table, name, Rank { arguments, result }, global)?;
    Ok(Carried::Done)
}

/// `(define-fun name (parameter ..) sort body)`
pub(crate) fn define_function(
    alloc: Global,
    table: &mut Table,
    name: &[u8],
    parameters: &[Parameter],
    sort: &WrittenSort,
    body: &SExpr,
    global: bool,
) -> Result<Carried, StackError>
    ensures { Declares (define_function name.now parameters.now sort.now body.now) global table.old result table.new }
{
    let kept = table.take_kept();
    define_with(alloc, table, name, parameters, sort, body, kept, global)
}

/// Defines a function, with what is kept of the definition before.
fn define_with(
    alloc: Global,
    table: &mut Table,
    name: &[u8],
    parameters: &[Parameter],
    sort: &WrittenSort,
    body: &SExpr,
    kept: Option<Kept>,
    global: bool,
) -> Result<Carried, StackError>
    requires { IsOfAny (signature table.old) kept }
    ensures { Declares (define_function name.now parameters.now sort.now body.now) global table.old result table.new }
{
    new_function_name(alloc, name, table)?;
    let parameters = judge_parameters(alloc, parameters, table)?;
    let result = judge_sort(alloc, sort, table)?;
    let judged = judge_body(
        alloc,
        name,
        parameters.as_slice(),
        result,
        body,
        table,
        kept,
    )?;
    let arguments = Seq::from_vec(sorts_of(alloc, parameters.as_slice())?);
    add_definition(
        alloc,
        table,
        name,
        Rank { arguments, result },
        judged,
        global,
    )?;
    Ok(Carried::Done)
}
