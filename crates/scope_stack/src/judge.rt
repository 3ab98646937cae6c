//! Judging the names and the sorts of a declaration.
ghost use Rattle.elaborate.specs.Judged.{variables_of};
ghost use Rattle.std.specs.Prelude.{◌≡◌, ◌++◌, ◌∷◌, [], map, None, OnOk, IfOk, IfErr};
ghost use Rattle.smt_meaning.specs.Signature.{find_function, find_sort, is_one_of, sort_eq};
ghost use Rattle.smt_meaning.specs.StackCommand.{judge_parameters, judge_sort, judge_sorts, new_function_name, new_sort_name};
ghost use Rattle.smt_sorts.specs.Names.{signature};
ghost use Rattle.smt_sorts.specs.Workshop.{IsOfAny};
ghost use Rattle.elaborate.specs.Own.{IsLeft};
ghost use Rattle.scope_stack.specs.Judged.{Gives, Causes, IsNewOr, IsBody, IsError, IsParameter, body_of_sort, name_refusal, names_before, one_parameter, parameter_name, sort_of};
ghost use Rattle.term_store.specs.Newest.{hashes_of};

use crate::answers::StackError;
use crate::term::judge_error;
use elaborate::{Parameter as Judged, TypedBody};
use smt_meaning::language::{Parameter, WrittenSort};
use smt_meaning::{Refusal, SExpr, Seq, Sort, Token};
use smt_sorts::{Kept, NameError, Table};
use std::alloc::{AllocError, Global};
use term_store::{HashIndex, find, hash};

fn name_error(alloc: Global, error: NameError, name: &[u8]) -> StackError
    ensures { IsError (name_refusal error name.now) result }
{
    match Seq::copy(alloc, name) {
        Ok(name) => StackError::Refused(match error {
            NameError::Reserved => Refusal::ReservedName(name),
            NameError::AlreadyDeclared => Refusal::AlreadyDeclared(name),
        }),
        Err(_) => StackError::Memory,
    }
}

/// Whether a sort of this name may be declared.
pub(crate) fn new_sort_name(alloc: Global, name: &[u8], table: &Table) -> Result<(), StackError>
    ensures { IsNewOr (new_sort_name name.now) (find_sort name.now (signature table.now)) table.now result }
{
    match table.check_new_sort(name) {
        Ok(()) => Ok(()),
        Err(error) => Err(name_error(alloc, error, name)),
    }
}

/// Whether a function of this name may be declared.
pub(crate) fn new_function_name(alloc: Global, name: &[u8], table: &Table) -> Result<(), StackError>
    ensures { IsNewOr (new_function_name name.now) (find_function name.now (signature table.now)) table.now result }
{
    match table.check_new_function(name) {
        Ok(()) => Ok(()),
        Err(error) => Err(name_error(alloc, error, name)),
    }
}

fn unknown(alloc: Global, name: &[u8]) -> StackError
    ensures { IsError (Refusal.UnknownSymbol (Token.Symbol name.now)) result }
{
    match Seq::copy(alloc, name) {
        Ok(name) => StackError::Refused(Refusal::UnknownSymbol(Token::Symbol(name))),
        Err(_) => StackError::Memory,
    }
}

/// The sort that is written so.
pub(crate) fn judge_sort(
    alloc: Global,
    sort: &WrittenSort,
    table: &Table,
) -> Result<Sort, StackError>
    ensures gives { IfOk result (Gives (judge_sort sort.now) table.now) }
    ensures causes { IfErr result (Causes (judge_sort sort.now) table.now) }
{
    match sort {
        WrittenSort::Name(name) => match table.sort_named(name.as_slice()) {
            Some(found) => Ok(found),
            None => Err(unknown(alloc, name.as_slice())),
        },
        WrittenSort::Applied(name) => Err(unknown(alloc, name.as_slice())),
    }
}

/// The sorts that are written so.
pub(crate) fn judge_sorts(
    alloc: Global,
    sorts: &[WrittenSort],
    table: &Table,
) -> Result<Seq<Sort>, StackError>
    ensures gives { IfOk result (Gives (judge_sorts sorts.now) table.now) }
    ensures causes { IfErr result (Causes (judge_sorts sorts.now) table.now) }
{
    let mut judged = Seq::new(alloc);
    let mut rest = sorts;
    while let Some((first, tail)) = rest.split_first() {
        let sort = judge_sort(alloc, first, table)?;
        judged.push(sort)?;
        rest = tail;
    }
    Ok(judged)
}

/// Whether a name is that of one of these, whose names are filed in an index.
fn is_before(name: &[u8], before: &[Judged], filed: &HashIndex) -> bool
    requires { filed.now ≡ hashes_of parameter_name before.now }
    ensures { result ≡ is_one_of name.now (names_before before.now) }
{
    match find(before, filed, name) {
        Some(_) => true,
        None => false,
    }
}

fn bound_twice(alloc: Global, name: &[u8]) -> StackError
    ensures { IsError (Refusal.AlreadyDeclared name.now) result }
{
    match Seq::copy(alloc, name) {
        Ok(name) => StackError::Refused(Refusal::AlreadyDeclared(name)),
        Err(_) => StackError::Memory,
    }
}

fn judge_parameter(
    alloc: Global,
    parameter: &Parameter,
    before: &[Judged],
    filed: &HashIndex,
    table: &Table,
) -> Result<Judged, StackError>
    requires { filed.now ≡ hashes_of parameter_name before.now }
    ensures gives { IfOk result (IsParameter before.now parameter.now table.now) }
    ensures causes { IfErr result (Causes (one_parameter before.now parameter.now) table.now) }
{
    let name = parameter.name.as_slice();
    if is_before(name, before, filed) {
        return Err(bound_twice(alloc, name));
    }
    let sort = judge_sort(alloc, &parameter.sort, table)?;
    let name = Seq::copy(alloc, name)?;
    Ok(Judged { name, sort })
}

/// Adds a parameter, whose name is filed.
fn append(
    judged: &mut Vec<Judged>,
    filed: &mut HashIndex,
    parameter: Judged,
) -> Result<(), AllocError>
    requires { filed.old ≡ hashes_of parameter_name judged.old.items }
    ensures items { OnOk result (judged.new.items ≡ judged.old.items ++ parameter ∷ []) }
    ensures filed { OnOk result (filed.new ≡ hashes_of parameter_name judged.new.items) }
{
    if judged.len() >= u32::MAX as usize {
        return Err(AllocError);
    }
    filed.push(hash(parameter.name.as_slice()))?;
    judged.push(parameter)?;
    Ok(())
}

/// The parameters that are written so.
pub(crate) fn judge_parameters(
    alloc: Global,
    parameters: &[Parameter],
    table: &Table,
) -> Result<Vec<Judged>, StackError>
    ensures gives { IfOk result (λ v. Gives (judge_parameters 0 [] parameters.now) table.now (variables_of v.items)) }
    ensures causes { IfErr result (Causes (judge_parameters 0 [] parameters.now) table.now) }
{
    let mut judged = Vec::new(alloc);
    let mut filed = HashIndex::new(alloc);
    let mut rest = parameters;
    while let Some((first, tail)) = rest.split_first() {
        let parameter = judge_parameter(alloc, first, judged.as_slice(), &filed, table)?;
        append(&mut judged, &mut filed, parameter)?;
        rest = tail;
    }
    Ok(judged)
}

fn differs(alloc: Global, name: &[u8]) -> StackError
    ensures { IsError (Refusal.SortsDiffer name.now) result }
{
    match Seq::copy(alloc, name) {
        Ok(name) => StackError::Refused(Refusal::SortsDiffer(name)),
        Err(_) => StackError::Memory,
    }
}

fn is_same(one: Sort, other: Sort) -> bool
    ensures { result ≡ sort_eq one other }
{
    match one {
        Sort::Bool => match other {
            Sort::Bool => true,
            Sort::Int | Sort::Free(_) => false,
        },
        Sort::Int => match other {
            Sort::Int => true,
            Sort::Bool | Sort::Free(_) => false,
        },
        Sort::Free(first) => match other {
            Sort::Free(second) => first == second,
            Sort::Bool | Sort::Int => false,
        },
    }
}

/// The body of the definition of a function of this name, which must have this sort.
pub(crate) fn judge_body(
    alloc: Global,
    name: &[u8],
    parameters: &[Judged],
    sort: Sort,
    term: &SExpr,
    table: &Table,
    kept: Option<Kept>,
) -> Result<TypedBody, StackError>
    requires { IsOfAny (signature table.now) kept }
    ensures gives { IfOk result (λ b. IsBody (variables_of parameters.now) term.now sort table.now b.body) }
    ensures workshop { IfOk result (λ b. IsLeft b.body b.workshop) }
    ensures causes { IfErr result (Causes (body_of_sort name.now (variables_of parameters.now) term.now sort) table.now) }
{
    match elaborate::body(alloc, parameters, term, table, kept) {
        Ok(judged) => {
            if is_same(judged.sort, sort) {
                Ok(judged)
            } else {
                Err(differs(alloc, name))
            }
        }
        Err(error) => Err(judge_error(error)),
    }
}

/// The sorts of parameters.
pub(crate) fn sorts_of(alloc: Global, parameters: &[Judged]) -> Result<Vec<Sort>, AllocError>
    ensures { IfOk result (λ v. v.items ≡ map sort_of parameters.now) }
{
    parameters
        .iter()
        .map(|parameter| parameter.sort)
        .collect(alloc)
}
