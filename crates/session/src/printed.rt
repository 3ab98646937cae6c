//! Values, terms and functions of a model as they are printed (SMT-LIB 2.6, section 4.2.6).
ghost use Rattle.std.specs.Prelude.{◌≡◌, List, map, IfOk, length};
ghost use Rattle.smt_meaning.specs.Stack.{signature_of};
ghost use Rattle.smt_meaning.specs.State.{sort_name as name_of_written, printed as shown, printed_all as all_shown, printed_row as shown_row, printed_function as shown_function, printed_functions as shown_functions};
ghost use Rattle.session.specs.Shown.{shown_terms};

use scope_stack::{Asked, Assertion, ScopeStack};
use smt_meaning::language::{PrintedFunction, PrintedRow, PrintedValue, TermValue};
use smt_meaning::{Bytes, Declaration, Row, SExpr, Seq, Sort, Table, Value};
use std::alloc::{AllocError, Global};

/// The name of a sort.
fn sort_name(alloc: Global, stack: &ScopeStack, sort: Sort) -> Result<Bytes, AllocError>
    ensures { IfOk result (λ n. n ≡ name_of_written (signature_of stack.now.frames) sort) }
{
    match sort {
        Sort::Bool => Bytes::copy(alloc, b"Bool"),
        Sort::Int => Bytes::copy(alloc, b"Int"),
        Sort::Free(id) => Bytes::copy(alloc, stack.sort_name(id)),
    }
}

/// A value of a sort.
fn printed(
    alloc: Global,
    stack: &ScopeStack,
    sort: Sort,
    value: Value,
) -> Result<PrintedValue, AllocError>
    ensures { IfOk result (λ v. v ≡ shown (signature_of stack.now.frames) sort value) }
{
    match value {
        Value::Truth(holds) => Ok(PrintedValue::Truth(holds)),
        Value::Whole(number) => Ok(PrintedValue::Whole(number)),
        Value::Element(number) => Ok(PrintedValue::Element(number, sort_name(alloc, stack, sort)?)),
    }
}

/// Values of these sorts.
fn printed_all(
    alloc: Global,
    stack: &ScopeStack,
    sorts: &[Sort],
    values: &[Value],
) -> Result<Seq<PrintedValue>, AllocError>
    ensures { IfOk result (λ vs. vs ≡ all_shown (signature_of stack.now.frames) sorts.now values.now) }
{
    let mut out = Seq::new(alloc);
    for (place, value) in values.iter().enumerate() {
        if place >= sorts.len() {
            return Ok(out);
        }
        out.push(printed(alloc, stack, sorts[place], *value)?)?;
    }
    Ok(out)
}

/// A row of a function.
fn printed_row(
    alloc: Global,
    stack: &ScopeStack,
    declaration: &Declaration,
    row: &Row,
) -> Result<PrintedRow, AllocError>
    ensures { IfOk result (λ r. r ≡ shown_row (signature_of stack.now.frames) declaration.now row.now) }
{
    let rank = declaration.rank();
    let arguments = printed_all(
        alloc,
        stack,
        rank.arguments.as_slice(),
        row.arguments.as_slice(),
    )?;
    let value = printed(alloc, stack, rank.result, row.value)?;
    Ok(PrintedRow { arguments, value })
}

/// The rows of a function.
fn printed_rows(
    alloc: Global,
    stack: &ScopeStack,
    declaration: &Declaration,
    rows: &[Row],
) -> Result<Seq<PrintedRow>, AllocError>
    ensures { IfOk result (λ rs. rs ≡ map (shown_row (signature_of stack.now.frames) declaration.now) rows.now) }
{
    let mut out = Seq::new(alloc);
    for row in rows {
        out.push(printed_row(alloc, stack, declaration, row)?)?;
    }
    Ok(out)
}

/// The names of sorts.
fn sort_names(alloc: Global, stack: &ScopeStack, sorts: &[Sort]) -> Result<Seq<Bytes>, AllocError>
    ensures { IfOk result (λ ns. ns ≡ map (name_of_written (signature_of stack.now.frames)) sorts.now) }
{
    let mut out = Seq::new(alloc);
    for sort in sorts {
        out.push(sort_name(alloc, stack, *sort)?)?;
    }
    Ok(out)
}

/// A declared function with its table.
fn printed_function(
    alloc: Global,
    stack: &ScopeStack,
    declaration: &Declaration,
    table: &Table,
) -> Result<PrintedFunction, AllocError>
    ensures { IfOk result (λ f. f ≡ shown_function (signature_of stack.now.frames) declaration.now table.now) }
{
    let rank = declaration.rank();
    let name = Bytes::copy(alloc, declaration.name().as_slice())?;
    let arguments = sort_names(alloc, stack, rank.arguments.as_slice())?;
    let result = sort_name(alloc, stack, rank.result)?;
    let rows = printed_rows(alloc, stack, declaration, table.rows.as_slice())?;
    let default = printed(alloc, stack, rank.result, table.default)?;
    Ok(PrintedFunction {
        name,
        arguments,
        result,
        rows,
        default,
    })
}

/// The declared functions of a stack in order, each with its table.
pub fn printed_functions(
    alloc: Global,
    stack: &ScopeStack,
    tables: &[Table],
) -> Result<Seq<PrintedFunction>, AllocError>
    ensures { IfOk result (λ fs. fs ≡ shown_functions (signature_of stack.now.frames) (signature_of stack.now.frames) tables.now) }
{
    let mut out = Seq::new(alloc);
    let mut next = 0;
    for declaration in stack.declarations() {
        if next >= tables.len() {
            return Ok(out);
        }
        if declaration.is_symbol() {
            out.push(printed_function(alloc, stack, declaration, &tables[next])?)?;
            next += 1;
        }
    }
    Ok(out)
}

/// Terms as they were given, each with its value.
pub fn term_values(
    alloc: Global,
    stack: &ScopeStack,
    terms: &[SExpr],
    asked: &[Asked],
    values: &[Value],
) -> Result<Seq<TermValue>, AllocError>
    ensures { IfOk result (λ vs. vs ≡ shown_terms (signature_of stack.now.frames) terms.now asked.now values.now) }
{
    let mut out = Seq::new(alloc);
    for (place, term) in terms.iter().enumerate() {
        if place >= asked.len() || place >= values.len() {
            return Ok(out);
        }
        let term = term.copy(alloc)?;
        let value = printed(alloc, stack, asked[place].sort, values[place])?;
        out.push(TermValue { term, value })?;
    }
    Ok(out)
}

/// The texts of assertions.
pub fn texts_of(alloc: Global, assertions: &[Assertion]) -> Result<Seq<SExpr>, AllocError>
    ensures { IfOk result (λ ts. ts ≡ map (λ a. a.text) assertions.now) }
{
    let mut out = Seq::new(alloc);
    for assertion in assertions {
        out.push(assertion.text.copy(alloc)?)?;
    }
    Ok(out)
}
