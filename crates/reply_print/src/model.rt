//! Functions of models (SMT-LIB 2.6, section 4.2.6).
ghost use Rattle.std.specs.Prelude.{◌≡◌, ◌++◌, [], ◌∷◌, false, OnOk, codes, flat_map, replicate};
ghost use Rattle.smt_meaning.specs.Text.{spaced, listed, parameter_name, parameters_from, equations_from, conjunction as conjunction_of, rows_text, function_text};
ghost use Rattle.reply_print.specs.Pieces.{rest_of_list, parameter_text, equation_text, row_head as head_of_row, signature_text};

use crate::list::{Print, space};
use crate::name::symbol;
use crate::number::natural;
use crate::values::value;
use smt_meaning::Bytes;
use smt_meaning::language::{PrintedFunction, PrintedRow, PrintedValue};
use std::alloc::{AllocError, Global};

impl Print for PrintedFunction {
    ghost text = { function_text };

    #[tactic(auto, using(crate::proofs::Models::function_is))]
    fn print(&self, alloc: Global, out: &mut Bytes) -> Result<(), AllocError> {
        signature(self, out)?;
        out.push(b' ')?;
        rows(alloc, self.rows.as_slice(), &self.default, out)?;
        out.push(b')')
    }
}

/// Appends the name of a function, its parameters and its sort.
fn signature(function: &PrintedFunction, out: &mut Bytes) -> Result<(), AllocError>
    ensures { OnOk result (out.new ≡ out.old ++ signature_text function.now) }
{
    out.append(b"(define-fun ")?;
    symbol(function.name.as_slice(), out)?;
    out.push(b' ')?;
    parameter_list(function.arguments.as_slice(), out)?;
    out.push(b' ')?;
    symbol(function.result.as_slice(), out)
}

/// Appends the list of the parameters of a function, whose sorts have these names.
fn parameter_list(sorts: &[Bytes], out: &mut Bytes) -> Result<(), AllocError>
    ensures { OnOk result (out.new ≡ out.old ++ listed (parameters_from 0 sorts.now)) }
{
    out.push(b'(')?;
    parameters(sorts, out)?;
    out.push(b')')
}

/// Appends these parameters, with one space between neighbours.
fn parameters(sorts: &[Bytes], out: &mut Bytes) -> Result<(), AllocError>
    ensures { OnOk result (out.new ≡ out.old ++ spaced (parameters_from 0 sorts.now)) }
{
    for (place, sort) in sorts.iter().enumerate() {
        space(place == 0, out)?;
        parameter(place, sort.as_slice(), out)?;
    }
    Ok(())
}

/// Appends a parameter with its sort.
fn parameter(place: usize, sort: &[u8], out: &mut Bytes) -> Result<(), AllocError>
    ensures { OnOk result (out.new ≡ out.old ++ parameter_text place sort.now) }
{
    out.append(b"(x!")?;
    natural(place as u128, out)?;
    out.push(b' ')?;
    symbol(sort, out)?;
    out.push(b')')
}

/// Appends a function's body: each row decides before those after it, and then the default stands.
fn rows(
    alloc: Global,
    rows: &[PrintedRow],
    default: &PrintedValue,
    out: &mut Bytes,
) -> Result<(), AllocError>
    ensures { OnOk result (out.new ≡ out.old ++ rows_text rows.now default.now) }
{
    row_heads(alloc, rows, out)?;
    value(alloc, default, out)?;
    close(rows.len(), out)
}

/// Appends all of the rows that stands before the default.
fn row_heads(alloc: Global, rows: &[PrintedRow], out: &mut Bytes) -> Result<(), AllocError>
    ensures { OnOk result (out.new ≡ out.old ++ flat_map head_of_row rows.now) }
{
    for row in rows {
        row_head(alloc, row, out)?;
    }
    Ok(())
}

/// Appends a row: the condition that the arguments are its own, and its value.
fn row_head(alloc: Global, row: &PrintedRow, out: &mut Bytes) -> Result<(), AllocError>
    ensures { OnOk result (out.new ≡ out.old ++ head_of_row row.now) }
{
    out.append(b"(ite ")?;
    conjunction(alloc, row.arguments.as_slice(), out)?;
    out.push(b' ')?;
    value(alloc, &row.value, out)?;
    out.push(b' ')
}

/// Appends closing parentheses.
fn close(count: usize, out: &mut Bytes) -> Result<(), AllocError>
    ensures { OnOk result (out.new ≡ out.old ++ replicate count 41) }
{
    for _ in 0..count {
        out.push(b')')?;
    }
    Ok(())
}

/// Appends the condition that the parameters have these values.
#[tactic(auto, using(crate::proofs::Models::conjunction_one))]
fn conjunction(alloc: Global, arguments: &[PrintedValue], out: &mut Bytes) -> Result<(), AllocError>
    ensures { OnOk result (out.new ≡ out.old ++ conjunction_of (equations_from 0 arguments.now)) }
{
    if arguments.len() == 1 {
        return equation(alloc, 0, &arguments[0], out);
    }
    out.append(b"(and")?;
    equations(alloc, arguments, out)?;
    out.push(b')')
}

/// Appends an equation for each parameter, each behind a space.
fn equations(alloc: Global, arguments: &[PrintedValue], out: &mut Bytes) -> Result<(), AllocError>
    ensures { OnOk result (out.new ≡ out.old ++ rest_of_list false (equations_from 0 arguments.now)) }
{
    for (place, argument) in arguments.iter().enumerate() {
        out.push(b' ')?;
        equation(alloc, place, argument, out)?;
    }
    Ok(())
}

/// Appends the equation of a parameter and its value.
fn equation(
    alloc: Global,
    place: usize,
    argument: &PrintedValue,
    out: &mut Bytes,
) -> Result<(), AllocError>
    ensures { OnOk result (out.new ≡ out.old ++ equation_text place argument.now) }
{
    out.append(b"(= x!")?;
    natural(place as u128, out)?;
    out.push(b' ')?;
    value(alloc, argument, out)?;
    out.push(b')')
}
