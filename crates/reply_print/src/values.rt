//! Values (SMT-LIB 2.6, section 4.2.6).
ghost use Rattle.std.specs.Prelude.{◌≡◌, ◌++◌, OnOk, IfOk};
ghost use Rattle.smt_meaning.specs.Text.{truth_text, element_name as name_of_element, value_text, term_value_text, named_truth_text};
ghost use Rattle.smt_meaning.specs.declared.answers.PrintedValue.TheVariants.{Element};

use crate::list::Print;
use crate::name::symbol;
use crate::number::{integer, natural};
use crate::s_expression::s_expression;
use smt_meaning::Bytes;
use smt_meaning::language::{NamedTruth, PrintedValue, TermValue};
use std::alloc::{AllocError, Global};

/// Appends `true` or `false`.
pub fn truth(truth: bool, out: &mut Bytes) -> Result<(), AllocError>
    ensures { OnOk result (out.new ≡ out.old ++ truth_text truth) }
{
    if truth {
        out.append(b"true")
    } else {
        out.append(b"false")
    }
}

/// Appends a value.
pub fn value(alloc: Global, value: &PrintedValue, out: &mut Bytes) -> Result<(), AllocError>
    ensures { OnOk result (out.new ≡ out.old ++ value_text value.now) }
{
    match value {
        PrintedValue::Truth(holds) => truth(*holds, out),
        PrintedValue::Whole(number) => integer(*number, out),
        PrintedValue::Element(number, sort) => element(alloc, *number, sort.as_slice(), out),
    }
}

/// Appends an element of a declared sort.
fn element(alloc: Global, number: u64, sort: &[u8], out: &mut Bytes) -> Result<(), AllocError>
    ensures { OnOk result (out.new ≡ out.old ++ value_text (Element number sort.now)) }
{
    let name = element_name(alloc, number, sort)?;
    out.append(b"(as ")?;
    symbol(name.as_slice(), out)?;
    out.push(b' ')?;
    symbol(sort, out)?;
    out.push(b')')
}

/// The name of an element of a declared sort.
fn element_name(alloc: Global, number: u64, sort: &[u8]) -> Result<Bytes, AllocError>
    ensures { IfOk result (λ name. name ≡ name_of_element number sort.now) }
{
    let mut name = Bytes::new(alloc);
    name.push(b'@')?;
    name.append(sort)?;
    name.push(b'!')?;
    natural(u128::from(number), &mut name)?;
    Ok(name)
}

impl Print for TermValue {
    ghost text = { term_value_text };

    fn print(&self, alloc: Global, out: &mut Bytes) -> Result<(), AllocError> {
        out.push(b'(')?;
        s_expression(&self.term, out)?;
        out.push(b' ')?;
        value(alloc, &self.value, out)?;
        out.push(b')')
    }
}

impl Print for NamedTruth {
    ghost text = { named_truth_text };

    fn print(&self, _: Global, out: &mut Bytes) -> Result<(), AllocError> {
        out.push(b'(')?;
        symbol(self.name.as_slice(), out)?;
        out.push(b' ')?;
        truth(self.value, out)?;
        out.push(b')')
    }
}
