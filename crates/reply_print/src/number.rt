//! Numbers.
ghost use Rattle.std.specs.Prelude.{◌≡◌, ◌++◌, OnOk};
ghost use Rattle.std.specs.Fmt.{decimal};
ghost use Rattle.smt_meaning.specs.Text.{integer_text};

use itoa::Buffer;
use smt_meaning::Bytes;
use std::alloc::AllocError;

/// Appends the digits of a number.
pub fn natural(number: u128, out: &mut Bytes) -> Result<(), AllocError>
    ensures { OnOk result (out.new ≡ out.old ++ decimal number) }
{
    let mut digits = Buffer::new();
    out.append(digits.format(number).as_bytes())
}

/// Appends a whole number as a term: below 0 its negation stands in parentheses.
pub fn integer(number: i128, out: &mut Bytes) -> Result<(), AllocError>
    ensures { OnOk result (out.new ≡ out.old ++ integer_text number) }
{
    if number < 0 {
        out.append(b"(- ")?;
        natural(number.unsigned_abs(), out)?;
        out.push(b')')
    } else {
        natural(number.unsigned_abs(), out)
    }
}
