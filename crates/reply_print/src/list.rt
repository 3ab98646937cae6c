//! Lists whose parts are printed one after another.
ghost use Rattle.std.specs.Prelude.{◌≡◌, ◌++◌, List, ℕ, map, OnOk};
ghost use Rattle.smt_meaning.specs.Text.{spaced};
ghost use Rattle.reply_print.specs.Pieces.{space_unless};

use smt_meaning::Bytes;
use std::alloc::{AllocError, Global};

/// What is printed as one part of a list.
pub trait Print {
    ghost text: { Self → List ℕ };

    /// Appends its text.
    fn print(&self, alloc: Global, out: &mut Bytes) -> Result<(), AllocError>
        ensures { OnOk result (out.new ≡ out.old ++ text self.now) };
}

/// Appends the texts of a list's parts, with one space between neighbours.
pub fn parts<T: Print>(alloc: Global, items: &[T], out: &mut Bytes) -> Result<(), AllocError>
    ensures { OnOk result (out.new ≡ out.old ++ spaced (map T.text items.now)) }
{
    let mut first = true;
    for part in items {
        space(first, out)?;
        part.print(alloc, out)?;
        first = false;
    }
    Ok(())
}

/// Appends a space, unless what follows is the first part of a list.
pub fn space(first: bool, out: &mut Bytes) -> Result<(), AllocError>
    ensures { OnOk result (out.new ≡ out.old ++ space_unless first) }
{
    if first { Ok(()) } else { out.push(b' ') }
}
