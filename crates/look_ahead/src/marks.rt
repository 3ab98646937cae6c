//! Where lists end.
ghost use Rattle.std.specs.Prelude.{◌≡◌, ℕ, ◌+◌, ◌<◌, length, IfOk, OnOk};
ghost use Rattle.look_ahead.specs.Ahead.{AreEnds, IsInside};
ghost use Rattle.look_ahead.specs.Marks.{AreMarked};

use smt_laws::s_expressions_read_back;
use smt_meaning::{SExpr, TokenView};
use std::alloc::{AllocError, Global};

/// Marks the end of a list that begins at a place; of those behind it the ends are marked, and the last of the places in `closing` closes the innermost that is open.
fn mark(
    term: &SExpr,
    place: usize,
    ends: &mut Vec<usize>,
    closing: &mut Vec<usize>,
) -> Result<(), AllocError>
    requires within { place < length term.now }
    requires inside { (i : ℕ) → IsInside term.now i }
    requires marked { AreMarked term.now (place + 1) ends.old.items closing.old.items }
    ensures { OnOk result (AreMarked term.now place ends.new.items closing.new.items) }
{
    match term.token(place) {
        TokenView::Leave => {
            closing.push(place)?;
            Ok(())
        }
        TokenView::Enter => {
            if let Some(close) = closing.pop() {
                ends[place] = close;
            }
            Ok(())
        }
        _ => Ok(()),
    }
}

/// For each `(` of a term the place of its `)`.
pub fn ends(alloc: Global, term: &SExpr) -> Result<Vec<usize>, AllocError>
    ensures { IfOk result (λ v. AreEnds term.now v.items) }
{
    s_expressions_read_back();
    let count = term.len();
    let mut ends = Vec::new(alloc);
    ends.resize(count, 0)?;
    let mut closing = Vec::new(alloc);
    for back in 0..count {
        mark(term, count - 1 - back, &mut ends, &mut closing)?;
    }
    Ok(ends)
}
