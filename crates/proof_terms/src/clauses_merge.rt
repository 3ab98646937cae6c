//! Two clauses as one, each without one of its literals.
ghost use Rattle.std.specs.Prelude.{◌≢◌, ◌⊎◌, ◌<◌, ◌≤◌, ◌-◌, ◌+◌, length, IfOk, OnOk};
ghost use Rattle.proof_terms.specs.Kept.{AreAscending};
ghost use Rattle.proof_terms.specs.ClausesMerged.{IsNext, IsMergedTo, IsPushedUnless, IsResolvent};

use std::alloc::AllocError;

/// In which of two lists the least code stands that is still to come.
#[derive(Clone, Copy, Drop)]
enum Next {
    Left,
    Right,
    Both,
}

/// A place in each of two lists.
#[derive(Clone, Copy, Drop)]
struct Places {
    left: usize,
    right: usize,
}

fn next_of(left: &[u32], right: &[u32], at: Places) -> Next
    requires left { at.left ≤ length left.now }
    requires right { at.right ≤ length right.now }
    requires more { (at.left < length left.now) ⊎ (at.right < length right.now) }
    ensures { IsNext left.now right.now at.left at.right result }
{
    if at.left == left.len() {
        return Next::Right;
    }
    if at.right == right.len() || left[at.left] < right[at.right] {
        return Next::Left;
    }
    if left[at.left] == right[at.right] {
        Next::Both
    } else {
        Next::Right
    }
}

fn push_unless(merged: &mut Vec<u32>, code: u32, without: u32) -> Result<(), AllocError>
    ensures { OnOk result (IsPushedUnless merged.old.items merged.new.items code without) }
{
    if code != without {
        merged.push(code)?;
    }
    Ok(())
}

/// Merges one code more.
fn advance(
    left: &[u32],
    right: &[u32],
    code: u32,
    negation: u32,
    at: Places,
    merged: &mut Vec<u32>,
) -> Result<Places, AllocError>
    requires left { AreAscending left.now }
    requires right { AreAscending right.now }
    requires different { code ≢ negation }
    requires more { (at.left < length left.now) ⊎ (at.right < length right.now) }
    requires merged { IsMergedTo left.now right.now code negation at.left at.right merged.old.items }
    ensures merged { IfOk result (λ p. IsMergedTo left.now right.now code negation p.left p.right merged.new.items) }
    ensures on { IfOk result (λ p. at.left + at.right < p.left + p.right) }
{
    match next_of(left, right, at) {
        Next::Left => {
            push_unless(merged, left[at.left], code)?;
            Ok(Places {
                left: at.left + 1,
                right: at.right,
            })
        }
        Next::Right => {
            push_unless(merged, right[at.right], negation)?;
            Ok(Places {
                left: at.left,
                right: at.right + 1,
            })
        }
        Next::Both => {
            merged.push(left[at.left])?;
            Ok(Places {
                left: at.left + 1,
                right: at.right + 1,
            })
        }
    }
}

/// Merges two ascending lists, one without a code, the other without another.
pub(crate) fn merge(
    left: &[u32],
    right: &[u32],
    code: u32,
    negation: u32,
    merged: &mut Vec<u32>,
) -> Result<(), AllocError>
    requires left { AreAscending left.now }
    requires right { AreAscending right.now }
    requires different { code ≢ negation }
    ensures { OnOk result (IsResolvent left.now right.now code negation merged.new.items) }
{
    merged.clear();
    let mut at = Places { left: 0, right: 0 };
    while at.left < left.len() || at.right < right.len() {
        at = advance(left, right, code, negation, at, merged)?;
    }
    Ok(())
}
