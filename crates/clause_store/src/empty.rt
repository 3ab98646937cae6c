//! Kept clauses without literals: while there is one, propagation answers it.
ghost use Rattle.std.specs.Prelude.{◌≡◌, true, false, ℕ, ◌<◌, ◌^◌, List, [], IfSome, IfNone, length};
ghost use Rattle.literals.specs.Signed.{Signed};
ghost use Rattle.clause_store.specs.Entries.{entry_at};
ghost use Rattle.clause_store.specs.Empties.{IsEmptyAt, NamesEmpty};

use crate::rows::Rows;

fn is_empty(rows: &Rows, i: u32) -> bool
    requires within { i < length rows.now.entries }
    ensures yes { result ≡ true → IsEmptyAt rows.now.entries i }
    ensures no { result ≡ false → IsEmptyAt rows.now.entries i → ⊥ }
{
    rows.is_live(i) && rows.size(i) == 0
}

// The first of them.
fn find_empty(rows: &Rows) -> Option<u32>
    requires small { length rows.now.entries < 2 ^ 32 }
    ensures { NamesEmpty rows.now.entries result }
{
    for i in 0..rows.len() {
        if is_empty(rows, i as u32) {
            return Some(i as u32);
        }
    }
    None
}

// One that is kept, where this one was before clauses were forgotten.
pub fn still_empty(rows: &Rows, before: Option<u32>) -> Option<u32>
    requires small { length rows.now.entries < 2 ^ 32 }
    requires some { IfSome before (λ i. (i < length rows.now.entries) × ((entry_at rows.now.entries i).literals ≡ [])) }
    requires none { IfNone before ((i : ℕ) → IsEmptyAt rows.now.entries i → ⊥) }
    ensures { NamesEmpty rows.now.entries result }
{
    match before {
        None => None,
        Some(i) => if rows.is_live(i) {
            Some(i)
        } else {
            find_empty(rows)
        },
    }
}
