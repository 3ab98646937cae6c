//! Keeping clauses in a store.
ghost use Rattle.std.specs.Prelude.{◌≡◌, ◌<◌, All, Contains, OnOk};
ghost use Rattle.literals.specs.Signed.{Signed};
ghost use Rattle.clause_store.specs.Stored.{Kept};
ghost use Rattle.search_port.specs.State.{Reading};
ghost use Rattle.first_clauses.specs.PartClausesFirst.{HasClause, IsBegun, IsClause};

use clause_form::Clauses;
use clause_store::store::Store;
use literals::Literal;
use std::alloc::AllocError;

/// Keeps a clause. An `Err` is for want of memory.
pub fn keep(store: &mut Store, literals: &[Literal]) -> Result<(), AllocError>
    requires { All (λ (l : Signed). l.atom < store.old.trail.atoms) literals.now }
    ensures begun { OnOk result ((q : Reading) → IsBegun q store.old → IsClause q 0 literals.now → IsBegun q store.new) }
    ensures stay { (c : Kept) → Contains store.old.clauses c → Contains store.new.clauses c }
    ensures has { OnOk result (HasClause store.new.clauses literals.now) }
    ensures atoms { store.new.trail.atoms ≡ store.old.trail.atoms }
{
    let _id = store.add(literals, 0)?;
    Ok(())
}

/// Keeps the clauses of a list. An `Err` is for want of memory.
pub fn keep_all(store: &mut Store, clauses: &Clauses) -> Result<(), AllocError>
    requires { All (All (λ (l : Signed). l.atom < store.old.trail.atoms)) clauses.now }
    ensures begun { OnOk result ((q : Reading) → IsBegun q store.old → All (IsClause q 0) clauses.now → IsBegun q store.new) }
    ensures stay { (c : Kept) → Contains store.old.clauses c → Contains store.new.clauses c }
    ensures has { OnOk result (All (HasClause store.new.clauses) clauses.now) }
{
    for i in 0..clauses.len() {
        keep(store, clauses.clause(i))?;
    }
    Ok(())
}
