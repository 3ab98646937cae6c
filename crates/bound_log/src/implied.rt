//! Atoms that follow by a row.
ghost use Rattle.std.specs.Prelude.{◌≡◌, ◌<◌, length, IfSome};
ghost use Rattle.search_port.specs.State.{IsOpenIn};
ghost use Rattle.literals.specs.Signed.{Signed};
ghost use Rattle.bound_log.specs.Atoms.{KnowsTheSame};
ghost use Rattle.bound_log.specs.Columns.{KeepsColumns};
ghost use Rattle.bound_log.specs.Growth.{KeepsVariables};
ghost use Rattle.bound_log.specs.Implied.{IsTried, IsImplied};
ghost use Rattle.bound_log.specs.Reporting.{IsClause};
ghost use Rattle.simplex.specs.State.{KeepsValues};

use crate::log::BoundLog;
use crate::report::Report;
use literals::Literal;
use search_port::Lemma;
use std::alloc::Global;

/// The clause of a conflict.
fn clause_of(report: Report) -> Option<Lemma>
    ensures { IfSome result (λ c. report ≡ Report.Conflict c) }
{
    match report {
        Report::Conflict(clause) => Some(clause),
        Report::Fits | Report::Range(_) | Report::UnitsSpent | Report::Memory => None,
    }
}

/// A clause that the log breaks, where the bounds show one without a step.
fn broken(bounds: &mut BoundLog, alloc: Global) -> Option<Lemma>
    ensures same { bounds.new ≡ bounds.old }
    ensures clause { IfSome result (IsClause bounds.old) }
{
    let report = bounds.look(alloc)?;
    clause_of(report)
}

/// What the bounds break at once, without a step, where a literal is told, which is then taken back.
fn try_literal(bounds: &mut BoundLog, alloc: Global, literal: Literal) -> Option<Lemma>
    requires numbered { literal.atom < length bounds.old.said }
    ensures stays { KnowsTheSame bounds.old bounds.new }
    ensures columns { KeepsColumns bounds.old bounds.new }
    ensures variables { KeepsVariables bounds.old bounds.new }
    ensures table { bounds.new.bounds.table ≡ bounds.old.bounds.table }
    ensures values { KeepsValues bounds.old.bounds.columns bounds.new.bounds.columns }
    ensures log { bounds.new.log ≡ bounds.old.log }
    ensures said { bounds.new.said ≡ bounds.old.said }
    ensures clause { IfSome result (IsTried bounds.old literal) }
{
    let count = bounds.len();
    let Ok(()) = bounds.tell(literal) else {
        return None;
    };
    let found = broken(bounds, alloc);
    bounds.undo_to(count);
    found
}

impl BoundLog {
    /// A clause by which an open atom follows from what is told, or by which what is told breaks the bounds, where the row of the atom's sum shows one by the bounds of its other variables.
    /// `None` promises nothing. Values stay.
    pub fn implied(&mut self, alloc: Global, atom: u32) -> Option<Lemma>
        requires numbered { atom < length self.old.said }
        requires open { (l : Signed) → l.atom ≡ atom → IsOpenIn self.old.log l }
        ensures stays { KnowsTheSame self.old self.new }
        ensures columns { KeepsColumns self.old self.new }
        ensures variables { KeepsVariables self.old self.new }
        ensures table { self.new.bounds.table ≡ self.old.bounds.table }
        ensures values { KeepsValues self.old.bounds.columns self.new.bounds.columns }
        ensures log { self.new.log ≡ self.old.log }
        ensures clause { IfSome result (IsImplied self.old) }
    {
        let literal = self.shut_out(atom)?;
        try_literal(self, alloc, literal)
    }
}
