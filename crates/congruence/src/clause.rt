//! Clauses of negated reasons.
ghost use Rattle.std.specs.Prelude.{◌≡◌, ◌+◌, ◌<◌, ◌++◌, ◌∷◌, [], ◌↔◌, List, length, map, IsTrue, Contains, All, IfOk, OnOk};
ghost use Rattle.literals.specs.Signed.{Signed, opposite};
ghost use Rattle.smt_meaning.specs.declared.clauses.Atom.{Atom};
ghost use Rattle.smt_meaning.specs.Declaration.{Declaration};
ghost use Rattle.smt_meaning.specs.Term.{Tree};
ghost use Rattle.search_port.specs.State.{TheoryState};
ghost use Rattle.search_port.specs.Calls.{IsConflict};
ghost use Rattle.point_closure.specs.Closure.{AreRead};
ghost use Rattle.congruence.specs.Recorded.{IsRecorded, AreEqualTerms};
ghost use Rattle.congruence.specs.Justified.{AreJustified};
ghost use Rattle.congruence.specs.Reasons.{NoneTwice, AreEachOnce};
ghost use Rattle.congruence.specs.Clauses.{IsFalseClause, IsToldAtOneLevel, AddsReasons};

use crate::{Congruence, Explanation, each_once, reasons_make_equal};
use literals::Literal;
use search_port::Lemma;
use smt_meaning::{Seq, TermId};
use std::alloc::AllocError;

pub(crate) fn add_negations(
    clause: &mut Vec<Literal>,
    reasons: &[Literal],
) -> Result<(), AllocError>
    ensures { OnOk result (clause.new.items ≡ clause.old.items ++ map opposite reasons.now) }
{
    for reason in reasons {
        clause.push(reason.negated())?;
    }
    Ok(())
}

/// Adds the negations of the reasons for which two terms are equal.
pub fn add_reasons(
    explanation: &mut Explanation,
    clause: &mut Vec<Literal>,
    congruence: &Congruence,
    left: TermId,
    right: TermId,
) -> Result<(), AllocError>
    requires recorded { IsRecorded congruence.now }
    requires left { left + 2 < length congruence.now.closure.graph }
    requires right { right + 2 < length congruence.now.closure.graph }
    requires equal { AreEqualTerms congruence.now left right }
    ensures { OnOk result ((ds : List Declaration) (ts : List Tree) (table : List Atom) → AreRead ts congruence.now.closure.graph → AreJustified ds ts table congruence.now.closure.steps.items congruence.now.reasons.items → AddsReasons ds ts table congruence.now.reasons.items clause.old.items clause.new.items left right) }
{
    reasons_make_equal();
    congruence.explain(explanation, left, right)?;
    add_negations(clause, &explanation.reasons)?;
    Ok(())
}

/// The clause at level 0 with these literals.
pub fn lemma_with(literals: Vec<Literal>) -> Lemma
    requires { NoneTwice literals.items }
    ensures literals { result.literals ≡ literals.items }
    ensures level { result.level ≡ 0 }
    ensures conflict { (ds : List Declaration) (t : TheoryState) → IsToldAtOneLevel ds t → IsFalseClause ds t.reading.trees t.reading.table t.log literals.items → IsConflict t result }
{
    Lemma {
        literals: Seq::from_vec(literals),
        level: 0,
    }
}

/// The clause at level 0 with each of these literals once.
pub fn lemma_of(literals: Vec<Literal>) -> Lemma
    ensures same { AreEachOnce literals.items result.literals }
    ensures level { result.level ≡ 0 }
    ensures conflict { (ds : List Declaration) (t : TheoryState) → IsToldAtOneLevel ds t → IsFalseClause ds t.reading.trees t.reading.table t.log literals.items → IsConflict t result }
{
    lemma_with(each_once(literals))
}
