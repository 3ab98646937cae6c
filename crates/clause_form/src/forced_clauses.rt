//! The laws that the clauses of a node force all that are true of it and say all of it, as contracts of functions that do nothing.
ghost use Rattle.clause_form.specs.ForcedClausesLaws.{MoreForceAsMuch, NodeClausesDecide};
ghost use Rattle.clause_form.specs.Renamed.{NodeClausesRenamed};
ghost use Rattle.clause_form.specs.NodeClausesLaws.{NodeClausesForce};

/// The clauses of a node force each clause that is true whatever truth values its arguments have and no part of which is one.
pub fn node_clauses_force()
    ensures { NodeClausesForce }
{}

/// More clauses force what fewer force.
pub fn more_force_as_much()
    ensures { MoreForceAsMuch }
{}

/// Truth values that make each clause of a node true give it the value of its operator.
pub fn node_clauses_decide()
    ensures { NodeClausesDecide }
{}

/// The clauses of a node whose places get other names, no two of them one, are the clauses of the node at the other places.
pub fn node_clauses_are_renamed()
    ensures { NodeClausesRenamed }
{}
