//! What holds of the clauses of a node.
ghost use Rattle.clause_form.specs.Node.{NodeClausesDecide, NodeClausesHold};

use crate::forced_clauses::node_clauses_decide as decide;
use crate::{
    node_clauses_are_apart, node_clauses_are_over, node_clauses_are_true, wide_clauses_are_apart,
    wide_clauses_are_over, wide_clauses_are_true,
};

/// Each clause of a node is true whatever truth values its arguments have, is over the node and its arguments, and has no atom twice.
pub fn node_clauses_hold()
    ensures { NodeClausesHold }
{
    node_clauses_are_true();
    wide_clauses_are_true();
    node_clauses_are_over();
    wide_clauses_are_over();
    node_clauses_are_apart();
    wide_clauses_are_apart();
}

/// Truth values that make each clause of a node true give it the value of its operator, where this has clauses that say all of it.
pub fn node_clauses_decide()
    ensures { NodeClausesDecide }
{
    decide();
}
