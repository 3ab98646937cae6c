//! What holds of the axioms, as the contract of a function that does nothing.
ghost use Rattle.order_clauses.specs.Reached.{AxiomsReachAll};

/// From a bound of a sum, or its negation, propagation over the axioms reaches all that follows on the other bounds of this sum and of its negation.
pub fn axioms_reach_all()
    ensures { AxiomsReachAll }
{}
