//! Clauses that no check puts: of an equality of Bools, and of neighbouring bounds of one sum.
use bound_clauses::{Bound, Chain, put_axioms};
use clause_form::Clauses;
use equality_clauses::put_sameness;
use std::alloc::{AllocError, Global};
use std::test::Fail;

/// The literals of clauses: one more than the atom's number, negative where it is negated, and 0 at the end of each clause.
fn numbers(alloc: Global, clauses: &Clauses) -> Result<Vec<i64>, AllocError> {
    let mut all = Vec::new(alloc);
    for i in 0..clauses.len() {
        for literal in clauses.clause(i) {
            let number = literal.atom() as i64 + 1;
            all.push(if literal.is_positive() {
                number
            } else {
                -number
            })?;
        }
        all.push(0)?;
    }
    Ok(all)
}

#[test]
fn an_equality_of_truth_values(rt: HostRuntime) -> Result<(), Fail> {
    let mut clauses = Clauses::new(rt.alloc());
    put_sameness(&mut clauses, 2, 0, 1)?;
    let wanted = [-3, -1, 2, 0, -3, 1, -2, 0, 3, 1, 2, 0, 3, -1, -2, 0];
    assert_eq!(rt;
        numbers(rt.alloc(), &clauses)?.as_slice(),
        wanted.as_slice()
    );
    Ok(())
}

/// Of s: s <= 3 and s <= 5; of -s: s >= 4 and s >= 0.
#[test]
fn neighbouring_bounds(rt: HostRuntime) -> Result<(), Fail> {
    let mut clauses = Clauses::new(rt.alloc());
    let mut chain = Chain::new(rt.alloc());
    let bounds = [
        Bound {
            number: 0,
            threshold: 3,
        },
        Bound {
            number: 1,
            threshold: 5,
        },
    ];
    let negated = [
        Bound {
            number: 2,
            threshold: -4,
        },
        Bound {
            number: 3,
            threshold: 0,
        },
    ];
    put_axioms(&mut clauses, &mut chain, &bounds, &negated)?;
    let wanted = [4, 1, 0, -1, -3, 0, 3, 1, 0, 3, 2, 0];
    assert_eq!(rt;
        numbers(rt.alloc(), &clauses)?.as_slice(),
        wanted.as_slice()
    );
    Ok(())
}
