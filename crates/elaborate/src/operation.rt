//! An operator applied to arguments, with the quotients that its term has.
//!
//! Why a quotient is a part as any other: in the tree of `(mod a n)` and of `((_ divisible n) a)`
//! the quotient `(div a n)` is the last argument, and of a divisibility the numeral n the second.
//! So it is counted, marked, copied, a leaf of the check, and its equalities with other Int parts
//! are among the atoms that a check may have. That the last argument is the quotient is part of
//! being linear, which every tree of a stack is. Their values are by the first two.
//!
//! `div` by several divisors is the `div` of a `div`, as the standard's `:left-assoc` says: in a
//! tree a division has one divisor, so each partial one is an ordinary part, a leaf and a row of
//! its own. Where a script has both `(div a m n)` and `(div (div a m) n)` they are one term, also
//! for the limit of terms.
ghost use Rattle.std.specs.Prelude.{◌≡◌, [], ◌∷◌, List, map, pos, true, IfOk, OnErr};
ghost use Rattle.smt_meaning.specs.Term.{Tree, node, none, more, tree_at};
ghost use Rattle.smt_meaning.specs.TreeShape.{operation, quotient_tree, divided_from, with_parts};
ghost use Rattle.smt_meaning.specs.Sorts.{trees_of, is_small};
ghost use Rattle.elaborate.specs.Values.{AreValues, IsTerm, HasGrown, typed, with_quotient};

use crate::error::JudgeError;
use crate::numeral::numeral;
use crate::value::{Value, stored};
use smt_meaning::{Head, Operator, Sort};
use std::alloc::Global;
use term_store::TermStore;

/// A term by a divisor.
fn quotient(
    alloc: Global,
    sort: Sort,
    number: Value,
    divisor: Value,
    store: &mut TermStore,
) -> Result<Value, JudgeError>
    requires { AreValues store.old.trees (number ∷ divisor ∷ []) }
    ensures ok { IfOk result (λ v. (ts : List Tree) → store.old.trees ≡ with_parts ts (tree_at store.old.trees number.id) → IsTerm (quotient_tree (tree_at store.old.trees number.id) (tree_at store.old.trees divisor.id)) sort ts store.new.trees v) }
    ensures memory { OnErr result (result ≡ Err JudgeError.Memory) }
    ensures longer { HasGrown store.old store.new }
{
    let _ = store.len();
    let head = Head::Theory(Operator::Divide);
    stored(alloc, head, sort, &[number, divisor], store)
}

/// A term by one divisor after another.
fn divided(
    alloc: Global,
    sort: Sort,
    number: Value,
    divisors: &[Value],
    store: &mut TermStore,
) -> Result<Value, JudgeError>
    requires number { AreValues store.old.trees (number ∷ []) }
    requires divisors { AreValues store.old.trees divisors.now }
    ensures ok { IfOk result (λ v. IsTerm (divided_from (tree_at store.old.trees number.id) (trees_of (map (typed store.old.trees) divisors.now))) sort store.old.trees store.new.trees v) }
    ensures memory { OnErr result (result ≡ Err JudgeError.Memory) }
    ensures longer { HasGrown store.old store.new }
{
    let _ = store.len();
    let mut value = Value {
        id: number.id,
        sort,
        constant: number.constant,
        linear: number.linear,
    };
    for divisor in divisors {
        value = quotient(alloc, sort, value, *divisor, store)?;
    }
    Ok(value)
}

/// A remainder or a divisibility by a divisor, after its quotient.
fn left_by(
    alloc: Global,
    operator: Operator,
    sort: Sort,
    number: Value,
    divisor: Value,
    store: &mut TermStore,
) -> Result<Value, JudgeError>
    requires { AreValues store.old.trees (number ∷ divisor ∷ []) }
    ensures ok { IfOk result (λ v. IsTerm (with_quotient operator (trees_of (map (typed store.old.trees) (number ∷ divisor ∷ [])))) sort store.old.trees store.new.trees v) }
    ensures memory { OnErr result (result ≡ Err JudgeError.Memory) }
    ensures longer { HasGrown store.old store.new }
{
    let _ = store.len();
    let head = Head::Theory(operator);
    let quotient = quotient(alloc, Sort::Int, number, divisor, store)?;
    let _ = store.len();
    stored(alloc, head, sort, &[number, divisor, quotient], store)
}

/// A `div`: a quotient for each divisor.
fn divided_by_all(
    alloc: Global,
    sort: Sort,
    arguments: &[Value],
    store: &mut TermStore,
) -> Result<Value, JudgeError>
    requires { AreValues store.old.trees arguments.now }
    ensures ok { IfOk result (λ v. IsTerm (operation Operator.Divide (trees_of (map (typed store.old.trees) arguments.now))) sort store.old.trees store.new.trees v) }
    ensures memory { OnErr result (result ≡ Err JudgeError.Memory) }
    ensures longer { HasGrown store.old store.new }
{
    match arguments.split_first() {
        Some((number, divisors)) => divided(alloc, sort, *number, divisors, store),
        None => stored(
            alloc,
            Head::Theory(Operator::Divide),
            sort,
            arguments,
            store,
        ),
    }
}

/// Whether a number divides a term: its numeral is stored before the quotient.
pub(crate) fn divisible_by(
    alloc: Global,
    number: Value,
    divisor: u128,
    store: &mut TermStore,
) -> Result<Value, JudgeError>
    requires number { AreValues store.old.trees (number ∷ []) }
    requires small { is_small divisor ≡ true }
    ensures ok { IfOk result (λ v. IsTerm (operation Operator.Divisible (more (tree_at store.old.trees number.id) (more (node (Head.Numeral (pos divisor)) none) none))) Sort.Bool store.old.trees store.new.trees v) }
    ensures memory { OnErr result (result ≡ Err JudgeError.Memory) }
    ensures longer { HasGrown store.old store.new }
{
    let _ = store.len();
    let divisor = stored(alloc, numeral(divisor), Sort::Int, &[], store)?;
    let _ = store.len();
    left_by(
        alloc,
        Operator::Divisible,
        Sort::Bool,
        number,
        divisor,
        store,
    )
}

/// The term of an operator with these arguments.
pub(crate) fn operated(
    alloc: Global,
    operator: Operator,
    sort: Sort,
    arguments: &[Value],
    store: &mut TermStore,
) -> Result<Value, JudgeError>
    requires { AreValues store.old.trees arguments.now }
    ensures ok { IfOk result (λ v. IsTerm (operation operator (trees_of (map (typed store.old.trees) arguments.now))) sort store.old.trees store.new.trees v) }
    ensures memory { OnErr result (result ≡ Err JudgeError.Memory) }
    ensures longer { HasGrown store.old store.new }
{
    match operator {
        Operator::Divide => divided_by_all(alloc, sort, arguments, store),
        Operator::Modulo | Operator::Divisible => {
            if arguments.len() == 2 {
                return left_by(alloc, operator, sort, arguments[0], arguments[1], store);
            }
            stored(alloc, Head::Theory(operator), sort, arguments, store)
        }
        _ => stored(alloc, Head::Theory(operator), sort, arguments, store),
    }
}
