//! Divisors and quotients among the arguments of an operator.
ghost use Rattle.std.specs.Prelude.{◌≡◌, map};
ghost use Rattle.smt_meaning.specs.TreeShape.{are_divisors, is_quotient, has_quotient};
ghost use Rattle.smt_meaning.specs.Sorts.{trees_of};
ghost use Rattle.elaborate.specs.Values.{AreValues, typed, all_but_first_divide};

use crate::value::Value;
use term_store::{TermStore, is_divisor, is_quotient_of};

fn are_divisors(values: &[Value], store: &TermStore) -> bool
    requires { AreValues store.now.trees values.now }
    ensures { result ≡ are_divisors (trees_of (map (typed store.now.trees) values.now)) }
{
    for value in values {
        if !is_divisor(value.id, store) {
            return false;
        }
    }
    true
}

/// Each argument after the first is a divisor.
pub(crate) fn all_but_first_divide(arguments: &[Value], store: &TermStore) -> bool
    requires { AreValues store.now.trees arguments.now }
    ensures { result ≡ all_but_first_divide (trees_of (map (typed store.now.trees) arguments.now)) }
{
    match arguments.split_first() {
        Some((_, divisors)) => are_divisors(divisors, store),
        None => true,
    }
}

/// The arguments of a quotient: a term, and its divisor.
pub(crate) fn is_quotient(arguments: &[Value], store: &TermStore) -> bool
    requires { AreValues store.now.trees arguments.now }
    ensures { result ≡ is_quotient (trees_of (map (typed store.now.trees) arguments.now)) }
{
    if arguments.len() != 2 {
        return false;
    }
    is_divisor(arguments[1].id, store)
}

/// The arguments of what is left over: a term, its divisor, and the quotient.
pub(crate) fn has_quotient(arguments: &[Value], store: &TermStore) -> bool
    requires { AreValues store.now.trees arguments.now }
    ensures { result ≡ has_quotient (trees_of (map (typed store.now.trees) arguments.now)) }
{
    if arguments.len() != 3 {
        return false;
    }
    let (number, divisor, quotient) = (arguments[0].id, arguments[1].id, arguments[2].id);
    is_divisor(divisor, store) && is_quotient_of(quotient, number, divisor, store)
}
