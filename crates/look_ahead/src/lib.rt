//! What is ahead of a place among the tokens of a term: the form of a `let`, of an annotation and of
//! a head that divides, and whether a term has a free variable. Each call steps over what it need
//! not read.
//!
//! `ends`, `check_let`, `check_annotation`, `has_free_first`: the forms of `let` and `!` before
//! their terms are read, exactly as they are judged.
//!
//! `divisor`: the number of a head `(_ divisible n)`, where the head has this form.
#![tactic(auto)]

ghost use Rattle.std.specs.Prelude.{◌≡◌, ◌≤◌, List, length, Some, None, OnOk, IfOk, IfErr, IfSome, IfNone};
ghost use Rattle.smt_meaning.specs.Sorts.{Scope, Variable, done, variable_names, decimal, head_number};
ghost use Rattle.smt_laws.specs.Walk.{check_let, check_annotation, has_free_first};
ghost use Rattle.look_ahead.specs.Ahead.{ahead, AreEnds, checked, IsWhyNoLet};

mod free;
mod heads;
mod lets;
mod marks;
mod parts;

pub use marks::ends;
use smt_meaning::{Refusal, SExpr};
use std::alloc::{AllocError, Global};

/// Why the form of a term isn't accepted.
#[derive(Drop)]
pub enum LookError {
    /// The term is refused.
    Refused(Refusal),
    /// Memory is wanting.
    Memory,
}

/// The names that are bound where a term stands.
pub trait Names {
    ghost use Rattle.std.specs.Prelude.{◌≡◌, ℕ, List};
    ghost use Rattle.smt_meaning.specs.Signature.{is_one_of};

    ghost names: { Self → List (List ℕ) };

    /// Whether a name is bound.
    fn binds(&self, name: &[u8]) -> bool
        ensures { result ≡ is_one_of name.now (names self.now) };
}

/// Whether a `let`, whose word stands before a place, has its form and binds no name twice (SMT-LIB 2.6, section 3.6.1).
pub fn check_let(alloc: Global, term: &SExpr, ends: &[usize], place: usize) -> Result<(), LookError>
    requires ends { AreEnds term.now ends.now }
    requires within { place ≤ length term.now }
    ensures ok { OnOk result ((s : Scope) → check_let (ahead term.now place) s ≡ done tt s) }
    ensures err { IfErr result (λ e. IsWhyNoLet (ahead term.now place) e) }
{
    lets::check(alloc, term, ends, place)
}

/// Whether an annotation, whose `!` stands before a place, has its form (SMT-LIB 2.6, section 3.6.5).
pub fn check_annotation(term: &SExpr, ends: &[usize], place: usize) -> bool
    requires ends { AreEnds term.now ends.now }
    requires within { place ≤ length term.now }
    ensures { (s : Scope) → check_annotation (ahead term.now place) s ≡ checked result s }
{
    parts::is_annotation(term, ends, place)
}

/// The digits of the number of a head `(_ divisible n)`, whose list's inside begins at a place (SMT-LIB 2.6, theory Ints).
pub fn divisor<'a>(term: &'a SExpr, ends: &[usize], place: usize) -> Option<&'a [u8]>
    requires ends { AreEnds term.now ends.now }
    requires within { place ≤ length term.now }
    ensures some { IfSome result (λ d. head_number (ahead term.now place) ≡ Some (decimal d.now)) }
    ensures none { IfNone result (head_number (ahead term.now place) ≡ None) }
{
    heads::number(term, ends, place)
}

/// Whether one of the names occurs free in the term at a place.
pub fn has_free_first<N: Names>(
    alloc: Global,
    names: &N,
    term: &SExpr,
    ends: &[usize],
    place: usize,
) -> Result<bool, AllocError>
    requires ends { AreEnds term.now ends.now }
    requires within { place ≤ length term.now }
    ensures { IfOk result (λ b. (vs : List Variable) → variable_names vs ≡ N.names names.now → has_free_first vs (ahead term.now place) ≡ b) }
{
    free::first_has_free(alloc, names, term, ends, place)
}
