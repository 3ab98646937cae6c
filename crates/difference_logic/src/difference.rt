//! Differences, and how they add up.
ghost use Rattle.std.specs.Prelude.{◌≡◌, ℕ, ℤ, pos, negsuc, true, ◌-ℤ◌, ◌+ℤ◌, ◌*ℤ◌, int_le, IfSome};
ghost use Rattle.literals.specs.Signed.{sign};
ghost use Rattle.difference_logic.specs.Differences.{number_at, Holds};

use atom_form::SumBound;
use smt_meaning::Summand;

/// That the number of a node is at most so much above that of another. Node 0 has the number 0, and each term has the node after its place.
#[derive(Clone, Copy, PartialEq, Eq, Drop)]
pub struct Difference {
    pub from: u32,
    pub to: u32,
    pub weight: i128,
}

fn is_plus(one: Summand) -> bool
    ensures { result ≡ true → one.coefficient ≡ pos 1 }
{
    one.coefficient == 1
}

fn is_minus(one: Summand) -> bool
    ensures { result ≡ true → one.coefficient ≡ negsuc 0 }
{
    one.coefficient == -1
}

/// The node of a term, if it has one.
pub(crate) fn node_of(term: u32) -> Option<u32>
    ensures { IfSome result (λ n. (f : ℕ → ℤ) → number_at f n ≡ f term) }
{
    if term == u32::MAX {
        return None;
    }
    Some(term + 1)
}

/// That one node is at most so much above another, or that it isn't.
pub(crate) fn signed(from: u32, to: u32, bound: SumBound, positive: bool) -> Difference
    ensures { (f : ℕ → ℤ) → sign positive (int_le (number_at f to -ℤ number_at f from) bound.threshold) ≡ true → Holds f result }
{
    if positive {
        Difference {
            from,
            to,
            weight: bound.threshold,
        }
    } else {
        Difference {
            from: to,
            to: from,
            weight: -1 - bound.threshold,
        }
    }
}

/// What the bound of one term says, or that it doesn't hold.
pub(crate) fn of_one(one: Summand, bound: SumBound, positive: bool) -> Option<Difference>
    ensures { IfSome result (λ d. (f : ℕ → ℤ) → sign positive (int_le (one.coefficient *ℤ f one.term +ℤ pos 0) bound.threshold) ≡ true → Holds f d) }
{
    let node = node_of(one.term)?;
    if is_plus(one) {
        return Some(signed(0, node, bound, positive));
    }
    if is_minus(one) {
        return Some(signed(node, 0, bound, positive));
    }
    None
}

/// What the bound of two terms says, or that it doesn't hold.
pub(crate) fn of_two(
    one: Summand,
    other: Summand,
    bound: SumBound,
    positive: bool,
) -> Option<Difference>
    ensures { IfSome result (λ d. (f : ℕ → ℤ) → sign positive (int_le (one.coefficient *ℤ f one.term +ℤ (other.coefficient *ℤ f other.term +ℤ pos 0)) bound.threshold) ≡ true → Holds f d) }
{
    let first = node_of(one.term)?;
    let second = node_of(other.term)?;
    if is_plus(one) && is_minus(other) {
        return Some(signed(second, first, bound, positive));
    }
    if is_minus(one) && is_plus(other) {
        return Some(signed(first, second, bound, positive));
    }
    None
}

/// The difference that follows from one and the next, which begins where the first ends. None where it doesn't, or where the weights' sum leaves the range.
pub(crate) fn joined(path: Difference, next: Difference) -> Option<Difference>
    ensures { IfSome result (λ d. (f : ℕ → ℤ) → Holds f path → Holds f next → Holds f d) }
{
    if path.to != next.from {
        return None;
    }
    let weight = path.weight.checked_add(next.weight)?;
    Some(Difference {
        from: path.from,
        to: next.to,
        weight,
    })
}

/// Whether it is that a number is less than itself.
pub(crate) fn is_broken(path: Difference) -> bool
    ensures { result ≡ true → (f : ℕ → ℤ) → Holds f path → ⊥ }
{
    path.from == path.to && path.weight < 0
}
