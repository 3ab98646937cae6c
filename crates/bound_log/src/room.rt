//! Which literals rows leave room for, by the bounds of their other variables.
ghost use Rattle.std.specs.Prelude.{◌≡◌, ◌<◌, ◌^◌, IfSome};

use crate::said::Said;
use fraction128::Fraction;
use literals::Literal;
use sum_bounds::SumBounds;

/// Whether a number is at most the threshold.
fn is_at_most(number: Option<Fraction>, threshold: i128) -> bool {
    match number {
        Some(number) => {
            let floor = number.floor();
            floor < threshold || (floor == threshold && number.is_whole())
        }
        None => false,
    }
}

/// Whether a number is more than the threshold.
fn is_more(number: Option<Fraction>, threshold: i128) -> bool {
    match number {
        Some(number) => {
            let floor = number.floor();
            floor > threshold || (floor == threshold && !number.is_whole())
        }
        None => false,
    }
}

/// The literal on an atom that a row leaves no room for, if one is seen: that its sum is more, where its most is at most the threshold, or that it is at most that, where its least is more.
pub(crate) fn shut_out(bounds: &SumBounds, said: Said, atom: u32) -> Option<Literal>
    requires { atom < 2 ^ 31 }
    ensures { IfSome result (λ l. l.atom ≡ atom) }
{
    match said {
        Said::Nothing => None,
        Said::Bound { of, threshold } => {
            if is_at_most(bounds.reach(of, true), threshold) {
                Some(Literal::new(atom, false))
            } else if is_more(bounds.reach(of, false), threshold) {
                Some(Literal::new(atom, true))
            } else {
                None
            }
        }
    }
}
