//! The numbers that a proof writes.
ghost use Rattle.std.specs.Prelude.{◌≡◌, ◌+◌, ◌-◌, ◌*◌, ◌^◌, ◌<◌, ◌≤◌, ◌↔◌, pos, Some, None, IfSome, MatchOption};
ghost use Rattle.fraction128.specs.Whole.{is_in_range};
ghost use Rattle.smt_meaning.specs.Sorts.{decimal};
ghost use Rattle.proof_meaning.specs.Reading.{number, integer, below_zero};
ghost use Rattle.look_ahead.specs.Ahead.{ahead, AreEnds};
ghost use Rattle.proof_read.specs.Written.{is_small};
ghost use Rattle.proof_read.specs.Reads.{is_term_number, is_step_number};
ghost use Rattle.proof_read.specs.ReadParts.{Reads, Notes, any, first_by};
ghost use Rattle.proof_read.specs.ReadNumbers.{WrittenBelow, NotesNegative, integer_in_list, is_up_to};

use crate::read_parts::{Part, Progress, Source};
use proof_meaning::StepId;
use smt_command::written_number;
use smt_meaning::TermId;

/// The number that digits write, where it is below 2^64.
fn short_decimal(digits: &[u8]) -> Option<u64>
    ensures { WrittenBelow (2 ^ 64) digits.now result }
{
    let mut number: u64 = 0;
    for digit in digits {
        match short_with_digit(number, *digit) {
            Some(next) => number = next,
            None => return None,
        }
    }
    Some(number)
}

/// The number with one digit more, where it is below 2^64.
fn short_with_digit(number: u64, digit: u8) -> Option<u64>
    ensures { MatchOption result (2 ^ 64 ≤ 10 * number + (digit - 48)) (λ n. (n ≡ 10 * number + (digit - 48)) × (n < 2 ^ 64)) }
{
    let tens = number.checked_mul(10)?;
    tens.checked_add(u64::from(digit.saturating_sub(48)))
}

/// The number that digits write, where it is below 2^127.
pub(crate) fn decimal(digits: &[u8]) -> Option<u128>
    ensures { WrittenBelow (2 ^ 127) digits.now result }
{
    match short_decimal(digits) {
        Some(number) => Some(u128::from(number)),
        None => match written_number(digits) {
            Ok(number) => Some(number as u128),
            Err(_) => None,
        },
    }
}

/// The number that digits write, where it is at most this one.
fn decimal_up_to(most: u64, digits: &[u8]) -> Option<u64>
    ensures { WrittenBelow (most + 1) digits.now result }
{
    match short_decimal(digits) {
        Some(number) if number <= most => Some(number),
        Some(_) => None,
        None => None,
    }
}

/// A number from 0 on, where it is in the range.
fn not_negative(at: &mut Progress, digits: &[u8]) -> i128
    ensures notes { Notes is_in_range any at.old result at.new (pos (decimal digits.now)) }
    ensures place { at.new.place ≡ at.old.place }
    ensures zero { (result ≡ pos 0) ↔ (decimal digits.now ≡ 0) }
{
    match decimal(digits) {
        Some(number) => number as i128,
        None => {
            at.fits = false;
            i128::MAX
        }
    }
}

/// A number below 0, of which these digits write the absolute value; none where they write 0.
fn negative(at: &mut Progress, digits: &[u8]) -> Option<i128>
    ensures notes { NotesNegative (below_zero (decimal digits.now)) at.old at.new result }
    ensures place { at.new.place ≡ at.old.place }
    ensures zero { IfSome result (λ n. n ≡ pos 0 → ⊥) }
{
    match decimal(digits) {
        Some(number) => {
            if number == 0 {
                return None;
            }
            Some(-(number as i128))
        }
        None => {
            at.fits = false;
            Some(-i128::MAX)
        }
    }
}

impl Source<'_> {
    /// The number of what a proof names, of which there are at most so many.
    fn place(&self, most: u64, at: &mut Progress) -> Option<u64>
        requires { AreEnds self.now.proof.now self.now.ends.now }
        ensures reads { Reads self.now.proof.now number any (is_up_to most) at.old at.new result }
        ensures most { IfSome result (λ n. n ≤ most) }
    {
        let digits = self.digits(at)?;
        match decimal_up_to(most, digits) {
            Some(number) => Some(number),
            None => {
                at.near = false;
                Some(0)
            }
        }
    }

    /// The number of a term.
    pub(crate) fn term(&self, at: &mut Progress) -> Option<TermId>
        requires { AreEnds self.now.proof.now self.now.ends.now }
        ensures { Reads self.now.proof.now number any is_term_number at.old at.new result }
    {
        let number = self.place(u64::from(TermId::MAX), at)?;
        Some(number as TermId)
    }

    /// The number of a step, or of anything else that there can't be more of.
    pub(crate) fn count(&self, at: &mut Progress) -> Option<StepId>
        requires { AreEnds self.now.proof.now self.now.ends.now }
        ensures { Reads self.now.proof.now number any is_step_number at.old at.new result }
    {
        self.place(StepId::MAX, at)
    }

    /// A number that a rule counts with.
    pub(crate) fn number(&self, at: &mut Progress) -> Option<u128>
        requires { AreEnds self.now.proof.now self.now.ends.now }
        ensures { Reads self.now.proof.now number is_small any at.old at.new result }
    {
        let digits = self.digits(at)?;
        match decimal(digits) {
            Some(number) => Some(number),
            None => {
                at.fits = false;
                Some(0)
            }
        }
    }

    /// An integer, `n` or `(- n)`. It is 0 exactly where 0 is written.
    pub(crate) fn integer(&self, at: &mut Progress) -> Option<i128>
        requires { AreEnds self.now.proof.now self.now.ends.now }
        ensures reads { Reads self.now.proof.now integer is_in_range any at.old at.new result }
        ensures zero { IfSome result (λ n. (n ≡ pos 0) ↔ (first_by integer (ahead self.now.proof.now at.old.place) ≡ Some (pos 0))) }
    {
        match self.part_at(at.place) {
            Part::List(_) => self.negated(at),
            Part::Word(_) => {
                let digits = self.digits(at)?;
                Some(not_negative(at, digits))
            }
            Part::End => None,
        }
    }

    /// An integer below 0, `(- n)`.
    fn negated(&self, at: &mut Progress) -> Option<i128>
        requires { AreEnds self.now.proof.now self.now.ends.now }
        ensures reads { Reads self.now.proof.now integer_in_list is_in_range any at.old at.new result }
        ensures zero { IfSome result (λ n. n ≡ pos 0 → ⊥) }
    {
        let close = self.enter(at)?;
        let name = self.symbol(at)?;
        if name != b"-".as_slice() {
            return None;
        }
        let digits = self.digits(at)?;
        if !self.is_end(at.place) {
            return None;
        }
        let number = negative(at, digits)?;
        at.place = close + 1;
        Some(number)
    }
}
