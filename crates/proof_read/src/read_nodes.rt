//! The terms that a proof writes.
ghost use Rattle.std.specs.Prelude.{◌≡◌, [], ◌∷◌, Some, IfOk};
ghost use Rattle.smt_meaning.specs.Command.{each};
ghost use Rattle.smt_meaning.specs.Sorts.{decimal};
ghost use Rattle.proof_meaning.specs.Reading.{number, head_read, numeral_read, node_read};
ghost use Rattle.look_ahead.specs.Ahead.{AreEnds};
ghost use Rattle.proof_read.specs.Reads.{numbers_near};
ghost use Rattle.proof_read.specs.ReadParts.{Reads, ReadsRest, any, first_by};
ghost use Rattle.proof_read.specs.ReadNodes.{node_near, numeral_only, application, divisor_of, divisor_head, divisibility, in_term, HasReserved, HasDivisor, HasDivided};

use crate::read_names::operator_named;
use crate::read_numbers::decimal;
use crate::read_parts::{Part, Progress, Source};
use crate::symbols::Symbols;
use smt_meaning::{Head, Node, Seq, TermId, TokenView, Word};
use std::alloc::{AllocError, Global};

/// The operator or the declared symbol of a name.
fn named_head(symbols: &Symbols<'_>, name: &[u8]) -> Option<Head>
    ensures { result ≡ head_read symbols.now name.now }
{
    match operator_named(name) {
        Some(operator) => Some(Head::Theory(operator)),
        None => symbols.head(name),
    }
}

/// The numeral that these digits write, where it is in the range.
fn numeral_node(alloc: Global, digits: &[u8]) -> Option<Node>
    ensures { result ≡ numeral_read digits.now }
{
    match decimal(digits) {
        Some(number) => Some(Node {
            head: Head::Numeral(number as i128),
            arguments: Seq::new(alloc),
        }),
        None => None,
    }
}

/// The head `(_ divisible n)` by the digits of its number, which is from 1 on and in the range.
fn divisor_of(digits: &[u8]) -> Option<Head>
    ensures { result ≡ divisor_of (Some (decimal digits.now)) }
{
    match decimal(digits) {
        Some(number) => {
            if number == 0 {
                None
            } else {
                Some(Head::Numeral(number as i128))
            }
        }
        None => None,
    }
}

/// The term with this head and one argument.
fn with_one(alloc: Global, head: Head, argument: TermId) -> Result<Node, AllocError>
    ensures { IfOk result (λ n. n ≡ record { head = head; arguments = argument ∷ [] }) }
{
    let mut arguments = Seq::new(alloc);
    arguments.push(argument)?;
    Ok(Node { head, arguments })
}

impl Source<'_> {
    /// A reserved word, where it is next.
    fn reserved(&self, at: &mut Progress) -> Option<Word>
        requires { AreEnds self.now.proof.now self.now.ends.now }
        ensures { HasReserved self.now.proof.now at.old at.new result }
    {
        match self.word(at)? {
            TokenView::Reserved(word) => Some(word),
            _ => None,
        }
    }

    /// The digits of `n`, where `_ divisible n` is all that is left of a list.
    fn divisor_digits(&self, at: &mut Progress) -> Option<&[u8]>
        requires { AreEnds self.now.proof.now self.now.ends.now }
        ensures { HasDivisor self.now.proof.now at.old at.new result }
    {
        let word = self.reserved(at)?;
        if word != Word::Underscore {
            return None;
        }
        let name = self.symbol(at)?;
        if name != b"divisible".as_slice() {
            return None;
        }
        let digits = self.digits(at)?;
        self.alone(at, digits)
    }

    /// The head `(_ divisible n)`.
    fn divisor(&self, at: &mut Progress) -> Option<Head>
        requires { AreEnds self.now.proof.now self.now.ends.now }
        ensures { Reads self.now.proof.now divisor_head any any at.old at.new result }
    {
        let close = self.enter(at)?;
        let digits = self.divisor_digits(at)?;
        let head = divisor_of(digits)?;
        at.place = close + 1;
        Some(head)
    }

    /// The terms that are left of a list.
    fn terms(&self, alloc: Global, at: &mut Progress) -> Result<Option<Seq<TermId>>, AllocError>
        requires { AreEnds self.now.proof.now self.now.ends.now }
        ensures { IfOk result (ReadsRest self.now.proof.now (each number) any numbers_near at.old at.new) }
    {
        let mut terms = Seq::new(alloc);
        while !self.is_end(at.place) {
            let Some(term) = self.term(at) else {
                return Ok(None);
            };
            terms.push(term)?;
        }
        Ok(Some(terms))
    }

    /// A numeral, where nothing follows it in its list.
    fn numeral(&self, alloc: Global, digits: &[u8], at: Progress) -> Option<Node>
        requires { AreEnds self.now.proof.now self.now.ends.now }
        ensures { ReadsRest self.now.proof.now (numeral_only digits.now) any node_near at at result }
    {
        if self.is_end(at.place) {
            numeral_node(alloc, digits)
        } else {
            None
        }
    }

    /// What a name is applied to.
    fn application(
        &self,
        alloc: Global,
        symbols: &Symbols<'_>,
        name: &[u8],
        at: &mut Progress,
    ) -> Result<Option<Node>, AllocError>
        requires { AreEnds self.now.proof.now self.now.ends.now }
        ensures { IfOk result (ReadsRest self.now.proof.now (application symbols.now name.now) any node_near at.old at.new) }
    {
        let Some(head) = named_head(symbols, name) else {
            return Ok(None);
        };
        let Some(arguments) = self.terms(alloc, at)? else {
            return Ok(None);
        };
        Ok(Some(Node { head, arguments }))
    }

    /// A head that divides and a term, and no more.
    fn divided(&self, at: &mut Progress) -> Option<(Head, TermId)>
        requires { AreEnds self.now.proof.now self.now.ends.now }
        ensures { HasDivided self.now.proof.now at.old at.new result }
    {
        let head = self.divisor(at)?;
        let argument = self.term(at)?;
        self.alone(at, (head, argument))
    }

    /// What a head that divides is applied to.
    fn divisibility(&self, alloc: Global, at: &mut Progress) -> Result<Option<Node>, AllocError>
        requires { AreEnds self.now.proof.now self.now.ends.now }
        ensures { IfOk result (ReadsRest self.now.proof.now divisibility any node_near at.old at.new) }
    {
        let Some((head, argument)) = self.divided(at) else {
            return Ok(None);
        };
        Ok(Some(with_one(alloc, head, argument)?))
    }

    /// What stands in the list of a term.
    fn in_term(
        &self,
        alloc: Global,
        symbols: &Symbols<'_>,
        at: &mut Progress,
    ) -> Result<Option<Node>, AllocError>
        requires { AreEnds self.now.proof.now self.now.ends.now }
        ensures { IfOk result (ReadsRest self.now.proof.now (in_term symbols.now) any node_near at.old at.new) }
    {
        match self.part_at(at.place) {
            Part::Word(TokenView::Symbol(name)) => {
                at.place += 1;
                self.application(alloc, symbols, name, at)
            }
            Part::Word(TokenView::Numeral(digits)) => {
                at.place += 1;
                Ok(self.numeral(alloc, digits, *at))
            }
            Part::List(_) => self.divisibility(alloc, at),
            _ => Ok(None),
        }
    }

    /// A term.
    pub(crate) fn node(
        &self,
        alloc: Global,
        symbols: &Symbols<'_>,
        at: &mut Progress,
    ) -> Result<Option<Node>, AllocError>
        requires { AreEnds self.now.proof.now self.now.ends.now }
        ensures { IfOk result (ReadsRest self.now.proof.now (first_by (node_read symbols.now)) any node_near at.old at.new) }
    {
        let Some(_) = self.enter(at) else {
            return Ok(None);
        };
        self.in_term(alloc, symbols, at)
    }
}
