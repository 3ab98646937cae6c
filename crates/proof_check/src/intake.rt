//! S-expressions one after another, read from what a source gives of bytes. More bytes are asked
//! for where what comes next isn't settled by those that came, and not otherwise.
ghost use Rattle.std.specs.Prelude.{◌≡◌, ◌≤◌, ◌<◌, ◌*◌, ◌^◌, ℕ, [], false, length, IfOk, IfErr, IfSome, OnOk};
ghost use Rattle.ports.specs.Flow.{SourceTold};
ghost use Rattle.proof_check.specs.Progress.{CutOff, HasRoom, IsNext, IsOpenAt, NoneSettled, Phase, SoFar, weight};

use ports::{More, Source};
use smt_meaning::SExpr;
use smt_reader::{Next, Reader};
use std::alloc::{AllocError, Global};

/// What cuts a run off before anything is found.
#[derive(Clone, Copy, Drop)]
pub enum Halt {
    /// Memory is wanting.
    Memory,
    /// The source failed.
    ReadFault,
    /// The input is longer than the budget of calls that ask for it.
    TooLong,
}

impl From<AllocError> for Halt {
    ghost use Rattle.std.specs.Prelude.{◌≡◌};
    ghost use Rattle.proof_check.specs.declared.intake.Halt.TheVariants.{Memory};

    ghost from_gives = { λ _ e. e ≡ Memory };

    fn from(_: AllocError) -> Self {
        Halt::Memory
    }
}

/// The input as far as it was taken from a source: the reader of its bytes, and how many more calls may ask for bytes.
#[derive(Drop)]
pub struct Intake {
    pub reader: Reader,
    pub calls: u64,
}

impl Intake {
    /// An input of which nothing was taken, with this budget of calls. It takes no memory.
    pub fn new(alloc: Global, budget: u64) -> Self
        ensures reader { result.reader ≡ record { place = 0; bytes = []; finished = false } }
        ensures calls { result.calls ≡ budget }
    {
        Intake {
            reader: Reader::new(alloc),
            calls: budget,
        }
    }

    /// Asks the source for more bytes.
    fn take_more<S: Source>(&mut self, source: &mut S, buf: &mut [u8]) -> Result<(), Halt>
        requires going { self.old.reader.finished ≡ false }
        requires settled { NoneSettled self.old.reader }
        requires room { HasRoom self.old }
        requires buffer { length buf.old ≡ 65536 }
        ensures room { HasRoom self.new }
        ensures ok { OnOk result ((budget : ℕ) (first : SourceTold) (p : Phase)
            → SoFar budget first (S.told source.old) p self.old → SoFar budget first (S.told source.new) p self.new) }
        ensures fewer { OnOk result ((self.new.calls < self.old.calls) × (weight self.new < weight self.old)) }
        ensures err { IfErr result (λ halt. (budget : ℕ) (first : SourceTold) (p : Phase)
            → SoFar budget first (S.told source.old) p self.old → CutOff budget first (S.told source.new) (IsOpenAt p) halt) }
    {
        if self.calls == 0 {
            return Err(Halt::TooLong);
        }
        self.calls -= 1;
        match source.more(buf) {
            More::Got(0) => self.reader.finish(),
            More::Got(count) => self.reader.feed(&buf[..count])?,
            More::End => self.reader.finish(),
            More::Failed => return Err(Halt::ReadFault),
        }
        Ok(())
    }

    /// The next s-expression, which is then read. `None` where a lexical fault comes, or the end.
    pub fn next<S: Source>(
        &mut self,
        alloc: Global,
        source: &mut S,
        buf: &mut [u8],
    ) -> Result<Option<SExpr>, Halt>
        requires room { HasRoom self.old }
        requires buffer { length buf.old ≡ 65536 }
        ensures room { HasRoom self.new }
        ensures lighter { IfOk result (λ found. IfSome found (λ s. weight self.new < weight self.old)) }
        ensures next { (budget : ℕ) (first : SourceTold) (p : Phase)
            → SoFar budget first (S.told source.old) p self.old → IsNext budget first (S.told source.new) p result self.new }
    {
        loop {
            match self.reader.next(alloc)? {
                Next::Ready(sexpr) => return Ok(Some(sexpr)),
                Next::Fault(_, _) => return Ok(None),
                Next::End => return Ok(None),
                Next::NeedMore => self.take_more(source, buf)?,
            }
        }
    }
}
