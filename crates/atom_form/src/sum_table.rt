//! Sums by number, each once.
ghost use Rattle.std.specs.Prelude.{◌≡◌, ◌+◌, ◌<◌, ◌≤◌, ◌^◌, ◌↔◌, [], ◌∷◌, ◌++◌, length, map, take, Contains, OnOk, OnErr, IfOk, IfSome, IfNone, IsTrue, slice_range};
ghost use Rattle.atom_form.specs.SumTableHash.{sum_hash};
ghost use Rattle.atom_form.specs.Sums.{IsAt, Numbered, AreApart, AreLaid, IsTable, sum_in, sums_in};

use crate::hash::hash_of;
use smt_meaning::Summand;
use std::alloc::{AllocError, Global};
use std::marker::Model;
use term_store::HashIndex;

/// Where a sum begins and ends in the list of all summands.
#[derive(Clone, Copy, Drop)]
struct Span {
    start: usize,
    end: usize,
}

/// The sums by their numbers, each found by a hash. All summands stand in one list.
#[derive(Drop)]
pub struct SumTable {
    summands: Vec<Summand>,
    spans: Vec<Span>,
    keys: HashIndex,
}

impl Model for SumTable {
    ghost use Rattle.std.specs.Prelude.{List};
    ghost use Rattle.smt_meaning.specs.declared.clauses.Summand.{Summand as SummandValue};

    ghost Value = { List (List SummandValue) };

    ghost use Rattle.atom_form.specs.Sums.{sums_in, IsTable};

    ghost view = { λ t. sums_in t.summands.items t.spans.items };

    ghost invariant = { λ t. IsTable t.summands.items t.spans.items t.keys };
}

/// The summands from one place to another.
fn part(all: &[Summand], start: usize, end: usize) -> &[Summand]
    requires order { start ≤ end }
    requires within { end ≤ length all.now }
    ensures { result.now ≡ slice_range all.now start end }
{
    &all[start..end]
}

fn is_same_summand(a: Summand, b: Summand) -> bool
    ensures { IsTrue result ↔ (a ≡ b) }
{
    a == b
}

/// Whether two sums are the same.
fn is_same(a: &[Summand], b: &[Summand]) -> bool
    ensures { IsTrue result ↔ (a.now ≡ b.now) }
{
    if a.len() != b.len() {
        return false;
    }
    for i in 0..a.len() {
        if !is_same_summand(a[i], b[i]) {
            return false;
        }
    }
    true
}

/// The sum of a number.
fn sum_at<'a>(all: &'a [Summand], spans: &[Span], number: usize) -> &'a [Summand]
    requires laid { AreLaid (length all.now) spans.now }
    requires number { number < length spans.now }
    ensures { IsAt (sums_in all.now spans.now) number result.now }
{
    let span = spans[number];
    part(all, span.start, span.end)
}

/// The number of a sum, if it has one.
fn find(
    all: &[Summand],
    spans: &[Span],
    keys: &HashIndex,
    sum: &[Summand],
    hash: u32,
) -> Option<u32>
    requires laid { AreLaid (length all.now) spans.now }
    requires hashed { keys.now ≡ map sum_hash (sums_in all.now spans.now) }
    requires hash { hash ≡ sum_hash sum.now }
    ensures some { IfSome result (λ k. IsAt (sums_in all.now spans.now) k sum.now) }
    ensures none { IfNone result (Contains (sums_in all.now spans.now) sum.now → ⊥) }
{
    let mut link = keys.last(hash);
    while link > 0 {
        let at = (link - 1) as usize;
        if is_same(sum_at(all, spans, at), sum) {
            return Some(link - 1);
        }
        link = keys.before(at);
    }
    None
}

/// Adds a sum's summands and where they stand. An `Err` changes nothing.
fn append_span(
    all: &mut Vec<Summand>,
    spans: &mut Vec<Span>,
    sum: &[Summand],
) -> Result<(), AllocError>
    ensures summands { OnOk result (all.new.items ≡ all.old.items ++ sum.now) }
    ensures spans { OnOk result (spans.new.items ≡ spans.old.items ++ record { start = length all.old.items; end = length all.new.items } ∷ []) }
    ensures err { OnErr result ((all.new.items ≡ all.old.items) × (spans.new.items ≡ spans.old.items)) }
{
    let start = all.len();
    all.extend_from_slice(sum)?;
    let end = all.len();
    if spans.push(Span { start, end }).is_err() {
        all.truncate(start);
        return Err(AllocError);
    }
    Ok(())
}

/// Adds a sum. An `Err` changes nothing.
fn append(
    all: &mut Vec<Summand>,
    spans: &mut Vec<Span>,
    keys: &mut HashIndex,
    sum: &[Summand],
    hash: u32,
) -> Result<(), AllocError>
    requires table { IsTable all.old.items spans.old.items keys.old }
    requires hash { hash ≡ sum_hash sum.now }
    requires few { length spans.old.items + 1 < 2 ^ 32 }
    requires new { Contains (sums_in all.old.items spans.old.items) sum.now → ⊥ }
    ensures table { IsTable all.new.items spans.new.items keys.new }
    ensures ok { OnOk result (sums_in all.new.items spans.new.items ≡ sums_in all.old.items spans.old.items ++ sum.now ∷ []) }
    ensures err { OnErr result ((all.new.items ≡ all.old.items) × (spans.new.items ≡ spans.old.items)) }
{
    let count = spans.len();
    keys.push(hash)?;
    match append_span(all, spans, sum) {
        Ok(()) => Ok(()),
        Err(e) => {
            keys.truncate(count);
            Err(e)
        }
    }
}

/// The number of a sum, and whether it is new. An `Err` changes nothing.
fn number(
    all: &mut Vec<Summand>,
    spans: &mut Vec<Span>,
    keys: &mut HashIndex,
    sum: &[Summand],
) -> Result<(u32, bool), AllocError>
    requires table { IsTable all.old.items spans.old.items keys.old }
    requires few { length spans.old.items < 2 ^ 31 }
    ensures table { IsTable all.new.items spans.new.items keys.new }
    ensures ok { IfOk result (λ r. Numbered (sums_in all.old.items spans.old.items) (sums_in all.new.items spans.new.items) sum.now r.0 r.1) }
    ensures err { OnErr result ((all.new.items ≡ all.old.items) × (spans.new.items ≡ spans.old.items)) }
{
    let hash = hash_of(sum);
    match find(all, spans, keys, sum, hash) {
        Some(known) => Ok((known, false)),
        None => {
            let next = spans.len() as u32;
            append(all, spans, keys, sum, hash)?;
            Ok((next, true))
        }
    }
}

/// The number of a sum, if it has one.
fn find_number(all: &[Summand], spans: &[Span], keys: &HashIndex, sum: &[Summand]) -> Option<u32>
    requires { IsTable all.now spans.now keys.now }
    ensures some { IfSome result (λ k. IsAt (sums_in all.now spans.now) k sum.now) }
    ensures none { IfNone result (Contains (sums_in all.now spans.now) sum.now → ⊥) }
{
    find(all, spans, keys, sum, hash_of(sum))
}

/// No sum has two numbers.
fn are_apart(all: &[Summand], spans: &[Span], keys: &HashIndex)
    requires { IsTable all.now spans.now keys.now }
    ensures { AreApart (sums_in all.now spans.now) }
{}

impl SumTable {
    ghost use Rattle.std.specs.Prelude.{◌≡◌, ◌<◌, ◌^◌, [], length, Contains, OnErr, IfOk, IfSome, IfNone};
    ghost use Rattle.atom_form.specs.Sums.{IsAt, Numbered, AreApart};

    /// No sum. It takes no memory.
    pub fn new(alloc: Global) -> Self
        ensures { result ≡ [] }
    {
        SumTable {
            summands: Vec::new(alloc),
            spans: Vec::new(alloc),
            keys: HashIndex::new(alloc),
        }
    }

    /// The count of numbered sums.
    pub fn len(&self) -> usize
        ensures { result ≡ length self.now }
    {
        self.spans.len()
    }

    /// The number of a sum, and whether it is new. Equal sums have one number. An `Err`, for want of memory, changes nothing.
    pub fn number(&mut self, sum: &[Summand]) -> Result<(u32, bool), AllocError>
        requires few { length self.old < 2 ^ 31 }
        ensures ok { IfOk result (λ r. Numbered self.old self.new sum.now r.0 r.1) }
        ensures err { OnErr result (self.new ≡ self.old) }
    {
        number(&mut self.summands, &mut self.spans, &mut self.keys, sum)
    }

    /// The number of a sum, if it has one.
    pub fn find(&self, sum: &[Summand]) -> Option<u32>
        ensures some { IfSome result (λ k. IsAt self.now k sum.now) }
        ensures none { IfNone result (Contains self.now sum.now → ⊥) }
    {
        find_number(&self.summands, &self.spans, &self.keys, sum)
    }

    /// The sum of a number.
    pub fn sum(&self, number: u32) -> &[Summand]
        requires { number < length self.now }
        ensures { IsAt self.now number result.now }
    {
        sum_at(&self.summands, &self.spans, number as usize)
    }

    /// No sum has two numbers.
    pub fn are_apart(&self)
        ensures { AreApart self.now }
    {
        are_apart(&self.summands, &self.spans, &self.keys);
    }
}
