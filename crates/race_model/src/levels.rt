//! The levels of a stack, as a race's state has them.
ghost use Rattle.std.specs.Prelude.{◌≡◌, ◌+◌, ◌<◌, ◌++◌, [], ◌∷◌, length, map, take, replicate, OnOk, OnErr};
ghost use Rattle.race_model.specs.Base.{base_of, assertion_of, declared_in};
ghost use Rattle.race_model.specs.Race.{has_id, is_new, are_new, terms_at, formulas_of};
ghost use Rattle.smt_meaning.specs.Stack.{depth, signature_of, pushed, on_top, at_base, with_declared};

use crate::event::{Addition, Formula};
use crate::shelf::Framed;
use smt_meaning::{Declaration, Seq, SymId, Terms};
use std::alloc::{AllocError, Global};
use std::mem;

/// A level: what was declared and what was asserted there.
#[derive(Drop)]
pub struct Level {
    pub declared: Seq<Declaration>,
    pub asserted: Seq<Formula>,
}

/// Levels from level 0 on, and the terms that they name by their places.
#[derive(Drop)]
pub struct Levels {
    pub terms: Terms,
    pub levels: Vec<Level>,
}

fn has(declared: &[Declaration], id: SymId) -> bool
    ensures { result ≡ has_id id declared.now }
{
    let mut rest = declared;
    while let Some((first, tail)) = rest.split_first() {
        if first.id() == id {
            return true;
        }
        rest = tail;
    }
    false
}

impl Level {
    // The level gains all of an addition, or, for want of memory, nothing.
    fn gain(&mut self, alloc: Global, addition: Addition) -> Result<(), AllocError>
        ensures ok { OnOk result ((self.new.declared ≡ self.old.declared ++ (addition.declared ++ addition.named)) × (self.new.asserted ≡ self.old.asserted ++ formulas_of addition.formula)) }
        ensures err { OnErr result (self.new ≡ self.old) }
    {
        let Addition {
            declared,
            formula,
            named,
        } = addition;
        let mut declared = declared.into_vec();
        let mut named = named.into_vec();
        let mut all = mem::replace(&mut self.declared, Seq::new(alloc)).into_vec();
        let mut asserted = mem::replace(&mut self.asserted, Seq::new(alloc)).into_vec();
        let room = all.reserve(declared.len() + named.len()).is_ok() && asserted.reserve(1).is_ok();
        if room {
            let first = all.append(&mut declared);
            let second = all.append(&mut named);
            prove!(first.is_ok());
            prove!(second.is_ok());
            if let Some(formula) = formula {
                asserted.push_reserved(formula);
            }
        }
        self.declared = Seq::from_vec(all);
        self.asserted = Seq::from_vec(asserted);
        if room { Ok(()) } else { Err(AllocError) }
    }
}

// One level gains the declarations of an addition, and a newer one the rest, or, for want of memory, neither anything.
fn gain_both(
    alloc: Global,
    base: &mut Level,
    newest: &mut Level,
    addition: Addition,
) -> Result<(), AllocError>
    ensures base { OnOk result ((base.new.declared ≡ base.old.declared ++ addition.declared) × (base.new.asserted ≡ base.old.asserted)) }
    ensures newest { OnOk result ((newest.new.declared ≡ newest.old.declared ++ addition.named) × (newest.new.asserted ≡ newest.old.asserted ++ formulas_of addition.formula)) }
    ensures err { OnErr result ((base.new ≡ base.old) × (newest.new ≡ newest.old)) }
{
    let Addition {
        declared,
        formula,
        named,
    } = addition;
    let mut declared = declared.into_vec();
    let mut all = mem::replace(&mut base.declared, Seq::new(alloc)).into_vec();
    let mut gained = all.reserve(declared.len());
    if gained.is_ok() {
        let rest = Addition {
            declared: Seq::new(alloc),
            formula,
            named,
        };
        gained = newest.gain(alloc, rest);
    }
    if gained.is_ok() {
        let appended = all.append(&mut declared);
        prove!(appended.is_ok());
    }
    base.declared = Seq::from_vec(all);
    gained
}

fn has_in_levels(levels: &[Level], id: SymId) -> bool
    ensures { result ≡ has_id id (declared_in levels.now) }
{
    let mut rest = levels;
    while let Some((first, tail)) = rest.split_first() {
        if has(first.declared.as_slice(), id) {
            return true;
        }
        rest = tail;
    }
    false
}

fn each_is_new(levels: &[Level], others: &[Declaration], declared: &[Declaration]) -> bool
    ensures { result ≡ are_new (declared_in levels.now) others.now declared.now }
{
    let mut rest = declared;
    while let Some((first, tail)) = rest.split_first() {
        if has_in_levels(levels, first.id()) || has(others, first.id()) || has(tail, first.id()) {
            return false;
        }
        rest = tail;
    }
    true
}

impl Levels {
    /// The number of levels.
    pub fn len(&self) -> usize
        ensures { result ≡ length (base_of self.now).frames }
    {
        self.levels.len()
    }

    /// The number of levels above level 0.
    pub fn depth(&self) -> usize
        ensures { result ≡ depth (base_of self.now).frames }
    {
        self.levels.len().saturating_sub(1)
    }

    /// The number of assertions of a level; 0 where there is no such level.
    pub fn asserted_at(&self, level: u16) -> usize
        ensures { result ≡ length (terms_at level (base_of self.now).frames) }
    {
        let level = level as usize;
        if level < self.levels.len() {
            self.levels[level].asserted.len()
        } else {
            0
        }
    }

    /// Whether no id of the addition is used yet or stands in it twice.
    pub fn is_new(&self, addition: &Addition) -> bool
        ensures { result ≡ is_new (signature_of (base_of self.now).frames) addition.now }
    {
        let named = addition.named.as_slice();
        each_is_new(self.levels.as_slice(), named, addition.declared.as_slice())
            && each_is_new(self.levels.as_slice(), &[], named)
    }

    /// Adds so many empty levels. An `Err`, for want of memory, changes nothing.
    pub fn push(&mut self, alloc: Global, count: u16) -> Result<(), AllocError>
        ensures terms { self.new.terms ≡ self.old.terms }
        ensures ok { OnOk result ((base_of self.new).frames ≡ pushed count (base_of self.old).frames) }
        ensures err { OnErr result ((base_of self.new).frames ≡ (base_of self.old).frames) }
    {
        self.levels.reserve(count as usize)?;
        for _ in 0..count {
            self.levels.push_reserved(Level {
                declared: Seq::new(alloc),
                asserted: Seq::new(alloc),
            });
        }
        Ok(())
    }

    /// Keeps so many levels, from level 0 on.
    pub fn cut(&mut self, count: usize)
        ensures terms { self.new.terms ≡ self.old.terms }
        ensures frames { (base_of self.new).frames ≡ take count (base_of self.old).frames }
    {
        self.levels.truncate(count);
    }

    // The newest level gains all of an addition. An `Err`, for want of memory, changes nothing.
    fn gain_newest(&mut self, alloc: Global, addition: Addition) -> Result<(), AllocError>
        requires { 0 < length (base_of self.old).frames }
        ensures terms { self.new.terms ≡ self.old.terms }
        ensures ok { OnOk result ((base_of self.new).frames ≡ on_top (addition.declared ++ addition.named) (map (assertion_of self.old.terms) (formulas_of addition.formula)) (base_of self.old).frames) }
        ensures err { OnErr result ((base_of self.new).frames ≡ (base_of self.old).frames) }
    {
        let last = self.levels.len() - 1;
        self.levels[last].gain(alloc, addition)
    }

    // Level 0 gains the declarations of an addition, and the newest level, which is another, the rest.
    fn gain_apart(&mut self, alloc: Global, addition: Addition) -> Result<(), AllocError>
        requires { 1 < length (base_of self.old).frames }
        ensures terms { self.new.terms ≡ self.old.terms }
        ensures ok { OnOk result ((base_of self.new).frames ≡ on_top addition.named (map (assertion_of self.old.terms) (formulas_of addition.formula)) (at_base addition.declared (base_of self.old).frames)) }
        ensures err { OnErr result ((base_of self.new).frames ≡ (base_of self.old).frames) }
    {
        let last = self.levels.len() - 1;
        let empty = Level {
            declared: Seq::new(alloc),
            asserted: Seq::new(alloc),
        };
        let mut base = mem::replace(&mut self.levels[0], empty);
        let gained = gain_both(alloc, &mut base, &mut self.levels[last], addition);
        self.levels[0] = base;
        gained
    }

    /// The newest level gains all of an addition; where declarations are global, level 0 gains those of it. An `Err`, for want of memory, changes nothing.
    pub fn gain(
        &mut self,
        alloc: Global,
        addition: Addition,
        global: bool,
    ) -> Result<(), AllocError>
        requires { 0 < length (base_of self.old).frames }
        ensures terms { self.new.terms ≡ self.old.terms }
        ensures ok { OnOk result ((base_of self.new).frames ≡ on_top addition.named (map (assertion_of self.old.terms) (formulas_of addition.formula)) (with_declared global addition.declared (base_of self.old).frames)) }
        ensures err { OnErr result ((base_of self.new).frames ≡ (base_of self.old).frames) }
    {
        if global && self.levels.len() > 1 {
            self.gain_apart(alloc, addition)
        } else {
            self.gain_newest(alloc, addition)
        }
    }
}

impl Framed for Levels {
    ghost use Rattle.race_model.specs.Base.{base_of};

    ghost base = { base_of };
}
