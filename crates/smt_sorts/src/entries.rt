//! Declarations in order, found by their names.
//!
//! Why: a declaration that `:named` gave says so itself, since a name without arguments looks like
//! a definition otherwise; `reset-assertions` and `get-assignment` ask for it.
ghost use Rattle.std.specs.Prelude.{◌≡◌, ◌+◌, ◌^◌, ◌<◌, ◌≤◌, ◌++◌, ◌∷◌, [], map, take, drop, insert, filter, length, true, false, None, Some, OnOk, OnErr, IfSome, IfNone, All, AllPairs};
ghost use Rattle.smt_sorts.specs.Names.{AreApart};
ghost use Rattle.smt_sorts.specs.Listed.{is_of_kind, is_named, kind_of, first_that, name_hash, hash_of};

use smt_meaning::Declaration;
use std::alloc::{AllocError, Global};
use std::marker::Model;
use term_store::{HashIndex, mix};

/// How many names the index takes at most.
const MOST_INDEXED: usize = 4294967294;

/// What a name may stand for. Each kind has names of its own.
#[derive(Clone, Copy, Drop)]
pub(crate) enum Kind {
    Function,
    Sort,
}

/// A list of declarations, each with its level. No two of one kind have one name. The first of them stand in the index, and the others, where memory for it
/// was wanting, are looked through.
#[derive(Drop)]
pub(crate) struct Entries {
    declarations: Vec<Declaration>,
    levels: Vec<u32>,
    index: HashIndex,
    indexed: usize,
}

impl Model for Entries {
    ghost use Rattle.smt_sorts.specs.Listed.{Listed, listed_code, IsListed};

    ghost Value = { Listed };

    ghost coded = { listed_code };

    ghost view = { λ a. record { declarations = a.declarations.items; levels = a.levels.items } };

    ghost invariant = { λ a. IsListed a.declarations.items a.levels.items a.index a.indexed };
}

/// The hash of a name.
fn hash(name: &[u8]) -> u32
    ensures { result ≡ name_hash name.now }
{
    let mut state = 5;
    for byte in name {
        state = mix(state, *byte as u64);
    }
    (state >> 32) as u32
}

fn is_of_kind(declaration: &Declaration, kind: Kind) -> bool
    ensures { result ≡ is_of_kind kind declaration.now }
{
    match kind {
        Kind::Function => !declaration.is_sort(),
        Kind::Sort => declaration.is_sort(),
    }
}

fn is_named(declaration: &Declaration, kind: Kind, name: &[u8]) -> bool
    ensures { result ≡ is_named kind name.now declaration.now }
{
    name == declaration.name().as_slice() && is_of_kind(declaration, kind)
}

/// The declaration of this kind and name, found by its name's hash.
fn find<'a>(
    declarations: &'a [Declaration],
    index: &HashIndex,
    kind: Kind,
    name: &[u8],
) -> Option<&'a Declaration>
    requires hashed { index.now ≡ map hash_of declarations.now }
    requires apart { AllPairs AreApart declarations.now }
    ensures some { IfSome result (λ d. first_that (is_named kind name.now) declarations.now ≡ Some d.now) }
    ensures none { IfNone result (first_that (is_named kind name.now) declarations.now ≡ None) }
{
    let mut link = index.last(hash(name));
    while link > 0 {
        let place = (link - 1) as usize;
        let declaration = &declarations[place];
        if is_named(declaration, kind, name) {
            return Some(declaration);
        }
        link = index.before(place);
    }
    None
}

/// The first declaration of this kind and name.
fn look_through<'a>(
    declarations: &'a [Declaration],
    kind: Kind,
    name: &[u8],
) -> Option<&'a Declaration>
    ensures some { IfSome result (λ d. first_that (is_named kind name.now) declarations.now ≡ Some d.now) }
    ensures none { IfNone result (first_that (is_named kind name.now) declarations.now ≡ None) }
{
    for declaration in declarations {
        if is_named(declaration, kind, name) {
            return Some(declaration);
        }
    }
    None
}

/// Puts a declaration with its level at this place. An `Err` changes nothing.
fn insert(
    declarations: &mut Vec<Declaration>,
    levels: &mut Vec<u32>,
    place: usize,
    declaration: Declaration,
    level: u32,
) -> Result<(), AllocError>
    requires size { length levels.old.items ≡ length declarations.old.items }
    requires within { place ≤ length declarations.old.items }
    ensures declarations { OnOk result (declarations.new.items ≡ insert declarations.old.items place declaration) }
    ensures levels { OnOk result (levels.new.items ≡ insert levels.old.items place level) }
    ensures err { OnErr result ((declarations.new.items ≡ declarations.old.items) × (levels.new.items ≡ levels.old.items)) }
{
    if levels.insert(place, level).is_err() {
        return Err(AllocError);
    }
    if declarations.insert(place, declaration).is_err() {
        levels.remove(place);
        return Err(AllocError);
    }
    Ok(())
}

/// Takes the elements from one place to before another away.
fn remove<T: Drop>(items: &mut Vec<T>, from: usize, to: usize)
    requires order { from ≤ to }
    requires within { to ≤ length items.old.items }
    ensures { items.new.items ≡ take from items.old.items ++ drop to items.old.items }
{
    let mut place = to;
    while from < place {
        place -= 1;
        items.remove(place);
    }
}

/// Files the declarations behind the index in it, as long as there is memory for them: how many stand in it then.
fn file(declarations: &[Declaration], index: &mut HashIndex, indexed: usize) -> usize
    requires within { indexed ≤ length declarations.now }
    requires hashed { index.old ≡ map hash_of (take indexed declarations.now) }
    ensures within { result ≤ length declarations.now }
    ensures hashed { index.new ≡ map hash_of (take result declarations.now) }
{
    let mut count = indexed;
    while count < declarations.len() && count < MOST_INDEXED {
        if index
            .push(hash(declarations[count].name().as_slice()))
            .is_err()
        {
            return count;
        }
        count += 1;
    }
    count
}

impl Entries {
    ghost use Rattle.smt_sorts.specs.Listed.{Listed, first_listed, inserted, without_range};
    ghost use Rattle.smt_meaning.specs.Stack.{stays};

    /// No declaration. It takes no memory.
    pub(crate) fn new(alloc: Global) -> Self
        ensures { result ≡ record { declarations = []; levels = [] } }
    {
        Entries {
            declarations: Vec::new(alloc),
            levels: Vec::new(alloc),
            index: HashIndex::new(alloc),
            indexed: 0,
        }
    }

    /// The declarations, in order.
    pub(crate) fn declarations(&self) -> &[Declaration]
        ensures value { result.now ≡ self.now.declarations }
    {
        &self.declarations
    }

    /// The level of each declaration.
    pub(crate) fn levels(&self) -> &[u32]
        ensures value { result.now ≡ self.now.levels }
    {
        &self.levels
    }

    /// The declaration of this kind and name.
    pub(crate) fn find(&self, kind: Kind, name: &[u8]) -> Option<&Declaration>
        ensures some { IfSome result (λ d. first_that (is_named kind name.now) self.now.declarations ≡ Some d.now) }
        ensures none { IfNone result (first_that (is_named kind name.now) self.now.declarations ≡ None) }
    {
        let (first, rest) = self.declarations.split_at(self.indexed);
        match find(first, &self.index, kind, name) {
            Some(declaration) => Some(declaration),
            None => look_through(rest, kind, name),
        }
    }

    /// Puts a declaration with its level at this place. An `Err` changes nothing.
    pub(crate) fn insert(
        &mut self,
        place: usize,
        declaration: Declaration,
        level: u32,
    ) -> Result<(), AllocError>
        requires within { place ≤ length self.old.declarations }
        requires new { first_that (is_named (kind_of declaration.is_sort) declaration.name) self.old.declarations ≡ None }
        ensures ok { OnOk result (self.new ≡ inserted place declaration level self.old) }
        ensures err { OnErr result (self.new ≡ self.old) }
    {
        insert(
            &mut self.declarations,
            &mut self.levels,
            place,
            declaration,
            level,
        )?;
        self.index.truncate(place);
        let indexed = self.indexed.min(place);
        self.indexed = file(&self.declarations, &mut self.index, indexed);
        Ok(())
    }

    /// Takes the declarations from this place on away. It takes no memory.
    pub(crate) fn truncate(&mut self, len: usize)
        ensures { self.new ≡ first_listed len self.old }
    {
        self.declarations.truncate(len);
        self.levels.truncate(len);
        self.index.truncate(len);
        self.indexed = self.indexed.min(len);
    }

    /// Takes the declarations from one place to before another away.
    pub(crate) fn remove(&mut self, from: usize, to: usize)
        requires order { from ≤ to }
        requires within { to ≤ length self.old.declarations }
        ensures { self.new ≡ without_range from to self.old }
    {
        if from < to {
            remove(&mut self.declarations, from, to);
            remove(&mut self.levels, from, to);
            self.index.truncate(from);
            let indexed = self.indexed.min(from);
            self.indexed = file(&self.declarations, &mut self.index, indexed);
        }
    }

    /// Takes away the names of assertions, all on one level.
    pub(crate) fn remove_names(&mut self)
        ensures declarations { self.new.declarations ≡ filter stays self.old.declarations }
        ensures levels { self.new.levels ≡ take (length self.new.declarations) self.old.levels }
    {
        self.declarations
            .retain(|declaration| !declaration.is_name());
        self.levels.truncate(self.declarations.len());
        self.index.truncate(0);
        self.indexed = file(&self.declarations, &mut self.index, 0);
    }
}
