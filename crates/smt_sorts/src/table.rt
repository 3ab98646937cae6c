//! The table of names.
//!
//! Why levels are numbers: the table of names keeps each declaration with the number of its level,
//! so pushing levels takes no memory and can't fail, and popping them cuts a list. Names are filed
//! by their hashes in the term store's index, without a secret, so a script can be written that
//! slows its own look-ups. Sorts, functions, definitions and names share one counter of ids, which
//! only `reset` starts anew.
//!
//! Why the order isn't that of declaration alone: where declarations are global, those of level 0
//! stand before the names of the levels above, whenever they were made: the signature is in the
//! order of levels, and within a level in that of declaration. Ids are given in the order of
//! declaration. So a signature doesn't grow at its end alone; what was found by its id is found
//! again. The table keeps its declarations in one list in that order, with an index of the first of
//! them by names: a declaration that is put into the middle has what follows filed anew, and where
//! memory for that is wanting, the rest is looked through one by one. So want of memory is answered
//! for the list alone, and clearing to level 0 takes none.
ghost use Rattle.std.specs.Prelude.{◌≡◌, ◌+◌, ◌^◌, ◌<◌, ◌↔◌, ◌++◌, ◌∷◌, [], length, OnOk, OnErr, IfOk, IfErr, IfSome, IfNone, None, Some, true, false};
ghost use Rattle.smt_meaning.specs.Signature.{is_one_of, find_function, find_sort, function_with_id, reserved_functions, reserved_sorts, HasNoIdTwice};
ghost use Rattle.smt_meaning.specs.Sorts.{most_symbols};
ghost use Rattle.smt_meaning.specs.StackCommand.{declared_sort, sort_named, sort_declaration, function_declaration};
ghost use Rattle.smt_meaning.specs.State.{name_of_sort};
ghost use Rattle.smt_sorts.specs.Listed.{is_named, kind_of, first_that, has_id, name_if_sort};
ghost use Rattle.smt_sorts.specs.Names.{IsCauseOf};

use crate::entries::{Entries, Kind};
use crate::errors::{AddError, NameError};
use crate::workshop::Kept;
use crate::{places, reserved};
use smt_meaning::{Body, Bytes, Declaration, Rank, Seq, Sort, SymId};
use std::alloc::{AllocError, Global};
use std::marker::Model;

/// What is declared and defined, by levels, and how many ids were given. Ids are given in order, from 0. The declarations of level 0 come first, so many.
#[derive(Drop)]
pub struct Table {
    entries: Entries,
    base: usize,
    count: u32,
    given: SymId,
    kept: Option<Kept>,
}

impl Model for Table {
    ghost use Rattle.smt_sorts.specs.Names.{Names, names_code};

    ghost Value = { Names };

    ghost coded = { names_code };

    ghost use Rattle.smt_sorts.specs.Leveled.{levels_of, IsLeveled};
    ghost use Rattle.smt_sorts.specs.Workshop.{IsKept};

    ghost view = { λ a. record { levels = levels_of a.count a.entries; given = a.given } };

    ghost invariant = { λ a. IsLeveled a.count a.given a.base a.entries × IsKept a.given a.entries.declarations a.kept };
}

/// The name of a declaration, where it is that of a sort, else nothing.
fn name_if_sort(declaration: &Declaration) -> &[u8]
    ensures { result.now ≡ name_if_sort declaration.now }
{
    if declaration.is_sort() {
        declaration.name().as_slice()
    } else {
        b"".as_slice()
    }
}

/// Whether a name may be declared that is reserved or not, and that something is declared under or not.
fn check_name(is_reserved: bool, is_declared: bool) -> Result<(), NameError>
    ensures ok { OnOk result ((is_reserved ≡ false) × (is_declared ≡ false)) }
    ensures err { IfErr result (λ e. IsCauseOf e is_reserved is_declared) }
{
    if is_reserved {
        Err(NameError::Reserved)
    } else if is_declared {
        Err(NameError::AlreadyDeclared)
    } else {
        Ok(())
    }
}

impl Table {
    ghost use Rattle.smt_sorts.specs.Names.{Names, signature, no_names, with_declaration, with_levels, without_levels, cut_to, cleared, based, named_term, sort_or_new, IsNewFunction, IsNewSort, IsCause, IsTable, HasGained, IsLevelOf};
    ghost use Rattle.smt_sorts.specs.Workshop.{IsOf, IsOfAny};

    /// No name, on level 0. It takes no memory.
    pub fn new(alloc: Global) -> Self
        ensures { result ≡ no_names }
    {
        Table {
            entries: Entries::new(alloc),
            base: 0,
            count: 1,
            given: 0,
            kept: None,
        }
    }

    /// How many ids were given: the next one.
    pub fn ids(&self) -> SymId
        ensures value { result ≡ self.now.given }
        ensures table { IsTable self.now }
        ensures gained { HasGained self.now self.now }
    {
        self.given
    }

    /// How many levels there are, level 0 among them.
    pub fn levels(&self) -> u32
        ensures { result ≡ length self.now.levels }
    {
        self.count
    }

    /// The declarations and definitions of all levels, in order.
    pub fn declarations(&self) -> &[Declaration]
        ensures { result.now ≡ signature self.now }
    {
        self.entries.declarations()
    }

    /// The function of this name.
    pub fn lookup(&self, name: &[u8]) -> Option<&Declaration>
        ensures some { IfSome result (λ d. find_function name.now (signature self.now) ≡ Some d.now) }
        ensures none { IfNone result (find_function name.now (signature self.now) ≡ None) }
    {
        self.entries.find(Kind::Function, name)
    }

    /// The declaration of the sort of this name.
    fn find_sort(&self, name: &[u8]) -> Option<&Declaration>
        ensures some { IfSome result (λ d. find_sort name.now (signature self.now) ≡ Some d.now) }
        ensures none { IfNone result (find_sort name.now (signature self.now) ≡ None) }
    {
        self.entries.find(Kind::Sort, name)
    }

    /// The sort that a declared name stands for.
    pub fn lookup_sort(&self, name: &[u8]) -> Option<Sort>
        ensures { result ≡ declared_sort (find_sort name.now (signature self.now)) }
    {
        match self.find_sort(name) {
            Some(declaration) => Some(declaration.rank().result),
            None => None,
        }
    }

    /// The sort that a name stands for, `Bool` and `Int` among them.
    pub fn sort_named(&self, name: &[u8]) -> Option<Sort>
        ensures { result ≡ sort_named name.now (signature self.now) }
    {
        if name == b"Bool".as_slice() {
            Some(Sort::Bool)
        } else if name == b"Int".as_slice() {
            Some(Sort::Int)
        } else {
            self.lookup_sort(name)
        }
    }

    /// What has this id.
    fn with_id(&self, id: SymId) -> Option<&Declaration>
        ensures some { IfSome result (λ d. first_that (has_id id) (signature self.now) ≡ Some d.now) }
        ensures none { IfNone result (first_that (has_id id) (signature self.now) ≡ None) }
        ensures apart { HasNoIdTwice (signature self.now) }
    {
        let declarations = self.entries.declarations();
        match places::with_id(declarations, self.base, id) {
            Some(place) => Some(&declarations[place]),
            None => None,
        }
    }

    /// The function with this id.
    pub fn function_with_id(&self, id: SymId) -> Option<&Declaration>
        ensures some { IfSome result (λ d. function_with_id id (signature self.now) ≡ Some d.now) }
        ensures none { IfNone result (function_with_id id (signature self.now) ≡ None) }
    {
        let declaration = self.with_id(id)?;
        if declaration.is_sort() {
            None
        } else {
            Some(declaration)
        }
    }

    /// The level of what has this id.
    pub fn level_with_id(&self, id: SymId) -> Option<u32>
        ensures some { IfSome result (IsLevelOf self.now.levels id) }
        ensures within { IfSome result (λ l. l < length self.now.levels) }
        ensures none { IfNone result (first_that (has_id id) (signature self.now) ≡ None) }
    {
        match places::with_id(self.entries.declarations(), self.base, id) {
            Some(place) => Some(self.entries.levels()[place]),
            None => None,
        }
    }

    /// The name of the sort with this id, empty where there is none.
    pub fn sort_name(&self, id: SymId) -> &[u8]
        ensures { result.now ≡ name_of_sort id (signature self.now) }
    {
        match self.with_id(id) {
            Some(declaration) => name_if_sort(declaration),
            None => b"".as_slice(),
        }
    }

    /// Whether a function of this name may be declared.
    pub fn check_new_function(&self, name: &[u8]) -> Result<(), NameError>
        ensures ok { OnOk result (IsNewFunction name.now (signature self.now)) }
        ensures err { IfErr result (λ e. IsCause e (is_one_of name.now reserved_functions) (find_function name.now (signature self.now))) }
    {
        let is_declared = self.lookup(name).is_some();
        check_name(reserved::is_reserved_function(name), is_declared)
    }

    /// Whether a sort of this name may be declared.
    pub fn check_new_sort(&self, name: &[u8]) -> Result<(), NameError>
        ensures ok { OnOk result (IsNewSort name.now (signature self.now)) }
        ensures err { IfErr result (λ e. IsCause e (is_one_of name.now reserved_sorts) (find_sort name.now (signature self.now))) }
    {
        let is_declared = self.find_sort(name).is_some();
        check_name(reserved::is_reserved_sort(name), is_declared)
    }

    /// The next id. `TooManySymbols` comes exactly where none is left.
    fn next_id(&self) -> Result<SymId, AddError>
        ensures id { IfOk result (λ id. id ≡ self.now.given) }
        ensures left { OnOk result (self.now.given < most_symbols) }
        ensures full { IfErr result (λ e. e ≡ AddError.TooManySymbols) }
        ensures given { OnErr result (self.now.given ≡ most_symbols) }
    {
        if self.given < u32::MAX {
            Ok(self.given)
        } else {
            Err(AddError::TooManySymbols)
        }
    }

    /// Adds a declaration with the next id on level 0. An `Err`, for want of memory, changes nothing.
    fn add_at_base(&mut self, declaration: Declaration) -> Result<(), AllocError>
        requires id { declaration.id ≡ self.old.given }
        requires room { self.old.given < most_symbols }
        requires new { first_that (is_named (kind_of declaration.is_sort) declaration.name) (signature self.old) ≡ None }
        ensures ok { OnOk result (self.new ≡ with_declaration true declaration self.old) }
        ensures err { OnErr result (self.new ≡ self.old) }
    {
        let given = self.given + 1;
        let _ = self.entries.declarations().len();
        let base = self.base + 1;
        self.entries.insert(self.base, declaration, 0)?;
        self.base = base;
        self.given = given;
        Ok(())
    }

    /// Adds a declaration with the next id on the newest level, where that is above level 0. An `Err`, for want of memory, changes nothing.
    fn add_above(&mut self, declaration: Declaration) -> Result<(), AllocError>
        requires above { 1 < length self.old.levels }
        requires id { declaration.id ≡ self.old.given }
        requires room { self.old.given < most_symbols }
        requires new { first_that (is_named (kind_of declaration.is_sort) declaration.name) (signature self.old) ≡ None }
        ensures ok { OnOk result (self.new ≡ with_declaration false declaration self.old) }
        ensures err { OnErr result (self.new ≡ self.old) }
    {
        let given = self.given + 1;
        let place = self.entries.declarations().len();
        self.entries.insert(place, declaration, self.count - 1)?;
        self.given = given;
        Ok(())
    }

    /// Adds a declaration with the next id, on level 0 where it is global and else on the newest level. An `Err`, for want of memory, changes nothing.
    fn add(&mut self, declaration: Declaration, global: bool) -> Result<(), AllocError>
        requires id { declaration.id ≡ self.old.given }
        requires room { self.old.given < most_symbols }
        requires new { first_that (is_named (kind_of declaration.is_sort) declaration.name) (signature self.old) ≡ None }
        ensures ok { OnOk result (self.new ≡ with_declaration global declaration self.old) }
        ensures some_level { 0 < length self.old.levels }
        ensures err { OnErr result (self.new ≡ self.old) }
    {
        let _ = self.ids();
        if global {
            return self.add_at_base(declaration);
        }
        if self.levels() == 1 {
            self.add_at_base(declaration)
        } else {
            self.add_above(declaration)
        }
    }

    /// Declares a sort: a new one, or a name for one. It joins level 0 where it is global, and else the newest level. `TooManySymbols` comes exactly where no
    /// id is left. An `Err` changes nothing.
    pub fn add_sort(
        &mut self,
        alloc: Global,
        name: &[u8],
        sort: Option<Sort>,
        global: bool,
    ) -> Result<SymId, AddError>
        requires { find_sort name.now (signature self.old) ≡ None }
        ensures id { IfOk result (λ id. id ≡ self.old.given) }
        ensures ok { OnOk result (self.new ≡ with_declaration global (sort_declaration self.old.given name.now (sort_or_new sort self.old.given)) self.old) }
        ensures full { (result ≡ Err AddError.TooManySymbols) ↔ (self.old.given ≡ most_symbols) }
        ensures err { OnErr result (self.new ≡ self.old) }
    {
        let id = self.next_id()?;
        let name = Bytes::copy(alloc, name)?;
        let rank = Rank {
            arguments: Seq::new(alloc),
            result: sort.unwrap_or(Sort::Free(id)),
        };
        self.add(Declaration::sort(id, name, rank), global)?;
        Ok(id)
    }

    /// Declares or defines a function. It joins level 0 where it is global, and else the newest level. `TooManySymbols` comes exactly where no id is left. An
    /// `Err` changes nothing.
    pub fn add_function(
        &mut self,
        alloc: Global,
        name: &[u8],
        rank: Rank,
        body: Option<Body>,
        global: bool,
    ) -> Result<SymId, AddError>
        requires { find_function name.now (signature self.old) ≡ None }
        ensures id { IfOk result (λ id. id ≡ self.old.given) }
        ensures ok { OnOk result (self.new ≡ with_declaration global (function_declaration self.old.given name.now rank.arguments rank.result body) self.old) }
        ensures full { (result ≡ Err AddError.TooManySymbols) ↔ (self.old.given ≡ most_symbols) }
        ensures err { OnErr result (self.new ≡ self.old) }
    {
        let id = self.next_id()?;
        let name = Bytes::copy(alloc, name)?;
        self.add(Declaration::function(id, name, rank, body), global)?;
        Ok(id)
    }

    /// Defines a name that `:named` gives to a term, on the newest level. `TooManySymbols` comes exactly where no id is left. An `Err` changes nothing.
    pub fn add_name(
        &mut self,
        alloc: Global,
        name: &[u8],
        rank: Rank,
        body: Body,
    ) -> Result<SymId, AddError>
        requires { find_function name.now (signature self.old) ≡ None }
        ensures id { IfOk result (λ id. id ≡ self.old.given) }
        ensures ok { OnOk result (self.new ≡ with_declaration false (named_term self.old.given name.now rank body) self.old) }
        ensures signature { OnOk result (signature self.new ≡ signature self.old ++ named_term self.old.given name.now rank body ∷ []) }
        ensures gained { OnOk result ((t : Names) → HasGained t self.old → HasGained t self.new) }
        ensures full { (result ≡ Err AddError.TooManySymbols) ↔ (self.old.given ≡ most_symbols) }
        ensures err { OnErr result (self.new ≡ self.old) }
    {
        let id = self.next_id()?;
        let name = Bytes::copy(alloc, name)?;
        self.add(Declaration::name_of_term(id, name, rank, body), false)?;
        Ok(id)
    }

    /// Keeps what is left of the judgement of a definition, in place of what was kept before. No contract shows it but that of `take_kept`.
    pub fn keep(&mut self, kept: Kept)
        requires given { kept.id < self.old.given }
        requires of { IsOf (signature self.old) kept }
        ensures { self.new ≡ self.old }
    {
        self.kept = Some(kept);
    }

    /// Takes what is kept of the judgement of a definition.
    pub fn take_kept(&mut self) -> Option<Kept>
        ensures of { IsOfAny (signature self.old) result }
        ensures same { self.new ≡ self.old }
    {
        self.kept.take()
    }

    /// Adds so many levels. It takes no memory.
    pub fn push(&mut self, levels: u32)
        requires { length self.old.levels + levels < 2 ^ 32 }
        ensures { self.new ≡ with_levels levels self.old }
    {
        self.count += levels;
    }

    /// Takes so many levels away, the newest ones, with their declarations. It takes no memory.
    pub fn pop(&mut self, levels: u32)
        requires { levels < length self.old.levels }
        ensures { self.new ≡ without_levels levels self.old }
    {
        self.count -= levels;
        let len = places::below_level(self.entries.levels(), self.count);
        self.entries.truncate(len);
    }

    /// Takes away the declarations whose ids are these and later ones, and gives those ids back: so a refused command leaves no name. It takes no memory.
    pub fn cut_ids(&mut self, ids: SymId)
        ensures value { self.new ≡ cut_to ids self.old }
        ensures restored { (t : Names) → t.given ≡ ids → HasGained t self.old → self.new ≡ t }
    {
        let (first, rest) = self.entries.declarations().split_at(self.base);
        let base = places::below_id(first, ids);
        let len = self.base + places::below_id(rest, ids);
        self.entries.truncate(len);
        self.entries.remove(base, self.base);
        self.base = base;
        self.given = self.given.min(ids);
        self.kept = None;
    }

    /// Takes every declaration and every level but level 0 away. The ids stay given. It takes no memory.
    pub fn clear(&mut self)
        ensures { self.new ≡ cleared self.old }
    {
        self.entries.truncate(0);
        self.base = 0;
        self.count = 1;
        self.kept = None;
    }

    /// Takes away every level but level 0, and from that the names that went with assertions. The ids stay given. It takes no memory.
    pub fn clear_to_base(&mut self)
        ensures { self.new ≡ based self.old }
    {
        self.entries.truncate(self.base);
        self.entries.remove_names();
        self.base = self.entries.declarations().len();
        self.count = 1;
        self.kept = None;
    }

    /// Takes all away, and gives all ids back. It takes no memory.
    pub fn reset(&mut self)
        ensures { self.new ≡ no_names }
    {
        self.entries.truncate(0);
        self.base = 0;
        self.count = 1;
        self.kept = None;
        self.given = 0;
    }
}
