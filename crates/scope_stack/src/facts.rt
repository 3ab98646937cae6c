//! What is kept beside the terms, by their places.
ghost use Rattle.std.specs.Prelude.{◌≡◌, ◌<◌, ◌≤◌, [], ◌∷◌, ◌++◌, length, take, All, OnOk, OnErr, slice_index, slice_index_or};
ghost use Rattle.smt_meaning.specs.declared.values.Sort.TheVariants.{Bool as Truths};
ghost use Rattle.smt_meaning.specs.Term.{tree_at};
ghost use Rattle.scope_stack.specs.Facts.{AreExtended, AreFacts, HasGivenSymbols, HaveGivenSymbols, HaveLevels, KeepFirst, MayExtend, IsFact, IsHeadLevel, IsResult, IsTermLevel, greatest_of, made_sort as made_by};
ghost use Rattle.scope_stack.specs.Pieces.{on_last};

use crate::answers::Assertion;
use crate::asserted::Asserted;
use smt_meaning::{Head, Operator, Sort, SymId, TermId};
use smt_sorts::Table;
use std::alloc::{AllocError, Global};
use term_store::TermStore;

/// What is kept beside the terms, by their places.
#[derive(Drop)]
pub struct TermFacts {
    /// Of a term that no longer has a sort it is any.
    pub sorts: Vec<Sort>,
    /// Of a term with a symbol that is no longer declared it is any.
    pub levels: Vec<u16>,
}

/// The sort that an operator makes, where a branch of an `ite` has this sort.
fn made_sort(operator: Operator, branch: Sort) -> Sort
    ensures { result ≡ made_by operator branch }
{
    match operator {
        Operator::Add
        | Operator::Subtract
        | Operator::Multiply
        | Operator::Divide
        | Operator::Modulo
        | Operator::Absolute => Sort::Int,
        Operator::Ite => branch,
        _ => Sort::Bool,
    }
}

/// The sort of the second of these terms.
fn branch_sort(sorts: &[Sort], places: &[TermId]) -> Sort
    requires { All (λ p. p < length sorts.now) places.now }
    ensures { 1 < length places.now → result ≡ slice_index_or sorts.now (slice_index places.now 1) Truths }
{
    if places.len() < 2 {
        return Sort::Bool;
    }
    sorts[places[1] as usize]
}

/// The sort of a symbol's result. Of a symbol that isn't declared it is any.
fn result_sort(table: &Table, symbol: SymId) -> Sort
    ensures { IsResult table.now symbol result }
{
    match table.function_with_id(symbol) {
        Some(found) => found.rank().result,
        None => Sort::Bool,
    }
}

/// The sort of the term at a place, where those of the terms before it are known.
fn sort_at(table: &Table, terms: &TermStore, sorts: &[Sort], id: TermId) -> Sort
    requires within { id < length terms.now.trees }
    requires given { HasGivenSymbols table.now.given (tree_at terms.now.trees id) }
    requires facts { AreFacts table.now terms.now.trees id sorts.now }
    ensures { IsFact table.now (tree_at terms.now.trees id) result }
{
    let node = terms.node(id);
    match node.head {
        Head::Theory(operator) => made_sort(operator, branch_sort(sorts, node.arguments)),
        Head::Symbol(symbol) => result_sort(table, symbol),
        Head::Numeral(_) => Sort::Int,
        Head::Place(_) => Sort::Int,
    }
}

/// The level of a head's symbol, 0 where it has none. Of a symbol that isn't declared it is any.
fn head_level(table: &Table, head: Head) -> u16
    requires { length table.now.levels ≤ 65536 }
    ensures { IsHeadLevel table.now head result }
{
    match head {
        Head::Symbol(symbol) => match table.level_with_id(symbol) {
            Some(level) => level as u16,
            None => 0,
        },
        Head::Theory(_) => 0,
        Head::Numeral(_) => 0,
        Head::Place(_) => 0,
    }
}

/// The greatest of a level and those of the terms at these places.
fn greatest(levels: &[u16], places: &[TermId], level: u16) -> u16
    requires { All (λ p. p < length levels.now) places.now }
    ensures { result ≡ greatest_of levels.now places.now level }
{
    let mut most = level;
    let mut rest = places;
    while let Some((first, tail)) = rest.split_first() {
        most = most.max(levels[*first as usize]);
        rest = tail;
    }
    most
}

/// The level of the term at a place, where those of the terms before it are known.
fn level_at(table: &Table, terms: &TermStore, levels: &[u16], id: TermId) -> u16
    requires within { id < length terms.now.trees }
    requires few { length table.now.levels ≤ 65536 }
    requires levels { HaveLevels table.now terms.now.trees id levels.now }
    ensures { IsTermLevel table.now (tree_at terms.now.trees id) result }
{
    let node = terms.node(id);
    let level = head_level(table, node.head);
    greatest(levels, node.arguments, level)
}

impl TermFacts {
    ghost use Rattle.std.specs.Prelude.{◌≡◌, take, [], OnOk};
    ghost use Rattle.scope_stack.specs.Facts.{AreExtended, KeepFirst, MayExtend};

    /// Of no term. It takes no memory.
    pub fn new(alloc: Global) -> Self
        ensures sorts { result.sorts.items ≡ [] }
        ensures levels { result.levels.items ≡ [] }
    {
        TermFacts {
            sorts: Vec::new(alloc),
            levels: Vec::new(alloc),
        }
    }

    /// Adds those of the terms from a place on. An `Err`, for want of memory, may leave some.
    pub fn extend(
        &mut self,
        table: &Table,
        terms: &TermStore,
        from: TermId,
    ) -> Result<(), AllocError>
        requires { MayExtend table.now terms.now.trees from self.old.sorts.items self.old.levels.items }
        ensures extended { OnOk result (AreExtended table.now terms.now.trees self.new.sorts.items self.new.levels.items) }
        ensures kept { KeepFirst from self.old.sorts.items self.new.sorts.items self.old.levels.items self.new.levels.items }
    {
        for id in from..terms.len() {
            let sort = sort_at(table, terms, &self.sorts, id);
            let level = level_at(table, terms, &self.levels, id);
            self.sorts.push(sort)?;
            self.levels.push(level)?;
        }
        Ok(())
    }

    /// Keeps those of the first terms, so many. It takes no memory.
    pub fn cut(&mut self, len: u32)
        ensures sorts { self.new.sorts.items ≡ take len self.old.sorts.items }
        ensures levels { self.new.levels.items ≡ take len self.old.levels.items }
    {
        self.sorts.truncate(len as usize);
        self.levels.truncate(len as usize);
    }
}

/// Adds a level with these assertions, whose terms were judged, and what is kept beside the terms from a place on. An `Err`, for want of memory, may leave some of it.
pub(crate) fn add_level(
    table: &Table,
    terms: &TermStore,
    from: TermId,
    facts: &mut TermFacts,
    asserted: &mut Asserted,
    assertions: Vec<Assertion>,
) -> Result<(), AllocError>
    requires { MayExtend table.now terms.now.trees from facts.old.sorts.items facts.old.levels.items }
    ensures ok { OnOk result (asserted.new ≡ asserted.old ++ assertions.items ∷ []) }
    ensures err { OnErr result (asserted.new ≡ asserted.old) }
    ensures extended { OnOk result (AreExtended table.now terms.now.trees facts.new.sorts.items facts.new.levels.items) }
    ensures kept { KeepFirst from facts.old.sorts.items facts.new.sorts.items facts.old.levels.items facts.new.levels.items }
{
    facts.extend(table, terms, from)?;
    asserted.add_level(assertions)
}

/// Adds an assertion whose term was judged, and what is kept beside the terms from a place on. An `Err`, for want of memory, may leave some of it.
pub(crate) fn add_assertion(
    table: &Table,
    terms: &TermStore,
    from: TermId,
    facts: &mut TermFacts,
    asserted: &mut Asserted,
    assertion: Assertion,
) -> Result<(), AllocError>
    requires { MayExtend table.now terms.now.trees from facts.old.sorts.items facts.old.levels.items }
    ensures ok { OnOk result (asserted.new ≡ on_last (assertion ∷ []) asserted.old) }
    ensures err { OnErr result (asserted.new ≡ asserted.old) }
    ensures extended { OnOk result (AreExtended table.now terms.now.trees facts.new.sorts.items facts.new.levels.items) }
    ensures kept { KeepFirst from facts.old.sorts.items facts.new.sorts.items facts.old.levels.items facts.new.levels.items }
{
    facts.extend(table, terms, from)?;
    asserted.add(assertion)
}
