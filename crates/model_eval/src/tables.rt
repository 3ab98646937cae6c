//! The value that a function of an interpretation has at some arguments.
//!
//! Why: each call makes an index of the interpretation's tables by symbol. A table of 8 rows or
//! more is filed once a call by the hash of each row's arguments, and fewer rows are looked through
//! in order, since a hash costs more than a few comparisons, and most functions have few rows.
ghost use Rattle.std.specs.Prelude.{◌≡◌, ◌<◌, ◌≤◌, ℕ, Some, length, take, drop, All, nat_eq, slice_get, IfOk, OnOk, IfSome, IsTrue, MatchOption};
ghost use Rattle.std.specs.HashMap.{get};
ghost use Rattle.smt_meaning.specs.declared.values.Table.{Table as TableValue};
ghost use Rattle.smt_meaning.specs.Interpretation.{meaning};
ghost use Rattle.model_eval.specs.Rows.{row_hashes};
ghost use Rattle.model_eval.specs.Tables.{first_place, place_with, Ascend, ArePlaces, AreIndexes};

use crate::rows::{hashed, scanned, value_in};
use smt_meaning::{Interp, SymId, Table, Value};
use std::alloc::{AllocError, Global};
use std::collections::HashMap;
use std::marker::Model;
use term_store::HashIndex;

/// The tables of an interpretation, each found by its symbol, and indexes of the rows of those that have many.
#[derive(Drop)]
pub(crate) struct Tables<'a> {
    tables: &'a [Table],
    /// None where the symbols ascend: a table is then found by binary search, and its place takes no memory.
    places: Option<HashMap<SymId, usize>>,
    indexes: HashMap<usize, HashIndex>,
}

impl<'a> Model for Tables<'a> {
    ghost use Rattle.std.specs.Prelude.{List, MatchOption, nat_eq};
    ghost use Rattle.std.specs.HashMap.{get};
    ghost use Rattle.smt_meaning.specs.declared.values.Table.{Table as TableValue};
    ghost use Rattle.model_eval.specs.Tables.{Ascend, ArePlaces, AreIndexes};

    ghost Value = { List TableValue };

    ghost view = { λ s. s.tables.now };

    ghost invariant = { λ s. MatchOption s.places (Ascend s.tables.now) (λ m. ArePlaces s.tables.now (get nat_eq m)) × AreIndexes s.tables.now (get nat_eq s.indexes) };
}

impl<'a> Tables<'a> {
    pub(crate) fn new(alloc: Global, interp: &'a Interp) -> Result<Self, AllocError>
        ensures { IfOk result (λ t. t ≡ interp.now) }
    {
        let tables = interp.as_slice();
        let places = places_of(alloc, tables)?;
        let indexes = indexes_of(alloc, tables)?;
        Ok(Tables {
            tables,
            places,
            indexes,
        })
    }
}

/// Whether the symbols of the tables ascend.
fn ascend(tables: &[Table]) -> bool
    ensures { IsTrue result → Ascend tables.now }
{
    let mut next: u64 = 0;
    for i in 0..tables.len() {
        let symbol = table_at(tables, i).symbol as u64;
        if symbol < next {
            return false;
        }
        next = symbol + 1;
    }
    true
}

/// Notes the place of a table, unless its symbol has one already.
fn note(places: &mut HashMap<SymId, usize>, symbol: SymId, place: usize) -> Result<(), AllocError>
    ensures { OnOk result ((q : ℕ) →
        get nat_eq places.new q ≡ place_with (get nat_eq places.old q) (nat_eq symbol q) place) }
{
    if places.contains_key(&symbol) {
        return Ok(());
    }
    match places.insert(symbol, place) {
        Ok(_) => Ok(()),
        Err(e) => Err(AllocError::from(e)),
    }
}

/// The place of the first table of each symbol.
fn noted(alloc: Global, tables: &[Table]) -> Result<HashMap<SymId, usize>, AllocError>
    ensures { IfOk result (λ m. ArePlaces tables.now (get nat_eq m)) }
{
    let mut places = HashMap::new(alloc);
    for i in 0..tables.len() {
        note(&mut places, table_at(tables, i).symbol, i)?;
    }
    Ok(places)
}

/// The place of the first table of each symbol, unless the symbols ascend.
fn places_of(alloc: Global, tables: &[Table]) -> Result<Option<HashMap<SymId, usize>>, AllocError>
    ensures { IfOk result (λ o. MatchOption o (Ascend tables.now) (λ m. ArePlaces tables.now (get nat_eq m))) }
{
    if ascend(tables) {
        return Ok(None);
    }
    Ok(Some(noted(alloc, tables)?))
}

/// Keeps the index of the rows of the table at a place, unless they are scanned.
fn keep(
    alloc: Global,
    indexes: &mut HashMap<usize, HashIndex>,
    tables: &[Table],
    place: usize,
) -> Result<(), AllocError>
    requires within { place < length tables.now }
    requires indexed { AreIndexes tables.now (get nat_eq indexes.old) }
    ensures { OnOk result (AreIndexes tables.now (get nat_eq indexes.new)) }
{
    let rows = table_at(tables, place).rows.as_slice();
    if scanned(rows.len()) {
        return Ok(());
    }
    let index = hashed(alloc, rows)?;
    match indexes.insert(place, index) {
        Ok(_) => Ok(()),
        Err(e) => Err(AllocError::from(e)),
    }
}

/// The indexes of the rows that aren't scanned, by the places of their tables.
fn indexes_of(alloc: Global, tables: &[Table]) -> Result<HashMap<usize, HashIndex>, AllocError>
    ensures { IfOk result (λ m. AreIndexes tables.now (get nat_eq m)) }
{
    let mut indexes = HashMap::new(alloc);
    for i in 0..tables.len() {
        keep(alloc, &mut indexes, tables, i)?;
    }
    Ok(indexes)
}

fn table_at(tables: &[Table], place: usize) -> &Table
    requires { place < length tables.now }
    ensures { slice_get tables.now place ≡ Some result.now }
{
    &tables[place]
}

/// How many of the first tables have a symbol below this one.
fn below(tables: &[Table], symbol: SymId) -> usize
    requires { Ascend tables.now }
    ensures within { result ≤ length tables.now }
    ensures below { All (λ (t : TableValue). t.symbol < symbol) (take result tables.now) }
    ensures above { All (λ (t : TableValue). symbol ≤ t.symbol) (drop result tables.now) }
{
    tables.partition_point(|table| table.symbol < symbol)
}

/// The place of the table of a symbol, where symbols ascend.
fn binary_search(tables: &[Table], symbol: SymId) -> Option<usize>
    requires { Ascend tables.now }
    ensures { result ≡ first_place tables.now symbol }
{
    let place = below(tables, symbol);
    if place == tables.len() {
        return None;
    }
    if table_at(tables, place).symbol == symbol {
        Some(place)
    } else {
        None
    }
}

/// The place that is noted for a symbol.
fn place_in(places: &HashMap<SymId, usize>, symbol: SymId) -> Option<usize>
    ensures { result ≡ get nat_eq places.now symbol }
{
    match places.get(&symbol) {
        Some(place) => Some(*place),
        None => None,
    }
}

/// The place of the first table of a symbol.
fn place_of(
    tables: &[Table],
    places: &Option<HashMap<SymId, usize>>,
    symbol: SymId,
) -> Option<usize>
    requires { MatchOption places.now (Ascend tables.now) (λ m. ArePlaces tables.now (get nat_eq m)) }
    ensures { result ≡ first_place tables.now symbol }
{
    match places {
        Some(places) => place_in(places, symbol),
        None => binary_search(tables, symbol),
    }
}

/// The index of the rows of the table at a place, if one is kept.
fn index_at<'a>(
    indexes: &'a HashMap<usize, HashIndex>,
    tables: &[Table],
    place: usize,
) -> Option<&'a HashIndex>
    requires within { place < length tables.now }
    requires indexed { AreIndexes tables.now (get nat_eq indexes.now) }
    ensures { IfSome result (λ index. IfSome (slice_get tables.now place) (λ t. index.now ≡ row_hashes t.rows)) }
{
    if scanned(table_at(tables, place).rows.as_slice().len()) {
        return None;
    }
    indexes.get(&place)
}

/// The value of a function symbol at these arguments.
pub(crate) fn look_up(tables: &Tables<'_>, symbol: SymId, arguments: &[Value]) -> Value
    ensures { result ≡ meaning tables.now symbol arguments.now }
{
    match place_of(tables.tables, &tables.places, symbol) {
        Some(place) => {
            let table = table_at(tables.tables, place);
            value_in(
                table,
                index_at(&tables.indexes, tables.tables, place),
                arguments,
            )
        }
        None => Value::Truth(false),
    }
}
