//! The tables of the declared functions, filled with the applications that are kept.
ghost use Rattle.std.specs.Prelude.{◌≡◌, ◌<◌, ◌+◌, ◌^◌, ◌≤◌, length, map, All, IfOk, OnOk};
ghost use Rattle.model_build.specs.Given.{given_at, IsApplication};
ghost use Rattle.model_build.specs.Keys.{symbol_at};
ghost use Rattle.model_build.specs.Filling.{value_of, default_of, with_place, table_of, tables_of};

use crate::Given;
use crate::applications::{Application, application_at, has_past};
use smt_meaning::{Declaration, Interp, Row, Seq, Sort, Table, TermId, Value};
use std::alloc::{AllocError, Global};
use term_store::{HashIndex, TermStore};

fn value_of(given: Given) -> Value
    ensures { result ≡ value_of given }
{
    match given {
        Given::InRange(value) => value,
        Given::Unmarked | Given::PastRange => Value::Truth(false),
    }
}

/// A value of the sort.
fn default_of(sort: Sort) -> Value
    ensures { result ≡ default_of sort }
{
    match sort {
        Sort::Bool => Value::Truth(false),
        Sort::Int => Value::Whole(0),
        Sort::Free(_) => Value::Element(0),
    }
}

/// The values that these places are given.
fn values_of(alloc: Global, given: &[Given], places: &[TermId]) -> Result<Vec<Value>, AllocError>
    requires { All (λ i. i < length given.now) places.now }
    ensures { IfOk result (λ vs. vs.items ≡ map value_of (map (given_at given.now) places.now)) }
{
    let mut values = Vec::new(alloc);
    for place in places {
        values.push(value_of(given[*place as usize]))?;
    }
    Ok(values)
}

/// Puts the value of the application at a place into a table: into a row, or as the default for no arguments and for those past the range.
fn put(
    alloc: Global,
    store: &TermStore,
    given: &[Given],
    place: TermId,
    table: &mut Table,
) -> Result<(), AllocError>
    requires size { length given.now ≡ length store.now.trees }
    requires application { IsApplication store.now.trees given.now (symbol_at store.now.trees place) place }
    ensures { OnOk result (table.new ≡ with_place store.now.trees given.now place table.old) }
{
    let value = value_of(given[place as usize]);
    let Some(Application { arguments, .. }) = application_at(store, given, place) else {
        return Ok(());
    };
    if arguments.is_empty() || has_past(given, arguments) {
        table.default = value;
        return Ok(());
    }
    let values = values_of(alloc, given, arguments)?;
    table.rows.push(Row {
        arguments: Seq::from_vec(values),
        value,
    })
}

/// The symbols of the applications at these places.
fn symbols_of(
    alloc: Global,
    store: &TermStore,
    given: &[Given],
    firsts: &[TermId],
) -> Result<HashIndex, AllocError>
    requires size { length given.now ≡ length store.now.trees }
    requires few { length firsts.now < 2 ^ 32 }
    requires applications { All (λ p. IsApplication store.now.trees given.now (symbol_at store.now.trees p) p) firsts.now }
    ensures { IfOk result (λ symbols. symbols ≡ map (symbol_at store.now.trees) firsts.now) }
{
    let mut symbols = HashIndex::new(alloc);
    for place in firsts {
        if let Some(application) = application_at(store, given, *place) {
            symbols.push(application.symbol)?;
        }
    }
    Ok(symbols)
}

/// The table of a declared function.
fn table_of(
    alloc: Global,
    store: &TermStore,
    given: &[Given],
    firsts: &[TermId],
    symbols: &HashIndex,
    declaration: &Declaration,
) -> Result<Table, AllocError>
    requires size { length given.now ≡ length store.now.trees }
    requires applications { All (λ p. IsApplication store.now.trees given.now (symbol_at store.now.trees p) p) firsts.now }
    requires symbols { symbols.now ≡ map (symbol_at store.now.trees) firsts.now }
    ensures { IfOk result (λ t. t ≡ table_of store.now.trees given.now firsts.now declaration.now) }
{
    let mut table = Table {
        symbol: declaration.id(),
        rows: Seq::new(alloc),
        default: default_of(declaration.rank().result),
    };
    let mut link = symbols.last(table.symbol);
    while link > 0 {
        let at = (link - 1) as usize;
        put(alloc, store, given, firsts[at], &mut table)?;
        link = symbols.before(at);
    }
    Ok(table)
}

/// The tables of the declared functions, in order.
pub(crate) fn tables_of(
    alloc: Global,
    store: &TermStore,
    given: &[Given],
    firsts: &[TermId],
    declarations: &[Declaration],
) -> Result<Interp, AllocError>
    requires size { length given.now ≡ length store.now.trees }
    requires few { length firsts.now < 2 ^ 32 }
    requires applications { All (λ p. IsApplication store.now.trees given.now (symbol_at store.now.trees p) p) firsts.now }
    ensures { IfOk result (λ ts. ts ≡ tables_of store.now.trees given.now firsts.now declarations.now) }
{
    let symbols = symbols_of(alloc, store, given, firsts)?;
    let mut tables = Vec::with_capacity(alloc, declarations.len())?;
    for declaration in declarations {
        if declaration.is_symbol() {
            tables.push(table_of(alloc, store, given, firsts, &symbols, declaration)?)?;
        }
    }
    Ok(Seq::from_vec(tables))
}
