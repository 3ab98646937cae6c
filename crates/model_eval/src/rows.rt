//! The rows of a table, found by a hash of their arguments.
//!
//! Why the term store's index of hashes and not a map keyed by a list of values: that index has the
//! contract that is needed, the value types need no hash of their own, and no key is copied.
ghost use Rattle.std.specs.Prelude.{◌≡◌, ◌+◌, ◌<◌, ◌^◌, length, slice_get, IfOk, IfSome};
ghost use Rattle.smt_meaning.specs.Interpretation.{same_values, look};
ghost use Rattle.model_eval.specs.Rows.{values_state, values_hash, row_hashes, is_scanned};

use crate::operators::same;
use smt_meaning::{Row, Table, Value};
use std::alloc::{AllocError, Global};
use term_store::{HashIndex, mix_value};

fn same_list(a: &[Value], b: &[Value]) -> bool
    ensures { result ≡ same_values a.now b.now }
{
    if a.len() != b.len() {
        return false;
    }
    for i in 0..a.len() {
        if !same(a[i], b[i]) {
            return false;
        }
    }
    true
}

fn with_values(start: u64, values: &[Value]) -> u64
    ensures { result ≡ values_state start values.now }
{
    let mut state = start;
    for value in values {
        state = mix_value(state, *value);
    }
    state
}

/// The hash of a list of values. Equal lists have equal hashes.
fn hash_of(values: &[Value]) -> u32
    ensures { result ≡ values_hash values.now }
{
    (with_values(1, values) >> 32) as u32
}

/// The hash of a row's arguments.
fn hash_at(rows: &[Row], place: usize) -> u32
    requires { place < length rows.now }
    ensures { IfSome (slice_get rows.now place) (λ r. result ≡ values_hash r.arguments) }
{
    hash_of(rows[place].arguments.as_slice())
}

/// The hashes of the rows, the last row's first, so that of equal rows the first is found.
pub(crate) fn hashed(alloc: Global, rows: &[Row]) -> Result<HashIndex, AllocError>
    requires { length rows.now + 1 < 2 ^ 32 }
    ensures { IfOk result (λ hashes. hashes ≡ row_hashes rows.now) }
{
    let mut index = HashIndex::new(alloc);
    let mut left = rows.len();
    while left > 0 {
        left -= 1;
        index.push(hash_at(rows, left))?;
    }
    Ok(index)
}

/// Whether rows of this number are scanned.
pub(crate) fn scanned(count: usize) -> bool
    ensures { result ≡ is_scanned count }
{
    count < 8 || count > 0xffff_fffe
}

/// The value of the first row with these arguments, by a scan.
fn scan(rows: &[Row], default: Value, arguments: &[Value]) -> Value
    ensures { result ≡ look rows.now default arguments.now }
{
    for row in rows {
        if same_list(arguments, row.arguments.as_slice()) {
            return row.value;
        }
    }
    default
}

/// The value of the first row with these arguments, by their hash.
fn find(rows: &[Row], index: &HashIndex, default: Value, arguments: &[Value]) -> Value
    requires { index.now ≡ row_hashes rows.now }
    ensures { result ≡ look rows.now default arguments.now }
{
    let mut link = index.last(hash_of(arguments));
    while link > 0 {
        let row = &rows[rows.len() - link as usize];
        if same_list(arguments, row.arguments.as_slice()) {
            return row.value;
        }
        link = index.before((link - 1) as usize);
    }
    default
}

/// The value of a function at these arguments, by an index of its rows or by a scan.
pub(crate) fn value_in(table: &Table, index: Option<&HashIndex>, arguments: &[Value]) -> Value
    requires { IfSome index (λ i. i.now ≡ row_hashes table.now.rows) }
    ensures { result ≡ look table.now.rows table.now.default arguments.now }
{
    let rows = table.rows.as_slice();
    match index {
        Some(index) => find(rows, index, table.default, arguments),
        None => scan(rows, table.default, arguments),
    }
}
