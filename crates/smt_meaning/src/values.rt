//! Sorts, values, and interpretations as lists of finite tables.
//!
//! Interpretations are lists of tables, one for each declared symbol in the order of declaration. A
//! constant's number is its place in that order.
//!
//! The value of a term with parameters is the one value function (`value_with`); the value of a
//! term without is the case of no parameters. So Tarski's clauses stand once. In an interpretation
//! a truth value where a number is asked for counts as 0, and a number where a truth value is asked
//! for as false. Well-sorted terms never ask so.
ghost use Rattle.std.specs.Prelude.{◌≡◌, IfOk};

use crate::seq::Seq;
use std::alloc::{AllocError, Global};

/// The number of a declared symbol, in the order of declaration, from 0.
pub type SymId = u32;

/// A sort (SMT-LIB 2.6, section 3.5).
#[derive(Clone, Copy, PartialEq, Eq, Debug, Drop)]
pub enum Sort {
    Bool,
    Int,
    /// A declared sort.
    Free(SymId),
}

/// A value of a sort.
#[derive(Clone, Copy, PartialEq, Eq, Debug, Drop)]
pub enum Value {
    Truth(bool),
    Whole(i128),
    /// An element of a declared sort. Equal numbers stand for one element.
    Element(u64),
}

/// The value at a list of arguments.
#[derive(Drop)]
pub struct Row {
    pub arguments: Seq<Value>,
    pub value: Value,
}

/// A function: its rows, and the default at other arguments.
#[derive(Drop)]
pub struct Table {
    pub symbol: SymId,
    pub rows: Seq<Row>,
    pub default: Value,
}

/// An interpretation: a table for each declared function symbol, in the order of declaration.
pub type Interp = Seq<Table>;

impl Seq<Table> {
    /// An interpretation of its own with the same tables.
    pub fn copy_tables(&self, alloc: Global) -> Result<Interp, AllocError>
        ensures { IfOk result (λ i. i ≡ self.now) }
    {
        let mut copies = Vec::new(alloc);
        for table in self.as_slice() {
            let rows = copy_rows(alloc, table.rows.as_slice())?;
            copies.push(Table {
                symbol: table.symbol,
                rows: Seq::from_vec(rows),
                default: table.default,
            })?;
        }
        Ok(Seq::from_vec(copies))
    }
}

fn copy_rows(alloc: Global, rows: &[Row]) -> Result<Vec<Row>, AllocError>
    ensures { IfOk result (λ v. v.items ≡ rows.now) }
{
    let mut copies = Vec::new(alloc);
    for row in rows {
        let arguments = Vec::from_slice(alloc, row.arguments.as_slice())?;
        copies.push(Row {
            arguments: Seq::from_vec(arguments),
            value: row.value,
        })?;
    }
    Ok(copies)
}
