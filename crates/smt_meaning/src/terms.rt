//! The heads of terms: numerals, operators of the theories Core and Ints, symbols by their numbers.
//!
//! Operators have one numbering (`operator_number`), which the hash, the test for equal trees and
//! the stored form of trees share.
use crate::values::SymId;

/// A term's place in the list of trees that its stack keeps, from 0.
pub type TermId = u32;

/// An operator of the theories Core and Ints.
#[derive(Clone, Copy, PartialEq, Eq, Debug, Drop)]
pub enum Operator {
    True,
    False,
    Not,
    And,
    Or,
    Xor,
    /// `=>`
    Implies,
    /// `=`
    Equal,
    Distinct,
    /// `ite`
    Ite,
    /// `+`
    Add,
    /// `-`, with one argument the negation
    Subtract,
    /// `*`
    Multiply,
    /// `<=`
    AtMost,
    /// `<`
    Less,
    /// `>=`
    AtLeast,
    /// `>`
    Greater,
    /// `div`, by one divisor
    Divide,
    /// `mod`
    Modulo,
    /// `abs`
    Absolute,
    /// `(_ divisible n)`, with the numeral n as the second argument
    Divisible,
}

/// What stands at the head of a term.
#[derive(Clone, Copy, PartialEq, Eq, Debug, Drop)]
pub enum Head {
    /// A numeral, or a number that a value stands for.
    Numeral(i128),
    /// An operator of a theory.
    Theory(Operator),
    /// A declared function symbol.
    Symbol(SymId),
    /// A parameter of a definition, by its place.
    Place(u32),
}
