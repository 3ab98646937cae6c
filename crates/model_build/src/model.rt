//! Tables of what places are given.
ghost use Rattle.std.specs.Prelude.{IfOk};
ghost use Rattle.smt_meaning.specs.Stack.{signature_of};
ghost use Rattle.model_build.specs.Building.{AreGiven};
ghost use Rattle.model_build.specs.Modelled.{IsModelled};

use crate::firsts::{Firsts, collect};
use crate::{Clash, Given, tables_from};
use scope_stack::Stack;
use smt_meaning::Interp;
use std::alloc::{AllocError, Global};

/// What is made of what places are given.
#[derive(Drop)]
pub enum Modelled {
    /// Two applications of one function that are given different values, while no table can tell their arguments apart.
    Clash(Clash),
    /// A table for each declared function, in order.
    Tables(Interp),
}

/// Tables for the stack's declarations under which each marked term has what it is given, where each term that is no application of a declared function
/// has its operator's value; or, exactly where there are two, two applications that no tables give what they are given. An `Err` is for want of memory.
pub fn model_from(alloc: Global, stack: &Stack, given: &[Given]) -> Result<Modelled, AllocError>
    requires { AreGiven (signature_of stack.now.frames) stack.now.trees given.now }
    ensures { IfOk result (IsModelled (signature_of stack.now.frames) stack.now.trees given.now) }
{
    stack.laws();
    let store = stack.terms();
    let mut firsts = Firsts::new(alloc);
    if let Some(clash) = collect(store, given, &mut firsts)? {
        return Ok(Modelled::Clash(clash));
    }
    let tables = tables_from(alloc, store, stack.declarations(), given, &firsts.places)?;
    Ok(Modelled::Tables(tables))
}
