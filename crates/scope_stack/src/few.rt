//! The terms of a stack's assertions alone.
ghost use Rattle.std.specs.Prelude.{◌≡◌, ◌+◌, ◌≤◌, ◌<◌, length, IfOk, IfSome};
ghost use Rattle.scope_stack.specs.Facts.{HaveGivenSymbols};
ghost use Rattle.scope_stack.specs.Seen.{AreAssertions, IsFew};

use crate::asserted::Asserted;
use crate::copy::{copy_terms, find_needed};
use crate::facts::TermFacts;
use crate::term_set::TermSet;
use smt_sorts::Table;
use std::alloc::{AllocError, Global};
use term_store::TermStore;

/// Terms, with what is kept beside them, and assertions that are made of them.
#[derive(Drop)]
pub(crate) struct Few {
    pub terms: TermStore,
    pub asserted: Asserted,
    pub facts: TermFacts,
}

/// The terms of the assertions alone, and the same assertions by their new places. `None` where they are most of the terms. It costs no more than these terms and those that were added since the last time. An `Err` is for want of memory.
pub(crate) fn few_terms(
    alloc: Global,
    table: &Table,
    terms: &TermStore,
    asserted: &Asserted,
    needed: &mut TermSet,
) -> Result<Option<Few>, AllocError>
    requires assertions { AreAssertions table.now terms.now asserted.now }
    requires given { HaveGivenSymbols table.now.given terms.now.trees }
    ensures { IfOk result (λ found. IfSome found (λ f. IsFew table.now terms.now.trees asserted.now f.terms f.asserted f.facts.sorts.items f.facts.levels.items)) }
{
    let most = terms.len() as usize / 2;
    let few = find_needed(needed, terms, asserted.all(), most)?;
    if !few {
        return Ok(None);
    }
    let Some(copies) = copy_terms(alloc, terms, needed)? else {
        return Ok(None);
    };
    let Some(moved) = asserted.moved(alloc, terms, &copies, needed)? else {
        return Ok(None);
    };
    let mut facts = TermFacts::new(alloc);
    facts.extend(table, &copies, 0)?;
    Ok(Some(Few {
        terms: copies,
        asserted: moved,
        facts,
    }))
}
