//! The linear forms of the terms of a store, by their places.
//!
//! Why: a numeral of the store may be any number of 128 bits, -2^127 among them, which is outside
//! the range: by the definition its own form fits, and what adds it is judged exactly. So linear
//! forms are folded by checked steps over all of these numbers. Forms are folded for all terms of
//! the store up to the last one, asked for or not.
ghost use Rattle.std.specs.Prelude.{◌≡◌, ◌+◌, ◌<◌, ◌≤◌, ◌++◌, [], ◌∷◌, length, max, take, All, OnOk, OnErr, IfOk, IfErr, IfSome, IfNone, Some, None};
ghost use Rattle.term_store.specs.Terms.{AreDifferent};
ghost use Rattle.linear_forms.specs.Folding.{form_of};
ghost use Rattle.linear_forms.specs.Table.{known_at, AreForms, AreFormsTo, HasFormsTo};
ghost use Rattle.linear_forms.specs.Entries.{knowns, AreLaid, AreSums, IsReady, IsTable, HasOutside, IsFoldedNext};

use crate::coefficients::Stop;
use crate::differences::{DifferenceError, difference};
use crate::entries::{Entry, LinearForm, form_at};
use crate::multiples::{Multiple, combine};
use crate::nodes::{Work, fold_node};
use smt_meaning::{Head, Summand, TermId};
use std::alloc::{AllocError, Global};
use std::marker::{Brand, Model};
use std::sync::ledger::{Blank, Ledger};
use term_store::{Steps, TermStore};

/// The form at a place, or the place of the part whose folding leaves the range.
pub(crate) fn look<'a>(
    entries: &[Entry],
    all: &'a [Summand],
    place: usize,
) -> Result<LinearForm<'a>, TermId>
    requires laid { AreLaid (length all.now) entries.now }
    requires place { place < length entries.now }
    ensures ok { IfOk result (λ f. known_at (knowns all.now entries.now) place ≡ record { form = form_of f.sum.now f.constant; outside = None }) }
    ensures err { IfErr result (λ p. (known_at (knowns all.now entries.now) place).outside ≡ Some p) }
{
    match entries[place].outside {
        Some(part) => Err(part),
        None => Ok(form_at(entries, all, place)),
    }
}

/// The part at which the folding of one of these terms leaves the range, if it does.
pub(crate) fn outside_argument(
    entries: &[Entry],
    all: &[Summand],
    arguments: &[TermId],
) -> Option<TermId>
    requires laid { AreLaid (length all.now) entries.now }
    requires places { All (λ i. i < length entries.now) arguments.now }
    ensures some { IfSome result (λ p. HasOutside (knowns all.now entries.now) arguments.now p) }
    ensures none { IfNone result (All (λ i. (known_at (knowns all.now entries.now) i).outside ≡ None) arguments.now) }
{
    for place in arguments {
        if let Err(part) = look(entries, all, *place as usize) {
            return Some(part);
        }
    }
    None
}

/// Adds a sum's summands, and an entry for them. An `Err` changes nothing.
fn append_parts(
    entries: &mut Vec<Entry>,
    all: &mut Vec<Summand>,
    sum: &[Summand],
    constant: i128,
    outside: Option<TermId>,
) -> Result<(), AllocError>
    ensures summands { OnOk result (all.new.items ≡ all.old.items ++ sum.now) }
    ensures entries { OnOk result (entries.new.items ≡ entries.old.items ++ record { start = length all.old.items; end = length all.new.items; constant = constant; outside = outside } ∷ []) }
    ensures err { OnErr result ((all.new.items ≡ all.old.items) × (entries.new.items ≡ entries.old.items)) }
{
    let start = all.len();
    all.extend_from_slice(sum)?;
    let end = all.len();
    let entry = Entry {
        start,
        end,
        constant,
        outside,
    };
    if entries.push(entry).is_err() {
        all.truncate(start);
        return Err(AllocError);
    }
    Ok(())
}

/// Adds what is known of a term. An `Err` changes nothing.
fn append(
    entries: &mut Vec<Entry>,
    all: &mut Vec<Summand>,
    sum: &[Summand],
    constant: i128,
    outside: Option<TermId>,
) -> Result<(), AllocError>
    requires { AreLaid (length all.old.items) entries.old.items }
    ensures laid { AreLaid (length all.new.items) entries.new.items }
    ensures ok { OnOk result (knowns all.new.items entries.new.items ≡ knowns all.old.items entries.old.items ++ record { form = form_of sum.now constant; outside = outside } ∷ []) }
    ensures err { OnErr result (knowns all.new.items entries.new.items ≡ knowns all.old.items entries.old.items) }
{
    append_parts(entries, all, sum, constant, outside)
}

/// Folds the next term, whose arguments' foldings stay in the range. An `Err` changes nothing.
fn add_folded(
    entries: &mut Vec<Entry>,
    all: &mut Vec<Summand>,
    work: &mut Work,
    head: Head,
    arguments: &[TermId],
    place: TermId,
) -> Result<(), AllocError>
    requires laid { AreLaid (length all.old.items) entries.old.items }
    requires ready { IsReady work.old }
    requires size { length entries.old.items ≡ place }
    requires earlier { All (λ i. i < place) arguments.now }
    requires sums { AreSums place (knowns all.old.items entries.old.items) arguments.now }
    ensures laid { AreLaid (length all.new.items) entries.new.items }
    ensures ready { IsReady work.new }
    ensures ok { OnOk result (IsFoldedNext (knowns all.old.items entries.old.items) (knowns all.new.items entries.new.items) head arguments.now place) }
    ensures err { OnErr result (knowns all.new.items entries.new.items ≡ knowns all.old.items entries.old.items) }
{
    match fold_node(entries, all, work, head, arguments, place) {
        Ok(constant) => append(entries, all, &work.sum, constant, None),
        Err(Stop::Range) => append(entries, all, &[], 0, Some(place)),
        Err(Stop::Memory) => Err(AllocError),
    }
}

/// Folds the next term of a list. An `Err` changes nothing.
fn add_place(
    entries: &mut Vec<Entry>,
    all: &mut Vec<Summand>,
    work: &mut Work,
    store: &TermStore,
    place: TermId,
) -> Result<(), AllocError>
    requires laid { AreLaid (length all.old.items) entries.old.items }
    requires ready { IsReady work.old }
    requires place { place < length store.now.trees }
    requires different { AreDifferent store.now.trees }
    requires forms { AreFormsTo store.now.trees place (knowns all.old.items entries.old.items) }
    ensures laid { AreLaid (length all.new.items) entries.new.items }
    ensures ready { IsReady work.new }
    ensures ok { OnOk result (AreFormsTo store.now.trees (place + 1) (knowns all.new.items entries.new.items)) }
    ensures err { OnErr result (knowns all.new.items entries.new.items ≡ knowns all.old.items entries.old.items) }
{
    let node = store.node(place);
    match outside_argument(entries, all, node.arguments) {
        Some(part) => append(entries, all, &[], 0, Some(part)),
        None => add_folded(entries, all, work, node.head, node.arguments, place),
    }
}

/// Folds the first terms of a list from a place on, each in one step. An `Err` keeps what was folded before it.
fn add_all<L: Ledger>(
    entries: &mut Vec<Entry>,
    all: &mut Vec<Summand>,
    work: &mut Work,
    store: &TermStore,
    count: u32,
    steps: &mut Steps<L>,
) -> Result<(), AllocError>
    requires laid { AreLaid (length all.old.items) entries.old.items }
    requires ready { IsReady work.old }
    requires different { AreDifferent store.now.trees }
    requires within { length entries.old.items ≤ length store.now.trees }
    requires count { count ≤ length store.now.trees }
    requires forms { AreFormsTo store.now.trees (length entries.old.items) (knowns all.old.items entries.old.items) }
    ensures laid { AreLaid (length all.new.items) entries.new.items }
    ensures ready { IsReady work.new }
    ensures ok { OnOk result (length entries.new.items ≡ max (length entries.old.items) count) }
    ensures kept { HasFormsTo store.now.trees (length entries.old.items) (knowns all.new.items entries.new.items) }
    ensures rise { steps.old ≤ steps.new }
    ensures few { steps.new + length entries.old.items ≤ steps.old + max (length entries.old.items) count }
    ensures each { steps.old + length entries.new.items ≤ steps.new + length entries.old.items }
    ensures counted { OnOk result (steps.new + length entries.old.items ≡ steps.old + length entries.new.items) }
{
    let _known = store.len();
    for place in entries.len() as u32..count {
        steps.tick();
        add_place(entries, all, work, store, place)?;
    }
    Ok(())
}

/// Folds those of the first terms of a store that aren't known yet, each in one step. An `Err` keeps what was folded before it.
fn cover<L: Ledger>(
    entries: &mut Vec<Entry>,
    all: &mut Vec<Summand>,
    work: &mut Work,
    store: &TermStore,
    count: u32,
    steps: &mut Steps<L>,
) -> Result<(), AllocError>
    requires table { IsTable entries.old.items all.old.items work.old }
    requires forms { AreForms (take (length (knowns all.old.items entries.old.items)) store.now.trees) (knowns all.old.items entries.old.items) }
    requires count { count ≤ length store.now.trees }
    ensures table { IsTable entries.new.items all.new.items work.new }
    ensures ok { OnOk result (length (knowns all.new.items entries.new.items) ≡ max (length (knowns all.old.items entries.old.items)) count) }
    ensures kept { AreForms (take (length (knowns all.new.items entries.new.items)) store.now.trees) (knowns all.new.items entries.new.items) }
    ensures more { length (knowns all.old.items entries.old.items) ≤ length (knowns all.new.items entries.new.items) }
    ensures rise { steps.old ≤ steps.new }
    ensures few { steps.new + length (knowns all.old.items entries.old.items) ≤ steps.old + max (length (knowns all.old.items entries.old.items)) count }
    ensures each { steps.old + length (knowns all.new.items entries.new.items) ≤ steps.new + length (knowns all.old.items entries.old.items) }
    ensures counted { OnOk result (steps.new + length (knowns all.old.items entries.old.items) ≡ steps.old + length (knowns all.new.items entries.new.items)) }
{
    let _known = store.len();
    add_all(entries, all, work, store, count, steps)
}

/// The linear forms of the first terms of a list, by their places, each folded once.
#[derive(Drop)]
pub struct LinearForms {
    entries: Vec<Entry>,
    summands: Vec<Summand>,
    work: Work,
}

impl Model for LinearForms {
    ghost use Rattle.std.specs.Prelude.{List};
    ghost use Rattle.linear_forms.specs.Table.{Known, table_code};

    ghost Value = { List Known };

    ghost coded = { table_code };

    ghost use Rattle.linear_forms.specs.Entries.{knowns, IsTable};

    ghost view = { λ t. knowns t.summands.items t.entries.items };

    ghost invariant = { λ t. IsTable t.entries.items t.summands.items t.work };
}

/// What is kept for the first places.
fn keep(entries: &mut Vec<Entry>, len: usize)
    ensures { entries.new.items ≡ take len entries.old.items }
{
    entries.truncate(len);
}

impl LinearForms {
    ghost use Rattle.std.specs.Prelude.{◌≡◌, ◌+◌, ◌<◌, ◌≤◌, [], length, max, take, List, OnOk, IfOk, IfErr};
    ghost use Rattle.smt_meaning.specs.Term.{Tree};
    ghost use Rattle.linear_forms.specs.Folding.{form_of};
    ghost use Rattle.linear_forms.specs.Table.{AreForms, HasForm, IsOutside};
    ghost use Rattle.linear_forms.specs.Differences.{difference_fits, KnowsForms, IsDifference, Refuses};
    ghost use Rattle.linear_forms.specs.Multiples.{AreMultiples, IsCombination, RefusesMultiples};

    /// Nothing is known. It takes no memory.
    pub fn new(alloc: Global) -> Self
        ensures nothing { result ≡ [] }
        ensures forms { (trees : List Tree) → AreForms (take (length result) trees) result }
    {
        LinearForms {
            entries: Vec::new(alloc),
            summands: Vec::new(alloc),
            work: Work::new(alloc),
        }
    }

    /// The count of terms whose folding is known.
    pub fn len(&self) -> usize
        ensures { result ≡ length self.now }
    {
        self.entries.len()
    }

    /// Folds those of the first so many terms of a store that aren't known yet, where the known ones are its first: a step for each. So where nothing is known,
    /// the form of a term is known after one step more than its number. An `Err`, for want of memory, keeps what was known and perhaps more.
    pub fn cover_counted<L: Ledger>(
        &mut self,
        store: &TermStore,
        count: u32,
        steps: &mut Steps<L>,
    ) -> Result<(), AllocError>
        requires known { AreForms (take (length self.old) store.now.trees) self.old }
        requires count { count ≤ length store.now.trees }
        ensures ok { OnOk result (length self.new ≡ max (length self.old) count) }
        ensures kept { AreForms (take (length self.new) store.now.trees) self.new }
        ensures more { length self.old ≤ length self.new }
        ensures rise { steps.old ≤ steps.new }
        ensures few { steps.new + length self.old ≤ steps.old + max (length self.old) count }
        ensures each { steps.old + length self.new ≤ steps.new + length self.old }
        ensures counted { OnOk result (steps.new + length self.old ≡ steps.old + length self.new) }
    {
        cover(
            &mut self.entries,
            &mut self.summands,
            &mut self.work,
            store,
            count,
            steps,
        )
    }

    /// Folds the terms of a store that aren't known yet, its steps counted from 0.
    fn cover_from<L: Ledger>(&mut self, store: &TermStore, blank: Blank) -> Result<(), AllocError>
        requires name { blank.name ≡ L.name }
        requires parts { blank.parts ≡ L.parts }
        requires some { 0 < blank.parts }
        requires known { AreForms (take (length self.old) store.now.trees) self.old }
        ensures ok { OnOk result (AreForms store.now.trees self.new) }
        ensures kept { AreForms (take (length self.new) store.now.trees) self.new }
        ensures more { length self.old ≤ length self.new }
    {
        self.cover_counted(store, store.len(), &mut Steps::<L>::new(blank))
    }

    /// Folds the terms of a store that aren't known yet, where the known ones are its first. An `Err`, for want of memory, keeps these and perhaps more.
    pub fn cover(&mut self, store: &TermStore) -> Result<(), AllocError>
        requires { AreForms (take (length self.old) store.now.trees) self.old }
        ensures ok { OnOk result (AreForms store.now.trees self.new) }
        ensures kept { AreForms (take (length self.new) store.now.trees) self.new }
        ensures more { length self.old ≤ length self.new }
    {
        self.cover_from::<Brand>(store, Blank::new(1))
    }

    /// Forgets the terms from this place on. It takes no memory.
    pub fn cut(&mut self, len: usize)
        ensures first { self.new ≡ take len self.old }
        ensures forms { (trees : List Tree) → AreForms trees self.old → AreForms (take len trees) self.new }
    {
        keep(&mut self.entries, len);
    }

    /// The form of the term at a place, or, exactly where folding it leaves the range, the place of the part whose own folding does.
    pub fn form(&self, place: TermId) -> Result<LinearForm<'_>, TermId>
        requires { place < length self.now }
        ensures ok { (trees : List Tree) → AreForms trees self.now → IfOk result (λ f. HasForm trees place (form_of f.sum.now f.constant)) }
        ensures err { (trees : List Tree) → AreForms trees self.now → IfErr result (λ p. IsOutside trees place p) }
    {
        look(&self.entries, &self.summands, place as usize)
    }

    /// The difference of the terms at two places, the first less the second: its constant, and in the list, whatever it was before, its sum. An `Err` says
    /// which of the three foldings leaves the range, or that memory is wanting; then nothing is said of the list.
    pub fn difference(
        &mut self,
        left: TermId,
        right: TermId,
        sum: &mut Vec<Summand>,
    ) -> Result<i128, DifferenceError>
        requires left { left < length self.old }
        requires right { right < length self.old }
        requires known { KnowsForms self.old }
        ensures ok { (trees : List Tree) → AreForms trees self.old → IfOk result (λ n. IsDifference trees left right (form_of sum.new.items n)) }
        ensures err { (trees : List Tree) → AreForms trees self.old → IfErr result (λ e. Refuses trees (difference_fits trees) left right e) }
        ensures same { self.new ≡ self.old }
    {
        difference(
            &self.entries,
            &self.summands,
            &mut self.work,
            left,
            right,
            sum,
        )
    }

    /// The sum of multiples of the terms at places, folded from the right: its constant, and in the list, whatever it was before, its sum. An `Err` says at
    /// which part folding one of the terms leaves the range, that folding the sum does (`Pair`), or that memory is wanting; then nothing is said of the list.
    pub fn combine(
        &mut self,
        multiples: &[Multiple],
        sum: &mut Vec<Summand>,
    ) -> Result<i128, DifferenceError>
        requires multiples { AreMultiples (length self.old) multiples.now }
        requires known { KnowsForms self.old }
        ensures ok { (trees : List Tree) → AreForms trees self.old → IfOk result (λ n. IsCombination trees multiples.now (form_of sum.new.items n)) }
        ensures err { (trees : List Tree) → AreForms trees self.old → IfErr result (λ e. RefusesMultiples trees multiples.now e) }
        ensures same { self.new ≡ self.old }
    {
        combine(
            &self.entries,
            &self.summands,
            &mut self.work,
            multiples,
            sum,
        )
    }
}
