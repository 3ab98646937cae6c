//! Assertions by levels.
ghost use Rattle.std.specs.Prelude.{◌≡◌, ◌+◌, ◌-◌, ◌<◌, ◌++◌, ◌∷◌, [], length, take, replicate, map, All, IfOk, IfSome, OnOk, OnErr, slice_index, if◌then◌else◌};
ghost use Rattle.smt_meaning.specs.Keeping.{kept_from};
ghost use Rattle.scope_stack.specs.Trials.{marks, kept_levels, AreCounts};
ghost use Rattle.scope_stack.specs.Inside.{asserted_by, IsWithin};
ghost use Rattle.scope_stack.specs.Pieces.{all_of, on_last};
ghost use Rattle.scope_stack.specs.Seen.{AreCopies, AreMoved};

use crate::answers::Assertion;
use crate::term_set::TermSet;
use std::alloc::{AllocError, Global};
use std::marker::Model;
use term_store::TermStore;

/// The assertions of each level, level 0 first. There is a level at least.
#[derive(Drop)]
pub struct Asserted {
    items: Vec<Assertion>,
    /// For each level but level 0: how many assertions stand below it.
    starts: Vec<usize>,
}

impl Model for Asserted {
    ghost use Rattle.std.specs.Prelude.{List, length};
    ghost use Rattle.scope_stack.specs.declared.answers.Assertion.{Assertion};

    ghost Value = { List (List Assertion) };

    ghost use Rattle.scope_stack.specs.Pieces.{pieces, AreCuts};

    ghost view = { λ a. pieces 0 a.items.items a.starts.items };

    ghost invariant = { λ a. AreCuts 0 (length a.items.items) a.starts.items };
}

fn extend(starts: &mut Vec<usize>, count: usize, start: usize) -> Result<(), AllocError>
    ensures ok { OnOk result (starts.new.items ≡ starts.old.items ++ replicate count start) }
    ensures err { OnErr result (starts.new.items ≡ starts.old.items) }
{
    starts.reserve(count)?;
    for _ in 0..count {
        starts.push_reserved(start);
    }
    Ok(())
}

/// The assertions, where the term at each place has moved to that of its copy. `None` where one has no copy.
fn move_all(
    alloc: Global,
    assertions: &[Assertion],
    terms: &TermStore,
    copies: &TermStore,
    needed: &TermSet,
) -> Result<Option<Vec<Assertion>>, AllocError>
    requires within { All (IsWithin terms.now.trees) assertions.now }
    requires terms { length needed.now.places.items ≡ length terms.now.trees }
    requires copies { AreCopies terms.now.trees copies.now.trees needed.now.members.items }
    ensures same { IfOk result (λ found. IfSome found (λ v. map (asserted_by copies.now.trees) v.items ≡ map (asserted_by terms.now.trees) assertions.now)) }
    ensures within { IfOk result (λ found. IfSome found (λ v. All (IsWithin copies.now.trees) v.items)) }
{
    let mut moved = Vec::new(alloc);
    for assertion in assertions {
        let Some(place) = needed.place(assertion.term) else {
            return Ok(None);
        };
        if place >= copies.len() {
            return Ok(None);
        }
        let text = assertion.text.copy(alloc)?;
        moved.push(Assertion { text, term: place })?;
    }
    Ok(Some(moved))
}

/// How many of one are kept.
fn one_if(kept: bool) -> usize
    ensures { result ≡ (if kept then 1 else 0) }
{
    usize::from(kept)
}

/// For each number of marks from 0 on, how many of the first ones are true.
fn counts_of(alloc: Global, kept: &[bool]) -> Result<Vec<usize>, AllocError>
    ensures { IfOk result (λ v. AreCounts kept.now v.items) }
{
    let mut counts = Vec::new(alloc);
    let mut count = 0;
    counts.push(count)?;
    for place in 0..kept.len() {
        count += one_if(kept[place]);
        counts.push(count)?;
    }
    Ok(counts)
}

/// Copies an assertion, if it is kept.
fn copy_if(
    alloc: Global,
    copies: &mut Vec<Assertion>,
    assertion: &Assertion,
    kept: bool,
) -> Result<(), AllocError>
    ensures { OnOk result (copies.new.items ≡ (if kept then copies.old.items ++ assertion.now ∷ [] else copies.old.items)) }
{
    if !kept {
        return Ok(());
    }
    let text = assertion.text.copy(alloc)?;
    copies.push(Assertion {
        text,
        term: assertion.term,
    })?;
    Ok(())
}

/// Copies of the assertions that are kept.
fn copy_kept(
    alloc: Global,
    assertions: &[Assertion],
    kept: &[bool],
) -> Result<Vec<Assertion>, AllocError>
    requires { length kept.now ≡ length assertions.now }
    ensures { IfOk result (λ v. v.items ≡ kept_from (marks kept.now) 0 assertions.now) }
{
    let mut copies = Vec::new(alloc);
    for place in 0..assertions.len() {
        copy_if(alloc, &mut copies, &assertions[place], kept[place])?;
    }
    Ok(copies)
}

/// Where the levels start that started at these places, by the counts of what is kept before each.
fn starts_by(alloc: Global, starts: &[usize], counts: &[usize]) -> Result<Vec<usize>, AllocError>
    requires { All (λ s. s < length counts.now) starts.now }
    ensures { IfOk result (λ v. v.items ≡ map (slice_index counts.now) starts.now) }
{
    let mut moved = Vec::new(alloc);
    for start in starts {
        moved.push(counts[*start])?;
    }
    Ok(moved)
}

impl Asserted {
    /// No assertion, on level 0. It takes no memory.
    pub fn new(alloc: Global) -> Self
        ensures { result ≡ [] ∷ [] }
    {
        Asserted {
            items: Vec::new(alloc),
            starts: Vec::new(alloc),
        }
    }

    /// How many levels stand above level 0.
    pub fn depth(&self) -> usize
        ensures { length self.now ≡ result + 1 }
    {
        self.starts.len()
    }

    /// The assertions of all levels, in order.
    pub fn all(&self) -> &[Assertion]
        ensures { result.now ≡ all_of self.now }
    {
        self.items.as_slice()
    }

    /// The newest level gains an assertion. An `Err`, for want of memory, changes nothing.
    pub fn add(&mut self, assertion: Assertion) -> Result<(), AllocError>
        ensures ok { OnOk result (self.new ≡ on_last (assertion ∷ []) self.old) }
        ensures err { OnErr result (self.new ≡ self.old) }
    {
        self.items.push(assertion)?;
        Ok(())
    }

    /// Adds a level with these assertions. An `Err`, for want of memory, changes nothing.
    pub fn add_level(&mut self, assertions: Vec<Assertion>) -> Result<(), AllocError>
        ensures ok { OnOk result (self.new ≡ self.old ++ assertions.items ∷ []) }
        ensures err { OnErr result (self.new ≡ self.old) }
    {
        let start = self.items.len();
        let mut assertions = assertions;
        self.starts.reserve(1)?;
        self.items.append(&mut assertions)?;
        self.starts.push_reserved(start);
        Ok(())
    }

    /// Adds so many levels. An `Err`, for want of memory, changes nothing.
    pub fn push(&mut self, levels: usize) -> Result<(), AllocError>
        ensures ok { OnOk result (self.new ≡ self.old ++ replicate levels []) }
        ensures err { OnErr result (self.new ≡ self.old) }
    {
        extend(&mut self.starts, levels, self.items.len())?;
        Ok(())
    }

    /// Takes so many levels away, the newest ones, with their assertions. It takes no memory.
    pub fn pop(&mut self, levels: usize)
        requires { levels < length self.old }
        ensures { self.new ≡ take (length self.old - levels) self.old }
    {
        if levels > 0 {
            let kept = self.starts.len() - levels;
            let start = self.starts[kept];
            self.starts.truncate(kept);
            self.items.truncate(start);
        }
    }

    /// Takes every assertion and every level but level 0 away. It takes no memory.
    pub fn clear(&mut self)
        ensures { self.new ≡ [] ∷ [] }
    {
        self.items.clear();
        self.starts.clear();
    }

    /// Copies of the assertions that are kept, by levels.
    pub(crate) fn kept(&self, alloc: Global, kept: &[bool]) -> Result<Asserted, AllocError>
        requires { length kept.now ≡ length (all_of self.now) }
        ensures { IfOk result (λ a. a ≡ kept_levels (marks kept.now) 0 self.now) }
    {
        let counts = counts_of(alloc, kept)?;
        let items = copy_kept(alloc, &self.items, kept)?;
        let starts = starts_by(alloc, &self.starts, &counts)?;
        Ok(Asserted { items, starts })
    }

    /// The same assertions by levels, where the term at each place has moved to that of its copy. `None` where one has no copy.
    pub(crate) fn moved(
        &self,
        alloc: Global,
        terms: &TermStore,
        copies: &TermStore,
        needed: &TermSet,
    ) -> Result<Option<Asserted>, AllocError>
        requires within { All (IsWithin terms.now.trees) (all_of self.now) }
        requires terms { length needed.now.places.items ≡ length terms.now.trees }
        requires copies { AreCopies terms.now.trees copies.now.trees needed.now.members.items }
        ensures { IfOk result (λ found. IfSome found (AreMoved terms.now.trees copies.now.trees self.now)) }
    {
        let Some(items) = move_all(alloc, &self.items, terms, copies, needed)? else {
            return Ok(None);
        };
        let starts = self.starts.to_vec(alloc)?;
        Ok(Some(Asserted { items, starts }))
    }
}
