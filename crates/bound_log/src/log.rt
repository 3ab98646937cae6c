//! The log, and the calls on it.
ghost use Rattle.std.specs.Prelude.{◌≡◌, ◌+◌, ◌<◌, ◌≤◌, ◌^◌, ◌↔◌, IsTrue, false, [], ◌∷◌, ◌++◌, map, take, length, All, Bool, Contains, List, ℤ, Some, OnOk, OnErr, IfOk, IfErr, IfSome, IfNone};
ghost use Rattle.fraction128.specs.Whole.{InRange};
ghost use Rattle.fraction128.specs.declared.Member.{Member};
ghost use Rattle.fraction128.specs.Grid.{turned};
ghost use Rattle.fraction128.specs.Lines.{IsBranchLine, IsRowIn, IsSoundGrid, NextFails};
ghost use Rattle.simplex_steps.specs.Law.{KeepsResting};
ghost use Rattle.tableau.specs.Failing.{IsRange};
ghost use Rattle.simplex_steps.specs.State.{grid_of};
ghost use Rattle.simplex_steps.specs.Run.{AreWithin, IsRun, KeepsLines};
ghost use Rattle.simplex.specs.State.{KeepsValues};
ghost use Rattle.smt_meaning.specs.declared.clauses.Atom.{Atom};
ghost use Rattle.smt_meaning.specs.declared.clauses.Atom.TheVariants.{AtMost};
ghost use Rattle.smt_meaning.specs.Boxes.{term_at_most};
ghost use Rattle.smt_meaning.specs.CheckAtoms.{IsBoundOf, told};
ghost use Rattle.sum_bounds.specs.Bounds.{leaf_values, sum_fits, IsFirstIn, AreWhole};
ghost use Rattle.sum_bounds.specs.Clauses.{plain};
ghost use Rattle.sum_bounds.specs.Written.{HasLeaf};
ghost use Rattle.bound_log.specs.Told.{column_sums, said_at, told_by, IsKnown, IsPast, IsState, IsTold, IsUndone};
ghost use Rattle.bound_log.specs.Atoms.{SaysNothing, Knows, KnowsTheSame, KnowsOneMore};
ghost use Rattle.bound_log.specs.Columns.{KeepsColumns, AddsColumns};
ghost use Rattle.bound_log.specs.Growth.{GrowsVariables, IsGrown, IsProper, KeepsVariables};
ghost use Rattle.bound_log.specs.Pending.{plain_grid, with_pending, FailsToTake, FailsToTell};
ghost use Rattle.bound_log.specs.Pivots.{AddsPivots};
ghost use Rattle.bound_log.specs.Reporting.{Judges, SpendsRoom, IsClause};
ghost use Rattle.bound_log.specs.declared.said.Said.TheVariants.{Nothing};

use crate::plain::plain_sum;
use crate::report::{Report, Reported, report_of};
use crate::room::shut_out;
use crate::said::{Said, assert, said_of};
use crate::variables::{add_leaf, variable_of};
use congruence::lemma_with;
use fraction128::{Fraction, Grid, Line, Pending, Seq};
use literals::Literal;
use search_port::{Lemma, push_told, start_of};
use simplex::PivotLines;
use smt_meaning::Summand;
use std::alloc::{AllocError, Global};
use std::marker::Model;
use sum_bounds::{
    Checked, FractionalLeaf, SumBounds, conflicts_are_valid, whole_conflicts_are_valid,
};
use tableau::Failure;

/// Adds what the next atom says. More than 2^31 atoms are want of memory; an `Err` changes nothing.
fn add(said: &mut Vec<Said>, one: Said) -> Result<(), AllocError>
    ensures ok { OnOk result (said.new.items ≡ said.old.items ++ one ∷ []) }
    ensures few { OnOk result (length said.new.items ≤ 2 ^ 31) }
    ensures err { OnErr result (said.new.items ≡ said.old.items) }
{
    if said.len() >= 1 << 31 {
        return Err(AllocError);
    }
    said.push(one)?;
    Ok(())
}

/// Tells a literal of which this is said. An `Err` changes nothing.
fn tell_said(
    bounds: &mut SumBounds,
    log: &mut Vec<Literal>,
    starts: &mut Vec<usize>,
    said: Said,
    literal: Literal,
) -> Result<(), Failure>
    requires atom { literal.atom < 2 ^ 31 }
    requires known { IsKnown (length bounds.old.columns) said }
    ensures table { bounds.new.table ≡ bounds.old.table }
    ensures values { KeepsValues bounds.old.columns bounds.new.columns }
    ensures told { OnOk result (bounds.new.told ≡ bounds.old.told ++ told_by said literal) }
    ensures log { OnOk result (log.new.items ≡ log.old.items ++ literal ∷ []) }
    ensures starts { OnOk result (starts.new.items ≡ starts.old.items ++ length bounds.old.told ∷ []) }
    ensures range { IfErr result (λ e. IsRange e → IsPast said literal e) }
    ensures err_bounds { OnErr result (bounds.new ≡ bounds.old) }
    ensures err_log { OnErr result (log.new.items ≡ log.old.items) }
    ensures err_starts { OnErr result (starts.new.items ≡ starts.old.items) }
{
    let start = bounds.len();
    push_told(log, starts, literal, start)?;
    match assert(bounds, said, literal) {
        Ok(()) => Ok(()),
        Err(failure) => {
            let _literal = log.pop();
            let _start = starts.pop();
            Err(failure)
        }
    }
}

/// What atoms say of sums, by number, and the literals told of them, oldest first, with the bounds on sums that they say.
#[derive(Drop)]
pub struct BoundLog {
    bounds: SumBounds,
    said: Vec<Said>,
    starts: Vec<usize>,
    log: Vec<Literal>,
}

impl Model for BoundLog {
    ghost use Rattle.bound_log.specs.Told.{State, IsCore};
    ghost use Rattle.bound_log.specs.Resting.{AreResting};

    ghost Value = { State };

    ghost view = { λ s. record { bounds = s.bounds; said = s.said.items; log = s.log.items } };

    ghost invariant = { λ s. IsCore s.bounds s.said.items s.log.items s.starts.items × AreResting s.bounds s.said.items };
}

impl BoundLog {
    /// No atom is known, and no literal told. It takes no memory.
    pub fn new(alloc: Global) -> Self
        ensures { result ≡ record { bounds = record { table = record { count = 0; rows = [] }; columns = []; told = [] }; said = []; log = [] } }
    {
        BoundLog {
            bounds: SumBounds::new(alloc),
            said: Vec::new(alloc),
            starts: Vec::new(alloc),
            log: Vec::new(alloc),
        }
    }

    /// Tells what holds of each state.
    pub fn facts(&self)
        ensures { IsState self.now }
    {
        self.bounds.facts();
    }

    /// How many atoms are known.
    pub fn atoms(&self) -> usize
        ensures { result ≡ length self.now.said }
    {
        self.said.len()
    }

    /// How many literals are told.
    pub fn len(&self) -> usize
        ensures { result ≡ length self.now.log }
    {
        self.log.len()
    }

    /// Whether a term has a variable.
    pub fn has_leaf(&self, term: u32) -> bool
        ensures { IsTrue result ↔ HasLeaf self.now.bounds.columns term }
    {
        self.bounds.has_leaf(term)
    }

    /// Gives a term a variable without bounds, where it has none. After an `Err`, for want of memory, it may have one or not.
    pub fn add_leaf(&mut self, alloc: Global, term: u32) -> Result<(), AllocError>
        ensures leaf { OnOk result (HasLeaf self.new.bounds.columns term) }
        ensures log { self.new.log ≡ self.old.log }
        ensures said { self.new.said ≡ self.old.said }
        ensures stays { KnowsTheSame self.old self.new }
        ensures columns { (k : ℤ) → AddsColumns self.old (term_at_most term k) self.new }
        ensures variables { GrowsVariables self.old self.new }
    {
        add_leaf(&mut self.bounds, alloc, term)
    }

    /// The atom with the next number is none that bounds a sum, or bounds the empty one. An `Err`, for want of memory, changes nothing.
    pub fn know_other(&mut self) -> Result<(), AllocError>
        ensures ok { OnOk result (self.new ≡ record self.old { said = self.old.said ++ Nothing ∷ [] }) }
        ensures knows { OnOk result ((a : Atom) → SaysNothing a → KnowsOneMore self.old a self.new) }
        ensures columns { (a : Atom) → AddsColumns self.old a self.new }
        ensures variables { GrowsVariables self.old self.new }
        ensures err { OnErr result (self.new ≡ self.old) }
    {
        add(&mut self.said, Said::Nothing)?;
        Ok(())
    }

    /// The atom with the next number is that a sum is at most a threshold. After an `Err`, for want of memory or for a row of a sum that leaves the range,
    /// as many atoms are known as before; there may be variables more.
    pub fn know_bound(
        &mut self,
        alloc: Global,
        sum: &[Summand],
        threshold: i128,
    ) -> Result<(), Failure>
        requires sum { All IsProper sum.now }
        requires threshold { InRange threshold }
        ensures log { self.new.log ≡ self.old.log }
        ensures grown { IsGrown self.old.bounds self.new.bounds }
        ensures more { OnOk result (length self.new.said ≡ length self.old.said + 1) }
        ensures knows { OnOk result (KnowsOneMore self.old (AtMost sum.now threshold) self.new) }
        ensures err { OnErr result (self.new.said ≡ self.old.said) }
        ensures stays { OnErr result (KnowsTheSame self.old self.new) }
        ensures range { IfErr result (λ e. IsRange e → sum_fits self.new.bounds.table self.new.bounds.columns (turned (plain sum.now)) ≡ false) }
        ensures columns { AddsColumns self.old (AtMost sum.now threshold) self.new }
        ensures variables { GrowsVariables self.old self.new }
        ensures fails { IfErr result (λ e. IsRange e → (holds : Bool) → FailsToTake self.new sum.now threshold holds) }
    {
        if sum.is_empty() {
            add(&mut self.said, Said::Nothing)?;
            return Ok(());
        }
        let terms = plain_sum(alloc, sum)?;
        let of = variable_of(&mut self.bounds, alloc, &terms)?;
        add(&mut self.said, Said::Bound { of, threshold })?;
        Ok(())
    }

    /// Tells a literal, and the bound that it says. Values stay. An `Err` changes nothing: it is for want of memory, or where the literal says that a sum is at
    /// least a number past the range.
    pub fn tell(&mut self, literal: Literal) -> Result<(), Failure>
        requires { literal.atom < length self.old.said }
        ensures ok { OnOk result (IsTold self.old literal self.new) }
        ensures stays { KnowsTheSame self.old self.new }
        ensures range { IfErr result (λ e. IsRange e → IsPast (said_at self.old.said literal.atom) literal e) }
        ensures err { OnErr result (self.new ≡ self.old) }
        ensures columns { KeepsColumns self.old self.new }
        ensures variables { KeepsVariables self.old self.new }
        ensures fails { IfErr result (λ e. IsRange e → FailsToTell self.old literal) }
    {
        let said = said_of(&self.said, literal.atom());
        tell_said(
            &mut self.bounds,
            &mut self.log,
            &mut self.starts,
            said,
            literal,
        )?;
        Ok(())
    }

    /// Takes back all literals but the first ones, so many as the count says. Values stay, and no memory is taken.
    pub fn undo_to(&mut self, count: usize)
        ensures undone { IsUndone self.old count self.new }
        ensures stays { KnowsTheSame self.old self.new }
        ensures columns { KeepsColumns self.old self.new }
        ensures variables { KeepsVariables self.old self.new }
    {
        if count < self.starts.len() {
            self.bounds.undo_to(start_of(&self.starts, count));
            self.log.truncate(count);
            self.starts.truncate(count);
        }
    }

    /// Moves values until the terms' values meet all bounds told, or finds a clause that the log breaks, or a step that doesn't fit or is a pivot past the room. Where lines are kept, that of each pivot is added: it is by Bland's rule, in a grid over known atoms, and from the basis that those before it leave; they lead from the grid before to the grid after.
    pub fn check(&mut self, alloc: Global, kept: &mut PivotLines, room: u64) -> Reported
        ensures run { IsRun self.old.bounds.table self.old.bounds.columns self.new.bounds.table self.new.bounds.columns result.pivots }
        ensures log { self.new.log ≡ self.old.log }
        ensures said { self.new.said ≡ self.old.said }
        ensures stays { KnowsTheSame self.old self.new }
        ensures columns { KeepsColumns self.old self.new }
        ensures judges { Judges self.new result.report }
        ensures room { SpendsRoom room result.pivots result.report }
        ensures most { result.pivots ≤ room }
        ensures lines { KeepsLines kept.old.keep result.pivots (grid_of self.old.bounds.table self.old.bounds.columns) (grid_of self.new.bounds.table self.new.bounds.columns) kept.old.lines.items kept.new.lines.items }
        ensures keep { kept.new.keep ≡ kept.old.keep }
        ensures rests { KeepsResting (grid_of self.old.bounds.table self.old.bounds.columns) (grid_of self.new.bounds.table self.new.bounds.columns) }
        ensures sums { column_sums self.new ≡ column_sums self.old }
        ensures pivots { AddsPivots self.old self.new kept.old.keep result.pivots kept.old.lines.items kept.new.lines.items }
    {
        conflicts_are_valid();
        self.bounds.facts();
        self.bounds.origins();
        let Checked { finding, pivots } = self.bounds.check(alloc, kept, room);
        self.bounds.facts();
        self.bounds.origins();
        Reported {
            report: report_of(finding),
            pivots,
        }
    }

    /// What a check finds that takes no step, so that nothing changes. `None` where the next step is to move the value of a variable that isn't basic.
    pub fn look(&mut self, alloc: Global) -> Option<Report>
        ensures same { self.new ≡ self.old }
        ensures judges { IfSome result (Judges self.old) }
    {
        conflicts_are_valid();
        self.bounds.facts();
        let finding = self.bounds.look(alloc)?;
        Some(report_of(finding))
    }

    /// The literal on an atom that a row leaves no room for, if one is seen. It promises nothing of the row.
    pub(crate) fn shut_out(&self, atom: u32) -> Option<Literal>
        requires numbered { atom < length self.now.said }
        ensures { IfSome result (λ l. l.atom ≡ atom) }
    {
        self.bounds.facts();
        shut_out(&self.bounds, said_of(&self.said, atom), atom)
    }

    /// A clause that the log breaks, where a row shows by its fixed variables, or a split of a sum, that no whole numbers meet all bounds told. `None` promises nothing; an `Err` is for want of memory.
    pub fn whole_conflict(&self, alloc: Global) -> Result<Option<Lemma>, AllocError>
        ensures { IfOk result (λ o. IfSome o (IsClause self.now)) }
    {
        whole_conflicts_are_valid();
        self.bounds.facts();
        match self.bounds.whole_conflict(alloc)? {
            Some(clause) => Ok(Some(lemma_with(clause))),
            None => Ok(None),
        }
    }

    /// The value of a term's variable, if it has one.
    pub fn value(&self, term: u32) -> Option<Fraction>
        ensures some { IfSome result (λ v. v ≡ leaf_values self.now.bounds term) }
        ensures none { IfNone result (HasLeaf self.now.bounds.columns term → ⊥) }
    {
        self.bounds.value(term)
    }

    /// Numbers by term, where the values are whole: those of the terms' variables, but moved within all bounds so that wanted terms have numbers of their own, which aren't taken, as far as that is found. It promises nothing. An `Err` is for want of memory.
    pub fn spread(
        &self,
        alloc: Global,
        wanted: &[bool],
        taken: &[i128],
    ) -> Result<Option<Vec<i128>>, AllocError> {
        self.bounds.spread(alloc, wanted, taken)
    }

    /// The least variable of a term whose value isn't whole.
    pub fn first_fraction(&self) -> Option<FractionalLeaf>
        ensures some { IfSome result (IsFirstIn self.now.bounds.columns) }
        ensures none { IfNone result (AreWhole self.now.bounds) }
    {
        self.bounds.first_fraction()
    }

    /// The row of the first variable of a term whose value isn't whole, as a line, where all values lie within their bounds: its other variables are 0 or at numbers that known atoms or their complements say.
    pub fn branch_line(&self, alloc: Global, leaf: FractionalLeaf) -> Result<Line, AllocError>
        requires first { IsFirstIn self.now.bounds.columns leaf }
        requires within { AreWithin self.now.bounds.columns }
        ensures branches { IfOk result (IsBranchLine leaf.term leaf.floor) }
        ensures value { IfOk result (λ l. (b : Member) → l.basic ≡ Some b → b.column.value ≡ leaf.value) }
        ensures row { IfOk result (λ l. (table : List Atom) → Knows table self.now → IsRowIn (column_sums self.now) (IsBoundOf (Contains table)) l) }
    {
        self.bounds.facts();
        self.bounds.origins();
        self.bounds.line(alloc, leaf.variable)
    }

    /// The rows and the variables, with their bounds and values, as a grid with nothing pending.
    pub fn grid(&self, alloc: Global) -> Result<Grid, AllocError>
        ensures exact { IfOk result (λ g. g ≡ plain_grid self.now) }
        ensures sound { IfOk result (λ g. (table : List Atom) → Knows table self.now → IsSoundGrid (column_sums self.now) (IsBoundOf (Contains table)) g) }
    {
        self.bounds.facts();
        self.bounds.origins();
        self.bounds.grid(alloc)
    }

    /// The rows and the variables, with their bounds and values, as a grid with a bound pending: that a sum is at most a number, or that it isn't.
    pub fn pending_grid(
        &self,
        alloc: Global,
        sum: &[Summand],
        number: i128,
        holds: bool,
    ) -> Result<Grid, AllocError>
        ensures exact { IfOk result (λ g. g ≡ with_pending (plain_grid self.now) (told sum.now number holds)) }
        ensures sound { IfOk result (λ g. (table : List Atom) → Knows table self.now → IsSoundGrid (column_sums self.now) (IsBoundOf (Contains table)) g) }
        ensures fails { IfOk result (λ g. FailsToTake self.now sum.now number holds → NextFails g) }
    {
        self.bounds.facts();
        self.bounds.origins();
        let sum = Seq::from_vec(plain_sum(alloc, sum)?);
        let Grid { columns, rows, .. } = self.bounds.grid(alloc)?;
        Ok(Grid {
            columns,
            rows,
            pending: Some(Pending { sum, number, holds }),
        })
    }
}
