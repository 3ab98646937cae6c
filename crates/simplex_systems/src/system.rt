//! A system: the simplex method's state with the number of its variables.
ghost use Rattle.std.specs.Prelude.{◌≡◌, ◌<◌, length, IfOk, IfSome};
ghost use Rattle.fraction128.specs.Grid.{leaf};
ghost use Rattle.tableau.specs.Written.{AreParts};
ghost use Rattle.simplex.specs.Sums.{AreMatched};
ghost use Rattle.simplex_systems.specs.Parts.{IsPicked};

use anyhow::{Result, bail};
use fraction128::{Column, Fraction, Line, Seq, Side, Sum, Summand};
use simplex::{Answer, PivotLines, Set, Simplex, Verdict};
use std::alloc::{AllocError, Global};
use std::marker::Model;
use tableau::{Failure, Part};

/// A summand of a sum, and its part: the same coefficient, and the variable of the term.
#[derive(Clone, Copy, Drop)]
struct Picked {
    summand: Summand,
    part: Part,
}

/// A sum and its parts.
#[derive(Drop)]
struct Written {
    sum: Sum,
    parts: Vec<Part>,
}

/// The term that a variable stands for, where it stands for one.
fn term_of(column: &Column) -> Option<u32>
    ensures { IfSome result (λ t. column.now.sum ≡ leaf t) }
{
    let summands = column.sum.as_slice();
    if summands.len() != 1 {
        return None;
    }
    let summand = summands[0];
    if summand.coefficient == 1 {
        Some(summand.term)
    } else {
        None
    }
}

/// Writes a value after a blank, as a numerator, a stroke and a denominator.
fn write_value(alloc: Global, line: &mut String, value: Fraction) -> Result<(), AllocError> {
    let numerator = value.numerator();
    let denominator = value.denominator();
    line.push_str(format!(in alloc; " {numerator}/{denominator}")?.as_str())
}

/// Writes a pivot after a semicolon: the variable that leaves, and the one that enters.
fn write_pivot(alloc: Global, line: &mut String, pivot: &Line) -> Result<(), AllocError> {
    match (&pivot.basic, pivot.moves) {
        (Some(basic), Some(enters)) => {
            let leaves = basic.variable;
            line.push_str(format!(in alloc; "; {leaves} {enters}")?.as_str())
        }
        _ => Ok(()),
    }
}

/// The word, the pivots, and the tags.
fn conflict_line(alloc: Global, pivots: u64, tags: &[u32]) -> Result<String, AllocError> {
    let mut line = format!(in alloc; "conflict {pivots}:")?;
    for tag in tags {
        line.push_str(format!(in alloc; " {tag}")?.as_str())?;
    }
    Ok(line)
}

/// The simplex method's state with the number of its variables.
#[derive(Drop)]
pub struct System {
    simplex: Simplex,
    count: u32,
}

impl Model for System {
    ghost use Rattle.std.specs.Prelude.{◌≡◌, length};
    ghost use Rattle.simplex.specs.State.{State};

    ghost Value = { State };

    ghost view = { λ s. s.simplex };

    ghost invariant = { λ s. (length s.simplex.columns ≡ s.count) × (s.simplex.table.count ≡ s.count) };
}

impl System {
    /// No variable. It takes no memory.
    pub fn new(alloc: Global) -> Self {
        System {
            simplex: Simplex::new(alloc),
            count: 0,
        }
    }

    /// A new variable for a term.
    fn add_leaf(&mut self, alloc: Global, term: u32) -> Result<()> {
        if self.count == u32::MAX {
            bail!("too many variables");
        }
        let _variable = self.simplex.add_leaf(alloc, term)?;
        self.count += 1;
        Ok(())
    }

    /// A new system with so many variables for terms.
    pub fn begin(&mut self, alloc: Global, count: u32) -> Result<()> {
        *self = System::new(alloc);
        for term in 0..count {
            self.add_leaf(alloc, term)?;
        }
        Ok(())
    }

    /// The summand and the part of a coefficient and a variable, which stands for a term.
    fn picked(&self, coefficient: i128, variable: i128) -> Result<Picked>
        ensures { IfOk result (IsPicked self.now.table.count self.now.columns) }
    {
        if coefficient == 0 || coefficient == i128::MIN {
            bail!("a coefficient is 0 or outside the range");
        }
        let variable = u32::try_from(variable)?;
        if self.count <= variable {
            bail!("no such variable");
        }
        let Some(term) = term_of(self.simplex.column(variable)) else {
            bail!("the variable stands for no term");
        };
        Ok(Picked {
            summand: Summand { coefficient, term },
            part: Part {
                coefficient,
                variable,
            },
        })
    }

    /// The sum of the pairs of a coefficient and a variable, with its parts.
    fn written(&self, alloc: Global, numbers: &[i128]) -> Result<Written>
        ensures parts { IfOk result (λ w. AreParts self.now.table.count w.parts.items) }
        ensures matched { IfOk result (λ w. AreMatched self.now.columns w.sum w.parts.items) }
    {
        let mut sum = Seq::new(alloc);
        let mut parts = Vec::new(alloc);
        for place in 0..numbers.len() / 2 {
            let picked = self.picked(numbers[2 * place], numbers[2 * place + 1])?;
            sum.push(picked.summand)?;
            parts.push(picked.part)?;
        }
        Ok(Written { sum, parts })
    }

    /// A new variable for the sum of the pairs of a coefficient and a variable, or the line that says that a number leaves the range.
    pub fn add_row(&mut self, alloc: Global, numbers: &[i128]) -> Result<Option<String>> {
        if self.count == u32::MAX {
            bail!("too many variables");
        }
        if numbers.len() % 2 == 1 {
            bail!("a coefficient has no variable");
        }
        let Written { sum, parts } = self.written(alloc, numbers)?;
        match self.simplex.add_row(alloc, sum, &parts) {
            Ok(_) => {
                self.count += 1;
                Ok(None)
            }
            Err(Failure::Range(_)) => Ok(Some(String::from_str(alloc, "range")?)),
            Err(Failure::Memory) => bail!("out of memory"),
        }
    }

    /// Sets a bound, whose tag is the number of bounds before it.
    pub fn set_bound(&mut self, variable: u32, side: Side, number: i128) -> Result<()> {
        if self.count <= variable {
            bail!("no such variable");
        }
        if number == i128::MIN {
            bail!("a bound is outside the range");
        }
        let tag = u32::try_from(self.simplex.len())?;
        self.simplex.set_bound(Set {
            variable,
            side,
            number,
            tag,
        })?;
        Ok(())
    }

    /// Takes back all bounds but the first ones, so many as the count says.
    pub fn undo_to(&mut self, count: usize) {
        self.simplex.undo_to(count);
    }

    /// The word, the pivots, and the values of all variables.
    fn values_line(&self, alloc: Global, pivots: u64) -> Result<String, AllocError> {
        let mut line = format!(in alloc; "fits {pivots}:")?;
        for variable in 0..self.count {
            write_value(alloc, &mut line, self.simplex.column(variable).value)?;
        }
        Ok(line)
    }

    /// The line that tells what a check with this room finds.
    pub fn check(&mut self, alloc: Global, room: u64) -> Result<String> {
        let mut kept = PivotLines {
            keep: false,
            lines: Vec::new(alloc),
        };
        self.checked(alloc, &mut kept, room)
    }

    /// The same, with the pivots: for each the variable that leaves and the one that enters.
    pub fn trace(&mut self, alloc: Global, room: u64) -> Result<String> {
        let mut kept = PivotLines {
            keep: true,
            lines: Vec::new(alloc),
        };
        let mut line = self.checked(alloc, &mut kept, room)?;
        for pivot in &kept.lines {
            write_pivot(alloc, &mut line, pivot)?;
        }
        Ok(line)
    }

    /// The line that tells what a check with this room finds, whose pivots' lines are kept where they are to be.
    fn checked(&mut self, alloc: Global, kept: &mut PivotLines, room: u64) -> Result<String> {
        let Answer { verdict, pivots } = self.simplex.check(alloc, kept, room);
        match verdict {
            Verdict::Fits => Ok(self.values_line(alloc, pivots)?),
            Verdict::Conflict(tags) => Ok(conflict_line(alloc, pivots, &tags)?),
            Verdict::Range(_) => Ok(format!(in alloc; "range {pivots}")?),
            Verdict::UnitsSpent => Ok(format!(in alloc; "units {pivots}")?),
            Verdict::Memory => bail!("out of memory"),
        }
    }
}
