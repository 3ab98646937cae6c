//! Values spread apart: where the values of the variables are whole and meet all bounds, variables that aren't basic move by whole steps inside what their columns leave them, so that wanted terms have values that no other wanted one has, and that aren't taken.
//!
//! It works on numbers of its own, and only guides the search for a model: no contract speaks of what it gives.
ghost use Rattle.std.specs.Prelude.{◌≡◌, ◌<◌, length};

use crate::fractions::term_of;
use fraction128::{Column, Fraction};
use simplex::Simplex;
use std::alloc::{AllocError, Global};
use tableau::Tableau;

/// How far a variable without a bound goes at most, in steps.
const REACH: i128 = 1 << 12;

/// How many places are tried for a variable.
const TRIES: u32 = 8;

/// How many variables of a row are tried.
const MOST_OF_ROW: usize = 16;

/// The greatest step.
const LONGEST: i128 = 1 << 20;

/// A variable that a step moves, and how far.
#[derive(Clone, Copy, Drop)]
struct Pull {
    variable: u32,
    change: i128,
}

/// How many steps a variable may go down and up.
#[derive(Clone, Copy, Drop)]
struct Freedom {
    down: i128,
    up: i128,
}

/// Values of the variables that are moved.
#[derive(Drop)]
struct MovedValues {
    /// By variable.
    values: Vec<i128>,
    /// By variable: whether it is to have a value of its own.
    wanted: Vec<bool>,
    /// By remainder how many of the wanted have such a value, and how many of the numbers that are taken.
    counts: Vec<u32>,
    /// What a step of the variable moves that is looked at.
    pulls: Vec<Pull>,
    /// How many entries of rows may still be looked at.
    work: usize,
}

/// A multiple of the step in which a coefficient's multiples are whole.
fn longer(step: i128, coefficient: Fraction) -> Option<i128> {
    let denominator = coefficient.denominator();
    if step.checked_rem(denominator)? == 0 {
        return Some(step);
    }
    let longer = step.checked_mul(denominator)?;
    if longer <= LONGEST {
        Some(longer)
    } else {
        None
    }
}

/// How far a step moves a basic variable with this coefficient.
fn change_by(step: i128, coefficient: Fraction) -> Option<i128> {
    let times = step.checked_div(coefficient.denominator())?;
    times.checked_mul(coefficient.numerator())
}

/// How many steps of this change lead from a value to a bound.
fn steps_to(bound: Option<i128>, value: i128, change: i128) -> i128 {
    let Some(number) = bound else {
        return REACH;
    };
    match number.checked_sub(value) {
        Some(distance) => match distance.checked_div(change) {
            Some(steps) => steps.clamp(0, REACH),
            None => 0,
        },
        None => 0,
    }
}

/// How many steps of this change the bounds of a variable leave.
fn freedom_of(column: &Column, value: i128, change: i128) -> Freedom {
    let (first, last) = if change > 0 {
        (column.lower, column.upper)
    } else {
        (column.upper, column.lower)
    };
    Freedom {
        down: steps_to(first, value, change.saturating_neg()),
        up: steps_to(last, value, change),
    }
}

/// The value of a variable, where it is whole.
fn whole_value(column: &Column) -> Option<i128> {
    if column.value.is_whole() {
        Some(column.value.numerator())
    } else {
        None
    }
}

/// A step in which all basic variables move by whole numbers that a variable moves.
fn step_of(tableau: &Tableau, variable: u32) -> Option<i128> {
    let mut step: i128 = 1;
    for place in tableau.holders(variable) {
        if *place >= tableau.len() {
            continue;
        }
        if let Some(coefficient) = tableau.coefficient(*place, variable) {
            step = longer(step, coefficient)?;
        }
    }
    Some(step)
}

impl MovedValues {
    fn value(&self, variable: u32) -> i128 {
        let place = variable as usize;
        if place < self.values.len() {
            self.values[place]
        } else {
            0
        }
    }

    fn is_wanted(&self, variable: u32) -> bool {
        let place = variable as usize;
        place < self.wanted.len() && self.wanted[place]
    }

    /// Where values with this one's remainder are counted.
    fn slot(&self, value: i128) -> usize {
        let size = value.saturating_add(1 << 100).unsigned_abs();
        match size.checked_rem(self.counts.len() as u128) {
            Some(slot) => slot as usize,
            None => 0,
        }
    }

    /// How many of the wanted have this value.
    fn count(&self, value: i128) -> u32 {
        let slot = self.slot(value);
        if slot < self.counts.len() {
            self.counts[slot]
        } else {
            0
        }
    }

    /// Counts a value.
    fn add_value(&mut self, value: i128) {
        let slot = self.slot(value);
        if slot < self.counts.len() {
            self.counts[slot] = self.counts[slot].saturating_add(1);
        }
    }

    /// Counts all of these values.
    fn add_values(&mut self, values: &[i128]) {
        for value in values {
            self.add_value(*value);
        }
    }

    /// Counts a variable's value, where it is wanted.
    fn add(&mut self, variable: u32) {
        if self.is_wanted(variable) {
            self.add_value(self.value(variable));
        }
    }

    /// Counts a variable's value no longer, where it is wanted.
    fn remove(&mut self, variable: u32) {
        let slot = self.slot(self.value(variable));
        if self.is_wanted(variable) && slot < self.counts.len() {
            self.counts[slot] = self.counts[slot].saturating_sub(1);
        }
    }

    /// Whether another wanted variable has the value of this one.
    fn is_shared(&self, variable: u32) -> bool {
        self.is_wanted(variable) && self.count(self.value(variable)) > 1
    }

    /// How many others have the values that so many steps lead to.
    fn cost(&self, steps: i128) -> u32 {
        let mut cost: u32 = 0;
        for pull in &self.pulls {
            if self.is_wanted(pull.variable) {
                let moved = pull.change.saturating_mul(steps);
                let value = self.value(pull.variable).saturating_add(moved);
                cost = cost.saturating_add(self.count(value));
            }
        }
        cost
    }

    /// So many steps within the freedom that the fewest others have the values that they lead to. None where no more have those that stand.
    fn best(&self, freedom: Freedom, variable: u32) -> i128 {
        let span = freedom.down.saturating_add(freedom.up).saturating_add(1);
        let stride = span.saturating_mul(618) / 1000 + 1;
        let mut turn = (variable as i128).saturating_mul(7919);
        let mut best = 0;
        let mut least = self.cost(0);
        for _ in 0..TRIES {
            if least == 0 {
                return best;
            }
            turn = turn.saturating_add(stride);
            let steps = turn
                .checked_rem(span)
                .unwrap_or(0)
                .saturating_sub(freedom.down);
            let cost = self.cost(steps);
            if cost < least {
                least = cost;
                best = steps;
            }
        }
        best
    }

    /// Lists what a step of the variable moves in a row.
    fn pull_row(
        &mut self,
        tableau: &Tableau,
        place: usize,
        variable: u32,
        step: i128,
    ) -> Result<bool, AllocError> {
        if place >= tableau.len() {
            return Ok(true);
        }
        let Some(coefficient) = tableau.coefficient(place, variable) else {
            return Ok(true);
        };
        match change_by(step, coefficient) {
            None => Ok(false),
            Some(change) => {
                self.pulls.push(Pull {
                    variable: tableau.basic(place),
                    change,
                })?;
                Ok(true)
            }
        }
    }

    /// Lists what a step of the variable moves. Whether all is listed.
    fn pull(&mut self, tableau: &Tableau, variable: u32, step: i128) -> Result<bool, AllocError> {
        self.pulls.clear();
        self.pulls.push(Pull {
            variable,
            change: step,
        })?;
        for place in tableau.holders(variable) {
            if !self.pull_row(tableau, *place, variable, step)? {
                return Ok(false);
            }
        }
        Ok(true)
    }

    /// How many steps the bounds of all variables leave that are moved.
    fn freedom(&self, simplex: &Simplex, count: u32) -> Freedom
        requires { count ≡ length simplex.now.columns }
    {
        let mut freedom = Freedom {
            down: REACH,
            up: REACH,
        };
        for pull in &self.pulls {
            if pull.variable >= count {
                continue;
            }
            let column = simplex.column(pull.variable);
            let own = freedom_of(column, self.value(pull.variable), pull.change);
            freedom.down = freedom.down.min(own.down);
            freedom.up = freedom.up.min(own.up);
        }
        freedom
    }

    /// Counts the values no longer that are moved.
    fn remove_pulled(&mut self) {
        for at in 0..self.pulls.len() {
            if at < self.pulls.len() {
                let pull = self.pulls[at];
                self.remove(pull.variable);
            }
        }
    }

    /// Moves a variable by steps of its change.
    fn shift(&mut self, pull: Pull, steps: i128) {
        let place = pull.variable as usize;
        if place < self.values.len() {
            let moved = pull.change.saturating_mul(steps);
            self.values[place] = self.values[place].saturating_add(moved);
        }
        self.add(pull.variable);
    }

    /// Moves all by so many steps, and counts their values.
    fn shift_pulled(&mut self, steps: i128) {
        for at in 0..self.pulls.len() {
            if at < self.pulls.len() {
                let pull = self.pulls[at];
                self.shift(pull, steps);
            }
        }
    }

    /// Moves a variable that isn't basic, with those that it moves, to where the fewest have their values.
    fn move_variable(
        &mut self,
        simplex: &Simplex,
        count: u32,
        variable: u32,
    ) -> Result<(), AllocError>
        requires { count ≡ length simplex.now.columns }
    {
        let tableau = simplex.tableau();
        self.work = self.work.saturating_sub(tableau.holders(variable).len());
        let Some(step) = step_of(tableau, variable) else {
            return Ok(());
        };
        if !self.pull(tableau, variable, step)? {
            return Ok(());
        }
        let freedom = self.freedom(simplex, count);
        if freedom.down == 0 && freedom.up == 0 {
            return Ok(());
        }
        self.remove_pulled();
        let steps = self.best(freedom, variable);
        self.shift_pulled(steps);
        Ok(())
    }

    /// Moves variables of the row at a place until the value of its basic variable is its own.
    fn move_row(&mut self, simplex: &Simplex, count: u32, place: usize) -> Result<(), AllocError>
        requires count { count ≡ length simplex.now.columns }
        requires place { place < length simplex.now.table.rows }
    {
        let tableau = simplex.tableau();
        let basic = tableau.basic(place);
        let entries = tableau.entries(place);
        for at in 0..entries.len().min(MOST_OF_ROW) {
            if self.work == 0 || !self.is_shared(basic) {
                return Ok(());
            }
            if at < entries.len() {
                self.move_variable(simplex, count, entries[at].variable)?;
            }
        }
        Ok(())
    }

    /// Moves a variable, or those of its row, where another wanted one has its value.
    fn move_apart(&mut self, simplex: &Simplex, count: u32, variable: u32) -> Result<(), AllocError>
        requires { count ≡ length simplex.now.columns }
    {
        if self.work == 0 || !self.is_shared(variable) {
            return Ok(());
        }
        match simplex.tableau().place_of(variable) {
            Some(place) => self.move_row(simplex, count, place),
            None => self.move_variable(simplex, count, variable),
        }
    }

    /// Takes the next variable. Whether its value is whole.
    fn take(&mut self, column: &Column, wanted: &[bool]) -> Result<bool, AllocError> {
        let Some(value) = whole_value(column) else {
            return Ok(false);
        };
        let is_wanted = match term_of(column.sum.as_slice()) {
            Some(term) => (term as usize) < wanted.len() && wanted[term as usize],
            None => false,
        };
        self.values.push(value)?;
        self.wanted.push(is_wanted)?;
        if is_wanted {
            self.add_value(value);
        }
        Ok(true)
    }

    /// Takes all variables. Whether their values are whole.
    fn take_all(
        &mut self,
        simplex: &Simplex,
        count: u32,
        wanted: &[bool],
    ) -> Result<bool, AllocError>
        requires { count ≡ length simplex.now.columns }
    {
        for variable in 0..count {
            if !self.take(simplex.column(variable), wanted)? {
                return Ok(false);
            }
        }
        Ok(true)
    }

    /// Moves each wanted variable whose value another one has.
    fn move_all(&mut self, simplex: &Simplex, count: u32) -> Result<(), AllocError>
        requires { count ≡ length simplex.now.columns }
    {
        for variable in 0..count {
            self.move_apart(simplex, count, variable)?;
        }
        Ok(())
    }

    /// The value of each variable that stands for a term, by term.
    fn write(&self, simplex: &Simplex, count: u32, numbers: &mut [i128])
        requires { count ≡ length simplex.now.columns }
        ensures { length numbers.new ≡ length numbers.old }
    {
        for variable in 0..count {
            if let Some(term) = term_of(simplex.column(variable).sum.as_slice()) {
                if (term as usize) < numbers.len() {
                    numbers[term as usize] = self.value(variable);
                }
            }
        }
    }
}

/// Numbers by term, as long as the list of the wanted, in which wanted terms have values of their own, which aren't taken, where that was found. `None` where not all values are whole.
pub(crate) fn spread(
    alloc: Global,
    simplex: &Simplex,
    count: u32,
    wanted: &[bool],
    taken: &[i128],
) -> Result<Option<Vec<i128>>, AllocError>
    requires { count ≡ length simplex.now.columns }
{
    let mut spread = MovedValues {
        values: Vec::new(alloc),
        wanted: Vec::new(alloc),
        counts: vec![in alloc; 0; (count as usize).saturating_mul(4).saturating_add(1024)]?,
        pulls: Vec::new(alloc),
        work: (count as usize).saturating_mul(256).saturating_add(1 << 16),
    };
    if !spread.take_all(simplex, count, wanted)? {
        return Ok(None);
    }
    spread.add_values(taken);
    spread.move_all(simplex, count)?;
    let mut numbers = vec![in alloc; 0; wanted.len()]?;
    spread.write(simplex, count, &mut numbers);
    Ok(Some(numbers))
}
