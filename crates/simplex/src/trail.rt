//! The trail of bounds.
ghost use Rattle.std.specs.Prelude.{◌≡◌, ◌≢◌, ℕ, ◌+◌, ◌-◌, ◌<◌, ◌≤◌, true, false, [], ◌∷◌, ◌++◌, map, take, length, slice_set, OnOk, OnErr, IfOk, IfSome, IfNone, Some, None};
ghost use Rattle.simplex.specs.Trail.{tighter, tightest, held_on, with_held, is_tighter};

use fraction128::Side;
use std::alloc::{AllocError, Global};
use std::marker::Model;

/// A bound that is set, with its tag.
#[derive(Clone, Copy, PartialEq, Eq, Drop)]
pub struct Set {
    pub variable: u32,
    pub side: Side,
    pub number: i128,
    pub tag: u32,
}

/// The number and the tag of a bound that stands.
#[derive(Clone, Copy, PartialEq, Eq, Drop)]
pub struct Held {
    pub number: i128,
    pub tag: u32,
}

/// A bound that was set, and what stood in its place before.
#[derive(Clone, Copy, Drop)]
struct Mark {
    set: Set,
    before: Option<Held>,
}

/// The bounds of a variable that stand.
#[derive(Clone, Copy, Drop)]
struct Standing {
    lower: Option<Held>,
    upper: Option<Held>,
}

/// The bound that stands on a side.
fn side_of(standing: Standing, side: Side) -> Option<Held>
    ensures { result ≡ held_on standing side }
{
    match side {
        Side::Lower => standing.lower,
        Side::Upper => standing.upper,
    }
}

/// The bounds of a variable with another one on a side.
fn replaced(standing: Standing, side: Side, held: Option<Held>) -> Standing
    ensures { result ≡ with_held standing side held }
{
    match side {
        Side::Lower => Standing {
            lower: held,
            upper: standing.upper,
        },
        Side::Upper => Standing {
            lower: standing.lower,
            upper: held,
        },
    }
}

/// Whether a number on a side is tighter than another.
fn is_tighter(side: Side, held: i128, number: i128) -> bool
    ensures { result ≡ is_tighter side held number }
{
    match side {
        Side::Lower => held < number,
        Side::Upper => number < held,
    }
}

/// The tighter of a bound that stands and a new one.
fn tighten(held: Option<Held>, set: Set) -> Option<Held>
    ensures { result ≡ tighter set.side held set }
{
    match held {
        Some(held) if !is_tighter(set.side, held.number, set.number) => Some(held),
        _ => Some(Held {
            number: set.number,
            tag: set.tag,
        }),
    }
}

/// The bounds that were set, in order, and for each variable and side the tightest of them.
#[derive(Drop)]
pub struct BoundTrail {
    standing: Vec<Standing>,
    marks: Vec<Mark>,
}

impl Model for BoundTrail {
    ghost use Rattle.simplex.specs.Trail.{Trail};

    ghost Value = { Trail };

    ghost use Rattle.std.specs.Prelude.{map, length};
    ghost use Rattle.simplex.specs.Trail.{set_of, IsTrail};

    ghost view = { λ t. record { count = length t.standing.items; bounds = map set_of t.marks.items } };

    ghost invariant = { λ t. IsTrail t.standing.items t.marks.items };
}

impl BoundTrail {
    ghost use Rattle.simplex.specs.Trail.{Trail};

    /// No variable. It takes no memory.
    pub fn new(alloc: Global) -> Self
        ensures { result ≡ record { count = 0; bounds = [] } }
    {
        BoundTrail {
            standing: Vec::new(alloc),
            marks: Vec::new(alloc),
        }
    }

    /// How many bounds are set.
    pub fn len(&self) -> usize
        ensures { result ≡ length self.now.bounds }
    {
        self.marks.len()
    }

    /// One more variable, past the others. An `Err`, for want of memory, changes nothing.
    pub fn add_variable(&mut self) -> Result<(), AllocError>
        ensures ok { OnOk result (self.new ≡ record { count = self.old.count + 1; bounds = self.old.bounds }) }
        ensures err { OnErr result (self.new ≡ self.old) }
    {
        self.standing.push(Standing {
            lower: None,
            upper: None,
        })?;
        Ok(())
    }

    /// The tightest bound of a variable on a side.
    pub fn tightest(&self, variable: u32, side: Side) -> Option<Held>
        requires { variable < self.now.count }
        ensures { result ≡ tightest self.now.bounds variable side }
    {
        side_of(self.standing[variable as usize], side)
    }

    /// Sets a bound. An `Err`, for want of memory, changes nothing.
    pub fn set(&mut self, set: Set) -> Result<(), AllocError>
        requires { set.variable < self.old.count }
        ensures count { self.new.count ≡ self.old.count }
        ensures ok { OnOk result (self.new.bounds ≡ self.old.bounds ++ set ∷ []) }
        ensures err { OnErr result (self.new ≡ self.old) }
    {
        let standing = self.standing[set.variable as usize];
        let before = side_of(standing, set.side);
        self.marks.push(Mark { set, before })?;
        self.standing[set.variable as usize] = replaced(standing, set.side, tighten(before, set));
        Ok(())
    }

    /// Takes the newest bound back, and tells it. What stood in its place stands again.
    pub fn undo(&mut self) -> Option<Set>
        ensures count { self.new.count ≡ self.old.count }
        ensures bounds { IfSome result (λ b. self.old.bounds ≡ self.new.bounds ++ b ∷ []) }
        ensures known { IfSome result (λ b. b.variable < self.old.count) }
        ensures none { IfNone result (self.old.bounds ≡ []) }
        ensures same { IfNone result (self.new ≡ self.old) }
    {
        let mark = self.marks.pop()?;
        let variable = mark.set.variable as usize;
        self.standing[variable] = replaced(self.standing[variable], mark.set.side, mark.before);
        Some(mark.set)
    }
}
