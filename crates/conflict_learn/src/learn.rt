//! Learning: from a kept clause that is false, a clause that follows from kept clauses and forbids
//! what led there.
//!
//! The scheme is GRASP's (Marques-Silva and Sakallah, IEEE Transactions on Computers, 1999), with
//! the first unique implication point (Zhang, Madigan, Moskewicz and Malik, ICCAD 2001) and with
//! minimization (Sörensson and Biere, SAT 2009).
//!
//! Each literal of the false clause is false by a step of the trail. Such a step is seen, and a
//! seen step either waits or is resolved. To resolve it is to take its reason, the kept clause that
//! forced it, as a premise: the other literals of that clause are false by steps at lower places,
//! which are seen in turn. From the newest step down, those of the greatest depth are resolved
//! until one of them alone waits: the first unique implication point (`uip`). Of the others that
//! wait, those are resolved too that follow from the rest by their reasons (`minimize`), and all of
//! depth 0. The learnt clause says that not all of the steps that still wait hold: first the
//! literal of the unique implication point, then one of the deepest of the rest, then the others.
//!
//! Where the greatest depth is 0, nothing is left to wait, and the premises can't all be true: that
//! is the empty clause.
//!
//! Why it follows. The marks alone carry the proof (`IsSound`): a step marked resolved follows, by
//! one of the premises, from seen steps at lower places. So wherever the premises are true and the
//! steps that wait hold, each seen step holds, by induction over the places; then every literal of
//! the false clause is false, though it is a premise. No order of resolving comes into this. So
//! which steps are resolved beside those of the greatest depth is free, and `minimize` promises
//! nothing of its answers but that there is a reason to resolve by.
//!
//! Why it is of use. Only one literal of the clause has the greatest depth. With decisions taken
//! back to `back_to`, the depth of the second, all but the first are false and the first is open:
//! the clause forces it there. And it says something new: clauses that were quiet before the
//! decision of the greatest depth don't give its first literal from its others, since that literal
//! was open there.
//!
//! What a caller may rely on is said by `Learner::learn`: the store stays as it was; the literals
//! and the premises, by their numbers, are lent until the next call. A literal of depth 0 never
//! stands in a clause, but the clauses by which it holds count as premises, and so do their levels.
//! A learner's lists are used again from one call to the next; marks are cleared over the length of
//! the trail.
ghost use Rattle.std.specs.Prelude.{◌≡◌, ℕ, ◌<◌, ◌≤◌, List, [], ◌∷◌, All, map, length, IfOk};
ghost use Rattle.clause_store.specs.Stored.{AllFalse};
ghost use Rattle.clause_store.specs.Found.{HasKept};
ghost use Rattle.conflict_learn.specs.Analysing.{Begins, step_at, first_depth};
ghost use Rattle.conflict_learn.specs.Learning.{ComesFrom, Lesson, LearntBy};

use crate::analysis::Analysis;
use crate::kept::write_literals;
use crate::minimize::{Flag, reset_flags};
use crate::reasons::step;
use clause_store::store::Store;
use literals::Literal;
use std::alloc::{AllocError, Global};
use std::marker::Model;

#[derive(Clone, Copy)]
pub enum Learnt {
    /// A clause of this level, and the depth at which all its literals but the first are false.
    Clause { level: u16, back_to: u32 },
    /// The premises, of levels up to this one, can't all be true.
    Empty { level: u16 },
}

/// The lists that learning works on, which are used again from one false clause to the next.
#[derive(Drop)]
pub struct Learner {
    analysis: Analysis,
    flags: Vec<Flag>,
    kept: Vec<usize>,
    literals: Vec<Literal>,
}

impl Model for Learner {
    ghost use Rattle.conflict_learn.specs.Learning.{Lesson};

    ghost Value = { Lesson };

    ghost view = { λ l. record { literals = l.literals.items; premises = l.analysis.premises } };
}

// The depth of the first of these steps, 0 where there is none.
fn depth_of_first(store: &Store, places: &[usize]) -> u32
    requires { All (λ k. k < length store.now.trail.steps) places.now }
    ensures { result ≡ first_depth store.now.trail.steps places.now }
{
    if places.is_empty() {
        return 0;
    }
    step(store, places[0]).depth
}

impl Learner {
    pub fn new(alloc: Global) -> Learner
        ensures { result ≡ record { literals = []; premises = [] } }
    {
        Learner {
            analysis: Analysis::new(alloc),
            flags: Vec::new(alloc),
            kept: Vec::new(alloc),
            literals: Vec::new(alloc),
        }
    }

    /// The literals of the clause that was learnt last: the one that is to become true, then one of the deepest of the rest, then the others.
    pub fn literals(&self) -> &[Literal]
        ensures { result.now ≡ self.now.literals }
    {
        &self.literals
    }

    /// The ids of the clauses that it comes from.
    pub fn premises(&self) -> &[u64]
        ensures { result.now ≡ self.now.premises }
    {
        self.analysis.premises()
    }

    /// Learns from a kept clause that is false. After an error the lists are of no meaning, and the next call starts anew.
    pub fn learn(&mut self, store: &mut Store, id: u64) -> Result<Learnt, AllocError>
        requires { HasKept store.old.clauses id (AllFalse store.old.trail.steps) }
        ensures same { store.new ≡ store.old }
        ensures learnt { IfOk result (LearntBy store.old id self.new) }
    {
        self.analysis.begin(store, id)?;
        self.literals.clear();
        if self.analysis.deepest() == 0 {
            let level = refute(&mut self.analysis, store, id)?;
            return Ok(Learnt::Empty { level });
        }
        derive(
            &mut self.analysis,
            store,
            id,
            &mut self.flags,
            &mut self.kept,
            &mut self.literals,
        )
    }
}

// The greatest depth is 0: the premises can't all be true.
fn refute(analysis: &mut Analysis, store: &mut Store, id: u64) -> Result<u16, AllocError>
    requires begun { Begins store.old.clauses store.old.trail.steps id analysis.old }
    requires deepest { analysis.old.deepest ≡ 0 }
    ensures same { store.new ≡ store.old }
    ensures refuted { IfOk result (λ level. ComesFrom store.old.clauses analysis.new.premises level []) }
{
    let _top = analysis.resolve_deepest(store, id, 0)?;
    Ok(analysis.level())
}

// Else a clause is learnt whose first literal alone has the greatest depth.
fn derive(
    analysis: &mut Analysis,
    store: &mut Store,
    id: u64,
    flags: &mut Vec<Flag>,
    kept: &mut Vec<usize>,
    literals: &mut Vec<Literal>,
) -> Result<Learnt, AllocError>
    requires begun { Begins store.old.clauses store.old.trail.steps id analysis.old }
    requires deepest { 0 < analysis.old.deepest }
    ensures same { store.new ≡ store.old }
    ensures learnt { IfOk result (LearntBy store.old id (record { literals = literals.new.items; premises = analysis.new.premises })) }
{
    let top = analysis.resolve_deepest(store, id, 1)?;
    let uip = analysis.find_uip(store, top);
    let count = store.steps().len();
    reset_flags(flags, count)?;
    analysis.shrink(store, id, uip, flags, kept)?;
    write_literals(store, uip, kept, literals)?;
    let back_to = depth_of_first(store, kept);
    let level = analysis.level();
    Ok(Learnt::Clause { level, back_to })
}
