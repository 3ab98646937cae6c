//! A stack of which some assertions are left out, to see what the others say.
ghost use Rattle.std.specs.Prelude.{◌≡◌, ◌<◌, [], true, false, length, replicate, slice_set, IfOk, IfErr};
ghost use Rattle.smt_meaning.specs.Keeping.{keeping};
ghost use Rattle.smt_meaning.specs.Stack.{assertions_of};
ghost use Rattle.smt_meaning.specs.StackCommand.{start};
ghost use Rattle.scope_stack.specs.Trials.{marks};

use crate::asserted::Asserted;
use crate::stack::{ScopeStack, Stack};
use std::alloc::Global;
use std::marker::Model;

/// A stack, and of each of its assertions whether it is kept or left out.
#[derive(Drop)]
pub struct Trial {
    stack: Stack,
    kept: Vec<bool>,
}

impl Model for Trial {
    ghost use Rattle.scope_stack.specs.Trials.{Trial as TrialValue, coded_trial, AreMarks};

    ghost Value = { TrialValue };

    ghost coded = { coded_trial };

    ghost view = { λ t. record { stack = t.stack; kept = t.kept.items } };

    ghost invariant = { λ t. AreMarks t.stack t.kept.items };
}

impl Trial {
    /// A stack with nothing in it. It takes no memory.
    pub fn new(alloc: Global) -> Self
        ensures { result ≡ record { stack = start; kept = [] } }
    {
        Trial {
            stack: ScopeStack::new(alloc).into_stack(),
            kept: Vec::new(alloc),
        }
    }

    /// A stack of which nothing is left out. `Err`, for want of memory, gives it back.
    pub fn of(alloc: Global, stack: Stack) -> Result<Trial, Stack>
        ensures ok { IfOk result (λ t. t ≡ record { stack = stack; kept = replicate (length (assertions_of stack.frames)) true }) }
        ensures err { IfErr result (λ s. s ≡ stack) }
    {
        let count = stack.assertions().len();
        match vec![in alloc; true; count] {
            Ok(kept) => Ok(Trial { stack, kept }),
            Err(_) => Err(stack),
        }
    }

    /// Leaves the assertion at a place out. It takes no memory.
    pub fn leave_out(&mut self, place: u64)
        requires { marks self.old.kept place ≡ true }
        ensures { self.new ≡ record self.old { kept = slice_set self.old.kept place false } }
    {
        self.kept[place as usize] = false;
    }

    /// Puts the assertion back that is left out at a place. It takes no memory.
    pub fn put_back(&mut self, place: u64)
        requires within { place < length self.old.kept }
        requires out { marks self.old.kept place ≡ false }
        ensures { self.new ≡ record self.old { kept = slice_set self.old.kept place true } }
    {
        self.kept[place as usize] = true;
    }

    /// What a check sees of it: the same terms and levels, with copies of the assertions that are kept. `Err`, for want of memory, gives it back.
    pub fn thinned(self, alloc: Global) -> Result<Thinned, Trial>
        ensures ok { IfOk result (λ t. t ≡ self) }
        ensures err { IfErr result (λ t. t ≡ self) }
    {
        let Trial { stack, kept } = self;
        let Stack {
            table,
            terms,
            asserted,
            facts,
            needed,
            global,
        } = stack;
        match asserted.kept(alloc, &kept) {
            Ok(fewer) => {
                let stack = Stack {
                    table,
                    terms,
                    asserted: fewer,
                    facts,
                    needed,
                    global,
                };
                Ok(Thinned {
                    stack,
                    asserted,
                    kept,
                })
            }
            Err(_) => {
                let stack = Stack {
                    table,
                    terms,
                    asserted,
                    facts,
                    needed,
                    global,
                };
                Err(Trial { stack, kept })
            }
        }
    }

    /// The whole stack again. It takes no memory.
    pub fn whole(self) -> Stack
        ensures { result ≡ self.stack }
    {
        self.stack
    }
}

/// What a check sees of a stack of which some assertions are left out. All of its assertions stand beside it.
#[derive(Drop)]
pub struct Thinned {
    stack: Stack,
    asserted: Asserted,
    kept: Vec<bool>,
}

impl Model for Thinned {
    ghost use Rattle.scope_stack.specs.Inside.{stack_by};
    ghost use Rattle.scope_stack.specs.Seen.{names_of};
    ghost use Rattle.scope_stack.specs.Trials.{Trial as TrialValue, coded_trial, IsThinned};

    ghost Value = { TrialValue };

    ghost coded = { coded_trial };

    ghost view = { λ t. record { stack = stack_by t.stack.global (names_of t.stack) t.stack.trees t.asserted; kept = t.kept.items } };

    ghost invariant = { λ t. IsThinned t.stack t.asserted t.kept.items };
}

impl Thinned {
    /// What a check sees.
    pub fn stack(&self) -> &Stack
        ensures frames { result.now.frames ≡ keeping (marks self.now.kept) self.now.stack.frames }
        ensures trees { result.now.trees ≡ self.now.stack.trees }
    {
        &self.stack
    }

    /// The stack with its marks again. It takes no memory.
    pub fn trial(self) -> Trial
        ensures { result ≡ self }
    {
        let Thinned {
            stack,
            asserted,
            kept,
        } = self;
        let Stack {
            table,
            terms,
            facts,
            needed,
            global,
            ..
        } = stack;
        let stack = Stack {
            table,
            terms,
            asserted,
            facts,
            needed,
            global,
        };
        Trial { stack, kept }
    }
}
