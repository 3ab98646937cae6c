//! The levels of a run, its declarations, its assertions and its terms, and what a check sees of them.
ghost use Rattle.std.specs.Prelude.{◌≡◌, ◌≤◌, ◌<◌, unsigned_abs, IfSome, IfNone};

use crate::answers::{Asked, Assertion, Carried, StackError};
use crate::asserted::Asserted;
use crate::declare;
use crate::facts::{TermFacts, add_assertion, add_level};
use crate::few::{Few, few_terms};
use crate::lawful::reached_stacks_are_lawful;
use crate::term::{judge_assertion, judge_assumptions, judge_questions};
use crate::term_set::TermSet;
use smt_laws::{
    assumptions_are_commands, parts_are_among_the_trees, symbols_are_given, tree_equality_decides,
    trees_are_in_order,
};
use smt_meaning::language::{Parameter, WrittenSort};
use smt_meaning::{Bytes, Declaration, Refusal, SExpr, Seq, Sort, SymId};
use smt_sorts::Table;
use std::alloc::{AllocError, Global};
use std::marker::Model;
use term_store::TermStore;

/// How many terms there may be.
const MOST_TERMS: u32 = 4294967295;

/// How many levels there may be above level 0.
const MOST_LEVELS: u16 = u16::MAX;

/// The stack of a run: its levels with their declarations and assertions, and the terms that were judged since the start or the last reset.
#[derive(Drop)]
pub struct ScopeStack {
    table: Table,
    terms: TermStore,
    asserted: Asserted,
    facts: TermFacts,
    /// The terms that a check needs, found anew at each check.
    needed: TermSet,
    global: bool,
}

impl Model for ScopeStack {
    ghost use Rattle.smt_meaning.specs.StackCommand.{Stack as StackValue};
    ghost use Rattle.scope_stack.specs.StackCode.{coded_stack};

    ghost Value = { StackValue };

    ghost coded = { coded_stack };

    ghost use Rattle.scope_stack.specs.Inside.{stack_by};
    ghost use Rattle.scope_stack.specs.Facts.{IsKept};

    ghost view = { λ s. stack_by s.global s.table s.terms.trees s.asserted };

    ghost invariant = { λ s. IsKept s.global s.table s.terms s.asserted s.facts.sorts.items s.facts.levels.items };
}

/// The size of a count that is at most so large.
fn at_most(count: i128, most: u32) -> Option<u32>
    ensures some { IfSome result (λ n. (n ≡ unsigned_abs count) × (n ≤ most)) }
    ensures none { IfNone result (most < unsigned_abs count) }
{
    let size = count.unsigned_abs();
    if size <= most as u128 {
        Some(size as u32)
    } else {
        None
    }
}

impl ScopeStack {
    ghost use Rattle.std.specs.Prelude.{◌≡◌, ◌≤◌, ◌≢◌, [], ℕ, unsigned_abs, length, List, IfOk, IfErr, Some, None};
    ghost use Rattle.smt_meaning.specs.Stack.{depth, signature_of, cleared, Assertion as Assumption};
    ghost use Rattle.smt_meaning.specs.State.{name_of_sort};
    ghost use Rattle.smt_meaning.specs.declared.tokens.Token.{Token};
    ghost use Rattle.scope_stack.specs.declared.answers.Asked.{Asked};
    ghost use Rattle.smt_meaning.specs.declared.options.OptionSetting.TheVariants.{GlobalDeclarations};
    ghost use Rattle.smt_meaning.specs.StackCommand.{Stack as StackValue, start, changed, scope_of, sets, declare_sort, define_sort, declare_function, define_function, assert_term, push_levels, pop_levels};
    ghost use Rattle.scope_stack.specs.Carries.{Carries, Answers, IsAsked, IsAfterQuestion, Assumes, IsAssumed, IsUnderAssumptions};
    ghost use Rattle.scope_stack.specs.Inside.{IsReached};
    ghost use Rattle.scope_stack.specs.Shown.{AreAsserted, IsLawful};

    /// Level 0 alone, with nothing in it. It takes no memory.
    pub fn new(alloc: Global) -> Self
        ensures { result ≡ start }
    {
        ScopeStack {
            table: Table::new(alloc),
            terms: TermStore::new(alloc, MOST_TERMS),
            asserted: Asserted::new(alloc),
            facts: TermFacts::new(alloc),
            needed: TermSet::new(alloc),
            global: false,
        }
    }

    /// How many levels stand above level 0.
    pub fn depth(&self) -> u16
        ensures { result ≡ depth self.now.frames }
    {
        self.asserted.depth() as u16
    }

    /// The terms. Their list is the stack's.
    pub fn terms(&self) -> &TermStore
        ensures trees { result.now.trees ≡ self.now.trees }
        ensures limit { result.now.limit ≡ 4294967295 }
    {
        &self.terms
    }

    /// The declarations and definitions of all levels, in order.
    pub fn declarations(&self) -> &[Declaration]
        ensures { result.now ≡ signature_of self.now.frames }
    {
        self.table.declarations()
    }

    /// The name of the sort with this id, empty where there is none.
    pub fn sort_name(&self, id: SymId) -> &[u8]
        ensures { result.now ≡ name_of_sort id (signature_of self.now.frames) }
    {
        self.table.sort_name(id)
    }

    /// The assertions of all levels, in order.
    pub fn assertions(&self) -> &[Assertion]
        ensures { AreAsserted self.now result.now }
    {
        self.asserted.all()
    }

    /// `(declare-sort name arity)` (section 4.2.3).
    pub fn declare_sort(
        &mut self,
        alloc: Global,
        name: &[u8],
        arity: i128,
    ) -> Result<Carried, StackError>
        ensures { Carries (λ level. declare_sort name.now arity) self.old result self.new }
    {
        declare::declare_sort(alloc, &mut self.table, name, arity, self.global)
    }

    /// `(define-sort name (parameter ..) sort)` (section 4.2.3).
    pub fn define_sort(
        &mut self,
        alloc: Global,
        name: &[u8],
        parameters: &[Bytes],
        sort: &WrittenSort,
    ) -> Result<Carried, StackError>
        ensures { Carries (λ level. define_sort name.now parameters.now sort.now) self.old result self.new }
    {
        declare::define_sort(alloc, &mut self.table, name, parameters, sort, self.global)
    }

    /// `(declare-fun name (argument ..) sort)`, and `(declare-const name sort)`, where there is no argument (section 4.2.3).
    pub fn declare_function(
        &mut self,
        alloc: Global,
        name: &[u8],
        arguments: &[WrittenSort],
        sort: &WrittenSort,
    ) -> Result<Carried, StackError>
        ensures { Carries (λ level. declare_function name.now arguments.now sort.now) self.old result self.new }
    {
        declare::declare_function(alloc, &mut self.table, name, arguments, sort, self.global)
    }

    /// `(define-fun name (parameter ..) sort body)` (section 4.2.3).
    pub fn define_function(
        &mut self,
        alloc: Global,
        name: &[u8],
        parameters: &[Parameter],
        sort: &WrittenSort,
        body: &SExpr,
    ) -> Result<Carried, StackError>
        ensures { Carries (λ level. define_function name.now parameters.now sort.now body.now) self.old result self.new }
    {
        declare::define_function(
            alloc,
            &mut self.table,
            name,
            parameters,
            sort,
            body,
            self.global,
        )
    }

    /// `(assert term)` (section 4.2.4).
    pub fn assert_term(&mut self, alloc: Global, term: &SExpr) -> Result<Carried, StackError>
        ensures { Carries (λ level. assert_term term.now) self.old result self.new }
    {
        symbols_are_given();
        let text = term.copy(alloc)?;
        let ids = self.table.ids();
        let count = self.terms.len();
        let term = judge_assertion(alloc, term, &mut self.table, &mut self.terms)?;
        let assertion = Assertion { text, term };
        match add_assertion(
            &self.table,
            &self.terms,
            count,
            &mut self.facts,
            &mut self.asserted,
            assertion,
        ) {
            Ok(()) => Ok(Carried::Done),
            Err(_) => {
                self.table.cut_ids(ids);
                self.terms.cut(count);
                self.facts.cut(count);
                Err(StackError::Memory)
            }
        }
    }

    /// The terms of `(get-value (term ..))` (section 4.2.6).
    pub fn ask(&mut self, alloc: Global, terms: &[SExpr]) -> Result<Seq<Asked>, StackError>
        ensures { Answers terms.now self.old result self.new }
    {
        symbols_are_given();
        let count = self.terms.len();
        let asked = judge_questions(alloc, terms, &mut self.table, &mut self.terms)?;
        match self.facts.extend(&self.table, &self.terms, count) {
            Ok(()) => Ok(asked),
            Err(_) => {
                self.terms.cut(count);
                self.facts.cut(count);
                Err(StackError::Memory)
            }
        }
    }

    /// Takes the terms of the question back that was asked last, before which there were so many. It takes no memory.
    pub fn forget(&mut self, terms: u32)
        requires { IsAfterQuestion terms self.old }
        ensures { (texts : List (List Token)) (asked : List Asked) (t : StackValue) → length t.trees ≡ terms → IsAsked texts asked t self.old → self.new ≡ t }
    {
        tree_equality_decides();
        trees_are_in_order();
        parts_are_among_the_trees();
        self.terms.cut(terms);
        self.facts.cut(terms);
    }

    /// What is true of it.
    pub fn laws(&self)
        ensures { IsLawful self.now }
    {
        reached_stacks_are_lawful();
        let _ = self.terms.len();
    }

    /// The terms of `(check-sat-assuming (term ..))` (section 4.2.5): a level above the stack asserts them, until it is withdrawn or taken back.
    pub fn assume(&mut self, alloc: Global, terms: &[SExpr]) -> Result<(), StackError>
        ensures { Assumes terms.now self.old result self.new }
    {
        assumptions_are_commands();
        symbols_are_given();
        let count = self.terms.len();
        let depth = self.depth();
        let assumed = judge_assumptions(alloc, terms, depth, &mut self.table, &mut self.terms)?;
        match add_level(
            &self.table,
            &self.terms,
            count,
            &mut self.facts,
            &mut self.asserted,
            assumed,
        ) {
            Ok(()) => {
                self.table.push(1);
                Ok(())
            }
            Err(_) => {
                self.terms.cut(count);
                self.facts.cut(count);
                Err(StackError::Memory)
            }
        }
    }

    /// Takes the level of assumptions away. Their terms stay among the terms. It takes no memory.
    pub fn withdraw(&mut self)
        requires { (terms : ℕ) × IsUnderAssumptions terms self.old }
        ensures { (texts : List (List Token)) (assumed : List Assumption) (t : StackValue) → IsAssumed texts assumed t self.old → self.new ≡ record t { trees = self.old.trees } }
    {
        self.asserted.pop(1);
        self.table.pop(1);
    }

    /// Takes the level of assumptions away, with their terms, before which there were so many. It takes no memory.
    pub fn take_back(&mut self, terms: u32)
        requires { IsUnderAssumptions terms self.old }
        ensures { (texts : List (List Token)) (assumed : List Assumption) (t : StackValue) → length t.trees ≡ terms → IsAssumed texts assumed t self.old → self.new ≡ t }
    {
        tree_equality_decides();
        trees_are_in_order();
        parts_are_among_the_trees();
        self.asserted.pop(1);
        self.table.pop(1);
        self.terms.cut(terms);
        self.facts.cut(terms);
    }

    /// `(push count)` (section 4.2.2).
    pub fn push(&mut self, _alloc: Global, count: i128) -> Result<Carried, StackError>
        ensures { Carries (λ level. push_levels level (unsigned_abs count)) self.old result self.new }
    {
        let room = MOST_LEVELS - self.depth();
        let Some(levels) = at_most(count, room as u32) else {
            return Err(StackError::Refused(Refusal::TooManyLevels));
        };
        self.asserted.push(levels as usize)?;
        self.table.push(levels);
        Ok(Carried::Done)
    }

    /// `(pop count)` (section 4.2.2). It takes no memory.
    pub fn pop(&mut self, count: i128) -> Result<Carried, StackError>
        ensures carried { Carries (λ level. pop_levels level (unsigned_abs count)) self.old result self.new }
        ensures no_memory { result ≢ Err StackError.Memory }
    {
        let depth = self.depth();
        let Some(levels) = at_most(count, depth as u32) else {
            return Err(StackError::Refused(Refusal::PopPastLevelZero));
        };
        self.asserted.pop(levels as usize);
        self.table.pop(levels);
        Ok(Carried::Done)
    }

    /// Whether declarations are global.
    pub fn global(&self) -> bool
        ensures { result ≡ self.now.global }
    {
        self.global
    }

    /// `(set-option :global-declarations global)` (section 4.1.7): it is heeded where no level stands above level 0. It takes no memory.
    pub fn set_global(&mut self, global: bool)
        ensures { self.new ≡ changed self.old (sets (GlobalDeclarations global)) (scope_of self.old) }
    {
        if self.depth() == 0 {
            self.global = global;
        }
    }

    /// `(reset-assertions)` (section 4.2.2): where declarations are global, those of level 0 stay. It takes no memory.
    pub fn reset_assertions(&mut self)
        ensures { self.new ≡ record self.old { frames = cleared self.old.global self.old.frames } }
    {
        let _ = self.table.ids();
        self.asserted.clear();
        if self.global {
            self.table.clear_to_base();
        } else {
            self.table.clear();
        }
    }

    /// `(reset)` (section 4.2.1). It takes no memory.
    pub fn reset(&mut self)
        ensures { self.new ≡ start }
    {
        self.table.reset();
        self.terms.cut(0);
        self.facts.cut(0);
        self.asserted.clear();
        self.global = false;
    }

    /// All that a check may see of it. It takes no memory.
    pub fn into_stack(self) -> Stack
        ensures same { result ≡ self }
        ensures reached { IsReached result }
    {
        reached_stacks_are_lawful();
        let ScopeStack {
            table,
            terms,
            asserted,
            facts,
            needed,
            global,
        } = self;
        Stack {
            table,
            terms,
            asserted,
            facts,
            needed,
            global,
        }
    }

    /// Takes back all that a check saw of it. It takes no memory.
    pub fn of(stack: Stack) -> Self
        requires { IsReached stack }
        ensures { result ≡ stack }
    {
        let Stack {
            table,
            terms,
            asserted,
            facts,
            needed,
            global,
        } = stack;
        ScopeStack {
            table,
            terms,
            asserted,
            facts,
            needed,
            global,
        }
    }

    /// What a check needs of it: its levels, with the terms of their assertions alone. `Err` gives it back where most terms are needed, or memory is wanting.
    pub fn part(self, alloc: Global) -> Result<Part, ScopeStack>
        ensures ok { IfOk result (λ p. p ≡ self) }
        ensures err { IfErr result (λ s. s ≡ self) }
    {
        reached_stacks_are_lawful();
        let ScopeStack {
            table,
            terms,
            asserted,
            facts,
            mut needed,
            global,
        } = self;
        match few_terms(alloc, &table, &terms, &asserted, &mut needed) {
            Ok(Some(few)) => {
                let stack = Stack {
                    table,
                    terms: few.terms,
                    asserted: few.asserted,
                    facts: few.facts,
                    needed,
                    global,
                };
                Ok(Part {
                    stack,
                    terms,
                    asserted,
                    facts,
                })
            }
            Ok(None) | Err(_) => Err(ScopeStack {
                table,
                terms,
                asserted,
                facts,
                needed,
                global,
            }),
        }
    }
}

/// What a check sees of a stack: its levels with their declarations and assertions, and terms, those of the assertions among them.
#[derive(Drop)]
pub struct Stack {
    pub(crate) table: Table,
    pub(crate) terms: TermStore,
    pub(crate) asserted: Asserted,
    pub(crate) facts: TermFacts,
    /// Nothing but room, for the checks to come.
    pub(crate) needed: TermSet,
    pub(crate) global: bool,
}

impl Model for Stack {
    ghost use Rattle.smt_meaning.specs.StackCommand.{Stack as StackValue};
    ghost use Rattle.scope_stack.specs.StackCode.{coded_stack};

    ghost Value = { StackValue };

    ghost coded = { coded_stack };

    ghost use Rattle.scope_stack.specs.Inside.{stack_by};
    ghost use Rattle.scope_stack.specs.Seen.{IsSeen};

    ghost view = { λ s. stack_by s.global s.table s.terms.trees s.asserted };

    ghost invariant = { λ s. IsSeen s.global s.table s.terms s.asserted s.facts.sorts.items s.facts.levels.items };
}

impl Stack {
    ghost use Rattle.std.specs.Prelude.{◌≡◌, length, map, List, OnOk, OnErr, IfSome, IfNone, Some, None};
    ghost use Rattle.smt_meaning.specs.StackCommand.{Stack as StackValue};
    ghost use Rattle.smt_meaning.specs.Stack.{Assertion as Assumption};
    ghost use Rattle.scope_stack.specs.Carries.{under};
    ghost use Rattle.scope_stack.specs.Inside.{asserted_by};
    ghost use Rattle.scope_stack.specs.Raised.{MayAssertAbove, StandsAbove};
    ghost use Rattle.smt_meaning.specs.Signature.{function_with_id};
    ghost use Rattle.smt_meaning.specs.Stack.{depth, signature_of};
    ghost use Rattle.scope_stack.specs.Shown.{AreAsserted, IsLawful};
    ghost use Rattle.scope_stack.specs.Facts.{AreSorts, AreLevels};

    /// How many levels stand above level 0.
    pub fn depth(&self) -> u16
        ensures { result ≡ depth self.now.frames }
    {
        self.asserted.depth() as u16
    }

    /// Whether declarations are global.
    pub fn global(&self) -> bool
        ensures { result ≡ self.now.global }
    {
        self.global
    }

    /// The terms. Their list is the stack's.
    pub fn terms(&self) -> &TermStore
        ensures trees { result.now.trees ≡ self.now.trees }
        ensures limit { result.now.limit ≡ 4294967295 }
    {
        &self.terms
    }

    /// The sorts of the terms, by their places. Of a term that no longer has one it is any.
    pub fn sorts(&self) -> &[Sort]
        ensures { AreSorts (signature_of self.now.frames) self.now.trees (length self.now.trees) result.now }
    {
        self.facts.sorts.as_slice()
    }

    /// The levels of the terms, by their places: each is the least with all symbols of its term. Of a term with a symbol that is no longer declared it is any.
    pub fn levels(&self) -> &[u16]
        ensures { AreLevels self.now.frames self.now.trees (length self.now.trees) result.now }
    {
        self.facts.levels.as_slice()
    }

    /// The declarations and definitions of all levels, in order.
    pub fn declarations(&self) -> &[Declaration]
        ensures { result.now ≡ signature_of self.now.frames }
    {
        self.table.declarations()
    }

    /// The function with this id.
    pub fn function_with_id(&self, id: SymId) -> Option<&Declaration>
        ensures some { IfSome result (λ d. function_with_id id (signature_of self.now.frames) ≡ Some d.now) }
        ensures none { IfNone result (function_with_id id (signature_of self.now.frames) ≡ None) }
    {
        self.table.function_with_id(id)
    }

    /// The assertions of all levels, in order.
    pub fn assertions(&self) -> &[Assertion]
        ensures { AreAsserted self.now result.now }
    {
        self.asserted.all()
    }

    /// What is true of every stack.
    pub fn laws(&self)
        ensures { IsLawful self.now }
    {
        let _ = &self.terms;
    }

    /// Adds a level above, with these assertions. An `Err`, for want of memory, changes nothing.
    pub fn raise(&mut self, assertions: Seq<Assertion>) -> Result<(), AllocError>
        requires { MayAssertAbove assertions self.old }
        ensures ok { OnOk result (self.new ≡ under (map (asserted_by self.old.trees) assertions) self.old) }
        ensures stands { OnOk result (StandsAbove self.new) }
        ensures err { OnErr result (self.new ≡ self.old) }
    {
        self.asserted.add_level(assertions.into_vec())?;
        self.table.push(1);
        Ok(())
    }

    /// Takes a level away that stands above. It takes no memory.
    pub fn lower(&mut self)
        requires { StandsAbove self.old }
        ensures { (xs : List Assumption) (t : StackValue) → self.old ≡ under xs t → self.new ≡ t }
    {
        self.asserted.pop(1);
        self.table.pop(1);
    }
}

/// A stack, with a part of it that a check may see: the same levels, and fewer terms.
#[derive(Drop)]
pub struct Part {
    stack: Stack,
    terms: TermStore,
    asserted: Asserted,
    facts: TermFacts,
}

impl Model for Part {
    ghost use Rattle.smt_meaning.specs.StackCommand.{Stack as StackValue};
    ghost use Rattle.scope_stack.specs.StackCode.{coded_stack};

    ghost Value = { StackValue };

    ghost coded = { coded_stack };

    ghost use Rattle.scope_stack.specs.Inside.{stack_by};
    ghost use Rattle.scope_stack.specs.Seen.{names_of, IsPartOf};

    ghost view = { λ p. stack_by p.stack.global (names_of p.stack) p.terms.trees p.asserted };

    ghost invariant = { λ p. IsPartOf p.stack p.terms p.asserted p.facts.sorts.items p.facts.levels.items };
}

impl Part {
    ghost use Rattle.std.specs.Prelude.{◌≡◌};

    /// What a check sees.
    pub fn stack(&self) -> &Stack
        ensures { result.now.frames ≡ self.now.frames }
    {
        &self.stack
    }

    /// The whole again. It takes no memory.
    pub fn whole(self) -> ScopeStack
        ensures { result ≡ self }
    {
        let Part {
            stack,
            terms,
            asserted,
            facts,
        } = self;
        let Stack {
            table,
            needed,
            global,
            ..
        } = stack;
        ScopeStack {
            table,
            terms,
            asserted,
            facts,
            needed,
            global,
        }
    }
}
