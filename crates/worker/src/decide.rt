//! The search.
ghost use Rattle.std.specs.Prelude.{◌≡◌, [], false};
ghost use Rattle.smt_meaning.specs.Kinds.{has_no_integers};
ghost use Rattle.smt_laws.specs.Flat.{flat};
ghost use Rattle.worker.specs.Endings.{IsFound, IsHeard, MemoryAloneIsFound};
ghost use Rattle.worker.specs.Start.{IsStart};

use crate::ending::{all_spent, stopped};
use crate::limits::{has_limit, may_forget, units_within};
use cdcl_core::fresh_stands;
use cdcl_core::hook::Hook;
use cdcl_core::solve::{Outcome, solve};
use clause_store::store::Store;
use first_clauses::{empty_clause_means_no_model, first_clauses_say_assertions, signature_stays};
use scope_stack::Stack;
use search_order::Order;
use search_port::{
    Budget, Cause as Ending, Shown, follows_as_written, forces_by_numbers, forces_in_turn,
};
use smt_laws::flat_says_the_same;
use smt_meaning::{Interp, Report, Settings};
use std::alloc::Global;

/// What a search comes to.
#[derive(Drop)]
pub(crate) enum Found {
    /// These tables are a model.
    Model(Interp),
    NoModel,
    /// It isn't found out, and the worker shows why.
    Report(Report),
    /// The hook stopped it: the worker with this number has answered.
    Cancelled(u8),
}

/// Searches from the first clauses on, with a theory that was told nothing and made no pivot: a model of all of them under which each number is in the range is one of the
/// assertions, and where the empty clause follows, they have none. The hook is called between any two units. Where the search ends otherwise, its worker shows why: want of memory,
/// if there is no limit and no part is an Int. Where there is none, workers but the first may forget what they learn.
pub(crate) fn search<T: Shown, H: Hook<T>>(
    alloc: Global,
    stack: &Stack,
    settings: &Settings,
    is_integer_free: bool,
    worker: u8,
    mut theory: T,
    mut store: Store,
    hook: &mut H,
) -> Found
    requires may { H.may hook.old }
    requires hooked { H.reading hook.old ≡ record { trees = stack.now.trees; frames = flat stack.now.frames; table = []; closed = false } }
    requires integers { is_integer_free ≡ has_no_integers stack.now.frames }
    requires start { IsStart T.agrees stack.now (T.state theory) store }
    ensures found { IsFound stack.now settings.now.units worker (H.stopped hook.new) result }
    ensures memory { MemoryAloneIsFound stack.now.frames settings.now.units result }
    ensures heard { IsHeard settings.now.share (λ calls. H.later hook.old calls hook.new) }
{
    stack.laws();
    first_clauses_say_assertions();
    signature_stays();
    empty_clause_means_no_model();
    fresh_stands();
    flat_says_the_same();
    follows_as_written();
    forces_by_numbers();
    forces_in_turn();
    let mut order = Order::new(alloc, settings.seed, worker);
    let limit = units_within(settings);
    let limited = has_limit(settings);
    let forgets = may_forget(settings, worker);
    let mut budget = Budget::new(alloc, limit, limited | forgets, limited, settings.share);
    match solve(
        alloc,
        &mut order,
        forgets,
        &mut store,
        &mut theory,
        &mut budget,
        hook,
    ) {
        Outcome::Full(tables) => Found::Model(tables),
        Outcome::False(_) => Found::NoModel,
        Outcome::Ended(Ending::Units) => Found::Report(all_spent(
            alloc,
            stack,
            settings,
            is_integer_free,
            worker,
            theory,
            budget,
        )),
        Outcome::Ended(Ending::Memory) => {
            Found::Report(stopped(alloc, stack, settings, worker, theory))
        }
        Outcome::Ended(Ending::Cancelled(other)) => Found::Cancelled(other),
    }
}
