//! The values of terms under a kept model (SMT-LIB 2.6, section 4.2.6).
ghost use Rattle.std.specs.Prelude.{◌≡◌, ◌<◌, true, false, length, map, All, IfOk, IfErr, OnErr, OnOk};
ghost use Rattle.smt_meaning.specs.Interpretation.{meaning};
ghost use Rattle.smt_meaning.specs.Stack.{signature_of};
ghost use Rattle.smt_meaning.specs.State.{all_fit, term_values as values_of_terms};
ghost use Rattle.scope_stack.specs.Carries.{typed_by};
ghost use Rattle.session.specs.Above.{StandIn};
ghost use Rattle.session.specs.Effects.{ComesOfQuestion};
ghost use Rattle.session.specs.Shown.{IsUnfit};

use crate::carry::refused;
use crate::printed::term_values;
use model_eval::{EvalError, values};
use scope_stack::{Asked, ScopeStack, StackError};
use smt_meaning::language::{Error, Reply, TermValue};
use smt_meaning::{Interp, SExpr, Seq, TermId};
use std::alloc::{AllocError, Global};

/// The reply to `(get-value (term ..))` under a kept model. An `Err`, for want of memory, changes nothing.
pub fn values_of(
    alloc: Global,
    model: &Interp,
    stack: &mut ScopeStack,
    terms: &[SExpr],
) -> Result<Reply, AllocError>
    ensures ok { IfOk result (λ r. ComesOfQuestion model.now terms.now stack.old r stack.new) }
    ensures trees { StandIn stack.old.trees stack.new.trees }
    ensures err { OnErr result (stack.new ≡ stack.old) }
{
    let count = stack.terms().len();
    let asked = match stack.ask(alloc, terms) {
        Ok(asked) => asked,
        Err(StackError::Refused(why)) => return refused(alloc, b"get-value", why),
        Err(StackError::Memory) => return Err(AllocError),
    };
    match evaluated(alloc, model, stack, terms, asked.as_slice()) {
        Ok(values) => Ok(Reply::Values(values)),
        Err(EvalError::Range(_)) => {
            stack.forget(count);
            Ok(Reply::Error(Error::ValueTooLarge))
        }
        Err(EvalError::Memory) => {
            stack.forget(count);
            Err(AllocError)
        }
    }
}

/// Terms as they were given, with their values under a model. `Range` comes where one has a value, or a partial result, past the range.
fn evaluated(
    alloc: Global,
    model: &Interp,
    stack: &ScopeStack,
    terms: &[SExpr],
    asked: &[Asked],
) -> Result<Seq<TermValue>, EvalError>
    requires { All (λ a. a.term < length stack.now.trees) asked.now }
    ensures fits { OnOk result (all_fit (meaning model.now) (typed_by stack.now.trees asked.now) ≡ true) }
    ensures values { IfOk result (λ vs. vs ≡ values_of_terms (signature_of stack.now.frames) (meaning model.now) terms.now (typed_by stack.now.trees asked.now)) }
    ensures cause { IfErr result (λ e. IsUnfit e (all_fit (meaning model.now) (typed_by stack.now.trees asked.now))) }
{
    let ids = places(alloc, asked)?;
    let found = match values(alloc, model, stack.terms(), ids.as_slice()) {
        Ok(found) => found,
        Err(error) => return Err(error),
    };
    match term_values(alloc, stack, terms, asked, found.as_slice()) {
        Ok(values) => Ok(values),
        Err(AllocError) => Err(EvalError::Memory),
    }
}

/// The places of terms.
fn places(alloc: Global, asked: &[Asked]) -> Result<Vec<TermId>, AllocError>
    ensures { IfOk result (λ ids. ids.items ≡ map (λ a. a.term) asked.now) }
{
    asked.iter().map(|term| term.term).collect(alloc)
}
