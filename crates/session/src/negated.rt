//! Terms for which there is no room: whether one would be a number.
ghost use Rattle.std.specs.Prelude.{◌≡◌, ◌∷◌, [], IfOk};
ghost use Rattle.smt_meaning.specs.Sorts.{refused};
ghost use Rattle.smt_meaning.specs.StackCommand.{judged};
ghost use Rattle.scope_stack.specs.Carries.{question};
ghost use Rattle.session.specs.Minimized.{minimization, negation, refusal_told};
ghost use Rattle.smt_meaning.specs.declared.refusals.Refusal.TheVariants.{TooManyTerms};

use scope_stack::{ScopeStack, StackError};
use smt_laws::{s_expressions_read_back, tokens_read_back};
use smt_meaning::{Inner, Refusal, SExpr, Seq, TokenView, Tokens};
use std::alloc::{AllocError, Global};

/// `(- t)`
fn negated(alloc: Global, text: &Inner) -> Result<SExpr, AllocError>
    ensures { IfOk result (λ s. s ≡ negation text.now) }
{
    let sexpr = text.sexpr();
    let mut tokens = Tokens::new(alloc);
    tokens.push(TokenView::Enter)?;
    tokens.push(TokenView::Symbol(b"-"))?;
    for place in 0..sexpr.len() {
        tokens.push(sexpr.token(place))?;
    }
    tokens.push(TokenView::Leave)?;
    Ok(tokens.into_sexpr())
}

/// Why the least value of a term isn't sought, for which there is no room, where its negation is refused so: only a number has one.
fn told(alloc: Global, why: Refusal) -> Result<Refusal, AllocError>
    ensures { IfOk result (λ r. r ≡ refusal_told why) }
{
    match why {
        Refusal::SortsDiffer(_) => Ok(Refusal::SortsDiffer(Seq::copy(alloc, b"minimize")?)),
        _ => Ok(Refusal::TooManyTerms),
    }
}

/// Why the least value of a term isn't sought, for which there is no room. Its sort is tested first.
fn refusal_without_room(
    alloc: Global,
    stack: &mut ScopeStack,
    text: &Inner,
) -> Result<Refusal, AllocError>
    requires { judged (question (text.now ∷ [])) stack.old ≡ refused TooManyTerms }
    ensures stays { stack.new ≡ stack.old }
    ensures refused { IfOk result (λ r. judged (minimization text.now) stack.old ≡ refused r) }
{
    s_expressions_read_back();
    tokens_read_back();
    let _ = text.sexpr().len();
    let count = stack.terms().len();
    let mut texts = Seq::new(alloc);
    texts.push(negated(alloc, text)?)?;
    match stack.ask(alloc, texts.as_slice()) {
        Ok(_) => {
            stack.forget(count);
            Ok(Refusal::TooManyTerms)
        }
        Err(StackError::Refused(why)) => told(alloc, why),
        Err(StackError::Memory) => Err(AllocError),
    }
}

/// Why the least value of a term isn't sought, whose question is refused so.
#[tactic(auto, using(crate::proofs::LeastSteps::refused_alike))]
pub(crate) fn refusal_asked(
    alloc: Global,
    stack: &mut ScopeStack,
    text: &Inner,
    why: Refusal,
) -> Result<Refusal, AllocError>
    requires { judged (question (text.now ∷ [])) stack.old ≡ refused why }
    ensures stays { stack.new ≡ stack.old }
    ensures refused { IfOk result (λ r. judged (minimization text.now) stack.old ≡ refused r) }
{
    match why {
        Refusal::TooManyTerms => refusal_without_room(alloc, stack, text),
        why => Ok(why),
    }
}
