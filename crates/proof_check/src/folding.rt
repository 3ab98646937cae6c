//! Commands are folded up to `(get-proof)`: the session carries them out, and their replies are
//! thrown away.
ghost use Rattle.std.specs.Prelude.{◌≡◌, ◌↔◌, ℕ, length, IfOk, IsTrue};
ghost use Rattle.smt_meaning.specs.declared.answers.Reply.{Reply as ReplyValue};
ghost use Rattle.smt_meaning.specs.declared.replies.Kept.{Kept as KeptValue};
ghost use Rattle.smt_meaning.specs.declared.tokens.Token.TheVariants.{Enter, Leave, Symbol};
ghost use Rattle.smt_meaning.specs.LegalJournal.{IsExit};
ghost use Rattle.smt_meaning.specs.MayReply.{Replies};
ghost use Rattle.smt_meaning.specs.Seen.{seen};
ghost use Rattle.ports.specs.Flow.{SourceTold};
ghost use Rattle.proof_check.specs.Folds.{get_proof};
ghost use Rattle.proof_check.specs.Progress.{HasRoom, IsAsked, SoFar, folded};
ghost use Rattle.session.specs.Taken.{every_stack};

use crate::intake::{Halt, Intake};
use crate::undecided::Undecided;
use ports::Source;
use session::{Done, Session};
use smt_meaning::{SExpr, TokenView};
use std::alloc::{AllocError, Global};

fn is_enter(token: TokenView<'_>) -> bool
    ensures { IsTrue result ↔ (seen token.entry ≡ Enter) }
{
    matches!(token, TokenView::Enter)
}

fn is_leave(token: TokenView<'_>) -> bool
    ensures { IsTrue result ↔ (seen token.entry ≡ Leave) }
{
    matches!(token, TokenView::Leave)
}

/// Whether a token is the symbol of this name.
fn is_symbol(token: TokenView<'_>, name: &[u8]) -> bool
    ensures { IsTrue result ↔ (seen token.entry ≡ Symbol name.now) }
{
    match token {
        TokenView::Symbol(symbol) => symbol == name,
        _ => false,
    }
}

/// Whether an s-expression is `(get-proof)`.
fn is_get_proof(sexpr: &SExpr) -> bool
    ensures { IsTrue result ↔ (sexpr.now ≡ get_proof) }
{
    sexpr.len() == 3
        && is_enter(sexpr.token(0))
        && is_symbol(sexpr.token(1), b"get-proof")
        && is_leave(sexpr.token(2))
}

/// Whether a run stops at an answer, which is thrown away.
fn stops(done: Done) -> bool
    ensures { result ≡ done.stop }
{
    done.stop
}

/// Folds an s-expression, and says whether it is an exit. An `Err` is for want of memory.
fn fold(alloc: Global, session: &mut Session, sexpr: &SExpr) -> Result<bool, AllocError>
    ensures reply { IfOk result (λ stop. (reply : ReplyValue) × (kept : KeptValue) × Replies every_stack session.old sexpr.now reply kept session.new) }
    ensures stop { IfOk result (λ stop. IsTrue stop ↔ IsExit sexpr.now) }
{
    let done = session.reply_to(alloc, sexpr, &mut Undecided)?;
    Ok(stops(done))
}

/// Folds the commands up to `(get-proof)`, which is then read. `false` where none comes before an exit, a lexical fault or the end.
pub fn fold_commands<S: Source>(
    alloc: Global,
    intake: &mut Intake,
    source: &mut S,
    buf: &mut [u8],
    session: &mut Session,
) -> Result<bool, Halt>
    requires room { HasRoom intake.old }
    requires buffer { length buf.old ≡ 65536 }
    ensures room { HasRoom intake.new }
    ensures asked { (budget : ℕ) (first : SourceTold) → SoFar budget first (S.told source.old) (folded session.old) intake.old
        → IsAsked budget first (S.told source.new) result session.new intake.new }
{
    while let Some(sexpr) = intake.next(alloc, source, buf)? {
        if is_get_proof(&sexpr) {
            return Ok(true);
        }
        if fold(alloc, session, &sexpr)? {
            return Ok(false);
        }
    }
    Ok(false)
}
