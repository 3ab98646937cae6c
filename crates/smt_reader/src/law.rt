//! That an input reads in one way, also where white space and comments are let go, as the contracts of functions that do nothing.
ghost use Rattle.std.specs.Prelude.{◌≡◌, ◌↔◌, ◌++◌, ℕ, List, true};
ghost use Rattle.smt_meaning.specs.Reading.{Answer, First, IsSExpr, IsSettled, Takes, Unread};
ghost use Rattle.smt_meaning.specs.declared.tokens.Token.{Token};
ghost use Rattle.smt_reader.specs.Reader.{Skips};

/// The law that every input reads in one way: at most one thing comes first in it, and at most one answer is settled by the bytes so far.
pub fn reads_in_one_way()
    ensures first { (place : ℕ) → (bytes : List ℕ) → (a : Answer) → (b : Answer)
        → First place bytes a → First place bytes b → a ≡ b }
    ensures settled { (u : Unread) → (a : Answer) → (b : Answer)
        → IsSettled u a → IsSettled u b → a ≡ b }
{}

/// The law that nothing else changes where a reader lets white space and comments go: the same answers are settled, and each s-expression is taken with the same rest; and so it is after several such steps, and where more bytes come or none do.
pub fn skips_nothing_else()
    ensures settled { (old : Unread) → (new : Unread) → (a : Answer)
        → Skips old new → (IsSettled old a ↔ IsSettled new a) }
    ensures takes { (old : Unread) → (new : Unread) → (tokens : List Token) → (later : Unread)
        → Skips old new → IsSExpr tokens → (Takes old tokens later ↔ Takes new tokens later) }
    ensures twice { (u : Unread) → (v : Unread) → (w : Unread) → Skips u v → Skips v w → Skips u w }
    ensures fed { (old : Unread) → (new : Unread) → (piece : List ℕ) → Skips old new
        → Skips (record old { bytes = old.bytes ++ piece }) (record new { bytes = new.bytes ++ piece }) }
    ensures finished { (old : Unread) → (new : Unread) → Skips old new
        → Skips (record old { finished = true }) (record new { finished = true }) }
{}
