//! How far a clause that is added asks to take decisions back.
ghost use Rattle.std.specs.Prelude.{◌≡◌, ℕ, ◌<◌, ◌≤◌, min, max, List, [], ◌∷◌, ◌++◌, Contains, All, length};
ghost use Rattle.literals.specs.Signed.{Signed};
ghost use Rattle.clause_store.specs.Trail.{Assigns, up_to};
ghost use Rattle.clause_store.specs.declared.trail.Step.{Step};
ghost use Rattle.cdcl_core.specs.Search.{IsNarrow, IsQuietBelow};
ghost use Rattle.clause_store.specs.From.{IsFrom};
ghost use Rattle.cdcl_core.specs.Quiet.{IsLatest, IsLongest, Lasts};

use clause_store::store::Store;
use clause_store::trail::Status;
use literals::Literal;

// Below depth `until` a literal isn't false, and from there on it is; below depth `from` it isn't true, and from there on it is.
#[derive(Clone, Copy)]
pub struct Span {
    until: u32,
    from: u32,
}

// Of a clause: a literal that isn't false below depth `until`; two different ones aren't below depth `both`, from where on all but the one are; one is true from depth `from` on, and none below.
#[derive(Clone, Copy)]
pub struct Latest {
    literal: Literal,
    until: u32,
    both: u32,
    from: u32,
}

// The depth of the step of a literal that is true.
fn depth_of(store: &Store, literal: Literal) -> u32
    requires known { literal.atom < store.now.trail.atoms }
    requires assigned { Assigns store.now.trail.steps literal }
    ensures { IsFrom store.now.trail.steps literal result }
{
    let steps = store.steps();
    let place = store.place(literal);
    steps[place].depth
}

fn span_of(store: &Store, literal: Literal) -> Span
    requires { literal.atom < store.now.trail.atoms }
    ensures { Lasts store.now.trail.steps literal result }
{
    let _steps = store.steps();
    match store.status(literal) {
        Status::Open => Span {
            until: u32::MAX,
            from: u32::MAX,
        },
        Status::True => Span {
            until: u32::MAX,
            from: depth_of(store, literal),
        },
        Status::False => Span {
            until: depth_of(store, literal.negated()),
            from: u32::MAX,
        },
    }
}

fn least(a: u32, b: u32) -> u32
    ensures { result ≡ min a b }
{
    if a < b { a } else { b }
}

fn greatest(a: u32, b: u32) -> u32
    ensures { result ≡ max a b }
{
    if a < b { b } else { a }
}

// A literal of the clause joins those that were looked at.
fn joined(latest: Latest, literal: Literal, span: Span) -> Latest
    ensures latest { (steps : List Step) (ls : List Signed) → Contains ls literal → Lasts steps literal span → IsLatest steps ls latest → IsLatest steps ls result }
    ensures longest { (steps : List Step) (seen : List Signed) → Lasts steps literal span → IsLongest steps seen latest → IsLongest steps (seen ++ literal ∷ []) result }
{
    let from = least(latest.from, span.from);
    if literal == latest.literal {
        return Latest {
            literal: latest.literal,
            until: latest.until,
            both: latest.both,
            from,
        };
    }
    if span.until > latest.until {
        return Latest {
            literal,
            until: span.until,
            both: latest.until,
            from,
        };
    }
    let both = greatest(latest.both, span.until);
    Latest {
        literal: latest.literal,
        until: latest.until,
        both,
        from,
    }
}

fn look(store: &Store, literals: &[Literal]) -> Latest
    requires some { 0 < length literals.now }
    requires known { All (λ (l : Signed). l.atom < store.now.trail.atoms) literals.now }
    ensures latest { IsLatest store.now.trail.steps literals.now result }
    ensures longest { IsLongest store.now.trail.steps literals.now result }
{
    let literal = literals[0];
    let first = span_of(store, literal);
    let mut latest = Latest {
        literal,
        until: first.until,
        both: 0,
        from: first.from,
    };
    for literal in literals {
        latest = joined(latest, *literal, span_of(store, *literal));
    }
    latest
}

// The greatest depth below which the clause is quiet, at most the present one. Where it is less, there all its literals are false but one, which isn't true.
pub fn quiet_below(store: &Store, literals: &[Literal]) -> u32
    requires known { All (λ (l : Signed). l.atom < store.now.trail.atoms) literals.now }
    ensures within { result ≤ store.now.trail.depth }
    ensures quiet { IsQuietBelow store.now literals.now result }
    ensures narrow { result < store.now.trail.depth → 0 < length literals.now → IsNarrow (up_to result store.now.trail.steps) literals.now }
{
    let _steps = store.steps();
    let depth = store.depth();
    if literals.is_empty() {
        return 0;
    }
    let latest = look(store, literals);
    if latest.from <= latest.both {
        return depth;
    }
    least(latest.both, depth)
}
