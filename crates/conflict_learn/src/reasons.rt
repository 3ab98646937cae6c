//! What the store says of the steps of its trail.
ghost use Rattle.std.specs.Prelude.{◌≡◌, ℕ, ◌<◌, ◌≤◌, List, All, Contains, Option, Some, length, slice_index_or, ◌⊎◌};
ghost use Rattle.literals.specs.Signed.{Signed, opposite};
ghost use Rattle.clause_store.specs.Stored.{AllFalse, IsFalseOn};
ghost use Rattle.clause_store.specs.Found.{HasKept};
ghost use Rattle.conflict_learn.specs.Analysing.{step_at, IsFalseBelow, FollowsAt};

use clause_store::rows::Looked;
use clause_store::store::Store;
use clause_store::trail::Step;
use literals::Literal;

// The step at this place.
pub fn step(store: &Store, place: usize) -> Step
    requires { place < length store.now.trail.steps }
    ensures { result ≡ step_at store.now.trail.steps place }
{
    store.steps()[place]
}

// The reason of a step that isn't the first of its depth, or is of depth 0.
pub fn reason_at(store: &Store, place: usize) -> u64
    requires within { place < length store.now.trail.steps }
    requires follows { FollowsAt store.now.trail.steps place }
    ensures { (step_at store.now.trail.steps place).reason ≡ Some result }
{
    let steps = store.steps();
    steps[place].reason.unwrap()
}

// The place of the step by which a literal is false.
pub fn place_of(store: &Store, below: usize, depth: u32, literal: Literal) -> usize
    requires within { below ≤ length store.now.trail.steps }
    requires is_false { IsFalseBelow store.now.trail.steps below depth literal }
    ensures below { result < below }
    ensures is { (step_at store.now.trail.steps result).literal ≡ opposite literal }
    ensures shallow { (step_at store.now.trail.steps result).depth ≤ depth }
{
    let _steps = store.steps();
    store.place(literal.negated())
}

// A look at the clause by which the step at this place was forced.
pub fn look_at_reason(store: &mut Store, place: usize, reason: u64) -> Looked
    requires within { place < length store.old.trail.steps }
    requires reason { (step_at store.old.trail.steps place).reason ≡ Some reason }
    ensures same { store.new ≡ store.old }
    ensures clause { result ≡ reason }
    ensures kept { HasKept store.old.clauses reason (λ ls. Unit {0}) }
{
    let _steps = store.steps();
    store.look(reason)
}

// Its literals.
pub fn reason_literals<'a>(
    store: &'a Store,
    place: usize,
    reason: u64,
    looked: Looked,
) -> &'a [Literal]
    requires within { place < length store.now.trail.steps }
    requires reason { (step_at store.now.trail.steps place).reason ≡ Some reason }
    requires looked { looked ≡ reason }
    ensures kept { HasKept store.now.clauses reason (λ ls. result.now ≡ ls) }
    ensures others { All (λ m. (Some (step_at store.now.trail.steps place).literal ≡ Some m) ⊎ IsFalseBelow store.now.trail.steps place (step_at store.now.trail.steps place).depth m) result.now }
{
    let _steps = store.steps();
    store.literals(looked)
}

// The literals of a kept clause that is false.
pub fn false_literals<'a>(store: &'a Store, id: u64, looked: Looked) -> &'a [Literal]
    requires false_clause { HasKept store.now.clauses id (AllFalse store.now.trail.steps) }
    requires looked { looked ≡ id }
    ensures kept { HasKept store.now.clauses id (λ ls. result.now ≡ ls) }
    ensures all_false { AllFalse store.now.trail.steps result.now }
{
    let _steps = store.steps();
    store.literals(looked)
}

// The place of the step by which a literal is false.
pub fn false_place(store: &Store, literal: Literal) -> usize
    requires { IsFalseOn store.now.trail.steps literal }
    ensures within { result < length store.now.trail.steps }
    ensures is { (step_at store.now.trail.steps result).literal ≡ opposite literal }
{
    let _steps = store.steps();
    store.place(literal.negated())
}
