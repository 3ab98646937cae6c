//! A race by steps of the pure machine.
ghost use Rattle.std.specs.Prelude.{◌≡◌, [], ◌∷◌, IfOk, IfSome, IsTrue};
ghost use Rattle.race_model.specs.Base.{base_of};
ghost use Rattle.race_model.specs.Race.{state_of};
ghost use Rattle.smt_meaning.specs.declared.tokens.Token.TheVariants.{Enter, Leave, Symbol};
ghost use Rattle.unit_tests.specs.Proposition.{asserting, declared, denied, empty_at_one, p, raised, stated};

use race_model::{Addition, Event, Formula, Level, Levels, Premise, RaceState, Worker};
use smt_meaning::{
    Atom, Clause, Declaration, Head, Literal, Node, Operator, Rank, SExpr, Seq, Sort, TermId,
    Terms, TokenView, Tokens,
};
use std::alloc::{AllocError, Global};
use std::test::Fail;

// p, of sort Bool.
fn declare_p(alloc: Global) -> Result<Declaration, AllocError>
    ensures { IfOk result (λ d. d ≡ p) }
{
    let rank = Rank {
        arguments: Seq::new(alloc),
        result: Sort::Bool,
    };
    let name = Seq::copy(alloc, b"p")?;
    Ok(Declaration::function(0, name, rank, None))
}

// p at place 0, and its negation at place 1.
fn terms(alloc: Global) -> Result<Terms, AllocError>
    ensures { IfOk result (λ t. t ≡ declared.trees) }
{
    let arguments = Seq::from_vec(vec![in alloc; 0]?);
    let nodes = vec![in alloc;
        Node {
            head: Head::Symbol(0),
            arguments: Seq::new(alloc),
        },
        Node {
            head: Head::Theory(Operator::Not),
            arguments,
        },
    ]?;
    Terms::from_nodes(alloc, nodes)
}

fn worker(alloc: Global) -> Worker {
    Worker {
        own: Seq::new(alloc),
        mark: 0,
        ended: false,
    }
}

/// Nothing declared and nothing asserted.
pub fn empty_level(alloc: Global) -> Level
    ensures { result ≡ record { declared = []; asserted = [] } }
{
    Level {
        declared: Seq::new(alloc),
        asserted: Seq::new(alloc),
    }
}

/// Two workers that have done nothing, over these levels.
pub fn race_of_two(alloc: Global, levels: Levels) -> Result<RaceState, AllocError>
    ensures { IfOk result (λ s. s.levels ≡ levels) }
{
    let workers = vec![in alloc; worker(alloc), worker(alloc)]?;
    Ok(RaceState {
        levels,
        entries: Vec::new(alloc),
        workers,
        winner: None,
        global: false,
    })
}

// A level where p is declared.
fn first_level(alloc: Global) -> Result<Level, AllocError>
    ensures { IfOk result (λ l. l ≡ record { declared = p ∷ []; asserted = [] }) }
{
    let declared = vec![in alloc; declare_p(alloc)?]?;
    Ok(Level {
        declared: Seq::from_vec(declared),
        asserted: Seq::new(alloc),
    })
}

/// The level where p is declared, alone.
pub fn first_levels(alloc: Global) -> Result<Levels, AllocError>
    ensures { IfOk result (λ l. base_of l ≡ declared) }
{
    let level = first_level(alloc)?;
    let terms = terms(alloc)?;
    let levels = vec![in alloc; level]?;
    Ok(Levels { terms, levels })
}

// Two workers over it.
fn start(alloc: Global) -> Result<RaceState, AllocError>
    ensures { IfOk result (λ s. (state_of s).base ≡ declared) }
{
    let levels = first_levels(alloc)?;
    let state = race_of_two(alloc, levels)?;
    Ok(state)
}

/// The s-expression that is a symbol.
pub fn word(alloc: Global, name: &[u8]) -> Result<SExpr, AllocError>
    ensures { IfOk result (λ s. s ≡ Symbol name.now ∷ []) }
{
    let mut tokens = Tokens::new(alloc);
    tokens.push(TokenView::Symbol(name))?;
    Ok(tokens.into_sexpr())
}

// A function applied to a symbol.
fn application(alloc: Global, function: &[u8], argument: &[u8]) -> Result<SExpr, AllocError>
    ensures { IfOk result (λ s. s ≡ Enter ∷ Symbol function.now ∷ Symbol argument.now ∷ Leave ∷ []) }
{
    let mut tokens = Tokens::new(alloc);
    tokens.push(TokenView::Enter)?;
    tokens.push(TokenView::Symbol(function))?;
    tokens.push(TokenView::Symbol(argument))?;
    tokens.push(TokenView::Leave)?;
    Ok(tokens.into_sexpr())
}

/// An assertion that declares nothing and gives no names.
pub fn assertion(alloc: Global, text: SExpr, term: TermId) -> Addition
    ensures { result ≡ asserting text term }
{
    Addition {
        declared: Seq::new(alloc),
        formula: Some(Formula { text, term }),
        named: Seq::new(alloc),
    }
}

// Asserts p.
fn state_p(alloc: Global, state: &mut RaceState) -> Result<bool, AllocError>
    requires { (state_of state.old).base ≡ declared }
    ensures { IfOk result (λ took. IsTrue took → (state_of state.new).base ≡ stated) }
{
    let addition = assertion(alloc, word(alloc, b"p")?, 0);
    let took = state.step(alloc, Event::Assert(addition))?;
    Ok(took)
}

// Adds a level.
fn raise(alloc: Global, state: &mut RaceState) -> Result<bool, AllocError>
    requires { (state_of state.old).base ≡ stated }
    ensures { IfOk result (λ took. IsTrue took → (state_of state.new).base ≡ raised) }
{
    let took = state.step(alloc, Event::Push(1))?;
    Ok(took)
}

// Asserts the negation of p.
fn deny_p(alloc: Global, state: &mut RaceState) -> Result<bool, AllocError>
    requires { (state_of state.old).base ≡ raised }
    ensures { IfOk result (λ took. IsTrue took → (state_of state.new).base ≡ denied) }
{
    let addition = assertion(alloc, application(alloc, b"not", b"p")?, 1);
    let took = state.step(alloc, Event::Assert(addition))?;
    Ok(took)
}

// The clause without literals, at level 1.
fn refutation(alloc: Global) -> Clause
    ensures { result ≡ empty_at_one }
{
    Clause {
        literals: Seq::new(alloc),
        level: 1,
    }
}

// Learns the clause without literals from both assertions.
fn refute(alloc: Global, state: &mut RaceState) -> Result<bool, AllocError>
    requires { (state_of state.old).base ≡ denied }
    ensures { IfOk result (λ took. IsTrue took → (state_of state.new).base ≡ denied) }
{
    let premises = vec![in alloc; Premise::Asserted(0, 0), Premise::Asserted(1, 0)]?;
    let event = Event::Learn(0, Seq::from_vec(premises), refutation(alloc));
    let took = state.step(alloc, event)?;
    Ok(took)
}

// An event for which nothing is owed, and which keeps the levels.
fn share_or_take(alloc: Global, state: &mut RaceState, shares: bool) -> Result<bool, AllocError>
    ensures { IfOk result (λ took. (state_of state.new).base ≡ (state_of state.old).base) }
{
    let event = if shares {
        Event::Share(0, refutation(alloc))
    } else {
        Event::TakeBatch(1)
    };
    let took = state.step(alloc, event)?;
    Ok(took)
}

// Takes a level away.
fn lower(alloc: Global, state: &mut RaceState) -> Result<bool, AllocError>
    requires { (state_of state.old).base ≡ denied }
    ensures { IfOk result (λ took. IsTrue took → (state_of state.new).base ≡ stated) }
{
    let took = state.step(alloc, Event::Pop(1))?;
    Ok(took)
}

// Learns p at level 1 from its assertion.
fn learn_p(alloc: Global, state: &mut RaceState) -> Result<bool, AllocError>
    requires { (state_of state.old).base ≡ stated }
{
    let literal = Literal {
        atom: Atom::Truth(0),
        positive: true,
    };
    let clause = Clause {
        literals: Seq::from_vec(vec![in alloc; literal]?),
        level: 1,
    };
    let premises = Seq::from_vec(vec![in alloc; Premise::Asserted(0, 0)]?);
    let took = state.step(alloc, Event::Learn(0, premises, clause))?;
    Ok(took)
}

// A race where p is asserted and denied, and the clause without literals learnt from that. None where a step isn't taken.
fn refuted(alloc: Global) -> Result<Option<RaceState>, AllocError>
    ensures { IfOk result (λ r. IfSome r (λ s. (state_of s).base ≡ denied)) }
{
    let mut state = start(alloc)?;
    if !state_p(alloc, &mut state)? {
        return Ok(None);
    }
    if !raise(alloc, &mut state)? {
        return Ok(None);
    }
    if !deny_p(alloc, &mut state)? {
        return Ok(None);
    }
    if !refute(alloc, &mut state)? {
        return Ok(None);
    }
    Ok(Some(state))
}

/// A clause that rests on a popped assertion goes with it: from the entries, from what was read of them, and from what may be shared or learnt.
#[test]
fn a_pop_takes_its_clauses(rt: HostRuntime) -> Result<(), Fail> {
    let alloc = rt.alloc();
    let Some(mut state) = refuted(alloc)? else {
        panic!(rt; "not refuted")
    };
    assert!(rt; share_or_take(alloc, &mut state, true)?);
    assert!(rt; share_or_take(alloc, &mut state, false)?);
    assert!(rt; lower(alloc, &mut state)?);
    assert_eq!(rt; state.entries.len(), 0);
    assert!(rt; matches!(state.workers.get(1), Some(Worker { mark: 0, .. })));
    assert!(rt; !share_or_take(alloc, &mut state, true)?);
    assert!(rt; !learn_p(alloc, &mut state)?);
    Ok(())
}
