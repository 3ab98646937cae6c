//! The clauses by which a literal says what others make together.
ghost use Rattle.std.specs.Prelude.{◌≡◌, ◌<◌, ◌^◌, [], ◌∷◌, ◌++◌, map, true, false, OnOk};
ghost use Rattle.smt_meaning.specs.Term.{xor};
ghost use Rattle.clause_form.specs.Signs.{negated, once, clashes};
ghost use Rattle.clause_form.specs.NodeClauses.{conjunction, never, all_of, parity, one_of_two, choices, chosen};
ghost use Rattle.clause_form.specs.WideClauses.{round, alike, excluding, parity_of_three, odd_of_three};
ghost use Rattle.clause_form.specs.Node.{plain};
ghost use Rattle.clause_form.specs.Plain.{signs, sign_lists, pairs};

use crate::gather::gather;
use crate::list::Clauses;
use literals::Literal;
use std::alloc::{AllocError, Global};

/// Lists that are used again for each node.
#[derive(Drop)]
pub struct Room {
    pub(crate) inputs: Vec<Literal>,
    pub(crate) kept: Vec<Literal>,
    pub(crate) spare: Vec<Literal>,
    pub(crate) places: Vec<usize>,
}

impl Room {
    /// Empty lists. It takes no memory.
    pub fn new(alloc: Global) -> Self {
        Room {
            inputs: Vec::new(alloc),
            kept: Vec::new(alloc),
            spare: Vec::new(alloc),
            places: Vec::new(alloc),
        }
    }
}

fn put(clauses: &mut Clauses, clause: &[Literal]) -> Result<(), AllocError>
    ensures { OnOk result (sign_lists clauses.new ≡ sign_lists clauses.old ++ signs clause.now ∷ []) }
{
    clauses.push(clause)
}

/// Adds that the literal is false.
pub(crate) fn put_never(clauses: &mut Clauses, out: Literal) -> Result<(), AllocError>
    ensures { OnOk result (sign_lists clauses.new ≡ sign_lists clauses.old ++ never (plain out)) }
{
    put(clauses, &[out.negated()])
}

/// Adds for each of these literals that it is true where the first is.
fn put_pairs(clauses: &mut Clauses, out: Literal, inputs: &[Literal]) -> Result<(), AllocError>
    ensures { OnOk result (sign_lists clauses.new ≡ sign_lists clauses.old ++ pairs (plain out) (signs inputs.now)) }
{
    for input in inputs {
        put(clauses, &[out.negated(), *input])?;
    }
    Ok(())
}

/// Adds the negations of these literals.
fn add_opposites(literals: &mut Vec<Literal>, inputs: &[Literal]) -> Result<(), AllocError>
    ensures { OnOk result (signs literals.new.items ≡ signs literals.old.items ++ map negated (signs inputs.now)) }
{
    for input in inputs {
        literals.push(input.negated())?;
    }
    Ok(())
}

/// Adds that the first literal is true exactly where each of the others is, of which none stands twice.
fn put_conjunction(
    clauses: &mut Clauses,
    spare: &mut Vec<Literal>,
    out: Literal,
    inputs: &[Literal],
) -> Result<(), AllocError>
    ensures { OnOk result (sign_lists clauses.new ≡ sign_lists clauses.old ++ conjunction (plain out) (signs inputs.now)) }
{
    spare.clear();
    spare.push(out)?;
    add_opposites(spare, inputs)?;
    put(clauses, spare)?;
    put_pairs(clauses, out, inputs)
}

/// Adds that the first literal is true exactly where each of the others is.
pub(crate) fn put_all_of(
    clauses: &mut Clauses,
    room: &mut Room,
    out: Literal,
) -> Result<(), AllocError>
    ensures { OnOk result (sign_lists clauses.new ≡ sign_lists clauses.old ++ all_of (plain out) (signs room.old.inputs.items)) }
{
    if gather(&mut room.places, &mut room.kept, &room.inputs)? {
        return put_never(clauses, out);
    }
    put_conjunction(clauses, &mut room.spare, out, &room.kept)
}

fn put_parity(clauses: &mut Clauses, out: Literal, x: u32, y: u32) -> Result<(), AllocError>
    requires x { x < 2 ^ 31 }
    requires y { y < 2 ^ 31 }
    ensures { OnOk result (sign_lists clauses.new ≡ sign_lists clauses.old ++ parity (plain out) x y) }
{
    let x = Literal::new(x, true);
    let y = Literal::new(y, true);
    put(clauses, &[out.negated(), x, y])?;
    put(clauses, &[out.negated(), x.negated(), y.negated()])?;
    put(clauses, &[out, x.negated(), y])?;
    put(clauses, &[out, x, y.negated()])
}

/// Adds that the literal is true exactly where one of two atoms is.
pub(crate) fn put_one_of_two(
    clauses: &mut Clauses,
    out: Literal,
    x: u32,
    y: u32,
) -> Result<(), AllocError>
    requires x { x < 2 ^ 31 }
    requires y { y < 2 ^ 31 }
    ensures { OnOk result (sign_lists clauses.new ≡ sign_lists clauses.old ++ one_of_two (plain out) x y) }
{
    if x == y {
        return put_never(clauses, out);
    }
    put_parity(clauses, out, x, y)
}

fn put_choices(
    clauses: &mut Clauses,
    t: Literal,
    c: Literal,
    x: Literal,
    y: Literal,
) -> Result<(), AllocError>
    requires t { t.positive ≡ true }
    requires c { c.positive ≡ true }
    requires x { x.positive ≡ true }
    requires y { y.positive ≡ true }
    ensures { OnOk result (sign_lists clauses.new ≡ sign_lists clauses.old ++ choices t.atom c.atom x.atom y.atom) }
{
    put(clauses, &[c.negated(), x.negated(), t])?;
    put(clauses, &[c.negated(), x, t.negated()])?;
    put(clauses, &[c, y.negated(), t])?;
    put(clauses, &[c, y, t.negated()])?;
    put(clauses, &[x.negated(), y.negated(), t])?;
    put(clauses, &[x, y, t.negated()])
}

/// Adds that the atom t is x where c is true, else y.
pub(crate) fn put_chosen(
    clauses: &mut Clauses,
    spare: &mut Vec<Literal>,
    t: u32,
    c: u32,
    x: u32,
    y: u32,
) -> Result<(), AllocError>
    requires t { t < 2 ^ 31 }
    requires c { c < 2 ^ 31 }
    requires x { x < 2 ^ 31 }
    requires y { y < 2 ^ 31 }
    ensures { OnOk result (sign_lists clauses.new ≡ sign_lists clauses.old ++ chosen t c x y) }
{
    if x == y {
        put_conjunction(
            clauses,
            spare,
            Literal::new(t, true),
            &[Literal::new(x, true)],
        )
    } else if c == x {
        let inputs = [Literal::new(c, false), Literal::new(y, false)];
        put_conjunction(clauses, spare, Literal::new(t, false), &inputs)
    } else if c == y {
        let inputs = [Literal::new(c, true), Literal::new(x, true)];
        put_conjunction(clauses, spare, Literal::new(t, true), &inputs)
    } else {
        put_choices(
            clauses,
            Literal::new(t, true),
            Literal::new(c, true),
            Literal::new(x, true),
            Literal::new(y, true),
        )
    }
}

/// Adds that each literal implies the next, and the last one the first, where out is true.
fn put_round(
    clauses: &mut Clauses,
    out: Literal,
    first: Literal,
    others: &[Literal],
) -> Result<(), AllocError>
    ensures { OnOk result (sign_lists clauses.new ≡ sign_lists clauses.old ++ round (plain out) (plain first) (plain first) (signs others.now)) }
{
    let mut before = first;
    for other in others {
        put(clauses, &[out.negated(), before.negated(), *other])?;
        before = *other;
    }
    put(clauses, &[out.negated(), before.negated(), first])
}

/// Adds that out is true exactly where the others, of which none stands twice, have one truth value.
fn put_alike(
    clauses: &mut Clauses,
    spare: &mut Vec<Literal>,
    out: Literal,
    inputs: &[Literal],
) -> Result<(), AllocError>
    ensures { OnOk result (sign_lists clauses.new ≡ sign_lists clauses.old ++ alike (plain out) (signs inputs.now)) }
{
    match inputs {
        [] => Ok(()),
        [_] => put(clauses, &[out]),
        [first, others @ ..] => {
            put_ends(clauses, spare, out, inputs)?;
            put_round(clauses, out, *first, others)
        }
    }
}

/// Adds that out is true where all of these are false, and where all are true.
fn put_ends(
    clauses: &mut Clauses,
    spare: &mut Vec<Literal>,
    out: Literal,
    inputs: &[Literal],
) -> Result<(), AllocError>
    ensures { OnOk result (sign_lists clauses.new ≡ sign_lists clauses.old ++ (plain out ∷ map negated (signs inputs.now)) ∷ (plain out ∷ signs inputs.now) ∷ []) }
{
    spare.clear();
    spare.push(out)?;
    add_opposites(spare, inputs)?;
    put(clauses, spare)?;
    spare.clear();
    spare.push(out)?;
    spare.extend_from_slice(inputs)?;
    put(clauses, spare)
}

/// Adds that the atom is true exactly where all of the room's inputs have one truth value.
pub(crate) fn put_equal(
    clauses: &mut Clauses,
    room: &mut Room,
    out: Literal,
) -> Result<(), AllocError>
    requires { clashes (signs room.old.inputs.items) ≡ false }
    ensures { OnOk result (sign_lists clauses.new ≡ sign_lists clauses.old ++ alike (plain out) (once (signs room.old.inputs.items))) }
{
    if gather(&mut room.places, &mut room.kept, &room.inputs)? {
        return Ok(());
    }
    put_alike(clauses, &mut room.spare, out, &room.kept)
}

fn is_odd(a: bool, b: bool, c: bool) -> bool
    ensures { result ≡ xor (xor a b) c }
{
    if a { b == c } else { b != c }
}

/// Adds what t is where three atoms have these truth values.
fn put_excluding(
    clauses: &mut Clauses,
    t: u32,
    x: Literal,
    y: Literal,
    z: Literal,
) -> Result<(), AllocError>
    requires { t < 2 ^ 31 }
    ensures { OnOk result (sign_lists clauses.new ≡ sign_lists clauses.old ++ excluding t x.atom y.atom z.atom x.positive y.positive z.positive ∷ []) }
{
    let out = is_odd(x.is_positive(), y.is_positive(), z.is_positive());
    put(
        clauses,
        &[x.negated(), y.negated(), z.negated(), Literal::new(t, out)],
    )
}

/// Adds what t is where the first of three atoms has its literal's truth value.
fn put_excluding_all(
    clauses: &mut Clauses,
    t: u32,
    x: Literal,
    y: Literal,
    z: Literal,
) -> Result<(), AllocError>
    requires t { t < 2 ^ 31 }
    requires y { y.positive ≡ true }
    requires z { z.positive ≡ true }
    ensures { OnOk result (sign_lists clauses.new ≡ sign_lists clauses.old ++ excluding t x.atom y.atom z.atom x.positive false false ∷ excluding t x.atom y.atom z.atom x.positive false true ∷ excluding t x.atom y.atom z.atom x.positive true false ∷ excluding t x.atom y.atom z.atom x.positive true true ∷ []) }
{
    put_excluding(clauses, t, x, y.negated(), z.negated())?;
    put_excluding(clauses, t, x, y.negated(), z)?;
    put_excluding(clauses, t, x, y, z.negated())?;
    put_excluding(clauses, t, x, y, z)
}

/// Adds that t is true exactly where an odd number of three atoms is.
fn put_parity_of_three(
    clauses: &mut Clauses,
    t: u32,
    x: Literal,
    y: Literal,
    z: Literal,
) -> Result<(), AllocError>
    requires t { t < 2 ^ 31 }
    requires x { x.positive ≡ true }
    requires y { y.positive ≡ true }
    requires z { z.positive ≡ true }
    ensures { OnOk result (sign_lists clauses.new ≡ sign_lists clauses.old ++ parity_of_three t x.atom y.atom z.atom) }
{
    put_excluding_all(clauses, t, x.negated(), y, z)?;
    put_excluding_all(clauses, t, x, y, z)
}

/// Adds that the atom t is true exactly where an odd number of three atoms is.
pub(crate) fn put_odd_of_three(
    clauses: &mut Clauses,
    spare: &mut Vec<Literal>,
    t: u32,
    x: u32,
    y: u32,
    z: u32,
) -> Result<(), AllocError>
    requires t { t < 2 ^ 31 }
    requires x { x < 2 ^ 31 }
    requires y { y < 2 ^ 31 }
    requires z { z < 2 ^ 31 }
    ensures { OnOk result (sign_lists clauses.new ≡ sign_lists clauses.old ++ odd_of_three t x y z) }
{
    let out = Literal::new(t, true);
    if x == y {
        put_conjunction(clauses, spare, out, &[Literal::new(z, true)])
    } else if x == z {
        put_conjunction(clauses, spare, out, &[Literal::new(y, true)])
    } else if y == z {
        put_conjunction(clauses, spare, out, &[Literal::new(x, true)])
    } else {
        put_parity_of_three(
            clauses,
            t,
            Literal::new(x, true),
            Literal::new(y, true),
            Literal::new(z, true),
        )
    }
}
