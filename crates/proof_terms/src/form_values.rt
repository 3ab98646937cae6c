//! What the truth values of some parts say of the value of a term: an atom is its number, a literal its code.
ghost use Rattle.std.specs.Prelude.{Some, IfSome, ◌≡◌, ◌≢◌, ◌<◌, ◌*◌, ◌+◌, ◌⊎◌, ℕ, Bool, true, false, not, map, All, Contains, Ok, OnOk};
ghost use Rattle.std.specs.List.{list_all, list_any};
ghost use Rattle.std.specs.List.Sorted.{IsNonDecreasing};
ghost use Rattle.proof_terms.specs.declared.form_values.Connective.TheVariants.{Ite};
ghost use Rattle.proof_terms.specs.FormValues.{itself, is_odd, implied, choice_of, connective_value, is_in, chosen, value_by, AreNumbers, IsFree, IsOddPart, IsFreePart, IsLastPart, IsPickOf, IsForced, IsOpen, IsAlways, IsSometimesFalse, GivesAt, IsGiven, toggled, AreParts, HasNoClash, IsClash, IsAmong};

use std::alloc::{AllocError, Global};

/// How the truth value of a term comes from those of its parts.
#[derive(Clone, Copy, PartialEq, Eq, Drop)]
pub(crate) enum Connective {
    And,
    Or,
    /// None is true.
    Nor,
    /// An odd number of them are true.
    Xor,
    /// The first implies (.. implies the last).
    Implies,
    /// All have one truth value.
    Equal,
    /// The second where the first is true, else the third.
    Ite,
    /// False whatever they are.
    False,
}

/// The parts of a term by the numbers of their atoms: in order, and ascending.
#[derive(Clone, Copy, Drop)]
struct Parts<'a> {
    connective: Connective,
    numbers: &'a [u32],
    sorted: &'a [u32],
}

/// Whether all are true.
fn all(values: &[bool]) -> bool
    ensures { result ≡ list_all itself values.now }
{
    values.iter().all(|value| *value)
}

/// Whether one is true.
fn any(values: &[bool]) -> bool
    ensures { result ≡ list_any itself values.now }
{
    values.iter().any(|value| *value)
}

/// Whether an odd number of them are true.
fn odd(values: &[bool]) -> bool
    ensures { result ≡ is_odd values.now }
{
    let mut odd = false;
    for value in values {
        odd = odd != *value;
    }
    odd
}

/// Whether the first implies (.. implies the last).
fn implied(values: &[bool]) -> bool
    ensures { result ≡ implied values.now }
{
    match values.split_last() {
        Some((last, before)) => *last || !all(before),
        None => false,
    }
}

/// The second where the first is true, else the third.
fn choice(values: &[bool]) -> bool
    ensures { result ≡ choice_of values.now }
{
    if values.len() != 3 {
        return false;
    }
    if values[0] { values[1] } else { values[2] }
}

/// The truth value of a term whose parts have these.
fn value_of(connective: Connective, values: &[bool]) -> bool
    ensures { result ≡ connective_value connective values.now }
{
    match connective {
        Connective::And => all(values),
        Connective::Or => any(values),
        Connective::Nor => !any(values),
        Connective::Xor => odd(values),
        Connective::Implies => implied(values),
        Connective::Equal => all(values) || !any(values),
        Connective::Ite => choice(values),
        Connective::False => false,
    }
}

/// Whether an ascending list has a number.
pub(crate) fn has(numbers: &[u32], number: u32) -> bool
    requires { IsNonDecreasing numbers.now }
    ensures { result ≡ is_in numbers.now number }
{
    numbers.binary_search(&number).is_ok()
}

/// The truth value that makes an atom's literal false. Where it has none, a given one, turned for one atom.
fn truth(codes: &[u32], rest: bool, turned: Option<u32>, number: u32) -> bool
    requires codes { IsNonDecreasing codes.now }
    requires number { number < 2147483648 }
    ensures { result ≡ chosen codes.now rest turned number }
{
    if has(codes, number * 2) {
        return true;
    }
    if has(codes, number * 2 + 1) {
        return false;
    }
    match turned {
        Some(other) => { if other == number { !rest } else { rest } }
        None => rest,
    }
}

/// Puts the truth values of atoms into the list, whatever it was before.
fn truths(
    codes: &[u32],
    parts: &[u32],
    rest: bool,
    turned: Option<u32>,
    values: &mut Vec<bool>,
) -> Result<(), AllocError>
    requires codes { IsNonDecreasing codes.now }
    requires parts { AreNumbers parts.now }
    ensures { OnOk result (values.new.items ≡ map (chosen codes.now rest turned) parts.now) }
{
    values.clear();
    for part in parts {
        values.push(truth(codes, rest, turned, *part))?;
    }
    Ok(())
}

/// Whether a term has this value where the parts have such truth values.
fn gives(
    connective: Connective,
    codes: &[u32],
    parts: &[u32],
    rest: bool,
    turned: Option<u32>,
    sign: bool,
    values: &mut Vec<bool>,
) -> Result<bool, AllocError>
    requires codes { IsNonDecreasing codes.now }
    requires parts { AreNumbers parts.now }
    ensures yes { result ≡ Ok true → value_by connective codes.now parts.now rest turned ≡ sign }
    ensures no { result ≡ Ok false → value_by connective codes.now parts.now rest turned ≡ not sign }
{
    truths(codes, parts, rest, turned, values)?;
    Ok(value_of(connective, values) == sign)
}

/// Whether it has this value for both truth values of the other atoms.
fn both_give(
    connective: Connective,
    codes: &[u32],
    parts: &[u32],
    turned: Option<u32>,
    sign: bool,
    values: &mut Vec<bool>,
) -> Result<bool, AllocError>
    requires codes { IsNonDecreasing codes.now }
    requires parts { AreNumbers parts.now }
    ensures yes { result ≡ Ok true → (rest : Bool) → value_by connective codes.now parts.now rest turned ≡ sign }
    ensures no { result ≡ Ok false → IsOpen connective codes.now parts.now sign }
{
    if !gives(connective, codes, parts, true, turned, sign, values)? {
        return Ok(false);
    }
    gives(connective, codes, parts, false, turned, sign, values)
}

/// Whether it has this value where any one of its parts differs from the others.
fn each_gives(
    connective: Connective,
    codes: &[u32],
    parts: &[u32],
    sign: bool,
    values: &mut Vec<bool>,
) -> Result<bool, AllocError>
    requires codes { IsNonDecreasing codes.now }
    requires parts { AreNumbers parts.now }
    ensures yes { result ≡ Ok true → All (GivesAt connective codes.now parts.now sign) parts.now }
    ensures no { result ≡ Ok false → IsOpen connective codes.now parts.now sign }
{
    for part in parts {
        if !both_give(connective, codes, parts, Some(*part), sign, values)? {
            return Ok(false);
        }
    }
    Ok(true)
}

/// Whether an atom has no literal.
fn is_free(codes: &[u32], number: u32) -> bool
    requires codes { IsNonDecreasing codes.now }
    requires number { number < 2147483648 }
    ensures free { result ≡ true → IsFree codes.now number }
    ensures given { result ≡ false → IsGiven codes.now number }
{
    if has(codes, number * 2) {
        return false;
    }
    !has(codes, number * 2 + 1)
}

/// The first part whose atom has no literal.
fn free_part(codes: &[u32], parts: &[u32]) -> Option<u32>
    requires codes { IsNonDecreasing codes.now }
    requires parts { AreNumbers parts.now }
    ensures { IsFreePart codes.now parts.now result }
{
    for part in parts {
        if is_free(codes, *part) {
            return Some(*part);
        }
    }
    None
}

/// Whether another atom waits.
fn is_other(odd: Option<u32>, number: u32) -> bool
    ensures other { result ≡ true → (p : ℕ) × (odd ≡ Some p) × (p ≢ number) }
    ensures same { result ≡ false → IfSome odd (λ p. p ≡ number) }
{
    match odd {
        Some(other) => other != number,
        None => false,
    }
}

/// An atom that stands once more.
fn once_more(odd: Option<u32>, number: u32) -> Option<u32>
    ensures { result ≡ toggled odd number }
{
    match odd {
        Some(_) => None,
        None => Some(number),
    }
}

/// An atom without a literal that stands an odd number of times among the parts, which ascend.
fn odd_part(codes: &[u32], sorted: &[u32]) -> Option<u32>
    requires codes { IsNonDecreasing codes.now }
    requires parts { AreNumbers sorted.now }
    requires sorted { IsNonDecreasing sorted.now }
    ensures { IsOddPart codes.now sorted.now result }
{
    let mut odd = None;
    for number in sorted {
        if is_free(codes, *number) {
            if is_other(odd, *number) {
                return odd;
            }
            odd = once_more(odd, *number);
        }
    }
    odd
}

/// The part whose other truth value tells most.
fn pick(codes: &[u32], parts: Parts<'_>) -> Option<u32>
    requires codes { IsNonDecreasing codes.now }
    requires parts { AreParts parts.numbers.now parts.sorted.now }
    ensures { IsPickOf parts.entry.connective codes.now parts.entry.numbers.now result }
{
    match parts.connective {
        Connective::Xor => odd_part(codes, parts.sorted),
        Connective::Implies => last_part(parts.numbers),
        Connective::Equal => free_part(codes, parts.numbers),
        Connective::And | Connective::Or | Connective::Nor | Connective::Ite | Connective::False =>
            None,
    }
}

/// The last part.
fn last_part(parts: &[u32]) -> Option<u32>
    ensures { IsLastPart parts.now result }
{
    match parts.split_last() {
        Some((last, _)) => Some(*last),
        None => None,
    }
}

/// Whether a term is an `ite`.
fn is_choice(connective: Connective) -> bool
    ensures yes { result ≡ true → connective ≡ Ite }
    ensures no { result ≡ false → connective ≢ Ite }
{
    match connective {
        Connective::Ite => true,
        Connective::And
        | Connective::Or
        | Connective::Nor
        | Connective::Xor
        | Connective::Implies
        | Connective::Equal
        | Connective::False => false,
    }
}

/// Whether a term has this value wherever all literals are false; no atom has literals of both signs.
fn is_forced(
    codes: &[u32],
    parts: Parts<'_>,
    sign: bool,
    values: &mut Vec<bool>,
) -> Result<bool, AllocError>
    requires codes { IsNonDecreasing codes.now }
    requires parts { AreParts parts.numbers.now parts.sorted.now }
    requires signs { HasNoClash codes.now }
    ensures yes { result ≡ Ok true → IsForced parts.entry.connective codes.now parts.entry.numbers.now sign }
    ensures no { result ≡ Ok false → IsOpen parts.entry.connective codes.now parts.entry.numbers.now sign }
{
    let connective = parts.connective;
    let numbers = parts.numbers;
    if !both_give(connective, codes, numbers, None, sign, values)? {
        return Ok(false);
    }
    if is_choice(connective) {
        return each_gives(connective, codes, numbers, sign, values);
    }
    match pick(codes, parts) {
        Some(number) => both_give(connective, codes, numbers, Some(number), sign, values),
        None => Ok(true),
    }
}

/// Whether a literal is negative and its negation is there.
fn is_negated(codes: &[u32], code: u32) -> bool
    requires { IsNonDecreasing codes.now }
    ensures clash { result ≡ true → Contains codes.now code → IsClash codes.now }
    ensures none { result ≡ false → (n : ℕ) → code ≡ n * 2 → Contains codes.now (n * 2 + 1) → ⊥ }
{
    if code % 2 == 1 {
        return false;
    }
    has(codes, code + 1)
}

/// Whether an atom has literals of both signs.
pub(crate) fn has_clash(codes: &[u32]) -> bool
    requires { IsNonDecreasing codes.now }
    ensures clash { result ≡ true → IsClash codes.now }
    ensures none { result ≡ false → HasNoClash codes.now }
{
    for code in codes {
        if is_negated(codes, *code) {
            return true;
        }
    }
    false
}

/// Whether a literal is on a term's own atom or on a part.
fn is_among(code: u32, own: u32, sorted: &[u32]) -> bool
    requires { IsNonDecreasing sorted.now }
    ensures yes { result ≡ true → IsAmong own sorted.now code }
    ensures no { result ≡ false → IsAmong own sorted.now code → ⊥ }
{
    let number = code / 2;
    if number == own {
        return true;
    }
    has(sorted, number)
}

/// Whether each literal is on a term's own atom or on a part; the parts ascend.
fn are_among(codes: &[u32], own: u32, sorted: &[u32]) -> bool
    requires { IsNonDecreasing sorted.now }
    ensures yes { result ≡ true → All (IsAmong own sorted.now) codes.now }
    ensures no { result ≡ false → All (IsAmong own sorted.now) codes.now → ⊥ }
{
    for code in codes {
        if !is_among(*code, own, sorted) {
            return false;
        }
    }
    true
}

/// Whether some literal is true wherever a term's own atom has the value that its parts give it.
fn is_always(alloc: Global, codes: &[u32], own: u32, parts: Parts<'_>) -> Result<bool, AllocError>
    requires codes { IsNonDecreasing codes.now }
    requires own { own < 2147483648 }
    requires other { Contains parts.numbers.now own → ⊥ }
    requires parts { AreParts parts.numbers.now parts.sorted.now }
    ensures yes { result ≡ Ok true → IsAlways parts.entry.connective codes.now own parts.entry.numbers.now }
    ensures no { result ≡ Ok false → IsSometimesFalse parts.entry.connective codes.now own parts.entry.numbers.now }
{
    if has_clash(codes) {
        return Ok(true);
    }
    let mut values = Vec::new(alloc);
    if has(codes, own * 2 + 1) {
        return is_forced(codes, parts, true, &mut values);
    }
    if has(codes, own * 2) {
        return is_forced(codes, parts, false, &mut values);
    }
    Ok(false)
}

/// Whether each literal is on a term's own atom or on a part, and some literal is true wherever the own atom has the value that the parts give it.
pub(crate) fn is_valid(
    alloc: Global,
    codes: &[u32],
    own: u32,
    connective: Connective,
    numbers: &[u32],
) -> Result<bool, AllocError>
    requires codes { IsNonDecreasing codes.now }
    requires own { own < 2147483648 }
    requires other { Contains numbers.now own → ⊥ }
    requires numbers { AreNumbers numbers.now }
    ensures among { result ≡ Ok true → All (IsAmong own numbers.now) codes.now }
    ensures always { result ≡ Ok true → IsAlways connective codes.now own numbers.now }
    ensures no { result ≡ Ok false → (All (IsAmong own numbers.now) codes.now → ⊥) ⊎ IsSometimesFalse connective codes.now own numbers.now }
{
    let mut sorted = Vec::from_slice(alloc, numbers)?;
    sorted.sort_unstable();
    if !are_among(codes, own, &sorted) {
        return Ok(false);
    }
    let parts = Parts {
        connective,
        numbers,
        sorted: &sorted,
    };
    is_always(alloc, codes, own, parts)
}
