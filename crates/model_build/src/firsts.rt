//! Of the applications to which a table gives one value, the first.
ghost use Rattle.std.specs.Prelude.{◌≡◌, ℕ, ◌+◌, ◌<◌, ◌^◌, ◌↔◌, [], ◌∷◌, ◌++◌, length, map, All, Contains, IsTrue, IfOk, IfSome, IfNone, OnOk, MatchOption};
ghost use Rattle.model_build.specs.Given.{given_at, arguments_given, IsApplication, IsClash, HasNoClash};
ghost use Rattle.model_build.specs.Keys.{key_hash, symbol_at, hash_at, HasKey, AreFirst};

use crate::applications::{application_at, are_alike};
use crate::hash::hash_of;
use crate::{Clash, Given};
use smt_meaning::{SymId, TermId};
use std::alloc::{AllocError, Global};
use term_store::{HashIndex, TermStore};

/// The places of applications, and their hashes.
#[derive(Drop)]
pub(crate) struct Firsts {
    pub(crate) places: Vec<TermId>,
    keys: HashIndex,
}

impl Firsts {
    /// No application. It takes no memory.
    pub(crate) fn new(alloc: Global) -> Self
        ensures places { result.places.items ≡ [] }
        ensures keys { result.keys ≡ [] }
    {
        Firsts {
            places: Vec::new(alloc),
            keys: HashIndex::new(alloc),
        }
    }

    fn push(&mut self, place: TermId, hash: u32) -> Result<(), AllocError>
        requires { length self.old.keys + 1 < 2 ^ 32 }
        ensures places { OnOk result (self.new.places.items ≡ self.old.places.items ++ place ∷ []) }
        ensures keys { OnOk result (self.new.keys ≡ self.old.keys ++ hash ∷ []) }
    {
        self.keys.push(hash)?;
        self.places.push(place)?;
        Ok(())
    }
}

/// Whether a table gives the application at a place what it gives for this symbol and these arguments.
fn has_key(
    store: &TermStore,
    given: &[Given],
    place: TermId,
    symbol: SymId,
    arguments: &[TermId],
) -> bool
    requires size { length given.now ≡ length store.now.trees }
    requires application { IsApplication store.now.trees given.now (symbol_at store.now.trees place) place }
    requires arguments { All (λ i. i < length given.now) arguments.now }
    ensures { IsTrue result ↔ HasKey store.now.trees given.now symbol (map (given_at given.now) arguments.now) place }
{
    match application_at(store, given, place) {
        Some(other) => other.symbol == symbol && are_alike(given, arguments, other.arguments),
        None => false,
    }
}

/// The application to which a table gives what it gives for this symbol and these arguments.
fn find(
    store: &TermStore,
    given: &[Given],
    firsts: &Firsts,
    symbol: SymId,
    arguments: &[TermId],
    hash: u32,
) -> Option<TermId>
    requires size { length given.now ≡ length store.now.trees }
    requires applications { All (λ p. IsApplication store.now.trees given.now (symbol_at store.now.trees p) p) firsts.now.places.items }
    requires hashed { firsts.now.keys ≡ map (hash_at store.now.trees given.now) firsts.now.places.items }
    requires arguments { All (λ i. i < length given.now) arguments.now }
    requires hash { hash ≡ key_hash symbol (map (given_at given.now) arguments.now) }
    ensures some { IfSome result (λ q. Contains firsts.now.places.items q × HasKey store.now.trees given.now symbol (map (given_at given.now) arguments.now) q) }
    ensures none { IfNone result (All (λ q. HasKey store.now.trees given.now symbol (map (given_at given.now) arguments.now) q → ⊥) firsts.now.places.items) }
{
    let mut link = firsts.keys.last(hash);
    while link > 0 {
        let at = (link - 1) as usize;
        let place = firsts.places[at];
        if has_key(store, given, place, symbol, arguments) {
            return Some(place);
        }
        link = firsts.keys.before(at);
    }
    None
}

/// Goes on to a place: keeps its application, unless one with its key is kept, and gives this one where it is given another value.
fn note(
    store: &TermStore,
    given: &[Given],
    firsts: &mut Firsts,
    place: TermId,
) -> Result<Option<TermId>, AllocError>
    requires size { length given.now ≡ length store.now.trees }
    requires place { place < length store.now.trees }
    requires few { length store.now.trees < 2 ^ 32 }
    requires first { AreFirst store.now.trees given.now place firsts.old.places.items }
    requires hashed { firsts.old.keys ≡ map (hash_at store.now.trees given.now) firsts.old.places.items }
    ensures found { IfOk result (λ r. MatchOption r (AreFirst store.now.trees given.now (place + 1) firsts.new.places.items) (λ q. IsClash store.now.trees given.now q place)) }
    ensures hashed { OnOk result (firsts.new.keys ≡ map (hash_at store.now.trees given.now) firsts.new.places.items) }
{
    let application = match application_at(store, given, place) {
        Some(application) => application,
        None => return Ok(None),
    };
    let hash = hash_of(given, application.symbol, application.arguments);
    match find(
        store,
        given,
        firsts,
        application.symbol,
        application.arguments,
        hash,
    ) {
        Some(other) => Ok(differing(given, other, place)),
        None => {
            firsts.push(place, hash)?;
            Ok(None)
        }
    }
}

/// The first place, where the two are given different values.
fn differing(given: &[Given], first: TermId, second: TermId) -> Option<TermId>
    requires first { first < length given.now }
    requires second { second < length given.now }
    ensures none { IfNone result (given_at given.now first ≡ given_at given.now second) }
    ensures some { IfSome result (λ q. (q ≡ first) × (given_at given.now first ≡ given_at given.now second → ⊥)) }
{
    if given[first as usize] == given[second as usize] {
        None
    } else {
        Some(first)
    }
}

/// Keeps the applications of the store, up to the first clash.
pub(crate) fn collect(
    store: &TermStore,
    given: &[Given],
    firsts: &mut Firsts,
) -> Result<Option<Clash>, AllocError>
    requires size { length given.now ≡ length store.now.trees }
    requires empty { firsts.old.places.items ≡ [] }
    requires no_keys { firsts.old.keys ≡ [] }
    ensures none { IfOk result (λ r. MatchOption r (AreFirst store.now.trees given.now (length store.now.trees) firsts.new.places.items) (λ c. IsClash store.now.trees given.now c.first c.second)) }
    ensures no_clash { IfOk result (λ r. MatchOption r (HasNoClash store.now.trees given.now) (λ c. IsClash store.now.trees given.now c.first c.second)) }
{
    for place in 0..store.len() {
        if let Some(first) = note(store, given, firsts, place)? {
            return Ok(Some(Clash {
                first,
                second: place,
            }));
        }
    }
    Ok(None)
}
