//! Places in lists that rise.
ghost use Rattle.std.specs.Prelude.{◌≡◌, ◌<◌, ◌≤◌, length, take, drop, Some, None, IfSome, IfNone, All, AllPairs};
ghost use Rattle.smt_meaning.specs.Declaration.{Declaration as DeclarationValue};
ghost use Rattle.smt_sorts.specs.Listed.{first_that, has_id, IsPlaceOf};

use smt_meaning::{Declaration, SymId};

/// How many of the first levels are below this one.
pub(crate) fn below_level(levels: &[u32], level: u32) -> usize
    requires { AllPairs (λ j k. j ≤ k) levels.now }
    ensures within { result ≤ length levels.now }
    ensures below { All (λ k. k < level) (take result levels.now) }
    ensures above { All (λ k. level ≤ k) (drop result levels.now) }
{
    levels.partition_point(|each| *each < level)
}

/// How many of the first declarations have an id below this one.
pub(crate) fn below_id(declarations: &[Declaration], id: SymId) -> usize
    requires { AllPairs (λ (d e : DeclarationValue). d.id < e.id) declarations.now }
    ensures within { result ≤ length declarations.now }
    ensures below { All (λ (d : DeclarationValue). d.id < id) (take result declarations.now) }
    ensures above { All (λ (d : DeclarationValue). id ≤ d.id) (drop result declarations.now) }
{
    declarations.partition_point(|declaration| declaration.id() < id)
}

/// The place of the declaration with this id, where ids rise.
fn find(declarations: &[Declaration], id: SymId) -> Option<usize>
    requires { AllPairs (λ (d e : DeclarationValue). d.id < e.id) declarations.now }
    ensures some { IfSome result (IsPlaceOf declarations.now id) }
    ensures none { IfNone result (first_that (has_id id) declarations.now ≡ None) }
{
    let place = below_id(declarations, id);
    if place == declarations.len() {
        return None;
    }
    if declarations[place].id() == id {
        Some(place)
    } else {
        None
    }
}

/// The place of the declaration with this id, where ids rise along the first declarations, so many, and along the others.
pub(crate) fn with_id(declarations: &[Declaration], base: usize, id: SymId) -> Option<usize>
    requires within { base ≤ length declarations.now }
    requires base { AllPairs (λ (d e : DeclarationValue). d.id < e.id) (take base declarations.now) }
    requires above { AllPairs (λ (d e : DeclarationValue). d.id < e.id) (drop base declarations.now) }
    ensures some { IfSome result (IsPlaceOf declarations.now id) }
    ensures none { IfNone result (first_that (has_id id) declarations.now ≡ None) }
{
    let (first, rest) = declarations.split_at(base);
    match find(first, id) {
        Some(place) => Some(place),
        None => match find(rest, id) {
            Some(place) => Some(base + place),
            None => None,
        },
    }
}
