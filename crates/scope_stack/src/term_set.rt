//! Sets of terms.
ghost use Rattle.std.specs.Prelude.{◌≡◌, ◌<◌, [], length, slice_index, All, IfSome, OnOk};

use smt_meaning::TermId;
use std::alloc::{AllocError, Global};

/// A set of terms: its members, each listed once, and of each term there is the place at which it is listed, if it is (the sparse sets of Briggs and Torczon). Of a term that isn't listed this place is any, so that a set which is kept is made empty at no cost.
#[derive(Drop)]
pub(crate) struct TermSet {
    pub members: Vec<TermId>,
    pub places: Vec<u32>,
}

/// The number of a place. Past the numbers of all terms it is the last of them: another term stands there, or none.
fn number_of(place: usize) -> u32 {
    place.min(u32::MAX as usize) as u32
}

/// Says of each member at which place it is listed.
fn set_places(members: &[TermId], places: &mut [u32])
    requires { All (λ i. i < length places.old) members.now }
    ensures { length places.new ≡ length places.old }
{
    for place in 0..members.len() {
        places[members[place] as usize] = number_of(place);
    }
}

impl TermSet {
    /// No term, of none. It takes no memory.
    pub fn new(alloc: Global) -> Self {
        TermSet {
            members: Vec::new(alloc),
            places: Vec::new(alloc),
        }
    }

    /// Makes it a set with no member, of so many terms. It costs no more than the terms that were added since the last time. An `Err` is for want of memory.
    pub fn clear(&mut self, terms: usize) -> Result<(), AllocError>
        ensures members { self.new.members.items ≡ [] }
        ensures terms { OnOk result (length self.new.places.items ≡ terms) }
    {
        self.members.clear();
        self.places.resize(terms, 0)
    }

    /// The place at which a term is listed.
    pub fn place(&self, id: TermId) -> Option<u32>
        requires { id < length self.now.places.items }
        ensures within { IfSome result (λ p. p < length self.now.members.items) }
        ensures member { IfSome result (λ p. slice_index self.now.members.items p ≡ id) }
    {
        let place = self.places[id as usize];
        if (place as usize) < self.members.len() && self.members[place as usize] == id {
            Some(place)
        } else {
            None
        }
    }

    /// Adds a term, if it isn't a member. An `Err` is for want of memory.
    pub fn insert(&mut self, id: TermId) -> Result<(), AllocError>
        requires within { id < length self.old.places.items }
        requires members { All (λ i. i < length self.old.places.items) self.old.members.items }
        ensures terms { length self.new.places.items ≡ length self.old.places.items }
        ensures members { All (λ i. i < length self.old.places.items) self.new.members.items }
    {
        if self.place(id).is_none() {
            self.places[id as usize] = number_of(self.members.len());
            self.members.push(id)?;
        }
        Ok(())
    }

    /// Lists the members in ascending order.
    pub fn sort(&mut self)
        requires { All (λ i. i < length self.old.places.items) self.old.members.items }
        ensures terms { length self.new.places.items ≡ length self.old.places.items }
        ensures members { All (λ i. i < length self.old.places.items) self.new.members.items }
    {
        self.members.sort_unstable();
        set_places(&self.members, &mut self.places);
    }
}
